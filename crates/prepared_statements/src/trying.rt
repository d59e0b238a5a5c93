//! Which texts may be prepared.
ghost use Rattle.std.specs.Prelude.{◌≡◌, ◌↔◌, true, ◌⊎◌, ◌≤◌, ◌<◌, ℕ, List, [], ◌∷◌, length, None, IfOk, IfErr, IfSome, MatchResult, pos, negsuc};
ghost use Rattle.sql_lexer.specs.Value.{Value};
ghost use Rattle.sql_tree.specs.declared.Statement.{Statement};
ghost use Rattle.sql_lexer.specs.declared.token.Token.{Token as LexedToken};
ghost use Rattle.sql_lexer.specs.Tokens.{Lexes};
ghost use Rattle.prepared_statements.specs.inner.Cutting.{literal_of};
ghost use Rattle.sql_lexer.specs.Value.TheVariants.{Int, Null};
ghost use Rattle.prepared_statements.specs.Texts.{pieces_of, is_count_word, counts_after, TriesHole, Tries, TriedText, ReadsTried, MayBePrepared};

use crate::cutting::pieces_of;
use crate::filling::{filled, first_piece};
use sql_lexer::{Keyword, Token, TokenKind, lex};
use sql_parser::parse;
use sql_tree::Statement;
use std::alloc::Global;
use vt_value::{Items, Refusal, Value};

/// The most pieces of a text: one more than its holes.
const MAX_PIECES: usize = 4097;

/// What a hole is tried with where a literal stands.
#[derive(Clone, Copy)]
pub enum Tried {
    MinusOne,
    Null,
}

fn literal_of(tried: Tried) -> Value
    ensures { result ≡ literal_of tried }
{
    match tried {
        Tried::MinusOne => Value::Int(-1),
        Tried::Null => Value::Null,
    }
}

fn is_count_word(kind: TokenKind) -> bool
    ensures { result ≡ is_count_word kind }
{
    matches!(
        kind,
        TokenKind::Keyword(Keyword::Limit) | TokenKind::Keyword(Keyword::Offset)
    )
}

/// Whether a count comes after these tokens.
fn counts_after(tokens: &[Token]) -> bool
    ensures { result ≡ counts_after tokens.now }
{
    match tokens.last() {
        Some(token) => is_count_word(token.kind),
        None => false,
    }
}

/// What a hole after this piece is tried with.
fn try_hole(alloc: Global, tried: Tried, piece: &[u8]) -> Result<Value, Refusal>
    ensures found { IfOk result (TriesHole (literal_of tried) piece.now) }
    ensures only { (v : Value) → TriesHole (literal_of tried) piece.now v → MatchResult result (λ x. x ≡ v) (λ e. e ≡ Refusal.OutOfMemory) }
    ensures err { IfErr result (λ e. (e ≡ Refusal.OutOfMemory) ⊎ (e ≡ Refusal.SyntaxError)) }
{
    let tokens = lex(alloc, piece)?;
    if counts_after(tokens.as_slice()) {
        return Ok(Value::Int(0));
    }
    Ok(literal_of(tried))
}

/// These values, if the last piece is whole tokens.
fn after_last(alloc: Global, piece: &[u8], values: Items<Value>) -> Result<Items<Value>, Refusal>
    ensures found { IfOk result (λ x. (x ≡ values) × ((tokens : List LexedToken) × Lexes piece.now tokens)) }
    ensures only { (tokens : List LexedToken) → Lexes piece.now tokens → MatchResult result (λ x. x ≡ values) (λ e. e ≡ Refusal.OutOfMemory) }
    ensures err { IfErr result (λ e. (e ≡ Refusal.OutOfMemory) ⊎ (e ≡ Refusal.SyntaxError)) }
{
    match lex(alloc, piece) {
        Ok(tokens) => {
            drop(tokens);
            Ok(values)
        }
        Err(why) => Err(why),
    }
}

fn is_none(pieces: &[Items<u8>]) -> bool
    ensures { result ≡ true ↔ (pieces.now ≡ []) }
{
    pieces.is_empty()
}

/// What the holes of a text are tried with.
fn try_holes(alloc: Global, tried: Tried, pieces: &[Items<u8>]) -> Result<Items<Value>, Refusal>
    ensures found { IfOk result (Tries (literal_of tried) pieces.now) }
    ensures only { (values : List Value) → Tries (literal_of tried) pieces.now values → MatchResult result (λ x. x ≡ values) (λ e. e ≡ Refusal.OutOfMemory) }
    ensures err { IfErr result (λ e. (e ≡ Refusal.OutOfMemory) ⊎ (e ≡ Refusal.SyntaxError)) }
{
    let mut values = Items::new(alloc);
    let mut left = pieces;
    while let Some((piece, more)) = first_piece(left) {
        if is_none(more) {
            return after_last(alloc, piece, values);
        }
        match try_hole(alloc, tried, piece) {
            Ok(value) => values.push(value)?,
            Err(why) => return Err(why),
        }
        left = more;
    }
    Err(Refusal::SyntaxError)
}

/// The text with what its holes are tried with.
fn tried_text(alloc: Global, tried: Tried, pieces: &[Items<u8>]) -> Result<Vec<u8>, Refusal>
    ensures found { IfOk result (λ x. TriedText (literal_of tried) pieces.now x.items) }
    ensures only { (text : List ℕ) → TriedText (literal_of tried) pieces.now text → MatchResult result (λ x. x.items ≡ text) (λ e. e ≡ Refusal.OutOfMemory) }
    ensures err { IfErr result (λ e. (e ≡ Refusal.OutOfMemory) ⊎ (e ≡ Refusal.SyntaxError)) }
{
    match try_holes(alloc, tried, pieces) {
        Ok(values) => Ok(filled(alloc, pieces, values.as_slice())?),
        Err(why) => Err(why),
    }
}

/// The text of pieces with -1 where a literal stands and 0 where a count does. It is a syntax error if its pieces aren't whole tokens.
pub fn with_minus_one(alloc: Global, pieces: &[Items<u8>]) -> Result<Vec<u8>, Refusal>
    ensures found { IfOk result (λ x. TriedText (Int (negsuc 0)) pieces.now x.items) }
    ensures only { (text : List ℕ) → TriedText (Int (negsuc 0)) pieces.now text → MatchResult result (λ x. x.items ≡ text) (λ e. e ≡ Refusal.OutOfMemory) }
    ensures err { IfErr result (λ e. (e ≡ Refusal.OutOfMemory) ⊎ (e ≡ Refusal.SyntaxError)) }
{
    tried_text(alloc, Tried::MinusOne, pieces)
}

/// The same with NULL where a literal stands.
pub fn with_null(alloc: Global, pieces: &[Items<u8>]) -> Result<Vec<u8>, Refusal>
    ensures found { IfOk result (λ x. TriedText Null pieces.now x.items) }
    ensures only { (text : List ℕ) → TriedText Null pieces.now text → MatchResult result (λ x. x.items ≡ text) (λ e. e ≡ Refusal.OutOfMemory) }
    ensures err { IfErr result (λ e. (e ≡ Refusal.OutOfMemory) ⊎ (e ≡ Refusal.SyntaxError)) }
{
    tried_text(alloc, Tried::Null, pieces)
}

/// The bytes before, between and after the holes of a text that hasn't too many.
pub fn cut(alloc: Global, text: &[u8]) -> Result<Items<Items<u8>>, Refusal>
    ensures found { IfOk result (λ pieces. (pieces ≡ pieces_of text.now) × (length pieces ≤ 4097)) }
    ensures err { IfErr result (λ e. (e ≡ Refusal.OutOfMemory) ⊎ ((e ≡ Refusal.SyntaxError) × (4097 < length (pieces_of text.now)))) }
{
    let pieces = pieces_of(alloc, text)?;
    if pieces.len() > MAX_PIECES {
        return Err(Refusal::SyntaxError);
    }
    Ok(pieces)
}

/// The statement that a text is with these in its holes.
fn read_tried(alloc: Global, tried: Tried, pieces: &[Items<u8>]) -> Result<Statement, Refusal>
    ensures found { IfOk result (ReadsTried (literal_of tried) pieces.now) }
    ensures only { (statement : Statement) → ReadsTried (literal_of tried) pieces.now statement
        → MatchResult result (λ x. x ≡ statement) (λ e. e ≡ Refusal.OutOfMemory) }
    ensures err { IfErr result (λ e. (e ≡ Refusal.OutOfMemory) ⊎ (e ≡ Refusal.SyntaxError)) }
{
    let values = match try_holes(alloc, tried, pieces) {
        Ok(values) => values,
        Err(why) => return Err(why),
    };
    let text = filled(alloc, pieces, values.as_slice())?;
    parse(alloc, text.as_slice())
}

/// A text that may be prepared: its pieces, and the statement that it is with NULL in the holes of literals.
#[derive(Drop)]
pub struct PreparedText {
    pub pieces: Items<Items<u8>>,
    pub statement: Statement,
}

// Promise: A text may be prepared exactly when its holes stand where the grammar has a literal or a count
/// A text's pieces and its statement with NULL in the holes of literals, if it may be prepared. Else it is a syntax error.
pub fn read_prepared(alloc: Global, text: &[u8]) -> Result<PreparedText, Refusal>
    ensures found { IfOk result (λ x. MayBePrepared text.now x.pieces x.statement) }
    ensures only { (pieces : List (List ℕ)) (statement : Statement) → MayBePrepared text.now pieces statement
        → MatchResult result (λ x. (x.pieces ≡ pieces) × (x.statement ≡ statement)) (λ e. e ≡ Refusal.OutOfMemory) }
    ensures err { IfErr result (λ e. (e ≡ Refusal.OutOfMemory) ⊎ (e ≡ Refusal.SyntaxError)) }
{
    let pieces = pieces_of(alloc, text)?;
    if pieces.len() > MAX_PIECES {
        return Err(Refusal::SyntaxError);
    }
    match read_tried(alloc, Tried::MinusOne, pieces.as_slice()) {
        Ok(literals) => drop(literals),
        Err(why) => return Err(why),
    }
    match read_tried(alloc, Tried::Null, pieces.as_slice()) {
        Ok(statement) => Ok(PreparedText { pieces, statement }),
        Err(why) => Err(why),
    }
}
