//! Forms of MySQL that the grammar says in other words.
ghost use Rattle.std.specs.Prelude.{◌≡◌, ◌<◌, ◌++◌, [], ◌∷◌, ℕ, List, IfOk, OnOk, codes, length, slice_range, None, Some};
ghost use Rattle.std.specs.Option.{option_or};
ghost use Rattle.sql_lexer.specs.inner.Results.{AgreesWith};
ghost use Rattle.client_statements.specs.tokens.Pieces.{lexemes_of, said_by};
ghost use Rattle.client_words.specs.InsertSet.{insert_set_at};
ghost use Rattle.client_words.specs.Spelling.{spelled};
ghost use Rattle.client_words.specs.Forms.{between_word_at, and_at, within_text, between_text, between_at, star_at, limit_at, if_operator, operator_at, work_at, insert_at, update_at, count_at, is_introducer, introduced_at, form_at};

use crate::insert_set::insert_set;
use crate::kinds::{
    AND, BEGIN, BETWEEN, CLOSE, COMMA, COMMIT, COUNT, INSERT, INTO, LIMIT, NOT, NULL, OPEN,
    ROLLBACK, VALUE, WORK,
};
use crate::operands::{Written, one, operand};
use crate::spelling::put;
use crate::tables::{qualifier, star, unqualified, update};
use client_statements::tokens::{Token, TokenKind, bytes_of, said, same_in_any_case};
use sql_tree::Name;
use std::alloc::{AllocError, Global};
use vt_value::{Items, Refusal};

/// BETWEEN, or NOT BETWEEN: whether it is the second.
#[tactic(auto, unfolding(crate::specs::Forms::between_word_at))]
fn between_word(tokens: &[Token]) -> Result<(bool, &[Token]), Refusal>
    ensures written { (text : List ℕ) → AgreesWith (λ x. (x.0, lexemes_of text x.1.now)) result (between_word_at (lexemes_of text tokens.now)) }
    ensures shorter { IfOk result (λ x. length x.1.now < length tokens.now) }
{
    match tokens {
        [Token { kind: BETWEEN, .. }, rest @ ..] => Ok((false, rest)),
        [
            Token { kind: NOT, .. },
            Token { kind: BETWEEN, .. },
            rest @ ..,
        ] => Ok((true, rest)),
        _ => Err(Refusal::SyntaxError),
    }
}

#[tactic(auto, unfolding(crate::specs::Forms::and_at))]
fn and(tokens: &[Token]) -> Result<&[Token], Refusal>
    ensures written { (text : List ℕ) → AgreesWith (λ x. lexemes_of text x.now) result (and_at (lexemes_of text tokens.now)) }
    ensures shorter { IfOk result (λ rest. length rest.now < length tokens.now) }
{
    match tokens {
        [Token { kind: AND, .. }, rest @ ..] => Ok(rest),
        _ => Err(Refusal::SyntaxError),
    }
}

/// Both bounds belong to what is between them.
fn put_within(out: &mut Vec<u8>, x: &[u8], low: &[u8], high: &[u8]) -> Result<(), AllocError>
    ensures ok { OnOk result (out.new.items ≡ out.old.items ++ within_text x.now low.now high.now) }
{
    put(out, b" (")?;
    put(out, x)?;
    put(out, b" >=")?;
    put(out, low)?;
    put(out, b" AND")?;
    put(out, x)?;
    put(out, b" <=")?;
    put(out, high)?;
    put(out, b" )")
}

fn put_between(
    out: &mut Vec<u8>,
    negated: bool,
    x: &[u8],
    low: &[u8],
    high: &[u8],
) -> Result<(), AllocError>
    ensures ok { OnOk result (out.new.items ≡ out.old.items ++ between_text negated x.now low.now high.now) }
{
    if negated {
        put(out, b" NOT")?;
    }
    put_within(out, x, low, high)
}

fn between_text(
    alloc: Global,
    negated: bool,
    x: &[u8],
    low: &[u8],
    high: &[u8],
) -> Result<Items<u8>, AllocError>
    ensures { IfOk result (λ written. written ≡ between_text negated x.now low.now high.now) }
{
    let mut out = Vec::new(alloc);
    put_between(&mut out, negated, x, low, high)?;
    Ok(Items::from_vec(out))
}

/// operand [NOT] BETWEEN low AND high
#[tactic(auto, unfolding(crate::specs::Forms::between_at))]
fn between<'s>(
    alloc: Global,
    text: &[u8],
    table: &Option<Name>,
    tokens: &'s [Token],
) -> Result<Written<'s>, Refusal>
    ensures written { AgreesWith (λ x. (x.0, lexemes_of text.now x.1.now)) result (between_at table.now (lexemes_of text.now tokens.now)) }
    ensures shorter { IfOk result (λ x. length x.1.now < length tokens.now) }
{
    let (x, rest) = operand(alloc, text, unqualified(alloc, text, table, tokens)?)?;
    let (negated, rest) = between_word(rest)?;
    let (low, rest) = operand(alloc, text, unqualified(alloc, text, table, rest)?)?;
    let rest = and(rest)?;
    let (high, rest) = operand(alloc, text, unqualified(alloc, text, table, rest)?)?;
    let written = between_text(
        alloc,
        negated,
        x.as_slice(),
        low.as_slice(),
        high.as_slice(),
    )?;
    Ok((written, rest))
}

fn limit_text(alloc: Global, count: &[u8], offset: &[u8]) -> Result<Items<u8>, AllocError>
    ensures { IfOk result (λ written. written ≡ codes " LIMIT " ++ count.now ++ codes " OFFSET " ++ offset.now) }
{
    let mut out = Vec::new(alloc);
    put(&mut out, b" LIMIT ")?;
    put(&mut out, count)?;
    put(&mut out, b" OFFSET ")?;
    put(&mut out, offset)?;
    Ok(Items::from_vec(out))
}

/// LIMIT offset, count
#[tactic(auto, unfolding(crate::specs::Forms::limit_at))]
fn limit<'s>(alloc: Global, text: &[u8], tokens: &'s [Token]) -> Result<Written<'s>, Refusal>
    ensures written { AgreesWith (λ x. (x.0, lexemes_of text.now x.1.now)) result (limit_at (lexemes_of text.now tokens.now)) }
    ensures shorter { IfOk result (λ x. length x.1.now < length tokens.now) }
{
    match tokens {
        [
            Token { kind: LIMIT, .. },
            offset @ Token {
                kind: TokenKind::Number,
                ..
            },
            Token { kind: COMMA, .. },
            count @ Token {
                kind: TokenKind::Number,
                ..
            },
            rest @ ..,
        ] => {
            let offset = said(alloc, text, offset)?;
            let count = said(alloc, text, count)?;
            Ok((
                limit_text(alloc, count.as_slice(), offset.as_slice())?,
                rest,
            ))
        }
        _ => Err(Refusal::SyntaxError),
    }
}

/// These words.
fn fixed(alloc: Global, words: &[u8]) -> Result<Items<u8>, AllocError>
    ensures { IfOk result (λ written. written ≡ words.now) }
{
    Items::from_slice(alloc, words)
}

/// What is written in an operator's place, if it is the one that is wanted.
fn if_operator<'s>(
    alloc: Global,
    text: &[u8],
    token: &Token,
    wanted: &[u8],
    words: &[u8],
    rest: &'s [Token],
) -> Result<Written<'s>, Refusal>
    ensures written { AgreesWith (λ x. (x.0, lexemes_of text.now x.1.now)) result
        (if_operator (said_by token.now.kind (slice_range text.now token.now.start token.now.end)) wanted.now (Some (words.now, lexemes_of text.now rest.now))) }
    ensures rest { IfOk result (λ x. x.1.now ≡ rest.now) }
{
    let operator = said(alloc, text, token)?;
    if operator.as_slice() == wanted {
        Ok((fixed(alloc, words)?, rest))
    } else {
        Err(Refusal::SyntaxError)
    }
}

/// `<=> NULL`, or a `!` before a parenthesis.
#[tactic(auto, unfolding(crate::specs::Forms::operator_at))]
fn operator<'s>(alloc: Global, text: &[u8], tokens: &'s [Token]) -> Result<Written<'s>, Refusal>
    ensures written { AgreesWith (λ x. (x.0, lexemes_of text.now x.1.now)) result (operator_at (lexemes_of text.now tokens.now)) }
    ensures shorter { IfOk result (λ x. length x.1.now < length tokens.now) }
{
    match tokens {
        [
            first @ Token {
                kind: TokenKind::Operator,
                ..
            },
            Token { kind: NULL, .. },
            rest @ ..,
        ] => if_operator(alloc, text, first, b"<=>", b" IS NULL", rest),
        [
            first @ Token {
                kind: TokenKind::Operator,
                ..
            },
            Token { kind: OPEN, .. },
            rest @ ..,
        ] => if_operator(alloc, text, first, b"!", b" NOT (", rest),
        _ => Err(Refusal::SyntaxError),
    }
}

/// BEGIN WORK, COMMIT WORK, ROLLBACK WORK
#[tactic(auto, unfolding(crate::specs::Forms::work_at))]
fn work<'s>(alloc: Global, tokens: &'s [Token]) -> Result<Written<'s>, Refusal>
    ensures written { (text : List ℕ) → AgreesWith (λ x. (x.0, lexemes_of text x.1.now)) result (work_at (lexemes_of text tokens.now)) }
    ensures shorter { IfOk result (λ x. length x.1.now < length tokens.now) }
{
    match tokens {
        [
            Token { kind: BEGIN, .. },
            Token { kind: WORK, .. },
            rest @ ..,
        ] => Ok((fixed(alloc, b" BEGIN")?, rest)),
        [
            Token { kind: COMMIT, .. },
            Token { kind: WORK, .. },
            rest @ ..,
        ] => Ok((fixed(alloc, b" COMMIT")?, rest)),
        [
            Token { kind: ROLLBACK, .. },
            Token { kind: WORK, .. },
            rest @ ..,
        ] => Ok((fixed(alloc, b" ROLLBACK")?, rest)),
        _ => Err(Refusal::SyntaxError),
    }
}

/// INSERT without INTO; VALUE after the columns.
#[tactic(auto, unfolding(crate::specs::Forms::insert_at))]
fn insert<'s>(alloc: Global, tokens: &'s [Token]) -> Result<Written<'s>, Refusal>
    ensures written { (text : List ℕ) → AgreesWith (λ x. (x.0, lexemes_of text x.1.now)) result (insert_at (lexemes_of text tokens.now)) }
    ensures shorter { IfOk result (λ x. length x.1.now < length tokens.now) }
{
    match tokens {
        [Token { kind: INSERT, .. }, Token { kind: INTO, .. }, ..] => Err(Refusal::SyntaxError),
        [Token { kind: INSERT, .. }, rest @ ..] => Ok((fixed(alloc, b" INSERT INTO")?, rest)),
        [
            Token { kind: CLOSE, .. },
            Token { kind: VALUE, .. },
            Token { kind: OPEN, .. },
            rest @ ..,
        ] => Ok((fixed(alloc, b" ) VALUES (")?, rest)),
        _ => Err(Refusal::SyntaxError),
    }
}

/// COUNT(1)
#[tactic(auto, unfolding(crate::specs::Forms::count_at))]
fn count<'s>(alloc: Global, tokens: &'s [Token]) -> Result<Written<'s>, Refusal>
    ensures written { (text : List ℕ) → AgreesWith (λ x. (x.0, lexemes_of text x.1.now)) result (count_at (lexemes_of text tokens.now)) }
    ensures shorter { IfOk result (λ x. length x.1.now < length tokens.now) }
{
    match tokens {
        [
            Token { kind: COUNT, .. },
            Token { kind: OPEN, .. },
            Token {
                kind: TokenKind::Number,
                ..
            },
            Token { kind: CLOSE, .. },
            rest @ ..,
        ] => Ok((fixed(alloc, b" COUNT ( * )")?, rest)),
        _ => Err(Refusal::SyntaxError),
    }
}

fn is_introducer(word: &[u8]) -> bool
    ensures { result ≡ is_introducer word.now }
{
    same_in_any_case(word, b"_binary") || same_in_any_case(word, b"_utf8mb4")
}

/// A text after the character set that it is of.
#[tactic(auto, unfolding(crate::specs::Forms::introduced_at))]
fn introduced<'s>(alloc: Global, text: &[u8], tokens: &'s [Token]) -> Result<Written<'s>, Refusal>
    ensures written { AgreesWith (λ x. (x.0, lexemes_of text.now x.1.now)) result (introduced_at (lexemes_of text.now tokens.now)) }
    ensures shorter { IfOk result (λ x. length x.1.now < length tokens.now) }
{
    match tokens {
        [
            Token {
                kind: TokenKind::Word(_),
                start,
                end,
            },
            value @ Token {
                kind: TokenKind::Text,
                ..
            },
            rest @ ..,
        ] => {
            if is_introducer(bytes_of(text, *start, *end)) {
                Ok((one(alloc, text, value)?, rest))
            } else {
                Err(Refusal::SyntaxError)
            }
        }
        _ => Err(Refusal::SyntaxError),
    }
}

/// A form of INSERT.
fn insert_form<'s>(alloc: Global, text: &[u8], tokens: &'s [Token]) -> Result<Written<'s>, Refusal>
    ensures written { AgreesWith (λ x. (x.0, lexemes_of text.now x.1.now)) result
        (option_or (insert_set_at (lexemes_of text.now tokens.now)) (insert_at (lexemes_of text.now tokens.now))) }
    ensures shorter { IfOk result (λ x. length x.1.now < length tokens.now) }
{
    match insert_set(alloc, text, tokens) {
        Err(Refusal::SyntaxError) => insert(alloc, tokens),
        read => read,
    }
}

/// A form of INSERT, or of a value.
fn value_form<'s>(alloc: Global, text: &[u8], tokens: &'s [Token]) -> Result<Written<'s>, Refusal>
    ensures written { AgreesWith (λ x. (x.0, lexemes_of text.now x.1.now)) result
        (option_or (insert_set_at (lexemes_of text.now tokens.now)) (option_or (insert_at (lexemes_of text.now tokens.now)) (option_or (count_at (lexemes_of text.now tokens.now)) (introduced_at (lexemes_of text.now tokens.now))))) }
    ensures shorter { IfOk result (λ x. length x.1.now < length tokens.now) }
{
    match insert_form(alloc, text, tokens) {
        Err(Refusal::SyntaxError) => {}
        read => return read,
    }
    match count(alloc, tokens) {
        Err(Refusal::SyntaxError) => introduced(alloc, text, tokens),
        read => read,
    }
}

/// A form of UPDATE, of INSERT, or of a value.
fn write_form<'s>(alloc: Global, text: &[u8], tokens: &'s [Token]) -> Result<Written<'s>, Refusal>
    ensures written { AgreesWith (λ x. (x.0, lexemes_of text.now x.1.now)) result
        (option_or (update_at (lexemes_of text.now tokens.now)) (option_or (insert_set_at (lexemes_of text.now tokens.now)) (option_or (insert_at (lexemes_of text.now tokens.now)) (option_or (count_at (lexemes_of text.now tokens.now)) (introduced_at (lexemes_of text.now tokens.now)))))) }
    ensures shorter { IfOk result (λ x. length x.1.now < length tokens.now) }
{
    match update(alloc, text, tokens) {
        Err(Refusal::SyntaxError) => value_form(alloc, text, tokens),
        read => read,
    }
}

/// A form that begins with an operator or with a statement's first word.
fn other_form<'s>(alloc: Global, text: &[u8], tokens: &'s [Token]) -> Result<Written<'s>, Refusal>
    ensures written { AgreesWith (λ x. (x.0, lexemes_of text.now x.1.now)) result
        (option_or (operator_at (lexemes_of text.now tokens.now)) (option_or (work_at (lexemes_of text.now tokens.now))
        (option_or (update_at (lexemes_of text.now tokens.now)) (option_or (insert_set_at (lexemes_of text.now tokens.now)) (option_or (insert_at (lexemes_of text.now tokens.now)) (option_or (count_at (lexemes_of text.now tokens.now)) (introduced_at (lexemes_of text.now tokens.now)))))))) }
    ensures shorter { IfOk result (λ x. length x.1.now < length tokens.now) }
{
    match operator(alloc, text, tokens) {
        Err(Refusal::SyntaxError) => {}
        read => return read,
    }
    match work(alloc, tokens) {
        Err(Refusal::SyntaxError) => write_form(alloc, text, tokens),
        read => read,
    }
}

/// A form that begins with a word of a statement, or with an operator.
fn word_form<'s>(alloc: Global, text: &[u8], tokens: &'s [Token]) -> Result<Written<'s>, Refusal>
    ensures written { AgreesWith (λ x. (x.0, lexemes_of text.now x.1.now)) result
        (option_or (star_at (lexemes_of text.now tokens.now)) (option_or (limit_at (lexemes_of text.now tokens.now))
        (option_or (operator_at (lexemes_of text.now tokens.now)) (option_or (work_at (lexemes_of text.now tokens.now))
        (option_or (update_at (lexemes_of text.now tokens.now)) (option_or (insert_set_at (lexemes_of text.now tokens.now)) (option_or (insert_at (lexemes_of text.now tokens.now)) (option_or (count_at (lexemes_of text.now tokens.now)) (introduced_at (lexemes_of text.now tokens.now)))))))))) }
    ensures shorter { IfOk result (λ x. length x.1.now < length tokens.now) }
{
    match star(alloc, text, tokens) {
        Err(Refusal::SyntaxError) => {}
        read => return read,
    }
    match limit(alloc, text, tokens) {
        Err(Refusal::SyntaxError) => other_form(alloc, text, tokens),
        read => read,
    }
}

/// The form at the front, by the table of the statement.
#[tactic(auto, unfolding(crate::specs::Forms::form_at))]
pub fn form<'s>(
    alloc: Global,
    text: &[u8],
    table: &Option<Name>,
    tokens: &'s [Token],
) -> Result<Written<'s>, Refusal>
    ensures written { AgreesWith (λ x. (x.0, lexemes_of text.now x.1.now)) result (form_at table.now (lexemes_of text.now tokens.now)) }
    ensures shorter { IfOk result (λ x. length x.1.now < length tokens.now) }
{
    match between(alloc, text, table, tokens) {
        Err(Refusal::SyntaxError) => {}
        read => return read,
    }
    match qualifier(alloc, text, table, tokens) {
        Err(Refusal::SyntaxError) => word_form(alloc, text, tokens),
        read => read,
    }
}
