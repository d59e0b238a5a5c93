//! Reads the statement that tokens are, one function for each rule of the grammar. Each gives what it read, and the tokens that are left.
ghost use Rattle.std.specs.Prelude.{◌≡◌, ◌≤◌, ◌⊎◌, ℕ, false, Some, None, IfSome, IfOk, IfErr, MatchResult, List, [], length, take, map, bytes_eq};
ghost use Rattle.std.specs.Char.{to_ascii_lowercase};
ghost use Rattle.sql_lexer.specs.declared.token.Token.{Token};
ghost use Rattle.sql_lexer.specs.Lexemes.{lexemes_of};
ghost use Rattle.sql_lexer.specs.Tokens.{Lexes};
ghost use Rattle.sql_lexer.specs.inner.Results.{AgreesWith};
ghost use Rattle.sql_tree.specs.declared.Statement.{Statement};
ghost use Rattle.sql_tree.specs.Literals.{literals_of};
ghost use Rattle.sql_tree.specs.Printing.{printed};
ghost use Rattle.sql_parser.specs.Grammar.{Reads, is_setting};
ghost use Rattle.sql_parser.specs.Qualifiers.{qualifies_outside_select};
ghost use Rattle.sql_parser.specs.inner.Reading.{charset_at, setting_at, control_at, select_text_at, control_text_at, text_of_kind, text_at};

use crate::clauses::{filter, from, join};
use crate::endings::ends_select;
use crate::items::list;
use crate::kinds::{
    BEGIN, COMMIT, DELETE, INSERT, INTO, NAMES, ROLLBACK, SELECT, SEMICOLON, SET, START,
    TRANSACTION, UPDATE,
};
use crate::last_clauses::last_clauses;
use crate::names::name;
use crate::said;
use crate::writes::{delete, equals, insert, update};
use sql_lexer::{Token, TokenKind, is_end, lex, lex_few};
use sql_tree::{CharacterSet, Select, Statement};
use std::alloc::Global;
use vt_value::{Items, Refusal};

/// list FROM name and the clauses after it, to the end of the text, after SELECT.
#[tactic(auto, unfolding(crate::specs::inner::Reading::select_at))]
fn select(alloc: Global, text: &[u8], tokens: &[Token]) -> Result<Statement, Refusal>
    ensures { AgreesWith (λ x. x) result (select_text_at (lexemes_of text.now tokens.now)) }
{
    let (list, rest) = list(alloc, text, tokens)?;
    let (table, rest) = from(alloc, text, rest)?;
    let (join, rest) = join(alloc, text, rest)?;
    let (filter, rest) = filter(alloc, text, rest)?;
    let (last, rest) = last_clauses(alloc, text, rest)?;
    if !ends_select(&filter, rest) {
        return Err(Refusal::SyntaxError);
    }
    Ok(Statement::Select(Select {
        list,
        table,
        join,
        filter,
        group_by: last.group_by,
        order_by: last.order_by,
        limit: last.limit,
    }))
}

/// identifier | string
#[tactic(auto, unfolding(crate::specs::inner::Reading::charset_at))]
fn character_set<'s>(
    alloc: Global,
    text: &[u8],
    tokens: &'s [Token],
) -> Result<(CharacterSet, &'s [Token]), Refusal>
    ensures { AgreesWith (λ x. (x.0, lexemes_of text.now x.1.now)) result (charset_at (lexemes_of text.now tokens.now)) }
{
    match tokens {
        [
            first @ Token {
                kind: TokenKind::Text,
                ..
            },
            rest @ ..,
        ] => { Ok((CharacterSet::Text(said::string(alloc, text, first)?), rest)) }
        [first, rest @ ..] => {
            let Some(bytes) = said::identifier(text, first) else {
                return Err(Refusal::SyntaxError);
            };
            let name = Items::from_slice(alloc, bytes)?;
            Ok((CharacterSet::Identifier(name), rest))
        }
        [] => Err(Refusal::SyntaxError),
    }
}

fn is_in_any_case(name: &[u8], word: &[u8]) -> bool
    ensures { result ≡ bytes_eq (map to_ascii_lowercase name.now) (map to_ascii_lowercase word.now) }
{
    name.eq_ignore_ascii_case(word)
}

/// Whether a name is one of those that clients set to a character set or to a collation besides SET NAMES.
fn is_setting(name: &[u8]) -> bool
    ensures { result ≡ is_setting name.now }
{
    is_in_any_case(name, b"character_set_server")
        || is_in_any_case(name, b"collation_connection")
        || is_in_any_case(name, b"collation_server")
}

/// setting = (identifier | string), after SET.
#[tactic(auto, unfolding(crate::specs::inner::Reading::setting_at))]
fn setting<'s>(
    alloc: Global,
    text: &[u8],
    tokens: &'s [Token],
) -> Result<(Statement, &'s [Token]), Refusal>
    ensures read { AgreesWith (λ x. (x.0, lexemes_of text.now x.1.now)) result (setting_at (lexemes_of text.now tokens.now)) }
    ensures few { IfOk result (λ x. literals_of x.0 ≡ 0) }
    ensures plain { IfOk result (λ x. qualifies_outside_select x.0 ≡ false) }
{
    let (name, rest) = name(alloc, text, tokens)?;
    let is_known = is_setting(name.as_slice());
    drop(name);
    if !is_known {
        return Err(Refusal::SyntaxError);
    }
    let rest = equals(rest)?;
    let (set, rest) = character_set(alloc, text, rest)?;
    Ok((Statement::SetNames(set), rest))
}

/// BEGIN | START TRANSACTION | COMMIT | ROLLBACK | SET NAMES (identifier | string) | SET setting = (identifier | string)
#[tactic(auto, unfolding(crate::specs::inner::Reading::control_at))]
fn control<'s>(
    alloc: Global,
    text: &[u8],
    tokens: &'s [Token],
) -> Result<(Statement, &'s [Token]), Refusal>
    ensures read { AgreesWith (λ x. (x.0, lexemes_of text.now x.1.now)) result (control_at (lexemes_of text.now tokens.now)) }
    ensures few { IfOk result (λ x. literals_of x.0 ≡ 0) }
    ensures plain { IfOk result (λ x. qualifies_outside_select x.0 ≡ false) }
{
    match tokens {
        [Token { kind: BEGIN, .. }, rest @ ..] => Ok((Statement::Begin, rest)),
        [
            Token { kind: START, .. },
            Token {
                kind: TRANSACTION,
                ..
            },
            rest @ ..,
        ] => { Ok((Statement::Begin, rest)) }
        [Token { kind: COMMIT, .. }, rest @ ..] => Ok((Statement::Commit, rest)),
        [Token { kind: ROLLBACK, .. }, rest @ ..] => Ok((Statement::Rollback, rest)),
        [
            Token { kind: SET, .. },
            Token { kind: NAMES, .. },
            rest @ ..,
        ] => {
            let (set, rest) = character_set(alloc, text, rest)?;
            Ok((Statement::SetNames(set), rest))
        }
        [Token { kind: SET, .. }, rest @ ..] => setting(alloc, text, rest),
        _ => Err(Refusal::SyntaxError),
    }
}

/// A statement of sessions and transactions, to the end of the text. Like the other kinds it may be part of `parse`: a call that is
/// given the place of the result has it filled with zeros before, and copied after.
fn whole_control(alloc: Global, text: &[u8], tokens: &[Token]) -> Result<Statement, Refusal>
    ensures { AgreesWith (λ x. x) result (control_text_at (lexemes_of text.now tokens.now)) }
{
    let (statement, rest) = control(alloc, text, tokens)?;
    if is_end(rest) {
        Ok(statement)
    } else {
        Err(Refusal::SyntaxError)
    }
}

/// What a statement is by its first words: one of rows, or else one of sessions and transactions.
#[derive(Clone, Copy, Debug, PartialEq, Eq)]
enum Kind {
    Select,
    Insert,
    Update,
    Delete,
    Control,
}

/// The kind of the statement that begins here, and the tokens after its first words. One of sessions and transactions is left whole.
#[tactic(auto, unfolding(crate::specs::inner::Reading::text_at, crate::specs::inner::Reading::statement_at))]
fn kind_of(tokens: &[Token]) -> (Kind, &[Token])
    ensures { (text : List ℕ)
        → text_of_kind result.0 (lexemes_of text result.1.now) ≡ text_at (lexemes_of text tokens.now) }
{
    match tokens {
        [Token { kind: SELECT, .. }, rest @ ..] => (Kind::Select, rest),
        [
            Token { kind: INSERT, .. },
            Token { kind: INTO, .. },
            rest @ ..,
        ] => (Kind::Insert, rest),
        [Token { kind: UPDATE, .. }, rest @ ..] => (Kind::Update, rest),
        [Token { kind: DELETE, .. }, rest @ ..] => (Kind::Delete, rest),
        _ => (Kind::Control, tokens),
    }
}

/// For how many tokens there is room without memory: most statements by a key have less.
const FEW: usize = 16;

/// How many bytes such a statement has at most. A longer text has more tokens mostly, and would be cut twice.
const SHORT: usize = 64;

/// What such a room has where no token was read.
const NO_TOKEN: Token = Token {
    kind: SEMICOLON,
    start: 0,
    end: 0,
};

/// The tokens of a short text at the front of the room for them, and how many they are, if they are so few.
fn short_tokens(text: &[u8], room: &mut [Token]) -> Option<usize>
    ensures within { IfSome result (λ n. n ≤ length room.new) }
    ensures found { IfSome result (λ n. Lexes text.now (take n room.new)) }
    ensures only { length text.now ≤ 64 → (tokens : List Token) → Lexes text.now tokens → length tokens ≤ length room.old
        → result ≡ Some (length tokens) }
{
    if text.len() <= SHORT {
        lex_few(text, room)
    } else {
        None
    }
}

/// The tokens of a text, or none if there are so many of them already.
fn long_tokens(alloc: Global, text: &[u8], count: Option<usize>) -> Result<Vec<Token>, Refusal>
    ensures none { IfSome count (λ _. IfOk result (λ v. v.items ≡ [])) }
    ensures found { count ≡ None → IfOk result (λ v. Lexes text.now v.items) }
    ensures only { (tokens : List Token) → Lexes text.now tokens → IfErr result (λ e. e ≡ Refusal.OutOfMemory) }
    ensures err { IfErr result (λ e. (e ≡ Refusal.OutOfMemory) ⊎ (e ≡ Refusal.SyntaxError)) }
{
    match count {
        Some(_) => Ok(Vec::new(alloc)),
        None => lex(alloc, text),
    }
}

/// The first so many of a few tokens, or else all of the many.
fn chosen<'t>(count: Option<usize>, few: &'t [Token], many: &'t [Token]) -> &'t [Token]
    requires { IfSome count (λ n. n ≤ length few.now) }
    ensures few { IfSome count (λ n. result.now ≡ take n few.now) }
    ensures many { count ≡ None → result.now ≡ many.now }
{
    match count {
        Some(count) => &few[..count],
        None => many,
    }
}

// Promise: The tree of a text is given exactly when the whole grammar has one, within its limits, and a syntax error comes only if it
// has none
/// The tree of a text, which is one statement of the grammar with at most one semicolon after it. Any other text is a
/// syntax error, and so is one that passes a limit: 64 open parentheses and NOTs on one path of a condition, 4096
/// literals, numbers from -2^63 to 2^64 - 1. So is an UPDATE or a DELETE that has a column after the name of a table.
pub fn parse(alloc: Global, text: &[u8]) -> Result<Statement, Refusal>
    // What is given is the text's tree.
    ensures found { IfOk result (λ tree. Reads text.now tree) }
    // A text that has a tree is read, unless memory runs out; so a syntax error comes only if there is none.
    ensures only { (tree : Statement) → Reads text.now tree
        → MatchResult result (λ t. t ≡ tree) (λ e. e ≡ Refusal.OutOfMemory) }
    ensures err { IfErr result (λ e. (e ≡ Refusal.OutOfMemory) ⊎ (e ≡ Refusal.SyntaxError)) }
{
    let mut few = [NO_TOKEN; FEW];
    let count = short_tokens(text, &mut few);
    let many = long_tokens(alloc, text, count)?;
    let (kind, rest) = kind_of(chosen(count, &few, &many));
    // A `return` copies the statement once, where the value of the whole `match` would be copied twice.
    match kind {
        Kind::Select => return select(alloc, text, rest),
        Kind::Insert => return insert(alloc, text, rest),
        Kind::Update => return update(alloc, text, rest),
        Kind::Delete => return delete(alloc, text, rest),
        Kind::Control => return whole_control(alloc, text, rest),
    }
}

// Promise: A text has one tree at most; the printed form of a text's tree is a text of that tree
// With: print_reads
/// A text has one tree at most.
pub fn one_tree()
    ensures { (text : List ℕ) (x y : Statement) → Reads text x → Reads text y → x ≡ y }
{}

/// The printed form of a text's tree is a text of that tree.
pub fn print_reads()
    ensures { (text : List ℕ) (tree : Statement) → Reads text tree → Reads (printed tree) tree }
{}
