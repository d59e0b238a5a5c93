//! SET, after its word.
ghost use Rattle.std.specs.Prelude.{◌≡◌, ℕ, List, length, Some, None};
ghost use Rattle.sql_lexer.specs.inner.Results.{AgreesWith};
ghost use Rattle.client_statements.specs.tokens.Pieces.{lexeme_of, lexemes_of};
ghost use Rattle.client_statements.specs.Grammar.{switch_of, switch_at, modes_text_at, is_session, system_at, scoped_at, mode_variable_at, added_at};
ghost use Rattle.client_statements.specs.Grammar.{inner_concat_at, modes_at, said_at, its_value_at, held_set_at, setting_value_at, target_at, setting_at, settings_at};
ghost use Rattle.client_statements.specs.Grammar.{collation_at, names_statement, names_at, level_at, characteristic_at, end_at, character_set_at, session_at, set_at, set_statement};

use crate::kinds::{
    CHARACTER, CHARSET, COLLATE, COMMITTED, CONCAT, DOT, ISOLATION, LEVEL, LOCAL, OFF, ON, ONLY,
    READ, REPEATABLE, SESSION, SET, TRANSACTION, UNCOMMITTED, WRITE,
};
use crate::names::{any, close, comma, equals, identifier, open, set_name, string};
use crate::rule::{Rule, are_held_modes, rule_of};
use crate::sets::is_held_set;
use crate::statement::ClientStatement;
use crate::tokens::{Token, TokenKind, said, same_in_any_case};
use crate::variable::{Variable, shown_variable, variable_value};
use sql_tree::Name;
use std::alloc::Global;
use vt_value::Refusal;

/// Whether a token turns autocommit on.
#[tactic(auto, unfolding(crate::specs::Grammar::switch_of))]
fn switch_of(alloc: Global, text: &[u8], token: &Token) -> Result<bool, Refusal>
    ensures { AgreesWith (λ x. x) result (switch_of (lexeme_of text.now token.now)) }
{
    match token.kind {
        ON => Ok(true),
        OFF => Ok(false),
        TokenKind::Number => match said(alloc, text, token)?.as_slice() {
            b"1" => Ok(true),
            b"0" => Ok(false),
            _ => Err(Refusal::SyntaxError),
        },
        _ => Err(Refusal::SyntaxError),
    }
}

#[tactic(auto, unfolding(crate::specs::Grammar::switch_at))]
fn switch<'s>(
    alloc: Global,
    text: &[u8],
    tokens: &'s [Token],
) -> Result<(Option<bool>, &'s [Token]), Refusal>
    ensures { AgreesWith (λ x. (x.0, lexemes_of text.now x.1.now)) result (switch_at (lexemes_of text.now tokens.now)) }
{
    let [first, rest @ ..] = tokens else {
        return Err(Refusal::SyntaxError);
    };
    let on = switch_of(alloc, text, first)?;
    Ok((Some(on), rest))
}

/// A text of modes that hold.
#[tactic(auto, unfolding(crate::specs::Grammar::modes_text_at))]
fn modes_text<'s>(alloc: Global, text: &[u8], tokens: &'s [Token]) -> Result<&'s [Token], Refusal>
    ensures { AgreesWith (λ x. lexemes_of text.now x.now) result (modes_text_at (lexemes_of text.now tokens.now)) }
{
    let (modes, rest) = string(alloc, text, tokens)?;
    if are_held_modes(modes.as_slice()) {
        Ok(rest)
    } else {
        Err(Refusal::SyntaxError)
    }
}

/// Whether a word names the scope of a session.
pub fn is_session(name: &[u8]) -> bool
    ensures { result ≡ is_session name.now }
{
    same_in_any_case(name, b"session") || same_in_any_case(name, b"local")
}

/// A variable by its `@@`.
#[tactic(auto, unfolding(crate::specs::Grammar::system_at))]
fn system<'s>(
    alloc: Global,
    text: &[u8],
    tokens: &'s [Token],
) -> Result<(Name, &'s [Token]), Refusal>
    ensures { AgreesWith (λ x. (x.0, lexemes_of text.now x.1.now)) result (system_at (lexemes_of text.now tokens.now)) }
{
    match tokens {
        [first, rest @ ..] => match first.kind {
            TokenKind::Variable => {
                let name = said(alloc, text, first)?;
                scoped(alloc, text, name, rest)
            }
            _ => Err(Refusal::SyntaxError),
        },
        [] => Err(Refusal::SyntaxError),
    }
}

/// The variable after its scope, if what comes before a dot is one.
#[tactic(auto, unfolding(crate::specs::Grammar::scoped_at))]
fn scoped<'s>(
    alloc: Global,
    text: &[u8],
    first: Name,
    tokens: &'s [Token],
) -> Result<(Name, &'s [Token]), Refusal>
    ensures { AgreesWith (λ x. (x.0, lexemes_of text.now x.1.now)) result (scoped_at first (lexemes_of text.now tokens.now)) }
{
    match tokens {
        [Token { kind: DOT, .. }, rest @ ..] => {
            if is_session(first.as_slice()) {
                identifier(alloc, text, rest)
            } else {
                Err(Refusal::SyntaxError)
            }
        }
        _ => Ok((first, tokens)),
    }
}

/// `@@sql_mode`
#[tactic(auto, unfolding(crate::specs::Grammar::mode_variable_at))]
fn mode_variable<'s>(
    alloc: Global,
    text: &[u8],
    tokens: &'s [Token],
) -> Result<&'s [Token], Refusal>
    ensures { AgreesWith (λ x. lexemes_of text.now x.now) result (mode_variable_at (lexemes_of text.now tokens.now)) }
{
    let (name, rest) = system(alloc, text, tokens)?;
    if same_in_any_case(name.as_slice(), b"sql_mode") {
        Ok(rest)
    } else {
        Err(Refusal::SyntaxError)
    }
}

/// `, text )`
#[tactic(auto, unfolding(crate::specs::Grammar::added_at))]
fn added<'s>(alloc: Global, text: &[u8], tokens: &'s [Token]) -> Result<&'s [Token], Refusal>
    ensures { AgreesWith (λ x. lexemes_of text.now x.now) result (added_at (lexemes_of text.now tokens.now)) }
{
    let rest = comma(tokens)?;
    let rest = modes_text(alloc, text, rest)?;
    close(rest)
}

/// `@@sql_mode`, or a CONCAT of it.
#[tactic(auto, unfolding(crate::specs::Grammar::inner_concat_at))]
fn inner_concat<'s>(alloc: Global, text: &[u8], tokens: &'s [Token]) -> Result<&'s [Token], Refusal>
    ensures { AgreesWith (λ x. lexemes_of text.now x.now) result (inner_concat_at (lexemes_of text.now tokens.now)) }
{
    match tokens {
        [Token { kind: CONCAT, .. }, rest @ ..] => {
            let rest = open(rest)?;
            let rest = mode_variable(alloc, text, rest)?;
            added(alloc, text, rest)
        }
        _ => mode_variable(alloc, text, tokens),
    }
}

/// Modes that hold.
#[tactic(auto, unfolding(crate::specs::Grammar::modes_at))]
fn modes<'s>(alloc: Global, text: &[u8], tokens: &'s [Token]) -> Result<&'s [Token], Refusal>
    ensures { AgreesWith (λ x. lexemes_of text.now x.now) result (modes_at (lexemes_of text.now tokens.now)) }
{
    match tokens {
        [Token { kind: CONCAT, .. }, rest @ ..] => {
            let rest = open(rest)?;
            let rest = inner_concat(alloc, text, rest)?;
            added(alloc, text, rest)
        }
        _ => modes_text(alloc, text, tokens),
    }
}

/// What a word, a number or a text says.
#[tactic(auto, unfolding(crate::specs::Grammar::said_at))]
fn said_first<'s>(
    alloc: Global,
    text: &[u8],
    tokens: &'s [Token],
) -> Result<(Name, &'s [Token]), Refusal>
    ensures { AgreesWith (λ x. (x.0, lexemes_of text.now x.1.now)) result (said_at (lexemes_of text.now tokens.now)) }
{
    match tokens {
        [first, rest @ ..] => match first.kind {
            TokenKind::Word(_) | TokenKind::Number | TokenKind::Text => {
                Ok((said(alloc, text, first)?, rest))
            }
            _ => Err(Refusal::SyntaxError),
        },
        [] => Err(Refusal::SyntaxError),
    }
}

/// The value that a variable has.
#[tactic(auto, unfolding(crate::specs::Grammar::its_value_at))]
fn its_value<'s>(
    alloc: Global,
    text: &[u8],
    variable: Variable,
    tokens: &'s [Token],
) -> Result<&'s [Token], Refusal>
    ensures { AgreesWith (λ x. lexemes_of text.now x.now) result (its_value_at variable (lexemes_of text.now tokens.now)) }
{
    let (value, rest) = said_first(alloc, text, tokens)?;
    if same_in_any_case(value.as_slice(), variable_value(variable, true).as_bytes())
        || same_in_any_case(value.as_slice(), shown_variable(variable, true).as_bytes())
    {
        Ok(rest)
    } else {
        Err(Refusal::SyntaxError)
    }
}

/// A character set that holds.
#[tactic(auto, unfolding(crate::specs::Grammar::held_set_at))]
fn held_set<'s>(alloc: Global, text: &[u8], tokens: &'s [Token]) -> Result<&'s [Token], Refusal>
    ensures { AgreesWith (λ x. lexemes_of text.now x.now) result (held_set_at (lexemes_of text.now tokens.now)) }
{
    let (name, rest) = set_name(alloc, text, tokens)?;
    if is_held_set(name.as_slice()) {
        Ok(rest)
    } else {
        Err(Refusal::SyntaxError)
    }
}

/// A value that holds.
#[tactic(auto, unfolding(crate::specs::Grammar::setting_value_at))]
fn value<'s>(
    alloc: Global,
    text: &[u8],
    rule: Rule,
    tokens: &'s [Token],
) -> Result<(Option<bool>, &'s [Token]), Refusal>
    ensures { AgreesWith (λ x. (x.0, lexemes_of text.now x.1.now)) result (setting_value_at rule (lexemes_of text.now tokens.now)) }
{
    match rule {
        Rule::Switch => switch(alloc, text, tokens),
        Rule::Modes => {
            let rest = modes(alloc, text, tokens)?;
            Ok((None, rest))
        }
        Rule::CharacterSet => {
            let rest = held_set(alloc, text, tokens)?;
            Ok((None, rest))
        }
        Rule::AnyValue => {
            let rest = any(tokens)?;
            Ok((None, rest))
        }
        Rule::ItsValue(variable) => {
            let rest = its_value(alloc, text, variable, tokens)?;
            Ok((None, rest))
        }
    }
}

/// The name of a setting.
#[tactic(auto, unfolding(crate::specs::Grammar::target_at))]
fn target<'s>(
    alloc: Global,
    text: &[u8],
    tokens: &'s [Token],
) -> Result<(Name, &'s [Token]), Refusal>
    ensures { AgreesWith (λ x. (x.0, lexemes_of text.now x.1.now)) result (target_at (lexemes_of text.now tokens.now)) }
{
    match tokens {
        [
            Token {
                kind: SESSION | LOCAL,
                ..
            },
            rest @ ..,
        ] => identifier(alloc, text, rest),
        [
            Token {
                kind: TokenKind::Variable,
                ..
            },
            ..
        ] => system(alloc, text, tokens),
        _ => identifier(alloc, text, tokens),
    }
}

/// target = value
#[tactic(auto, unfolding(crate::specs::Grammar::setting_at))]
fn setting<'s>(
    alloc: Global,
    text: &[u8],
    tokens: &'s [Token],
) -> Result<(Option<bool>, &'s [Token]), Refusal>
    ensures { AgreesWith (λ x. (x.0, lexemes_of text.now x.1.now)) result (setting_at (lexemes_of text.now tokens.now)) }
{
    let (name, rest) = target(alloc, text, tokens)?;
    let Some(rule) = rule_of(name.as_slice()) else {
        return Err(Refusal::SyntaxError);
    };
    let rest = equals(rest)?;
    value(alloc, text, rule, rest)
}

/// setting,.. up to the end; what the last one of autocommit sets it to.
fn settings(alloc: Global, text: &[u8], tokens: &[Token]) -> Result<Option<bool>, Refusal>
    ensures { AgreesWith (λ x. x) result
        (settings_at (length (lexemes_of text.now tokens.now)) None (lexemes_of text.now tokens.now)) }
{
    let mut autocommit = None;
    let mut rest = tokens;
    for _ in 0..tokens.len() {
        let (on, after) = setting(alloc, text, rest)?;
        autocommit = on.or(autocommit);
        if after.is_empty() {
            return Ok(autocommit);
        }
        rest = comma(after)?;
    }
    Err(Refusal::SyntaxError)
}

/// [COLLATE set], and whether it holds.
#[tactic(auto, unfolding(crate::specs::Grammar::collation_at))]
fn collation<'s>(
    alloc: Global,
    text: &[u8],
    tokens: &'s [Token],
) -> Result<(bool, &'s [Token]), Refusal>
    ensures { AgreesWith (λ x. (x.0, lexemes_of text.now x.1.now)) result (collation_at (lexemes_of text.now tokens.now)) }
{
    match tokens {
        [Token { kind: COLLATE, .. }, rest @ ..] => {
            let (name, rest) = set_name(alloc, text, rest)?;
            Ok((is_held_set(name.as_slice()), rest))
        }
        _ => Ok((true, tokens)),
    }
}

/// What SET NAMES of sets that hold asks, or of one that doesn't.
fn names_statement(holds: bool) -> ClientStatement
    ensures { result ≡ names_statement holds }
{
    if holds {
        ClientStatement::Set { autocommit: None }
    } else {
        ClientStatement::NotSupported
    }
}

/// set [COLLATE set], after SET NAMES.
#[tactic(auto, unfolding(crate::specs::Grammar::names_at))]
pub fn names<'s>(
    alloc: Global,
    text: &[u8],
    tokens: &'s [Token],
) -> Result<(ClientStatement, &'s [Token]), Refusal>
    ensures { AgreesWith (λ x. (x.0, lexemes_of text.now x.1.now)) result (names_at (lexemes_of text.now tokens.now)) }
{
    let (set, rest) = set_name(alloc, text, tokens)?;
    let (holds, rest) = collation(alloc, text, rest)?;
    let holds = is_held_set(set.as_slice()) && holds;
    Ok((names_statement(holds), rest))
}

/// A level of isolation that is kept.
#[tactic(auto, unfolding(crate::specs::Grammar::level_at))]
fn level(tokens: &[Token]) -> Result<&[Token], Refusal>
    ensures { (text : List ℕ) → AgreesWith (λ x. lexemes_of text x.now) result (level_at (lexemes_of text tokens.now)) }
{
    match tokens {
        [
            Token { kind: READ, .. },
            Token {
                kind: UNCOMMITTED | COMMITTED,
                ..
            },
            rest @ ..,
        ] => Ok(rest),
        [
            Token {
                kind: REPEATABLE,
                ..
            },
            Token { kind: READ, .. },
            rest @ ..,
        ] => Ok(rest),
        _ => Err(Refusal::SyntaxError),
    }
}

/// ISOLATION LEVEL level | READ WRITE
#[tactic(auto, unfolding(crate::specs::Grammar::characteristic_at))]
fn characteristic(tokens: &[Token]) -> Result<&[Token], Refusal>
    ensures { (text : List ℕ) → AgreesWith (λ x. lexemes_of text x.now) result (characteristic_at (lexemes_of text tokens.now)) }
{
    match tokens {
        [
            Token {
                kind: ISOLATION,
                ..
            },
            Token { kind: LEVEL, .. },
            rest @ ..,
        ] => level(rest),
        [
            Token { kind: READ, .. },
            Token { kind: WRITE, .. },
            rest @ ..,
        ] => Ok(rest),
        _ => Err(Refusal::SyntaxError),
    }
}

/// Nothing more.
#[tactic(auto, unfolding(crate::specs::Grammar::end_at))]
fn end(tokens: &[Token]) -> Result<Option<bool>, Refusal>
    ensures { (text : List ℕ) → AgreesWith (λ x. x) result (end_at None (lexemes_of text tokens.now)) }
{
    match tokens {
        [] => Ok(None),
        _ => Err(Refusal::SyntaxError),
    }
}

/// SET set, after CHARACTER.
#[tactic(auto, unfolding(crate::specs::Grammar::character_set_at))]
fn character_set<'s>(
    alloc: Global,
    text: &[u8],
    tokens: &'s [Token],
) -> Result<&'s [Token], Refusal>
    ensures { AgreesWith (λ x. lexemes_of text.now x.now) result (character_set_at (lexemes_of text.now tokens.now)) }
{
    match tokens {
        [Token { kind: SET, .. }, rest @ ..] => held_set(alloc, text, rest),
        _ => Err(Refusal::SyntaxError),
    }
}

/// What follows SESSION: what TRANSACTION is to be, or settings, of which it is the first one's scope.
#[tactic(auto, unfolding(crate::specs::Grammar::session_at))]
fn session(
    alloc: Global,
    text: &[u8],
    tokens: &[Token],
    rest: &[Token],
) -> Result<Option<bool>, Refusal>
    ensures { AgreesWith (λ x. x) result (session_at (lexemes_of text.now tokens.now) (lexemes_of text.now rest.now)) }
{
    match rest {
        [
            Token {
                kind: TRANSACTION,
                ..
            },
            rest @ ..,
        ] => end(characteristic(rest)?),
        _ => settings(alloc, text, tokens),
    }
}

/// What SET sets autocommit to, if all that it sets holds; after its word, and not NAMES.
#[tactic(auto, unfolding(crate::specs::Grammar::set_at))]
fn set(alloc: Global, text: &[u8], tokens: &[Token]) -> Result<Option<bool>, Refusal>
    ensures { AgreesWith (λ x. x) result (set_at (lexemes_of text.now tokens.now)) }
{
    match tokens {
        [Token { kind: CHARSET, .. }, rest @ ..] => end(held_set(alloc, text, rest)?),
        [
            Token {
                kind: CHARACTER,
                ..
            },
            rest @ ..,
        ] => end(character_set(alloc, text, rest)?),
        [
            Token {
                kind: TRANSACTION,
                ..
            },
            rest @ ..,
        ] => end(characteristic(rest)?),
        [Token { kind: SESSION, .. }, rest @ ..] => session(alloc, text, tokens, rest),
        _ => settings(alloc, text, tokens),
    }
}

/// SET, after its word: what doesn't hold anyway can't be set.
pub fn set_statement(
    alloc: Global,
    text: &[u8],
    tokens: &[Token],
) -> Result<ClientStatement, Refusal>
    ensures { AgreesWith (λ x. x) result (Some (set_statement (set_at (lexemes_of text.now tokens.now)))) }
{
    match set(alloc, text, tokens) {
        Ok(autocommit) => Ok(ClientStatement::Set { autocommit }),
        Err(Refusal::SyntaxError) => Ok(ClientStatement::NotSupported),
        Err(refusal) => Err(refusal),
    }
}
