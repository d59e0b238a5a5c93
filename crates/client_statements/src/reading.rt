//! What a text asks of a server.
ghost use Rattle.std.specs.Prelude.{◌≡◌, ℕ, List, false, Some, IfOk, IfSome, length};
ghost use Rattle.sql_lexer.specs.inner.Results.{AgreesWith};
ghost use Rattle.client_statements.specs.declared.tokens.token.Token.{Token};
ghost use Rattle.client_statements.specs.tokens.Pieces.{lexemes_of};
ghost use Rattle.client_statements.specs.declared.statement.ClientStatement.{ClientStatement};
ghost use Rattle.client_statements.specs.Asks.{Asks, IsSet};
ghost use Rattle.client_statements.specs.inner.Fronts.{is_no_set};
ghost use Rattle.client_statements.specs.Grammar.{finished, statement_at, without_semicolon, client_statement};

use crate::kinds::{DESC, DESCRIBE, NAMES, SELECT, SEMICOLON, SET, SHOW, START, TRANSACTION, USE};
use crate::selects::items;
use crate::settings::{names, set_statement};
use crate::shows::{begin, describe, show, use_keyspace};
use crate::statement::ClientStatement;
use crate::tokens::{Token, is_letter, lex};
use std::alloc::{AllocError, Global};
use vt_value::Refusal;

/// What was read, if nothing comes after it.
#[tactic(auto, unfolding(crate::specs::Grammar::finished))]
fn finished(statement: ClientStatement, rest: &[Token]) -> Result<ClientStatement, Refusal>
    ensures { (text : List ℕ) → AgreesWith (λ x. x) result (finished (Some (statement, lexemes_of text rest.now))) }
{
    match rest {
        [] => Ok(statement),
        _ => Err(Refusal::SyntaxError),
    }
}

/// What tokens without a semicolon ask.
#[tactic(auto, unfolding(crate::specs::Grammar::statement_at, crate::specs::Grammar::finished))]
fn statement(alloc: Global, text: &[u8], tokens: &[Token]) -> Result<ClientStatement, Refusal>
    ensures { AgreesWith (λ x. x) result (statement_at text.now tokens.now (lexemes_of text.now tokens.now)) }
{
    let (statement, rest) = match tokens {
        [Token { kind: SELECT, .. }, rest @ ..] => {
            return Ok(ClientStatement::Select(items(alloc, text, rest)?));
        }
        [
            Token { kind: SET, .. },
            Token { kind: NAMES, .. },
            rest @ ..,
        ] => names(alloc, text, rest)?,
        [Token { kind: SET, .. }, rest @ ..] => return set_statement(alloc, text, rest),
        [Token { kind: SHOW, .. }, rest @ ..] => show(alloc, text, rest)?,
        [Token { kind: USE, .. }, rest @ ..] => use_keyspace(alloc, text, rest)?,
        [
            Token {
                kind: DESCRIBE | DESC,
                ..
            },
            rest @ ..,
        ] => describe(alloc, text, rest)?,
        [
            Token { kind: START, .. },
            Token {
                kind: TRANSACTION,
                ..
            },
            rest @ ..,
        ] => begin(rest)?,
        _ => return Err(Refusal::SyntaxError),
    };
    finished(statement, rest)
}

/// The tokens without a semicolon at their end.
#[tactic(auto, unfolding(crate::specs::Grammar::without_semicolon))]
fn without_semicolon(tokens: &[Token]) -> &[Token]
    ensures { result.now ≡ without_semicolon tokens.now }
{
    let count = tokens.len().saturating_sub(1);
    match tokens.get(count) {
        Some(
            Token {
                kind: SEMICOLON,
                ..
            },
        ) => &tokens[..count],
        _ => tokens,
    }
}

/// What the tokens of a text ask.
#[tactic(auto, unfolding(crate::specs::Grammar::client_statement))]
fn client_statement(
    alloc: Global,
    text: &[u8],
    tokens: &[Token],
) -> Result<ClientStatement, Refusal>
    ensures { AgreesWith (λ x. x) result (client_statement text.now tokens.now) }
{
    statement(alloc, text, without_semicolon(tokens))
}

// Promise: A text is a client statement exactly when its tokens say so by the grammar, and is read as the one that it is
/// What a text asks of a server, if it is a client statement; any other text is SQL over tables, or none.
pub fn read(alloc: Global, text: &[u8]) -> Result<Option<ClientStatement>, AllocError>
    // What is given is what the text asks.
    ensures asked { IfOk result (λ o. IfSome o (λ s. Asks text.now s)) }
    // A text that asks something is read, and asks nothing else.
    ensures only { (s : ClientStatement) → Asks text.now s → IfOk result (λ o. o ≡ Some s) }
{
    let Some(tokens) = lex(alloc, text)? else {
        return Ok(None);
    };
    match client_statement(alloc, text, tokens.as_slice()) {
        Ok(statement) => Ok(Some(statement)),
        Err(Refusal::OutOfMemory) => Err(AllocError),
        Err(_) => Ok(None),
    }
}

/// Whether no text begins with SET that has these as its first and third byte.
fn is_no_set(first: u8, third: u8) -> bool
    ensures { result ≡ is_no_set first third }
{
    is_letter(first) && third != b't' && third != b'T'
}

/// Whether a text may begin with SET, by its first and third byte. A session reads such a text before it is run.
pub fn may_set(text: &[u8]) -> bool
    // If it may not, the text doesn't begin with SET.
    ensures { result ≡ false → IsSet text.now → ⊥ }
{
    match text {
        [first, _, third, ..] => !is_no_set(*first, *third),
        _ => true,
    }
}
