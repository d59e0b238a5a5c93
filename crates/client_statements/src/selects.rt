//! SELECT of values by name, after its word.
ghost use Rattle.std.specs.Prelude.{◌≡◌, ℕ, List, [], length, drop};
ghost use Rattle.sql_lexer.specs.inner.Results.{AgreesWith};
ghost use Rattle.client_statements.specs.tokens.Pieces.{lexeme_of, lexemes_of};
ghost use Rattle.client_statements.specs.Grammar.{asked_variable, is_scope, scoped_variable, asked_at, called, alias_of, alias_at, text_of_first, item_at};
ghost use Rattle.client_statements.specs.Grammar.{ends_select, begins_with_comma, items_at};

use crate::kinds::{AS, CLOSE, COMMA, DOT, LIMIT, OPEN};
use crate::settings::is_session;
use crate::statement::{NamedValue, SelectItem};
use crate::tokens::{Keyword, Token, TokenKind, bytes_of, said, same_in_any_case};
use crate::variable::variable_of;
use sql_tree::Name;
use std::alloc::Global;
use vt_value::{Items, Refusal};

/// The variable of this name.
#[tactic(auto, unfolding(crate::specs::Grammar::asked_variable))]
fn asked_variable(name: Name) -> NamedValue
    ensures { result ≡ asked_variable name }
{
    match variable_of(name.as_slice()) {
        Some(variable) => NamedValue::Variable(variable),
        None => NamedValue::Unknown(name),
    }
}

/// Whether a word names a scope of variables.
fn is_scope(name: &[u8]) -> bool
    ensures { result ≡ is_scope name.now }
{
    is_session(name) || same_in_any_case(name, b"global")
}

/// What a call without arguments asks for.
#[tactic(auto, unfolding(crate::specs::Grammar::called))]
fn called(keyword: Option<Keyword>) -> Result<NamedValue, Refusal>
    ensures { AgreesWith (λ x. x) result (called keyword) }
{
    match keyword {
        Some(Keyword::Version) => Ok(NamedValue::Version),
        Some(Keyword::Database | Keyword::Schema) => Ok(NamedValue::Database),
        Some(Keyword::ConnectionId) => Ok(NamedValue::ConnectionId),
        Some(Keyword::User | Keyword::CurrentUser | Keyword::SessionUser | Keyword::SystemUser) =>
            Ok(NamedValue::User),
        _ => Err(Refusal::SyntaxError),
    }
}

/// A variable after its scope: three tokens.
fn scoped(scope: Name, name: Name) -> Result<(NamedValue, usize), Refusal>
    ensures { AgreesWith (λ x. x) result (scoped_variable scope name) }
{
    if is_scope(scope.as_slice()) {
        Ok((asked_variable(name), 3))
    } else {
        Err(Refusal::SyntaxError)
    }
}

/// A value that is asked for, and how many tokens it takes.
#[tactic(auto, unfolding(crate::specs::Grammar::asked_at))]
fn asked(alloc: Global, text: &[u8], tokens: &[Token]) -> Result<(NamedValue, usize), Refusal>
    ensures { AgreesWith (λ x. x) result (asked_at (lexemes_of text.now tokens.now)) }
{
    match tokens {
        [
            scope @ Token {
                kind: TokenKind::Variable,
                ..
            },
            Token { kind: DOT, .. },
            name @ Token {
                kind: TokenKind::Word(_),
                ..
            },
            ..
        ] => {
            let scope = said(alloc, text, scope)?;
            let name = said(alloc, text, name)?;
            scoped(scope, name)
        }
        [
            name @ Token {
                kind: TokenKind::Variable,
                ..
            },
            ..
        ] => {
            let name = said(alloc, text, name)?;
            Ok((asked_variable(name), 1))
        }
        [
            Token {
                kind: TokenKind::Word(keyword),
                ..
            },
            Token { kind: OPEN, .. },
            Token { kind: CLOSE, .. },
            ..
        ] => Ok((called(*keyword)?, 3)),
        _ => Err(Refusal::SyntaxError),
    }
}

/// The alias that a token says.
#[tactic(auto, unfolding(crate::specs::Grammar::alias_of))]
fn alias_of(alloc: Global, text: &[u8], token: &Token) -> Result<Name, Refusal>
    ensures { AgreesWith (λ x. x) result (alias_of (lexeme_of text.now token.now)) }
{
    match token.kind {
        TokenKind::Word(_) | TokenKind::Name | TokenKind::Text => Ok(said(alloc, text, token)?),
        _ => Err(Refusal::SyntaxError),
    }
}

/// An alias, if AS is there, and how many tokens it takes.
#[tactic(auto, unfolding(crate::specs::Grammar::alias_at))]
fn alias(alloc: Global, text: &[u8], tokens: &[Token]) -> Result<(Option<Name>, usize), Refusal>
    ensures { AgreesWith (λ x. x) result (alias_at (lexemes_of text.now tokens.now)) }
{
    match tokens {
        [Token { kind: AS, .. }] => Err(Refusal::SyntaxError),
        [Token { kind: AS, .. }, name, ..] => {
            let name = alias_of(alloc, text, name)?;
            Ok((Some(name), 2))
        }
        _ => Ok((None, 0)),
    }
}

/// The tokens after so many.
fn after(tokens: &[Token], count: usize) -> &[Token]
    ensures { result.now ≡ drop count tokens.now }
{
    let count = count.min(tokens.len());
    &tokens[count..]
}

/// The text of the first tokens, as it is.
#[tactic(auto, unfolding(crate::specs::Grammar::text_of_first))]
fn text_of_first<'s>(text: &'s [u8], tokens: &[Token], count: usize) -> &'s [u8]
    ensures { result.now ≡ text_of_first text.now tokens.now count }
{
    let start = match tokens.get(0) {
        Some(token) => token.start,
        None => 0,
    };
    let end = match tokens.get(count.saturating_sub(1)) {
        Some(token) => token.end,
        None => 0,
    };
    bytes_of(text, start, end)
}

/// A value with its column's name, and the tokens after it.
#[tactic(auto, unfolding(crate::specs::Grammar::item_at))]
fn item<'s>(
    alloc: Global,
    text: &[u8],
    tokens: &'s [Token],
) -> Result<(SelectItem, &'s [Token]), Refusal>
    ensures { AgreesWith (λ x. (x.0, x.1.now)) result (item_at text.now tokens.now) }
{
    let (value, count) = asked(alloc, text, tokens)?;
    let rest = after(tokens, count);
    let (alias, more) = alias(alloc, text, rest)?;
    let name = match alias {
        Some(alias) => alias,
        None => Items::from_slice(alloc, text_of_first(text, tokens, count))?,
    };
    Ok((SelectItem { asked: value, name }, after(rest, more)))
}

/// Whether nothing follows the items but LIMIT 1.
#[tactic(auto, unfolding(crate::specs::Grammar::ends_select))]
fn ends_select(text: &[u8], tokens: &[Token]) -> bool
    ensures { result ≡ ends_select (lexemes_of text.now tokens.now) }
{
    match tokens {
        [] => true,
        [
            Token { kind: LIMIT, .. },
            Token {
                kind: TokenKind::Number,
                start,
                end,
            },
        ] => { bytes_of(text, *start, *end) == b"1".as_slice() }
        _ => false,
    }
}

#[tactic(auto, unfolding(crate::specs::Grammar::begins_with_comma))]
fn begins_with_comma(tokens: &[Token]) -> bool
    ensures { (text : List ℕ) → result ≡ begins_with_comma (lexemes_of text tokens.now) }
{
    match tokens {
        [Token { kind: COMMA, .. }, ..] => true,
        _ => false,
    }
}

/// item,.. [LIMIT 1] up to the end.
pub fn items(alloc: Global, text: &[u8], tokens: &[Token]) -> Result<Items<SelectItem>, Refusal>
    ensures { AgreesWith (λ x. x) result (items_at (length tokens.now) text.now [] tokens.now) }
{
    let mut items = Items::new(alloc);
    let mut rest = tokens;
    for _ in 0..tokens.len() {
        let (item, trailing) = item(alloc, text, rest)?;
        items.push(item)?;
        if ends_select(text, trailing) {
            return Ok(items);
        }
        if !begins_with_comma(trailing) {
            return Err(Refusal::SyntaxError);
        }
        rest = after(trailing, 1);
    }
    Err(Refusal::SyntaxError)
}
