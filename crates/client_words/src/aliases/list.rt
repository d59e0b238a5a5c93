//! The select list without aliases, and the names that these give its columns.
ghost use Rattle.std.specs.Prelude.{◌≡◌, ◌<◌, ◌≤◌, ◌++◌, [], ◌∷◌, ℕ, List, IfOk, OnOk, length, None, Option, false};
ghost use Rattle.client_statements.specs.tokens.Pieces.{lexeme_of, lexemes_of};
ghost use Rattle.client_words.specs.Aliases.{ends_item, leads_alias, is_aliased, before_alias, list_of, names_from, from_on};
ghost use Rattle.client_words.specs.Marks.{is_from, is_comma};

use crate::aliases::alias::{
    column_alias_of, is_alias, is_as, is_close, is_column_alias, is_comma, is_from, push,
};
use client_statements::tokens::Token;
use sql_tree::Name;
use std::alloc::{AllocError, Global};
use vt_value::Items;

/// Whether an item of a select list ends before these tokens.
#[tactic(auto, unfolding(crate::specs::Aliases::ends_item))]
fn ends_item(tokens: &[Token]) -> bool
    ensures { (text : List ℕ) → result ≡ ends_item (lexemes_of text tokens.now) }
{
    match tokens {
        [] => false,
        [first, ..] => is_comma(first) || is_from(first),
    }
}

/// Whether an alias may follow.
#[tactic(auto, unfolding(crate::specs::Aliases::leads_alias))]
fn leads_alias(text: &[u8], token: &Token) -> bool
    ensures { result ≡ leads_alias (lexeme_of text.now token.now) }
{
    is_as(token) || is_close(token) || is_alias(text, token)
}

/// Whether after the first token the second is an item's alias.
#[tactic(auto, unfolding(crate::specs::Aliases::is_aliased))]
fn is_aliased(text: &[u8], first: &Token, second: &Token, rest: &[Token]) -> bool
    ensures { result ≡ is_aliased (lexeme_of text.now first.now) (lexeme_of text.now second.now) (lexemes_of text.now rest.now) }
{
    leads_alias(text, first) && is_column_alias(text, second) && ends_item(rest)
}

/// Puts what is left of the token before an alias.
fn push_before(list: &mut Items<Token>, first: &Token) -> Result<(), AllocError>
    ensures ok { (text : List ℕ) → OnOk result (lexemes_of text list.new ≡ lexemes_of text list.old ++ before_alias (lexeme_of text first.now)) }
{
    if is_as(first) {
        return Ok(());
    }
    push(list, first)
}

/// Puts the first token and its alias, if it has one, and gives the tokens after these.
#[tactic(auto, unfolding(crate::specs::Aliases::list_of))]
fn push_front<'s>(
    text: &[u8],
    list: &mut Items<Token>,
    first: &Token,
    after: &'s [Token],
) -> Result<&'s [Token], AllocError>
    requires more { is_from (lexeme_of text.now first.now) ≡ false }
    ensures same { IfOk result (λ rest. lexemes_of text.now list.new ++ list_of (lexemes_of text.now rest.now)
        ≡ lexemes_of text.now list.old ++ list_of (lexeme_of text.now first.now ∷ lexemes_of text.now after.now)) }
    ensures shorter { IfOk result (λ rest. length rest.now ≤ length after.now) }
{
    if let [second, rest @ ..] = after {
        if is_aliased(text, first, second, rest) {
            push_before(list, first)?;
            return Ok(rest);
        }
    }
    push(list, first)?;
    Ok(after)
}

/// The select list at the front, up to FROM, without aliases.
#[tactic(auto, unfolding(crate::specs::Aliases::list_of))]
pub fn list_of(alloc: Global, text: &[u8], tokens: &[Token]) -> Result<Items<Token>, AllocError>
    ensures { IfOk result (λ list. lexemes_of text.now list ≡ list_of (lexemes_of text.now tokens.now)) }
{
    let mut list = Items::new(alloc);
    let mut rest = tokens;
    loop {
        let [first, after @ ..] = rest else {
            return Ok(list);
        };
        if is_from(first) {
            return Ok(list);
        }
        rest = push_front(text, &mut list, first, after)?;
    }
}

/// The name of a column after its first token and an alias, if one follows, and the tokens after these.
#[tactic(auto, unfolding(crate::specs::Aliases::names_from))]
fn name_after<'s>(
    alloc: Global,
    text: &[u8],
    name: Option<Name>,
    first: &Token,
    after: &'s [Token],
) -> Result<(Option<Name>, &'s [Token]), AllocError>
    requires more { is_from (lexeme_of text.now first.now) ≡ false }
    requires stays { is_comma (lexeme_of text.now first.now) ≡ false }
    ensures same { IfOk result (λ x. names_from x.0 (lexemes_of text.now x.1.now) ≡ names_from name (lexeme_of text.now first.now ∷ lexemes_of text.now after.now)) }
    ensures shorter { IfOk result (λ x. length x.1.now ≤ length after.now) }
{
    match after {
        [second, rest @ ..] => {
            if is_aliased(text, first, second, rest) {
                return Ok((column_alias_of(alloc, text, second)?, rest));
            }
            Ok((name, after))
        }
        [] => Ok((name, after)),
    }
}

/// Gives a column its name, if it ends at the first token. Returns the name of the column so far, and the tokens after it and its alias.
fn push_name<'s>(
    alloc: Global,
    text: &[u8],
    names: &mut Items<Option<Name>>,
    name: Option<Name>,
    first: &Token,
    after: &'s [Token],
) -> Result<(Option<Name>, &'s [Token]), AllocError>
    requires more { is_from (lexeme_of text.now first.now) ≡ false }
    ensures same { IfOk result (λ x. names.new ++ names_from x.0 (lexemes_of text.now x.1.now)
        ≡ names.old ++ names_from name (lexeme_of text.now first.now ∷ lexemes_of text.now after.now)) }
    ensures shorter { IfOk result (λ x. length x.1.now ≤ length after.now) }
{
    if is_comma(first) {
        names.push(name)?;
        return Ok((None, after));
    }
    name_after(alloc, text, name, first, after)
}

/// The names with the last one.
fn with_last(
    names: Items<Option<Name>>,
    name: Option<Name>,
) -> Result<Items<Option<Name>>, AllocError>
    ensures { IfOk result (λ all. all ≡ names ++ name ∷ []) }
{
    let mut names = names;
    names.push(name)?;
    Ok(names)
}

/// The names of the columns of the select list at the front.
#[tactic(auto, unfolding(crate::specs::Aliases::names_from))]
pub fn names_of(
    alloc: Global,
    text: &[u8],
    tokens: &[Token],
) -> Result<Items<Option<Name>>, AllocError>
    ensures { IfOk result (λ names. names ≡ names_from None (lexemes_of text.now tokens.now)) }
{
    let mut names = Items::new(alloc);
    let mut name = None;
    let mut rest = tokens;
    loop {
        let [first, after @ ..] = rest else {
            return with_last(names, name);
        };
        if is_from(first) {
            return with_last(names, name);
        }
        let (next, later) = push_name(alloc, text, &mut names, name, first, after)?;
        name = next;
        rest = later;
    }
}

/// The tokens from FROM on.
#[tactic(auto, unfolding(crate::specs::Aliases::from_on))]
pub fn from_on(tokens: &[Token]) -> &[Token]
    ensures { (text : List ℕ) → lexemes_of text result.now ≡ from_on (lexemes_of text tokens.now) }
{
    let mut rest = tokens;
    loop {
        let [first, after @ ..] = rest else {
            return rest;
        };
        if is_from(first) {
            return rest;
        }
        rest = after;
    }
}
