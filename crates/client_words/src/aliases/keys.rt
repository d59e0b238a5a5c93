//! The keys of ORDER BY, which may say items of the select list.
ghost use Rattle.std.specs.Prelude.{◌≡◌, ◌++◌, [], ◌∷◌, ℕ, List, Bool, false, IfOk, OnOk, Option};
ghost use Rattle.client_statements.specs.tokens.Pieces.{lexeme_of, lexemes_of};
ghost use Rattle.client_words.specs.Aliases.{is_last, is_chosen, chosen_one, chosen, or_itself, key, first_key, keys, ordered};

use crate::aliases::alias::{alias_of, is_comma, is_dot, is_order, leads_dot, push, push_all};
use client_statements::tokens::{Token, same_in_any_case};
use sql_tree::Name;
use std::alloc::{AllocError, Global};
use vt_value::Items;

/// Whether an item's last token is before these.
#[tactic(auto, unfolding(crate::specs::Aliases::is_last))]
fn is_last(tokens: &[Token]) -> bool
    ensures { (text : List ℕ) → result ≡ is_last (lexemes_of text tokens.now) }
{
    match tokens {
        [] => true,
        [first, ..] => is_comma(first),
    }
}

/// Whether a token is of an item that the word says.
#[tactic(auto, unfolding(crate::specs::Aliases::is_chosen))]
fn is_chosen(
    alloc: Global,
    text: &[u8],
    word: &[u8],
    name: &Option<Name>,
    token: &Token,
    rest: &[Token],
) -> Result<bool, AllocError>
    ensures { IfOk result (λ is. is ≡ is_chosen word.now name.now (lexeme_of text.now token.now) (lexemes_of text.now rest.now)) }
{
    if let Some(name) = name {
        return Ok(same_in_any_case(word, name.as_slice()));
    }
    match alias_of(alloc, text, token)? {
        Some(column) => Ok(same_in_any_case(word, column.as_slice()) && is_last(rest)),
        None => Ok(false),
    }
}

/// Puts a token of an item that the word says.
fn push_if_chosen(
    alloc: Global,
    text: &[u8],
    out: &mut Items<Token>,
    word: &[u8],
    name: &Option<Name>,
    token: &Token,
    rest: &[Token],
) -> Result<(), AllocError>
    ensures ok { OnOk result (lexemes_of text.now out.new ≡ lexemes_of text.now out.old
        ++ chosen_one word.now name.now (lexeme_of text.now token.now) (lexemes_of text.now rest.now)) }
{
    if is_chosen(alloc, text, word, name, token, rest)? {
        return push(out, token);
    }
    Ok(())
}

/// The items of a list that the word says.
#[tactic(auto, unfolding(crate::specs::Aliases::chosen))]
fn chosen(
    alloc: Global,
    text: &[u8],
    word: &[u8],
    names: &[Option<Name>],
    list: &[Token],
) -> Result<Items<Token>, AllocError>
    ensures { IfOk result (λ out. lexemes_of text.now out ≡ chosen word.now names.now (lexemes_of text.now list.now)) }
{
    let mut out = Items::new(alloc);
    let mut left = names;
    let mut rest = list;
    loop {
        let [name, later @ ..] = left else {
            return Ok(out);
        };
        let [first, after @ ..] = rest else {
            return Ok(out);
        };
        rest = after;
        if is_comma(first) {
            left = later;
            continue;
        }
        push_if_chosen(alloc, text, &mut out, word, name, first, after)?;
    }
}

/// Puts the items that a word says, or the word itself.
fn push_or_itself(out: &mut Items<Token>, token: &Token, chosen: &[Token]) -> Result<(), AllocError>
    ensures ok { (text : List ℕ) → OnOk result (lexemes_of text out.new ≡ lexemes_of text out.old ++ or_itself (lexeme_of text token.now) (lexemes_of text chosen.now)) }
{
    match chosen {
        [] => push(out, token),
        [_, ..] => push_all(out, chosen),
    }
}

/// Puts what a token of ORDER BY says.
#[tactic(auto, unfolding(crate::specs::Aliases::key))]
fn push_key(
    alloc: Global,
    text: &[u8],
    out: &mut Items<Token>,
    names: &[Option<Name>],
    list: &[Token],
    token: &Token,
) -> Result<(), AllocError>
    ensures ok { OnOk result (lexemes_of text.now out.new ≡ lexemes_of text.now out.old ++ key names.now (lexemes_of text.now list.now) (lexeme_of text.now token.now)) }
{
    match alias_of(alloc, text, token)? {
        Some(word) => {
            let chosen = chosen(alloc, text, word.as_slice(), names, list)?;
            push_or_itself(out, token, chosen.as_slice())
        }
        None => push(out, token),
    }
}

/// Puts the first token of these, or what it says.
pub fn push_first(
    alloc: Global,
    text: &[u8],
    out: &mut Items<Token>,
    names: &[Option<Name>],
    list: &[Token],
    after_dot: bool,
    token: &Token,
    after: &[Token],
) -> Result<(), AllocError>
    ensures ok { OnOk result (lexemes_of text.now out.new ≡ lexemes_of text.now out.old
        ++ first_key names.now (lexemes_of text.now list.now) after_dot (lexeme_of text.now token.now) (lexemes_of text.now after.now)) }
{
    if after_dot || leads_dot(after) {
        push(out, token)
    } else {
        push_key(alloc, text, out, names, list, token)
    }
}

/// Puts the keys of ORDER BY.
#[tactic(auto, unfolding(crate::specs::Aliases::keys))]
fn push_keys(
    alloc: Global,
    text: &[u8],
    out: &mut Items<Token>,
    names: &[Option<Name>],
    list: &[Token],
    tokens: &[Token],
) -> Result<(), AllocError>
    ensures ok { OnOk result (lexemes_of text.now out.new ≡ lexemes_of text.now out.old ++ keys names.now (lexemes_of text.now list.now) false (lexemes_of text.now tokens.now)) }
{
    let mut rest = tokens;
    let mut after_dot = false;
    loop {
        let [first, after @ ..] = rest else {
            return Ok(());
        };
        push_first(alloc, text, out, names, list, after_dot, first, after)?;
        after_dot = is_dot(first);
        rest = after;
    }
}

/// Puts tokens with items in place of the aliases after ORDER.
#[tactic(auto, unfolding(crate::specs::Aliases::ordered))]
pub fn push_ordered(
    alloc: Global,
    text: &[u8],
    out: &mut Items<Token>,
    names: &[Option<Name>],
    list: &[Token],
    tokens: &[Token],
) -> Result<(), AllocError>
    ensures ok { OnOk result (lexemes_of text.now out.new ≡ lexemes_of text.now out.old ++ ordered names.now (lexemes_of text.now list.now) (lexemes_of text.now tokens.now)) }
{
    let mut rest = tokens;
    loop {
        let [first, after @ ..] = rest else {
            return Ok(());
        };
        push(out, first)?;
        if is_order(first) {
            return push_keys(alloc, text, out, names, list, after);
        }
        rest = after;
    }
}
