//! Where a number is meant in a text.
ghost use Rattle.std.specs.Prelude.{◌≡◌, ◌++◌, [], ◌∷◌, ℕ, List, Bool, Option, IfOk, drop};
ghost use Rattle.client_statements.specs.tokens.Pieces.{lexeme_of, lexemes_of};
ghost use Rattle.client_words.specs.Forms.{name_of};
ghost use Rattle.client_words.specs.Numbers.{at_word, after_column, after_in, after_between, next, kinds_in, insert_kinds, is_open, next_kinds};
ghost use Rattle.client_words.specs.inner.Known.{known_of};

use crate::aliases::{is_close, is_comma};
use crate::columns::Known;
use crate::kinds::{AND, BETWEEN, EQUAL, IN, INSERT, INTO, NOT, OPEN, VALUE, VALUES};
use crate::tables::name_of;
use client_statements::tokens::{Token, TokenKind};
use std::alloc::{AllocError, Global};
use vt_value::Items;

/// What the tokens so far lead to: whether a number is meant by the next one.
#[derive(Clone, Copy, Debug, PartialEq, Eq)]
pub enum Place {
    Other,
    /// A column of numbers is before it.
    Column,
    /// An operator after such a column.
    Value,
    /// IN.
    In,
    /// The list of IN.
    InList,
    /// BETWEEN.
    Between,
}

/// After a word: whether it is a column of numbers.
fn at_word(
    alloc: Global,
    text: &[u8],
    known: &Known<'_>,
    token: &Token,
) -> Result<Place, AllocError>
    ensures { IfOk result (λ place. place ≡ at_word (known_of known.now) (lexeme_of text.now token.now)) }
{
    let name = name_of(alloc, text, token)?;
    if known.are_numbers(&name) {
        return Ok(Place::Column);
    }
    Ok(Place::Other)
}

/// After a column of numbers and this token.
#[tactic(auto, unfolding(crate::specs::Numbers::after_column))]
fn after_column(
    alloc: Global,
    text: &[u8],
    known: &Known<'_>,
    token: &Token,
) -> Result<Place, AllocError>
    ensures { IfOk result (λ place. place ≡ after_column (known_of known.now) (lexeme_of text.now token.now)) }
{
    match token.kind {
        EQUAL | TokenKind::Operator => Ok(Place::Value),
        NOT => Ok(Place::Column),
        IN => Ok(Place::In),
        BETWEEN => Ok(Place::Between),
        _ => at_word(alloc, text, known, token),
    }
}

/// After IN and this token.
#[tactic(auto, unfolding(crate::specs::Numbers::after_in))]
fn after_in(
    alloc: Global,
    text: &[u8],
    known: &Known<'_>,
    token: &Token,
) -> Result<Place, AllocError>
    ensures { IfOk result (λ place. place ≡ after_in (known_of known.now) (lexeme_of text.now token.now)) }
{
    match token.kind {
        OPEN => Ok(Place::InList),
        _ => at_word(alloc, text, known, token),
    }
}

/// After BETWEEN and this token.
#[tactic(auto, unfolding(crate::specs::Numbers::after_between))]
fn after_between(token: &Token) -> Place
    ensures { (text : List ℕ) → result ≡ after_between (lexeme_of text token.now) }
{
    match token.kind {
        AND => Place::Value,
        _ => Place::Between,
    }
}

/// After this token.
pub fn next(
    alloc: Global,
    text: &[u8],
    known: &Known<'_>,
    place: Place,
    token: &Token,
) -> Result<Place, AllocError>
    ensures { IfOk result (λ then. then ≡ next (known_of known.now) place (lexeme_of text.now token.now)) }
{
    match place {
        Place::Column => after_column(alloc, text, known, token),
        Place::In => after_in(alloc, text, known, token),
        Place::InList => {
            if is_close(token) {
                Ok(Place::Other)
            } else {
                Ok(Place::InList)
            }
        }
        Place::Between => Ok(after_between(token)),
        Place::Value | Place::Other => at_word(alloc, text, known, token),
    }
}

/// Which columns of a list hold numbers, up to its parenthesis.
#[tactic(auto, unfolding(crate::specs::Numbers::kinds_in))]
fn kinds_in(
    alloc: Global,
    text: &[u8],
    known: &Known<'_>,
    tokens: &[Token],
) -> Result<Items<bool>, AllocError>
    ensures { IfOk result (λ kinds. kinds ≡ kinds_in (known_of known.now) (lexemes_of text.now tokens.now)) }
{
    let mut kinds = Items::new(alloc);
    let mut rest = tokens;
    loop {
        let [first, after @ ..] = rest else {
            return Ok(kinds);
        };
        if is_close(first) {
            return Ok(kinds);
        }
        if !is_comma(first) {
            let name = name_of(alloc, text, first)?;
            kinds.push(known.are_numbers(&name))?;
        }
        rest = after;
    }
}

/// Which columns of an INSERT hold numbers.
#[tactic(auto, unfolding(crate::specs::Numbers::insert_kinds))]
pub fn insert_kinds(
    alloc: Global,
    text: &[u8],
    known: &Known<'_>,
    tokens: &[Token],
) -> Result<Option<Items<bool>>, AllocError>
    ensures { IfOk result (λ kinds. kinds ≡ insert_kinds (known_of known.now) (lexemes_of text.now tokens.now)) }
{
    match tokens {
        [
            Token { kind: INSERT, .. },
            Token { kind: INTO, .. },
            _,
            Token { kind: OPEN, .. },
            rest @ ..,
        ] => Ok(Some(kinds_in(alloc, text, known, rest)?)),
        [
            Token { kind: INSERT, .. },
            Token { kind: INTO, .. },
            _,
            Token {
                kind: VALUES | VALUE,
                ..
            },
            ..
        ] => Ok(Some(known.all_kinds(alloc)?)),
        _ => Ok(None),
    }
}

#[tactic(auto, unfolding(crate::specs::Numbers::is_open))]
fn is_open(token: &Token) -> bool
    ensures { (text : List ℕ) → result ≡ is_open (lexeme_of text token.now) }
{
    match token.kind {
        OPEN => true,
        _ => false,
    }
}

/// Which columns hold numbers from the next value on.
pub fn next_kinds<'s>(all: &'s [bool], now: &'s [bool], token: &Token) -> &'s [bool]
    ensures { (text : List ℕ) → result.now ≡ next_kinds all.now now.now (lexeme_of text token.now) }
{
    if is_open(token) {
        return all;
    }
    if !is_comma(token) {
        return now;
    }
    match now {
        [] => now,
        [_, rest @ ..] => rest,
    }
}
