//! Numbers in quotes, where a column holds numbers.
ghost use Rattle.std.specs.Prelude.{◌≡◌, ◌<◌, ◌++◌, [], ◌∷◌, ◌+◌, ℕ, List, Bool, Option, IfOk, OnOk, drop};
ghost use Rattle.std.specs.List.{list_all};
ghost use Rattle.sql_lexer.specs.Lexemes.{is_digit};
ghost use Rattle.client_statements.specs.tokens.Pieces.{lexeme_of, lexemes_of};
ghost use Rattle.client_words.specs.Forms.{name_of};
ghost use Rattle.client_words.specs.Numbers.{are_digits, is_text, minus_token, number_token, number_in, number_of, means_number, number_if, compared, first_kind, stored, by_kinds, with_numbers};
ghost use Rattle.client_words.specs.inner.Known.{known_of};

use crate::columns::{Known, known_in};
use crate::kinds::MINUS;
use crate::places::{Place, insert_kinds, next, next_kinds};
use client_statements::tokens::{Token, TokenKind, bytes_of};
use std::alloc::{AllocError, Global};
use vschema::VSchema;
use vt_value::Items;

fn is_digit(byte: u8) -> bool
    ensures { result ≡ is_digit byte }
{
    byte.is_ascii_digit()
}

fn all_digits(bytes: &[u8]) -> bool
    ensures { result ≡ list_all is_digit bytes.now }
{
    bytes.iter().all(|byte| is_digit(*byte))
}

/// Whether bytes are one or more digits.
fn are_digits(bytes: &[u8]) -> bool
    ensures { result ≡ are_digits bytes.now }
{
    !bytes.is_empty() && all_digits(bytes)
}

#[tactic(auto, unfolding(crate::specs::Numbers::is_text))]
fn is_text(kind: TokenKind) -> bool
    ensures { result ≡ is_text kind }
{
    match kind {
        TokenKind::Text => true,
        _ => false,
    }
}

fn push(out: &mut Items<Token>, token: Token) -> Result<(), AllocError>
    ensures ok { OnOk result (out.new ≡ out.old ++ token ∷ []) }
{
    out.push(token)?;
    Ok(())
}

fn minus_token(start: usize, end: usize) -> Token
    ensures { result ≡ minus_token start end }
{
    Token {
        kind: MINUS,
        start,
        end,
    }
}

fn number_token(start: usize, end: usize) -> Token
    ensures { result ≡ number_token start end }
{
    Token {
        kind: TokenKind::Number,
        start,
        end,
    }
}

/// Puts the number that bytes from one position on are, or else the token.
#[tactic(auto, unfolding(crate::specs::Numbers::number_in))]
fn push_number_in(
    out: &mut Items<Token>,
    bytes: &[u8],
    token: &Token,
    start: usize,
    end: usize,
) -> Result<(), AllocError>
    requires room { start < end }
    ensures ok { OnOk result (out.new ≡ out.old ++ number_in bytes.now token.now start end) }
{
    match bytes {
        [] => push(out, *token),
        [first, digits @ ..] => {
            if are_digits(bytes) {
                push(out, number_token(start, end))
            } else if *first == b'-' && are_digits(digits) {
                push(out, minus_token(start, start + 1))?;
                push(out, number_token(start + 1, end))
            } else {
                push(out, *token)
            }
        }
    }
}

/// Puts the number between a text's quotes, or the token itself.
#[tactic(auto, unfolding(crate::specs::Numbers::number_of))]
fn push_number(text: &[u8], out: &mut Items<Token>, token: &Token) -> Result<(), AllocError>
    ensures ok { OnOk result (out.new ≡ out.old ++ number_of text.now token.now) }
{
    if is_text(token.kind) && token.start < token.end.saturating_sub(2) {
        let start = token.start + 1;
        let end = token.end - 1;
        return push_number_in(out, bytes_of(text, start, end), token, start, end);
    }
    push(out, *token)
}

/// Puts the token, or the number that is meant by it.
fn push_if(
    text: &[u8],
    out: &mut Items<Token>,
    means_number: bool,
    token: &Token,
) -> Result<(), AllocError>
    ensures ok { OnOk result (out.new ≡ out.old ++ number_if means_number text.now token.now) }
{
    if means_number {
        return push_number(text, out, token);
    }
    push(out, *token)
}

/// Whether a number is meant here.
fn means_number(place: Place) -> bool
    ensures { result ≡ means_number place }
{
    match place {
        Place::Value | Place::InList | Place::Between => true,
        _ => false,
    }
}

/// The tokens of conditions and assignments, with the numbers that are meant.
#[tactic(auto, unfolding(crate::specs::Numbers::compared))]
fn compared(
    alloc: Global,
    text: &[u8],
    known: &Known<'_>,
    tokens: &[Token],
) -> Result<Items<Token>, AllocError>
    ensures { IfOk result (λ out. out ≡ compared text.now (known_of known.now) Place.Other tokens.now) }
{
    let mut out = Items::new(alloc);
    let mut place = Place::Other;
    let mut rest = tokens;
    loop {
        let [first, after @ ..] = rest else {
            return Ok(out);
        };
        push_if(text, &mut out, means_number(place), first)?;
        place = next(alloc, text, known, place, first)?;
        rest = after;
    }
}

/// Whether the next column holds numbers.
fn first_kind(kinds: &[bool]) -> bool
    ensures { result ≡ first_kind kinds.now }
{
    match kinds {
        [] => false,
        [first, ..] => *first,
    }
}

/// The tokens of rows, with the numbers that are meant.
#[tactic(auto, unfolding(crate::specs::Numbers::stored))]
fn stored(
    alloc: Global,
    text: &[u8],
    kinds: &[bool],
    tokens: &[Token],
) -> Result<Items<Token>, AllocError>
    ensures { IfOk result (λ out. out ≡ stored text.now kinds.now [] tokens.now) }
{
    let mut out = Items::new(alloc);
    let mut now: &[bool] = &[];
    let mut rest = tokens;
    loop {
        let [first, after @ ..] = rest else {
            return Ok(out);
        };
        push_if(text, &mut out, first_kind(now), first)?;
        now = next_kinds(kinds, now, first);
        rest = after;
    }
}

/// The tokens of a text, with the numbers that are meant.
#[tactic(auto, unfolding(crate::specs::Numbers::with_numbers))]
pub fn with_numbers(
    alloc: Global,
    schema: &VSchema,
    text: &[u8],
    tokens: &[Token],
) -> Result<Items<Token>, AllocError>
    ensures { IfOk result (λ out. out ≡ with_numbers schema.now text.now tokens.now) }
{
    let known = known_in(alloc, schema, text, tokens)?;
    match insert_kinds(alloc, text, &known, tokens)? {
        Some(kinds) => stored(alloc, text, kinds.as_slice(), tokens),
        None => compared(alloc, text, &known, tokens),
    }
}
