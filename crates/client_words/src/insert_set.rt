//! INSERT with SET, as INSERT of one row.
ghost use Rattle.std.specs.Prelude.{◌≡◌, ◌<◌, ◌≤◌, ◌++◌, ℕ, List, false, IfOk, OnOk, length};
ghost use Rattle.sql_lexer.specs.inner.Results.{AgreesWith};
ghost use Rattle.client_statements.specs.tokens.Pieces.{lexeme_of, lexemes_of};
ghost use Rattle.client_words.specs.Spelling.{spelled};
ghost use Rattle.client_words.specs.InsertSet.{columns_in, values_in, after_sets, row_text, row_at, insert_set_at};

use crate::aliases::{is_comma, is_equal, is_semicolon, push, without_into};
use crate::distinct::put_words;
use crate::kinds::{INSERT, SET};
use crate::operands::Written;
use crate::spelling::{put, put_word};
use client_statements::tokens::Token;
use std::alloc::{AllocError, Global};
use vt_value::{Items, Refusal};

/// The columns of assignments, with the commas between them.
#[tactic(auto, unfolding(crate::specs::InsertSet::columns_in))]
fn columns_in(alloc: Global, tokens: &[Token]) -> Result<Items<Token>, AllocError>
    ensures { (text : List ℕ) → IfOk result (λ list. lexemes_of text list ≡ columns_in false (lexemes_of text tokens.now)) }
{
    let mut list = Items::new(alloc);
    let mut rest = tokens;
    let mut after_sign = false;
    loop {
        let [first, after @ ..] = rest else {
            return Ok(list);
        };
        if is_semicolon(first) {
            return Ok(list);
        }
        if is_comma(first) {
            push(&mut list, first)?;
            after_sign = false;
        } else if after_sign || is_equal(first) {
            after_sign = true;
        } else {
            push(&mut list, first)?;
        }
        rest = after;
    }
}

/// The values of assignments, with the commas between them.
#[tactic(auto, unfolding(crate::specs::InsertSet::values_in))]
fn values_in(alloc: Global, tokens: &[Token]) -> Result<Items<Token>, AllocError>
    ensures { (text : List ℕ) → IfOk result (λ list. lexemes_of text list ≡ values_in false (lexemes_of text tokens.now)) }
{
    let mut list = Items::new(alloc);
    let mut rest = tokens;
    let mut after_sign = false;
    loop {
        let [first, after @ ..] = rest else {
            return Ok(list);
        };
        if is_semicolon(first) {
            return Ok(list);
        }
        if is_comma(first) {
            push(&mut list, first)?;
            after_sign = false;
        } else if after_sign {
            push(&mut list, first)?;
        } else {
            after_sign = is_equal(first);
        }
        rest = after;
    }
}

/// The tokens from a semicolon on.
#[tactic(auto, unfolding(crate::specs::InsertSet::after_sets))]
fn after_sets(tokens: &[Token]) -> &[Token]
    ensures same { (text : List ℕ) → lexemes_of text result.now ≡ after_sets (lexemes_of text tokens.now) }
    ensures shorter { length result.now ≤ length tokens.now }
{
    let mut rest = tokens;
    loop {
        let [first, after @ ..] = rest else {
            return rest;
        };
        if is_semicolon(first) {
            return rest;
        }
        rest = after;
    }
}

/// The INSERT of the row that assignments make.
fn row_text(
    alloc: Global,
    text: &[u8],
    table: &Token,
    sets: &[Token],
) -> Result<Items<u8>, AllocError>
    ensures { IfOk result (λ written. written ≡ row_text (lexeme_of text.now table.now) (lexemes_of text.now sets.now)) }
{
    let columns = columns_in(alloc, sets)?;
    let values = values_in(alloc, sets)?;
    let mut out = Vec::new(alloc);
    put(&mut out, b" INSERT INTO")?;
    put_word(alloc, &mut out, text, table)?;
    put(&mut out, b" (")?;
    put_words(alloc, &mut out, text, columns.as_slice())?;
    put(&mut out, b" ) VALUES (")?;
    put_words(alloc, &mut out, text, values.as_slice())?;
    put(&mut out, b" )")?;
    Ok(Items::from_vec(out))
}

/// table SET column = value,.. as the INSERT of a row.
#[tactic(auto, unfolding(crate::specs::InsertSet::row_at))]
fn row<'s>(alloc: Global, text: &[u8], tokens: &'s [Token]) -> Result<Written<'s>, Refusal>
    ensures written { AgreesWith (λ x. (x.0, lexemes_of text.now x.1.now)) result (row_at (lexemes_of text.now tokens.now)) }
    ensures shorter { IfOk result (λ x. length x.1.now < length tokens.now) }
{
    match tokens {
        [table, Token { kind: SET, .. }, rest @ ..] => {
            Ok((row_text(alloc, text, table, rest)?, after_sets(rest)))
        }
        _ => Err(Refusal::SyntaxError),
    }
}

/// INSERT [INTO] table SET column = value,..
#[tactic(auto, unfolding(crate::specs::InsertSet::insert_set_at))]
pub fn insert_set<'s>(
    alloc: Global,
    text: &[u8],
    tokens: &'s [Token],
) -> Result<Written<'s>, Refusal>
    ensures written { AgreesWith (λ x. (x.0, lexemes_of text.now x.1.now)) result (insert_set_at (lexemes_of text.now tokens.now)) }
    ensures shorter { IfOk result (λ x. length x.1.now < length tokens.now) }
{
    match tokens {
        [Token { kind: INSERT, .. }, rest @ ..] => row(alloc, text, without_into(rest)),
        _ => Err(Refusal::SyntaxError),
    }
}
