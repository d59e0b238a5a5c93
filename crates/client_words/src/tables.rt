//! The table of a statement, which may stand before its columns.
ghost use Rattle.std.specs.Prelude.{◌≡◌, ◌≤◌, ◌<◌, ◌++◌, ℕ, List, IfOk, [], ◌∷◌, ◌&&◌, codes, length};
ghost use Rattle.sql_lexer.specs.inner.Results.{AgreesWith};
ghost use Rattle.client_statements.specs.tokens.Pieces.{lexeme_of, lexemes_of};
ghost use Rattle.client_words.specs.Spelling.{spelled};
ghost use Rattle.client_words.specs.Forms.{name_of, alias_before_set, before_set, before_where, table_of, is_table, unqualified, qualifier_at, is_one_table, star_at, update_text, if_aliased, aliased_set_at, update_at};

use crate::aliases::{alias_of, is_alias, leads_set, without_as};
use crate::kinds::{
    DELETE, DOT, FROM, GROUP, LIMIT, ORDER, SELECT, SEMICOLON, SET, STAR, UPDATE, WHERE,
};
use crate::operands::Written;
use crate::spelling::{put, put_word};
use client_statements::tokens::{Token, TokenKind, said};
use sql_tree::Name;
use std::alloc::{AllocError, Global};
use vt_value::{Items, Refusal};

/// What a name says.
pub fn name_of(alloc: Global, text: &[u8], token: &Token) -> Result<Option<Name>, AllocError>
    ensures { IfOk result (λ name. name ≡ name_of (lexeme_of text.now token.now)) }
{
    match token.kind {
        TokenKind::Word(_) | TokenKind::Name => Ok(Some(said(alloc, text, token)?)),
        _ => Ok(None),
    }
}

/// The alias of the table before SET.
fn alias_before_set(
    alloc: Global,
    text: &[u8],
    tokens: &[Token],
) -> Result<Option<Name>, AllocError>
    ensures { IfOk result (λ table. table ≡ alias_before_set (lexemes_of text.now tokens.now)) }
{
    let [alias, rest @ ..] = tokens else {
        return Ok(None);
    };
    if leads_set(rest) {
        return alias_of(alloc, text, alias);
    }
    Ok(None)
}

/// The alias of the table before SET, or its own name.
#[tactic(auto, unfolding(crate::specs::Forms::before_set))]
fn before_set(alloc: Global, text: &[u8], tokens: &[Token]) -> Result<Option<Name>, AllocError>
    ensures { IfOk result (λ table. table ≡ before_set (lexemes_of text.now tokens.now)) }
{
    let [table, rest @ ..] = tokens else {
        return Ok(None);
    };
    if leads_set(rest) {
        return name_of(alloc, text, table);
    }
    alias_before_set(alloc, text, without_as(rest))
}

/// The table before WHERE.
#[tactic(auto, unfolding(crate::specs::Forms::before_where))]
fn before_where(alloc: Global, text: &[u8], tokens: &[Token]) -> Result<Option<Name>, AllocError>
    ensures { IfOk result (λ table. table ≡ before_where (lexemes_of text.now tokens.now)) }
{
    match tokens {
        [table, Token { kind: WHERE, .. }, ..] => name_of(alloc, text, table),
        _ => Ok(None),
    }
}

/// The one table of an UPDATE or a DELETE.
#[tactic(auto, unfolding(crate::specs::Forms::table_of))]
pub fn table_of(alloc: Global, text: &[u8], tokens: &[Token]) -> Result<Option<Name>, AllocError>
    ensures { IfOk result (λ table. table ≡ table_of (lexemes_of text.now tokens.now)) }
{
    match tokens {
        [Token { kind: UPDATE, .. }, rest @ ..] => before_set(alloc, text, rest),
        [
            Token { kind: DELETE, .. },
            Token { kind: FROM, .. },
            rest @ ..,
        ] => before_where(alloc, text, rest),
        _ => Ok(None),
    }
}

/// Whether a name is the table's.
pub fn is_table(table: &Option<Name>, name: &Option<Name>) -> bool
    ensures { result ≡ is_table table.now name.now }
{
    match (table, name) {
        (Some(table), Some(name)) => name.as_slice() == table.as_slice(),
        _ => false,
    }
}

/// Whether a token is the name of the table.
fn is_table_name(
    alloc: Global,
    text: &[u8],
    table: &Option<Name>,
    token: &Token,
) -> Result<bool, AllocError>
    ensures { IfOk result (λ is. is ≡ is_table table.now (name_of (lexeme_of text.now token.now))) }
{
    let name = name_of(alloc, text, token)?;
    Ok(is_table(table, &name))
}

/// The tokens without the table and its dot at the front.
#[tactic(auto, unfolding(crate::specs::Forms::unqualified))]
pub fn unqualified<'s>(
    alloc: Global,
    text: &[u8],
    table: &Option<Name>,
    tokens: &'s [Token],
) -> Result<&'s [Token], AllocError>
    ensures rest { IfOk result (λ rest. lexemes_of text.now rest.now ≡ unqualified table.now (lexemes_of text.now tokens.now)) }
    ensures shorter { IfOk result (λ rest. length rest.now ≤ length tokens.now) }
{
    match tokens {
        [first, Token { kind: DOT, .. }, rest @ ..] => {
            if is_table_name(alloc, text, table, first)? {
                Ok(rest)
            } else {
                Ok(tokens)
            }
        }
        _ => Ok(tokens),
    }
}

/// The table and its dot, which aren't written.
#[tactic(auto, unfolding(crate::specs::Forms::qualifier_at))]
pub fn qualifier<'s>(
    alloc: Global,
    text: &[u8],
    table: &Option<Name>,
    tokens: &'s [Token],
) -> Result<Written<'s>, Refusal>
    ensures written { AgreesWith (λ x. (x.0, lexemes_of text.now x.1.now)) result (qualifier_at table.now (lexemes_of text.now tokens.now)) }
    ensures shorter { IfOk result (λ x. length x.1.now < length tokens.now) }
{
    match tokens {
        [first, Token { kind: DOT, .. }, rest @ ..] => {
            if is_table_name(alloc, text, table, first)? {
                Ok((Items::new(alloc), rest))
            } else {
                Err(Refusal::SyntaxError)
            }
        }
        _ => Err(Refusal::SyntaxError),
    }
}

/// Whether a query of the table before these tokens is over it alone.
fn is_one_table(tokens: &[Token]) -> bool
    ensures { (text : List ℕ) → result ≡ is_one_table (lexemes_of text tokens.now) }
{
    match tokens {
        [] => true,
        [
            Token {
                kind: SEMICOLON | WHERE | GROUP | ORDER | LIMIT,
                ..
            },
            ..
        ] => true,
        _ => false,
    }
}

fn star_text(alloc: Global, text: &[u8], table: &Token) -> Result<Items<u8>, AllocError>
    ensures { IfOk result (λ written. written ≡ codes " SELECT * FROM" ++ spelled (lexeme_of text.now table.now ∷ [])) }
{
    let mut out = Vec::new(alloc);
    put(&mut out, b" SELECT * FROM")?;
    put_word(alloc, &mut out, text, table)?;
    Ok(Items::from_vec(out))
}

/// Whether two tokens are names that say the same, and a query of that table is over it alone.
fn is_star_of(
    alloc: Global,
    text: &[u8],
    first: &Token,
    table: &Token,
    rest: &[Token],
) -> Result<bool, AllocError>
    ensures { IfOk result (λ is. is ≡ (is_table (name_of (lexeme_of text.now table.now)) (name_of (lexeme_of text.now first.now)) && is_one_table (lexemes_of text.now rest.now))) }
{
    let table = name_of(alloc, text, table)?;
    let is_same = is_table_name(alloc, text, &table, first)?;
    Ok(is_same && is_one_table(rest))
}

/// SELECT t.* FROM t
#[tactic(auto, unfolding(crate::specs::Forms::star_at))]
pub fn star<'s>(alloc: Global, text: &[u8], tokens: &'s [Token]) -> Result<Written<'s>, Refusal>
    ensures written { AgreesWith (λ x. (x.0, lexemes_of text.now x.1.now)) result (star_at (lexemes_of text.now tokens.now)) }
    ensures shorter { IfOk result (λ x. length x.1.now < length tokens.now) }
{
    match tokens {
        [
            Token { kind: SELECT, .. },
            first,
            Token { kind: DOT, .. },
            Token { kind: STAR, .. },
            Token { kind: FROM, .. },
            table,
            rest @ ..,
        ] => {
            if is_star_of(alloc, text, first, table, rest)? {
                Ok((star_text(alloc, text, table)?, rest))
            } else {
                Err(Refusal::SyntaxError)
            }
        }
        _ => Err(Refusal::SyntaxError),
    }
}

fn update_text(alloc: Global, text: &[u8], table: &Token) -> Result<Items<u8>, AllocError>
    ensures { IfOk result (λ written. written ≡ update_text (lexeme_of text.now table.now)) }
{
    let mut out = Vec::new(alloc);
    put(&mut out, b" UPDATE")?;
    put_word(alloc, &mut out, text, table)?;
    put(&mut out, b" SET")?;
    Ok(Items::from_vec(out))
}

/// The UPDATE of a table without this alias, if it is one.
fn if_aliased<'s>(
    alloc: Global,
    text: &[u8],
    table: &Token,
    alias: &Token,
    rest: &'s [Token],
) -> Result<Written<'s>, Refusal>
    ensures written { AgreesWith (λ x. (x.0, lexemes_of text.now x.1.now)) result (if_aliased (lexeme_of text.now table.now) (lexeme_of text.now alias.now) (lexemes_of text.now rest.now)) }
    ensures rest { IfOk result (λ x. x.1.now ≡ rest.now) }
{
    if is_alias(text, table) && is_alias(text, alias) {
        Ok((update_text(alloc, text, table)?, rest))
    } else {
        Err(Refusal::SyntaxError)
    }
}

/// [AS] alias SET, after UPDATE and its table.
#[tactic(auto, unfolding(crate::specs::Forms::aliased_set_at))]
fn aliased_set<'s>(
    alloc: Global,
    text: &[u8],
    table: &Token,
    tokens: &'s [Token],
) -> Result<Written<'s>, Refusal>
    ensures written { AgreesWith (λ x. (x.0, lexemes_of text.now x.1.now)) result (aliased_set_at (lexeme_of text.now table.now) (lexemes_of text.now tokens.now)) }
    ensures shorter { IfOk result (λ x. length x.1.now < length tokens.now) }
{
    match tokens {
        [alias, Token { kind: SET, .. }, rest @ ..] => if_aliased(alloc, text, table, alias, rest),
        _ => Err(Refusal::SyntaxError),
    }
}

/// UPDATE table [AS] alias SET
#[tactic(auto, unfolding(crate::specs::Forms::update_at))]
pub fn update<'s>(alloc: Global, text: &[u8], tokens: &'s [Token]) -> Result<Written<'s>, Refusal>
    ensures written { AgreesWith (λ x. (x.0, lexemes_of text.now x.1.now)) result (update_at (lexemes_of text.now tokens.now)) }
    ensures shorter { IfOk result (λ x. length x.1.now < length tokens.now) }
{
    match tokens {
        [Token { kind: UPDATE, .. }, table, rest @ ..] => {
            aliased_set(alloc, text, table, without_as(rest))
        }
        _ => Err(Refusal::SyntaxError),
    }
}
