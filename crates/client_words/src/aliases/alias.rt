//! What may be an alias, and which tokens are told by their kind alone.
ghost use Rattle.std.specs.Prelude.{◌≡◌, ◌≤◌, ◌++◌, [], ◌∷◌, ℕ, List, IfOk, OnOk, is_some, length};
ghost use Rattle.client_statements.specs.tokens.Pieces.{lexeme_of, lexemes_of};
ghost use Rattle.client_words.specs.Aliases.{column_alias_of, leads_dot};
ghost use Rattle.client_words.specs.Forms.{leads_set};
ghost use Rattle.client_words.specs.Reserved.{alias_of};
ghost use Rattle.client_words.specs.Marks.{is_from, is_as, is_comma, is_close, is_dot, is_order, is_group, is_set, without_as, without_into, is_equal, is_semicolon};

use crate::kinds::{AS, CLOSE, COMMA, DOT, EQUAL, FROM, GROUP, INTO, ORDER, SEMICOLON, SET};
use crate::reserved::is_reserved;
use client_statements::tokens::{Token, TokenKind, bytes_of, said};
use sql_tree::Name;
use std::alloc::{AllocError, Global};
use vt_value::Items;

/// Whether a token may be the alias of a table.
#[tactic(auto, unfolding(crate::specs::Reserved::alias_of))]
pub fn is_alias(text: &[u8], token: &Token) -> bool
    ensures { result ≡ is_some (alias_of (lexeme_of text.now token.now)) }
{
    match token.kind {
        TokenKind::Word(_) => !is_reserved(bytes_of(text, token.start, token.end)),
        TokenKind::Name => true,
        _ => false,
    }
}

/// Whether a token may be the alias of a column.
#[tactic(auto, unfolding(crate::specs::Aliases::column_alias_of, crate::specs::Reserved::alias_of))]
pub fn is_column_alias(text: &[u8], token: &Token) -> bool
    ensures { result ≡ is_some (column_alias_of (lexeme_of text.now token.now)) }
{
    match token.kind {
        TokenKind::Text => true,
        _ => is_alias(text, token),
    }
}

/// What the alias of a table says.
#[tactic(auto, unfolding(crate::specs::Reserved::alias_of))]
pub fn alias_of(alloc: Global, text: &[u8], token: &Token) -> Result<Option<Name>, AllocError>
    ensures { IfOk result (λ alias. alias ≡ alias_of (lexeme_of text.now token.now)) }
{
    match token.kind {
        TokenKind::Word(_) => {
            if is_reserved(bytes_of(text, token.start, token.end)) {
                Ok(None)
            } else {
                Ok(Some(said(alloc, text, token)?))
            }
        }
        TokenKind::Name => Ok(Some(said(alloc, text, token)?)),
        _ => Ok(None),
    }
}

/// What the alias of a column says.
#[tactic(auto, unfolding(crate::specs::Aliases::column_alias_of, crate::specs::Reserved::alias_of))]
pub fn column_alias_of(
    alloc: Global,
    text: &[u8],
    token: &Token,
) -> Result<Option<Name>, AllocError>
    ensures { IfOk result (λ alias. alias ≡ column_alias_of (lexeme_of text.now token.now)) }
{
    match token.kind {
        TokenKind::Text => Ok(Some(said(alloc, text, token)?)),
        _ => alias_of(alloc, text, token),
    }
}

#[tactic(auto, unfolding(crate::specs::Marks::is_from))]
pub fn is_from(token: &Token) -> bool
    ensures { (text : List ℕ) → result ≡ is_from (lexeme_of text token.now) }
{
    match token.kind {
        FROM => true,
        _ => false
    }
}

#[tactic(auto, unfolding(crate::specs::Marks::is_as))]
pub fn is_as(token: &Token) -> bool
    ensures { (text : List ℕ) → result ≡ is_as (lexeme_of text token.now) }
{
    match token.kind {
        AS => true,
        _ => false
    }
}

#[tactic(auto, unfolding(crate::specs::Marks::is_comma))]
pub fn is_comma(token: &Token) -> bool
    ensures { (text : List ℕ) → result ≡ is_comma (lexeme_of text token.now) }
{
    match token.kind {
        COMMA => true,
        _ => false
    }
}

#[tactic(auto, unfolding(crate::specs::Marks::is_close))]
pub fn is_close(token: &Token) -> bool
    ensures { (text : List ℕ) → result ≡ is_close (lexeme_of text token.now) }
{
    match token.kind {
        CLOSE => true,
        _ => false
    }
}

#[tactic(auto, unfolding(crate::specs::Marks::is_dot))]
pub fn is_dot(token: &Token) -> bool
    ensures { (text : List ℕ) → result ≡ is_dot (lexeme_of text token.now) }
{
    match token.kind {
        DOT => true,
        _ => false
    }
}

#[tactic(auto, unfolding(crate::specs::Marks::is_order))]
pub fn is_order(token: &Token) -> bool
    ensures { (text : List ℕ) → result ≡ is_order (lexeme_of text token.now) }
{
    match token.kind {
        ORDER => true,
        _ => false
    }
}

#[tactic(auto, unfolding(crate::specs::Marks::is_group))]
pub fn is_group(token: &Token) -> bool
    ensures { (text : List ℕ) → result ≡ is_group (lexeme_of text token.now) }
{
    match token.kind {
        GROUP => true,
        _ => false,
    }
}

#[tactic(auto, unfolding(crate::specs::Marks::is_set))]
fn is_set(token: &Token) -> bool
    ensures { (text : List ℕ) → result ≡ is_set (lexeme_of text token.now) }
{
    match token.kind {
        SET => true,
        _ => false,
    }
}

/// Whether SET is at the front.
pub fn leads_set(tokens: &[Token]) -> bool
    ensures { (text : List ℕ) → result ≡ leads_set (lexemes_of text tokens.now) }
{
    match tokens {
        [] => false,
        [first, ..] => is_set(first),
    }
}

/// The tokens without AS at the front.
#[tactic(auto, unfolding(crate::specs::Marks::without_as))]
pub fn without_as(tokens: &[Token]) -> &[Token]
    ensures same { (text : List ℕ) → lexemes_of text result.now ≡ without_as (lexemes_of text tokens.now) }
    ensures shorter { length result.now ≤ length tokens.now }
{
    match tokens {
        [Token { kind: AS, .. }, rest @ ..] => rest,
        _ => tokens,
    }
}

/// The tokens without INTO at the front.
#[tactic(auto, unfolding(crate::specs::Marks::without_into))]
pub fn without_into(tokens: &[Token]) -> &[Token]
    ensures same { (text : List ℕ) → lexemes_of text result.now ≡ without_into (lexemes_of text tokens.now) }
    ensures shorter { length result.now ≤ length tokens.now }
{
    match tokens {
        [Token { kind: INTO, .. }, rest @ ..] => rest,
        _ => tokens,
    }
}

#[tactic(auto, unfolding(crate::specs::Marks::is_equal))]
pub fn is_equal(token: &Token) -> bool
    ensures { (text : List ℕ) → result ≡ is_equal (lexeme_of text token.now) }
{
    match token.kind {
        EQUAL => true,
        _ => false,
    }
}

#[tactic(auto, unfolding(crate::specs::Marks::is_semicolon))]
pub fn is_semicolon(token: &Token) -> bool
    ensures { (text : List ℕ) → result ≡ is_semicolon (lexeme_of text token.now) }
{
    match token.kind {
        SEMICOLON => true,
        _ => false,
    }
}

/// Whether a dot is at the front.
pub fn leads_dot(tokens: &[Token]) -> bool
    ensures { (text : List ℕ) → result ≡ leads_dot (lexemes_of text tokens.now) }
{
    match tokens {
        [] => false,
        [first, ..] => is_dot(first),
    }
}

/// Puts a token.
pub fn push(out: &mut Items<Token>, token: &Token) -> Result<(), AllocError>
    ensures ok { (text : List ℕ) → OnOk result (lexemes_of text out.new ≡ lexemes_of text out.old ++ lexeme_of text token.now ∷ []) }
{
    out.push(*token)?;
    Ok(())
}

/// Puts all tokens.
pub fn push_all(out: &mut Items<Token>, tokens: &[Token]) -> Result<(), AllocError>
    ensures ok { (text : List ℕ) → OnOk result (lexemes_of text out.new ≡ lexemes_of text out.old ++ lexemes_of text tokens.now) }
{
    for token in tokens {
        push(out, token)?;
    }
    Ok(())
}
