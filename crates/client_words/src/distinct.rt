//! SELECT DISTINCT as groups of its columns.
ghost use Rattle.std.specs.Prelude.{◌≡◌, ◌++◌, [], ◌∷◌, ℕ, List, IfOk, OnOk};
ghost use Rattle.client_statements.specs.tokens.Pieces.{lexeme_of, lexemes_of};
ghost use Rattle.client_words.specs.Spelling.{spelled};
ghost use Rattle.client_words.specs.Distinct.{ends_filter, up_to_order, order_on, up_to_from, parts_of, group_text};
ghost use Rattle.client_words.specs.inner.Parts.{parts_in};

use crate::aliases::{is_from, push};
use crate::kinds::{DISTINCT, LIMIT, ORDER, SELECT, SEMICOLON};
use crate::spelling::{put, put_word};
use client_statements::tokens::Token;
use std::alloc::{AllocError, Global};
use vt_value::Items;

/// A text's tokens in two, and the columns whose groups are written between them.
#[derive(Drop)]
pub struct Parts<'s> {
    pub front: Items<Token>,
    pub groups: Items<Token>,
    pub tail: &'s [Token],
}

#[tactic(auto, unfolding(crate::specs::Distinct::ends_filter))]
pub fn ends_filter(token: &Token) -> bool
    ensures { (text : List ℕ) → result ≡ ends_filter (lexeme_of text token.now) }
{
    match token.kind {
        ORDER | LIMIT | SEMICOLON => true,
        _ => false,
    }
}

/// Puts the tokens before ORDER BY and LIMIT, and gives those from there on.
#[tactic(auto, unfolding(crate::specs::Distinct::up_to_order, crate::specs::Distinct::order_on))]
fn push_up_to_order<'s>(
    front: &mut Items<Token>,
    tokens: &'s [Token],
) -> Result<&'s [Token], AllocError>
    ensures front { (text : List ℕ) → IfOk result (λ rest. lexemes_of text front.new ≡ lexemes_of text front.old ++ up_to_order (lexemes_of text tokens.now)) }
    ensures tail { (text : List ℕ) → IfOk result (λ rest. lexemes_of text rest.now ≡ order_on (lexemes_of text tokens.now)) }
{
    let mut rest = tokens;
    loop {
        let [first, after @ ..] = rest else {
            return Ok(rest);
        };
        if ends_filter(first) {
            return Ok(rest);
        }
        push(front, first)?;
        rest = after;
    }
}

/// The tokens before FROM.
#[tactic(auto, unfolding(crate::specs::Distinct::up_to_from))]
fn up_to_from(alloc: Global, tokens: &[Token]) -> Result<Items<Token>, AllocError>
    ensures { (text : List ℕ) → IfOk result (λ list. lexemes_of text list ≡ up_to_from (lexemes_of text tokens.now)) }
{
    let mut list = Items::new(alloc);
    let mut rest = tokens;
    loop {
        let [first, after @ ..] = rest else {
            return Ok(list);
        };
        if is_from(first) {
            return Ok(list);
        }
        push(&mut list, first)?;
        rest = after;
    }
}

/// A text's tokens in two, and the columns whose groups are written between them.
#[tactic(auto, unfolding(crate::specs::Distinct::parts_of))]
pub fn parts_of<'s>(alloc: Global, tokens: &'s [Token]) -> Result<Parts<'s>, AllocError>
    ensures { (text : List ℕ) → IfOk result (λ parts. parts_in text parts ≡ parts_of (lexemes_of text tokens.now)) }
{
    match tokens {
        [
            select @ Token { kind: SELECT, .. },
            Token { kind: DISTINCT, .. },
            rest @ ..,
        ] => {
            let mut front = Items::new(alloc);
            push(&mut front, select)?;
            let tail = push_up_to_order(&mut front, rest)?;
            Ok(Parts {
                front,
                groups: up_to_from(alloc, rest)?,
                tail,
            })
        }
        _ => Ok(Parts {
            front: Items::from_slice(alloc, tokens)?,
            groups: Items::new(alloc),
            tail: &[],
        }),
    }
}

/// Puts tokens, each after a blank.
pub fn put_words(
    alloc: Global,
    out: &mut Vec<u8>,
    text: &[u8],
    tokens: &[Token],
) -> Result<(), AllocError>
    ensures ok { OnOk result (out.new.items ≡ out.old.items ++ spelled (lexemes_of text.now tokens.now)) }
{
    for token in tokens {
        put_word(alloc, out, text, token)?;
    }
    Ok(())
}

/// Puts the groups of columns.
pub fn put_groups(
    alloc: Global,
    out: &mut Vec<u8>,
    text: &[u8],
    columns: &[Token],
) -> Result<(), AllocError>
    ensures ok { OnOk result (out.new.items ≡ out.old.items ++ group_text (lexemes_of text.now columns.now)) }
{
    match columns {
        [] => Ok(()),
        [_, ..] => {
            put(out, b" GROUP BY")?;
            put_words(alloc, out, text, columns)
        }
    }
}
