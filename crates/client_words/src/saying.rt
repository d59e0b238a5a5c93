//! What a client says as a text of the grammar.
ghost use Rattle.std.specs.Prelude.{◌≡◌, ◌<◌, ◌≤◌, ℕ, List, IfOk, IfSome, Option, [], Some, length};
ghost use Rattle.client_statements.specs.tokens.Pieces.{lexemes_of};
ghost use Rattle.vschema.specs.declared.schema.VSchema.{VSchema};
ghost use Rattle.client_words.specs.Sayings.{Becomes, IsWhole, IsSaidAs};
ghost use Rattle.client_words.specs.inner.Written.{IsPut};

use crate::aliases::unaliased;
use crate::distinct::{parts_of, put_groups};
use crate::forms::form;
use crate::numbers::with_numbers;
use crate::spelling::{put, put_word};
use crate::tables::table_of;
use client_statements::tokens::{Token, lex, one_lexing};
use sql_tree::Name;
use std::alloc::{AllocError, Global};
use vschema::VSchema;
use vt_value::{Items, Refusal};

/// What a client says as a text of the grammar.
#[derive(Drop)]
pub struct Said {
    pub text: Items<u8>,
    /// The names that it gives columns, in order; the others keep theirs.
    pub names: Items<Option<Name>>,
}

/// Puts what is at the front of tokens, and gives those after it.
fn put_front<'s>(
    alloc: Global,
    out: &mut Vec<u8>,
    text: &[u8],
    table: &Option<Name>,
    tokens: &'s [Token],
) -> Result<&'s [Token], AllocError>
    requires some { 1 ≤ length tokens.now }
    ensures put { IfOk result (λ rest. IsPut table.now out.old.items out.new.items (lexemes_of text.now tokens.now) (lexemes_of text.now rest.now)) }
    ensures shorter { IfOk result (λ rest. length rest.now < length tokens.now) }
{
    match form(alloc, text, table, tokens) {
        Ok((written, rest)) => {
            put(out, written.as_slice())?;
            Ok(rest)
        }
        Err(Refusal::SyntaxError) => {
            put_word(alloc, out, text, &tokens[0])?;
            Ok(&tokens[1..])
        }
        Err(_) => Err(AllocError),
    }
}

/// The text that tokens become, by the table of the statement.
fn rewritten(
    alloc: Global,
    text: &[u8],
    table: &Option<Name>,
    tokens: &[Token],
) -> Result<Items<u8>, AllocError>
    ensures { IfOk result (λ whole. Becomes table.now (lexemes_of text.now tokens.now) whole) }
{
    let mut out = Vec::with_capacity(alloc, text.len())?;
    let mut rest = tokens;
    while !rest.is_empty() {
        rest = put_front(alloc, &mut out, text, table, rest)?;
    }
    Ok(Items::from_vec(out))
}

/// The text that tokens become.
fn said_text(alloc: Global, text: &[u8], tokens: &[Token]) -> Result<Items<u8>, AllocError>
    ensures { IfOk result (λ whole. IsWhole (lexemes_of text.now tokens.now) whole) }
{
    let table = table_of(alloc, text, tokens)?;
    let parts = parts_of(alloc, tokens)?;
    let front = rewritten(alloc, text, &table, parts.front.as_slice())?;
    let tail = rewritten(alloc, text, &table, parts.tail)?;
    let mut out = Vec::new(alloc);
    put(&mut out, front.as_slice())?;
    put_groups(alloc, &mut out, text, parts.groups.as_slice())?;
    put(&mut out, tail.as_slice())?;
    Ok(Items::from_vec(out))
}

// Promise: What a client says in other words is written as the text of the grammar that means the same
/// The text of the grammar that says what a client says, if that is tokens, blanks and comments. It is for a text that the grammar refuses: what
/// comes of it may still have no tree.
pub fn said_as(alloc: Global, schema: &VSchema, text: &[u8]) -> Result<Option<Said>, AllocError>
    ensures found { IfOk result (λ o. IfSome o (λ said. IsSaidAs schema.now text.now said.text said.names)) }
    ensures only { (whole : List ℕ) (names : List (Option (List ℕ))) → IsSaidAs schema.now text.now whole names
        → IfOk result (λ o. o ≡ Some (record { text = whole; names = names })) }
{
    one_saying();
    let Some(tokens) = lex(alloc, text)? else {
        return Ok(None);
    };
    let tokens = with_numbers(alloc, schema, text, tokens.as_slice())?;
    let query = unaliased(alloc, schema, text, tokens)?;
    let text = said_text(alloc, text, query.tokens.as_slice())?;
    Ok(Some(Said {
        text,
        names: query.names,
    }))
}

/// A text is said in one way.
pub fn one_saying()
    ensures { (schema : VSchema) (text a b : List ℕ) (names others : List (Option (List ℕ))) → IsSaidAs schema text a names → IsSaidAs schema text b others → (a ≡ b) × (names ≡ others) }
{
    one_lexing();
}
