//! What tokens say.
ghost use Rattle.std.specs.Prelude.{◌≡◌, ◌++◌, ◌<◌, drop, length, slice_range, IfOk, OnOk};
ghost use Rattle.sql_lexer.specs.Lexemes.{escaped, inner};
ghost use Rattle.client_statements.specs.tokens.Pieces.{said_by, unquoted, unquoted_text};

use crate::tokens::token::{Token, TokenKind};
use std::alloc::{AllocError, Global};
use vt_value::Items;

/// The bytes of a text from one position up to another, as far as it has them.
pub fn bytes_of(text: &[u8], start: usize, end: usize) -> &[u8]
    ensures { result.now ≡ slice_range text.now start end }
{
    let end = end.min(text.len());
    let start = start.min(end);
    &text[start..end]
}

/// The bytes between a first and a last one.
fn inner(bytes: &[u8]) -> &[u8]
    ensures { result.now ≡ inner bytes.now }
{
    match bytes {
        [_, inner @ .., _] => inner,
        _ => &[],
    }
}

/// The bytes after the first two.
fn after_two(bytes: &[u8]) -> &[u8]
    ensures { result.now ≡ drop 2 bytes.now }
{
    match bytes {
        [_, _, rest @ ..] => rest,
        _ => &[],
    }
}

/// Puts what a backslash and this byte say.
fn push_escaped(said: &mut Vec<u8>, byte: u8) -> Result<(), AllocError>
    ensures { OnOk result (said.new.items ≡ said.old.items ++ escaped byte) }
{
    match byte {
        b'0' => said.push(0)?,
        b'b' => said.push(0x08)?,
        b't' => said.push(b'\t')?,
        b'n' => said.push(b'\n')?,
        b'r' => said.push(b'\r')?,
        b'Z' => said.push(0x1A)?,
        b'%' | b'_' => {
            said.push(b'\\')?;
            said.push(byte)?;
        }
        _ => said.push(byte)?,
    }
    Ok(())
}

/// Puts what the first part of a body says, and gives what comes after it.
fn push_part<'s>(said: &mut Vec<u8>, quote: u8, body: &'s [u8]) -> Result<&'s [u8], AllocError>
    ensures same { IfOk result (λ rest. said.new.items ++ unquoted quote rest.now ≡ said.old.items ++ unquoted quote body.now) }
    ensures shorter { IfOk result (λ rest. 0 < length body.now → length rest.now < length body.now) }
{
    match body {
        [] => Ok(body),
        [byte, _, rest @ ..] if *byte == quote => {
            said.push(quote)?;
            Ok(rest)
        }
        [b'\\', byte, rest @ ..] => {
            push_escaped(said, *byte)?;
            Ok(rest)
        }
        [byte, rest @ ..] => {
            said.push(*byte)?;
            Ok(rest)
        }
    }
}

/// What the bytes between a text's quotes say.
fn unquoted(alloc: Global, quote: u8, body: &[u8]) -> Result<Items<u8>, AllocError>
    ensures { IfOk result (λ said. said ≡ unquoted quote body.now) }
{
    let mut said = Vec::new(alloc);
    let mut rest = body;
    while !rest.is_empty() {
        rest = push_part(&mut said, quote, rest)?;
    }
    Ok(Items::from_vec(said))
}

/// What a text says, with its quotes.
fn text_said(alloc: Global, bytes: &[u8]) -> Result<Items<u8>, AllocError>
    ensures { IfOk result (λ said. said ≡ unquoted_text bytes.now) }
{
    match bytes {
        [] => Ok(Items::new(alloc)),
        [quote, ..] => unquoted(alloc, *quote, inner(bytes)),
    }
}

// Promise: What a token says is its bytes, without quotes and `@@`, and with the escapes of a text resolved
/// What a token of the text says: the bytes of a word, a number and an operator, what comes between the quotes of a name and of a text, where a
/// backslash escapes, and the word after `@@`. A sign says nothing.
pub fn said(alloc: Global, text: &[u8], token: &Token) -> Result<Items<u8>, AllocError>
    ensures { IfOk result (λ said. said ≡ said_by token.now.kind (slice_range text.now token.now.start token.now.end)) }
{
    let bytes = bytes_of(text, token.start, token.end);
    match token.kind {
        TokenKind::Word(_) | TokenKind::Number | TokenKind::Operator => {
            Items::from_slice(alloc, bytes)
        }
        TokenKind::Name => Items::from_slice(alloc, inner(bytes)),
        TokenKind::Variable => Items::from_slice(alloc, after_two(bytes)),
        TokenKind::Text => text_said(alloc, bytes),
        TokenKind::Sign(_) => Ok(Items::new(alloc)),
    }
}
