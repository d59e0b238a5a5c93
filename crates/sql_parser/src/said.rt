//! What tokens say.
ghost use Rattle.std.specs.Prelude.{◌≡◌, ◌≤◌, ◌+◌, ◌-◌, ◌*◌, length, slice_range, IfOk};
ghost use Rattle.std.specs.Option.{option_copied};
ghost use Rattle.sql_lexer.specs.Lexemes.{digits_onto, inner, unescaped};
ghost use Rattle.sql_parser.specs.inner.Reading.{said, identifier_of, natural_of, fitting};

use crate::unescaping::unescaped;
use sql_lexer::{Token, TokenKind};
use std::alloc::{AllocError, Global};
use vt_value::Items;

/// How many digits are read without a look at whether 64 bits hold their value.
const FEW_DIGITS: usize = 16;

/// The bytes of a token, as far as the text has them.
fn bytes_of<'s>(text: &'s [u8], token: &Token) -> &'s [u8]
    ensures { result.now ≡ slice_range text.now token.now.start token.now.end }
{
    let end = token.end.min(text.len());
    let start = token.start.min(end);
    &text[start..end]
}

/// The bytes between a first and a last one.
fn inner(bytes: &[u8]) -> &[u8]
    ensures { result.now ≡ inner bytes.now }
{
    match bytes {
        [_, inner @ .., _] => inner,
        _ => &[],
    }
}

/// The name that a token says.
pub fn identifier<'s>(text: &'s [u8], token: &Token) -> Option<&'s [u8]>
    ensures { option_copied result ≡ identifier_of (said text.now token.now) }
{
    match token.kind {
        TokenKind::Word => Some(bytes_of(text, token)),
        TokenKind::Quoted => Some(inner(bytes_of(text, token))),
        _ => None,
    }
}

/// The value of digits with one more, if 64 bits hold it.
fn with_digit(value: u64, digit: u8) -> Option<u64>
    ensures { result ≡ fitting (value * 10 + (digit - 0x30)) }
{
    let digit = u64::from(digit.saturating_sub(b'0'));
    value.checked_mul(10)?.checked_add(digit)
}

/// The value of so few digits that 64 bits hold it, whatever they are.
fn small_value(digits: &[u8]) -> u64
    requires { length digits.now ≤ 16 }
    ensures { result ≡ digits_onto 0 digits.now }
{
    let mut value = 0;
    for digit in digits {
        value = value * 10 + u64::from(digit.saturating_sub(b'0'));
    }
    value
}

/// The value of any number of digits, if 64 bits hold it. It is no part of `value_of`, so that a small number doesn't pay for it.
#[inline(never)]
fn large_value(digits: &[u8]) -> Option<u64>
    ensures { result ≡ fitting (digits_onto 0 digits.now) }
{
    let mut value = 0;
    for digit in digits {
        value = with_digit(value, *digit)?;
    }
    Some(value)
}

/// The value of decimal digits, if 64 bits hold it.
fn value_of(digits: &[u8]) -> Option<u64>
    ensures { result ≡ fitting (digits_onto 0 digits.now) }
{
    if digits.len() <= FEW_DIGITS {
        Some(small_value(digits))
    } else {
        large_value(digits)
    }
}

/// The number that a token says, if 64 bits hold it.
pub fn number(text: &[u8], token: &Token) -> Option<u64>
    ensures { result ≡ natural_of (said text.now token.now) }
{
    match token.kind {
        TokenKind::Number => value_of(bytes_of(text, token)),
        _ => None,
    }
}

/// What a text token says.
pub fn string(alloc: Global, text: &[u8], token: &Token) -> Result<Items<u8>, AllocError>
    ensures ok { IfOk result (λ said. said ≡ unescaped (inner (slice_range text.now token.now.start token.now.end))) }
{
    unescaped(alloc, inner(bytes_of(text, token)))
}
