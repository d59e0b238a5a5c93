//! Comments.
ghost use Rattle.std.specs.Prelude.{◌≡◌, ◌≤◌, ◌==◌, ◌&&◌, length, IfSome};
ghost use Rattle.sql_lexer.specs.inner.Scanning.{first_passes};
ghost use Rattle.client_statements.specs.tokens.inner.Scanning.{remark_len, dashes_at, remark_at};

use crate::tokens::byte::{begins_no_blank, begins_with, line_len, rest_from};
use crate::tokens::lexing::Front;
use crate::tokens::token::{Sign, TokenKind};

/// Whether a byte and those after it begin with `*/`.
fn closes(byte: u8, after: &[u8]) -> bool
    ensures { result ≡ ((byte == 0x2A) && first_passes (λ c. c == 0x2F) after.now) }
{
    byte == b'*' && begins_with(after, b'/')
}

/// How many bytes there are up to the first `*/`, it included.
#[tactic(auto, unfolding(crate::specs::tokens::inner::Scanning::remark_len))]
fn remark_len(bytes: &[u8]) -> Option<usize>
    ensures value { result ≡ remark_len bytes.now }
    ensures within { IfSome result (λ n. n ≤ length bytes.now) }
{
    for (count, byte) in bytes.iter().enumerate() {
        if closes(*byte, rest_from(bytes, count + 1)) {
            return Some(count + 2);
        }
    }
    None
}

/// A comment up to the end of its line, after the first of its two dashes; or that dash alone.
#[tactic(auto, unfolding(crate::specs::tokens::inner::Scanning::dashes_at))]
pub fn dashes(after: &[u8]) -> Option<Front>
    ensures { result ≡ dashes_at after.now }
{
    match after {
        [b'-', line @ ..] if !begins_no_blank(line) => Some((None, line_len(line) + 2)),
        _ => Some((Some(TokenKind::Sign(Sign::Minus)), 1)),
    }
}

/// A comment up to `*/`, after its first byte.
#[tactic(auto, unfolding(crate::specs::tokens::inner::Scanning::remark_at))]
pub fn remark(after: &[u8]) -> Option<Front>
    ensures { result ≡ remark_at after.now }
{
    match after {
        [b'*', inside @ ..] if !begins_with(inside, b'!') => {
            let length = remark_len(inside)?;
            Some((None, length + 2))
        }
        _ => None,
    }
}
