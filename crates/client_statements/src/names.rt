//! Names, texts, signs and switches at the front of tokens.
ghost use Rattle.std.specs.Prelude.{◌≡◌, ℕ, List, slice_range};
ghost use Rattle.sql_lexer.specs.inner.Results.{AgreesWith};
ghost use Rattle.client_statements.specs.tokens.Pieces.{lexemes_of, said_by};
ghost use Rattle.client_statements.specs.Grammar.{identifier_at, string_at, any_at, short_name, set_name_at, like_at, equals_at, comma_at, open_at, close_at};

use crate::kinds::{ASSIGN, CLOSE, COMMA, EQUAL, LIKE, OFF, ON, OPEN};
use crate::tokens::{Token, TokenKind, said};
use sql_tree::Name;
use std::alloc::Global;
use vt_value::Refusal;

/// How many bytes a name has at most.
const MAX_WORD: usize = 64;

/// A word or a name between backquotes.
#[tactic(auto, unfolding(crate::specs::Grammar::identifier_at))]
pub fn identifier<'s>(
    alloc: Global,
    text: &[u8],
    tokens: &'s [Token],
) -> Result<(Name, &'s [Token]), Refusal>
    ensures { AgreesWith (λ x. (x.0, lexemes_of text.now x.1.now)) result (identifier_at (lexemes_of text.now tokens.now)) }
{
    match tokens {
        [first, rest @ ..] => match first.kind {
            TokenKind::Word(_) | TokenKind::Name => Ok((said(alloc, text, first)?, rest)),
            _ => Err(Refusal::SyntaxError),
        },
        [] => Err(Refusal::SyntaxError),
    }
}

/// A text in quotes.
#[tactic(auto, unfolding(crate::specs::Grammar::string_at))]
pub fn string<'s>(
    alloc: Global,
    text: &[u8],
    tokens: &'s [Token],
) -> Result<(Name, &'s [Token]), Refusal>
    ensures { AgreesWith (λ x. (x.0, lexemes_of text.now x.1.now)) result (string_at (lexemes_of text.now tokens.now)) }
{
    match tokens {
        [first, rest @ ..] => match first.kind {
            TokenKind::Text => Ok((said(alloc, text, first)?, rest)),
            _ => Err(Refusal::SyntaxError),
        },
        [] => Err(Refusal::SyntaxError),
    }
}

/// What comes after a word, a name, a number or a text.
#[tactic(auto, unfolding(crate::specs::Grammar::any_at))]
pub fn any(tokens: &[Token]) -> Result<&[Token], Refusal>
    ensures { (text : List ℕ) → AgreesWith (λ x. lexemes_of text x.now) result (any_at (lexemes_of text tokens.now)) }
{
    match tokens {
        [first, rest @ ..] => match first.kind {
            TokenKind::Word(_) | TokenKind::Name | TokenKind::Number | TokenKind::Text => Ok(rest),
            TokenKind::Variable | TokenKind::Operator | TokenKind::Sign(_) => {
                Err(Refusal::SyntaxError)
            }
        },
        [] => Err(Refusal::SyntaxError),
    }
}

/// A name that isn't longer than SQL has it.
fn short_name<'s>(
    alloc: Global,
    text: &[u8],
    first: &Token,
    rest: &'s [Token],
) -> Result<(Name, &'s [Token]), Refusal>
    ensures { AgreesWith (λ x. (x.0, lexemes_of text.now x.1.now)) result
        (short_name (said_by first.now.kind (slice_range text.now first.now.start first.now.end)) (lexemes_of text.now rest.now)) }
{
    let name = said(alloc, text, first)?;
    if name.len() <= MAX_WORD {
        Ok((name, rest))
    } else {
        Err(Refusal::SyntaxError)
    }
}

/// The name of a character set or of a collation: a name, or a text.
#[tactic(auto, unfolding(crate::specs::Grammar::set_name_at))]
pub fn set_name<'s>(
    alloc: Global,
    text: &[u8],
    tokens: &'s [Token],
) -> Result<(Name, &'s [Token]), Refusal>
    ensures { AgreesWith (λ x. (x.0, lexemes_of text.now x.1.now)) result (set_name_at (lexemes_of text.now tokens.now)) }
{
    match tokens {
        [first, rest @ ..] => match first.kind {
            TokenKind::Word(_) | TokenKind::Name => short_name(alloc, text, first, rest),
            TokenKind::Text => Ok((said(alloc, text, first)?, rest)),
            _ => Err(Refusal::SyntaxError),
        },
        [] => Err(Refusal::SyntaxError),
    }
}

/// What comes after a sign `=` or `:=`.
#[tactic(auto, unfolding(crate::specs::Grammar::equals_at))]
pub fn equals(tokens: &[Token]) -> Result<&[Token], Refusal>
    ensures { (text : List ℕ) → AgreesWith (λ x. lexemes_of text x.now) result (equals_at (lexemes_of text tokens.now)) }
{
    match tokens {
        [
            Token {
                kind: EQUAL | ASSIGN,
                ..
            },
            rest @ ..,
        ] => Ok(rest),
        _ => Err(Refusal::SyntaxError),
    }
}

/// What comes after a comma.
#[tactic(auto, unfolding(crate::specs::Grammar::comma_at))]
pub fn comma(tokens: &[Token]) -> Result<&[Token], Refusal>
    ensures { (text : List ℕ) → AgreesWith (λ x. lexemes_of text x.now) result (comma_at (lexemes_of text tokens.now)) }
{
    match tokens {
        [Token { kind: COMMA, .. }, rest @ ..] => Ok(rest),
        _ => Err(Refusal::SyntaxError),
    }
}

/// What comes after an opening parenthesis.
#[tactic(auto, unfolding(crate::specs::Grammar::open_at))]
pub fn open(tokens: &[Token]) -> Result<&[Token], Refusal>
    ensures { (text : List ℕ) → AgreesWith (λ x. lexemes_of text x.now) result (open_at (lexemes_of text tokens.now)) }
{
    match tokens {
        [Token { kind: OPEN, .. }, rest @ ..] => Ok(rest),
        _ => Err(Refusal::SyntaxError),
    }
}

/// What comes after a closing parenthesis.
#[tactic(auto, unfolding(crate::specs::Grammar::close_at))]
pub fn close(tokens: &[Token]) -> Result<&[Token], Refusal>
    ensures { (text : List ℕ) → AgreesWith (λ x. lexemes_of text x.now) result (close_at (lexemes_of text tokens.now)) }
{
    match tokens {
        [Token { kind: CLOSE, .. }, rest @ ..] => Ok(rest),
        _ => Err(Refusal::SyntaxError),
    }
}

/// LIKE and a pattern, if it is there.
#[tactic(auto, unfolding(crate::specs::Grammar::like_at))]
pub fn like<'s>(
    alloc: Global,
    text: &[u8],
    tokens: &'s [Token],
) -> Result<(Option<Name>, &'s [Token]), Refusal>
    ensures { AgreesWith (λ x. (x.0, lexemes_of text.now x.1.now)) result (like_at (lexemes_of text.now tokens.now)) }
{
    match tokens {
        [Token { kind: LIKE, .. }, rest @ ..] => {
            let (pattern, rest) = string(alloc, text, rest)?;
            Ok((Some(pattern), rest))
        }
        _ => Ok((None, tokens)),
    }
}
