//! Cuts a text of SQL into tokens, one at a time from the front.
ghost use Rattle.std.specs.Prelude.{◌≡◌, ◌≤◌, ◌++◌, ◌⊎◌, ℕ, List, IfOk, IfErr, MatchResult, true, length, drop};
ghost use Rattle.sql_lexer.specs.declared.token.Token.{Token};
ghost use Rattle.sql_lexer.specs.declared.token.TokenKind.{TokenKind};
ghost use Rattle.sql_lexer.specs.Lexemes.{Spells, ends_token};
ghost use Rattle.sql_lexer.specs.Tokens.{Lexes};
ghost use Rattle.sql_lexer.specs.inner.Results.{AgreesWith};
ghost use Rattle.sql_lexer.specs.inner.Scanning.{word_at, digits_at, quoted_at, string_at, sign_at, operator_at, mark_at};
ghost use Rattle.sql_lexer.specs.inner.Scanning.{token_at, lex_at};

use crate::body::text_len;
use crate::byte::{
    begins_blank, begins_letter, begins_word_byte, is_digit, is_letter, number_len, word_code,
    word_len,
};
use crate::keyword::keyword_of;
use crate::token::{Sign, Token, TokenKind};
use std::alloc::Global;
use vt_value::{Comparison, Refusal};

/// How many bytes a word has at most.
const MAX_WORD: usize = 64;

/// For how many tokens room is made at first: most queries by a key have less.
const TOKENS: usize = 16;

/// The kind of the token at a text's front, and how many bytes it has.
type Front = (TokenKind, usize);

#[inline(always)]
#[tactic(auto, unfolding(crate::specs::inner::Scanning::word_at))]
fn word(rest: &[u8]) -> Option<Front>
    ensures { result ≡ word_at rest.now }
{
    let (length, code) = word_code(rest);
    if length > MAX_WORD {
        return None;
    }
    match keyword_of(&rest[..length], code) {
        Some(keyword) => Some((TokenKind::Keyword(keyword), length)),
        None => Some((TokenKind::Word, length)),
    }
}

#[tactic(auto, unfolding(crate::specs::inner::Scanning::digits_at))]
fn number(rest: &[u8]) -> Option<Front>
    ensures { result ≡ digits_at rest.now }
{
    let length = number_len(rest);
    if begins_word_byte(rest_from(rest, length)) {
        return None;
    }
    Some((TokenKind::Number, length))
}

/// A word between backquotes, after the first.
#[tactic(auto, unfolding(crate::specs::inner::Scanning::quoted_at))]
fn quoted(rest: &[u8]) -> Option<Front>
    ensures { result ≡ quoted_at rest.now }
{
    let length = word_len(rest);
    if !begins_letter(rest) || length > MAX_WORD {
        return None;
    }
    match rest_from(rest, length) {
        [b'`', ..] => Some((TokenKind::Quoted, length + 2)),
        _ => None,
    }
}

/// A text in single quotes, after the first.
#[tactic(auto, unfolding(crate::specs::inner::Scanning::string_at))]
fn text(rest: &[u8]) -> Option<Front>
    ensures { result ≡ string_at rest.now }
{
    let length = text_len(rest)?;
    Some((TokenKind::Text, length + 1))
}

fn sign(first: u8) -> Option<Sign>
    ensures { result ≡ sign_at first }
{
    match first {
        b'(' => Some(Sign::LeftParenthesis),
        b')' => Some(Sign::RightParenthesis),
        b',' => Some(Sign::Comma),
        b';' => Some(Sign::Semicolon),
        b'*' => Some(Sign::Star),
        b'-' => Some(Sign::Minus),
        b'.' => Some(Sign::Dot),
        _ => None,
    }
}

/// The operator that begins with this byte, and how many bytes it has.
fn operator(first: u8, after: &[u8]) -> Option<(Comparison, usize)>
    ensures { result ≡ operator_at first after.now }
{
    let second = after.first().copied();
    match (first, second) {
        (b'<', Some(b'=')) => Some((Comparison::Le, 2)),
        (b'<', Some(b'>')) => Some((Comparison::Ne, 2)),
        (b'<', _) => Some((Comparison::Lt, 1)),
        (b'>', Some(b'=')) => Some((Comparison::Ge, 2)),
        (b'>', _) => Some((Comparison::Gt, 1)),
        (b'!', Some(b'=')) => Some((Comparison::Ne, 2)),
        (b'=', _) => Some((Comparison::Eq, 1)),
        _ => None,
    }
}

/// A sign or an operator that begins with this byte.
#[inline(always)]
#[tactic(auto, unfolding(crate::specs::inner::Scanning::mark_at))]
fn mark(first: u8, after: &[u8]) -> Option<Front>
    ensures { result ≡ mark_at first after.now }
{
    if let Some(sign) = sign(first) {
        return Some((TokenKind::Sign(sign), 1));
    }
    let (comparison, length) = operator(first, after)?;
    Some((TokenKind::Operator(comparison), length))
}

/// The token at the front. It is part of both loops over tokens, and so is what reads its word or its mark: a call for each token
/// costs as much as some of them do.
#[inline(always)]
#[tactic(auto, unfolding(crate::specs::inner::Scanning::token_at))]
pub fn token(rest: &[u8]) -> Option<Front>
    ensures { result ≡ token_at rest.now }
{
    match rest {
        [] => None,
        [first, after @ ..] => {
            if is_letter(*first) {
                word(rest)
            } else if is_digit(*first) {
                number(rest)
            } else {
                match *first {
                    b'`' => quoted(after),
                    b'\'' => text(after),
                    first => mark(first, after),
                }
            }
        }
    }
}

pub fn rest_from(text: &[u8], at: usize) -> &[u8]
    requires { at ≤ length text.now }
    ensures { result.now ≡ drop at text.now }
{
    &text[at..]
}

fn tokens(alloc: Global, text: &[u8]) -> Result<Vec<Token>, Refusal>
    ensures { AgreesWith (λ v. v.items) result (lex_at (length text.now) 0 text.now) }
{
    let mut tokens = Vec::with_capacity(alloc, TOKENS)?;
    let mut at = 0;
    while at < text.len() {
        let rest = rest_from(text, at);
        if begins_blank(rest) {
            at += 1;
        } else {
            let Some((kind, length)) = token(rest) else {
                return Err(Refusal::SyntaxError);
            };
            let end = at + length;
            tokens.push(Token {
                kind,
                start: at,
                end,
            })?;
            at = end;
        }
    }
    Ok(tokens)
}

// Promise: The tokens of a text are given, and a syntax error comes only if it has none
/// The tokens of a text: words of at most 64 bytes, keywords in any case, words in backquotes, numbers, texts in single
/// quotes, signs and operators, each as long as possible, with blanks between them. A text with anything else in it, or
/// with a letter right after a number, is a syntax error.
pub fn lex(alloc: Global, text: &[u8]) -> Result<Vec<Token>, Refusal>
    // What is given are the text's tokens.
    ensures found { IfOk result (λ v. Lexes text.now v.items) }
    // A text that has tokens is read, unless memory runs out; so a syntax error comes only if it is no tokens and
    // blanks.
    ensures only { (tokens : List Token) → Lexes text.now tokens
        → MatchResult result (λ v. v.items ≡ tokens) (λ e. e ≡ Refusal.OutOfMemory) }
    ensures err { IfErr result (λ e. (e ≡ Refusal.OutOfMemory) ⊎ (e ≡ Refusal.SyntaxError)) }
{
    tokens(alloc, text)
}

// Promise: A text has its tokens in one way, and a token is as long as possible
// With: longest
/// A text has its tokens in one way.
pub fn one_lexing()
    ensures { (text : List ℕ) (ts us : List Token) → Lexes text ts → Lexes text us → ts ≡ us }
{}

/// No token that is at a text's front is longer than one that may end before what follows it.
pub fn longest()
    ensures { (bytes rest front back : List ℕ) (kind other : TokenKind)
        → Spells bytes kind → ends_token kind rest ≡ true → bytes ++ rest ≡ front ++ back → Spells front other
        → length front ≤ length bytes }
{}
