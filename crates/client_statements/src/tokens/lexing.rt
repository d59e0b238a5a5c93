//! Cuts what a client says into tokens, one at a time from the front. Each kind of token has a function, which returns how many bytes it takes.
ghost use Rattle.std.specs.Prelude.{◌≡◌, ◌++◌, [], ℕ, List, OnOk, IfOk, IfSome, Some, length, option_map};
ghost use Rattle.client_statements.specs.declared.tokens.token.Token.{Token};
ghost use Rattle.client_statements.specs.tokens.Tokens.{HasTokens, onto_tokens};
ghost use Rattle.client_statements.specs.tokens.inner.Scanning.{number_at, text_at, is_name_before, name_at, variable_at, assigns_at, sign_at, mark_at};
ghost use Rattle.client_statements.specs.tokens.inner.Scanning.{word_at, operator_at, piece_at, tokens_at};
ghost use Rattle.client_statements.specs.tokens.Pieces.{operator_kind};

use crate::tokens::blank::{dashes, remark};
use crate::tokens::body::text_len;
use crate::tokens::byte::{
    begins_letter, begins_with, begins_word_byte, is_blank, is_digit, is_letter, is_operator_byte,
    is_quote, line_len, name_len, number_len, operator_len, rest_from, word_len,
};
use crate::tokens::keyword::keyword_of;
use crate::tokens::token::{Sign, Token, TokenKind};
use std::alloc::{AllocError, Global};

/// For how many tokens room is made at first.
const TOKENS: usize = 16;

/// The kind of the token at a text's front, or none of a blank and of a comment, and how many bytes it has.
pub type Front = (Option<TokenKind>, usize);

/// A number, after its first digit.
#[tactic(auto, unfolding(crate::specs::tokens::inner::Scanning::number_at))]
fn number(after: &[u8]) -> Option<Front>
    ensures { result ≡ number_at after.now }
{
    let length = number_len(after);
    if begins_word_byte(rest_from(after, length)) {
        return None;
    }
    Some((Some(TokenKind::Number), length + 1))
}

/// A text, after its first quote.
#[tactic(auto, unfolding(crate::specs::tokens::inner::Scanning::text_at))]
fn text(quote: u8, after: &[u8]) -> Option<Front>
    ensures { result ≡ text_at quote after.now }
{
    let length = text_len(quote, after)?;
    Some((Some(TokenKind::Text), length + 1))
}

/// Whether a backquote is at the front, and no second one after it.
fn is_name_before(rest: &[u8]) -> bool
    ensures { result ≡ is_name_before rest.now }
{
    match rest {
        [] => false,
        [_, after @ ..] => !begins_with(after, b'`'),
    }
}

/// A name between backquotes, after the first.
#[tactic(auto, unfolding(crate::specs::tokens::inner::Scanning::name_at))]
fn name(after: &[u8]) -> Option<Front>
    ensures { result ≡ name_at after.now }
{
    let length = name_len(after);
    if is_name_before(rest_from(after, length)) {
        Some((Some(TokenKind::Name), length + 2))
    } else {
        None
    }
}

/// A variable, after its first byte.
#[tactic(auto, unfolding(crate::specs::tokens::inner::Scanning::variable_at))]
fn variable(after: &[u8]) -> Option<Front>
    ensures { result ≡ variable_at after.now }
{
    match after {
        [b'@', word @ ..] if begins_letter(word) => Some((
            Some(TokenKind::Variable),
            word_len(word) + 2,
        )),
        _ => None,
    }
}

/// `:=`, after its first byte.
#[tactic(auto, unfolding(crate::specs::tokens::inner::Scanning::assigns_at))]
fn assigns(after: &[u8]) -> Option<Front>
    ensures { result ≡ assigns_at after.now }
{
    if begins_with(after, b'=') {
        Some((Some(TokenKind::Sign(Sign::Assign)), 2))
    } else {
        None
    }
}

fn sign(first: u8) -> Option<Sign>
    ensures { result ≡ sign_at first }
{
    match first {
        b'*' => Some(Sign::Star),
        b',' => Some(Sign::Comma),
        b'.' => Some(Sign::Dot),
        b'(' => Some(Sign::LeftParenthesis),
        b')' => Some(Sign::RightParenthesis),
        b';' => Some(Sign::Semicolon),
        _ => None,
    }
}

/// What first_passes with a byte that no word, number or text first_passes with.
#[tactic(auto, unfolding(crate::specs::tokens::inner::Scanning::mark_at))]
fn mark(first: u8, after: &[u8]) -> Option<Front>
    ensures { result ≡ mark_at first after.now }
{
    match first {
        b'`' => name(after),
        b'@' => variable(after),
        b'#' => Some((None, line_len(after) + 1)),
        b'-' => dashes(after),
        b'/' => remark(after),
        b':' => assigns(after),
        _ => {
            let sign = sign(first)?;
            Some((Some(TokenKind::Sign(sign)), 1))
        }
    }
}

/// A word.
#[tactic(auto, unfolding(crate::specs::tokens::inner::Scanning::word_at))]
fn word(rest: &[u8]) -> Option<Front>
    ensures { result ≡ word_at rest.now }
{
    let length = word_len(rest);
    let keyword = keyword_of(&rest[..length]);
    Some((Some(TokenKind::Word(keyword)), length))
}

/// What operator bytes are.
fn operator_kind(bytes: &[u8]) -> TokenKind
    ensures { result ≡ operator_kind bytes.now }
{
    match bytes {
        b"=" => TokenKind::Sign(Sign::Equal),
        _ => TokenKind::Operator,
    }
}

/// An operator.
#[tactic(auto, unfolding(crate::specs::tokens::inner::Scanning::operator_at))]
fn operator(rest: &[u8]) -> Option<Front>
    ensures { result ≡ operator_at rest.now }
{
    let length = operator_len(rest);
    let kind = operator_kind(&rest[..length]);
    Some((Some(kind), length))
}

/// What is at the front.
#[tactic(auto, unfolding(crate::specs::tokens::inner::Scanning::piece_at))]
fn piece(rest: &[u8]) -> Option<Front>
    ensures { result ≡ piece_at rest.now }
{
    let [first, after @ ..] = rest else {
        return None;
    };
    if is_blank(*first) {
        Some((None, 1))
    } else if is_letter(*first) {
        word(rest)
    } else if is_digit(*first) {
        number(after)
    } else if is_quote(*first) {
        text(*first, after)
    } else if is_operator_byte(*first) {
        operator(rest)
    } else {
        mark(*first, after)
    }
}

/// Puts the token of a piece, if it is one.
fn push_piece(
    tokens: &mut Vec<Token>,
    what: Option<TokenKind>,
    start: usize,
    end: usize,
) -> Result<(), AllocError>
    ensures { OnOk result (tokens.new.items ≡ tokens.old.items ++ onto_tokens what start end []) }
{
    if let Some(kind) = what {
        tokens.push(Token { kind, start, end })?;
    }
    Ok(())
}

fn tokens(alloc: Global, text: &[u8]) -> Result<Option<Vec<Token>>, AllocError>
    ensures { IfOk result (λ o. option_map (λ v. v.items) o ≡ tokens_at (length text.now) 0 text.now) }
{
    let mut tokens = Vec::with_capacity(alloc, TOKENS)?;
    let mut at = 0;
    while at < text.len() {
        let Some((what, length)) = piece(rest_from(text, at)) else {
            return Ok(None);
        };
        let end = at + length;
        push_piece(&mut tokens, what, at, end)?;
        at = end;
    }
    Ok(Some(tokens))
}

// Promise: What a client says has its tokens, with comments as blanks, and none only if it isn't tokens, blanks and comments
/// The tokens of what a client says, if it is tokens, blanks and comments.
pub fn lex(alloc: Global, text: &[u8]) -> Result<Option<Vec<Token>>, AllocError>
    ensures found { IfOk result (λ o. IfSome o (λ v. HasTokens text.now v.items)) }
    ensures only { (tokens : List Token) → HasTokens text.now tokens → IfOk result (λ o. option_map (λ v. v.items) o ≡ Some tokens) }
{
    tokens(alloc, text)
}

/// A text has its tokens in one way.
pub fn one_lexing()
    ensures { (text : List ℕ) (ts us : List Token) → HasTokens text ts → HasTokens text us → ts ≡ us }
{}
