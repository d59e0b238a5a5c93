//! Literals and operands.
ghost use Rattle.std.specs.Prelude.{◌≡◌, ℕ, List, IfOk};
ghost use Rattle.sql_lexer.specs.Lexemes.{lexemes_of};
ghost use Rattle.sql_lexer.specs.inner.Results.{AgreesWith};
ghost use Rattle.sql_parser.specs.inner.Reading.{listed_at, close_at, open_at, natural_at, negative_at, literal_at};
ghost use Rattle.sql_parser.specs.inner.Reading.{operand_at, members_at};

use crate::kinds::{CLOSE, MINUS, NULL, OPEN};
use crate::names::{after_comma, number, rest_of_name};
use crate::said;
use sql_lexer::{Token, TokenKind};
use sql_tree::{ColumnName, Operand};
use std::alloc::Global;
use vt_value::{Items, Refusal, Value};

/// How large a number may be after a minus.
const MAX_NEGATIVE: u64 = 0x8000_0000_0000_0000;

/// What comes after a closing parenthesis.
#[tactic(auto, unfolding(crate::specs::inner::Reading::close_at))]
fn close(tokens: &[Token]) -> Result<&[Token], Refusal>
    ensures { (text : List ℕ)
        → AgreesWith (λ rest. lexemes_of text rest.now) result (close_at (lexemes_of text tokens.now)) }
{
    match tokens {
        [Token { kind: CLOSE, .. }, rest @ ..] => Ok(rest),
        _ => Err(Refusal::SyntaxError),
    }
}

/// What was read in parentheses, and what comes after the closing one.
pub fn closed<'s, T: Drop>(inner: T, tokens: &'s [Token]) -> Result<(T, &'s [Token]), Refusal>
    ensures same { IfOk result (λ x. x.0 ≡ inner) }
    ensures trailing { (text : List ℕ)
        → AgreesWith (λ x. lexemes_of text x.1.now) result (close_at (lexemes_of text tokens.now)) }
{
    let rest = close(tokens)?;
    Ok((inner, rest))
}

/// What comes after an opening parenthesis.
#[tactic(auto, unfolding(crate::specs::inner::Reading::open_at))]
pub fn open(tokens: &[Token]) -> Result<&[Token], Refusal>
    ensures { (text : List ℕ)
        → AgreesWith (λ rest. lexemes_of text rest.now) result (open_at (lexemes_of text tokens.now)) }
{
    match tokens {
        [Token { kind: OPEN, .. }, rest @ ..] => Ok(rest),
        _ => Err(Refusal::SyntaxError),
    }
}

#[tactic(auto, unfolding(crate::specs::inner::Reading::natural_at))]
fn natural<'s>(text: &[u8], tokens: &'s [Token]) -> Result<(Value, &'s [Token]), Refusal>
    ensures { AgreesWith (λ x. (x.0, lexemes_of text.now x.1.now)) result (natural_at (lexemes_of text.now tokens.now)) }
{
    let (value, rest) = number(text, tokens)?;
    Ok((Value::Int(i128::from(value)), rest))
}

/// A number after its minus.
#[tactic(auto, unfolding(crate::specs::inner::Reading::negative_at))]
fn negative<'s>(text: &[u8], tokens: &'s [Token]) -> Result<(Value, &'s [Token]), Refusal>
    ensures { AgreesWith (λ x. (x.0, lexemes_of text.now x.1.now)) result (negative_at (lexemes_of text.now tokens.now)) }
{
    let (value, rest) = number(text, tokens)?;
    if value > MAX_NEGATIVE {
        return Err(Refusal::SyntaxError);
    }
    Ok((Value::Int(-i128::from(value)), rest))
}

/// literal = number | - number | string | NULL
#[tactic(auto, unfolding(crate::specs::inner::Reading::literal_at))]
pub fn literal<'s>(
    alloc: Global,
    text: &[u8],
    tokens: &'s [Token],
) -> Result<(Value, &'s [Token]), Refusal>
    ensures { AgreesWith (λ x. (x.0, lexemes_of text.now x.1.now)) result (literal_at (lexemes_of text.now tokens.now)) }
{
    match tokens {
        [Token { kind: NULL, .. }, rest @ ..] => Ok((Value::Null, rest)),
        [Token { kind: MINUS, .. }, rest @ ..] => negative(text, rest),
        [
            first @ Token {
                kind: TokenKind::Text,
                ..
            },
            rest @ ..,
        ] => { Ok((Value::Bytes(said::string(alloc, text, first)?), rest)) }
        _ => natural(text, tokens),
    }
}

/// literal,..
fn literals<'s>(
    alloc: Global,
    text: &[u8],
    tokens: &'s [Token],
) -> Result<(Items<Value>, &'s [Token]), Refusal>
    ensures { AgreesWith (λ x. (x.0, lexemes_of text.now x.1.now)) result
        (listed_at literal_at (lexemes_of text.now tokens.now)) }
{
    let (first, mut rest) = literal(alloc, text, tokens)?;
    let mut literals = Items::new(alloc);
    literals.push(first)?;
    while let Some(after) = after_comma(rest) {
        let (next, after) = literal(alloc, text, after)?;
        literals.push(next)?;
        rest = after;
    }
    Ok((literals, rest))
}

/// (literal,..)
#[tactic(auto, unfolding(crate::specs::inner::Reading::bracketed_at))]
pub fn members<'s>(
    alloc: Global,
    text: &[u8],
    tokens: &'s [Token],
) -> Result<(Items<Value>, &'s [Token]), Refusal>
    ensures { AgreesWith (λ x. (x.0, lexemes_of text.now x.1.now)) result (members_at (lexemes_of text.now tokens.now)) }
{
    let rest = open(tokens)?;
    let (members, rest) = literals(alloc, text, rest)?;
    closed(members, rest)
}

/// operand = column | literal
#[tactic(auto, unfolding(crate::specs::inner::Reading::operand_at))]
pub fn operand<'s>(
    alloc: Global,
    text: &[u8],
    tokens: &'s [Token],
) -> Result<(Operand<ColumnName>, &'s [Token]), Refusal>
    ensures { AgreesWith (λ x. (x.0, lexemes_of text.now x.1.now)) result (operand_at (lexemes_of text.now tokens.now)) }
{
    let [first, rest @ ..] = tokens else {
        return Err(Refusal::SyntaxError);
    };
    match said::identifier(text, first) {
        Some(bytes) => {
            let name = Items::from_slice(alloc, bytes)?;
            let (column, rest) = rest_of_name(alloc, text, name, rest)?;
            Ok((Operand::Column(column), rest))
        }
        None => {
            let (value, rest) = literal(alloc, text, tokens)?;
            Ok((Operand::Literal(value), rest))
        }
    }
}
