//! Conditions of WHERE.
ghost use Rattle.std.specs.Prelude.{◌≡◌, ◌||◌, ℕ, List, [], ◌∷◌, option_map, is_some};
ghost use Rattle.std.specs.Option.{option_copied};
ghost use Rattle.sql_lexer.specs.Lexemes.{lexemes_of};
ghost use Rattle.sql_lexer.specs.inner.Results.{AgreesWith};
ghost use Rattle.sql_parser.specs.inner.Reading.{is_and, is_or, after_at, all_follow, in_at, null_at, is_at, test_at};
ghost use Rattle.sql_parser.specs.inner.Reading.{predicate_at, negation_at, not_at, and_at, or_at};

use crate::kinds::{AND, IN, IS, NOT, NULL, OPEN, OR};
use crate::literals::{closed, members, operand};
use sql_lexer::{Token, TokenKind};
use sql_tree::{ColumnName, Condition, Operand};
use std::alloc::Global;
use vt_value::{Boxed, Items, Refusal};

fn after_and(tokens: &[Token]) -> Option<&[Token]>
    ensures { (text : List ℕ)
        → option_map (lexemes_of text) (option_copied result) ≡ after_at is_and (lexemes_of text tokens.now) }
{
    match tokens {
        [Token { kind: AND, .. }, rest @ ..] => Some(rest),
        _ => None,
    }
}

fn after_or(tokens: &[Token]) -> Option<&[Token]>
    ensures { (text : List ℕ)
        → option_map (lexemes_of text) (option_copied result) ≡ after_at is_or (lexemes_of text tokens.now) }
{
    match tokens {
        [Token { kind: OR, .. }, rest @ ..] => Some(rest),
        _ => None,
    }
}

/// Whether an AND or an OR comes next.
pub fn goes_on(tokens: &[Token]) -> bool
    ensures { (text : List ℕ)
        → result ≡ (is_some (after_at is_and (lexemes_of text tokens.now)) || is_some (after_at is_or (lexemes_of text tokens.now))) }
{
    after_and(tokens).is_some() || after_or(tokens).is_some()
}

/// IN (literal,..), after an operand.
#[tactic(auto, unfolding(crate::specs::inner::Reading::in_at))]
fn in_list<'s>(
    alloc: Global,
    text: &[u8],
    left: Operand<ColumnName>,
    tokens: &'s [Token],
) -> Result<(Condition<ColumnName>, &'s [Token]), Refusal>
    ensures { AgreesWith (λ x. (x.0, lexemes_of text.now x.1.now)) result (in_at left (lexemes_of text.now tokens.now)) }
{
    match tokens {
        [Token { kind: IN, .. }, rest @ ..] => {
            let (members, rest) = members(alloc, text, rest)?;
            Ok((Condition::In(left, members), rest))
        }
        _ => Err(Refusal::SyntaxError),
    }
}

/// NULL, after an operand and IS.
#[tactic(auto, unfolding(crate::specs::inner::Reading::null_at))]
fn null(
    left: Operand<ColumnName>,
    tokens: &[Token],
) -> Result<(Condition<ColumnName>, &[Token]), Refusal>
    ensures { (text : List ℕ)
        → AgreesWith (λ x. (x.0, lexemes_of text x.1.now)) result (null_at left (lexemes_of text tokens.now)) }
{
    match tokens {
        [Token { kind: NULL, .. }, rest @ ..] => Ok((Condition::IsNull(left), rest)),
        _ => Err(Refusal::SyntaxError),
    }
}

/// [NOT] NULL, after an operand and IS.
#[tactic(auto, unfolding(crate::specs::inner::Reading::is_at))]
fn is<'s>(
    alloc: Global,
    may_negate: bool,
    left: Operand<ColumnName>,
    tokens: &'s [Token],
) -> Result<(Condition<ColumnName>, &'s [Token]), Refusal>
    ensures { (text : List ℕ)
        → AgreesWith (λ x. (x.0, lexemes_of text x.1.now)) result (is_at may_negate left (lexemes_of text tokens.now)) }
{
    match tokens {
        [Token { kind: NOT, .. }, rest @ ..] if may_negate => {
            let (inner, rest) = null(left, rest)?;
            Ok((Condition::Not(Boxed::new(alloc, inner)?), rest))
        }
        _ => null(left, tokens),
    }
}

/// What comes after an operand; a NOT only if one may be there.
#[tactic(auto, unfolding(crate::specs::inner::Reading::test_at))]
fn test<'s>(
    alloc: Global,
    text: &[u8],
    may_negate: bool,
    left: Operand<ColumnName>,
    tokens: &'s [Token],
) -> Result<(Condition<ColumnName>, &'s [Token]), Refusal>
    ensures { AgreesWith (λ x. (x.0, lexemes_of text.now x.1.now)) result
        (test_at may_negate left (lexemes_of text.now tokens.now)) }
{
    match tokens {
        [
            Token {
                kind: TokenKind::Operator(op),
                ..
            },
            rest @ ..,
        ] => {
            let (right, rest) = operand(alloc, text, rest)?;
            Ok((Condition::Compare(*op, left, right), rest))
        }
        [Token { kind: IS, .. }, rest @ ..] => is(alloc, may_negate, left, rest),
        [Token { kind: NOT, .. }, rest @ ..] if may_negate => {
            let (inner, rest) = in_list(alloc, text, left, rest)?;
            Ok((Condition::Not(Boxed::new(alloc, inner)?), rest))
        }
        _ => in_list(alloc, text, left, tokens),
    }
}

/// An operand and what comes after it.
#[tactic(auto, unfolding(crate::specs::inner::Reading::predicate_at))]
fn predicate<'s>(
    alloc: Global,
    text: &[u8],
    may_negate: bool,
    tokens: &'s [Token],
) -> Result<(Condition<ColumnName>, &'s [Token]), Refusal>
    ensures { AgreesWith (λ x. (x.0, lexemes_of text.now x.1.now)) result
        (predicate_at may_negate (lexemes_of text.now tokens.now)) }
{
    let (left, rest) = operand(alloc, text, tokens)?;
    test(alloc, text, may_negate, left, rest)
}

/// not = NOT not | atom, with at most `depth` open parentheses and NOTs on one path.
#[cycle(condition)]
#[tactic(auto, unfolding(crate::specs::inner::Reading::not_at))]
fn not<'s>(
    alloc: Global,
    text: &[u8],
    depth: usize,
    tokens: &'s [Token],
) -> Result<(Condition<ColumnName>, &'s [Token]), Refusal>
    ensures { AgreesWith (λ x. (x.0, lexemes_of text.now x.1.now)) result (not_at depth (lexemes_of text.now tokens.now)) }
{
    if depth == 0 {
        predicate(alloc, text, false, tokens)
    } else {
        negation(alloc, text, depth - 1, tokens)
    }
}

/// not = NOT not | atom, where one more parenthesis or NOT may be open, and then `deeper` more.
#[cycle(condition)]
#[tactic(auto, unfolding(crate::specs::inner::Reading::negation_at))]
fn negation<'s>(
    alloc: Global,
    text: &[u8],
    deeper: usize,
    tokens: &'s [Token],
) -> Result<(Condition<ColumnName>, &'s [Token]), Refusal>
    ensures { AgreesWith (λ x. (x.0, lexemes_of text.now x.1.now)) result
        (negation_at (not_at deeper) (lexemes_of text.now tokens.now)) }
{
    match tokens {
        [Token { kind: NOT, .. }, rest @ ..] => {
            let (inner, rest) = not(alloc, text, deeper, rest)?;
            Ok((Condition::Not(Boxed::new(alloc, inner)?), rest))
        }
        [Token { kind: OPEN, .. }, rest @ ..] => {
            let (inner, rest) = or(alloc, text, deeper, rest)?;
            closed(inner, rest)
        }
        _ => predicate(alloc, text, true, tokens),
    }
}

/// The members of an AND after the first, with it.
#[cycle(condition)]
fn ands<'s>(
    alloc: Global,
    text: &[u8],
    depth: usize,
    first: Condition<ColumnName>,
    tokens: &'s [Token],
) -> Result<(Items<Condition<ColumnName>>, &'s [Token]), Refusal>
    ensures { AgreesWith (λ x. (x.0, lexemes_of text.now x.1.now)) result
        (all_follow is_and (not_at depth) (first ∷ []) (lexemes_of text.now tokens.now)) }
{
    let mut members = Items::new(alloc);
    members.push(first)?;
    let mut rest = tokens;
    while let Some(after) = after_and(rest) {
        let (next, after) = not(alloc, text, depth, after)?;
        members.push(next)?;
        rest = after;
    }
    Ok((members, rest))
}

/// and = not | not AND not AND ..
#[cycle(condition)]
#[tactic(auto, unfolding(crate::specs::inner::Reading::joined_at))]
fn and<'s>(
    alloc: Global,
    text: &[u8],
    depth: usize,
    tokens: &'s [Token],
) -> Result<(Condition<ColumnName>, &'s [Token]), Refusal>
    ensures { AgreesWith (λ x. (x.0, lexemes_of text.now x.1.now)) result (and_at depth (lexemes_of text.now tokens.now)) }
{
    let (first, rest) = not(alloc, text, depth, tokens)?;
    if after_and(rest).is_none() {
        return Ok((first, rest));
    }
    let (members, rest) = ands(alloc, text, depth, first, rest)?;
    Ok((Condition::And(members), rest))
}

/// The members of an OR after the first, with it.
#[cycle(condition)]
fn ors<'s>(
    alloc: Global,
    text: &[u8],
    depth: usize,
    first: Condition<ColumnName>,
    tokens: &'s [Token],
) -> Result<(Items<Condition<ColumnName>>, &'s [Token]), Refusal>
    ensures { AgreesWith (λ x. (x.0, lexemes_of text.now x.1.now)) result
        (all_follow is_or (and_at depth) (first ∷ []) (lexemes_of text.now tokens.now)) }
{
    let mut members = Items::new(alloc);
    members.push(first)?;
    let mut rest = tokens;
    while let Some(after) = after_or(rest) {
        let (next, after) = and(alloc, text, depth, after)?;
        members.push(next)?;
        rest = after;
    }
    Ok((members, rest))
}

/// or = and | and OR and OR .., with at most `depth` open parentheses and NOTs on one path.
#[cycle(condition)]
#[tactic(auto, unfolding(crate::specs::inner::Reading::joined_at))]
pub fn or<'s>(
    alloc: Global,
    text: &[u8],
    depth: usize,
    tokens: &'s [Token],
) -> Result<(Condition<ColumnName>, &'s [Token]), Refusal>
    ensures { AgreesWith (λ x. (x.0, lexemes_of text.now x.1.now)) result (or_at depth (lexemes_of text.now tokens.now)) }
{
    let (first, rest) = and(alloc, text, depth, tokens)?;
    if after_or(rest).is_none() {
        return Ok((first, rest));
    }
    let (members, rest) = ors(alloc, text, depth, first, rest)?;
    Ok((Condition::Or(members), rest))
}
