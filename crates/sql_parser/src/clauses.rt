//! FROM, the second table, and the clauses after the tables' names.
ghost use Rattle.std.specs.Prelude.{◌≡◌, ◌||◌, ℕ, List, false, is_some, IfSome};
ghost use Rattle.sql_lexer.specs.Lexemes.{lexemes_of};
ghost use Rattle.sql_lexer.specs.declared.token.Keyword.TheVariants.{Where};
ghost use Rattle.sql_lexer.specs.declared.token.TokenKind.TheVariants.{Keyword, Word, Operator, Number};
ghost use Rattle.sql_lexer.specs.inner.Results.{AgreesWith};
ghost use Rattle.sql_parser.specs.inner.Reading.{said, is_and, is_or, after_at, listed_at, from_at, on_at, joined_on_at, join_at, compared_at, filter_at, where_at, group_at};
ghost use Rattle.sql_parser.specs.inner.Reading.{direction_at, sort_key_at, order_at, offset_at, limit_at};

use crate::conditions::{goes_on, or};
use crate::kinds::{ASC, BY, DESC, FROM, GROUP, INNER, JOIN, LIMIT, OFFSET, ON, ORDER, WHERE};
use crate::names::{after_comma, column, columns, name, number};
use crate::said;
use crate::writes::equals;
use sql_lexer::{Token, TokenKind};
use sql_tree::{ColumnName, Condition, JoinOn, Key, LimitClause, Name, Operand};
use std::alloc::Global;
use vt_value::{Comparison, Items, Refusal, Value};

/// How many open parentheses and NOTs may be on one path.
const MAX_DEPTH: usize = 64;

/// FROM name
#[tactic(auto, unfolding(crate::specs::inner::Reading::from_at))]
pub fn from<'s>(
    alloc: Global,
    text: &[u8],
    tokens: &'s [Token],
) -> Result<(Name, &'s [Token]), Refusal>
    ensures { AgreesWith (λ x. (x.0, lexemes_of text.now x.1.now)) result (from_at (lexemes_of text.now tokens.now)) }
{
    match tokens {
        [Token { kind: FROM, .. }, rest @ ..] => name(alloc, text, rest),
        _ => Err(Refusal::SyntaxError),
    }
}

/// What comes after ON.
#[tactic(auto, unfolding(crate::specs::inner::Reading::on_at))]
fn on(tokens: &[Token]) -> Result<&[Token], Refusal>
    ensures { (text : List ℕ) → AgreesWith (λ x. lexemes_of text x.now) result (on_at (lexemes_of text tokens.now)) }
{
    match tokens {
        [Token { kind: ON, .. }, rest @ ..] => Ok(rest),
        _ => Err(Refusal::SyntaxError),
    }
}

/// name ON column = column, after JOIN
#[tactic(auto, unfolding(crate::specs::inner::Reading::joined_on_at))]
fn joined_on<'s>(
    alloc: Global,
    text: &[u8],
    tokens: &'s [Token],
) -> Result<(JoinOn, &'s [Token]), Refusal>
    ensures { AgreesWith (λ x. (x.0, lexemes_of text.now x.1.now)) result (joined_on_at (lexemes_of text.now tokens.now)) }
{
    let (table, rest) = name(alloc, text, tokens)?;
    let rest = on(rest)?;
    let (left, rest) = column(alloc, text, rest)?;
    let rest = equals(rest)?;
    let (right, rest) = column(alloc, text, rest)?;
    Ok((JoinOn { table, left, right }, rest))
}

/// [[INNER] JOIN name ON column = column]
#[tactic(auto, unfolding(crate::specs::inner::Reading::join_at))]
pub fn join<'s>(
    alloc: Global,
    text: &[u8],
    tokens: &'s [Token],
) -> Result<(Option<JoinOn>, &'s [Token]), Refusal>
    ensures { AgreesWith (λ x. (x.0, lexemes_of text.now x.1.now)) result (join_at (lexemes_of text.now tokens.now)) }
{
    match tokens {
        [Token { kind: JOIN, .. }, rest @ ..] => {
            let (join, rest) = joined_on(alloc, text, rest)?;
            Ok((Some(join), rest))
        }
        [
            Token { kind: INNER, .. },
            Token { kind: JOIN, .. },
            rest @ ..,
        ] => {
            let (join, rest) = joined_on(alloc, text, rest)?;
            Ok((Some(join), rest))
        }
        _ => Ok((None, tokens)),
    }
}

/// A comparison of a column with a number, after WHERE: these two tokens, and what comes after the number.
fn compared<'s>(
    alloc: Global,
    text: &[u8],
    column: &Token,
    op: Comparison,
    value: &Token,
    rest: &'s [Token],
) -> Result<(Option<Condition<ColumnName>>, &'s [Token]), Refusal>
    ensures { AgreesWith (λ x. (x.0, lexemes_of text.now x.1.now)) result
        (compared_at (said text.now column.now) op (said text.now value.now) (lexemes_of text.now rest.now)) }
{
    let Some(bytes) = said::identifier(text, column) else {
        return Err(Refusal::SyntaxError);
    };
    let Some(value) = said::number(text, value) else {
        return Err(Refusal::SyntaxError);
    };
    let column = ColumnName {
        table: None,
        name: Items::from_slice(alloc, bytes)?,
    };
    let literal = Value::Int(i128::from(value));
    let condition = Condition::Compare(op, Operand::Column(column), Operand::Literal(literal));
    Ok((Some(condition), rest))
}

/// Any condition, after WHERE. It is no part of `filter`, so that a query by a key doesn't pay for its room.
#[inline(never)]
fn any_filter<'s>(
    alloc: Global,
    text: &[u8],
    tokens: &'s [Token],
) -> Result<(Option<Condition<ColumnName>>, &'s [Token]), Refusal>
    ensures { AgreesWith (λ x. (x.0, lexemes_of text.now x.1.now)) result (filter_at (lexemes_of text.now tokens.now)) }
{
    let (condition, rest) = or(alloc, text, MAX_DEPTH, tokens)?;
    Ok((Some(condition), rest))
}

/// How a column is compared with a number, if that is what these tokens are, WHERE before them and no AND and no OR after.
fn number_test(
    first: &Token,
    column: &Token,
    op: &Token,
    value: &Token,
    rest: &[Token],
) -> Option<Comparison>
    ensures kinds { IfSome result (λ c. (first.now.kind ≡ Keyword Where) × (column.now.kind ≡ Word) × (op.now.kind ≡ Operator c) × (value.now.kind ≡ Number)) }
    ensures alone { (text : List ℕ)
        → IfSome result (λ _. false ≡ (is_some (after_at is_and (lexemes_of text rest.now)) || is_some (after_at is_or (lexemes_of text rest.now)))) }
{
    match (first.kind, column.kind, op.kind, value.kind) {
        (WHERE, TokenKind::Word, TokenKind::Operator(op), TokenKind::Number) if !goes_on(rest) =>
            Some(op),
        _ => None,
    }
}

/// [WHERE or]. The condition of a query by a key, a column and a number alone, is read at once.
#[tactic(auto, unfolding(crate::specs::inner::Reading::where_at))]
pub fn filter<'s>(
    alloc: Global,
    text: &[u8],
    tokens: &'s [Token],
) -> Result<(Option<Condition<ColumnName>>, &'s [Token]), Refusal>
    ensures { AgreesWith (λ x. (x.0, lexemes_of text.now x.1.now)) result (where_at (lexemes_of text.now tokens.now)) }
{
    if let [first, column, op, value, rest @ ..] = tokens {
        if let Some(op) = number_test(first, column, op, value, rest) {
            return compared(alloc, text, column, op, value, rest);
        }
    }
    match tokens {
        [Token { kind: WHERE, .. }, rest @ ..] => any_filter(alloc, text, rest),
        _ => Ok((None, tokens)),
    }
}

/// [GROUP BY column,..]
#[tactic(auto, unfolding(crate::specs::inner::Reading::group_at))]
pub fn group<'s>(
    alloc: Global,
    text: &[u8],
    tokens: &'s [Token],
) -> Result<(Items<ColumnName>, &'s [Token]), Refusal>
    ensures { AgreesWith (λ x. (x.0, lexemes_of text.now x.1.now)) result (group_at (lexemes_of text.now tokens.now)) }
{
    match tokens {
        [Token { kind: GROUP, .. }, Token { kind: BY, .. }, rest @ ..] => columns(
            alloc, text, rest,
        ),
        _ => Ok((Items::new(alloc), tokens)),
    }
}

/// [ASC | DESC], and whether it is DESC.
#[tactic(auto, unfolding(crate::specs::inner::Reading::direction_at))]
fn direction(tokens: &[Token]) -> (bool, &[Token])
    ensures { (text : List ℕ)
        → direction_at (lexemes_of text tokens.now) ≡ (result.0, lexemes_of text result.1.now) }
{
    match tokens {
        [Token { kind: ASC, .. }, rest @ ..] => (false, rest),
        [Token { kind: DESC, .. }, rest @ ..] => (true, rest),
        _ => (false, tokens),
    }
}

/// key = column [ASC | DESC]
#[tactic(auto, unfolding(crate::specs::inner::Reading::sort_key_at))]
fn key<'s>(
    alloc: Global,
    text: &[u8],
    tokens: &'s [Token],
) -> Result<(Key<ColumnName>, &'s [Token]), Refusal>
    ensures { AgreesWith (λ x. (x.0, lexemes_of text.now x.1.now)) result (sort_key_at (lexemes_of text.now tokens.now)) }
{
    let (column, rest) = column(alloc, text, tokens)?;
    let (descending, rest) = direction(rest);
    Ok((Key { column, descending }, rest))
}

/// key,..
fn keys<'s>(
    alloc: Global,
    text: &[u8],
    tokens: &'s [Token],
) -> Result<(Items<Key<ColumnName>>, &'s [Token]), Refusal>
    ensures { AgreesWith (λ x. (x.0, lexemes_of text.now x.1.now)) result
        (listed_at sort_key_at (lexemes_of text.now tokens.now)) }
{
    let (first, mut rest) = key(alloc, text, tokens)?;
    let mut keys = Items::new(alloc);
    keys.push(first)?;
    while let Some(after) = after_comma(rest) {
        let (next, after) = key(alloc, text, after)?;
        keys.push(next)?;
        rest = after;
    }
    Ok((keys, rest))
}

/// [ORDER BY key,..]
#[tactic(auto, unfolding(crate::specs::inner::Reading::order_at))]
pub fn order<'s>(
    alloc: Global,
    text: &[u8],
    tokens: &'s [Token],
) -> Result<(Items<Key<ColumnName>>, &'s [Token]), Refusal>
    ensures { AgreesWith (λ x. (x.0, lexemes_of text.now x.1.now)) result (order_at (lexemes_of text.now tokens.now)) }
{
    match tokens {
        [Token { kind: ORDER, .. }, Token { kind: BY, .. }, rest @ ..] => keys(alloc, text, rest),
        _ => Ok((Items::new(alloc), tokens)),
    }
}

/// [OFFSET count], which is 0 if it isn't there.
#[tactic(auto, unfolding(crate::specs::inner::Reading::offset_at))]
fn offset<'s>(text: &[u8], tokens: &'s [Token]) -> Result<(u64, &'s [Token]), Refusal>
    ensures { AgreesWith (λ x. (x.0, lexemes_of text.now x.1.now)) result (offset_at (lexemes_of text.now tokens.now)) }
{
    match tokens {
        [Token { kind: OFFSET, .. }, rest @ ..] => number(text, rest),
        _ => Ok((0, tokens)),
    }
}

/// [LIMIT count [OFFSET count]]
#[tactic(auto, unfolding(crate::specs::inner::Reading::limit_at))]
pub fn limit<'s>(
    text: &[u8],
    tokens: &'s [Token],
) -> Result<(Option<LimitClause>, &'s [Token]), Refusal>
    ensures { AgreesWith (λ x. (x.0, lexemes_of text.now x.1.now)) result (limit_at (lexemes_of text.now tokens.now)) }
{
    match tokens {
        [Token { kind: LIMIT, .. }, rest @ ..] => {
            let (count, rest) = number(text, rest)?;
            let (offset, rest) = offset(text, rest)?;
            Ok((Some(LimitClause { count, offset }), rest))
        }
        _ => Ok((None, tokens)),
    }
}
