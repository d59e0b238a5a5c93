//! What a SELECT shows.
ghost use Rattle.std.specs.Prelude.{◌≡◌, ℕ, List};
ghost use Rattle.sql_lexer.specs.Lexemes.{lexemes_of};
ghost use Rattle.sql_lexer.specs.inner.Results.{AgreesWith};
ghost use Rattle.sql_parser.specs.inner.Reading.{listed_at, argument_at, count_at, item_at, list_at};

use crate::kinds::{CLOSE, COUNT, MAX, MIN, OPEN, STAR, SUM};
use crate::literals::{closed, open};
use crate::names::{after_comma, column};
use sql_lexer::Token;
use sql_tree::{ColumnName, Item, SelectList};
use std::alloc::Global;
use vt_value::{Items, Refusal};

/// (column), after the name of an aggregate.
#[tactic(auto, unfolding(crate::specs::inner::Reading::argument_at))]
fn argument<'s>(
    alloc: Global,
    text: &[u8],
    tokens: &'s [Token],
) -> Result<(ColumnName, &'s [Token]), Refusal>
    ensures { AgreesWith (λ x. (x.0, lexemes_of text.now x.1.now)) result (argument_at (lexemes_of text.now tokens.now)) }
{
    let rest = open(tokens)?;
    let (column, rest) = column(alloc, text, rest)?;
    closed(column, rest)
}

/// (*) | (column), after COUNT.
#[tactic(auto, unfolding(crate::specs::inner::Reading::count_at))]
fn count<'s>(
    alloc: Global,
    text: &[u8],
    tokens: &'s [Token],
) -> Result<(Item<ColumnName>, &'s [Token]), Refusal>
    ensures { AgreesWith (λ x. (x.0, lexemes_of text.now x.1.now)) result (count_at (lexemes_of text.now tokens.now)) }
{
    match tokens {
        [
            Token { kind: OPEN, .. },
            Token { kind: STAR, .. },
            Token { kind: CLOSE, .. },
            rest @ ..,
        ] => { Ok((Item::CountRows, rest)) }
        _ => {
            let (column, rest) = argument(alloc, text, tokens)?;
            Ok((Item::Count(column), rest))
        }
    }
}

/// item = column | COUNT(*) | COUNT(column) | SUM(column) | MIN(column) | MAX(column)
#[tactic(auto, unfolding(crate::specs::inner::Reading::item_at))]
fn item<'s>(
    alloc: Global,
    text: &[u8],
    tokens: &'s [Token],
) -> Result<(Item<ColumnName>, &'s [Token]), Refusal>
    ensures { AgreesWith (λ x. (x.0, lexemes_of text.now x.1.now)) result (item_at (lexemes_of text.now tokens.now)) }
{
    match tokens {
        [Token { kind: COUNT, .. }, rest @ ..] => count(alloc, text, rest),
        [Token { kind: SUM, .. }, rest @ ..] => {
            let (column, rest) = argument(alloc, text, rest)?;
            Ok((Item::Sum(column), rest))
        }
        [Token { kind: MIN, .. }, rest @ ..] => {
            let (column, rest) = argument(alloc, text, rest)?;
            Ok((Item::Min(column), rest))
        }
        [Token { kind: MAX, .. }, rest @ ..] => {
            let (column, rest) = argument(alloc, text, rest)?;
            Ok((Item::Max(column), rest))
        }
        _ => {
            let (column, rest) = column(alloc, text, tokens)?;
            Ok((Item::Column(column), rest))
        }
    }
}

/// item,.. It is no part of `list`, so that `*` doesn't pay for its room.
#[inline(never)]
fn items<'s>(
    alloc: Global,
    text: &[u8],
    tokens: &'s [Token],
) -> Result<(Items<Item<ColumnName>>, &'s [Token]), Refusal>
    ensures { AgreesWith (λ x. (x.0, lexemes_of text.now x.1.now)) result
        (listed_at item_at (lexemes_of text.now tokens.now)) }
{
    let (first, mut rest) = item(alloc, text, tokens)?;
    let mut items = Items::new(alloc);
    items.push(first)?;
    while let Some(after) = after_comma(rest) {
        let (next, after) = item(alloc, text, after)?;
        items.push(next)?;
        rest = after;
    }
    Ok((items, rest))
}

/// * | item,..
#[tactic(auto, unfolding(crate::specs::inner::Reading::list_at))]
pub fn list<'s>(
    alloc: Global,
    text: &[u8],
    tokens: &'s [Token],
) -> Result<(SelectList, &'s [Token]), Refusal>
    ensures { AgreesWith (λ x. (x.0, lexemes_of text.now x.1.now)) result (list_at (lexemes_of text.now tokens.now)) }
{
    match tokens {
        [Token { kind: STAR, .. }, rest @ ..] => Ok((SelectList::All, rest)),
        _ => {
            let (items, rest) = items(alloc, text, tokens)?;
            Ok((SelectList::Items(items), rest))
        }
    }
}
