//! The clauses after the filter of a SELECT.
ghost use Rattle.std.specs.Prelude.{◌≡◌};
ghost use Rattle.sql_lexer.specs.Lexemes.{lexemes_of};
ghost use Rattle.sql_lexer.specs.inner.Results.{AgreesWith};
ghost use Rattle.sql_parser.specs.inner.Reading.{last_clauses_at};

use crate::clauses::{group, limit, order};
use sql_lexer::{Token, is_end};
use sql_tree::{ColumnName, Key, LimitClause};
use std::alloc::Global;
use vt_value::{Items, Refusal};

/// What comes after the filter of a SELECT.
#[derive(Drop)]
pub struct LastClauses {
    pub group_by: Items<ColumnName>,
    pub order_by: Items<Key<ColumnName>>,
    pub limit: Option<LimitClause>,
}

/// Any clauses after a filter. They are no part of `last_clauses`, so that a query without them doesn't pay for their room.
#[inline(never)]
fn any_last_clauses<'s>(
    alloc: Global,
    text: &[u8],
    tokens: &'s [Token],
) -> Result<(LastClauses, &'s [Token]), Refusal>
    ensures { AgreesWith (λ x. (x.0, lexemes_of text.now x.1.now)) result (last_clauses_at (lexemes_of text.now tokens.now)) }
{
    let (group_by, rest) = group(alloc, text, tokens)?;
    let (order_by, rest) = order(alloc, text, rest)?;
    let (limit, rest) = limit(text, rest)?;
    let last = LastClauses {
        group_by,
        order_by,
        limit,
    };
    Ok((last, rest))
}

/// [GROUP BY column,..] [ORDER BY key,..] [LIMIT count [OFFSET count]]
pub fn last_clauses<'s>(
    alloc: Global,
    text: &[u8],
    tokens: &'s [Token],
) -> Result<(LastClauses, &'s [Token]), Refusal>
    ensures { AgreesWith (λ x. (x.0, lexemes_of text.now x.1.now)) result (last_clauses_at (lexemes_of text.now tokens.now)) }
{
    if is_end(tokens) {
        let none = LastClauses {
            group_by: Items::new(alloc),
            order_by: Items::new(alloc),
            limit: None,
        };
        return Ok((none, tokens));
    }
    any_last_clauses(alloc, text, tokens)
}
