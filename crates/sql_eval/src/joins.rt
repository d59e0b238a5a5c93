//! Queries over the pairs of a join. A pair is tested as it is in its two rows, and only one that is kept is copied.
ghost use Rattle.std.specs.Prelude.{◌≡◌, List, [], ◌∷◌, ◌++◌, false, MatchOption, IfOk, filter};
ghost use Rattle.vt_value.specs.declared.value.Value.{Value as V};
ghost use Rattle.vschema.specs.Checks.{is_aggregated};
ghost use Rattle.vschema.specs.Sources.{padded_row, is_pair, pairs_of};
ghost use Rattle.sql_eval.specs.Conditions.{is_kept};
ghost use Rattle.sql_eval.specs.Grouping.{IsSortedSlice};
ghost use Rattle.sql_eval.specs.Pairs.{seen};
ghost use Rattle.sql_eval.specs.inner.Fronts.{IsWithin};
ghost use Rattle.sql_eval.specs.Queries.{IsAnswer};

use crate::conditions::{Seen, keeps_seen, seen_at};
use crate::pair_fronts::first_pairs;
use crate::queries::{front_of, show, shown_ordinals};
use crate::rows::value_at;
use aggregate::{Limit, Operator, Project, Rows, collect};
use sql_tree::{Condition, Key};
use std::alloc::{AllocError, Global};
use vschema::{Join, Query};
use vt_value::{Comparison, Items, Row, Truth, Value, compare, copy, copy_row};

/// Lends pairs of rows, one at a time.
pub trait PairSource<'a>: Drop {
    // the pairs that are still to come
    ghost to_come: { Self → List (List V) };

    /// The next pair, or `None` if no pair is left. Refuses for want of memory.
    fn next_pair(&mut self, alloc: Global) -> Result<Option<Seen<'a>>, AllocError>
        ensures pair { IfOk result (λ next. MatchOption next
            ((to_come self.old ≡ []) × (to_come self.new ≡ []))
            (λ pair. to_come self.old ≡ seen pair ∷ to_come self.new)) };
}

/// Whether two rows are a pair of the join.
pub fn is_pair(join: Join, first: &Row, second: &Row) -> bool
    ensures { result ≡ is_pair join first.now second.now }
{
    let null = Value::Null;
    let pair = Seen::Pair(first, join.width, second);
    let left = seen_at(pair, join.first, &null);
    let right = seen_at(pair, join.second, &null);
    matches!(compare(Comparison::Eq, left, right), Truth::True)
}

// The first of these rows that is a pair with this one, and those after it.
fn partner<'a>(join: Join, first: &Row, rest: &'a [Row]) -> Option<(&'a Row, &'a [Row])>
    ensures { MatchOption result
        (filter (is_pair join first.now) rest.now ≡ [])
        (λ found. filter (is_pair join first.now) rest.now ≡ found.0.now ∷ filter (is_pair join first.now) found.1.now) }
{
    let mut rest = rest;
    while let Some((second, others)) = rest.split_first() {
        rest = others;
        if is_pair(join, first, second) {
            return Some((second, others));
        }
    }
    None
}

/// The pairs of the rows of two slices, each row of the first with each of the second: the plain way.
#[derive(Drop)]
pub struct SlicePairs<'a> {
    join: Join,
    firsts: &'a [Row],
    // those of the second that the first row of these is still to meet
    rest: &'a [Row],
    seconds: &'a [Row],
}

impl<'a> SlicePairs<'a> {
    /// Lends the pairs of these rows.
    pub fn new(join: Join, firsts: &'a [Row], seconds: &'a [Row]) -> SlicePairs<'a>
        ensures { ⟦<SlicePairs<'a> as PairSource<'a>>⟧.to_come result ≡ pairs_of join firsts.now seconds.now }
    {
        SlicePairs {
            join,
            firsts,
            rest: seconds,
            seconds,
        }
    }
}

impl<'a> PairSource<'a> for SlicePairs<'a> {
    ghost use Rattle.sql_eval.specs.Pairs.{pairs_left};

    ghost to_come = { λ s. pairs_left s.join s.firsts.now s.rest.now s.seconds.now };

    fn next_pair(&mut self, _alloc: Global) -> Result<Option<Seen<'a>>, AllocError> {
        while let Some((first, others)) = self.firsts.split_first() {
            if let Some((second, rest)) = partner(self.join, first, self.rest) {
                self.rest = rest;
                return Ok(Some(Seen::Pair(first, self.join.width, second)));
            }
            self.firsts = others;
            self.rest = self.seconds;
        }
        Ok(None)
    }
}

/// The next pair whose condition is true, or `None` if none is left.
pub(crate) fn next_kept_pair<'a, S: PairSource<'a>>(
    alloc: Global,
    condition: &Option<Condition<usize>>,
    pairs: &mut S,
) -> Result<Option<Seen<'a>>, AllocError>
    ensures pair { IfOk result (λ next. MatchOption next
        ((filter (is_kept condition.now) (S.to_come pairs.old) ≡ []) × (S.to_come pairs.new ≡ []))
        (λ pair. filter (is_kept condition.now) (S.to_come pairs.old) ≡ seen pair ∷ filter (is_kept condition.now) (S.to_come pairs.new))) }
{
    while let Some(pair) = pairs.next_pair(alloc)? {
        if keeps_seen(condition, pair) {
            return Ok(Some(pair));
        }
    }
    Ok(None)
}

fn copy_pair(alloc: Global, first: &Row, width: usize, second: &Row) -> Result<Row, AllocError>
    ensures ok { IfOk result (λ row. row ≡ padded_row width first.now ++ second.now) }
{
    let mut row = Items::new(alloc);
    for ordinal in 0..width {
        let null = Value::Null;
        row.push(copy(alloc, value_at(first, ordinal, &null))?)?;
    }
    for value in second.as_slice() {
        row.push(copy(alloc, value)?)?;
    }
    Ok(row)
}

/// A copy of a row or of a pair. Refuses for want of memory.
pub fn copy_seen(alloc: Global, values: Seen) -> Result<Row, AllocError>
    ensures ok { IfOk result (λ row. row ≡ seen values.entry) }
{
    match values {
        Seen::Row(row) => copy_row(alloc, row),
        Seen::Pair(first, width, second) => copy_pair(alloc, first, width, second),
    }
}

/// Copies of the pairs of a source whose condition is true.
#[derive(Drop)]
struct KeptPairs<'a, S> {
    condition: &'a Option<Condition<usize>>,
    pairs: S,
    failed: bool,
}

impl<'a, S: PairSource<'a>> Operator for KeptPairs<'a, S> {
    ghost use Rattle.std.specs.Prelude.{filter};
    ghost use Rattle.sql_eval.specs.Conditions.{is_kept};

    ghost to_come = { λ kept. filter (is_kept kept.condition.now) (S.to_come kept.pairs) };

    ghost has_failed = { λ kept. kept.failed };

    fn next(&mut self, alloc: Global) -> Result<Option<Row>, AllocError> {
        if self.failed {
            return Err(AllocError);
        }
        let next = next_kept_pair(alloc, self.condition, &mut self.pairs);
        self.failed = next.is_err();
        let Some(pair) = next? else {
            return Ok(None);
        };
        let row = copy_seen(alloc, pair);
        self.failed = row.is_err();
        Ok(Some(row?))
    }
}

// Of these rows, in an order that the keys allow, what the limit leaves, by the columns at these ordinals.
fn shown_pairs<O: Operator>(
    alloc: Global,
    rows: O,
    keys: &[Key<usize>],
    limit: Option<sql_tree::LimitClause>,
    ordinals: Items<usize>,
) -> Result<Items<Row>, AllocError>
    ensures ok { IfOk result (IsSortedSlice keys.now limit ordinals (O.to_come rows)) }
{
    if keys.is_empty() {
        let mut shown = Project::new(Limit::new(rows, limit), ordinals);
        return collect(alloc, &mut shown);
    }
    let mut rows = rows;
    let all = collect(alloc, &mut rows)?;
    show(alloc, all, keys, limit, ordinals)
}

// What is shown of the first pairs in the order of ORDER BY, of which no more are held than LIMIT needs.
fn show_first_pairs<'a, S: PairSource<'a>>(
    alloc: Global,
    query: &Query,
    pairs: S,
    most: usize,
    ordinals: Items<usize>,
) -> Result<Items<Row>, AllocError>
    requires { IsWithin most query.now.limit }
    ensures ok { IfOk result (IsSortedSlice query.now.order_by query.now.limit ordinals (filter (is_kept query.now.filter) (S.to_come pairs))) }
{
    let keys = query.order_by.as_slice();
    let rows = first_pairs(alloc, &query.filter, pairs, keys, most)?;
    let mut shown = Project::new(Limit::new(Rows::from_vec(rows), query.limit), ordinals);
    collect(alloc, &mut shown)
}

// What is shown of the pairs, each of which is copied if it is kept.
fn show_pairs<'a, S: PairSource<'a>>(
    alloc: Global,
    query: &'a Query,
    pairs: S,
    ordinals: Items<usize>,
) -> Result<Items<Row>, AllocError>
    ensures ok { IfOk result (IsSortedSlice query.now.order_by query.now.limit ordinals (filter (is_kept query.now.filter) (S.to_come pairs))) }
{
    let kept = KeptPairs {
        condition: &query.filter,
        pairs,
        failed: false,
    };
    shown_pairs(
        alloc,
        kept,
        query.order_by.as_slice(),
        query.limit,
        ordinals,
    )
}

// What is shown of the pairs.
fn sorted_pairs<'a, S: PairSource<'a>>(
    alloc: Global,
    query: &'a Query,
    pairs: S,
    ordinals: Items<usize>,
) -> Result<Items<Row>, AllocError>
    ensures ok { IfOk result (IsSortedSlice query.now.order_by query.now.limit ordinals (filter (is_kept query.now.filter) (S.to_come pairs))) }
{
    if query.order_by.is_empty() {
        return show_pairs(alloc, query, pairs, ordinals);
    }
    match front_of(query.limit) {
        Some(most) => show_first_pairs(alloc, query, pairs, most, ordinals),
        None => show_pairs(alloc, query, pairs, ordinals),
    }
}

// Promise: What a query gives over the pairs that it is lent is one of its answers
// With: SlicePairs::new, is_pair, copy_seen
/// What a query that isn't aggregated gives over the pairs that a source lends, as `select_from` over rows. No pair is copied that isn't
/// kept, none with ORDER BY and a small LIMIT that isn't among the first ones so far, and without ORDER BY none after the last one that its LIMIT leaves is asked for. Refuses only for want of memory.
pub fn select_pairs<'a, S: PairSource<'a>>(
    alloc: Global,
    query: &'a Query,
    pairs: S,
) -> Result<Items<Row>, AllocError>
    requires plain { is_aggregated query.now ≡ false }
    ensures ok { IfOk result (IsAnswer query.now (S.to_come pairs)) }
{
    let ordinals = shown_ordinals(alloc, query.items.as_slice())?;
    sorted_pairs(alloc, query, pairs, ordinals)
}
