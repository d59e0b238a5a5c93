//! Queries over the pairs of rows of two tables. For each row of the first table, its partners are looked up by their value, so no other
//! pair is ever looked at.
ghost use Rattle.std.specs.Prelude.{◌≡◌, ◌≤◌, ◌^◌, ◌++◌, ◌∷◌, [], true, IfOk, MatchOption, filter, length};
ghost use Rattle.sql_eval.specs.Checks.{is_aggregated};
ghost use Rattle.sql_eval.specs.Sources.{is_pair, pairs_of};
ghost use Rattle.sql_eval.specs.Groups.{CanBeSummed};
ghost use Rattle.sql_eval.specs.Pairs.{seen};
ghost use Rattle.sql_eval.specs.Queries.{IsAnswer};
ghost use Rattle.key_intervals.specs.Conjuncts.{passes};
ghost use Rattle.shard_store.specs.inner.Partners.{current_pairs};

use crate::by_value::{RowsByValue, RowsFound};
use key_intervals::{own_conjuncts, passes};
use sql_eval::{
    Join, PairSource, Query, RowSource, Seen, copy_seen, is_pair, select_local, select_pairs,
};
use sql_tree::Condition;
use std::alloc::{AllocError, Global};
use vt_value::{Items, Row};

// More rows than memory can hold. The sums of a query are known to fit up to here.
const MOST_ROWS: usize = 1 << 60;

/// A first row, and the rows that are still to be paired with it.
#[derive(Drop)]
pub struct Partners<'a, 'b> {
    first: &'a Row,
    seconds: RowsFound<'a, 'b>,
}

// Lends the pairs of two lists of rows.
#[derive(Drop)]
struct JoinedPairs<'a, 'b, S> {
    join: Join,
    // conditions on the first row alone: if one isn't true, no partner is looked up
    own: Vec<&'a Condition<usize>>,
    firsts: S,
    seconds: &'b RowsByValue<'a>,
    partners: Option<Partners<'a, 'b>>,
}

impl<'a, 'b, S: RowSource<'a>> JoinedPairs<'a, 'b, S> {
    fn new(
        join: Join,
        own: Vec<&'a Condition<usize>>,
        firsts: S,
        seconds: &'b RowsByValue<'a>,
    ) -> JoinedPairs<'a, 'b, S>
        ensures { ⟦<JoinedPairs<'a, 'b, S> as PairSource<'a>>⟧.to_come result ≡ pairs_of join (filter (passes own.entry.items) (S.to_come firsts)) seconds.now.rows }
    {
        JoinedPairs {
            join,
            own,
            firsts,
            seconds,
            partners: None,
        }
    }
}

// The next row at which these conditions are true, or `None` if none is left.
fn next_first<'a, S: RowSource<'a>>(own: &[&Condition<usize>], firsts: &mut S) -> Option<&'a Row>
    ensures { MatchOption result
        ((filter (passes own.now) (S.to_come firsts.old) ≡ []) × (S.to_come firsts.new ≡ []))
        (λ row. filter (passes own.now) (S.to_come firsts.old) ≡ row.now ∷ filter (passes own.now) (S.to_come firsts.new)) }
{
    while let Some(first) = firsts.next_row() {
        if passes(own, first) {
            return Some(first);
        }
    }
    None
}

// The next of these rows that is a pair with the first one, or `None` if none is left.
fn next_second<'a, S: RowSource<'a>>(join: Join, first: &Row, seconds: &mut S) -> Option<&'a Row>
    ensures { MatchOption result
        ((filter (is_pair join first.now) (S.to_come seconds.old) ≡ []) × (S.to_come seconds.new ≡ []))
        (λ row. filter (is_pair join first.now) (S.to_come seconds.old) ≡ row.now ∷ filter (is_pair join first.now) (S.to_come seconds.new)) }
{
    while let Some(second) = seconds.next_row() {
        if is_pair(join, first, second) {
            return Some(second);
        }
    }
    None
}

fn next_of_partners<'a, 'b>(join: Join, partners: &mut Option<Partners<'a, 'b>>) -> Option<Seen<'a>>
    ensures { MatchOption result
        (current_pairs join partners.old ≡ [])
        (λ pair. current_pairs join partners.old ≡ seen pair ∷ current_pairs join partners.new) }
{
    match partners {
        Some(partners) => match next_second(join, partners.first, &mut partners.seconds) {
            Some(second) => Some(Seen::Pair(partners.first, join.width, second)),
            None => None,
        },
        None => None,
    }
}

impl<'a, 'b, S: RowSource<'a>> PairSource<'a> for JoinedPairs<'a, 'b, S> {
    ghost use Rattle.std.specs.Prelude.{◌++◌, filter};
    ghost use Rattle.sql_eval.specs.Sources.{pairs_of};
    ghost use Rattle.key_intervals.specs.Conjuncts.{passes};
    ghost use Rattle.shard_store.specs.inner.Partners.{current_pairs};

    ghost to_come = { λ p. current_pairs p.join p.partners ++ pairs_of p.join (filter (passes p.own.items) (S.to_come p.firsts)) p.seconds.now.rows };

    fn next_pair(&mut self, alloc: Global) -> Result<Option<Seen<'a>>, AllocError> {
        loop {
            if let Some(pair) = next_of_partners(self.join, &mut self.partners) {
                return Ok(Some(pair));
            }
            self.partners = None;
            let Some(first) = next_first(self.own.as_slice(), &mut self.firsts) else {
                return Ok(None);
            };
            let seconds = self.seconds.candidates(alloc, self.join, first)?;
            self.partners = Some(Partners { first, seconds });
        }
    }
}

fn copy_all<'a, S: PairSource<'a>>(alloc: Global, pairs: S) -> Result<Items<Row>, AllocError>
    ensures ok { IfOk result (λ list. list ≡ S.to_come pairs) }
{
    let mut pairs = pairs;
    let mut list = Items::new(alloc);
    while let Some(pair) = pairs.next_pair(alloc)? {
        list.push(copy_seen(alloc, pair)?)?;
    }
    Ok(list)
}

// What an aggregated query gives over pairs. No accepted query over a join is aggregated, so all pairs are copied.
fn select_groups<'a, S: PairSource<'a>>(
    alloc: Global,
    query: &Query,
    pairs: S,
) -> Result<Items<Row>, AllocError>
    requires summed { length (S.to_come pairs) ≤ 2 ^ 60 → CanBeSummed (S.to_come pairs) }
    ensures ok { IfOk result (IsAnswer query.now (S.to_come pairs)) }
{
    let pairs = copy_all(alloc, pairs)?;
    if pairs.len() > MOST_ROWS {
        return Err(AllocError);
    }
    select_local(alloc, query, pairs.as_slice())
}

/// What a query gives over the pairs of the rows that a source lends with rows that are looked up by their value. Refuses only for want of
/// memory.
pub fn select_by_value<'a, 'b, S: RowSource<'a>>(
    alloc: Global,
    query: &'a Query,
    join: Join,
    firsts: S,
    seconds: &'b RowsByValue<'a>,
) -> Result<Items<Row>, AllocError>
    requires summed { is_aggregated query.now ≡ true → length (pairs_of join (S.to_come firsts) seconds.now.rows) ≤ 2 ^ 60
        → CanBeSummed (pairs_of join (S.to_come firsts) seconds.now.rows) }
    ensures ok { IfOk result (IsAnswer query.now (pairs_of join (S.to_come firsts) seconds.now.rows)) }
{
    if query.is_aggregated() {
        let pairs = JoinedPairs::new(join, Vec::new(alloc), firsts, seconds);
        return select_groups(alloc, query, pairs);
    }
    let own = own_conjuncts(alloc, &query.filter, join.width)?;
    select_pairs(alloc, query, JoinedPairs::new(join, own, firsts, seconds))
}

/// What a query gives over the pairs of the rows that two sources lend. The rows of the second are sorted once, by the column that the join
/// compares. Refuses only for want of memory.
pub fn select_joined<'a, S: RowSource<'a>, T: RowSource<'a>>(
    alloc: Global,
    query: &'a Query,
    join: Join,
    firsts: S,
    seconds: T,
) -> Result<Items<Row>, AllocError>
    requires summed { is_aggregated query.now ≡ true → length (pairs_of join (S.to_come firsts) (T.to_come seconds)) ≤ 2 ^ 60
        → CanBeSummed (pairs_of join (S.to_come firsts) (T.to_come seconds)) }
    ensures ok { IfOk result (IsAnswer query.now (pairs_of join (S.to_come firsts) (T.to_come seconds))) }
{
    let column = join.second.saturating_sub(join.width);
    let seconds = RowsByValue::new(alloc, column, None, seconds)?;
    select_by_value(alloc, query, join, firsts, &seconds)
}
