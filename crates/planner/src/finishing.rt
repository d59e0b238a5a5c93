//! The finish of a query, over the rows that its pieces gave.
ghost use Rattle.std.specs.Prelude.{◌≡◌, All, None, IsSorted, IsTrue, IfOk, map, flat_map};
ghost use Rattle.operators.specs.Orders.{row_cmp};
ghost use Rattle.operators.specs.Slices.{sliced, columns_of};
ghost use Rattle.planner.specs.Plans.{joined_by, CanJoin, Finishes};

use crate::copies::copy_ordinals;
use crate::plans::Finish;
use operators::{Concat, Limit, MergeSort, Operator, Project, Rows, collect, shows_whole};
use sql_eval::show;
use std::alloc::{AllocError, Global};
use vt_value::{Items, Row};

/// What `limit` leaves of the rows, each by the columns at these ordinals. No row after these is pulled.
fn slice<O: Operator>(
    alloc: Global,
    rows: O,
    limit: Option<sql_tree::LimitClause>,
    ordinals: Items<usize>,
) -> Result<Items<Row>, AllocError>
    ensures ok { IfOk result (λ list. list ≡ map (columns_of ordinals) (sliced limit (O.to_come rows))) }
{
    let mut shown = Project::new(Limit::new(rows, limit), ordinals);
    collect(alloc, &mut shown)
}

impl Finish {
    /// The rows of the answer, from those of the pieces: joined to groups if the query is aggregated, sorted by the keys, sliced and cut
    /// to the answer's columns. Without groups and keys no more rows are pulled than the limit asks for. Refuses only for want of memory.
    pub fn answer<O: Operator>(
        &self,
        alloc: Global,
        pieces: Vec<O>,
    ) -> Result<Items<Row>, AllocError>
        requires fit { CanJoin self.now.grouping (flat_map O.to_come pieces.items) }
        ensures ok { IfOk result (Finishes self.now (flat_map O.to_come pieces.items)) }
    {
        let columns = copy_ordinals(alloc, self.columns.as_slice())?;
        let pieces = Concat::new(pieces);
        if self.grouping.is_none() && self.order_by.is_empty() {
            return slice(alloc, pieces, self.limit, columns);
        }
        let rows = self.joined(alloc, pieces)?;
        show(alloc, rows, self.order_by.as_slice(), self.limit, columns)
    }

    /// What `answer` gives, if each piece has its rows in the order of the finish's keys, as those of `plan` do. They are merged, and no more of
    /// them are pulled than the limit asks for and one of each piece. Refuses only for want of memory.
    pub fn answer_in_order<O: Operator>(
        &self,
        alloc: Global,
        pieces: Vec<O>,
    ) -> Result<Items<Row>, AllocError>
        requires fit { CanJoin self.now.grouping (flat_map O.to_come pieces.items) }
        requires order { self.now.grouping ≡ None → All (λ piece. IsSorted (row_cmp self.now.order_by) (O.to_come piece)) pieces.items }
        ensures ok { IfOk result (Finishes self.now (flat_map O.to_come pieces.items)) }
    {
        if self.grouping.is_some() || self.order_by.is_empty() {
            return self.answer(alloc, pieces);
        }
        let columns = copy_ordinals(alloc, self.columns.as_slice())?;
        let merge = MergeSort::new(alloc, pieces, self.order_by.as_slice())?;
        slice(alloc, merge, self.limit, columns)
    }

    /// Whether the answer of these rows, of which there is one at most, is these rows as they are.
    fn shows_as_they_are(&self, rows: &[Row]) -> bool
        ensures plain { IsTrue result → self.now.grouping ≡ None }
        ensures unsliced { IsTrue result → self.now.limit ≡ None }
        ensures whole { IsTrue result → map (columns_of self.now.columns) rows.now ≡ rows.now }
    {
        if self.grouping.is_some() || self.limit.is_some() {
            return false;
        }
        match rows {
            [] => true,
            [row] => shows_whole(self.columns.as_slice(), row),
            _ => false,
        }
    }

    /// What `answer_in_order` gives of one piece with these rows. One row that is shown as it is isn't copied. Refuses only for want of memory.
    pub fn answer_alone(&self, alloc: Global, rows: Items<Row>) -> Result<Items<Row>, AllocError>
        requires fit { CanJoin self.now.grouping rows }
        requires order { self.now.grouping ≡ None → IsSorted (row_cmp self.now.order_by) rows }
        ensures ok { IfOk result (Finishes self.now rows) }
    {
        if self.shows_as_they_are(rows.as_slice()) {
            return Ok(rows);
        }
        let mut pieces = Vec::with_capacity(alloc, 1)?;
        pieces.push(Rows::new(alloc, rows)?)?;
        self.answer_in_order(alloc, pieces)
    }

    /// The rows of the pieces, or their groups.
    fn joined<O: Operator>(&self, alloc: Global, pieces: O) -> Result<Items<Row>, AllocError>
        requires { CanJoin self.now.grouping (O.to_come pieces) }
        ensures ok { IfOk result (λ rows. rows ≡ joined_by self.now.grouping (O.to_come pieces)) }
    {
        match &self.grouping {
            Some(grouping) => grouping.joined(alloc, pieces),
            None => {
                let mut pieces = pieces;
                collect(alloc, &mut pieces)
            }
        }
    }
}
