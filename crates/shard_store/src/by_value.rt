//! Rows that are looked up by the value of one of their columns.
ghost use Rattle.std.specs.Prelude.{◌≡◌, ◌+◌, ◌<◌, ◌++◌, [], IfOk, IfSome, MatchOption, OnOk, IsPermutation, filter, length, true, false, IsTrue};
ghost use Rattle.std.specs.List.{AllByRecursion};
ghost use Rattle.std.specs.Ordering.{is_lt};
ghost use Rattle.vt_value.specs.Values.{value_at, value_cmp};
ghost use Rattle.sql_eval.specs.Sources.{is_pair};
ghost use Rattle.shard_store.specs.inner.Joined.{has_value, StoredBy, stored_rows, stored_with, slots_left, rows_lent, Rises};

use crate::primary::value_at;
use crate::table::StoredTable;
use crate::walk::ChosenSlots;
use sql_eval::{Join, RowSource};
use std::alloc::{AllocError, Global};
use std::marker::Model;
use vt_value::{Row, Value, sort_order};

/// Rows that are looked up by the value of one of their columns. Contracts see the column and the rows.
#[derive(Drop)]
pub struct RowsByValue<'a> {
    column: usize,
    // the rows in slots of a table whose first key column this is
    stored: Option<&'a StoredTable>,
    // the other rows, in the order of their values
    sorted: Vec<&'a Row>,
}

impl<'a> Model for RowsByValue<'a> {
    ghost use Rattle.std.specs.Prelude.{◌++◌};
    ghost use Rattle.shard_store.specs.inner.Joined.{ColumnRows};
    ghost use Rattle.shard_store.specs.inner.Joined.{StoredBy, stored_rows, rows_lent, Rises};

    ghost Value = { ColumnRows };

    ghost view = { λ r. record { column = r.column; rows = stored_rows r.stored ++ rows_lent r.sorted.items } };

    ghost invariant = { λ r. StoredBy r.column r.stored × Rises r.column r.sorted.items };
}

/// Rows of a lookup that are still to come. Contracts see the rows.
#[derive(Drop)]
pub struct RowsFound<'a, 'b> {
    slots: Option<ChosenSlots<'a>>,
    others: &'b [&'a Row],
    // the ordinal of the next of the others
    next: usize,
}

impl<'a, 'b> Model for RowsFound<'a, 'b> {
    ghost use Rattle.std.specs.Prelude.{◌++◌, List, drop};
    ghost use Rattle.vt_value.specs.declared.value.Value.{Value as V};
    ghost use Rattle.shard_store.specs.inner.Joined.{slots_left, rows_lent};

    ghost Value = { List (List V) };

    ghost view = { λ r. slots_left r.slots ++ rows_lent (drop r.next r.others.now) };
}

impl<'a, 'b> RowSource<'a> for RowsFound<'a, 'b> {
    ghost to_come = { λ rows. rows };

    fn next_row(&mut self) -> Option<&'a Row> {
        if let Some(slots) = &mut self.slots {
            if let Some(row) = slots.next_row() {
                return Some(row);
            }
        }
        if self.next < self.others.len() {
            let row = self.others[self.next];
            self.next += 1;
            return Some(row);
        }
        None
    }
}

/// The rows that a source lends. Refuses for want of memory.
pub(crate) fn all_of<'a, S: RowSource<'a>>(
    alloc: Global,
    rows: S,
) -> Result<Vec<&'a Row>, AllocError>
    ensures ok { IfOk result (λ list. rows_lent list.items ≡ S.to_come rows) }
{
    let mut rows = rows;
    let mut list = Vec::new(alloc);
    while let Some(row) = rows.next_row() {
        list.push(row)?;
    }
    Ok(list)
}

fn sort_by_value(rows: &mut Vec<&Row>, column: usize) -> Result<(), AllocError>
    ensures permutation { IsPermutation rows.old.items rows.new.items }
    ensures sorted { OnOk result (Rises column rows.new.items) }
{
    let null = Value::Null;
    rows.sort_by(|a, b| sort_order(value_at(a, column, &null), value_at(b, column, &null)))?;
    Ok(())
}

// Of rows in the order of their values, those from the first on whose value isn't lower than this one.
fn from_value<'a, 'b>(rows: &'b [&'a Row], column: usize, value: &Value) -> &'b [&'a Row]
    requires { Rises column rows.now }
    ensures sorted { Rises column result.now }
    ensures at_least { AllByRecursion (λ r. is_lt (value_cmp (value_at r.now column) value.now) ≡ false) result.now }
    ensures same { filter (has_value column value.now) (rows_lent result.now) ≡ filter (has_value column value.now) (rows_lent rows.now) }
{
    let null = Value::Null;
    let start = rows.partition_point(|row| sort_order(value_at(row, column, &null), value).is_lt());
    rows.split_at(start).1
}

// Of rows in the order of their values, none of which is lower than this one, those that have it.
fn up_to_value<'a, 'b>(rows: &'b [&'a Row], column: usize, value: &Value) -> &'b [&'a Row]
    requires sorted { Rises column rows.now }
    requires at_least { AllByRecursion (λ r. is_lt (value_cmp (value_at r.now column) value.now) ≡ false) rows.now }
    ensures { rows_lent result.now ≡ filter (has_value column value.now) (rows_lent rows.now) }
{
    let null = Value::Null;
    let end = rows.partition_point(|row| sort_order(value_at(row, column, &null), value).is_le());
    rows.split_at(end).0
}

// The rows in slots whose first key column has a value.
fn slots_with<'a>(
    alloc: Global,
    stored: Option<&'a StoredTable>,
    value: &'a Value,
) -> Result<Option<ChosenSlots<'a>>, AllocError>
    requires { IfSome stored (λ t. 0 < length t.now.ordinals) }
    ensures ok { IfOk result (λ slots. slots_left slots ≡ stored_with value.now stored.entry) }
{
    match stored {
        Some(table) => {
            let rows = table.rows_with(alloc, value)?;
            Ok(Some(ChosenSlots::Between(rows)))
        }
        None => Ok(None),
    }
}

// The value in a column, or `None` if it is NULL.
fn not_null(row: &Row, column: usize) -> Option<&Value>
    ensures { MatchOption result (value_at row.now column ≡ Value.Null) (λ v. v.now ≡ value_at row.now column) }
{
    match row.as_slice().get(column) {
        None | Some(Value::Null) => None,
        Some(value) => Some(value),
    }
}

// Whether the join compares a column of the first row with this column of the second.
fn joins_by(join: Join, column: usize) -> bool
    ensures { IsTrue result → (join.first < join.width) × (join.second ≡ join.width + column) }
{
    join.first < join.width && join.second >= join.width && join.second - join.width == column
}

impl<'a> RowsByValue<'a> {
    /// The rows in slots of a table whose first key column this is, if one is given, and other rows, which are sorted here. Refuses for want
    /// of memory.
    pub fn new<S: RowSource<'a>>(
        alloc: Global,
        column: usize,
        stored: Option<&'a StoredTable>,
        others: S,
    ) -> Result<RowsByValue<'a>, AllocError>
        requires { StoredBy column stored }
        ensures column { IfOk result (λ r. r.column ≡ column) }
        ensures rows { IfOk result (λ r. IsPermutation r.rows (stored_rows stored.entry ++ S.to_come others)) }
    {
        let mut sorted = all_of(alloc, others)?;
        sort_by_value(&mut sorted, column)?;
        Ok(RowsByValue {
            column,
            stored,
            sorted,
        })
    }

    // For a join that compares other columns, as no accepted query has.
    fn all<'b>(&'b self) -> RowsFound<'a, 'b>
        ensures { result ≡ self.now.rows }
    {
        RowsFound {
            slots: self.stored.map(|table| ChosenSlots::All(table.rows())),
            others: self.sorted.as_slice(),
            next: 0,
        }
    }

    fn none<'b>(&'b self) -> RowsFound<'a, 'b>
        ensures { result ≡ [] }
    {
        RowsFound {
            slots: None,
            others: self.sorted.as_slice(),
            next: self.sorted.len(),
        }
    }

    // The rows that have a value.
    fn with<'b>(&'b self, alloc: Global, value: &'a Value) -> Result<RowsFound<'a, 'b>, AllocError>
        ensures ok { IfOk result (λ rows. rows ≡ filter (has_value self.now.column value.now) self.now.rows) }
    {
        let slots = slots_with(alloc, self.stored, value)?;
        let others = from_value(self.sorted.as_slice(), self.column, value);
        let others = up_to_value(others, self.column, value);
        Ok(RowsFound {
            slots,
            others,
            next: 0,
        })
    }

    /// Rows that include all that are a pair with this one. Refuses for want of memory.
    pub fn candidates<'b>(
        &'b self,
        alloc: Global,
        join: Join,
        first: &'a Row,
    ) -> Result<RowsFound<'a, 'b>, AllocError>
        ensures ok { IfOk result (λ rows. filter (is_pair join first.now) rows ≡ filter (is_pair join first.now) self.now.rows) }
    {
        if !joins_by(join, self.column) {
            return Ok(self.all());
        }
        match not_null(first, join.first) {
            Some(value) => self.with(alloc, value),
            None => Ok(self.none()),
        }
    }
}
