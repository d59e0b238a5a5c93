//! The rows of several values of a table's first key column.
ghost use Rattle.std.specs.Prelude.{◌≡◌, ◌∷◌, ◌<◌, None, IfOk, map, flat_map, filter, length, slice_index, option_copied};
ghost use Rattle.vt_value.specs.Values.{value_at};
ghost use Rattle.sql_eval.specs.Conditions.{is_kept};
ghost use Rattle.key_intervals.specs.Listed.{is_among, Climbs};
ghost use Rattle.shard_store.specs.Slots.{rows_in};
ghost use Rattle.shard_store.specs.Tables.{begins_with};
ghost use Rattle.shard_store.specs.inner.Chosen.{risen};

use crate::table::StoredTable;
use crate::walk::{RowsAmong, RowsBetween};
use key_intervals::{comes_after, key_interval_with, sorted};
use sql_tree::Condition;
use std::alloc::{AllocError, Global};
use vt_value::Value;

impl StoredTable {
    // Rows among which are all of one value of the first key column whose condition is true: those of keys between which it has them. The key's other columns
    // are given.
    fn walk_with<'a>(
        &'a self,
        alloc: Global,
        condition: Option<&Condition<usize>>,
        value: &'a Value,
        others: &[usize],
    ) -> Result<RowsBetween<'a>, AllocError>
        requires { self.now.ordinals ≡ slice_index self.now.ordinals 0 ∷ others.now }
        ensures ok { IfOk result (λ rows. filter (is_kept (option_copied condition.entry)) rows ≡ filter (is_kept (option_copied condition.entry)) (filter (begins_with self.now.ordinals value.now) (rows_in self.now.slots))) }
    {
        match condition {
            Some(condition) if !others.is_empty() => {
                let keys = key_interval_with(alloc, condition, value, others)?;
                self.rows_inside(alloc, Some(value), keys)
            }
            _ => self.rows_with(alloc, value),
        }
    }

    // The walks of these values, which are in their order; each once.
    fn walks_with<'a>(
        &'a self,
        alloc: Global,
        condition: Option<&Condition<usize>>,
        sorted: &[&'a Value],
        others: &[usize],
    ) -> Result<Vec<RowsBetween<'a>>, AllocError>
        requires { self.now.ordinals ≡ slice_index self.now.ordinals 0 ∷ others.now }
        ensures ok { IfOk result (λ walks. filter (is_kept (option_copied condition.entry)) (flat_map (λ rows. rows) walks.items)
            ≡ filter (is_kept (option_copied condition.entry)) (flat_map (λ v. filter (begins_with self.now.ordinals v) (rows_in self.now.slots)) (risen None (map (λ v. v.now) sorted.now)))) }
    {
        let mut walks = Vec::new(alloc);
        let mut last: Option<&Value> = None;
        for value in sorted {
            if !comes_after(last, value) {
                continue;
            }
            walks.push(self.walk_with(alloc, condition, value, others)?)?;
            last = Some(value);
        }
        Ok(walks)
    }

    /// Rows whose first key column has one of these values, in the order of their keys, among which are all whose condition is true. Refuses for want of memory.
    pub(crate) fn kept_among<'a>(
        &'a self,
        alloc: Global,
        condition: Option<&Condition<usize>>,
        values: &'a [Value],
    ) -> Result<RowsAmong<'a>, AllocError>
        requires { 0 < length self.now.ordinals }
        ensures ok { IfOk result (λ rows. filter (is_kept (option_copied condition.entry)) rows
            ≡ filter (is_kept (option_copied condition.entry)) (filter (λ row. is_among values.now (value_at row (slice_index self.now.ordinals 0))) (rows_in self.now.slots))) }
    {
        let _slots = self.slots();
        let Some((_, others)) = self.key_columns().split_first() else {
            unreachable!();
        };
        let sorted = sorted(alloc, values)?;
        let walks = self.walks_with(alloc, condition, sorted.as_slice(), others)?;
        Ok(RowsAmong { walks, current: 0 })
    }

    /// The rows whose first key column has one of these values, in the order of their keys. Refuses for want of memory.
    pub fn rows_among<'a>(
        &'a self,
        alloc: Global,
        values: &'a [Value],
    ) -> Result<RowsAmong<'a>, AllocError>
        requires { 0 < length self.now.ordinals }
        ensures ok { IfOk result (λ rows. rows ≡ filter (λ row. is_among values.now (value_at row (slice_index self.now.ordinals 0))) (rows_in self.now.slots)) }
    {
        self.kept_among(alloc, None, values)
    }
}
