//! Joins the groups that several shards answer. Groups are found by a hash of their values, and each keeps the parts of its aggregates.
ghost use Rattle.std.specs.Prelude.{◌≡◌, ◌+◌, ◌*◌, ◌≤◌, ◌++◌, List, [], ◌∷◌, Some, map, take, drop, reverse, length, slice_get, IfOk, OnOk, if◌then◌else◌};
ghost use Rattle.std.specs.List.{IsDistinct};
ghost use Rattle.std.specs.Vec.Iter.{into_iter_items};
ghost use Rattle.indexmap.specs.IndexSet.{insert_key};
ghost use Rattle.vt_value.specs.Values.{Row as Line, same_row};
ghost use Rattle.aggregate.specs.Groups.{joined_part, joined_rows, AreSummable};
ghost use Rattle.aggregate.specs.inner.Columns.{with_values, CanJoinAll};
ghost use Rattle.aggregate.specs.inner.Grouping.{has_row, key_values, group_at, with_group, finished_rows, IsGrouped};

use crate::columns::{add_values, push_empty_parts};
use crate::keys::{BeginsAs, GroupKey};
use indexmap::IndexSet;
use operators::{Item, Operator, Rows};
use std::alloc::{AllocError, Global};
use std::hash::DefaultHasher;
use std::vec::IntoIter;
use vt_value::{Items, Row, Value};

/// The groups of the rows so far.
pub struct Groups {
    keys: IndexSet<GroupKey, BeginsAs>,
    /// Of each key in turn what its group's parts give, a value for each aggregate. So a group takes no list of its own.
    parts: Vec<Value>,
}

impl Drop for Groups {
    // Who drops one calls this, and need not know what it owns.
    fn drop(self) {
        let Groups { keys, parts } = self;
        drop(keys);
        drop(parts);
    }
}

/// Moves the values after a row's group values, which stay. The last one comes first.
fn move_parts(row: &mut Row, width: usize, parts: &mut Vec<Value>) -> Result<(), AllocError>
    ensures values { OnOk result (row.new ≡ take width row.old) }
    ensures parts { OnOk result (parts.new.items ≡ reverse (drop width row.old)) }
{
    parts.clear();
    while row.len() > width {
        if let Some(value) = row.pop() {
            parts.push(value)?;
        }
    }
    Ok(())
}

impl Groups {
    /// The groups of no rows: without group values there is one.
    fn new(
        alloc: Global,
        hasher: DefaultHasher,
        aggregates: &[Item<usize>],
        width: usize,
    ) -> Result<Groups, AllocError>
        ensures ok { IfOk result (IsGrouped aggregates.now width []) }
    {
        let mut groups = Groups {
            keys: IndexSet::with_hasher(alloc, BeginsAs { hasher }),
            parts: Vec::new(alloc),
        };
        if width == 0 {
            groups.open(aggregates, Items::new(alloc))?;
        }
        Ok(groups)
    }

    /// The ordinal of the group with these values, which is made if there is none.
    fn open(&mut self, aggregates: &[Item<usize>], values: Row) -> Result<usize, AllocError>
        ensures keys { OnOk result (key_values self.new ≡ insert_key same_row (key_values self.old) values) }
        ensures parts { OnOk result (self.new.parts.items ≡ (if has_row values (key_values self.old) then self.old.parts.items
            else self.old.parts.items ++ map (λ a. joined_part a []) aggregates.now)) }
        ensures ordinal { IfOk result (λ ordinal. slice_get (key_values self.new) ordinal ≡ Some values) }
        ensures distinct { OnOk result (IsDistinct same_row (key_values self.new)) }
    {
        let (ordinal, added) = self.keys.insert_full(GroupKey { values })?;
        if added {
            push_empty_parts(aggregates, &mut self.parts)?;
        }
        Ok(ordinal)
    }

    /// Joins values, the last one first, to the parts of the group at an ordinal.
    fn add_at(&mut self, ordinal: usize, aggregates: &[Item<usize>], values: &mut Vec<Value>)
        requires within { ordinal * length aggregates.now + length aggregates.now ≤ length self.old.parts.items }
        requires holds { CanJoinAll aggregates.now (group_at (length aggregates.now) ordinal self.old.parts.items) (reverse values.old.items) }
        ensures keys { key_values self.new ≡ key_values self.old }
        ensures parts { self.new.parts.items ≡ with_group (length aggregates.now) ordinal
            (with_values aggregates.now (group_at (length aggregates.now) ordinal self.old.parts.items) (reverse values.old.items)) self.old.parts.items }
    {
        let columns = aggregates.len();
        let begin = ordinal * columns;
        add_values(aggregates, &mut self.parts[begin..begin + columns], values);
    }

    /// Joins a row's parts to those of its group. They are moved through `parts`, so that a row of a known group takes no memory.
    fn add(
        &mut self,
        aggregates: &[Item<usize>],
        width: usize,
        row: Row,
        parts: &mut Vec<Value>,
    ) -> Result<(), AllocError>
        requires { (rows : List Line) × IsGrouped aggregates.now width rows self.old × AreSummable width (rows ++ row ∷ []) }
        ensures ok { OnOk result ((rows : List Line) → IsGrouped aggregates.now width rows self.old
            → IsGrouped aggregates.now width (rows ++ row ∷ []) self.new) }
    {
        let mut values = row;
        move_parts(&mut values, width, parts)?;
        let ordinal = self.open(aggregates, values)?;
        self.add_at(ordinal, aggregates, parts);
        Ok(())
    }

    /// One row for each group, of which each has so many columns of parts.
    fn into_rows(self, alloc: Global, columns: usize) -> Result<Vec<Row>, AllocError>
        ensures ok { IfOk result (λ rows. rows.items ≡ finished_rows columns (key_values self) self.parts.items) }
    {
        let Groups { keys, parts } = self;
        let mut rows = Vec::with_capacity(alloc, keys.len())?;
        let mut parts = parts.into_iter();
        for key in keys {
            rows.push(finish(key.values, columns, &mut parts)?)?;
        }
        Ok(rows)
    }
}

/// A group's values, and then what its parts give, so many of the next ones.
fn finish(values: Row, columns: usize, parts: &mut IntoIter<Value>) -> Result<Row, AllocError>
    ensures row { IfOk result (λ row. row ≡ values ++ take columns (into_iter_items parts.old)) }
    ensures rest { OnOk result (into_iter_items parts.new ≡ drop columns (into_iter_items parts.old)) }
{
    let mut row = values;
    for _ in 0..columns {
        if let Some(part) = parts.next() {
            row.push(part)?;
        }
    }
    Ok(row)
}

/// The groups of several shards, joined: one row for each group, its values and then the joined parts.
pub struct GroupMerge {
    rows: Rows,
}

impl Drop for GroupMerge {
    // Who drops one calls this, and need not know what it owns.
    fn drop(self) {
        let GroupMerge { rows } = self;
        drop(rows);
    }
}

impl GroupMerge {
    // Promise: The groups of several shards' rows are joined, each once, NULLs of a column in one; without group values there is one group,
    // also of no rows
    // With: GroupMerge::next
    /// Joins the groups of the input's rows. A row begins with `width` group values, after which come the parts of the
    /// aggregates, one column each. Groups come in the order in which they come first; without group values there is one, also
    /// of no rows. NULLs of a group value are one group. The numbers of a column of parts stay below 2^127 together, as those of
    /// 2^60 values that a column holds do. Groups are found by hashes of their values that begin as `hasher`: one with a key that nobody
    /// else knows keeps clients from choosing values with one hash. Refuses only for want of memory.
    pub fn new<O: Operator>(
        alloc: Global,
        hasher: DefaultHasher,
        input: O,
        aggregates: &[Item<usize>],
        width: usize,
    ) -> Result<GroupMerge, AllocError>
        requires { AreSummable width (O.to_come input) }
        ensures ok { IfOk result (λ merge. ⟦<GroupMerge as Operator>⟧.to_come merge ≡ joined_rows aggregates.now width (O.to_come input)) }
    {
        let mut input = input;
        let mut groups = Groups::new(alloc, hasher, aggregates, width)?;
        let mut parts = Vec::new(alloc);
        while let Some(row) = input.next(alloc)? {
            groups.add(aggregates, width, row, &mut parts)?;
        }
        Ok(GroupMerge {
            rows: Rows::from_vec(groups.into_rows(alloc, aggregates.len())?),
        })
    }
}

impl Operator for GroupMerge {
    ghost to_come = { λ merge. ⟦<Rows as Operator>⟧.to_come merge.rows };

    ghost has_failed = { λ merge. ⟦<Rows as Operator>⟧.has_failed merge.rows };

    fn next(&mut self, alloc: Global) -> Result<Option<Row>, AllocError> {
        self.rows.next(alloc)
    }
}
