//! The row changes of an open transaction.
ghost use Rattle.std.specs.Prelude.{◌≡◌, ◌==◌, ◌+◌, ◌++◌, ◌^◌, ◌<◌, ◌≤◌, [], ℕ, false, true, IfOk, IfSome, OnOk, OnErr, IsTrue, IsSorted, List, length, position, slice_index_or};
ghost use Rattle.std.specs.List.{list_any};
ghost use Rattle.std.specs.Ordering.{nat_cmp};
ghost use Rattle.vt_value.specs.declared.value.Value.{Value as V};
ghost use Rattle.vschema.specs.Checks.{has_number};
ghost use Rattle.vschema.specs.Schema.{key_of};
ghost use Rattle.vschema.specs.Database.{changed_table, same_row};
ghost use Rattle.shard_store.specs.Conditions.{is_kept};
ghost use Rattle.shard_contents.specs.inner.OwnChanges.{is_positioned, ByKeyView, IsPositioned, ArePositionedFrom, HaveMore, HasPositions};

use crate::changes_by_key::ChangesByKey;
use sql_tree::Condition;
use std::alloc::{AllocError, Global};
use std::marker::Model;
use std::mem;
use vschema::{RowChange, Table};
use vt_value::Row;

/// The row changes of a transaction in their order, which are found by the keys of their rows. Contracts see the list.
pub struct OwnChanges {
    list: Vec<RowChange>,
    by_key: Vec<ChangesByKey>,
}

impl Drop for OwnChanges {
    // Who drops one calls this, and need not know what it owns.
    fn drop(self) {
        let OwnChanges { list, by_key } = self;
        drop(list);
        drop(by_key);
    }
}

impl Model for OwnChanges {
    ghost use Rattle.std.specs.Prelude.{List};
    ghost use Rattle.std.specs.Coded.{codes};
    ghost use Rattle.vschema.specs.contracts.changes.RowChange as change;
    ghost use Rattle.vschema.specs.declared.changes.RowChange.{RowChange};
    ghost use Rattle.shard_contents.specs.inner.OwnChanges.{ArePositioned};

    ghost Value = { List RowChange };

    ghost coded = { Prim.hlevel (codes, change.the_row.coded) };

    ghost view = { λ o. o.list.items };

    ghost invariant = { λ o. ArePositioned o.by_key.items o.list.items };
}

// Which of these has the changes of the table at an ordinal.
fn ordinal_of(by_key: &[ChangesByKey], table: usize) -> Option<usize>
    ensures { result ≡ position (λ v. v.table == table) by_key.now }
{
    by_key.iter().position(|changes| changes.table() == table)
}

fn has_table(by_key: &[ChangesByKey], table: usize) -> bool
    ensures { result ≡ list_any (λ v. v.table == table) by_key.now }
{
    by_key.iter().any(|changes| changes.table() == table)
}

// Which has them then; it is made, if none has.
fn table_at(
    alloc: Global,
    by_key: &mut Vec<ChangesByKey>,
    table: usize,
    columns: &[usize],
) -> Result<usize, AllocError>
    ensures kept { HaveMore by_key.old.items by_key.new.items }
    ensures ok { IfOk result (λ n. (n < length by_key.new.items) × ((d : ByKeyView) → (slice_index_or by_key.new.items n d).table ≡ table)) }
{
    if let Some(ordinal) = ordinal_of(by_key.as_slice(), table) {
        return Ok(ordinal);
    }
    by_key.push(ChangesByKey::new(alloc, table, columns)?)?;
    Ok(by_key.len() - 1)
}

// Adds the position of a change of a row of the table at an ordinal.
fn add_row(
    alloc: Global,
    by_key: &mut Vec<ChangesByKey>,
    table: usize,
    columns: &[usize],
    row: &Row,
    position: usize,
) -> Result<(), AllocError>
    ensures kept { HaveMore by_key.old.items by_key.new.items }
    ensures ok { OnOk result (list_any (is_positioned position table row.now) by_key.new.items ≡ true) }
{
    let ordinal = table_at(alloc, by_key, table, columns)?;
    by_key[ordinal].add(alloc, row, position)?;
    Ok(())
}

// Adds the position of a change.
fn add_change(
    alloc: Global,
    by_key: &mut Vec<ChangesByKey>,
    columns: &[usize],
    change: &RowChange,
    position: usize,
) -> Result<(), AllocError>
    ensures kept { HaveMore by_key.old.items by_key.new.items }
    ensures ok { OnOk result (IsPositioned by_key.new.items position change.now) }
{
    match change {
        RowChange::Added(table, row) => add_row(alloc, by_key, *table, columns, row, position),
        RowChange::Replaced(table, old, new) => {
            add_row(alloc, by_key, *table, columns, old, position)?;
            add_row(alloc, by_key, *table, columns, new, position)
        }
        RowChange::Removed(table, row) => add_row(alloc, by_key, *table, columns, row, position),
    }
}

// Adds the positions of changes, the first of which has one.
fn add_changes(
    alloc: Global,
    by_key: &mut Vec<ChangesByKey>,
    columns: &[usize],
    changes: &[RowChange],
    first: usize,
) -> Result<(), AllocError>
    requires { first + length changes.now < 2 ^ 64 }
    ensures kept { HaveMore by_key.old.items by_key.new.items }
    ensures ok { OnOk result (ArePositionedFrom first by_key.new.items changes.now) }
{
    let mut position = first;
    for change in changes {
        add_change(alloc, by_key, columns, change, position)?;
        position += 1;
    }
    Ok(())
}

// Finds the positions, up to one, of changes of rows of a table that a condition keeps, if it fixes their keys; tells whether it does.
fn find_kept(
    alloc: Global,
    by_key: &[ChangesByKey],
    table: usize,
    condition: &Option<Condition<usize>>,
    most: usize,
    found: &mut Vec<usize>,
) -> Result<bool, AllocError>
    ensures ok { IfOk result (λ known. IsTrue known → (row : List V) (n : ℕ) → is_kept condition.now row ≡ true → n ≤ most
        → list_any (is_positioned n table row) by_key.now ≡ true → has_number found.new.items n ≡ true) }
{
    for changes in by_key {
        if !changes.find_kept(alloc, table, condition, most, found)? {
            return Ok(false);
        }
    }
    Ok(true)
}

// Finds those of changes of rows that have the primary key of one of these, if keys of the table's changes are primary keys; tells whether
// they are.
fn find_keyed(
    alloc: Global,
    by_key: &[ChangesByKey],
    ordinal: usize,
    table: &Table,
    new: &[Row],
    most: usize,
    found: &mut Vec<usize>,
) -> Result<bool, AllocError>
    ensures ok { IfOk result (λ known. IsTrue known → (row : List V) (n : ℕ) → list_any (λ m. same_row (key_of table.now m) (key_of table.now row)) new.now ≡ true → n ≤ most
        → list_any (is_positioned n ordinal row) by_key.now ≡ true → has_number found.new.items n ≡ true) }
{
    for changes in by_key {
        if !changes.find_keyed(alloc, ordinal, table, new, most, found)? {
            return Ok(false);
        }
    }
    Ok(true)
}

// Sorts positions.
fn sorted(positions: Vec<usize>) -> Result<Vec<usize>, AllocError>
    ensures same { IfOk result (λ list. (n : ℕ) → has_number list.items n ≡ has_number positions.items n) }
    ensures sorted { IfOk result (λ list. IsSorted nat_cmp list.items) }
{
    let mut list = positions;
    match list.sort() {
        Ok(()) => Ok(list),
        Err(e) => Err(e),
    }
}

impl OwnChanges {
    /// No changes.
    pub(crate) fn new(alloc: Global) -> OwnChanges
        ensures { result ≡ [] }
    {
        OwnChanges {
            list: Vec::new(alloc),
            by_key: Vec::new(alloc),
        }
    }

    /// The changes.
    pub(crate) fn as_slice(&self) -> &[RowChange]
        ensures value { result.now ≡ self.now }
    {
        self.list.as_slice()
    }

    /// Gives the changes away; then there are none.
    pub(crate) fn take(&mut self, alloc: Global) -> Vec<RowChange>
        ensures changes { result.items ≡ self.old }
        ensures none { self.new ≡ [] }
    {
        self.by_key = Vec::new(alloc);
        mem::replace(&mut self.list, Vec::new(alloc))
    }

    /// Appends changes, of tables of which each that has none yet has its keys in these columns. Refuses for want of memory; then nothing has changed.
    pub(crate) fn append(
        &mut self,
        alloc: Global,
        columns: &[usize],
        more: &mut Vec<RowChange>,
    ) -> Result<(), AllocError>
        ensures ok { OnOk result (self.new ≡ self.old ++ more.old.items) }
        ensures unchanged { OnErr result (self.new ≡ self.old) }
    {
        let first = self.list.as_slice().len();
        add_changes(alloc, &mut self.by_key, columns, more.as_slice(), first)?;
        self.list.append(more)?;
        Ok(())
    }

    /// Whether a change may be of the table at an ordinal.
    pub(crate) fn may_change(&self, ordinal: usize) -> bool
        ensures { result ≡ false → list_any (λ c. changed_table c == ordinal) self.now ≡ false }
    {
        has_table(self.by_key.as_slice(), ordinal)
    }

    /// Positions, in order, among which are those of all changes of rows of a table that a condition keeps, if it fixes their keys. Refuses for want
    /// of memory.
    pub(crate) fn kept_positions(
        &self,
        alloc: Global,
        ordinal: usize,
        condition: &Option<Condition<usize>>,
    ) -> Result<Option<Vec<usize>>, AllocError>
        ensures sorted { IfOk result (λ found. IfSome found (λ v. IsSorted nat_cmp v.items)) }
        ensures ok { IfOk result (λ found. IfSome found (λ v. HasPositions (is_kept condition.now) ordinal self.now v.items)) }
    {
        let mut found = Vec::new(alloc);
        let by_key = self.by_key.as_slice();
        let most = self.list.as_slice().len();
        if !find_kept(alloc, by_key, ordinal, condition, most, &mut found)? {
            return Ok(None);
        }
        Ok(Some(sorted(found)?))
    }

    /// Positions, in order, among which are those of all changes of rows of the table at an ordinal that have the primary key of one of these, if
    /// changes are found by it. Refuses for want of memory.
    pub(crate) fn keyed_positions(
        &self,
        alloc: Global,
        ordinal: usize,
        table: &Table,
        new: &[Row],
    ) -> Result<Option<Vec<usize>>, AllocError>
        ensures sorted { IfOk result (λ found. IfSome found (λ v. IsSorted nat_cmp v.items)) }
        ensures ok { IfOk result (λ found. IfSome found (λ v. HasPositions (λ row. list_any (λ n. same_row (key_of table.now n) (key_of table.now row)) new.now) ordinal self.now v.items)) }
    {
        let mut found = Vec::new(alloc);
        let by_key = self.by_key.as_slice();
        let most = self.list.as_slice().len();
        if !find_keyed(alloc, by_key, ordinal, table, new, most, &mut found)? {
            return Ok(None);
        }
        Ok(Some(sorted(found)?))
    }
}
