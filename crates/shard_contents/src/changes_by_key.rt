//! Where in a list of changes those of a key are, so that a statement finds the changes of the rows that it looks at without a walk over all.
ghost use Rattle.std.specs.Prelude.{◌≡◌, ◌∷◌, ◌++◌, ◌≤◌, [], ℕ, IfOk, IfSome, OnOk, IsTrue, List, map, true};
ghost use Rattle.std.specs.List.{list_any};
ghost use Rattle.vt_value.specs.declared.value.Value.{Value as V};
ghost use Rattle.vt_value.specs.Values.{value_at, value_cmp, is_true};
ghost use Rattle.std.specs.Ordering.{is_eq};
ghost use Rattle.vschema.specs.Checks.{has_number};
ghost use Rattle.vschema.specs.Schema.{key_of};
ghost use Rattle.vschema.specs.Database.{same_row};
ghost use Rattle.shard_store.specs.Conditions.{truth_at, is_kept};
ghost use Rattle.shard_store.specs.Tables.{key_at};
ghost use Rattle.shard_contents.specs.inner.OwnChanges.{has_position, is_key_among, is_positioned};

use crate::next_rows::value_at;
use shard_store::{Fixed, KeyValues, RowKey, fixed_values};
use sql_tree::Condition;
use std::alloc::{AllocError, Global};
use std::collections::BTreeMap;
use std::collections::btree_map::Range;
use std::marker::Model;
use std::ops::Bound;
use std::slice;
use vschema::Table;
use vt_value::{Items, Row, Value, copy};

/// The positions of changes of one table in a list, by the keys of the rows that they add and remove. It may have positions where no such change
/// is, but leaves none out. Contracts see a `ByKeyView`.
pub struct ChangesByKey {
    table: usize,
    columns: Items<usize>,
    positions: BTreeMap<(RowKey, usize), ()>,
}

impl Drop for ChangesByKey {
    // Who drops one calls this, and need not know what it owns.
    fn drop(self) {
        let ChangesByKey {
            table: _,
            columns,
            positions,
        } = self;
        drop(columns);
        drop(positions);
    }
}

impl Model for ChangesByKey {
    ghost use Rattle.std.specs.Map.{keys_of};
    ghost use Rattle.shard_contents.specs.inner.OwnChanges.{ByKeyView};

    ghost Value = { ByKeyView };

    ghost view = { λ c. record { table = c.table; columns = c.columns; positions = keys_of c.positions.entries } };
}

fn copy_at(alloc: Global, row: &Row, column: usize) -> Result<Value, AllocError>
    ensures ok { IfOk result (λ v. v ≡ value_at row.now column) }
{
    let null = Value::Null;
    copy(alloc, value_at(row, column, &null))
}

fn values_at(alloc: Global, columns: &[usize], row: &Row) -> Result<Row, AllocError>
    ensures ok { IfOk result (λ values. values ≡ key_at columns.now row.now) }
{
    let mut values = Items::new(alloc);
    for column in columns {
        values.push(copy_at(alloc, row, *column)?)?;
    }
    Ok(values)
}

fn key_at(alloc: Global, columns: &[usize], row: &Row) -> Result<RowKey, AllocError>
    ensures ok { IfOk result (λ key. key.values ≡ key_at columns.now row.now) }
{
    let values = match columns {
        [column] => KeyValues::of_one(alloc, copy_at(alloc, row, *column)?)?,
        _ => KeyValues::new(alloc, values_at(alloc, columns, row)?)?,
    };
    Ok(RowKey { values })
}

// The keys of rows.
fn keys_at(alloc: Global, columns: &[usize], rows: &[Row]) -> Result<Vec<RowKey>, AllocError>
    ensures ok { IfOk result (λ keys. map (λ k. k.values) keys.items ≡ map (key_at columns.now) rows.now) }
{
    let mut keys = Vec::with_capacity(alloc, rows.len())?;
    for row in rows {
        keys.push(key_at(alloc, columns, row)?)?;
    }
    Ok(keys)
}

// The keys of one value each.
fn keys_of_each(alloc: Global, values: &[Value]) -> Result<Vec<RowKey>, AllocError>
    ensures ok { IfOk result (λ keys. map (λ k. k.values) keys.items ≡ map (λ v. v ∷ []) values.now) }
{
    let mut keys = Vec::with_capacity(alloc, values.len())?;
    for value in values {
        let values = KeyValues::of_one(alloc, copy(alloc, value)?)?;
        keys.push(RowKey { values })?;
    }
    Ok(keys)
}

// The keys of one value each, of which some column has one.
fn keys_among(alloc: Global, values: &[Value]) -> Result<Vec<RowKey>, AllocError>
    ensures ok { IfOk result (λ keys. (x : V) → list_any (λ v. is_eq (value_cmp v x)) values.now ≡ true → is_key_among keys.items (x ∷ []) ≡ true) }
{
    keys_of_each(alloc, values)
}

// The value to which a condition fixes a column, if it fixes it to one.
fn fixed_value<'a>(condition: &'a Condition<usize>, column: usize) -> Option<&'a Value>
    ensures { IfSome result (λ v. (row : List V) → is_true (truth_at row condition.now) ≡ true → is_eq (value_cmp v.now (value_at row column)) ≡ true) }
{
    match fixed_values(condition, column) {
        Some(Fixed::One(value)) => Some(value),
        _ => None,
    }
}

// The values of columns that are each fixed to one, if all are.
fn fixed_row(
    alloc: Global,
    condition: &Condition<usize>,
    columns: &[usize],
) -> Result<Option<Row>, AllocError>
    ensures ok { IfOk result (λ values. IfSome values (λ v. (row : List V) → is_true (truth_at row condition.now) ≡ true → v ≡ key_at columns.now row)) }
{
    let mut values = Items::new(alloc);
    for column in columns {
        match fixed_value(condition, *column) {
            Some(value) => values.push(copy(alloc, value)?)?,
            None => return Ok(None),
        }
    }
    Ok(Some(values))
}

// The key of values.
fn key_of_values(alloc: Global, values: Row) -> Result<Vec<RowKey>, AllocError>
    ensures ok { IfOk result (λ keys. map (λ k. k.values) keys.items ≡ values ∷ []) }
{
    let values = KeyValues::new(alloc, values)?;
    let mut keys = Vec::new(alloc);
    keys.push(RowKey { values })?;
    Ok(keys)
}

// Keys of one column among which are those of all rows at which a condition is true, if it fixes the column.
fn keys_in_column(
    alloc: Global,
    condition: &Condition<usize>,
    column: usize,
) -> Result<Option<Vec<RowKey>>, AllocError>
    ensures ok { IfOk result (λ keys. IfSome keys (λ k. (row : List V) → is_true (truth_at row condition.now) ≡ true → is_key_among k.items (value_at row column ∷ []) ≡ true)) }
{
    let keys = match fixed_values(condition, column) {
        Some(Fixed::One(value)) => keys_among(alloc, slice::from_ref(value))?,
        Some(Fixed::Among(values)) => keys_among(alloc, values)?,
        None => return Ok(None),
    };
    Ok(Some(keys))
}

// Keys among which are those of all rows at which a condition is true, if it fixes the columns.
fn fixed_keys(
    alloc: Global,
    condition: &Condition<usize>,
    columns: &[usize],
) -> Result<Option<Vec<RowKey>>, AllocError>
    ensures ok { IfOk result (λ keys. IfSome keys (λ k. (row : List V) → is_true (truth_at row condition.now) ≡ true → is_key_among k.items (key_at columns.now row) ≡ true)) }
{
    if let [column] = columns {
        return keys_in_column(alloc, condition, *column);
    }
    match fixed_row(alloc, condition, columns)? {
        Some(values) => Ok(Some(key_of_values(alloc, values)?)),
        None => Ok(None),
    }
}

fn are_primary_key(columns: &[usize], table: &Table) -> bool
    ensures { IsTrue result → columns.now ≡ table.now.primary_key }
{
    columns == table.primary_key.as_slice()
}

// Appends positions.
fn collect(
    entries: Range<'_, (RowKey, usize), ()>,
    found: &mut Vec<usize>,
) -> Result<(), AllocError>
    ensures ok { OnOk result (found.new.items ≡ found.old.items ++ map (λ e. e.0.1) entries.entry) }
{
    let mut left = entries;
    while let Some((entry, _)) = left.next() {
        found.push(entry.1)?;
    }
    Ok(())
}

impl ChangesByKey {
    /// No changes of the table at an ordinal, whose rows have their keys in these columns.
    pub fn new(alloc: Global, table: usize, columns: &[usize]) -> Result<ChangesByKey, AllocError>
        ensures ok { IfOk result (λ c. c.table ≡ table) }
    {
        let columns = Items::from_slice(alloc, columns)?;
        Ok(ChangesByKey {
            table,
            columns,
            positions: BTreeMap::new(alloc),
        })
    }

    /// The ordinal of the table.
    pub fn table(&self) -> usize
        ensures { result ≡ self.now.table }
    {
        self.table
    }

    /// Adds the position of a change of a row. Refuses for want of memory.
    pub fn add(&mut self, alloc: Global, row: &Row, position: usize) -> Result<(), AllocError>
        ensures table { self.new.table ≡ self.old.table }
        ensures columns { self.new.columns ≡ self.old.columns }
        ensures kept { (key : List V) (n : ℕ) → has_position self.old key n ≡ true → has_position self.new key n ≡ true }
        ensures ok { OnOk result (has_position self.new (key_at self.old.columns row.now) position ≡ true) }
    {
        let key = key_at(alloc, self.columns.as_slice(), row)?;
        self.positions.insert((key, position), ())?;
        Ok(())
    }

    // Finds the positions of changes of rows that have a key, up to one.
    fn find(&self, key: &RowKey, most: usize, found: &mut Vec<usize>) -> Result<(), AllocError>
        ensures kept { OnOk result ((n : ℕ) → has_number found.old.items n ≡ true → has_number found.new.items n ≡ true) }
        ensures ok { OnOk result ((n : ℕ) → n ≤ most → has_position self.now key.now.values n ≡ true → has_number found.new.items n ≡ true) }
    {
        let from = Bound::Included((key.clone()?, 0));
        let upto = Bound::Included((key.clone()?, most));
        collect(self.positions.range((from, upto)), found)?;
        Ok(())
    }

    // Finds those of rows that have one of these keys.
    fn find_each(
        &self,
        keys: &[RowKey],
        most: usize,
        found: &mut Vec<usize>,
    ) -> Result<(), AllocError>
        ensures kept { OnOk result ((n : ℕ) → has_number found.old.items n ≡ true → has_number found.new.items n ≡ true) }
        ensures ok { OnOk result ((key : List V) (n : ℕ) → is_key_among keys.now key ≡ true → n ≤ most → has_position self.now key n ≡ true → has_number found.new.items n ≡ true) }
    {
        for key in keys {
            self.find(key, most, found)?;
        }
        Ok(())
    }

    // Finds those of rows that a condition keeps, if it fixes their keys; tells whether it does.
    fn find_by_condition(
        &self,
        alloc: Global,
        condition: &Option<Condition<usize>>,
        most: usize,
        found: &mut Vec<usize>,
    ) -> Result<bool, AllocError>
        ensures kept { OnOk result ((n : ℕ) → has_number found.old.items n ≡ true → has_number found.new.items n ≡ true) }
        ensures ok { IfOk result (λ known. IsTrue known → (row : List V) (n : ℕ) → is_kept condition.now row ≡ true → n ≤ most
            → has_position self.now (key_at self.now.columns row) n ≡ true → has_number found.new.items n ≡ true) }
    {
        let Some(condition) = condition else {
            return Ok(false);
        };
        match fixed_keys(alloc, condition, self.columns.as_slice())? {
            Some(keys) => {
                self.find_each(keys.as_slice(), most, found)?;
                Ok(true)
            }
            None => Ok(false),
        }
    }

    // Finds those of rows that have the primary key of one of these, if keys here are primary keys; tells whether they are.
    fn find_by_rows(
        &self,
        alloc: Global,
        table: &Table,
        new: &[Row],
        most: usize,
        found: &mut Vec<usize>,
    ) -> Result<bool, AllocError>
        ensures kept { OnOk result ((n : ℕ) → has_number found.old.items n ≡ true → has_number found.new.items n ≡ true) }
        ensures ok { IfOk result (λ known. IsTrue known → (row : List V) (n : ℕ) → list_any (λ m. same_row (key_of table.now m) (key_of table.now row)) new.now ≡ true → n ≤ most
            → has_position self.now (key_at self.now.columns row) n ≡ true → has_number found.new.items n ≡ true) }
    {
        let columns = self.columns.as_slice();
        if !are_primary_key(columns, table) {
            return Ok(false);
        }
        let keys = keys_at(alloc, columns, new)?;
        self.find_each(keys.as_slice(), most, found)?;
        Ok(true)
    }

    /// Finds the positions, up to one, of changes of rows of the table at an ordinal that a condition keeps, if it fixes their keys; tells whether
    /// it does, or this is another table. Refuses for want of memory.
    pub fn find_kept(
        &self,
        alloc: Global,
        ordinal: usize,
        condition: &Option<Condition<usize>>,
        most: usize,
        found: &mut Vec<usize>,
    ) -> Result<bool, AllocError>
        ensures kept { OnOk result ((n : ℕ) → has_number found.old.items n ≡ true → has_number found.new.items n ≡ true) }
        ensures ok { IfOk result (λ known. IsTrue known → (row : List V) (n : ℕ) → is_kept condition.now row ≡ true → n ≤ most
            → is_positioned n ordinal row self.now ≡ true → has_number found.new.items n ≡ true) }
    {
        if self.table != ordinal {
            return Ok(true);
        }
        self.find_by_condition(alloc, condition, most, found)
    }

    /// Finds the positions, up to one, of changes of rows of the table at an ordinal that have the primary key of one of these, if keys here are
    /// primary keys; tells whether they are, or this is another table. Refuses for want of memory.
    pub fn find_keyed(
        &self,
        alloc: Global,
        ordinal: usize,
        table: &Table,
        new: &[Row],
        most: usize,
        found: &mut Vec<usize>,
    ) -> Result<bool, AllocError>
        ensures kept { OnOk result ((n : ℕ) → has_number found.old.items n ≡ true → has_number found.new.items n ≡ true) }
        ensures ok { IfOk result (λ known. IsTrue known → (row : List V) (n : ℕ) → list_any (λ m. same_row (key_of table.now m) (key_of table.now row)) new.now ≡ true → n ≤ most
            → is_positioned n ordinal row self.now ≡ true → has_number found.new.items n ≡ true) }
    {
        if self.table != ordinal {
            return Ok(true);
        }
        self.find_by_rows(alloc, table, new, most, found)
    }
}
