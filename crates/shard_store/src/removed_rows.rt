//! Rows that are gone from the slots of a table, which are found by their keys.
ghost use Rattle.std.specs.Prelude.{◌≡◌, ◌||◌, [], List, true, false, OnOk};
ghost use Rattle.std.specs.List.{list_any};
ghost use Rattle.std.specs.Ordering.{is_lt};
ghost use Rattle.std.specs.Cmp.Lexicographic.{slice_cmp};
ghost use Rattle.vt_value.specs.declared.value.Value.{Value as V};
ghost use Rattle.vt_value.specs.Values.{value_at, value_cmp};
ghost use Rattle.sql_eval.specs.Database.{same_row};
ghost use Rattle.shard_store.specs.Tables.{key_at};
ghost use Rattle.shard_store.specs.inner.Overlays.{is_gone};
ghost use Rattle.shard_store.specs.inner.Gaps.{is_below_lent, in_gap, IsGapIn};

use crate::key::RowKey;
use crate::primary::value_at;
use std::alloc::{AllocError, Global};
use std::cmp::Ordering;
use std::collections::BTreeMap;
use std::marker::Model;
use std::ops::Bound;
use vt_value::{Row, Value, sort_order};

/// A row, in the order of its values in some columns, one after the other.
#[derive(Clone, Copy)]
pub struct LentRow<'a> {
    pub columns: &'a [usize],
    pub row: &'a Row,
}

// Compares a value of one row with a value of another.
fn order_at(a: &Row, m: usize, b: &Row, n: usize) -> Ordering
    ensures { result ≡ value_cmp (value_at a.now m) (value_at b.now n) }
{
    let null = Value::Null;
    sort_order(value_at(a, m, &null), value_at(b, n, &null))
}

// Compares the values of two rows in columns, one after the other. A proper prefix comes before the longer list.
fn compare_columns(a: &Row, a_columns: &[usize], b: &Row, b_columns: &[usize]) -> Ordering
    ensures { result ≡ slice_cmp value_cmp (key_at a_columns.now a.now) (key_at b_columns.now b.now) }
{
    match (a_columns.split_first(), b_columns.split_first()) {
        (None, None) => Ordering::Equal,
        (None, Some(_)) => Ordering::Less,
        (Some(_), None) => Ordering::Greater,
        (Some((m, a_columns)), Some((n, b_columns))) => match order_at(a, *m, b, *n) {
            Ordering::Equal => compare_columns(a, a_columns, b, b_columns),
            order => order,
        },
    }
}

impl<'a> PartialEq for LentRow<'a> {
    ghost use Rattle.std.specs.Ordering.{eq_by_cmp};
    ghost use Rattle.std.specs.Cmp.{partial_equiv_from_equiv};
    ghost use Rattle.shard_store.specs.inner.Overlays.{lent_cmp};
    ghost use Rattle.shard_store.specs.Proofs.LentLemmas.{lent-equiv};

    ghost eq = { eq_by_cmp lent_cmp };

    ghost laws = { partial_equiv_from_equiv lent-equiv };

    fn eq(&self, other: &LentRow<'a>) -> bool {
        compare_columns(self.row, self.columns, other.row, other.columns).is_eq()
    }
}

impl<'a> Eq for LentRow<'a> {
    ghost use Rattle.shard_store.specs.Proofs.LentLemmas.{lent-equiv};

    ghost laws = { lent-equiv };
}

impl<'a> PartialOrd for LentRow<'a> {
    ghost use Rattle.std.specs.Prelude.{Some, refl};
    ghost use Rattle.std.specs.Cmp.{partial_order_from_agreeing_total};
    ghost use Rattle.shard_store.specs.inner.Overlays.{lent_cmp};
    ghost use Rattle.shard_store.specs.Proofs.LentLemmas.{lent_cmp-total};

    ghost partial_cmp = { λ a b. Some (lent_cmp a b) };

    ghost laws = { partial_order_from_agreeing_total lent_cmp lent_cmp-total (λ a b. refl) (λ a b. refl) };

    fn partial_cmp(&self, other: &LentRow<'a>) -> Option<Ordering> {
        Some(self.cmp(other))
    }
}

impl<'a> Ord for LentRow<'a> {
    ghost use Rattle.std.specs.Prelude.{refl};
    ghost use Rattle.shard_store.specs.inner.Overlays.{lent_cmp};
    ghost use Rattle.shard_store.specs.Proofs.LentLemmas.{lent_cmp-total};

    ghost cmp = { lent_cmp };

    ghost total = { lent_cmp-total };

    ghost matches_partial_cmp = { λ a b. refl };

    ghost matches_eq = { λ a b. refl };

    fn cmp(&self, other: &LentRow<'a>) -> Ordering {
        compare_columns(self.row, self.columns, other.row, other.columns)
    }
}

/// Keys after one of a slot and before that of a row, if one is given. A walk in the order of keys stays in one until it comes to a row
/// that is gone, and so compares two keys at most of its rows.
#[derive(Clone, Copy)]
pub struct Gap<'a> {
    pub after: &'a RowKey,
    pub before: Option<LentRow<'a>>,
}

fn is_below_lent(key: &RowKey, row: Option<LentRow<'_>>) -> bool
    ensures { result ≡ is_below_lent row.entry key.now.values }
{
    match row {
        Some(lent) => key.values.compare_to_row(lent.row, lent.columns).is_lt(),
        None => true,
    }
}

impl<'a> Gap<'a> {
    /// Whether a key is in it.
    pub fn has(self, key: &RowKey) -> bool
        ensures { result ≡ in_gap self.entry key.now.values }
    {
        self.after.values.compare(&key.values).is_lt() && is_below_lent(key, self.before)
    }
}

/// Rows that are gone from the slots of a table. Contracts see the ordinals of the key columns, and the rows' values there.
#[derive(Drop)]
pub struct RemovedRows<'a> {
    columns: &'a [usize],
    rows: BTreeMap<LentRow<'a>, ()>,
}

impl<'a> Model for RemovedRows<'a> {
    ghost use Rattle.std.specs.Prelude.{map};
    ghost use Rattle.std.specs.Map.{keys_of};
    ghost use Rattle.shard_store.specs.inner.Overlays.{ColumnKeys, lent_key};

    ghost Value = { ColumnKeys };

    ghost view = { λ g. record { columns = g.columns.now; keys = map lent_key (keys_of g.rows.entries) } };
}

impl<'a> RemovedRows<'a> {
    /// None, of a table whose key columns are at these ordinals.
    pub fn new(alloc: Global, columns: &'a [usize]) -> RemovedRows<'a>
        ensures columns { result.columns ≡ columns.now }
        ensures keys { result.keys ≡ [] }
    {
        RemovedRows {
            columns,
            rows: BTreeMap::new(alloc),
        }
    }

    /// Whether a row's key is among theirs. Takes no memory.
    pub fn has(&self, row: &'a Row) -> bool
        ensures { result ≡ is_gone self.now row.now }
    {
        let columns = self.columns;
        self.rows.contains_key(&LentRow { columns, row })
    }

    /// Adds a row. Refuses for want of memory.
    pub fn add(&mut self, row: &'a Row) -> Result<(), AllocError>
        ensures columns { self.new.columns ≡ self.old.columns }
        ensures ok { OnOk result ((key : List V) → list_any (same_row key) self.new.keys ≡ (same_row key (key_at self.old.columns row.now) || list_any (same_row key) self.old.keys)) }
    {
        let columns = self.columns;
        self.rows.insert(LentRow { columns, row }, ())?;
        Ok(())
    }

    // The first of them whose key is after a row's.
    fn first_past(&self, row: &'a Row) -> Option<LentRow<'a>>
        ensures { (key : List V) → is_lt (slice_cmp value_cmp (key_at self.now.columns row.now) key) ≡ true → is_below_lent result key ≡ true → list_any (same_row key) self.now.keys ≡ false }
    {
        let columns = self.columns;
        let lent = LentRow { columns, row };
        let mut trailing = self.rows.range((Bound::Excluded(lent), Bound::Unbounded));
        match trailing.next() {
            Some((next, _)) => Some(*next),
            None => None,
        }
    }

    /// The keys after a row's, up to the next of a row that is gone.
    pub fn gap_after(&self, key: &'a RowKey, row: &'a Row) -> Gap<'a>
        requires { key.now.values ≡ key_at self.now.columns row.now }
        ensures { IsGapIn self.now.keys result }
    {
        Gap {
            after: key,
            before: self.first_past(row),
        }
    }
}
