//! Walks over the rows in slots of a table that aren't gone.
ghost use Rattle.std.specs.Prelude.{◌≡◌, ◌∷◌, [], IfOk, IfSome, MatchOption, filter};
ghost use Rattle.std.specs.List.{AllByRecursion, list_any};
ghost use Rattle.sql_eval.specs.Database.{same_row};
ghost use Rattle.sql_eval.specs.Conditions.{is_kept};
ghost use Rattle.shard_store.specs.Tables.{key_at, IsAtItsKey};
ghost use Rattle.shard_store.specs.Slots.{rows_in};
ghost use Rattle.shard_store.specs.Chosen.{slots_chosen};
ghost use Rattle.shard_store.specs.inner.Overlays.{left_of};
ghost use Rattle.shard_store.specs.inner.Gaps.{IsGapIn};
ghost use Rattle.shard_store.specs.inner.Left.{rows_left, AreKeyed};

use crate::key::RowKey;
use crate::removed_rows::{Gap, RemovedRows};
use crate::shared_row::SlotRow;
use crate::table::StoredTable;
use crate::walk::ChosenSlots;
use row_chunks::Walk;
use sql_eval::RowSource;
use sql_tree::Condition;
use std::alloc::{AllocError, Global};
use vt_value::Row;

/// Rows in slots that are still to come, in the order of their keys.
#[derive(Drop)]
pub enum SlotsLeft<'a> {
    /// All of a table, with their slots.
    All(Walk<'a, RowKey, SlotRow>),
    /// Those of some values of the first key column.
    Chosen(ChosenSlots<'a>),
}

/// Rows in slots among which are all whose condition is true. Refuses for want of memory.
pub fn slots_left<'a>(
    alloc: Global,
    stored: &'a StoredTable,
    condition: &'a Option<Condition<usize>>,
) -> Result<SlotsLeft<'a>, AllocError>
    ensures ok { IfOk result (λ slots. filter (is_kept condition.now) (rows_left slots) ≡ filter (is_kept condition.now) (rows_in stored.now.slots)) }
    ensures keyed { IfOk result (AreKeyed stored.now.ordinals) }
{
    match stored.chosen(alloc, condition)? {
        ChosenSlots::All(_) => Ok(SlotsLeft::All(stored.slots())),
        slots => Ok(SlotsLeft::Chosen(slots)),
    }
}

// Whether a row in a slot is gone. A key in the gap is not looked up; one outside begins another gap.
fn is_gone<'a>(
    gone: &RemovedRows<'a>,
    gap: &mut Option<Gap<'a>>,
    key: &'a RowKey,
    row: &'a Row,
) -> bool
    requires key { key.now.values ≡ key_at gone.now.columns row.now }
    requires gap { IfSome gap.old (IsGapIn gone.now.keys) }
    ensures is { result ≡ list_any (same_row key.now.values) gone.now.keys }
    ensures gap { IfSome gap.new (IsGapIn gone.now.keys) }
{
    if let Some(gap) = *gap {
        if gap.has(key) {
            return false;
        }
    }
    *gap = Some(gone.gap_after(key, row));
    gone.has(row)
}

// The next row of all in slots that isn't gone.
fn next_of_all<'a>(
    slots: &mut Walk<'a, RowKey, SlotRow>,
    gone: &RemovedRows<'a>,
    gap: &mut Option<Gap<'a>>,
) -> Option<&'a Row>
    requires keyed { AllByRecursion (IsAtItsKey gone.now.columns) slots.old }
    requires gap { IfSome gap.old (IsGapIn gone.now.keys) }
    ensures row { MatchOption result
        ((left_of gone.now (rows_in slots.old) ≡ []) × (rows_in slots.new ≡ []))
        (λ row. left_of gone.now (rows_in slots.old) ≡ row.now ∷ left_of gone.now (rows_in slots.new)) }
    ensures keyed { AllByRecursion (IsAtItsKey gone.now.columns) slots.new }
    ensures gap { IfSome gap.new (IsGapIn gone.now.keys) }
{
    while let Some((key, slot)) = slots.next() {
        if let Some(row) = slot.get() {
            if !is_gone(gone, gap, key, row) {
                return Some(row);
            }
        }
    }
    None
}

// The next of the chosen rows that isn't gone.
fn next_of_chosen<'a>(slots: &mut ChosenSlots<'a>, gone: &RemovedRows<'a>) -> Option<&'a Row>
    ensures { MatchOption result
        ((left_of gone.now (slots_chosen slots.old) ≡ []) × (slots_chosen slots.new ≡ []))
        (λ row. left_of gone.now (slots_chosen slots.old) ≡ row.now ∷ left_of gone.now (slots_chosen slots.new)) }
{
    while let Some(row) = slots.next_row() {
        if !gone.has(row) {
            return Some(row);
        }
    }
    None
}

/// The next row in slots that isn't gone.
pub fn next_left<'a>(
    slots: &mut SlotsLeft<'a>,
    gone: &RemovedRows<'a>,
    gap: &mut Option<Gap<'a>>,
) -> Option<&'a Row>
    requires keyed { AreKeyed gone.now.columns slots.old }
    requires gap { IfSome gap.old (IsGapIn gone.now.keys) }
    ensures row { MatchOption result
        ((left_of gone.now (rows_left slots.old) ≡ []) × (rows_left slots.new ≡ []))
        (λ row. left_of gone.now (rows_left slots.old) ≡ row.now ∷ left_of gone.now (rows_left slots.new)) }
    ensures keyed { AreKeyed gone.now.columns slots.new }
    ensures gap { IfSome gap.new (IsGapIn gone.now.keys) }
{
    match slots {
        SlotsLeft::All(slots) => next_of_all(slots, gone, gap),
        SlotsLeft::Chosen(slots) => next_of_chosen(slots, gone),
    }
}
