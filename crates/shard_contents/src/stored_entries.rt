//! The entries that a shard has stored: how many, and what they changed, from the time on when somebody follows the shard. Of each table they
//! tell how many there were when it was last changed, so a transaction's conflicts are found without the entries.
ghost use Rattle.std.specs.Prelude.{◌≡◌, ◌==◌, ◌-◌, ◌+◌, ◌<◌, ◌≤◌, ◌^◌, ◌⊎◌, true, ℕ, if◌then◌else◌, MatchOption, OnOk, Some, slice_get, vec_len, vec_capacity};
ghost use Rattle.std.specs.List.{AllByRecursion};
ghost use Rattle.vschema.specs.Database.{changed_table};
ghost use Rattle.shard_contents.specs.inner.KeptConflicts.{keeps_table};
ghost use Rattle.shard_contents.specs.inner.LastChanges.{last_change, tells_change};
ghost use Rattle.shard_contents.specs.inner.StoredLogs.{HasPlaceFor, HasStoredNext, nothing_stored, count_of, stored_since, given_up};

use crate::kept_entry::KeptEntry;
use crate::touched_table::Touch;
use shard_store::SharedChange;
use std::alloc::{AllocError, Global};
use std::marker::Model;

/// The entries that a shard has stored, in order. While nobody follows the shard none is kept, since nobody asks for it. Contracts see a
/// `StoredView`.
pub struct StoredEntries {
    // how many were given up, all before the kept ones
    first: usize,
    kept: Vec<KeptEntry>,
    // of each table, how many entries there were when one last changed it; no entry has changed a table after the last of these
    last_changed: Vec<usize>,
    is_followed: bool,
}

impl Drop for StoredEntries {
    // Who drops one calls this, and need not know what it owns.
    fn drop(self) {
        let StoredEntries {
            first: _,
            kept,
            last_changed,
            is_followed: _,
        } = self;
        drop(kept);
        drop(last_changed);
    }
}

impl Model for StoredEntries {
    ghost use Rattle.std.specs.Prelude.{◌+◌, ◌-◌, ◌<◌, ◌^◌, vec_len, vec_capacity};
    ghost use Rattle.std.specs.Coded.{codes};
    ghost use Rattle.vschema.specs.contracts.changes.RowChange as change;
    ghost use Rattle.shard_contents.specs.inner.StoredLogs.{StoredView};

    ghost Value = { StoredView };

    ghost coded = { Prim.hlevel (codes, change.the_row.coded) };

    ghost view = { λ s. record {
      log = record { first = s.first; kept = s.kept.items; last = s.last_changed.items; is_followed = s.is_followed };
      room = vec_capacity s.kept - vec_len s.kept;
      tables = vec_capacity s.last_changed;
    } };

    // they can be counted
    ghost invariant = { λ s. s.first + vec_len s.kept < 2 ^ 64 };
}

// How many entries there were when one last changed the table at an ordinal.
fn last_change(last_changed: &[usize], ordinal: usize) -> usize
    ensures { result ≡ last_change last_changed.now ordinal }
{
    match last_changed.get(ordinal) {
        Some(count) => *count,
        None => 0,
    }
}

// Makes memory for the table at an ordinal. Refuses for want of it.
fn reserve_table(last_changed: &mut Vec<usize>, ordinal: usize) -> Result<(), AllocError>
    ensures same { last_changed.new.items ≡ last_changed.old.items }
    ensures larger { vec_capacity last_changed.old ≤ vec_capacity last_changed.new }
    ensures ok { OnOk result (ordinal < vec_capacity last_changed.new) }
{
    let len = last_changed.len();
    if ordinal < len {
        return Ok(());
    }
    match (ordinal - len).checked_add(1) {
        Some(more) => {
            last_changed.reserve(more)?;
            Ok(())
        }
        None => Err(AllocError),
    }
}

// Makes memory for the tables of the changes. Refuses for want of it.
fn reserve_tables(last_changed: &mut Vec<usize>, changes: &[SharedChange]) -> Result<(), AllocError>
    ensures same { last_changed.new.items ≡ last_changed.old.items }
    ensures ok { OnOk result (AllByRecursion (λ c. changed_table c < vec_capacity last_changed.new) changes.now) }
{
    for change in changes {
        reserve_table(last_changed, change.table())?;
    }
    Ok(())
}

// Notes that the last of so many entries changes the table at an ordinal. Takes no memory.
fn note_table(last_changed: &mut Vec<usize>, ordinal: usize, count: usize)
    requires { ordinal < vec_capacity last_changed.old }
    ensures noted { (n : ℕ) → last_change last_changed.new.items n ≡ (if ordinal == n then count else last_change last_changed.old.items n) }
    ensures capacity { vec_capacity last_changed.new ≡ vec_capacity last_changed.old }
{
    while last_changed.len() <= ordinal {
        last_changed.push_reserved(0);
    }
    last_changed[ordinal] = count;
}

// Notes the tables of the changes that the last of so many entries makes. Takes no memory.
fn note(last_changed: &mut Vec<usize>, changes: &[SharedChange], count: usize)
    requires { AllByRecursion (λ c. changed_table c < vec_capacity last_changed.old) changes.now }
    ensures { (n : ℕ) → last_change last_changed.new.items n ≡ (if keeps_table n changes.now then count else last_change last_changed.old.items n) }
{
    for change in changes {
        note_table(last_changed, change.table(), count);
    }
}

impl StoredEntries {
    /// No entries, and nobody follows the shard. Takes no memory.
    pub fn new(alloc: Global) -> StoredEntries
        ensures { result.log ≡ nothing_stored }
    {
        StoredEntries {
            first: 0,
            kept: Vec::new(alloc),
            last_changed: Vec::new(alloc),
            is_followed: false,
        }
    }

    /// How many were stored.
    pub fn len(&self) -> usize
        ensures { result ≡ count_of self.now.log }
    {
        self.first + self.kept.len()
    }

    /// Whether none was.
    pub fn is_empty(&self) -> bool
        ensures { result ≡ (count_of self.now.log == 0) }
    {
        self.len() == 0
    }

    /// Keeps each entry that comes from now on.
    pub fn follow(&mut self)
        ensures { self.new.log ≡ record self.old.log { is_followed = true } }
    {
        self.is_followed = true;
    }

    /// Gives up those that are kept, and keeps none that comes from now on. Takes no memory.
    pub fn unfollow(&mut self)
        ensures { self.new.log ≡ given_up self.old.log }
    {
        self.first = self.len();
        self.kept = Vec::new(*self.kept.allocator());
        self.is_followed = false;
    }

    /// The entry at a position, counted from 0, if it is kept.
    pub fn get(&self, at: usize) -> Option<&KeptEntry>
        ensures { MatchOption result
            ((at < self.now.log.first) ⊎ (count_of self.now.log ≤ at))
            (λ e. (self.now.log.first ≤ at) × (slice_get self.now.log.kept (at - self.now.log.first) ≡ Some e.now)) }
    {
        if at < self.first {
            return None;
        }
        self.kept.get(at - self.first)
    }

    /// Those that were stored after so many.
    pub fn since(&self, count: usize) -> &[KeptEntry]
        requires there { self.now.log.first ≤ count }
        requires within { count ≤ count_of self.now.log }
        ensures { result.now ≡ stored_since self.now.log count }
    {
        &self.kept.as_slice()[count - self.first..]
    }

    /// Whether one that was stored since a touch changes a row of the touched table. Looks at none of them.
    pub fn is_changed_since(&self, touch: &Touch) -> bool
        ensures { result ≡ tells_change self.now.log.last touch.now }
    {
        touch.stored < last_change(self.last_changed.as_slice(), touch.table)
    }

    // Makes memory to keep one more, if somebody follows.
    fn reserve_one(&mut self) -> Result<(), AllocError>
        ensures ok { OnOk result (self.new.log.is_followed ≡ true → 0 < self.new.room) }
        ensures log { self.new.log ≡ self.old.log }
    {
        if !self.is_followed {
            return Ok(());
        }
        self.kept.reserve(1)?;
        Ok(())
    }

    /// Makes memory for one more. Refuses for want of it.
    pub fn reserve(&mut self, kept: &KeptEntry) -> Result<(), AllocError>
        ensures ok { OnOk result (HasPlaceFor self.new kept.now) }
        ensures log { self.new.log ≡ self.old.log }
    {
        if self.len() == usize::MAX {
            return Err(AllocError);
        }
        self.reserve_one()?;
        reserve_tables(&mut self.last_changed, kept.changes())?;
        Ok(())
    }

    /// Adds one for which memory was made. It is kept if somebody follows. Takes no memory.
    pub fn push_reserved(&mut self, kept: KeptEntry)
        requires { HasPlaceFor self.old kept }
        ensures { HasStoredNext self.old.log kept self.new.log }
    {
        let count = self.len() + 1;
        note(&mut self.last_changed, kept.changes(), count);
        if self.is_followed {
            self.kept.push_reserved(kept);
        } else {
            self.first = count;
            self.kept.clear();
        }
    }
}
