//! What a shard keeps of an entry that it has stored.
ghost use Rattle.std.specs.Prelude.{◌≡◌, ◌≤◌, IfOk, length};

use shard_store::SharedChange;
use std::alloc::{AllocError, Global};
use std::marker::Model;
use std::slice;
use vschema::RowChange;

// A table is brought forward by some entries at a time: until they changed so many rows.
const MOST_CHANGES: usize = 64;

// Most entries change one row, and take no memory for a list.
#[derive(Drop)]
enum Changes {
    One(SharedChange),
    Many(Vec<SharedChange>),
}

// Changes with equal rows, of which no other has them yet.
fn shared(alloc: Global, changes: &[RowChange]) -> Result<Vec<SharedChange>, AllocError>
    ensures ok { IfOk result (λ list. list.items ≡ changes.now) }
{
    let mut list = Vec::with_capacity(alloc, changes.len())?;
    for change in changes {
        list.push(SharedChange::new(alloc, change)?)?;
    }
    Ok(list)
}

/// What a shard keeps of an entry that it has stored: its changes, whose rows the tables hold too. No code asks for the rest of the entry once
/// it is appended, so it isn't kept. Contracts see a list of `RowChange`s.
pub struct KeptEntry {
    changes: Changes,
}

impl Drop for KeptEntry {
    // Who drops one calls this, and need not know what it owns.
    fn drop(self) {
        let KeptEntry { changes } = self;
        drop(changes);
    }
}

impl Model for KeptEntry {
    ghost use Rattle.std.specs.Prelude.{List};
    ghost use Rattle.std.specs.Coded.{codes};
    ghost use Rattle.vschema.specs.contracts.changes.RowChange as change;
    ghost use Rattle.vschema.specs.declared.changes.RowChange.{RowChange};
    ghost use Rattle.shard_contents.specs.inner.KeptChanges.{changes_in};

    ghost Value = { List RowChange };

    ghost coded = { Prim.hlevel (codes, change.the_row.coded) };

    ghost view = { λ e. changes_in e.changes };
}

impl KeptEntry {
    /// An entry with these changes, of which no other has the rows yet. Refuses for want of memory.
    pub fn new(alloc: Global, changes: &[RowChange]) -> Result<KeptEntry, AllocError>
        ensures ok { IfOk result (λ e. e ≡ changes.now) }
    {
        let changes = match changes {
            [change] => Changes::One(SharedChange::new(alloc, change)?),
            _ => Changes::Many(shared(alloc, changes)?),
        };
        Ok(KeptEntry { changes })
    }

    /// What it changes.
    pub fn changes(&self) -> &[SharedChange]
        ensures { result.now ≡ self.now }
    {
        match &self.changes {
            Changes::One(change) => slice::from_ref(change),
            Changes::Many(changes) => changes.as_slice(),
        }
    }
}

// How many of the first entries together change a few rows, or how many there are.
pub(crate) fn few_entries(entries: &[KeptEntry]) -> usize
    ensures { result ≤ length entries.now }
{
    let mut changes = 0usize;
    for at in 0..entries.len() {
        if changes >= MOST_CHANGES {
            return at;
        }
        changes = changes.saturating_add(entries[at].changes().len());
    }
    entries.len()
}
