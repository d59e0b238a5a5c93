//! A transaction that isn't committed: what it has touched, for conflicts, and what it has written.
ghost use Rattle.std.specs.Prelude.{◌≡◌, false, ◌↔◌, ◌++◌, ◌+◌, ◌<◌, ◌≤◌, ◌∷◌, [], OnOk, OnErr, length, vec_len, vec_capacity};
ghost use Rattle.shard_contents.specs.Transactions.{nothing_done, is_touched, touched_with, touched_all};
ghost use Rattle.shard_contents.specs.inner.LastChanges.{tells_change, tells_conflict};
ghost use Rattle.vschema.specs.Sources.{source_tables};

use crate::copies::{copy_changes, with_owned};
use crate::own_changes::OwnChanges;
use crate::stored_entries::StoredEntries;
use crate::touched_table::Touch;
use std::alloc::{AllocError, Global};
use std::marker::Model;
use vschema::{Query, RowChange, VSchema, Write};

/// A transaction on its one shard that isn't committed: the tables that it has touched, its writes in order, and the row changes that they
/// make. Contracts see a `PendingView`.
pub struct Pending {
    pub touched: Vec<Touch>,
    pub writes: Vec<Write>,
    pub changes: OwnChanges,
}

impl Drop for Pending {
    // Who drops one calls this, and need not know what it owns.
    fn drop(self) {
        let Pending {
            touched,
            writes,
            changes,
        } = self;
        drop(touched);
        drop(writes);
        drop(changes);
    }
}

impl Model for Pending {
    ghost use Rattle.shard_contents.specs.Transactions.{PendingView};
    ghost use Rattle.std.specs.Coded.{codes};
    ghost use Rattle.vschema.specs.contracts.changes.Write as write;

    ghost Value = { PendingView };

    ghost coded = { Prim.hlevel (codes, write.the_row.coded) };

    ghost view = { λ p. record { touched = p.touched.items; writes = p.writes.items; changes = p.changes } };
}

fn is_touched(touched: &[Touch], ordinal: usize) -> bool
    ensures { result ≡ is_touched touched.now ordinal }
{
    touched.iter().any(|touch| touch.table == ordinal)
}

// Touches a table, unless it is touched. Takes no memory.
fn touch_table(touched: &mut Vec<Touch>, touch: Touch)
    requires room { vec_len touched.old < vec_capacity touched.old }
    ensures touched { touched.new.items ≡ touched_with touched.old.items touch }
    ensures few { vec_len touched.new ≤ vec_len touched.old + 1 }
    ensures capacity { vec_capacity touched.new ≡ vec_capacity touched.old }
{
    if !is_touched(touched.as_slice(), touch.table) {
        touched.push_reserved(touch);
    }
}

// The ordinals of the primary key's columns of the table at an ordinal, if there is one.
fn primary_key(schema: &VSchema, ordinal: usize) -> &[usize] {
    match schema.tables.as_slice().get(ordinal) {
        Some(table) => table.primary_key.as_slice(),
        None => &[],
    }
}

// Appends the changes, and makes room for a touch and a write. Refuses for want of memory; then nothing has changed.
fn append(
    alloc: Global,
    touched: &mut Vec<Touch>,
    writes: &mut Vec<Write>,
    changes: &mut OwnChanges,
    columns: &[usize],
    more: &mut Vec<RowChange>,
) -> Result<(), AllocError>
    ensures touched { touched.new.items ≡ touched.old.items }
    ensures touch { OnOk result (vec_len touched.new < vec_capacity touched.new) }
    ensures writes { writes.new.items ≡ writes.old.items }
    ensures write { OnOk result (vec_len writes.new < vec_capacity writes.new) }
    ensures changes { OnOk result (changes.new ≡ changes.old ++ more.old.items) }
    ensures unchanged { OnErr result (changes.new ≡ changes.old) }
{
    touched.reserve(1)?;
    writes.reserve(1)?;
    changes.append(alloc, columns, more)?;
    Ok(())
}

impl Pending {
    /// A transaction that has done nothing yet.
    pub fn new(alloc: Global) -> Pending
        ensures { result ≡ nothing_done }
    {
        Pending {
            touched: Vec::new(alloc),
            writes: Vec::new(alloc),
            changes: OwnChanges::new(alloc),
        }
    }

    /// Whether it has written.
    pub fn has_written(&self) -> bool
        ensures { result ≡ false ↔ (self.now.writes ≡ []) }
    {
        !self.writes.is_empty()
    }

    /// Whether an entry that the shard has stored since a touch changes a row of the touched table. Looks at no entry.
    pub fn is_conflict(&self, stored: &StoredEntries) -> bool
        ensures { result ≡ tells_conflict stored.now.log.last self.now.touched }
    {
        self.touched
            .iter()
            .any(|touch| stored.is_changed_since(touch))
    }

    /// Touches the tables that a query is over, when the shard has stored so many entries. Refuses for want of memory; then nothing has
    /// changed.
    pub fn touch(&mut self, query: &Query, stored: usize) -> Result<(), AllocError>
        ensures ok { OnOk result (self.new ≡ record self.old { touched = touched_all self.old.touched (source_tables query.now) stored }) }
        ensures unchanged { OnErr result (self.new ≡ self.old) }
    {
        self.touched.reserve(2)?;
        touch_table(
            &mut self.touched,
            Touch {
                table: query.table,
                stored,
            },
        );
        if let Some(join) = query.join {
            touch_table(
                &mut self.touched,
                Touch {
                    table: join.table,
                    stored,
                },
            );
        }
        Ok(())
    }

    /// Touches the table of a write, and takes the write over with its changes. Later statements find these by the primary keys of their rows, as the
    /// VSchema has them. Refuses for want of memory; then nothing has changed.
    pub fn add(
        &mut self,
        alloc: Global,
        schema: &VSchema,
        touch: Touch,
        write: Write,
        changes: &[RowChange],
    ) -> Result<(), AllocError>
        ensures ok { OnOk result (self.new ≡ record { touched = touched_with self.old.touched touch; writes = self.old.writes ++ write ∷ []; changes = self.old.changes ++ changes.now }) }
        ensures unchanged { OnErr result (self.new ≡ self.old) }
    {
        let (mut copied, write) = with_owned(copy_changes(alloc, changes), write)?;
        let room = append(
            alloc,
            &mut self.touched,
            &mut self.writes,
            &mut self.changes,
            primary_key(schema, touch.table),
            &mut copied,
        );
        let (_, write) = with_owned(room, write)?;
        self.writes.push_reserved(write);
        touch_table(&mut self.touched, touch);
        Ok(())
    }
}
