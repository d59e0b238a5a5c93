//! What a transaction does on its one shard.
ghost use Rattle.std.specs.Prelude.{List, ◌≡◌, ◌↔◌, IsTrue, ◌≤◌, ◌<◌, ◌++◌, ◌∷◌, [], ℕ, Some, IsSome, IfOk, IfErr, OnOk, OnErr, length};
ghost use Rattle.vschema.specs.Sources.{SourcesThere};
ghost use Rattle.vschema.specs.TypedWrites.{IsTypedWrite};
ghost use Rattle.shard_contents.specs.Writes.{written_table};

use crate::snapshot::{BegunReadIn, rows_in};
use crate::state::ShardState;
use crate::world::{ShardPass, World};
use journal::Naming;
use shard_contents::{Pending, Reading, StatementId, Touch, with_owned, written_table};
use shard_run::Mode;
use std::alloc::Global;
use vschema::{Query, VSchema, Write};
use vt_value::Refusal;

// Whether a shard of this mode takes commits.
fn takes(mode: Mode) -> bool
    ensures { IsTrue result ↔ (mode ≡ Mode.Serving) }
{
    matches!(mode, Mode::Serving)
}

impl<W: World, J: Naming> ShardState<W, J> {
    ghost use mathlib.Core.List.{IsPrefix};
    ghost use Rattle.journal.specs.Runs.{NumbersBelow};
    ghost use Rattle.journal.specs.Views.{IsLater};
    ghost use Rattle.shard_run.specs.Runs.{entries_on};
    ghost use Rattle.shard_contents.specs.Legal.{IsOnItsSlot};
    ghost use Rattle.shard_contents.specs.Entries.{slot_of, commit_of, MayFollow, HasLooked, seat_view};
    ghost use Rattle.shard_contents.specs.Commits.{IsPlaced};
    ghost use Rattle.shard.specs.inner.Snapshots.{HasBegunIn, IsToRead};
    ghost use Rattle.shard_contents.specs.Transactions.{IsClear, IsPendingOf, HasReadIn, HasWrittenIn, IsStopped, IsReadRefusal, IsWriteRefusal, HasCommittedAll, IsCommitAllRefusal};

    // Promise: A transaction on one shard, before its commit: each statement of it makes one look, if the shard serves, isn't frozen and
    // no table that it touched was changed since, and gives what it means over the rows that the run leaves on the shard with the
    // transaction's own changes; then nothing is appended. Its commit is one look and exactly one entry with its writes in order and their
    // changes. It is refused for its cause alone: the shard doesn't serve or is frozen (F23), a touched table was changed since (F21,
    // exactly then), a primary key (F12), a limit at the commit (F24), or memory; if it is refused, the transaction is as it was
    // With: ShardState::{read_in, write_in, commit_in}, Shard::{check, read_in, write_in, commit_in}
    /// One look, which the pass keeps. Answers how many entries the shard has then. It refuses if the shard is frozen or doesn't serve;
    /// else if an entry of the shard has changed a table that the transaction touched before it. Takes no memory.
    pub fn check(&mut self, pass: &mut ShardPass<W, J>, tx: &Pending) -> Result<u64, Refusal>
        ensures seen { IsLater slot_of commit_of (MayFollow W.opening) (seat_view self.old) pass.old self.new.seen }
        ensures entries { IfOk result (λ n. n ≡ length (entries_on self.old.shard.slot self.new.seen)) }
        ensures clear { OnOk result (IsClear W.opening self.old.shard self.new.seen tx.now) }
        ensures err { IfErr result (IsStopped W.opening self.old.shard self.new.seen tx.now) }
        ensures shard { self.new.shard ≡ self.old.shard }
        ensures same { self.new ≡ record self.old { seen = self.new.seen } }
        ensures stands { IsOnItsSlot W.opening self.new.seen self.old.shard }
        ensures pass { pass.new ≡ record pass.old { seen = self.new.seen; looks = pass.old.looks ++ (self.old.shard.slot, length self.new.seen) ∷ [] } }
    {
        let entries = self.look(pass);
        if !takes(self.contents.mode) {
            return Err(Refusal::ShardMoved);
        }
        if tx.is_conflict(&self.contents.stored) {
            return Err(Refusal::Conflict);
        }
        Ok(entries)
    }

    // The look of a read in a transaction, with all that has to be done under the shard's lock.
    pub(crate) fn begin_read_in(
        &mut self,
        alloc: Global,
        pass: &mut ShardPass<W, J>,
        tx: &Pending,
        query: &Query,
    ) -> Result<BegunReadIn, Refusal>
        requires there { SourcesThere (length W.opening.schema.tables) query.now }
        requires tied { IsPendingOf W.opening self.old.shard tx.now pass.old }
        requires session { IsSome pass.old.session }
        requires above { (n : ℕ) → pass.old.session ≡ Some n → NumbersBelow commit_of n pass.old.statements pass.old.seen }
        ensures seen { IsLater slot_of commit_of (MayFollow W.opening) (seat_view self.old) pass.old self.new.seen }
        ensures begun { IfOk result (HasBegunIn W.opening self.old.shard tx.now self.new.seen query.now) }
        ensures readable { IfOk result (λ b. IsToRead query.now tx.now.changes b.rows) }
        ensures err { IfErr result (IsReadRefusal W.opening self.old.shard self.new.seen tx.now) }
        ensures shard { self.new.shard ≡ self.old.shard }
        ensures same { self.new ≡ record self.old { seen = self.new.seen } }
        ensures stands { IsOnItsSlot W.opening self.new.seen self.old.shard }
        ensures pass { pass.new ≡ record pass.old { seen = self.new.seen; looks = pass.old.looks ++ (self.old.shard.slot, length self.new.seen) ∷ [] } }
    {
        let entries = self.check(pass, tx)?;
        let stored = self.contents.stored.len();
        let rows = rows_in(&mut self.contents.store, alloc, query, &tx.changes)?;
        Ok(BegunReadIn {
            rows,
            entries,
            stored,
        })
    }

    /// What the query gives in a transaction, with the transaction's own changes, over the rows that the run leaves on the shard at one
    /// look, which the pass keeps. The tables that the query is over are touched then. It refuses as `check`, and for want of memory; then
    /// the look was made, and the transaction stays as it was.
    pub fn read_in(
        &mut self,
        alloc: Global,
        pass: &mut ShardPass<W, J>,
        tx: &mut Pending,
        query: &Query,
    ) -> Result<Reading, Refusal>
        requires there { SourcesThere (length W.opening.schema.tables) query.now }
        requires tied { IsPendingOf W.opening self.old.shard tx.old pass.old }
        requires session { IsSome pass.old.session }
        requires above { (n : ℕ) → pass.old.session ≡ Some n → NumbersBelow commit_of n pass.old.statements pass.old.seen }
        ensures seen { IsLater slot_of commit_of (MayFollow W.opening) (seat_view self.old) pass.old self.new.seen }
        ensures read { IfOk result (λ r. HasReadIn W.opening self.old.shard tx.old self.new.seen query.now r.rows r.entries tx.new) }
        ensures unchanged { OnErr result (tx.new ≡ tx.old) }
        ensures err { IfErr result (IsReadRefusal W.opening self.old.shard self.new.seen tx.old) }
        ensures shard { self.new.shard ≡ self.old.shard }
        ensures same { self.new ≡ record self.old { seen = self.new.seen } }
        ensures stands { IsOnItsSlot W.opening self.new.seen self.old.shard }
        ensures pass { pass.new ≡ record pass.old { seen = self.new.seen; looks = pass.old.looks ++ (self.old.shard.slot, length self.new.seen) ∷ [] } }
    {
        let begun = self.begin_read_in(alloc, pass, tx, query)?;
        let reading = begun.finish(alloc, tx, query)?;
        Ok(reading)
    }

    /// Makes the changes of a write in a transaction, over the rows that the run leaves on the shard at one look, which the pass keeps, and
    /// the transaction's own changes. Answers how many rows it adds, removes or really changes; the transaction keeps it, and nothing is
    /// appended. It refuses as `check`, a primary key that is there already, and for want of memory; then the look was made, and the
    /// transaction stays as it was.
    pub fn write_in(
        &mut self,
        alloc: Global,
        pass: &mut ShardPass<W, J>,
        tx: &mut Pending,
        schema: &VSchema,
        write: Write,
    ) -> Result<u64, Refusal>
        requires schema { schema.now ≡ W.opening.schema }
        requires there { written_table write < length W.opening.schema.tables }
        ensures seen { IsLater slot_of commit_of (MayFollow W.opening) (seat_view self.old) pass.old self.new.seen }
        ensures written { IfOk result (λ count. HasWrittenIn W.opening self.old.shard tx.old self.new.seen write count tx.new) }
        ensures unchanged { OnErr result (tx.new ≡ tx.old) }
        ensures err { IfErr result (IsWriteRefusal W.opening self.old.shard self.new.seen tx.old write) }
        ensures shard { self.new.shard ≡ self.old.shard }
        ensures same { self.new ≡ record self.old { seen = self.new.seen } }
        ensures stands { IsOnItsSlot W.opening self.new.seen self.old.shard }
        ensures pass { pass.new ≡ record pass.old { seen = self.new.seen; looks = pass.old.looks ++ (self.old.shard.slot, length self.new.seen) ∷ [] } }
    {
        let (_, write) = with_owned(self.check(pass, tx), write)?;
        let touch = Touch {
            table: written_table(&write),
            stored: self.contents.stored.len(),
        };
        let made = self
            .contents
            .changes_in_transaction(alloc, schema, &write, &tx.changes);
        let (changes, write) = with_owned(made, write)?;
        tx.add(alloc, schema, touch, write, changes.as_slice())?;
        Ok(changes.len() as u64)
    }

    /// Commits a transaction of the pass's session, under the number of its statement: one look, which the pass keeps, and then one entry with
    /// its writes in order, which the transaction then no longer has. It refuses as `check`, what would pass a limit of the shard, and for want
    /// of memory; then the look was made, and nothing else.
    pub fn commit_in(
        &mut self,
        alloc: Global,
        pass: &mut ShardPass<W, J>,
        tx: &mut Pending,
    ) -> Result<(), Refusal>
        requires tied { IsPendingOf W.opening self.old.shard tx.old pass.old }
        requires session { IsSome pass.old.session }
        requires above { (n : ℕ) → pass.old.session ≡ Some n → NumbersBelow commit_of n pass.old.statements pass.old.seen }
        ensures committed { OnOk result (HasCommittedAll W.opening W.limits self.old.shard pass.old tx.old pass.new) }
        ensures looked { OnErr result (HasLooked W.opening self.old.shard.slot pass.old pass.new) }
        ensures refused { IfErr result (IsCommitAllRefusal W.opening W.limits self.old.shard pass.new.seen tx.old) }
        ensures unchanged { OnErr result (tx.new ≡ tx.old) }
        ensures seen { self.new.seen ≡ pass.new.seen }
        ensures later { IsPrefix self.old.seen self.new.seen }
        ensures shard { self.new.shard ≡ self.old.shard }
        ensures same { self.new ≡ record self.old { seen = self.new.seen } }
        ensures stands { IsOnItsSlot W.opening self.new.seen self.old.shard }
    {
        let statement_id = StatementId {
            session: pass.session().unwrap(),
            number: pass.statements(),
        };
        let entries = self.check(pass, tx)?;
        let prepared = self.contents.prepare_in(alloc, entries, statement_id, tx)?;
        self.seat.append(pass, &prepared.entry);
        let _ = self.contents.take(prepared);
        Ok(())
    }
}
