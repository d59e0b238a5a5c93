//! What a transaction does on its one shard, under the shard's lock.
ghost use Rattle.std.specs.Prelude.{◌≡◌, ◌<◌, ℕ, Some, IsSome, MatchResult, length};
ghost use Rattle.vschema.specs.Sources.{SourcesThere};
ghost use Rattle.shard_contents.specs.Writes.{written_table};
ghost use Rattle.journal.specs.Runs.{NumbersBelow};
ghost use Rattle.shard_run.specs.declared.ShardRecord as which;
ghost use Rattle.shard_run.specs.Runs.{entries_on, mode};
ghost use Rattle.shard_contents.specs.Legal.{IsOnItsSlot};
ghost use Rattle.shard_contents.specs.Entries.{commit_of, HasLooked};
ghost use Rattle.shard.specs.Seats.{place_at};
ghost use Rattle.shard_contents.specs.Transactions.{IsClear, IsPendingOf, HasReadIn, HasWrittenIn, IsStopped, IsReadRefusal, IsWriteRefusal, HasCommittedAll, IsCommitAllRefusal};

use crate::locked::Shard;
use crate::world::{ShardPass, World};
use journal::Naming;
use shard_contents::{Pending, Reading};
use shard_run::Mode;
use std::alloc::Global;
use std::sync::Wait;
use vschema::{Query, VSchema, Write};
use vt_value::Refusal;

impl<W: World, J: Naming> Shard<W, J> {
    /// Looks once under the shard's lock, as `ShardState::check`.
    pub fn check(
        &self,
        rt: &impl Wait,
        pass: &mut ShardPass<W, J>,
        tx: &Pending,
    ) -> Result<u64, Refusal>
        ensures check { (s : which.ShardRecord) × IsOnItsSlot W.opening pass.new.seen s × (s.slot ≡ self.now.0) × (s.place ≡ place_at self.now) × HasLooked W.opening self.now.0 pass.old pass.new
            × MatchResult result (λ n. (n ≡ length (entries_on self.now.0 pass.new.seen)) × IsClear W.opening s pass.new.seen tx.now)
            (IsStopped W.opening s pass.new.seen tx.now) }
        ensures past { mode W.opening pass.new.seen self.now.0 ≡ Mode.Following → ⊥ }
    {
        let mut state = self.own_state(rt);
        state.check(pass, tx)
    }

    /// What a query gives in a transaction, as `ShardState::read_in`. The lock is given back before a query looks at many rows.
    pub fn read_in(
        &self,
        rt: &impl Wait,
        alloc: Global,
        pass: &mut ShardPass<W, J>,
        tx: &mut Pending,
        query: &Query,
    ) -> Result<Reading, Refusal>
        requires there { SourcesThere (length W.opening.schema.tables) query.now }
        requires tied { (s : which.ShardRecord) → s.slot ≡ self.now.0 → s.place ≡ place_at self.now → IsPendingOf W.opening s tx.old pass.old }
        requires session { IsSome pass.old.session }
        requires above { (n : ℕ) → pass.old.session ≡ Some n → NumbersBelow commit_of n pass.old.statements pass.old.seen }
        ensures read { (s : which.ShardRecord) × IsOnItsSlot W.opening pass.new.seen s × (s.slot ≡ self.now.0) × (s.place ≡ place_at self.now) × HasLooked W.opening self.now.0 pass.old pass.new
            × MatchResult result (λ r. HasReadIn W.opening s tx.old pass.new.seen query.now r.rows r.entries tx.new)
            (λ e. IsReadRefusal W.opening s pass.new.seen tx.old e × (tx.new ≡ tx.old)) }
        ensures past { mode W.opening pass.new.seen self.now.0 ≡ Mode.Following → ⊥ }
    {
        let begun = {
            let mut state = self.own_state(rt);
            state.begin_read_in(alloc, pass, tx, query)
        };
        let reading = begun?.finish(alloc, tx, query)?;
        Ok(reading)
    }

    /// Makes the changes of a write in a transaction under the shard's lock, as `ShardState::write_in`.
    /// The clauses tell what became of the pass and the transaction's part, which are lent one by one.
    pub fn write_in(
        &self,
        rt: &impl Wait,
        alloc: Global,
        pass: &mut ShardPass<W, J>,
        tx: &mut Pending,
        schema: &VSchema,
        write: Write,
    ) -> Result<u64, Refusal>
        requires schema { schema.now ≡ W.opening.schema }
        requires there { written_table write < length W.opening.schema.tables }
        ensures written { (s : which.ShardRecord) × IsOnItsSlot W.opening pass.new.seen s × (s.slot ≡ self.now.0) × (s.place ≡ place_at self.now) × HasLooked W.opening self.now.0 pass.old pass.new
            × MatchResult result (λ count. HasWrittenIn W.opening s tx.old pass.new.seen write count tx.new)
            (λ e. IsWriteRefusal W.opening s pass.new.seen tx.old write e × (tx.new ≡ tx.old)) }
        ensures past { mode W.opening pass.new.seen self.now.0 ≡ Mode.Following → ⊥ }
    {
        let mut state = self.own_state(rt);
        state.write_in(alloc, pass, tx, schema, write)
    }

    /// Commits a transaction under the shard's lock, as `ShardState::commit_in`.
    pub fn commit_in(
        &self,
        rt: &impl Wait,
        alloc: Global,
        pass: &mut ShardPass<W, J>,
        tx: &mut Pending,
    ) -> Result<(), Refusal>
        requires tied { (s : which.ShardRecord) → s.slot ≡ self.now.0 → s.place ≡ place_at self.now → IsPendingOf W.opening s tx.old pass.old }
        requires session { IsSome pass.old.session }
        requires above { (n : ℕ) → pass.old.session ≡ Some n → NumbersBelow commit_of n pass.old.statements pass.old.seen }
        ensures commit { (s : which.ShardRecord) × IsOnItsSlot W.opening pass.new.seen s × (s.slot ≡ self.now.0) × (s.place ≡ place_at self.now)
            × MatchResult result (λ _. HasCommittedAll W.opening W.limits s pass.old tx.old pass.new)
            (λ e. HasLooked W.opening self.now.0 pass.old pass.new × IsCommitAllRefusal W.opening W.limits s pass.new.seen tx.old e × (tx.new ≡ tx.old)) }
        ensures past { mode W.opening pass.new.seen self.now.0 ≡ Mode.Following → ⊥ }
    {
        let mut state = self.own_state(rt);
        state.commit_in(alloc, pass, tx)
    }
}
