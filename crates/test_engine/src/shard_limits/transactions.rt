//! Transactions on one small shard.
ghost use Rattle.std.specs.Prelude.{length};
ghost use Rattle.vschema.specs.Sources.{SourcesThere};
ghost use Rattle.vschema.specs.TypedWrites.{IsTypedWrite};
ghost use Rattle.shard_contents.specs.Commits.{IsPlaced};
ghost use Rattle.test_engine.specs.shard_limits.SmallWorld.{small_schema, small_shard};
ghost use Rattle.test_engine.specs.shard_limits.inner.SmallWorld.{IsHere, IsNumbered};

use crate::shard_limits::playing::Session;
use crate::shard_limits::writing::{Act, Small, query, written};
use journal::Naming;
use shard_calls::{Pending, ShardPass};
use sql_tree::Item;
use std::alloc::Global;
use std::sync::Wait;
use vschema::{Query, Write};
use vt_value::Refusal;

// A transaction that has done nothing.
fn begin<J: Naming>(alloc: Global, pass: &ShardPass<Small, J>) -> Pending
    ensures { IsHere result pass.now }
{
    let _ = pass.session();
    Pending::new(alloc)
}

impl<J: Naming, R: Wait> Session<'_, J, R> {
    // A write of the transaction's statement.
    fn write_in(&mut self, tx: &mut Pending, write: Write) -> Result<u64, Refusal>
        requires typed { IsTypedWrite small_schema write }
        requires placed { IsPlaced small_schema small_shard.place write }
        requires tied { IsHere tx.old self.old.pass }
        ensures tied { IsHere tx.new self.new.pass }
    {
        self.shard.write_in(self.rt, self.alloc, &mut self.pass, tx, self.schema, write)
    }

    // INSERT INTO t VALUES (id, NULL) as the next statement of the transaction.
    fn insert_in(&mut self, tx: &mut Pending, id: u64) -> Result<u64, Refusal>
        requires tied { IsHere tx.old self.old.pass }
        ensures tied { IsHere tx.new self.new.pass }
    {
        self.next_statement()?;
        let row = written(self.alloc, Act::Insert(id))?;
        self.write_in(tx, row)
    }

    // How many rows a query gives as the statement of the transaction.
    fn rows_by(&mut self, tx: &mut Pending, query: &Query) -> Result<usize, Refusal>
        requires there { SourcesThere (length small_schema.tables) query.now }
        requires above { IsNumbered self.old.pass }
        requires tied { IsHere tx.old self.old.pass }
        ensures tied { IsHere tx.new self.new.pass }
    {
        match self
            .shard
            .read_in(self.rt, self.alloc, &mut self.pass, tx, query)
        {
            Ok(reading) => Ok(reading.rows.len()),
            Err(refusal) => Err(refusal),
        }
    }

    // How many rows SELECT id FROM t gives as the next statement of the transaction.
    fn rows_in(&mut self, tx: &mut Pending) -> Result<usize, Refusal>
        requires tied { IsHere tx.old self.old.pass }
        ensures tied { IsHere tx.new self.new.pass }
    {
        self.next_statement()?;
        let query = query(self.alloc, Item::Column(0))?;
        let rows = self.rows_by(tx, &query);
        drop(query);
        rows
    }

    // COMMIT of what the transaction has written.
    fn commit_in(&mut self, tx: &mut Pending) -> Result<(), Refusal>
        requires tied { IsHere tx.old self.old.pass }
    {
        self.next_statement()?;
        self.shard
            .commit_in(self.rt, self.alloc, &mut self.pass, tx)
    }

    // Whether its shard still is as it was, by how many entries the shard has.
    fn is_checked(&mut self, tx: &Pending, given: Result<u64, Refusal>) -> bool {
        let told = self.shard.check(self.rt, &mut self.pass, tx);
        told == given
    }

    // Its write is seen by it.
    fn insert_and_read(&mut self, tx: &mut Pending) -> Result<bool, Refusal>
        requires tied { IsHere tx.old self.old.pass }
        ensures tied { IsHere tx.new self.new.pass }
    {
        let added = self.insert_in(tx, 1)?;
        let rows = self.rows_in(tx)?;
        Ok(added == 1 && rows == 1)
    }

    // Another session sees it once it is committed.
    fn commit_with(
        &mut self,
        other: &mut Session<'_, J, R>,
        tx: &mut Pending,
    ) -> Result<bool, Refusal>
        requires tied { IsHere tx.old self.old.pass }
    {
        let before = other.counts()?;
        self.commit_in(tx)?;
        let trailing = other.counts()?;
        Ok(before == (0, 0) && trailing == (1, 1))
    }

    // Another session's change of its table ends it.
    fn read_and_conflict(
        &mut self,
        other: &mut Session<'_, J, R>,
        tx: &mut Pending,
    ) -> Result<bool, Refusal>
        requires tied { IsHere tx.old self.old.pass }
    {
        let rows = self.rows_in(tx)?;
        let is_open = self.is_checked(tx, Ok(1));
        let added = other.run(Act::Insert(2))?;
        let is_refused = self.is_checked(tx, Err(Refusal::Conflict));
        Ok(rows == 1 && is_open && added == 1 && is_refused)
    }

    fn first_transaction(&mut self, other: &mut Session<'_, J, R>) -> Result<bool, Refusal> {
        let mut tx = begin(self.alloc, &self.pass);
        let is_seen = self.insert_and_read(&mut tx)?;
        let is_committed = self.commit_with(other, &mut tx)?;
        Ok(is_seen && is_committed)
    }

    fn second_transaction(&mut self, other: &mut Session<'_, J, R>) -> Result<bool, Refusal> {
        let mut tx = begin(self.alloc, &self.pass);
        self.read_and_conflict(other, &mut tx)
    }

    /// Two transactions of the session, and another session.
    pub(crate) fn transactions(&mut self, other: &mut Session<'_, J, R>) -> Result<bool, Refusal> {
        let first = self.first_transaction(other)?;
        let second = self.second_transaction(other)?;
        Ok(first && second)
    }
}
