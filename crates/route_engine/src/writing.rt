//! Writes outside a transaction, each as one entry on the one shard that it needs.
ghost use Rattle.std.specs.Prelude.{◌≡◌, [], ℕ, ◌<◌, Some, IsSome, IfOk, IfErr, length};
ghost use Rattle.serving.specs.Partitions.{AreOf};
ghost use Rattle.vschema.specs.TypedWrites.{IsTypedWrite};
ghost use Rattle.shard_contents.specs.Writes.{written_table};
ghost use Rattle.shard_calls.specs.Routes.{table_at, write_route};
ghost use Rattle.journal.specs.Runs.{IsLegal, NumbersBelow};
ghost use Rattle.shard_contents.specs.Entries.{MayFollow, commit_of};
ghost use Rattle.shard_calls.specs.Answers.{HasWritten, MayWriteRefuse};
ghost use Rattle.shard_calls.specs.inner.Scatter.{tried, IsTried};

use crate::engine::Engine;
use crate::routed::Routed;
use journal::Naming;
use serving::Partition;
use shard_calls::{
    Answer, CommitOutcome, Gate, Reply, Shard, ShardPass, Tried, World, counted, find_partition,
    look_at_each, only_needed, shard_of, write_route, written_table,
};
use std::alloc::Global;
use std::sync::Wait;
use vschema::Write;
use vt_value::Refusal;

// The count, or the write again if its shard took no commits.
#[inline(always)]
fn tried(committed: CommitOutcome) -> Tried
    ensures { result ≡ tried committed }
{
    match committed {
        CommitOutcome::Count(count) => Tried::Done(count),
        CommitOutcome::Frozen(write) => Tried::Again(write),
        CommitOutcome::NotServing(write) => Tried::Again(write),
    }
}

impl<W: World + Send + Sync, J: Naming + Send + Sync, G: Gate> Engine<W, J, G> {
    // Commits the write on the one shard that it needs by the partition: the count, or the write again if that shard takes no commits.
    // If it needs several, each shard of the partition is looked at.
    // Its caller has found the partition and the route.
    #[inline(always)]
    fn commit(
        &self,
        rt: &impl Wait,
        alloc: Global,
        pass: &mut ShardPass<W, J>,
        partition: &Partition<Shard<W, J>>,
        routed: &Routed<'_>,
        write: Write,
    ) -> Result<Tried, Refusal>
        requires partition { AreOf routed.now.table.now.keyspace partition.now }
        requires table { routed.now.table.now ≡ table_at W.opening.schema (written_table write) }
        requires route { routed.now.route.now ≡ write_route W.opening.schema write }
        requires typed { IsTypedWrite W.opening.schema write }
        requires session { IsSome pass.old.session }
        requires legal { IsLegal (MayFollow W.opening) pass.old.seen }
        requires above { (n : ℕ) → pass.old.session ≡ Some n → NumbersBelow commit_of n pass.old.statements pass.old.seen }
        ensures ok { IfOk result (λ c. IsTried W.opening W.limits partition.now pass.old write c pass.new) }
        ensures err { IfErr result (λ r. MayWriteRefuse W.opening W.limits pass.old write r pass.new) }
    {
        match only_needed(partition.parts(), routed.table, routed.route) {
            Ok(Some(part)) => {
                let shard = shard_of(part);
                match shard.commit(rt, alloc, pass, &self.schema, write) {
                    Ok(committed) => Ok(tried(committed)),
                    Err(refusal) => Err(refusal),
                }
            }
            Ok(None) => {
                drop(write);
                Ok(Tried::Done(0))
            }
            Err(refusal) => {
                drop(write);
                look_at_each(rt, pass, partition.parts());
                Err(refusal)
            }
        }
    }

    // Tries a write until it is committed: by the present partition, and where its shard takes no commits by turns at the buffer, where it waits.
    fn commit_until(
        &self,
        rt: &impl Wait,
        alloc: Global,
        pass: &mut ShardPass<W, J>,
        routed: &Routed<'_>,
        write: Write,
    ) -> Result<u64, Refusal>
        requires keyspace { routed.now.table.now.keyspace < length self.now.keyspaces }
        requires table { routed.now.table.now ≡ table_at W.opening.schema (written_table write) }
        requires route { routed.now.route.now ≡ write_route W.opening.schema write }
        requires typed { IsTypedWrite W.opening.schema write }
        requires session { IsSome pass.old.session }
        requires legal { IsLegal (MayFollow W.opening) pass.old.seen }
        requires above { (n : ℕ) → pass.old.session ≡ Some n → NumbersBelow commit_of n pass.old.statements pass.old.seen }
        ensures ok { IfOk result (λ count. HasWritten W.opening W.limits pass.old write (record { answer = Answer.Count count; reads = [] }) pass.new) }
        ensures err { IfErr result (λ r. MayWriteRefuse W.opening W.limits pass.old write r pass.new) }
    {
        let mut write = write;
        let mut attempt = None;
        for _ in rt.forever() {
            let partition = self.partition_to_try(&attempt, routed.table.keyspace);
            match self.commit(rt, alloc, pass, partition, routed, write) {
                Ok(Tried::Done(count)) => return Ok(count),
                Ok(Tried::Again(again)) => write = again,
                Err(refusal) => return Err(refusal),
            }
            match self.next_attempt(rt, attempt, routed.table.keyspace) {
                Ok(next) => attempt = Some(next),
                Err(full) => {
                    drop(write);
                    find_partition(rt, pass, partition);
                    return Err(full.into());
                }
            }
        }
        unreachable!()
    }

    /// Commits the write on the one shard that it needs, as one entry. While that shard takes no commits it waits in the buffer, and begins
    /// again with the present partition.
    pub(crate) fn write(
        &self,
        rt: &impl Wait,
        alloc: Global,
        pass: &mut ShardPass<W, J>,
        write: Write,
    ) -> Result<Reply, Refusal>
        requires typed { IsTypedWrite W.opening.schema write }
        requires there { written_table write < length self.now.tables }
        requires session { IsSome pass.old.session }
        requires legal { IsLegal (MayFollow W.opening) pass.old.seen }
        requires above { (n : ℕ) → pass.old.session ≡ Some n → NumbersBelow commit_of n pass.old.statements pass.old.seen }
        ensures ok { IfOk result (λ reply. HasWritten W.opening W.limits pass.old write reply pass.new) }
        ensures err { IfErr result (λ r. MayWriteRefuse W.opening W.limits pass.old write r pass.new) }
    {
        let table = &self.schema.tables.as_slice()[written_table(&write)];
        match write_route(alloc, &self.schema, &write) {
            Ok(route) => {
                let routed = Routed {
                    table,
                    route: &route,
                };
                let count = self.commit_until(rt, alloc, pass, &routed, write);
                drop(route);
                Ok(counted(alloc, count?))
            }
            Err(_) => {
                drop(write);
                Err(Refusal::OutOfMemory)
            }
        }
    }
}
