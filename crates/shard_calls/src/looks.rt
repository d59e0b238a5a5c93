//! The looks of a query at its shards, and the reads that they leave.
ghost use Rattle.std.specs.Prelude.{IfOk};
ghost use Rattle.std.specs.List.{AllZip};
ghost use Rattle.shard.specs.ShardRecord.{ShardRecord};
ghost use Rattle.shard.specs.Runs.{Opening, Run};
ghost use Rattle.shard.specs.Seats.{place_at};
ghost use Rattle.shard.specs.Shards.{AnswersQuery};
ghost use Rattle.shard.specs.BegunReads.{HasBegunRead};
ghost use Rattle.shard_calls.specs.inner.Scatter.{IsLookFor, IsFinishOf};

use crate::gate::Gate;
use crate::pieces::Piece;
use crate::scatter::{ReadJob, ReadResult};
use journal::Naming;
use serving::Seated;
use shard::{BegunRead, LookingShardPass, ReadOutcome, World};
use std::alloc::{AllocError, Global};
use std::sync::Wait;
use vschema::Query;

/// A job whose shard was looked at: its number, the shard's slot, its piece of the query, how many rows that reads at most as far as it tells by
/// itself, the pass with the look, and what the look left to read, for which the shard isn't needed.
#[derive(Drop)]
pub struct LookedJob<'e, W: World, J: Naming> {
    pub turn: usize,
    pub slot: usize,
    pub query: Piece<'e>,
    pub most: usize,
    pub pass: LookingShardPass<W, J>,
    pub begun: Result<BegunRead, AllocError>,
}

// One look at the job's shard, under its lock.
fn look_at<'e, W: World, J: Naming>(
    rt: &impl Wait,
    alloc: Global,
    job: ReadJob<'e, W, J>,
) -> LookedJob<'e, W, J>
    ensures { IsLookFor W.opening (record { slot = job.entry.shard.now.0; place = place_at job.entry.shard.now; query = job.entry.query; pass = job.entry.pass }) (record { slot = result.slot; query = result.query; pass = result.pass; begun = result.begun }) }
{
    let ReadJob {
        turn,
        shard,
        query,
        most,
        mut pass,
    } = job;
    let slot = shard.slot();
    let begun = shard.begin_read_for(rt, alloc, &mut pass, query.get());
    LookedJob {
        turn,
        slot,
        query,
        most,
        pass,
        begun,
    }
}

/// One look at the shard of each job, in their order. Refuses only for want of memory.
pub(crate) fn look_at_all<'e, W: World, J: Naming>(
    rt: &impl Wait,
    alloc: Global,
    jobs: Vec<ReadJob<'e, W, J>>,
) -> Result<Vec<LookedJob<'e, W, J>>, AllocError>
    ensures ok { IfOk result (λ looked. AllZip (λ job l. IsLookFor W.opening (record { slot = job.shard.now.0; place = place_at job.shard.now; query = job.query; pass = job.pass }) (record { slot = l.slot; query = l.query; pass = l.pass; begun = l.begun })) jobs.entry.items looked.items) }
{
    let mut looked = Vec::with_capacity(alloc, jobs.len())?;
    for job in jobs {
        looked.push(look_at(rt, alloc, job))?;
    }
    Ok(looked)
}

// What a look left to read, unless a growth was refused at it.
fn answer(
    alloc: Global,
    begun: Result<BegunRead, AllocError>,
    query: &Query,
) -> Result<ReadOutcome, AllocError>
    ensures { (o : Opening) (run : Run) (s : ShardRecord) → IfOk begun (HasBegunRead o run s query.now) → IfOk result (AnswersQuery o run s query.now) }
{
    match begun {
        Ok(begun) => begun.finish(alloc, query),
        Err(refused) => Err(refused),
    }
}

/// Whether a look found its shard serving, or was refused a growth.
pub(crate) fn serves(begun: &Result<BegunRead, AllocError>) -> bool {
    !matches!(begun, Ok(BegunRead::Answered(ReadOutcome::NotServing)))
}

// That the shard doesn't serve, or nothing: no rows are read.
fn answer_unread(
    alloc: Global,
    begun: Result<BegunRead, AllocError>,
    query: &Query,
) -> Result<ReadOutcome, AllocError>
    ensures { (o : Opening) (run : Run) (s : ShardRecord) → IfOk begun (HasBegunRead o run s query.now) → IfOk result (AnswersQuery o run s query.now) }
{
    if serves(&begun) {
        return Err(AllocError);
    }
    answer(alloc, begun, query)
}

/// What a look came to whose rows aren't read, since another shard of its query doesn't serve: that this one doesn't, or an error, which nobody
/// is told.
pub(crate) fn leave<W: World, J: Naming>(alloc: Global, looked: LookedJob<W, J>) -> ReadResult<W, J>
    ensures { IsFinishOf W.opening (record { slot = looked.entry.slot; query = looked.entry.query; pass = looked.entry.pass; begun = looked.entry.begun }) (record { slot = result.slot; pass = result.pass; outcome = result.outcome }) }
{
    let LookedJob {
        slot,
        query,
        pass,
        begun,
        ..
    } = looked;
    let outcome = answer_unread(alloc, begun, query.get());
    drop(query);
    ReadResult {
        slot,
        pass,
        outcome,
    }
}

/// A shard's answer as of its look, read by this thread.
pub(crate) fn finish<W: World, J: Naming, G: Gate>(
    alloc: Global,
    gate: &G,
    looked: LookedJob<W, J>,
) -> ReadResult<W, J>
    ensures { IsFinishOf W.opening (record { slot = looked.entry.slot; query = looked.entry.query; pass = looked.entry.pass; begun = looked.entry.begun }) (record { slot = result.slot; pass = result.pass; outcome = result.outcome }) }
{
    let LookedJob {
        turn,
        slot,
        query,
        pass,
        begun,
        ..
    } = looked;
    gate.before(turn);
    let outcome = answer(alloc, begun, query.get());
    gate.after(turn);
    drop(query);
    ReadResult {
        slot,
        pass,
        outcome,
    }
}
