//! Queries outside a transaction: the shards that a plan needs are read, and what they give is finished; while one doesn't answer, the query waits.
ghost use Rattle.std.specs.Prelude.{◌≡◌, ◌<◌, ◌∷◌, [], IfOk, IfErr, IfSome, IfNone, ◌⊎◌, map, length};
ghost use Rattle.vschema.specs.Sources.{JoinsInPlace};
ghost use Rattle.journal.specs.Runs.{IsLegal};
ghost use Rattle.shard_calls.specs.Plans.{planned};
ghost use Rattle.serving.specs.Partitions.{AreOf};
ghost use Rattle.shard_contents.specs.Entries.{MayFollow};
ghost use Rattle.shard_run.specs.Runs.{answers_queries};
ghost use Rattle.shard_calls.specs.Answers.{needed, HasGone, HasRead, IsHeldUp, IsHeldUpBy, MayReadRefuse};
ghost use Rattle.shard_calls.specs.inner.Scatter.{IsScattered, IsFinished, CanJoinAll, AllInOrder};
ghost use Rattle.route_engine.specs.inner.Answers.{HasReadRows};

use crate::engine::Engine;
use crate::shown::{shown_by, shown_in, shown_whole};
use journal::Naming;
use operators::{Operator, Rows};
use serving::{Partition, Seated, ShardReference};
use shard_calls::{
    Answer, Gate, Gathered, GatheredAlone, Plan, Reply, Route, Selected, Shard, ShardPass,
    ShardRead, World, find_partition, gather, is_answer, is_plain, jobs, only_needed, piece_for,
    plan, point_route, read_all, read_alone,
};
use shard_contents::narrow;
use sql_tree::Item;
use std::alloc::{AllocError, Global};
use std::sync::Wait;
use std::thread::Threads;
use vschema::{Query, Table};
use vt_value::{Items, Refusal, Row};

/// What a query shows, each item with whether it was written with its table's name; and its rows, with what the reply says of the shards.
type ReadRows = (
    (Items<Item<usize>>, Items<bool>),
    (Items<Row>, Items<ShardRead>),
);

// What a query outside a transaction is read by: the partition that it tries, its table on that keyspace, and its plan.
#[derive(Drop)]
struct PlannedRead<'q, W: World, J: Naming> {
    partition: &'q Partition<Shard<W, J>>,
    table: &'q Table,
    plan: &'q Plan,
}

// The one part that a query by its key needs.
fn lone_part<'e, S: Seated + Drop>(
    parts: &'e [ShardReference<S>],
    table: &Table,
    route: &Route,
) -> Option<&'e ShardReference<S>>
    ensures { IfSome result (λ part. needed table.now route.now parts.now ≡ part.now ∷ []) }
{
    match route {
        Route::EqualUnique(_) => match only_needed(parts, table, route) {
            Ok(Some(part)) => Some(part),
            _ => None,
        },
        _ => None,
    }
}

impl<W: World + Send + Sync, J: Naming + Send + Sync, G: Gate> Engine<W, J, G> {
    // What the shards of the partition give for the plan; nothing if one of them doesn't serve.
    fn scatter<R: Threads + Wait + Sync>(
        &self,
        rt: &R,
        alloc: Global,
        pass: &mut ShardPass<W, J>,
        read: &PlannedRead<'_, W, J>,
    ) -> Result<Option<Gathered>, AllocError>
        requires partition { AreOf read.now.table.now.keyspace read.now.partition.now }
        requires legal { IsLegal (MayFollow W.opening) pass.old.seen }
        ensures gone { HasGone W.opening pass.old pass.new }
        ensures ok { IfOk result (λ r. IfSome r (λ g. IsScattered W.opening read.now.table.now read.now.plan.now pass.old (map ⟦<Rows as Operator>⟧.to_come g.pieces.items) g.reads pass.new)) }
        ensures stalled { IfOk result (λ r. IfNone r (IsHeldUp W.opening read.now.table.now read.now.plan.now.route answers_queries pass.old.seen pass.new.seen read.now.partition.now)) }
    {
        let jobs = jobs(alloc, pass, read.partition.parts(), read.table, read.plan)?;
        let done = read_all(rt, alloc, &self.gate, jobs)?;
        gather(alloc, pass, done)
    }

    // What the part's shard gives for the plan, which needs no other by the partition; nothing if it doesn't serve.
    fn ask_alone(
        &self,
        rt: &impl Wait,
        alloc: Global,
        pass: &mut ShardPass<W, J>,
        read: &PlannedRead<'_, W, J>,
        part: &ShardReference<Shard<W, J>>,
    ) -> Result<Option<GatheredAlone>, AllocError>
        requires partition { AreOf read.now.table.now.keyspace read.now.partition.now }
        requires needed { needed read.now.table.now read.now.plan.now.route read.now.partition.now ≡ part.now ∷ [] }
        requires legal { IsLegal (MayFollow W.opening) pass.old.seen }
        ensures gone { HasGone W.opening pass.old pass.new }
        ensures ok { IfOk result (λ r. IfSome r (λ g. IsScattered W.opening read.now.table.now read.now.plan.now pass.old (g.rows ∷ []) g.reads pass.new)) }
        ensures stalled { IfOk result (λ r. IfNone r (IsHeldUp W.opening read.now.table.now read.now.plan.now.route answers_queries pass.old.seen pass.new.seen read.now.partition.now)) }
    {
        // its parts are those of a partition
        let _ = read.partition.parts();
        let piece = piece_for(alloc, read.table, read.plan, &part.range())?;
        read_alone(rt, alloc, &self.gate, pass, part, piece.get())
    }

    // The rows of the plan's query over one shard, which alone it needs by the partition, and what the reply says of it; nothing if that
    // doesn't serve.
    fn answer_alone(
        &self,
        rt: &impl Wait,
        alloc: Global,
        pass: &mut ShardPass<W, J>,
        read: &PlannedRead<'_, W, J>,
        part: &ShardReference<Shard<W, J>>,
    ) -> Result<Option<(Items<Row>, Items<ShardRead>)>, AllocError>
        requires partition { AreOf read.now.table.now.keyspace read.now.partition.now }
        requires needed { needed read.now.table.now read.now.plan.now.route read.now.partition.now ≡ part.now ∷ [] }
        requires fit { CanJoinAll W.opening read.now.table.now read.now.plan.now pass.old }
        requires order { AllInOrder W.opening read.now.table.now read.now.plan.now pass.old }
        requires legal { IsLegal (MayFollow W.opening) pass.old.seen }
        ensures gone { HasGone W.opening pass.old pass.new }
        ensures ok { IfOk result (λ r. IfSome r (λ x. IsFinished W.opening read.now.table.now read.now.plan.now pass.old x.0 x.1 pass.new)) }
        ensures stalled { IfOk result (λ r. IfNone r (IsHeldUp W.opening read.now.table.now read.now.plan.now.route answers_queries pass.old.seen pass.new.seen read.now.partition.now)) }
    {
        let Some(gathered) = self.ask_alone(rt, alloc, pass, read, part)? else {
            return Ok(None);
        };
        let GatheredAlone { rows, reads } = gathered;
        match read.plan.finish.answer_alone(alloc, rows) {
            Ok(answered) => Ok(Some((answered, reads))),
            Err(refused) => {
                drop(reads);
                Err(refused)
            }
        }
    }

    // The rows of the plan's query over the shards that it needs by the partition, and what the reply says of these; nothing if one of them
    // doesn't serve.
    fn answer_by<R: Threads + Wait + Sync>(
        &self,
        rt: &R,
        alloc: Global,
        pass: &mut ShardPass<W, J>,
        read: &PlannedRead<'_, W, J>,
    ) -> Result<Option<(Items<Row>, Items<ShardRead>)>, AllocError>
        requires partition { AreOf read.now.table.now.keyspace read.now.partition.now }
        requires fit { CanJoinAll W.opening read.now.table.now read.now.plan.now pass.old }
        requires order { AllInOrder W.opening read.now.table.now read.now.plan.now pass.old }
        requires legal { IsLegal (MayFollow W.opening) pass.old.seen }
        ensures gone { HasGone W.opening pass.old pass.new }
        ensures ok { IfOk result (λ r. IfSome r (λ x. IsFinished W.opening read.now.table.now read.now.plan.now pass.old x.0 x.1 pass.new)) }
        ensures stalled { IfOk result (λ r. IfNone r (IsHeldUp W.opening read.now.table.now read.now.plan.now.route answers_queries pass.old.seen pass.new.seen read.now.partition.now)) }
    {
        if let Some(part) = lone_part(read.partition.parts(), read.table, &read.plan.route) {
            return self.answer_alone(rt, alloc, pass, read, part);
        }
        let Some(gathered) = self.scatter(rt, alloc, pass, read)? else {
            return Ok(None);
        };
        let Gathered { pieces, reads } = gathered;
        match read.plan.finish.answer_in_order(alloc, pieces) {
            Ok(rows) => Ok(Some((rows, reads))),
            Err(refused) => {
                drop(reads);
                Err(refused)
            }
        }
    }

    // The rows of the plan's query over the shards that it needs, once all of them serve, and what the reply says of these: by the present
    // partition, and where one doesn't serve by turns at the buffer, where it waits.
    fn answer<R: Threads + Wait + Sync>(
        &self,
        rt: &R,
        alloc: Global,
        pass: &mut ShardPass<W, J>,
        table: &Table,
        plan: &Plan,
    ) -> Result<(Items<Row>, Items<ShardRead>), Refusal>
        requires keyspace { table.now.keyspace < length self.now.keyspaces }
        requires fit { CanJoinAll W.opening table.now plan.now pass.old }
        requires order { AllInOrder W.opening table.now plan.now pass.old }
        requires legal { IsLegal (MayFollow W.opening) pass.old.seen }
        ensures gone { HasGone W.opening pass.old pass.new }
        ensures ok { IfOk result (λ r. IsFinished W.opening table.now plan.now pass.old r.0 r.1 pass.new) }
        ensures err { IfErr result (λ e. (e ≡ Refusal.OutOfMemory)
            ⊎ ((e ≡ Refusal.BufferFull) × IsHeldUpBy W.opening table.now plan.now.route answers_queries pass.old.seen pass.new.seen)) }
    {
        let mut attempt = None;
        for _ in rt.forever() {
            let partition = self.partition_to_try(&attempt, table.keyspace);
            let read = PlannedRead {
                partition,
                table,
                plan,
            };
            if let Some(answered) = self.answer_by(rt, alloc, pass, &read)? {
                return Ok(answered);
            }
            match self.next_attempt(rt, attempt, table.keyspace) {
                Ok(next) => attempt = Some(next),
                Err(full) => {
                    find_partition(rt, pass, partition);
                    return Err(full.into());
                }
            }
        }
        unreachable!()
    }

    // The rows of a query by its key, which its one shard by the present partition is asked as it is, and what the reply says of that;
    // nothing if the query is no such, or if that shard doesn't serve.
    fn answer_point(
        &self,
        rt: &impl Wait,
        alloc: Global,
        pass: &mut ShardPass<W, J>,
        table: &Table,
        query: &Query,
    ) -> Result<Option<(Items<Row>, Items<ShardRead>)>, AllocError>
        requires keyspace { table.now.keyspace < length self.now.keyspaces }
        requires legal { IsLegal (MayFollow W.opening) pass.old.seen }
        ensures gone { HasGone W.opening pass.old pass.new }
        ensures ok { IfOk result (λ r. IfSome r (λ x. IsFinished W.opening table.now (planned table.now query.now) pass.old x.0 x.1 pass.new)) }
    {
        if !is_plain(query) {
            return Ok(None);
        }
        let Some(route) = point_route(alloc, table, query)? else {
            return Ok(None);
        };
        let Some(part) = lone_part(self.current(table.keyspace).parts(), table, &route) else {
            return Ok(None);
        };
        match read_alone(rt, alloc, &self.gate, pass, part, query)? {
            Some(gathered) if is_answer(query, gathered.rows.as_slice()) => {
                let GatheredAlone { rows, reads } = gathered;
                Ok(Some((rows, reads)))
            }
            _ => Ok(None),
        }
    }

    // What the query shows, and its rows over the shards that its plan needs.
    fn rows_by_plan<R: Threads + Wait + Sync>(
        &self,
        rt: &R,
        alloc: Global,
        pass: &mut ShardPass<W, J>,
        query: Query,
    ) -> Result<ReadRows, Refusal>
        requires there { query.table < length self.now.tables }
        requires joins { JoinsInPlace W.opening.schema query }
        requires legal { IsLegal (MayFollow W.opening) pass.old.seen }
        ensures ok { IfOk result (λ r. HasReadRows W.opening pass.old query r.0.0 r.0.1 r.1.0 r.1.1 pass.new) }
        ensures items { IfOk result (λ r. r.0.0 ≡ query.items) }
        ensures err { IfErr result (λ r. MayReadRefuse W.opening pass.old query r pass.new) }
    {
        let ordinal = query.table;
        let table = &self.schema.tables.as_slice()[ordinal];
        let mut plan = match plan(alloc, &self.schema, query) {
            Ok(plan) => plan,
            Err(_) => return Err(Refusal::OutOfMemory),
        };
        let answered = self.answer(rt, alloc, pass, table, &plan);
        let shown = shown_by(alloc, &mut plan);
        match answered {
            Ok(read) => Ok((shown, read)),
            Err(refusal) => {
                drop(shown);
                Err(refusal)
            }
        }
    }

    // What the query shows, and its rows over the shards that it needs: by its key it needs no plan.
    fn rows_over<R: Threads + Wait + Sync>(
        &self,
        rt: &R,
        alloc: Global,
        pass: &mut ShardPass<W, J>,
        query: Query,
    ) -> Result<ReadRows, Refusal>
        requires there { query.table < length self.now.tables }
        requires joins { JoinsInPlace W.opening.schema query }
        requires legal { IsLegal (MayFollow W.opening) pass.old.seen }
        ensures ok { IfOk result (λ r. HasReadRows W.opening pass.old query r.0.0 r.0.1 r.1.0 r.1.1 pass.new) }
        ensures items { IfOk result (λ r. r.0.0 ≡ query.items) }
        ensures err { IfErr result (λ r. MayReadRefuse W.opening pass.old query r pass.new) }
    {
        let ordinal = query.table;
        let table = &self.schema.tables.as_slice()[ordinal];
        match self.answer_point(rt, alloc, pass, table, &query) {
            Ok(Some(read)) => Ok((shown_in(query), read)),
            Ok(None) => self.rows_by_plan(rt, alloc, pass, query),
            Err(_) => Err(Refusal::OutOfMemory),
        }
    }

    /// What the query gives over the shards that its plan needs. Each of its items is read once, and the rows are shown whole as they go out.
    pub(crate) fn select<R: Threads + Wait + Sync>(
        &self,
        rt: &R,
        alloc: Global,
        pass: &mut ShardPass<W, J>,
        query: Query,
    ) -> Result<Reply, Refusal>
        requires there { query.table < length self.now.tables }
        requires joins { JoinsInPlace W.opening.schema query }
        requires legal { IsLegal (MayFollow W.opening) pass.old.seen }
        ensures ok { IfOk result (λ reply. HasRead W.opening pass.old query reply pass.new) }
        ensures err { IfErr result (λ r. MayReadRefuse W.opening pass.old query r pass.new) }
    {
        let ordinal = query.table;
        let join = query.join;
        let mut query = query;
        let whole = narrow(alloc, &mut query)?;
        match self.rows_over(rt, alloc, pass, query) {
            Ok(((items, qualified), (rows, reads))) => {
                let (items, rows) = shown_whole(whole, items, rows);
                Ok(Reply {
                    answer: Answer::Rows(Selected {
                        table: ordinal,
                        join,
                        items,
                        qualified,
                        rows,
                    }),
                    reads,
                })
            }
            Err(refusal) => {
                drop(whole);
                Err(refusal)
            }
        }
    }
}
