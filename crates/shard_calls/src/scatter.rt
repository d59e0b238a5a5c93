//! The shards that a query needs, read at once in threads of their own.
ghost use Rattle.std.specs.Prelude.{◌≡◌, ◌++◌, ◌∷◌, [], ℕ, List, IfOk, OnOk, IfSome, IfNone, map, true};
ghost use Rattle.std.specs.List.{AllZip};
ghost use Rattle.journal.specs.Runs.{IsLegal};
ghost use Rattle.serving.specs.Partitions.{Seat, AreOf};
ghost use Rattle.vschema.specs.declared.schema.Table.{Table as WrittenTable};
ghost use Rattle.shard.specs.Runs.{answers_queries};
ghost use Rattle.shard.specs.Entries.{MayFollow, HasLooked};
ghost use Rattle.shard.specs.Seats.{place_at};
ghost use Rattle.planner.specs.declared.plans.Plan.{Plan as WrittenPlan};
ghost use Rattle.shard_calls.specs.Answers.{HasGone, IsHeldUp};
ghost use Rattle.shard_calls.specs.inner.Scatter.{asked, all_asked, IsReadingOf, outcome_rows, entries_in, IsGathered, AreConsecutive, IsStalled, IsScattered, IsPieceAlone, IsFinishOf};

use crate::gate::Gate;
use crate::looks::{LookedJob, finish, leave, look_at_all, serves};
use crate::parts::shard_of;
use crate::pieces::{Piece, piece_for};
use crate::reply::ShardRead;
use journal::Naming;
use planner::{Operator, Plan, Rows, single_id, takes_by};
use serving::{Seated, ShardReference};
use shard::{
    Fixed, LookingShardPass, ReadOutcome, Reading, Shard, ShardPass, World, fixed_values,
    rows_by_limit,
};
use sql_tree::Condition;
use std::alloc::{AllocError, Global};
use std::sync::Wait;
use std::thread::{self, Threads};
use vschema::{Query, Table};
use vt_value::{Items, Row};

/// What a shard is asked: its number among those that a query needs, itself, its piece of the query, how many rows that reads at most as far
/// as it tells by itself, and a pass, by which it is looked at and nothing is appended.
#[derive(Drop)]
pub struct ReadJob<'e, W: World, J: Naming> {
    pub turn: usize,
    pub shard: &'e Shard<W, J>,
    pub query: Piece<'e>,
    pub most: usize,
    pub pass: LookingShardPass<W, J>,
}

/// What a shard gave, with the pass by which it was read.
#[derive(Drop)]
pub struct ReadResult<W: World, J: Naming> {
    pub slot: usize,
    pub pass: LookingShardPass<W, J>,
    pub outcome: Result<ReadOutcome, AllocError>,
}

/// The rows that each shard gave, and what the reply says of each.
#[derive(Drop)]
pub struct Gathered {
    pub pieces: Vec<Rows>,
    pub reads: Items<ShardRead>,
}

impl Gathered {
    // What the next shard gave.
    fn push(&mut self, alloc: Global, slot: usize, reading: Reading) -> Result<(), AllocError>
        ensures pieces { OnOk result (map ⟦<Rows as Operator>⟧.to_come self.new.pieces.items ≡ map ⟦<Rows as Operator>⟧.to_come self.old.pieces.items ++ reading.rows ∷ []) }
        ensures reads { OnOk result (self.new.reads ≡ self.old.reads ++ record { slot = slot; entries = reading.entries } ∷ []) }
    {
        self.pieces.push(Rows::new(alloc, reading.rows)?)?;
        self.reads.push(ShardRead {
            slot,
            entries: reading.entries,
        })?;
        Ok(())
    }
}

// The vindex column, where it alone is the primary key.
fn lone_key(table: &Table) -> Option<usize> {
    match (&table.vindex, table.primary_key.as_slice()) {
        (Some(vindex), [only]) if *only == vindex.column => Some(*only),
        _ => None,
    }
}

// How many rows a condition keeps at most, where it lists values of the vindex column and this alone is the primary key.
fn rows_by_key(table: &Table, condition: &Condition<usize>) -> usize {
    let Some(column) = lone_key(table) else {
        return usize::MAX;
    };
    match fixed_values(condition, column) {
        Some(Fixed::One(_)) => 1,
        Some(Fixed::Among(values)) => values.len(),
        None => usize::MAX,
    }
}

// How many rows a query of a table reads at most, as far as it tells by itself.
fn most_rows(table: &Table, query: &Query) -> usize {
    if query.join.is_some() {
        return usize::MAX;
    }
    match &query.filter {
        Some(condition) => rows_by_key(table, condition),
        None => rows_by_limit(query),
    }
}

/// What the part's shard is asked under this number, by a pass of its own.
fn job_for<'e, W: World, J: Naming>(
    alloc: Global,
    pass: &mut ShardPass<W, J>,
    turn: usize,
    part: &'e ShardReference<Shard<W, J>>,
    table: &Table,
    plan: &'e Plan,
) -> Result<ReadJob<'e, W, J>, AllocError>
    requires keyspace { part.now.2 ≡ table.now.keyspace }
    ensures same { pass.new ≡ pass.old }
    ensures turn { IfOk result (λ job. job.turn ≡ turn) }
    ensures asks { IfOk result (λ job. record { slot = job.shard.now.0; place = place_at job.shard.now; query = job.query; pass = job.pass } ≡ asked table.now plan.now pass.old.seen part.now) }
{
    let range = part.range();
    let pass = pass.split()?;
    match piece_for(alloc, table, plan, &range) {
        Ok(query) => Ok(ReadJob {
            turn,
            shard: part.shard(),
            most: most_rows(table, query.get()),
            query,
            pass,
        }),
        Err(_) => {
            drop(pass);
            Err(AllocError)
        }
    }
}

/// What the shards are asked that the plan needs, each under the next number and by a pass of its own.
pub fn jobs<'e, W: World, J: Naming>(
    alloc: Global,
    pass: &mut ShardPass<W, J>,
    parts: &'e [ShardReference<Shard<W, J>>],
    table: &Table,
    plan: &'e Plan,
) -> Result<Vec<ReadJob<'e, W, J>>, AllocError>
    requires keyspace { AreOf table.now.keyspace parts.now }
    ensures same { pass.new ≡ pass.old }
    ensures ok { IfOk result (λ jobs. map (λ job. record { slot = job.shard.now.0; place = place_at job.shard.now; query = job.query; pass = job.pass }) jobs.items ≡ all_asked table.now plan.now pass.old.seen parts.now) }
    ensures turns { IfOk result (λ jobs. AreConsecutive 0 (map (λ job. job.turn) jobs.items)) }
{
    // Most plans need one shard: no room is made for more at first.
    let mut jobs = Vec::with_capacity(alloc, 1)?;
    let id = single_id(table, &plan.route);
    for part in parts {
        if takes_by(table, &plan.route, &id, &part.range()) {
            let turn = jobs.len();
            jobs.push(job_for(alloc, pass, turn, part, table, plan)?)?;
        }
    }
    Ok(jobs)
}

// Whether a look left few rows to read: at most so many of each table.
fn is_small<W: World, J: Naming>(looked: &LookedJob<W, J>, most: usize) -> bool {
    if looked.most <= most {
        return true;
    }
    let Ok(begun) = &looked.begun else {
        return true;
    };
    let query = looked.query.get();
    if !begun.is_small(query.table, most) {
        return false;
    }
    match query.join {
        Some(join) => begun.is_small(join.table, most),
        None => true,
    }
}

// Whether each of these looks left few rows to read.
fn are_small<W: World, J: Naming>(looked: &[LookedJob<W, J>], most: usize) -> bool {
    for one in looked {
        if !is_small(one, most) {
            return false;
        }
    }
    true
}

// Whether each of these shards served at its look.
fn all_serve<W: World, J: Naming>(looked: &[LookedJob<W, J>]) -> bool {
    for one in looked {
        if !serves(&one.begun) {
            return false;
        }
    }
    true
}

// A shard's answer, read by this thread; or, if no rows are to be read, what its look came to.
fn read_one<W: World, J: Naming, G: Gate>(
    alloc: Global,
    gate: &G,
    looked: LookedJob<W, J>,
    reads: bool,
) -> ReadResult<W, J>
    ensures { IsFinishOf W.opening (record { slot = looked.entry.slot; query = looked.entry.query; pass = looked.entry.pass; begun = looked.entry.begun }) (record { slot = result.slot; pass = result.pass; outcome = result.outcome }) }
{
    if !reads {
        return leave(alloc, looked);
    }
    finish(alloc, gate, looked)
}

// Each shard's answer, read by this thread, one after the other; or, if no rows are to be read, what each look came to.
fn read_in_turn<W: World, J: Naming, G: Gate>(
    alloc: Global,
    gate: &G,
    looked: Vec<LookedJob<W, J>>,
    reads: bool,
) -> Result<Vec<ReadResult<W, J>>, AllocError>
    ensures ok { IfOk result (λ done. AllZip (λ l d. IsFinishOf W.opening (record { slot = l.slot; query = l.query; pass = l.pass; begun = l.begun }) (record { slot = d.slot; pass = d.pass; outcome = d.outcome })) looked.entry.items done.items) }
{
    let mut done = Vec::with_capacity(alloc, looked.len())?;
    for job in looked {
        done.push(read_one(alloc, gate, job, reads))?;
    }
    Ok(done)
}

// Each shard's answer, each read in a thread of its own where one can be started.
fn read_at_once<R: Threads + Wait + Sync, W: World + Send + Sync, J: Naming + Send + Sync, G: Gate>(
    rt: &R,
    alloc: Global,
    gate: &G,
    looked: Vec<LookedJob<W, J>>,
) -> Result<Vec<ReadResult<W, J>>, AllocError>
    ensures ok { IfOk result (λ done. AllZip (λ l d. IsFinishOf W.opening (record { slot = l.slot; query = l.query; pass = l.pass; begun = l.begun }) (record { slot = d.slot; pass = d.pass; outcome = d.outcome })) looked.entry.items done.items) }
{
    let done = thread::map_vec(
        rt,
        looked,
        &|job: LookedJob<W, J>| -> ReadResult<W, J>
            ensures { IsFinishOf W.opening (record { slot = job.entry.slot; query = job.entry.query; pass = job.entry.pass; begun = job.entry.begun }) (record { slot = result.slot; pass = result.pass; outcome = result.outcome }) }
        { finish(alloc, gate, job) },
    )?;
    Ok(done)
}

// Each shard's answer, of which so many are read at once, then the next ones.
fn read_some_at_once<
    R: Threads + Wait + Sync,
    W: World + Send + Sync,
    J: Naming + Send + Sync,
    G: Gate,
>(
    rt: &R,
    alloc: Global,
    gate: &G,
    looked: Vec<LookedJob<W, J>>,
    most: usize,
) -> Result<Vec<ReadResult<W, J>>, AllocError>
    ensures ok { IfOk result (λ done. AllZip (λ l d. IsFinishOf W.opening (record { slot = l.slot; query = l.query; pass = l.pass; begun = l.begun }) (record { slot = d.slot; pass = d.pass; outcome = d.outcome })) looked.entry.items done.items) }
{
    let mut done = Vec::with_capacity(alloc, looked.len())?;
    let mut next = Vec::new(alloc);
    for job in looked {
        next.push(job)?;
        if next.len() >= most {
            done.append(&mut read_at_once(rt, alloc, gate, next)?)?;
            next = Vec::new(alloc);
        }
    }
    done.append(&mut read_at_once(rt, alloc, gate, next)?)?;
    Ok(done)
}

// How many processors there are; 1 where the system doesn't say.
fn processors(rt: &impl Threads) -> usize {
    match thread::available_parallelism(rt) {
        Ok(count) => count.get(),
        Err(_) => 1,
    }
}

// Each shard's answer. If one of them doesn't serve, the query waits, and no rows are read for it. Answers of one shard, or of few rows each, are
// read by this thread; else as many at once as the gate says, each in a thread of its own where one can be started. Refuses only for want of memory.
fn read_looked<R: Threads + Wait + Sync, W: World + Send + Sync, J: Naming + Send + Sync, G: Gate>(
    rt: &R,
    alloc: Global,
    gate: &G,
    looked: Vec<LookedJob<W, J>>,
) -> Result<Vec<ReadResult<W, J>>, AllocError>
    ensures ok { IfOk result (λ done. AllZip (λ l d. IsFinishOf W.opening (record { slot = l.slot; query = l.query; pass = l.pass; begun = l.begun }) (record { slot = d.slot; pass = d.pass; outcome = d.outcome })) looked.entry.items done.items) }
{
    let reads = all_serve(looked.as_slice());
    if !reads || looked.len() < 2 || are_small(looked.as_slice(), gate.few_rows()) {
        return read_in_turn(alloc, gate, looked, reads);
    }
    let most = gate.most_at_once(processors(rt));
    if most < 2 {
        return read_in_turn(alloc, gate, looked, true);
    }
    read_some_at_once(rt, alloc, gate, looked, most)
}

/// Each shard's answer: all shards are looked at first, and then the rows of each are read. Refuses only for want of memory.
// Only the looks can meet a cutover, and they take microseconds. Once each shard served at its look, the answer is settled: what is read
// are the rows that the shard had at that look, which are those of a prefix of the run. They stay an answer if the shard is retired, or gives
// its rows up, while they are read. So a long read needn't start again because its shards move.
pub fn read_all<R: Threads + Wait + Sync, W: World + Send + Sync, J: Naming + Send + Sync, G: Gate>(
    rt: &R,
    alloc: Global,
    gate: &G,
    jobs: Vec<ReadJob<W, J>>,
) -> Result<Vec<ReadResult<W, J>>, AllocError>
    ensures ok { IfOk result (λ done. AllZip (λ job d. IsReadingOf W.opening (record { slot = job.shard.now.0; place = place_at job.shard.now; query = job.query; pass = job.pass }) (record { slot = d.slot; pass = d.pass; outcome = d.outcome })) jobs.entry.items done.items) }
{
    let looked = look_at_all(rt, alloc, jobs)?;
    let done = read_looked(rt, alloc, gate, looked)?;
    Ok(done)
}

// Whether one of these shards doesn't serve.
fn is_held_up<W: World, J: Naming>(done: &[ReadResult<W, J>]) -> bool {
    for one in done {
        if let Ok(ReadOutcome::NotServing) = one.outcome {
            return true;
        }
    }
    false
}

// Joins all that was seen up to the first shard that doesn't serve, and the looks. Refuses where each serves.
fn hold_up<W: World, J: Naming>(
    pass: &mut ShardPass<W, J>,
    done: Vec<ReadResult<W, J>>,
) -> Result<(), AllocError>
    requires legal { IsLegal (MayFollow W.opening) pass.old.seen }
    ensures gone { HasGone W.opening pass.old pass.new }
    ensures stalled { IfOk result (λ _. IsStalled (map (λ d. record { slot = d.slot; pass = d.pass; outcome = d.outcome }) done.items) pass.new) }
{
    for one in done {
        let ReadResult {
            pass: looked,
            outcome,
            ..
        } = one;
        pass.join(looked);
        match outcome {
            Ok(ReadOutcome::NotServing) => return Ok(()),
            Ok(ReadOutcome::Rows(reading)) => drop(reading),
            Err(_) => {}
        }
    }
    Err(AllocError)
}

// What the shards gave, each of which served, with all that their passes have seen and their looks joined into the session's pass.
fn join_all<W: World, J: Naming>(
    alloc: Global,
    pass: &mut ShardPass<W, J>,
    done: Vec<ReadResult<W, J>>,
) -> Result<Option<Gathered>, AllocError>
    requires legal { IsLegal (MayFollow W.opening) pass.old.seen }
    ensures gone { HasGone W.opening pass.old pass.new }
    ensures all { IfOk result (λ r. IfSome r (λ g. IsGathered W.opening (map (λ d. record { slot = d.slot; pass = d.pass; outcome = d.outcome }) done.items) pass.old pass.new)) }
    ensures pieces { IfOk result (λ r. IfSome r (λ g. map ⟦<Rows as Operator>⟧.to_come g.pieces.items ≡ map (λ d. outcome_rows d.outcome) done.items)) }
    ensures reads { IfOk result (λ r. IfSome r (λ g. g.reads ≡ map (λ d. record { slot = d.slot; entries = entries_in d.outcome }) done.items)) }
    ensures stalled { IfOk result (λ r. IfNone r (IsStalled (map (λ d. record { slot = d.slot; pass = d.pass; outcome = d.outcome }) done.items) pass.new)) }
{
    let mut gathered = Gathered {
        pieces: Vec::new(alloc),
        reads: Items::new(alloc),
    };
    for one in done {
        let ReadResult {
            slot,
            pass: other,
            outcome,
        } = one;
        pass.join(other);
        match outcome {
            Ok(ReadOutcome::Rows(reading)) => gathered.push(alloc, slot, reading)?,
            Ok(ReadOutcome::NotServing) => return Ok(None),
            Err(refused) => return Err(refused),
        }
    }
    Ok(Some(gathered))
}

/// What the shards gave, with all that their passes have seen and their looks joined into the session's pass; nothing where one of them
/// doesn't serve. Refuses only for want of memory, a shard's too.
pub fn gather<W: World, J: Naming>(
    alloc: Global,
    pass: &mut ShardPass<W, J>,
    done: Vec<ReadResult<W, J>>,
) -> Result<Option<Gathered>, AllocError>
    requires legal { IsLegal (MayFollow W.opening) pass.old.seen }
    ensures gone { HasGone W.opening pass.old pass.new }
    ensures all { IfOk result (λ r. IfSome r (λ g. IsGathered W.opening (map (λ d. record { slot = d.slot; pass = d.pass; outcome = d.outcome }) done.items) pass.old pass.new)) }
    ensures pieces { IfOk result (λ r. IfSome r (λ g. map ⟦<Rows as Operator>⟧.to_come g.pieces.items ≡ map (λ d. outcome_rows d.outcome) done.items)) }
    ensures reads { IfOk result (λ r. IfSome r (λ g. g.reads ≡ map (λ d. record { slot = d.slot; entries = entries_in d.outcome }) done.items)) }
    ensures stalled { IfOk result (λ r. IfNone r (IsStalled (map (λ d. record { slot = d.slot; pass = d.pass; outcome = d.outcome }) done.items) pass.new)) }
{
    if is_held_up(done.as_slice()) {
        hold_up(pass, done)?;
        return Ok(None);
    }
    join_all(alloc, pass, done)
}

/// The rows that a shard gave alone, and what the reply says of it.
#[derive(Drop)]
pub struct GatheredAlone {
    pub rows: Items<Row>,
    pub reads: Items<ShardRead>,
}

/// What the part's shard gives for a query, read by the pass itself, and nothing if it doesn't serve. A pass that is split off for a reading adds a
/// handle on what all sessions share, so a shard that is read alone is read without one. Refuses only for want of memory.
pub fn read_alone<W: World, J: Naming, G: Gate>(
    rt: &impl Wait,
    alloc: Global,
    gate: &G,
    pass: &mut ShardPass<W, J>,
    part: &ShardReference<Shard<W, J>>,
    query: &Query,
) -> Result<Option<GatheredAlone>, AllocError>
    requires legal { IsLegal (MayFollow W.opening) pass.old.seen }
    ensures looked { HasLooked W.opening part.now.0 pass.old pass.new }
    ensures ok { IfOk result (λ r. IfSome r (λ g. (t : WrittenTable) (plan : WrittenPlan) (seats : List Seat) → IsPieceAlone t plan seats part.now query.now
        → IsScattered W.opening t plan pass.old (g.rows ∷ []) g.reads pass.new)) }
    ensures stalled { IfOk result (λ r. IfNone r ((t : WrittenTable) (plan : WrittenPlan) (seats : List Seat) → IsPieceAlone t plan seats part.now query.now
        → IsHeldUp W.opening t plan.route answers_queries pass.old.seen pass.new.seen seats)) }
{
    let shard = shard_of(part);
    let slot = shard.slot();
    gate.before(0);
    let outcome = shard.read(rt, alloc, pass, query);
    gate.after(0);
    match outcome {
        Ok(ReadOutcome::Rows(reading)) => {
            let Reading { rows, entries } = reading;
            let mut reads = Items::from_vec(Vec::with_capacity(alloc, 1)?);
            reads.push(ShardRead { slot, entries })?;
            Ok(Some(GatheredAlone { rows, reads }))
        }
        Ok(ReadOutcome::NotServing) => Ok(None),
        Err(refused) => Err(refused),
    }
}
