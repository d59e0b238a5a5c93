//! A world: a router over two shards without rows, eight sessions in threads of their own, and the administrator.
ghost use denote.Param.Send.{IsSend, IsSync};
ghost use Rattle.std.specs.Prelude.{◌≡◌, IsTrue};
ghost use Rattle.vschema.specs.WellFormed.{is_vschema};
ghost use Rattle.shard_contents.specs.Entries.{most_limits};
ghost use Rattle.shard_run.specs.opening.Empty.{opening_of, sharded_keyspace, FitRanges};
ghost use Rattle.admin.specs.AdminAnswers.{keyspace_of};

use crate::soak::controller::Controller;
use crate::soak::lines::Done;
use crate::soak::session::{Client, Session, work};
use crate::soak::watch::Watch;
use crate::soak_model::{SessionModel, SoakFault, Tally};
use admin::{Administrator, Engine, Open, administered_router, widest_limits};
use journal::{Naming, Opened, Opener};
use keyrange::KeyRange;
use rand_pcg::Pcg32;
use shard_calls::{ShardLaw, ShardPass, World};
use shard_run::opening::ranges_fit;
use std::alloc::{AllocError, Global};
use std::marker::Brand;
use std::sync::Wait;
use std::sync::atomic::AtomicU64;
use std::thread::{Threads, join, map_vec};
use std::time::Clock;
use vschema::VSchema;
use vt_value::Refusal;

/// The sharded keyspace `shop` with a table for each two sessions.
const SHOP: &str =
    r#"{"keyspaces":{"shop":{"sharded":true,"vindexes":{"rev":{"type":"reverse_bits"}},"tables":{
 "t0":{"columns":[{"name":"id","type":"BIGINT UNSIGNED"},{"name":"c","type":"BIGINT UNSIGNED"}],"primary_key":["id"],"column_vindexes":[{"column":"id","name":"rev"}]},
 "t1":{"columns":[{"name":"id","type":"BIGINT UNSIGNED"},{"name":"c","type":"BIGINT UNSIGNED"}],"primary_key":["id"],"column_vindexes":[{"column":"id","name":"rev"}]},
 "t2":{"columns":[{"name":"id","type":"BIGINT UNSIGNED"},{"name":"c","type":"BIGINT UNSIGNED"}],"primary_key":["id"],"column_vindexes":[{"column":"id","name":"rev"}]},
 "t3":{"columns":[{"name":"id","type":"BIGINT UNSIGNED"},{"name":"c","type":"BIGINT UNSIGNED"}],"primary_key":["id"],"column_vindexes":[{"column":"id","name":"rev"}]}}}}}"#;

/// How many sessions there are.
const SESSIONS: u64 = 8;

/// So many statements may wait for a cutover: less than there are sessions, so that some are refused.
const WAITING: u64 = 5;

/// What a world begins with.
#[derive(Clone, Copy)]
pub struct Plan<'s> {
    pub seed: u64,
    /// Whether each step of a cutover is a line of its own.
    pub by_step: bool,
    pub watch: Watch<'s>,
}

// The clients of a world.
fn open_clients<W: World + Send + Sync, J: Naming + Send + Sync, R: Wait + Clock>(
    controller: &mut Controller<'_, W, J, R>,
    opener: &mut Opener<ShardLaw<W>, J>,
    seed: u64,
) -> Result<Vec<Client<W, J>>, Refusal> {
    let mut clients = Vec::new(controller.alloc);
    for number in 0..SESSIONS {
        clients.push(controller.client(opener, SessionModel::new(number, seed))?)?;
    }
    Ok(clients)
}

// All clients' sessions, each in a thread of its own.
fn run_sessions<
    'e,
    W: World + Send + Sync,
    J: Naming + Send + Sync,
    R: Threads + Wait + Clock + Sync,
>(
    rt: &'e R,
    alloc: Global,
    engine: &'e Engine<W, J, Open>,
    watch: Watch<'e>,
    clients: Vec<Client<W, J>>,
) -> Result<Vec<SessionModel>, AllocError> {
    map_vec(
        rt,
        clients,
        &move |client: Client<W, J>| work(rt, alloc, engine, watch, client),
    )
}

// The sessions, and with them the administrator.
fn run_with<W: World + Send + Sync, J: Naming + Send + Sync, R: Threads + Wait + Clock + Sync>(
    controller: &mut Controller<'_, W, J, R>,
    clients: Vec<Client<W, J>>,
) -> (Result<Vec<SessionModel>, AllocError>, Result<(), SoakFault>) {
    let rt = controller.rt;
    let alloc = controller.alloc;
    let engine = controller.engine;
    let watch = controller.watch;
    join(
        rt,
        move || -> Result<Vec<SessionModel>, AllocError>
            requires { IsSync R.row × IsSend W.row × IsSync W.row × IsSend J.row × IsSync J.row }
        { run_sessions(rt, alloc, engine, watch, clients) },
        move || -> Result<(), SoakFault>
            requires { IsSync R.row × IsSend W.row × IsSync W.row × IsSend J.row × IsSync J.row }
        { controller.run() },
    )
}

// Adds what all sessions have counted, and returns how many entries they made, or a fault that one has found.
fn sum(books: &[SessionModel], tally: &mut Tally) -> Result<u64, SoakFault> {
    let mut made = Ok(0);
    for book in books {
        tally.add(&book.tally);
        made = match (made, book.ended) {
            (Ok(made), Ok(())) => Ok(book.tally.entries.wrapping_add(made)),
            (Err(fault), _) | (_, Err(fault)) => Err(fault),
        };
    }
    made
}

// The rows are those of the models, for a session that begins after their end.
fn check_rows<W: World + Send + Sync, J: Naming + Send + Sync, R: Threads + Wait + Clock + Sync>(
    controller: &mut Controller<'_, W, J, R>,
    opener: &mut Opener<ShardLaw<W>, J>,
    books: &[SessionModel],
) -> Result<(), SoakFault> {
    let client = controller.client(opener, SessionModel::new(SESSIONS, 0))?;
    let mut last = Session::new(
        controller.rt,
        controller.alloc,
        controller.engine,
        controller.watch,
        client,
    );
    last.check(books)
}

// The end of a world: it is counted, and checked if nobody has found a fault.
fn end<W: World + Send + Sync, J: Naming + Send + Sync, R: Threads + Wait + Clock + Sync>(
    controller: &mut Controller<'_, W, J, R>,
    opener: &mut Opener<ShardLaw<W>, J>,
    books: &[SessionModel],
    administered: Result<(), SoakFault>,
    tally: &mut Tally,
) -> Result<(), SoakFault> {
    tally.add(&controller.done.tally);
    let made = sum(books, tally)?;
    administered?;
    controller.check_entries(made)?;
    check_rows(controller, opener, books)
}

// The world's sessions, its threads, and its end.
fn play_by<W: World + Send + Sync, J: Naming + Send + Sync, R: Threads + Wait + Clock + Sync>(
    controller: &mut Controller<'_, W, J, R>,
    opener: &mut Opener<ShardLaw<W>, J>,
    seed: u64,
    tally: &mut Tally,
) -> Result<(), SoakFault> {
    let clients = open_clients(controller, opener, seed)?;
    let (books, administered) = run_with(controller, clients);
    match books {
        Ok(books) => end(controller, opener, books.as_slice(), administered, tally),
        Err(_) => Err(SoakFault::Memory),
    }
}

// The world over a new engine.
fn play_opened<
    'e,
    W: World + Send + Sync,
    J: Naming + Send + Sync,
    R: Threads + Wait + Clock + Sync,
>(
    rt: &'e R,
    alloc: Global,
    engine: &'e Engine<W, J, Open>,
    administrator: Administrator<W, J>,
    opener: &mut Opener<ShardLaw<W>, J>,
    first: ShardPass<W, J>,
    plan: Plan<'_>,
    stopped: &'e AtomicU64,
    tally: &mut Tally,
) -> Result<(), SoakFault>
    requires home { keyspace_of administrator ≡ sharded_keyspace engine.now }
{
    let mut controller = Controller {
        rt,
        alloc,
        engine,
        watch: Watch {
            stopped,
            ..plan.watch
        },
        administrator,
        pass: first,
        shards: Vec::new(alloc),
        choices: Pcg32::new(plan.seed, SESSIONS),
        by_step: plan.by_step,
        turn: 0,
        done: Done::new(),
    };
    play_by(&mut controller, opener, plan.seed, tally)
}

fn play_over<W: World + Send + Sync, J: Naming + Send + Sync, R: Threads + Wait + Clock + Sync>(
    rt: &R,
    alloc: Global,
    schema: VSchema,
    ranges: &[KeyRange],
    opened: Opened<ShardLaw<W>>,
    plan: Plan<'_>,
    tally: &mut Tally,
) -> Result<(), SoakFault>
    requires name { opened ≡ J.table }
    requires opening { W.opening ≡ opening_of schema ranges.now }
    requires limits { W.limits ≡ most_limits }
    requires schema { IsTrue (is_vschema schema) }
    requires ranges { FitRanges schema ranges.now }
{
    let limits = widest_limits();
    match administered_router::<W, J, Open>(alloc, schema, ranges, limits, opened, WAITING, Open) {
        Ok((engine, administrator, mut opener, first)) => {
            play_opened(
                rt,
                alloc,
                &engine,
                administrator,
                &mut opener,
                first,
                plan,
                plan.watch.stopped,
                tally,
            )
        }
        Err(_) => Err(SoakFault::Memory),
    }
}

// Plays over a router of this VSchema and these ranges, whose tables are empty.
fn play_in_world<W: World + Send + Sync, R: Threads + Wait + Clock + Sync>(
    rt: &R,
    alloc: Global,
    schema: VSchema,
    ranges: &[KeyRange],
    plan: Plan<'_>,
    tally: &mut Tally,
) -> Result<(), SoakFault>
    requires opening { W.opening ≡ opening_of schema ranges.now }
    requires limits { W.limits ≡ most_limits }
    requires schema { IsTrue (is_vschema schema) }
    requires ranges { FitRanges schema ranges.now }
{
    match Opened::<ShardLaw<W>>::new(alloc) {
        Ok(opened) => play_over::<W, Brand, R>(rt, alloc, schema, ranges, opened, plan, tally),
        Err(_) => Err(SoakFault::Memory),
    }
}

/// Runs a world until its slots are used up, the seconds are over or something differs, counts what was done, and checks its end.
pub fn play<R: Threads + Wait + Clock + Sync>(
    rt: &R,
    alloc: Global,
    plan: Plan<'_>,
    tally: &mut Tally,
) -> Result<(), SoakFault> {
    let (Ok(schema), Some(low), Some(high)) = (
        VSchema::read(alloc, SHOP),
        KeyRange::read("-80"),
        KeyRange::read("80-"),
    ) else {
        return Err(SoakFault::Memory);
    };
    let ranges = [low, high];
    match ranges_fit(alloc, &schema, &ranges) {
        Ok(true) => play_in_world::<Brand, R>(rt, alloc, schema, &ranges, plan, tally),
        _ => Err(SoakFault::Memory),
    }
}
