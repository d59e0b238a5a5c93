//! Scenes, played over a router of their own.
ghost use denote.Param.Send.{IsSend, IsSync};
ghost use Rattle.std.specs.Prelude.{◌≡◌, ◌≤◌, ◌^◌, IsTrue};
ghost use Rattle.vschema.specs.WellFormed.{is_vschema};
ghost use Rattle.shard_run.specs.opening.Empty.{opening_of, sharded_keyspace, FitRanges};
ghost use Rattle.admin.specs.AdminAnswers.{keyspace_of};

use crate::router::acts::{Act, ThirdStatement};
use crate::router::common::SHOP;
use crate::router::gate::{HoldsFirst, Signals, is_given};
use crate::router::scene_schema::{halves, read_schema};
use crate::router::session::Session;
use crate::router::stage::{Stage, ask, play_locked};
use admin::{Administrator, Engine, administered_router};
use journal::{Naming, Opened, Opener};
use keyrange::KeyRange;
use shard_calls::{Limits, MOST_ROWS, MOST_STORED, ShardLaw, ShardPass, World};
use std::alloc::Global;
use std::marker::Brand;
use std::sync::{Arc, Wait};
use std::thread::{Threads, join};
use vschema::VSchema;
use vt_value::Refusal;

/// Acts over a VSchema and two shards without rows, part by part, and what a third session asks meanwhile.
#[derive(Clone, Copy)]
pub struct Scene<'t> {
    pub schema: &'t str,
    /// Each shard may have so many rows, at most 2^20.
    pub rows: u64,
    /// So many statements may wait in the buffer.
    pub buffer: u64,
    /// Whether a thread holds the lock of the first shard from the beginning.
    pub locked: bool,
    pub asked: ThirdStatement,
    pub acts: &'t [&'t [Act<'t>]],
}

/// How a scene went.
#[derive(Clone, Copy, PartialEq, Eq)]
pub struct Played {
    /// The first act that didn't give what it was to give: the number of its part, and its position there.
    pub wrong: Option<(usize, usize)>,
    /// What the third session was answered.
    pub told: Result<u64, Refusal>,
    /// What was held went on without leave.
    pub in_vain: bool,
}

impl Played {
    /// Each act is right, and the third session is answered this.
    pub fn right(told: u64) -> Played {
        Played {
            wrong: None,
            told: Ok(told),
            in_vain: false,
        }
    }
}

// The acts, and with them the third session in a thread of its own.
fn play_with<W: World + Send + Sync, J: Naming + Send + Sync, R: Threads + Wait + Sync>(
    rt: &R,
    stage: &mut Stage<'_, W, J, R>,
    third: Session<'_, W, J, R>,
    signals: &Signals,
    scene: &Scene<'_>,
) -> Played {
    let Scene {
        locked,
        asked,
        acts,
        ..
    } = *scene;
    let (told, wrong) = join(
        rt,
        move || -> Result<u64, Refusal>
            requires { IsSync R.row × IsSend W.row × IsSync W.row × IsSend J.row × IsSync J.row }
        { ask(third, signals, asked) },
        move || -> Option<(usize, usize)>
            requires { IsSync R.row × IsSend W.row × IsSync W.row × IsSend J.row × IsSync J.row }
        {
            if locked {
                play_locked(stage, acts)
            } else {
                stage.play(acts)
            }
        },
    );
    Played {
        wrong,
        told,
        in_vain: is_given(&signals.in_vain),
    }
}

// The sessions come, and the scene is played.
fn play_on<W: World + Send + Sync, J: Naming + Send + Sync, R: Threads + Wait + Sync>(
    stage: &mut Stage<'_, W, J, R>,
    opener: &mut Opener<ShardLaw<W>, J>,
    scene: &Scene<'_>,
) -> Result<Played, Refusal> {
    stage.open(opener)?;
    let third = stage.session(opener)?;
    let (rt, signals) = (stage.rt, stage.signals);
    Ok(play_with(rt, stage, third, signals, scene))
}

// The scene over a new engine.
fn play_opened<'e, W: World + Send + Sync, J: Naming + Send + Sync, R: Threads + Wait + Sync>(
    rt: &'e R,
    alloc: Global,
    engine: &'e Engine<W, J, HoldsFirst>,
    administrator: Administrator<W, J>,
    opener: &mut Opener<ShardLaw<W>, J>,
    admin: ShardPass<W, J>,
    signals: &'e Signals,
    scene: &Scene<'_>,
) -> Result<Played, Refusal>
    requires home { keyspace_of administrator ≡ sharded_keyspace engine.now }
{
    let mut stage = Stage {
        rt,
        alloc,
        engine,
        signals,
        administrator,
        admin,
        sessions: Vec::new(alloc),
        last: None,
    };
    play_on(&mut stage, opener, scene)
}

fn play_over<W: World + Send + Sync, J: Naming + Send + Sync, R: Threads + Wait + Sync>(
    rt: &R,
    alloc: Global,
    schema: VSchema,
    ranges: &[KeyRange],
    limits: Limits,
    opened: Opened<ShardLaw<W>>,
    gate: HoldsFirst,
    signals: &Signals,
    scene: &Scene<'_>,
) -> Result<Played, Refusal>
    requires name { opened ≡ J.table }
    requires opening { W.opening ≡ opening_of schema ranges.now }
    requires limits { W.limits ≡ limits }
    requires most_rows { limits.rows ≤ 2 ^ 20 }
    requires most_stored { limits.stored ≤ 2 ^ 20 }
    requires schema { IsTrue (is_vschema schema) }
    requires ranges { FitRanges schema ranges.now }
{
    let buffer = scene.buffer;
    match administered_router::<W, J, HoldsFirst>(
        alloc, schema, ranges, limits, opened, buffer, gate,
    ) {
        Ok((engine, administrator, mut opener, admin)) => {
            play_opened(
                rt,
                alloc,
                &engine,
                administrator,
                &mut opener,
                admin,
                signals,
                scene,
            )
        }
        Err(_) => Err(Refusal::OutOfMemory),
    }
}

// Plays a scene over a router of this VSchema and these ranges, whose tables are empty.
fn play_in_world<W: World + Send + Sync, R: Threads + Wait + Sync>(
    rt: &R,
    alloc: Global,
    schema: VSchema,
    ranges: &[KeyRange],
    limits: Limits,
    gate: HoldsFirst,
    signals: &Signals,
    scene: &Scene<'_>,
) -> Result<Played, Refusal>
    requires opening { W.opening ≡ opening_of schema ranges.now }
    requires limits { W.limits ≡ limits }
    requires most_rows { limits.rows ≤ 2 ^ 20 }
    requires most_stored { limits.stored ≤ 2 ^ 20 }
    requires schema { IsTrue (is_vschema schema) }
    requires ranges { FitRanges schema ranges.now }
{
    match Opened::<ShardLaw<W>>::new(alloc) {
        Ok(opened) => {
            play_over::<W, Brand, R>(
                rt, alloc, schema, ranges, limits, opened, gate, signals, scene,
            )
        }
        Err(refusal) => Err(refusal),
    }
}

// Limits of shards that may have so many rows, but no more than any.
fn limits_of(rows: u64) -> Limits
    ensures rows { result.rows ≤ 2 ^ 20 }
    ensures stored { result.stored ≤ 2 ^ 20 }
{
    Limits {
        rows: rows.min(MOST_ROWS),
        stored: MOST_STORED,
    }
}

// Plays a scene with this gate and these signals.
fn play_by<R: Threads + Wait + Sync>(
    rt: &R,
    alloc: Global,
    gate: HoldsFirst,
    signals: &Signals,
    scene: &Scene<'_>,
) -> Result<Played, Refusal> {
    let Some(ranges) = halves() else {
        return Err(Refusal::SyntaxError);
    };
    match read_schema(alloc, scene.schema, &ranges) {
        Ok(schema) => {
            let limits = limits_of(scene.rows);
            play_in_world::<Brand, R>(rt, alloc, schema, &ranges, limits, gate, signals, scene)
        }
        Err(refusal) => Err(refusal),
    }
}

/// Plays a scene over a router of its own, with the shards `-80` and `80-` of its sharded keyspace.
pub fn play<R: Threads + Wait + Sync>(
    rt: &R,
    alloc: Global,
    scene: &Scene<'_>,
) -> Result<Played, Refusal> {
    let signals = Arc::new(alloc, Signals::new())?;
    let gate = HoldsFirst {
        signals: Arc::try_clone(&signals)?,
    };
    play_by(rt, alloc, gate, &signals, scene)
}

/// Whether the acts give what they are to give, if the third session asks nothing and nobody may wait.
pub fn plays_alone<R: Threads + Wait + Sync>(
    rt: &R,
    alloc: Global,
    schema: &str,
    acts: &[&[Act<'_>]],
) -> Result<bool, Refusal> {
    plays_within(rt, alloc, schema, MOST_ROWS, acts)
}

/// Plays acts as `plays_alone` does, over shards that may have so many rows each.
pub fn plays_within<R: Threads + Wait + Sync>(
    rt: &R,
    alloc: Global,
    schema: &str,
    rows: u64,
    acts: &[&[Act<'_>]],
) -> Result<bool, Refusal> {
    let scene = Scene {
        schema,
        rows,
        buffer: 0,
        locked: false,
        asked: ThirdStatement::Nothing,
        acts,
    };
    Ok(play(rt, alloc, &scene)? == Played::right(0))
}

/// Whether they do in the shop, if one statement may wait, and the third session, with them, is answered this.
pub fn plays_with<R: Threads + Wait + Sync>(
    rt: &R,
    alloc: Global,
    acts: &[&[Act<'_>]],
    asked: ThirdStatement,
    told: u64,
) -> Result<bool, Refusal> {
    let scene = Scene {
        schema: SHOP,
        rows: MOST_ROWS,
        buffer: 1,
        locked: false,
        asked,
        acts,
    };
    Ok(play(rt, alloc, &scene)? == Played::right(told))
}
