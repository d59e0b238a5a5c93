//! What the shards hold, and how much of their limits is left.

use crate::events::Held;
use crate::progress::ServeProgress;
use crate::{cutover, events};
use journal::{Naming, SLOTS};
use log::{Level, Log, log_enabled};
use serving::{Seated, ShardReference};
use session::{Engine, Gate};
use shard::{MOST_ROWS, MOST_STORED, Shard, World};
use shard_run::Mode;
use std::sync::Wait;
use std::time::{Clock, Duration, Instant};

/// How much time lies between two censuses, in seconds, and between two looks whether all is served, in milliseconds.
const BETWEEN: u64 = 60;

const BETWEEN_LOOKS: u64 = 100;

/// The hundredths of a limit at which a warning is logged, once for each shard.
const NEARLY_FULL: u64 = 80;

const ALMOST_FULL: u64 = 95;

/// The highest of these hundredths that was logged, by slot.
#[derive(Drop)]
pub struct Marks {
    logged: [u64; SLOTS],
}

// How many hundredths of a limit that is.
fn hundredths(count: u64, limit: u64) -> u64 {
    match count.saturating_mul(100).checked_div(limit) {
        Some(hundredths) => hundredths,
        None => 100,
    }
}

// The mark that is reached, 0 if none is.
fn mark_of(held: &Held<'_>) -> u64 {
    let full = hundredths(held.rows, MOST_ROWS).max(hundredths(held.entries, MOST_STORED));
    if full >= ALMOST_FULL {
        ALMOST_FULL
    } else if full >= NEARLY_FULL {
        NEARLY_FULL
    } else {
        0
    }
}

impl Marks {
    /// None was logged yet.
    pub fn new() -> Marks {
        Marks { logged: [0; SLOTS] }
    }

    /// Each was logged.
    pub fn all() -> Marks {
        Marks {
            logged: [ALMOST_FULL; SLOTS],
        }
    }

    // Whether a shard has reached a mark that wasn't logged of it. Then it counts as logged.
    fn is_new(&mut self, held: &Held<'_>) -> bool {
        let mark = mark_of(held);
        match self.logged.get_mut(held.slot) {
            Some(logged) if mark > *logged => {
                *logged = mark;
                true
            }
            _ => false,
        }
    }
}

// What a shard holds that serves; none of one that was retired meanwhile.
fn held_by<'a, W: World + Send + Sync, J: Naming + Send + Sync, R: Wait>(
    rt: &R,
    keyspace: &'a [u8],
    part: &ShardReference<Shard<W, J>>,
) -> Option<Held<'a>> {
    let state = part.shard().lock(rt);
    let is_frozen = match state.mode() {
        Mode::Serving => false,
        Mode::Frozen => true,
        _ => return None,
    };
    Some(Held {
        keyspace,
        range: part.range(),
        slot: state.slot(),
        is_frozen,
        rows: state.rows(),
        entries: state.stored(),
    })
}

// Logs what the shards of a keyspace hold, and a warning of each that has reached a mark.
fn tell_keyspace<W: World + Send + Sync, J: Naming + Send + Sync, R: Wait + Log>(
    rt: &R,
    keyspace: &[u8],
    parts: &[ShardReference<Shard<W, J>>],
    marks: &mut Marks,
) {
    for part in parts {
        if let Some(held) = held_by(rt, keyspace, part) {
            events::holds(rt, &held);
            if marks.is_new(&held) {
                events::nearly_full(rt, &held);
            }
        }
    }
}

/// Logs what each shard holds, and a warning of each that has reached a mark which wasn't logged. Locks one shard after the other.
pub fn tell_all<W: World + Send + Sync, J: Naming + Send + Sync, G: Gate, R: Wait + Log>(
    rt: &R,
    engine: &Engine<W, J, G>,
    marks: &mut Marks,
) {
    for (place, keyspace) in engine.schema().keyspaces.as_slice().iter().enumerate() {
        if let Some(serving) = engine.partitions(place) {
            tell_keyspace(
                rt,
                keyspace.name.as_slice(),
                serving.current().parts(),
                marks,
            );
        }
    }
}

/// Logs what each shard holds once a minute, and each cutover, until the last connection is served.
pub fn watch<W: World + Send + Sync, J: Naming + Send + Sync, G: Gate, R: Wait + Clock + Log>(
    rt: &R,
    engine: &Engine<W, J, G>,
    progress: &ServeProgress,
) {
    if tells_each(rt) {
        progress.begin_watch();
    }
    let mut marks = Marks::new();
    let mut last = Instant::now(rt).ok();
    for _ in rt.forever() {
        if !progress.is_under_way() {
            return;
        }
        progress.wait_for_switch(rt, Duration::from_millis(BETWEEN_LOOKS));
        if progress.is_switching() {
            cutover::watch(rt, engine, progress);
        }
        if events::since(rt, last).is_at_least(BETWEEN) {
            tell_all(rt, engine, &mut marks);
            last = Instant::now(rt).ok();
        }
    }
    unreachable!()
}

/// Whether any of this is logged.
pub fn is_logged<R: Log>(rt: &R) -> bool {
    log_enabled!(rt; Level::Warn)
}

/// Whether it is logged what shards hold that have room.
pub fn tells_each<R: Log>(rt: &R) -> bool {
    log_enabled!(rt; Level::Info)
}
