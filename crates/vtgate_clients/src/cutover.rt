//! When each part of a cutover came, as a thread sees it that looks again and again while one is under way.

use crate::events;
use crate::progress::ServeProgress;
use crate::statements::sharded_partitions;
use buffer::Buffer;
use journal::Naming;
use log::Log;
use serving::{Serving, ShardReference};
use session::{Engine, Gate};
use shard::{Shard, World};
use shard_run::Mode;
use std::sync::Wait;
use std::thread;
use std::time::{Clock, Duration, Instant};

/// How much time lies between two looks, in microseconds.
const BETWEEN_LOOKS: u64 = 100;

/// How long after the line that asked for it each part of a cutover was first seen, and how many statements waited.
#[derive(Clone, Copy)]
pub struct Times {
    /// A source took no more commits.
    pub froze: Option<Duration>,
    /// A source answered no more queries either.
    pub retired: Option<Duration>,
    /// The partition had changed.
    pub published: Option<Duration>,
    /// The statements that had waited went on.
    pub released: Option<Duration>,
    /// The most statements that waited at one time, and when the first was seen.
    pub waited: u64,
    pub first_waited: Option<Duration>,
}

// Notes a time, unless one was noted before.
fn note(time: &mut Option<Duration>, is_seen: bool, now: Duration) {
    if is_seen && time.is_none() {
        *time = Some(now);
    }
}

impl Times {
    fn new() -> Times {
        Times {
            froze: None,
            retired: None,
            published: None,
            released: None,
            waited: 0,
            first_waited: None,
        }
    }

    fn note_modes(&mut self, modes: Modes, now: Duration) {
        note(&mut self.froze, modes.is_frozen || modes.is_retired, now);
        note(&mut self.retired, modes.is_retired, now);
    }

    fn note_waiting(&mut self, waiting: u64, now: Duration) {
        note(&mut self.first_waited, waiting > 0, now);
        if waiting > self.waited {
            self.waited = waiting;
        }
    }

    // Whether anything was seen.
    fn is_cutover(&self) -> bool {
        self.froze.is_some() || self.published.is_some()
    }

    /// How long the first statement waited that was seen waiting, at least.
    pub fn longest(&self) -> Duration {
        match (self.first_waited, self.released) {
            (Some(first), Some(released)) => released.saturating_sub(first),
            _ => Duration::ZERO,
        }
    }
}

/// Whether any shard of a partition is frozen, and whether any is retired.
#[derive(Clone, Copy)]
struct Modes {
    is_frozen: bool,
    is_retired: bool,
}

// The modes of shards, each locked for a moment.
fn modes_of<W: World, J: Naming, R: Wait>(rt: &R, parts: &[ShardReference<Shard<W, J>>]) -> Modes {
    let mut modes = Modes {
        is_frozen: false,
        is_retired: false,
    };
    for part in parts {
        match part.shard().lock(rt).mode() {
            Mode::Frozen => modes.is_frozen = true,
            Mode::Retired | Mode::Dropped => modes.is_retired = true,
            Mode::Following | Mode::Serving => {}
        }
    }
    modes
}

// Whether these are the parts of one partition: another has other shards.
fn are_same<W: World, J: Naming>(
    parts: &[ShardReference<Shard<W, J>>],
    others: &[ShardReference<Shard<W, J>>],
) -> bool {
    for (part, other) in parts.iter().zip(others) {
        if part.slot() != other.slot() {
            return false;
        }
    }
    parts.len() == others.len()
}

/// How it was before a cutover: the parts of the partition that served, and how many releases there were.
#[derive(Drop)]
struct Before<'b, W: World, J: Naming> {
    parts: &'b [ShardReference<Shard<W, J>>],
    releases: u64,
}

// One look.
fn look<W: World, J: Naming, R: Wait>(
    rt: &R,
    serving: &Serving<Shard<W, J>>,
    buffer: &Buffer,
    before: &Before<'_, W, J>,
    now: Duration,
    times: &mut Times,
) {
    times.note_waiting(buffer.waiting(rt), now);
    times.note_modes(modes_of(rt, before.parts), now);
    let is_published = !are_same(serving.current().parts(), before.parts);
    note(&mut times.published, is_published, now);
    note(
        &mut times.released,
        buffer.releases(rt) > before.releases,
        now,
    );
}

// Looks until no cutover is under way.
fn times_of<W: World, J: Naming, R: Wait + Clock>(
    rt: &R,
    serving: &Serving<Shard<W, J>>,
    buffer: &Buffer,
    progress: &ServeProgress,
) -> Times {
    let before = Before {
        parts: serving.current().parts(),
        releases: buffer.releases(rt),
    };
    let start = Instant::now(rt).ok();
    let mut times = Times::new();
    for _ in rt.forever() {
        let is_last = !progress.is_switching() || !progress.is_under_way();
        let now = events::time_since(rt, start);
        look(rt, serving, buffer, &before, now, &mut times);
        progress.see_switch();
        if is_last {
            return times;
        }
        let _ = thread::sleep(rt, Duration::from_micros(BETWEEN_LOOKS));
    }
    unreachable!()
}

/// Logs the times of a cutover, if one comes before the line that may ask for it is answered.
pub fn watch<W: World + Send + Sync, J: Naming + Send + Sync, G: Gate, R: Wait + Clock + Log>(
    rt: &R,
    engine: &Engine<W, J, G>,
    progress: &ServeProgress,
) {
    let Some(serving) = sharded_partitions(engine) else {
        return;
    };
    let times = times_of(rt, serving, engine.buffer(), progress);
    if times.is_cutover() {
        events::cut_over(rt, times);
    }
}
