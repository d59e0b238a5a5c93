//! Reads of two shards that a gate holds: a scatter's reads are made at once, and no lock but a shard's own is held over a statement.
use crate::router::acts::{Act, ThirdStatement};
use crate::router::common::{ALL, EVEN, ODD, SEVEN, SHOP};
use crate::router::scenes::{Played, Scene, play, plays_alone};
use shard_calls::MOST_ROWS;
use std::alloc::Global;
use std::sync::Wait;
use std::thread::Threads;
use vt_value::Refusal;

// The read of the first shard is held until that of the second was answered.
const SCATTER: [Act<'static>; 5] = [
    EVEN,
    ODD,
    Act::ArmUntilSecond,
    Act::One(ALL, Ok(6)),
    Act::Held,
];

pub(crate) fn scatter_reads_in_turn_would_wait<R: Threads + Wait + Sync>(
    rt: &R,
    alloc: Global,
) -> Result<bool, Refusal> {
    plays_alone(rt, alloc, SHOP, &[&SCATTER])
}

// While a query of all rows is held at the first shard, another session reads and writes the second.
const MEANWHILE: [Act<'static>; 9] = [
    EVEN,
    ODD,
    Act::Arm,
    Act::Begin,
    Act::Held,
    Act::Two(b"SELECT c FROM t WHERE id = 1", Ok(1)),
    SEVEN,
    Act::LetGo,
    Act::Answered,
];

pub(crate) fn one_mutex_round_all_shards_would_hold_up_a_read<R: Threads + Wait + Sync>(
    rt: &R,
    alloc: Global,
) -> Result<bool, Refusal> {
    let scene = Scene {
        schema: SHOP,
        rows: MOST_ROWS,
        buffer: 0,
        locked: false,
        asked: ThirdStatement::AllRows,
        acts: &[&MEANWHILE],
    };
    let played = play(rt, alloc, &scene)?;
    // the query meets the other session's row or misses it
    Ok(played == Played::right(6) || played == Played::right(7))
}
