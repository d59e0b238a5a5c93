//! While the lock of one shard is held, and a write waits for it, a write of another is answered.
use crate::router::acts::{Act, ThirdStatement};
use crate::router::common::{SEVEN, SHOP};
use crate::router::scenes::{Played, Scene, play};
use shard_calls::MOST_ROWS;
use std::alloc::Global;
use std::sync::Wait;
use std::thread::Threads;
use vt_value::Refusal;

// The INSERT into the other shard comes once that which waits for the lock was begun and has had time to come to it.
const ACTS: [Act<'static>; 6] = [
    Act::Held,
    Act::Begin,
    Act::Pause,
    SEVEN,
    Act::LetGo,
    Act::Answered,
];

pub(crate) fn one_mutex_round_all_shards_would_hold_up_a_write<R: Threads + Wait + Sync>(
    rt: &R,
    alloc: Global,
) -> Result<bool, Refusal> {
    let scene = Scene {
        schema: SHOP,
        rows: MOST_ROWS,
        buffer: 0,
        locked: true,
        asked: ThirdStatement::Eight,
        acts: &[&ACTS],
    };
    Ok(play(rt, alloc, &scene)? == Played::right(1))
}
