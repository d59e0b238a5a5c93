//! Statements on a shard that takes no commits for a while: queries are answered, and writes wait in the buffer, or find it full.
use crate::router::acts::{Act, ThirdStatement};
use crate::router::common::{ALL, BEGUN, COPIED, FREEZE, LEVEL, RESUMED, SEVEN, SHOP, TEN};
use crate::router::scenes::{plays_alone, plays_with};
use std::alloc::Global;
use std::sync::Wait;
use std::thread::Threads;
use vt_value::Refusal;

// The first shard, which has no rows, is frozen.
const FROZEN: [Act<'static>; 5] = [BEGUN, COPIED, COPIED, LEVEL, FREEZE];

/// A write to it finds no room in the buffer.
const FULL: Act<'static> = Act::One(TEN, Err(Refusal::BufferFull));

const WITHOUT_ROOM: [Act<'static>; 5] = [
    Act::One(ALL, Ok(0)),
    FULL,
    SEVEN,
    RESUMED,
    Act::One(TEN, Ok(1)),
];

pub(crate) fn always_buffer_full_would_refuse_what_is_not_frozen<R: Threads + Wait + Sync>(
    rt: &R,
    alloc: Global,
) -> Result<bool, Refusal> {
    plays_alone(rt, alloc, SHOP, &[&FROZEN, &WITHOUT_ROOM])
}

const ROOM_FOR_ONE: [Act<'static>; 6] = [
    Act::Begin,
    Act::Waits,
    FULL,
    RESUMED,
    Act::Answered,
    Act::One(ALL, Ok(1)),
];

pub(crate) fn buffered_statement_commits_twice_would_add_two_rows<R: Threads + Wait + Sync>(
    rt: &R,
    alloc: Global,
) -> Result<bool, Refusal> {
    let acts: [&[Act<'_>]; 2] = [&FROZEN, &ROOM_FOR_ONE];
    plays_with(rt, alloc, &acts, ThirdStatement::Eight, 1)
}
