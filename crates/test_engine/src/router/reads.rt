//! Queries of all rows, each begun at another moment of a cutover, by a session in a thread of its own.
use crate::router::acts::{Act, ThirdStatement};
use crate::router::common::{ALL, FREEZE};
use crate::router::scenes::plays_with;
use crate::router::steps::{LEVELLED, PUBLISH, RELEASE, RETIRE, SERVE, SWITCHED};
use std::alloc::Global;
use std::sync::Wait;
use std::thread::Threads;
use vt_value::Refusal;

/// A second query finds no room while that one waits.
const NO_ROOM: Act<'static> = Act::One(ALL, Err(Refusal::BufferFull));

/// A second query is answered.
const ALL_READ: Act<'static> = Act::One(ALL, Ok(6));

/// The query begins, and its read of the first shard is held.
const HELD: [Act<'static>; 3] = [Act::Arm, Act::Begin, Act::Held];

const OVER_ALL: [Act<'static>; 11] = [
    FREEZE,
    RETIRE,
    SERVE,
    SERVE,
    PUBLISH,
    RELEASE,
    SWITCHED,
    ALL_READ,
    Act::LetGo,
    Act::Answered,
    ALL_READ,
];

const UNTIL_FROZEN: [Act<'static>; 9] = [
    FREEZE,
    Act::LetGo,
    Act::Answered,
    ALL_READ,
    RETIRE,
    SERVE,
    SERVE,
    PUBLISH,
    RELEASE,
];

// Both shards were looked at while they served, so it needn't wait for the release.
const UNTIL_RETIRED: [Act<'static>; 8] = [
    FREEZE,
    RETIRE,
    Act::LetGo,
    Act::Answered,
    SERVE,
    SERVE,
    PUBLISH,
    RELEASE,
];

const BEGUN_FROZEN: [Act<'static>; 9] = [
    FREEZE,
    Act::Begin,
    Act::Answered,
    RETIRE,
    SERVE,
    SERVE,
    PUBLISH,
    RELEASE,
    SWITCHED,
];

const BEGUN_RETIRED: [Act<'static>; 13] = [
    FREEZE,
    RETIRE,
    Act::Begin,
    Act::Waits,
    NO_ROOM,
    SERVE,
    SERVE,
    NO_ROOM,
    PUBLISH,
    ALL_READ,
    Act::Waits,
    RELEASE,
    Act::Answered,
];

const BEGUN_PUBLISHED: [Act<'static>; 9] = [
    FREEZE,
    RETIRE,
    SERVE,
    SERVE,
    PUBLISH,
    Act::Begin,
    Act::Answered,
    RELEASE,
    SWITCHED,
];

// Plays the acts after a split that is level, over which the query of all rows is asked by a third session.
fn reads_all<'x, R: Threads + Wait + Sync>(
    rt: &R,
    alloc: Global,
    begun: &'x [Act<'x>],
    acts: &'x [Act<'x>],
) -> Result<bool, Refusal> {
    let parts = [&LEVELLED, &begun[..], &acts[..]];
    plays_with(rt, alloc, &parts, ThirdStatement::AllRows, 6)
}

pub(crate) fn a_query_begun_before_the_freeze_reads_all_rows<R: Threads + Wait + Sync>(
    rt: &R,
    alloc: Global,
) -> Result<bool, Refusal> {
    Ok(
        reads_all(rt, alloc, &HELD, &OVER_ALL)?
            && reads_all(rt, alloc, &HELD, &UNTIL_FROZEN)?
            && reads_all(rt, alloc, &HELD, &UNTIL_RETIRED)?,
    )
}

pub(crate) fn a_query_begun_while_the_source_is_frozen_is_answered_by_it<R: Threads + Wait + Sync>(
    rt: &R,
    alloc: Global,
) -> Result<bool, Refusal> {
    reads_all(rt, alloc, &[], &BEGUN_FROZEN)
}

pub(crate) fn a_query_begun_while_no_shard_serves_its_rows_waits_for_the_release<
    R: Threads + Wait + Sync,
>(rt: &R, alloc: Global) -> Result<bool, Refusal> {
    reads_all(rt, alloc, &[], &BEGUN_RETIRED)
}

pub(crate) fn a_query_begun_once_the_next_partition_is_published_does_not_wait<
    R: Threads + Wait + Sync,
>(rt: &R, alloc: Global) -> Result<bool, Refusal> {
    reads_all(rt, alloc, &[], &BEGUN_PUBLISHED)
}
