//! An INSERT that is begun during a cutover, by a session in a thread of its own.
use crate::router::acts::{Act, ThirdStatement};
use crate::router::common::{ALL, EIGHT, FREEZE, RESUMED, SEVEN, TEN};
use crate::router::scenes::plays_with;
use crate::router::steps::{
    CANCELLED, LEVELLED, PUBLISH, RELEASE, RETIRE, SERVE, SWITCH, SWITCHED, UNSPLIT,
};
use std::alloc::Global;
use std::sync::Wait;
use std::thread::Threads;
use vt_value::Refusal;

/// The rows that were accepted are there, and no others.
const ALL_READ: Act<'static> = Act::One(ALL, Ok(8));

/// The INSERT waits. Another one into the shard that is split finds no room while it waits, and one into the other shard doesn't wait.
const WAITING: [Act<'static>; 4] = [
    Act::Begin,
    Act::Waits,
    Act::One(TEN, Err(Refusal::BufferFull)),
    SEVEN,
];

/// Then it is answered, and its row is there, once.
const THERE: [Act<'static>; 4] = [
    Act::Answered,
    Act::Two(b"SELECT id FROM t WHERE id = 8", Ok(1)),
    ALL_READ,
    Act::One(EIGHT, Err(Refusal::DuplicateKey)),
];

/// The targets serve in the source's place, and what waits is let go at last.
const SERVED: [Act<'static>; 6] = [RETIRE, SERVE, SERVE, PUBLISH, Act::Waits, RELEASE];

// Plays the acts after a split that is level, over which the INSERT is asked by a third session.
fn adds_one<'x, R: Threads + Wait + Sync>(
    rt: &R,
    alloc: Global,
    before: &'x [Act<'x>],
    waiting: &'x [Act<'x>],
    after: &'x [Act<'x>],
) -> Result<bool, Refusal> {
    let parts = [
        &LEVELLED,
        &before[..],
        &WAITING,
        &waiting[..],
        &THERE,
        &after[..],
    ];
    plays_with(rt, alloc, &parts, ThirdStatement::Eight, 1)
}

pub(crate) fn an_insert_that_waits_for_a_cutover_adds_its_row_once<R: Threads + Wait + Sync>(
    rt: &R,
    alloc: Global,
) -> Result<bool, Refusal> {
    Ok(
        adds_one(rt, alloc, &[FREEZE], &SERVED, &[SWITCHED])?
            && adds_one(rt, alloc, &[FREEZE, RETIRE], &SERVED[1..], &[SWITCHED])?,
    )
}

pub(crate) fn an_insert_that_waits_for_a_cutover_that_is_undone_adds_its_row_once<
    R: Threads + Wait + Sync,
>(rt: &R, alloc: Global) -> Result<bool, Refusal> {
    Ok(
        adds_one(rt, alloc, &[FREEZE], &[RESUMED], &[SWITCH, ALL_READ])?
            && adds_one(rt, alloc, &[FREEZE], &[CANCELLED], &[UNSPLIT])?,
    )
}
