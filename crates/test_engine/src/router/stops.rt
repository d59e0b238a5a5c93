//! A cutover that is stopped after each of its steps in turn and then resumed, while two sessions write and read.
ghost use Rattle.std.specs.Prelude.{◌<◌};

use crate::router::acts::Act;
use crate::router::common::{ALL, BEGUN, COPIED, EIGHT, EVEN, FREEZE, ODD, RESUMED, SHOP};
use crate::router::scenes::plays_alone;
use crate::router::steps::{
    CANCELLED, COMPLETED, FOLLOWING, RETIRE, SERVE, SPLIT, SWITCH, SWITCHED, SWITCHING, UNSPLIT,
};
use admin::ReshardFault;
use std::alloc::Global;
use std::sync::Wait;
use std::thread::Threads;
use vt_value::Refusal;

const FULL: Result<u64, Refusal> = Err(Refusal::BufferFull);

const TWICE: Result<u64, Refusal> = Err(Refusal::DuplicateKey);

/// Six rows, of which the first target has copied its own; then a seventh, which it is to follow.
const BEGINNING: [Act<'static>; 5] = [EVEN, ODD, BEGUN, COPIED, Act::One(EIGHT, Ok(1))];

// After each step of the cutover an INSERT into the shard that is split, one into the other shard, and a query of all rows. Nobody may wait.
const STEPS: [Act<'static>; 32] = [
    Act::Line(b"advance", b"ok freeze\n"),
    Act::One(b"INSERT INTO t (id, c) VALUES (10, 1)", FULL),
    Act::Two(b"INSERT INTO t (id, c) VALUES (11, 1)", Ok(1)),
    Act::Two(ALL, Ok(8)),
    Act::Line(b"advance", b"ok follow\n"),
    Act::One(b"INSERT INTO t (id, c) VALUES (12, 1)", FULL),
    Act::Two(b"INSERT INTO t (id, c) VALUES (13, 1)", Ok(1)),
    Act::Two(ALL, Ok(9)),
    Act::Line(b"advance", b"ok copy\n"),
    Act::One(b"INSERT INTO t (id, c) VALUES (14, 1)", FULL),
    Act::Two(b"INSERT INTO t (id, c) VALUES (15, 1)", Ok(1)),
    Act::Two(ALL, Ok(10)),
    Act::Line(b"advance", b"ok retire\n"),
    Act::One(b"INSERT INTO t (id, c) VALUES (16, 1)", FULL),
    Act::Two(b"INSERT INTO t (id, c) VALUES (17, 1)", Ok(1)),
    Act::Two(ALL, FULL),
    Act::Line(b"advance", b"ok serve\n"),
    Act::One(b"INSERT INTO t (id, c) VALUES (18, 1)", FULL),
    Act::Two(b"INSERT INTO t (id, c) VALUES (19, 1)", Ok(1)),
    Act::Two(ALL, FULL),
    Act::Line(b"advance", b"ok serve\n"),
    Act::One(b"INSERT INTO t (id, c) VALUES (20, 1)", FULL),
    Act::Two(b"INSERT INTO t (id, c) VALUES (21, 1)", Ok(1)),
    Act::Two(ALL, FULL),
    Act::Line(b"advance", b"ok publish\n"),
    Act::One(b"INSERT INTO t (id, c) VALUES (22, 1)", Ok(1)),
    Act::Two(b"INSERT INTO t (id, c) VALUES (23, 1)", Ok(1)),
    Act::Two(ALL, Ok(15)),
    Act::Line(b"advance", b"ok release\n"),
    Act::One(b"INSERT INTO t (id, c) VALUES (24, 1)", Ok(1)),
    Act::Two(b"INSERT INTO t (id, c) VALUES (25, 1)", Ok(1)),
    Act::Two(ALL, Ok(17)),
];

/// So many steps come before the one that retires the source.
const UNTIL_RETIRED: usize = 3;

// Once the cutover was resumed, the same INSERTs: those that were accepted are there, the others are not.
const AGAIN: [Act<'static>; 16] = [
    Act::Two(b"INSERT INTO t (id, c) VALUES (10, 1)", Ok(1)),
    Act::One(b"INSERT INTO t (id, c) VALUES (11, 1)", TWICE),
    Act::Two(b"INSERT INTO t (id, c) VALUES (12, 1)", Ok(1)),
    Act::One(b"INSERT INTO t (id, c) VALUES (13, 1)", TWICE),
    Act::Two(b"INSERT INTO t (id, c) VALUES (14, 1)", Ok(1)),
    Act::One(b"INSERT INTO t (id, c) VALUES (15, 1)", TWICE),
    Act::Two(b"INSERT INTO t (id, c) VALUES (16, 1)", Ok(1)),
    Act::One(b"INSERT INTO t (id, c) VALUES (17, 1)", TWICE),
    Act::Two(b"INSERT INTO t (id, c) VALUES (18, 1)", Ok(1)),
    Act::One(b"INSERT INTO t (id, c) VALUES (19, 1)", TWICE),
    Act::Two(b"INSERT INTO t (id, c) VALUES (20, 1)", Ok(1)),
    Act::One(b"INSERT INTO t (id, c) VALUES (21, 1)", TWICE),
    Act::Two(b"INSERT INTO t (id, c) VALUES (22, 1)", TWICE),
    Act::One(b"INSERT INTO t (id, c) VALUES (23, 1)", TWICE),
    Act::Two(b"INSERT INTO t (id, c) VALUES (24, 1)", TWICE),
    Act::One(b"INSERT INTO t (id, c) VALUES (25, 1)", TWICE),
];

/// How many rows were accepted if so many steps were taken, and how many there are once those that were refused have come too.
const ROWS: [(u64, u64); 9] = [
    (7, 7),
    (8, 9),
    (9, 11),
    (10, 13),
    (11, 15),
    (12, 17),
    (13, 19),
    (15, 21),
    (17, 23),
];

/// What becomes of the controller.
#[derive(Clone, Copy, PartialEq, Eq)]
enum Controller {
    GoesOn,
    Stops,
}

// The cutover is undone before the source is retired, and finished from then on. Before its first step there is nothing to resume, nor after
// its last, which another controller can't tell from the one before.
fn ending(steps: usize, controller: Controller) -> [Act<'static>; 2] {
    let resumed = if steps == 0 || steps == 8 && controller == Controller::GoesOn {
        Act::Line(b"resume", b"N4\n")
    } else {
        RESUMED
    };
    if steps <= UNTIL_RETIRED {
        [resumed, FOLLOWING]
    } else {
        [resumed, SWITCHED]
    }
}

fn ended(steps: usize) -> [Act<'static>; 2] {
    if steps <= UNTIL_RETIRED {
        [CANCELLED, UNSPLIT]
    } else {
        [COMPLETED, SPLIT]
    }
}

// What another controller finds: which ranges are served, after the retirement, and as each target begins to serve.
fn found(steps: usize) -> Act<'static> {
    match steps {
        0 => FOLLOWING,
        1..=3 => SWITCHING,
        4 => Act::Line(b"status", b"serving 80- switching\n"),
        5 => Act::Line(b"status", b"serving -40 80- switching\n"),
        _ => Act::Line(b"status", b"serving -40 40-80 80- switching\n"),
    }
}

// Whether all goes as it should if the cutover is stopped after so many steps.
fn is_kept<R: Threads + Wait + Sync>(
    rt: &R,
    alloc: Global,
    steps: usize,
    controller: Controller,
) -> Result<bool, Refusal>
    requires { steps < 9 }
{
    let (accepted, rows) = ROWS[steps];
    let another = [Act::Reopen(Ok(())), found(steps)];
    let reopened: &[Act<'_>] = match controller {
        Controller::GoesOn => &[],
        Controller::Stops => &another,
    };
    let acts = [
        &BEGINNING,
        &STEPS[..4 * steps],
        reopened,
        &ending(steps, controller),
        &[Act::Two(ALL, Ok(accepted))],
        &AGAIN[..2 * steps],
        &ended(steps),
        &[Act::One(ALL, Ok(rows))],
    ];
    plays_alone(rt, alloc, SHOP, &acts)
}

// Whether it does wherever the cutover is stopped.
fn are_kept<R: Threads + Wait + Sync>(
    rt: &R,
    alloc: Global,
    controller: Controller,
) -> Result<bool, Refusal> {
    for steps in 0..9 {
        if !is_kept(rt, alloc, steps, controller)? {
            return Ok(false);
        }
    }
    Ok(true)
}

pub(crate) fn a_cutover_that_is_stopped_and_resumed_keeps_each_accepted_row_once<
    R: Threads + Wait + Sync,
>(rt: &R, alloc: Global) -> Result<bool, Refusal> {
    are_kept(rt, alloc, Controller::GoesOn)
}

pub(crate) fn a_cutover_whose_controller_stopped_is_reopened_and_keeps_each_accepted_row_once<
    R: Threads + Wait + Sync,
>(rt: &R, alloc: Global) -> Result<bool, Refusal> {
    are_kept(rt, alloc, Controller::Stops)
}

// Once the split is complete there is nothing to reopen, nor before there is one.
const NOTHING: [Act<'static>; 10] = [
    Act::Reopen(Err(ReshardFault::WrongState)),
    EVEN,
    ODD,
    BEGUN,
    Act::Reopen(Ok(())),
    FOLLOWING,
    SWITCH,
    COMPLETED,
    Act::Reopen(Err(ReshardFault::WrongState)),
    SPLIT,
];

pub(crate) fn a_workflow_is_reopened_while_there_is_one<R: Threads + Wait + Sync>(
    rt: &R,
    alloc: Global,
) -> Result<bool, Refusal> {
    plays_alone(rt, alloc, SHOP, &[&NOTHING])
}

const WRONG_STATE: Act<'static> = Act::ReopenLast(Err(ReshardFault::WrongState));

// A workflow that was given up isn't reopened from its targets, and neither are they once a later one with targets of the same ranges has
// retired the source.
const GIVEN_UP: [Act<'static>; 24] = [
    EVEN,
    ODD,
    BEGUN,
    COPIED,
    Act::Reopen(Ok(())),
    Act::ReopenLast(Ok(())),
    FOLLOWING,
    CANCELLED,
    WRONG_STATE,
    BEGUN,
    COPIED,
    COPIED,
    WRONG_STATE,
    FREEZE,
    WRONG_STATE,
    RETIRE,
    WRONG_STATE,
    SERVE,
    WRONG_STATE,
    RESUMED,
    WRONG_STATE,
    SWITCHED,
    COMPLETED,
    WRONG_STATE,
];

pub(crate) fn targets_of_a_workflow_that_was_given_up_are_not_taken_up_again<
    R: Threads + Wait + Sync,
>(rt: &R, alloc: Global) -> Result<bool, Refusal> {
    plays_alone(rt, alloc, SHOP, &[&GIVEN_UP])
}
