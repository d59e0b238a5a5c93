//! Merges of shards that have more rows together than one of them may.
use crate::router::acts::Act;
use crate::router::common::SHOP;
use crate::router::scenes::plays_within;
use crate::router::steps::{FOLLOWING, SWITCH};
use std::alloc::Global;
use std::sync::Wait;
use std::thread::Threads;
use vt_value::Refusal;

/// A merge of both shards begins.
const MERGED: Act<'static> = Act::Line(b"create -80,80- -", b"ok\n");

const STEP_COPIES: Act<'static> = Act::Line(b"step", b"ok copied\n");

const STEP_FOLLOWS: Act<'static> = Act::Line(b"step", b"ok followed\n");

const STEP_IS_FULL: Act<'static> = Act::Line(b"step", b"F24\n");

/// Both shards take writes.
const CHANGED: [Act<'static>; 2] = [
    Act::One(b"UPDATE t SET c = 2 WHERE id = 2", Ok(1)),
    Act::Two(b"UPDATE t SET c = 2 WHERE id = 1", Ok(1)),
];

/// Two rows on the first shard and one on the second: the Copy of the third is refused, before anything is frozen and by a step.
const OF_COPIES: [Act<'static>; 8] = [
    Act::One(b"INSERT INTO t (id, c) VALUES (2, 1), (4, 1)", Ok(2)),
    Act::Two(b"INSERT INTO t (id, c) VALUES (1, 1)", Ok(1)),
    Act::One(
        b"INSERT INTO t (id, c) VALUES (6, 1)",
        Err(Refusal::ShardFull),
    ),
    MERGED,
    Act::Line(b"switch", b"F24\n"),
    FOLLOWING,
    STEP_IS_FULL,
    FOLLOWING,
];

/// The change of a copied row is followed, and the third row still has no room; without it there is room.
const THEN: [Act<'static>; 8] = [
    STEP_FOLLOWS,
    STEP_IS_FULL,
    Act::Two(b"DELETE FROM t WHERE id = 1", Ok(1)),
    STEP_COPIES,
    Act::Line(b"step", b"ok level\n"),
    SWITCH,
    Act::Line(b"status", b"serving - switched\n"),
    Act::One(
        b"INSERT INTO t (id, c) VALUES (3, 1)",
        Err(Refusal::ShardFull),
    ),
];

/// A row too many that comes after the copy is refused as it is followed, also once both are frozen.
const OF_FOLLOWS: [Act<'static>; 12] = [
    Act::One(b"INSERT INTO t (id, c) VALUES (2, 1)", Ok(1)),
    Act::Two(b"INSERT INTO t (id, c) VALUES (1, 1)", Ok(1)),
    MERGED,
    STEP_COPIES,
    STEP_COPIES,
    Act::Two(b"INSERT INTO t (id, c) VALUES (3, 1)", Ok(1)),
    STEP_IS_FULL,
    Act::Line(b"advance", b"ok freeze\n"),
    Act::Line(b"advance", b"ok freeze\n"),
    Act::Line(b"advance", b"F24\n"),
    FOLLOWING,
    Act::Line(b"switch", b"F24\n"),
];

const AT_LAST: [Act<'static>; 5] = [
    Act::One(b"DELETE FROM t WHERE id = 2", Ok(1)),
    SWITCH,
    Act::Line(b"status", b"serving - switched\n"),
    Act::One(b"SELECT id FROM t", Ok(2)),
    Act::Line(b"complete", b"ok\n"),
];

pub(crate) fn a_merge_of_too_many_rows_is_refused_and_both_shards_serve<R: Threads + Wait + Sync>(
    rt: &R,
    alloc: Global,
) -> Result<bool, Refusal> {
    Ok(
        plays_within(rt, alloc, SHOP, 2, &[&OF_COPIES, &CHANGED, &THEN])?
            && plays_within(rt, alloc, SHOP, 2, &[&OF_FOLLOWS, &CHANGED, &AT_LAST])?,
    )
}
