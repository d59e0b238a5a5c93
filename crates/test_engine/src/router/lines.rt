//! Admin lines over shards with rows, answered as they are meant to be.
use crate::router::acts::Act;
use crate::router::common::{BEGUN, COPIED, EVEN, FREEZE, LEVEL, ODD, RESUMED, SHOP};
use crate::router::scenes::plays_alone;
use crate::router::steps::{
    CANCELLED, COMPLETED, FOLLOWING, PUBLISH, RELEASE, RETIRE, SERVE, SPLIT, SWITCH, SWITCHED,
    SWITCHING, UNSPLIT,
};
use std::alloc::Global;
use std::sync::Wait;
use std::thread::Threads;
use vt_value::Refusal;

/// The shop, and an unsharded keyspace, whose shard has a slot too.
const WITH_BASE: &str =
    r#"{"keyspaces":{"base":{"sharded":false,"tables":{"b":{"columns":[{"name":"id","type":"BIGINT UNSIGNED"}],"primary_key":["id"]}}},"shop":{"sharded":true,"vindexes":{"rev":{"type":"reverse_bits"}},"tables":{"t":{"columns":[{"name":"id","type":"BIGINT UNSIGNED"},{"name":"c","type":"BIGINT UNSIGNED","null":true}],"primary_key":["id"],"column_vindexes":[{"column":"id","name":"rev"}]}}}}}"#;

/// A split into 62 shards.
const INTO_62: &[u8] = b"create -80 \
    -01,01-02,02-03,03-04,04-05,05-06,06-07,07-08,08-09,09-0a,0a-0b,0b-0c,0c-0d,0d-0e,0e-0f,0f-10,10-11,11-12,\
    12-13,13-14,14-15,15-16,16-17,17-18,18-19,19-1a,1a-1b,1b-1c,1c-1d,1d-1e,1e-1f,1f-20,20-21,21-22,22-23,23-24,\
    24-25,25-26,26-27,27-28,28-29,29-2a,2a-2b,2b-2c,2c-2d,2d-2e,2e-2f,2f-30,30-31,31-32,32-33,33-34,34-35,35-36,\
    36-37,37-38,38-39,39-3a,3a-3b,3b-3c,3c-3d,3d-80";

/// A split into 63 shards.
const INTO_63: &[u8] = b"create -80 \
    -01,01-02,02-03,03-04,04-05,05-06,06-07,07-08,08-09,09-0a,0a-0b,0b-0c,0c-0d,0d-0e,0e-0f,0f-10,10-11,11-12,\
    12-13,13-14,14-15,15-16,16-17,17-18,18-19,19-1a,1a-1b,1b-1c,1c-1d,1d-1e,1e-1f,1f-20,20-21,21-22,22-23,23-24,\
    24-25,25-26,26-27,27-28,28-29,29-2a,2a-2b,2b-2c,2c-2d,2d-2e,2e-2f,2f-30,30-31,31-32,32-33,33-34,34-35,35-36,\
    36-37,37-38,38-39,39-3a,3a-3b,3b-3c,3c-3d,3d-3e,3e-80";

// The refusals of `create`, before a workflow, while one is under way, and after its end.
const REFUSED: [Act<'static>; 12] = [
    Act::Line(b"create -40 -20,20-40", b"N5\n"),
    Act::Line(b"create -80,-80 -80", b"N5\n"),
    Act::Line(b"create -80 -40,20-80", b"N2\n"),
    Act::Line(b"create -80 -40", b"N1\n"),
    Act::Line(b"step", b"N4\n"),
    Act::Line(b"switch", b"N4\n"),
    Act::Line(b"advance", b"N4\n"),
    Act::Line(b"complete", b"N4\n"),
    Act::Line(b"cancel", b"N4\n"),
    Act::Line(b"resume", b"N4\n"),
    Act::Line(b"other", b"unknown\n"),
    UNSPLIT,
];

const SPLIT_AND_MERGE: [Act<'static>; 34] = [
    EVEN,
    ODD,
    BEGUN,
    Act::Line(b"create -80 -40,40-80", b"N4\n"),
    CANCELLED,
    UNSPLIT,
    BEGUN,
    COPIED,
    COPIED,
    LEVEL,
    FOLLOWING,
    Act::Line(b"complete", b"N4\n"),
    FREEZE,
    SWITCHING,
    Act::Line(b"step", b"N4\n"),
    RESUMED,
    FOLLOWING,
    FREEZE,
    RETIRE,
    Act::Line(b"cancel", b"N4\n"),
    Act::Line(b"complete", b"N4\n"),
    SERVE,
    SERVE,
    PUBLISH,
    RELEASE,
    Act::Line(b"advance", b"N4\n"),
    Act::Line(b"resume", b"N4\n"),
    SWITCHED,
    COMPLETED,
    SPLIT,
    Act::Line(b"create -40,40-80 -80", b"ok\n"),
    SWITCH,
    Act::Line(b"status", b"serving -80 80- switched\n"),
    COMPLETED,
];

pub(crate) fn each_line_is_answered_by_what_it_did<R: Threads + Wait + Sync>(
    rt: &R,
    alloc: Global,
) -> Result<bool, Refusal> {
    Ok(
        plays_alone(rt, alloc, SHOP, &[&REFUSED])?
            && plays_alone(rt, alloc, SHOP, &[&SPLIT_AND_MERGE])?,
    )
}

// A shard takes one of 64 slots, and none is used again.
const OF_TWO_SHARDS: [Act<'static>; 5] = [
    Act::Line(INTO_63, b"N3\n"),
    Act::Line(INTO_62, b"ok\n"),
    CANCELLED,
    Act::Line(b"create -80 -40,40-80", b"N3\n"),
    UNSPLIT,
];

const OF_THREE_SHARDS: [Act<'static>; 2] = [Act::Line(INTO_62, b"N3\n"), UNSPLIT];

pub(crate) fn a_split_into_more_shards_than_slots_are_free_is_refused<R: Threads + Wait + Sync>(
    rt: &R,
    alloc: Global,
) -> Result<bool, Refusal> {
    Ok(
        plays_alone(rt, alloc, SHOP, &[&OF_TWO_SHARDS])?
            && plays_alone(rt, alloc, WITH_BASE, &[&OF_THREE_SHARDS])?,
    )
}
