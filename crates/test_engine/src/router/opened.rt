//! A first statement, and a second.
use crate::router::acts::Act;
use crate::router::common::SHOP;
use crate::router::scenes::plays_alone;
use std::alloc::Global;
use std::sync::Wait;
use std::thread::Threads;
use vt_value::Refusal;

const ACTS: [Act<'static>; 2] = [
    Act::One(b"INSERT INTO t (id, c) VALUES (2, 7)", Ok(1)),
    Act::One(b"SELECT c FROM t WHERE id = 2 AND c = 7", Ok(1)),
];

pub(crate) fn always_out_of_memory_would_find_no_row<R: Threads + Wait + Sync>(
    rt: &R,
    alloc: Global,
) -> Result<bool, Refusal> {
    plays_alone(rt, alloc, SHOP, &[&ACTS])
}
