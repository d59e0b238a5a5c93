//! The answer of a case.
use crate::threads::{partitions, queues, runs, snapshots, waiting};
use std::alloc::Global;
use std::sync::Wait;
use std::thread::Threads;
use test_fields::{CaseAnswer, Unanswered};

/// Plays the scene of this name, and returns whether it went as it is to go.
pub fn answer<R: Threads + Wait + Sync>(
    rt: &R,
    alloc: Global,
    name: &str,
    told: &mut CaseAnswer,
) -> Result<(), Unanswered> {
    match name {
        "current_is_opening_partition" => {
            told.put_went(partitions::current_is_opening_partition(alloc))
        }
        "each_is_taken_once" => told.put_went(queues::each_is_taken_once(rt, alloc)),
        "four_threads_append_to_one_run" => {
            told.put_went(runs::four_threads_append_to_one_run(rt, alloc))
        }
        "snapshot_keeps_its_entries" => {
            told.put_went(snapshots::snapshot_keeps_its_entries(rt, alloc))
        }
        "released_statements_may_wait_again" => {
            told.put_went(Ok(waiting::released_statements_may_wait_again(rt)))
        }
        "calls_answer" => told.put_went(runs::calls_answer(alloc)),
        _ => Err(Unanswered::BadLine),
    }
}
