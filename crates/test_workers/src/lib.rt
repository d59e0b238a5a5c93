//! Scenes of workers that take turns at conversations, over a set of sockets that isn't the system's.
#![tactic(auto)]

mod scenes;

use std::alloc::Global;
use std::sync::Wait;
use std::thread::Threads;
use std::time::Clock;
use test_fields::{CaseAnswer, Unanswered};

/// Plays the scene of this name, and returns whether it went as it is to go.
pub fn answer<R: Threads + Wait + Sync + Clock>(
    rt: &R,
    alloc: Global,
    name: &str,
    told: &mut CaseAnswer,
) -> Result<(), Unanswered> {
    match name {
        "each_connection_is_served_once" => told.put_went(Ok(scenes::each_connection_is_served_once(
            rt, alloc,
        ))),
        "sleeping_workers_are_woken" => told.put_went(Ok(scenes::sleeping_workers_are_woken(
            rt, alloc,
        ))),
        "all_workers_serve_at_once" => told.put_went(Ok(scenes::all_workers_serve_at_once(
            rt, alloc,
        ))),
        "full_queue_waits_for_a_worker" => told.put_went(Ok(scenes::full_queue_waits_for_a_worker(
            rt, alloc,
        ))),
        "word_that_comes_before_arming_is_answered" => told.put_went(Ok(
            scenes::word_that_comes_before_arming_is_answered(rt, alloc),
        )),
        "busy_conversations_hold_up_no_other" => told.put_went(Ok(
            scenes::busy_conversations_hold_up_no_other(rt, alloc),
        )),
        "conversation_that_is_late_is_ended" => told.put_went(Ok(
            scenes::conversation_that_is_late_is_ended(rt, alloc),
        )),
        "connection_without_a_place_is_ended" => told.put_went(Ok(
            scenes::connection_without_a_place_is_ended(rt, alloc),
        )),
        _ => Err(Unanswered::BadLine),
    }
}
