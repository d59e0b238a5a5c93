//! The answer of a case.
use crate::router::{gates, limits, lines, locks, opened, reads, stops, waiting, writes};
use std::alloc::Global;
use std::sync::Wait;
use std::thread::Threads;
use test_fields::{CaseAnswer, Unanswered};

/// Plays the scene of this name, and returns whether it went as it is to go.
pub fn answer<R: Threads + Wait + Sync>(
    rt: &R,
    alloc: Global,
    name: &str,
    told: &mut CaseAnswer,
) -> Result<(), Unanswered> {
    match name {
        "always_out_of_memory_would_find_no_row" => told.put_went(
            opened::always_out_of_memory_would_find_no_row(rt, alloc),
        ),
        "scatter_reads_in_turn_would_wait" => told.put_went(gates::scatter_reads_in_turn_would_wait(
            rt, alloc,
        )),
        "one_mutex_round_all_shards_would_hold_up_a_read" => told.put_went(
            gates::one_mutex_round_all_shards_would_hold_up_a_read(rt, alloc),
        ),
        "one_mutex_round_all_shards_would_hold_up_a_write" => told.put_went(
            locks::one_mutex_round_all_shards_would_hold_up_a_write(rt, alloc),
        ),
        "always_buffer_full_would_refuse_what_is_not_frozen" => told.put_went(
            waiting::always_buffer_full_would_refuse_what_is_not_frozen(rt, alloc),
        ),
        "buffered_statement_commits_twice_would_add_two_rows" => told.put_went(
            waiting::buffered_statement_commits_twice_would_add_two_rows(rt, alloc),
        ),
        _ => answer_cutovers(rt, alloc, name, told),
    }
}

// Plays a scene of admin lines, or of a statement during a cutover.
fn answer_cutovers<R: Threads + Wait + Sync>(
    rt: &R,
    alloc: Global,
    name: &str,
    told: &mut CaseAnswer,
) -> Result<(), Unanswered> {
    match name {
        "each_line_is_answered_by_what_it_did" => told.put_went(
            lines::each_line_is_answered_by_what_it_did(rt, alloc),
        ),
        "a_split_into_more_shards_than_slots_are_free_is_refused" => told.put_went(
            lines::a_split_into_more_shards_than_slots_are_free_is_refused(rt, alloc),
        ),
        "a_merge_of_too_many_rows_is_refused_and_both_shards_serve" => told.put_went(
            limits::a_merge_of_too_many_rows_is_refused_and_both_shards_serve(rt, alloc),
        ),
        "a_query_begun_before_the_freeze_reads_all_rows" => told.put_went(
            reads::a_query_begun_before_the_freeze_reads_all_rows(rt, alloc),
        ),
        "a_query_begun_while_the_source_is_frozen_is_answered_by_it" => told.put_went(
            reads::a_query_begun_while_the_source_is_frozen_is_answered_by_it(rt, alloc),
        ),
        "a_query_begun_while_no_shard_serves_its_rows_waits_for_the_release" => told.put_went(
            reads::a_query_begun_while_no_shard_serves_its_rows_waits_for_the_release(rt, alloc),
        ),
        "a_query_begun_once_the_next_partition_is_published_does_not_wait" => told.put_went(
            reads::a_query_begun_once_the_next_partition_is_published_does_not_wait(rt, alloc),
        ),
        "an_insert_that_waits_for_a_cutover_adds_its_row_once" => told.put_went(
            writes::an_insert_that_waits_for_a_cutover_adds_its_row_once(rt, alloc),
        ),
        "an_insert_that_waits_for_a_cutover_that_is_undone_adds_its_row_once" => told.put_went(
            writes::an_insert_that_waits_for_a_cutover_that_is_undone_adds_its_row_once(rt, alloc),
        ),
        _ => answer_stops(rt, alloc, name, told),
    }
}

// Plays a scene of a cutover that stops.
fn answer_stops<R: Threads + Wait + Sync>(
    rt: &R,
    alloc: Global,
    name: &str,
    told: &mut CaseAnswer,
) -> Result<(), Unanswered> {
    match name {
        "a_cutover_that_is_stopped_and_resumed_keeps_each_accepted_row_once" => told.put_went(
            stops::a_cutover_that_is_stopped_and_resumed_keeps_each_accepted_row_once(rt, alloc),
        ),
        "a_cutover_whose_controller_stopped_is_reopened_and_keeps_each_accepted_row_once" =>
            told.put_went(
                stops::a_cutover_whose_controller_stopped_is_reopened_and_keeps_each_accepted_row_once(
                    rt, alloc,
                ),
            ),
        "a_workflow_is_reopened_while_there_is_one" => told.put_went(
            stops::a_workflow_is_reopened_while_there_is_one(rt, alloc),
        ),
        "targets_of_a_workflow_that_was_given_up_are_not_taken_up_again" => told.put_went(
            stops::targets_of_a_workflow_that_was_given_up_are_not_taken_up_again(rt, alloc),
        ),
        _ => Err(Unanswered::BadLine),
    }
}
