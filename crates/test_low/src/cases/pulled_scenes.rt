//! The answer of a case.
use crate::cases::{chunks, inputs};
use std::alloc::Global;
use test_fields::{CaseAnswer, Unanswered};

/// Plays the scene of this name, and returns whether it went as it is to go.
pub fn answer_pulled(alloc: Global, name: &str, told: &mut CaseAnswer) -> Result<(), Unanswered> {
    match name {
        "a_limit_pulls_no_row_behind_its_last" => told.put_went(
            inputs::a_limit_pulls_no_row_behind_its_last(alloc),
        ),
        "a_merge_pulls_a_row_of_each_input_and_one_for_each_that_it_gave" => told.put_went(
            inputs::a_merge_pulls_a_row_of_each_input_and_one_for_each_that_it_gave(alloc),
        ),
        "a_merge_stays_failed_where_an_input_does" => told.put_went(
            inputs::a_merge_stays_failed_where_an_input_does(alloc),
        ),
        "a_failed_input_stays_failed" => told.put_went(inputs::a_failed_input_stays_failed(alloc)),
        "a_failed_input_gives_no_groups" => told.put_went(Ok(inputs::a_failed_input_gives_no_groups(
            alloc,
        ))),
        "rows_in_chunks_are_the_same_bytes" => told.put_went(
            chunks::rows_in_chunks_are_the_same_bytes(alloc),
        ),
        "all_chunks_but_the_last_are_full" => told.put_went(
            chunks::all_chunks_but_the_last_are_full(alloc),
        ),
        "rows_that_fail_leave_the_stream_as_it_was" => told.put_went(
            chunks::rows_that_fail_leave_the_stream_as_it_was(alloc),
        ),
        _ => Err(Unanswered::BadLine),
    }
}
