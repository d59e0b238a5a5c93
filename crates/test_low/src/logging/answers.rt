//! The answer of a case.
use crate::logging::{lines, losses, traffic};
use std::alloc::Global;
use std::sync::Wait;
use std::time::Clock;
use test_fields::{CaseAnswer, Unanswered};

/// Plays the scene of this name, and returns whether it went as it is to go.
pub fn answer<R: Wait + Clock>(
    rt: &R,
    alloc: Global,
    name: &str,
    told: &mut CaseAnswer,
) -> Result<(), Unanswered> {
    match name {
        "line_tells_its_fields" => told.put_went(lines::line_tells_its_fields(alloc)),
        "no_value_ends_a_line" => told.put_went(lines::no_value_ends_a_line(alloc)),
        "values_name_their_levels" => told.put_went(Ok(lines::values_name_their_levels())),
        "records_come_in_order" => told.put_went(losses::records_come_in_order(rt, alloc)),
        "full_queue_loses_a_line" => told.put_went(losses::full_queue_loses_a_line(rt, alloc)),
        "failed_write_is_reported" => told.put_went(losses::failed_write_is_reported(alloc)),
        "torn_line_is_ended" => told.put_went(losses::torn_line_is_ended(alloc)),
        "closed_queue_is_written" => told.put_went(losses::closed_queue_is_written(rt, alloc)),
        "statements_come_in_pieces" => {
            told.put_went(Ok(traffic::statements_come_in_pieces(alloc)))
        }
        "rows_are_counted" => told.put_went(Ok(traffic::rows_are_counted())),
        "fault_has_its_place" => told.put_went(traffic::fault_has_its_place(alloc)),
        _ => Err(Unanswered::BadLine),
    }
}
