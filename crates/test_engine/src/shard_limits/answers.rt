//! The answer of a case.
use crate::shard_limits::playing::{Turn, play};
use shard_contents::shards_hold_one_database;
use std::alloc::Global;
use std::sync::Wait;
use test_fields::{CaseAnswer, Unanswered};

/// Plays the scene of this name, and returns whether it went as it is to go.
pub fn answer<R: Wait>(
    rt: &R,
    alloc: Global,
    name: &str,
    told: &mut CaseAnswer,
) -> Result<(), Unanswered> {
    match name {
        "writes_are_one_entry_each" => told.put_went(play(rt, alloc, Turn::Writes)),
        "transactions_are_one_entry_each" => told.put_went(play(rt, alloc, Turn::Transactions)),
        "the_law_has_no_premise" => {
            shards_hold_one_database();
            told.put_went(Ok(true))
        }
        _ => Err(Unanswered::BadLine),
    }
}
