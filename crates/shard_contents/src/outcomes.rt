//! What a shard answers.

use vschema::Write;
use vt_value::{Items, Row};

/// What a query gave on a shard: its rows, and how many entries the shard had then.
#[derive(Drop)]
pub struct Reading {
    pub rows: Items<Row>,
    pub entries: u64,
}

/// What a shard answers to a query.
#[derive(Drop)]
pub enum ReadOutcome {
    Rows(Reading),
    NotServing,
}

/// What a shard answers to a write: how many rows it added, removed or really changed, or the write again.
#[derive(Drop)]
pub enum CommitOutcome {
    Count(u64),
    Frozen(Write),
    NotServing(Write),
}
