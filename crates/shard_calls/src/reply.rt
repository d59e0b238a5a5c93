//! What a statement answered.
ghost use Rattle.std.specs.Prelude.{◌≡◌, []};

use planner::ShownRows;
use sql_tree::Item;
use std::alloc::Global;
use vschema::{Join, Write};
use vt_value::Items;

/// What a query gave: the table or the two that it is over and what it shows, by the ordinals of columns, and its rows.
#[derive(Drop)]
pub struct Selected {
    pub table: usize,
    pub join: Option<Join>,
    pub items: Items<Item<usize>>,
    /// Whether each item was written with its table's name, as `Query::qualified`.
    pub qualified: Items<bool>,
    pub rows: ShownRows,
}

/// What a statement answered: rows, or the count of an OK.
#[derive(Drop)]
pub enum Answer {
    Rows(Selected),
    Count(u64),
}

/// What one try to commit a write outside a transaction came to: the count of its rows, or the write again if its shard took no commits.
#[derive(Drop)]
pub enum Tried {
    Done(u64),
    Again(Write),
}

/// A shard that a query read, by its slot, and how many entries it had then.
#[derive(Clone, Copy, Debug, PartialEq, Eq)]
pub struct ShardRead {
    pub slot: usize,
    pub entries: u64,
}

/// What a statement answered, and the shards that it read, in the order of their ranges.
#[derive(Drop)]
pub struct Reply {
    pub answer: Answer,
    pub reads: Items<ShardRead>,
}

/// The reply to a statement that counts so many rows.
pub fn counted(alloc: Global, count: u64) -> Reply
    ensures { result ≡ record { answer = Answer.Count count; reads = [] } }
{
    Reply {
        answer: Answer::Count(count),
        reads: Items::new(alloc),
    }
}
