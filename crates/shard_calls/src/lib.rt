//! What a statement does on its shards: reads of several at once, in threads, and the reads, writes and commits of a transaction on its one shard.
#![tactic(auto)]

mod gate;
mod looks;
mod parts;
mod pieces;
mod reply;
mod scatter;
mod transactions;
mod tx;

pub use gate::{Gate, Open};
pub use parts::{find_partition, look_at_each, only_needed, shard_of};
pub use pieces::{Piece, piece_for};
pub use planner::{Plan, Route, is_answer, is_plain, plan, point_route, route_of, write_route};
pub use reply::{Answer, Reply, Selected, ShardRead, Tried, counted};
pub use scatter::{
    Gathered, GatheredAlone, ReadJob, ReadResult, gather, jobs, read_all, read_alone,
};
pub use shard::{
    CommitOutcome, Limits, MOST_ROWS, MOST_STORED, Pending, ReadOutcome, Shard, ShardLaw,
    ShardPass, ShardState, Store, World, copy_shard, written_table,
};
pub use sql_parser::parse;
pub use transactions::{
    closes, commit_at, ends, read_at, read_first, read_nothing, stays_open, write_at, write_first,
};
pub use tx::{Bound, OpenTx, Tx};
