//! The router over any VSchema and key ranges, without rows: a shard for the unsharded keyspace and one for each range of the sharded
//! one.

mod setup;

pub use setup::{empty_router, opened_seats, widest_limits};
