//! The opening of a run over a VSchema and key ranges: its shards, without rows.

mod shards;

pub use shards::{empty_tables, opening_shards, ranges_fit, sharded_keyspace};
