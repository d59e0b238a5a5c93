//! Which shards a statement needs.
use shard_calls::Route;
use vschema::Table;

/// The table of a statement, and the route by which it needs shards of the table's keyspace.
#[derive(Drop)]
pub(crate) struct Routed<'s> {
    pub(crate) table: &'s Table,
    pub(crate) route: &'s Route,
}
