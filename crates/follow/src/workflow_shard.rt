use journal::Naming;
use shard::{Shard, World};
use std::alloc::Global;
use std::sync::Arc;

/// A shard that takes part in a workflow, and what is under its lock, which others may hold too.
#[derive(Drop)]
pub struct WorkflowShard<W: World, J: Naming> {
    pub which: shard_run::ShardRecord,
    pub shard: Arc<Shard<W, J>, Global>,
}
