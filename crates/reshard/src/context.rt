//! What is handed to the calls of a workflow.
use buffer::Buffer;
use journal::Naming;
use reshard_create::{Shard, World};
use serving::Serving;
use shard_run::VSchema;

/// What a workflow's calls work on beside its shards. It is the engine's, which lends it for a call.
#[derive(Drop)]
pub struct WorkflowContext<'c, W: World, J: Naming> {
    pub schema: &'c VSchema,
    /// The partitions of the workflow's keyspace: the present one, and where the next is published.
    pub serving: &'c Serving<Shard<W, J>>,
    /// Where statements wait while a source is frozen.
    pub buffer: &'c Buffer,
}

/// What a workflow replaces, and by what: ranges, or the shards that have them.
#[derive(Drop)]
pub struct Replacement<'r, T> {
    pub sources: &'r [T],
    pub targets: &'r [T],
}
