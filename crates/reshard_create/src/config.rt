use shard::Limits;

/// What is fixed for all workflows of a controller: the keyspace, by its ordinal in the VSchema, and what each of its shards may hold.
#[derive(Clone, Copy)]
pub struct ReshardConfig {
    pub keyspace: usize,
    pub limits: Limits,
}
