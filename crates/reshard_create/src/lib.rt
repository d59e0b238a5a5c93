//! How a workflow begins: which shards it replaces, whether its targets may replace these, and the targets.
#![tactic(auto)]

mod config;
mod looks;
mod new_workflow;
mod partition_parts;
pub mod reopening;
mod seats_back;
mod sources;
pub mod split;
mod targets;

pub use crate::split::next_ranges;
pub use config::ReshardConfig;
pub use new_workflow::{NewWorkflow, begin};
pub use reshard_cutover::{
    ReshardFault, SourceShard, Step, TargetShard, all_fit, confirm_cutover, confirm_retired,
    drop_all, entries_left, freeze, move_first, named_of_all, next_partition, note_stored, retire,
    serve, thaw, unfreeze_all,
};
pub use shard::{Shard, ShardLaw, ShardPass, ShardState, World};
