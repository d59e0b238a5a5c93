//! How a target comes forward with a source: it follows the entry that is next, else copies more rows, else it is level.
#![tactic(auto)]

mod modes;
mod steps;
mod workflow_shard;

pub use modes::{answers, follows};
pub use shard::{MOST_ENTRIES, Shard, ShardPass, ShardState, World};
pub use steps::{Step, bring_forward, bring_forward_with};
pub use workflow_shard::WorkflowShard;
