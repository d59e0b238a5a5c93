//! Splits and merges of shards while sessions go on: a workflow, and the steps of a cutover, each under one shard's lock.
#![tactic(auto)]

mod calls;
mod completing;
mod context;
mod copying;
mod cutover;
mod ending;
mod finishing;
mod keeping_up;
mod left;
mod ranges;
mod reopening;
mod stopping;
mod switching;
mod workflow;

pub use context::{Replacement, WorkflowContext};
pub use cutover::CutoverStep;
pub use finishing::Resumed;
pub use left::WorkLeft;
pub use reshard_create::{
    ReshardConfig, ReshardFault, SourceShard, Step, TargetShard, freeze, retire, serve, thaw,
};
pub use stopping::Stopped;
pub use workflow::{Stage, Workflow};
