//! Admin lines over the workflow of a router's sharded keyspace, what answers them, and a router that is opened
//! with its administrator.
#![tactic(auto)]

mod administering;
mod administrator;
mod calls;
mod reply;
pub mod router;
mod setup;
mod status;
mod words;

pub use crate::router::widest_limits;
pub use administering::{administer, work_left};
pub use administrator::Administrator;
pub use reply::AdminReply;
pub use reshard::{
    CutoverStep, Replacement, ReshardConfig, ReshardFault, SourceShard, Stopped, TargetShard,
    WorkLeft, Workflow,
};
pub use route_engine::{Answer, Engine, Gate, Open, Reply, Tx};
pub use setup::administered_router;
pub use words::stage_word;
