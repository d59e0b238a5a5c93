//! Cases and scenes of what lies below a shard, of what threads share, and of the log.
#![tactic(auto)]

pub mod cases;
pub mod logging;
pub mod threads;
