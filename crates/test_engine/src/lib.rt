//! Scenes of shards and of a router, and a soak of splits and merges beside sessions.
#![tactic(auto)]

pub mod router;
pub mod shard_limits;
pub mod soak;
pub mod soak_model;
