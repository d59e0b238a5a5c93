//! A sorted map in chunks that snapshots share.
#![tactic(auto)]

mod chunk;
mod chunks;
mod map;
mod walk;

pub use chunk::Same;
pub use map::ChunkMap;
pub use walk::{Walk, WalkBack};
