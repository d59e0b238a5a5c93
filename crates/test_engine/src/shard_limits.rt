//! Writes and reads of a shard that has small limits, and the law of shards as others cite it.

mod answers;
mod playing;
mod transactions;
mod writing;

pub use answers::answer;
