//! What threads share: a journal's run, a keyspace's partitions, the queue of connections, and a buffer.

mod answers;
mod partitions;
mod queues;
mod runs;
mod snapshots;
mod waiting;

pub use answers::answer;
