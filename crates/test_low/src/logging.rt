//! Scenes of the log: lines of records, a queue that is full, a device that fails, what a connection's bytes show, and where a VSchema's fault lies.

mod answers;
mod devices;
mod lines;
mod losses;
mod traffic;

pub use answers::answer;
