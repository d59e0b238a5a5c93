//! Threads that serve connections. One lets them in, and puts them into a queue. What is taken from it is, in the order of taking, a prefix of what
//! was put, each once. The others are workers. Each connection is taken by one of them, which begins its conversation. That then lies in a place:
//! any worker takes a turn at a conversation whose socket is told to be ready.
#![tactic(auto)]

mod places;
mod pool;
mod queue;
mod signal;
mod turn_pool;
mod turns;

pub use pool::{ConnectionSource, NotRun, Sizes, run_turns};
pub use queue::{
    ConnectionQueue, Joined, Known, Order, QueueView, absorb, new_taker, open, put, take,
};
pub use readiness::{Readiness, Told, Wanted};
pub use turns::{Connected, Sockets, Turned};
