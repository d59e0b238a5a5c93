//! Eight sessions write, transact and scatter, each in a thread of its own, while shards are split and merged back again and again, over a new
//! router each time that the slots of one are used up. Each answer, and the rows at the end of each router, are compared with those of the
//! accepted commands.

mod answers;
mod controller;
mod lines;
mod session;
mod watch;
mod world;

pub use answers::answer;
