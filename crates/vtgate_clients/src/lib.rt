//! The clients of `vtgate serve`, over TCP: whom it lets in, their connections, and the workers that take turns at them. What a run of the program
//! needs. And what a server logs.
#![tactic(auto)]

mod acceptor;
mod admission;
mod arrivals;
pub mod census;
mod client;
mod connection;
mod cutover;
pub mod events;
mod keepalive;
mod listening;
mod progress;
pub mod schema_faults;
mod server;
pub mod setup;
mod socket;
mod statements;
mod streams;
mod turns;
mod welcome;
mod workers;

pub use acceptor::Acceptor;
pub use admission::{Admission, admission_of};
pub use arrivals::has_room;
pub use connection::{begin_connection, serve_connection};
pub use listening::{BoundPort, Ports, ServeConfig, bind, config_of, last_connection};
pub use progress::ServeProgress;
pub use server::Server;
pub use session::{
    Access, Conversation, Core, Device, DeviceFailed, End, Reader, SessionFault, ShownRows, Sink,
    Source, Writer, serve,
};
pub use shard::{ShardLaw, ShardPass, World};
pub use streams::{is_passing, read_for_now, write_for_now};
pub use workers::{can_start, serve_clients};
