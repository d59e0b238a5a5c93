//! `vtgate serve`: the clients' port and the admin port, each in threads of its own. And `vtgate script` and `vtgate plan`.
#![tactic(auto)]

mod admin_client;
mod admin_port;
mod lines;
mod ports;
pub mod script;
mod serve;
pub mod setup;

pub use admin::{Engine, Gate, Open, router};
pub use admin_client::{BrokenOff, LONGEST_LINE, talk};
pub use serve::{run_serve, serve_opened};
pub use vtgate_clients::{
    Access, BoundPort, Conversation, Core, Device, DeviceFailed, End, Ports, Reader, ServeConfig,
    SessionFault, ShardLaw, ShardPass, Sink, Source, World, Writer, config_of,
    serve as serve_session,
};
