//! A session: the bytes that come in, and the bytes that go out.
#![tactic(auto)]

pub mod conversation;
mod serve_loop;
mod session_core;
mod turns;

pub use crate::conversation::{
    Access, ConnectionState, Device, DeviceFailed, End, Handshake, PendingLogin, Phase, Reader,
    SessionFault, Settings, Sink, Source, Turned, Writer,
};
pub use route_engine::{Engine, Gate, ShownRows};
pub use serve_loop::serve;
pub use session_core::{COMMAND_LIMIT, Core};
pub use turns::Conversation;
