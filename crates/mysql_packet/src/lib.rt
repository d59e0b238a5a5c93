//! The packets of the MySQL client/server protocol: payloads as frames on a stream of bytes.
#![tactic(auto)]

mod framer;
mod front;
mod laws;
mod payload;

pub use framer::{Fed, Framer, HeaderFault, Payload};
pub use laws::{bounded_rest, one_framing, read_back};
pub use payload::put_payload;
