//! The bytes that answer a connection: its greeting, its login and its replies; and the connection's state.

mod access;
mod answers;
mod client_reply;
mod columns;
mod commands;
mod connection_state;
mod device;
mod devices;
mod end;
mod held_texts;
mod local_answers;
mod login;
mod named_columns;
mod prepared;
mod reply;
mod responder;
mod texts;

pub use access::{Access, Handshake};
pub use columns::columns_of;
pub use connection_state::{
    ConnectionState, PendingLogin, Phase, Settings, end_of, first_number, is_in_commands, is_new,
};
pub use device::Device;
pub(crate) use device::{Fetched, Unsent, drop_first, fetch, first_bytes, front_len, send};
pub use devices::{DeviceFailed, Reader, Sink, Source, Writer};
pub use end::{End, SessionFault, Turned};
pub use login::{keyspace_named, put_answer, put_response};
pub(crate) use reply::still;
pub use reply::{REPLY_ROOM, RowForm, put_pong, put_refusal};
pub use responder::{ReplyState, Responder};
