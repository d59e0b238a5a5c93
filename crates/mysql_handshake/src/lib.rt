//! The messages of the connection phase of the MySQL client/server protocol, the test of a native password, and the salts of connections.
#![tactic(auto)]

mod native;
mod response;
mod salt;
mod written;

pub use native::verify_native;
pub use response::{
    CONNECT_WITH_DB, DEPRECATE_EOF, PLUGIN_AUTH, PROTOCOL_41, Response, SECURE_CONNECTION, is_set,
    read_response,
};
pub use salt::salt_of;
pub use written::{HANDSHAKE_ROOM, put_auth_switch, put_greeting};
