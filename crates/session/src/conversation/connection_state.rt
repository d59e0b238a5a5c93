//! The state of a session.
ghost use Rattle.std.specs.Prelude.{◌≡◌, ◌↔◌, false};
ghost use Rattle.session.specs.conversation.ConnectionStates.{first_number, is_in_commands, end_of, settings_at_first, HasGreeted};

use crate::conversation::end::End;
use prepared_statements::Held;

/// What is kept of a client's response to the greeting until its answer comes: the capabilities that both sides set, whether its user and
/// its database are right, and the keyspace that this is, by its ordinal in the VSchema.
#[derive(Clone, Copy, Debug, PartialEq, Eq)]
pub struct PendingLogin {
    pub capabilities: u32,
    pub is_user: bool,
    pub is_database: bool,
    pub keyspace: Option<usize>,
}

/// What holds for a client's commands: the capabilities that both sides set, whether a statement outside a transaction commits by itself, and
/// the keyspace in use, by its ordinal in the VSchema.
#[derive(Clone, Copy, Debug, PartialEq, Eq)]
pub struct Settings {
    pub capabilities: u32,
    pub autocommit: bool,
    pub keyspace: Option<usize>,
}

impl Settings {
    /// Those of a client that was just let in, or begins anew.
    pub fn at_first(capabilities: u32, keyspace: Option<usize>) -> Settings
        ensures { result ≡ settings_at_first capabilities keyspace }
    {
        Settings {
            capabilities,
            autocommit: true,
            keyspace,
        }
    }

    /// The same with autocommit so.
    pub fn with_autocommit(self, autocommit: bool) -> Settings
        ensures { result ≡ record self { autocommit = autocommit } }
    {
        Settings {
            capabilities: self.capabilities,
            autocommit,
            keyspace: self.keyspace,
        }
    }
}

/// What a session awaits from its client.
#[derive(Drop)]
pub enum Phase {
    /// The response to the greeting.
    Response,
    /// The answer to the request to switch to `mysql_native_password`.
    Switch(PendingLogin),
    /// Commands, with what holds for them and the statements that the client has prepared.
    Commands(Settings, Held),
}

/// The session's state: nothing is written yet, it goes on, or it has ended.
#[derive(Drop)]
pub enum ConnectionState {
    New,
    At(Phase),
    Ended(End),
}

/// The sequence number with which the next payload begins.
pub fn first_number(phase: &Phase) -> u8
    ensures { result ≡ first_number phase.now }
{
    match phase {
        Phase::Response => 1,
        Phase::Switch(_) => 3,
        Phase::Commands(_, _) => 0,
    }
}

/// How the session ended, if it did.
pub fn end_of(connection_state: &ConnectionState) -> Option<End>
    ensures { result ≡ end_of connection_state.now }
{
    match connection_state {
        ConnectionState::New => None,
        ConnectionState::At(_) => None,
        ConnectionState::Ended(end) => Some(*end),
    }
}

/// Whether the session has yet to greet its client.
pub fn is_new(connection_state: &ConnectionState) -> bool
    ensures { result ≡ false ↔ HasGreeted connection_state.now }
{
    match connection_state {
        ConnectionState::New => true,
        ConnectionState::At(_) => false,
        ConnectionState::Ended(_) => false,
    }
}

/// Whether the client was let in, and the session awaits its commands.
pub fn is_in_commands(connection_state: &ConnectionState) -> bool
    ensures { result ≡ is_in_commands connection_state.now }
{
    matches!(connection_state, ConnectionState::At(Phase::Commands(_, _)))
}
