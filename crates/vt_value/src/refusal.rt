//! Every refusal, with the number, code, state and message by which a client sees it.
ghost use Rattle.std.specs.Prelude.{◌≡◌, Some};
ghost use Rattle.vt_value.specs.Refusals.{entry_of, refusal_number, code_of, state_of, message_of};

use std::alloc::{AllocError, AllocFailed};
use std::fmt;
use thiserror::Error;

/// Why a statement, a packet or a connection is refused.
#[derive(Clone, Copy, Debug, PartialEq, Eq, Error)]
pub enum Refusal {
    /// A growth was refused.
    OutOfMemory,
    /// The text has no tree in the grammar, or passes one of its limits.
    SyntaxError,
    /// A comparison or a value mixes numbers and texts, or a form is outside the profile.
    NotSupported,
    /// No table has this name.
    UnknownTable,
    /// The table has no column of this name.
    UnknownColumn,
    /// No keyspace has this name.
    UnknownKeyspace,
    /// The user or the response to the salt is wrong.
    AccessDenied,
    /// The payload is empty, or its first byte is no command of the profile.
    UnknownCommand,
    /// The payload is longer than the limit.
    PacketTooLarge,
    /// A sequence number is wrong.
    PacketsOutOfOrder,
    /// The handshake response can't be read, or a needed capability isn't set.
    BadHandshake,
    /// The primary key is there already, or twice in the INSERT.
    DuplicateKey,
    /// NULL for a NOT NULL column.
    NullNotAllowed,
    /// A NOT NULL column that the INSERT doesn't name.
    NoDefaultValue,
    /// A number outside its column's type.
    OutOfRange,
    /// A text longer than its column.
    TooLong,
    /// A row's values and the columns differ in number.
    WrongValueCount,
    /// A column is named twice in an INSERT's list or in SET.
    ColumnNamedTwice,
    /// A column of an aggregated query is neither grouped nor aggregated.
    NotGrouped,
    /// The statement needs more than one shard.
    SeveralShards,
    /// Another session changed a table that the transaction touched.
    Conflict,
    /// As many statements as may wait for a cutover wait already.
    BufferFull,
    /// The transaction's shard is frozen or no longer serves.
    ShardMoved,
    /// A limit of a shard or of a session's numbers would be passed.
    ShardFull,
    /// The server has no variable of this name.
    UnknownVariable,
    /// The text needs a keyspace, and the session has none.
    NoKeyspace,
}

/// Each refusal, in the order of their numbers.
pub const REFUSALS: [Refusal; 26] = [
    Refusal::OutOfMemory,
    Refusal::SyntaxError,
    Refusal::NotSupported,
    Refusal::UnknownTable,
    Refusal::UnknownColumn,
    Refusal::UnknownKeyspace,
    Refusal::AccessDenied,
    Refusal::UnknownCommand,
    Refusal::PacketTooLarge,
    Refusal::PacketsOutOfOrder,
    Refusal::BadHandshake,
    Refusal::DuplicateKey,
    Refusal::NullNotAllowed,
    Refusal::NoDefaultValue,
    Refusal::OutOfRange,
    Refusal::TooLong,
    Refusal::WrongValueCount,
    Refusal::ColumnNamedTwice,
    Refusal::NotGrouped,
    Refusal::SeveralShards,
    Refusal::Conflict,
    Refusal::BufferFull,
    Refusal::ShardMoved,
    Refusal::ShardFull,
    Refusal::UnknownVariable,
    Refusal::NoKeyspace,
];

/// How a refusal is seen.
#[derive(Clone, Copy)]
struct Entry {
    number: u8,
    code: u16,
    state: &'static str,
    message: &'static str,
}

impl Entry {
    fn new(number: u8, code: u16, state: &'static str, message: &'static str) -> Entry
        ensures number { result.number ≡ number }
        ensures code { result.code ≡ code }
        ensures state { result.state.now ≡ state.now }
        ensures message { result.message.now ≡ message.now }
    {
        Entry {
            number,
            code,
            state,
            message,
        }
    }
}

impl Refusal {
    // The table of the refusals: number, error code, SQL state and message.
    fn entry(self) -> Entry
        ensures { entry_of self ≡ record { number = result.number; code = result.code; state = result.state.now; message = result.message.now } }
    {
        match self {
            Refusal::OutOfMemory => Entry::new(1, 1037, "HY001", "out of memory"),
            Refusal::SyntaxError => Entry::new(2, 1064, "42000", "syntax error"),
            Refusal::NotSupported => Entry::new(3, 1235, "42000", "not supported"),
            Refusal::UnknownTable => Entry::new(4, 1146, "42S02", "no such table"),
            Refusal::UnknownColumn => Entry::new(5, 1054, "42S22", "no such column"),
            Refusal::UnknownKeyspace => Entry::new(6, 1049, "42000", "no such database"),
            Refusal::AccessDenied => Entry::new(7, 1045, "28000", "access denied"),
            Refusal::UnknownCommand => Entry::new(8, 1047, "08S01", "unknown command"),
            Refusal::PacketTooLarge => Entry::new(9, 1153, "08S01", "packet too large"),
            Refusal::PacketsOutOfOrder => Entry::new(10, 1156, "08S01", "packets out of order"),
            Refusal::BadHandshake => Entry::new(11, 1043, "08S01", "bad handshake"),
            Refusal::DuplicateKey => Entry::new(12, 1062, "23000", "duplicate key"),
            Refusal::NullNotAllowed => Entry::new(13, 1048, "23000", "column cannot be null"),
            Refusal::NoDefaultValue => Entry::new(14, 1364, "HY000", "no default value"),
            Refusal::OutOfRange => Entry::new(15, 1264, "22003", "value out of range"),
            Refusal::TooLong => Entry::new(16, 1406, "22001", "value too long"),
            Refusal::WrongValueCount => Entry::new(17, 1136, "21S01", "wrong value count"),
            Refusal::ColumnNamedTwice => Entry::new(18, 1110, "42000", "column named twice"),
            Refusal::NotGrouped => Entry::new(19, 1055, "42000", "column not grouped"),
            Refusal::SeveralShards => Entry::new(20, 1105, "HY000", "more than one shard"),
            Refusal::Conflict => Entry::new(21, 1213, "40001", "conflict"),
            Refusal::BufferFull => Entry::new(22, 1105, "HY000", "buffer full"),
            Refusal::ShardMoved => Entry::new(23, 1105, "HY000", "shard moved"),
            Refusal::ShardFull => Entry::new(24, 1114, "HY000", "shard full"),
            Refusal::UnknownVariable => Entry::new(25, 1193, "HY000", "no such variable"),
            Refusal::NoKeyspace => Entry::new(26, 1046, "3D000", "no database selected"),
        }
    }

    // Promise: Each refusal has its number, code, state and message, and shows its message
    // With: Refusal::{code, state, message, fmt}
    /// The number by which the documents and the admin port name the refusal, 1 to 26.
    pub fn number(self) -> u8
        ensures { result ≡ refusal_number self }
    {
        self.entry().number
    }

    /// The error code of the ERR packet.
    pub fn code(self) -> u16
        ensures { result ≡ code_of self }
    {
        self.entry().code
    }

    /// The SQL state of the ERR packet, five ASCII bytes.
    pub fn state(self) -> &'static str
        ensures { result.now ≡ state_of self }
    {
        self.entry().state
    }

    /// The message of the ERR packet, in ASCII.
    pub fn message(self) -> &'static str
        ensures { result.now ≡ message_of self }
    {
        self.entry().message
    }
}

/// The message of the ERR packet.
impl fmt::Display for Refusal {
    ghost output = { λ refusal. Some (message_of refusal) };

    fn fmt<W: fmt::Write>(&self, f: &mut fmt::Formatter<W>) -> fmt::Result {
        f.write_str(self.message())
    }
}

impl From<AllocError> for Refusal {
    ghost use Rattle.vt_value.specs.declared.refusal.Refusal.TheVariants.{OutOfMemory};

    ghost from_gives = { λ _ e. e ≡ OutOfMemory };

    fn from(_error: AllocError) -> Refusal {
        Refusal::OutOfMemory
    }
}

impl<T: Drop> From<AllocFailed<T>> for Refusal {
    ghost use Rattle.vt_value.specs.declared.refusal.Refusal.TheVariants.{OutOfMemory};

    ghost from_gives = { λ _ e. e ≡ OutOfMemory };

    fn from(_failed: AllocFailed<T>) -> Refusal {
        Refusal::OutOfMemory
    }
}
