//! How a session ends, and why it can't go on.

/// How a session ended.
#[derive(Clone, Copy, Debug, PartialEq, Eq)]
pub enum End {
    /// By COM_QUIT.
    Quit,
    /// The input ended in the command phase, between two payloads.
    Closed,
    /// The input ended within a payload, or before the client was let in.
    Truncated,
    /// By a packet that is too large or out of order, or by a fault.
    Broken,
    /// In the connection phase, by a response that can't be read, or by a wrong user, answer or database.
    Denied,
}

/// Why a session can't go on: a device failed, or there is no memory to take its input.
#[derive(Clone, Copy, Debug, PartialEq, Eq)]
pub enum SessionFault {
    Read,
    Write,
    Memory,
}

/// What a turn of a conversation came to.
#[derive(Clone, Copy, Debug, PartialEq, Eq)]
pub enum Turned {
    /// There is nothing to do for now: the client is to say more, or to take what was written.
    Waits,
    /// There may be more to do at once.
    HasMore,
    /// The conversation is over: all that it wrote is taken, or it can't go on.
    Over(Result<End, SessionFault>),
}
