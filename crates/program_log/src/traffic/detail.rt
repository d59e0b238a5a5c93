//! How much is kept of a connection.

/// How much of a connection is kept.
#[derive(Clone, Copy, Debug, PartialEq, Eq)]
pub enum Detail {
    /// How many bytes came and went.
    Bytes,
    /// The login, and how many statements and refusals there were, too.
    Counts,
    /// The text of each statement and its rows, too.
    Statements,
}

impl Detail {
    /// Whether the packets are looked at.
    pub fn has_counts(self) -> bool {
        self != Detail::Bytes
    }

    /// Whether statements are logged one by one.
    pub fn has_statements(self) -> bool {
        self == Detail::Statements
    }
}
