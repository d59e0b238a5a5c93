//! Tokens of what a client says. They borrow nothing: a token has its kind, and where it begins and ends.

/// A word that the grammar of client statements names; a text has it in any case.
#[derive(Clone, Copy, Debug, PartialEq, Eq)]
pub enum Keyword {
    And,
    As,
    Begin,
    Between,
    By,
    Character,
    Charset,
    Collate,
    Columns,
    Commit,
    Committed,
    Concat,
    ConnectionId,
    Consistent,
    Count,
    CurrentUser,
    Database,
    Databases,
    Default,
    Delete,
    Desc,
    Describe,
    Distinct,
    False,
    Fields,
    From,
    Full,
    Global,
    Group,
    Having,
    In,
    Inner,
    Insert,
    Into,
    Is,
    Isolation,
    Join,
    Level,
    Like,
    Limit,
    Local,
    Names,
    Not,
    Null,
    Off,
    Offset,
    On,
    Only,
    Or,
    Order,
    Read,
    Repeatable,
    Rollback,
    Schema,
    Schemas,
    Select,
    Serializable,
    Session,
    SessionUser,
    Set,
    Show,
    Snapshot,
    Start,
    SystemUser,
    Tables,
    Transaction,
    True,
    Uncommitted,
    Update,
    Use,
    User,
    Value,
    Values,
    Variables,
    Version,
    Warnings,
    Where,
    With,
    Work,
    Write,
}

/// A sign.
#[derive(Clone, Copy, Debug, PartialEq, Eq)]
pub enum Sign {
    Equal,
    /// `:=`
    Assign,
    Comma,
    Dot,
    LeftParenthesis,
    RightParenthesis,
    Semicolon,
    Star,
    Minus,
}

/// What a token is; what it says is in its bytes.
#[derive(Clone, Copy, Debug, PartialEq, Eq)]
pub enum TokenKind {
    /// A bare word, and which keyword it is.
    Word(Option<Keyword>),
    /// Anything between backquotes.
    Name,
    /// A word after `@@`.
    Variable,
    /// Decimal digits, any number of them.
    Number,
    /// A text between single or double quotes.
    Text,
    /// Bytes of `<`, `=`, `>`, `!`, `&` and `|` up to another byte, but for a single `=`.
    Operator,
    Sign(Sign),
}

/// A token, whose bytes are in its text from `start` up to `end`.
#[derive(Clone, Copy, Debug, PartialEq, Eq)]
pub struct Token {
    pub kind: TokenKind,
    pub start: usize,
    pub end: usize,
}
