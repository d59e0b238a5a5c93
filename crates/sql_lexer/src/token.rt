//! Tokens of SQL. They borrow nothing: a token has its kind, and where it begins and ends.
use vt_value::Comparison;

/// A keyword, which a text has in any case.
#[derive(Clone, Copy, Debug, PartialEq, Eq)]
pub enum Keyword {
    And,
    Asc,
    Begin,
    By,
    Commit,
    Count,
    Delete,
    Desc,
    From,
    Group,
    In,
    Inner,
    Insert,
    Into,
    Is,
    Join,
    Limit,
    Max,
    Min,
    Names,
    Not,
    Null,
    Offset,
    On,
    Or,
    Order,
    Rollback,
    Select,
    Set,
    Start,
    Sum,
    Transaction,
    Update,
    Values,
    Where,
}

/// A sign of one byte that is no operator.
#[derive(Clone, Copy, Debug, PartialEq, Eq)]
pub enum Sign {
    LeftParenthesis,
    RightParenthesis,
    Comma,
    Semicolon,
    Star,
    Minus,
    Dot,
}

/// What a token is; what it says is in its bytes.
#[derive(Clone, Copy, Debug, PartialEq, Eq)]
pub enum TokenKind {
    Keyword(Keyword),
    /// A bare word that is no keyword.
    Word,
    /// A word between backquotes.
    Quoted,
    /// Decimal digits, any number of them.
    Number,
    /// A text between single quotes.
    Text,
    Sign(Sign),
    /// A comparison; `!=` and `<>` are one.
    Operator(Comparison),
}

/// A token, whose bytes are in its text from `start` up to `end`.
#[derive(Clone, Copy, Debug, PartialEq, Eq)]
pub struct Token {
    pub kind: TokenKind,
    pub start: usize,
    pub end: usize,
}
