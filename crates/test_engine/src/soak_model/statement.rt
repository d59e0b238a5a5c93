//! A session's statements.
use crate::soak_model::fault::SoakFault;
use shard_calls::Answer;
use std::fmt;
use vt_value::{Refusal, Row, Value};

/// What a statement does.
#[derive(Clone, Copy, PartialEq, Eq)]
pub enum Verb {
    Insert,
    Update,
    Delete,
    /// A SELECT of one row by its key.
    Find,
    /// A SELECT of all rows of a session, or of a table.
    Scatter,
    /// A SELECT COUNT(*) of them.
    Count,
    Begin,
    Commit,
    Rollback,
}

/// The ids that a statement names.
#[derive(Clone, Copy)]
pub enum Ids {
    /// None, as it isn't about rows.
    Nothing,
    /// Each that there is.
    All,
    One(u64),
    Two(u64, u64),
    /// From the first to the last before the other.
    Span(u64, u64),
}

/// A statement: its table's number, and the value that it gives to its rows.
#[derive(Clone, Copy)]
pub struct Statement {
    pub verb: Verb,
    pub table: u64,
    pub ids: Ids,
    pub value: u64,
}

impl Ids {
    /// Whether an id is among them.
    pub fn contain(self, id: u64) -> bool {
        match self {
            Ids::Nothing => false,
            Ids::All => true,
            Ids::One(one) => id == one,
            Ids::Two(one, other) => id == one || id == other,
            Ids::Span(first, end) => first <= id && id < end,
        }
    }
}

/// The end of a statement over rows of these ids.
impl fmt::Display for Ids {
    fn fmt<W: fmt::Write>(&self, f: &mut fmt::Formatter<W>) -> fmt::Result {
        match self {
            Ids::Nothing | Ids::All => Ok(()),
            Ids::One(id) => write!(f, " WHERE id = {id}"),
            Ids::Two(one, other) => write!(f, " WHERE id IN ({one}, {other})"),
            Ids::Span(first, end) => write!(f, " WHERE id >= {first} AND id < {end}"),
        }
    }
}

// Writes the rows of an INSERT.
fn write_rows<W: fmt::Write>(f: &mut fmt::Formatter<W>, ids: Ids, value: u64) -> fmt::Result {
    match ids {
        Ids::One(id) => write!(f, "({id}, {value})"),
        Ids::Two(one, other) => write!(f, "({one}, {value}), ({other}, {value})"),
        Ids::Nothing | Ids::All | Ids::Span(..) => Ok(()),
    }
}

/// Its text.
impl fmt::Display for Statement {
    fn fmt<W: fmt::Write>(&self, f: &mut fmt::Formatter<W>) -> fmt::Result {
        let Statement {
            verb,
            table,
            ids,
            value,
        } = *self;
        match verb {
            Verb::Insert => {
                write!(f, "INSERT INTO t{table} (id, c) VALUES ")?;
                write_rows(f, ids, value)
            }
            Verb::Update => write!(f, "UPDATE t{table} SET c = {value}{ids}"),
            Verb::Delete => write!(f, "DELETE FROM t{table}{ids}"),
            Verb::Find | Verb::Scatter => write!(f, "SELECT id, c FROM t{table}{ids}"),
            Verb::Count => write!(f, "SELECT COUNT(*) FROM t{table}{ids}"),
            Verb::Begin => f.write_str("BEGIN"),
            Verb::Commit => f.write_str("COMMIT"),
            Verb::Rollback => f.write_str("ROLLBACK"),
        }
    }
}

/// The number that a value is.
pub fn number(value: &Value) -> Option<u64> {
    match value {
        Value::Int(number) => u64::try_from(*number).ok(),
        _ => None,
    }
}

// The number that a query gave in its one row.
fn only_number(rows: &[Row]) -> Option<u64> {
    match rows {
        [row] => match row.as_slice() {
            [value] => number(value),
            _ => None,
        },
        _ => None,
    }
}

impl Statement {
    /// Whether it writes rows.
    pub fn is_command(&self) -> bool {
        matches!(self.verb, Verb::Insert | Verb::Update | Verb::Delete)
    }

    /// How many rows it counted, gave or changed.
    pub fn told(&self, answer: &Answer) -> Option<u64> {
        match (self.verb, answer) {
            (Verb::Count, Answer::Rows(selected)) => {
                selected.rows.whole().and_then(|rows| only_number(rows))
            }
            (Verb::Find | Verb::Scatter, Answer::Rows(selected)) => Some(
                selected.rows.len() as u64,
            ),
            (_, Answer::Rows(_)) => None,
            (Verb::Count | Verb::Find | Verb::Scatter, Answer::Count(_)) => None,
            (_, Answer::Count(count)) => Some(*count),
        }
    }

    /// So many rows it is to count, give or change.
    pub fn check_number(&self, wanted: u64, answer: &Answer) -> Result<(), SoakFault> {
        let told = self.told(answer);
        if told == Some(wanted) {
            return Ok(());
        }
        Err(SoakFault::Statement("told and wanted", *self, told, Some(wanted)))
    }

    /// Whether it may be refused so whatever the rows are. One that needs a shard alone waits for it; in a transaction it is refused. There is memory
    /// for all that a soak does, so no statement may be refused for want of it.
    pub fn may_be_refused(&self, refusal: Refusal, within: bool) -> bool {
        match refusal {
            Refusal::SeveralShards => within || matches!(self.ids, Ids::Two(..)),
            Refusal::BufferFull => !within,
            Refusal::Conflict | Refusal::ShardMoved => within,
            _ => false,
        }
    }
}
