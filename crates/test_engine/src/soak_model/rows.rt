//! The rows of a session by its accepted commands.
use crate::soak_model::fault::SoakFault;
use crate::soak_model::statement::{Ids, Statement, Verb, number};
use shard_calls::Answer;
use vt_value::Row;

/// How many keys a session has.
pub const KEYS: usize = 128;

/// How far the first ids of two sessions are apart.
const APART: u64 = 1 << 20;

/// Rows of a session: the value of each of its keys that has one.
#[derive(Clone, Copy)]
pub struct SessionRows {
    first: u64,
    values: [Option<u64>; KEYS],
}

// The id and the value of a row.
fn cells(row: &Row) -> (Option<u64>, Option<u64>) {
    match row.as_slice() {
        [id, value] => (number(id), number(value)),
        _ => (None, None),
    }
}

impl SessionRows {
    /// The session of this number has no row yet.
    pub fn new(number: u64) -> SessionRows {
        SessionRows {
            first: number.wrapping_mul(APART),
            values: [None; KEYS],
        }
    }

    /// The id of the key at an ordinal.
    pub fn id(&self, ordinal: u64) -> u64 {
        self.first.wrapping_add(ordinal)
    }

    /// The ids of all its keys.
    pub fn all(&self) -> Ids {
        Ids::Span(self.first, self.id(KEYS as u64))
    }

    /// How many rows there are.
    pub fn count(&self) -> u64 {
        let mut count = 0u64;
        for ordinal in 0..KEYS {
            if self.values[ordinal].is_some() {
                count = count.wrapping_add(1);
            }
        }
        count
    }

    /// Those that have these ids.
    pub fn among(&self, ids: Ids) -> SessionRows {
        let mut among = *self;
        for ordinal in 0..KEYS {
            if !ids.contain(self.id(ordinal as u64)) {
                among.values[ordinal] = None;
            }
        }
        among
    }

    /// Does what a command says that was accepted.
    pub fn apply(&mut self, statement: &Statement) {
        for ordinal in 0..KEYS {
            if statement.ids.contain(self.id(ordinal as u64)) {
                self.values[ordinal] = match (statement.verb, self.values[ordinal]) {
                    (Verb::Insert, _) => Some(statement.value),
                    (Verb::Update, Some(_)) => Some(statement.value),
                    (Verb::Delete, _) => None,
                    (_, kept) => kept,
                };
            }
        }
    }

    // Takes away a row that was found; whether it was there, or is another session's.
    fn take(&mut self, id: Option<u64>, value: Option<u64>) -> bool {
        let Some(id) = id else {
            return false;
        };
        let ordinal = id.wrapping_sub(self.first);
        if ordinal >= KEYS as u64 {
            return true;
        }
        let kept = self.values[ordinal as usize];
        self.values[ordinal as usize] = None;
        kept.is_some() && kept == value
    }

    // Takes away each row that was found.
    fn take_each(&mut self, statement: &Statement, found: &[Row]) -> Result<(), SoakFault> {
        for row in found {
            let (id, value) = cells(row);
            if !self.take(id, value) {
                return Err(SoakFault::Statement("not accepted last", *statement, id, value));
            }
        }
        Ok(())
    }

    /// A query gave those of these rows that it names, each once, with rows of other sessions.
    pub fn check(&self, statement: &Statement, answer: &Answer) -> Result<(), SoakFault> {
        let (Verb::Find | Verb::Scatter, Answer::Rows(selected)) = (statement.verb, answer) else {
            return Ok(());
        };
        let Some(found) = selected.rows.whole() else {
            return Err(SoakFault::Statement("values were given twice", *statement, None, None));
        };
        let mut left = self.among(statement.ids);
        left.take_each(statement, found)?;
        match left.count() {
            0 => Ok(()),
            count => Err(SoakFault::Statement("rows weren't given", *statement, Some(count), None)),
        }
    }
}
