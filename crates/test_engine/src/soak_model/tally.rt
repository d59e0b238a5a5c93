//! What is counted.
use crate::soak_model::statement::Verb;
use std::fmt;
use vt_value::Refusal;

/// The kinds of statements by their names, in their order.
const NAMES: [&str; 9] = [
    "INSERT",
    "UPDATE",
    "DELETE",
    "SELECT by key",
    "SELECT of all",
    "SELECT COUNT(*)",
    "BEGIN",
    "COMMIT",
    "ROLLBACK",
];

/// How many statements of each kind were run, and how many were refused by each number; the entries that the accepted ones make; and what the
/// administrators did.
#[derive(Clone, Copy)]
pub struct Tally {
    statements: [u64; 9],
    refusals: [u64; 25],
    pub entries: u64,
    pub worlds: u64,
    pub cutovers: u64,
    pub undone: u64,
    pub given_up: u64,
}

/// Counts one more.
pub fn count(counter: &mut u64) {
    *counter = counter.wrapping_add(1);
}

fn count_at(counters: &mut [u64], ordinal: usize) {
    if let Some(counter) = counters.get_mut(ordinal) {
        count(counter);
    }
}

fn add_each(counters: &mut [u64], more: &[u64]) {
    for (counter, more) in counters.iter_mut().zip(more.iter()) {
        *counter = counter.wrapping_add(*more);
    }
}

impl Tally {
    /// Nothing is counted yet.
    pub fn new() -> Tally {
        Tally {
            statements: [0; 9],
            refusals: [0; 25],
            entries: 0,
            worlds: 0,
            cutovers: 0,
            undone: 0,
            given_up: 0,
        }
    }

    /// A statement is run.
    pub fn ran(&mut self, verb: Verb) {
        count_at(&mut self.statements, verb as usize);
    }

    /// One was refused.
    pub fn refused(&mut self, refusal: Refusal) {
        count_at(&mut self.refusals, refusal.number() as usize);
    }

    /// How many statements were run.
    pub fn all(&self) -> u64 {
        let mut all = 0u64;
        for count in self.statements.iter() {
            all = all.wrapping_add(*count);
        }
        all
    }

    /// Adds another's counts.
    pub fn add(&mut self, other: &Tally) {
        add_each(&mut self.statements, &other.statements);
        add_each(&mut self.refusals, &other.refusals);
        self.entries = self.entries.wrapping_add(other.entries);
        self.worlds = self.worlds.wrapping_add(other.worlds);
        self.cutovers = self.cutovers.wrapping_add(other.cutovers);
        self.undone = self.undone.wrapping_add(other.undone);
        self.given_up = self.given_up.wrapping_add(other.given_up);
    }

    // Shows how many statements of each kind were run.
    fn show_statements<W: fmt::Write>(&self, f: &mut fmt::Formatter<W>) -> fmt::Result {
        for (name, count) in NAMES.iter().zip(self.statements.iter()) {
            write!(f, "{name}: {count}, ")?;
        }
        Ok(())
    }

    // Shows how many were refused by each number.
    fn show_refusals<W: fmt::Write>(&self, f: &mut fmt::Formatter<W>) -> fmt::Result {
        for number in 0..25usize {
            let count = self.refusals[number];
            if count > 0 {
                write!(f, "refused F{number}: {count}, ")?;
            }
        }
        Ok(())
    }
}

impl fmt::Display for Tally {
    fn fmt<W: fmt::Write>(&self, f: &mut fmt::Formatter<W>) -> fmt::Result {
        self.show_statements(f)?;
        self.show_refusals(f)?;
        let Tally {
            entries,
            worlds,
            cutovers,
            undone,
            given_up,
            ..
        } = *self;
        write!(
            f,
            "entries of sessions: {entries}, worlds: {worlds}, cutovers: {cutovers}, undone: {undone}, given up: {given_up}"
        )
    }
}
