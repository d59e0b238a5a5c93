//! The model of a session: what it says next, what that is to answer, and its rows by its accepted commands.
use crate::soak_model::fault::{SoakFault, same};
use crate::soak_model::rows::{KEYS, SessionRows};
use crate::soak_model::statement::{Ids, Statement, Verb};
use crate::soak_model::tally::{Tally, count};
use rand_core::utils::NextWord;
use rand_pcg::Pcg32;
use shard_calls::Answer;
use vt_value::Refusal;

/// Keys that have the same low bits of their ids: with two such bits they lie on one shard, whatever shards there are; with fewer a split may
/// part them.
#[derive(Clone, Copy)]
struct Group {
    mask: u32,
    low: u32,
}

/// What a session has done, and what it has begun.
#[derive(Drop)]
pub struct SessionModel {
    number: u64,
    choices: Pcg32,
    // its rows, and those that stay if the open transaction is undone
    rows: SessionRows,
    kept: SessionRows,
    // the value of the last command
    value: u64,
    // the keys of its next statements; how many statements are left of the transaction; whether it is committed then
    group: Group,
    left: u32,
    commits: bool,
    // whether a command was accepted that may be undone
    is_written: bool,
    /// What it has counted.
    pub tally: Tally,
    /// Why it ended early.
    pub ended: Result<(), SoakFault>,
}

impl SessionModel {
    /// The session of this number, without rows. Its choices are the same for one seed.
    pub fn new(number: u64, seed: u64) -> SessionModel {
        SessionModel {
            number,
            choices: Pcg32::new(seed, number),
            rows: SessionRows::new(number),
            kept: SessionRows::new(number),
            value: 0,
            group: Group { mask: 0, low: 0 },
            left: 0,
            commits: false,
            is_written: false,
            tally: Tally::new(),
            ended: Ok(()),
        }
    }

    // The table of its rows: two sessions share one.
    fn table(&self) -> u64 {
        self.number / 2
    }

    // A number below this one, or 0 if there is none.
    fn below(&mut self, end: u32) -> u32 {
        let any = self.choices.next_word();
        if end == 0 { 0 } else { any % end }
    }

    // Goes on with some group.
    fn regroup(&mut self) {
        let mask = match self.below(4) {
            0 => 0,
            1 => 1,
            _ => 3,
        };
        self.group = Group {
            mask,
            low: self.choices.next_word(),
        };
    }

    // The id of some key of the group.
    fn key(&mut self) -> u64 {
        let ordinal = self.below(KEYS as u32);
        let Group { mask, low } = self.group;
        self.rows.id(u64::from((ordinal & !mask) | (low & mask)))
    }

    // A statement over its table.
    fn over(&self, verb: Verb, ids: Ids) -> Statement {
        Statement {
            verb,
            table: self.table(),
            ids,
            value: self.value,
        }
    }

    // Some command, of one row or of two. Its value wasn't used before.
    fn command(&mut self) -> Statement {
        let verb = match self.below(8) {
            0..=2 => Verb::Insert,
            3..=5 => Verb::Update,
            _ => Verb::Delete,
        };
        let one = self.key();
        let other = self.key();
        let are_two = other != one && self.below(4) == 0;
        count(&mut self.value);
        let ids = if are_two {
            Ids::Two(one, other)
        } else {
            Ids::One(one)
        };
        self.over(verb, ids)
    }

    fn find(&mut self) -> Statement {
        let id = self.key();
        self.over(Verb::Find, Ids::One(id))
    }

    // Begins a transaction of some statements, which is committed three times in four.
    fn begin(&mut self) -> Statement {
        self.left = self.below(5);
        self.commits = self.below(4) > 0;
        self.over(Verb::Begin, Ids::Nothing)
    }

    // The next statement of a transaction. One that isn't committed is rolled back.
    fn choose_within(&mut self) -> Statement {
        if self.left > 0 {
            self.left = self.left.wrapping_sub(1);
            return if self.below(3) == 0 {
                self.find()
            } else {
                self.command()
            };
        }
        let commits = self.commits;
        self.commits = false;
        let verb = if commits {
            Verb::Commit
        } else {
            Verb::Rollback
        };
        self.over(verb, Ids::Nothing)
    }

    /// The next statement, in a transaction if one is open.
    pub fn choose(&mut self, within: bool) -> Statement {
        if within {
            return self.choose_within();
        }
        self.regroup();
        match self.below(20) {
            0..=8 => self.command(),
            9..=11 => self.find(),
            12..=16 => self.begin(),
            17 | 18 => self.over(Verb::Scatter, self.rows.all()),
            _ => self.over(Verb::Count, self.rows.all()),
        }
    }

    // How many rows a statement is to tell, or why it is refused if its shard takes it.
    fn wanted(&self, statement: &Statement) -> Result<u64, Refusal> {
        let there = self.rows.among(statement.ids).count();
        match (statement.verb, statement.ids) {
            (Verb::Insert, _) if there > 0 => Err(Refusal::DuplicateKey),
            (Verb::Insert, Ids::Two(..)) => Ok(2),
            (Verb::Insert, _) => Ok(1),
            _ => Ok(there),
        }
    }

    // All that was done so far stays. What is written is one entry.
    fn keep(&mut self) {
        self.kept = self.rows;
        if self.is_written {
            count(&mut self.tally.entries);
        }
        self.is_written = false;
    }

    // The open transaction is undone, if one is.
    fn undo(&mut self) {
        self.rows = self.kept;
        self.is_written = false;
    }

    // A statement was accepted, and answered this.
    fn accept(
        &mut self,
        statement: &Statement,
        answer: &Answer,
        within: bool,
    ) -> Result<(), SoakFault> {
        let Ok(wanted) = self.wanted(statement) else {
            let told = statement.told(answer);
            return Err(SoakFault::Statement("a key is there", *statement, told, None));
        };
        statement.check_number(wanted, answer)?;
        self.rows.check(statement, answer)?;
        if statement.is_command() {
            self.rows.apply(statement);
            self.is_written = true;
        }
        if !within || statement.verb == Verb::Commit {
            self.keep();
        }
        Ok(())
    }

    // A statement was refused.
    fn refuse(
        &mut self,
        statement: &Statement,
        refusal: Refusal,
        within: bool,
    ) -> Result<(), SoakFault> {
        self.tally.refused(refusal);
        let wanted = self.wanted(statement);
        if wanted == Err(refusal) || statement.may_be_refused(refusal, within) {
            return Ok(());
        }
        let number = u64::from(refusal.number());
        Err(SoakFault::Statement("refused by F", *statement, Some(number), wanted.ok()))
    }

    /// Compares what a statement was answered with what it is to be, and does to the rows what it says. It was said in a transaction or not, and
    /// one is open after it or not: what wasn't committed is undone.
    pub fn settle(
        &mut self,
        statement: &Statement,
        told: Result<Answer, Refusal>,
        within: bool,
        is_open: bool,
    ) -> Result<(), SoakFault> {
        let settled = match &told {
            Ok(answer) => self.accept(statement, answer, within),
            Err(refusal) => self.refuse(statement, *refusal, within),
        };
        if !is_open {
            self.undo();
        }
        settled
    }

    /// The session has ended, early or not, and no transaction of it is open. It is to have its number, and as many statements as were numbered.
    pub fn end(&mut self, session: Option<u64>, statements: u64, ended: Result<(), SoakFault>) {
        self.undo();
        let session = session.unwrap_or(u64::MAX);
        self.ended = ended
            .and(same("the session's numbers", session, self.number))
            .and(same("statements numbered and run", statements, self.tally.all()));
    }
}

/// A query over a whole table has to return the rows of the models.
pub fn check_whole(
    books: &[SessionModel],
    statement: &Statement,
    answer: &Answer,
) -> Result<(), SoakFault> {
    let mut all = 0u64;
    for book in books {
        if book.table() == statement.table {
            book.rows.check(statement, answer)?;
            all = all.wrapping_add(book.rows.count());
        }
    }
    statement.check_number(all, answer)
}
