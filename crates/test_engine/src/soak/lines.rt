//! The lines of the administrator, and what their replies say.
use crate::soak_model::{SoakFault, Tally, count};
use admin::{AdminReply, CutoverStep, ReshardFault};

/// What is begun again and again: shards are split, or merged, and put back.
pub const TURNS: [[&str; 2]; 3] = [
    ["create -80 -40,40-80", "create -40,40-80 -80"],
    ["create 80- 80-c0,c0-", "create 80-c0,c0- 80-"],
    ["create -80,80- -", "create - -80,80-"],
];

// Targets are brought forward and come to serve.
const STRAIGHT: &[&str] = &["step", "switch", "complete"];

// A cutover is undone before a source is retired, and begun again.
const UNDONE: &[&str] = &["step", "advance", "resume", "step", "switch", "complete"];

// The workflow is given up.
const GIVEN_UP: &[&str] = &["step", "cancel"];

// Both.
const UNDONE_GIVEN_UP: &[&str] = &["step", "advance", "resume", "step", "cancel"];

/// What is said of a workflow that was created: one cutover in four is undone, and one workflow in sixteen is given up.
pub fn script(choice: u32) -> &'static [&'static str] {
    match (choice % 4 == 0, choice / 4 % 16 == 0) {
        (false, false) => STRAIGHT,
        (true, false) => UNDONE,
        (false, true) => GIVEN_UP,
        (true, true) => UNDONE_GIVEN_UP,
    }
}

/// What is to be said after a line.
#[derive(Clone, Copy)]
pub enum Next {
    /// That line once more.
    Again,
    /// The next line.
    Over,
    /// Nothing, as no slots are left for what it creates.
    Full,
}

/// What the administrator did, and how many entries it made.
#[derive(Clone, Copy)]
pub struct Done {
    pub tally: Tally,
    /// The entries on shards that have served.
    pub entries: u64,
    // those on the targets of the workflow that is under way, and how many sources are frozen
    on_targets: u64,
    frozen: u64,
}

// The reply to a line isn't one that may be.
fn unlike(words: &'static str, reply: &AdminReply) -> SoakFault {
    match reply {
        AdminReply::Refused(fault) => SoakFault::Line(words, Some(*fault)),
        _ => SoakFault::Line(words, None),
    }
}

impl Done {
    /// Nothing yet.
    pub fn new() -> Done {
        Done {
            tally: Tally::new(),
            entries: 0,
            on_targets: 0,
            frozen: 0,
        }
    }

    // The targets serve in the sources' place.
    fn served(&mut self) {
        self.entries = self.entries.wrapping_add(self.on_targets);
        self.frozen = 0;
        count(&mut self.tally.cutovers);
    }

    // Each source that was frozen takes commits again.
    fn resumed(&mut self) {
        self.entries = self.entries.wrapping_add(self.frozen);
        self.frozen = 0;
        count(&mut self.tally.undone);
    }

    // A step of a cutover was taken, which may be an entry.
    fn took(&mut self, step: CutoverStep) -> Next {
        match step {
            CutoverStep::Freeze => {
                count(&mut self.frozen);
                count(&mut self.entries);
            }
            CutoverStep::Retire => count(&mut self.entries),
            CutoverStep::Copy | CutoverStep::Follow | CutoverStep::Serve => {
                count(&mut self.on_targets);
            }
            CutoverStep::Publish => {}
            CutoverStep::Release => {
                self.served();
                return Next::Over;
            }
        }
        Next::Again
    }

    // A target was brought forward, or was level.
    fn moved(&mut self, line: &[u8]) -> Next {
        if line == b"ok level\n".as_slice() {
            return Next::Over;
        }
        count(&mut self.on_targets);
        Next::Again
    }

    // What a line asked for was done.
    fn did(&mut self, words: &str) -> Next {
        match words {
            "switch" => self.served(),
            "resume" => self.resumed(),
            "cancel" => count(&mut self.tally.given_up),
            "complete" => {}
            _ => self.on_targets = 0,
        }
        Next::Over
    }

    /// Counts what a line did by its reply, and returns what is to be said then.
    pub fn note(&mut self, words: &'static str, reply: &AdminReply) -> Result<Next, SoakFault> {
        match (words, reply) {
            ("step", AdminReply::Moved(_)) => Ok(self.moved(reply.line())),
            ("advance", AdminReply::Took(step)) => Ok(self.took(*step)),
            ("step" | "advance", _) => Err(unlike(words, reply)),
            (_, AdminReply::Done) => Ok(self.did(words)),
            (_, AdminReply::Refused(ReshardFault::FewSlots)) if words.starts_with("create") => {
                Ok(Next::Full)
            }
            _ => Err(unlike(words, reply)),
        }
    }
}
