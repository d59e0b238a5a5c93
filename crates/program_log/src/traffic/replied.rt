//! What was replied to statements.

use std::cell::Cell;

/// What answered statements: how many rows they gave or changed, and the number of the last refusal, 0 if there was none.
#[derive(Clone, Copy, Debug, PartialEq, Eq)]
pub struct Answered {
    pub rows: u64,
    pub refusal: u8,
}

/// What was replied since this was last asked.
#[derive(Drop)]
pub(crate) struct Replied {
    rows: Cell<u64>,
    refusal: Cell<u8>,
    /// Whether the next packet is the first of a reply, whatever came before.
    is_new: Cell<bool>,
}

impl Replied {
    /// Nothing was replied yet.
    pub fn new() -> Replied {
        Replied {
            rows: Cell::new(0),
            refusal: Cell::new(0),
            is_new: Cell::new(true),
        }
    }

    pub(crate) fn add_rows(&self, rows: u64) {
        self.rows.set(self.rows.get().wrapping_add(rows));
    }

    pub(crate) fn refuse(&self, number: u8) {
        self.refusal.set(number);
    }

    /// Whether this was asked for since a packet was last looked at.
    pub(crate) fn begins(&self) -> bool {
        self.is_new.replace(false)
    }

    /// What was replied since this was last asked. All that came before is answered, so that the next packet is the first of a reply.
    pub fn take(&self) -> Answered {
        self.is_new.set(true);
        Answered {
            rows: self.rows.replace(0),
            refusal: self.refusal.replace(0),
        }
    }
}
