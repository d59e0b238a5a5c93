//! An input that fails.
ghost use Rattle.std.specs.Prelude.{◌≡◌};

use operators::Operator;
use std::alloc::{AllocError, Global};
use vt_value::{Items, Row};

/// Gives `left` empty rows, and then has no memory.
#[derive(Drop)]
pub struct Failing {
    pub left: u32,
    pub failed: bool,
}

impl Operator for Failing {
    ghost use Rattle.std.specs.Prelude.{replicate, []};

    ghost to_come = { λ failing. replicate failing.left [] };

    ghost has_failed = { λ failing. failing.failed };

    fn next(&mut self, alloc: Global) -> Result<Option<Row>, AllocError> {
        if self.failed || self.left == 0 {
            self.failed = true;
            return Err(AllocError);
        }
        self.left -= 1;
        Ok(Some(Items::new(alloc)))
    }
}
