//! Rows of one input after those of another, in no order of their own.
ghost use Rattle.std.specs.Prelude.{◌≡◌, IsTrue, flat_map};
ghost use Rattle.operators.specs.Slices.{first_is};

use crate::pulling::Operator;
use std::alloc::{AllocError, Global};
use vt_value::Row;

/// The rows of several inputs, one input after the other.
#[derive(Drop)]
pub struct Concat<O> {
    inputs: Vec<O>,
    /// The ordinal of the input whose rows come now.
    current: usize,
}

impl<O: Operator> Concat<O> {
    /// The rows of these inputs, in their order.
    pub fn new(inputs: Vec<O>) -> Concat<O>
        ensures rows { ⟦<Concat<O> as Operator>⟧.to_come result ≡ flat_map O.to_come inputs.items }
        ensures fresh { ⟦<Concat<O> as Operator>⟧.has_failed result ≡ first_is O.has_failed inputs.items }
    {
        Concat { inputs, current: 0 }
    }
}

impl<O: Operator> Operator for Concat<O> {
    ghost use Rattle.std.specs.Prelude.{flat_map, drop};
    ghost use Rattle.operators.specs.Slices.{first_is};

    ghost to_come = { λ concat. flat_map O.to_come (drop concat.current concat.inputs.items) };

    ghost has_failed = { λ concat. first_is O.has_failed (drop concat.current concat.inputs.items) };

    fn next(&mut self, alloc: Global) -> Result<Option<Row>, AllocError> {
        while self.current < self.inputs.len() {
            if let Some(row) = self.inputs[self.current].next(alloc)? {
                return Ok(Some(row));
            }
            self.current += 1;
        }
        Ok(None)
    }
}
