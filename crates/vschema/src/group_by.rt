//! The columns of GROUP BY.
ghost use Rattle.std.specs.Prelude.{◌≡◌, IfOk};

use crate::hashing::Hashing;
use std::alloc::{AllocError, Global};
use std::marker::Model;
use vt_value::Items;

/// The columns of GROUP BY by their places, with the key by which the values of groups are hashed. Contracts see the list of the columns.
#[derive(Drop)]
pub struct GroupBy {
    columns: Items<usize>,
    hashing: Hashing,
}

impl Model for GroupBy {
    ghost use Rattle.std.specs.Prelude.{ℕ, List};

    ghost Value = { List ℕ };

    ghost view = { λ g. g.columns };
}

impl GroupBy {
    // Promise: A query's columns of GROUP BY are the same whatever key they carry, and so are those of its copies
    // With: GroupBy::{copy, as_slice}
    /// These columns.
    pub fn new(columns: Items<usize>, hashing: Hashing) -> GroupBy
        ensures { result ≡ columns }
    {
        GroupBy { columns, hashing }
    }

    /// A copy with the key of this one. Refuses for want of memory.
    pub fn copy(&self, alloc: Global) -> Result<GroupBy, AllocError>
        ensures { IfOk result (λ copied. copied ≡ self.now) }
    {
        Ok(GroupBy {
            columns: Items::from_slice(alloc, self.columns.as_slice())?,
            hashing: self.hashing.copy(),
        })
    }

    /// The columns, in their order.
    pub fn as_slice(&self) -> &[usize]
        ensures { result.now ≡ self.now }
    {
        self.columns.as_slice()
    }

    /// The key.
    pub fn hashing(&self) -> &Hashing {
        &self.hashing
    }
}
