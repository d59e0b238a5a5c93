//! Rows that are in memory already, as an operator.
ghost use Rattle.std.specs.Prelude.{◌≡◌, reverse, IfOk};

use crate::pulling::Operator;
use std::alloc::{AllocError, Global};
use vt_value::{Items, Row};

/// Rows that are there already, given in order.
#[derive(Drop)]
pub struct Rows {
    /// The rows that are still to come, the last one first.
    reversed: Items<Row>,
}

impl Rows {
    /// Gives these rows. Takes no memory.
    pub fn from_vec(rows: Vec<Row>) -> Rows
        ensures { ⟦<Rows as Operator>⟧.to_come result ≡ rows.items }
    {
        let mut reversed = rows;
        reversed.reverse();
        Rows {
            reversed: Items::from_vec(reversed),
        }
    }

    // Promise: What each operator gives is what its inputs have: one input after the other, an arrangement that the keys allow, the slice
    // of a limit, the columns at given ordinals
    // With: Concat::new, MergeSort::new, Limit::new, Project::new, Rows::from_vec
    // Clauses: rows, fresh, permutation, sorted, ok
    /// Gives these rows. Refuses only for want of memory.
    pub fn new(alloc: Global, rows: Items<Row>) -> Result<Rows, AllocError>
        ensures ok { IfOk result (λ made. ⟦<Rows as Operator>⟧.to_come made ≡ rows) }
    {
        // one row is its own reverse
        if rows.len() < 2 {
            return Ok(Rows { reversed: rows });
        }
        Ok(Rows {
            reversed: Items::from_vec(reversed(alloc, rows)?),
        })
    }
}

/// The rows, the last one first.
fn reversed(alloc: Global, rows: Items<Row>) -> Result<Vec<Row>, AllocError>
    ensures ok { IfOk result (λ list. list.items ≡ reverse rows) }
{
    let mut rest = rows;
    let mut list = Vec::with_capacity(alloc, rest.len())?;
    while let Some(row) = rest.pop() {
        list.push(row)?;
    }
    Ok(list)
}

/// The rows, as a `Vec`. Refuses only for want of memory.
pub fn into_vec(alloc: Global, rows: Items<Row>) -> Result<Vec<Row>, AllocError>
    ensures ok { IfOk result (λ list. list.items ≡ rows) }
{
    let mut list = reversed(alloc, rows)?;
    list.reverse();
    Ok(list)
}

impl Operator for Rows {
    ghost use Rattle.std.specs.Prelude.{reverse, false};

    ghost to_come = { λ rows. reverse rows.reversed };

    ghost has_failed = { λ rows. false };

    fn next(&mut self, _alloc: Global) -> Result<Option<Row>, AllocError> {
        Ok(self.reversed.pop())
    }
}
