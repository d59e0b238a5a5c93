//! Rows as they were read, and what is shown of each.
ghost use Rattle.std.specs.Prelude.{◌≡◌, [], ◌∷◌, false, length, IfOk, IfSome};
ghost use Rattle.operators.specs.Slices.{shown_at};

use crate::columns::project_row;
use crate::pulling::{Operator, collect};
use crate::stored::Rows;
use std::alloc::{AllocError, Global};
use std::marker::Model;
use vt_value::{Items, Row};

/// Rows of which the columns at given ordinals are shown, or all. What is shown of a row is made once it is pulled, so that what is held are
/// the rows as they were read. Contracts see the rows as they are shown.
pub struct ShownRows {
    rows: Items<Row>,
    ordinals: Option<Items<usize>>,
}

impl Drop for ShownRows {
    // Who drops one calls this, and need not know what it owns.
    fn drop(self) {
        let ShownRows { rows, ordinals } = self;
        drop(rows);
        drop(ordinals);
    }
}

impl Model for ShownRows {
    ghost use Rattle.std.specs.Prelude.{List};
    ghost use Rattle.vt_value.specs.declared.value.Value.{Value as V};
    ghost use Rattle.operators.specs.Slices.{shown_at};

    ghost Value = { List (List V) };

    ghost view = { λ s. shown_at s.ordinals s.rows };
}

impl ShownRows {
    // Promise: Of rows the columns at given ordinals are shown, each row as it is pulled; what is held are the rows as they were read
    // With: ShownRows::len, ShownRows::whole, ShownRows::pulled, ShownRows::into_rows, PulledRows::next
    /// Of each of these rows the values at these ordinals, NULL after its end, or the row as it is if there are no ordinals. Takes no memory.
    pub fn new(rows: Items<Row>, ordinals: Option<Items<usize>>) -> ShownRows
        ensures { result ≡ shown_at ordinals rows }
    {
        ShownRows { rows, ordinals }
    }

    /// How many rows there are.
    pub fn len(&self) -> usize
        ensures { result ≡ length self.now }
    {
        self.rows.len()
    }

    /// The rows, if each is shown as it is.
    pub fn whole(&self) -> Option<&[Row]>
        ensures { IfSome result (λ rows. rows.now ≡ self.now) }
    {
        match self.ordinals {
            None => Some(self.rows.as_slice()),
            Some(_) => None,
        }
    }

    /// Gives them, each as it is shown. Refuses only for want of memory.
    pub fn pulled(self, alloc: Global) -> Result<PulledRows, AllocError>
        ensures ok { IfOk result (λ made. ⟦<PulledRows as Operator>⟧.to_come made ≡ self) }
        ensures fresh { IfOk result (λ made. ⟦<PulledRows as Operator>⟧.has_failed made ≡ false) }
    {
        let ShownRows { rows, ordinals } = self;
        match Rows::new(alloc, rows) {
            Ok(rows) => Ok(PulledRows {
                rows,
                ordinals,
                failed: false,
            }),
            Err(error) => {
                drop(ordinals);
                Err(error)
            }
        }
    }

    /// All of them, as they are shown. Refuses only for want of memory.
    pub fn into_rows(self, alloc: Global) -> Result<Items<Row>, AllocError>
        ensures ok { IfOk result (λ rows. rows ≡ self) }
    {
        let mut pulled = self.pulled(alloc)?;
        collect(alloc, &mut pulled)
    }
}

/// Rows that are given as they are shown, each dropped then.
#[derive(Drop)]
pub struct PulledRows {
    rows: Rows,
    ordinals: Option<Items<usize>>,
    failed: bool,
}

/// A row as it is shown.
fn shown(alloc: Global, ordinals: &Option<Items<usize>>, row: Row) -> Result<Row, AllocError>
    ensures ok { IfOk result (λ made. shown_at ordinals.now (row ∷ []) ≡ made ∷ []) }
{
    match ordinals {
        None => Ok(row),
        Some(ordinals) => project_row(alloc, ordinals.as_slice(), &row),
    }
}

impl Operator for PulledRows {
    ghost use Rattle.operators.specs.Slices.{shown_at};

    ghost to_come = { λ pulled. shown_at pulled.ordinals (⟦<Rows as Operator>⟧.to_come pulled.rows) };

    ghost has_failed = { λ pulled. pulled.failed };

    fn next(&mut self, alloc: Global) -> Result<Option<Row>, AllocError> {
        if self.failed {
            return Err(AllocError);
        }
        let Some(row) = self.rows.next(alloc)? else {
            return Ok(None);
        };
        let made = shown(alloc, &self.ordinals, row);
        self.failed = made.is_err();
        Ok(Some(made?))
    }
}
