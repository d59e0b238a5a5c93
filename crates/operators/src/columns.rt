//! Shows some columns of each row. A row of which the first columns are shown is passed on without the others, and isn't copied.
ghost use Rattle.std.specs.Prelude.{◌≡◌, true, length, map, take, IsTrue, IfOk};
ghost use Rattle.std.specs.List.{range_with_len};
ghost use Rattle.vt_value.specs.Values.{value_at};
ghost use Rattle.operators.specs.Slices.{columns_of};

use crate::pulling::Operator;
use std::alloc::{AllocError, Global};
use vt_value::{Items, Row, Value, copy};

fn copy_at(alloc: Global, row: &Row, ordinal: usize) -> Result<Value, AllocError>
    ensures ok { IfOk result (λ v. v ≡ value_at row.now ordinal) }
{
    match row.as_slice().get(ordinal) {
        Some(value) => copy(alloc, value),
        None => Ok(Value::Null),
    }
}

/// The values of a row at these ordinals, NULL after its end. Refuses only for want of memory.
pub fn project_row(alloc: Global, ordinals: &[usize], row: &Row) -> Result<Row, AllocError>
    ensures ok { IfOk result (λ shown. shown ≡ columns_of ordinals.now row.now) }
{
    let mut values = Items::from_vec(Vec::with_capacity(alloc, ordinals.len())?);
    for ordinal in ordinals {
        values.push(copy_at(alloc, row, *ordinal)?)?;
    }
    Ok(values)
}

// Whether these are the first ordinals, each in its turn.
fn are_in_turn(ordinals: &[usize]) -> bool
    ensures { result ≡ true → ordinals.now ≡ range_with_len 0 (length ordinals.now) }
{
    for n in 0..ordinals.len() {
        if ordinals[n] != n {
            return false;
        }
    }
    true
}

/// Whether all values of a row are at these ordinals, in their order, so that the row can be passed on as it is.
pub fn shows_whole(ordinals: &[usize], row: &Row) -> bool
    ensures { result ≡ true → columns_of ordinals.now row.now ≡ row.now }
{
    ordinals.len() == row.len() && are_in_turn(ordinals)
}

// Whether the first values of a row are at these ordinals, in their order.
fn shows_first(ordinals: &[usize], row: &Row) -> bool
    ensures { result ≡ true → columns_of ordinals.now row.now ≡ take (length ordinals.now) row.now }
{
    ordinals.len() <= row.len() && are_in_turn(ordinals)
}

// The first values of a row, so many, without the others.
fn first_values(row: Row, count: usize) -> Row
    ensures { result ≡ take count row }
{
    let mut row = row;
    while row.len() > count {
        row.pop();
    }
    row
}

/// The columns of an input's rows at given ordinals. A row of which the first ones are shown, in their order, is passed on without the others, and isn't copied.
#[derive(Drop)]
pub struct Project<O> {
    input: O,
    ordinals: Items<usize>,
    failed: bool,
}

impl<O: Operator> Project<O> {
    /// Of each row of the input the values at these ordinals, NULL after its end.
    pub fn new(input: O, ordinals: Items<usize>) -> Project<O>
        ensures rows { ⟦<Project<O> as Operator>⟧.to_come result ≡ map (columns_of ordinals) (O.to_come input) }
        ensures fresh { ⟦<Project<O> as Operator>⟧.has_failed result ≡ O.has_failed input }
    {
        Project {
            input,
            ordinals,
            failed: false,
        }
    }
}

impl<O: Operator> Operator for Project<O> {
    ghost use Rattle.std.specs.Prelude.{◌||◌, map};
    ghost use Rattle.operators.specs.Slices.{columns_of};

    ghost to_come = { λ project. map (columns_of project.ordinals) (O.to_come project.input) };

    ghost has_failed = { λ project. project.failed || O.has_failed project.input };

    fn next(&mut self, alloc: Global) -> Result<Option<Row>, AllocError> {
        if self.failed {
            return Err(AllocError);
        }
        let Some(row) = self.input.next(alloc)? else {
            return Ok(None);
        };
        if shows_first(self.ordinals.as_slice(), &row) {
            return Ok(Some(first_values(row, self.ordinals.len())));
        }
        let shown = project_row(alloc, self.ordinals.as_slice(), &row);
        self.failed = shown.is_err();
        Ok(Some(shown?))
    }
}
