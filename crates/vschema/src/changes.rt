//! A write with its names resolved, and what it does to one row.
use sql_tree::{Assignment, Condition};
use vt_value::{Items, Row};

/// A write with its names resolved. Its table is given by its ordinal in the VSchema, its columns by their ordinals in the
/// table.
#[derive(Drop)]
pub enum Write {
    /// Whole rows, in the order of the table's columns.
    Insert(usize, Items<Row>),
    Update(usize, Items<Assignment<usize>>, Option<Condition<usize>>),
    Delete(usize, Option<Condition<usize>>),
}

/// What a write does to one row of the table at an ordinal.
#[derive(Drop)]
pub enum RowChange {
    Added(usize, Row),
    /// The old row, and the new one in its place.
    Replaced(usize, Row, Row),
    Removed(usize, Row),
}
