//! Operators over rows: concatenation, merge, limit and projection.
#![tactic(auto)]

mod columns;
mod concatenation;
mod merging;
mod pulling;
mod shown;
mod slicing;
mod sorting;
mod stored;

pub use columns::{Project, project_row, shows_whole};
pub use concatenation::Concat;
pub use merging::MergeSort;
pub use pulling::{Operator, collect};
pub use shown::{PulledRows, ShownRows};
pub use slicing::Limit;
pub use sorting::{compare_rows, sort_rows};
pub use sql_tree::Item;
pub use stored::Rows;
