//! Aggregates over parts of a bag, and groups.
#![tactic(auto)]

mod columns;
mod counts;
mod extremes;
mod groups;
mod joining;
mod keys;
mod sums;

pub use columns::{add_part, empty_part};
pub use counts::{Count, CountStar};
pub use extremes::{Max, Min};
pub use groups::GroupMerge;
pub use joining::{Aggregate, evaluate};
pub use operators::{
    Limit, Operator, Project, Rows, collect, compare_rows, project_row, shows_whole, sort_rows,
};
pub use sums::Sum;
