//! The words and lines that the program reads and prints: ranges of shards, lines of a script, results, refusals and plans.
#![tactic(auto)]

mod admin_lines;
mod lines;
mod plans;
mod ranges;
mod rows;
mod short_lines;

pub use admin_lines::{AdminLine, read_admin_line};
pub use lines::{Line, next_line, read_line};
pub use plans::plan_line;
pub use ranges::{MOST_RANGES, read_ranges};
pub use rows::{put_rows, put_shown_rows};
pub use short_lines::{SHORT_LINE, count_line, refusal_line};
