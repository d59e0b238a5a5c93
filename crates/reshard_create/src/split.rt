//! What a split is made of, whether it begins or is made again: the sources that a target takes from, and the ranges that take theirs.

mod overlapping;
mod ranges;

pub use overlapping::{TargetSources, copy_member, overlapping_sources};
pub use ranges::{MOST_PARTS, next_ranges};
