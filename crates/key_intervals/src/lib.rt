//! The keys of the rows that a condition can keep: intervals of a column's values, and of keys; and the values that it lists, in their order.
#![tactic(auto)]

mod column;
mod direction;
mod equalities;
mod keys;
mod listed;
mod next;
mod pushdown;

pub use column::{Interval, interval_of};
pub use direction::{Direction, walk_direction};
pub use equalities::{Fixed, fixed_first, fixed_values};
pub use keys::{KeyInterval, key_interval, key_interval_with};
pub use listed::{comes_after, sorted};
pub use next::next_value;
pub use pushdown::{own_conjuncts, passes};
