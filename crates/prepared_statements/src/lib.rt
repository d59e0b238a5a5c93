//! Statements that a connection has prepared: texts with holes, and the text that is run when one is executed.
#![tactic(auto)]

mod bytes;
mod cutting;
mod filling;
mod held;
mod keeping;
mod laws;
mod literals;
mod long_data;
mod running;
mod size;
mod trying;

pub use filling::filled;
pub use held::{Held, MAX_STATEMENTS, NotExecuted, NotHeld, Numbered, Prepared};
pub use laws::values_are_literals;
pub use long_data::{LongData, LongFault};
pub use size::MAX_SIZE;
pub use trying::{PreparedText, cut, read_prepared, with_minus_one, with_null};
