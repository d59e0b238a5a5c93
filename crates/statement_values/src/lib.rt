//! Values that a client sends for the holes of a prepared statement.
#![tactic(auto)]

mod decimal;
mod execution;
mod reading;
mod types;
mod unread;
mod whole;

pub use execution::{Execution, read_execution};
pub use reading::read_value;
pub use unread::Unread;

/// How many bytes a number has.
#[derive(Clone, Copy, Debug, PartialEq, Eq)]
pub enum Width {
    One,
    Two,
    Four,
    Eight,
}

/// How a value is sent.
#[derive(Clone, Copy, Debug, PartialEq, Eq)]
pub enum ParameterType {
    Null,
    /// A number of so many bytes, and whether it has no sign.
    Number(Width, bool),
    /// A FLOAT or a DOUBLE, of which only whole numbers are taken.
    Single,
    Double,
    /// A DECIMAL as a text, of which only whole numbers are taken.
    Decimal,
    Text,
}
