//! Where the fault of a VSchema lies: which keyspace, table and member have it, or where the text stops to be JSON.

mod finding;
mod place;
mod texts;

pub use finding::place_of;
pub use place::Place;
