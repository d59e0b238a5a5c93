//! What a client says in other words than SQL as it is read here: the text of the grammar that means the same.
#![tactic(auto)]

mod aliases;
mod columns;
mod distinct;
mod forms;
mod insert_set;
mod kinds;
mod numbers;
mod operands;
mod places;
mod reserved;
mod saying;
mod spelling;
mod tables;

pub use saying::{Said, one_saying, said_as};
