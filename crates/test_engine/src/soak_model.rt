//! What a soak's session says, what that is to answer, and its rows by its accepted commands.

mod fault;
mod rows;
mod session_model;
mod statement;
mod tally;

pub use fault::{SoakFault, same};
pub use rows::{KEYS, SessionRows};
pub use session_model::{SessionModel, check_whole};
pub use statement::{Ids, Statement, Verb, number};
pub use tally::{Tally, count};
