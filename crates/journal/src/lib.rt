//! One legal run of entries, which many threads append to and look at, each slot through its one seat.
//!
//! The run exists in the proofs alone. What the threads share is 64 words, one a slot, each the number of the run's
//! entries on its slot. No call here waits or takes a lock, and a look or an append asks for no memory.
//!
//! A [`Law`] says what entries are and which may follow a run. [`Opened::new`] makes the words, and [`Opened::named`]
//! the [`ShardSeat`]s of the slots, the one [`Opener`] of sessions and a first [`Pass`]. Entries on a slot are appended
//! through its seat alone, and the commits of a session with its pass alone. A seat or a pass has seen a prefix of
//! the run: contracts see it as `seen`.
//!
//! That there is one run shows wherever two of them come together. After a look or an append (`IsLater`), a `meet` or a
//! `join` (`IsLonger`), both have seen the same legal run, which begins with what either had seen before: the two were
//! prefixes of one run all along. With an appended entry it has none on the seat's slot, or of the session of
//! either pass, that was not seen before. [`runs_agree`] says what follows of two passes, and [`later_than_later`] that
//! steps add up.
#![tactic(auto)]

mod law;
mod laws;
mod looking;
mod opened;
mod opener;
mod pass;
mod rule;
mod seat;
mod words;

pub use law::{Law, Naming};
pub use laws::{later_than_later, runs_agree};
pub use looking::LookingPass;
pub use opened::{Opened, SLOTS};
pub use opener::{MOST_SESSIONS, Opener};
pub use pass::{MOST_STATEMENTS, Pass};
pub use seat::ShardSeat;
