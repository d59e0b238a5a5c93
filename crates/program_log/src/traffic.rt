//! What the bytes of a connection show of it: the login, how many statements and refusals there were, and of each statement its text and its rows.

mod detail;
mod incoming;
mod login;
mod outgoing;
mod packets;
mod refused;
mod replied;
mod texts;

pub use detail::Detail;
pub use incoming::Incoming;
pub use outgoing::Outgoing;
pub use refused::Refused;
pub use replied::Answered;
