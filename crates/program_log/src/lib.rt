//! The log of a server: its lines, what a connection's bytes show of it, and where the fault of a VSchema lies.
#![tactic(auto)]

pub mod lines;
pub mod places;
pub mod traffic;
