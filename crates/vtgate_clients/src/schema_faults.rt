//! The fault of a VSchema, logged with where it lies.

use crate::events;
use crate::setup::RunFault;
use log::{Level, Log, log_enabled};
use program_log::places::{Place, place_of};
use std::alloc::Global;
use std::str;

/// Logs the fault that a VSchema's text has, if that is why a run has failed.
pub fn tell<R: Log>(rt: &R, alloc: Global, fault: &RunFault, text: &[u8]) {
    let RunFault::Schema(fault) = fault else {
        return;
    };
    let Some(number) = fault.number() else {
        return;
    };
    if log_enabled!(rt; Level::Error) {
        let text = str::from_utf8(text).unwrap_or("");
        let place = place_of(alloc, text, number).unwrap_or(Place::whole(alloc));
        events::faulty(rt, number, &place);
    }
}
