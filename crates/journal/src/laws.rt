//! Laws of runs, proved of all of them: no code calls these functions.
ghost use Rattle.journal.specs.Laws.{RunsAgree, LaterThanLater};

use crate::law::Law;

// Promise: All of it is of one run: of what two passes had seen when they met one begins the other, and steps add up
// With: later_than_later
/// Of what two passes had seen when they met, one begins with the other: both were prefixes of one run.
pub fn runs_agree<L: Law>()
    ensures { RunsAgree L.slot_of L.commit_of L.may_follow }
{}

/// Steps add up: what comes later than a run that came later for a seat and a pass comes later than what they had seen
/// before.
pub fn later_than_later<L: Law>()
    ensures { LaterThanLater L.slot_of L.commit_of L.may_follow }
{}
