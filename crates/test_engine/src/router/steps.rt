//! Acts that many scenes have: a split of the first of two shards, and the steps of its cutover.
use crate::router::acts::Act;
use crate::router::common::{BEGUN, COPIED, EVEN, LEVEL, ODD};

/// Six rows, of which the targets have copied those of the first shard.
pub(crate) const LEVELLED: [Act<'static>; 6] = [EVEN, ODD, BEGUN, COPIED, COPIED, LEVEL];

pub(crate) const RETIRE: Act<'static> = Act::Line(b"advance", b"ok retire\n");

pub(crate) const SERVE: Act<'static> = Act::Line(b"advance", b"ok serve\n");

pub(crate) const PUBLISH: Act<'static> = Act::Line(b"advance", b"ok publish\n");

pub(crate) const RELEASE: Act<'static> = Act::Line(b"advance", b"ok release\n");

/// All steps of the cutover, or those that are left.
pub(crate) const SWITCH: Act<'static> = Act::Line(b"switch", b"ok\n");

pub(crate) const CANCELLED: Act<'static> = Act::Line(b"cancel", b"ok\n");

pub(crate) const COMPLETED: Act<'static> = Act::Line(b"complete", b"ok\n");

/// The status before a split of the first shard, and after one that was given up.
pub(crate) const UNSPLIT: Act<'static> = Act::Line(b"status", b"serving -80 80- none\n");

/// The status while the targets follow.
pub(crate) const FOLLOWING: Act<'static> = Act::Line(b"status", b"serving -80 80- following\n");

/// The status while the cutover is under way and the source isn't retired.
pub(crate) const SWITCHING: Act<'static> = Act::Line(b"status", b"serving -80 80- switching\n");

/// The status once the targets serve.
pub(crate) const SWITCHED: Act<'static> = Act::Line(b"status", b"serving -40 40-80 80- switched\n");

/// The status once the split is complete.
pub(crate) const SPLIT: Act<'static> = Act::Line(b"status", b"serving -40 40-80 80- none\n");
