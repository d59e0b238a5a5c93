//! Waiting for others to do something.

use std::sync::Wait;
use std::sync::atomic::{AtomicU64, Ordering};

/// A count of what was done. Who found nothing to do sleeps until it has grown since the look.
#[derive(Drop)]
pub struct Signal {
    given: AtomicU64,
}

impl Signal {
    pub fn new() -> Signal {
        Signal {
            given: AtomicU64::new(0),
        }
    }

    /// How often it was given: to be asked before one looks for something to do.
    pub fn given(&self) -> u64 {
        self.given.load(Ordering::SeqCst)
    }

    /// Gives it, and wakes one that sleeps.
    pub fn give(&self) {
        self.given.fetch_add(1, Ordering::SeqCst);
        self.given.wake_one();
    }

    /// Sleeps, unless it was given since it had been given `seen` times. It may come back for no reason.
    pub fn wait<R: Wait>(&self, rt: &R, seen: u64) {
        self.given.park(rt, (seen % (1 << 32)) as u32);
    }
}
