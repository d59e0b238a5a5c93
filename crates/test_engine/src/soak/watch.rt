//! When a world ends.
use std::sync::atomic::{AtomicU64, Ordering};
use std::time::{Clock, Instant};

/// When the soak began and how many seconds it is to take, and by what a world's threads tell one another to stop.
#[derive(Clone, Copy)]
pub struct Watch<'s> {
    pub begun: Instant,
    pub seconds: u64,
    pub stopped: &'s AtomicU64,
}

impl<'s> Watch<'s> {
    /// Tells all to stop.
    pub fn stop(&self) {
        self.stopped.store(1, Ordering::SeqCst);
    }

    /// Whether all are to stop.
    pub fn is_stopped(&self) -> bool {
        self.stopped.load(Ordering::SeqCst) > 0
    }

    /// Whether the seconds are over. A clock that can't be read is over.
    pub fn is_past(&self, rt: &impl Clock) -> bool {
        match self.begun.elapsed(rt) {
            Ok(time) => time.as_secs() >= self.seconds,
            Err(_) => true,
        }
    }
}
