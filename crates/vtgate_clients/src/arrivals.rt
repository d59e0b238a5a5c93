//! How many connections there are, and how many there may be.
ghost use Rattle.std.specs.Prelude.{◌≡◌, ◌<◌, ◌+◌, ◌↔◌, true, false};

use libc::types::rlimit;
use std::sync::atomic::{AtomicU64, Ordering};

/// The most descriptors for which there are places.
const MOST_PLACES: u32 = 1 << 15;

/// How many descriptors are kept for other files: the ports, the log, the set of sockets, and a client that is refused.
const OTHER_FILES: u32 = 32;

/// How many descriptors the process may have, as far as there are places for them.
pub fn descriptors() -> u32 {
    let mut limit = rlimit {
        rlim_cur: 0,
        rlim_max: 0,
    };
    if libc::getrlimit(libc::RLIMIT_NOFILE, &mut limit) != 0 {
        return MOST_PLACES;
    }
    match u32::try_from(limit.rlim_cur) {
        Ok(found) => found.min(MOST_PLACES),
        Err(_) => MOST_PLACES,
    }
}

// Promise: As many connections may come as there are places, and the last place is kept for an operator
/// Whether one more connection may come if there are so many, and so many places.
pub fn has_room(live: u64, most: u64, is_operator: bool) -> bool
    ensures operator { is_operator ≡ true → ((result ≡ true) ↔ (live < most)) }
    ensures other { is_operator ≡ false → ((result ≡ true) ↔ (live + 1 < most)) }
{
    if is_operator {
        live < most
    } else {
        live < most.saturating_sub(1)
    }
}

/// How many connections wait for a worker, how many there are, and how many there may be.
#[derive(Drop)]
pub struct Arrivals {
    waiting: AtomicU64,
    live: AtomicU64,
    most: u64,
}

impl Arrivals {
    /// None yet. There may be as many as there are descriptors, but for those of other files.
    pub fn new(descriptors: u32) -> Arrivals {
        Arrivals {
            waiting: AtomicU64::new(0),
            live: AtomicU64::new(0),
            most: u64::from(descriptors.saturating_sub(OTHER_FILES).max(2)),
        }
    }

    /// Whether one more connection may come. The last place is kept for an operator, who connects over the loopback.
    pub fn may_come(&self, is_operator: bool) -> bool {
        has_room(self.live(), self.most, is_operator)
    }

    /// Says that one more came, and waits for a worker.
    pub fn come(&self) {
        self.live.fetch_add(1, Ordering::SeqCst);
        self.waiting.fetch_add(1, Ordering::SeqCst);
    }

    /// Says that a worker has taken one that waited.
    pub fn begin(&self) {
        self.waiting.fetch_sub(1, Ordering::SeqCst);
    }

    /// Says that one is over.
    pub fn leave(&self) {
        self.live.fetch_sub(1, Ordering::SeqCst);
    }

    /// How many wait for a worker.
    pub fn waiting(&self) -> u64 {
        self.waiting.load(Ordering::SeqCst)
    }

    /// How many there are.
    pub fn live(&self) -> u64 {
        self.live.load(Ordering::SeqCst)
    }
}
