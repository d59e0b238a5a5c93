//! The signals by which threads tell one another how far they are, and a gate that holds a read by them.
use admin::Gate;
use std::alloc::Global;
use std::sync::Arc;
use std::sync::atomic::{AtomicU64, Ordering};
use std::thread;

/// How often a thread looks whether a signal was given.
const TURNS: u32 = 3_000_000;

/// What the threads and the gate tell one another.
#[derive(Drop)]
pub(crate) struct Signals {
    /// The third session may begin its statement.
    pub(crate) begun: AtomicU64,
    /// It was answered.
    pub(crate) answered: AtomicU64,
    /// The gate is to hold a read.
    pub(crate) armed: AtomicU64,
    /// That may go on once the second shard was read.
    pub(crate) until_second: AtomicU64,
    /// A read or a lock is held.
    pub(crate) held: AtomicU64,
    /// That may go on.
    pub(crate) let_go: AtomicU64,
    /// It went on without leave.
    pub(crate) in_vain: AtomicU64,
}

impl Signals {
    /// None is given.
    pub(crate) fn new() -> Signals {
        Signals {
            begun: AtomicU64::new(0),
            answered: AtomicU64::new(0),
            armed: AtomicU64::new(0),
            until_second: AtomicU64::new(0),
            held: AtomicU64::new(0),
            let_go: AtomicU64::new(0),
            in_vain: AtomicU64::new(0),
        }
    }

    /// Tells that something is held, and holds it until that is let go, for so many turns at most.
    pub(crate) fn hold(&self) {
        give(&self.held);
        if !wait_for(&self.let_go) {
            give(&self.in_vain);
        }
    }
}

pub(crate) fn is_given(signal: &AtomicU64) -> bool {
    signal.load(Ordering::SeqCst) > 0
}

pub(crate) fn give(signal: &AtomicU64) {
    signal.store(1, Ordering::SeqCst);
}

/// Waits for a signal, for so many turns at most.
pub(crate) fn wait_for(signal: &AtomicU64) -> bool {
    for _ in 0..TURNS {
        if is_given(signal) {
            return true;
        }
        thread::yield_now();
    }
    false
}

/// Holds one read of the first shard, once it is armed, until that may go on.
#[derive(Drop)]
pub(crate) struct HoldsFirst {
    pub(crate) signals: Arc<Signals, Global>,
}

impl Gate for HoldsFirst {
    fn before(&self, turn: usize) {
        let signals = &self.signals;
        if turn == 0 && is_given(&signals.armed) && !is_given(&signals.held) {
            signals.hold();
        }
    }

    fn after(&self, turn: usize) {
        let signals = &self.signals;
        if turn == 1 && is_given(&signals.until_second) {
            give(&signals.let_go);
        }
    }

    // Each read is made in a thread of its own, all at once.
    fn few_rows(&self) -> usize {
        0
    }

    fn most_at_once(&self, _processors: usize) -> usize {
        usize::MAX
    }
}
