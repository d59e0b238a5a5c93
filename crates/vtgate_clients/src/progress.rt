//! How far serving is, which its threads tell one another.

use crate::arrivals::{Arrivals, descriptors};
use std::sync::Wait;
use std::sync::atomic::{AtomicU64, Ordering};
use std::thread;
use std::time::{Clock, Duration};

/// Connections are being served.
const UNDER_WAY: u64 = 0;

/// The last connection was served.
const SERVED: u64 = 1;

/// The workers could not be started, or nothing was let in.
const NOT_SERVED: u64 = 2;

/// No line is being answered that asks for a cutover; one is; and its shards are looked at.
const NO_SWITCH: u64 = 0;

const ASKED: u64 = 1;

const SEEN: u64 = 2;

/// How often it is looked whether they are, and how much time lies between two such looks, in microseconds.
const LOOKS: u32 = 100;

const BETWEEN_LOOKS: u64 = 50;

/// How far serving is, and the connections that there are.
#[derive(Drop)]
pub struct ServeProgress {
    stage: AtomicU64,
    /// Whether a line that asks for a cutover is being answered, and whether its shards are looked at meanwhile.
    switching: AtomicU64,
    /// 1 if a thread looks at cutovers.
    has_watcher: AtomicU64,
    pub arrivals: Arrivals,
}

impl ServeProgress {
    /// Nothing was done yet.
    pub fn new() -> ServeProgress {
        ServeProgress {
            stage: AtomicU64::new(UNDER_WAY),
            switching: AtomicU64::new(NO_SWITCH),
            has_watcher: AtomicU64::new(0),
            arrivals: Arrivals::new(descriptors()),
        }
    }

    fn stage(&self) -> u64 {
        self.stage.load(Ordering::SeqCst)
    }

    fn is_at(&self, stage: u64) -> bool {
        self.stage() == stage
    }

    fn reach(&self, stage: u64) {
        self.stage.store(stage, Ordering::SeqCst);
    }

    /// Says that the connections are over: the last one was served, or none could be.
    pub fn end(&self, is_served: bool) {
        self.reach(if is_served { SERVED } else { NOT_SERVED });
    }

    /// Whether connections are being served.
    pub fn is_under_way(&self) -> bool {
        self.is_at(UNDER_WAY)
    }

    /// Whether the last connection was served.
    pub fn is_served(&self) -> bool {
        self.is_at(SERVED)
    }
    /// Says that a thread looks at cutovers from now on.
    pub fn begin_watch(&self) {
        self.has_watcher.store(1, Ordering::SeqCst);
    }

    /// Says that a cutover may begin, and waits until its shards are looked at, for at most some milliseconds.
    pub fn begin_switch<R: Clock>(&self, rt: &R) {
        if self.has_watcher.load(Ordering::SeqCst) == 0 {
            return;
        }
        self.switching.store(ASKED, Ordering::SeqCst);
        self.switching.wake_all();
        for _ in 0..LOOKS {
            if self.switching.load(Ordering::SeqCst) != ASKED {
                return;
            }
            let _ = thread::sleep(rt, Duration::from_micros(BETWEEN_LOOKS));
        }
    }

    /// Says that the shards are looked at.
    pub fn see_switch(&self) {
        let _ = self
            .switching
            .compare_exchange(ASKED, SEEN, Ordering::SeqCst, Ordering::SeqCst);
    }

    /// Says that no cutover is under way.
    pub fn end_switch(&self) {
        self.switching.store(NO_SWITCH, Ordering::SeqCst);
    }

    /// Whether a cutover may be under way.
    pub fn is_switching(&self) -> bool {
        self.switching.load(Ordering::SeqCst) != NO_SWITCH
    }

    /// Sleeps for so long, or until a cutover may begin. It may return early.
    pub fn wait_for_switch<R: Wait>(&self, rt: &R, time: Duration) {
        self.switching.park_timeout(rt, NO_SWITCH as u32, time);
    }
}
