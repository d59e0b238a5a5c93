//! A value under a lock, which a call waits for until it is free, or until something is true of the value.
ghost use Rattle.std.specs.Prelude.{true};
ghost use Rattle.std.specs.Fn.{FnReturnsAt};
ghost use Rattle.std.specs.Sync.Mutex.{mutex_guard_value};

use crossbeam_utils::CachePadded;
use std::hint;
use std::sync::{Mutex, MutexGuard, Wait};

/// How often a call looks whether the lock is free before it sleeps.
const LOOKS_BEFORE_SLEEP: u32 = 64;

/// How many pauses of the processor lie between two looks, each of 10 to 50 nanoseconds.
const PAUSES_BETWEEN_LOOKS: u32 = 16;

/// A value under its lock.
#[derive(Drop)]
pub struct StateLock<T: Drop> {
    value: CachePadded<Mutex<T>>,
}

impl<T: Drop> StateLock<T> {
    pub(crate) fn new(value: T) -> StateLock<T> {
        StateLock {
            value: CachePadded::new(Mutex::new(value)),
        }
    }

    /// The value, which no lock is over from now on.
    pub(crate) fn into_inner(self) -> T {
        self.value.into_inner().into_inner()
    }

    /// The value, if nobody holds the lock.
    pub(crate) fn try_lock(&self) -> Option<MutexGuard<'_, T>> {
        self.value.try_lock()
    }

    /// The value, whose lock is held until the guard goes.
    // A call needs the lock for about a microsecond. To wake a thread that sleeps costs more than that, and who gives the lock back has to do
    // it: so a call looks again and again for some 10 microseconds before it sleeps.
    pub(crate) fn lock(&self, rt: &impl Wait) -> MutexGuard<'_, T> {
        for _ in 0..LOOKS_BEFORE_SLEEP {
            if let Some(value) = self.try_lock() {
                return value;
            }
            for _ in 0..PAUSES_BETWEEN_LOOKS {
                hint::spin_loop();
            }
        }
        self.value.lock(rt)
    }

    /// The value, once this is true of it: until then the lock is given back and taken again. A lock can't tell which shard it holds, nor in
    /// which mode that was left, so who acts on a shard has it tested here. No run of one controller meets another.
    pub fn lock_when<F: Fn(&T) -> bool>(&self, rt: &impl Wait, is_ready: F) -> MutexGuard<'_, T>
        requires is_ready { F.IsAlwaysCallable is_ready }
        ensures is_ready { FnReturnsAt F.Fn is_ready (mutex_guard_value result) true }
    {
        for _ in rt.forever() {
            let value = self.lock(rt);
            if is_ready(&value) {
                return value;
            }
        }
        unreachable!()
    }
}
