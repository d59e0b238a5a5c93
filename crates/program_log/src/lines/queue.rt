//! Lines on their way to the thread that writes them.

use crate::lines::line::LogLine;
use crossbeam_queue::ArrayQueue;
use std::alloc::{AllocError, Global};
use std::sync::Wait;
use std::sync::atomic::{AtomicU64, Ordering};
use std::thread;
use std::time::{Clock, Duration};

/// How many lines may wait to be written.
pub const QUEUED_LINES: usize = 1024;

/// How long it sleeps between two looks whether all lines were tried, in milliseconds, and how many looks there are: a second.
const BETWEEN_LOOKS: u64 = 1;

const LOOKS: u32 = 1000;

/// Lines that wait to be written, in order, and how many were lost since the last report. Who puts a line never waits for the one that writes.
#[derive(Drop)]
pub struct LineQueue {
    lines: ArrayQueue<LogLine>,
    lost: AtomicU64,
    came: AtomicU64,
    closed: AtomicU64,
    tried: AtomicU64,
}

impl LineQueue {
    /// An empty queue, for as many lines as may wait. Refuses only for want of memory.
    pub fn new(alloc: Global) -> Result<LineQueue, AllocError> {
        let lines = ArrayQueue::new(alloc, QUEUED_LINES)?;
        Ok(LineQueue {
            lines,
            lost: AtomicU64::new(0),
            came: AtomicU64::new(0),
            closed: AtomicU64::new(0),
            tried: AtomicU64::new(0),
        })
    }

    // Wakes the thread that writes.
    fn wake(&self) {
        self.came.fetch_add(1, Ordering::SeqCst);
        self.came.wake_one();
    }

    /// Counts lines that were lost.
    pub fn lose(&self, lines: u64) {
        self.lost.fetch_add(lines, Ordering::SeqCst);
    }

    /// How many lines were lost since this was last asked.
    pub fn take_lost(&self) -> u64 {
        self.lost.swap(0, Ordering::SeqCst)
    }

    /// Puts a line after the others. If the queue is full the line is lost, and counted.
    pub fn put<R: Wait>(&self, rt: &R, line: LogLine) {
        match self.lines.push(rt, line) {
            Ok(()) => self.wake(),
            Err(_) => self.lose(1),
        }
    }

    /// The next line; waits for one. None once the queue is closed and has no more.
    pub fn next<R: Wait>(&self, rt: &R) -> Option<LogLine> {
        for _ in rt.forever() {
            let seen = self.came.load(Ordering::SeqCst);
            let is_closed = self.closed.load(Ordering::SeqCst) != 0;
            if let Some(line) = self.lines.pop(rt) {
                return Some(line);
            }
            if is_closed {
                return None;
            }
            self.came.park(rt, (seen % (1 << 32)) as u32);
        }
        unreachable!()
    }

    /// Says that each line was tried, and that no more are.
    pub fn end(&self) {
        self.tried.store(1, Ordering::SeqCst);
    }

    /// Closes the queue: nobody puts a line into it any more.
    pub fn close(&self) {
        self.closed.store(1, Ordering::SeqCst);
        self.wake();
    }

    /// Waits until each line of a closed queue was tried, for at most a second.
    pub fn wait_for_end<R: Clock>(&self, rt: &R) {
        for _ in 0..LOOKS {
            if self.tried.load(Ordering::SeqCst) != 0 {
                return;
            }
            let _ = thread::sleep(rt, Duration::from_millis(BETWEEN_LOOKS));
        }
    }
}
