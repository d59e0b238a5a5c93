//! The thread that writes lines.
ghost use Rattle.std.specs.Prelude.{◌≡◌, ◌≢◌, ◌≤◌, ◌<◌, ◌++◌, ◌&&◌, ℕ, List, [], true, false, length, take, nat_lt, IfOk};
ghost use Rattle.std.specs.Io.KnownBytes.{Appends};
ghost use Rattle.program_log.specs.lines.Writing.{IsReport, TakesPart, TakesPartOfReport, IsLost, mended};

use crate::lines::line::{LogLine, line_of};
use crate::lines::queue::LineQueue;
use crate::lines::time::instant;
use jiff::Timestamp;
use log::kv::With;
use log::{Level, Metadata, Record};
use std::alloc::{AllocError, Global};
use std::io::{ErrorKind, Write};
use std::sync::{Arc, Wait};
use std::thread;
use std::thread::Threads;
use std::time::Clock;

/// How often a write is tried that was interrupted before it took a byte.
const TRIES: u32 = 64;

/// Writes lines to a device, each by one write. After a write that took a part of a line, the next line begins with the break that ends that part.
#[derive(Drop)]
pub struct LineWriter<W: Write> {
    pub device: W,
    pub is_torn: bool,
}

// One write: how many of the bytes it took, none if it failed. It is made again if it was interrupted.
#[tactic(auto, using(crate::proofs::lines::Writings::nothing_kept, crate::proofs::lines::Writings::nothing_then, crate::proofs::lines::Writings::nothing_more))]
fn write_once<W: Write>(device: &mut W, bytes: &[u8]) -> usize
    ensures bound { result ≤ length bytes.now }
    ensures bytes { Appends (W.contents device.old) (W.contents device.new) (take result bytes.now) }
{
    for _ in 0..TRIES {
        match device.write(bytes) {
            Ok(len) => return len,
            Err(error) => {
                if error.kind() != ErrorKind::Interrupted {
                    return 0;
                }
            }
        }
    }
    0
}

// Whether so many bytes are a part of so many.
fn is_part(taken: usize, all: usize) -> bool
    ensures { result ≡ (nat_lt 0 taken && nat_lt taken all) }
{
    0 < taken && taken < all
}

// Promise: The report of lost lines says how many there were
/// The line that says how many lines were lost.
pub fn report_of(alloc: Global, instant: Timestamp, lost: u64) -> Result<LogLine, AllocError>
    ensures { IfOk result (λ line. IsReport instant lost line) }
{
    let pairs = With {
        before: (),
        key: "lines",
        value: lost,
    };
    let told = Record::new(Metadata::new(Level::Warn, ""), "lost", pairs, ());
    line_of(alloc, instant, &told)
}

impl<W: Write> LineWriter<W> {
    /// Nothing is written yet.
    pub fn new(device: W) -> LineWriter<W>
        ensures device { result.device ≡ device }
        ensures whole { result.is_torn ≡ false }
    {
        LineWriter {
            device,
            is_torn: false,
        }
    }

    // Ends a part of a line that was written, and returns whether the device is at the start of a line then.
    fn mend(&mut self) -> bool
        ensures whole { result ≡ true → (self.new.is_torn ≡ false) × Appends (W.contents self.old.device) (W.contents self.new.device) (mended self.old.is_torn []) }
        ensures none { result ≡ false → (self.new.is_torn ≡ self.old.is_torn) × Appends (W.contents self.old.device) (W.contents self.new.device) [] }
    {
        if !self.is_torn {
            return true;
        }
        if write_once(&mut self.device, b"\n") == 0 {
            return false;
        }
        self.is_torn = false;
        true
    }

    // Promise: A line is written whole, after the break that ends a part of one before it, or a front of these is; then it counts as lost
    /// Writes a line by one write, and returns whether it was written whole.
    pub fn put(&mut self, line: &LogLine) -> bool
        ensures whole { result ≡ true → (self.new.is_torn ≡ false) × Appends (W.contents self.old.device) (W.contents self.new.device) (mended self.old.is_torn line.now) }
        ensures part { result ≡ false → (taken : List ℕ) × TakesPart self.old.is_torn line.now taken self.new.is_torn × Appends (W.contents self.old.device) (W.contents self.new.device) taken }
    {
        if !self.mend() {
            return false;
        }
        let bytes = line.as_bytes();
        let taken = write_once(&mut self.device, bytes);
        self.is_torn = is_part(taken, bytes.len());
        taken == bytes.len()
    }

    /// Reports how many lines were lost, if some were, and returns whether it did.
    pub fn report(&mut self, alloc: Global, instant: Timestamp, lost: u64) -> bool
        ensures none { lost ≡ 0 → (result ≡ true) × (self.new ≡ self.old) }
        ensures told { result ≡ true → 0 < lost → (bytes : List ℕ) × IsReport instant lost bytes
            × (self.new.is_torn ≡ false) × Appends (W.contents self.old.device) (W.contents self.new.device) (mended self.old.is_torn bytes) }
        ensures untold { result ≡ false → (0 < lost) × (taken : List ℕ) × TakesPartOfReport instant lost self.old.is_torn taken self.new.is_torn
            × Appends (W.contents self.old.device) (W.contents self.new.device) taken }
    {
        if lost == 0 {
            return true;
        }
        match report_of(alloc, instant, lost) {
            Ok(report) => self.put(&report),
            Err(_) => false,
        }
    }

    // Promise: No line is written before the lines that were lost are reported; a line that isn't written counts among them
    /// Writes a line, after the report of the lines that were lost before it, if some were. Returns how many lines are lost then and not
    /// reported yet.
    pub fn tell(&mut self, alloc: Global, instant: Timestamp, line: &LogLine, lost: u64) -> u64
        ensures written { result ≡ 0 → lost ≡ 0 → Appends (W.contents self.old.device) (W.contents self.new.device) (mended self.old.is_torn line.now) }
        ensures reported { result ≡ 0 → 0 < lost → (bytes : List ℕ) × IsReport instant lost bytes
            × Appends (W.contents self.old.device) (W.contents self.new.device) (mended self.old.is_torn (bytes ++ line.now)) }
        ensures whole { result ≡ 0 → self.new.is_torn ≡ false }
        // If it isn't written whole, nothing is written after the part of it, or of the report, that was.
        ensures untold { result ≢ 0 → (taken : List ℕ) × IsLost instant lost self.old.is_torn line.now result taken self.new.is_torn
            × Appends (W.contents self.old.device) (W.contents self.new.device) taken }
    {
        if !self.report(alloc, instant, lost) {
            return lost.saturating_add(1);
        }
        if self.put(line) { 0 } else { 1 }
    }
}

/// Writes the lines of a queue to a device, in order, until the queue is closed and has no more.
pub fn write_lines<R: Wait + Clock, W: Write + Drop>(
    rt: &R,
    alloc: Global,
    queue: &LineQueue,
    device: W,
) {
    let mut writer = LineWriter::new(device);
    for _ in rt.forever() {
        let Some(line) = queue.next(rt) else {
            break;
        };
        let lost = queue.take_lost();
        queue.lose(writer.tell(alloc, instant(rt), &line, lost));
    }
    let lost = queue.take_lost();
    let _ = writer.report(alloc, instant(rt), lost);
    queue.end();
}

/// Why no thread writes.
#[derive(Clone, Copy, Debug, PartialEq, Eq)]
pub enum NotStarted {
    /// There is no memory for the queue.
    OutOfMemory,
    /// The thread could not be started.
    NoThread,
}

/// Makes a queue, and starts a thread that writes its lines to the device. The thread is not joined: a device that takes no more bytes would hold
/// it for ever.
pub fn start_writing<
    R: Threads + Wait + Clock + Copy + Send + 'static,
    W: Write + Drop + Send + 'static,
>(rt: R, alloc: Global, device: W) -> Result<Arc<LineQueue>, NotStarted> {
    let Ok(queue) = LineQueue::new(alloc) else {
        return Err(NotStarted::OutOfMemory);
    };
    let Ok(queue) = Arc::new(alloc, queue) else {
        return Err(NotStarted::OutOfMemory);
    };
    let Ok(theirs) = Arc::try_clone(&queue) else {
        return Err(NotStarted::OutOfMemory);
    };
    match thread::spawn(&rt, move || write_lines(&rt, alloc, &theirs, device)) {
        Ok(_) => Ok(queue),
        Err(_) => Err(NotStarted::NoThread),
    }
}
