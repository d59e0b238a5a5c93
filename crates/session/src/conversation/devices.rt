//! The only devices of a session, over std's Read and Write. Each counts its failures, so that a contract can say which call failed.
ghost use Rattle.std.specs.Prelude.{◌≡◌, ◌≤◌, ℕ, List, Option, OnOk, OnErr, drop, length};
ghost use Rattle.std.specs.Io.{ReadsAtMost, WritesAtMost};
ghost use Rattle.std.specs.Io.KnownBytes.{Appends, ReadConsumes, WriteAppends};
ghost use Rattle.session.specs.conversation.Devices.{AppendsFront, failures_after};

use std::io;
use std::io::ErrorKind;

/// A device failed.
#[derive(Clone, Copy, Debug, PartialEq, Eq)]
pub struct DeviceFailed;

/// Where a session's bytes come from.
pub trait Source {
    // The bytes that reads will give from here on, if they are known.
    ghost unread: { Self → Option (List ℕ) };

    // How often it has failed, modulo 2^64.
    ghost failures: { Self → ℕ };

    /// Reads some of the next bytes to the front of the buffer, and returns how many: none only at the end of the input. If it
    /// fails it has read none.
    fn read(&mut self, buffer: &mut [u8]) -> Result<usize, DeviceFailed>
        ensures bound { ReadsAtMost result buffer.new }
        ensures bytes { ReadConsumes (unread self.old) (unread self.new) result buffer.new }
        ensures count { failures self.new ≡ failures_after result (failures self.old) };
}

/// Where a session's replies go.
pub trait Sink {
    // The bytes that it has taken, if they are known.
    ghost taken: { Self → Option (List ℕ) };

    // How often it has failed, modulo 2^64.
    ghost failures: { Self → ℕ };

    /// Writes all of the bytes, unless the device fails, which then has taken a front of them.
    fn write(&mut self, bytes: &[u8]) -> Result<(), DeviceFailed>
        ensures bytes { OnOk result (Appends (taken self.old) (taken self.new) bytes.now) }
        ensures front { OnErr result (AppendsFront (taken self.old) (taken self.new) bytes.now) }
        ensures count { failures self.new ≡ failures_after result (failures self.old) };
}

/// A `Source` that reads from a `Read`, again if it is interrupted, and counts its failures.
#[derive(Drop)]
pub struct Reader<R: io::Read> {
    pub reader: R,
    pub failures: u64,
}

impl<R: io::Read> Reader<R> {
    pub fn new(reader: R) -> Reader<R>
        ensures { result ≡ record { reader = reader; failures = 0 } }
    {
        Reader {
            reader,
            failures: 0,
        }
    }
}

/// A `Sink` that writes to a `Write`, and counts its failures.
#[derive(Drop)]
pub struct Writer<W: io::Write> {
    pub writer: W,
    pub failures: u64,
}

impl<W: io::Write> Writer<W> {
    pub fn new(writer: W) -> Writer<W>
        ensures { result ≡ record { writer = writer; failures = 0 } }
    {
        Writer {
            writer,
            failures: 0,
        }
    }
}

/// Reads some of the next bytes to the front of the buffer, and returns how many. A read that was interrupted has read none, and is made
/// again.
#[tactic(auto, using(crate::proofs::conversation::Readings::kept_read))]
fn read_some<R: io::Read>(reader: &mut R, buffer: &mut [u8]) -> Result<usize, DeviceFailed>
    ensures bound { ReadsAtMost result buffer.new }
    ensures bytes { ReadConsumes (R.remaining reader.old) (R.remaining reader.new) result buffer.new }
{
    for _ in 0..u64::MAX {
        match reader.read(buffer) {
            Ok(n) => return Ok(n),
            Err(error) => {
                if error.kind() != ErrorKind::Interrupted {
                    return Err(DeviceFailed);
                }
            }
        }
    }
    Err(DeviceFailed)
}

impl<R: io::Read> Source for Reader<R> {
    ghost unread = { λ r. R.remaining r.reader };

    ghost failures = { λ r. r.failures };

    // Promise: A wrapped reader gives its reader's bytes, and an interrupted read ends nothing; a wrapped writer writes its bytes
    // With: Writer::write
    fn read(&mut self, buffer: &mut [u8]) -> Result<usize, DeviceFailed> {
        match read_some(&mut self.reader, buffer) {
            Ok(n) => Ok(n),
            Err(_) => {
                self.failures = self.failures.wrapping_add(1);
                Err(DeviceFailed)
            }
        }
    }
}

/// Writes some of the bytes, or none if the write was interrupted, and returns how many.
#[tactic(auto, using(crate::proofs::conversation::Written::none_appended, crate::proofs::conversation::Written::none_kept))]
fn write_some<W: io::Write>(writer: &mut W, bytes: &[u8]) -> Result<usize, DeviceFailed>
    ensures bound { WritesAtMost result bytes.now }
    ensures bytes { WriteAppends (W.contents writer.old) (W.contents writer.new) result bytes.now }
{
    match writer.write(bytes) {
        Ok(0) => Err(DeviceFailed),
        Ok(n) => Ok(n),
        Err(error) => {
            if error.kind() == ErrorKind::Interrupted {
                return Ok(0);
            }
            Err(DeviceFailed)
        }
    }
}

/// What follows the first `n` bytes.
fn bytes_after(bytes: &[u8], n: usize) -> &[u8]
    requires { n ≤ length bytes.now }
    ensures { result.now ≡ drop n bytes.now }
{
    &bytes[n..]
}

/// Writes the bytes by as many writes as they need.
fn write_all<W: io::Write>(writer: &mut W, bytes: &[u8]) -> Result<(), DeviceFailed>
    ensures bytes { OnOk result (Appends (W.contents writer.old) (W.contents writer.new) bytes.now) }
    ensures front { OnErr result (AppendsFront (W.contents writer.old) (W.contents writer.new) bytes.now) }
{
    let mut rest = bytes;
    for _ in 0..u64::MAX {
        if rest.is_empty() {
            return Ok(());
        }
        let n = write_some(writer, rest)?;
        rest = bytes_after(rest, n);
    }
    Err(DeviceFailed)
}

impl<W: io::Write> Sink for Writer<W> {
    ghost taken = { λ w. W.contents w.writer };

    ghost failures = { λ w. w.failures };

    fn write(&mut self, bytes: &[u8]) -> Result<(), DeviceFailed> {
        match write_all(&mut self.writer, bytes) {
            Ok(()) => Ok(()),
            Err(_) => {
                self.failures = self.failures.wrapping_add(1);
                Err(DeviceFailed)
            }
        }
    }
}
