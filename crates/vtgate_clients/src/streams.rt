//! Reads and writes of a stream that says so if it would wait, as a device makes them.
ghost use Rattle.std.specs.Prelude.{◌≡◌, ◌≤◌, ◌⊎◌, true, length, take, IfOk, IfSome, OnErr};
ghost use Rattle.std.specs.Io.KnownBytes.{Appends};
ghost use Rattle.session.specs.conversation.Devices.{AppendsFront, ReadsNow};

use session::DeviceFailed;
use std::io;
use std::io::ErrorKind;

/// Whether a read or a write that failed so may be made again: it would have waited, or it was interrupted.
pub fn is_passing(kind: ErrorKind) -> bool
    ensures would_wait { kind ≡ ErrorKind.WouldBlock → result ≡ true }
    ensures interrupted { kind ≡ ErrorKind.Interrupted → result ≡ true }
    ensures other { result ≡ true → (kind ≡ ErrorKind.WouldBlock) ⊎ (kind ≡ ErrorKind.Interrupted) }
{
    kind == ErrorKind::WouldBlock || kind == ErrorKind::Interrupted
}

// Promise: What is read of a stream for now are its next bytes, each once, and what is written for now is a front of the bytes
// With: write_for_now
/// Reads some of the next bytes to the front of the buffer, by one read, and returns how many: none only at the end. `None` says that none came for
/// now.
pub fn read_for_now<R: io::Read>(
    stream: &mut R,
    buffer: &mut [u8],
) -> Result<Option<usize>, DeviceFailed>
    ensures bound { IfOk result (λ read. IfSome read (λ n. n ≤ length buffer.new)) }
    ensures bytes { ReadsNow (R.remaining stream.old) (R.remaining stream.new) result buffer.new }
{
    match stream.read(buffer) {
        Ok(n) => Ok(Some(n)),
        Err(error) => {
            if is_passing(error.kind()) {
                Ok(None)
            } else {
                Err(DeviceFailed)
            }
        }
    }
}

/// Writes a front of the bytes, perhaps none for now, by one write, and returns how many.
#[tactic(auto, using(crate::proofs::StreamLemmas::none_kept, crate::proofs::StreamLemmas::none_front))]
pub fn write_for_now<W: io::Write>(stream: &mut W, bytes: &[u8]) -> Result<usize, DeviceFailed>
    ensures bound { IfOk result (λ n. n ≤ length bytes.now) }
    ensures bytes { IfOk result (λ n. Appends (W.contents stream.old) (W.contents stream.new) (take n bytes.now)) }
    ensures front { OnErr result (AppendsFront (W.contents stream.old) (W.contents stream.new) bytes.now) }
{
    match stream.write(bytes) {
        Ok(n) => Ok(n),
        Err(error) => {
            if is_passing(error.kind()) {
                Ok(0)
            } else {
                Err(DeviceFailed)
            }
        }
    }
}
