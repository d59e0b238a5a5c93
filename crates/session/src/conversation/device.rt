//! A device that may say that it would wait, and the replies that it hasn't taken yet.
ghost use Rattle.std.specs.Prelude.{◌≡◌, ◌<◌, ◌≤◌, ◌⊎◌, ℕ, List, [], Option, Ok, Err, IfOk, IfErr, IfSome, OnOk, OnErr, take, drop, length, vec_len};
ghost use Rattle.std.specs.Io.KnownBytes.{Appends, Consumes, IsAtEnd, prepend_known};
ghost use Rattle.session.specs.conversation.Devices.{AppendsFront, ReadsNow};
ghost use Rattle.session.specs.conversation.inner.Kept.{HasSent, StillRead};

use crate::conversation::devices::{DeviceFailed, Sink};
use crate::conversation::end::SessionFault;
use std::alloc::Global;

/// Bytes both ways, without waiting for long.
pub trait Device {
    // The bytes that reads will give from here on, if they are known.
    ghost unread: { Self → Option (List ℕ) };

    // The bytes that it has taken, if they are known.
    ghost taken: { Self → Option (List ℕ) };

    /// Reads some of the next bytes to the front of the buffer, and returns how many: none only at the end of the input. `None` says
    /// that none came for now. If it fails it has read none.
    fn read_now(&mut self, buffer: &mut [u8]) -> Result<Option<usize>, DeviceFailed>
        ensures bound { IfOk result (λ read. IfSome read (λ n. n ≤ length buffer.new)) }
        ensures bytes { ReadsNow (unread self.old) (unread self.new) result buffer.new }
        ensures taken { taken self.new ≡ taken self.old };

    /// Takes a front of the bytes, perhaps none for now, and returns how many. If it fails it has taken a front of them too.
    fn write_now(&mut self, bytes: &[u8]) -> Result<usize, DeviceFailed>
        ensures bound { IfOk result (λ n. n ≤ length bytes.now) }
        ensures bytes { IfOk result (λ n. Appends (taken self.old) (taken self.new) (take n bytes.now)) }
        ensures front { OnErr result (AppendsFront (taken self.old) (taken self.new) bytes.now) }
        ensures unread { unread self.new ≡ unread self.old };
}

/// More room than this isn't kept while nothing lies in it.
const KEPT_ROOM: usize = 4096;

/// Drops the first `n` bytes, and gives back a large block if none are left.
pub(crate) fn drop_first(alloc: Global, bytes: &mut Vec<u8>, n: usize)
    requires { n ≤ vec_len bytes.old }
    ensures { bytes.new.items ≡ drop n bytes.old.items }
{
    let left = bytes.len() - n;
    if left == 0 && bytes.capacity() > KEPT_ROOM {
        *bytes = Vec::new(alloc);
        return;
    }
    bytes.copy_within(n.., 0);
    bytes.truncate(left);
}

/// What a session wrote and its device hasn't taken yet. It takes all, and fails only if there is no memory for that.
#[derive(Drop)]
pub(crate) struct Unsent {
    pub(crate) bytes: Vec<u8>,
    pub(crate) failures: u64,
}

impl Sink for Unsent {
    ghost use Rattle.std.specs.Prelude.{Some};

    ghost taken = { λ u. Some u.bytes.items };

    ghost failures = { λ u. u.failures };

    fn write(&mut self, bytes: &[u8]) -> Result<(), DeviceFailed> {
        match self.bytes.extend_from_slice(bytes) {
            Ok(()) => Ok(()),
            Err(_) => {
                self.failures = self.failures.wrapping_add(1);
                Err(DeviceFailed)
            }
        }
    }
}

/// Hands over what the device takes of the bytes. If it fails, what is left is dropped.
pub(crate) fn send<D: Device>(
    alloc: Global,
    device: &mut D,
    unsent: &mut Vec<u8>,
) -> Result<(), DeviceFailed>
    ensures sent { OnOk result (HasSent (D.taken device.old) (D.taken device.new) unsent.old.items unsent.new.items) }
    ensures cut { OnErr result (AppendsFront (D.taken device.old) (D.taken device.new) unsent.old.items × (unsent.new.items ≡ [])) }
    ensures unread { D.unread device.new ≡ D.unread device.old }
{
    match device.write_now(unsent) {
        Ok(n) => {
            drop_first(alloc, unsent, n);
            Ok(())
        }
        Err(error) => {
            *unsent = Vec::new(alloc);
            Err(error)
        }
    }
}

/// How long the first packet is, or the bytes if they are less than that.
pub(crate) fn front_len(bytes: &Vec<u8>) -> usize
    ensures { result ≤ vec_len bytes.now }
{
    let [low, middle, high, _, body @ ..] = bytes.as_slice() else {
        return bytes.len();
    };
    let len = *low as usize + 256 * (*middle as usize) + 65536 * (*high as usize);
    if len < body.len() {
        4 + len
    } else {
        bytes.len()
    }
}

/// The first `n` bytes.
pub(crate) fn first_bytes(bytes: &Vec<u8>, n: usize) -> &[u8]
    requires { n ≤ vec_len bytes.now }
    ensures { result.now ≡ take n bytes.now.items }
{
    &bytes[..n]
}

/// What a read for now came to.
#[derive(Clone, Copy, Debug, PartialEq, Eq)]
pub(crate) enum Fetched {
    /// No bytes came for now.
    Nothing,
    /// The input has ended.
    End,
    /// Some bytes came.
    Bytes,
}

/// Reads some of the next bytes, which lie in `unfed` then.
pub(crate) fn fetch<D: Device>(
    device: &mut D,
    unfed: &mut Vec<u8>,
    buffer: &mut [u8],
) -> Result<Fetched, SessionFault>
    requires room { 0 < length buffer.old }
    requires none { unfed.old.items ≡ [] }
    ensures read { OnOk result (StillRead (D.unread device.old) (prepend_known unfed.new.items (D.unread device.new))) }
    ensures end { IfOk result (λ fetched. fetched ≡ Fetched.End → IsAtEnd (D.unread device.new) × (unfed.new.items ≡ [])) }
    ensures failed { result ≡ Err SessionFault.Read → StillRead (D.unread device.old) (prepend_known unfed.new.items (D.unread device.new)) }
    ensures memory { IfErr result (λ e. e ≡ SessionFault.Memory → (piece : List ℕ) × Consumes (D.unread device.old) (D.unread device.new) piece) }
    ensures dropped { IfErr result (λ e. e ≡ SessionFault.Memory → unfed.new.items ≡ []) }
    ensures cause { IfErr result (λ e. (e ≡ SessionFault.Read) ⊎ (e ≡ SessionFault.Memory)) }
    ensures taken { D.taken device.new ≡ D.taken device.old }
{
    match device.read_now(buffer) {
        Err(_) => Err(SessionFault::Read),
        Ok(None) => Ok(Fetched::Nothing),
        Ok(Some(0)) => Ok(Fetched::End),
        Ok(Some(n)) => match unfed.extend_from_slice(&buffer[..n]) {
            Ok(()) => Ok(Fetched::Bytes),
            Err(_) => Err(SessionFault::Memory),
        },
    }
}
