//! The payloads of a stream of packets. Their numbers aren't looked at.
ghost use Rattle.std.specs.Prelude.{◌≡◌, ℕ, ◌<◌, ◌≤◌, List, ◌++◌, length, IfOk};
ghost use Rattle.mysql_packet.specs.Frames.{packet, frame, frames_from, full};
ghost use Rattle.resultset.specs.inner.Reading.{OnceRead};

use crate::unread::Unread;
use std::alloc::Global;
use vt_value::Items;

/// The length of a part that isn't the last of its payload.
const FULL_PART: usize = 0xFF_FFFF;

/// The payloads of all of the bytes.
pub(crate) fn payloads(alloc: Global, bytes: &[u8]) -> Result<Items<Items<u8>>, Unread>
    ensures { (number : ℕ) (ps : List (List ℕ)) → bytes.now ≡ frames_from number ps → OnceRead result (λ x. x ≡ ps) }
{
    let mut payloads = Items::new(alloc);
    let mut rest = bytes;
    while !rest.is_empty() {
        let (payload, after) = payload_at(alloc, rest)?;
        payloads.push(payload)?;
        rest = after;
    }
    Ok(payloads)
}

/// The payload at the front, its parts joined, and what follows it.
fn payload_at(alloc: Global, bytes: &[u8]) -> Result<(Items<u8>, &[u8]), Unread>
    ensures again { (number : ℕ) (payload rest : List ℕ) → bytes.now ≡ frame number payload ++ rest
        → OnceRead result (λ x. (x.0 ≡ payload) × (x.1.now ≡ rest)) }
    ensures shorter { IfOk result (λ x. length x.1.now < length bytes.now) }
{
    let mut payload = Vec::new(alloc);
    let mut rest = bytes;
    loop {
        let (part, after) = part_at(rest)?;
        payload.extend_from_slice(part)?;
        if part.len() < FULL_PART {
            return Ok((Items::from_vec(payload), after));
        }
        rest = after;
    }
}

/// The part of the packet at the front, and what follows it.
fn part_at(bytes: &[u8]) -> Result<(&[u8], &[u8]), Unread>
    ensures again { (number : ℕ) (part rest : List ℕ) → length part ≤ full → bytes.now ≡ packet number part ++ rest
        → OnceRead result (λ x. (x.0.now ≡ part) × (x.1.now ≡ rest)) }
    ensures shorter { IfOk result (λ x. length x.1.now < length bytes.now) }
{
    let [low, middle, high, _, rest @ ..] = bytes else {
        return Err(Unread::Malformed);
    };
    let len = usize::from(*low) + 256 * usize::from(*middle) + 65536 * usize::from(*high);
    if rest.len() < len {
        return Err(Unread::Malformed);
    }
    Ok(rest.split_at(len))
}
