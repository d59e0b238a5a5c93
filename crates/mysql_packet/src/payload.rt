//! Writes payloads as packets.
ghost use Rattle.std.specs.Prelude.{◌≡◌, ◌+◌, ◌*◌, ◌%◌, ◌<◌, ◌≤◌, ◌++◌, length, IfOk, IsOk, OnErr, OnOk};
ghost use Rattle.mysql_packet.specs.Frames.{frame, full, header, number_after, packet};

use bytes::BytesMut;
use std::alloc::AllocError;

/// The length of a full part, after which another part of the same payload follows.
pub(crate) const FULL_PART: usize = 0xFF_FFFF;

/// The length of a packet's header: 3 bytes of its part's length, the lowest first, and its sequence number.
pub(crate) const HEADER_LEN: usize = 4;

fn header_of(len: usize, number: u8) -> [u8; 4]
    ensures { result ≡ header len number }
{
    let low = (len % 256) as u8;
    let middle = (len / 256 % 256) as u8;
    let high = (len / 256 / 256 % 256) as u8;
    [low, middle, high, number]
}

fn put_packet(number: u8, part: &[u8], out: &mut BytesMut)
    requires { length part.now + 4 ≤ out.old.spare }
    ensures items { out.new.items ≡ out.old.items ++ packet number part.now }
    ensures spare { out.new.spare + 4 + length part.now ≡ out.old.spare }
{
    out.extend_reserved(&header_of(part.len(), number));
    out.extend_reserved(part);
}

// Promise: A payload's packets are appended, and the next number given; if memory is refused the buffer is as it was; with room it can't
// fail
/// Appends the packets of one payload, and gives the sequence number after its last: parts of 0xFFFFFF bytes, and
/// then a shorter one, which may be empty. Refuses only for want of memory, and then leaves the buffer as it was.
pub fn put_payload(number: u8, payload: &[u8], out: &mut BytesMut) -> Result<u8, AllocError>
    ensures ok { OnOk result (out.new.items ≡ out.old.items ++ frame number payload.now) }
    ensures next { IfOk result (λ n. n ≡ number_after number payload.now) }
    ensures err { OnErr result (out.new.items ≡ out.old.items) }
    // With that much room it can't fail.
    ensures room { length (frame number payload.now) ≤ out.old.spare → IsOk result }
    // No room is ever lost.
    ensures capacity { length out.old.items + out.old.spare ≤ length out.new.items + out.new.spare }
{
    out.reserve(payload.len() + HEADER_LEN * (payload.len() / FULL_PART + 1))?;
    let mut next = number;
    let mut rest = payload;
    while rest.len() >= FULL_PART {
        let (part, more) = rest.split_at(FULL_PART);
        put_packet(next, part, out);
        next = next.wrapping_add(1);
        rest = more;
    }
    put_packet(next, rest, out);
    Ok(next.wrapping_add(1))
}
