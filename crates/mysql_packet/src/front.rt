//! Takes whole payloads off the front of some bytes. A payload of 2^24 - 1 bytes or more comes in several packets, which are joined.

// What is at the front of a stream: less than a payload, a header that is refused, or a whole payload.
ghost use Rattle.std.specs.Prelude.{◌≡◌, [], ◌∷◌, ◌+◌, ◌*◌, ◌%◌, ◌^◌, ◌<◌, ◌≤◌, length, take, drop, IfOk};
ghost use Rattle.mysql_packet.specs.Frames.{full, header_fault};
ghost use Rattle.mysql_packet.specs.Numbers.{little_endian};
ghost use Rattle.mysql_packet.specs.inner.Reading.{size_of, payload_at, IsNextHeader, IsFront, TakesPayloads};

use crate::framer::{HeaderFault, Payload};
use crate::payload::{FULL_PART, HEADER_LEN};
use std::alloc::{AllocError, Global};
use vt_value::{Items, Refusal};

/// What is at the front.
#[derive(Drop)]
pub(crate) enum Front {
    /// Less than a payload.
    Waits,
    /// A header that is refused.
    Refused(HeaderFault),
    /// A payload: its first sequence number, how many full parts it has, and the length of the last part.
    Whole(u8, usize, usize),
}

/// The payloads that were taken off the front, how many bytes they took, and the fault after them.
#[derive(Drop)]
pub(crate) struct Taken {
    pub(crate) payloads: Items<Payload>,
    pub(crate) used: usize,
    pub(crate) fault: Option<HeaderFault>,
}

fn part_len(low: u8, middle: u8, high: u8) -> usize
    ensures bytes { little_endian 3 result ≡ low ∷ middle ∷ high ∷ [] }
    ensures bound { result < 2 ^ 24 }
{
    low as usize + 256 * (middle as usize) + 65536 * (high as usize)
}

fn header_fault(limit: usize, first: u8, come: usize, len: usize, number: u8) -> Option<Refusal>
    requires { full * come ≤ limit }
    ensures { result ≡ header_fault limit first come len number }
{
    if come > 0 && number as usize != (first as usize + come) % 256 {
        Some(Refusal::PacketsOutOfOrder)
    } else if len > limit - FULL_PART * come {
        Some(Refusal::PacketTooLarge)
    } else {
        None
    }
}

/// The length of the first packet's part, and its sequence number.
fn read_header(bytes: &[u8]) -> (usize, u8)
    requires { 4 ≤ length bytes.now }
    ensures { IsNextHeader result.0 result.1 (drop 4 bytes.now) bytes.now }
{
    (part_len(bytes[0], bytes[1], bytes[2]), bytes[3])
}

/// The first packet's part, and what follows it.
fn split_packet(bytes: &[u8], len: usize) -> (&[u8], &[u8])
    requires { len + 4 ≤ length bytes.now }
    ensures part { result.0.now ≡ take len (drop 4 bytes.now) }
    ensures rest { result.1.now ≡ drop len (drop 4 bytes.now) }
{
    let (_, body) = bytes.split_at(HEADER_LEN);
    body.split_at(len)
}

/// The first sequence number of a payload of which so many parts have come.
fn first_number(first: u8, come: usize, number: u8) -> u8
    ensures begins { come ≡ 0 → result ≡ number }
    ensures goes_on { 0 < come → result ≡ first }
{
    if come == 0 { number } else { first }
}

/// Reads the headers of the first payload, part by part.
fn read_front(limit: usize, bytes: &[u8]) -> Front
    ensures { IsFront limit bytes.now result }
{
    let mut first = 0;
    let mut come = 0;
    let mut rest = bytes;
    while rest.len() >= HEADER_LEN {
        let (len, number) = read_header(rest);
        first = first_number(first, come, number);
        if let Some(refusal) = header_fault(limit, first, come, len, number) {
            return Front::Refused(HeaderFault { refusal, number });
        }
        if rest.len() - HEADER_LEN < len {
            return Front::Waits;
        }
        if len < FULL_PART {
            return Front::Whole(first, come, len);
        }
        let (_, more) = split_packet(rest, len);
        rest = more;
        come += 1;
    }
    Front::Waits
}

/// The bytes of the payload at the front.
fn join(alloc: Global, bytes: &[u8], come: usize, len: usize) -> Result<Vec<u8>, AllocError>
    requires { size_of come len ≤ length bytes.now }
    ensures { IfOk result (λ payload. payload.items ≡ payload_at come len bytes.now) }
{
    let mut payload = Vec::with_capacity(alloc, come * FULL_PART + len)?;
    let mut rest = bytes;
    for _ in 0..come {
        let (part, more) = split_packet(rest, FULL_PART);
        payload.extend_from_slice(part)?;
        rest = more;
    }
    let (last, _) = split_packet(rest, len);
    payload.extend_from_slice(last)?;
    Ok(payload)
}

/// The payload at the front, of so many full parts and a last one of `len` bytes.
fn copy_payload(
    alloc: Global,
    bytes: &[u8],
    first: u8,
    come: usize,
    len: usize,
) -> Result<Payload, AllocError>
    requires { size_of come len ≤ length bytes.now }
    ensures { IfOk result (λ payload. payload
        ≡ record { first = first; last = (first + come) % 256; bytes = payload_at come len bytes.now }) }
{
    let last = ((first as usize + come) % 256) as u8;
    let bytes = Items::from_vec(join(alloc, bytes, come, len)?);
    Ok(Payload { first, last, bytes })
}

/// Takes each whole payload off the front.
pub(crate) fn take_payloads(alloc: Global, limit: usize, bytes: &[u8]) -> Result<Taken, AllocError>
    ensures { IfOk result (TakesPayloads limit bytes.now) }
{
    let mut payloads = Items::new(alloc);
    let mut rest = bytes;
    'taking: loop {
        match read_front(limit, rest) {
            Front::Waits => {
                let used = bytes.len() - rest.len();
                return Ok(Taken {
                    payloads,
                    used,
                    fault: None,
                });
            }
            Front::Refused(fault) => {
                let used = bytes.len() - rest.len();
                return Ok(Taken {
                    payloads,
                    used,
                    fault: Some(fault),
                });
            }
            Front::Whole(first, come, len) => {
                payloads.push(copy_payload(alloc, rest, first, come, len)?)?;
                let size = come * (FULL_PART + HEADER_LEN) + HEADER_LEN + len;
                let (_, more) = rest.split_at(size);
                rest = more;
            }
        }
    }
}
