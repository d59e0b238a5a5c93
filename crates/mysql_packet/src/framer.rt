//! Reads payloads from a stream that comes in pieces. It keeps only the bytes of a payload that isn't whole yet.
ghost use Rattle.std.specs.Prelude.{◌≡◌, ◌↔◌, IsTrue, ℕ, [], ◌≤◌, ◌++◌, List, None, Some, drop, IfOk, IfSome, IsNone, OnErr, vec_len};
ghost use Rattle.mysql_packet.specs.Frames.{IsRefusedAfter};
ghost use Rattle.mysql_packet.specs.Framing.{HasFramed};
ghost use Rattle.mysql_packet.specs.declared.framer.Payload.{Payload};

use crate::front::take_payloads;
use std::alloc::{AllocError, Global};
use std::marker::Model;
use vt_value::{Items, Refusal};

/// A payload that has come whole, with the sequence numbers of its first and its last packet.
#[derive(Debug, Drop)]
pub struct Payload {
    pub first: u8,
    pub last: u8,
    pub bytes: Items<u8>,
}

/// The header that a framer refuses: why, and its sequence number.
#[derive(Clone, Copy, Debug, PartialEq, Eq)]
pub struct HeaderFault {
    pub refusal: Refusal,
    pub number: u8,
}

/// What a piece of the stream gave: the payloads that it completes, and the fault after them, if there is one.
#[derive(Debug, Drop)]
pub struct Fed {
    pub payloads: Items<Payload>,
    pub fault: Option<HeaderFault>,
}

/// Reads the payloads of a stream of packets that comes in pieces.
#[derive(Drop)]
pub struct Framer {
    limit: usize,
    pending: Vec<u8>,
    fault: Option<HeaderFault>,
}

impl Model for Framer {
    ghost use Rattle.mysql_packet.specs.Framing.{Framing};

    ghost Value = { Framing };

    ghost view = { λ f. record { limit = f.limit; rest = f.pending.items; fault = f.fault } };
}

/// Drops the first `used` bytes.
fn drop_front(pending: &mut Vec<u8>, used: usize)
    requires { used ≤ vec_len pending.old }
    ensures { pending.new.items ≡ drop used pending.old.items }
{
    if used > 0 {
        let left = pending.len() - used;
        pending.copy_within(used.., 0);
        pending.truncate(left);
    }
}

impl Framer {
    // Promise: A framer begins at the start of a stream; it returns whether a payload has begun
    // With: Framer::is_between_payloads
    /// At the start of a stream, for payloads of at most `limit` bytes.
    pub fn new(alloc: Global, limit: usize) -> Framer
        ensures value { result ≡ record { limit = limit; rest = []; fault = None } }
        // Nothing has been read.
        ensures start { HasFramed result [] [] }
    {
        Framer {
            limit,
            pending: Vec::new(alloc),
            fault: None,
        }
    }

    /// Whether the stream so far ends with a whole payload, or has no byte yet.
    pub fn is_between_payloads(&self) -> bool
        ensures { IsTrue result ↔ (self.now.rest ≡ []) }
    {
        self.pending.is_empty()
    }

    // Promise: However the client's stream is cut, the payloads are those of the whole stream so far, with their first and last numbers
    // Clauses: payloads, limit
    // Promise: A fault comes only if a refused header is where a part begins, with that header's number; every later piece gives that
    // fault alone
    // Clauses: fault, stopped, again
    // Promise: If memory is refused, the piece counts as not fed
    // Clauses: err
    /// Takes the next piece of the stream: gives each payload that is whole now, in order, and after them the fault,
    /// if a header is refused there. A payload's packets are numbered one after another, modulo 256, from any first
    /// number, and together have at most as many bytes as the limit. A header is refused as soon as it has come, its
    /// number before its length, and after it the stream gives nothing more. Refuses only for want of memory, and the
    /// piece then counts as not fed.
    pub fn feed(&mut self, piece: &[u8]) -> Result<Fed, AllocError>
        // However the stream was cut before, it is the payloads before and these so far, and less than one more.
        ensures payloads { IfOk result (λ fed. IsNone fed.fault → (stream : List ℕ) (before : List Payload) →
            HasFramed self.old stream before →
            HasFramed self.new (stream ++ piece.now) (before ++ fed.payloads)) }
        // A fault comes only if a refused header is where a part begins after them.
        ensures fault { IfOk result (λ fed. IfSome fed.fault (λ f. (stream : List ℕ) (before : List Payload) →
            HasFramed self.old stream before →
            IsRefusedAfter self.old.limit (stream ++ piece.now) (before ++ fed.payloads) f)) }
        ensures stopped { IfOk result (λ fed. self.new.fault ≡ fed.fault) }
        // After a fault every later piece gives that fault alone.
        ensures again { IfOk result (λ fed. IfSome self.old.fault (λ f.
            (fed ≡ record { payloads = []; fault = Some f }) × (self.new ≡ self.old))) }
        ensures limit { self.new.limit ≡ self.old.limit }
        // Refused for memory, the piece counts as not fed.
        ensures err { OnErr result (self.new ≡ self.old) }
    {
        let alloc = *self.pending.allocator();
        if let Some(fault) = self.fault {
            return Ok(Fed {
                payloads: Items::new(alloc),
                fault: Some(fault),
            });
        }
        let before = self.pending.len();
        self.pending.extend_from_slice(piece)?;
        match take_payloads(alloc, self.limit, &self.pending) {
            Ok(taken) => {
                drop_front(&mut self.pending, taken.used);
                self.fault = taken.fault;
                Ok(Fed {
                    payloads: taken.payloads,
                    fault: taken.fault,
                })
            }
            Err(error) => {
                self.pending.truncate(before);
                Err(error)
            }
        }
    }
}
