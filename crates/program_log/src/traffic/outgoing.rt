//! What is written to a client.

use crate::traffic::detail::Detail;
use crate::traffic::packets::{PacketPart, Packets};
use crate::traffic::refused::{Refused, error_code, told_refusal};
use crate::traffic::replied::{Answered, Replied};

/// The first bytes of the payloads that end a reply: an OK, an error, and what ends rows, which is shorter than a row that begins so.
const OK: u8 = 0x00;

const ERROR: u8 = 0xFF;

const END: u8 = 0xFE;

const SHORTEST_ROW: usize = 9;

/// How many bytes the payload of an EOF packet has.
const EOF_LEN: usize = 5;

/// What the next packet is.
#[derive(Clone, Copy)]
enum Next {
    /// The first of a reply.
    Reply,
    /// The definition of one of so many columns.
    Definition(u64),
    /// What ends the definitions, or a row.
    Rows,
    /// A row, or what ends them.
    Row,
}

/// How many bytes come after the first of a length-encoded number.
fn more_bytes(first: u8) -> usize {
    match first {
        0xFC => 2,
        0xFD => 3,
        0xFE => 8,
        _ => 0,
    }
}

/// The length-encoded number that bytes begin with, as far as they are there.
fn number_at(bytes: &[u8]) -> u64 {
    let Some((first, rest)) = bytes.split_first() else {
        return 0;
    };
    let len = more_bytes(*first);
    if len == 0 {
        return u64::from(*first);
    }
    let mut number = 0u64;
    for byte in rest.get(..len).unwrap_or(&[]).iter().rev() {
        number = number.wrapping_mul(256).wrapping_add(u64::from(*byte));
    }
    number
}

/// What was written to a client.
#[derive(Drop)]
pub struct Outgoing {
    detail: Detail,
    replied: Replied,
    packets: Packets,
    next: Next,
    sent: u64,
    denied: u64,
    refused: Refused,
}

impl Outgoing {
    /// Nothing was written yet.
    pub fn new(detail: Detail) -> Outgoing {
        Outgoing {
            detail,
            replied: Replied::new(),
            packets: Packets::new(),
            next: Next::Reply,
            sent: 0,
            denied: 0,
            refused: Refused::new(),
        }
    }

    // What comes after the first packet of a reply.
    fn after_first(&self, part: PacketPart<'_>) -> Next {
        match part.first() {
            OK => {
                let changed = number_at(part.bytes.get(1..).unwrap_or(&[]));
                self.replied.add_rows(changed);
                Next::Reply
            }
            ERROR | END => Next::Reply,
            _ => Next::Definition(number_at(part.bytes)),
        }
    }

    // What comes after a row, or what ends the rows.
    fn after_row(&self, part: PacketPart<'_>) -> Next {
        match part.first() {
            ERROR => Next::Reply,
            END if part.len < SHORTEST_ROW => Next::Reply,
            _ => {
                self.replied.add_rows(1);
                Next::Row
            }
        }
    }

    fn after(&self, part: PacketPart<'_>) -> Next {
        match self.next {
            Next::Reply => self.after_first(part),
            Next::Definition(left) if left > 1 => Next::Definition(left.saturating_sub(1)),
            Next::Definition(_) => Next::Rows,
            Next::Rows if part.first() == END && part.len == EOF_LEN => Next::Row,
            Next::Rows | Next::Row => self.after_row(part),
        }
    }

    fn take_packets(&mut self, bytes: &[u8]) {
        if self.replied.begins() {
            self.packets = Packets::new();
            self.next = Next::Reply;
        }
        let mut rest = bytes;
        for _ in 0..bytes.len() {
            if rest.is_empty() {
                return;
            }
            let (part, after) = self.packets.take(rest);
            rest = after;
            if let Some(part) = part {
                if part.is_first {
                    self.next = self.after(part);
                }
            }
        }
    }

    /// Takes what is written at once, a whole reply or a part of its rows; while a login is under way, a packet of it.
    pub fn take(&mut self, is_login: bool, bytes: &[u8]) {
        self.sent = self.sent.wrapping_add(bytes.len() as u64);
        if !self.detail.has_counts() {
            return;
        }
        if is_login {
            self.denied = error_code(bytes).unwrap_or(0);
        } else if self.detail.has_statements() {
            self.take_packets(bytes);
        }
        if let Some(refusal) = told_refusal(bytes) {
            self.refused.count(refusal);
            self.replied.refuse(refusal.number());
        }
    }

    /// What was replied since this was last asked.
    pub fn take_answered(&self) -> Answered {
        self.replied.take()
    }

    /// How many bytes were written.
    pub fn sent(&self) -> u64 {
        self.sent
    }

    /// The error code that ended the login, 0 if none did.
    pub fn denied(&self) -> u64 {
        self.denied
    }

    /// How many refusals there were.
    pub fn refused(&self) -> &Refused {
        &self.refused
    }
}
