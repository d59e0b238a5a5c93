//! The refusals that were sent.

use std::fmt;
use std::fmt::Display;
use vt_value::{REFUSALS, Refusal};

/// One more than the greatest number of a refusal.
const NUMBERS: usize = 27;

/// The positions in a packet of its payload's first byte, and in one with an error of its code and its message.
const PAYLOAD: usize = 4;

const CODE: usize = 5;

const MESSAGE: usize = 13;

/// The error code that a packet has, if it has one.
pub(crate) fn error_code(packet: &[u8]) -> Option<u64> {
    if packet.get(PAYLOAD) != Some(&0xFF) {
        return None;
    }
    let low = packet.get(CODE).copied()?;
    let high = packet.get(CODE + 1).copied()?;
    Some(u64::from(high) * 256 + u64::from(low))
}

/// Whether a packet has this refusal: several have one code, and each has a message of its own.
fn tells(refusal: Refusal, code: u64, message: &[u8]) -> bool {
    u64::from(refusal.code()) == code && refusal.message().as_bytes() == message
}

/// The refusal that a packet has, if it has one.
pub(crate) fn told_refusal(packet: &[u8]) -> Option<Refusal> {
    let code = error_code(packet)?;
    let message = packet.get(MESSAGE..)?;
    for refusal in REFUSALS {
        if tells(refusal, code, message) {
            return Some(refusal);
        }
    }
    None
}

/// How many refusals there were, by number. Shown as `F12:2,F24:1`, and as `none` if there were none.
#[derive(Drop)]
pub struct Refused {
    counts: [u64; NUMBERS],
}

impl Refused {
    pub(crate) fn new() -> Refused {
        Refused {
            counts: [0; NUMBERS],
        }
    }

    pub(crate) fn count(&mut self, refusal: Refusal) {
        if let Some(count) = self.counts.get_mut(usize::from(refusal.number())) {
            *count = count.wrapping_add(1);
        }
    }
}

impl Display for Refused {
    fn fmt<W: fmt::Write>(&self, f: &mut fmt::Formatter<W>) -> fmt::Result {
        let mut before = "";
        for number in 0..NUMBERS {
            let count = self.counts[number];
            if count > 0 {
                write!(f, "{before}F{number}:{count}")?;
                before = ",";
            }
        }
        if before.is_empty() {
            f.write_str("none")?;
        }
        Ok(())
    }
}
