//! The texts of statements.

use crate::traffic::packets::PacketPart;
use std::alloc::Global;
use std::mem::replace;

/// The most bytes of a text that are kept.
const ROOM: usize = 1 << 16;

/// The statements that came since they were last taken, and the one that is still to come whole. One that is too long, or for which there is no
/// memory, has the empty text.
#[derive(Drop)]
pub(crate) struct Texts {
    alloc: Global,
    whole: Vec<Vec<u8>>,
    text: Vec<u8>,
    is_cut: bool,
}

impl Texts {
    pub fn new(alloc: Global) -> Texts {
        Texts {
            alloc,
            whole: Vec::new(alloc),
            text: Vec::new(alloc),
            is_cut: false,
        }
    }

    // Puts more of the text.
    fn put_text(&mut self, bytes: &[u8]) {
        if self.is_cut {
            return;
        }
        let fits = self.text.len().saturating_add(bytes.len()) <= ROOM;
        if !fits || self.text.extend_from_slice(bytes).is_err() {
            self.is_cut = true;
            self.text = Vec::new(self.alloc);
        }
    }

    /// Puts a part of a statement's payload, whose first byte is the command.
    pub fn put(&mut self, part: PacketPart<'_>) {
        let bytes = part.bytes;
        self.put_text(if part.is_first {
            bytes.get(1..).unwrap_or(&[])
        } else {
            bytes
        });
        if part.is_last {
            let text = replace(&mut self.text, Vec::new(self.alloc));
            let _ = self.whole.push(text);
            self.is_cut = false;
        }
    }

    /// The texts of the statements that came whole since this was last asked.
    pub fn take(&mut self) -> Vec<Vec<u8>> {
        replace(&mut self.whole, Vec::new(self.alloc))
    }
}
