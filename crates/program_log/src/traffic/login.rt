//! What a client logs in with.

use mysql_handshake::{Response, read_response};

/// How many bytes of a login are kept.
const ROOM: usize = 1024;

/// How many bytes come before a packet's payload.
const HEAD: usize = 4;

/// The first bytes by which a client logs in, as far as there is room for them.
#[derive(Drop)]
pub(crate) struct LoginBytes {
    bytes: [u8; ROOM],
    len: usize,
}

impl LoginBytes {
    pub fn new() -> LoginBytes {
        LoginBytes {
            bytes: [0; ROOM],
            len: 0,
        }
    }

    pub fn put(&mut self, bytes: &[u8]) {
        for byte in bytes {
            let Some(place) = self.bytes.get_mut(self.len) else {
                return;
            };
            *place = *byte;
            self.len = self.len.saturating_add(1);
        }
    }

    /// What the first packet says, if it can be read.
    pub fn response(&self) -> Option<Response<'_>> {
        let kept = self.bytes.get(..self.len)?;
        let (head, payload) = kept.split_at_checked(HEAD)?;
        let len = usize::from(*head.first()?) + usize::from(*head.get(1)?) * 0x100;
        read_response(payload.get(..len).unwrap_or(payload)).ok()
    }
}
