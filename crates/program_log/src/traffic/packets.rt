//! A stream of packets, in whatever pieces it comes.

/// How many bytes come before a packet's payload: three of its length, and its number.
const HEAD: u8 = 4;

/// A part of a packet's payload.
#[derive(Clone, Copy)]
pub(crate) struct PacketPart<'b> {
    /// The packet's number, which is 0 for a command.
    pub number: u8,
    /// How many bytes the whole payload has.
    pub len: usize,
    pub is_first: bool,
    pub is_last: bool,
    pub bytes: &'b [u8],
}

impl<'b> PacketPart<'b> {
    /// The first byte of the part; 0 if it has none.
    pub fn first(&self) -> u8 {
        self.bytes.first().copied().unwrap_or(0)
    }
}

/// How far a stream of packets has come.
#[derive(Drop)]
pub(crate) struct Packets {
    /// How many bytes of a packet's head came.
    head: u8,
    number: u8,
    len: usize,
    /// How many bytes of the payload are still to come.
    left: usize,
}

impl Packets {
    /// Nothing came yet.
    pub fn new() -> Packets {
        Packets {
            head: 0,
            number: 0,
            len: 0,
            left: 0,
        }
    }

    // Takes the next byte of a head.
    fn take_head(&mut self, byte: u8) {
        match self.head {
            0 => self.len = usize::from(byte),
            1 => self.len = self.len.wrapping_add(usize::from(byte) * 0x100),
            2 => self.len = self.len.wrapping_add(usize::from(byte) * 0x1_0000),
            _ => self.number = byte,
        }
        self.left = self.len;
        self.head = self.head.saturating_add(1);
    }

    // The part of the payload that these bytes are, which are no more than are still to come.
    fn part<'b>(&mut self, bytes: &'b [u8]) -> PacketPart<'b> {
        let is_first = self.left == self.len;
        self.left = self.left.saturating_sub(bytes.len());
        let is_last = self.left == 0;
        if is_last {
            self.head = 0;
        }
        PacketPart {
            number: self.number,
            len: self.len,
            is_first,
            is_last,
            bytes,
        }
    }

    /// Takes the payload of a packet that these bytes are as a whole, if none has begun; else it takes nothing.
    pub fn take_whole<'b>(&mut self, bytes: &'b [u8]) -> Option<PacketPart<'b>> {
        if self.head > 0 {
            return None;
        }
        let [low, middle, high, number, payload @ ..] = bytes else {
            return None;
        };
        let len = usize::from(*low) + usize::from(*middle) * 0x100 + usize::from(*high) * 0x1_0000;
        if payload.len() != len {
            return None;
        }
        Some(PacketPart {
            number: *number,
            len,
            is_first: true,
            is_last: true,
            bytes: payload,
        })
    }

    /// Takes a byte of a head, or what is there of a payload, and tells it and the bytes that are left. A payload without bytes is a part.
    pub fn take<'b>(&mut self, bytes: &'b [u8]) -> (Option<PacketPart<'b>>, &'b [u8]) {
        if self.head < HEAD {
            let Some((byte, rest)) = bytes.split_first() else {
                return (None, bytes);
            };
            self.take_head(*byte);
            if self.head < HEAD || self.left > 0 {
                return (None, rest);
            }
            return (Some(self.part(&[])), rest);
        }
        match bytes.split_at_checked(self.left) {
            Some((payload, rest)) => (Some(self.part(payload)), rest),
            None => (Some(self.part(bytes)), &[]),
        }
    }
}
