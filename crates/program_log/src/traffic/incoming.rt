//! What a client sends.

use crate::traffic::detail::Detail;
use crate::traffic::login::LoginBytes;
use crate::traffic::packets::{PacketPart, Packets};
use crate::traffic::texts::Texts;
use mysql_handshake::Response;
use std::alloc::Global;

/// The first byte of a command that is a statement.
const COM_QUERY: u8 = 0x03;

/// What came of a client.
#[derive(Drop)]
pub struct Incoming {
    detail: Detail,
    login: LoginBytes,
    packets: Packets,
    is_statement: bool,
    statements: u64,
    texts: Texts,
    received: u64,
}

impl Incoming {
    /// Nothing came yet.
    pub fn new(alloc: Global, detail: Detail) -> Incoming {
        Incoming {
            detail,
            login: LoginBytes::new(),
            packets: Packets::new(),
            is_statement: false,
            statements: 0,
            texts: Texts::new(alloc),
            received: 0,
        }
    }

    fn take_part(&mut self, part: PacketPart<'_>) {
        if part.is_first {
            self.is_statement = part.number == 0 && part.first() == COM_QUERY;
            self.statements = self.statements.wrapping_add(u64::from(self.is_statement));
        }
        if self.is_statement && self.detail.has_statements() {
            self.texts.put(part);
        }
    }

    // Takes packets in pieces.
    fn take_pieces(&mut self, bytes: &[u8]) {
        let mut rest = bytes;
        for _ in 0..bytes.len() {
            if rest.is_empty() {
                return;
            }
            let (part, after) = self.packets.take(rest);
            rest = after;
            if let Some(part) = part {
                self.take_part(part);
            }
        }
    }

    // Takes packets. Mostly a command comes whole and alone.
    fn take_packets(&mut self, bytes: &[u8]) {
        match self.packets.take_whole(bytes) {
            Some(part) => self.take_part(part),
            None => self.take_pieces(bytes),
        }
    }

    /// Takes more of its bytes, which are those of a login while one is under way.
    pub fn take(&mut self, is_login: bool, bytes: &[u8]) {
        self.received = self.received.wrapping_add(bytes.len() as u64);
        if !self.detail.has_counts() {
            return;
        }
        if is_login {
            self.login.put(bytes);
        }
        self.take_packets(bytes);
    }

    /// How much is kept.
    pub fn detail(&self) -> Detail {
        self.detail
    }

    /// How many bytes came.
    pub fn received(&self) -> u64 {
        self.received
    }

    /// How many statements came.
    pub fn statements(&self) -> u64 {
        self.statements
    }

    /// The texts of the statements that came whole since this was last asked. A text that is too long to be kept is empty.
    pub fn take_texts(&mut self) -> Vec<Vec<u8>> {
        self.texts.take()
    }

    /// By what the client logged in, if that can be read.
    pub fn response(&self) -> Option<Response<'_>> {
        self.login.response()
    }
}
