//! A client of the status.
ghost use Rattle.std.specs.Prelude.{◌≤◌, length, IfOk, IfSome};

use crate::request::{Asked, Fault, MOST_HEAD, read_request};
use std::alloc::Global;
use std::io::{ErrorKind, Read, Write};
use std::net::{Shutdown, TcpStream};

/// How many bytes are asked of a socket at once.
const PIECE: usize = 2048;

/// How long a request may take, from the first moment to the end of its reply, and how long the client's end is awaited then, in milliseconds.
const REQUEST_LIMIT: u64 = 10_000;

const END_LIMIT: u64 = 500;

/// How far a client is.
#[derive(Clone, Copy, PartialEq, Eq)]
pub(crate) enum Stage {
    /// Its request comes.
    Reading,
    /// Its reply goes.
    Writing,
    /// All was sent: its end is awaited.
    Ending,
    Over,
}

/// What came of a turn.
#[derive(Clone, Copy)]
pub(crate) enum Turned {
    /// Nothing could be moved.
    Waits,
    Moved,
    /// It asks for this.
    Asks(Asked),
}

/// A client of the status.
#[derive(Drop)]
pub(crate) struct Client {
    stream: TcpStream,
    stage: Stage,
    /// When the stage began, in milliseconds; of one that reads or writes when it came.
    since: u64,
    head: Vec<u8>,
    reply: Vec<u8>,
    sent: usize,
}

// How much a read or a write moved; none if it would wait, and an error if the socket failed.
fn moved(done: std::io::Result<usize>) -> Result<Option<usize>, ()> {
    match done {
        Ok(n) => Ok(Some(n)),
        Err(error) => match error.kind() {
            ErrorKind::WouldBlock | ErrorKind::Interrupted => Ok(None),
            _ => Err(()),
        },
    }
}

// Reads what came, if the socket has it at once.
fn read_some(mut stream: &TcpStream, buffer: &mut [u8]) -> Result<Option<usize>, ()> {
    moved(stream.read(buffer))
}

// Writes of a reply what comes after so many bytes, as much as the socket takes at once.
fn write_some(mut stream: &TcpStream, reply: &[u8], sent: usize) -> Result<Option<usize>, ()> {
    moved(stream.write(reply.get(sent..).unwrap_or(&[])))
}

impl Client {
    /// A client that has just come.
    pub fn new(alloc: Global, stream: TcpStream, now: u64) -> Client {
        let _ = stream.set_nonblocking(true);
        let _ = stream.set_nodelay(true);
        Client {
            stream,
            stage: Stage::Reading,
            since: now,
            head: Vec::new(alloc),
            reply: Vec::new(alloc),
            sent: 0,
        }
    }

    pub fn stage(&self) -> Stage {
        self.stage
    }

    /// Ends it.
    pub fn end(&mut self) {
        self.stage = Stage::Over;
    }

    /// Answers it with a whole reply.
    pub fn answer(&mut self, reply: Vec<u8>) {
        self.reply = reply;
        self.stage = Stage::Writing;
    }

    fn is_late(&self, now: u64, limit: u64) -> bool {
        now.saturating_sub(self.since) >= limit
    }

    // Takes bytes of the head, as many as it may have.
    fn take(&mut self, bytes: &[u8]) -> Turned {
        let room = MOST_HEAD.saturating_sub(self.head.len());
        let front = bytes.get(..room).unwrap_or(bytes);
        if self.head.extend_from_slice(front).is_err() {
            return Turned::Asks(Asked::Refused(Fault::Unavailable));
        }
        match read_request(&self.head) {
            Some(asked) => Turned::Asks(asked),
            None => Turned::Moved,
        }
    }

    fn read(&mut self, now: u64) -> Turned {
        if self.is_late(now, REQUEST_LIMIT) {
            return Turned::Asks(Asked::Refused(Fault::Slow));
        }
        let mut buffer = [0u8; PIECE];
        match read_some(&self.stream, &mut buffer) {
            Ok(None) => Turned::Waits,
            Ok(Some(n)) => match buffer.get(..n) {
                Some(bytes) if n > 0 => self.take(bytes),
                _ => {
                    self.end();
                    Turned::Moved
                }
            },
            Err(()) => {
                self.end();
                Turned::Moved
            }
        }
    }

    // Says that there is no more, and awaits the client's end.
    fn finish(&mut self, now: u64) {
        let _ = self.stream.shutdown(Shutdown::Write);
        self.stage = Stage::Ending;
        self.since = now;
    }

    fn write(&mut self, now: u64) -> Turned {
        if self.sent >= self.reply.len() {
            self.finish(now);
            return Turned::Moved;
        }
        if self.is_late(now, REQUEST_LIMIT + END_LIMIT) {
            self.end();
            return Turned::Moved;
        }
        match write_some(&self.stream, &self.reply, self.sent) {
            Ok(None) => Turned::Waits,
            Ok(Some(n)) => {
                self.sent = self.sent.saturating_add(n);
                Turned::Moved
            }
            Err(()) => {
                self.end();
                Turned::Moved
            }
        }
    }

    // Reads what the client still sends, and drops it.
    fn drain(&mut self, now: u64) -> Turned {
        if self.is_late(now, END_LIMIT) {
            self.end();
            return Turned::Moved;
        }
        let mut buffer = [0u8; PIECE];
        match read_some(&self.stream, &mut buffer) {
            Ok(None) => Turned::Waits,
            Ok(Some(n)) if n > 0 => Turned::Moved,
            _ => {
                self.end();
                Turned::Moved
            }
        }
    }

    /// Moves what can be moved now, in milliseconds.
    pub fn turn(&mut self, now: u64) -> Turned {
        match self.stage {
            Stage::Reading => self.read(now),
            Stage::Writing => self.write(now),
            Stage::Ending => self.drain(now),
            Stage::Over => Turned::Waits,
        }
    }
}
