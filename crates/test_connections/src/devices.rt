//! A device that is interrupted.
use std::io;
use std::io::{ErrorKind, Read};

/// A reader that is interrupted before each of its bytes, and before its end.
#[derive(Drop)]
pub struct InterruptedReader<'a> {
    pub unread: &'a [u8],
    pub is_interrupted: bool,
}

impl Read for InterruptedReader<'_> {
    fn read(&mut self, buffer: &mut [u8]) -> io::Result<usize> {
        self.is_interrupted = !self.is_interrupted;
        if self.is_interrupted {
            return Err(io::Error::from(ErrorKind::Interrupted));
        }
        match (self.unread, buffer) {
            ([first, rest @ ..], [place, ..]) => {
                *place = *first;
                self.unread = rest;
                Ok(1)
            }
            _ => Ok(0),
        }
    }
}
