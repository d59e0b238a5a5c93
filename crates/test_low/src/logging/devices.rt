//! A device that takes a part of what is written.
use std::io;
use std::io::{ErrorKind, Write};

/// Takes at most so many bytes of the next writes, in turn, and fails if that is none; then it takes all. Keeps what it took.
#[derive(Drop)]
pub struct Narrow {
    pub taken: Vec<u8>,
    pub limits: Vec<usize>,
}

impl Write for Narrow {
    fn write(&mut self, bytes: &[u8]) -> io::Result<usize> {
        let limit = match self.limits.pop() {
            Some(limit) => limit,
            None => bytes.len(),
        };
        let len = if limit < bytes.len() {
            limit
        } else {
            bytes.len()
        };
        if len == 0 {
            return Err(io::Error::from(ErrorKind::WouldBlock));
        }
        match self.taken.extend_from_slice(&bytes[..len]) {
            Ok(()) => Ok(len),
            Err(_) => Err(io::Error::from(ErrorKind::OutOfMemory)),
        }
    }

    fn flush(&mut self) -> io::Result<()> {
        Ok(())
    }
}
