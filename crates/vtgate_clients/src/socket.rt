//! A client's socket, for which nobody waits for long.

use crate::keepalive::probe;
use crate::streams::{read_for_now, write_for_now};
use session::{Device, DeviceFailed};
use std::net::{Shutdown, TcpStream};
use std::os::fd::AsRawFd;
use std::time::Duration;

/// How long a read or a write waits for a client, in milliseconds.
const PATIENCE: u64 = 4;

/// The socket of a client. What it reads and takes nobody knows before.
#[derive(Drop)]
pub struct SocketDevice {
    stream: TcpStream,
}

impl SocketDevice {
    /// Over a connection that was accepted. Replies go out at once, a client that has vanished is found out, and nobody waits for a client for more
    /// than a moment.
    pub fn new(stream: TcpStream) -> SocketDevice {
        probe(&stream);
        let _ = stream.set_nodelay(true);
        let _ = stream.set_write_timeout(Some(Duration::from_millis(PATIENCE)));
        let _ = stream.set_read_timeout(Some(Duration::from_millis(PATIENCE)));
        SocketDevice { stream }
    }

    /// Its descriptor.
    pub fn descriptor(&self) -> u32 {
        u32::try_from(self.stream.as_raw_fd()).unwrap_or(u32::MAX)
    }

    /// Says that there are no more bytes for the client.
    pub fn shut(&self) {
        let _ = self.stream.shutdown(Shutdown::Write);
    }

    /// Reads what the client still sends. Returns whether there may be more.
    pub fn drain(&self, buffer: &mut [u8]) -> bool {
        let mut stream = &self.stream;
        !matches!(read_for_now(&mut stream, buffer), Ok(Some(0)) | Err(_))
    }
}

impl Device for SocketDevice {
    ghost use Rattle.std.specs.Prelude.{None};

    ghost unread = { λ _. None };

    ghost taken = { λ _. None };

    fn read_now(&mut self, buffer: &mut [u8]) -> Result<Option<usize>, DeviceFailed> {
        read_for_now(&mut self.stream, buffer)
    }

    fn write_now(&mut self, bytes: &[u8]) -> Result<usize, DeviceFailed> {
        write_for_now(&mut self.stream, bytes)
    }
}
