//! Probes of a client that says nothing.
ghost use Rattle.libc.specs.Net.{SockOption};

use libc::net as c;
use std::net::TcpStream;
use std::os::fd::{AsRawFd, RawFd};

/// After how many seconds of silence a client is probed, how many lie between two probes, and how many have to stay unanswered.
const SILENCE: u32 = 60;

const BETWEEN_PROBES: u32 = 10;

const PROBES: u32 = 6;

/// How long bytes of a reply may stay unacknowledged, in milliseconds.
const UNACKNOWLEDGED: u32 = 120_000;

// Sets an option of the socket to a number. It doesn't matter whether the system takes it.
fn set(socket: RawFd, level: i32, name: i32, value: u32)
    requires { SockOption level name }
{
    let mut bytes = [0u8; 16];
    bytes[..4].copy_from_slice(&value.to_ne_bytes());
    let _ = unsafe { c::setsockopt(socket, level, name, &bytes, 4) };
}

/// Has the system find out that a client has vanished without a word, as when its line is cut: reads and writes of the stream fail then, two
/// minutes later.
pub fn probe(stream: &TcpStream) {
    let socket = stream.as_raw_fd();
    set(socket, c::SOL_SOCKET, c::SO_KEEPALIVE, 1);
    set(socket, c::IPPROTO_TCP, c::TCP_KEEPIDLE, SILENCE);
    set(socket, c::IPPROTO_TCP, c::TCP_KEEPINTVL, BETWEEN_PROBES);
    set(socket, c::IPPROTO_TCP, c::TCP_KEEPCNT, PROBES);
    set(socket, c::IPPROTO_TCP, c::TCP_USER_TIMEOUT, UNACKNOWLEDGED);
}
