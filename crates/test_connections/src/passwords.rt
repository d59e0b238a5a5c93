//! Clients that log in with right and wrong passwords, over sockets.
use crate::loopback::{Addresses, LET_IN, expect, greeted};
use std::io::Write;
use std::net::{Net, TcpListener, TcpStream};
use vtgate_serve::setup::ServeArgs;

/// What the server is asked for: the password of the user u is `It's a password`, and the nonce is n.
pub(crate) const ASKED_WITH_PASSWORD: ServeArgs<'static> = ServeArgs {
    shards: "-80,80-",
    address: "",
    admin: "",
    workers: 2,
    buffer: 1,
    connections: 3,
    user: b"u",
    stage2: Some([
        227, 38, 154, 255, 220, 133, 236, 254, 112, 84, 60, 43, 43, 84, 3, 44, 176, 134, 251, 20,
    ]),
    nonce: b"n",
};

/// The salts of connections 1 to 3, computed by Python's hashlib.
const SALTS: [[u8; 20]; 3] = [
    *b"r%W@4{l+mRo=Q*~0Zn-d",
    *b"8B;W+W]./{gX]i-ro`pu",
    *b"]BeR+QF8/cO0I=><%Yvk",
];

/// The password's answer to the first of them, likewise.
const ANSWER: [u8; 20] =
    *b"\xc6\x4c\x60\x91\x69\x6d\x46\xa3\x59\xfc\x66\x8e\x11\xc2\x0a\x5a\x8a\x86\x4b\x54";

/// What comes before the answer in the response of the user u: an answer has 20 bytes, or none.
const ANSWERED: &[u8] =
    b"\x37\x00\x00\x01\x00\x82\x00\x00\x00\x00\x00\x00\x00\x00\x00\x00\x00\x00\x00\x00\x00\x00\x00\x00\x00\x00\x00\x00\x00\x00\x00\x00\x00\x00\x00\x00u\x00\x14";

const UNANSWERED: &[u8] =
    b"\x23\x00\x00\x01\x00\x82\x00\x00\x00\x00\x00\x00\x00\x00\x00\x00\x00\x00\x00\x00\x00\x00\x00\x00\x00\x00\x00\x00\x00\x00\x00\x00\x00\x00\x00\x00u\x00\x00";

const DENIED: &[u8] = b"\x16\x00\x00\x02\xff\x15\x04#28000access denied";

// Reads the greeting of the connection with the number. `None` if it has another salt.
fn read_greeting(stream: &TcpStream, number: u8, salt: &[u8; 20]) -> Option<()> {
    let rest = greeted(stream, number)?;
    if rest[..8] == salt[..8] && rest[27..39] == salt[8..] {
        Some(())
    } else {
        None
    }
}

fn respond(mut stream: &TcpStream, front: &[u8], answer: &[u8]) -> Option<()> {
    stream.write_all(front).ok()?;
    stream.write_all(answer).ok()?;
    Some(())
}

fn try_right(stream: &TcpStream) -> Option<()> {
    read_greeting(stream, 1, &SALTS[0])?;
    respond(stream, ANSWERED, &ANSWER)?;
    expect(stream, LET_IN)
}

// The answer is the one to another salt.
fn try_wrong(stream: &TcpStream) -> Option<()> {
    read_greeting(stream, 2, &SALTS[1])?;
    respond(stream, ANSWERED, &ANSWER)?;
    expect(stream, DENIED)
}

fn try_none(stream: &TcpStream) -> Option<()> {
    read_greeting(stream, 3, &SALTS[2])?;
    respond(stream, UNANSWERED, b"")?;
    expect(stream, DENIED)
}

/// Three clients, one after the other: with the right password, with an answer to another salt, and without an answer.
pub(crate) fn try_passwords<R: Net<Listener = TcpListener, Stream = TcpStream>>(
    rt: &R,
    addresses: Addresses,
) -> Option<()> {
    let one = TcpStream::connect(rt, addresses.clients).ok()?;
    let other = TcpStream::connect(rt, addresses.clients).ok()?;
    let third = TcpStream::connect(rt, addresses.clients).ok()?;
    let right = try_right(&one);
    let wrong = try_wrong(&other);
    drop(other);
    let none = try_none(&third);
    right?;
    wrong?;
    none
}
