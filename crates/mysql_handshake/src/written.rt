//! What the server writes in the connection phase.
ghost use Rattle.std.specs.Prelude.{◌≡◌, ◌+◌, ◌≤◌, ◌++◌, ◌∷◌, [], length, IfOk, IsOk, OnErr, OnOk};
ghost use Rattle.mysql_packet.specs.Frames.{frame, number_after};
ghost use Rattle.mysql_handshake.specs.Handshakes.{plugin_name, greeting_start, greeting_flags, greeting_payload, auth_switch_payload};

use crate::response::{
    CONNECT_WITH_DB, DEPRECATE_EOF, LONG_FLAG, LONG_PASSWORD, PLUGIN_AUTH, PROTOCOL_41,
    SECURE_CONNECTION, TRANSACTIONS,
};
use arrayvec::ArrayVec;
use bytes::BytesMut;
use mysql_message::numbers::little_endian;
use mysql_packet::put_payload;
use std::alloc::AllocError;

/// More than the payload of a greeting or an AuthSwitchRequest takes.
const MAX_PAYLOAD: usize = 80;

/// The room with which a greeting or an AuthSwitchRequest can't fail.
pub const HANDSHAKE_ROOM: usize = 84;

const VERSION: &[u8] = b"8.0.0-router";

/// What the server is capable of.
const ANNOUNCED: u32 = LONG_PASSWORD
    | LONG_FLAG
    | CONNECT_WITH_DB
    | PROTOCOL_41
    | TRANSACTIONS
    | SECURE_CONNECTION
    | PLUGIN_AUTH
    | DEPRECATE_EOF;

/// The protocol version of the greeting.
const PROTOCOL_VERSION: u8 = 10;

/// The first byte of an AuthSwitchRequest.
const SWITCH: u8 = 0xFE;

/// The character set `binary`.
const BINARY: u8 = 63;

/// SERVER_STATUS_AUTOCOMMIT, the lower byte.
const AUTOCOMMIT: u8 = 2;

/// The length of the salt with the zero after it.
const SALT_LENGTH: u8 = 21;

/// The lower capabilities, the character set, the status, the upper capabilities, the length of the salt.
const GREETING_FLAGS: [u8; 19] = [
    0x00,
    (ANNOUNCED % 0x100) as u8,
    (ANNOUNCED / 0x100 % 0x100) as u8,
    BINARY,
    AUTOCOMMIT,
    0x00,
    (ANNOUNCED / 0x1_0000 % 0x100) as u8,
    (ANNOUNCED / 0x100_0000) as u8,
    SALT_LENGTH,
    0,
    0,
    0,
    0,
    0,
    0,
    0,
    0,
    0,
    0,
];

/// The name between a zero, which ends the salt, and its own.
const ENDED_NAME: &[u8] = b"\0mysql_native_password\0";

const PLUGIN_NAME: &[u8] = b"mysql_native_password";

fn extend(payload: &mut ArrayVec<u8, MAX_PAYLOAD>, more: &[u8])
    requires { length payload.old.items + length more.now ≤ 80 }
    ensures { payload.new.items ≡ payload.old.items ++ more.now }
{
    let _ = payload.try_extend_from_slice(more);
}

fn greeting_start(id: u32) -> ArrayVec<u8, MAX_PAYLOAD>
    ensures bytes { result.items ≡ greeting_start id }
    ensures len { length result.items ≡ 18 }
{
    let [first, second, third, fourth, ..] = little_endian(u64::from(id));
    let mut payload = ArrayVec::new();
    payload.push(PROTOCOL_VERSION);
    extend(&mut payload, VERSION);
    extend(&mut payload, &[0x00, first, second, third, fourth]);
    payload
}

fn greeting_payload(id: u32, salt: &[u8]) -> ArrayVec<u8, MAX_PAYLOAD>
    requires { length salt.now ≡ 20 }
    ensures bytes { result.items ≡ greeting_payload id salt.now }
    ensures len { length result.items ≤ 80 }
{
    let (front, back) = salt.split_at(8);
    let mut payload = greeting_start(id);
    extend(&mut payload, front);
    extend(&mut payload, &GREETING_FLAGS);
    extend(&mut payload, back);
    extend(&mut payload, ENDED_NAME);
    payload
}

fn auth_switch_payload(salt: &[u8; 20]) -> ArrayVec<u8, MAX_PAYLOAD>
    ensures { result.items ≡ auth_switch_payload salt.now }
{
    let mut payload = ArrayVec::new();
    payload.push(SWITCH);
    extend(&mut payload, PLUGIN_NAME);
    payload.push(0x00);
    extend(&mut payload, salt);
    payload.push(0x00);
    payload
}

#[tactic(auto, using(crate::proofs::Fits::length_handshake_frame))]
fn put_short(number: u8, payload: &[u8], out: &mut BytesMut) -> Result<u8, AllocError>
    requires { length payload.now ≤ 80 }
    ensures ok { OnOk result (out.new.items ≡ out.old.items ++ frame number payload.now) }
    ensures next { IfOk result (λ n. n ≡ number_after number payload.now) }
    ensures err { OnErr result (out.new.items ≡ out.old.items) }
    ensures room { 84 ≤ out.old.spare → IsOk result }
    ensures capacity { length out.old.items + out.old.spare ≤ length out.new.items + out.new.spare }
{
    put_payload(number, payload, out)
}

// Promise: The greeting and the request to switch have their one layout; with 84 bytes of room they can't fail
// With: put_auth_switch
/// Appends the greeting of the connection with this id, whose packet has the number 0. It gives the sequence number
/// after it. It refuses only for want of memory, and then leaves the buffer as it was.
pub fn put_greeting(id: u32, salt: &[u8; 20], out: &mut BytesMut) -> Result<u8, AllocError>
    ensures ok { OnOk result (out.new.items ≡ out.old.items ++ frame 0 (greeting_payload id salt.now)) }
    ensures next { IfOk result (λ n. n ≡ number_after 0 (greeting_payload id salt.now)) }
    ensures err { OnErr result (out.new.items ≡ out.old.items) }
    // With that much room it can't fail.
    ensures room { HANDSHAKE_ROOM ≤ out.old.spare → IsOk result }
    // No room is ever lost.
    ensures capacity { length out.old.items + out.old.spare ≤ length out.new.items + out.new.spare }
{
    let payload = greeting_payload(id, salt.as_slice());
    put_short(0, payload.as_slice(), out)
}

/// Appends the request to answer the salt by `mysql_native_password`. It gives the sequence number after it. It refuses
/// only for want of memory, and then leaves the buffer as it was.
pub fn put_auth_switch(number: u8, salt: &[u8; 20], out: &mut BytesMut) -> Result<u8, AllocError>
    ensures ok { OnOk result (out.new.items ≡ out.old.items ++ frame number (auth_switch_payload salt.now)) }
    ensures next { IfOk result (λ n. n ≡ number_after number (auth_switch_payload salt.now)) }
    ensures err { OnErr result (out.new.items ≡ out.old.items) }
    // With that much room it can't fail.
    ensures room { HANDSHAKE_ROOM ≤ out.old.spare → IsOk result }
    // No room is ever lost.
    ensures capacity { length out.old.items + out.old.spare ≤ length out.new.items + out.new.spare }
{
    let payload = auth_switch_payload(salt);
    put_short(number, payload.as_slice(), out)
}
