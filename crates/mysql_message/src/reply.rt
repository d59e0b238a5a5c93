//! Writes the packets that carry no rows: OK, EOF, ERR and the line of COM_STATISTICS.
ghost use Rattle.std.specs.Prelude.{◌≡◌, ◌+◌, ◌<◌, ◌≤◌, ◌++◌, length, IfOk, IsOk, OnErr, OnOk};
ghost use Rattle.mysql_packet.specs.Frames.{frame, number_after};
ghost use Rattle.mysql_message.specs.Messages.{ok_payload, eof_payload, set_end_payload, statistics_payload, err_payload, fault_payload, prepared_payload};

use crate::command::StatementFault;
use crate::numbers::{length_encoded, little_endian, make_room};
use arrayvec::ArrayVec;
use bytes::BytesMut;
use std::alloc::AllocError;
use vt_value::Refusal;

/// The first byte of an OK packet.
const OK: u8 = 0x00;

/// The first byte of an EOF packet, and of the packet that ends a result set in its place.
const EOF: u8 = 0xFE;

/// The first byte of an ERR packet.
const ERR: u8 = 0xFF;

/// What answers COM_STATISTICS.
const STATISTICS: &[u8] = b"8.0.0-router";

/// What comes before the SQL state.
const STATE_MARKER: u8 = b'#';

/// The length of a packet's header.
const HEADER_LEN: usize = 4;

/// More than the payload of an OK, an EOF or an ERR packet takes.
const MAX_PAYLOAD: usize = 60;

/// The payload of an EOF packet: no warnings, the status.
pub fn eof_payload(status: u16) -> [u8; 5]
    ensures { result ≡ eof_payload status }
{
    let [low, high, ..] = little_endian(u64::from(status));
    [EOF, 0x00, 0x00, low, high]
}

/// The payload of the packet that ends a result set if client and server set CLIENT_DEPRECATE_EOF: no affected rows, 0 as the last insert
/// id, the status, no warnings.
pub fn set_end_payload(status: u16) -> [u8; 7]
    ensures { result ≡ set_end_payload status }
{
    let [low, high, ..] = little_endian(u64::from(status));
    [EOF, 0x00, 0x00, low, high, 0x00, 0x00]
}

// Promise: OK, EOF and ERR packets, and the OK packet that ends a result set, have their one layout; with 64 bytes of room they can't fail
// With: put_eof, put_err, put_fault, put_set_end, prepared_payload, put_statistics, eof_payload, set_end_payload
/// Appends an OK packet: so many affected rows, 0 as the last insert id, the status, no warnings. It gives the
/// sequence number after it. It refuses only for want of memory, and then leaves the buffer as it was.
pub fn put_ok(number: u8, affected: u64, status: u16, out: &mut BytesMut) -> Result<u8, AllocError>
    ensures ok { OnOk result (out.new.items ≡ out.old.items ++ frame number (ok_payload affected status)) }
    ensures next { IfOk result (λ n. n ≡ number_after number (ok_payload affected status)) }
    ensures err { OnErr result (out.new.items ≡ out.old.items) }
    // With that much room it can't fail.
    ensures room { 64 ≤ out.old.spare → IsOk result }
    // No room is ever lost.
    ensures capacity { length out.old.items + out.old.spare ≤ length out.new.items + out.new.spare }
{
    if affected < 251 {
        return put_short(number, &small_ok_payload(affected as u8, status), out);
    }
    put_large_ok(number, affected, status, out)
}

/// Appends an EOF packet: no warnings, the status. It gives the sequence number after it. It refuses only for want of
/// memory, and then leaves the buffer as it was.
pub fn put_eof(number: u8, status: u16, out: &mut BytesMut) -> Result<u8, AllocError>
    ensures ok { OnOk result (out.new.items ≡ out.old.items ++ frame number (eof_payload status)) }
    ensures next { IfOk result (λ n. n ≡ number_after number (eof_payload status)) }
    ensures err { OnErr result (out.new.items ≡ out.old.items) }
    // With that much room it can't fail.
    ensures room { 64 ≤ out.old.spare → IsOk result }
    // No room is ever lost.
    ensures capacity { length out.old.items + out.old.spare ≤ length out.new.items + out.new.spare }
{
    put_short(number, &eof_payload(status), out)
}

/// Appends the packet that ends a result set if client and server set CLIENT_DEPRECATE_EOF: no affected rows, 0 as
/// the last insert id, the status, no warnings. It gives the sequence number after it. It refuses only for want of
/// memory, and then leaves the buffer as it was.
pub fn put_set_end(number: u8, status: u16, out: &mut BytesMut) -> Result<u8, AllocError>
    ensures ok { OnOk result (out.new.items ≡ out.old.items ++ frame number (set_end_payload status)) }
    ensures next { IfOk result (λ n. n ≡ number_after number (set_end_payload status)) }
    ensures err { OnErr result (out.new.items ≡ out.old.items) }
    // With that much room it can't fail.
    ensures room { 64 ≤ out.old.spare → IsOk result }
    // No room is ever lost.
    ensures capacity { length out.old.items + out.old.spare ≤ length out.new.items + out.new.spare }
{
    put_short(number, &set_end_payload(status), out)
}

/// Appends an ERR packet: the error code, `#` and the SQL state, and the message of the refusal. It gives the sequence
/// number after it. It refuses only for want of memory, and then leaves the buffer as it was.
pub fn put_err(number: u8, refusal: Refusal, out: &mut BytesMut) -> Result<u8, AllocError>
    ensures ok { OnOk result (out.new.items ≡ out.old.items ++ frame number (err_payload refusal)) }
    ensures next { IfOk result (λ n. n ≡ number_after number (err_payload refusal)) }
    ensures err { OnErr result (out.new.items ≡ out.old.items) }
    // With that much room it can't fail.
    ensures room { 64 ≤ out.old.spare → IsOk result }
    // No room is ever lost.
    ensures capacity { length out.old.items + out.old.spare ≤ length out.new.items + out.new.spare }
{
    let payload = err_payload(refusal);
    put_short(number, payload.as_slice(), out)
}

/// Appends the line about the server that answers COM_STATISTICS: its version. It gives the sequence number after it. It refuses only for want
/// of memory, and then leaves the buffer as it was.
pub fn put_statistics(number: u8, out: &mut BytesMut) -> Result<u8, AllocError>
    ensures ok { OnOk result (out.new.items ≡ out.old.items ++ frame number statistics_payload) }
    ensures next { IfOk result (λ n. n ≡ number_after number statistics_payload) }
    ensures err { OnErr result (out.new.items ≡ out.old.items) }
    // With that much room it can't fail.
    ensures room { 64 ≤ out.old.spare → IsOk result }
    // No room is ever lost.
    ensures capacity { length out.old.items + out.old.spare ≤ length out.new.items + out.new.spare }
{
    put_short(number, STATISTICS, out)
}

fn fault_payload(fault: StatementFault) -> &'static [u8]
    ensures payload { result.now ≡ fault_payload fault }
    ensures short { length result.now ≤ 60 }
{
    match fault {
        StatementFault::UnknownStatement => b"\xFF\xDB\x04#HY000unknown prepared statement",
        StatementFault::TooManyStatements => b"\xFF\xB5\x05#42000too many statements",
        StatementFault::WrongArguments => b"\xFF\xBA\x04#HY000wrong arguments",
    }
}

/// Appends the ERR packet of a fault of prepared statements, as `put_err` does that of a refusal.
pub fn put_fault(number: u8, fault: StatementFault, out: &mut BytesMut) -> Result<u8, AllocError>
    ensures ok { OnOk result (out.new.items ≡ out.old.items ++ frame number (fault_payload fault)) }
    ensures next { IfOk result (λ n. n ≡ number_after number (fault_payload fault)) }
    ensures err { OnErr result (out.new.items ≡ out.old.items) }
    // With that much room it can't fail.
    ensures room { 64 ≤ out.old.spare → IsOk result }
    // No room is ever lost.
    ensures capacity { length out.old.items + out.old.spare ≤ length out.new.items + out.new.spare }
{
    put_short(number, fault_payload(fault), out)
}

/// The payload of the packet that begins the answer to COM_STMT_PREPARE.
pub fn prepared_payload(statement: u32, columns: u16, holes: u16) -> [u8; 12]
    ensures { result ≡ prepared_payload statement columns holes }
{
    let [first, second, third, fourth, ..] = little_endian(u64::from(statement));
    let [columns_low, columns_high, ..] = little_endian(u64::from(columns));
    let [holes_low, holes_high, ..] = little_endian(u64::from(holes));
    [
        OK,
        first,
        second,
        third,
        fourth,
        columns_low,
        columns_high,
        holes_low,
        holes_high,
        0x00,
        0x00,
        0x00,
    ]
}

/// The payload of an OK packet whose number of rows takes one byte, as most do.
fn small_ok_payload(affected: u8, status: u16) -> [u8; 7]
    requires { affected < 251 }
    ensures { result ≡ ok_payload affected status }
{
    let [low, high, ..] = little_endian(u64::from(status));
    [OK, affected, 0x00, low, high, 0x00, 0x00]
}

/// `put_ok` of a number that takes more. It has places of its own, which others don't have to fill.
#[inline(never)]
fn put_large_ok(
    number: u8,
    affected: u64,
    status: u16,
    out: &mut BytesMut,
) -> Result<u8, AllocError>
    ensures ok { OnOk result (out.new.items ≡ out.old.items ++ frame number (ok_payload affected status)) }
    ensures next { IfOk result (λ n. n ≡ number_after number (ok_payload affected status)) }
    ensures err { OnErr result (out.new.items ≡ out.old.items) }
    ensures room { 64 ≤ out.old.spare → IsOk result }
    ensures capacity { length out.old.items + out.old.spare ≤ length out.new.items + out.new.spare }
{
    let payload = ok_payload(affected, status);
    put_short(number, payload.as_slice(), out)
}

fn ok_payload(affected: u64, status: u16) -> ArrayVec<u8, MAX_PAYLOAD>
    ensures { result.items ≡ ok_payload affected status }
{
    let [low, high, ..] = little_endian(u64::from(status));
    let mut payload = ArrayVec::new();
    payload.push(OK);
    extend(&mut payload, length_encoded(affected).as_slice());
    extend(&mut payload, &[0x00, low, high, 0x00, 0x00]);
    payload
}

#[tactic(auto, using(crate::proofs::Short::short_state, crate::proofs::Short::short_message))]
fn err_payload(refusal: Refusal) -> ArrayVec<u8, MAX_PAYLOAD>
    ensures { result.items ≡ err_payload refusal }
{
    let [low, high, ..] = little_endian(u64::from(refusal.code()));
    let mut payload = ArrayVec::new();
    payload.push(ERR);
    extend(&mut payload, &[low, high, STATE_MARKER]);
    extend(&mut payload, refusal.state().as_bytes());
    extend(&mut payload, refusal.message().as_bytes());
    payload
}

fn extend(payload: &mut ArrayVec<u8, MAX_PAYLOAD>, more: &[u8])
    requires { length payload.old.items + length more.now ≤ 60 }
    ensures { payload.new.items ≡ payload.old.items ++ more.now }
{
    let _ = payload.try_extend_from_slice(more);
}

/// Appends the one packet of a short payload.
#[tactic(auto, using(crate::proofs::Short::short_frame, crate::proofs::Short::number_after_short))]
fn put_short(number: u8, payload: &[u8], out: &mut BytesMut) -> Result<u8, AllocError>
    requires { length payload.now ≤ 60 }
    ensures ok { OnOk result (out.new.items ≡ out.old.items ++ frame number payload.now) }
    ensures next { IfOk result (λ n. n ≡ number_after number payload.now) }
    ensures err { OnErr result (out.new.items ≡ out.old.items) }
    ensures room { 64 ≤ out.old.spare → IsOk result }
    ensures capacity { length out.old.items + out.old.spare ≤ length out.new.items + out.new.spare }
{
    make_room(payload.len() + HEADER_LEN, out)?;
    out.extend_reserved(&[payload.len() as u8, 0, 0, number]);
    out.extend_reserved(payload);
    Ok(number.wrapping_add(1))
}
