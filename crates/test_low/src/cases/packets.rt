//! Packets, and the messages in them.
use crate::cases::values::refusal_of;
use bytes::BytesMut;
use mysql_message::{Command, numbers, put_eof, put_err, put_ok, read_command};
use mysql_packet::{Framer, HeaderFault, Payload, put_payload};
use std::alloc::{AllocError, Global};
use test_fields::{CaseAnswer, Unanswered, bytes_of, count, fields, number, small_number, text_of};

fn put_payloads(told: &mut CaseAnswer, payloads: &[Payload]) {
    for payload in payloads {
        told.show(&payload.first);
        told.put(":");
        told.show(&payload.last);
        told.put(":");
        told.put_bytes(payload.bytes.as_slice());
        told.put(" ");
    }
}

// Feeds a piece and puts the payloads; returns the fault.
fn feed_piece(
    alloc: Global,
    framer: &mut Framer,
    piece: &str,
    told: &mut CaseAnswer,
) -> Result<Option<HeaderFault>, Unanswered> {
    let piece = bytes_of(alloc, piece)?;
    let fed = framer.feed(&piece);
    drop(piece);
    let fed = fed?;
    put_payloads(told, fed.payloads.as_slice());
    Ok(fed.fault)
}

// Feeds the pieces; returns the fault of the last.
fn feed_all(
    alloc: Global,
    framer: &mut Framer,
    pieces: &str,
    told: &mut CaseAnswer,
) -> Result<Option<HeaderFault>, Unanswered> {
    let mut last = None;
    for piece in pieces.split_whitespace() {
        last = feed_piece(alloc, framer, piece, told)?;
    }
    Ok(last)
}

fn put_fault(told: &mut CaseAnswer, fault: Option<HeaderFault>) {
    match fault {
        Some(HeaderFault { refusal, number }) => {
            told.put("fault ");
            told.show(&refusal.number());
            told.put(" ");
            told.show(&number);
        }
        None => told.put("none"),
    }
}

/// The payloads of the pieces of a stream, and the fault.
pub(crate) fn payloads(alloc: Global, case: &str, told: &mut CaseAnswer) -> Result<(), Unanswered> {
    let (limit, pieces) = fields(case)?;
    let mut framer = Framer::new(alloc, count(limit)?);
    let fault = feed_all(alloc, &mut framer, pieces, told);
    drop(framer);
    put_fault(told, fault?);
    Ok(())
}

/// Puts packets, and the next number.
pub(crate) fn put_packets(
    told: &mut CaseAnswer,
    packets: &[u8],
    next: Result<u8, AllocError>,
) -> Result<(), Unanswered> {
    told.put_bytes(packets);
    told.put(" ");
    told.show(&next?);
    Ok(())
}

/// The packets of a payload.
pub(crate) fn framed(alloc: Global, case: &str, told: &mut CaseAnswer) -> Result<(), Unanswered> {
    let (first, payload) = fields(case)?;
    let first = small_number(first)?;
    let payload = bytes_of(alloc, payload)?;
    let mut out = BytesMut::new(alloc);
    let next = put_payload(first, &payload, &mut out);
    put_packets(told, out.as_slice(), next)
}

/// Puts a command that has bytes.
fn put_named(told: &mut CaseAnswer, name: &str, bytes: &[u8]) {
    told.put(name);
    told.put_text(bytes);
}

fn put_command(told: &mut CaseAnswer, command: Command) {
    match command {
        Command::Quit => told.put("quit"),
        Command::Ping => told.put("ping"),
        Command::InitDb(name) => put_named(told, "init_db ", name),
        Command::Query(text) => put_named(told, "query ", text),
        Command::Statistics => told.put("statistics"),
        Command::MultiStatements(true) => told.put("multi statements on"),
        Command::MultiStatements(false) => told.put("multi statements off"),
        Command::Reset => told.put("reset"),
        Command::Prepare(text) => put_named(told, "prepare ", text),
        Command::Execute(bytes) => put_named(told, "execute ", bytes),
        Command::LongData(bytes) => put_named(told, "long data ", bytes),
        Command::Close(bytes) => put_named(told, "close ", bytes),
        Command::ResetStatement(bytes) => put_named(told, "reset statement ", bytes),
        Command::Fetch => told.put("fetch"),
    }
}

/// The command of a payload.
pub(crate) fn command(alloc: Global, case: &str, told: &mut CaseAnswer) -> Result<(), Unanswered> {
    let payload = bytes_of(alloc, case)?;
    match read_command(&payload) {
        Ok(command) => {
            put_command(told, command);
            Ok(())
        }
        Err(refusal) => Err(Unanswered::Refused(refusal)),
    }
}

fn status(field: &str) -> Result<u16, Unanswered> {
    field.parse::<u16>().ok().ok_or(Unanswered::BadLine)
}

/// An OK packet.
pub(crate) fn ok(alloc: Global, case: &str, told: &mut CaseAnswer) -> Result<(), Unanswered> {
    let (first, rest) = fields(case)?;
    let (affected, flags) = fields(rest)?;
    let (first, affected, flags) = (small_number(first)?, number(affected)?, status(flags)?);
    let mut out = BytesMut::new(alloc);
    let next = put_ok(first, affected, flags, &mut out);
    put_packets(told, out.as_slice(), next)
}

/// An EOF packet.
pub(crate) fn eof(alloc: Global, case: &str, told: &mut CaseAnswer) -> Result<(), Unanswered> {
    let (first, flags) = fields(case)?;
    let (first, flags) = (small_number(first)?, status(flags)?);
    let mut out = BytesMut::new(alloc);
    let next = put_eof(first, flags, &mut out);
    put_packets(told, out.as_slice(), next)
}

/// An ERR packet.
pub(crate) fn err(alloc: Global, case: &str, told: &mut CaseAnswer) -> Result<(), Unanswered> {
    let (first, refusal) = fields(case)?;
    let (first, refusal) = (small_number(first)?, refusal_of(refusal)?);
    let mut out = BytesMut::new(alloc);
    let next = put_err(first, refusal, &mut out);
    put_packets(told, out.as_slice(), next)
}

/// A number's length-encoded bytes.
pub(crate) fn length_encoded(
    alloc: Global,
    case: &str,
    told: &mut CaseAnswer,
) -> Result<(), Unanswered> {
    let number = number(case)?;
    let mut bytes = BytesMut::new(alloc);
    let done = numbers::put_length_encoded(number, &mut bytes);
    told.put_bytes(bytes.as_slice());
    drop(bytes);
    Ok(done?)
}

/// A text's length-encoded bytes.
pub(crate) fn length_encoded_string(
    alloc: Global,
    case: &str,
    told: &mut CaseAnswer,
) -> Result<(), Unanswered> {
    let text = text_of(alloc, case)?;
    let mut bytes = BytesMut::new(alloc);
    let done = numbers::put_length_encoded_string(&text, &mut bytes);
    drop(text);
    told.put_bytes(bytes.as_slice());
    drop(bytes);
    Ok(done?)
}

/// The number at the front of bytes, and what follows.
pub(crate) fn read_number(
    alloc: Global,
    case: &str,
    told: &mut CaseAnswer,
) -> Result<(), Unanswered> {
    let bytes = bytes_of(alloc, case)?;
    match numbers::read_length_encoded(&bytes) {
        Some((number, rest)) => {
            told.put_number(number);
            told.put(" ");
            told.put_bytes(rest);
        }
        None => told.put("none"),
    }
    Ok(())
}

/// The text at the front of bytes, and what follows.
pub(crate) fn read_string(
    alloc: Global,
    case: &str,
    told: &mut CaseAnswer,
) -> Result<(), Unanswered> {
    let bytes = bytes_of(alloc, case)?;
    match numbers::read_length_encoded_string(&bytes) {
        Some((text, rest)) => {
            told.put_text(text);
            told.put(" ");
            told.put_bytes(rest);
        }
        None => told.put("none"),
    }
    Ok(())
}
