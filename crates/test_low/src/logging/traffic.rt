//! What the bytes of a connection tell, and where a VSchema's fault lies.
use program_log::places::place_of;
use program_log::traffic::{Answered, Detail, Incoming, Outgoing};
use std::alloc::Global;
use vt_value::Refusal;

/// COM_QUERY `SELECT 1`, COM_PING, and a packet that is no command.
const COMMANDS: &[u8] = b"\x09\0\0\0\x03SELECT 1\x01\0\0\0\x0E\x02\0\0\x01\x03x";

/// A result set of one column and two rows, with EOF packets and without; the definition's bytes play no part.
const WITH_EOF: &[u8] =
    b"\x01\0\0\x01\x01\x02\0\0\x02\x03d\x05\0\0\x03\xFE\0\0\x02\0\x02\0\0\x04\x01a\x02\0\0\x05\x01b\x05\0\0\x06\xFE\0\0\x02\0";

const WITHOUT_EOF: &[u8] =
    b"\x01\0\0\x01\x01\x02\0\0\x02\x03d\x02\0\0\x03\x01a\x02\0\0\x04\x01b\x07\0\0\x05\xFE\0\0\x02\0\0\0";

/// An OK packet that counts 258 changed rows.
const OK: &[u8] = b"\x09\0\0\x01\0\xFC\x02\x01\0\x02\0\0\0";

/// Commands that come byte by byte are counted as those that come at once, and the statement's text is kept.
pub(crate) fn statements_come_in_pieces(alloc: Global) -> bool {
    let mut incoming = Incoming::new(alloc, Detail::Statements);
    for place in 0..COMMANDS.len() {
        if let Some(byte) = COMMANDS.get(place..=place) {
            incoming.take(false, byte);
        }
    }
    incoming.take(false, COMMANDS);
    let texts = incoming.take_texts();
    let are_kept = texts.len() == 2
        && texts
            .iter()
            .all(|text| text.as_slice() == b"SELECT 1".as_slice())
        && incoming.take_texts().is_empty();
    incoming.statements() == 2 && incoming.received() == 2 * COMMANDS.len() as u64 && are_kept
}

fn rows_of(replies: &[&[u8]]) -> Answered {
    let mut outgoing = Outgoing::new(Detail::Statements);
    for reply in replies {
        outgoing.take(false, reply);
    }
    outgoing.take_answered()
}

/// The rows of result sets are counted, one after the other, and those that a statement has changed.
pub(crate) fn rows_are_counted() -> bool {
    rows_of(&[WITH_EOF]).rows == 2
        && rows_of(&[WITHOUT_EOF]).rows == 2
        && rows_of(&[WITH_EOF, OK, WITHOUT_EOF]).rows == 262
        && rows_of(&[]).rows == 0
}

fn is_at(
    alloc: Global,
    text: &str,
    number: u8,
    keyspace: &str,
    table: &str,
    member: &str,
) -> Result<bool, Refusal> {
    let place = place_of(alloc, text, number)?;
    Ok(
        place.keyspace.as_str() == keyspace
            && place.table.as_str() == table
            && place.member.as_str() == member,
    )
}

/// A primary key that names no column lies in its table; two tables of one name lie in no keyspace.
pub(crate) fn fault_has_its_place(alloc: Global) -> Result<bool, Refusal> {
    let sound = "{\"columns\":[{\"name\":\"n\",\"type\":\"BIGINT\"}],\"primary_key\":[\"n\"]}";
    let faulty = "{\"columns\":[{\"name\":\"n\",\"type\":\"BIGINT\"}],\"primary_key\":[\"m\"]}";
    let one = format!(in alloc;
        "{{\"keyspaces\":{{\"k\":{{\"sharded\":false,\"tables\":{{\"a\":{sound},\"b\":{faulty}}}}}}}}}"
    )?;
    let two = format!(in alloc;
        "{{\"keyspaces\":{{\"k\":{{\"sharded\":false,\"tables\":{{\"a\":{sound}}}}},\"l\":{{\"sharded\":false,\"tables\":{{\"a\":{sound}}}}}}}}}"
    )?;
    let is_found = is_at(alloc, &one, 4, "k", "b", "primary_key")?;
    Ok(is_found && is_at(alloc, &two, 8, "", "", "")?)
}
