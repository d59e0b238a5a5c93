//! Results and their bytes.
use bytes::BytesMut;
use resultset::{Column, Kind, Outcome, SetEnd, decode, encode};
use std::alloc::Global;
use test_fields::{CaseAnswer, Unanswered, bytes_of};

/// The result that bytes spell whose result sets end so, and its bytes.
pub(crate) fn result_again(
    alloc: Global,
    case: &str,
    end: SetEnd,
    told: &mut CaseAnswer,
) -> Result<(), Unanswered> {
    let bytes = bytes_of(alloc, case)?;
    let found = decode(alloc, 1, 2, end, &bytes);
    drop(bytes);
    match found? {
        Some(outcome) => put_again(alloc, told, end, &outcome),
        None => {
            told.put("none");
            Ok(())
        }
    }
}

fn put_again(
    alloc: Global,
    told: &mut CaseAnswer,
    end: SetEnd,
    outcome: &Outcome,
) -> Result<(), Unanswered> {
    put_outcome(told, outcome);
    told.put(" ");
    let mut bytes = BytesMut::new(alloc);
    let done = encode(alloc, outcome, 1, 2, end, &mut bytes);
    told.put_bytes(bytes.as_slice());
    drop(bytes);
    let _next = done?;
    Ok(())
}

fn put_outcome(told: &mut CaseAnswer, outcome: &Outcome) {
    match outcome {
        Outcome::Rows(set) => {
            put_columns(told, set.columns.as_slice());
            told.put_rows(set.rows.as_slice());
        }
        Outcome::Count(count) => {
            told.put("count ");
            told.put_number(*count);
        }
        Outcome::Refused(refusal) => {
            told.put("refusal ");
            told.show(&refusal.number());
        }
    }
}

fn put_columns(told: &mut CaseAnswer, columns: &[Column]) {
    for column in columns {
        put_name(told, column);
        put_kind(told, column.kind);
        told.show(&column.flags);
        told.put(" ");
    }
}

fn put_name(told: &mut CaseAnswer, column: &Column) {
    told.put_text(column.schema.as_slice());
    told.put(".");
    told.put_text(column.table.as_slice());
    told.put(".");
    told.put_text(column.org_name.as_slice());
    told.put(".");
    told.put_text(column.name.as_slice());
}

fn put_kind(told: &mut CaseAnswer, kind: Kind) {
    match kind {
        Kind::BigInt => told.put(" BIGINT "),
        Kind::BigIntUnsigned => told.put(" BIGINT UNSIGNED "),
        Kind::VarBinary(length) => {
            told.put(" VARBINARY(");
            told.show(&length);
            told.put(") ");
        }
        Kind::Count => told.put(" COUNT "),
        Kind::Sum => told.put(" SUM "),
    }
}
