//! The fields of a case.
use hex::{FromHex, FromHexError};
use std::alloc::{AllocError, AllocFailed, Global};
use vt_value::{Items, Refusal, Row, Value};

/// Why a case has no answer of its own.
#[derive(Drop)]
pub enum Unanswered {
    /// The line is no case.
    BadLine,
    /// The call refused, or a growth was.
    Refused(Refusal),
}

impl From<Refusal> for Unanswered {
    fn from(refusal: Refusal) -> Unanswered {
        Unanswered::Refused(refusal)
    }
}

impl From<AllocError> for Unanswered {
    fn from(_error: AllocError) -> Unanswered {
        Unanswered::Refused(Refusal::OutOfMemory)
    }
}

impl<T: Drop> From<AllocFailed<T>> for Unanswered {
    fn from(_failed: AllocFailed<T>) -> Unanswered {
        Unanswered::Refused(Refusal::OutOfMemory)
    }
}

impl From<FromHexError> for Unanswered {
    fn from(error: FromHexError) -> Unanswered {
        match error {
            FromHexError::OutOfMemory => Unanswered::Refused(Refusal::OutOfMemory),
            _ => Unanswered::BadLine,
        }
    }
}

/// The first field, and the others.
pub fn fields(case: &str) -> Result<(&str, &str), Unanswered> {
    case.split_once('\t').ok_or(Unanswered::BadLine)
}

/// A decimal number.
pub fn number(field: &str) -> Result<u64, Unanswered> {
    field.parse::<u64>().ok().ok_or(Unanswered::BadLine)
}

/// A decimal number of one byte.
pub fn small_number(field: &str) -> Result<u8, Unanswered> {
    field.parse::<u8>().ok().ok_or(Unanswered::BadLine)
}

/// How many, or which position.
pub fn count(field: &str) -> Result<usize, Unanswered> {
    field.parse::<usize>().ok().ok_or(Unanswered::BadLine)
}

// What was made by a worker that has done so.
fn made<T: Drop>(it: T, done: Result<(), Unanswered>) -> Result<T, Unanswered> {
    match done {
        Ok(()) => Ok(it),
        Err(why) => Err(why),
    }
}

fn push_hexadecimal(alloc: Global, bytes: &mut Vec<u8>, digits: &str) -> Result<(), Unanswered> {
    let decoded = hex::decode(alloc, digits)?;
    let done = bytes.extend_from_slice(&decoded);
    drop(decoded);
    Ok(done?)
}

// A run, as `07*16777215`.
fn push_run(bytes: &mut Vec<u8>, run: &str) -> Result<(), Unanswered> {
    let (digits, times) = run.split_once('*').ok_or(Unanswered::BadLine)?;
    let [byte] = <[u8; 1] as FromHex>::from_hex(digits)?;
    let len = bytes.len().saturating_add(count(times)?);
    Ok(bytes.resize(len, byte)?)
}

// What comes after a `(`: a run, `)`, and hexadecimal digits.
fn push_run_and_more(alloc: Global, bytes: &mut Vec<u8>, part: &str) -> Result<(), Unanswered> {
    let (run, rest) = part.split_once(')').ok_or(Unanswered::BadLine)?;
    push_run(bytes, run)?;
    push_hexadecimal(alloc, bytes, rest)
}

fn push_bytes(alloc: Global, bytes: &mut Vec<u8>, field: &str) -> Result<(), Unanswered> {
    for (i, part) in field.split('(').enumerate() {
        if i == 0 {
            push_hexadecimal(alloc, bytes, part)?;
        } else {
            push_run_and_more(alloc, bytes, part)?;
        }
    }
    Ok(())
}

/// Bytes in hexadecimal, with runs in parentheses: `ff(07*3)` is `ff070707`.
pub fn bytes_of(alloc: Global, field: &str) -> Result<Vec<u8>, Unanswered> {
    let mut bytes = Vec::new(alloc);
    let done = push_bytes(alloc, &mut bytes, field);
    made(bytes, done)
}

// What comes after a `\x`: two hexadecimal digits, and text.
fn push_escaped(bytes: &mut Vec<u8>, part: &str) -> Result<(), Unanswered> {
    let (digits, rest) = part.split_at_checked(2).ok_or(Unanswered::BadLine)?;
    let [byte] = <[u8; 1] as FromHex>::from_hex(digits)?;
    bytes.push(byte)?;
    Ok(bytes.extend_from_slice(rest.as_bytes())?)
}

fn push_text(bytes: &mut Vec<u8>, field: &str) -> Result<(), Unanswered> {
    for (i, part) in field.split("\\x").enumerate() {
        if i == 0 {
            bytes.extend_from_slice(part.as_bytes())?;
        } else {
            push_escaped(bytes, part)?;
        }
    }
    Ok(())
}

/// A text, of which `\x` and two hexadecimal digits stand for a byte.
pub fn text_of(alloc: Global, field: &str) -> Result<Vec<u8>, Unanswered> {
    let mut bytes = Vec::new(alloc);
    let done = push_text(&mut bytes, field);
    made(bytes, done)
}

/// A value: `NULL`, a decimal number, or a text as `x` and hexadecimal digits.
pub fn value_of(alloc: Global, field: &str) -> Result<Value, Unanswered> {
    if field == "NULL" {
        return Ok(Value::Null);
    }
    match field.strip_prefix('x') {
        Some(digits) => Ok(Value::Bytes(Items::from_vec(bytes_of(alloc, digits)?))),
        None => Ok(Value::Int(field.parse::<i128>().ok().ok_or(Unanswered::BadLine)?)),
    }
}

fn push_values(alloc: Global, row: &mut Row, field: &str) -> Result<(), Unanswered> {
    for part in field.split_whitespace() {
        row.push(value_of(alloc, part)?)?;
    }
    Ok(())
}

/// Values with blanks between them.
pub fn row_of(alloc: Global, field: &str) -> Result<Row, Unanswered> {
    let mut row = Items::new(alloc);
    let done = push_values(alloc, &mut row, field);
    made(row, done)
}

fn push_rows(alloc: Global, rows: &mut Items<Row>, field: &str) -> Result<(), Unanswered> {
    for part in field.split_terminator(';') {
        rows.push(row_of(alloc, part)?)?;
    }
    Ok(())
}

/// Rows with semicolons between them, or after each.
pub fn rows_of(alloc: Global, field: &str) -> Result<Items<Row>, Unanswered> {
    let mut rows = Items::new(alloc);
    let done = push_rows(alloc, &mut rows, field);
    made(rows, done)
}

/// The stage 2 of a password in hexadecimal, or none as `-`.
pub fn stage2_of(field: &str) -> Result<Option<[u8; 20]>, Unanswered> {
    if field == "-" {
        return Ok(None);
    }
    Ok(Some(<[u8; 20] as FromHex>::from_hex(field)?))
}

/// A salt in hexadecimal.
pub fn salt_of(field: &str) -> Result<[u8; 20], Unanswered> {
    Ok(<[u8; 20] as FromHex>::from_hex(field)?)
}
