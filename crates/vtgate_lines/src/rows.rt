//! The lines of a result.
ghost use Rattle.std.specs.Prelude.{◌≡◌, ◌<◌, ◌++◌, List, codes, flat_map, map, OnOk};
ghost use Rattle.std.specs.Fmt.{decimal};
ghost use Rattle.keyrange.specs.Names.{hex_digit};
ghost use Rattle.sql_tree.specs.Printing.{following};
ghost use Rattle.vtgate_lines.specs.Printed.{is_printable, byte_text, printed_value, printed_row, line, rows_text};

use itoa::Buffer;
use planner::{Operator, ShownRows};
use std::alloc::{AllocError, Global};
use vt_value::{Row, Value};

/// Puts a text as it is.
pub(crate) fn put(out: &mut Vec<u8>, text: &[u8]) -> Result<(), AllocError>
    ensures ok { OnOk result (out.new.items ≡ out.old.items ++ text.now) }
{
    out.extend_from_slice(text)?;
    Ok(())
}

// A value's lower-case hexadecimal digit.
fn digit_of(value: u8) -> u8
    requires { value < 16 }
    ensures { result ≡ hex_digit value }
{
    if value < 10 {
        b'0' + value
    } else {
        b'a' + (value - 10)
    }
}

fn is_plain(byte: u8) -> bool
    ensures { result ≡ is_printable byte }
{
    0x20 <= byte && byte <= 0x7E && byte != b'\'' && byte != b'\\'
}

fn put_byte(out: &mut Vec<u8>, byte: u8) -> Result<(), AllocError>
    ensures ok { OnOk result (out.new.items ≡ out.old.items ++ byte_text byte) }
{
    if is_plain(byte) {
        put(out, &[byte])
    } else {
        put(
            out,
            &[b'\\', b'x', digit_of(byte / 16), digit_of(byte % 16)],
        )
    }
}

fn put_bytes(out: &mut Vec<u8>, bytes: &[u8]) -> Result<(), AllocError>
    ensures ok { OnOk result (out.new.items ≡ out.old.items ++ flat_map byte_text bytes.now) }
{
    for byte in bytes {
        put_byte(out, *byte)?;
    }
    Ok(())
}

fn put_value(out: &mut Vec<u8>, value: &Value) -> Result<(), AllocError>
    ensures ok { OnOk result (out.new.items ≡ out.old.items ++ printed_value value.now) }
{
    match value {
        Value::Null => put(out, b"NULL"),
        Value::Int(n) => {
            let mut buffer = Buffer::new();
            put(out, buffer.format(*n).as_bytes())
        }
        Value::Bytes(bytes) => {
            put(out, b"'")?;
            put_bytes(out, bytes.as_slice())?;
            put(out, b"'")
        }
    }
}

// Puts each value with a bar before it.
fn put_following(out: &mut Vec<u8>, values: &[Value]) -> Result<(), AllocError>
    ensures ok { OnOk result (out.new.items ≡ out.old.items ++ following (codes "|") (map printed_value values.now)) }
{
    for value in values {
        put(out, b"|")?;
        put_value(out, value)?;
    }
    Ok(())
}

fn put_row(out: &mut Vec<u8>, row: &[Value]) -> Result<(), AllocError>
    ensures ok { OnOk result (out.new.items ≡ out.old.items ++ printed_row row.now) }
{
    match row {
        [] => Ok(()),
        [first, rest @ ..] => {
            put_value(out, first)?;
            put_following(out, rest)
        }
    }
}

fn put_row_lines(out: &mut Vec<u8>, rows: &[Row]) -> Result<(), AllocError>
    ensures ok { OnOk result (out.new.items ≡ out.old.items ++ flat_map (λ row. line (printed_row row)) rows.now) }
{
    for row in rows {
        put_row(out, row.as_slice())?;
        put(out, b"\n")?;
    }
    Ok(())
}

// Puts the line that says how many rows there are.
fn put_row_count(out: &mut Vec<u8>, count: u64) -> Result<(), AllocError>
    ensures ok { OnOk result (out.new.items ≡ out.old.items ++ line (codes "rows " ++ decimal count)) }
{
    let mut buffer = Buffer::new();
    put(out, b"rows ")?;
    put(out, buffer.format(count).as_bytes())?;
    put(out, b"\n")
}

fn put_pulled_lines<O: Operator>(
    alloc: Global,
    out: &mut Vec<u8>,
    rows: &mut O,
) -> Result<(), AllocError>
    ensures ok { OnOk result (out.new.items ≡ out.old.items ++ flat_map (λ row. line (printed_row row)) (O.to_come rows.old)) }
{
    while let Some(row) = rows.next(alloc)? {
        put_row(out, row.as_slice())?;
        put(out, b"\n")?;
    }
    Ok(())
}

/// Puts a result as `put_rows`, whose rows are shown one by one. Refuses only for want of memory.
pub fn put_shown_rows(alloc: Global, out: &mut Vec<u8>, rows: ShownRows) -> Result<(), AllocError>
    ensures ok { OnOk result (out.new.items ≡ out.old.items ++ rows_text rows) }
{
    let count = rows.len() as u64;
    let mut pulled = rows.pulled(alloc)?;
    put_pulled_lines(alloc, out, &mut pulled)?;
    put_row_count(out, count)
}

// Promise: Results, counts and refusals have their one printed form
// With: put_shown_rows, count_line, refusal_line
/// Puts a result: a line for each row, its values with bars between them, and a line that says how many rows there are,
/// as `rows 2`. A number is in decimal, NULL is `NULL`, and a text is in single quotes, with each byte outside 20..7E,
/// each quote and each backslash as `\x` and two lower-case hexadecimal digits. Refuses only for want of memory.
pub fn put_rows(out: &mut Vec<u8>, rows: &[Row]) -> Result<(), AllocError>
    ensures ok { OnOk result (out.new.items ≡ out.old.items ++ rows_text rows.now) }
{
    put_row_lines(out, rows)?;
    put_row_count(out, rows.len() as u64)
}
