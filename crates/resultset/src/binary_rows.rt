//! Binary rows, as prepared statements give them.
ghost use Rattle.std.specs.Prelude.{◌≡◌, ◌++◌, ◌≤◌, ◌+◌, length, OnOk};
ghost use Rattle.resultset.specs.BinaryRows.{word_of, number_bytes, binary_value, binary_values, binary_row_payload};

use crate::Kind;
use crate::null_bitmap::put_null_bitmap;
use bytes::BytesMut;
use itoa::Buffer;
use mysql_message::numbers::{little_endian, put_bytes, put_length_encoded_string};
use std::alloc::AllocError;
use vt_value::Value;

/// How many numbers 64 bits have.
const WORDS: i128 = 1 << 64;

/// A number by its two's complement in 64 bits.
fn word_of(n: i128) -> u64
    ensures { result ≡ word_of n }
{
    if n >= 0 {
        (n % WORDS) as u64
    } else {
        u64::MAX - ((-1 - n) % WORDS) as u64
    }
}

/// Appends a number as a column of the kind has it.
fn put_number(kind: Kind, n: i128, out: &mut BytesMut) -> Result<(), AllocError>
    ensures ok { OnOk result (out.new.items ≡ out.old.items ++ number_bytes kind n) }
    ensures capacity { length out.old.items + out.old.spare ≤ length out.new.items + out.new.spare }
{
    match kind {
        Kind::BigInt | Kind::BigIntUnsigned | Kind::Count => {
            put_bytes(&little_endian(word_of(n)), out)
        }
        Kind::VarBinary(_) | Kind::Sum => {
            put_length_encoded_string(Buffer::new().format(n).as_bytes(), out)
        }
    }
}

/// Appends a value as a column of the kind has it. NULL has no bytes.
fn put_binary_value(kind: Kind, value: &Value, out: &mut BytesMut) -> Result<(), AllocError>
    ensures ok { OnOk result (out.new.items ≡ out.old.items ++ binary_value kind value.now) }
    ensures capacity { length out.old.items + out.old.spare ≤ length out.new.items + out.new.spare }
{
    match value {
        Value::Null => Ok(()),
        Value::Int(n) => put_number(kind, *n, out),
        Value::Bytes(text) => put_length_encoded_string(text.as_slice(), out),
    }
}

/// Appends the values of a row, each as a column of its kind has it.
fn put_values(kinds: &[Kind], row: &[Value], out: &mut BytesMut) -> Result<(), AllocError>
    ensures ok { OnOk result (out.new.items ≡ out.old.items ++ binary_values kinds.now row.now) }
    ensures capacity { length out.old.items + out.old.spare ≤ length out.new.items + out.new.spare }
{
    let mut left = kinds;
    let mut rest = row;
    while let [kind, kinds @ ..] = left {
        let [value, values @ ..] = rest else {
            return Ok(());
        };
        put_binary_value(*kind, value, out)?;
        left = kinds;
        rest = values;
    }
    Ok(())
}

/// Appends the payload of a binary row.
pub(crate) fn put_binary_row(
    kinds: &[Kind],
    row: &[Value],
    out: &mut BytesMut,
) -> Result<(), AllocError>
    ensures ok { OnOk result (out.new.items ≡ out.old.items ++ binary_row_payload kinds.now row.now) }
    ensures capacity { length out.old.items + out.old.spare ≤ length out.new.items + out.new.spare }
{
    put_bytes(&[0], out)?;
    put_null_bitmap(row, out)?;
    put_values(kinds, row, out)
}
