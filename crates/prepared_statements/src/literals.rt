//! Literals as they are printed.
ghost use Rattle.std.specs.Prelude.{◌≡◌, ◌++◌, flat_map, OnOk};
ghost use Rattle.sql_tree.specs.Printing.{quoted_byte, quoted, value_text};

use itoa::Buffer;
use std::alloc::AllocError;
use vt_value::Value;

fn put(out: &mut Vec<u8>, text: &[u8]) -> Result<(), AllocError>
    ensures ok { OnOk result (out.new.items ≡ out.old.items ++ text.now) }
{
    out.extend_from_slice(text)?;
    Ok(())
}

fn put_escaped_byte(out: &mut Vec<u8>, byte: u8) -> Result<(), AllocError>
    ensures ok { OnOk result (out.new.items ≡ out.old.items ++ quoted_byte byte) }
{
    match byte {
        b'\'' => put(out, b"''"),
        b'\\' => put(out, b"\\\\"),
        _ => {
            out.push(byte)?;
            Ok(())
        }
    }
}

fn put_escaped(out: &mut Vec<u8>, bytes: &[u8]) -> Result<(), AllocError>
    ensures ok { OnOk result (out.new.items ≡ out.old.items ++ flat_map quoted_byte bytes.now) }
{
    for byte in bytes {
        put_escaped_byte(out, *byte)?;
    }
    Ok(())
}

/// Puts a text in single quotes.
fn put_quoted(out: &mut Vec<u8>, bytes: &[u8]) -> Result<(), AllocError>
    ensures ok { OnOk result (out.new.items ≡ out.old.items ++ quoted bytes.now) }
{
    put(out, b"'")?;
    put_escaped(out, bytes)?;
    put(out, b"'")
}

/// Puts a literal, with its sign right before its number.
pub(crate) fn put_value(out: &mut Vec<u8>, value: &Value) -> Result<(), AllocError>
    ensures ok { OnOk result (out.new.items ≡ out.old.items ++ value_text value.now) }
{
    match value {
        Value::Null => put(out, b"NULL"),
        Value::Int(n) => {
            let mut buffer = Buffer::new();
            put(out, buffer.format(*n).as_bytes())
        }
        Value::Bytes(bytes) => put_quoted(out, bytes.as_slice()),
    }
}
