//! Which values of a binary row are NULL.
ghost use Rattle.std.specs.Prelude.{◌≡◌, ◌++◌, ◌≤◌, ◌<◌, ◌+◌, length, map, OnOk};
ghost use Rattle.vt_value.specs.Values.{is_null};
ghost use Rattle.resultset.specs.BinaryRows.{null_bitmap};
ghost use Rattle.resultset.specs.inner.Packing.{packed, with_bit};

use bytes::BytesMut;
use mysql_message::numbers::put_bytes;
use std::alloc::AllocError;
use vt_value::Value;

fn is_null(value: &Value) -> bool
    ensures { result ≡ is_null value.now }
{
    matches!(value, Value::Null)
}

/// A byte with one more bit, which counts so much.
fn with_bit(bit: u8, byte: u8, is_set: bool) -> u8
    requires { byte + bit < 256 }
    ensures { result ≡ with_bit bit byte is_set }
{
    if is_set { byte + bit } else { byte }
}

/// Appends a bit for each value, after two that are unused.
fn put_bits(row: &[Value], out: &mut BytesMut) -> Result<(), AllocError>
    ensures ok { OnOk result (out.new.items ≡ out.old.items ++ packed 4 0 (map is_null row.now)) }
    ensures capacity { length out.old.items + out.old.spare ≤ length out.new.items + out.new.spare }
{
    let mut byte: u8 = 0;
    let mut bit: u8 = 4;
    let mut rest = row;
    while let [value, more @ ..] = rest {
        byte = with_bit(bit, byte, is_null(value));
        if bit <= 64 {
            bit *= 2;
        } else {
            put_bytes(&[byte], out)?;
            byte = 0;
            bit = 1;
        }
        rest = more;
    }
    if bit > 1 {
        put_bytes(&[byte], out)?;
    }
    Ok(())
}

/// Appends the NULL bitmap of a row.
#[tactic(auto, using(crate::proofs::Bits::packed_row))]
pub(crate) fn put_null_bitmap(row: &[Value], out: &mut BytesMut) -> Result<(), AllocError>
    ensures ok { OnOk result (out.new.items ≡ out.old.items ++ null_bitmap row.now) }
    ensures capacity { length out.old.items + out.old.spare ≤ length out.new.items + out.new.spare }
{
    put_bits(row, out)
}
