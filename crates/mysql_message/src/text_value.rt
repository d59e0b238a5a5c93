//! Values as rows of the text protocol have them.
ghost use Rattle.std.specs.Prelude.{◌≡◌, ◌+◌, ◌≤◌, ◌++◌, length, OnOk};
ghost use Rattle.mysql_message.specs.TextValues.{value_bytes};

use crate::numbers::{put_bytes, put_length_encoded_string};
use bytes::BytesMut;
use itoa::Buffer;
use std::alloc::AllocError;
use vt_value::Value;

/// Appends a value of a text row: one byte for NULL, a number's decimal or a text, each after its length. If a growth is refused,
/// `payload` may have the length already.
pub fn put_text_value(value: &Value, payload: &mut BytesMut) -> Result<(), AllocError>
    ensures ok { OnOk result (payload.new.items ≡ payload.old.items ++ value_bytes value.now) }
    // No room is ever lost.
    ensures capacity { length payload.old.items + payload.old.spare ≤ length payload.new.items + payload.new.spare }
{
    match value {
        Value::Null => put_bytes(&[0xFB], payload)?,
        Value::Int(n) => put_length_encoded_string(Buffer::new().format(*n).as_bytes(), payload)?,
        Value::Bytes(text) => put_length_encoded_string(text.as_slice(), payload)?,
    }
    Ok(())
}
