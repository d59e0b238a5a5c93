//! The words and fields of a line.
ghost use Rattle.std.specs.Prelude.{◌≡◌, ◌<◌, ◌++◌, ◌∷◌, flat_map, IfOk, OnOk};
ghost use Rattle.std.specs.List.{list_all};
ghost use Rattle.program_log.specs.lines.Lines.{is_bare_word, is_visible, log_field, log_head, log_word, low_digit, shown_byte, stands_bare};

use std::alloc::{AllocError, Global};

fn put(out: &mut Vec<u8>, text: &[u8]) -> Result<(), AllocError>
    ensures { OnOk result (out.new.items ≡ out.old.items ++ text.now) }
{
    out.extend_from_slice(text)?;
    Ok(())
}

fn digit_of(value: u8) -> u8
    requires { value < 16 }
    ensures { result ≡ low_digit value }
{
    if value < 10 {
        b'0' + value
    } else {
        b'a' + (value - 10)
    }
}

fn is_visible(byte: u8) -> bool
    ensures { result ≡ is_visible byte }
{
    0x20 <= byte && byte <= 0x7E
}

fn stands_bare(byte: u8) -> bool
    ensures { result ≡ stands_bare byte }
{
    is_visible(byte) && byte != b' ' && byte != b'"' && byte != b'=' && byte != b'\\'
}

fn all_stand_bare(text: &[u8]) -> bool
    ensures { result ≡ list_all stands_bare text.now }
{
    text.iter().all(|byte| stands_bare(*byte))
}

fn is_bare_word(text: &[u8]) -> bool
    ensures { result ≡ is_bare_word text.now }
{
    !text.is_empty() && all_stand_bare(text)
}

fn put_byte(out: &mut Vec<u8>, byte: u8) -> Result<(), AllocError>
    ensures { OnOk result (out.new.items ≡ out.old.items ++ shown_byte byte) }
{
    if !is_visible(byte) {
        return put(
            out,
            &[
                b'\\',
                b'u',
                b'0',
                b'0',
                digit_of(byte / 16),
                digit_of(byte % 16),
            ],
        );
    }
    if byte == b'"' || byte == b'\\' {
        return put(out, &[b'\\', byte]);
    }
    put(out, &[byte])
}

fn put_bytes(out: &mut Vec<u8>, bytes: &[u8]) -> Result<(), AllocError>
    ensures { OnOk result (out.new.items ≡ out.old.items ++ flat_map shown_byte bytes.now) }
{
    for byte in bytes {
        put_byte(out, *byte)?;
    }
    Ok(())
}

// Puts a text as one word.
fn put_word(out: &mut Vec<u8>, text: &[u8]) -> Result<(), AllocError>
    ensures { OnOk result (out.new.items ≡ out.old.items ++ log_word text.now) }
{
    if is_bare_word(text) {
        return put(out, text);
    }
    put(out, b"\"")?;
    put_bytes(out, text)?;
    put(out, b"\"")
}

fn put_head(out: &mut Vec<u8>, time: &[u8], level: &[u8], event: &[u8]) -> Result<(), AllocError>
    ensures { OnOk result (out.new.items ≡ out.old.items ++ log_head time.now level.now event.now) }
{
    put_word(out, time)?;
    put(out, b" ")?;
    put_word(out, level)?;
    put(out, b" ")?;
    put_word(out, event)
}

fn put_field(out: &mut Vec<u8>, key: &[u8], value: &[u8]) -> Result<(), AllocError>
    ensures { OnOk result (out.new.items ≡ out.old.items ++ log_field (key.now, value.now)) }
{
    put(out, b" ")?;
    put_word(out, key)?;
    put(out, b"=")?;
    put_word(out, value)
}

/// The beginning of a line: its time, its level and its event.
pub fn head_of(
    alloc: Global,
    time: &[u8],
    level: &[u8],
    event: &[u8],
) -> Result<Vec<u8>, AllocError>
    ensures { IfOk result (λ head. head.items ≡ log_head time.now level.now event.now) }
{
    let mut head = Vec::new(alloc);
    put_head(&mut head, time, level, event)?;
    Ok(head)
}

/// A key and its value, with a blank before them.
pub fn field_of(alloc: Global, key: &[u8], value: &[u8]) -> Result<Vec<u8>, AllocError>
    ensures { IfOk result (λ field. field.items ≡ log_field (key.now, value.now)) }
{
    let mut field = Vec::new(alloc);
    put_field(&mut field, key, value)?;
    Ok(field)
}
