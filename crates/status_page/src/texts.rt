//! Texts put after one another.
ghost use Rattle.std.specs.Prelude.{◌≡◌, ◌++◌, ◌+◌, ◌%◌, flat_map, OnOk};
ghost use Rattle.std.specs.Fmt.{decimal};
ghost use Rattle.status_page.specs.Texts.{label_byte, seconds_text};

use itoa::Buffer;
use std::alloc::AllocError;

/// Puts a text as it is.
pub fn put(out: &mut Vec<u8>, text: &[u8]) -> Result<(), AllocError>
    ensures ok { OnOk result (out.new.items ≡ out.old.items ++ text.now) }
{
    out.extend_from_slice(text)?;
    Ok(())
}

/// Puts a number.
pub fn put_number(out: &mut Vec<u8>, number: u64) -> Result<(), AllocError>
    ensures ok { OnOk result (out.new.items ≡ out.old.items ++ decimal number) }
{
    let mut buffer = Buffer::new();
    put(out, buffer.format(number).as_bytes())
}

// Puts a byte of a label's value.
fn put_label_byte(out: &mut Vec<u8>, byte: u8) -> Result<(), AllocError>
    ensures ok { OnOk result (out.new.items ≡ out.old.items ++ label_byte byte) }
{
    match byte {
        b'\\' => put(out, b"\\\\"),
        b'"' => put(out, b"\\\""),
        b'\n' => put(out, b"\\n"),
        _ => put(out, &[byte]),
    }
}

/// Puts a label's value: a quote, a backslash and a line break have a backslash before them.
pub(crate) fn put_label(out: &mut Vec<u8>, value: &[u8]) -> Result<(), AllocError>
    ensures ok { OnOk result (out.new.items ≡ out.old.items ++ flat_map label_byte value.now) }
{
    for byte in value {
        put_label_byte(out, *byte)?;
    }
    Ok(())
}

// The last digit of a number.
fn digit(number: u64) -> u8
    ensures { result ≡ 48 + number % 10 }
{
    b'0' + (number % 10) as u8
}

/// Puts a time in seconds, with microseconds.
#[tactic(auto, unfolding(crate::specs::Texts::seconds_text))]
pub(crate) fn put_seconds(out: &mut Vec<u8>, micros: u64) -> Result<(), AllocError>
    ensures ok { OnOk result (out.new.items ≡ out.old.items ++ seconds_text micros) }
{
    put_number(out, micros / 1_000_000)?;
    put(
        out,
        &[
            b'.',
            digit(micros / 100_000),
            digit(micros / 10_000),
            digit(micros / 1_000),
            digit(micros / 100),
            digit(micros / 10),
            digit(micros),
        ],
    )
}
