//! Length-encoded numbers and strings.
ghost use Rattle.std.specs.Prelude.{◌≡◌, ℕ, ◌+◌, ◌^◌, ◌<◌, ◌≤◌, List, ◌∷◌, ◌++◌, length, slice_index};
ghost use Rattle.std.specs.Prelude.{IfSome, IsOk, IsSomeAnd, OnOk, OnErr};
ghost use Rattle.mysql_packet.specs.Numbers.{little_endian, length_encoded, length_encoded_string};

use arrayvec::ArrayVec;
use bytes::BytesMut;
use std::alloc::AllocError;

/// The eight bytes of a number, the lowest first.
pub fn little_endian(n: u64) -> [u8; 8]
    ensures { result ≡ little_endian 8 n }
{
    let second = n / 256;
    let third = second / 256;
    let fourth = third / 256;
    let fifth = fourth / 256;
    let sixth = fifth / 256;
    let seventh = sixth / 256;
    let eighth = seventh / 256;
    [
        (n % 256) as u8,
        (second % 256) as u8,
        (third % 256) as u8,
        (fourth % 256) as u8,
        (fifth % 256) as u8,
        (sixth % 256) as u8,
        (seventh % 256) as u8,
        (eighth % 256) as u8,
    ]
}

/// A marker and the low bytes of a number.
fn marked(marker: u8, low: &[u8]) -> ArrayVec<u8, 9>
    requires { length low.now ≤ 8 }
    ensures { result.items ≡ marker ∷ low.now }
{
    let mut bytes = ArrayVec::new();
    bytes.push(marker);
    let _ = bytes.try_extend_from_slice(low);
    bytes
}

// Promise: Length-encoded numbers and texts have their shortest form, and only that is read
// With: put_length_encoded, put_length_encoded_string, read_length_encoded, read_length_encoded_string, little_endian
/// A number in its shortest length-encoded form: below 251 one byte, else a marker and its two, three or eight low
/// bytes.
pub fn length_encoded(n: u64) -> ArrayVec<u8, 9>
    ensures { result.items ≡ length_encoded n }
{
    let bytes = little_endian(n);
    if n < 251 {
        marked(n as u8, &[])
    } else if n < 0x1_0000 {
        marked(0xFC, &bytes[..2])
    } else if n < 0x100_0000 {
        marked(0xFD, &bytes[..3])
    } else {
        marked(0xFE, &bytes)
    }
}

/// Makes room for so many more bytes. Mostly it is there, and then nothing is called. Refuses only for want of memory.
pub fn make_room(more: usize, out: &mut BytesMut) -> Result<(), AllocError>
    ensures items { out.new.items ≡ out.old.items }
    ensures room { OnOk result (more ≤ out.new.spare) }
    ensures enough { more ≤ out.old.spare → IsOk result }
    ensures capacity { out.old.spare ≤ out.new.spare }
{
    if out.capacity() - out.len() >= more {
        return Ok(());
    }
    out.reserve(more)
}

/// Appends bytes. It leaves `out` as it was if a growth is refused.
pub fn put_bytes(bytes: &[u8], out: &mut BytesMut) -> Result<(), AllocError>
    ensures ok { OnOk result (out.new.items ≡ out.old.items ++ bytes.now) }
    ensures err { OnErr result (out.new.items ≡ out.old.items) }
    // No room is ever lost.
    ensures capacity { length out.old.items + out.old.spare ≤ length out.new.items + out.new.spare }
{
    make_room(bytes.len(), out)?;
    out.extend_reserved(bytes);
    Ok(())
}

/// Appends a number in its shortest length-encoded form. It leaves `out` as it was if a growth is refused.
pub fn put_length_encoded(n: u64, out: &mut BytesMut) -> Result<(), AllocError>
    ensures ok { OnOk result (out.new.items ≡ out.old.items ++ length_encoded n) }
    ensures err { OnErr result (out.new.items ≡ out.old.items) }
    // No room is ever lost.
    ensures capacity { length out.old.items + out.old.spare ≤ length out.new.items + out.new.spare }
{
    if n < 251 {
        return put_bytes(&[n as u8], out);
    }
    put_bytes(length_encoded(n).as_slice(), out)
}

/// Appends a short text after its length, which is one byte, with room made once.
#[inline(always)]
fn put_short_string(text: &[u8], out: &mut BytesMut) -> Result<(), AllocError>
    requires { length text.now < 251 }
    ensures ok { OnOk result (out.new.items ≡ out.old.items ++ length_encoded_string text.now) }
    // No room is ever lost.
    ensures capacity { length out.old.items + out.old.spare ≤ length out.new.items + out.new.spare }
{
    make_room(text.len() + 1, out)?;
    out.extend_reserved(&[text.len() as u8]);
    out.extend_reserved(text);
    Ok(())
}

/// Appends a text after its length, which takes more than a byte. If a growth is refused, `out` may have the length already.
#[inline(never)]
fn put_long_string(text: &[u8], out: &mut BytesMut) -> Result<(), AllocError>
    ensures ok { OnOk result (out.new.items ≡ out.old.items ++ length_encoded_string text.now) }
    // No room is ever lost.
    ensures capacity { length out.old.items + out.old.spare ≤ length out.new.items + out.new.spare }
{
    put_length_encoded(text.len() as u64, out)?;
    put_bytes(text, out)
}

/// Appends a text after its length. If a growth is refused, `out` may have the length already.
#[inline(always)]
pub fn put_length_encoded_string(text: &[u8], out: &mut BytesMut) -> Result<(), AllocError>
    ensures ok { OnOk result (out.new.items ≡ out.old.items ++ length_encoded_string text.now) }
    // No room is ever lost.
    ensures capacity { length out.old.items + out.old.spare ≤ length out.new.items + out.new.spare }
{
    if text.len() < 251 {
        return put_short_string(text, out);
    }
    put_long_string(text, out)
}

/// The number at the front of the bytes, in its shortest length-encoded form, and what follows it.
pub fn read_length_encoded(bytes: &[u8]) -> Option<(u64, &[u8])>
    ensures found { IfSome result (λ x. bytes.now ≡ length_encoded x.0 ++ x.1.now) }
    ensures only { (n : ℕ) (rest : List ℕ) → n < 2 ^ 64 → bytes.now ≡ length_encoded n ++ rest
        → IsSomeAnd result (λ x. (x.0 ≡ n) × (x.1.now ≡ rest)) }
{
    let n = leading_number(bytes);
    let rest = bytes.strip_prefix(length_encoded(n).as_slice())?;
    Some((n, rest))
}

/// The text after its length at the front of the bytes, and what follows it.
pub fn read_length_encoded_string(bytes: &[u8]) -> Option<(&[u8], &[u8])>
    ensures found { IfSome result (λ x. bytes.now ≡ length_encoded_string x.0.now ++ x.1.now) }
    ensures only { (text rest : List ℕ) → bytes.now ≡ length_encoded_string text ++ rest
        → IsSomeAnd result (λ x. (x.0.now ≡ text) × (x.1.now ≡ rest)) }
{
    let (len, rest) = read_length_encoded(bytes)?;
    let len = usize::try_from(len).ok()?;
    if rest.len() < len {
        return None;
    }
    Some(rest.split_at(len))
}

/// The number that the bytes begin with, if they begin with one in its shortest form.
fn leading_number(bytes: &[u8]) -> u64
    ensures { (n : ℕ) (rest : List ℕ) → n < 2 ^ 64 → bytes.now ≡ length_encoded n ++ rest → result ≡ n }
{
    let low = [
        byte_at(bytes, 1),
        byte_at(bytes, 2),
        byte_at(bytes, 3),
        byte_at(bytes, 4),
        byte_at(bytes, 5),
        byte_at(bytes, 6),
        byte_at(bytes, 7),
        byte_at(bytes, 8),
    ];
    match byte_at(bytes, 0) {
        0xFC => u64::from(u16::from_le_bytes([low[0], low[1]])),
        0xFD => u64::from(u32::from_le_bytes([low[0], low[1], low[2], 0])),
        0xFE => u64::from_le_bytes(low),
        small => u64::from(small),
    }
}

fn byte_at(bytes: &[u8], at: usize) -> u8
    ensures { result ≡ slice_index bytes.now at }
{
    bytes.get(at).copied().unwrap_or(0)
}
