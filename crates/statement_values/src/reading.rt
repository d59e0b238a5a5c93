//! Reads values.
ghost use Rattle.std.specs.Prelude.{◌≡◌, ◌⊎◌, ◌++◌, List, ℕ, Err, IfOk, IfErr, IfSome, IsSomeAnd, MatchResult, pos, ◌<◌, ◌+◌};
ghost use Rattle.mysql_packet.specs.Numbers.{little_endian};
ghost use Rattle.statement_values.specs.Values.{Spells, SpellsOther, number_of, half_of, width_of};

use crate::decimal::whole_decimal;
use crate::unread::Unread;
use crate::whole::{whole_double, whole_single};
use crate::{ParameterType, Width};
use mysql_message::numbers::read_length_encoded_string;
use std::alloc::Global;
use vt_value::{Items, Value};

fn half_of(width: Width) -> i128
    ensures { result ≡ pos (half_of width) }
{
    match width {
        Width::One => 0x80,
        Width::Two => 0x8000,
        Width::Four => 0x8000_0000,
        Width::Eight => 0x8000_0000_0000_0000,
    }
}

/// The number that the front has in so many bytes, and what follows it.
fn unsigned_at(width: Width, bytes: &[u8]) -> Option<(u64, &[u8])>
    ensures found { IfSome result (λ x. bytes.now ≡ little_endian (width_of width) x.0 ++ x.1.now) }
    ensures below { IfSome result (λ x. x.0 < half_of width + half_of width) }
    ensures only { (n : ℕ) (rest : List ℕ) → n < half_of width + half_of width → bytes.now ≡ little_endian (width_of width) n ++ rest
        → IsSomeAnd result (λ x. (x.0 ≡ n) × (x.1.now ≡ rest)) }
{
    match (width, bytes) {
        (Width::One, [a, rest @ ..]) => Some((u64::from(*a), rest)),
        (Width::Two, [a, b, rest @ ..]) => Some((u64::from(u16::from_le_bytes([*a, *b])), rest)),
        (Width::Four, [a, b, c, d, rest @ ..]) => {
            Some((u64::from(u32::from_le_bytes([*a, *b, *c, *d])), rest))
        }
        (Width::Eight, [a, b, c, d, e, f, g, h, rest @ ..]) => {
            Some((u64::from_le_bytes([*a, *b, *c, *d, *e, *f, *g, *h]), rest))
        }
        _ => None,
    }
}

/// What a number says, with a sign or without one.
fn number_of(width: Width, unsigned: bool, n: u64) -> Value
    requires { n < half_of width + half_of width }
    ensures { result ≡ number_of unsigned (half_of width) n }
{
    let half = half_of(width);
    let n = i128::from(n);
    if unsigned || n < half {
        Value::Int(n)
    } else {
        Value::Int(n - half - half)
    }
}

/// The whole number that a FLOAT at the front is, and what follows it.
fn read_single(bytes: &[u8]) -> Result<(Value, &[u8]), Unread>
    ensures found { IfOk result (λ x. (front : List ℕ) × (bytes.now ≡ front ++ x.1.now) × Spells ParameterType.Single front x.0) }
    ensures only { (front rest : List ℕ) (v : Value) → Spells ParameterType.Single front v → bytes.now ≡ front ++ rest
        → MatchResult result (λ x. (x.0 ≡ v) × (x.1.now ≡ rest)) (λ e. ⊥) }
    ensures other { IfErr result (λ e. e ≡ Unread.NotSupported → (front : List ℕ) × (rest : List ℕ) × (bytes.now ≡ front ++ rest) × SpellsOther ParameterType.Single front) }
    ensures refused { (front rest : List ℕ) → SpellsOther ParameterType.Single front → bytes.now ≡ front ++ rest → result ≡ Err Unread.NotSupported }
{
    match unsigned_at(Width::Four, bytes) {
        Some((bits, rest)) => match whole_single(bits) {
            Some(n) => Ok((Value::Int(n), rest)),
            None => Err(Unread::NotSupported),
        },
        None => Err(Unread::Wrong),
    }
}

/// The whole number that a DOUBLE at the front is, and what follows it.
fn read_double(bytes: &[u8]) -> Result<(Value, &[u8]), Unread>
    ensures found { IfOk result (λ x. (front : List ℕ) × (bytes.now ≡ front ++ x.1.now) × Spells ParameterType.Double front x.0) }
    ensures only { (front rest : List ℕ) (v : Value) → Spells ParameterType.Double front v → bytes.now ≡ front ++ rest
        → MatchResult result (λ x. (x.0 ≡ v) × (x.1.now ≡ rest)) (λ e. ⊥) }
    ensures other { IfErr result (λ e. e ≡ Unread.NotSupported → (front : List ℕ) × (rest : List ℕ) × (bytes.now ≡ front ++ rest) × SpellsOther ParameterType.Double front) }
    ensures refused { (front rest : List ℕ) → SpellsOther ParameterType.Double front → bytes.now ≡ front ++ rest → result ≡ Err Unread.NotSupported }
{
    match unsigned_at(Width::Eight, bytes) {
        Some((bits, rest)) => match whole_double(bits) {
            Some(n) => Ok((Value::Int(n), rest)),
            None => Err(Unread::NotSupported),
        },
        None => Err(Unread::Wrong),
    }
}

/// The whole number that a DECIMAL at the front is, and what follows it.
fn read_decimal(bytes: &[u8]) -> Result<(Value, &[u8]), Unread>
    ensures found { IfOk result (λ x. (front : List ℕ) × (bytes.now ≡ front ++ x.1.now) × Spells ParameterType.Decimal front x.0) }
    ensures only { (front rest : List ℕ) (v : Value) → Spells ParameterType.Decimal front v → bytes.now ≡ front ++ rest
        → MatchResult result (λ x. (x.0 ≡ v) × (x.1.now ≡ rest)) (λ e. ⊥) }
    ensures other { IfErr result (λ e. e ≡ Unread.NotSupported → (front : List ℕ) × (rest : List ℕ) × (bytes.now ≡ front ++ rest) × SpellsOther ParameterType.Decimal front) }
    ensures refused { (front rest : List ℕ) → SpellsOther ParameterType.Decimal front → bytes.now ≡ front ++ rest → result ≡ Err Unread.NotSupported }
{
    match read_length_encoded_string(bytes) {
        Some((text, rest)) => match whole_decimal(text) {
            Some(n) => Ok((Value::Int(n), rest)),
            None => Err(Unread::NotSupported),
        },
        None => Err(Unread::Wrong),
    }
}

/// The value of a type at the front, and what follows it. Bytes that are no value of the type are refused.
pub fn read_value(
    alloc: Global,
    kind: ParameterType,
    bytes: &[u8],
) -> Result<(Value, &[u8]), Unread>
    ensures found { IfOk result (λ x. (front : List ℕ) × (bytes.now ≡ front ++ x.1.now) × Spells kind front x.0) }
    ensures only { (front rest : List ℕ) (v : Value) → Spells kind front v → bytes.now ≡ front ++ rest
        → MatchResult result (λ x. (x.0 ≡ v) × (x.1.now ≡ rest)) (λ e. e ≡ Unread.OutOfMemory) }
    ensures other { IfErr result (λ e. e ≡ Unread.NotSupported → (front : List ℕ) × (rest : List ℕ) × (bytes.now ≡ front ++ rest) × SpellsOther kind front) }
    ensures refused { (front rest : List ℕ) → SpellsOther kind front → bytes.now ≡ front ++ rest → result ≡ Err Unread.NotSupported }
{
    match kind {
        ParameterType::Null => Ok((Value::Null, bytes)),
        ParameterType::Number(width, unsigned) => match unsigned_at(width, bytes) {
            Some((n, rest)) => Ok((number_of(width, unsigned, n), rest)),
            None => Err(Unread::Wrong),
        },
        ParameterType::Single => read_single(bytes),
        ParameterType::Double => read_double(bytes),
        ParameterType::Decimal => read_decimal(bytes),
        ParameterType::Text => match read_length_encoded_string(bytes) {
            Some((text, rest)) => Ok((Value::Bytes(Items::from_slice(alloc, text)?), rest)),
            None => Err(Unread::Wrong),
        },
    }
}
