//! Values of text rows.
ghost use Rattle.std.specs.Prelude.{◌≡◌, ℤ, ◌↔◌, IsTrue, List, ℕ, ◌++◌, IfOk, Some};
ghost use Rattle.std.specs.Fmt.{signed_decimal};
ghost use Rattle.mysql_message.specs.TextValues.{value_bytes};
ghost use Rattle.resultset.specs.Encoding.{FitsKind};
ghost use Rattle.resultset.specs.inner.Reading.{OnceRead, IsWide};

use crate::Kind;
use crate::unread::Unread;
use mysql_message::numbers::read_length_encoded_string;
use std::alloc::Global;
use std::str;
use vt_value::{Items, Value};

/// What a sum is at most, and its negation at least.
const SUM_BOUND: i128 = 1 << 124;

/// The value of a column of this kind at the front, and what follows it.
pub(crate) fn value_at(alloc: Global, kind: Kind, bytes: &[u8]) -> Result<(Value, &[u8]), Unread>
    ensures fits { IfOk result (λ x. FitsKind kind x.0) }
    ensures again { (v : Value) (rest : List ℕ) → FitsKind kind v → bytes.now ≡ value_bytes v ++ rest
        → OnceRead result (λ x. (x.0 ≡ v) × (x.1.now ≡ rest)) }
{
    if let [0xFB, rest @ ..] = bytes {
        return Ok((Value::Null, rest));
    }
    let Some((text, rest)) = read_length_encoded_string(bytes) else {
        return Err(Unread::Malformed);
    };
    Ok((value_of(alloc, kind, text)?, rest))
}

fn value_of(alloc: Global, kind: Kind, text: &[u8]) -> Result<Value, Unread>
    ensures fits { IfOk result (λ v. FitsKind kind v) }
    ensures number { (n : ℤ) → FitsKind kind (Value.Int n) → text.now ≡ signed_decimal n
        → OnceRead result (λ v. v ≡ Value.Int n) }
    ensures text { (t : List ℕ) → FitsKind kind (Value.Bytes t) → text.now ≡ t
        → OnceRead result (λ v. v ≡ Value.Bytes t) }
{
    if let Kind::VarBinary(most) = kind {
        if text.len() > usize::from(most) {
            return Err(Unread::Malformed);
        }
        return Ok(Value::Bytes(Items::from_slice(alloc, text)?));
    }
    match number_of(text) {
        Some(n) if fits(kind, n) => Ok(Value::Int(n)),
        _ => Err(Unread::Malformed),
    }
}

/// The number that the digits write.
fn number_of(text: &[u8]) -> Option<i128>
    ensures { (n : ℤ) → IsWide n → text.now ≡ signed_decimal n → result ≡ Some n }
{
    match str::from_utf8(text) {
        Ok(digits) => digits.parse().ok(),
        Err(_) => None,
    }
}

/// Whether a column of this kind may hold the number.
fn fits(kind: Kind, n: i128) -> bool
    ensures { IsTrue result ↔ FitsKind kind (Value.Int n) }
{
    match kind {
        Kind::BigInt => i128::from(i64::MIN) <= n && n <= i128::from(i64::MAX),
        Kind::BigIntUnsigned => 0 <= n && n <= i128::from(u64::MAX),
        Kind::VarBinary(_) => false,
        Kind::Count => 0 <= n && n <= i128::from(i64::MAX),
        Kind::Sum => -SUM_BOUND <= n && n <= SUM_BOUND,
    }
}
