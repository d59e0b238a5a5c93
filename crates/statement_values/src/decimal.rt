//! Whole numbers that DECIMAL has, by their digits.
ghost use Rattle.std.specs.Prelude.{◌≡◌, ◌==◌, ◌↔◌, ◌+◌, ◌≤◌, ℤ, true, length, take, drop, None, IfSome, FitsSigned};
ghost use Rattle.std.specs.Int.{w128};
ghost use Rattle.std.specs.List.{list_all};
ghost use Rattle.std.specs.Str.Parse.{IsNumeral, without_leading_sign, signed_digits_value};
ghost use Rattle.statement_values.specs.Floats.{IsInRange};
ghost use Rattle.statement_values.specs.Decimals.{before_point, after_point, IsDecimal};

use std::str;

/// Where the first point of a text is, or its end.
fn point_in(text: &[u8]) -> usize
    ensures within { result ≤ length text.now }
    ensures before { take result text.now ≡ before_point text.now }
    ensures after { drop (result + 1) text.now ≡ after_point text.now }
{
    for (at, byte) in text.iter().enumerate() {
        if *byte == b'.' {
            return at;
        }
    }
    text.len()
}

/// The bytes after a point, if one is there.
fn fraction_of(text: &[u8], point: usize) -> &[u8]
    ensures { result.now ≡ drop (point + 1) text.now }
{
    if point < text.len() {
        &text[point + 1..]
    } else {
        &[]
    }
}

fn are_zeros(digits: &[u8]) -> bool
    ensures { result ≡ list_all (λ b. b == 0x30) digits.now }
{
    for digit in digits {
        if *digit != b'0' {
            return false;
        }
    }
    true
}

fn is_in_range(n: i128) -> bool
    ensures { result ≡ true ↔ IsInRange n }
{
    -(1 << 63) <= n && n < 1 << 64
}

/// The number that digits write after a sign, if there is one.
fn number_of(text: &[u8]) -> Option<i128>
    ensures found { IfSome result (λ z. IsNumeral 10 (without_leading_sign text.now) × (z ≡ signed_digits_value 10 text.now)) }
    ensures none { result ≡ None → IsNumeral 10 (without_leading_sign text.now) → FitsSigned w128 (signed_digits_value 10 text.now) → ⊥ }
{
    match str::from_utf8(text) {
        Ok(digits) => digits.parse().ok(),
        Err(_) => None,
    }
}

/// The whole number in range that a text is.
pub(crate) fn whole_decimal(text: &[u8]) -> Option<i128>
    ensures found { IfSome result (λ z. IsDecimal text.now z × IsInRange z) }
    ensures none { result ≡ None → (z : ℤ) → IsDecimal text.now z → IsInRange z → ⊥ }
{
    let point = point_in(text);
    if !are_zeros(fraction_of(text, point)) {
        return None;
    }
    let n = number_of(&text[..point])?;
    if is_in_range(n) { Some(n) } else { None }
}
