//! Whole numbers that FLOAT and DOUBLE have, by their exponents and fractions.
ghost use Rattle.std.specs.Prelude.{◌≡◌, ◌+◌, ◌*◌, ◌^◌, ◌<◌, ℕ, ℤ, None, Some, IsSome, IfSome};
ghost use Rattle.statement_values.specs.Floats.{StandsFor, IsSingle, IsDouble, with_sign, IsInRange};

/// A number times a power of two, if that is below 2^64.
#[tactic(auto, using(crate::proofs::Powers::too_large))]
fn times_power(n: u64, power: u64) -> Option<u64>
    requires { 0 < n }
    ensures found { IfSome result (λ r. r ≡ n * 2 ^ power) }
    ensures none { result ≡ None → n * 2 ^ power < 2 ^ 64 → ⊥ }
{
    if power > 63 {
        return None;
    }
    n.checked_mul(1 << power)
}

/// A number over a power of two, if that is a factor of it.
#[tactic(auto, using(crate::proofs::Powers::no_factor, crate::proofs::Powers::remainder, crate::proofs::Powers::quotient))]
fn over_power(n: u64, power: u64) -> Option<u64>
    requires { 0 < n }
    ensures found { IfSome result (λ r. r * 2 ^ power ≡ n) }
    ensures none { result ≡ None → (r : ℕ) → r * 2 ^ power ≡ n → ⊥ }
{
    if power > 63 {
        return None;
    }
    let divisor = 1u64 << power;
    if n % divisor != 0 {
        return None;
    }
    Some(n / divisor)
}

/// The whole number below 2^64 that the number is with this exponent over this bias.
#[tactic(auto, using(crate::proofs::Powers::up, crate::proofs::Powers::up_only, crate::proofs::Powers::down, crate::proofs::Powers::down_only))]
fn scaled(n: u64, exponent: u64, bias: u64) -> Option<u64>
    requires { 0 < n }
    ensures found { IfSome result (λ r. n * 2 ^ exponent ≡ r * 2 ^ bias) }
    ensures none { result ≡ None → (r : ℕ) → r < 2 ^ 64 → n * 2 ^ exponent ≡ r * 2 ^ bias → ⊥ }
{
    if exponent >= bias {
        times_power(n, exponent - bias)
    } else {
        over_power(n, bias - exponent)
    }
}

/// The number with its sign, if a BIGINT with or without a sign has it.
fn with_sign(sign: u64, n: u64) -> Option<i128>
    ensures found { IfSome result (λ z. (z ≡ with_sign sign n) × IsInRange z) }
    ensures none { result ≡ None → IsInRange (with_sign sign n) → ⊥ }
{
    if sign == 0 {
        return Some(i128::from(n));
    }
    if n > 1 << 63 {
        return None;
    }
    Some(-i128::from(n))
}

/// The whole number in range that a sign, an exponent and a fraction stand for. The fraction is so many parts of the unit, which is less than 2^63.
#[tactic(auto, using(crate::proofs::Wholes::whole_stands, crate::proofs::Wholes::not_scaled, crate::proofs::Wholes::not_signed, crate::proofs::Wholes::stands_nothing, crate::proofs::Wholes::nothing_stands, crate::proofs::Wholes::last_stands))]
pub(crate) fn whole_of(
    sign: u64,
    exponent: u64,
    fraction: u64,
    unit: u64,
    bias: u64,
    exponents: u64,
) -> Option<i128>
    requires unit { (0 < unit) × (unit < 2 ^ 63) }
    requires fraction { fraction < unit }
    requires exponents { exponent < exponents }
    ensures found { IfSome result (λ z. StandsFor unit bias exponents sign exponent fraction z × IsInRange z) }
    ensures none { result ≡ None → (z : ℤ) → StandsFor unit bias exponents sign exponent fraction z → IsInRange z → ⊥ }
{
    if exponent == 0 {
        return if fraction == 0 { Some(0) } else { None };
    }
    if exponent == exponents - 1 {
        return None;
    }
    let n = scaled(unit + fraction, exponent, bias)?;
    with_sign(sign, n)
}

/// The whole number in range that a FLOAT of these bits is.
#[tactic(auto, using(crate::proofs::Wholes::single, crate::proofs::Wholes::single_only))]
pub(crate) fn whole_single(bits: u64) -> Option<i128>
    requires { bits < 2 ^ 32 }
    ensures found { IfSome result (λ z. IsSingle bits z × IsInRange z) }
    ensures none { result ≡ None → (z : ℤ) → IsSingle bits z → IsInRange z → ⊥ }
{
    let exponent = bits / (1 << 23) % 256;
    whole_of(
        bits / (1 << 31),
        exponent,
        bits % (1 << 23),
        1 << 23,
        150,
        256,
    )
}

/// The whole number in range that a DOUBLE of these bits is.
#[tactic(auto, using(crate::proofs::Wholes::double, crate::proofs::Wholes::double_only))]
pub(crate) fn whole_double(bits: u64) -> Option<i128>
    ensures found { IfSome result (λ z. IsDouble bits z × IsInRange z) }
    ensures none { result ≡ None → (z : ℤ) → IsDouble bits z → IsInRange z → ⊥ }
{
    let exponent = bits / (1 << 52) % 2048;
    whole_of(
        bits / (1 << 63),
        exponent,
        bits % (1 << 52),
        1 << 52,
        1075,
        2048,
    )
}
