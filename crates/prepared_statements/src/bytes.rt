//! Reads bytes from the front.
ghost use Rattle.std.specs.Prelude.{◌≡◌, ℕ, ◌^◌, ◌<◌, List, [], ◌∷◌, ◌++◌, Some, None, IfSome, IsSomeAnd};
ghost use Rattle.mysql_packet.specs.Numbers.{little_endian};

/// The byte at the front, and those after it.
pub(crate) fn first_byte(bytes: &[u8]) -> Option<(u8, &[u8])>
    ensures some { IfSome result (λ x. bytes.now ≡ x.0 ∷ x.1.now) }
    ensures none { result ≡ None → bytes.now ≡ [] }
{
    match bytes {
        [first, more @ ..] => Some((*first, more)),
        [] => None,
    }
}

/// A statement's number at the front, and the bytes after it.
pub(crate) fn number_at(bytes: &[u8]) -> Option<(u32, &[u8])>
    ensures found { IfSome result (λ x. bytes.now ≡ little_endian 4 x.0 ++ x.1.now) }
    ensures below { IfSome result (λ x. x.0 < 2 ^ 32) }
    ensures only { (n : ℕ) (rest : List ℕ) → n < 2 ^ 32 → bytes.now ≡ little_endian 4 n ++ rest → IsSomeAnd result (λ x. (x.0 ≡ n) × (x.1.now ≡ rest)) }
{
    match bytes {
        [a, b, c, d, rest @ ..] => Some((u32::from_le_bytes([*a, *b, *c, *d]), rest)),
        _ => None,
    }
}

/// The statement's number that the bytes are.
pub(crate) fn only_number(bytes: &[u8]) -> Option<u32>
    ensures found { IfSome result (λ n. bytes.now ≡ little_endian 4 n) }
    ensures below { IfSome result (λ n. n < 2 ^ 32) }
    ensures only { (n : ℕ) → n < 2 ^ 32 → bytes.now ≡ little_endian 4 n → result ≡ Some n }
{
    match bytes {
        [a, b, c, d] => Some(u32::from_le_bytes([*a, *b, *c, *d])),
        _ => None,
    }
}
