//! The four vindexes, and the law that a reversible one gives its keys back.
ghost use Rattle.std.specs.Prelude.{◌≡◌, ℕ, ◌<◌, ◌^◌, ⊤, List, Option, Some, IfSome};
ghost use Rattle.md5.specs.Md5.{md5};
ghost use Rattle.vindex.specs.Keys.{key_number, reversed_number_of};
ghost use Rattle.vindex.specs.KeyspaceIds.{numeric, reversed};
ghost use Rattle.vindex.specs.Ksids.{ksid_bytes};
ghost use Rattle.vindex.specs.inner.Reversal.{numeric_back, reversed_back};
ghost use Rattle.vindex.specs.inner.Swaps.{reversed_in_bytes};

use crate::ksid::Ksid;
use md5::{Digest, Md5};
use vt_value::Items;

/// A vindex: from a key to its keyspace id.
pub trait Vindex {
    /// A value of the key column.
    type Key;

    // a value that the key's type has: contracts see a `u64` as a number of any size
    ghost fits: { Self.Key → Type 0 };

    ghost keyspace_id: { Self.Key → List ℕ };

    ghost COST: { ℕ };

    /// What Vitess says that a look-up by this vindex costs. Nothing depends on it.
    const COST: u8;

    // Promise: A vindex maps a key to its keyspace id, without memory
    // With: Numeric::{map, id_of}, ReverseBits::{map, id_of}, Binary::map, BinaryMd5::map, Ksid::as_slice
    /// The keyspace id of a key. It takes no memory.
    fn map<'k>(key: &'k Self::Key) -> Ksid<'k>
        ensures id { ksid_bytes result ≡ keyspace_id key.now }
        ensures key { fits key.now };
}

/// A vindex whose keyspace ids give their keys back.
pub trait Reversible: Vindex {
    ghost key_of: { List ℕ → Option Self.Key };

    // Promise: The id of a number gives the number back, and no other id gives it
    // With: Reversible::back, Numeric::reverse, ReverseBits::reverse, map_and_reverse
    /// The key that has this keyspace id, or `None` if no key has it.
    fn reverse(id: &Ksid) -> Option<Self::Key>
        ensures key { result ≡ key_of (ksid_bytes id.now) }
        ensures only { IfSome result (λ key. Self.keyspace_id key ≡ ksid_bytes id.now) };

    ghost back: { (key : Self.Key) → Self.fits key → key_of (Self.keyspace_id key) ≡ Some key };
}

/// The vindex `numeric`: a number's 8 bytes, the highest first.
pub struct Numeric;

/// The vindex `reverse_bits`: the 64 bits of a number in reverse, as 8 bytes, the highest first.
pub struct ReverseBits;

/// The vindex `binary`: the text itself.
pub struct Binary;

/// The vindex `binary_md5`: the 16 bytes of a text's MD5 digest.
pub struct BinaryMd5;

// A number of 64 bits, of which every second one, two of four and four of eight are set.
const ONES: u64 = 0x5555_5555_5555_5555;

const TWOS: u64 = 0x3333_3333_3333_3333;

const FOURS: u64 = 0x0f0f_0f0f_0f0f_0f0f;

// The number with the bits of each byte in reverse: neighbours change places, then pairs, then halves of bytes. The kit's `reverse_bits` takes
// the bits one by one.
fn reversed_in_bytes(n: u64) -> u64
    ensures { result ≡ reversed_in_bytes n }
{
    let pairs = (n >> 1 & ONES) + (n & ONES) * 2;
    let halves = (pairs >> 2 & TWOS) + (pairs & TWOS) * 4;
    (halves >> 4 & FOURS) + (halves & FOURS) * 16
}

impl Numeric {
    /// The keyspace id of a number, which borrows nothing.
    pub fn id_of(key: u64) -> Ksid<'static>
        ensures { ksid_bytes result ≡ numeric key }
    {
        Ksid::Eight(key.to_be_bytes())
    }
}

impl ReverseBits {
    /// The keyspace id of a number, which borrows nothing.
    pub fn id_of(key: u64) -> Ksid<'static>
        ensures { ksid_bytes result ≡ reversed key }
    {
        Ksid::Eight(reversed_in_bytes(key).to_le_bytes())
    }
}

impl Vindex for Numeric {
    type Key = u64;

    ghost fits = { λ key. key < 2 ^ 64 };

    ghost keyspace_id = { numeric };

    ghost COST = { 0 };

    const COST: u8 = 0;

    fn map<'k>(key: &'k u64) -> Ksid<'k> {
        Numeric::id_of(*key)
    }
}

impl Reversible for Numeric {
    ghost key_of = { key_number };

    ghost back = { numeric_back };

    fn reverse(id: &Ksid) -> Option<u64> {
        number_of(id.as_slice())
    }
}

impl Vindex for ReverseBits {
    type Key = u64;

    ghost fits = { λ key. key < 2 ^ 64 };

    ghost keyspace_id = { reversed };

    ghost COST = { 1 };

    const COST: u8 = 1;

    fn map<'k>(key: &'k u64) -> Ksid<'k> {
        ReverseBits::id_of(*key)
    }
}

impl Reversible for ReverseBits {
    ghost key_of = { reversed_number_of };

    ghost back = { reversed_back };

    fn reverse(id: &Ksid) -> Option<u64> {
        let reversed = number_of(id.as_slice())?;
        Some(reversed.reverse_bits())
    }
}

impl Vindex for Binary {
    type Key = Items<u8>;

    ghost fits = { λ _. ⊤ };

    ghost keyspace_id = { λ key. key };

    ghost COST = { 0 };

    const COST: u8 = 0;

    fn map<'k>(key: &'k Items<u8>) -> Ksid<'k> {
        Ksid::Key(key.as_slice())
    }
}

impl Vindex for BinaryMd5 {
    type Key = Items<u8>;

    ghost fits = { λ _. ⊤ };

    ghost keyspace_id = { md5 };

    ghost COST = { 1 };

    const COST: u8 = 1;

    fn map<'k>(key: &'k Items<u8>) -> Ksid<'k> {
        Ksid::Sixteen(Md5::digest(key.as_slice()))
    }
}

// The number of 8 bytes, the highest first.
fn number_of(bytes: &[u8]) -> Option<u64>
    ensures number { result ≡ key_number bytes.now }
    ensures only { IfSome result (λ number. numeric number ≡ bytes.now) }
{
    match bytes {
        [a, b, c, d, e, f, g, h] => Some(u64::from_be_bytes([*a, *b, *c, *d, *e, *f, *g, *h])),
        _ => None,
    }
}

/// A key's keyspace id gives the key back.
pub fn map_and_reverse<V: Reversible>(key: &V::Key) -> Option<V::Key>
    ensures { result ≡ Some key.now }
{
    V::reverse(&V::map(key))
}
