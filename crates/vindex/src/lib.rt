//! Vindexes: from the value of a column to a keyspace id.
#![tactic(auto)]

mod ksid;
mod vindexes;

ghost use Rattle.std.specs.Prelude.{◌≡◌, ◌↔◌, IsTrue, IsSome, IfSome};
ghost use Rattle.vindex.specs.KeyspaceIds.{keyspace_id, is_key};
ghost use Rattle.vindex.specs.Ksids.{ksid_bytes};
ghost use Rattle.vindex.specs.OneVindex.{is_one_vindex};

pub use ksid::Ksid;
pub use vindexes::{Binary, BinaryMd5, Numeric, ReverseBits, Reversible, Vindex, map_and_reverse};
pub use vt_value::Items;
use vt_value::Value;

/// The vindexes that a column may have, by their names in Vitess.
#[derive(Clone, Copy, Debug, PartialEq, Eq)]
pub enum AnyVindex {
    /// `numeric`: the number, highest byte first.
    Numeric,
    /// `reverse_bits`: the number's 64 bits in reverse.
    ReverseBits,
    /// `binary`: the text itself.
    Binary,
    /// `binary_md5`: the MD5 digest of the text.
    BinaryMd5,
}

impl AnyVindex {
    // Promise: A value has a keyspace id under a vindex exactly when it is a key of it
    /// The keyspace id of a key. It takes no memory. `None` if the value is no key of this vindex: NULL, a text for a
    /// number, a number for a text, or a number that is negative or has more than 64 bits.
    pub fn map<'v>(self, value: &'v Value) -> Option<Ksid<'v>>
        ensures key { IsSome result ↔ IsTrue (is_key self value.now) }
        ensures id { IfSome result (λ id. ksid_bytes id ≡ keyspace_id self value.now) }
    {
        match (self, value) {
            (AnyVindex::Numeric, Value::Int(n)) => Some(Numeric::id_of(u64::try_from(*n).ok()?)),
            (AnyVindex::ReverseBits, Value::Int(n)) => {
                Some(ReverseBits::id_of(u64::try_from(*n).ok()?))
            }
            (AnyVindex::Binary, Value::Bytes(text)) => Some(Binary::map(text)),
            (AnyVindex::BinaryMd5, Value::Bytes(text)) => Some(BinaryMd5::map(text)),
            _ => None,
        }
    }
}

/// Whether two columns have one vindex: the same number among those that a VSchema declares, and the same kind.
pub fn is_one_vindex(
    number: usize,
    kind: AnyVindex,
    other_number: usize,
    other_kind: AnyVindex,
) -> bool
    ensures { result ≡ is_one_vindex number kind other_number other_kind }
{
    number == other_number && kind == other_kind
}
