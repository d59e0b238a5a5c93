//! The values by which a group is found in a hash map; NULL is equal to NULL here, unlike in a comparison of SQL. And the hasher, whose key is made
//! when the program starts, so that no client can choose values of one hash.
ghost use Rattle.std.specs.Prelude.{◌≡◌, fold};
ghost use Rattle.vt_value.specs.Values.{same_row};
ghost use Rattle.aggregate.specs.Keys.{number_writes, value_writes};

use std::hash::{BuildHasher, DefaultHasher, Hash, Hasher};
use vt_value::{Row, Value, sort_order};

/// The values of a group, where NULL is equal to NULL.
#[derive(Drop)]
pub struct GroupKey {
    pub values: Row,
}

/// Whether two rows have the same values.
fn same(a: &[Value], b: &[Value]) -> bool
    ensures { result ≡ same_row a.now b.now }
{
    if a.len() != b.len() {
        return false;
    }
    for i in 0..a.len() {
        if sort_order(&a[i], &b[i]).is_ne() {
            return false;
        }
    }
    true
}

/// A number from 0 on below this is hashed as one word.
const SMALL: i128 = 1 << 62;

/// The word of 0, after those of all other kinds.
const FIRST_SMALL: u64 = 3 << 62;

fn hash_number<H: Hasher>(number: i128, state: &mut H)
    ensures { state.new ≡ fold H.write state.old (number_writes number) }
{
    if 0 <= number && number < SMALL {
        state.write_u64(FIRST_SMALL + number as u64);
    } else {
        state.write_u64(1);
        state.write_i128(number);
    }
}

// The first word tells the kind, and of a text its length: a keyed hasher takes all writes as one text, and rows that differ have to differ there.
fn hash_value<H: Hasher>(value: &Value, state: &mut H)
    ensures { state.new ≡ fold H.write state.old (value_writes value.now) }
{
    match value {
        Value::Null => state.write_u64(0),
        Value::Int(number) => hash_number(*number, state),
        Value::Bytes(text) => {
            let text = text.as_slice();
            state.write_u64(2 + text.len() as u64);
            state.write(text);
        }
    }
}

impl PartialEq for GroupKey {
    ghost use Rattle.std.specs.Cmp.{partial_equiv_from_equiv};
    ghost use Rattle.std.proofs.lemmas.Cmp.{on_equiv};
    ghost use Rattle.vt_value.specs.Values.{same_row};
    ghost use Rattle.aggregate.specs.inner.KeyLemmas.{same_row-equiv};

    ghost eq = { λ a b. same_row a.values b.values };

    ghost laws = { partial_equiv_from_equiv (on_equiv (λ k. k.values) same_row-equiv) };

    fn eq(&self, other: &GroupKey) -> bool {
        same(self.values.as_slice(), other.values.as_slice())
    }
}

impl Eq for GroupKey {
    ghost use Rattle.std.proofs.lemmas.Cmp.{on_equiv};
    ghost use Rattle.aggregate.specs.inner.KeyLemmas.{same_row-equiv};

    ghost laws = { on_equiv (λ k. k.values) same_row-equiv };
}

impl Hash for GroupKey {
    ghost use Rattle.aggregate.specs.Keys.{row_writes};
    ghost use Rattle.aggregate.specs.inner.KeyLemmas.{hashed_alike};

    ghost hash_input = { λ k. row_writes k.values };

    ghost respects_eq = { λ a b same. hashed_alike a.values b.values same };

    fn hash<H: Hasher>(&self, state: &mut H) {
        for value in self.values.as_slice() {
            hash_value(value, state);
        }
    }
}

/// Makes each hasher as a copy of one, which has its key already.
#[derive(Clone, Copy)]
pub struct BeginsAs {
    pub hasher: DefaultHasher,
}

impl BuildHasher for BeginsAs {
    type Hasher = DefaultHasher;

    ghost build_hasher = { λ begin. begin.hasher };

    fn build_hasher(&self) -> DefaultHasher {
        self.hasher
    }
}
