//! An end of a key range: at most eight bytes, kept in place.
ghost use Rattle.std.specs.Prelude.{◌≡◌, ◌<◌, ◌++◌, ◌∷◌, [], length, nat_eq};
ghost use Rattle.std.specs.Cmp.{partial_equiv_from_equiv};
ghost use Rattle.std.specs.Cmp.Lexicographic.{pointwise, nat_list_eq_equiv};
ghost use Rattle.keyrange.specs.Ranges.{IsByteString};

use std::marker::Model;

/// An end of a range: at most eight bytes, of which contracts see the list.
#[derive(Clone, Copy, Debug)]
pub struct Edge {
    // zeros from `len` on
    bytes: [u8; 8],
    len: usize,
}

impl Model for Edge {
    ghost use Rattle.std.specs.Prelude.{List, ℕ};

    ghost Value = { List ℕ };

    ghost use Rattle.keyrange.specs.Edges.{bytes_of, IsPadded, padded, padded-bytes_of};

    ghost view = { bytes_of };

    ghost invariant = { IsPadded };

    ghost inverse = { padded };

    ghost inverse_ok = { padded-bytes_of };
}

impl PartialEq for Edge {
    ghost eq = { pointwise nat_eq };

    ghost laws = { partial_equiv_from_equiv nat_list_eq_equiv };

    fn eq(&self, other: &Edge) -> bool {
        self.as_slice() == other.as_slice()
    }
}

impl Eq for Edge {
    ghost laws = { nat_list_eq_equiv };
}

impl Edge {
    /// The edge without bytes, which comes before every other.
    pub fn empty() -> Edge
        ensures { result ≡ [] }
    {
        Edge {
            bytes: [0; 8],
            len: 0,
        }
    }

    /// The edge's bytes.
    pub fn as_slice(&self) -> &[u8]
        ensures value { result.now ≡ self.now }
        ensures bytes { IsByteString self.now }
    {
        &self.bytes[..self.len]
    }

    pub(crate) fn len(&self) -> usize
        ensures { result ≡ length self.now }
    {
        self.len
    }

    pub(crate) fn push(&mut self, byte: u8)
        requires { length self.old < 8 }
        ensures { self.new ≡ self.old ++ byte ∷ [] }
    {
        self.bytes[self.len] = byte;
        self.len += 1;
    }
}
