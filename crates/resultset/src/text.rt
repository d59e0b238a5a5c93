//! The names of a column, which are mostly lent.
ghost use Rattle.std.specs.Prelude.{◌≡◌};
ghost use Rattle.resultset.specs.inner.Texts.{bytes_in};

use std::marker::Model;
use vt_value::Items;

/// Bytes, or those that are lent.
#[derive(Debug, Drop)]
pub(crate) enum Holding<'a> {
    Lent(&'a [u8]),
    Own(Items<u8>),
}

/// A name of a column: its own, or one that is lent, of which nothing is copied. Contracts see its bytes.
#[derive(Debug, Drop)]
pub struct ColumnText<'a> {
    holding: Holding<'a>,
}

impl<'a> Model for ColumnText<'a> {
    ghost use Rattle.std.specs.Prelude.{ℕ, List};
    ghost use Rattle.resultset.specs.inner.Texts.{bytes_in};

    ghost Value = { List ℕ };

    ghost view = { λ t. bytes_in t.holding };
}

impl<'a> ColumnText<'a> {
    /// These bytes, lent.
    pub fn lent(bytes: &'a [u8]) -> ColumnText<'a>
        ensures { result ≡ bytes.now }
    {
        ColumnText {
            holding: Holding::Lent(bytes),
        }
    }

    /// These bytes.
    pub fn own(bytes: Items<u8>) -> ColumnText<'a>
        ensures { result ≡ bytes }
    {
        ColumnText {
            holding: Holding::Own(bytes),
        }
    }

    /// The bytes.
    pub fn as_slice(&self) -> &[u8]
        ensures { result.now ≡ self.now }
    {
        match &self.holding {
            Holding::Lent(bytes) => bytes,
            Holding::Own(bytes) => bytes.as_slice(),
        }
    }
}
