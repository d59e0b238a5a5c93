//! A column, as a text declares it.
use indexmap::Equivalent;
use sql_tree::Name;
use std::hash::{Hash, Hasher};

/// The type of a column.
#[derive(Clone, Copy, Debug, PartialEq, Eq)]
pub enum ColumnType {
    BigInt,
    BigIntUnsigned,
    /// Texts of at most so many bytes.
    VarBinary(u8),
}

/// A column of a table. It may hold NULL only if it is nullable.
#[derive(Drop)]
pub struct Column {
    pub name: Name,
    pub kind: ColumnType,
    pub nullable: bool,
}

/// Columns of one table are the same if their names are.
impl PartialEq for Column {
    ghost use Rattle.std.specs.Prelude.{bytes_eq};
    ghost use Rattle.std.specs.Cmp.{partial_equiv_from_equiv};
    ghost use Rattle.std.specs.Cmp.Lexicographic.{nat_list_eq_equiv};
    ghost use Rattle.std.proofs.lemmas.Cmp.{on_equiv};

    ghost eq = { λ a b. bytes_eq a.name b.name };

    ghost laws = { partial_equiv_from_equiv (on_equiv (λ c. c.name) nat_list_eq_equiv) };

    fn eq(&self, other: &Column) -> bool {
        self.name.as_slice() == other.name.as_slice()
    }
}

impl Eq for Column {
    ghost use Rattle.std.specs.Cmp.Lexicographic.{nat_list_eq_equiv};
    ghost use Rattle.std.proofs.lemmas.Cmp.{on_equiv};

    ghost laws = { on_equiv (λ c. c.name) nat_list_eq_equiv };
}

impl Hash for Column {
    ghost use Rattle.std.proofs.Common.{ap};
    ghost use Rattle.std.specs.Cmp.Lexicographic.{bytes_decides};
    ghost use Rattle.std.specs.Hash as fed;

    ghost hash_input = { λ c. fed.slice fed.u8 c.name };

    ghost respects_eq = { λ a b same. ap (fed.slice fed.u8) ((bytes_decides a.name b.name).0 same) };

    fn hash<H: Hasher>(&self, state: &mut H) {
        self.name.as_slice().hash(state);
    }
}

/// A name stands for the column that has it.
impl Equivalent<Column> for &[u8] {
    ghost use Rattle.std.specs.Prelude.{bytes_eq};
    ghost use Rattle.std.proofs.Common.{ap};
    ghost use Rattle.std.specs.Cmp.Lexicographic.{bytes_decides, nat_list_eq_equiv};
    ghost use Rattle.std.specs.Hash as fed;

    ghost equivalent = { λ name c. bytes_eq name.now c.name };

    ghost respects_hash = { λ name c same. ap (fed.slice fed.u8) ((bytes_decides name.now c.name).0 same) };

    ghost respects_eq = { λ name a b. nat_list_eq_equiv.congr name.now a.name b.name };

    fn equivalent(&self, column: &Column) -> bool {
        *self == column.name.as_slice()
    }
}
