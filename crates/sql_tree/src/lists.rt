//! Lists of printed parts.
ghost use Rattle.std.specs.Prelude.{◌≡◌, ◌++◌, ℕ, List, codes, flat_map, map, OnOk};
ghost use Rattle.sql_tree.specs.Printing.{following, commas, bracketed, clause_text, column_text};

use crate::literals::{put, put_column, put_name, put_value};
use crate::{Assignment, ColumnName, Item, Key, Name};
use sql_lexer::{Items, Value};
use std::alloc::AllocError;

/// A part of a statement that has one printed form.
pub trait Print {
    ghost text: { Self → List ℕ };

    /// Puts the printed form.
    fn put(&self, out: &mut Vec<u8>) -> Result<(), AllocError>
        ensures ok { OnOk result (out.new.items ≡ out.old.items ++ text self.now) };
}

/// Puts each part with a comma before it.
fn put_following<T: Print>(out: &mut Vec<u8>, items: &[T]) -> Result<(), AllocError>
    ensures ok { OnOk result (out.new.items ≡ out.old.items ++ following (codes ", ") (map T.text items.now)) }
{
    for item in items {
        put(out, b", ")?;
        item.put(out)?;
    }
    Ok(())
}

/// Puts the parts with commas between them.
pub fn put_commas<T: Print>(out: &mut Vec<u8>, items: &[T]) -> Result<(), AllocError>
    ensures ok { OnOk result (out.new.items ≡ out.old.items ++ commas (map T.text items.now)) }
{
    match items {
        [] => Ok(()),
        [first, rest @ ..] => {
            first.put(out)?;
            put_following(out, rest)
        }
    }
}

/// Puts the parts in parentheses.
pub fn put_bracketed<T: Print>(out: &mut Vec<u8>, items: &[T]) -> Result<(), AllocError>
    ensures ok { OnOk result (out.new.items ≡ out.old.items ++ bracketed (commas (map T.text items.now))) }
{
    put(out, b"(")?;
    put_commas(out, items)?;
    put(out, b")")
}

/// Puts a clause, which is left out if its list is empty.
pub fn put_clause<T: Print>(out: &mut Vec<u8>, words: &[u8], items: &[T]) -> Result<(), AllocError>
    ensures ok { OnOk result (out.new.items ≡ out.old.items ++ clause_text words.now (map T.text items.now)) }
{
    match items {
        [] => Ok(()),
        _ => {
            put(out, words)?;
            put_commas(out, items)
        }
    }
}

impl Print for Name {
    ghost use Rattle.sql_tree.specs.Printing.{name_text};

    ghost text = { name_text };

    fn put(&self, out: &mut Vec<u8>) -> Result<(), AllocError> {
        put_name(out, self.as_slice())
    }
}

impl Print for ColumnName {
    ghost use Rattle.sql_tree.specs.Printing.{column_text};

    ghost text = { column_text };

    fn put(&self, out: &mut Vec<u8>) -> Result<(), AllocError> {
        put_column(out, self)
    }
}

impl Print for Value {
    ghost use Rattle.sql_tree.specs.Printing.{value_text};

    ghost text = { value_text };

    fn put(&self, out: &mut Vec<u8>) -> Result<(), AllocError> {
        put_value(out, self)
    }
}

impl Print for Items<Value> {
    ghost use Rattle.sql_tree.specs.Printing.{row_text};

    ghost text = { row_text };

    fn put(&self, out: &mut Vec<u8>) -> Result<(), AllocError> {
        put_bracketed(out, self.as_slice())
    }
}

fn put_call(out: &mut Vec<u8>, column: &ColumnName) -> Result<(), AllocError>
    ensures ok { OnOk result (out.new.items ≡ out.old.items ++ bracketed (column_text column.now)) }
{
    put(out, b"(")?;
    put_column(out, column)?;
    put(out, b")")
}

impl Print for Item<ColumnName> {
    ghost use Rattle.sql_tree.specs.Printing.{item_text};

    ghost text = { item_text };

    fn put(&self, out: &mut Vec<u8>) -> Result<(), AllocError> {
        match self {
            Item::Column(column) => put_column(out, column),
            Item::CountRows => put(out, b"COUNT(*)"),
            Item::Count(column) => {
                put(out, b"COUNT")?;
                put_call(out, column)
            }
            Item::Sum(column) => {
                put(out, b"SUM")?;
                put_call(out, column)
            }
            Item::Min(column) => {
                put(out, b"MIN")?;
                put_call(out, column)
            }
            Item::Max(column) => {
                put(out, b"MAX")?;
                put_call(out, column)
            }
        }
    }
}

impl Print for Key<ColumnName> {
    ghost use Rattle.sql_tree.specs.Printing.{key_text};

    ghost text = { key_text };

    fn put(&self, out: &mut Vec<u8>) -> Result<(), AllocError> {
        put_column(out, &self.column)?;
        if self.descending {
            put(out, b" DESC")?;
        }
        Ok(())
    }
}

impl Print for Assignment<Name> {
    ghost use Rattle.sql_tree.specs.Printing.{assignment_text};

    ghost text = { assignment_text };

    fn put(&self, out: &mut Vec<u8>) -> Result<(), AllocError> {
        put_name(out, self.column.as_slice())?;
        put(out, b" = ")?;
        put_value(out, &self.value)
    }
}
