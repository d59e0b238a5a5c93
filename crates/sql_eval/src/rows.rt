//! The value of a row at an ordinal, and when rows or their keys are equal.
ghost use Rattle.std.specs.Prelude.{◌≡◌, zip};
ghost use Rattle.std.specs.List.{list_any, list_all};
ghost use Rattle.std.specs.Ordering.{is_eq};
ghost use Rattle.std.specs.Cmp.Lexicographic.{slice_cmp};
ghost use Rattle.vt_value.specs.Values.{value_at, value_cmp};
ghost use Rattle.vschema.specs.Schema.{key_of};
ghost use Rattle.vschema.specs.Database.{same_row};

use vschema::Table;
use vt_value::{Row, Value, sort_order};

/// The value of a row at an ordinal: `null`, which is NULL, after its last one.
pub fn value_at<'a>(row: &'a Row, ordinal: usize, null: &'a Value) -> &'a Value
    requires { null.now ≡ Value.Null }
    ensures { result.now ≡ value_at row.now ordinal }
{
    match row.as_slice().get(ordinal) {
        Some(value) => value,
        None => null,
    }
}

fn equal(a: &Value, b: &Value) -> bool
    ensures { result ≡ is_eq (value_cmp a.now b.now) }
{
    sort_order(a, b).is_eq()
}

fn are_equal(a: &[Value], b: &[Value]) -> bool
    ensures { result ≡ list_all (λ p. is_eq (value_cmp p.0 p.1)) (zip a.now b.now) }
{
    a.iter().zip(b).all(|(x, y)| equal(x, y))
}

fn same_at(a: &Row, b: &Row, ordinal: usize) -> bool
    ensures { result ≡ is_eq (value_cmp (value_at a.now ordinal) (value_at b.now ordinal)) }
{
    let null = Value::Null;
    equal(value_at(a, ordinal, &null), value_at(b, ordinal, &null))
}

/// Whether two rows have the same values. Takes no memory.
pub fn same_row(a: &Row, b: &Row) -> bool
    ensures { result ≡ same_row a.now b.now }
{
    a.len() == b.len() && are_equal(a.as_slice(), b.as_slice())
}

fn same_at_each(a: &Row, b: &Row, ordinals: &[usize]) -> bool
    ensures { result ≡ list_all (λ n. is_eq (value_cmp (value_at a.now n) (value_at b.now n))) ordinals.now }
{
    ordinals.iter().all(|ordinal| same_at(a, b, *ordinal))
}

/// Whether two rows of a table have the same primary key. Takes no memory.
pub fn same_key(table: &Table, a: &Row, b: &Row) -> bool
    ensures { result ≡ same_row (key_of table.now a.now) (key_of table.now b.now) }
{
    same_at_each(a, b, table.primary_key.as_slice())
}

/// Whether a row with this one's primary key is among the rows. Takes no memory.
pub fn has_key(table: &Table, rows: &[Row], row: &Row) -> bool
    ensures { result ≡ list_any (λ r. same_row (key_of table.now row.now) (key_of table.now r)) rows.now }
{
    rows.iter().any(|r| same_key(table, row, r))
}
