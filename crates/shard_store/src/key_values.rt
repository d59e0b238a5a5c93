//! The values of a key.
ghost use Rattle.std.specs.Prelude.{◌≡◌, ◌∷◌, [], IfOk};
ghost use Rattle.std.specs.Cmp.Lexicographic.{slice_cmp};
ghost use Rattle.vt_value.specs.Values.{value_at, value_cmp};
ghost use Rattle.shard_store.specs.Slots.{begins};
ghost use Rattle.shard_store.specs.Tables.{key_at};
ghost use Rattle.shard_store.specs.inner.Listings.{listed};

use crate::primary::value_at;
use crate::shared_row::SharedRow;
use row_chunks::Same;
use std::alloc::{AllocError, Global};
use std::cmp::Ordering;
use std::marker::Model;
use vt_value::{Items, Row, Value, sort_order};

// One number of 64 bits is here itself, so that such keys are made and compared without memory of their own, and many of them
// are in one line of the processor's cache.
#[derive(Drop)]
enum Listing {
    Number(i64),
    Values(SharedRow),
}

/// The values of a key, of which most are one number. Contracts see their list.
#[derive(Drop)]
pub struct KeyValues {
    listing: Listing,
}

impl Model for KeyValues {
    ghost use Rattle.std.specs.Prelude.{List};
    ghost use Rattle.vt_value.specs.declared.value.Value.{Value as V};
    ghost use Rattle.shard_store.specs.inner.Listings.{listed};

    ghost Value = { List V };

    ghost view = { λ k. listed k.listing };
}

/// Compares values in their order, one after the other. A proper prefix comes before the longer list.
pub(crate) fn compare_values(a: &[Value], b: &[Value]) -> Ordering
    ensures { result ≡ slice_cmp value_cmp a.now b.now }
{
    match (a.split_first(), b.split_first()) {
        (None, None) => Ordering::Equal,
        (None, Some(_)) => Ordering::Less,
        (Some(_), None) => Ordering::Greater,
        (Some((x, a)), Some((y, b))) => match sort_order(x, y) {
            Ordering::Equal => compare_values(a, b),
            order => order,
        },
    }
}

fn order_of(value: &Value, row: &Row, ordinal: usize) -> Ordering
    ensures { result ≡ value_cmp value.now (value_at row.now ordinal) }
{
    let null = Value::Null;
    sort_order(value, value_at(row, ordinal, &null))
}

// Compares values with those of a row in columns, one after the other.
fn compare_values_to_row(values: &[Value], row: &Row, columns: &[usize]) -> Ordering
    ensures { result ≡ slice_cmp value_cmp values.now (key_at columns.now row.now) }
{
    match (values.split_first(), columns.split_first()) {
        (None, None) => Ordering::Equal,
        (None, Some(_)) => Ordering::Less,
        (Some(_), None) => Ordering::Greater,
        (Some((value, values)), Some((ordinal, columns))) => match order_of(value, row, *ordinal) {
            Ordering::Equal => compare_values_to_row(values, row, columns),
            order => order,
        },
    }
}

// Compares a number with the value of a row in a column.
fn compare_number(number: i64, row: &Row, ordinal: usize) -> Ordering
    ensures { result ≡ value_cmp (Value.Int number) (value_at row.now ordinal) }
{
    let null = Value::Null;
    let value = value_at(row, ordinal, &null);
    match value {
        Value::Int(other) => i128::from(number).cmp(other),
        _ => sort_order(&Value::Int(i128::from(number)), value),
    }
}

// Compares a number with the values of a row in columns.
fn compare_number_to_row(number: i64, row: &Row, columns: &[usize]) -> Ordering
    ensures { result ≡ slice_cmp value_cmp (Value.Int number ∷ []) (key_at columns.now row.now) }
{
    match columns {
        [ordinal] => compare_number(number, row, *ordinal),
        _ => compare_values_to_row(&[Value::Int(i128::from(number))], row, columns),
    }
}

fn compare_listings(a: &Listing, b: &Listing) -> Ordering
    ensures { result ≡ slice_cmp value_cmp (listed a.now) (listed b.now) }
{
    match (a, b) {
        (Listing::Number(m), Listing::Number(n)) => m.cmp(n),
        (Listing::Number(m), Listing::Values(b)) => {
            compare_values(&[Value::Int(i128::from(*m))], b.get().as_slice())
        }
        (Listing::Values(a), Listing::Number(n)) => {
            compare_values(a.get().as_slice(), &[Value::Int(i128::from(*n))])
        }
        (Listing::Values(a), Listing::Values(b)) => {
            compare_values(a.get().as_slice(), b.get().as_slice())
        }
    }
}

fn listing_of(alloc: Global, values: Row) -> Result<Listing, AllocError>
    ensures ok { IfOk result (λ listing. listed listing ≡ values) }
{
    Ok(Listing::Values(SharedRow::new(alloc, values)?))
}

fn listing_of_one(alloc: Global, value: Value) -> Result<Listing, AllocError>
    ensures ok { IfOk result (λ listing. listed listing ≡ value ∷ []) }
{
    let mut values = Items::new(alloc);
    values.push(value)?;
    listing_of(alloc, values)
}

impl KeyValues {
    /// These values. Refuses for want of memory.
    pub fn new(alloc: Global, values: Row) -> Result<KeyValues, AllocError>
        ensures ok { IfOk result (λ k. k ≡ values) }
    {
        if let [Value::Int(number)] = values.as_slice() {
            if let Ok(number) = i64::try_from(*number) {
                let listing = Listing::Number(number);
                return Ok(KeyValues { listing });
            }
        }
        let listing = listing_of(alloc, values)?;
        Ok(KeyValues { listing })
    }

    /// One value alone. Refuses for want of memory.
    pub fn of_one(alloc: Global, value: Value) -> Result<KeyValues, AllocError>
        ensures ok { IfOk result (λ values. values ≡ value ∷ []) }
    {
        let listing = match &value {
            Value::Int(number) => match i64::try_from(*number) {
                Ok(number) => Listing::Number(number),
                Err(_) => listing_of_one(alloc, value)?,
            },
            _ => listing_of_one(alloc, value)?,
        };
        Ok(KeyValues { listing })
    }

    /// Compares them in the order of values, one after the other.
    pub fn compare(&self, other: &KeyValues) -> Ordering
        ensures { result ≡ slice_cmp value_cmp self.now other.now }
    {
        compare_listings(&self.listing, &other.listing)
    }

    /// Compares them with the values of a row in columns, in the order of values, one after the other.
    pub fn compare_to_row(&self, row: &Row, columns: &[usize]) -> Ordering
        ensures { result ≡ slice_cmp value_cmp self.now (key_at columns.now row.now) }
    {
        match &self.listing {
            Listing::Number(number) => compare_number_to_row(*number, row, columns),
            Listing::Values(values) => {
                compare_values_to_row(values.get().as_slice(), row, columns)
            }
        }
    }

    /// Whether they begin with a value.
    pub fn begin_with(&self, value: &Value) -> bool
        ensures { result ≡ begins value.now self.now }
    {
        match &self.listing {
            Listing::Number(number) => sort_order(value, &Value::Int(i128::from(*number))).is_eq(),
            Listing::Values(values) => match values.get().as_slice().first() {
                Some(first) => sort_order(value, first).is_eq(),
                None => false,
            },
        }
    }
}

impl Clone for KeyValues {
    ghost use Rattle.std.specs.Prelude.{◌≡◌};

    ghost is_clone = { λ a b. b ≡ a };

    /// Equal values; several are shared, so that they aren't copied.
    fn clone(&self) -> Result<KeyValues, AllocError> {
        let listing = match &self.listing {
            Listing::Number(number) => Listing::Number(*number),
            Listing::Values(values) => Listing::Values(values.clone()?),
        };
        Ok(KeyValues { listing })
    }
}

impl Same for KeyValues {
    ghost same = { λ a b is. is };
}
