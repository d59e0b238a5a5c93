//! Whether rows that are walked by their keys come in an order that ORDER BY allows.
ghost use Rattle.std.specs.Prelude.{◌≡◌, List, map, true, false, IsTrue, IfSome};
ghost use Rattle.std.specs.Ordering.{is_lt, ordering_then};
ghost use Rattle.std.specs.Cmp.Lexicographic.{slice_cmp};
ghost use Rattle.std.specs.declared.cmp.Ordering.TheVariants.{Less};
ghost use Rattle.vt_value.specs.declared.value.Value.{Value as V};
ghost use Rattle.vt_value.specs.Values.{value_at, value_cmp};
ghost use Rattle.sql_eval.specs.Conditions.{is_kept};
ghost use Rattle.key_intervals.specs.Directions.{walked_cmp};
ghost use Rattle.key_intervals.specs.inner.KeysOf.{is_of};

use crate::column::{interval_of, lone_value};
use sql_tree::{Condition, Key};

/// The direction of a walk over rows by their keys.
#[derive(Clone, Copy)]
pub enum Direction {
    /// From the first key on.
    Forward,
    /// From the last key on.
    Backward,
}

impl Direction {
    // Whether a sort key has this direction.
    fn has(self, key: &Key<usize>) -> bool
        ensures { result ≡ is_of self key.now }
    {
        match self {
            Direction::Forward => !key.descending,
            Direction::Backward => key.descending,
        }
    }
}

// Whether a column has one value in all rows that a condition keeps.
fn is_fixed(condition: &Option<Condition<usize>>, column: usize) -> bool
    ensures { IsTrue result → (a b : List V) → is_kept condition.now a ≡ true → is_kept condition.now b ≡ true → value_at a column ≡ value_at b column }
{
    match condition {
        Some(condition) => lone_value(interval_of(condition, column)).is_some(),
        None => false,
    }
}

// The columns of a key that come after a column, if each of those before it has one value.
fn after<'a>(
    condition: &Option<Condition<usize>>,
    columns: &'a [usize],
    column: usize,
) -> Option<&'a [usize]>
    ensures { IfSome result (λ later. (a b : List V) → is_kept condition.now a ≡ true → is_kept condition.now b ≡ true
        → slice_cmp value_cmp (map (value_at a) columns.now) (map (value_at b) columns.now)
        ≡ ordering_then (value_cmp (value_at a column) (value_at b column)) (slice_cmp value_cmp (map (value_at a) later.now) (map (value_at b) later.now))) }
{
    match columns.split_first() {
        Some((first, later)) if *first == column => Some(later),
        Some((first, later)) if is_fixed(condition, *first) => after(condition, later, column),
        _ => None,
    }
}

// Whether the rows that a condition keeps come in the order of sort keys, if they are walked by a key of these columns. Where the whole key was compared, no
// two rows are equal, so that further sort keys say nothing.
fn follows(
    condition: &Option<Condition<usize>>,
    columns: &[usize],
    keys: &[Key<usize>],
    direction: Direction,
) -> bool
    ensures { IsTrue result → (a b : List V) → is_kept condition.now a ≡ true → is_kept condition.now b ≡ true
        → slice_cmp value_cmp (map (value_at a) columns.now) (map (value_at b) columns.now) ≡ Less → is_lt (walked_cmp direction keys.now b a) ≡ false }
{
    let Some((key, others)) = keys.split_first() else {
        return true;
    };
    if is_fixed(condition, key.column) {
        return follows(condition, columns, others, direction);
    }
    if columns.is_empty() {
        return true;
    }
    match after(condition, columns, key.column) {
        Some(later) if direction.has(key) => follows(condition, later, others, direction),
        _ => false,
    }
}

// Promise: Rows that are walked by their keys in the direction that is told, and that a condition keeps, come in an order that ORDER BY allows
/// The direction in which the rows that a condition keeps come in the order of ORDER BY, if they are walked by their keys: of two rows, the one whose key is
/// less comes first if it is forward, else last. The sort keys are all ascending or all descending then, and are the next columns of the key after those of
/// which all these rows have one value.
pub fn walk_direction(
    condition: &Option<Condition<usize>>,
    columns: &[usize],
    keys: &[Key<usize>],
) -> Option<Direction>
    ensures { IfSome result (λ d. (a b : List V) → is_kept condition.now a ≡ true → is_kept condition.now b ≡ true
        → slice_cmp value_cmp (map (value_at a) columns.now) (map (value_at b) columns.now) ≡ Less → is_lt (walked_cmp d keys.now b a) ≡ false) }
{
    if follows(condition, columns, keys, Direction::Forward) {
        return Some(Direction::Forward);
    }
    if follows(condition, columns, keys, Direction::Backward) {
        return Some(Direction::Backward);
    }
    None
}
