//! What operators do with inputs that fail or count their calls.
ghost use Rattle.std.specs.Prelude.{◌≡◌};

use crate::cases::failing::Failing;
use aggregate::GroupMerge;
use operators::*;
use sql_tree::Key;
use std::alloc::{AllocError, Global};
use std::cell::Cell;
use std::hash::DefaultHasher;
use vt_value::{Items, Refusal, Row, Value};

/// Counts the calls of `next`.
#[derive(Drop)]
struct Counting<'a> {
    input: Rows,
    calls: &'a Cell<u64>,
}

impl Operator for Counting<'_> {
    ghost to_come = { λ counting. ⟦<Rows as Operator>⟧.to_come counting.input };

    ghost has_failed = { λ counting. ⟦<Rows as Operator>⟧.has_failed counting.input };

    fn next(&mut self, alloc: Global) -> Result<Option<Row>, AllocError> {
        self.calls.set(self.calls.get().wrapping_add(1));
        self.input.next(alloc)
    }
}

/// Rows of one number each.
fn given(alloc: Global, numbers: &[i128]) -> Result<Rows, Refusal> {
    let mut rows = Items::new(alloc);
    for number in numbers {
        let mut row = Items::new(alloc);
        row.push(Value::Int(*number))?;
        rows.push(row)?;
    }
    Ok(Rows::new(alloc, rows)?)
}

/// The number of a row that has nothing else, 0 for any other.
fn number_in(row: &Row) -> i128 {
    match row.as_slice() {
        [Value::Int(number)] => *number,
        _ => 0,
    }
}

fn pulled<O: Operator>(alloc: Global, mut input: O) -> Result<Vec<i128>, Refusal> {
    let mut numbers = Vec::new(alloc);
    for row in collect(alloc, &mut input)?.as_slice() {
        numbers.push(number_in(row))?;
    }
    Ok(numbers)
}

/// What a limit gives of six rows, whose calls are counted.
fn limited(
    alloc: Global,
    limit: Option<(u64, u64)>,
    calls: &Cell<u64>,
) -> Result<Vec<i128>, Refusal> {
    let limit = limit.map(|(count, offset)| sql_tree::LimitClause { count, offset });
    let input = given(alloc, &[2, 3, 1, 7, 7, 9])?;
    pulled(alloc, Limit::new(Counting { input, calls }, limit))
}

/// A limit asks for no row after its last one.
pub(crate) fn a_limit_pulls_no_row_behind_its_last(alloc: Global) -> Result<bool, Refusal> {
    let cases = [
        (Some((2, 3)), [7, 7].as_slice(), 5),
        (Some((0, 3)), [].as_slice(), 0),
        (Some((9, 4)), [7, 9].as_slice(), 7),
        (Some((1, 9)), [].as_slice(), 8),
        (None, [2, 3, 1, 7, 7, 9].as_slice(), 7),
    ];
    for (limit, wanted, most) in cases {
        let calls = Cell::new(0);
        let numbers = limited(alloc, limit, &calls)?;
        if numbers.as_slice() != wanted || calls.get() > most {
            return Ok(false);
        }
    }
    Ok(true)
}

/// Inputs whose calls are counted together, each in order.
fn counted<'a>(alloc: Global, calls: &'a Cell<u64>) -> Result<Vec<Counting<'a>>, Refusal> {
    let mut inputs = Vec::new(alloc);
    for numbers in [[1, 4, 9].as_slice(), &[2, 2, 5], &[3], &[]] {
        let input = given(alloc, numbers)?;
        inputs.push(Counting { input, calls })?;
    }
    Ok(inputs)
}

/// The number of each row that a merge gives, -1 once it gives none, and how often its inputs were called until then; 0 before the first.
fn merged(alloc: Global, calls: &Cell<u64>) -> Result<Vec<(i128, u64)>, Refusal> {
    let keys = [Key {
        column: 0,
        descending: false,
    }];
    let mut merge = MergeSort::new(alloc, counted(alloc, calls)?, &keys)?;
    let mut told = Vec::new(alloc);
    told.push((0, calls.get()))?;
    put_calls(alloc, &mut merge, calls, &mut told)?;
    Ok(told)
}

fn put_calls<O: Operator>(
    alloc: Global,
    input: &mut O,
    calls: &Cell<u64>,
    told: &mut Vec<(i128, u64)>,
) -> Result<(), Refusal> {
    for _ in 0..8 {
        let number = input.next(alloc)?.as_ref().map_or(-1, number_in);
        told.push((number, calls.get()))?;
    }
    Ok(())
}

/// A merge of n inputs has pulled at most n + k rows once it gave k.
pub(crate) fn a_merge_pulls_a_row_of_each_input_and_one_for_each_that_it_gave(
    alloc: Global,
) -> Result<bool, Refusal> {
    let calls = Cell::new(0);
    let told = merged(alloc, &calls)?;
    let wanted = [
        (0, 4),
        (1, 5),
        (2, 6),
        (2, 7),
        (3, 8),
        (4, 9),
        (5, 10),
        (9, 11),
        (-1, 11),
    ];
    for ((number, called), (wanted, most)) in told.as_slice().iter().zip(wanted) {
        if *number != wanted || *called > most {
            return Ok(false);
        }
    }
    Ok(told.len() == wanted.len())
}

/// What calls of `next` give: `r` for a row, `e` at the end, and `f` if they fail.
fn outcomes<O: Operator>(alloc: Global, mut input: O, calls: u32) -> Result<Vec<u8>, Refusal> {
    let mut told = Vec::new(alloc);
    for _ in 0..calls {
        told.push(match input.next(alloc) {
            Ok(Some(_)) => b'r',
            Ok(None) => b'e',
            Err(_) => b'f',
        })?;
    }
    Ok(told)
}

/// Inputs that fail after so many rows.
fn inputs_of(alloc: Global, rows: &[u32]) -> Result<Vec<Failing>, Refusal> {
    let mut inputs = Vec::new(alloc);
    for left in rows {
        inputs.push(Failing {
            left: *left,
            failed: false,
        })?;
    }
    Ok(inputs)
}

/// A merge stays failed if one of its inputs fails.
pub(crate) fn a_merge_stays_failed_where_an_input_does(alloc: Global) -> Result<bool, Refusal> {
    let merge = MergeSort::new(alloc, inputs_of(alloc, &[3, 2])?, &[])?;
    Ok(outcomes(alloc, merge, 5)?.as_slice() == b"rrfff".as_slice())
}

/// What other operators make of an input that fails stays failed.
pub(crate) fn a_failed_input_stays_failed(alloc: Global) -> Result<bool, Refusal> {
    let limit = sql_tree::LimitClause {
        count: 5,
        offset: 0,
    };
    let limited = Limit::new(Concat::new(inputs_of(alloc, &[1])?), Some(limit));
    let project = Project::new(limited, Items::new(alloc));
    Ok(outcomes(alloc, project, 4)?.as_slice() == b"rfff".as_slice())
}

/// No groups are made of an input that fails.
pub(crate) fn a_failed_input_gives_no_groups(alloc: Global) -> bool {
    let input = Failing {
        left: 0,
        failed: false,
    };
    let merge = GroupMerge::new(alloc, DefaultHasher::new(), input, &[], 0);
    matches!(merge, Err(AllocError))
}
