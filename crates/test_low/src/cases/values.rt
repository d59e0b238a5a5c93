//! Values and refusals.
use std::alloc::Global;
use std::cmp::Ordering;
use test_fields::{CaseAnswer, Unanswered, fields, row_of, small_number, value_of};
use vt_value::{Comparison, REFUSALS, Refusal, Truth, Value, compare, copy, copy_row, sort_order};

/// The comparisons, by their signs.
const COMPARISONS: [(&str, Comparison); 6] = [
    ("=", Comparison::Eq),
    ("<>", Comparison::Ne),
    ("<", Comparison::Lt),
    ("<=", Comparison::Le),
    (">", Comparison::Gt),
    (">=", Comparison::Ge),
];

fn truth_name(truth: Truth) -> &'static str {
    match truth {
        Truth::True => "true",
        Truth::False => "false",
        Truth::Unknown => "unknown",
    }
}

fn order_name(order: Ordering) -> &'static str {
    match order {
        Ordering::Less => "-1",
        Ordering::Equal => "0",
        Ordering::Greater => "1",
    }
}

fn put_comparisons(told: &mut CaseAnswer, left: &Value, right: &Value) {
    for (sign, comparison) in &COMPARISONS {
        told.put(sign);
        told.put(":");
        told.put(truth_name(compare(*comparison, left, right)));
        told.put(" ");
    }
    told.put("order:");
    told.put(order_name(sort_order(left, right)));
}

/// The truth of each comparison of two values, and their order.
pub(crate) fn comparisons(
    alloc: Global,
    case: &str,
    told: &mut CaseAnswer,
) -> Result<(), Unanswered> {
    let (left, right) = fields(case)?;
    let left = value_of(alloc, left)?;
    match value_of(alloc, right) {
        Ok(right) => {
            put_comparisons(told, &left, &right);
            Ok(())
        }
        Err(why) => Err(why),
    }
}

// Puts a copy of each value.
fn put_copies(alloc: Global, told: &mut CaseAnswer, values: &[Value]) -> Result<(), Unanswered> {
    for (i, value) in values.iter().enumerate() {
        told.put(if i == 0 { "" } else { " " });
        told.put_row(&[copy(alloc, value)?]);
    }
    Ok(())
}

/// A copy of a row, and of each of its values.
pub(crate) fn copied(alloc: Global, case: &str, told: &mut CaseAnswer) -> Result<(), Unanswered> {
    let row = row_of(alloc, case)?;
    let copied = copy_row(alloc, &row);
    drop(row);
    put_copies(alloc, told, copied?.as_slice())
}

/// The refusal of a number.
pub(crate) fn refusal_of(field: &str) -> Result<Refusal, Unanswered> {
    let number = small_number(field)?;
    for refusal in &REFUSALS {
        if refusal.number() == number {
            return Ok(*refusal);
        }
    }
    Err(Unanswered::BadLine)
}

/// What the protocol says of a refusal.
pub(crate) fn refusal(case: &str, told: &mut CaseAnswer) -> Result<(), Unanswered> {
    let refusal = refusal_of(case)?;
    told.put_number(u64::from(refusal.code()));
    told.put(" ");
    told.put(refusal.state());
    told.put(" ");
    told.show(&refusal);
    Ok(())
}
