//! Rows that operators give.
use operators::{MergeSort, Operator, Project, Rows, collect};
use sql_tree::Key;
use std::alloc::Global;
use test_fields::{CaseAnswer, Unanswered, count, fields, rows_of};
use vt_value::Items;

// A key, as `0:asc` or `0:desc`.
fn key_of(field: &str) -> Result<Key<usize>, Unanswered> {
    let (column, order) = field.split_once(':').ok_or(Unanswered::BadLine)?;
    let column = count(column)?;
    match order {
        "asc" | "desc" => Ok(Key {
            column,
            descending: order == "desc",
        }),
        _ => Err(Unanswered::BadLine),
    }
}

fn push_keys(keys: &mut Vec<Key<usize>>, field: &str) -> Result<(), Unanswered> {
    for part in field.split_whitespace() {
        keys.push(key_of(part)?)?;
    }
    Ok(())
}

fn push_input(alloc: Global, inputs: &mut Vec<Rows>, field: &str) -> Result<(), Unanswered> {
    Ok(inputs.push(input_of(alloc, field)?)?)
}

fn push_inputs(alloc: Global, inputs: &mut Vec<Rows>, field: &str) -> Result<(), Unanswered> {
    for rows in field.split('\t') {
        push_input(alloc, inputs, rows)?;
    }
    Ok(())
}

fn put_pulled<O: Operator>(
    alloc: Global,
    told: &mut CaseAnswer,
    input: &mut O,
) -> Result<(), Unanswered> {
    let rows = collect(alloc, input)?;
    told.put_rows(rows.as_slice());
    Ok(())
}

fn merge(
    alloc: Global,
    inputs: Vec<Rows>,
    keys: &[Key<usize>],
    told: &mut CaseAnswer,
) -> Result<(), Unanswered> {
    let mut merge = MergeSort::new(alloc, inputs, keys)?;
    put_pulled(alloc, told, &mut merge)
}

/// What a merge of inputs gives.
pub(crate) fn merged(alloc: Global, case: &str, told: &mut CaseAnswer) -> Result<(), Unanswered> {
    let (order, field) = fields(case)?;
    let mut keys = Vec::new(alloc);
    push_keys(&mut keys, order)?;
    let mut inputs = Vec::new(alloc);
    match push_inputs(alloc, &mut inputs, field) {
        Ok(()) => merge(alloc, inputs, &keys, told),
        Err(why) => Err(why),
    }
}

fn push_ordinals(ordinals: &mut Items<usize>, field: &str) -> Result<(), Unanswered> {
    for part in field.split_whitespace() {
        ordinals.push(count(part)?)?;
    }
    Ok(())
}

fn input_of(alloc: Global, field: &str) -> Result<Rows, Unanswered> {
    let rows = rows_of(alloc, field)?;
    Ok(Rows::new(alloc, rows)?)
}

/// What a projection of rows gives.
pub(crate) fn projected(
    alloc: Global,
    case: &str,
    told: &mut CaseAnswer,
) -> Result<(), Unanswered> {
    let (columns, field) = fields(case)?;
    let input = input_of(alloc, field)?;
    let mut ordinals = Items::new(alloc);
    match push_ordinals(&mut ordinals, columns) {
        Ok(()) => put_pulled(alloc, told, &mut Project::new(input, ordinals)),
        Err(why) => Err(why),
    }
}
