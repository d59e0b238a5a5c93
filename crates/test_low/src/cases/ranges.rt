//! Key ranges.
use keyrange::{KeyRange, covers_once};
use std::alloc::Global;
use test_fields::{CaseAnswer, Unanswered, bytes_of, fields};
use vtgate_lines::read_ranges;

/// Begin and end of the range of a name.
pub(crate) fn range_named(case: &str, told: &mut CaseAnswer) -> Result<(), Unanswered> {
    match KeyRange::read(case) {
        Some(range) => put_edges(told, &range),
        None => told.put("none"),
    }
    Ok(())
}

fn put_edges(told: &mut CaseAnswer, range: &KeyRange) {
    if range.begin.as_slice().is_empty() {
        told.put(".");
    }
    told.show(&range.begin);
    told.put(" ");
    match &range.end {
        Some(end) => told.show(end),
        None => told.put("."),
    }
}

fn push_named(ranges: &mut Vec<KeyRange>, name: &str) -> Result<(), Unanswered> {
    match KeyRange::read(name) {
        // by its edges: the check can't follow a whole range of another crate here
        Some(KeyRange { begin, end }) => Ok(ranges.push(KeyRange { begin, end })?),
        None => Err(Unanswered::BadLine),
    }
}

// No name stands for no range.
fn push_ranges(ranges: &mut Vec<KeyRange>, case: &str) -> Result<(), Unanswered> {
    if case.is_empty() {
        return Ok(());
    }
    for name in case.split(',') {
        push_named(ranges, name)?;
    }
    Ok(())
}

fn overlaps_some(range: &KeyRange, others: &[KeyRange]) -> bool {
    for other in others {
        if range.overlaps(other) {
            return true;
        }
    }
    false
}

fn some_overlap(ranges: &[KeyRange]) -> bool {
    let mut before = ranges;
    for _ in ranges {
        let Some((last, others)) = before.split_last() else {
            return false;
        };
        if overlaps_some(last, others) {
            return true;
        }
        before = others;
    }
    false
}

/// Whether each id lies in just one of the ranges, and whether some two overlap.
pub(crate) fn covers(alloc: Global, case: &str, told: &mut CaseAnswer) -> Result<(), Unanswered> {
    let mut ranges = Vec::new(alloc);
    let done = push_ranges(&mut ranges, case);
    told.put_truth(covers_once(&ranges));
    told.put(" ");
    told.put_truth(some_overlap(&ranges));
    done
}

/// Whether an id lies in a range.
pub(crate) fn contains(alloc: Global, case: &str, told: &mut CaseAnswer) -> Result<(), Unanswered> {
    let (name, digits) = fields(case)?;
    let id = bytes_of(alloc, digits)?;
    match KeyRange::read(name) {
        Some(range) => told.put_truth(range.contains(&id)),
        None => told.put("none"),
    }
    Ok(())
}

/// The ranges that a word names.
pub(crate) fn partition(
    alloc: Global,
    case: &str,
    told: &mut CaseAnswer,
) -> Result<(), Unanswered> {
    match read_ranges(alloc, case)? {
        Some(ranges) => put_names(told, &ranges),
        None => told.put("none"),
    }
    Ok(())
}

fn put_names(told: &mut CaseAnswer, ranges: &[KeyRange]) {
    for (i, range) in ranges.iter().enumerate() {
        told.put(if i == 0 { "" } else { "," });
        told.show(range);
    }
}
