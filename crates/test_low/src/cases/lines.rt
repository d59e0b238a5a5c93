//! Lines of a script, and of results.
use crate::cases::values::refusal_of;
use std::alloc::Global;
use test_fields::{CaseAnswer, Unanswered, number, rows_of, text_of};
use vtgate_lines::{Line, count_line, next_line, put_rows, read_line, refusal_line};

fn put_lines(told: &mut CaseAnswer, input: &[u8]) {
    let mut rest = input;
    for _ in input {
        let Some((line, others)) = next_line(rest) else {
            return;
        };
        told.put("[");
        told.put_text(line);
        told.put("]");
        rest = others;
    }
}

/// The lines of an input.
pub(crate) fn split(alloc: Global, case: &str, told: &mut CaseAnswer) -> Result<(), Unanswered> {
    put_lines(told, &text_of(alloc, case)?);
    Ok(())
}

fn put_line(told: &mut CaseAnswer, line: Line) {
    match line {
        Line::Statement(name, sql) => {
            told.put("statement [");
            told.put_text(name);
            told.put("] [");
            told.put_text(sql);
            told.put("]");
        }
        Line::Admin(words) => {
            told.put("admin [");
            told.put_text(words);
            told.put("]");
        }
        Line::Unknown => told.put("neither"),
    }
}

/// What a line says.
pub(crate) fn said(alloc: Global, case: &str, told: &mut CaseAnswer) -> Result<(), Unanswered> {
    let line = text_of(alloc, case)?;
    put_line(told, read_line(&line));
    Ok(())
}

/// The printed form of rows.
pub(crate) fn rows(alloc: Global, case: &str, told: &mut CaseAnswer) -> Result<(), Unanswered> {
    let rows = rows_of(alloc, case)?;
    let mut out = Vec::new(alloc);
    let done = put_rows(&mut out, rows.as_slice());
    drop(rows);
    told.put_text(&out);
    drop(out);
    Ok(done?)
}

/// The printed form of a count.
pub(crate) fn count(case: &str, told: &mut CaseAnswer) -> Result<(), Unanswered> {
    told.put_text(without_end(count_line(number(case)?).as_slice()));
    Ok(())
}

/// The printed form of a refusal.
pub(crate) fn error(case: &str, told: &mut CaseAnswer) -> Result<(), Unanswered> {
    told.put_text(without_end(refusal_line(refusal_of(case)?).as_slice()));
    Ok(())
}

/// A line without its end.
pub(crate) fn without_end(line: &[u8]) -> &[u8] {
    line.strip_suffix(b"\n").unwrap_or(line)
}
