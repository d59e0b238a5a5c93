//! The fields of a case, which a program reads from a line, and the answer that it writes.
#![tactic(auto)]

mod case_answer;
mod line;
mod reading;

pub use case_answer::CaseAnswer;
pub use line::print_answer;
pub use reading::{
    Unanswered, bytes_of, count, fields, number, row_of, rows_of, salt_of, small_number, stage2_of,
    text_of, value_of,
};
