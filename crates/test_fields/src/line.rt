//! The line of an answer.
use crate::case_answer::CaseAnswer;
use crate::reading::Unanswered;
use std::io;
use vt_value::Refusal;

/// Prints the line that answers a case: its answer, or why there is none.
pub fn print_answer<R: Print>(
    rt: &R,
    answered: Result<(), Unanswered>,
    told: &CaseAnswer,
) -> io::Result<()> {
    match answered {
        Ok(()) if told.has_failed => println!(rt; "refused 1"),
        Ok(()) => println!(rt; "{}", told.text),
        Err(Unanswered::BadLine) => println!(rt; "unknown"),
        Err(Unanswered::Refused(Refusal::SyntaxError)) => println!(rt; "refused"),
        Err(Unanswered::Refused(refusal)) => println!(rt; "refused {}", refusal.number()),
    }
}
