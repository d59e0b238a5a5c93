//! What a run of the program needs: its whole input, the words of `vtgate serve`, the ranges of its words and the VSchema that its input
//! declares; and why a run has failed, with its status.

mod input;
mod run_fault;
mod serve_args;
mod setup;
mod word;

pub use input::read_all;
pub use run_fault::{
    CANNOT_BIND, FAILED, FAILURE, OUT_OF_MEMORY, RunFault, SUCCESS, USAGE, WRONG_WORDS, refuse,
    refuse_plainly,
};
pub use serve_args::{ServeArgs, read_words};
pub use setup::{has_too_many, ranges_of, read_schema, read_schema_or_text, schema_of};
pub use vschema::Hashing;
pub use word::Word;
