//! What a run of the program needs, of `vtgate_clients`.

pub use vtgate_clients::setup::{FAILED, FAILURE, Hashing, SUCCESS, ServeArgs, WRONG_WORDS, Word};
