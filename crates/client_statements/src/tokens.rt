//! What a client says to a server as tokens, with comments between them as blanks.

mod blank;
mod body;
mod byte;
mod keyword;
mod lexing;
mod saying;
mod token;

pub(crate) use byte::is_letter;
pub use keyword::same_in_any_case;
pub use lexing::{lex, one_lexing};
pub use saying::{bytes_of, said};
pub use token::{Keyword, Sign, Token, TokenKind};
