//! Texts of SQL statements as tokens.
#![tactic(auto)]

mod body;
mod byte;
mod ending;
mod few;
mod keyword;
mod lexing;
mod token;

pub use ending::is_end;
pub use few::lex_few;
pub use keyword::is_keyword;
pub use lexing::{lex, longest, one_lexing};
pub use token::{Keyword, Sign, Token, TokenKind};
pub use vt_value::{Boxed, Comparison, Items, Value};
