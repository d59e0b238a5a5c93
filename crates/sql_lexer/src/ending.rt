//! Where a text may end.
ghost use Rattle.std.specs.Prelude.{◌≡◌, ℕ, List};
ghost use Rattle.sql_lexer.specs.Lexemes.{lexemes_of};
ghost use Rattle.sql_lexer.specs.Endings.{is_end};

use crate::token::{Sign, Token, TokenKind};

/// Whether nothing is left but one semicolon at most.
pub fn is_end(tokens: &[Token]) -> bool
    ensures { (text : List ℕ) → result ≡ is_end (lexemes_of text tokens.now) }
{
    match tokens {
        [] => true,
        [
            Token {
                kind: TokenKind::Sign(Sign::Semicolon),
                ..
            },
        ] => true,
        _ => false,
    }
}
