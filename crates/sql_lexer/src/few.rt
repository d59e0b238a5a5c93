//! The tokens of a text that has few, which take no memory of their own.
ghost use Rattle.std.specs.Prelude.{◌≡◌, ◌≤◌, ◌<◌, List, Some, None, IfSome, length, take};
ghost use Rattle.sql_lexer.specs.declared.token.Token.{Token};
ghost use Rattle.sql_lexer.specs.Tokens.{Lexes};
ghost use Rattle.sql_lexer.specs.inner.Scanning.{lex_at};

use crate::byte::begins_blank;
use crate::lexing::{rest_from, token};
use crate::token::Token;

fn few_tokens(text: &[u8], room: &mut [Token]) -> Option<usize>
    ensures within { IfSome result (λ n. n ≤ length room.new) }
    ensures read { IfSome result (λ n. lex_at (length text.now) 0 text.now ≡ Some (take n room.new)) }
    ensures none { result ≡ None → (tokens : List Token) → lex_at (length text.now) 0 text.now ≡ Some tokens → length room.old < length tokens }
{
    let mut count = 0;
    let mut at = 0;
    while at < text.len() {
        let rest = rest_from(text, at);
        if begins_blank(rest) {
            at += 1;
        } else {
            let Some((kind, length)) = token(rest) else {
                return None;
            };
            if count >= room.len() {
                return None;
            }
            let end = at + length;
            room[count] = Token {
                kind,
                start: at,
                end,
            };
            count += 1;
            at = end;
        }
    }
    Some(count)
}

// Promise: The tokens of a text are put where there is room for them, exactly if it has no more
/// The tokens of a text at the front of the room for them, and how many they are, if they are no more than there is room for. What
/// `lex` refuses is `None` as well.
pub fn lex_few(text: &[u8], room: &mut [Token]) -> Option<usize>
    // What is given are the text's tokens.
    ensures within { IfSome result (λ n. n ≤ length room.new) }
    ensures found { IfSome result (λ n. Lexes text.now (take n room.new)) }
    // A text that has so few tokens is read.
    ensures only { (tokens : List Token) → Lexes text.now tokens → length tokens ≤ length room.old → result ≡ Some (length tokens) }
{
    few_tokens(text, room)
}
