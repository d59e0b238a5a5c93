//! Operands at the front of tokens, as they are spelled.
ghost use Rattle.std.specs.Prelude.{◌≡◌, ◌<◌, [], ◌∷◌, ◌++◌, IfOk, length};
ghost use Rattle.sql_lexer.specs.inner.Results.{AgreesWith};
ghost use Rattle.client_statements.specs.tokens.Pieces.{lexeme_of, lexemes_of, mark};
ghost use Rattle.client_statements.specs.declared.tokens.token.Sign.TheVariants.{Dot};
ghost use Rattle.client_words.specs.Spelling.{spelled};
ghost use Rattle.client_words.specs.Forms.{after_dot, operand_at};

use crate::kinds::{DOT, MINUS};
use crate::spelling::put_word;
use client_statements::tokens::{Token, TokenKind};
use std::alloc::{AllocError, Global};
use vt_value::{Items, Refusal};

/// What is written, and the tokens after what was read.
pub type Written<'s> = (Items<u8>, &'s [Token]);

/// One token.
pub fn one(alloc: Global, text: &[u8], first: &Token) -> Result<Items<u8>, AllocError>
    ensures { IfOk result (λ written. written ≡ spelled (lexeme_of text.now first.now ∷ [])) }
{
    let mut out = Vec::new(alloc);
    put_word(alloc, &mut out, text, first)?;
    Ok(Items::from_vec(out))
}

/// Two tokens.
fn two(alloc: Global, text: &[u8], first: &Token, second: &Token) -> Result<Items<u8>, AllocError>
    ensures { IfOk result (λ written. written ≡ spelled (lexeme_of text.now first.now ∷ lexeme_of text.now second.now ∷ [])) }
{
    let mut out = Vec::new(alloc);
    put_word(alloc, &mut out, text, first)?;
    put_word(alloc, &mut out, text, second)?;
    Ok(Items::from_vec(out))
}

/// Three tokens.
fn three(
    alloc: Global,
    text: &[u8],
    first: &Token,
    second: &Token,
    third: &Token,
) -> Result<Items<u8>, AllocError>
    ensures { IfOk result (λ written. written ≡ spelled (lexeme_of text.now first.now ∷ lexeme_of text.now second.now ∷ lexeme_of text.now third.now ∷ [])) }
{
    let mut out = Vec::new(alloc);
    put_word(alloc, &mut out, text, first)?;
    put_word(alloc, &mut out, text, second)?;
    put_word(alloc, &mut out, text, third)?;
    Ok(Items::from_vec(out))
}

/// A column after its table and a dot.
#[tactic(auto, unfolding(crate::specs::Forms::after_dot))]
fn after_dot<'s>(
    alloc: Global,
    text: &[u8],
    table: &Token,
    dot: &Token,
    tokens: &'s [Token],
) -> Result<Written<'s>, Refusal>
    requires dot { lexeme_of text.now dot.now ≡ mark Dot }
    ensures written { AgreesWith (λ x. (x.0, lexemes_of text.now x.1.now)) result (after_dot (lexeme_of text.now table.now) (lexemes_of text.now tokens.now)) }
    ensures shorter { IfOk result (λ x. length x.1.now < length tokens.now) }
{
    match tokens {
        [column, rest @ ..] => match column.kind {
            TokenKind::Word(_) | TokenKind::Name => {
                Ok((three(alloc, text, table, dot, column)?, rest))
            }
            _ => Err(Refusal::SyntaxError),
        },
        [] => Err(Refusal::SyntaxError),
    }
}

/// A column or a literal.
#[tactic(auto, unfolding(crate::specs::Forms::operand_at))]
pub fn operand<'s>(alloc: Global, text: &[u8], tokens: &'s [Token]) -> Result<Written<'s>, Refusal>
    ensures written { AgreesWith (λ x. (x.0, lexemes_of text.now x.1.now)) result (operand_at (lexemes_of text.now tokens.now)) }
    ensures shorter { IfOk result (λ x. length x.1.now < length tokens.now) }
{
    match tokens {
        [
            table @ Token {
                kind: TokenKind::Word(_) | TokenKind::Name,
                ..
            },
            dot @ Token { kind: DOT, .. },
            rest @ ..,
        ] => after_dot(alloc, text, table, dot, rest),
        [
            minus @ Token { kind: MINUS, .. },
            number @ Token {
                kind: TokenKind::Number,
                ..
            },
            rest @ ..,
        ] => Ok((two(alloc, text, minus, number)?, rest)),
        [
            first @ Token {
                kind: TokenKind::Word(_) | TokenKind::Name | TokenKind::Number | TokenKind::Text,
                ..
            },
            rest @ ..,
        ] => Ok((one(alloc, text, first)?, rest)),
        _ => Err(Refusal::SyntaxError),
    }
}
