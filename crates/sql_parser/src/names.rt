//! Names, columns, numbers, and what comes between the items of a list.
ghost use Rattle.std.specs.Prelude.{◌≡◌, ℕ, List, option_map};
ghost use Rattle.std.specs.Option.{option_copied};
ghost use Rattle.sql_lexer.specs.Lexemes.{lexemes_of};
ghost use Rattle.sql_lexer.specs.inner.Results.{AgreesWith};
ghost use Rattle.sql_parser.specs.inner.Reading.{is_comma, after_at, listed_at, name_at, after_name_at, column_at};
ghost use Rattle.sql_parser.specs.inner.Reading.{number_at};

use crate::kinds::{COMMA, DOT};
use crate::said;
use sql_lexer::Token;
use sql_tree::{ColumnName, Name};
use std::alloc::Global;
use vt_value::{Items, Refusal};

/// What comes after a comma, if one is here.
pub fn after_comma(tokens: &[Token]) -> Option<&[Token]>
    ensures { (text : List ℕ)
        → option_map (lexemes_of text) (option_copied result) ≡ after_at is_comma (lexemes_of text tokens.now) }
{
    match tokens {
        [Token { kind: COMMA, .. }, rest @ ..] => Some(rest),
        _ => None,
    }
}

/// name = identifier
#[tactic(auto, unfolding(crate::specs::inner::Reading::name_at))]
pub fn name<'s>(
    alloc: Global,
    text: &[u8],
    tokens: &'s [Token],
) -> Result<(Name, &'s [Token]), Refusal>
    ensures { AgreesWith (λ x. (x.0, lexemes_of text.now x.1.now)) result (name_at (lexemes_of text.now tokens.now)) }
{
    let [first, rest @ ..] = tokens else {
        return Err(Refusal::SyntaxError);
    };
    let Some(bytes) = said::identifier(text, first) else {
        return Err(Refusal::SyntaxError);
    };
    Ok((Items::from_slice(alloc, bytes)?, rest))
}

/// The column that begins with a name: that name, or the one after a dot.
#[tactic(auto, unfolding(crate::specs::inner::Reading::after_name_at))]
pub fn rest_of_name<'s>(
    alloc: Global,
    text: &[u8],
    first: Name,
    tokens: &'s [Token],
) -> Result<(ColumnName, &'s [Token]), Refusal>
    ensures { AgreesWith (λ x. (x.0, lexemes_of text.now x.1.now)) result (after_name_at first (lexemes_of text.now tokens.now)) }
{
    match tokens {
        [Token { kind: DOT, .. }, rest @ ..] => {
            let (name, rest) = name(alloc, text, rest)?;
            let table = Some(first);
            Ok((ColumnName { table, name }, rest))
        }
        _ => {
            let column = ColumnName {
                table: None,
                name: first,
            };
            Ok((column, tokens))
        }
    }
}

/// column = identifier | identifier . identifier
#[tactic(auto, unfolding(crate::specs::inner::Reading::column_at))]
pub fn column<'s>(
    alloc: Global,
    text: &[u8],
    tokens: &'s [Token],
) -> Result<(ColumnName, &'s [Token]), Refusal>
    ensures { AgreesWith (λ x. (x.0, lexemes_of text.now x.1.now)) result (column_at (lexemes_of text.now tokens.now)) }
{
    let (first, rest) = name(alloc, text, tokens)?;
    rest_of_name(alloc, text, first, rest)
}

/// column,..
pub fn columns<'s>(
    alloc: Global,
    text: &[u8],
    tokens: &'s [Token],
) -> Result<(Items<ColumnName>, &'s [Token]), Refusal>
    ensures { AgreesWith (λ x. (x.0, lexemes_of text.now x.1.now)) result
        (listed_at column_at (lexemes_of text.now tokens.now)) }
{
    let (first, mut rest) = column(alloc, text, tokens)?;
    let mut columns = Items::new(alloc);
    columns.push(first)?;
    while let Some(after) = after_comma(rest) {
        let (next, after) = column(alloc, text, after)?;
        columns.push(next)?;
        rest = after;
    }
    Ok((columns, rest))
}

/// A number that 64 bits hold.
#[tactic(auto, unfolding(crate::specs::inner::Reading::number_at))]
pub fn number<'s>(text: &[u8], tokens: &'s [Token]) -> Result<(u64, &'s [Token]), Refusal>
    ensures { AgreesWith (λ x. (x.0, lexemes_of text.now x.1.now)) result (number_at (lexemes_of text.now tokens.now)) }
{
    let [first, rest @ ..] = tokens else {
        return Err(Refusal::SyntaxError);
    };
    let Some(value) = said::number(text, first) else {
        return Err(Refusal::SyntaxError);
    };
    Ok((value, rest))
}

/// name,..
pub fn names<'s>(
    alloc: Global,
    text: &[u8],
    tokens: &'s [Token],
) -> Result<(Items<Name>, &'s [Token]), Refusal>
    ensures { AgreesWith (λ x. (x.0, lexemes_of text.now x.1.now)) result
        (listed_at name_at (lexemes_of text.now tokens.now)) }
{
    let (first, mut rest) = name(alloc, text, tokens)?;
    let mut names = Items::new(alloc);
    names.push(first)?;
    while let Some(after) = after_comma(rest) {
        let (next, after) = name(alloc, text, after)?;
        names.push(next)?;
        rest = after;
    }
    Ok((names, rest))
}
