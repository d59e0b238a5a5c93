//! INSERT, UPDATE and DELETE, after their first words and to the end of the text.
ghost use Rattle.std.specs.Prelude.{◌≡◌, ℕ, List};
ghost use Rattle.sql_lexer.specs.Lexemes.{lexemes_of};
ghost use Rattle.sql_lexer.specs.inner.Results.{AgreesWith};
ghost use Rattle.sql_parser.specs.inner.Reading.{listed_at, bracketed_at, name_at, members_at, columns_at, values_at};
ghost use Rattle.sql_parser.specs.inner.Reading.{set_at, equals_at, assignment_at, insert_text_at, update_text_at, delete_text_at};

use crate::clauses::{filter, from};
use crate::endings::{ends_change, ends_insert};
use crate::kinds::{EQUAL, OPEN, SET, VALUES};
use crate::literals::{closed, literal, members, open};
use crate::names::{after_comma, name, names};
use sql_lexer::Token;
use sql_tree::{Assignment, Delete, Insert, Name, Statement, Update};
use std::alloc::Global;
use vt_value::{Items, Refusal, Value};

/// What comes after VALUES.
#[tactic(auto, unfolding(crate::specs::inner::Reading::values_at))]
fn values(tokens: &[Token]) -> Result<&[Token], Refusal>
    ensures { (text : List ℕ)
        → AgreesWith (λ rest. lexemes_of text rest.now) result (values_at (lexemes_of text tokens.now)) }
{
    match tokens {
        [Token { kind: VALUES, .. }, rest @ ..] => Ok(rest),
        _ => Err(Refusal::SyntaxError),
    }
}

/// What comes after SET.
#[tactic(auto, unfolding(crate::specs::inner::Reading::set_at))]
fn set(tokens: &[Token]) -> Result<&[Token], Refusal>
    ensures { (text : List ℕ)
        → AgreesWith (λ rest. lexemes_of text rest.now) result (set_at (lexemes_of text tokens.now)) }
{
    match tokens {
        [Token { kind: SET, .. }, rest @ ..] => Ok(rest),
        _ => Err(Refusal::SyntaxError),
    }
}

/// What comes after `=`.
#[tactic(auto, unfolding(crate::specs::inner::Reading::equals_at))]
pub fn equals(tokens: &[Token]) -> Result<&[Token], Refusal>
    ensures { (text : List ℕ)
        → AgreesWith (λ rest. lexemes_of text rest.now) result (equals_at (lexemes_of text tokens.now)) }
{
    match tokens {
        [Token { kind: EQUAL, .. }, rest @ ..] => Ok(rest),
        _ => Err(Refusal::SyntaxError),
    }
}

/// (name,..)
#[tactic(auto, unfolding(crate::specs::inner::Reading::bracketed_at))]
fn bracketed_names<'s>(
    alloc: Global,
    text: &[u8],
    tokens: &'s [Token],
) -> Result<(Items<Name>, &'s [Token]), Refusal>
    ensures { AgreesWith (λ x. (x.0, lexemes_of text.now x.1.now)) result
        (bracketed_at name_at (lexemes_of text.now tokens.now)) }
{
    let rest = open(tokens)?;
    let (names, rest) = names(alloc, text, rest)?;
    closed(names, rest)
}

/// [(name,..)]
#[tactic(auto, unfolding(crate::specs::inner::Reading::columns_at))]
fn columns<'s>(
    alloc: Global,
    text: &[u8],
    tokens: &'s [Token],
) -> Result<(Option<Items<Name>>, &'s [Token]), Refusal>
    ensures { AgreesWith (λ x. (x.0, lexemes_of text.now x.1.now)) result (columns_at (lexemes_of text.now tokens.now)) }
{
    match tokens {
        [Token { kind: OPEN, .. }, ..] => {
            let (names, rest) = bracketed_names(alloc, text, tokens)?;
            Ok((Some(names), rest))
        }
        _ => Ok((None, tokens)),
    }
}

/// (literal,..),..
fn rows<'s>(
    alloc: Global,
    text: &[u8],
    tokens: &'s [Token],
) -> Result<(Items<Items<Value>>, &'s [Token]), Refusal>
    ensures { AgreesWith (λ x. (x.0, lexemes_of text.now x.1.now)) result
        (listed_at members_at (lexemes_of text.now tokens.now)) }
{
    let (first, mut rest) = members(alloc, text, tokens)?;
    let mut rows = Items::new(alloc);
    rows.push(first)?;
    while let Some(after) = after_comma(rest) {
        let (next, after) = members(alloc, text, after)?;
        rows.push(next)?;
        rest = after;
    }
    Ok((rows, rest))
}

/// name [(name,..)] VALUES (literal,..),.. to the end of the text, after INSERT INTO.
#[tactic(auto, unfolding(crate::specs::inner::Reading::insert_at))]
pub fn insert(alloc: Global, text: &[u8], tokens: &[Token]) -> Result<Statement, Refusal>
    ensures { AgreesWith (λ x. x) result (insert_text_at (lexemes_of text.now tokens.now)) }
{
    let (table, rest) = name(alloc, text, tokens)?;
    let (columns, rest) = columns(alloc, text, rest)?;
    let rest = values(rest)?;
    let (rows, rest) = rows(alloc, text, rest)?;
    if !ends_insert(rows.as_slice(), rest) {
        return Err(Refusal::SyntaxError);
    }
    Ok(Statement::Insert(Insert {
        table,
        columns,
        rows,
    }))
}

/// name = literal
#[tactic(auto, unfolding(crate::specs::inner::Reading::assignment_at))]
fn assignment<'s>(
    alloc: Global,
    text: &[u8],
    tokens: &'s [Token],
) -> Result<(Assignment<Name>, &'s [Token]), Refusal>
    ensures { AgreesWith (λ x. (x.0, lexemes_of text.now x.1.now)) result (assignment_at (lexemes_of text.now tokens.now)) }
{
    let (column, rest) = name(alloc, text, tokens)?;
    let rest = equals(rest)?;
    let (value, rest) = literal(alloc, text, rest)?;
    Ok((Assignment { column, value }, rest))
}

/// name = literal,..
fn assignments<'s>(
    alloc: Global,
    text: &[u8],
    tokens: &'s [Token],
) -> Result<(Items<Assignment<Name>>, &'s [Token]), Refusal>
    ensures { AgreesWith (λ x. (x.0, lexemes_of text.now x.1.now)) result
        (listed_at assignment_at (lexemes_of text.now tokens.now)) }
{
    let (first, mut rest) = assignment(alloc, text, tokens)?;
    let mut assignments = Items::new(alloc);
    assignments.push(first)?;
    while let Some(after) = after_comma(rest) {
        let (next, after) = assignment(alloc, text, after)?;
        assignments.push(next)?;
        rest = after;
    }
    Ok((assignments, rest))
}

/// name SET name = literal,.. [WHERE or] to the end of the text, after UPDATE.
#[tactic(auto, unfolding(crate::specs::inner::Reading::update_at))]
pub fn update(alloc: Global, text: &[u8], tokens: &[Token]) -> Result<Statement, Refusal>
    ensures { AgreesWith (λ x. x) result (update_text_at (lexemes_of text.now tokens.now)) }
{
    let (table, rest) = name(alloc, text, tokens)?;
    let rest = set(rest)?;
    let (assignments, rest) = assignments(alloc, text, rest)?;
    let (filter, rest) = filter(alloc, text, rest)?;
    if !ends_change(assignments.len(), &filter, rest) {
        return Err(Refusal::SyntaxError);
    }
    Ok(Statement::Update(Update {
        table,
        assignments,
        filter,
    }))
}

/// FROM name [WHERE or] to the end of the text, after DELETE.
#[tactic(auto, unfolding(crate::specs::inner::Reading::delete_at))]
pub fn delete(alloc: Global, text: &[u8], tokens: &[Token]) -> Result<Statement, Refusal>
    ensures { AgreesWith (λ x. x) result (delete_text_at (lexemes_of text.now tokens.now)) }
{
    let (table, rest) = from(alloc, text, tokens)?;
    let (filter, rest) = filter(alloc, text, rest)?;
    if !ends_change(0, &filter, rest) {
        return Err(Refusal::SyntaxError);
    }
    Ok(Statement::Delete(Delete { table, filter }))
}
