//! Rows of texts, and the names of their columns.
ghost use Rattle.std.specs.Prelude.{◌≡◌, ◌∷◌, ◌++◌, [], map, codes, option_map, IfOk, OnOk};
ghost use Rattle.client_statements.specs.Answers.{cell, fits_pattern, headed};

use crate::likes::Pattern;
use sql_tree::Name;
use std::alloc::{AllocError, Global};
use vt_value::{Items, Row, Value};

/// A text, or NULL.
pub fn cell(alloc: Global, text: Option<&[u8]>) -> Result<Value, AllocError>
    ensures { IfOk result (λ v. v ≡ cell (option_map (λ t. t.now) text.entry)) }
{
    match text {
        Some(bytes) => Ok(Value::Bytes(Items::from_slice(alloc, bytes)?)),
        None => Ok(Value::Null),
    }
}

/// The row of these texts.
pub fn texts(alloc: Global, cells: &[Option<&[u8]>]) -> Result<Row, AllocError>
    ensures { IfOk result (λ row. row ≡ map (λ text. cell (option_map (λ t. t.now) text)) cells.now) }
{
    let mut row = Items::new(alloc);
    for text in cells {
        row.push(cell(alloc, *text)?)?;
    }
    Ok(row)
}

/// Adds a text to names.
pub fn push_text(alloc: Global, names: &mut Items<Name>, text: &[u8]) -> Result<(), AllocError>
    ensures { OnOk result (names.new ≡ names.old ++ text.now ∷ []) }
{
    names.push(Items::from_slice(alloc, text)?)?;
    Ok(())
}

/// The names of columns.
pub fn heads(alloc: Global, names: &[&str]) -> Result<Items<Name>, AllocError>
    ensures { IfOk result (λ heads. heads ≡ map (λ n. n.now) names.now) }
{
    let mut heads = Items::new(alloc);
    for name in names {
        push_text(alloc, &mut heads, name.as_bytes())?;
    }
    Ok(heads)
}

fn in_brackets(alloc: Global, head: &[u8], pattern: &[u8]) -> Result<Vec<u8>, AllocError>
    ensures { IfOk result (λ v. v.items ≡ head.now ++ codes " (" ++ pattern.now) }
{
    let mut name = Vec::from_slice(alloc, head)?;
    name.extend_from_slice(b" (")?;
    name.extend_from_slice(pattern)?;
    Ok(name)
}

/// The pattern of LIKE, if there is one, read.
pub fn pattern(alloc: Global, like: &Option<Name>) -> Result<Option<Pattern>, AllocError>
    ensures { IfOk result (λ p. p ≡ like.now) }
{
    match like {
        Some(text) => Ok(Some(Pattern::new(alloc, text.as_slice())?)),
        None => Ok(None),
    }
}

/// A column's name, and the pattern after it, if there is one.
pub fn headed(alloc: Global, head: &[u8], like: &Option<Pattern>) -> Result<Name, AllocError>
    ensures { IfOk result (λ n. n ≡ headed head.now like.now) }
{
    match like {
        Some(pattern) => {
            let mut name = in_brackets(alloc, head, pattern.as_slice())?;
            name.push(b')')?;
            Ok(Items::from_vec(name))
        }
        None => Items::from_slice(alloc, head),
    }
}

/// Whether a name fits the pattern, if there is one.
pub fn fits_pattern(alloc: Global, like: &Option<Pattern>, name: &[u8]) -> Result<bool, AllocError>
    ensures { IfOk result (λ b. b ≡ fits_pattern like.now name.now) }
{
    match like {
        Some(pattern) => pattern.fits(alloc, name),
        None => Ok(true),
    }
}
