//! Fills the holes of a text.
ghost use Rattle.std.specs.Prelude.{◌≡◌, [], ◌∷◌, ◌++◌, None, IfOk, IfSome, OnOk};
ghost use Rattle.sql_tree.specs.Printing.{value_text};
ghost use Rattle.prepared_statements.specs.Texts.{filled};

use crate::literals::put_value;
use std::alloc::{AllocError, Global};
use vt_value::{Items, Value};

/// The first of some pieces, and the others.
pub(crate) fn first_piece(pieces: &[Items<u8>]) -> Option<(&[u8], &[Items<u8>])>
    ensures some { IfSome result (λ x. pieces.now ≡ x.0.now ∷ x.1.now) }
    ensures none { result ≡ None → pieces.now ≡ [] }
{
    match pieces {
        [first, more @ ..] => Some((first.as_slice(), more)),
        [] => None,
    }
}

/// The first of some values, and the others.
fn first_value(values: &[Value]) -> Option<(&Value, &[Value])>
    ensures some { IfSome result (λ x. values.now ≡ x.0.now ∷ x.1.now) }
    ensures none { result ≡ None → values.now ≡ [] }
{
    match values {
        [first, more @ ..] => Some((first, more)),
        [] => None,
    }
}

/// Puts a literal with a blank before and after it.
fn put_spaced(out: &mut Vec<u8>, value: &Value) -> Result<(), AllocError>
    ensures ok { OnOk result (out.new.items ≡ out.old.items ++ 0x20 ∷ (value_text value.now ++ 0x20 ∷ [])) }
{
    out.push(b' ')?;
    put_value(out, value)?;
    out.push(b' ')?;
    Ok(())
}

/// The text in which each hole has the literal of its value. Of a value that isn't there, nothing after its hole is put.
pub fn filled(alloc: Global, pieces: &[Items<u8>], values: &[Value]) -> Result<Vec<u8>, AllocError>
    ensures ok { IfOk result (λ text. text.items ≡ filled pieces.now values.now) }
{
    let mut out = Vec::new(alloc);
    let mut left = pieces;
    let mut rest = values;
    while let Some((piece, more)) = first_piece(left) {
        out.extend_from_slice(piece)?;
        let Some((value, others)) = first_value(rest) else {
            return Ok(out);
        };
        put_spaced(&mut out, value)?;
        left = more;
        rest = others;
    }
    Ok(out)
}
