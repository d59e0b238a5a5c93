//! What the body of a text token says.
ghost use Rattle.std.specs.Prelude.{◌≡◌, ◌++◌, ◌<◌, [], length, IfOk, OnOk};
ghost use Rattle.sql_lexer.specs.Lexemes.{escaped, unescaped};

use std::alloc::{AllocError, Global};
use vt_value::Items;

/// Puts what a backslash and this byte say.
fn push_escaped(said: &mut Vec<u8>, byte: u8) -> Result<(), AllocError>
    ensures ok { OnOk result (said.new.items ≡ said.old.items ++ escaped byte) }
{
    match byte {
        b'0' => said.push(0)?,
        b'b' => said.push(0x08)?,
        b't' => said.push(b'\t')?,
        b'n' => said.push(b'\n')?,
        b'r' => said.push(b'\r')?,
        b'Z' => said.push(0x1A)?,
        b'%' | b'_' => {
            said.push(b'\\')?;
            said.push(byte)?;
        }
        _ => said.push(byte)?,
    }
    Ok(())
}

/// Puts what the first part of a body says, and gives what comes after it.
fn push_part<'s>(said: &mut Vec<u8>, body: &'s [u8]) -> Result<&'s [u8], AllocError>
    ensures same { IfOk result (λ rest. said.new.items ++ unescaped rest.now ≡ said.old.items ++ unescaped body.now) }
    ensures shorter { IfOk result (λ rest. 0 < length body.now → length rest.now < length body.now) }
{
    match body {
        [] => Ok(body),
        [b'\'', _, rest @ ..] => {
            said.push(b'\'')?;
            Ok(rest)
        }
        [b'\\', byte, rest @ ..] => {
            push_escaped(said, *byte)?;
            Ok(rest)
        }
        [byte, rest @ ..] => {
            said.push(*byte)?;
            Ok(rest)
        }
    }
}

/// What the bytes between a text's quotes say: a pair of quotes is one, and a backslash escapes the byte after it.
pub fn unescaped(alloc: Global, body: &[u8]) -> Result<Items<u8>, AllocError>
    ensures ok { IfOk result (λ said. said ≡ unescaped body.now) }
{
    let mut said = Vec::new(alloc);
    let mut rest = body;
    while !rest.is_empty() {
        rest = push_part(&mut said, rest)?;
    }
    Ok(Items::from_vec(said))
}
