//! Names and values as they are printed.
ghost use Rattle.std.specs.Prelude.{◌≡◌, ◌++◌, List, codes, flat_map, map, OnOk};
ghost use Rattle.sql_lexer.specs.Lexemes.{operator_text};
ghost use Rattle.sql_tree.specs.Printing.{name_text, quoted_byte, quoted, value_text, column_text, operand_text};

use crate::{ColumnName, Operand};
use itoa::Buffer;
use sql_lexer::{Comparison, Value, is_keyword};
use std::alloc::AllocError;

/// Puts a text as it is.
pub fn put(out: &mut Vec<u8>, text: &[u8]) -> Result<(), AllocError>
    ensures ok { OnOk result (out.new.items ≡ out.old.items ++ text.now) }
{
    out.extend_from_slice(text)?;
    Ok(())
}

/// Puts an identifier, in backquotes if it is a keyword.
#[tactic(auto, unfolding(crate::specs::Printing::name_text))]
pub fn put_name(out: &mut Vec<u8>, name: &[u8]) -> Result<(), AllocError>
    ensures ok { OnOk result (out.new.items ≡ out.old.items ++ name_text name.now) }
{
    if !is_keyword(name) {
        return put(out, name);
    }
    put(out, b"`")?;
    put(out, name)?;
    put(out, b"`")
}

fn put_escaped_byte(out: &mut Vec<u8>, byte: u8) -> Result<(), AllocError>
    ensures ok { OnOk result (out.new.items ≡ out.old.items ++ quoted_byte byte) }
{
    match byte {
        b'\'' => put(out, b"''"),
        b'\\' => put(out, b"\\\\"),
        _ => {
            out.push(byte)?;
            Ok(())
        }
    }
}

fn put_escaped(out: &mut Vec<u8>, bytes: &[u8]) -> Result<(), AllocError>
    ensures ok { OnOk result (out.new.items ≡ out.old.items ++ flat_map quoted_byte bytes.now) }
{
    for byte in bytes {
        put_escaped_byte(out, *byte)?;
    }
    Ok(())
}

/// Puts a text in single quotes.
pub fn put_quoted(out: &mut Vec<u8>, bytes: &[u8]) -> Result<(), AllocError>
    ensures ok { OnOk result (out.new.items ≡ out.old.items ++ quoted bytes.now) }
{
    put(out, b"'")?;
    put_escaped(out, bytes)?;
    put(out, b"'")
}

/// Puts a literal, with its sign right before its number.
pub fn put_value(out: &mut Vec<u8>, value: &Value) -> Result<(), AllocError>
    ensures ok { OnOk result (out.new.items ≡ out.old.items ++ value_text value.now) }
{
    match value {
        Value::Null => put(out, b"NULL"),
        Value::Int(n) => {
            let mut buffer = Buffer::new();
            put(out, buffer.format(*n).as_bytes())
        }
        Value::Bytes(bytes) => put_quoted(out, bytes.as_slice()),
    }
}

/// Puts a column, after its table and a dot if it is qualified.
pub fn put_column(out: &mut Vec<u8>, column: &ColumnName) -> Result<(), AllocError>
    ensures ok { OnOk result (out.new.items ≡ out.old.items ++ column_text column.now) }
{
    if let Some(table) = &column.table {
        put_name(out, table.as_slice())?;
        put(out, b".")?;
    }
    put_name(out, column.name.as_slice())
}

pub fn put_operand(out: &mut Vec<u8>, operand: &Operand<ColumnName>) -> Result<(), AllocError>
    ensures ok { OnOk result (out.new.items ≡ out.old.items ++ operand_text operand.now) }
{
    match operand {
        Operand::Column(column) => put_column(out, column),
        Operand::Literal(value) => put_value(out, value),
    }
}

pub fn put_operator(out: &mut Vec<u8>, operator: Comparison) -> Result<(), AllocError>
    ensures ok { OnOk result (out.new.items ≡ out.old.items ++ operator_text operator) }
{
    match operator {
        Comparison::Eq => put(out, b"="),
        Comparison::Ne => put(out, b"<>"),
        Comparison::Lt => put(out, b"<"),
        Comparison::Le => put(out, b"<="),
        Comparison::Gt => put(out, b">"),
        Comparison::Ge => put(out, b">="),
    }
}
