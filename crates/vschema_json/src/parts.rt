//! Reads the parts of a document from JSON: names, column types, tables, vindexes and keyspaces.
ghost use Rattle.std.specs.Prelude.{◌≡◌, ◌+◌, ◌-◌, ◌*◌, ◌<◌, true, Some, None, IfOk, IfErr, IfSome, IfNone, option_and_then};
ghost use Rattle.std.specs.List.{list_all};
ghost use Rattle.serde_json.specs.Find.{as_str};
ghost use Rattle.serde_json.specs.View.{view};
ghost use Rattle.sql_tree.specs.Lexemes.{is_digit, digits_onto};
ghost use Rattle.vschema_json.specs.Documents.{begins_above_zero, column_length, varbinary, column_type, vindex_named, if_word, word};
ghost use Rattle.vschema_json.specs.Refused.{IsFaultOf};

use crate::column::{Column, ColumnType};
use crate::document::{DeclaredKey, DeclaredKeyspace, DeclaredTable, DeclaredVindex};
use crate::fault::SchemaFault;
use crate::json::{
    Element, Member, has_only, needed, needed_array, needed_object, optional_array, optional_flag,
    optional_object, read_flag,
};
use crate::words::is_word;
use serde_json::Value;
use sql_tree::Name;
use std::alloc::Global;
use vindex::{AnyVindex, Items};

fn read_name(alloc: Global, bytes: &[u8]) -> Result<Name, SchemaFault>
    ensures ok { IfOk result (λ name. if_word bytes.now ≡ Some name) }
    ensures err { IfErr result (λ e. IsFaultOf e (if_word bytes.now)) }
{
    if !is_word(bytes) {
        return Err(SchemaFault::IllFormed);
    }
    let name = Items::from_slice(alloc, bytes)?;
    Ok(name)
}

fn text(value: &Value) -> Result<&str, SchemaFault>
    ensures ok { IfOk result (λ s. as_str (view value.now) ≡ Some s.now) }
    ensures err { IfErr result (λ e. (e ≡ SchemaFault.IllFormed) × (as_str (view value.now) ≡ None)) }
{
    match value.as_str() {
        Some(text) => Ok(text),
        None => Err(SchemaFault::IllFormed),
    }
}

impl Element for Name {
    ghost use Rattle.vschema_json.specs.Documents.{word};

    ghost reads = { word };

    fn read(alloc: Global, value: &Value) -> Result<Name, SchemaFault> {
        read_name(alloc, text(value)?.as_bytes())
    }
}

fn begins_above_zero(digits: &[u8]) -> bool
    ensures { result ≡ begins_above_zero digits.now }
{
    match digits {
        [] => false,
        [digit, ..] => *digit != b'0',
    }
}

// A size with one more digit after it.
fn with_digit(size: u8, digit: u8) -> Option<u8>
    ensures some { IfSome result (λ n. (n ≡ size * 10 + (digit - 0x30)) × (is_digit digit ≡ true)) }
    ensures none { IfNone result (is_digit digit ≡ true → 255 < size * 10 + (digit - 0x30)) }
{
    if !digit.is_ascii_digit() {
        return None;
    }
    size.checked_mul(10)?.checked_add(digit - b'0')
}

// The size that digits say, from 1 to 255.
fn size(digits: &[u8]) -> Option<u8>
    ensures { result ≡ column_length digits.now }
{
    if !begins_above_zero(digits) {
        return None;
    }
    let mut size: u8 = 0;
    for digit in digits {
        size = with_digit(size, *digit)?;
    }
    Some(size)
}

fn varbinary(text: &[u8]) -> Option<ColumnType>
    ensures { result ≡ varbinary text.now }
{
    let digits = text.strip_prefix(b"VARBINARY(")?.strip_suffix(b")")?;
    let size = size(digits)?;
    Some(ColumnType::VarBinary(size))
}

fn column_type(text: &str) -> Option<ColumnType>
    ensures { result ≡ column_type text.now }
{
    match text {
        "BIGINT" => Some(ColumnType::BigInt),
        "BIGINT UNSIGNED" => Some(ColumnType::BigIntUnsigned),
        _ => varbinary(text.as_bytes()),
    }
}

fn read_column_type(value: &Value) -> Result<ColumnType, SchemaFault>
    ensures ok { IfOk result (λ k. option_and_then column_type (as_str (view value.now)) ≡ Some k) }
    ensures err { IfErr result (λ e. IsFaultOf e (option_and_then column_type (as_str (view value.now)))) }
{
    match column_type(text(value)?) {
        Some(kind) => Ok(kind),
        None => Err(SchemaFault::IllFormed),
    }
}

impl Element for Column {
    ghost use Rattle.vschema_json.specs.Documents.{column};

    ghost reads = { column };

    fn read(alloc: Global, value: &Value) -> Result<Column, SchemaFault> {
        if !has_only(value, &["name", "type", "null"]) {
            return Err(SchemaFault::IllFormed);
        }
        let name = Name::read(alloc, needed(value, "name")?)?;
        let kind = read_column_type(needed(value, "type")?)?;
        let nullable = optional_flag(value, "null")?.unwrap_or(false);
        Ok(Column {
            name,
            kind,
            nullable,
        })
    }
}

impl Element for DeclaredKey {
    ghost use Rattle.vschema_json.specs.Documents.{key};

    ghost reads = { key };

    fn read(alloc: Global, value: &Value) -> Result<DeclaredKey, SchemaFault> {
        if !has_only(value, &["column", "name"]) {
            return Err(SchemaFault::IllFormed);
        }
        let column = Name::read(alloc, needed(value, "column")?)?;
        let vindex = Name::read(alloc, needed(value, "name")?)?;
        Ok(DeclaredKey { column, vindex })
    }
}

impl Member for DeclaredTable {
    ghost use Rattle.vschema_json.specs.Documents.{table};

    ghost reads = { table };

    fn read(alloc: Global, name: &str, value: &Value) -> Result<DeclaredTable, SchemaFault> {
        let name = read_name(alloc, name.as_bytes())?;
        if !has_only(value, &["columns", "primary_key", "column_vindexes"]) {
            return Err(SchemaFault::IllFormed);
        }
        let columns = needed_array(alloc, value, "columns")?;
        let primary_key = needed_array(alloc, value, "primary_key")?;
        let column_vindexes = optional_array(alloc, value, "column_vindexes")?;
        Ok(DeclaredTable {
            name,
            columns,
            primary_key,
            column_vindexes,
        })
    }
}

/// The vindex of a type.
fn vindex_named(text: &str) -> Option<AnyVindex>
    ensures { result ≡ vindex_named text.now }
{
    match text {
        "numeric" => Some(AnyVindex::Numeric),
        "reverse_bits" => Some(AnyVindex::ReverseBits),
        "binary" => Some(AnyVindex::Binary),
        "binary_md5" => Some(AnyVindex::BinaryMd5),
        _ => None,
    }
}

impl Member for DeclaredVindex {
    ghost use Rattle.vschema_json.specs.Documents.{vindex};

    ghost reads = { vindex };

    fn read(alloc: Global, name: &str, value: &Value) -> Result<DeclaredVindex, SchemaFault> {
        let name = read_name(alloc, name.as_bytes())?;
        if !has_only(value, &["type"]) {
            return Err(SchemaFault::IllFormed);
        }
        let kind = vindex_named(text(needed(value, "type")?)?);
        Ok(DeclaredVindex { name, kind })
    }
}

impl Member for DeclaredKeyspace {
    ghost use Rattle.vschema_json.specs.Documents.{keyspace};

    ghost reads = { keyspace };

    fn read(alloc: Global, name: &str, value: &Value) -> Result<DeclaredKeyspace, SchemaFault> {
        let name = read_name(alloc, name.as_bytes())?;
        if !has_only(value, &["sharded", "vindexes", "tables"]) {
            return Err(SchemaFault::IllFormed);
        }
        let sharded = read_flag(needed(value, "sharded")?)?;
        let vindexes = optional_object(alloc, value, "vindexes")?;
        let tables = needed_object(alloc, value, "tables")?;
        Ok(DeclaredKeyspace {
            name,
            sharded,
            vindexes,
            tables,
        })
    }
}
