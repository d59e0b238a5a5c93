//! The columns of a table.
ghost use Rattle.std.specs.Prelude.{◌≡◌, ◌==◌, ◌∷◌, ◌++◌, [], bytes_eq, IfOk, OnOk};
ghost use Rattle.std.specs.List.{find, list_any};
ghost use Rattle.std.specs.Option.{option_copied};
ghost use Rattle.client_statements.specs.declared.answers.Facts.{Facts};
ghost use Rattle.client_statements.specs.declared.statement.ClientStatement.{ClientStatement};
ghost use Rattle.client_statements.specs.Answers.{type_text, null_text, key_part_text, column_heads, column_texts, column_row, column_rows, is_keyspace, is_of_keyspace, is_described, IsClientAnswer};

use crate::answers::ClientAnswer;
use crate::keyspaces::keyspace_ordinal;
use crate::likes::Pattern;
use crate::listings::{fits_pattern, heads, pattern, texts};
use crate::statement::TableName;
use itoa::Buffer;
use sql_tree::Name;
use std::alloc::{AllocError, Global};
use vschema::{Column, ColumnType, Table, VSchema};
use vt_value::{Items, Refusal, Row};

fn varbinary(alloc: Global, most: u8) -> Result<Name, AllocError>
    ensures { IfOk result (λ n. n ≡ type_text (ColumnType.VarBinary most)) }
{
    let mut buffer = Buffer::new();
    let mut name = Vec::from_slice(alloc, b"varbinary(")?;
    name.extend_from_slice(buffer.format(most).as_bytes())?;
    name.push(b')')?;
    Ok(Items::from_vec(name))
}

/// The type of a column, as MySQL shows it.
fn type_text(alloc: Global, kind: ColumnType) -> Result<Name, AllocError>
    ensures { IfOk result (λ n. n ≡ type_text kind) }
{
    match kind {
        ColumnType::BigInt => Items::from_slice(alloc, b"bigint"),
        ColumnType::BigIntUnsigned => Items::from_slice(alloc, b"bigint unsigned"),
        ColumnType::VarBinary(most) => varbinary(alloc, most),
    }
}

fn null_text(nullable: bool) -> &'static str
    ensures { result.now ≡ null_text nullable }
{
    if nullable { "YES" } else { "NO" }
}

fn has_ordinal(places: &[usize], ordinal: usize) -> bool
    ensures { result ≡ list_any (λ key. key == ordinal) places.now }
{
    places.iter().any(|key| *key == ordinal)
}

fn key_part_text(table: &Table, ordinal: usize) -> &'static str
    ensures { result.now ≡ key_part_text table.now ordinal }
{
    if has_ordinal(table.primary_key.as_slice(), ordinal) {
        "PRI"
    } else {
        ""
    }
}

fn column_heads(alloc: Global, full: bool) -> Result<Items<Name>, AllocError>
    ensures { IfOk result (λ names. names ≡ column_heads full) }
{
    if full {
        return heads(
            alloc,
            &[
                "Field",
                "Type",
                "Collation",
                "Null",
                "Key",
                "Default",
                "Extra",
                "Privileges",
                "Comment",
            ],
        );
    }
    heads(alloc, &["Field", "Type", "Null", "Key", "Default", "Extra"])
}

/// The row of a column.
fn column_texts<'a>(
    alloc: Global,
    full: bool,
    name: &'a [u8],
    kind: &'a [u8],
    null: &'a [u8],
    key: &'a [u8],
) -> Result<Row, AllocError>
    ensures { IfOk result (λ row. row ≡ column_texts full name.now kind.now null.now key.now) }
{
    let none = b"".as_slice();
    if full {
        let privileges = b"select,insert,update".as_slice();
        return texts(
            alloc,
            &[
                Some(name),
                Some(kind),
                None,
                Some(null),
                Some(key),
                None,
                Some(none),
                Some(privileges),
                Some(none),
            ],
        );
    }
    texts(
        alloc,
        &[
            Some(name),
            Some(kind),
            Some(null),
            Some(key),
            None,
            Some(none),
        ],
    )
}

/// The row of the column at an ordinal of a table.
fn column_row(
    alloc: Global,
    full: bool,
    table: &Table,
    ordinal: usize,
    column: &Column,
) -> Result<Row, AllocError>
    ensures { IfOk result (λ row. row ≡ column_row full table.now ordinal column.now) }
{
    let kind = type_text(alloc, column.kind)?;
    let null = null_text(column.nullable).as_bytes();
    let key = key_part_text(table, ordinal).as_bytes();
    column_texts(
        alloc,
        full,
        column.name.as_slice(),
        kind.as_slice(),
        null,
        key,
    )
}

/// Adds the row of a column, if its name fits.
/// Of the statement and of the table it is handed what the row shows.
fn push_column(
    alloc: Global,
    full: bool,
    like: &Option<Pattern>,
    table: &Table,
    ordinal: usize,
    column: &Column,
    rows: &mut Items<Row>,
) -> Result<(), AllocError>
    ensures { OnOk result (rows.new ≡ rows.old ++ column_rows full like.now table.now ordinal (column.now ∷ [])) }
{
    if fits_pattern(alloc, like, column.name.as_slice())? {
        rows.push(column_row(alloc, full, table, ordinal, column)?)?;
    }
    Ok(())
}

/// A row of each column whose name fits.
#[tactic(auto, using(crate::proofs::InTurn::one_more_column))]
fn column_rows(
    alloc: Global,
    full: bool,
    like: &Option<Pattern>,
    table: &Table,
) -> Result<Items<Row>, AllocError>
    ensures { IfOk result (λ rows. rows ≡ column_rows full like.now table.now 0 table.now.columns) }
{
    let mut rows = Items::new(alloc);
    for (ordinal, column) in table.columns.as_slice().iter().enumerate() {
        push_column(alloc, full, like, table, ordinal, column, &mut rows)?;
    }
    Ok(rows)
}

/// Whether a keyspace that is named is there.
fn is_keyspace(schema: &VSchema, named: &Option<Name>) -> bool
    ensures { result ≡ is_keyspace schema.now named.now }
{
    match named {
        Some(name) => keyspace_ordinal(schema, name.as_slice()).is_some(),
        None => true,
    }
}

/// Whether a table lies in the keyspace that is named, if one is.
fn is_of_keyspace(schema: &VSchema, named: &Option<Name>, ordinal: usize) -> bool
    ensures { result ≡ is_of_keyspace schema.now named.now ordinal }
{
    match named {
        Some(name) => match keyspace_ordinal(schema, name.as_slice()) {
            Some(found) => found == ordinal,
            None => false,
        },
        None => true,
    }
}

fn is_described(schema: &VSchema, name: &TableName, table: &Table) -> bool
    ensures { result ≡ is_described schema.now name.now table.now }
{
    table.name.as_slice() == name.table.as_slice()
        && is_of_keyspace(schema, &name.keyspace, table.keyspace)
}

/// The table that is named.
fn table_named<'s>(schema: &'s VSchema, name: &TableName) -> Option<&'s Table>
    ensures { option_copied result ≡ find (is_described schema.now name.now) schema.now.tables }
{
    schema
        .tables
        .as_slice()
        .iter()
        .find(|table| is_described(schema, name, table))
}

/// SHOW COLUMNS and DESCRIBE
pub fn described(
    alloc: Global,
    schema: &VSchema,
    full: bool,
    name: &TableName,
    like: &Option<Name>,
) -> Result<ClientAnswer, AllocError>
    ensures { IfOk result (λ a. (facts : Facts) → IsClientAnswer schema.now facts (ClientStatement.ShowColumns full name.now like.now) a) }
{
    if !is_keyspace(schema, &name.keyspace) {
        return Ok(ClientAnswer::Refused(Refusal::UnknownKeyspace));
    }
    let Some(table) = table_named(schema, name) else {
        return Ok(ClientAnswer::Refused(Refusal::UnknownTable));
    };
    let columns = column_heads(alloc, full)?;
    let like = pattern(alloc, like)?;
    let rows = column_rows(alloc, full, &like, table)?;
    Ok(ClientAnswer::Rows { columns, rows })
}
