//! The VSchema that a sound document means: names are resolved to ordinals, once.
ghost use Rattle.std.specs.Prelude.{◌≡◌, ◌++◌, ◌+◌, ◌≤◌, ◌<◌, ◌^◌, false, map, length, slice_get, option_and_then, IfOk, IfErr, IsTrue};
ghost use Rattle.std.specs.List.{list_any};
ghost use Rattle.vschema_json.specs.Faults.{keys, table_has, has};
ghost use Rattle.vschema.specs.Meant.{ordinal_in, vindex_number, vindex_on, meant_table, meant_tables, meant_keyspace, meant, contents};
ghost use Rattle.vschema.specs.Formed.{is_formed};
ghost use Rattle.vschema.specs.WriteChecks.{has_twice};

use crate::columns::Columns;
use crate::schema::{ColumnVindex, Keyspace, Table, Tables, VSchema};
use sql_tree::Name;
use std::alloc::Global;
use vschema_json::{
    Column, DeclaredKey, DeclaredKeyspace, DeclaredTable, SchemaFault, is_name, keys, ordinal_of,
    vindex_of, vindexes,
};
use vt_value::Items;

fn copy_column(alloc: Global, column: &Column) -> Result<Column, SchemaFault>
    ensures ok { IfOk result (λ c. c ≡ column.now) }
    ensures err { IfErr result (λ e. e ≡ SchemaFault.OutOfMemory) }
{
    Ok(Column {
        name: Items::from_slice(alloc, column.name.as_slice())?,
        kind: column.kind,
        nullable: column.nullable,
    })
}

fn copy_columns(alloc: Global, columns: &[Column]) -> Result<Columns, SchemaFault>
    requires once { has_twice (map (λ c. c.name) columns.now) ≡ false }
    ensures ok { IfOk result (λ r. r ≡ columns.now) }
    ensures err { IfErr result (λ e. e ≡ SchemaFault.OutOfMemory) }
{
    let mut copied = Columns::new(alloc);
    for column in columns {
        copied.insert(copy_column(alloc, column)?)?;
    }
    Ok(copied)
}

fn ordinal_in(table: &DeclaredTable, name: &Name) -> usize
    ensures { result ≡ ordinal_in table.now name.now }
{
    ordinal_of(table, name).unwrap_or(0)
}

fn ordinals_in(
    alloc: Global,
    table: &DeclaredTable,
    names: &[Name],
) -> Result<Items<usize>, SchemaFault>
    ensures ok { IfOk result (λ r. r ≡ map (ordinal_in table.now) names.now) }
    ensures err { IfErr result (λ e. e ≡ SchemaFault.OutOfMemory) }
{
    let mut ordinals = Items::new(alloc);
    for name in names {
        ordinals.push(ordinal_in(table, name))?;
    }
    Ok(ordinals)
}

fn vindex_number(keyspace: &DeclaredKeyspace, name: &Name) -> usize
    ensures { result ≡ vindex_number keyspace.now name.now }
{
    for (number, vindex) in vindexes(keyspace).iter().enumerate() {
        if is_name(&vindex.name, name) {
            return number;
        }
    }
    0
}

fn vindex_on(
    keyspace: &DeclaredKeyspace,
    table: &DeclaredTable,
    key: &DeclaredKey,
) -> Option<ColumnVindex>
    ensures { result ≡ vindex_on keyspace.now table.now key.now }
{
    let vindex = vindex_of(keyspace, &key.vindex)?;
    let column = ordinal_in(table, &key.column);
    let number = vindex_number(keyspace, &key.vindex);
    Some(ColumnVindex {
        column,
        vindex,
        number,
    })
}

fn first_vindex(keyspace: &DeclaredKeyspace, table: &DeclaredTable) -> Option<ColumnVindex>
    ensures { result ≡ option_and_then (vindex_on keyspace.now table.now) (slice_get (keys table.now) 0) }
{
    vindex_on(keyspace, table, keys(table).first()?)
}

fn meant_table(
    alloc: Global,
    keyspace: &DeclaredKeyspace,
    ordinal: usize,
    table: &DeclaredTable,
) -> Result<Table, SchemaFault>
    requires once { table_has SchemaFault.NamedTwice keyspace.now table.now ≡ false }
    ensures ok { IfOk result (λ t. t ≡ meant_table keyspace.now ordinal table.now) }
    ensures err { IfErr result (λ e. e ≡ SchemaFault.OutOfMemory) }
{
    let name = Items::from_slice(alloc, table.name.as_slice())?;
    let columns = copy_columns(alloc, table.columns.as_slice())?;
    let primary_key = ordinals_in(alloc, table, table.primary_key.as_slice())?;
    Ok(Table {
        name,
        keyspace: ordinal,
        columns,
        primary_key,
        vindex: first_vindex(keyspace, table),
    })
}

fn tables_of(
    alloc: Global,
    keyspace: &DeclaredKeyspace,
    ordinal: usize,
) -> Result<Items<Table>, SchemaFault>
    requires once { list_any (table_has SchemaFault.NamedTwice keyspace.now) keyspace.now.tables ≡ false }
    ensures ok { IfOk result (λ ts. ts ≡ map (meant_table keyspace.now ordinal) keyspace.now.tables) }
    ensures err { IfErr result (λ e. e ≡ SchemaFault.OutOfMemory) }
{
    let mut tables = Items::new(alloc);
    for table in keyspace.tables.as_slice() {
        tables.push(meant_table(alloc, keyspace, ordinal, table)?)?;
    }
    Ok(tables)
}

fn all_tables(alloc: Global, keyspaces: &[DeclaredKeyspace]) -> Result<Items<Table>, SchemaFault>
    requires once { list_any (λ k. list_any (table_has SchemaFault.NamedTwice k) k.tables) keyspaces.now ≡ false }
    ensures ok { IfOk result (λ ts. ts ≡ meant_tables 0 keyspaces.now) }
    ensures err { IfErr result (λ e. e ≡ SchemaFault.OutOfMemory) }
{
    let mut tables = Items::new(alloc);
    for (ordinal, keyspace) in keyspaces.iter().enumerate() {
        tables.append(tables_of(alloc, keyspace, ordinal)?)?;
    }
    Ok(tables)
}

fn all_keyspaces(
    alloc: Global,
    declared: &[DeclaredKeyspace],
) -> Result<Items<Keyspace>, SchemaFault>
    ensures ok { IfOk result (λ ks. ks ≡ map meant_keyspace declared.now) }
    ensures err { IfErr result (λ e. e ≡ SchemaFault.OutOfMemory) }
{
    let mut keyspaces = Items::new(alloc);
    for keyspace in declared {
        keyspaces.push(Keyspace {
            name: Items::from_slice(alloc, keyspace.name.as_slice())?,
            sharded: keyspace.sharded,
        })?;
    }
    Ok(keyspaces)
}

/// The VSchema that is meant, if no fault applies.
pub fn meant(alloc: Global, declared: &[DeclaredKeyspace]) -> Result<VSchema, SchemaFault>
    requires once { has SchemaFault.NamedTwice declared.now ≡ false }
    requires formed { IsTrue (is_formed (meant declared.now).keyspaces (meant declared.now).tables) }
    ensures ok { IfOk result (λ schema. contents schema ≡ meant declared.now) }
    ensures err { IfErr result (λ e. e ≡ SchemaFault.OutOfMemory) }
{
    let keyspaces = all_keyspaces(alloc, declared)?;
    let tables = Tables::new(all_tables(alloc, declared)?);
    Ok(VSchema { keyspaces, tables })
}
