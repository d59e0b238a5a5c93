//! Finds the first fault of a document, in the order V1 to V9, in time n log n.
ghost use Rattle.std.specs.Prelude.{◌≡◌, ◌||◌, ◌++◌, not, map, find, filter, length, nat_lt, bytes_eq, is_none, IfOk};
ghost use Rattle.std.specs.List.{list_any};
ghost use Rattle.vschema_json.specs.Twice.{has_twice};
ghost use Rattle.vschema_json.specs.Faults.{keys, vindexes, lacks_column, is_nullable, vindex_of, mismatch, column_of, is_misplaced, table_has, is_out_of_place, keyspace_has, all_tables, whole_has, has, first_fault};

use crate::document::{DeclaredKey, DeclaredKeyspace, DeclaredTable, DeclaredVindex};
use crate::fault::SchemaFault;
use crate::indexes::{KeyspaceIndex, TableIndex};
use crate::lookups::{is_nullable, keys, lacks_column, mismatch, vindexes};
use crate::name_ordinals::NameOrdinals;
use crate::twice::{has_column_twice, has_twice, texts_of};
use crate::whole::whole_has;
use sql_tree::Name;
use std::alloc::{AllocError, Global};
use vindex::Items;

/// The most columns of a table.
const MAX_COLUMNS: usize = 64;

/// The faults of what a text declares, in the order of their numbers.
const FAULTS: [SchemaFault; 8] = [
    SchemaFault::IllFormed,
    SchemaFault::UnknownVindex,
    SchemaFault::MissingColumn,
    SchemaFault::WrongKeyType,
    SchemaFault::NullableKey,
    SchemaFault::KeyWithoutVindex,
    SchemaFault::NamedTwice,
    SchemaFault::AboveLimit,
];

fn is_misplaced(sharded: bool, found: &Option<Items<DeclaredKey>>) -> bool
    ensures { result ≡ is_misplaced sharded found.now }
{
    match found {
        None => sharded,
        Some(found) => !sharded || found.len() == 0,
    }
}

fn is_table_ill_formed(
    alloc: Global,
    keyspace: &DeclaredKeyspace,
    table: &DeclaredTable,
) -> Result<bool, AllocError>
    ensures { IfOk result (λ has. has ≡ table_has SchemaFault.IllFormed keyspace.now table.now) }
{
    if table.columns.len() == 0 || table.primary_key.len() == 0 {
        return Ok(true);
    }
    let twice = has_twice(alloc, table.primary_key.as_slice())?;
    Ok(twice || is_misplaced(keyspace.sharded, &table.column_vindexes))
}

fn some_key_names_unknown_vindex<'d>(keyspace: &KeyspaceIndex<'d>, keys: &'d [DeclaredKey]) -> bool
    ensures { result ≡ list_any (λ e. is_none (vindex_of keyspace.now e.vindex)) keys.now }
{
    for key in keys {
        if keyspace.vindex_of(&key.vindex).is_none() {
            return true;
        }
    }
    false
}

fn some_name_lacks<'t>(table: &TableIndex<'t>, names: &'t [Name]) -> bool
    ensures { result ≡ list_any (lacks_column table.now) names.now }
{
    for name in names {
        if lacks_column(table, name) {
            return true;
        }
    }
    false
}

fn some_key_lacks<'t>(table: &TableIndex<'t>, keys: &'t [DeclaredKey]) -> bool
    ensures { result ≡ list_any (λ e. lacks_column table.now e.column) keys.now }
{
    for key in keys {
        if lacks_column(table, &key.column) {
            return true;
        }
    }
    false
}

fn misses_column(alloc: Global, table: &DeclaredTable) -> Result<bool, AllocError>
    ensures { IfOk result (λ has. has ≡ (list_any (lacks_column table.now) table.now.primary_key || list_any (λ e. lacks_column table.now e.column) (keys table.now))) }
{
    let index = TableIndex::of(alloc, table)?;
    Ok(some_name_lacks(&index, table.primary_key.as_slice()) || some_key_lacks(&index, keys(table)))
}

fn some_key_mismatches<'d>(
    keyspace: &KeyspaceIndex<'d>,
    table: &TableIndex<'d>,
    keys: &'d [DeclaredKey],
) -> bool
    ensures { result ≡ list_any (λ e. mismatch (vindex_of keyspace.now e.vindex) (column_of table.now e.column)) keys.now }
{
    for key in keys {
        if mismatch(keyspace, table, key) {
            return true;
        }
    }
    false
}

fn has_wrong_type<'d>(
    alloc: Global,
    keyspace: &KeyspaceIndex<'d>,
    table: &'d DeclaredTable,
) -> Result<bool, AllocError>
    ensures { IfOk result (λ has. has ≡ table_has SchemaFault.WrongKeyType keyspace.now table.now) }
{
    let index = TableIndex::of(alloc, table)?;
    Ok(some_key_mismatches(keyspace, &index, keys(table)))
}

fn some_name_nullable<'t>(table: &TableIndex<'t>, names: &'t [Name]) -> bool
    ensures { result ≡ list_any (is_nullable table.now) names.now }
{
    for name in names {
        if is_nullable(table, name) {
            return true;
        }
    }
    false
}

fn some_key_nullable<'t>(table: &TableIndex<'t>, keys: &'t [DeclaredKey]) -> bool
    ensures { result ≡ list_any (λ e. is_nullable table.now e.column) keys.now }
{
    for key in keys {
        if is_nullable(table, &key.column) {
            return true;
        }
    }
    false
}

fn has_nullable_key(alloc: Global, table: &DeclaredTable) -> Result<bool, AllocError>
    ensures { IfOk result (λ has. has ≡ (list_any (is_nullable table.now) table.now.primary_key || list_any (λ e. is_nullable table.now e.column) (keys table.now))) }
{
    let index = TableIndex::of(alloc, table)?;
    Ok(
        some_name_nullable(&index, table.primary_key.as_slice())
            || some_key_nullable(&index, keys(table)),
    )
}

fn some_key_is_outside<'t>(names: &NameOrdinals<'t>, keys: &'t [DeclaredKey]) -> bool
    ensures { result ≡ list_any (λ e. not (list_any (bytes_eq e.column) names.now)) keys.now }
{
    for key in keys {
        if !names.has(&key.column) {
            return true;
        }
    }
    false
}

fn has_key_outside(alloc: Global, table: &DeclaredTable) -> Result<bool, AllocError>
    ensures { IfOk result (λ has. has ≡ list_any (λ e. not (list_any (bytes_eq e.column) table.now.primary_key)) (keys table.now)) }
{
    let names = NameOrdinals::of(alloc, texts_of(alloc, table.primary_key.as_slice())?)?;
    Ok(some_key_is_outside(&names, keys(table)))
}

fn table_has<'d>(
    alloc: Global,
    fault: SchemaFault,
    keyspace: &KeyspaceIndex<'d>,
    table: &'d DeclaredTable,
) -> Result<bool, AllocError>
    ensures { IfOk result (λ has. has ≡ table_has fault keyspace.now table.now) }
{
    match fault {
        SchemaFault::IllFormed => is_table_ill_formed(alloc, keyspace.keyspace(), table),
        SchemaFault::UnknownVindex => Ok(some_key_names_unknown_vindex(keyspace, keys(table))),
        SchemaFault::MissingColumn => misses_column(alloc, table),
        SchemaFault::WrongKeyType => has_wrong_type(alloc, keyspace, table),
        SchemaFault::NullableKey => has_nullable_key(alloc, table),
        SchemaFault::KeyWithoutVindex => has_key_outside(alloc, table),
        SchemaFault::NamedTwice => has_column_twice(alloc, table.columns.as_slice()),
        SchemaFault::AboveLimit => Ok(table.columns.len() > MAX_COLUMNS || keys(table).len() > 1),
        SchemaFault::OutOfMemory | SchemaFault::NotJson => Ok(false),
    }
}

fn is_out_of_place(sharded: bool, found: &Option<Items<DeclaredVindex>>) -> bool
    ensures { result ≡ is_out_of_place sharded found.now }
{
    match found {
        None => sharded,
        Some(_) => !sharded,
    }
}

fn declares_unknown_vindex(keyspace: &DeclaredKeyspace) -> bool
    ensures { result ≡ keyspace_has SchemaFault.UnknownVindex keyspace.now }
{
    vindexes(keyspace)
        .iter()
        .any(|vindex| vindex.kind.is_none())
}

fn keyspace_has(fault: SchemaFault, keyspace: &DeclaredKeyspace) -> bool
    ensures { result ≡ keyspace_has fault keyspace.now }
{
    match fault {
        SchemaFault::IllFormed => is_out_of_place(keyspace.sharded, &keyspace.vindexes),
        SchemaFault::UnknownVindex => declares_unknown_vindex(keyspace),
        _ => false,
    }
}

fn some_table_has<'d>(
    alloc: Global,
    fault: SchemaFault,
    keyspace: &KeyspaceIndex<'d>,
    tables: &'d [DeclaredTable],
) -> Result<bool, AllocError>
    ensures { IfOk result (λ has. has ≡ list_any (table_has fault keyspace.now) tables.now) }
{
    for table in tables {
        if table_has(alloc, fault, keyspace, table)? {
            return Ok(true);
        }
    }
    Ok(false)
}

// Whether the fault lies in a keyspace or one of its tables.
fn is_within(
    alloc: Global,
    fault: SchemaFault,
    keyspace: &DeclaredKeyspace,
) -> Result<bool, AllocError>
    ensures { IfOk result (λ has. has ≡ (keyspace_has fault keyspace.now || list_any (table_has fault keyspace.now) keyspace.now.tables)) }
{
    if keyspace_has(fault, keyspace) {
        return Ok(true);
    }
    let index = KeyspaceIndex::of(alloc, keyspace)?;
    some_table_has(alloc, fault, &index, keyspace.tables.as_slice())
}

fn some_keyspace_has(
    alloc: Global,
    fault: SchemaFault,
    keyspaces: &[DeclaredKeyspace],
) -> Result<bool, AllocError>
    ensures { IfOk result (λ has. has ≡ list_any (λ k. keyspace_has fault k || list_any (table_has fault k) k.tables) keyspaces.now) }
{
    for keyspace in keyspaces {
        if is_within(alloc, fault, keyspace)? {
            return Ok(true);
        }
    }
    Ok(false)
}

fn has(
    alloc: Global,
    fault: SchemaFault,
    keyspaces: &[DeclaredKeyspace],
) -> Result<bool, AllocError>
    ensures { IfOk result (λ found. found ≡ has fault keyspaces.now) }
{
    if whole_has(alloc, fault, keyspaces)? {
        return Ok(true);
    }
    some_keyspace_has(alloc, fault, keyspaces)
}

fn first_of(
    alloc: Global,
    faults: &[SchemaFault],
    keyspaces: &[DeclaredKeyspace],
) -> Result<Option<SchemaFault>, AllocError>
    ensures { IfOk result (λ first. first ≡ find (λ fault. has fault keyspaces.now) faults.now) }
{
    for fault in faults {
        if has(alloc, *fault, keyspaces)? {
            return Ok(Some(*fault));
        }
    }
    Ok(None)
}

/// The fault with the least number, if there is one, in time n log n, whatever a text declares. Refuses only for want of memory.
pub fn first_fault(
    alloc: Global,
    keyspaces: &[DeclaredKeyspace],
) -> Result<Option<SchemaFault>, AllocError>
    ensures { IfOk result (λ fault. fault ≡ first_fault keyspaces.now) }
{
    first_of(alloc, &FAULTS, keyspaces)
}
