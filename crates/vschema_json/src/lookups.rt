//! Finds columns and vindexes of a document by name, through indexes that are made once for a table.
ghost use Rattle.std.specs.Prelude.{◌≡◌};
ghost use Rattle.std.specs.Option.{option_copied};
ghost use Rattle.vschema_json.specs.Faults.{keys, vindexes, ordinal_of, column_of, vindex_of, lacks_column, is_nullable, mismatch};
ghost use Rattle.vschema_json.specs.ColumnTypes.{takes_type};

use crate::column::{Column, ColumnType};
use crate::document::{DeclaredKey, DeclaredKeyspace, DeclaredTable, DeclaredVindex};
use crate::indexes::{KeyspaceIndex, TableIndex};
use crate::names::{is_name, ordinal_among};
use sql_tree::Name;
use vindex::AnyVindex;

/// The column vindexes of a table.
pub fn keys(table: &DeclaredTable) -> &[DeclaredKey]
    ensures { result.now ≡ keys table.now }
{
    match &table.column_vindexes {
        Some(keys) => keys.as_slice(),
        None => &[],
    }
}

/// The vindexes of a keyspace.
pub fn vindexes(keyspace: &DeclaredKeyspace) -> &[DeclaredVindex]
    ensures { result.now ≡ vindexes keyspace.now }
{
    match &keyspace.vindexes {
        Some(vindexes) => vindexes.as_slice(),
        None => &[],
    }
}

/// The ordinal of the first column with this name.
pub fn ordinal_of(table: &DeclaredTable, name: &Name) -> Option<usize>
    ensures { result ≡ ordinal_of table.now name.now }
{
    ordinal_among(table.columns.as_slice(), name)
}

/// The first column with this name.
pub fn column_of<'t>(table: &TableIndex<'t>, name: &'t Name) -> Option<&'t Column>
    ensures { option_copied result ≡ column_of table.now name.now }
{
    table.table().columns.get(table.ordinal_of(name)?)
}

/// The vindex that a keyspace declares under this name, if its type is known.
pub fn vindex_of(keyspace: &DeclaredKeyspace, name: &Name) -> Option<AnyVindex>
    ensures { result ≡ vindex_of keyspace.now name.now }
{
    let declared = vindexes(keyspace);
    for vindex in declared {
        if is_name(&vindex.name, name) {
            return vindex.kind;
        }
    }
    None
}

/// Whether the table has no column of this name.
pub fn lacks_column<'t>(table: &TableIndex<'t>, name: &'t Name) -> bool
    ensures { result ≡ lacks_column table.now name.now }
{
    table.ordinal_of(name).is_none()
}

/// Whether the column with this name may be NULL.
pub fn is_nullable<'t>(table: &TableIndex<'t>, name: &'t Name) -> bool
    ensures { result ≡ is_nullable table.now name.now }
{
    match column_of(table, name) {
        Some(column) => column.nullable,
        None => false,
    }
}

fn takes_type(vindex: AnyVindex, kind: ColumnType) -> bool
    ensures { result ≡ takes_type vindex kind }
{
    match vindex {
        AnyVindex::Numeric | AnyVindex::ReverseBits => kind == ColumnType::BigIntUnsigned,
        AnyVindex::Binary | AnyVindex::BinaryMd5 => matches!(kind, ColumnType::VarBinary(_)),
    }
}

/// Whether the vindex of a column can't take its type.
pub fn mismatch<'d>(
    keyspace: &KeyspaceIndex<'d>,
    table: &TableIndex<'d>,
    key: &'d DeclaredKey,
) -> bool
    ensures { result ≡ mismatch (vindex_of keyspace.now key.now.vindex) (column_of table.now key.now.column) }
{
    match (
        keyspace.vindex_of(&key.vindex),
        column_of(table, &key.column),
    ) {
        (Some(vindex), Some(column)) => !takes_type(vindex, column.kind),
        _ => false,
    }
}
