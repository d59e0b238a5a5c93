//! Finds tables and columns by name.
ghost use Rattle.std.specs.Prelude.{◌≡◌, bytes_eq};
ghost use Rattle.vschema.specs.Schema.{column_ordinal, table_ordinal};
ghost use Rattle.vschema.specs.Checks.{is_unknown};

use crate::schema::{Table, VSchema};
use sql_tree::Name;
use vschema_json::is_name;

pub fn column_ordinal(table: &Table, name: &Name) -> Option<usize>
    ensures { result ≡ column_ordinal table.now name.now }
{
    table.columns.ordinal_of(name)
}

pub fn table_ordinal(schema: &VSchema, name: &Name) -> Option<usize>
    ensures { result ≡ table_ordinal schema.now name.now }
{
    for (ordinal, table) in schema.tables.as_slice().iter().enumerate() {
        if is_name(&table.name, name) {
            return Some(ordinal);
        }
    }
    None
}

pub fn is_unknown(table: &Table, name: &Name) -> bool
    ensures { result ≡ is_unknown table.now name.now }
{
    column_ordinal(table, name).is_none()
}
