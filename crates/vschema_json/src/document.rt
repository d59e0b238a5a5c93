//! A VSchema as its text declares it, before anything is checked.
use crate::column::Column;
use sql_tree::Name;
use vindex::{AnyVindex, Items};

/// A vindex that a keyspace declares. It has no kind if its type is unknown.
#[derive(Drop)]
pub struct DeclaredVindex {
    pub name: Name,
    pub kind: Option<AnyVindex>,
}

/// A column of a table and the vindex on it, by their names.
#[derive(Drop)]
pub struct DeclaredKey {
    pub column: Name,
    pub vindex: Name,
}

/// A table as a text declares it, its columns by their names. It has no list of column vindexes if the text has none.
#[derive(Drop)]
pub struct DeclaredTable {
    pub name: Name,
    pub columns: Items<Column>,
    pub primary_key: Items<Name>,
    pub column_vindexes: Option<Items<DeclaredKey>>,
}

/// A keyspace as a text declares it. It has no list of vindexes if the text has none.
#[derive(Drop)]
pub struct DeclaredKeyspace {
    pub name: Name,
    pub sharded: bool,
    pub vindexes: Option<Items<DeclaredVindex>>,
    pub tables: Items<DeclaredTable>,
}
