//! The columns of a table and the vindexes of a keyspace, found by name.
ghost use Rattle.std.specs.Prelude.{◌≡◌, map, slice_get, option_and_then, IfOk};
ghost use Rattle.vschema_json.specs.Faults.{ordinal_of, vindex_of, vindexes};

use crate::document::{DeclaredKeyspace, DeclaredTable, DeclaredVindex};
use crate::lookups::vindexes;
use crate::name_ordinals::NameOrdinals;
use crate::twice::names_of_columns;
use sql_tree::Name;
use std::alloc::{AllocError, Global};
use std::marker::Model;
use vindex::AnyVindex;

/// A table whose columns are found by name. Contracts see the table.
#[derive(Drop)]
pub struct TableIndex<'t> {
    table: &'t DeclaredTable,
    columns: NameOrdinals<'t>,
}

impl<'t> Model for TableIndex<'t> {
    ghost use Rattle.std.specs.Prelude.{◌≡◌, map};
    ghost use Rattle.vschema_json.specs.declared.document.DeclaredTable.{DeclaredTable};

    ghost Value = { DeclaredTable };

    ghost view = { λ t. t.table.now };

    ghost invariant = { λ t. t.columns ≡ map (λ c. c.name) t.table.now.columns };
}

impl<'t> TableIndex<'t> {
    /// That of a table. Refuses only for want of memory.
    pub fn of(alloc: Global, table: &'t DeclaredTable) -> Result<TableIndex<'t>, AllocError>
        ensures { IfOk result (λ t. t ≡ table.now) }
    {
        let names = names_of_columns(alloc, table.columns.as_slice())?;
        let columns = NameOrdinals::of(alloc, names)?;
        Ok(TableIndex { table, columns })
    }

    /// The table.
    pub fn table(&self) -> &'t DeclaredTable
        ensures { result.now ≡ self.now }
    {
        self.table
    }

    /// The ordinal of the first column with this name.
    pub fn ordinal_of(&self, name: &'t Name) -> Option<usize>
        ensures { result ≡ ordinal_of self.now name.now }
    {
        self.columns.ordinal_of(name)
    }
}

/// A keyspace whose vindexes are found by name. Contracts see the keyspace.
#[derive(Drop)]
pub struct KeyspaceIndex<'k> {
    keyspace: &'k DeclaredKeyspace,
    vindexes: NameOrdinals<'k>,
}

impl<'k> Model for KeyspaceIndex<'k> {
    ghost use Rattle.std.specs.Prelude.{◌≡◌, map};
    ghost use Rattle.vschema_json.specs.Faults.{vindexes as declared};
    ghost use Rattle.vschema_json.specs.declared.document.DeclaredKeyspace.{DeclaredKeyspace};

    ghost Value = { DeclaredKeyspace };

    ghost view = { λ k. k.keyspace.now };

    ghost invariant = { λ k. k.vindexes ≡ map (λ v. v.name) (declared k.keyspace.now) };
}

fn names_of_vindexes(alloc: Global, vindexes: &[DeclaredVindex]) -> Result<Vec<&[u8]>, AllocError>
    ensures { IfOk result (λ texts. map (λ n. n.now) texts.items ≡ map (λ v. v.name) vindexes.now) }
{
    let mut texts = Vec::new(alloc);
    for vindex in vindexes {
        texts.push(vindex.name.as_slice())?;
    }
    Ok(texts)
}

// The type of the vindex at this ordinal, if it is known.
fn kind_at(vindexes: &[DeclaredVindex], ordinal: Option<usize>) -> Option<AnyVindex>
    ensures { result ≡ option_and_then (λ v. v.kind) (option_and_then (slice_get vindexes.now) ordinal) }
{
    vindexes.get(ordinal?)?.kind
}

impl<'k> KeyspaceIndex<'k> {
    /// That of a keyspace. Refuses only for want of memory.
    pub fn of(
        alloc: Global,
        keyspace: &'k DeclaredKeyspace,
    ) -> Result<KeyspaceIndex<'k>, AllocError>
        ensures { IfOk result (λ k. k ≡ keyspace.now) }
    {
        let names = names_of_vindexes(alloc, vindexes(keyspace))?;
        let vindexes = NameOrdinals::of(alloc, names)?;
        Ok(KeyspaceIndex { keyspace, vindexes })
    }

    /// The keyspace.
    pub fn keyspace(&self) -> &'k DeclaredKeyspace
        ensures { result.now ≡ self.now }
    {
        self.keyspace
    }

    /// The vindex that the keyspace declares under this name, if its type is known.
    pub fn vindex_of(&self, name: &'k Name) -> Option<AnyVindex>
        ensures { result ≡ vindex_of self.now name.now }
    {
        kind_at(vindexes(self.keyspace), self.vindexes.ordinal_of(name))
    }
}
