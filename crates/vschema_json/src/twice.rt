//! Whether names come twice, in time n log n, whatever the names are.
ghost use Rattle.std.specs.Prelude.{◌≡◌, ◌++◌, map, IfOk};
ghost use Rattle.vschema_json.specs.Twice.{has_twice};
ghost use Rattle.vschema_json.specs.Faults.{all_tables};

use crate::column::Column;
use crate::document::{DeclaredKeyspace, DeclaredTable};
use sql_tree::Name;
use std::alloc::{AllocError, Global};
use std::collections::BTreeSet;

/// Whether one of the texts comes twice. Refuses only for want of memory.
pub fn is_one_twice(alloc: Global, names: &[&[u8]]) -> Result<bool, AllocError>
    ensures { IfOk result (λ twice. twice ≡ has_twice (map (λ n. n.now) names.now)) }
{
    let mut later = BTreeSet::new(alloc);
    for i in (0..names.len()).rev() {
        if !later.insert(names[i])? {
            return Ok(true);
        }
    }
    Ok(false)
}

/// The texts that names are.
pub fn texts_of(alloc: Global, names: &[Name]) -> Result<Vec<&[u8]>, AllocError>
    ensures { IfOk result (λ texts. map (λ n. n.now) texts.items ≡ names.now) }
{
    let mut texts = Vec::new(alloc);
    for name in names {
        texts.push(name.as_slice())?;
    }
    Ok(texts)
}

/// The names of columns.
pub fn names_of_columns(alloc: Global, columns: &[Column]) -> Result<Vec<&[u8]>, AllocError>
    ensures { IfOk result (λ texts. map (λ n. n.now) texts.items ≡ map (λ c. c.name) columns.now) }
{
    let mut texts = Vec::new(alloc);
    for column in columns {
        texts.push(column.name.as_slice())?;
    }
    Ok(texts)
}

// The texts, and then the names of the tables.
fn with_tables<'d>(
    texts: Vec<&'d [u8]>,
    tables: &'d [DeclaredTable],
) -> Result<Vec<&'d [u8]>, AllocError>
    ensures { IfOk result (λ all. map (λ n. n.now) all.items ≡ map (λ n. n.now) texts.entry.items ++ map (λ t. t.name) tables.now) }
{
    let mut all = texts;
    for table in tables {
        all.push(table.name.as_slice())?;
    }
    Ok(all)
}

fn names_of_tables(alloc: Global, keyspaces: &[DeclaredKeyspace]) -> Result<Vec<&[u8]>, AllocError>
    ensures { IfOk result (λ texts. map (λ n. n.now) texts.items ≡ map (λ t. t.name) (all_tables keyspaces.now)) }
{
    let mut texts = Vec::new(alloc);
    for keyspace in keyspaces {
        texts = with_tables(texts, keyspace.tables.as_slice())?;
    }
    Ok(texts)
}

/// Whether a name comes twice. Refuses only for want of memory.
pub fn has_twice(alloc: Global, names: &[Name]) -> Result<bool, AllocError>
    ensures { IfOk result (λ twice. twice ≡ has_twice names.now) }
{
    let texts = texts_of(alloc, names)?;
    is_one_twice(alloc, &texts)
}

/// Whether two columns have one name. Refuses only for want of memory.
pub fn has_column_twice(alloc: Global, columns: &[Column]) -> Result<bool, AllocError>
    ensures { IfOk result (λ twice. twice ≡ has_twice (map (λ c. c.name) columns.now)) }
{
    let texts = names_of_columns(alloc, columns)?;
    is_one_twice(alloc, &texts)
}

/// Whether two tables have one name. Refuses only for want of memory.
pub fn has_table_twice(alloc: Global, keyspaces: &[DeclaredKeyspace]) -> Result<bool, AllocError>
    ensures { IfOk result (λ twice. twice ≡ has_twice (map (λ t. t.name) (all_tables keyspaces.now))) }
{
    let texts = names_of_tables(alloc, keyspaces)?;
    is_one_twice(alloc, &texts)
}
