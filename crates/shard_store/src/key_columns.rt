//! By which columns a table's rows are stored. The vindex column comes first, so that a lookup by it walks few rows.
ghost use Rattle.std.specs.Prelude.{◌≡◌, IsTrue, IfOk, List};
ghost use Rattle.vt_value.specs.declared.value.Value.{Value};
ghost use Rattle.sql_eval.specs.Schema.{key_of};
ghost use Rattle.sql_eval.specs.Database.{same_row};
ghost use Rattle.sql_eval.specs.Checks.{has_number};
ghost use Rattle.shard_store.specs.Tables.{key_at};
ghost use Rattle.shard_store.specs.Places.{vindex_ordinals, key_ordinals, is_vindex_in_key};

use sql_eval::Table;
use std::alloc::{AllocError, Global};
use vt_value::Items;

fn is_vindex_column(table: &Table, ordinal: usize) -> bool
    ensures { result ≡ has_number (vindex_ordinals table.now.vindex) ordinal }
{
    match &table.vindex {
        Some(vindex) => vindex.column == ordinal,
        None => false,
    }
}

/// The ordinals of the columns by whose values a table's rows are stored: the vindex column first, so that the rows of one of its
/// values are adjacent, and then the others of the primary key. Rows have the same values there if they have the same
/// primary key. Refuses for want of memory.
pub fn key_ordinals(alloc: Global, table: &Table) -> Result<Items<usize>, AllocError>
    ensures ok { IfOk result (λ ordinals. ordinals ≡ key_ordinals table.now) }
    ensures keys { IsTrue (is_vindex_in_key table.now) → (a b : List Value)
        → same_row (key_at (key_ordinals table.now) a) (key_at (key_ordinals table.now) b) ≡ same_row (key_of table.now a) (key_of table.now b) }
{
    let mut ordinals = Items::new(alloc);
    if let Some(vindex) = &table.vindex {
        ordinals.push(vindex.column)?;
    }
    for ordinal in table.primary_key.as_slice() {
        if !is_vindex_column(table, *ordinal) {
            ordinals.push(*ordinal)?;
        }
    }
    Ok(ordinals)
}
