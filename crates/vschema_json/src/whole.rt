//! The faults that concern all keyspaces together: how many there are of each sort, and how many tables.
ghost use Rattle.std.specs.Prelude.{◌≡◌, not, filter, length, nat_lt, IfOk};
ghost use Rattle.vschema_json.specs.Faults.{all_tables, whole_has};

use crate::document::DeclaredKeyspace;
use crate::fault::SchemaFault;
use crate::twice::has_table_twice;
use std::alloc::{AllocError, Global};

/// The most tables of all keyspaces.
const MAX_TABLES: usize = 256;

fn has_too_many_tables(keyspaces: &[DeclaredKeyspace]) -> bool
    ensures { result ≡ nat_lt 256 (length (all_tables keyspaces.now)) }
{
    let mut left = MAX_TABLES;
    for keyspace in keyspaces {
        let count = keyspace.tables.len();
        if left < count {
            return true;
        }
        left -= count;
    }
    false
}

fn count_sharded(keyspaces: &[DeclaredKeyspace]) -> usize
    ensures { result ≡ length (filter (λ k. k.sharded) keyspaces.now) }
{
    keyspaces.iter().filter(|keyspace| keyspace.sharded).count()
}

fn count_unsharded(keyspaces: &[DeclaredKeyspace]) -> usize
    ensures { result ≡ length (filter (λ k. not k.sharded) keyspaces.now) }
{
    keyspaces
        .iter()
        .filter(|keyspace| !keyspace.sharded)
        .count()
}

fn is_above_limit(keyspaces: &[DeclaredKeyspace]) -> bool
    ensures { result ≡ whole_has SchemaFault.AboveLimit keyspaces.now }
{
    count_sharded(keyspaces) > 1 || count_unsharded(keyspaces) > 1 || has_too_many_tables(keyspaces)
}

/// Whether the fault is one of the keyspaces together. Refuses only for want of memory.
pub fn whole_has(
    alloc: Global,
    fault: SchemaFault,
    keyspaces: &[DeclaredKeyspace],
) -> Result<bool, AllocError>
    ensures { IfOk result (λ has. has ≡ whole_has fault keyspaces.now) }
{
    match fault {
        SchemaFault::IllFormed => Ok(keyspaces.is_empty()),
        SchemaFault::NamedTwice => has_table_twice(alloc, keyspaces),
        SchemaFault::AboveLimit => Ok(is_above_limit(keyspaces)),
        _ => Ok(false),
    }
}
