//! Equal shards and changes, with memory of their own, and two helpers for values that are handed on.
ghost use Rattle.std.specs.Prelude.{◌≡◌, ◌∷◌, [], Ok, Err, IfOk, IfErr};

use shard_law::ShardRecord;
use std::alloc::{AllocError, Global};
use vschema::{Place, RowChange};
use vt_value::{Items, copy_row};

/// An equal shard.
pub fn copy_shard(alloc: Global, shard: &ShardRecord) -> Result<ShardRecord, AllocError>
    ensures ok { IfOk result (λ s. s ≡ shard.now) }
{
    let sources = Items::from_slice(alloc, shard.sources.as_slice())?;
    let place = Place {
        keyspace: shard.place.keyspace,
        range: shard.place.range,
    };
    Ok(ShardRecord {
        slot: shard.slot,
        place,
        sources,
    })
}

/// An equal change.
pub fn copy_change(alloc: Global, change: &RowChange) -> Result<RowChange, AllocError>
    ensures ok { IfOk result (λ c. c ≡ change.now) }
{
    match change {
        RowChange::Added(place, row) => Ok(RowChange::Added(*place, copy_row(alloc, row)?)),
        RowChange::Replaced(place, old, new) => {
            let old = copy_row(alloc, old)?;
            Ok(RowChange::Replaced(*place, old, copy_row(alloc, new)?))
        }
        RowChange::Removed(place, row) => Ok(RowChange::Removed(*place, copy_row(alloc, row)?)),
    }
}

/// Equal changes.
pub fn copy_changes(alloc: Global, changes: &[RowChange]) -> Result<Vec<RowChange>, AllocError>
    ensures ok { IfOk result (λ v. v.items ≡ changes.now) }
{
    let mut copied = Vec::new(alloc);
    for change in changes {
        copied.push(copy_change(alloc, change)?)?;
    }
    Ok(copied)
}

/// A list of one item.
pub fn one<T: Drop>(alloc: Global, item: T) -> Result<Items<T>, AllocError>
    ensures ok { IfOk result (λ items. items ≡ item ∷ []) }
{
    let mut items = Items::new(alloc);
    items.push(item)?;
    Ok(items)
}

/// The value with what was got; if nothing was got, the value is dropped here, and not at each place that calls this.
pub fn with_owned<T, U: Drop, E>(got: Result<T, E>, owned: U) -> Result<(T, U), E>
    ensures ok { IfOk result (λ both. (got ≡ Ok both.0) × (both.1 ≡ owned)) }
    ensures err { IfErr result (λ e. got ≡ Err e) }
{
    match got {
        Ok(value) => Ok((value, owned)),
        Err(error) => Err(error),
    }
}
