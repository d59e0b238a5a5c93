//! Which shards a router opens with over a VSchema and ranges, and when ranges make an opening.
ghost use Rattle.std.specs.Prelude.{◌≡◌, ◌++◌, ◌↔◌, [], length, map, replicate, IfOk, OnOk, IsTrue};
ghost use Rattle.std.specs.List.{AllByRecursion};
ghost use Rattle.vschema.specs.Names.{IsNamed};
ghost use Rattle.vschema.specs.WellFormed.{is_vschema};
ghost use Rattle.shard_run.specs.Openings.{IsOpening};
ghost use Rattle.shard_run.specs.opening.Empty.{unsharded_keyspace, sharded_keyspace, keyspace_shards, no_rows, opening_of, FitRanges};

use crate::ShardRecord;
use std::alloc::{AllocError, Global};
use vschema::{Items, KeyRange, Place, VSchema, covers_once};

// The keyspace that isn't sharded.
fn unsharded_keyspace(schema: &VSchema) -> Option<usize>
    ensures { result ≡ unsharded_keyspace schema.now }
{
    for (ordinal, keyspace) in schema.keyspaces.as_slice().iter().enumerate() {
        if !keyspace.sharded {
            return Some(ordinal);
        }
    }
    None
}

/// The ordinal of the keyspace that is sharded; a VSchema has at most one.
pub fn sharded_keyspace(schema: &VSchema) -> Option<usize>
    ensures { result ≡ sharded_keyspace schema.now }
{
    for (ordinal, keyspace) in schema.keyspaces.as_slice().iter().enumerate() {
        if keyspace.sharded {
            return Some(ordinal);
        }
    }
    None
}

// Shards of the keyspace, if there is one, on the next slots: one for each range.
fn push_shards(
    shards: &mut Items<ShardRecord>,
    alloc: Global,
    keyspace: Option<usize>,
    ranges: &[KeyRange],
) -> Result<(), AllocError>
    ensures { OnOk result (shards.new ≡ shards.old ++ keyspace_shards (length shards.old) keyspace ranges.now) }
{
    let Some(keyspace) = keyspace else {
        return Ok(());
    };
    for range in ranges {
        let shard = ShardRecord {
            slot: shards.len(),
            place: Place {
                keyspace,
                range: *range,
            },
            sources: Items::new(alloc),
        };
        shards.push(shard)?;
    }
    Ok(())
}

// Promise: The shards without rows: slot 0 for the unsharded keyspace, if there is one, and on the next slots one for each range of the
// sharded one; a well-formed VSchema with ranges that fit makes them an opening
// With: empty_tables
/// The shards of the opening that has no rows: one on slot 0 for the unsharded keyspace, if there is one, and on the
/// next slots one for each range of the sharded keyspace, if there is one. Ranges that have names, hold each keyspace
/// id once and fit into 64 slots make it an opening. It refuses only for want of memory.
pub fn opening_shards(
    alloc: Global,
    schema: &VSchema,
    ranges: &[KeyRange],
) -> Result<Items<ShardRecord>, AllocError>
    ensures shards { IfOk result (λ shards. shards ≡ map (λ p. p.0) (opening_of schema.now ranges.now).shards) }
    ensures opening { IsTrue (is_vschema schema.now) → FitRanges schema.now ranges.now → IsOpening (opening_of schema.now ranges.now) }
{
    let mut shards = Items::new(alloc);
    let full = [KeyRange::full()];
    push_shards(&mut shards, alloc, unsharded_keyspace(schema), &full)?;
    push_shards(&mut shards, alloc, sharded_keyspace(schema), ranges)?;
    Ok(shards)
}

// Promise: Ranges with names fit exactly when the sharded keyspace, if there is one, has each keyspace id in one of them, and there are at most
// 64 shards
/// Whether the shards over ranges that have names make an opening: they hold each keyspace id of the sharded keyspace once, if there is one,
/// and fit into 64 slots. It refuses only for want of memory.
pub fn ranges_fit(alloc: Global, schema: &VSchema, ranges: &[KeyRange]) -> Result<bool, AllocError>
    requires named { AllByRecursion IsNamed ranges.now }
    ensures fit { IfOk result (λ b. IsTrue b ↔ FitRanges schema.now ranges.now) }
{
    let shards = opening_shards(alloc, schema, ranges)?;
    if shards.len() > 64 {
        return Ok(false);
    }
    Ok(sharded_keyspace(schema).is_none() || covers_once(ranges))
}

/// The number of empty lists of rows with which a shard of that opening begins: one for each table.
pub fn empty_tables(schema: &VSchema) -> usize
    ensures { no_rows schema.now ≡ replicate result [] }
{
    schema.tables.len()
}
