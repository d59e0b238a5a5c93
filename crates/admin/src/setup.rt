//! Opens a router with empty tables together with the administrator of its sharded keyspace, over one journal.
ghost use Rattle.std.specs.Prelude.{◌≡◌, ◌≤◌, ◌^◌, [], None, IsTrue, IfOk, drop, length};
ghost use Rattle.vschema.specs.WellFormed.{is_vschema};
ghost use Rattle.journal.specs.Views.{fresh_seats, new_pass};
ghost use Rattle.shard_run.specs.Openings.{IsOpening};
ghost use Rattle.shard_run.specs.opening.Empty.{empty_shards, opening_of, FitRanges};
ghost use Rattle.admin.specs.Idle.{opening_workflow};

use crate::administrator::Administrator;
use crate::router::empty_router;
use journal::{Naming, Opened, Opener, ShardSeat};
use keyrange::KeyRange;
use reshard::{ReshardConfig, Workflow};
use route_engine::{Engine, Gate, Limits, ShardLaw, ShardPass, World};
use shard_run::opening::sharded_keyspace;
use std::alloc::{AllocError, Global};
use vschema::VSchema;

// The administrator of the sharded keyspace over the free slots, without a workflow.
fn idle_administrator<W: World, J: Naming>(
    alloc: Global,
    schema: &VSchema,
    ranges: &[KeyRange],
    limits: Limits,
    free: Vec<ShardSeat<ShardLaw<W>, J>>,
) -> Administrator<W, J>
    requires opens { IsOpening W.opening }
    requires opening { W.opening ≡ opening_of schema.now ranges.now }
    requires limits { W.limits ≡ limits }
    requires most_rows { limits.rows ≤ 2 ^ 20 }
    requires most_stored { limits.stored ≤ 2 ^ 20 }
    requires free { free.items ≡ drop (length (empty_shards schema.now ranges.now)) (fresh_seats 64) }
    ensures { result ≡ opening_workflow schema.now ranges.now }
{
    let _ = ranges;
    match sharded_keyspace(schema) {
        Some(keyspace) => {
            let config = ReshardConfig { keyspace, limits };
            Administrator::new(Some(Workflow::new(alloc, config, free)))
        }
        None => {
            drop(free);
            Administrator::new(None)
        }
    }
}

// Promise: A router is opened with the administrator of its sharded keyspace, which has no workflow and the slots that no shard has
/// The engine over a VSchema and the ranges of its sharded keyspace, whose tables are empty, in the journal that was opened; the
/// administrator of its sharded keyspace, which has no workflow and the slots that none of the shards is on; the opener of its sessions,
/// and a first pass, which has seen nothing. Each shard has these limits, and so many statements may wait in its buffer. It refuses only for
/// want of memory. The clauses tie the VSchema, the ranges, the limits and the journal to the world, so that they are handed over one by one.
pub fn administered_router<W: World + Send + Sync, J: Naming + Send + Sync, G: Gate>(
    alloc: Global,
    schema: VSchema,
    ranges: &[KeyRange],
    limits: Limits,
    opened: Opened<ShardLaw<W>>,
    buffer_size: u64,
    gate: G,
) -> Result<
    (
        Engine<W, J, G>,
        Administrator<W, J>,
        Opener<ShardLaw<W>, J>,
        ShardPass<W, J>,
    ),
    AllocError,
>
    requires name { opened ≡ J.table }
    requires opening { W.opening ≡ opening_of schema ranges.now }
    requires limits { W.limits ≡ limits }
    requires most_rows { limits.rows ≤ 2 ^ 20 }
    requires most_stored { limits.stored ≤ 2 ^ 20 }
    requires schema { IsTrue (is_vschema schema) }
    requires ranges { FitRanges schema ranges.now }
    ensures schema { IfOk result (λ r. r.0 ≡ schema) }
    ensures administrator { IfOk result (λ r. r.1 ≡ opening_workflow schema ranges.now) }
    ensures opener { IfOk result (λ r. r.2 ≡ 0) }
    ensures pass { IfOk result (λ r. r.3 ≡ new_pass [] None) }
{
    let (engine, opener, pass, free) = empty_router::<W, J, G>(
        alloc,
        schema,
        ranges,
        limits,
        opened,
        buffer_size,
        gate,
    )?;
    let administrator = idle_administrator(alloc, engine.schema(), ranges, limits, free);
    Ok((engine, administrator, opener, pass))
}
