//! Opens a router with empty tables: makes a shard for each range, and the engine over them.
ghost use Rattle.std.specs.Prelude.{◌≡◌, ◌==◌, ℕ, ◌<◌, ◌≤◌, ◌^◌, [], None, IsTrue, IfOk, Contains, length, map, filter, take, drop, slice_index_or};
ghost use Rattle.std.specs.List.{range_with_len};
ghost use Rattle.vschema.specs.WellFormed.{is_vschema};
ghost use Rattle.journal.specs.Views.{fresh_seats, new_pass};
ghost use Rattle.shard_run.specs.declared.ShardRecord as which;
ghost use Rattle.shard_run.specs.Runs.{first_rows};
ghost use Rattle.shard_run.specs.Openings.{IsOpening};
ghost use Rattle.route_engine.specs.Entries.{most_limits, opening_shards};
ghost use Rattle.route_engine.specs.Seats.{seat_of};
ghost use Rattle.shard_run.specs.opening.Empty.{opening_of, FitRanges};

use buffer::Buffer;
use journal::{Naming, Opened, Opener, ShardSeat};
use keyrange::KeyRange;
use route_engine::{
    Engine, Gate, Limits, MOST_ROWS, MOST_STORED, Shard, ShardLaw, ShardPass, ShardState, Store,
    World, copy_shard,
};
use serving::{Partition, Serving, ShardReference};
use shard_run::Mode;
use shard_run::opening::opening_shards;
use std::alloc::{AllocError, Global};
use std::sync::Arc;
use vschema::{Table, VSchema};

// A store of these tables, without rows.
fn empty_store(alloc: Global, tables: &[Table]) -> Result<Store, AllocError>
    ensures ok { IfOk result (λ store. store.rows ≡ map (λ t. []) tables.now) }
{
    let mut store = Store::new(alloc);
    for table in tables {
        store.push_table(alloc, table)?;
    }
    Ok(store)
}

// An opening shard whose tables are empty, with the seat of its slot.
fn empty_shard<W: World, J: Naming>(
    alloc: Global,
    tables: &[Table],
    limits: Limits,
    seat: ShardSeat<ShardLaw<W>, J>,
    shard: &shard_run::ShardRecord,
) -> Result<Arc<Shard<W, J>, Global>, AllocError>
    requires opens { IsOpening W.opening }
    requires limits { W.limits ≡ limits }
    requires most_rows { limits.rows ≤ 2 ^ 20 }
    requires most_stored { limits.stored ≤ 2 ^ 20 }
    requires rows { first_rows W.opening shard.now ≡ map (λ t. []) tables.now }
    requires opening { Contains (opening_shards W.opening) shard.now }
    requires seat { seat ≡ record { seen = []; slot = shard.now.slot } }
    ensures seat { IfOk result (λ held. held.value ≡ seat_of shard.now) }
{
    let store = empty_store(alloc, tables)?;
    let copy = copy_shard(alloc, shard)?;
    let state = ShardState::new(alloc, seat, copy, store, Mode::Serving, limits);
    Ok(Arc::new(alloc, Shard::new(state))?)
}

/// The limits of a shard that may hold the most.
pub fn widest_limits() -> Limits
    ensures { result ≡ most_limits }
{
    Limits {
        rows: MOST_ROWS,
        stored: MOST_STORED,
    }
}

// The opening shards, each with the seat of its slot.
fn empty_shards<W: World, J: Naming>(
    alloc: Global,
    tables: &[Table],
    limits: Limits,
    shards: &[shard_run::ShardRecord],
    seats: Vec<ShardSeat<ShardLaw<W>, J>>,
) -> Result<Vec<Arc<Shard<W, J>, Global>>, AllocError>
    requires opens { IsOpening W.opening }
    requires limits { W.limits ≡ limits }
    requires most_rows { limits.rows ≤ 2 ^ 20 }
    requires most_stored { limits.stored ≤ 2 ^ 20 }
    requires rows { (s : which.ShardRecord) → Contains (opening_shards W.opening) s → first_rows W.opening s ≡ map (λ t. []) tables.now }
    requires opening { opening_shards W.opening ≡ shards.now }
    requires slots { (i : ℕ) (d : which.ShardRecord) → i < length shards.now → (slice_index_or shards.now i d).slot ≡ i }
    requires few { length shards.now ≤ 64 }
    requires seats { seats.items ≡ take (length shards.now) (fresh_seats 64) }
    ensures ok { IfOk result (λ held. map (λ h. h.value) held.items ≡ map seat_of shards.now) }
{
    let mut seats = seats.into_iter();
    let mut held = Vec::new(alloc);
    for shard in shards {
        let seat = seats.next().unwrap();
        held.push(empty_shard(alloc, tables, limits, seat, shard)?)?;
    }
    Ok(held)
}

// The opening shards, and the seats after theirs.
fn shards_and_seats<W: World, J: Naming>(
    alloc: Global,
    tables: &[Table],
    limits: Limits,
    shards: &[shard_run::ShardRecord],
    seats: Vec<ShardSeat<ShardLaw<W>, J>>,
) -> Result<
    (
        Vec<Arc<Shard<W, J>, Global>>,
        Vec<ShardSeat<ShardLaw<W>, J>>,
    ),
    AllocError,
>
    requires opens { IsOpening W.opening }
    requires limits { W.limits ≡ limits }
    requires most_rows { limits.rows ≤ 2 ^ 20 }
    requires most_stored { limits.stored ≤ 2 ^ 20 }
    requires rows { (s : which.ShardRecord) → Contains (opening_shards W.opening) s → first_rows W.opening s ≡ map (λ t. []) tables.now }
    requires opening { opening_shards W.opening ≡ shards.now }
    requires slots { (i : ℕ) (d : which.ShardRecord) → i < length shards.now → (slice_index_or shards.now i d).slot ≡ i }
    requires few { length shards.now ≤ 64 }
    requires seats { seats.items ≡ fresh_seats 64 }
    ensures held { IfOk result (λ r. map (λ h. h.value) r.0.items ≡ map seat_of shards.now) }
    ensures free { IfOk result (λ r. r.1.items ≡ drop (length shards.now) (fresh_seats 64)) }
{
    let mut seats = seats;
    let free = seats.split_off(shards.len())?;
    match empty_shards(alloc, tables, limits, shards, seats) {
        Ok(held) => Ok((held, free)),
        Err(error) => {
            drop(free);
            Err(error)
        }
    }
}

// The parts of a keyspace, in the order of its shards.
fn keyspace_parts<W: World, J: Naming>(
    alloc: Global,
    keyspace: usize,
    shards: &[shard_run::ShardRecord],
    held: &[Arc<Shard<W, J>, Global>],
) -> Result<Vec<ShardReference<Shard<W, J>>>, AllocError>
    requires held { map (λ h. h.value) held.now ≡ map seat_of shards.now }
    ensures ok { IfOk result (λ parts. parts.items ≡ map seat_of (filter (λ s. s.place.keyspace == keyspace) shards.now)) }
{
    let mut parts = Vec::new(alloc);
    for (i, shard) in shards.iter().enumerate() {
        if shard.place.keyspace == keyspace {
            parts.push(ShardReference::new(Arc::try_clone(&held[i])?))?;
        }
    }
    Ok(parts)
}

// The partitions of each keyspace, in the order of the VSchema, which begin with the opening's.
fn opening_keyspaces<W: World, J: Naming>(
    alloc: Global,
    keyspaces: usize,
    shards: &[shard_run::ShardRecord],
    held: &[Arc<Shard<W, J>, Global>],
) -> Result<Vec<Serving<Shard<W, J>>>, AllocError>
    requires opens { IsOpening W.opening }
    requires opening { opening_shards W.opening ≡ shards.now }
    requires each { keyspaces ≡ length W.opening.schema.keyspaces }
    requires held { map (λ h. h.value) held.now ≡ map seat_of shards.now }
    ensures each { IfOk result (λ all. all.items ≡ range_with_len 0 keyspaces) }
{
    let mut all = Vec::new(alloc);
    for keyspace in 0..keyspaces {
        let parts = keyspace_parts(alloc, keyspace, shards, held)?;
        let opening = Partition::new(keyspace, parts);
        all.push(Serving::new(alloc, keyspace, opening)?)?;
    }
    Ok(all)
}

// The opening shards, the partitions of so many keyspaces, which begin with the opening's, and the seats after those of the shards.
fn held_and_served<W: World, J: Naming>(
    alloc: Global,
    tables: &[Table],
    limits: Limits,
    keyspaces: usize,
    shards: &[shard_run::ShardRecord],
    seats: Vec<ShardSeat<ShardLaw<W>, J>>,
) -> Result<
    (
        Vec<Arc<Shard<W, J>, Global>>,
        Vec<Serving<Shard<W, J>>>,
        Vec<ShardSeat<ShardLaw<W>, J>>,
    ),
    AllocError,
>
    requires opens { IsOpening W.opening }
    requires limits { W.limits ≡ limits }
    requires most_rows { limits.rows ≤ 2 ^ 20 }
    requires most_stored { limits.stored ≤ 2 ^ 20 }
    requires each { keyspaces ≡ length W.opening.schema.keyspaces }
    requires rows { (s : which.ShardRecord) → Contains (opening_shards W.opening) s → first_rows W.opening s ≡ map (λ t. []) tables.now }
    requires opening { opening_shards W.opening ≡ shards.now }
    requires slots { (i : ℕ) (d : which.ShardRecord) → i < length shards.now → (slice_index_or shards.now i d).slot ≡ i }
    requires few { length shards.now ≤ 64 }
    requires seats { seats.items ≡ fresh_seats 64 }
    ensures held { IfOk result (λ r. map (λ h. h.value) r.0.items ≡ map seat_of shards.now) }
    ensures each { IfOk result (λ r. r.1.items ≡ range_with_len 0 keyspaces) }
    ensures free { IfOk result (λ r. r.2.items ≡ drop (length shards.now) (fresh_seats 64)) }
{
    let (held, free) = shards_and_seats(alloc, tables, limits, shards, seats)?;
    match opening_keyspaces(alloc, keyspaces, shards, held.as_slice()) {
        Ok(all) => Ok((held, all, free)),
        Err(error) => {
            drop(held);
            drop(free);
            Err(error)
        }
    }
}

/// The shards of an opening without rows, in the journal that was opened, the partitions that each keyspace begins with, the opener of
/// their sessions, a first pass, which has seen nothing, and the seats of the slots on which none of these shards is.
pub fn opened_seats<W: World, J: Naming>(
    alloc: Global,
    schema: &VSchema,
    ranges: &[KeyRange],
    limits: Limits,
    opened: Opened<ShardLaw<W>>,
) -> Result<
    (
        Vec<Arc<Shard<W, J>, Global>>,
        Vec<Serving<Shard<W, J>>>,
        Opener<ShardLaw<W>, J>,
        ShardPass<W, J>,
        Vec<ShardSeat<ShardLaw<W>, J>>,
    ),
    AllocError,
>
    requires name { opened ≡ J.table }
    requires opening { W.opening ≡ opening_of schema.now ranges.now }
    requires limits { W.limits ≡ limits }
    requires most_rows { limits.rows ≤ 2 ^ 20 }
    requires most_stored { limits.stored ≤ 2 ^ 20 }
    requires schema { IsTrue (is_vschema schema.now) }
    requires ranges { FitRanges schema.now ranges.now }
    ensures opens { IfOk result (λ r. IsOpening W.opening) }
    ensures held { IfOk result (λ r. map (λ h. h.value) r.0.items ≡ map seat_of (opening_shards W.opening)) }
    ensures each { IfOk result (λ r. r.1.items ≡ range_with_len 0 (length schema.now.keyspaces)) }
    ensures opener { IfOk result (λ r. r.2 ≡ 0) }
    ensures pass { IfOk result (λ r. r.3 ≡ new_pass [] None) }
    ensures free { IfOk result (λ r. r.4.items ≡ drop (length (opening_shards W.opening)) (fresh_seats 64)) }
{
    let shards = opening_shards(alloc, schema, ranges)?;
    let (seats, opener, pass) = opened.named::<J>(alloc)?;
    let tables = schema.tables.as_slice();
    let keyspaces = schema.keyspaces.len();
    let made = held_and_served(alloc, tables, limits, keyspaces, shards.as_slice(), seats);
    drop(shards);
    match made {
        Ok((held, all, free)) => Ok((held, all, opener, pass, free)),
        Err(error) => {
            drop(opener);
            drop(pass);
            Err(error)
        }
    }
}

// Promise: The engine over a well-formed VSchema and ranges that fit, with no rows: each opening shard on the seat of its slot; the opener
// of its sessions, a pass that has seen nothing, and the seats that no shard is on
// With: opened_seats
/// The engine over a VSchema and the ranges of its sharded keyspace, whose tables are empty, in the journal that was opened; the opener
/// of its sessions, a first pass, which has seen nothing, and the seats of the slots on which none of its shards is. Each shard has these
/// limits, and so many statements may wait in its buffer. It refuses only for want of memory.
/// What it is made of comes from the program's words and its input, one by one.
pub fn empty_router<W: World + Send + Sync, J: Naming + Send + Sync, G: Gate>(
    alloc: Global,
    schema: VSchema,
    ranges: &[KeyRange],
    limits: Limits,
    opened: Opened<ShardLaw<W>>,
    buffer_size: u64,
    gate: G,
) -> Result<
    (
        Engine<W, J, G>,
        Opener<ShardLaw<W>, J>,
        ShardPass<W, J>,
        Vec<ShardSeat<ShardLaw<W>, J>>,
    ),
    AllocError,
>
    requires name { opened ≡ J.table }
    requires opening { W.opening ≡ opening_of schema ranges.now }
    requires limits { W.limits ≡ limits }
    requires most_rows { limits.rows ≤ 2 ^ 20 }
    requires most_stored { limits.stored ≤ 2 ^ 20 }
    requires schema { IsTrue (is_vschema schema) }
    requires ranges { FitRanges schema ranges.now }
    ensures schema { IfOk result (λ r. r.0 ≡ schema) }
    ensures opener { IfOk result (λ r. r.1 ≡ 0) }
    ensures pass { IfOk result (λ r. r.2 ≡ new_pass [] None) }
    ensures opens { IfOk result (λ r. IsOpening W.opening) }
    ensures free { IfOk result (λ r. r.3.items ≡ drop (length (opening_shards W.opening)) (fresh_seats 64)) }
{
    let (held, keyspaces, opener, pass, free) = opened_seats::<W, J>(
        alloc, &schema, ranges, limits, opened,
    )?;
    drop(held);
    let engine = Engine::new(schema, keyspaces, Buffer::new(buffer_size), gate);
    Ok((engine, opener, pass, free))
}
