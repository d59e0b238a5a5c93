//! Makes the targets of a workflow, on free slots, each with the sources that overlap it.
ghost use Rattle.shard_run.specs.declared.ShardRecord as which;
ghost use Rattle.std.specs.Prelude.{◌≡◌, ◌-◌, ◌+◌, ◌≤◌, ◌<◌, ◌^◌, ◌++◌, ◌∷◌, [], List, IfOk, IfErr, OnOk, OnErr, MatchOption, map, reverse, length, replicate, vec_len, vec_capacity};
ghost use Rattle.std.specs.List.{AllByRecursion};
ghost use Rattle.keyrange.specs.Names.{IsNamed};
ghost use Rattle.journal.specs.Runs.{IsLegal};
ghost use Rattle.shard_run.specs.Openings.{IsOpening};
ghost use Rattle.shard_law.specs.Entries.{MayFollow};
ghost use Rattle.reshard_cutover.specs.FollowSteps.{IsOnward};
ghost use Rattle.reshard_create.specs.split.Splits.{target_seats, AreOverlapped};
ghost use Rattle.shard.specs.Seats.{seat_of};
ghost use Rattle.reshard_create.specs.Configs.{IsFree, IsReshardConfig};
ghost use Rattle.reshard_create.specs.Begun.{IsServing, IsAway, IsNotFollowing, EndsInLookAt};
ghost use Rattle.reshard_cutover.specs.Turns.{HasLookedAt};
ghost use Rattle.reshard_create.specs.inner.Created.{IsSeenAt, HasSeen, IsMade, IsMadeOf};

use crate::config::ReshardConfig;
use crate::looks::look_at;
use crate::seats_back::{give_back, put, seat_back};
use crate::split::overlapping_sources;
use journal::{Naming, ShardSeat};
use keyrange::KeyRange;
use reshard_cutover::{SourceShard, TargetShard, WorkflowShard, serves};
use serving::ShardReference;
use shard::{
    Limits, Place, Shard, ShardLaw, ShardPass, ShardState, Store, VSchema, World, copy_shard,
};
use shard_run::Mode;
use std::alloc::{AllocError, Global};
use std::sync::{Arc, Wait};

fn member_of<W: World, J: Naming>(
    part: &ShardReference<Shard<W, J>>,
    which: shard_run::ShardRecord,
) -> Result<WorkflowShard<W, J>, AllocError>
    ensures ok { IfOk result (λ m. m.which ≡ which) }
{
    let shard = Arc::try_clone(part.shard())?;
    Ok(WorkflowShard { which, shard })
}

// The shard of a part, if it serves and isn't frozen.
pub(crate) fn source_of<W: World, J: Naming>(
    rt: &impl Wait,
    alloc: Global,
    pass: &mut ShardPass<W, J>,
    keyspace: usize,
    part: &ShardReference<Shard<W, J>>,
) -> Result<Option<WorkflowShard<W, J>>, AllocError>
    requires legal { IsLegal (MayFollow W.opening) pass.old.seen }
    ensures found { IfOk result (λ r. MatchOption r (HasSeen W.opening pass.old pass.new keyspace IsAway part.now)
        (λ m. IsSeenAt W.opening pass.old pass.new keyspace IsServing part.now m.which)) }
    ensures seen { HasSeen W.opening pass.old pass.new keyspace IsNotFollowing part.now }
    ensures looked { HasLookedAt (part.now.0 ∷ []) pass.old pass.new }
    ensures ends { EndsInLookAt part.now.0 pass.new }
    ensures onward { IsOnward W.opening pass.old pass.new }
{
    let which = {
        let state = look_at(rt, pass, keyspace, part);
        if !serves(&state) {
            return Ok(None);
        }
        copy_shard(alloc, state.shard())?
    };
    let member = member_of(part, which)?;
    Ok(Some(member))
}

// A store of the tables, which are empty.
fn empty_store(alloc: Global, schema: &VSchema) -> Result<Store, AllocError>
    ensures ok { IfOk result (λ store. store.rows ≡ replicate (length schema.now.tables) []) }
{
    let mut store = Store::new(alloc);
    for table in schema.tables.as_slice() {
        store.push_table(alloc, table)?;
    }
    Ok(store)
}

// The state of a target's shard under its lock, or its seat again.
fn shared<W: World, J: Naming>(
    rt: &impl Wait,
    alloc: Global,
    state: ShardState<W, J>,
) -> Result<Arc<Shard<W, J>, Global>, ShardSeat<ShardLaw<W>, J>>
    ensures seat { IfOk result (λ shard. shard.value ≡ seat_of state.shard) }
    ensures free { IfErr result (IsFree W.opening) }
    ensures slot { IfErr result (λ seat. seat.slot ≡ state.shard.slot) }
{
    let slot = state.slot();
    match Arc::new(alloc, Shard::new(state)) {
        Ok(shard) => Ok(shard),
        Err(failed) => Err(seat_back(rt, failed.value, slot)),
    }
}

// The shard of a target, without rows, under its lock, and the last of the free slots, which it has.
fn open_shard<W: World, J: Naming>(
    rt: &impl Wait,
    alloc: Global,
    free: &mut Vec<ShardSeat<ShardLaw<W>, J>>,
    which: &mut shard_run::ShardRecord,
    schema: &VSchema,
    limits: Limits,
) -> Result<Arc<Shard<W, J>, Global>, AllocError>
    requires opens { IsOpening W.opening }
    requires keyspace { which.old.place.keyspace < length W.opening.schema.keyspaces }
    requires free { AllByRecursion (IsFree W.opening) free.old.items }
    requires some { 0 < vec_len free.old }
    requires range { IsNamed which.old.place.range }
    requires sources { which.old.sources ≡ [] → ⊥ }
    requires schema { schema.now ≡ W.opening.schema }
    requires limits { limits ≡ W.limits }
    requires most_rows { limits.rows ≤ 2 ^ 20 }
    requires most_stored { limits.stored ≤ 2 ^ 20 }
    ensures seat { IfOk result (λ shard. shard.value ≡ seat_of which.new) }
    ensures place { which.new.place ≡ which.old.place }
    ensures sources { which.new.sources ≡ which.old.sources }
    ensures free { AllByRecursion (IsFree W.opening) free.new.items }
    ensures taken { OnOk result (map (λ s. s.slot) free.old.items ≡ map (λ s. s.slot) free.new.items ++ which.new.slot ∷ []) }
    ensures kept { OnErr result (map (λ s. s.slot) free.new.items ≡ map (λ s. s.slot) free.old.items) }
    ensures room { vec_capacity free.old ≤ vec_capacity free.new }
{
    let store = empty_store(alloc, schema)?;
    let mut copy = copy_shard(alloc, which)?;
    let seat = free.pop().unwrap();
    let slot = seat.slot();
    copy.slot = slot;
    which.slot = slot;
    let state = ShardState::new(alloc, seat, copy, store, Mode::Following, limits);
    match shared(rt, alloc, state) {
        Ok(shard) => Ok(shard),
        Err(seat) => {
            put(free, seat);
            Err(AllocError)
        }
    }
}

// A target of this range on a free slot, with those of the sources that overlap it.
// It is handed what `begin` takes, and the sources that were found.
fn make_target<W: World, J: Naming>(
    rt: &impl Wait,
    alloc: Global,
    free: &mut Vec<ShardSeat<ShardLaw<W>, J>>,
    schema: &VSchema,
    config: ReshardConfig,
    sources: &[SourceShard<W, J>],
    range: KeyRange,
) -> Result<TargetShard<W, J>, AllocError>
    requires opens { IsOpening W.opening }
    requires schema { schema.now ≡ W.opening.schema }
    requires config { IsReshardConfig W.opening W.limits config }
    requires free { AllByRecursion (IsFree W.opening) free.old.items }
    requires some { 0 < vec_len free.old }
    requires range { IsNamed range }
    requires covered { (own : List which.ShardRecord) → AreOverlapped (map (λ s. s.member.which) sources.now) range own → own ≡ [] → ⊥ }
    ensures target { IfOk result (λ t. IsMade (map (λ s. s.member.which) sources.now) config.keyspace range (t.member.which, map (λ s. s.which) t.sources.items)) }
    ensures seat { IfOk result (λ t. t.member.shard.value ≡ seat_of t.member.which) }
    ensures free { AllByRecursion (IsFree W.opening) free.new.items }
    ensures taken { IfOk result (λ t. map (λ s. s.slot) free.old.items ≡ map (λ s. s.slot) free.new.items ++ t.member.which.slot ∷ []) }
    ensures kept { OnErr result (map (λ s. s.slot) free.new.items ≡ map (λ s. s.slot) free.old.items) }
    ensures room { vec_capacity free.old ≤ vec_capacity free.new }
{
    let own = overlapping_sources(alloc, &range, sources)?;
    let mut target = PlannedTarget {
        which: shard_run::ShardRecord {
            slot: 0,
            place: Place {
                keyspace: config.keyspace,
                range,
            },
            sources: own.slots,
        },
        members: own.members,
    };
    let shard = open_shard(rt, alloc, free, &mut target.which, schema, config.limits)?;
    Ok(TargetShard {
        member: WorkflowShard {
            which: target.which,
            shard,
        },
        sources: target.members,
    })
}

// A target that has no shard yet.
#[derive(Drop)]
struct PlannedTarget<W: World, J: Naming> {
    which: shard_run::ShardRecord,
    members: Vec<WorkflowShard<W, J>>,
}

// A target of each range, on the last of the free slots.
// It is handed what `begin` takes, and the sources that were found.
pub(crate) fn make_targets<W: World, J: Naming>(
    rt: &impl Wait,
    alloc: Global,
    free: &mut Vec<ShardSeat<ShardLaw<W>, J>>,
    schema: &VSchema,
    config: ReshardConfig,
    sources: &[SourceShard<W, J>],
    ranges: &[KeyRange],
) -> Result<Vec<TargetShard<W, J>>, AllocError>
    requires opens { IsOpening W.opening }
    requires schema { schema.now ≡ W.opening.schema }
    requires config { IsReshardConfig W.opening W.limits config }
    requires free { AllByRecursion (IsFree W.opening) free.old.items }
    requires enough { length ranges.now ≤ vec_len free.old }
    requires ranges { AllByRecursion IsNamed ranges.now }
    requires covered { AllByRecursion (λ r. (own : List which.ShardRecord) → AreOverlapped (map (λ s. s.member.which) sources.now) r own → own ≡ [] → ⊥) ranges.now }
    ensures targets { IfOk result (λ ts. (map (λ t. t.member.which.place.range) ts.items ≡ ranges.now)
        × AllByRecursion (IsMadeOf (map (λ s. s.member.which) sources.now) config.keyspace) (map (λ t. (t.member.which, map (λ s. s.which) t.sources.items)) ts.items)) }
    ensures seats { IfOk result (λ ts. map (λ t. t.member.shard.value) ts.items
        ≡ target_seats (map (λ t. (t.member.which, map (λ s. s.which) t.sources.items)) ts.items)) }
    ensures free { AllByRecursion (IsFree W.opening) free.new.items }
    ensures taken { IfOk result (λ ts. map (λ s. s.slot) free.old.items ≡ map (λ s. s.slot) free.new.items ++ reverse (map (λ t. t.member.which.slot) ts.items)) }
    ensures kept { OnErr result (map (λ s. s.slot) free.new.items ≡ map (λ s. s.slot) free.old.items) }
{
    let mut made = Vec::with_capacity(alloc, ranges.len())?;
    for range in ranges {
        match make_target(rt, alloc, free, schema, config, sources, *range) {
            Ok(target) => made.push(target)?,
            Err(error) => {
                give_back(rt, free, made);
                return Err(error);
            }
        }
    }
    Ok(made)
}
