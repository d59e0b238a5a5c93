//! A workflow that isn't begun gives the seats of its targets back.
ghost use Rattle.std.specs.Prelude.{◌≡◌, ◌≤◌, ◌<◌, ◌+◌, ◌++◌, ◌∷◌, [], true, map, reverse, length, vec_len, vec_capacity};
ghost use Rattle.std.specs.List.{AllByRecursion};
ghost use Rattle.shard_law.specs.Entries as entries_of;
ghost use Rattle.reshard_create.specs.Configs.{IsFree};

use journal::{Naming, ShardSeat};
use reshard_cutover::{TargetShard, WorkflowShard};
use shard::{Shard, ShardLaw, ShardState, World};
use std::alloc::Global;
use std::sync::{Arc, Wait};

// Whether it is the shard on this slot, and nothing has happened there.
fn is_untouched_on<W: World, J: Naming>(state: &ShardState<W, J>, slot: usize) -> bool
    ensures free { result ≡ true → IsFree W.opening (entries_of.seat_view state.now) }
    ensures slot { result ≡ true → state.now.shard.slot ≡ slot }
{
    let shard = state.shard();
    shard.slot == slot && state.is_untouched()
}

// The seat of a target's shard that nobody else has. Takes no memory. A lock can't tell what it was over, so that is tested.
pub(crate) fn seat_back<W: World, J: Naming>(
    rt: &impl Wait,
    shard: Shard<W, J>,
    slot: usize,
) -> ShardSeat<ShardLaw<W>, J>
    ensures free { IsFree W.opening result }
    ensures slot { result.slot ≡ slot }
{
    let state = shard.into_state();
    if is_untouched_on(&state, slot) {
        return state.into_seat();
    }
    for _ in rt.forever() {}
    unreachable!()
}

// The seat of a shard of which nobody else holds a share.
fn seat_of_shared<W: World, J: Naming>(
    rt: &impl Wait,
    shard: Arc<Shard<W, J>, Global>,
    slot: usize,
) -> ShardSeat<ShardLaw<W>, J>
    ensures free { IsFree W.opening result }
    ensures slot { result.slot ≡ slot }
{
    let mut shared = shard;
    for _ in rt.forever() {
        match Arc::try_unwrap(shared) {
            Ok(shard) => return seat_back(rt, shard, slot),
            Err(back) => shared = back,
        }
    }
    unreachable!()
}

// Puts a seat back, for which there is room. Takes no memory.
pub(crate) fn put<W: World, J: Naming>(
    free: &mut Vec<ShardSeat<ShardLaw<W>, J>>,
    seat: ShardSeat<ShardLaw<W>, J>,
)
    requires room { vec_len free.old < vec_capacity free.old }
    ensures items { free.new.items ≡ free.old.items ++ seat ∷ [] }
    ensures len { vec_len free.new ≡ vec_len free.old + 1 }
    ensures capacity { vec_capacity free.old ≤ vec_capacity free.new }
{
    match free.push(seat) {
        Ok(()) => {}
        Err(_) => unreachable!(),
    }
}

// Puts the seats of the targets back, for which there is room, that of the last one first. Takes no memory.
pub(crate) fn give_back<W: World, J: Naming>(
    rt: &impl Wait,
    free: &mut Vec<ShardSeat<ShardLaw<W>, J>>,
    made: Vec<TargetShard<W, J>>,
)
    requires free { AllByRecursion (IsFree W.opening) free.old.items }
    requires room { vec_len free.old + length made.items ≤ vec_capacity free.old }
    ensures free { AllByRecursion (IsFree W.opening) free.new.items }
    ensures slots { map (λ s. s.slot) free.new.items ≡ map (λ s. s.slot) free.old.items ++ reverse (map (λ t. t.member.which.slot) made.items) }
{
    let mut rest = made;
    while let Some(target) = rest.pop() {
        let TargetShard { member, sources: _ } = target;
        let WorkflowShard { which, shard } = member;
        put(free, seat_of_shared(rt, shard, which.slot));
    }
}
