//! Looks at the shards of a partition's parts.
ghost use Rattle.std.specs.Prelude.{◌≡◌, ◌∷◌, []};
ghost use Rattle.std.specs.List.{AllByRecursion};
ghost use Rattle.std.specs.Sync.Mutex.{mutex_guard_value};
ghost use Rattle.journal.specs.Runs.{IsLegal};
ghost use Rattle.shard_law.specs.Entries.{MayFollow};
ghost use Rattle.reshard_cutover.specs.FollowSteps.{IsOnward};
ghost use Rattle.reshard_create.specs.Begun.{IsNotFollowing, EndsInLookAt};
ghost use Rattle.reshard_create.specs.Looked.{slots_of};
ghost use Rattle.reshard_cutover.specs.Turns.{HasLookedAt};
ghost use Rattle.reshard_create.specs.inner.Created.{IsSighted, HasSeen};

use journal::Naming;
use serving::ShardReference;
use shard::{Place, Shard, ShardPass, ShardState, World};
use std::sync::{MutexGuard, Wait};

// The state of the part's shard under its lock, with a look at it, once it is found there and doesn't follow. Takes no memory.
pub(crate) fn look_at<'a, W: World, J: Naming>(
    rt: &impl Wait,
    pass: &mut ShardPass<W, J>,
    keyspace: usize,
    part: &'a ShardReference<Shard<W, J>>,
) -> MutexGuard<'a, ShardState<W, J>>
    requires legal { IsLegal (MayFollow W.opening) pass.old.seen }
    ensures sighted { IsSighted W.opening pass.new.seen part.now.0 (record { keyspace = keyspace; range = part.now.1 }) IsNotFollowing (mutex_guard_value result).shard }
    ensures now { (mutex_guard_value result).seen ≡ pass.new.seen }
    ensures seen { HasSeen W.opening pass.old pass.new keyspace IsNotFollowing part.now }
    ensures looked { HasLookedAt (part.now.0 ∷ []) pass.old pass.new }
    ensures ends { EndsInLookAt part.now.0 pass.new }
    ensures onward { IsOnward W.opening pass.old pass.new }
{
    let place = Place {
        keyspace,
        range: part.range(),
    };
    let slot = part.slot();
    let mut state = part
        .shard()
        .state()
        .lock_when(rt, |state| state.is_found_at(slot, &place));
    let _ = state.look(pass);
    state
}

// Looks at the shard of each of the parts. Takes no memory.
pub(crate) fn look_at_each<W: World, J: Naming>(
    rt: &impl Wait,
    pass: &mut ShardPass<W, J>,
    keyspace: usize,
    parts: &[ShardReference<Shard<W, J>>],
)
    requires legal { IsLegal (MayFollow W.opening) pass.old.seen }
    ensures seen { AllByRecursion (HasSeen W.opening pass.old pass.new keyspace IsNotFollowing) parts.now }
    ensures looked { HasLookedAt (slots_of parts.now) pass.old pass.new }
    ensures onward { IsOnward W.opening pass.old pass.new }
{
    for part in parts {
        let _state = look_at(rt, pass, keyspace, part);
    }
}
