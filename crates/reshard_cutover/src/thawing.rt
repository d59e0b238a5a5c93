//! A cutover is given up: its sources serve as before.
ghost use Rattle.std.specs.Prelude.{map};
ghost use Rattle.std.specs.List.{AllByRecursion};
ghost use Rattle.journal.specs.Runs.{IsLegal};
ghost use Rattle.shard_contents.specs.Entries.{MayFollow};
ghost use Rattle.follow.specs.Steps.{IsOnward};
ghost use Rattle.follow.specs.Turns.{EachInTurn};
ghost use Rattle.reshard_cutover.specs.Looks.{HasThawed, IsServingAgain};

use crate::steps::{SourceShard, serves};
use follow::{ShardPass, WorkflowShard, World, answers};
use journal::Naming;
use std::sync::Wait;

// Thaws a source under its lock, once it serves or is frozen, and has it drop what it keeps for its targets.
fn unfreeze<W: World, J: Naming>(
    rt: &impl Wait,
    member: &WorkflowShard<W, J>,
    pass: &mut ShardPass<W, J>,
)
    requires legal { IsLegal (MayFollow W.opening) pass.old.seen }
    ensures thawed { HasThawed W.opening member.now.which pass.old pass.new }
    ensures onward { IsOnward W.opening pass.old pass.new }
{
    let mut state = member
        .shard
        .state()
        .lock_when(rt, |state| state.is(&member.which) && answers(state));
    let _ = state.look(pass);
    state.drop_sorted();
    if serves(&state) {
        return;
    }
    state.thaw(pass);
}

// Promise: The sources of a cutover that is given up are thawed one after the other: what the pass has seen when it leaves one ends with that one
// serving, and then it looks at no source but the next. A Freeze comes right after two looks of its own, so no source is frozen after its turn:
// each Freeze of the call is followed by its Thaw
/// Thaws each of the sources that is frozen. Takes no memory.
pub fn unfreeze_all<W: World, J: Naming>(
    rt: &impl Wait,
    sources: &[SourceShard<W, J>],
    pass: &mut ShardPass<W, J>,
)
    requires legal { IsLegal (MayFollow W.opening) pass.old.seen }
    ensures serve { AllByRecursion (λ s. IsServingAgain W.opening s pass.old pass.new) (map (λ s. s.member.which) sources.now) }
    ensures thawed { EachInTurn (HasThawed W.opening) (map (λ s. s.member.which) sources.now) pass.old pass.new }
    ensures onward { IsOnward W.opening pass.old pass.new }
{
    for source in sources {
        unfreeze(rt, &source.member, pass);
    }
}
