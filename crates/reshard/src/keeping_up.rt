//! The targets copy all of their sources, and come level, before a cutover freezes these, so that writes wait for little.
ghost use Rattle.std.specs.Prelude.{◌≡◌, IfErr, IsTrue, OnOk, OnErr, map};
ghost use Rattle.shard_run.specs.WellFormed.{is_vschema};
ghost use Rattle.journal.specs.Runs.{IsLegal};
ghost use Rattle.shard_run.specs.Openings.{IsOpening};
ghost use Rattle.reshard_create.specs.Entries.{MayFollow};
ghost use Rattle.reshard_create.specs.FollowSteps.{IsOnward};
ghost use Rattle.reshard_create.specs.Overlapping.{TakeFromOwn};
ghost use Rattle.reshard_create.specs.FirstMoves.{IsMoveRefusal};
ghost use Rattle.reshard.specs.Cutover.{HasMovedOn, HaveComeNear, HasMovedUntilRefused, HaveComeUntilRefused, HasStopped};

use crate::context::WorkflowContext;
use crate::copying::{copy_all, most_followed};
use crate::workflow::{Stage, Workflow};
use journal::Naming;
use reshard_create::{ReshardFault, ShardPass, Step, TargetShard, World, entries_left, move_first};
use shard_run::VSchema;
use std::alloc::Global;
use std::sync::Wait;
use vt_value::Refusal;

// How many entries the targets may follow before the cutover begins: twice those that are left, and some more.
fn most_further<W: World, J: Naming>(rt: &impl Wait, targets: &[TargetShard<W, J>]) -> u64 {
    let mut left = 0u64;
    for target in targets {
        left = left.saturating_add(entries_left(rt, target));
    }
    most_followed(left)
}

// Brings the first target forward that isn't level, until all are, or so many entries were followed.
fn come_level<W: World, J: Naming>(
    rt: &impl Wait,
    alloc: Global,
    pass: &mut ShardPass<W, J>,
    schema: &VSchema,
    targets: &[TargetShard<W, J>],
    most: u64,
) -> Result<(), Refusal>
    requires opens { IsOpening W.opening }
    requires schema { schema.now ≡ W.opening.schema }
    requires formed { IsTrue (is_vschema W.opening.schema) }
    requires own { TakeFromOwn (map (λ t. (t.member.which, map (λ s. s.which) t.sources.items)) targets.now) }
    requires legal { IsLegal (MayFollow W.opening) pass.old.seen }
    ensures further { OnOk result (HasMovedOn (map (λ t. (t.member.which, map (λ s. s.which) t.sources.items)) targets.now) pass.old pass.new) }
    ensures refused { IfErr result (λ e. IsMoveRefusal W.opening W.limits (map (λ t. (t.member.which, map (λ s. s.which) t.sources.items)) targets.now) pass.new (ReshardFault.Refused e)) }
    ensures until { OnErr result (HasMovedUntilRefused (map (λ t. (t.member.which, map (λ s. s.which) t.sources.items)) targets.now) pass.old pass.new) }
    ensures onward { IsOnward W.opening pass.old pass.new }
{
    let mut left = most;
    for _ in rt.forever() {
        match move_first(rt, alloc, pass, schema, targets)? {
            Step::Level => return Ok(()),
            Step::Copied => {}
            Step::Followed => {
                if left <= 1 {
                    return Ok(());
                }
                left -= 1;
            }
        }
    }
    unreachable!()
}

// Has the targets copy all, unless one is outrun, and then brings them level, until all are, or so many entries were followed.
fn come_near<W: World, J: Naming>(
    rt: &impl Wait,
    alloc: Global,
    pass: &mut ShardPass<W, J>,
    schema: &VSchema,
    targets: &[TargetShard<W, J>],
) -> Result<(), Refusal>
    requires opens { IsOpening W.opening }
    requires schema { schema.now ≡ W.opening.schema }
    requires formed { IsTrue (is_vschema W.opening.schema) }
    requires own { TakeFromOwn (map (λ t. (t.member.which, map (λ s. s.which) t.sources.items)) targets.now) }
    requires legal { IsLegal (MayFollow W.opening) pass.old.seen }
    ensures near { OnOk result (HaveComeNear W.opening (map (λ t. (t.member.which, map (λ s. s.which) t.sources.items)) targets.now) pass.old pass.new) }
    ensures refused { IfErr result (λ e. IsMoveRefusal W.opening W.limits (map (λ t. (t.member.which, map (λ s. s.which) t.sources.items)) targets.now) pass.new (ReshardFault.Refused e)) }
    ensures until { OnErr result (HaveComeUntilRefused (map (λ t. (t.member.which, map (λ s. s.which) t.sources.items)) targets.now) pass.old pass.new) }
    ensures onward { IsOnward W.opening pass.old pass.new }
{
    copy_all(rt, alloc, pass, schema, targets)?;
    let most = most_further(rt, targets);
    come_level(rt, alloc, pass, schema, targets, most)
}

impl<W: World, J: Naming> Workflow<W, J> {
    // Makes the moves that are left before a cutover begins. If one is refused, the cutover is given up.
    pub(crate) fn keep_up(
        &mut self,
        rt: &impl Wait,
        alloc: Global,
        pass: &mut ShardPass<W, J>,
        context: &WorkflowContext<'_, W, J>,
    ) -> Result<(), ReshardFault>
        requires begun { self.old.stage ≡ Stage.None → ⊥ }
        requires schema { context.now.schema.now ≡ W.opening.schema }
        requires formed { IsTrue (is_vschema W.opening.schema) }
        requires legal { IsLegal (MayFollow W.opening) pass.old.seen }
        ensures near { OnOk result (self.old.retired ≡ 0 → HaveComeNear W.opening self.old.targets pass.old pass.new) }
        ensures same { OnOk result (self.new ≡ self.old) }
        ensures refused { IfErr result (λ e. (is : HasStopped W.opening W.limits self.old self.new pass.old pass.new e) × HaveComeUntilRefused self.old.targets pass.old is.at) }
        ensures onward { IsOnward W.opening pass.old pass.new }
    {
        if self.retired > 0 {
            return Ok(());
        }
        match come_near(rt, alloc, pass, context.schema, self.targets.as_slice()) {
            Ok(()) => Ok(()),
            Err(refusal) => {
                self.give_up(rt, pass, context.buffer);
                Err(ReshardFault::Refused(refusal))
            }
        }
    }
}
