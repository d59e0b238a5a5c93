//! A cutover as a whole, and one that was begun and is to end.
ghost use Rattle.std.specs.Prelude.{◌≡◌, ◌⊎◌, true, false, IfOk, IfErr, OnOk, IsTrue};
ghost use Rattle.shard_run.specs.WellFormed.{is_vschema};
ghost use Rattle.journal.specs.Runs.{IsLegal};
ghost use Rattle.reshard_create.specs.Entries.{MayFollow};
ghost use Rattle.reshard_create.specs.FollowSteps.{IsOnward};
ghost use Rattle.reshard.specs.Cutover.{HasCutOver, HasFinished, HasSwitchedToTheEnd, IsResumed, HasStoppedOn, HasStoppedLater, MaySwitch};

use crate::context::WorkflowContext;
use crate::cutover::CutoverStep;
use crate::workflow::{Stage, Workflow};
use journal::Naming;
use reshard_create::{ReshardFault, ShardPass, World, confirm_cutover};
use std::alloc::Global;
use std::sync::Wait;

/// What became of a cutover that had begun.
#[derive(Clone, Copy, Debug, PartialEq, Eq)]
pub enum Resumed {
    /// No source was retired: each serves again, and the targets follow.
    Thawed,
    /// The targets serve.
    Finished,
}

impl<W: World, J: Naming> Workflow<W, J> {
    // Ends a cutover of which all memory is made, and that no target is to hold up. Takes no memory.
    fn finish(
        &mut self,
        rt: &impl Wait,
        pass: &mut ShardPass<W, J>,
        context: &WorkflowContext<'_, W, J>,
    )
        requires schema { context.now.schema.now ≡ W.opening.schema }
        requires legal { IsLegal (MayFollow W.opening) pass.old.seen }
        requires home { context.now.serving.now ≡ self.old.keyspace }
        requires begun { self.old.stage ≡ Stage.None → ⊥ }
        requires prepared { self.old.prepared ≡ true }
        ensures finished { HasFinished self.old self.new pass.new }
        ensures steps { HasSwitchedToTheEnd W.opening self.old self.new pass.old pass.new }
        ensures onward { IsOnward W.opening pass.old pass.new }
    {
        for _ in rt.forever() {
            let step = self.switch_after(rt, pass, context);
            if step == CutoverStep::Release {
                confirm_cutover(rt, self.sources.as_slice(), self.targets.as_slice(), pass);
                return;
            }
        }
        unreachable!()
    }

    // Takes all steps of a cutover that are left.
    fn switch_all(
        &mut self,
        rt: &impl Wait,
        alloc: Global,
        pass: &mut ShardPass<W, J>,
        context: &WorkflowContext<'_, W, J>,
    ) -> Result<(), ReshardFault>
        requires may { MaySwitch self.old }
        requires schema { context.now.schema.now ≡ W.opening.schema }
        requires formed { IsTrue (is_vschema W.opening.schema) }
        requires legal { IsLegal (MayFollow W.opening) pass.old.seen }
        requires home { context.now.serving.now ≡ self.old.keyspace }
        ensures through { OnOk result (HasFinished self.old self.new pass.new) }
        ensures steps { OnOk result (HasSwitchedToTheEnd W.opening self.old self.new pass.old pass.new) }
        ensures refused { IfErr result (HasStoppedOn W.opening W.limits self.old self.new pass.old pass.new) }
        ensures onward { IsOnward W.opening pass.old pass.new }
    {
        for _ in rt.forever() {
            let step = self.switch_step(rt, alloc, pass, context)?;
            if step == CutoverStep::Release {
                confirm_cutover(rt, self.sources.as_slice(), self.targets.as_slice(), pass);
                return Ok(());
            }
        }
        unreachable!()
    }

    // Promise: A whole cutover, begun while targets follow, ends with each source retired and each target serving in what the pass has
    // seen, and the next partition published; else it stopped as a step does, with nothing retired, and was given up: it did all that is told here up to
    // the step of a target, or of the cutover, that was refused, and nothing else. If none was retired when it
    // began, all that it does until the first freeze is steps of targets with their sources, by which each target copies all tables of each of its
    // sources, unless these are written faster than it follows: then it followed 65,536 entries one after the other, and was never level between
    // them. Then come the steps of the cutover, and after them one look at each source and at each target, and nothing else. That the targets come
    // level before the first source freezes is for tests
    /// Takes all steps of the cutover that are left: the targets serve then, in the place of the sources. Before the first source freezes each
    /// target copies all tables of its sources, and then the targets come forward, as by `step`, until all are level. A target that follows 65,536
    /// entries one after the other without being level, and twice those that were left when it began, is outrun, and no more is done for it.
    /// Refuses if no targets follow, or a cutover has begun. For want of memory, and if a shard would have more rows or entries than it may, the cutover is given up, of which
    /// no source is retired: each source serves again, the statements that waited go on, and the targets follow.
    pub fn switch_traffic(
        &mut self,
        rt: &impl Wait,
        alloc: Global,
        pass: &mut ShardPass<W, J>,
        context: &WorkflowContext<'_, W, J>,
    ) -> Result<(), ReshardFault>
        requires schema { context.now.schema.now ≡ W.opening.schema }
        requires formed { IsTrue (is_vschema W.opening.schema) }
        requires legal { IsLegal (MayFollow W.opening) pass.old.seen }
        requires home { context.now.serving.now ≡ self.old.keyspace }
        ensures was { OnOk result (self.old.stage ≡ Stage.Following) }
        ensures through { OnOk result (HasFinished self.old self.new pass.new) }
        ensures steps { OnOk result (self.old.retired ≡ 0 → HasCutOver W.opening self.old self.new pass.old pass.new) }
        ensures refused { IfErr result (λ e. ((e ≡ ReshardFault.WrongState) × (self.old.stage ≡ Stage.Following → ⊥) × (self.new ≡ self.old) × (pass.new ≡ pass.old))
            ⊎ ((self.old.stage ≡ Stage.Following) × HasStoppedLater W.opening W.limits self.old self.new pass.old pass.new e)) }
        ensures onward { IsOnward W.opening pass.old pass.new }
    {
        if self.stage != Stage::Following {
            return Err(ReshardFault::WrongState);
        }
        self.keep_up(rt, alloc, pass, context)?;
        self.switch_all(rt, alloc, pass, context)
    }

    fn is_switching(&self) -> bool
        ensures yes { result ≡ true → self.now.stage ≡ Stage.Switching }
        ensures no { result ≡ false → self.now.stage ≡ Stage.Switching → ⊥ }
    {
        match self.stage {
            Stage::Switching => true,
            _ => false,
        }
    }

    // Promise: A cutover that had begun is thawed, of which no source was retired: each source serves again and isn't looked at after that,
    // and the targets follow; else it is finished: each source is retired, and each target serves. Then it does the steps of the cutover that are
    // left, and after them looks once at each source and at each target, and does nothing else. Refused exactly when none had begun (N4). It takes
    // no memory
    /// Ends a cutover that has begun: if no source is retired, each is thawed that is frozen, the statements that waited go on, and the
    /// targets follow; else the cutover is finished. Refuses if none has begun. Takes no memory.
    pub fn resume(
        &mut self,
        rt: &impl Wait,
        pass: &mut ShardPass<W, J>,
        context: &WorkflowContext<'_, W, J>,
    ) -> Result<Resumed, ReshardFault>
        requires schema { context.now.schema.now ≡ W.opening.schema }
        requires legal { IsLegal (MayFollow W.opening) pass.old.seen }
        requires home { context.now.serving.now ≡ self.old.keyspace }
        ensures was { OnOk result (self.old.stage ≡ Stage.Switching) }
        ensures resumed { IfOk result (IsResumed W.opening self.old self.new pass.old pass.new) }
        ensures refused { IfErr result (λ e. (e ≡ ReshardFault.WrongState) × (self.old.stage ≡ Stage.Switching → ⊥) × (self.new ≡ self.old) × (pass.new ≡ pass.old)) }
        ensures onward { IsOnward W.opening pass.old pass.new }
    {
        if !self.is_switching() {
            return Err(ReshardFault::WrongState);
        }
        if self.retired == 0 {
            self.give_up(rt, pass, context.buffer);
            return Ok(Resumed::Thawed);
        }
        self.finish(rt, pass, context);
        Ok(Resumed::Finished)
    }
}
