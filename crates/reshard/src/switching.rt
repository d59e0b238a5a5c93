//! The calls of a cutover.
ghost use Rattle.std.specs.Prelude.{◌≡◌, ◌⊎◌, ◌≤◌, true, false, Some, IfOk, IfErr, OnOk, OnErr, MatchOption, IsTrue};
ghost use Rattle.shard_run.specs.WellFormed.{is_vschema};
ghost use Rattle.journal.specs.Runs.{IsLegal};
ghost use Rattle.reshard_create.specs.Entries.{MayFollow};
ghost use Rattle.reshard_create.specs.FollowSteps.{IsOnward};
ghost use Rattle.reshard.specs.Cutover.{HasSwitched, HasFoundReady, EndsAlone, DoesNoMore, HasComeTo, HasStoppedShort, IsSwitchRefusal, MayRetireFirst, MaySwitch};

use crate::context::WorkflowContext;
use crate::cutover::CutoverStep;
use crate::workflow::{Stage, Workflow};
use journal::Naming;
use reshard_create::{ReshardFault, ShardPass, Step, World, all_fit, move_first};
use shard_run::VSchema;
use std::alloc::Global;
use std::sync::Wait;
use vt_value::Refusal;

impl<W: World, J: Naming> Workflow<W, J> {
    // A step after which nothing takes memory nor fails.
    pub(crate) fn switch_after(
        &mut self,
        rt: &impl Wait,
        pass: &mut ShardPass<W, J>,
        context: &WorkflowContext<'_, W, J>,
    ) -> CutoverStep
        requires schema { context.now.schema.now ≡ W.opening.schema }
        requires legal { IsLegal (MayFollow W.opening) pass.old.seen }
        requires home { context.now.serving.now ≡ self.old.keyspace }
        requires begun { self.old.stage ≡ Stage.None → ⊥ }
        requires prepared { self.old.prepared ≡ true }
        ensures switched { HasSwitched W.opening self.old self.new pass.old pass.new result }
        ensures alone { EndsAlone self.old pass.old pass.new result }
        ensures steady { self.new ≡ record self.old { stage = self.new.stage; retired = self.new.retired; served = self.new.served; published = self.new.published } }
        ensures onward { IsOnward W.opening pass.old pass.new }
    {
        if self.retired < self.sources.len() {
            self.retire_next(rt, pass);
            return CutoverStep::Retire;
        }
        if self.served < self.targets.len() {
            self.serve_next(rt, pass, context.schema);
            return CutoverStep::Serve;
        }
        if !self.published {
            self.publish_next(context.serving);
            return CutoverStep::Publish;
        }
        context.buffer.release(rt);
        self.stage = Stage::Switched;
        CutoverStep::Release
    }

    // A step of a cutover of which no source is retired, or none if the first may retire.
    pub(crate) fn switch_before(
        &mut self,
        rt: &impl Wait,
        alloc: Global,
        pass: &mut ShardPass<W, J>,
        schema: &VSchema,
    ) -> Result<Option<CutoverStep>, Refusal>
        requires begun { self.old.stage ≡ Stage.None → ⊥ }
        requires schema { schema.now ≡ W.opening.schema }
        requires formed { IsTrue (is_vschema W.opening.schema) }
        requires legal { IsLegal (MayFollow W.opening) pass.old.seen }
        ensures step { IfOk result (λ r. MatchOption r (self.new ≡ record self.old { prepared = true }) (HasSwitched W.opening self.old self.new pass.old pass.new)) }
        ensures once { IfOk result (λ r. MatchOption r (HasFoundReady self.old pass.old pass.new) (DoesNoMore self.old pass.old pass.new)) }
        ensures ready { IfOk result (λ r. MatchOption r (MayRetireFirst W.opening W.limits self.old pass.old pass.new) (λ step. step ≡ CutoverStep.Retire → ⊥)) }
        ensures steady { OnOk result (self.new ≡ record self.old { stage = self.new.stage; frozen = self.new.frozen; stored = self.new.stored; prepared = true }) }
        ensures refused { IfErr result (λ e. IsSwitchRefusal W.opening W.limits self.old.sources self.old.targets pass.old pass.new (ReshardFault.Refused e)) }
        ensures short { OnErr result (HasComeTo self.old pass.old pass.new) }
        ensures same { OnErr result (self.new ≡ record self.old { prepared = self.new.prepared }) }
        ensures onward { IsOnward W.opening pass.old pass.new }
    {
        self.prepare(alloc)?;
        if self.frozen < self.sources.len() {
            self.freeze_next(rt, pass)?;
            return Ok(Some(CutoverStep::Freeze));
        }
        match move_first(rt, alloc, pass, schema, self.targets.as_slice())? {
            Step::Copied => return Ok(Some(CutoverStep::Copy)),
            Step::Followed => return Ok(Some(CutoverStep::Follow)),
            Step::Level => {}
        }
        if all_fit(rt, self.targets.as_slice(), pass) {
            Ok(None)
        } else {
            Err(Refusal::ShardFull)
        }
    }

    // The next step of the cutover, if nothing is given up.
    fn try_switch(
        &mut self,
        rt: &impl Wait,
        alloc: Global,
        pass: &mut ShardPass<W, J>,
        context: &WorkflowContext<'_, W, J>,
    ) -> Result<CutoverStep, Refusal>
        requires begun { self.old.stage ≡ Stage.None → ⊥ }
        requires schema { context.now.schema.now ≡ W.opening.schema }
        requires formed { IsTrue (is_vschema W.opening.schema) }
        requires legal { IsLegal (MayFollow W.opening) pass.old.seen }
        requires home { context.now.serving.now ≡ self.old.keyspace }
        ensures switched { IfOk result (HasSwitched W.opening self.old self.new pass.old pass.new) }
        ensures once { IfOk result (DoesNoMore self.old pass.old pass.new) }
        ensures ready { IfOk result (λ step. step ≡ CutoverStep.Retire → self.old.retired ≡ 0 → MayRetireFirst W.opening W.limits self.old pass.old pass.new) }
        ensures refused { IfErr result (λ e. IsSwitchRefusal W.opening W.limits self.old.sources self.old.targets pass.old pass.new (ReshardFault.Refused e)) }
        ensures none { OnErr result (self.old.retired ≡ 0) }
        ensures short { OnErr result (HasComeTo self.old pass.old pass.new) }
        ensures same { OnErr result (self.new ≡ record self.old { prepared = self.new.prepared }) }
        ensures onward { IsOnward W.opening pass.old pass.new }
    {
        if self.retired == 0 {
            if let Some(step) = self.switch_before(rt, alloc, pass, context.schema)? {
                return Ok(step);
            }
        }
        Ok(self.switch_after(rt, pass, context))
    }

    fn may_switch(&self) -> bool
        ensures yes { result ≡ true → MaySwitch self.now }
        ensures no { result ≡ false → MaySwitch self.now → ⊥ }
    {
        match self.stage {
            Stage::Following => true,
            Stage::Switching => true,
            _ => false,
        }
    }

    // Promise: A step of a cutover is exactly one of these, in this order, and it returns which: the next source is frozen; once all are,
    // the first target that isn't level moves; once all are, the next source is retired for its targets; then the next target serves; then
    // the next partition is published, once, and only then the statements that waited go on. That others see the partition then, and that
    // the statements do go on, is for tests. It is taken exactly while targets follow or the cutover has begun (else N4, and nothing changed).
    // For want of memory, and if a source or a target would pass a limit (F24), which it returns only if the pass came by it, the cutover is
    // given up, of which no source is retired: each source serves again and isn't looked at after that, and the targets follow. A step does no
    // more than it returns: one that moves a target is one step of it, as `step` takes it; one that freezes or retires a source, or has a target
    // serve, ends with three looks at that shard alone, so its mode changes once, and before them it looked only at targets and their sources, as a
    // step does that finds all level, and once at each target, or at sources that are retired; and the others look nowhere. The first source retires
    // only if the workflow has frozen all, and the step found each target level, and then with no more rows than a shard that serves may have. A step
    // that is refused has looked nowhere, or once at the next source to freeze, or as a step of targets does that is refused or that finds all level,
    // and then once at each target, before it gives the cutover up
    /// Takes the next step of the cutover, and returns which: the next source is frozen; once all are, the first target moves that isn't level,
    /// else the next source is retired; then the targets serve, the next partition is published, and the statements that waited go on.
    /// Refuses if no targets follow and no cutover has begun. For want of memory, and if a shard would have more rows or entries than
    /// it may, the cutover is given up, of which no source is retired: each source serves again, the statements that waited go on, and the
    /// targets follow.
    pub fn switch_step(
        &mut self,
        rt: &impl Wait,
        alloc: Global,
        pass: &mut ShardPass<W, J>,
        context: &WorkflowContext<'_, W, J>,
    ) -> Result<CutoverStep, ReshardFault>
        requires schema { context.now.schema.now ≡ W.opening.schema }
        requires formed { IsTrue (is_vschema W.opening.schema) }
        requires legal { IsLegal (MayFollow W.opening) pass.old.seen }
        requires home { context.now.serving.now ≡ self.old.keyspace }
        ensures was { OnOk result (MaySwitch self.old) }
        ensures switched { IfOk result (HasSwitched W.opening self.old self.new pass.old pass.new) }
        ensures once { IfOk result (DoesNoMore self.old pass.old pass.new) }
        ensures ready { IfOk result (λ step. step ≡ CutoverStep.Retire → self.old.retired ≡ 0 → MayRetireFirst W.opening W.limits self.old pass.old pass.new) }
        ensures refused { IfErr result (λ e. ((e ≡ ReshardFault.WrongState) × (MaySwitch self.old → ⊥) × (self.new ≡ self.old) × (pass.new ≡ pass.old))
            ⊎ (MaySwitch self.old × HasStoppedShort W.opening W.limits self.old self.new pass.old pass.new e)) }
        ensures onward { IsOnward W.opening pass.old pass.new }
    {
        if !self.may_switch() {
            return Err(ReshardFault::WrongState);
        }
        match self.try_switch(rt, alloc, pass, context) {
            Ok(step) => Ok(step),
            Err(refusal) => {
                self.give_up(rt, pass, context.buffer);
                Err(ReshardFault::Refused(refusal))
            }
        }
    }
}
