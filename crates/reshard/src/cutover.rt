//! The cutover, step by step: the sources freeze, the targets come level, the sources retire, the targets serve, and the next partition is
//! published.
ghost use Rattle.shard_run.specs.declared.ShardRecord as which;
ghost use Rattle.shard_run.specs.declared.Event.{Event};
ghost use Rattle.std.specs.Prelude.{◌≡◌, ◌+◌, ◌<◌, ◌∷◌, [], true, false, Some, IfErr, OnOk, OnErr, Contains, length, slice_get, slice_set};
ghost use Rattle.std.specs.List.{AllByRecursion};
ghost use Rattle.journal.specs.Runs.{IsLegal};
ghost use Rattle.journal.specs.Views.{PassView};
ghost use Rattle.shard_run.specs.declared.Entry.{Entry};
ghost use Rattle.shard_run.specs.Runs.{stored_on};
ghost use Rattle.reshard_create.specs.Entries.{MayFollow};
ghost use Rattle.reshard_create.specs.FollowSteps.{IsOnward, HasStepped};
ghost use Rattle.reshard_create.specs.Steps.{named_for};
ghost use Rattle.reshard_create.specs.TargetSources.{TargetWithSources, shards_of};
ghost use Rattle.reshard.specs.Cutover.{HasNoRoom};
ghost use Rattle.reshard_create.specs.Turns.{EachInTurn, HasLookedAt};
ghost use Rattle.reshard_create.specs.Looks.{HasLookedOnlyAt, HasLookedForOneChange, HasThawed, IsServingAgain};

use crate::workflow::{Stage, Workflow};
use buffer::Buffer;
use journal::Naming;
use reshard_create::{
    Shard, ShardPass, World, confirm_retired, freeze, named_of_all, next_partition, note_stored,
    retire, serve, unfreeze_all,
};
use serving::Serving;
use shard_run::VSchema;
use std::alloc::{AllocError, Global};
use std::sync::Wait;
use vt_value::Refusal;

/// A step of a cutover.
#[derive(Clone, Copy, Debug, PartialEq, Eq)]
pub enum CutoverStep {
    /// A source takes no more commits.
    Freeze,
    /// A target copied rows.
    Copy,
    /// A target took over what an entry of a source changes.
    Follow,
    /// A source gave its rows to its targets.
    Retire,
    /// A target serves.
    Serve,
    /// The next partition is the present one.
    Publish,
    /// The statements that waited go on.
    Release,
}

impl<W: World, J: Naming> Workflow<W, J> {
    // Makes the memory of the cutover, unless it was made.
    pub(crate) fn prepare(&mut self, alloc: Global) -> Result<(), AllocError>
        requires begun { self.old.stage ≡ Stage.None → ⊥ }
        ensures now { OnOk result (self.new ≡ record self.old { prepared = true }) }
        ensures same { OnErr result (self.new ≡ self.old) }
    {
        if self.prepared {
            return Ok(());
        }
        let next = next_partition(
            alloc,
            self.config.keyspace,
            self.rest.as_slice(),
            self.targets.as_slice(),
        )?;
        let named = named_of_all(alloc, self.sources.as_slice(), self.targets.as_slice())?;
        self.named = named.into_iter();
        self.next = Some(next);
        self.prepared = true;
        Ok(())
    }

    // Freezes the next source.
    pub(crate) fn freeze_next(
        &mut self,
        rt: &impl Wait,
        pass: &mut ShardPass<W, J>,
    ) -> Result<(), Refusal>
        requires begun { self.old.stage ≡ Stage.None → ⊥ }
        requires legal { IsLegal (MayFollow W.opening) pass.old.seen }
        requires some { self.old.frozen < length self.old.sources }
        ensures froze { OnOk result ((s : which.ShardRecord) × (slice_get self.old.sources self.old.frozen ≡ Some s) × HasStepped W.opening s Event.Freeze pass.old pass.new
            × HasLookedForOneChange s.slot pass.old pass.new
            × (self.new.stored ≡ slice_set self.old.stored self.old.frozen (length (stored_on s.slot pass.new.seen)))) }
        ensures now { OnOk result (self.new ≡ record self.old { stage = Stage.Switching; frozen = self.old.frozen + 1; stored = self.new.stored }) }
        ensures same { OnErr result (self.new ≡ self.old) }
        ensures looked { OnErr result ((s : which.ShardRecord) × (slice_get self.old.sources self.old.frozen ≡ Some s) × HasLookedAt (s.slot ∷ []) pass.old pass.new) }
        ensures err { IfErr result (λ e. (e ≡ Refusal.ShardFull) × ((s : which.ShardRecord) × Contains self.old.sources s × HasNoRoom s pass.old pass.new)) }
        ensures onward { IsOnward W.opening pass.old pass.new }
    {
        let at = self.frozen;
        let source = &self.sources[at];
        let stored = freeze(rt, &source.member.shard, &source.member.which, pass)?;
        note_stored(self.sources.as_mut_slice(), at, stored);
        self.frozen = at + 1;
        self.stage = Stage::Switching;
        Ok(())
    }

    // Retires the next source for its targets.
    pub(crate) fn retire_next(&mut self, rt: &impl Wait, pass: &mut ShardPass<W, J>)
        requires legal { IsLegal (MayFollow W.opening) pass.old.seen }
        requires some { self.old.retired < length self.old.sources }
        requires prepared { self.old.prepared ≡ true }
        ensures retired { (s : which.ShardRecord) × (slice_get self.old.sources self.old.retired ≡ Some s)
            × HasStepped W.opening s (Event.Retire (named_for s (shards_of self.old.targets))) pass.old pass.new
            × HasLookedForOneChange s.slot pass.old pass.new }
        ensures now { self.new ≡ record self.old { retired = self.old.retired + 1 } }
    {
        let targets = self.named.next().unwrap();
        let source = &self.sources[self.retired];
        retire(
            rt,
            &source.member.shard,
            &source.member.which,
            pass,
            targets,
            source.stored,
        );
        self.retired += 1;
    }

    // Serves the next target, once its sources are found retired for it.
    pub(crate) fn serve_next(
        &mut self,
        rt: &impl Wait,
        pass: &mut ShardPass<W, J>,
        schema: &VSchema,
    )
        requires schema { schema.now ≡ W.opening.schema }
        requires legal { IsLegal (MayFollow W.opening) pass.old.seen }
        requires some { self.old.served < length self.old.targets }
        ensures served { (t : TargetWithSources) × (slice_get self.old.targets self.old.served ≡ Some t) × HasStepped W.opening t.0 Event.Serve pass.old pass.new
            × (n : PassView Entry) × EachInTurn (λ s. HasLookedOnlyAt s.slot) self.old.sources pass.old n × HasLookedForOneChange t.0.slot n pass.new }
        ensures now { self.new ≡ record self.old { served = self.old.served + 1 } }
    {
        let target = &self.targets[self.served];
        confirm_retired(rt, self.sources.as_slice(), &target.member.which, pass);
        serve(rt, &target.member, pass, schema, self.sources.as_slice());
        self.served += 1;
    }

    // Publishes the next partition.
    pub(crate) fn publish_next(&mut self, serving: &Serving<Shard<W, J>>)
        requires home { serving.now ≡ self.old.keyspace }
        requires prepared { self.old.prepared ≡ true }
        requires unpublished { self.old.published ≡ false }
        ensures { self.new ≡ record self.old { published = true } }
    {
        let next = self.next.take().unwrap();
        let _ = serving.publish(next);
        self.published = true;
    }

    // Each source that is frozen is thawed, and the statements that wait go on.
    pub(crate) fn give_up(&mut self, rt: &impl Wait, pass: &mut ShardPass<W, J>, buffer: &Buffer)
        requires legal { IsLegal (MayFollow W.opening) pass.old.seen }
        requires begun { self.old.stage ≡ Stage.None → ⊥ }
        requires none { self.old.retired ≡ 0 }
        ensures now { self.new ≡ record self.old { stage = Stage.Following; frozen = 0 } }
        ensures serve { AllByRecursion (λ s. IsServingAgain W.opening s pass.old pass.new) self.old.sources }
        ensures thawed { EachInTurn (HasThawed W.opening) self.old.sources pass.old pass.new }
        ensures onward { IsOnward W.opening pass.old pass.new }
    {
        unfreeze_all(rt, self.sources.as_slice(), pass);
        self.frozen = 0;
        self.stage = Stage::Following;
        buffer.release(rt);
    }
}
