//! The calls that begin a workflow, and bring its targets forward.
ghost use Rattle.std.specs.Prelude.{◌≡◌, ◌⊎◌, ◌++◌, false, [], IfOk, IfErr, OnOk, OnErr, IsTrue, map, reverse, length};
ghost use Rattle.std.specs.List.{AllByRecursion};
ghost use Rattle.shard_run.specs.WellFormed.{is_vschema};
ghost use Rattle.keyrange.specs.Names.{IsNamed};
ghost use Rattle.journal.specs.Runs.{IsLegal};
ghost use Rattle.shard_run.specs.Openings.{IsOpening};
ghost use Rattle.reshard_create.specs.Entries.{MayFollow};
ghost use Rattle.reshard_create.specs.FollowSteps.{IsOnward};
ghost use Rattle.vt_value.specs.declared.refusal.Refusal.TheVariants.{ShardFull};
ghost use Rattle.reshard_create.specs.Configs.{IsFree, IsReshardConfig};
ghost use Rattle.reshard_create.specs.FirstMoves.{HasMovedFirst, IsMoveRefusal, IsOneStepFirst, IsNoStepFirst, IsFullFirst};
ghost use Rattle.reshard_create.specs.Begun.{HasBegun, IsCreateRefusal};
ghost use Rattle.reshard_create.specs.Looked.{HasLookedAtParts, HasLookedAtEach};

use crate::context::{Replacement, WorkflowContext};
use crate::workflow::{Stage, Workflow};
use journal::{Naming, ShardSeat};
use keyrange::KeyRange;
use reshard_create::{
    ReshardConfig, ReshardFault, ShardLaw, ShardPass, Step, World, begin, move_first,
};
use shard_run::VSchema;
use std::alloc::Global;
use std::sync::Wait;

impl<W: World, J: Naming> Workflow<W, J> {
    // Promise: A workflow begins exactly with one shard of its keyspace for each of its first ranges, none of which is named twice, and with
    // targets of the other ranges on free slots, which don't overlap and hold the same ids. Each source served and wasn't frozen at a look of
    // this call. Each target takes from exactly the sources that overlap it, at least one, and each source is taken from. Sources and targets
    // stand in the order of their begins, and with the parts that stay the targets make a partition. It is refused only for its cause, or for
    // memory, and the causes are judged in this order: one is there already (N4); no source is named, there are fewer parts of the named ranges
    // than names, or the shard of one is frozen or retired (N5); targets that overlap (N2), or that don't hold what the named ranges do (N1);
    // too few slots (N3). A partition that N5 or N3 speaks of is one of shards of the run, each of which was found in this call, and doesn't
    // follow, and a shard that is frozen or retired is one that this call looked at last. Then nothing changed, and no slot is taken: targets that
    // were made give theirs back. The call looks once at each of the parts that it judges, so at each source, and at no other shard: it changes no
    // shard's mode
    // With: Workflow::{stage, create}
    /// A controller of a keyspace and these free slots, which has no workflow.
    pub fn new(
        alloc: Global,
        config: ReshardConfig,
        free: Vec<ShardSeat<ShardLaw<W>, J>>,
    ) -> Workflow<W, J>
        requires opens { IsOpening W.opening }
        requires config { IsReshardConfig W.opening W.limits config }
        requires free { AllByRecursion (IsFree W.opening) free.items }
        ensures { result ≡ record {
          stage = Stage.None;
          keyspace = config.keyspace;
          free = map (λ s. s.slot) free.items;
          sources = [];
          targets = [];
          frozen = 0;
          retired = 0;
          served = 0;
          stored = [];
          prepared = false;
          published = false;
        } }
    {
        Workflow {
            config,
            stage: Stage::None,
            free,
            sources: Vec::new(alloc),
            targets: Vec::new(alloc),
            rest: Vec::new(alloc),
            frozen: 0,
            retired: 0,
            served: 0,
            prepared: false,
            published: false,
            named: Vec::new(alloc).into_iter(),
            next: None,
        }
    }

    /// How far its workflow is.
    pub fn stage(&self) -> Stage
        ensures { result ≡ self.now.stage }
    {
        self.stage
    }

    /// Begins a workflow: targets of the replacement's target ranges, on the last of the free slots, one for each, are to take the place of the
    /// shards of its source ranges. Refuses if it has a workflow; if no source is named, one is named twice or isn't a range of the present partition, or
    /// its shard doesn't serve or is frozen; if two targets overlap; if they don't hold what the sources do; if too few slots are
    /// free; and for want of memory. Then it stays as it was, and no slot is taken.
    pub fn create(
        &mut self,
        rt: &impl Wait,
        alloc: Global,
        pass: &mut ShardPass<W, J>,
        context: &WorkflowContext<'_, W, J>,
        replacement: &Replacement<'_, KeyRange>,
    ) -> Result<(), ReshardFault>
        requires schema { context.now.schema.now ≡ W.opening.schema }
        requires legal { IsLegal (MayFollow W.opening) pass.old.seen }
        requires home { context.now.serving.now ≡ self.old.keyspace }
        requires named { AllByRecursion IsNamed replacement.now.targets.now }
        ensures begun { OnOk result (HasBegun W.opening pass.old pass.new self.new.sources self.new.targets self.old.keyspace replacement.now.sources.now replacement.now.targets.now) }
        ensures at { OnOk result (self.new ≡ record self.old { stage = Stage.Following; free = self.new.free; sources = self.new.sources; targets = self.new.targets; frozen = 0; retired = 0; served = 0; stored = self.new.stored; prepared = false; published = false }) }
        ensures was { OnOk result (self.old.stage ≡ Stage.None) }
        ensures refused { IfErr result (λ e. ((e ≡ ReshardFault.WrongState) × (self.old.stage ≡ Stage.None → ⊥) × (pass.new ≡ pass.old))
            ⊎ ((self.old.stage ≡ Stage.None) × IsCreateRefusal W.opening pass.old pass.new self.old.keyspace (length self.old.free) replacement.now.sources.now replacement.now.targets.now e)) }
        ensures taken { OnOk result (self.old.free ≡ self.new.free ++ reverse (map (λ t. t.0.slot) self.new.targets)) }
        ensures looked { self.old.stage ≡ Stage.None → HasLookedAtParts W.opening self.old.keyspace pass.old pass.new }
        ensures each { OnOk result (HasLookedAtEach (map (λ s. s.slot) self.new.sources) pass.old pass.new) }
        ensures same { OnErr result (self.new ≡ self.old) }
        ensures onward { IsOnward W.opening pass.old pass.new }
    {
        if self.stage != Stage::None {
            return Err(ReshardFault::WrongState);
        }
        let begun = begin(
            rt,
            alloc,
            pass,
            context.schema,
            &mut self.free,
            self.config,
            context.serving.current(),
            replacement.sources,
            replacement.targets,
        )?;
        self.sources = begun.sources;
        self.targets = begun.targets;
        self.rest = begun.rest;
        self.next = None;
        self.frozen = 0;
        self.retired = 0;
        self.served = 0;
        self.prepared = false;
        self.published = false;
        self.stage = Stage::Following;
        Ok(())
    }

    // Promise: A step of a workflow brings the first target forward, in the order of their ranges, that isn't level with its sources, by
    // exactly one entry; or all are level, and there is none. Its pass looks once at each target and source that it finds level, and then as one
    // step with one source does, so it changes no shard's mode, which makes two looks in a row. It is refused only if no targets follow
    // (N4), a Copy or a Follow of the first target that isn't level passes a limit of it, if it came next (F24), or for memory; then the looks of
    // its pass are those of a step of this target that is refused, and nothing was appended after the last
    /// Brings the first target forward, in their order, that isn't level with its sources: it takes over the entry that is next, else it
    /// copies the next rows; if all are level, nothing. Refuses if no targets follow; what would pass a limit of a target; and for
    /// want of memory. Then nothing was appended.
    pub fn step(
        &mut self,
        rt: &impl Wait,
        alloc: Global,
        pass: &mut ShardPass<W, J>,
        schema: &VSchema,
    ) -> Result<Step, ReshardFault>
        requires schema { schema.now ≡ W.opening.schema }
        requires formed { IsTrue (is_vschema W.opening.schema) }
        requires legal { IsLegal (MayFollow W.opening) pass.old.seen }
        ensures was { OnOk result (self.old.stage ≡ Stage.Following) }
        ensures moved { IfOk result (HasMovedFirst W.opening self.old.targets pass.old pass.new) }
        ensures once { IfOk result (IsOneStepFirst self.old.targets pass.old pass.new) }
        ensures refused { IfErr result (λ e. ((e ≡ ReshardFault.WrongState) × (self.old.stage ≡ Stage.Following → ⊥))
            ⊎ ((self.old.stage ≡ Stage.Following) × IsMoveRefusal W.opening W.limits self.old.targets pass.new e)) }
        ensures full { IfErr result (λ e. e ≡ ReshardFault.Refused ShardFull → IsFullFirst W.opening W.limits self.old.targets pass.old pass.new) }
        ensures nothing { OnErr result (((self.old.stage ≡ Stage.Following → ⊥) × (pass.new ≡ pass.old)) ⊎ ((self.old.stage ≡ Stage.Following) × IsNoStepFirst self.old.targets pass.old pass.new)) }
        ensures same { self.new ≡ self.old }
        ensures onward { IsOnward W.opening pass.old pass.new }
    {
        if self.stage != Stage::Following {
            return Err(ReshardFault::WrongState);
        }
        let step = move_first(rt, alloc, pass, schema, self.targets.as_slice())?;
        Ok(step)
    }
}
