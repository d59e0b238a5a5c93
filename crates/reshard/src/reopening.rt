//! A workflow whose controller stopped is made again from its shards.
ghost use Rattle.std.specs.Prelude.{◌≡◌, ◌⊎◌, ◌++◌, false, IfErr, IfSome, IsSome, OnOk, OnErr};
ghost use Rattle.journal.specs.Runs.{IsLegal};
ghost use Rattle.reshard_create.specs.Entries.{MayFollow};
ghost use Rattle.reshard_create.specs.FollowSteps.{IsOnward};
ghost use Rattle.reshard.specs.Reopened.{IsReopened, has_any, is_published, stage_at};
ghost use Rattle.reshard_create.specs.reopening.Rebuilt.{IsReopenRefusal};
ghost use Rattle.reshard_create.specs.Looked.{slots_of, HasLookedAlong};
ghost use Rattle.reshard_create.specs.Turns.{HasLookedAt};

use crate::context::Replacement;
use crate::workflow::{Stage, Workflow};
use journal::Naming;
use reshard_create::reopening::{reopen_workflow, stands_on};
use reshard_create::{ReshardFault, Shard, ShardPass, World};
use serving::{Partition, Serving, ShardReference};
use std::alloc::Global;
use std::sync::Wait;

// How far a workflow is of which so many sources are frozen or retired.
fn stage_of(frozen: usize) -> Stage
    ensures { result ≡ stage_at frozen }
{
    match frozen {
        0 => Stage::Following,
        _ => Stage::Switching,
    }
}

// Whether the partition has one of the shards.
fn has_any<W: World, J: Naming>(
    parts: &[ShardReference<Shard<W, J>>],
    into: &[ShardReference<Shard<W, J>>],
) -> bool
    ensures { result ≡ has_any parts.now into.now }
{
    into.iter().any(|part| stands_on(part.slot(), parts))
}

// Whether the next partition was published, if so many targets serve and the present partition has these parts: it is published once all serve.
fn is_published<W: World, J: Naming>(
    parts: &[ShardReference<Shard<W, J>>],
    into: &[ShardReference<Shard<W, J>>],
    served: usize,
) -> bool
    ensures { result ≡ is_published parts.now into.now served }
{
    has_any(parts, into) && served == into.len()
}

// The next partition, unless it was published.
fn unless_published<W: World, J: Naming>(
    published: bool,
    next: Box<Partition<Shard<W, J>>>,
) -> Option<Box<Partition<Shard<W, J>>>>
    ensures same { IfSome result (λ again. again.value ≡ next.value) }
    ensures there { published ≡ false → IsSome result }
{
    if published { None } else { Some(next) }
}

impl<W: World, J: Naming> Workflow<W, J> {
    // Promise: A workflow that another controller stopped is made again from the shards of its sources and targets: with one look under
    // each lock, the first so many sources are retired, the next frozen and the others serve, the first so many targets serve and the
    // others follow, and so far it is; each target takes from the sources that overlap it, and those that are retired named it; the memory
    // of the cutover is made; the next partition was published exactly when each target serves and the present one has a target. Refused only if there is a
    // workflow already, if the shards found aren't those of one with the other parts of some partition, if each source is retired
    // and each target serves, or if no source is retired (N4), and for want of memory; then it stays as it was. That N4 is answered of
    // the last two only if a source's rows were dropped, and if the workflow was given up, is for tests
    /// Takes up a workflow that another controller stopped, from the shards that are its sources and its targets, each in their order: each
    /// is looked at under its lock. If a source is frozen or retired its cutover has begun, which `resume` ends and `switch_step` goes
    /// on with; else its targets follow. All memory of the cutover is made. Refuses if there is a workflow already; if the shards aren't
    /// the sources and the targets of one, with the other parts of the present partition, as a cutover leaves them; if a source that is
    /// retired didn't name a target that takes from it; if the sources' rows were dropped, or the workflow was given up; and for want of
    /// memory. Then it stays as it was. The slots that no shard was ever on are those that it has.
    pub fn reopen(
        &mut self,
        rt: &impl Wait,
        alloc: Global,
        pass: &mut ShardPass<W, J>,
        serving: &Serving<Shard<W, J>>,
        replacement: &Replacement<'_, ShardReference<Shard<W, J>>>,
    ) -> Result<(), ReshardFault>
        requires legal { IsLegal (MayFollow W.opening) pass.old.seen }
        requires home { serving.now ≡ self.old.keyspace }
        ensures was { OnOk result (self.old.stage ≡ Stage.None) }
        ensures reopened { OnOk result (IsReopened W.opening pass.old pass.new replacement.now.sources.now replacement.now.targets.now self.old self.new) }
        ensures refused { IfErr result (λ e. ((e ≡ ReshardFault.WrongState) × (self.old.stage ≡ Stage.None → ⊥) × (pass.new ≡ pass.old))
            ⊎ ((self.old.stage ≡ Stage.None) × IsReopenRefusal W.opening pass.old pass.new self.old.keyspace replacement.now.sources.now replacement.now.targets.now e)) }
        ensures same { OnErr result (self.new ≡ self.old) }
        ensures looked { HasLookedAlong (slots_of (replacement.now.sources.now ++ replacement.now.targets.now)) pass.old pass.new }
        ensures all { OnOk result (HasLookedAt (slots_of (replacement.now.sources.now ++ replacement.now.targets.now)) pass.old pass.new) }
        ensures onward { IsOnward W.opening pass.old pass.new }
    {
        if self.stage != Stage::None {
            return Err(ReshardFault::WrongState);
        }
        let parts = serving.current().parts();
        let keyspace = self.config.keyspace;
        let taken = reopen_workflow(
            rt,
            alloc,
            pass,
            keyspace,
            parts,
            replacement.sources,
            replacement.targets,
        )?;
        let progress = taken.again.progress;
        self.sources = taken.again.sources;
        self.targets = taken.again.targets;
        self.rest = taken.again.rest;
        self.frozen = progress.frozen;
        self.retired = progress.retired;
        self.served = progress.served;
        self.named = taken.memory.named.into_iter();
        self.published = is_published(parts, replacement.targets, progress.served);
        self.next = unless_published(self.published, taken.memory.next);
        self.prepared = true;
        self.stage = stage_of(progress.frozen);
        Ok(())
    }
}
