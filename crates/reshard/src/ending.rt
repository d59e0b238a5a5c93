//! How a workflow ends: it is given up, or its sources are through.
ghost use Rattle.std.specs.Prelude.{◌≡◌, true, false, [], OnOk, IfErr};
ghost use Rattle.std.specs.List.{AllByRecursion};
ghost use Rattle.journal.specs.Runs.{IsLegal};
ghost use Rattle.reshard_create.specs.Entries.{MayFollow};
ghost use Rattle.reshard_create.specs.FollowSteps.{IsOnward};
ghost use Rattle.reshard.specs.Cutover.{MayCancel};
ghost use Rattle.reshard_create.specs.Turns.{EachInTurn};
ghost use Rattle.reshard_create.specs.Looks.{HasThawed, IsServingAgain};

use crate::workflow::{Stage, Workflow};
use buffer::Buffer;
use journal::Naming;
use reshard_create::{ReshardFault, ShardPass, SourceShard, TargetShard, World, unfreeze_all};
use std::sync::Wait;

// Has each source give up what it keeps for the targets, which ask for it no more.
fn unfollow_all<W: World, J: Naming>(rt: &impl Wait, sources: &[SourceShard<W, J>]) {
    for source in sources {
        source.member.shard.lock(rt).unfollow();
    }
}

// Marks each target, so that no controller takes it up again.
fn mark_given_up<W: World, J: Naming>(rt: &impl Wait, targets: &[TargetShard<W, J>]) {
    for target in targets {
        target.member.shard.lock(rt).give_up();
    }
}

impl<W: World, J: Naming> Workflow<W, J> {
    fn may_cancel(&self) -> bool
        ensures yes { result ≡ true → MayCancel self.now }
        ensures no { result ≡ false → MayCancel self.now → ⊥ }
    {
        match self.stage {
            Stage::Following => true,
            Stage::Switching => self.retired == 0,
            _ => false,
        }
    }

    // Has no workflow from now on.
    pub(crate) fn forget(&mut self)
        ensures { self.new ≡ record self.old { stage = Stage.None; sources = []; targets = []; frozen = 0; retired = 0; served = 0; stored = []; prepared = false; published = false } }
    {
        self.sources.clear();
        self.targets.clear();
        self.rest.clear();
        self.next = None;
        self.prepared = false;
        self.published = false;
        self.frozen = 0;
        self.retired = 0;
        self.served = 0;
        self.stage = Stage::None;
    }

    // Promise: A workflow is given up exactly while its targets follow or no source is retired (else N4): each source that it froze serves
    // again and isn't looked at after that, and it is none. That the statements that wait go on, and that no controller takes its
    // targets up again, is for tests
    /// Gives the workflow up, of which no source is retired: each source that is frozen is thawed, and the statements that wait go on. Its
    /// targets' slots are used up, and no controller takes them up again. Refuses if there is none, or a source is retired. Takes no memory.
    pub fn cancel(
        &mut self,
        rt: &impl Wait,
        pass: &mut ShardPass<W, J>,
        buffer: &Buffer,
    ) -> Result<(), ReshardFault>
        requires legal { IsLegal (MayFollow W.opening) pass.old.seen }
        ensures was { OnOk result (MayCancel self.old) }
        ensures none { OnOk result (self.new ≡ record self.old { stage = Stage.None; sources = []; targets = []; frozen = 0; retired = 0; served = 0; stored = []; prepared = false; published = false }) }
        ensures serve { OnOk result (AllByRecursion (λ s. IsServingAgain W.opening s pass.old pass.new) self.old.sources) }
        ensures thawed { OnOk result (EachInTurn (HasThawed W.opening) self.old.sources pass.old pass.new) }
        ensures refused { IfErr result (λ e. (e ≡ ReshardFault.WrongState) × (MayCancel self.old → ⊥) × (self.new ≡ self.old) × (pass.new ≡ pass.old)) }
        ensures onward { IsOnward W.opening pass.old pass.new }
    {
        if !self.may_cancel() {
            return Err(ReshardFault::WrongState);
        }
        unfreeze_all(rt, self.sources.as_slice(), pass);
        mark_given_up(rt, self.targets.as_slice());
        unfollow_all(rt, self.sources.as_slice());
        self.forget();
        buffer.release(rt);
        Ok(())
    }
}
