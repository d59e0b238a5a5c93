//! The end of a workflow that is through: its sources give up their rows.
ghost use Rattle.std.specs.Prelude.{◌≡◌, true, false, [], OnOk, IfErr, map};
ghost use Rattle.std.specs.List.{AllByRecursion};
ghost use Rattle.journal.specs.Runs.{IsLegal};
ghost use Rattle.reshard_create.specs.Entries.{MayFollow};
ghost use Rattle.reshard_create.specs.FollowSteps.{IsOnward};
ghost use Rattle.reshard_create.specs.Looks.{IsOutOfUse};
ghost use Rattle.reshard_create.specs.Turns.{HasLookedAt};

use crate::workflow::{Stage, Workflow};
use journal::Naming;
use reshard_create::{ReshardFault, ShardPass, World, drop_all};
use std::sync::Wait;

impl<W: World, J: Naming> Workflow<W, J> {
    fn is_switched(&self) -> bool
        ensures yes { result ≡ true → self.now.stage ≡ Stage.Switched }
        ensures no { result ≡ false → self.now.stage ≡ Stage.Switched → ⊥ }
    {
        match self.stage {
            Stage::Switched => true,
            _ => false,
        }
    }

    // Promise: A workflow is completed exactly when its targets serve (else N4): each of its sources is retired, so that no statement
    // reads it, and there is none. Its pass looks once at each source and at no other shard, so no shard is frozen or thawed. No clause says that
    // the sources' rows are given up
    /// Ends the workflow, whose targets serve: its sources' rows are dropped, and their slots are used up. Refuses if the targets don't
    /// serve. Takes no memory.
    pub fn complete(
        &mut self,
        rt: &impl Wait,
        pass: &mut ShardPass<W, J>,
    ) -> Result<(), ReshardFault>
        requires legal { IsLegal (MayFollow W.opening) pass.old.seen }
        ensures was { OnOk result (self.old.stage ≡ Stage.Switched) }
        ensures none { OnOk result (self.new ≡ record self.old { stage = Stage.None; sources = []; targets = []; frozen = 0; retired = 0; served = 0; stored = []; prepared = false; published = false }) }
        ensures out { OnOk result (AllByRecursion (λ s. IsOutOfUse W.opening s pass.old pass.new) self.old.sources) }
        ensures looked { OnOk result (HasLookedAt (map (λ s. s.slot) self.old.sources) pass.old pass.new) }
        ensures refused { IfErr result (λ e. (e ≡ ReshardFault.WrongState) × (self.old.stage ≡ Stage.Switched → ⊥) × (self.new ≡ self.old) × (pass.new ≡ pass.old)) }
        ensures onward { IsOnward W.opening pass.old pass.new }
    {
        if !self.is_switched() {
            return Err(ReshardFault::WrongState);
        }
        drop_all(rt, self.sources.as_slice(), pass);
        self.forget();
        Ok(())
    }
}
