//! Targets come forward, one after the other.
ghost use Rattle.std.specs.Prelude.{◌≡◌, IfOk, IfErr, OnErr, IsTrue, map};
ghost use Rattle.shard_contents.specs.WellFormed.{is_vschema};
ghost use Rattle.journal.specs.Runs.{IsLegal};
ghost use Rattle.shard_run.specs.Openings.{IsOpening};
ghost use Rattle.shard_contents.specs.Entries.{MayFollow};
ghost use Rattle.follow.specs.Steps.{IsOnward};
ghost use Rattle.reshard_cutover.specs.Overlapping.{TakeFromOwn};
ghost use Rattle.reshard_cutover.specs.FirstMoves.{HasMovedFirst, IsMoveRefusal, IsOneStepFirst, IsNoStepFirst, IsFullFirst};

use crate::fault::ReshardFault;
use crate::target::TargetShard;
use follow::{ShardPass, Step, World, bring_forward_with};
use journal::Naming;
use shard_contents::VSchema;
use std::alloc::Global;
use std::sync::Wait;
use vt_value::Refusal;

/// Brings the first of the targets forward that isn't level, by one entry.
pub fn move_first<W: World, J: Naming>(
    rt: &impl Wait,
    alloc: Global,
    pass: &mut ShardPass<W, J>,
    schema: &VSchema,
    targets: &[TargetShard<W, J>],
) -> Result<Step, Refusal>
    requires opens { IsOpening W.opening }
    requires schema { schema.now ≡ W.opening.schema }
    requires formed { IsTrue (is_vschema W.opening.schema) }
    requires own { TakeFromOwn (map (λ t. (t.member.which, map (λ s. s.which) t.sources.items)) targets.now) }
    requires legal { IsLegal (MayFollow W.opening) pass.old.seen }
    ensures moved { IfOk result (HasMovedFirst W.opening (map (λ t. (t.member.which, map (λ s. s.which) t.sources.items)) targets.now) pass.old pass.new) }
    ensures once { IfOk result (IsOneStepFirst (map (λ t. (t.member.which, map (λ s. s.which) t.sources.items)) targets.now) pass.old pass.new) }
    ensures refused { IfErr result (λ e. IsMoveRefusal W.opening W.limits (map (λ t. (t.member.which, map (λ s. s.which) t.sources.items)) targets.now) pass.new (ReshardFault.Refused e)) }
    ensures full { IfErr result (λ e. e ≡ Refusal.ShardFull → IsFullFirst W.opening W.limits (map (λ t. (t.member.which, map (λ s. s.which) t.sources.items)) targets.now) pass.old pass.new) }
    ensures nothing { OnErr result (IsNoStepFirst (map (λ t. (t.member.which, map (λ s. s.which) t.sources.items)) targets.now) pass.old pass.new) }
    ensures onward { IsOnward W.opening pass.old pass.new }
{
    for target in targets {
        let step = bring_forward_with(
            rt,
            alloc,
            pass,
            schema,
            target.sources.as_slice(),
            &target.member,
        )?;
        if step != Step::Level {
            return Ok(step);
        }
    }
    Ok(Step::Level)
}
