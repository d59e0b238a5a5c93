//! What each admin line does to the workflow, and the reply that says so.
ghost use Rattle.std.specs.Prelude.{◌≡◌, IsTrue};
ghost use Rattle.std.specs.List.{AllByRecursion};
ghost use Rattle.keyrange.specs.Names.{IsNamed};
ghost use Rattle.vschema.specs.WellFormed.{is_vschema};
ghost use Rattle.journal.specs.Runs.{IsLegal};
ghost use Rattle.route_engine.specs.Entries.{MayFollow};
ghost use Rattle.reshard.specs.Steps.{IsOnward};
ghost use Rattle.admin.specs.AdminAnswers.{HasCreated, AnswersStep, HasCutOver, HasAdvanced, HasResumed, HasCancelled, HasCompleted};

use crate::reply::AdminReply;
use buffer::Buffer;
use journal::Naming;
use keyrange::KeyRange;
use reshard::{Replacement, Workflow, WorkflowContext};
use route_engine::{ShardPass, World};
use std::alloc::Global;
use std::sync::Wait;
use vschema::VSchema;

/// Begins a workflow.
pub(crate) fn create<W: World, J: Naming>(
    workflow: &mut Workflow<W, J>,
    rt: &impl Wait,
    alloc: Global,
    pass: &mut ShardPass<W, J>,
    context: &WorkflowContext<'_, W, J>,
    replacement: &Replacement<'_, KeyRange>,
) -> AdminReply
    requires schema { context.now.schema.now ≡ W.opening.schema }
    requires legal { IsLegal (MayFollow W.opening) pass.old.seen }
    requires home { context.now.serving.now ≡ workflow.old.keyspace }
    requires named { AllByRecursion IsNamed replacement.now.targets.now }
    ensures created { HasCreated W.opening replacement.now.sources.now replacement.now.targets.now workflow.old workflow.new pass.old pass.new result }
    ensures onward { IsOnward W.opening pass.old pass.new }
{
    match workflow.create(rt, alloc, pass, context, replacement) {
        Ok(()) => AdminReply::Done,
        Err(fault) => AdminReply::Refused(fault),
    }
}

/// Moves the first target that isn't level.
pub(crate) fn step<W: World, J: Naming>(
    workflow: &mut Workflow<W, J>,
    rt: &impl Wait,
    alloc: Global,
    pass: &mut ShardPass<W, J>,
    schema: &VSchema,
) -> AdminReply
    requires schema { schema.now ≡ W.opening.schema }
    requires formed { IsTrue (is_vschema W.opening.schema) }
    requires legal { IsLegal (MayFollow W.opening) pass.old.seen }
    ensures moved { AnswersStep W.opening W.limits workflow.old workflow.new pass.old pass.new result }
    ensures onward { IsOnward W.opening pass.old pass.new }
{
    match workflow.step(rt, alloc, pass, schema) {
        Ok(step) => AdminReply::Moved(step),
        Err(fault) => AdminReply::Refused(fault),
    }
}

/// Takes all steps of the cutover.
pub(crate) fn switch<W: World, J: Naming>(
    workflow: &mut Workflow<W, J>,
    rt: &impl Wait,
    alloc: Global,
    pass: &mut ShardPass<W, J>,
    context: &WorkflowContext<'_, W, J>,
) -> AdminReply
    requires schema { context.now.schema.now ≡ W.opening.schema }
    requires formed { IsTrue (is_vschema W.opening.schema) }
    requires legal { IsLegal (MayFollow W.opening) pass.old.seen }
    requires home { context.now.serving.now ≡ workflow.old.keyspace }
    ensures cut_over { HasCutOver W.opening W.limits workflow.old workflow.new pass.old pass.new result }
    ensures onward { IsOnward W.opening pass.old pass.new }
{
    match workflow.switch_traffic(rt, alloc, pass, context) {
        Ok(()) => AdminReply::Done,
        Err(fault) => AdminReply::Refused(fault),
    }
}

/// Takes one step of the cutover.
pub(crate) fn advance<W: World, J: Naming>(
    workflow: &mut Workflow<W, J>,
    rt: &impl Wait,
    alloc: Global,
    pass: &mut ShardPass<W, J>,
    context: &WorkflowContext<'_, W, J>,
) -> AdminReply
    requires schema { context.now.schema.now ≡ W.opening.schema }
    requires formed { IsTrue (is_vschema W.opening.schema) }
    requires legal { IsLegal (MayFollow W.opening) pass.old.seen }
    requires home { context.now.serving.now ≡ workflow.old.keyspace }
    ensures advanced { HasAdvanced W.opening W.limits workflow.old workflow.new pass.old pass.new result }
    ensures onward { IsOnward W.opening pass.old pass.new }
{
    match workflow.switch_step(rt, alloc, pass, context) {
        Ok(step) => AdminReply::Took(step),
        Err(fault) => AdminReply::Refused(fault),
    }
}

/// Undoes or ends a cutover that has begun. Takes no memory.
pub(crate) fn resume<W: World, J: Naming>(
    workflow: &mut Workflow<W, J>,
    rt: &impl Wait,
    pass: &mut ShardPass<W, J>,
    context: &WorkflowContext<'_, W, J>,
) -> AdminReply
    requires schema { context.now.schema.now ≡ W.opening.schema }
    requires legal { IsLegal (MayFollow W.opening) pass.old.seen }
    requires home { context.now.serving.now ≡ workflow.old.keyspace }
    ensures resumed { HasResumed W.opening workflow.old workflow.new pass.old pass.new result }
    ensures onward { IsOnward W.opening pass.old pass.new }
{
    match workflow.resume(rt, pass, context) {
        Ok(_) => AdminReply::Done,
        Err(fault) => AdminReply::Refused(fault),
    }
}

/// Gives the workflow up. Takes no memory.
pub(crate) fn cancel<W: World, J: Naming>(
    workflow: &mut Workflow<W, J>,
    rt: &impl Wait,
    pass: &mut ShardPass<W, J>,
    buffer: &Buffer,
) -> AdminReply
    requires legal { IsLegal (MayFollow W.opening) pass.old.seen }
    ensures cancelled { HasCancelled W.opening workflow.old workflow.new pass.old pass.new result }
    ensures onward { IsOnward W.opening pass.old pass.new }
{
    match workflow.cancel(rt, pass, buffer) {
        Ok(()) => AdminReply::Done,
        Err(fault) => AdminReply::Refused(fault),
    }
}

/// Ends the workflow, whose targets serve. Takes no memory.
pub(crate) fn complete<W: World, J: Naming>(
    workflow: &mut Workflow<W, J>,
    rt: &impl Wait,
    pass: &mut ShardPass<W, J>,
) -> AdminReply
    requires legal { IsLegal (MayFollow W.opening) pass.old.seen }
    ensures completed { HasCompleted W.opening workflow.old workflow.new pass.old pass.new result }
    ensures onward { IsOnward W.opening pass.old pass.new }
{
    match workflow.complete(rt, pass) {
        Ok(()) => AdminReply::Done,
        Err(fault) => AdminReply::Refused(fault),
    }
}
