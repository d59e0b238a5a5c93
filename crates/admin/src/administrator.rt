//! Admin lines, each read and answered.
ghost use Rattle.std.specs.Prelude.{◌≡◌, IsTrue};
ghost use Rattle.vschema.specs.WellFormed.{is_vschema};
ghost use Rattle.journal.specs.Runs.{IsLegal};
ghost use Rattle.route_engine.specs.Entries.{MayFollow};
ghost use Rattle.reshard.specs.Steps.{IsOnward};
ghost use Rattle.admin.specs.AdminAnswers.{IsAnswered, IsAnsweredWithout};

use crate::calls::{advance, cancel, complete, create, resume, step, switch};
use crate::reply::AdminReply;
use crate::status::{empty_status, status};
use journal::Naming;
use reshard::{Replacement, ReshardFault, WorkLeft, Workflow, WorkflowContext};
use route_engine::{ShardPass, World};
use std::alloc::Global;
use std::marker::Model;
use std::sync::Wait;
use vschema::VSchema;
use vt_value::Refusal;
use vtgate_lines::{AdminLine, read_admin_line};

fn refused(fault: ReshardFault) -> AdminReply
    ensures { result ≡ AdminReply.Refused fault }
{
    AdminReply::Refused(fault)
}

// Answers a line over a workflow.
fn answer_over<W: World, J: Naming>(
    workflow: &mut Workflow<W, J>,
    rt: &impl Wait,
    alloc: Global,
    pass: &mut ShardPass<W, J>,
    context: &WorkflowContext<'_, W, J>,
    words: &[u8],
) -> AdminReply
    requires schema { context.now.schema.now ≡ W.opening.schema }
    requires formed { IsTrue (is_vschema W.opening.schema) }
    requires legal { IsLegal (MayFollow W.opening) pass.old.seen }
    requires home { context.now.serving.now ≡ workflow.old.keyspace }
    ensures answered { IsAnswered W.opening W.limits words.now workflow.old workflow.new pass.old pass.new result }
    ensures onward { IsOnward W.opening pass.old pass.new }
{
    let line = match read_admin_line(alloc, words) {
        Ok(line) => line,
        Err(_) => return refused(ReshardFault::Refused(Refusal::OutOfMemory)),
    };
    match line {
        AdminLine::Status => status(alloc, workflow, context.serving),
        AdminLine::Create(sources, targets) => {
            let replacement = Replacement {
                sources: &sources,
                targets: &targets,
            };
            create(workflow, rt, alloc, pass, context, &replacement)
        }
        AdminLine::Step => step(workflow, rt, alloc, pass, context.schema),
        AdminLine::Switch => switch(workflow, rt, alloc, pass, context),
        AdminLine::Advance => advance(workflow, rt, alloc, pass, context),
        AdminLine::Resume => resume(workflow, rt, pass, context),
        AdminLine::Cancel => cancel(workflow, rt, pass, context.buffer),
        AdminLine::Complete => complete(workflow, rt, pass),
        AdminLine::Unknown => AdminReply::Unknown,
    }
}

// Answers a line if there is no sharded keyspace.
fn answer_without(alloc: Global, words: &[u8]) -> AdminReply
    ensures { IsAnsweredWithout words.now result }
{
    let line = match read_admin_line(alloc, words) {
        Ok(line) => line,
        Err(_) => return refused(ReshardFault::Refused(Refusal::OutOfMemory)),
    };
    match line {
        AdminLine::Status => empty_status(alloc),
        AdminLine::Create(_, _) => refused(ReshardFault::WrongSource),
        AdminLine::Step => refused(ReshardFault::WrongState),
        AdminLine::Switch => refused(ReshardFault::WrongState),
        AdminLine::Advance => refused(ReshardFault::WrongState),
        AdminLine::Resume => refused(ReshardFault::WrongState),
        AdminLine::Cancel => refused(ReshardFault::WrongState),
        AdminLine::Complete => refused(ReshardFault::WrongState),
        AdminLine::Unknown => AdminReply::Unknown,
    }
}

/// Answers admin lines over the workflow of the sharded keyspace. Without such a keyspace it has none. Contracts see the workflow's view.
pub struct Administrator<W: World, J: Naming> {
    workflow: Option<Workflow<W, J>>,
}

impl<W: World, J: Naming> Drop for Administrator<W, J> {
    // Who drops one calls this, and need not know what it owns.
    fn drop(self) {
        let Administrator { workflow } = self;
        drop(workflow);
    }
}

impl<W: World, J: Naming> Model for Administrator<W, J> {
    ghost use Rattle.admin.specs.AdminAnswers.{AdministratorView};

    ghost Value = { AdministratorView };

    ghost view = { λ a. a.workflow };
}

impl<W: World, J: Naming> Administrator<W, J> {
    ghost use Rattle.std.specs.Prelude.{◌≡◌, IfSome, IsTrue, MatchOption};
    ghost use Rattle.vschema.specs.WellFormed.{is_vschema};
    ghost use Rattle.admin.specs.AdminAnswers.{IsAdminReply, keyspace_of};

    // Promise: An admin line does exactly what its words ask for over the workflow of the sharded keyspace, and its answer says so: what
    // was done, which step was taken, or why not, by its number; other words are unknown and do nothing, and neither does a line that can't
    // be read for want of memory. `status` lists the ranges of the shards that serve then, if there is a workflow, else those of
    // some partition of the keyspace, in their order, and how far the workflow is.
    // Without a sharded keyspace there is no workflow. The answer's line takes no memory, so that what was done is always answered
    // With: Administrator::answer, AdminReply::line
    /// Over the workflow of the sharded keyspace, or, without such a keyspace, none.
    pub fn new(workflow: Option<Workflow<W, J>>) -> Administrator<W, J>
        ensures { result ≡ workflow }
    {
        Administrator { workflow }
    }

    /// Its workflow, which another may go on with.
    pub fn into_workflow(self) -> Option<Workflow<W, J>>
        ensures { result ≡ self }
    {
        let Administrator { workflow } = self;
        workflow
    }

    /// What is left before the targets of its workflow are level with their sources: nothing if it has none. Takes no memory.
    pub fn work_left(&self, rt: &impl Wait, schema: &VSchema) -> WorkLeft
        requires schema { schema.now ≡ W.opening.schema }
    {
        match &self.workflow {
            Some(workflow) => workflow.work_left(rt, schema),
            None => WorkLeft {
                copying: 0,
                entries: 0,
            },
        }
    }

    /// Whether reads of its workflow's sources are under way. Takes no memory.
    pub fn is_read(&self, rt: &impl Wait) -> bool {
        match &self.workflow {
            Some(workflow) => workflow.is_read(rt),
            None => false,
        }
    }

    /// Reads the words of an admin line, does what they ask for, and tells what was done, or why it wasn't. If there is no memory to
    /// read them, the workflow stands as it stood. The context is that of the sharded keyspace, if there is one.
    pub fn answer(
        &mut self,
        rt: &impl Wait,
        alloc: Global,
        pass: &mut ShardPass<W, J>,
        context: Option<WorkflowContext<'_, W, J>>,
        words: &[u8],
    ) -> AdminReply
        requires schema { IfSome context (λ c. c.schema.now ≡ W.opening.schema) }
        requires formed { IsTrue (is_vschema W.opening.schema) }
        requires home { IfSome self.old (λ w. MatchOption context ⊥ (λ c. c.serving.now ≡ w.keyspace)) }
        ensures told { IsAdminReply W.opening W.limits words.now pass.old pass.new result self.old self.new }
        ensures keyspace { keyspace_of self.new ≡ keyspace_of self.old }
        ensures onward { IsOnward W.opening pass.old pass.new }
    {
        let _ = pass.session();
        let Some(workflow) = &mut self.workflow else {
            return answer_without(alloc, words);
        };
        let Some(context) = context else {
            return answer_without(alloc, words);
        };
        answer_over(workflow, rt, alloc, pass, &context, words)
    }
}
