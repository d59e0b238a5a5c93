//! Admin lines over the engine.
ghost use Rattle.std.specs.Prelude.{◌≡◌, ℕ, Some, IfSome, MatchOption};
ghost use Rattle.reshard.specs.Steps.{IsOnward};
ghost use Rattle.shard_run.specs.opening.Empty.{sharded_keyspace};
ghost use Rattle.admin.specs.AdminAnswers.{IsAdminReply, keyspace_of};

use crate::administrator::Administrator;
use crate::reply::AdminReply;
use journal::Naming;
use reshard::{WorkLeft, WorkflowContext};
use route_engine::{Engine, Gate, ShardPass, World};
use shard_run::opening::sharded_keyspace;
use std::alloc::Global;
use std::sync::Wait;

// What a workflow of the sharded keyspace works on, if there is such a keyspace.
fn workflow_context<W: World + Send + Sync, J: Naming + Send + Sync, G: Gate>(
    engine: &Engine<W, J, G>,
) -> Option<WorkflowContext<'_, W, J>>
    ensures some { (k : ℕ) → sharded_keyspace engine.now ≡ Some k → MatchOption result ⊥ (λ c. c.serving.now ≡ k) }
    ensures schema { IfSome result (λ c. c.schema.now ≡ W.opening.schema) }
{
    let schema = engine.schema();
    let keyspace = sharded_keyspace(schema)?;
    let serving = engine.partitions(keyspace)?;
    Some(WorkflowContext {
        schema,
        serving,
        buffer: engine.buffer(),
    })
}

/// Answers an admin line over the engine's sharded keyspace, which the administrator is that of.
pub fn administer<W: World + Send + Sync, J: Naming + Send + Sync, G: Gate>(
    rt: &impl Wait,
    alloc: Global,
    engine: &Engine<W, J, G>,
    administrator: &mut Administrator<W, J>,
    pass: &mut ShardPass<W, J>,
    words: &[u8],
) -> AdminReply
    requires home { keyspace_of administrator.old ≡ sharded_keyspace engine.now }
    ensures told { IsAdminReply W.opening W.limits words.now pass.old pass.new result administrator.old administrator.new }
    ensures keyspace { keyspace_of administrator.new ≡ keyspace_of administrator.old }
    ensures onward { IsOnward W.opening pass.old pass.new }
{
    administrator.answer(rt, alloc, pass, workflow_context(engine), words)
}

/// What is left before the targets of the sharded keyspace's workflow are level with their sources: nothing if there is none. Takes no memory.
pub fn work_left<W: World + Send + Sync, J: Naming + Send + Sync, G: Gate>(
    rt: &impl Wait,
    engine: &Engine<W, J, G>,
    administrator: &Administrator<W, J>,
) -> WorkLeft {
    administrator.work_left(rt, engine.schema())
}
