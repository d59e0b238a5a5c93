//! The controller stops, and another one takes its workflow up from the shards.
ghost use Rattle.std.specs.Prelude.{◌≡◌};
ghost use Rattle.shard_run.specs.opening.Empty.{sharded_keyspace};
ghost use Rattle.admin.specs.AdminAnswers.{keyspace_of};

use crate::router::gate::HoldsFirst;
use admin::{
    Administrator, Engine, Replacement, ReshardConfig, ReshardFault, SourceShard, Stopped,
    TargetShard, Workflow,
};
use journal::Naming;
use serving::ShardReference;
use shard_calls::{Shard, ShardPass, World};
use std::alloc::Global;
use std::marker::Model;
use std::mem::replace;
use std::sync::{Arc, Wait};
use vt_value::Refusal;

/// What a workflow is made again of: the shards of its sources, and those of its targets, over what is fixed for all of its keyspace.
#[derive(Drop)]
pub(crate) struct Found<W: World, J: Naming> {
    config: ReshardConfig,
    sources: Vec<ShardReference<Shard<W, J>>>,
    targets: Vec<ShardReference<Shard<W, J>>>,
}

impl<W: World, J: Naming> Model for Found<W, J> {
    ghost use Rattle.shard_run.specs.Openings.{IsOpening};
    ghost use Rattle.reshard_create.specs.declared.config.ReshardConfig.{ReshardConfig};
    ghost use Rattle.reshard_create.specs.Configs.{IsReshardConfig};

    ghost Value = { ReshardConfig };

    ghost view = { λ f. f.config };

    ghost invariant = { λ f. IsOpening W.opening × IsReshardConfig W.opening W.limits f.config };
}

impl<W: World, J: Naming> Found<W, J> {
    // Its shards, as a workflow is made again of them.
    fn replacement(&self) -> Replacement<'_, ShardReference<Shard<W, J>>> {
        Replacement {
            sources: self.sources.as_slice(),
            targets: self.targets.as_slice(),
        }
    }

    fn put_sources(&mut self, sources: &[SourceShard<W, J>]) -> Result<(), Refusal> {
        for source in sources {
            put(&mut self.sources, &source.member.shard)?;
        }
        Ok(())
    }

    fn put_targets(&mut self, targets: &[TargetShard<W, J>]) -> Result<(), Refusal> {
        for target in targets {
            put(&mut self.targets, &target.member.shard)?;
        }
        Ok(())
    }
}

// Puts a shard after the others.
fn put<W: World, J: Naming>(
    parts: &mut Vec<ShardReference<Shard<W, J>>>,
    shard: &Arc<Shard<W, J>, Global>,
) -> Result<(), Refusal> {
    parts.push(ShardReference::new(Arc::try_clone(shard)?))?;
    Ok(())
}

// The workflow of these shards is reopened.
fn reopen_workflow<W: World + Send + Sync, J: Naming + Send + Sync>(
    rt: &impl Wait,
    alloc: Global,
    engine: &Engine<W, J, HoldsFirst>,
    pass: &mut ShardPass<W, J>,
    workflow: &mut Workflow<W, J>,
    keyspace: usize,
    found: &mut Found<W, J>,
    sources: &[SourceShard<W, J>],
    targets: &[TargetShard<W, J>],
) -> Result<(), ReshardFault>
    requires home { workflow.old.keyspace ≡ keyspace }
    ensures home { workflow.new.keyspace ≡ workflow.old.keyspace }
{
    found.put_sources(sources)?;
    found.put_targets(targets)?;
    let Some(serving) = engine.partitions(keyspace) else {
        return Err(ReshardFault::WrongState);
    };
    let _ = pass.session();
    workflow.reopen(rt, alloc, pass, serving, &found.replacement())
}

// Another controller of the same slots and shards, whether it took the workflow up, and of which shards.
fn reopened<W: World + Send + Sync, J: Naming + Send + Sync>(
    rt: &impl Wait,
    alloc: Global,
    engine: &Engine<W, J, HoldsFirst>,
    pass: &mut ShardPass<W, J>,
    workflow: Workflow<W, J>,
) -> (Workflow<W, J>, Result<(), ReshardFault>, Found<W, J>)
    ensures home { result.0.keyspace ≡ workflow.keyspace }
{
    let Stopped {
        config,
        free,
        sources,
        targets,
    } = workflow.stop();
    let mut next = Workflow::new(alloc, config, free);
    let mut found = Found {
        config,
        sources: Vec::new(alloc),
        targets: Vec::new(alloc),
    };
    let done = reopen_workflow(
        rt,
        alloc,
        engine,
        pass,
        &mut next,
        config.keyspace,
        &mut found,
        sources.as_slice(),
        targets.as_slice(),
    );
    (next, done, found)
}

/// The administrator's controller stops, and another one takes its workflow up from the shards, which are kept.
pub(crate) fn reopen<W: World + Send + Sync, J: Naming + Send + Sync>(
    rt: &impl Wait,
    alloc: Global,
    engine: &Engine<W, J, HoldsFirst>,
    administrator: &mut Administrator<W, J>,
    pass: &mut ShardPass<W, J>,
    last: &mut Option<Found<W, J>>,
) -> Result<(), ReshardFault>
    requires home { keyspace_of administrator.old ≡ sharded_keyspace engine.now }
    ensures home { keyspace_of administrator.new ≡ sharded_keyspace engine.now }
{
    let stopped = replace(administrator, Administrator::new(None));
    let Some(workflow) = stopped.into_workflow() else {
        return Err(ReshardFault::WrongState);
    };
    let (next, done, found) = reopened(rt, alloc, engine, pass, workflow);
    *last = Some(found);
    *administrator = Administrator::new(Some(next));
    done
}

/// A controller that has no slots reopens the workflow of these shards.
pub(crate) fn reopen_last<W: World + Send + Sync, J: Naming + Send + Sync>(
    rt: &impl Wait,
    alloc: Global,
    engine: &Engine<W, J, HoldsFirst>,
    pass: &mut ShardPass<W, J>,
    last: &Option<Found<W, J>>,
) -> Result<(), ReshardFault> {
    let Some(found) = last else {
        return Err(ReshardFault::WrongState);
    };
    let Some(serving) = engine.partitions(found.config.keyspace) else {
        return Err(ReshardFault::WrongState);
    };
    let mut other = Workflow::new(alloc, found.config, Vec::new(alloc));
    let _ = pass.session();
    other.reopen(rt, alloc, pass, serving, &found.replacement())
}
