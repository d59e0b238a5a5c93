//! A controller stops, and leaves what another needs to reopen its workflow.
ghost use Rattle.std.specs.Prelude.{◌≡◌, map};
ghost use Rattle.std.specs.List.{AllByRecursion};
ghost use Rattle.shard_run.specs.Openings.{IsOpening};
ghost use Rattle.reshard_create.specs.Configs.{IsFree, IsReshardConfig};
ghost use Rattle.reshard_create.specs.Splits.{target_seats};

use crate::workflow::Workflow;
use journal::{Naming, ShardSeat};
use reshard_create::{ReshardConfig, ShardLaw, SourceShard, TargetShard, World};

/// What is left of a controller that stopped: the seats of the slots that no shard was ever on, and the shards of its workflow. How far
/// that was is forgotten.
#[derive(Drop)]
pub struct Stopped<W: World, J: Naming> {
    pub config: ReshardConfig,
    pub free: Vec<ShardSeat<ShardLaw<W>, J>>,
    pub sources: Vec<SourceShard<W, J>>,
    pub targets: Vec<TargetShard<W, J>>,
}

impl<W: World, J: Naming> Workflow<W, J> {
    // Promise: A controller that stops leaves its free slots and the shards of its workflow
    /// Stops the controller. A new one over its free slots can take its workflow up from the shards. Takes no memory.
    pub fn stop(self) -> Stopped<W, J>
        ensures opens { IsOpening W.opening }
        ensures config { IsReshardConfig W.opening W.limits result.config }
        ensures keyspace { result.config.keyspace ≡ self.keyspace }
        ensures free { AllByRecursion (IsFree W.opening) result.free.items }
        ensures slots { map (λ s. s.slot) result.free.items ≡ self.free }
        ensures sources { map (λ s. s.member.which) result.sources.items ≡ self.sources }
        ensures targets { map (λ t. (t.member.which, map (λ s. s.which) t.sources.items)) result.targets.items ≡ self.targets }
        ensures seats { map (λ t. t.member.shard.value) result.targets.items ≡ target_seats self.targets }
    {
        let Workflow {
            config,
            stage: _,
            free,
            sources,
            targets,
            rest: _,
            frozen: _,
            retired: _,
            served: _,
            prepared: _,
            published: _,
            named: _,
            next: _,
        } = self;
        Stopped {
            config,
            free,
            sources,
            targets,
        }
    }
}
