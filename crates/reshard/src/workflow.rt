//! A workflow that replaces some shards of a keyspace by others, which hold the same ids.
use journal::{Naming, ShardSeat};
use reshard_create::{ReshardConfig, Shard, ShardLaw, SourceShard, TargetShard, World};
use serving::{Partition, ShardReference};
use std::marker::Model;
use std::vec::IntoIter;
use vt_value::Items;

/// How far a workflow is.
#[derive(Clone, Copy, Debug, PartialEq, Eq)]
pub enum Stage {
    /// No shards are being replaced.
    None,
    /// The targets copy and follow.
    Following,
    /// A source is frozen, or more was done of the cutover.
    Switching,
    /// The targets serve.
    Switched,
}

/// A controller of splits and merges in one keyspace, one at a time. It has the seats of the slots that no shard was ever on. Contracts see
/// a `WorkflowView`.
#[derive(Drop)]
pub struct Workflow<W: World, J: Naming> {
    pub(crate) config: ReshardConfig,
    pub(crate) stage: Stage,
    pub(crate) free: Vec<ShardSeat<ShardLaw<W>, J>>,
    pub(crate) sources: Vec<SourceShard<W, J>>,
    pub(crate) targets: Vec<TargetShard<W, J>>,
    // the parts of the partition that stay
    pub(crate) rest: Vec<ShardReference<Shard<W, J>>>,
    // so many of the first sources are frozen or retired, and so many of the first targets serve
    pub(crate) frozen: usize,
    pub(crate) retired: usize,
    pub(crate) served: usize,
    // the memory of a cutover: for each source that isn't retired the targets that it names, and the next partition, which is there until it is
    // published
    pub(crate) prepared: bool,
    pub(crate) published: bool,
    pub(crate) named: IntoIter<Items<shard_run::ShardRecord>>,
    pub(crate) next: Option<Box<Partition<Shard<W, J>>>>,
}

impl<W: World, J: Naming> Model for Workflow<W, J> {
    ghost use Rattle.std.specs.Prelude.{◌≡◌, ◌++◌, true, false, map, IfSome, IsSome, IsPermutation};
    ghost use Rattle.serving.specs.Partitions.{AreOf};
    ghost use Rattle.std.specs.Vec.Iter.{into_iter_items};
    ghost use Rattle.reshard.specs.Workflows.{WorkflowView, IsWorkflow};
    ghost use Rattle.reshard.specs.inner.Workflows.{IsPrepared};

    ghost Value = { WorkflowView };

    ghost view = { λ w. record {
      stage = w.stage;
      keyspace = w.config.keyspace;
      free = map (λ s. s.slot) w.free.items;
      sources = map (λ s. s.member.which) w.sources.items;
      targets = map (λ t. (t.member.which, map (λ s. s.which) t.sources.items)) w.targets.items;
      frozen = w.frozen;
      retired = w.retired;
      served = w.served;
      stored = map (λ s. s.stored) w.sources.items;
      prepared = w.prepared;
      published = w.published;
    } };

    ghost invariant = { λ w. IsWorkflow W.opening W.limits w.config w.stage w.free.items (map (λ s. s.member.which) w.sources.items)
        (map (λ t. (t.member.which, map (λ s. s.which) t.sources.items)) w.targets.items) (map (λ t. t.member.shard.value) w.targets.items) w.rest.items
        × IsPrepared (map (λ s. s.member.which) w.sources.items) (map (λ t. (t.member.which, map (λ s. s.which) t.sources.items)) w.targets.items) w.retired w.prepared
        (into_iter_items w.named)
        × IfSome w.next (λ next. AreOf w.config.keyspace next.value)
        × (w.prepared ≡ true → w.published ≡ false → IsSome w.next)
        × IfSome w.next (λ next. IsPermutation (w.rest.items ++ map (λ t. t.member.shard.value) w.targets.items) next.value) };
}
