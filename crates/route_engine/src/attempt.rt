//! A statement's attempt at its shards, after which it may have to wait.
ghost use Rattle.std.specs.Prelude.{◌≡◌, None, Some, IfOk};
ghost use Rattle.serving.specs.Partitions.{AreOf};

use buffer::{Full, Passed, Turn};
use journal::Naming;
use serving::{Partition, Serving};
use shard_calls::{Shard, World};
use std::sync::Wait;

/// A partition that was read after a turn was taken. A statement that waits gives up the attempt by which it has tried, so that it sleeps
/// through no release that was made since it read the partition.
#[derive(Drop)]
pub struct Attempt<'e, W: World, J: Naming> {
    partition: &'e Partition<Shard<W, J>>,
    turn: Turn<'e>,
    // That a release came after the turn of the attempt before this one.
    after: Option<Passed>,
}

impl<'e, W: World, J: Naming> Attempt<'e, W, J> {
    /// Reads the partition that is present now that the turn is taken, for a statement that hasn't waited.
    pub fn first(turn: Turn<'e>, serving: &'e Serving<Shard<W, J>>) -> Attempt<'e, W, J>
        ensures partition { AreOf serving.now result.partition.now }
        ensures after { result.after ≡ None }
    {
        Attempt {
            partition: serving.current(),
            turn,
            after: None,
        }
    }

    /// Reads the partition that is present now that the turn is taken, for a statement that has waited.
    pub fn again(
        turn: Turn<'e>,
        serving: &'e Serving<Shard<W, J>>,
        after: Passed,
    ) -> Attempt<'e, W, J>
        ensures partition { AreOf serving.now result.partition.now }
        ensures after { result.after ≡ Some after }
    {
        Attempt {
            partition: serving.current(),
            turn,
            after: Some(after),
        }
    }

    /// The partition to try.
    pub fn partition(&self) -> &'e Partition<Shard<W, J>>
        ensures { result.now ≡ self.now.partition.now }
    {
        self.partition
    }

    /// Waits for a release after the turn, if none was made yet, unless the buffer is full.
    pub fn wait(self, rt: &impl Wait) -> Result<Passed, Full>
        ensures { IfOk result (λ passed. passed ≡ self.entry.turn) }
    {
        self.turn.wait(rt)
    }
}
