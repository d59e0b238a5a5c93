//! What a controller learns from a shard that it finds: which targets it named as it retired, and whether its workflow was given up.
ghost use Rattle.std.specs.Prelude.{◌≡◌, Contains};
ghost use Rattle.shard_run.specs.declared.Event.{Event};
ghost use Rattle.shard_run.specs.declared.Mode.{Mode};
ghost use Rattle.shard_run.specs.Runs.{mode};

use crate::state::ShardState;
use crate::world::World;
use journal::Naming;
use shard_run::ShardRecord;

impl<W: World, J: Naming> ShardState<W, J> {
    // Promise: A shard that is retired returns the targets that its entry names. No run says whether a target's workflow was given up
    // With: ShardState::{named, give_up}
    /// The targets that a retired shard named.
    pub fn named(&self) -> &[ShardRecord]
        ensures { mode W.opening self.now.seen self.now.shard.slot ≡ Mode.Retired
            → Contains self.now.seen (record { shard = self.now.shard; event = Event.Retire result.now }) }
    {
        self.targets.as_slice()
    }

    /// Marks a target whose workflow was given up.
    pub fn give_up(&mut self)
        ensures { self.new ≡ self.old }
    {
        self.given_up = true;
    }

    /// Whether its workflow was given up.
    pub fn is_given_up(&self) -> bool {
        self.given_up
    }
}
