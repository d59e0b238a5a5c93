//! Whether a shard is retired, and for which targets.
ghost use Rattle.std.specs.Prelude.{◌≡◌, true, List, Contains, length};
ghost use Rattle.shard_run.specs.declared.Event.{Event};
ghost use Rattle.shard_run.specs.declared.ShardRecord as which;
ghost use Rattle.shard_run.specs.Runs.{stored_on};

use crate::state::ShardState;
use crate::world::World;
use journal::Naming;
use shard_contents::Contents;
use shard_run::{Mode, ShardRecord};

fn is_same(one: &ShardRecord, other: &ShardRecord) -> bool
    ensures { result ≡ true → one.now ≡ other.now }
{
    one.slot == other.slot
        && one.place.keyspace == other.place.keyspace
        && one.place.range == other.place.range
        && one.sources.as_slice() == other.sources.as_slice()
}

fn is_among(shard: &ShardRecord, shards: &[ShardRecord]) -> bool
    ensures { result ≡ true → Contains shards.now shard.now }
{
    for other in shards {
        if is_same(other, shard) {
            return true;
        }
    }
    false
}

fn is_at_end(contents: &Contents) -> bool
    ensures { result ≡ true → contents.now.mode ≡ Mode.Retired }
{
    match contents.mode {
        Mode::Retired => true,
        _ => false,
    }
}

impl<W: World, J: Naming> ShardState<W, J> {
    // Promise: A shard returns whether it is retired, and for which targets after how many stored entries; a retired one gives up its rows,
    // and nothing else of it changes
    // With: ShardState::{is_retired_for, drop_rows}
    /// Whether it is retired, and its rows are still there.
    pub fn is_retired(&self) -> bool
        ensures { result ≡ true → (targets : List which.ShardRecord) × Contains self.now.seen (record { shard = self.now.shard; event = Event.Retire targets }) }
    {
        is_at_end(&self.contents)
    }

    /// Whether it is retired for targets of which this is one, has stored so many entries, and its rows are still there.
    pub fn is_retired_for(&self, target: &ShardRecord, stored: u64) -> bool
        ensures { result ≡ true → (targets : List which.ShardRecord) × Contains self.now.seen (record { shard = self.now.shard; event = Event.Retire targets })
            × Contains targets target.now × (stored ≡ length (stored_on self.now.shard.slot self.now.seen)) }
    {
        if !is_at_end(&self.contents) {
            return false;
        }
        if self.contents.stored.len() as u64 != stored {
            return false;
        }
        is_among(target, self.targets.as_slice())
    }
}
