//! A shard on which nothing happened gives its seat back.
ghost use Rattle.std.specs.Prelude.{◌≡◌, ◌↔◌, [], true, false};
ghost use Rattle.shard_run.specs.Runs.{entries_on, is_opening};
ghost use Rattle.shard_contents.specs.Entries.{seat_view};

use crate::locked::Shard;
use crate::state::ShardState;
use crate::world::{ShardLaw, World};
use journal::{Naming, ShardSeat};
use shard_contents::Contents;
use shard_run::Mode;

fn follows(contents: &Contents) -> bool
    ensures { result ≡ true ↔ (contents.now.mode ≡ Mode.Following) }
{
    match contents.mode {
        Mode::Following => true,
        _ => false,
    }
}

impl<W: World, J: Naming> Shard<W, J> {
    /// The shard's state, which no lock is over from now on.
    pub fn into_state(self) -> ShardState<W, J> {
        self.into_lock().into_inner()
    }
}

impl<W: World, J: Naming> ShardState<W, J> {
    // Promise: A state returns whether it is a target on which nothing has happened, which has no entry on its slot, and gives its seat back
    // With: ShardState::into_seat
    /// Whether it is a target on which nothing has happened, in what its seat has seen.
    pub fn is_untouched(&self) -> bool
        ensures fresh { result ≡ true → entries_on self.now.shard.slot self.now.seen ≡ [] }
        ensures not_opening { result ≡ true → is_opening W.opening self.now.shard.slot ≡ false }
        ensures only { entries_on self.now.shard.slot self.now.seen ≡ [] → is_opening W.opening self.now.shard.slot ≡ false → result ≡ true }
    {
        if !follows(&self.contents) {
            return false;
        }
        if !self.contents.stored.is_empty() {
            return false;
        }
        self.contents.steps.is_empty()
    }

    /// Its seat. What the shard held is gone.
    pub fn into_seat(self) -> ShardSeat<ShardLaw<W>, J>
        ensures { result ≡ seat_view self }
    {
        let ShardState {
            seat,
            contents: _,
            sorted: _,
            targets: _,
            given_up: _,
            readers: _,
        } = self;
        seat
    }
}
