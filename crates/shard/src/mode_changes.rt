//! How a shard comes to take no commits, to take them again, to be retired, and to serve.
ghost use Rattle.std.specs.Prelude.{◌≡◌, ◌<◌, ◌≤◌, ◌^◌, ◌++◌, ◌∷◌, [], length};
ghost use mathlib.Core.List.{IsPrefix};
ghost use Rattle.shard_run.specs.declared.Event.{Event};
ghost use Rattle.shard_run.specs.Runs.{mode, entries_on, shard_rows};
ghost use Rattle.shard_run.specs.Openings.{row_count};
ghost use Rattle.shard_contents.specs.Legal.{MayRetire, MayServe};
ghost use Rattle.shard.specs.Modes.{HasLookedTwice, HasChangedMode};

use crate::state::{ShardState, append_event};
use crate::world::{ShardPass, World};
use journal::Naming;
use shard_run::{Event, Mode, ShardRecord};
use std::mem::replace;
use vt_value::Items;

impl<W: World, J: Naming> ShardState<W, J> {
    // Two looks in a row, which the pass keeps.
    fn look_twice(&mut self, pass: &mut ShardPass<W, J>)
        ensures looked { HasLookedTwice W.opening self.old.shard.slot pass.old pass.new }
        ensures seen { self.new.seen ≡ pass.new.seen }
        ensures shard { self.new.shard ≡ self.old.shard }
        ensures same { self.new ≡ record self.old { seen = self.new.seen } }
        ensures mode { mode W.opening self.new.seen self.old.shard.slot ≡ mode W.opening self.old.seen self.old.shard.slot }
        ensures alone { entries_on self.old.shard.slot self.new.seen ≡ entries_on self.old.shard.slot self.old.seen }
        ensures later { IsPrefix pass.old.seen pass.new.seen }
    {
        let _first = self.look(pass);
        let _second = self.look(pass);
    }

    // Promise: Freeze, thaw, retire and serve are exactly one entry each, and take no memory. Each makes two looks at its shard first, one right
    // after the other, which its pass keeps: a pass that has no two looks at one shard in a row has changed no mode
    // With: ShardState::{thaw, retire, serve}
    /// From now on it takes no commits: two looks in a row, which the pass keeps, and then one entry. Takes no memory.
    pub fn freeze(&mut self, pass: &mut ShardPass<W, J>)
        requires serving { mode W.opening self.old.seen self.old.shard.slot ≡ Mode.Serving }
        requires room { length (entries_on self.old.shard.slot self.old.seen) < 2 ^ 40 }
        ensures changed { HasChangedMode W.opening self.old Event.Freeze pass.old pass.new }
        ensures entry { entries_on self.old.shard.slot self.new.seen ≡ entries_on self.old.shard.slot self.old.seen ++ record { shard = self.old.shard; event = Event.Freeze } ∷ [] }
        ensures seen { self.new.seen ≡ pass.new.seen }
        ensures shard { self.new.shard ≡ self.old.shard }
        ensures same { self.new ≡ record self.old { seen = self.new.seen } }
    {
        self.look_twice(pass);
        let _ = append_event(
            &mut self.seat,
            &mut self.contents,
            pass,
            Event::Freeze,
            Mode::Frozen,
        );
    }

    /// From now on it takes commits again: two looks in a row, and one entry. Takes no memory.
    pub fn thaw(&mut self, pass: &mut ShardPass<W, J>)
        requires frozen { mode W.opening self.old.seen self.old.shard.slot ≡ Mode.Frozen }
        ensures changed { HasChangedMode W.opening self.old Event.Thaw pass.old pass.new }
        ensures seen { self.new.seen ≡ pass.new.seen }
        ensures shard { self.new.shard ≡ self.old.shard }
        ensures same { self.new ≡ record self.old { seen = self.new.seen } }
    {
        self.look_twice(pass);
        let _ = append_event(
            &mut self.seat,
            &mut self.contents,
            pass,
            Event::Thaw,
            Mode::Serving,
        );
    }

    /// It gives its rows to the targets, which have it as a source, don't overlap, and together hold its place: two looks in a row, and one
    /// entry. Takes no memory.
    pub fn retire(&mut self, pass: &mut ShardPass<W, J>, targets: Items<ShardRecord>)
        requires may { MayRetire W.opening self.old.seen self.old.shard targets }
        ensures changed { HasChangedMode W.opening self.old (Event.Retire targets) pass.old pass.new }
        ensures seen { self.new.seen ≡ pass.new.seen }
        ensures shard { self.new.shard ≡ self.old.shard }
        ensures same { self.new ≡ record self.old { seen = self.new.seen } }
    {
        self.look_twice(pass);
        self.sorted.clear();
        let event = append_event(
            &mut self.seat,
            &mut self.contents,
            pass,
            Event::Retire(targets),
            Mode::Retired,
        );
        if let Event::Retire(targets) = event {
            self.targets = targets;
        }
    }

    /// A target that follows serves from now on: by what the pass has seen it is level with each source, which is retired for it. Two looks in
    /// a row, and one entry. Takes no memory.
    pub fn serve(&mut self, pass: &mut ShardPass<W, J>)
        requires following { mode W.opening self.old.seen self.old.shard.slot ≡ Mode.Following }
        requires looked { entries_on self.old.shard.slot pass.old.seen ≡ entries_on self.old.shard.slot self.old.seen }
        requires may { MayServe W.opening pass.old.seen self.old.shard }
        requires within { row_count (shard_rows W.opening self.old.seen self.old.shard) ≤ W.limits.rows }
        ensures changed { HasChangedMode W.opening self.old Event.Serve pass.old pass.new }
        ensures seen { self.new.seen ≡ pass.new.seen }
        ensures shard { self.new.shard ≡ self.old.shard }
        ensures same { self.new ≡ record self.old { seen = self.new.seen } }
    {
        self.look_twice(pass);
        let _ = append_event(
            &mut self.seat,
            &mut self.contents,
            pass,
            Event::Serve,
            Mode::Serving,
        );
    }
}
