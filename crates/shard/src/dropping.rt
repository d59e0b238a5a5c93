//! A retired shard gives up its rows.
ghost use Rattle.std.specs.Prelude.{◌≡◌, [], None};
ghost use Rattle.shard_run.specs.Runs.{mode};
ghost use Rattle.shard_contents.specs.inner.StoredLogs.{nothing_stored};

use crate::state::ShardState;
use crate::world::World;
use journal::Naming;
use shard_contents::{Contents, StoredEntries, StoredTables};
use shard_run::Mode;

// Nothing is left of what the shard held. Takes no memory.
fn empty(contents: &mut Contents)
    ensures rows { contents.new.store.rows ≡ [] }
    ensures stored { contents.new.stored.log ≡ nothing_stored }
    ensures mode { contents.new.mode ≡ Mode.Dropped }
    ensures shard { contents.new.shard ≡ contents.old.shard }
    ensures limits { contents.new.limits ≡ contents.old.limits }
{
    let alloc = *contents.steps.allocator();
    contents.store = StoredTables::new(alloc);
    contents.stored = StoredEntries::new(alloc);
    contents.steps = Vec::new(alloc);
    contents.mode = Mode::Dropped;
}

impl<W: World, J: Naming> ShardState<W, J> {
    /// Gives up the rows of a shard that is retired. Takes no memory.
    pub fn drop_rows(&mut self)
        requires retired { mode W.opening self.old.seen self.old.shard.slot ≡ Mode.Retired }
        ensures { self.new ≡ record self.old { kept_from = None; tables = 0 } }
    {
        empty(&mut self.contents);
        self.sorted.clear();
    }
}
