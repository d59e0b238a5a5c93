ghost use Rattle.std.specs.Prelude.{◌≡◌, nat_le};
ghost use Rattle.shard_run.specs.Runs.{mode, shard_rows};
ghost use Rattle.shard_run.specs.Openings.{row_count};

use crate::state::ShardState;
use crate::world::World;
use journal::Naming;
use shard_run::Mode;

impl<W: World, J: Naming> ShardState<W, J> {
    /// Whether it has no more rows than a shard that serves may have.
    pub fn fits(&self) -> bool
        requires lives { mode W.opening self.now.seen self.now.shard.slot ≡ Mode.Retired → ⊥ }
        ensures { result ≡ nat_le (row_count (shard_rows W.opening self.now.seen self.now.shard)) W.limits.rows }
    {
        self.contents.store.has_at_most(self.contents.limits.rows)
    }
}
