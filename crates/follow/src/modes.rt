//! What a shard does, as its state under the lock tells.
ghost use Rattle.std.specs.Prelude.{◌≡◌, true};
ghost use Rattle.shard_run.specs.Runs.{mode, answers_queries};

use journal::Naming;
use shard::{ShardState, World};
use shard_run::Mode;

/// Whether the shard follows its sources.
pub fn follows<W: World, J: Naming>(state: &ShardState<W, J>) -> bool
    ensures yes { result ≡ true → mode W.opening state.now.seen state.now.shard.slot ≡ Mode.Following }
    ensures only { mode W.opening state.now.seen state.now.shard.slot ≡ Mode.Following → result ≡ true }
{
    state.mode() == Mode::Following
}

/// Whether the shard answers queries: it serves, and may be frozen.
pub fn answers<W: World, J: Naming>(state: &ShardState<W, J>) -> bool
    ensures yes { result ≡ true → answers_queries (mode W.opening state.now.seen state.now.shard.slot) ≡ true }
    ensures only { answers_queries (mode W.opening state.now.seen state.now.shard.slot) ≡ true → result ≡ true }
{
    matches!(state.mode(), Mode::Serving | Mode::Frozen)
}
