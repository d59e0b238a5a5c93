//! The steps of a cutover: a shard is frozen, thawed, retired or begins to serve, each under its lock alone, and what earlier steps did is looked
//! at again. The first target that isn't level comes forward. The next partition, and the lists of the shards that retire, are made before.
#![tactic(auto)]

mod confirming;
mod cutover_memory;
mod dropping;
mod fault;
mod fitting;
mod next_move;
mod steps;
mod stored;
mod target;
mod thawing;

pub use confirming::{confirm_cutover, confirm_retired};
pub use cutover_memory::{named_of_all, next_partition};
pub use dropping::drop_all;
pub use fault::ReshardFault;
pub use fitting::all_fit;
pub use follow::{Step, WorkflowShard};
pub use next_move::move_first;
pub use steps::{SourceShard, freeze, is_source_of, retire, serve, serves, thaw};
pub use stored::{entries_left, note_retired, note_stored};
pub use target::TargetShard;
pub use thawing::unfreeze_all;
