//! What a workflow is made again of whose controller stopped.

mod cutover_progress;
mod found_shards;
mod named_targets;
mod rebuild;
mod remaining_parts;
mod reopen;

pub use cutover_progress::CutoverProgress;
pub use rebuild::RebuiltWorkflow;
pub use remaining_parts::stands_on;
pub use reopen::{CutoverMemory, ReopenedWorkflow, reopen_workflow};
