use follow::{WorkflowShard, World};
use journal::Naming;

/// A target, and those of the workflow's sources that overlap it.
#[derive(Drop)]
pub struct TargetShard<W: World, J: Naming> {
    pub member: WorkflowShard<W, J>,
    pub sources: Vec<WorkflowShard<W, J>>,
}
