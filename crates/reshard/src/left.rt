//! What is left before the targets of a workflow are level with their sources, for which writes wait once these are frozen; and before nobody reads
//! the sources.
ghost use Rattle.std.specs.Prelude.{◌≡◌};

use crate::workflow::Workflow;
use journal::Naming;
use reshard_create::{ShardState, TargetShard, World, entries_left};
use shard_run::{Mode, VSchema};
use std::sync::Wait;

/// How many targets have rows left to copy, and how many entries are left to follow of sources that rows were copied from.
#[derive(Clone, Copy, Debug, PartialEq, Eq)]
pub struct WorkLeft {
    pub copying: u64,
    pub entries: u64,
}

// Whether a target has rows left to copy from the source on the slot.
fn copies_from<W: World, J: Naming>(state: &ShardState<W, J>, schema: &VSchema, slot: usize) -> bool
    requires schema { schema.now ≡ W.opening.schema }
{
    match state.mode() {
        Mode::Following => state.next_table(schema, slot).is_some(),
        _ => false,
    }
}

// Whether a target has rows left to copy from one of its sources.
fn is_copying<W: World, J: Naming>(
    rt: &impl Wait,
    schema: &VSchema,
    target: &TargetShard<W, J>,
) -> bool
    requires schema { schema.now ≡ W.opening.schema }
{
    let state = target.member.shard.lock(rt);
    for source in target.sources.as_slice() {
        if copies_from(&state, schema, source.which.slot) {
            return true;
        }
    }
    false
}

impl<W: World, J: Naming> Workflow<W, J> {
    /// What is left to do before its targets are level. Each lock is held by itself, and nothing is looked at by a pass, so it is for who wants to
    /// know how long writes may wait, and no more. Takes no memory.
    pub fn work_left(&self, rt: &impl Wait, schema: &VSchema) -> WorkLeft
        requires schema { schema.now ≡ W.opening.schema }
    {
        let mut left = WorkLeft {
            copying: 0,
            entries: 0,
        };
        for target in self.targets.as_slice() {
            if is_copying(rt, schema, target) {
                left.copying = left.copying.saturating_add(1);
            }
            left.entries = left.entries.saturating_add(entries_left(rt, target));
        }
        left
    }

    /// Whether reads of its sources are under way, which began while these served. Each lock is held by itself, and nothing is looked at by a pass, so
    /// it is for who wants to wait a little before the sources give their rows up. Takes no memory.
    pub fn is_read(&self, rt: &impl Wait) -> bool {
        for source in self.sources.as_slice() {
            if source.member.shard.lock(rt).is_read() {
                return true;
            }
        }
        false
    }
}
