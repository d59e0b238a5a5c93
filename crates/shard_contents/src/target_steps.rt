//! The steps that a target has taken with its sources. Only those are kept that no later one supersedes.
ghost use Rattle.std.specs.Prelude.{◌≡◌, ◌<◌, vec_len, vec_capacity};
ghost use Rattle.shard_contents.specs.inner.Progress.{source_of};
ghost use Rattle.shard_contents.specs.Kept.{is_copy_from, supersedes, keep};

use vt_value::Row;

/// A step by which a target came forward with a source, by its slot.
#[derive(Drop)]
pub enum TargetStep {
    /// It took over what the source's stored entry at this position changes.
    Followed {
        source: usize,
        log_position: u64,
    },
    /// It copied rows of a table as they were after so many stored entries, all that were left if it was the last such step, and the
    /// last of these rows.
    Copied {
        source: usize,
        table: usize,
        log_position: u64,
        last: bool,
        row: Option<Row>,
    },
}

impl TargetStep {
    pub fn source(&self) -> usize
        ensures { result ≡ source_of self.now }
    {
        match self {
            TargetStep::Followed { source, .. } => *source,
            TargetStep::Copied { source, .. } => *source,
        }
    }

    /// Whether it copied rows from the source.
    pub fn is_copy_from(&self, source: usize) -> bool
        ensures { result ≡ is_copy_from source self.now }
    {
        match self {
            TargetStep::Followed { .. } => false,
            TargetStep::Copied { source: from, .. } => *from == source,
        }
    }

    // Whether it says all that an earlier step said.
    fn supersedes(&self, earlier: &TargetStep) -> bool
        ensures { result ≡ supersedes self.now earlier.now }
    {
        match earlier {
            TargetStep::Followed { source, .. } => self.source() == *source,
            TargetStep::Copied { source, .. } => self.is_copy_from(*source),
        }
    }
}

// Keeps one more step, and drops those that it supersedes, so that a walk over them costs the same however many steps and tables there were. Takes
// no memory.
pub fn keep(steps: &mut Vec<TargetStep>, step: TargetStep)
    requires { vec_len steps.old < vec_capacity steps.old }
    ensures { steps.new.items ≡ keep step steps.old.items }
{
    steps.retain(|earlier| !step.supersedes(earlier));
    steps.push_reserved(step);
}
