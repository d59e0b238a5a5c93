//! What a status shows, at one moment.

use crate::totals::Totals;
use keyrange::KeyRange;

/// What a shard does.
#[derive(Clone, Copy, PartialEq, Eq)]
pub enum ShardMode {
    /// It copies, and doesn't serve yet.
    Following,
    Serving,
    /// It answers queries alone, during a cutover.
    Frozen,
    /// Others serve in its place.
    Retired,
}

/// A shard of a keyspace.
#[derive(Clone, Copy)]
pub struct ShardFigures<'f> {
    pub keyspace: &'f [u8],
    pub range: KeyRange,
    pub slot: u64,
    pub mode: ShardMode,
    pub rows: u64,
    /// How many entries it has stored: each write takes one.
    pub stored: u64,
    pub rows_limit: u64,
    pub stored_limit: u64,
}

/// How far the workflow is.
#[derive(Clone, Copy, PartialEq, Eq)]
pub enum WorkflowState {
    None,
    Following,
    Switching,
    Switched,
}

/// When each part of the last cutover came, in microseconds after the line that asked for it.
#[derive(Clone, Copy)]
pub struct CutoverFigures {
    pub froze: u64,
    pub retired: u64,
    pub published: u64,
    pub released: u64,
    /// The most statements that waited, and how long the first of them did.
    pub waited: u64,
    pub longest: u64,
}

/// The workflow.
#[derive(Clone, Copy)]
pub struct WorkflowFigures {
    pub state: WorkflowState,
    /// Steps that copied rows, and steps that followed the entries of a source, since it was created.
    pub copied: u64,
    pub followed: u64,
    /// Targets that have rows left to copy, and entries of sources that the targets haven't followed, as of the last admin line.
    pub copying: u64,
    pub behind: u64,
    pub cutovers: u64,
    pub cutover: Option<CutoverFigures>,
}

/// The connections that there are, those of them that wait for a worker, the threads that serve them, and how many statements wait for a cutover.
#[derive(Clone, Copy)]
pub struct ConnectionFigures {
    pub live: u64,
    pub queued: u64,
    pub workers: u64,
    pub waiting: u64,
    pub buffer: u64,
}

/// What a status shows.
#[derive(Drop)]
pub struct Figures<'f> {
    pub version: &'f str,
    /// Seconds since 1970 when it started.
    pub started: u64,
    pub shards: Vec<ShardFigures<'f>>,
    pub workflow: WorkflowFigures,
    pub connections: ConnectionFigures,
    pub totals: Totals,
    /// Lines of the log that were lost.
    pub lost: u64,
    /// The last lines of the log that tell of more than one connection or statement, the last one first.
    pub events: Vec<Vec<u8>>,
}
