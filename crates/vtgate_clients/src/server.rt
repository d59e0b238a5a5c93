//! What the threads of a server are handed.

use crate::admission::Admission;
use crate::progress::ServeProgress;
use journal::Naming;
use session::{Engine, Gate};
use shard::World;
use std::alloc::Global;

/// What all threads of a server share: the handle, the engine, whom it lets in, and how far it is.
#[derive(Drop)]
pub struct Server<'s, W: World, J: Naming, G: Gate, R> {
    pub rt: &'s R,
    pub alloc: Global,
    pub engine: &'s Engine<W, J, G>,
    pub admission: &'s Admission<'s>,
    pub progress: &'s ServeProgress,
}
