//! Where records go.
ghost use Rattle.std.specs.Prelude.{ℕ, Some, true, []};

use crate::lines::line::line_of;
use crate::lines::queue::LineQueue;
use crate::lines::time::instant;
use log::kv::Source;
use log::span::Spans;
use log::{Log, Metadata, Record};
use std::alloc::Global;
use std::fmt::Display;
use std::sync::Wait;
use std::time::Clock;

/// Puts the line of each record into a queue. A line for which there is no memory is lost, and counted, as one for which there is no room.
#[derive(Clone, Copy, Drop)]
pub struct LineSink<'q, R> {
    rt: R,
    alloc: Global,
    queue: &'q LineQueue,
}

impl<'q, R> LineSink<'q, R> {
    pub fn new(rt: R, alloc: Global, queue: &'q LineQueue) -> LineSink<'q, R> {
        LineSink { rt, alloc, queue }
    }
}

impl<'q, R: Wait + Clock> Log for LineSink<'q, R> {
    ghost enables = { λ _ _ _. Some true };

    ghost target_of = { λ _. Some [] };

    fn enabled(&self, _metadata: &Metadata<'_>) -> bool {
        true
    }

    fn log<D: Display, K: Source, S: Spans>(&self, record: &Record<'_, D, K, S>) {
        match line_of(self.alloc, instant(&self.rt), record) {
            Ok(line) => self.queue.put(&self.rt, line),
            Err(_) => self.queue.lose(1),
        }
    }

    fn flush(&self) {}

    fn target(&self) -> &str {
        ""
    }
}
