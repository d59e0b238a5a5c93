//! What is logged of each statement: its plan, and how it was answered.

use crate::client::Traffic;
use crate::events;
use crate::events::Statement;
use journal::Naming;
use keyrange::KeyRange;
use log::Log;
use serving::Serving;
use session::{Engine, Gate};
use shard::{Shard, World};
use shard_run::opening::sharded_keyspace;
use std::alloc::{AllocError, Global};
use std::str;
use std::time::Clock;
use vtgate_lines::plan_line;

/// The partitions of the sharded keyspace, if there is one.
pub fn sharded_partitions<W: World + Send + Sync, J: Naming + Send + Sync, G: Gate>(
    engine: &Engine<W, J, G>,
) -> Option<&Serving<Shard<W, J>>> {
    match sharded_keyspace(engine.schema()) {
        Some(place) => engine.partitions(place),
        None => None,
    }
}

// The ranges of the sharded keyspace, if there is one.
fn ranges_of<W: World + Send + Sync, J: Naming + Send + Sync, G: Gate>(
    alloc: Global,
    engine: &Engine<W, J, G>,
) -> Result<Vec<KeyRange>, AllocError> {
    let mut ranges = Vec::new(alloc);
    if let Some(serving) = sharded_partitions(engine) {
        for part in serving.current().parts() {
            ranges.push(part.range())?;
        }
    }
    Ok(ranges)
}

/// Logs the statements of a connection that came whole and were answered since this was last called.
pub fn tell_statements<W: World + Send + Sync, J: Naming + Send + Sync, G: Gate, R: Clock + Log>(
    rt: &R,
    alloc: Global,
    engine: &Engine<W, J, G>,
    connection: u32,
    traffic: &mut Traffic,
) {
    let answered = traffic.outgoing.take_answered();
    let texts = traffic.incoming.take_texts();
    if texts.is_empty() {
        return;
    }
    let Ok(ranges) = ranges_of(alloc, engine) else {
        return;
    };
    let time = events::time_since(rt, traffic.start);
    for text in texts.as_slice() {
        // The plan over the partition that serves now; empty if the statement has none.
        let plan = match plan_line(alloc, engine.schema(), &ranges, text) {
            Ok(line) => line,
            Err(_) => Vec::new(alloc),
        };
        let executed = Statement {
            connection,
            together: texts.len() as u64,
            plan: str::from_utf8(&plan).unwrap_or(""),
            answered,
            time,
        };
        events::executed(rt, executed);
    }
}
