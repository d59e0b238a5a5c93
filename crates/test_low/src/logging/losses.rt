//! Lines that wait, and those that are lost.
use crate::logging::devices::Narrow;
use crate::logging::lines::{login, moment};
use log::{LevelFilter, Logged, debug, info};
use program_log::lines::{LineQueue, LineSink, LineWriter, LogLine, QUEUED_LINES, write_lines};
use std::alloc::Global;
use std::sync::Wait;
use std::time::Clock;
use vt_value::Refusal;

fn ends_with(line: &LogLine, end: &str) -> bool {
    line.as_bytes().ends_with(end.as_bytes())
}

/// Records that the level lets through come out of the queue in their order.
pub(crate) fn records_come_in_order<R: Wait + Clock>(
    rt: &R,
    alloc: Global,
) -> Result<bool, Refusal> {
    let queue = LineQueue::new(alloc)?;
    let logged = Logged::new(rt, LevelFilter::Info, LineSink::new(rt, alloc, &queue));
    info!(logged; n = 1u32; "first");
    debug!(logged; n = 2u32; "second");
    info!(logged; n = 3u32; "third");
    queue.close();
    let first = queue.next(rt);
    let second = queue.next(rt);
    let third = queue.next(rt);
    Ok(
        first.is_some_and(|line| ends_with(&line, " info first n=1\n"))
            && second.is_some_and(|line| ends_with(&line, " info third n=3\n"))
            && third.is_none(),
    )
}

/// One line more than may wait is lost, and counted.
pub(crate) fn full_queue_loses_a_line<R: Wait>(rt: &R, alloc: Global) -> Result<bool, Refusal> {
    let queue = LineQueue::new(alloc)?;
    for _ in 0..QUEUED_LINES {
        queue.put(rt, login(alloc, "app")?);
    }
    let none = queue.take_lost();
    queue.put(rt, login(alloc, "app")?);
    let one = queue.take_lost();
    Ok(none == 0 && one == 1 && queue.take_lost() == 0)
}

fn narrow(alloc: Global, limits: &[usize]) -> Result<Narrow, Refusal> {
    Ok(Narrow {
        taken: Vec::new(alloc),
        limits: Vec::from_slice(alloc, limits)?,
    })
}

/// A write that fails loses its line; the next one comes after a line that says how many were lost.
pub(crate) fn failed_write_is_reported(alloc: Global) -> Result<bool, Refusal> {
    let mut writer = LineWriter::new(narrow(alloc, &[0])?);
    let lost = writer.tell(alloc, moment(), &login(alloc, "one")?, 2);
    let told = writer.tell(alloc, moment(), &login(alloc, "two")?, lost);
    let wanted = "2026-11-27T22:46:05.120Z warn lost lines=3\n\
                  2026-11-27T22:46:05.120Z info login number=7 user=two\n";
    Ok(lost == 3 && told == 0 && writer.device.taken.as_slice() == wanted.as_bytes())
}

/// A part of a line is ended before the next line.
pub(crate) fn torn_line_is_ended(alloc: Global) -> Result<bool, Refusal> {
    let mut writer = LineWriter::new(narrow(alloc, &[4])?);
    let lost = writer.tell(alloc, moment(), &login(alloc, "one")?, 0);
    let told = writer.tell(alloc, moment(), &login(alloc, "two")?, 0);
    let wanted = "2026\n2026-11-27T22:46:05.120Z info login number=7 user=two\n";
    Ok(lost == 1 && told == 0 && writer.device.taken.as_slice() == wanted.as_bytes())
}

/// All lines of a closed queue are tried, and it says so.
pub(crate) fn closed_queue_is_written<R: Wait + Clock>(
    rt: &R,
    alloc: Global,
) -> Result<bool, Refusal> {
    let queue = LineQueue::new(alloc)?;
    queue.put(rt, login(alloc, "one")?);
    queue.put(rt, login(alloc, "two")?);
    queue.close();
    let mut written = Vec::new(alloc);
    write_lines(rt, alloc, &queue, &mut written);
    queue.wait_for_end(rt);
    Ok(
        written
            .as_slice()
            .iter()
            .filter(|byte| **byte == b'\n')
            .count()
            == 2,
    )
}
