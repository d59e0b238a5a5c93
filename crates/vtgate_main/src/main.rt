//! The router's program.
#![tactic(auto)]

mod running;

use log::{LevelFilter, Logged, error};
use program_log::lines::{LineQueue, LineSink, NotStarted, environment_level, start_writing};
use running::run;
use std::alloc::{AllocError, Global};
use std::env::FillError;
use std::io;
use std::process::ExitCode;
use std::rt::Env;
use std::sync::{Arc, Wait};
use std::thread::Threads;
use std::time::Clock;
use vtgate_serve::setup::{FAILED, FAILURE, Hashing, Word};
use vtgate_serve::{Reader, Sink, Writer};

/// How many bytes a word is first given room for, and how often that is doubled.
const FIRST_ROOM: usize = 4096;

const DOUBLINGS: u32 = 32;

/// How many bytes are mapped and given back at the start: the most by which glibc changes how much it keeps is 32 MiB.
const MAPPED_AT_START: usize = 31 << 20;

// Has the C library keep up to 62 MiB of what is freed, in place of 128 KiB. Past its limit glibc gives freed memory back to the system, and a reply
// of many rows then takes each page anew, a seventh of its time. A large block that was mapped and freed raises the limit to twice its size.
// Nothing is written into the block, so it takes no memory. Another allocator does as it likes.
fn keep_freed_memory(alloc: Global) {
    drop(Vec::<u8>::with_capacity(alloc, MAPPED_AT_START));
}

// The word at a position of the command line, if there is one.
fn word<R: Env>(rt: &R, alloc: Global, ordinal: usize) -> Result<Option<Word>, AllocError> {
    let mut room = FIRST_ROOM;
    for _ in 0..DOUBLINGS {
        let mut bytes = vec![in alloc; 0u8; room]?;
        match rt.arg(ordinal, &mut bytes) {
            Ok(len) => {
                bytes.truncate(len);
                return Ok(Some(Word::new(bytes)));
            }
            Err(FillError::NotPresent) => return Ok(None),
            Err(FillError::TooLong) => room = room.saturating_mul(2),
        }
    }
    Err(AllocError)
}

fn words<R: Env>(rt: &R, alloc: Global) -> Result<Vec<Word>, AllocError> {
    let mut words = Vec::new(alloc);
    for ordinal in 1..usize::MAX {
        match word(rt, alloc, ordinal)? {
            Some(word) => words.push(word)?,
            None => break,
        }
    }
    Ok(words)
}

// Starts the log, unless nothing is to be logged.
fn open_log<
    R: Threads + Wait + Clock + Copy + Send + 'static,
    W: io::Write + Drop + Send + 'static,
>(
    rt: R,
    alloc: Global,
    level: LevelFilter,
    device: W,
) -> Result<Option<Arc<LineQueue>>, NotStarted> {
    if level == LevelFilter::Off {
        return Ok(None);
    }
    Ok(Some(start_writing(rt, alloc, device)?))
}

fn main(rt: HostRuntime) -> ExitCode {
    keep_freed_memory(rt.alloc());
    let mut errors = Writer::new(rt.stderr());
    let Ok(words) = words(&rt, rt.alloc()) else {
        let _ = errors.write(FAILED);
        return ExitCode::from(FAILURE);
    };
    let Ok(hashing) = Hashing::random(&rt) else {
        let _ = errors.write(FAILED);
        return ExitCode::from(FAILURE);
    };
    let asked = environment_level(&rt);
    let level = asked.unwrap_or(LevelFilter::Error);
    let Ok(queue) = open_log(rt, rt.alloc(), level, rt.stderr()) else {
        let _ = errors.write(FAILED);
        return ExitCode::from(FAILURE);
    };
    let sink = queue
        .as_ref()
        .map(|queue| LineSink::new(rt, rt.alloc(), queue));
    let logged = Logged::new(rt, level, sink);
    if asked.is_none() {
        error!(logged; taken = "error"; "unknown_level");
    }
    let mut input = Reader::new(rt.stdin());
    let mut output = Writer::new(rt.stdout());
    let status = run(
        &logged,
        rt.alloc(),
        &hashing,
        &words,
        &mut input,
        &mut output,
        &mut errors,
    );
    if let Some(queue) = &queue {
        queue.close();
        queue.wait_for_end(&rt);
    }
    ExitCode::from(status)
}
