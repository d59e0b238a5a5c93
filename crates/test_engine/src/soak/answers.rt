//! The answer of a case.
use crate::soak::watch::Watch;
use crate::soak::world::{Plan, play};
use crate::soak_model::{SoakFault, Tally, count};
use std::alloc::Global;
use std::sync::Wait;
use std::sync::atomic::AtomicU64;
use std::thread::Threads;
use std::time::{Clock, Instant};
use test_fields::{CaseAnswer, Unanswered, number};
use vt_value::Refusal;

/// What is asked for: for so many seconds, worlds by numbers from the seed on, and whether what was done is printed.
#[derive(Clone, Copy)]
struct SoakArgs {
    seconds: u64,
    seed: u64,
    counts: bool,
}

// Seconds, a seed, and maybe `counts`, with blanks between them.
fn read(case: &str) -> Result<SoakArgs, Unanswered> {
    let (seconds, rest) = case.split_once(' ').ok_or(Unanswered::BadLine)?;
    let (seed, word) = rest.split_once(' ').unwrap_or((rest, ""));
    Ok(SoakArgs {
        seconds: number(seconds)?,
        seed: number(seed)?,
        counts: word == "counts",
    })
}

// Worlds until the seconds are over. Every other one cuts over step by step.
fn play_all<R: Threads + Wait + Clock + Sync>(
    rt: &R,
    alloc: Global,
    asked: SoakArgs,
    begun: Instant,
    tally: &mut Tally,
) -> Result<(), SoakFault> {
    for number in 0..u64::MAX {
        let stopped = AtomicU64::new(0);
        let watch = Watch {
            begun,
            seconds: asked.seconds,
            stopped: &stopped,
        };
        let plan = Plan {
            seed: asked.seed.wrapping_add(number),
            by_step: number % 2 == 0,
            watch,
        };
        count(&mut tally.worlds);
        play(rt, alloc, plan, tally)?;
        if watch.is_past(rt) {
            break;
        }
    }
    Ok(())
}

// Puts how a soak has ended.
fn put_end(
    told: &mut CaseAnswer,
    ended: Result<(), SoakFault>,
    tally: &Tally,
) -> Result<(), Unanswered> {
    match ended {
        Err(SoakFault::Memory) => return Err(Unanswered::Refused(Refusal::OutOfMemory)),
        Err(fault) => {
            told.put("differs: ");
            told.show(&fault);
        }
        Ok(()) if tally.cutovers == 0 => told.put("no cutover"),
        Ok(()) => told.put("nothing lost or doubled"),
    }
    Ok(())
}

/// Soaks for as long as asked, and returns whether what the sessions were answered, and the rows at the end, are those of the accepted commands.
pub fn answer<R: Threads + Wait + Clock + Sync>(
    rt: &R,
    alloc: Global,
    case: &str,
    told: &mut CaseAnswer,
) -> Result<(), Unanswered> {
    let asked = read(case)?;
    let Ok(begun) = Instant::now(rt) else {
        return Err(Unanswered::BadLine);
    };
    let mut tally = Tally::new();
    let ended = play_all(rt, alloc, asked, begun, &mut tally);
    put_end(told, ended, &tally)?;
    if asked.counts {
        told.put("; ");
        told.show(&tally);
    }
    Ok(())
}
