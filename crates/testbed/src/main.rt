//! Cases, conversations, scenes of threads and soaks, each a line: its area, a tab, and its fields with tabs between them. Line N of
//! the output answers line N of the input, so the first line at which they differ is that of a case that fails.
//!
//! A case costs nothing to add: `tests/cases` has a file for each area, from which `scripts/cases --write` makes `stdin` and `stdout`. What it
//! must give comes from outside: a standard's table, another implementation, or a definition worked by hand, and never from this program.
//! `scripts/cases` prints each case that fails.
//!
//! | Area | Fields | Answer |
//! |---|---|---|
//! | those of `test_low::cases` | | |
//! | those of `test_connections` | | |
//! | `pulled`, `threads`, `workers`, `log`, `limits`, `scene` | the name of a scene of `test_low::cases`, `test_low::threads`, `test_workers`, `test_low::logging`, `test_engine::shard_limits` or `test_engine::router` | `ok`, where it went as it is to go |
//! | `soak` | seconds, a seed, and maybe `counts`, with blanks between them | `nothing lost or doubled`, and what was done where that is asked for |
//!
//! A line that is no case answers `unknown`, and one whose call is refused `refused`.
#![tactic(auto)]

use std::alloc::Global;
use std::io;
use std::net::{Net, TcpListener, TcpStream};
use std::sync::Wait;
use std::thread::Threads;
use std::time::Clock;
use test_fields::{CaseAnswer, Unanswered, print_answer};

// Puts the answer of a case of this area.
fn answer<R: Threads + Wait + Sync + Clock + Net<Listener = TcpListener, Stream = TcpStream>>(
    rt: &R,
    alloc: Global,
    area: &str,
    case: &str,
    told: &mut CaseAnswer,
) -> Result<(), Unanswered> {
    match area {
        "pulled" => test_low::cases::answer_pulled(alloc, case, told),
        "threads" => test_low::threads::answer(rt, alloc, case, told),
        "workers" => test_workers::answer(rt, alloc, case, told),
        "log" => test_low::logging::answer(rt, alloc, case, told),
        "limits" => test_engine::shard_limits::answer(rt, alloc, case, told),
        "scene" => test_engine::router::answer(rt, alloc, case, told),
        "soak" => test_engine::soak::answer(rt, alloc, case, told),
        "talk" | "served" | "run" | "failing_run" | "loopback" => {
            test_connections::answer(rt, alloc, area, case, told)
        }
        _ => test_low::cases::answer(alloc, area, case, told),
    }
}

// Prints the answer of a line.
fn answer_line<
    R: Print + Threads + Wait + Sync + Clock + Net<Listener = TcpListener, Stream = TcpStream>,
>(rt: &R, alloc: Global, line: &str) -> io::Result<()> {
    let (area, case) = line.split_once('\t').unwrap_or((line, ""));
    let mut told = CaseAnswer::new(alloc);
    let answered = answer(rt, alloc, area, case, &mut told);
    print_answer(rt, answered, &told)
}

fn main(rt: HostRuntime) -> io::Result<()> {
    for line in rt.lines(rt.alloc()) {
        answer_line(&rt, rt.alloc(), line?.as_str())?;
    }
    Ok(())
}
