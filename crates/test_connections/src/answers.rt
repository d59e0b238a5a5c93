//! The answer of a case.
use crate::{loopback, runs, talks};
use std::alloc::Global;
use std::net::{Net, TcpListener, TcpStream};
use std::sync::Wait;
use std::thread::Threads;
use std::time::Clock;
use test_fields::{CaseAnswer, Unanswered};

/// Puts the answer of a case of this area.
pub fn answer<R: Threads + Wait + Sync + Clock + Net<Listener = TcpListener, Stream = TcpStream>>(
    rt: &R,
    alloc: Global,
    area: &str,
    case: &str,
    told: &mut CaseAnswer,
) -> Result<(), Unanswered> {
    match area {
        "talk" => talks::whole_talk(rt, alloc, case, told),
        "served" => talks::service(rt, alloc, case, told),
        "run" => runs::whole(rt, alloc, case, told),
        "failing_run" => runs::failing(rt, alloc, case, told),
        "loopback" => sockets(rt, alloc, case, told),
        _ => Err(Unanswered::BadLine),
    }
}

fn sockets<R: Threads + Wait + Sync + Clock + Net<Listener = TcpListener, Stream = TcpStream>>(
    rt: &R,
    alloc: Global,
    case: &str,
    told: &mut CaseAnswer,
) -> Result<(), Unanswered> {
    let is_served = match case {
        "" => loopback::serves_beside_a_held_scatter(rt, alloc)?,
        "password" => loopback::asks_for_the_password(rt, alloc)?,
        _ => return Err(Unanswered::BadLine),
    };
    told.put(if is_served { "served" } else { "not served" });
    Ok(())
}
