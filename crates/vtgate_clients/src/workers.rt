//! The workers that serve clients, and whether all threads of a server can be started.
ghost use denote.Param.Send.{IsSync};

use crate::acceptor::Acceptor;
use crate::admission::Admission;
use crate::arrivals::descriptors;
use crate::connection::Connection;
use crate::events;
use crate::progress::ServeProgress;
use crate::server::Server;
use crate::turns::Talk;
use crate::welcome::welcome;
use connection_workers::{NotRun, Readiness, Sizes, run_turns};
use journal::Naming;
use log::Log;
use session::{Engine, Gate};
use shard::World;
use std::alloc::Global;
use std::sync::Wait;
use std::sync::atomic::{AtomicU64, Ordering};
use std::thread;
use std::thread::Threads;
use std::time::{Clock, Duration};

/// How many connections wait for a worker.
pub(crate) const QUEUED: usize = 64;

// Serves the connections that the acceptor accepts, until the last one is over.
fn run_workers<
    's,
    W: World + Send + Sync,
    J: Naming + Send + Sync,
    G: Gate,
    R: Threads + Wait + Sync + Clock + Log,
>(
    server: &'s Server<'s, W, J, G, R>,
    acceptor: Acceptor<'s, W, J>,
) -> Result<Acceptor<'s, W, J>, NotRun> {
    let Ok(sockets) = Readiness::new() else {
        return Err(NotRun::NoThread);
    };
    let asked = server.admission.asked;
    let sizes = Sizes {
        queue: QUEUED,
        places: descriptors(),
        workers: asked.workers,
    };
    run_turns(
        server.rt,
        server.alloc,
        sizes,
        &sockets,
        &move |connection: Connection<W, J>| welcome(server, connection),
        &move |talk: Talk<'_, W, J, R>, now: u64| talk.turned(server, now),
        acceptor,
    )
}

/// Serves the connections that the acceptor accepts, and logs how that ended.
pub fn serve_clients<
    W: World + Send + Sync,
    J: Naming + Send + Sync,
    G: Gate,
    R: Threads + Wait + Sync + Clock + Log,
>(
    rt: &R,
    alloc: Global,
    engine: &Engine<W, J, G>,
    admission: &Admission<'_>,
    progress: &ServeProgress,
    acceptor: Acceptor<'_, W, J>,
) {
    let server = Server {
        rt,
        alloc,
        engine,
        admission,
        progress,
    };
    let served = run_workers(&server, acceptor);
    match &served {
        Ok(acceptor) => events::ended_all(rt, acceptor.accepted()),
        Err(why) => events::not_run(rt, why),
    }
    progress.end(served.is_ok());
}

// Waits until all threads of a trial have begun, or one could not.
fn wait_for_others<R: Wait + Clock>(rt: &R, begun: &AtomicU64) {
    for _ in rt.forever() {
        if begun.load(Ordering::SeqCst) != 0 {
            return;
        }
        let _ = thread::sleep(rt, Duration::from_millis(1));
    }
}

/// Whether so many threads can be started at once: they are, and then end.
pub fn can_start<R: Threads + Wait + Sync + Clock>(rt: &R, threads: u32) -> bool {
    let begun = AtomicU64::new(0);
    let begun = &begun;
    thread::scope(
        thread::scope_env(),
        rt,
        move |scope| -> bool
            requires { IsSync R.row }
        {
            let mut all = true;
            for _ in 0..threads {
                all &= scope
                    .spawn(
                        move ||
                            requires { IsSync R.row }
                        { wait_for_others(rt, begun) },
                    )
                    .is_ok();
            }
            begun.store(1, Ordering::SeqCst);
            all
        },
    )
}
