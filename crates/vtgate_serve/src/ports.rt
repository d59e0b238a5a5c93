//! The two ports, and who serves them.
ghost use denote.Param.Send.{IsSync};
ghost use Rattle.std.specs.Prelude.{◌≡◌, [], None, IfOk, IfErr, OnOk};
ghost use Rattle.journal.specs.Views.{new_pass};
ghost use Rattle.std.specs.Io.KnownBytes.{Appends};
ghost use Rattle.shard_run.specs.opening.Empty.{sharded_keyspace};
ghost use Rattle.admin.specs.AdminAnswers.{keyspace_of};
ghost use Rattle.vtgate_clients.specs.setup.Statuses.{status_of};
ghost use Rattle.vtgate_serve.specs.Served.{listening_text};

use crate::admin_port::serve_admin;
use admin::{Administrator, Engine, Gate, widest_limits};
use journal::{Naming, Opener};
use log::Log;
use std::alloc::Global;
use std::net::TcpListener;
use std::sync::Wait;
use std::thread;
use std::thread::Threads;
use std::time::Clock;
use vtgate_clients::events::Start;
use vtgate_clients::setup::{FAILURE, RunFault, ServeArgs};
use vtgate_clients::{
    Acceptor, ServeConfig, ServeProgress, Server, ShardLaw, ShardPass, Sink, World, can_start,
    census, events, last_connection, serve_clients,
};

/// What is printed once clients can connect.
const LISTENING: &[u8] = b"listening\n";

// Prints that it listens.
fn tell_listening<O: Sink>(output: &mut O) -> Result<(), RunFault>
    ensures told { OnOk result (Appends (O.taken output.old) (O.taken output.new) listening_text) }
    ensures fault { IfErr result (λ f. status_of f ≡ FAILURE) }
{
    match output.write(LISTENING) {
        Ok(()) => Ok(()),
        Err(_) => Err(RunFault::Failed),
    }
}

// Serves the admin port until the last connection is served, and returns whether it was.
fn serve_operators<W: World + Send + Sync, J: Naming + Send + Sync, G: Gate, R: Wait + Clock + Log>(
    server: &Server<'_, W, J, G, R>,
    administrator: &mut Administrator<W, J>,
    pass: &mut ShardPass<W, J>,
    listener: &TcpListener,
) -> Result<(), RunFault>
    requires home { keyspace_of administrator.old ≡ sharded_keyspace server.now.engine.now }
    ensures fault { IfErr result (λ f. status_of f ≡ FAILURE) }
{
    serve_admin(server, administrator, pass, listener);
    if server.progress.is_served() {
        Ok(())
    } else {
        Err(RunFault::Failed)
    }
}

// Serves the connections, and with them the admin port.
fn serve_both<
    W: World + Send + Sync,
    J: Naming + Send + Sync,
    G: Gate,
    R: Threads + Wait + Sync + Clock + Log,
>(
    server: &Server<'_, W, J, G, R>,
    acceptor: Acceptor<'_, W, J>,
    administrator: &mut Administrator<W, J>,
    controller: &mut ShardPass<W, J>,
    operators: &TcpListener,
) -> Result<(), RunFault>
    requires home { keyspace_of administrator.old ≡ sharded_keyspace server.now.engine.now }
    ensures fault { IfErr result (λ f. status_of f ≡ FAILURE) }
{
    let rt = server.rt;
    let alloc = server.alloc;
    let engine = server.engine;
    let admission = server.admission;
    let progress = server.progress;
    thread::scope(
        thread::scope_env(),
        rt,
        move |scope| -> Result<(), RunFault>
            requires { IsSync R.row × IsSync G.row × (keyspace_of administrator.now ≡ sharded_keyspace server.now.engine.now) }
            ensures { IfErr result (λ f. status_of f ≡ FAILURE) }
        {
            if scope
                .spawn(
                    move ||
                        requires { IsSync R.row × IsSync G.row }
                    { serve_clients(rt, alloc, engine, admission, progress, acceptor) },
                )
                .is_err()
            {
                return Err(RunFault::Failed);
            }
            if census::is_logged(rt) {
                let _ = scope.spawn(
                    move ||
                        requires { IsSync R.row × IsSync G.row }
                    { census::watch(rt, engine, progress) },
                );
            }
            serve_operators(server, administrator, controller, operators)
        },
    )
}

// How many threads it starts for so many workers: one that accepts clients, and one that watches the shards if that is logged.
fn threads_beside<R: Log>(rt: &R, workers: u32) -> u32 {
    let watching = u32::from(census::is_logged(rt));
    workers.saturating_add(1).saturating_add(watching)
}

// Logs that clients can connect, and to what.
fn tell_started<W: World + Send + Sync, J: Naming + Send + Sync, G: Gate, R: Log>(
    rt: &R,
    asked: &ServeArgs<'_>,
    engine: &Engine<W, J, G>,
) {
    let limits = widest_limits();
    let start = Start {
        asked,
        tables: engine.schema().tables.len() as u64,
        rows: limits.rows,
        entries: limits.stored,
    };
    events::started(rt, start);
    if asked.buffer >= asked.workers {
        events::workers_may_wait(rt, asked.workers, asked.buffer);
    }
}

// Tells that clients can connect, if all threads can be started.
fn begin_serving<
    W: World + Send + Sync,
    J: Naming + Send + Sync,
    G: Gate,
    R: Threads + Wait + Sync + Clock + Log,
    O: Sink,
>(rt: &R, asked: &ServeArgs<'_>, engine: &Engine<W, J, G>, output: &mut O) -> Result<(), RunFault>
    ensures told { OnOk result (Appends (O.taken output.old) (O.taken output.new) listening_text) }
    ensures fault { IfErr result (λ f. status_of f ≡ FAILURE) }
{
    if !can_start(rt, threads_beside(rt, asked.workers)) {
        return Err(RunFault::Failed);
    }
    tell_listening(output)?;
    tell_started(rt, asked, engine);
    Ok(())
}

/// What a router begins with beside its engine: the administrator of its sharded keyspace, the opener of its sessions, and a first pass.
#[derive(Drop)]
pub struct Beginning<W: World, J: Naming> {
    pub administrator: Administrator<W, J>,
    pub opener: Opener<ShardLaw<W>, J>,
    pub pass: ShardPass<W, J>,
}

/// Serves the connections that clients open, in threads of their own, and with them the admin port, until the last connection is served. The
/// administrator is that of the engine's sharded keyspace. No session was opened before, and nobody has committed.
pub fn serve_router<
    W: World + Send + Sync,
    J: Naming + Send + Sync,
    G: Gate,
    R: Threads + Wait + Sync + Clock + Log,
    O: Sink,
>(
    rt: &R,
    alloc: Global,
    engine: &Engine<W, J, G>,
    beginning: Beginning<W, J>,
    config: &ServeConfig<'_>,
    output: &mut O,
) -> Result<(), RunFault>
    requires home { keyspace_of beginning.administrator ≡ sharded_keyspace engine.now }
    requires unopened { beginning.opener ≡ 0 }
    requires unseen { beginning.pass ≡ new_pass [] None }
    ensures told { OnOk result (Appends (O.taken output.old) (O.taken output.new) listening_text) }
    ensures fault { IfErr result (λ f. status_of f ≡ FAILURE) }
{
    let asked = config.admission.asked();
    let Beginning {
        mut administrator,
        opener,
        mut pass,
    } = beginning;
    let Ok(listening) = pass.split() else {
        return Err(RunFault::Failed);
    };
    begin_serving(rt, asked, engine, output)?;
    let progress = ServeProgress::new();
    let last = last_connection(asked);
    let acceptor = Acceptor::new(
        config.ports.clients.listener(),
        &progress,
        opener,
        listening,
        last,
    );
    let server = Server {
        rt,
        alloc,
        engine,
        admission: &config.admission,
        progress: &progress,
    };
    serve_both(
        &server,
        acceptor,
        &mut administrator,
        &mut pass,
        config.ports.admin.listener(),
    )
}
