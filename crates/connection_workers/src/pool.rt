//! One thread that lets connections in, and threads that take turns at their conversations.
ghost use denote.Param.Send.{IsSync};
ghost use Rattle.std.specs.Prelude.{◌≡◌, ◌+◌, ◌<◌, ℕ, List, [], ◌∷◌, ◌++◌, true, replicate, IfSome, IfNone, IfOk};
ghost use Rattle.crossbeam_queue.specs.Passes.{view, IsPassOf, ruled_capacity};
ghost use Rattle.connection_workers.specs.Order.{first_view};
ghost use Rattle.connection_workers.specs.Letting.{GaveAll};
ghost use Rattle.connection_workers.specs.inner.Letting.{HasLetIn, HasBegunConnections};

use crate::places::Places;
use crate::queue::{Known, new_taker, open};
use crate::turn_pool::TurnPool;
use crate::turns::{Connected, Sockets, Turned};
use std::alloc::Global;
use std::sync::Wait;
use std::thread;
use std::thread::Threads;
use std::time::{Clock, Instant};

/// Where connections come from.
pub trait ConnectionSource<T, R> {
    // It gives this connection, and is then so.
    ghost gives: { Self → T → Self → Type 0 };

    // It has no more, and is then so.
    ghost ends: { Self → Self → Type 0 };

    /// Waits for the next connection. `None` says that there are no more.
    fn next(&mut self, rt: &R) -> Option<T>
        ensures given { IfSome result (λ x. gives self.old x self.new) }
        ensures ended { IfNone result (ends self.old self.new) };
}

/// Why no connection is served.
#[derive(Clone, Copy, Debug, PartialEq, Eq)]
pub enum NotRun {
    /// There is no memory for the queue and the places.
    OutOfMemory,
    /// A worker's thread could not be started, or none was asked for.
    NoThread,
}

/// What is put into the queue.
#[derive(Drop)]
pub(crate) enum Job<T> {
    /// A worker begins the conversation of this connection.
    Serve(T),
    /// A worker that takes this ends.
    Stop,
}

/// How many connections wait for a worker, for how many descriptors there are places, and how many workers there are.
#[derive(Clone, Copy, Debug)]
pub struct Sizes {
    pub queue: usize,
    pub places: u32,
    pub workers: u32,
}

// Whoever takes a connection begins its conversation: a `T` can't be let go here.
fn serve_turns<
    T,
    C: Connected,
    S: Sockets<R>,
    R: Wait + Clock,
    B: Fn(T) -> C,
    F: Fn(C, u64) -> (C, Turned),
>(
    rt: &R,
    pool: &TurnPool<'_, T, C, S>,
    begin: &B,
    turn: &F,
    mut pass: Known<Job<T>>,
) -> Known<Job<T>>
    requires begins { B.IsAlwaysCallable begin.now }
    requires callable { F.IsAlwaysCallable turn.now }
    requires of { IsPassOf pool.now.queue pass }
    requires takes { (view pass).takes ≡ true }
    ensures begun { HasBegunConnections (view pass).own (view result).own (λ x. (conversation : C) × B.post begin.now x conversation) }
{
    for _ in rt.forever() {
        match pool.next_job(rt, turn, &mut pass) {
            Job::Serve(connection) => pool.admit(rt, begin, turn, connection),
            Job::Stop => return pass,
        }
    }
    unreachable!()
}

// Has so many workers end.
fn stop_all<T, C: Connected, S: Sockets<R>, R: Wait>(
    rt: &R,
    pool: &TurnPool<'_, T, C, S>,
    workers: u32,
    pass: &mut Known<Job<T>>,
)
    requires of { IsPassOf pool.now.queue pass.old }
    requires puts { (view pass.old).puts ≡ true }
    ensures of { IsPassOf pool.now.queue pass.new }
    ensures puts { (view pass.new).puts ≡ true }
    ensures stops { (view pass.new).put ≡ (view pass.old).put ++ replicate workers Job.Stop }
{
    for _ in 0..workers {
        pool.put(rt, pass, Job::Stop);
    }
}

// Each connection that comes is put into the queue: a `T` can't be let go here. Once the last one is over a stop is put for each worker.
fn let_all_in<T, C: Connected, S: Sockets<R>, R: Wait, E: ConnectionSource<T, R>>(
    rt: &R,
    pool: &TurnPool<'_, T, C, S>,
    workers: u32,
    entrance: E,
    pass: &mut Known<Job<T>>,
) -> E
    requires of { IsPassOf pool.now.queue pass.old }
    requires puts { (view pass.old).puts ≡ true }
    requires workers { (view pass.old).passes ≡ workers + 1 }
    ensures let_in { HasLetIn E.gives E.ends workers entrance result (view pass.old).put (view pass.new).put }
{
    let mut entrance = entrance;
    for _ in rt.forever() {
        let Some(connection) = entrance.next(rt) else {
            pool.wait_for_all(rt);
            stop_all(rt, pool, workers, pass);
            return entrance;
        };
        pool.come();
        pool.put(rt, pass, Job::Serve(connection));
    }
    unreachable!()
}

// An empty pool of these sizes, and the pass of the thread that puts.
fn new_turn_pool<'s, T: Drop, C: Connected + Drop, S, R: Clock>(
    rt: &R,
    alloc: Global,
    sizes: Sizes,
    sockets: &'s S,
) -> Result<(TurnPool<'s, T, C, S>, Known<Job<T>>), NotRun>
    requires room { 0 < sizes.queue }
    ensures capacity { IfOk result (λ x. ruled_capacity x.0.queue ≡ sizes.queue) }
    ensures of { IfOk result (λ x. IsPassOf x.0.queue x.1) }
    ensures first { IfOk result (λ x. view x.1 ≡ first_view) }
{
    let Ok(places) = Places::new(alloc, sizes.places) else {
        return Err(NotRun::OutOfMemory);
    };
    match open::<Job<T>>(alloc, sizes.queue) {
        Ok((queue, pass)) => {
            let pool = TurnPool::new(queue, places, sockets, Instant::now(rt).ok());
            Ok((pool, pass))
        }
        Err(_) => Err(NotRun::OutOfMemory),
    }
}

fn run_turns_in<
    T: Drop + Send,
    C: Connected + Send + Drop,
    S: Sockets<R> + Sync,
    R: Threads + Wait + Sync + Clock,
    B: Fn(T) -> C + Sync,
    F: Fn(C, u64) -> (C, Turned) + Sync,
    E: ConnectionSource<T, R> + Drop,
>(
    rt: &R,
    pool: &TurnPool<'_, T, C, S>,
    workers: u32,
    begin: &B,
    turn: &F,
    entrance: E,
    mut pass: Known<Job<T>>,
) -> Result<E, NotRun>
    requires begins { B.IsAlwaysCallable begin.now }
    requires callable { F.IsAlwaysCallable turn.now }
    requires of { IsPassOf pool.now.queue pass }
    requires first { view pass ≡ first_view }
    ensures gave { IfOk result (λ e. (given : List T) × GaveAll E.gives E.ends entrance e given) }
{
    thread::scope(
        thread::scope_env(),
        rt,
        move |scope| -> Result<E, NotRun>
            requires { IsSync R.row × B.IsAlwaysCallable begin.now × F.IsAlwaysCallable turn.now × IsPassOf pool.now.queue pass × (view pass ≡ first_view) }
            ensures { IfOk result (λ e. (given : List T) × GaveAll E.gives E.ends entrance e given) }
        {
            for started in 0..workers {
                let known = new_taker(&pool.queue, &mut pass);
                let worker = scope.spawn(
                    move ||
                        requires { IsSync R.row × B.IsAlwaysCallable begin.now × F.IsAlwaysCallable turn.now × IsPassOf pool.now.queue known × ((view known).takes ≡ true) }
                    {
                        let _ = serve_turns(rt, pool, begin, turn, known);
                    },
                );
                if worker.is_err() {
                    stop_all(rt, pool, started, &mut pass);
                    return Err(NotRun::NoThread);
                }
            }
            if workers == 0 {
                return Err(NotRun::NoThread);
            }
            Ok(let_all_in(rt, pool, workers, entrance, &mut pass))
        },
    )
}

// Promise: Workers that take turns are run until the source has no more connections: each that it yields is put into the queue, once and in
// order, and after them a stop for each worker; a worker begins the conversation of each connection that it takes, and ends only if it
// takes a stop; a turn is taken at no conversation but that of the socket that was told
/// Starts so many workers, then lets in the connections of the source, in order. Each waits in the queue for a worker that is free; if it is
/// full, the next one is let in once a worker took one. The worker has `begin` make the connection's conversation, and puts it into the
/// place of its socket. There any worker takes turns at it which is told that the socket is ready: `turn` does what can be done
/// now, without waiting for long. Times are in milliseconds since the call. Returns once the source has no more and all conversations are over. Refuses, and serves
/// none, if there is no memory for the queue and the places, and if not all workers could be started.
pub fn run_turns<
    T: Send + Drop,
    C: Connected + Send + Drop,
    S: Sockets<R> + Sync,
    R: Threads + Wait + Sync + Clock,
    B: Fn(T) -> C + Sync,
    F: Fn(C, u64) -> (C, Turned) + Sync,
    E: ConnectionSource<T, R> + Drop,
>(
    rt: &R,
    alloc: Global,
    sizes: Sizes,
    sockets: &S,
    begin: &B,
    turn: &F,
    entrance: E,
) -> Result<E, NotRun>
    requires room { 0 < sizes.queue }
    requires begins { B.IsAlwaysCallable begin.now }
    requires callable { F.IsAlwaysCallable turn.now }
    ensures gave { IfOk result (λ e. (given : List T) × GaveAll E.gives E.ends entrance e given) }
{
    match new_turn_pool::<T, C, S, R>(rt, alloc, sizes, sockets) {
        Ok((pool, pass)) => run_turns_in(rt, &pool, sizes.workers, begin, turn, entrance, pass),
        Err(why) => Err(why),
    }
}
