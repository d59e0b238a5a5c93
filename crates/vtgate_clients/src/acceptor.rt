//! The connections that clients open.
ghost use Rattle.std.specs.Prelude.{◌≡◌, ◌≤◌, ◌<◌, ◌+◌, [], IfSome, IfNone};
ghost use Rattle.vtgate_clients.specs.Accepted.{Accepts, AcceptsNoMore};

use crate::arrivals::Arrivals;
use crate::connection::Connection;
use crate::events;
use crate::progress::ServeProgress;
use crate::workers::QUEUED;
use connection_workers::ConnectionSource;
use journal::{Naming, Opener};
use log::Log;
use shard::{LookingShardPass, ShardLaw, World};
use std::io::Write;
use std::net::{Shutdown, SocketAddr, TcpListener, TcpStream};
use std::sync::Wait;
use std::thread;
use std::time::{Clock, Duration, Instant};

/// How long it sleeps after a client could not be accepted, in milliseconds.
const AFTER_FAILURE: u64 = 20;

/// Accepts clients, numbers their connections from 1, and opens a session for each and no other.
#[derive(Drop)]
pub struct Acceptor<'l, W: World, J: Naming> {
    listener: &'l TcpListener,
    opener: Opener<ShardLaw<W>, J>,
    pass: LookingShardPass<W, J>,
    progress: &'l ServeProgress,
    accepted: u32,
    last: u32,
    full_since: Option<Instant>,
    refusing_since: Option<Instant>,
    // Promise: The server has opened at most as many sessions as it has accepted connections, from none on
    ghost opened: { opener ≤ accepted },
}

impl<'l, W: World, J: Naming> Acceptor<'l, W, J> {
    /// None is accepted yet, and `last` will be. No session was opened, and nobody has committed.
    pub fn new(
        listener: &'l TcpListener,
        progress: &'l ServeProgress,
        opener: Opener<ShardLaw<W>, J>,
        pass: LookingShardPass<W, J>,
        last: u32,
    ) -> Acceptor<'l, W, J>
        requires unopened { opener ≡ 0 }
        requires unseen { pass.seen ≡ [] }
        ensures none { result.accepted ≡ 0 }
        ensures last { result.last ≡ last }
    {
        Acceptor {
            listener,
            opener,
            pass,
            progress,
            accepted: 0,
            last,
            full_since: None,
            refusing_since: None,
        }
    }

    /// How many connections were accepted.
    pub fn accepted(&self) -> u32 {
        self.accepted
    }

    // The next connection, unless there are too many or it can have no session: then it is closed.
    fn admit<R: Clock + Log>(
        &mut self,
        rt: &R,
        stream: TcpStream,
        peer: SocketAddr,
    ) -> Option<Connection<W, J>>
        requires room { self.old.accepted < 4294967295 }
        requires few { self.old.accepted < self.old.last }
        ensures later { self.old.accepted ≤ self.new.accepted }
        ensures few { self.new.accepted ≤ self.new.last }
        ensures last { self.new.last ≡ self.old.last }
        ensures number { IfSome result (λ c. (c.number ≡ self.new.accepted) × (self.new.accepted ≡ self.old.accepted + 1)) }
    {
        let arrivals = &self.progress.arrivals;
        if !arrivals.may_come(peer.ip().is_loopback()) {
            refuse(&stream);
            tell_too_many(rt, arrivals, &mut self.refusing_since);
            return None;
        }
        tell_room(rt, &mut self.refusing_since);
        tell_free(rt, arrivals, &mut self.full_since);
        let connection = self.connection(stream, peer)?;
        arrivals.come();
        tell_full(rt, arrivals, &mut self.full_since);
        Some(connection)
    }

    // The next connection, unless it can have no session: then it is closed.
    fn connection(&mut self, stream: TcpStream, peer: SocketAddr) -> Option<Connection<W, J>>
        requires room { self.old.accepted < 4294967295 }
        ensures one_more { self.new.accepted ≡ self.old.accepted + 1 }
        ensures last { self.new.last ≡ self.old.last }
        ensures number { IfSome result (λ c. c.number ≡ self.new.accepted) }
    {
        self.accepted = self.accepted.saturating_add(1);
        let pass = self.opener.open_after(&mut self.pass).ok()?;
        Some(Connection::new(self.accepted, stream, peer, pass))
    }
}

/// What a client gets in place of a greeting if there are too many connections: a packet with the number 0, whose payload is the error 1040 with its
/// state and its text.
const TOO_MANY: &[u8] = b"\x1D\0\0\0\xFF\x10\x04#08004too many connections";

/// Tells a client that there are too many connections. Its socket is new, so there is room for that.
fn refuse(mut stream: &TcpStream) {
    let _ = stream.set_nonblocking(true);
    let _ = stream.write(TOO_MANY);
    let _ = stream.shutdown(Shutdown::Write);
}

/// Logs that there are as many connections as there may be, if it has become so.
fn tell_too_many<R: Clock + Log>(rt: &R, arrivals: &Arrivals, since: &mut Option<Instant>) {
    if since.is_none() {
        *since = Instant::now(rt).ok();
        events::connections_full(rt, arrivals.live());
    }
}

/// Logs that there is room for connections again, if there was none.
fn tell_room<R: Clock + Log>(rt: &R, since: &mut Option<Instant>) {
    if since.is_some() {
        events::connections_free(rt, events::since(rt, *since));
        *since = None;
    }
}

/// Logs that the queue of connections is full, if it has become so.
fn tell_full<R: Clock + Log>(rt: &R, arrivals: &Arrivals, full_since: &mut Option<Instant>) {
    let waiting = arrivals.waiting();
    if full_since.is_none() && waiting > QUEUED as u64 {
        *full_since = Instant::now(rt).ok();
        events::queue_full(rt, waiting);
    }
}

/// Logs that the queue has room again, if it was full.
fn tell_free<R: Clock + Log>(rt: &R, arrivals: &Arrivals, full_since: &mut Option<Instant>) {
    if full_since.is_some() && arrivals.waiting() <= QUEUED as u64 / 2 {
        events::queue_free(rt, events::since(rt, *full_since));
        *full_since = None;
    }
}

impl<'l, W: World, J: Naming, R: Wait + Clock + Log> ConnectionSource<Connection<W, J>, R>
    for Acceptor<'l, W, J> {
    ghost use Rattle.vtgate_clients.specs.Accepted.{Accepts, AcceptsNoMore};

    // Promise: Connections are numbered in the order in which they are accepted, each with a number of its own, up to the last that the words
    // allow
    ghost gives = { λ a c b. Accepts a.accepted a.last c.number b.accepted b.last };

    ghost ends = { λ a b. AcceptsNoMore a.accepted a.last b.accepted b.last };

    fn next(&mut self, rt: &R) -> Option<Connection<W, J>> {
        for _ in rt.forever() {
            if self.accepted >= self.last {
                return None;
            }
            match self.listener.accept() {
                Ok((stream, peer)) => {
                    if let Some(connection) = self.admit(rt, stream, peer) {
                        return Some(connection);
                    }
                }
                Err(_) => {
                    let _ = thread::sleep(rt, Duration::from_millis(AFTER_FAILURE));
                }
            }
        }
        unreachable!()
    }
}
