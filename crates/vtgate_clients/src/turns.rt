//! A client between two turns of a worker: its conversation, and how long it may stay as it is.
ghost use Rattle.std.specs.Prelude.{◌≡◌, ◌<◌, length};
ghost use Rattle.vtgate_clients.specs.Admitted.{handshake_of};

use crate::admission::Admission;
use crate::arrivals::Arrivals;
use crate::client::ClientDevice;
use crate::events;
use crate::events::Passed;
use crate::server::Server;
use crate::socket::SocketDevice;
use crate::statements::tell_statements;
use connection_workers::{Connected, Turned, Wanted};
use journal::Naming;
use log::Log;
use session::conversation::is_in_commands;
use session::{Conversation, End, Engine, Gate, SessionFault};
use shard::World;
use std::alloc::Global;
use std::net::SocketAddr;
use std::sync::Wait;
use std::thread::Threads;
use std::time::{Clock, Duration, Instant};

/// How many bytes are asked of a socket at once.
const PIECE: usize = 1 << 13;

/// How long a login may take, and how long a client may say nothing in it, in milliseconds.
const LOGIN_LIMIT: u64 = 30_000;

const LOGIN_SILENCE: u64 = 10_000;

/// How long a client may say nothing once it is let in, and how long it may take no byte of a reply.
const COMMAND_LIMIT: u64 = 8 * 60 * 60 * 1000;

const REPLY_LIMIT: u64 = 60_000;

/// How long the end of what a client sends is awaited.
const END_LIMIT: u64 = 500;

/// When a client did something last, in milliseconds.
#[derive(Clone, Copy)]
struct Times {
    greeted: u64,
    heard: u64,
    taken: u64,
}

/// How far a connection is.
#[derive(Clone, Copy)]
enum Stage {
    /// Its client wasn't greeted yet.
    New,
    /// They talk.
    UnderWay(Times),
    /// All is said, since so many milliseconds.
    Ending(u64),
}

/// A client's connection, of which all is owned by who takes a turn at it.
#[derive(Drop)]
struct Talking<'s, W: World, J: Naming, R: Clock + Log> {
    admission: &'s Admission<'s>,
    number: u32,
    peer: SocketAddr,
    start: Option<Instant>,
    conversation: Conversation<W, J, ClientDevice<'s, R, SocketDevice>>,
    stage: Stage,
    // Promise: Whatever turns a connection's workers take, its client was greeted as the connection of this number, as the words ask
    ghost greeted: { conversation.handshake ≡ handshake_of admission.now.asked.now number },
}

/// A connection between two turns.
#[derive(Drop)]
pub struct Talk<'s, W: World, J: Naming, R: Clock + Log> {
    rt: &'s R,
    arrivals: &'s Arrivals,
    socket: u32,
    /// One, or none if there was no memory for it. An `Option` of a `Box` is too large a type for the proofs of `run_workers`.
    talking: Vec<Talking<'s, W, J, R>>,
}

impl<W: World, J: Naming, R: Clock + Log> Connected for Talk<'_, W, J, R> {
    ghost socket = { λ t. t.socket };

    fn socket(&self) -> u32 {
        self.socket
    }

    fn until(&self) -> u64 {
        match self.talking.first() {
            Some(talking) => talking.until(),
            None => 0,
        }
    }

    // Closes the socket. What wasn't logged yet is logged.
    fn end(self, now: u64) {
        if let Some(talking) = self.talking.first() {
            talking.end(self.rt, now);
        }
        let arrivals = self.arrivals;
        drop(self);
        arrivals.leave();
    }
}

impl<'s, W: World, J: Naming, R: Clock + Log> Talk<'s, W, J, R> {
    /// A connection whose client wasn't greeted yet. It is over if there is no memory for it.
    pub fn new(
        rt: &'s R,
        alloc: Global,
        admission: &'s Admission<'s>,
        arrivals: &'s Arrivals,
        number: u32,
        peer: SocketAddr,
        conversation: Conversation<W, J, ClientDevice<'s, R, SocketDevice>>,
    ) -> Talk<'s, W, J, R>
        requires greeted { conversation.handshake ≡ handshake_of admission.now.asked.now number }
    {
        let socket = conversation.device().socket();
        let talking = Talking {
            admission,
            number,
            peer,
            start: Instant::now(rt).ok(),
            conversation,
            stage: Stage::New,
        };
        let Ok(mut all) = Vec::with_capacity(alloc, 1) else {
            return Talk::over(rt, alloc, arrivals);
        };
        if all.push(talking).is_err() {
            return Talk::over(rt, alloc, arrivals);
        }
        Talk {
            rt,
            arrivals,
            socket,
            talking: all,
        }
    }

    /// A connection that is over, since there was no memory for it. Its socket is closed, and its descriptor may be another's by now.
    pub fn over(rt: &'s R, alloc: Global, arrivals: &'s Arrivals) -> Talk<'s, W, J, R> {
        Talk {
            rt,
            arrivals,
            socket: u32::MAX,
            talking: Vec::new(alloc),
        }
    }
}

impl<W: World + Send + Sync, J: Naming + Send + Sync, R: Threads + Wait + Sync + Clock + Log> Talk<
    '_,
    W,
    J,
    R,
> {
    /// Does what can be done now without waiting for long, and returns what it came to. The time is in milliseconds.
    pub fn turned<G: Gate>(self, server: &Server<'_, W, J, G, R>, now: u64) -> (Self, Turned) {
        let mut talk = self;
        let mut buffer = [0u8; PIECE];
        let turned = match talk.talking.first_mut() {
            Some(talking) => talking.turn(server.rt, server.alloc, server.engine, &mut buffer, now),
            None => Turned::Over,
        };
        (talk, turned)
    }
}

impl<W: World, J: Naming, R: Clock + Log> Talking<'_, W, J, R> {
    fn is_let_in(&self) -> bool {
        is_in_commands(self.conversation.connection_state())
    }

    // Until when it may stay as it is.
    fn until(&self) -> u64 {
        match self.stage {
            Stage::New => u64::MAX,
            Stage::Ending(since) => since.saturating_add(END_LIMIT),
            Stage::UnderWay(times) => {
                if self.conversation.has_unsent() {
                    times.taken.saturating_add(REPLY_LIMIT)
                } else if self.is_let_in() {
                    times.heard.saturating_add(COMMAND_LIMIT)
                } else {
                    let silence = times.heard.saturating_add(LOGIN_SILENCE);
                    silence.min(times.greeted.saturating_add(LOGIN_LIMIT))
                }
            }
        }
    }

    // Notes what was moved in a turn, and returns whether bytes came.
    fn note_moves(&mut self, now: u64) -> bool {
        let moves = self.conversation.device().take_moves();
        let mut times = match self.stage {
            Stage::UnderWay(times) => times,
            _ => Times {
                greeted: now,
                heard: now,
                taken: now,
            },
        };
        if moves.has_read {
            times.heard = now;
        }
        // A reply waits for its client from the turn on that wrote it, and nothing is read while one waits.
        if moves.has_written || moves.has_read || !self.conversation.has_unsent() {
            times.taken = now;
        }
        self.stage = Stage::UnderWay(times);
        moves.has_read
    }

    // Logs how the connection has ended.
    fn tell_end(&self, rt: &R, served: &Result<End, SessionFault>, silence: Option<Duration>) {
        let Ok(traffic) = self.conversation.device().traffic().try_borrow() else {
            return;
        };
        let passed = Passed {
            number: self.number,
            peer: self.peer,
            served,
            incoming: &traffic.incoming,
            outgoing: &traffic.outgoing,
            silence,
            time: events::since(rt, self.start),
        };
        events::ended(rt, passed);
    }

    // Says that there are no more bytes, and waits a moment for the client to close. One whose socket failed has nothing to wait for.
    fn finish(&mut self, rt: &R, served: &Result<End, SessionFault>, now: u64) -> Turned {
        self.tell_end(rt, served, None);
        self.stage = Stage::Ending(now);
        if matches!(served, Err(SessionFault::Read)) {
            return Turned::Over;
        }
        self.conversation.device().shut();
        Turned::Waits(Wanted::Bytes)
    }

    // What is to be done after a turn of the conversation that it goes on with.
    fn after_wait(&self, has_read: bool) -> Turned {
        if self.conversation.has_unsent() {
            Turned::Waits(Wanted::Room)
        } else if has_read {
            Turned::Answered
        } else {
            Turned::Waits(Wanted::Bytes)
        }
    }

    // Logs the end of one that had no time or no place.
    fn end(&self, rt: &R, now: u64) {
        let Stage::UnderWay(times) = self.stage else {
            return;
        };
        if self.conversation.has_unsent() {
            self.tell_end(rt, &Err(SessionFault::Write), None);
        } else {
            let silence = Duration::from_millis(now.saturating_sub(times.heard));
            self.tell_end(rt, &Err(SessionFault::Read), Some(silence));
        }
    }
}

impl<
    W: World + Send + Sync,
    J: Naming + Send + Sync,
    R: Threads + Wait + Sync + Clock + Log,
> Talking<'_, W, J, R> {
    // Logs the statements that were answered.
    fn tell_statements<G: Gate>(&self, rt: &R, alloc: Global, engine: &Engine<W, J, G>) {
        if let Ok(mut traffic) = self.conversation.device().traffic().try_borrow_mut() {
            if traffic.incoming.detail().has_statements() {
                tell_statements(rt, alloc, engine, self.number, &mut traffic);
            }
        }
    }

    // Takes a turn at the conversation.
    fn converse<G: Gate>(
        &mut self,
        rt: &R,
        alloc: Global,
        engine: &Engine<W, J, G>,
        buffer: &mut [u8],
        now: u64,
    ) -> Turned
        requires room { 0 < length buffer.old }
    {
        let turned = self.conversation.turn(rt, alloc, engine, buffer);
        let has_read = self.note_moves(now);
        match turned {
            session::Turned::HasMore => Turned::HasMore,
            session::Turned::Waits => {
                self.tell_statements(rt, alloc, engine);
                self.after_wait(has_read)
            }
            session::Turned::Over(served) => {
                self.tell_statements(rt, alloc, engine);
                self.finish(rt, &served, now)
            }
        }
    }

    // Does what can be done now.
    fn turn<G: Gate>(
        &mut self,
        rt: &R,
        alloc: Global,
        engine: &Engine<W, J, G>,
        buffer: &mut [u8],
        now: u64,
    ) -> Turned
        requires room { 0 < length buffer.old }
    {
        if !matches!(self.stage, Stage::Ending(_)) {
            return self.converse(rt, alloc, engine, buffer, now);
        }
        if self.conversation.device().drain(buffer) {
            Turned::Waits(Wanted::Bytes)
        } else {
            Turned::Over
        }
    }
}
