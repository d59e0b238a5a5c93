//! What the threads share: the queue, the places of conversations, and the set of their sockets; and what a worker does with these.
ghost use Rattle.std.specs.Prelude.{◌≡◌, true, IfSome, IfNone};
ghost use Rattle.crossbeam_queue.specs.Passes.{view, IsPassOf};
ghost use Rattle.connection_workers.specs.Order.{Puts, Takes};

use crate::places::{Place, Places, Slot};
use crate::pool::Job;
use crate::queue::{ConnectionQueue, Known, put, take};
use crate::signal::Signal;
use crate::turns::{Connected, Sockets, Turned};
use readiness::{Told, Wanted};
use std::sync::Wait;
use std::sync::atomic::{AtomicBool, AtomicU64, Ordering};
use std::time::{Clock, Instant};

/// How long the worker that keeps the time waits for a socket, and how long each other does, in milliseconds.
const KEEPER_WAIT: i32 = 250;

const LONGEST_WAIT: i32 = 2000;

/// How often it is looked whose time is over, in milliseconds.
const BETWEEN_LOOKS: u64 = 250;

/// What the threads share: the queue, the places and the set of sockets; and the time.
#[derive(Drop)]
pub struct TurnPool<'s, T, C: Connected, S> {
    pub queue: ConnectionQueue<Job<T>>,
    /// Given when a job was taken.
    went: Signal,
    places: Places<C>,
    sockets: &'s S,
    /// How many connections were let in and aren't over.
    live: AtomicU64,
    /// Given when none is left.
    all_over: Signal,
    /// How many workers wait to be told of something.
    idle: AtomicU64,
    /// Whether one of them keeps the time.
    has_keeper: AtomicBool,
    start: Option<Instant>,
    /// The time as of the last look, in milliseconds since the start.
    milliseconds: AtomicU64,
}

impl<'s, T, C: Connected, S> TurnPool<'s, T, C, S> {
    pub fn new(
        queue: ConnectionQueue<Job<T>>,
        places: Places<C>,
        sockets: &'s S,
        start: Option<Instant>,
    ) -> TurnPool<'s, T, C, S>
        ensures { result.queue ≡ queue }
    {
        TurnPool {
            queue,
            went: Signal::new(),
            places,
            sockets,
            live: AtomicU64::new(0),
            all_over: Signal::new(),
            idle: AtomicU64::new(0),
            has_keeper: AtomicBool::new(false),
            start,
            milliseconds: AtomicU64::new(0),
        }
    }

    /// Puts a job after all that were put before, and waits if the queue is full.
    pub fn put<R: Wait>(&self, rt: &R, pass: &mut Known<Job<T>>, job: Job<T>)
    where
        S: Sockets<R>,
        requires of { IsPassOf self.now.queue pass.old }
        requires puts { (view pass.old).puts ≡ true }
        ensures of { IsPassOf self.now.queue pass.new }
        ensures put { Puts (view pass.old) job (view pass.new) }
        ensures puts { (view pass.new).puts ≡ true }
    {
        let mut waiting = job;
        for _ in rt.forever() {
            let seen = self.went.given();
            match put(rt, &self.queue, pass, waiting) {
                Ok(()) => {
                    self.sockets.wake();
                    return;
                }
                Err(back) => {
                    waiting = back;
                    self.went.wait(rt, seen);
                }
            }
        }
        unreachable!()
    }

    /// Takes the first job of those that no one took yet, if there is one, and has another worker look for the next.
    fn take<R: Wait>(&self, rt: &R, pass: &mut Known<Job<T>>) -> Option<Job<T>>
    where
        S: Sockets<R>,
        requires of { IsPassOf self.now.queue pass.old }
        requires takes { (view pass.old).takes ≡ true }
        ensures of { IsPassOf self.now.queue pass.new }
        ensures taken { IfSome result (λ job. Takes (view pass.old) job (view pass.new)) }
        ensures same { IfNone result (view pass.new ≡ view pass.old) }
        ensures takes { (view pass.new).takes ≡ true }
    {
        let taken = take(rt, &self.queue, pass);
        if taken.is_some() {
            self.went.give();
            self.sockets.wake();
        }
        taken
    }

    /// Says that one more connection is let in.
    pub fn come(&self) {
        self.live.fetch_add(1, Ordering::SeqCst);
    }

    /// Says that a connection is over.
    fn leave(&self) {
        if self.live.fetch_sub(1, Ordering::SeqCst) == 1 {
            self.all_over.give();
        }
    }

    /// Waits until each connection that was let in is over.
    pub fn wait_for_all<R: Wait>(&self, rt: &R) {
        for _ in rt.forever() {
            let seen = self.all_over.given();
            if self.live.load(Ordering::SeqCst) == 0 {
                return;
            }
            self.all_over.wait(rt, seen);
        }
        unreachable!()
    }

    fn time(&self) -> u64 {
        self.milliseconds.load(Ordering::SeqCst)
    }

    /// Looks at the clock. Returns the time before and now.
    fn look_at_clock<R: Clock>(&self, rt: &R) -> (u64, u64) {
        let last = self.time();
        let Some(start) = self.start else {
            return (last, last);
        };
        let Ok(elapsed) = start.elapsed(rt) else {
            return (last, last);
        };
        let now = u64::try_from(elapsed.as_millis()).unwrap_or(last);
        self.milliseconds.store(now, Ordering::SeqCst);
        (last, now)
    }

    /// Ends the conversations that have stayed as they are for too long.
    fn end_late(&self, now: u64) {
        for place in self.places.all() {
            self.end(place.take_late(now));
        }
    }

    /// Looks whose time is over, unless that was done a moment ago.
    fn keep_time<R: Clock>(&self, rt: &R) {
        let (last, now) = self.look_at_clock(rt);
        if now / BETWEEN_LOOKS != last / BETWEEN_LOOKS {
            self.end_late(now);
        }
    }

    /// Waits to be told of something. One of the workers keeps the time meanwhile.
    fn wait<R: Clock>(&self, rt: &R) -> Told
    where
        S: Sockets<R>,
    {
        let is_keeper = !self.has_keeper.swap(true, Ordering::SeqCst);
        let patience = if is_keeper { KEEPER_WAIT } else { LONGEST_WAIT };
        self.idle.fetch_add(1, Ordering::SeqCst);
        let told = self.sockets.wait(rt, patience);
        self.idle.fetch_sub(1, Ordering::SeqCst);
        if is_keeper {
            self.keep_time(rt);
            self.has_keeper.store(false, Ordering::SeqCst);
        }
        told
    }

    /// Whether a worker takes the next turn too: while another waits for all other sockets.
    fn stays(&self, slot: &Slot<C>, turned: Turned) -> bool {
        let may_stay = match turned {
            Turned::HasMore => true,
            Turned::Answered => slot.may_stay(),
            _ => false,
        };
        may_stay && self.idle.load(Ordering::SeqCst) != 0
    }

    /// Takes turns at the conversation of a socket for as long as the worker stays with it; `None` if it isn't in its place.
    fn converse<F: Fn(C, u64) -> (C, Turned)>(
        &self,
        turn: &F,
        slot: &mut Slot<C>,
        socket: u32,
    ) -> Option<Turned>
        requires callable { F.IsAlwaysCallable turn.now }
    {
        let mut has_stayed = false;
        for _ in 0..u64::MAX {
            let turned = slot.turn(turn, socket, self.time())?;
            if !self.stays(slot, turned) {
                slot.note(has_stayed, turned);
                return Some(turned);
            }
            has_stayed = true;
        }
        Some(Turned::HasMore)
    }

    /// Takes turns at the conversation of a socket. Returns what the socket is awaited for then, unless the conversation is over.
    fn visit<R: Wait, F: Fn(C, u64) -> (C, Turned)>(
        &self,
        rt: &R,
        turn: &F,
        socket: u32,
    ) -> Option<Wanted>
        requires callable { F.IsAlwaysCallable turn.now }
    {
        let place = self.places.of(socket)?;
        let mut slot = place.lock(rt);
        let turned = self.converse(turn, &mut slot, socket)?;
        if let Some(wanted) = wanted_after(turned) {
            place.set_until(slot.until());
            return Some(wanted);
        }
        place.set_until(0);
        let over = slot.take();
        drop(slot);
        self.end(over);
        None
    }

    /// Ends a conversation that is over.
    fn end(&self, over: Option<C>) {
        if let Some(conversation) = over {
            conversation.end(self.time());
            self.leave();
        }
    }

    /// Takes turns at the conversation of a socket that was told, and then has it told once more: only after nobody has its place.
    fn answer<R: Wait, F: Fn(C, u64) -> (C, Turned)>(&self, rt: &R, turn: &F, socket: u32)
    where
        S: Sockets<R>,
        requires callable { F.IsAlwaysCallable turn.now }
    {
        if let Some(wanted) = self.visit(rt, turn, socket) {
            self.sockets.arm(socket, wanted);
        }
    }

    /// Greets the client of a conversation that has just been put, and then has its socket told. If that can't be, its time is over.
    fn greet<R: Wait, F: Fn(C, u64) -> (C, Turned)>(
        &self,
        rt: &R,
        turn: &F,
        place: &Place<C>,
        socket: u32,
    )
    where
        S: Sockets<R>,
        requires callable { F.IsAlwaysCallable turn.now }
    {
        if let Some(wanted) = self.visit(rt, turn, socket) {
            if !self.sockets.add(socket, wanted) {
                place.set_until(1);
            }
        }
    }

    /// Gives a conversation its place. It is over if there is none.
    fn settle<R: Wait, F: Fn(C, u64) -> (C, Turned)>(&self, rt: &R, turn: &F, conversation: C)
    where
        S: Sockets<R>,
        requires callable { F.IsAlwaysCallable turn.now }
    {
        let socket = conversation.socket();
        let Some(place) = self.places.of(socket) else {
            self.end(Some(conversation));
            return;
        };
        let over = put_into(rt, place, conversation);
        self.end(over);
        self.greet(rt, turn, place, socket);
    }

    /// Begins the conversation of a connection that was taken. A `T` can't be let go here.
    pub fn admit<R: Wait, B: Fn(T) -> C, F: Fn(C, u64) -> (C, Turned)>(
        &self,
        rt: &R,
        begin: &B,
        turn: &F,
        connection: T,
    )
    where
        S: Sockets<R>,
        requires begins { B.IsAlwaysCallable begin.now }
        requires callable { F.IsAlwaysCallable turn.now }
        ensures begun { (conversation : C) × B.post begin.now connection conversation }
    {
        self.settle(rt, turn, begin(connection));
    }

    /// Waits to be told of something, and does it. Returns the job that it took, if it was told that one came.
    fn step<R: Wait + Clock, F: Fn(C, u64) -> (C, Turned)>(
        &self,
        rt: &R,
        turn: &F,
        pass: &mut Known<Job<T>>,
    ) -> Option<Job<T>>
    where
        S: Sockets<R>,
        requires callable { F.IsAlwaysCallable turn.now }
        requires of { IsPassOf self.now.queue pass.old }
        requires takes { (view pass.old).takes ≡ true }
        ensures of { IsPassOf self.now.queue pass.new }
        ensures taken { IfSome result (λ job. Takes (view pass.old) job (view pass.new)) }
        ensures same { IfNone result (view pass.new ≡ view pass.old) }
        ensures takes { (view pass.new).takes ≡ true }
    {
        match self.wait(rt) {
            Told::Woken => self.take(rt, pass),
            Told::Ready(socket) => {
                self.answer(rt, turn, socket);
                None
            }
            Told::Nothing => None,
        }
    }

    /// Takes the first job of those that no one took yet. Until there is one it takes turns at conversations.
    pub fn next_job<R: Wait + Clock, F: Fn(C, u64) -> (C, Turned)>(
        &self,
        rt: &R,
        turn: &F,
        pass: &mut Known<Job<T>>,
    ) -> Job<T>
    where
        S: Sockets<R>,
        requires callable { F.IsAlwaysCallable turn.now }
        requires of { IsPassOf self.now.queue pass.old }
        requires takes { (view pass.old).takes ≡ true }
        ensures of { IsPassOf self.now.queue pass.new }
        ensures taken { Takes (view pass.old) result (view pass.new) }
        ensures takes { (view pass.new).takes ≡ true }
    {
        for _ in rt.forever() {
            if let Some(job) = self.step(rt, turn, pass) {
                return job;
            }
        }
        unreachable!()
    }
}

/// Puts a conversation into a place. Returns what has none then.
fn put_into<R: Wait, C: Connected>(rt: &R, place: &Place<C>, conversation: C) -> Option<C> {
    place.lock(rt).put(conversation)
}

/// What a socket is awaited for after a turn; `None` if the conversation is over.
fn wanted_after(turned: Turned) -> Option<Wanted> {
    match turned {
        Turned::Waits(wanted) => Some(wanted),
        Turned::Answered => Some(Wanted::Bytes),
        Turned::HasMore => Some(Wanted::Turn),
        Turned::Over => None,
    }
}
