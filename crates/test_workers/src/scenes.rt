//! Conversations that workers take turns at, over a set of sockets that isn't the system's.
ghost use Rattle.std.specs.Prelude.{◌≡◌};

use connection_workers::{
    Connected, ConnectionSource, Sizes, Sockets, Told, Turned, Wanted, run_turns,
};
use std::alloc::{AllocError, Global};
use std::sync::Wait;
use std::sync::atomic::{AtomicU64, Ordering};
use std::thread;
use std::thread::Threads;
use std::time::Clock;

/// How often a scene looks whether something has happened before it gives up.
const TURNS: u32 = 1_000_000;

/// How often a worker looks for a socket that is ready before it is told of nothing.
const LOOKS: u32 = 100;

/// How many places there are.
const PLACES: u32 = 400;

/// What the source of connections and the workers tell one another.
#[derive(Drop)]
struct Counts {
    /// How many numbers were given.
    given: AtomicU64,
    /// How many turns are under way, or were.
    begun: AtomicU64,
    /// How many words were answered.
    answered: AtomicU64,
    /// How many conversations are over.
    over: AtomicU64,
    /// The sum of the numbers of those that are over.
    sum: AtomicU64,
}

impl Counts {
    fn new() -> Counts {
        Counts {
            given: AtomicU64::new(0),
            begun: AtomicU64::new(0),
            answered: AtomicU64::new(0),
            over: AtomicU64::new(0),
            sum: AtomicU64::new(0),
        }
    }

    fn end(&self, number: u64) {
        self.sum.fetch_add(number, Ordering::SeqCst);
        self.over.fetch_add(1, Ordering::SeqCst);
    }

    // How many are over, and their sum.
    fn all(&self) -> (u64, u64) {
        (
            self.over.load(Ordering::SeqCst),
            self.sum.load(Ordering::SeqCst),
        )
    }
}

// Waits until a count has come so far, at most so many turns.
fn wait_for(count: &AtomicU64, least: u64) -> bool {
    for _ in 0..TURNS {
        if count.load(Ordering::SeqCst) >= least {
            return true;
        }
        thread::yield_now();
    }
    false
}

/// Gives the numbers from 1 on.
#[derive(Drop)]
struct Numbers<'c> {
    last: u64,
    given: u64,
    counts: &'c Counts,
    /// Whether each is over before the next one comes.
    is_patient: bool,
}

impl<R> ConnectionSource<u64, R> for Numbers<'_> {
    ghost gives = { λ a x b. (x ≡ b.given) };

    ghost ends = { λ a b. b.given ≡ b.last };

    fn next(&mut self, _rt: &R) -> Option<u64> {
        if self.is_patient {
            let _ = wait_for(&self.counts.over, self.given);
        }
        if self.given == self.last {
            return None;
        }
        self.given = self.given.wrapping_add(1);
        self.counts.given.fetch_add(1, Ordering::SeqCst);
        Some(self.given)
    }
}

/// How the clients of a scene are.
#[derive(Clone, Copy, PartialEq, Eq)]
enum Client {
    /// It says so many words, one after the other, each before its socket is armed.
    Says(u64),
    /// Its one word is answered once so many turns are under way.
    WaitsForTurns(u64),
    /// The word of the first one is answered once so many numbers are given.
    WaitsForGiven(u64),
    /// The word of the first one is answered once so many others are over.
    WaitsForOthers(u64),
    /// It says nothing.
    IsSilent,
}

/// The conversation with a client that says so many words more.
#[derive(Drop)]
struct Talk<'c> {
    socket: u32,
    number: u64,
    words: u64,
    counts: &'c Counts,
}

impl Connected for Talk<'_> {
    ghost socket = { λ t. t.socket };

    fn socket(&self) -> u32 {
        self.socket
    }

    fn until(&self) -> u64 {
        1
    }

    fn end(self, _now: u64) {
        self.counts.end(self.number);
    }
}

// The conversation with a client that says as many words as the scene has it.
fn begin(client: Client, counts: &Counts, number: u64) -> Talk<'_> {
    let words = match client {
        Client::Says(words) => words,
        _ => 1,
    };
    Talk {
        socket: u32::try_from(number).unwrap_or(0),
        number,
        words,
        counts,
    }
}

// Waits as the scene has it before a word is answered; whether it is.
fn is_answered(client: Client, counts: &Counts, number: u64) -> bool {
    match client {
        Client::Says(_) => true,
        Client::WaitsForTurns(least) => wait_for(&counts.begun, least),
        Client::WaitsForGiven(least) => number > 1 || wait_for(&counts.given, least),
        Client::WaitsForOthers(least) => number > 1 || wait_for(&counts.over, least),
        Client::IsSilent => false,
    }
}

// Answers a word.
fn answer(client: Client, counts: &Counts, talk: &mut Talk<'_>) -> Turned {
    counts.begun.fetch_add(1, Ordering::SeqCst);
    if talk.words == 0 {
        return Turned::Over;
    }
    if !is_answered(client, counts, talk.number) {
        return Turned::Waits(Wanted::Bytes);
    }
    talk.words = talk.words.saturating_sub(1);
    counts.answered.fetch_add(1, Ordering::SeqCst);
    if talk.words % 2 == 0 {
        Turned::Answered
    } else {
        Turned::HasMore
    }
}

/// Sockets that are ready as soon as they are armed, if their clients say anything.
#[derive(Drop)]
struct FakeSockets {
    speak: bool,
    wakes: AtomicU64,
    ready: Vec<AtomicU64>,
}

// Takes one of what was counted, if there is one.
fn takes_one(count: &AtomicU64) -> bool {
    let found = count.load(Ordering::SeqCst);
    found > 0
        && count
            .compare_exchange(
                found,
                found.saturating_sub(1),
                Ordering::SeqCst,
                Ordering::SeqCst,
            )
            .is_ok()
}

impl FakeSockets {
    fn new(alloc: Global, speak: bool) -> Result<FakeSockets, AllocError> {
        let mut ready = Vec::with_capacity(alloc, PLACES as usize)?;
        for _ in 0..PLACES {
            ready.push(AtomicU64::new(0))?;
        }
        Ok(FakeSockets {
            speak,
            wakes: AtomicU64::new(0),
            ready,
        })
    }

    // The client of this socket speaks now, if it does at all: it is told.
    fn tell(&self, socket: u32) -> bool {
        match self.ready.get(socket as usize) {
            Some(count) => {
                if self.speak {
                    count.store(1, Ordering::SeqCst);
                }
                true
            }
            None => false,
        }
    }

    fn first_ready(&self) -> Option<u32> {
        for (socket, count) in self.ready.as_slice().iter().enumerate() {
            if takes_one(count) {
                return u32::try_from(socket).ok();
            }
        }
        None
    }
}

impl<R> Sockets<R> for FakeSockets {
    fn add(&self, socket: u32, _wanted: Wanted) -> bool {
        self.tell(socket)
    }

    fn arm(&self, socket: u32, _wanted: Wanted) -> bool {
        self.tell(socket)
    }

    fn wait(&self, _rt: &R, _milliseconds: i32) -> Told {
        for _ in 0..LOOKS {
            if takes_one(&self.wakes) {
                return Told::Woken;
            }
            if let Some(socket) = self.first_ready() {
                return Told::Ready(socket);
            }
            thread::yield_now();
        }
        Told::Nothing
    }

    fn wake(&self) {
        self.wakes.fetch_add(1, Ordering::SeqCst);
    }
}

/// A scene: how many numbers are given, how many wait in the queue, how many workers there are, and how the clients are.
#[derive(Clone, Copy)]
struct Scene {
    last: u64,
    queue: usize,
    workers: u32,
    is_patient: bool,
    client: Client,
}

// Clients that say one word each.
fn one_word(last: u64, workers: u32) -> Scene {
    Scene {
        last,
        queue: 2,
        workers,
        is_patient: false,
        client: Client::Says(1),
    }
}

/// What was counted in the scene, unless workers aren't run.
fn played<R: Threads + Wait + Sync + Clock>(rt: &R, alloc: Global, scene: Scene) -> Option<Counts> {
    let counts = Counts::new();
    let client = scene.client;
    let sockets = FakeSockets::new(alloc, client != Client::IsSilent).ok()?;
    let entrance = Numbers {
        last: scene.last,
        given: 0,
        counts: &counts,
        is_patient: scene.is_patient,
    };
    let sizes = Sizes {
        queue: scene.queue.max(1),
        places: PLACES,
        workers: scene.workers,
    };
    let ended = run_turns(
        rt,
        alloc,
        sizes,
        &sockets,
        &|number: u64| begin(client, &counts, number),
        &|talk: Talk<'_>, _now: u64| {
            let mut talk = talk;
            let turned = answer(client, &counts, &mut talk);
            (talk, turned)
        },
        entrance,
    );
    let is_run = ended.is_ok();
    if is_run { Some(counts) } else { None }
}

/// How many conversations are over, and the sum of their numbers.
fn over<R: Threads + Wait + Sync + Clock>(
    rt: &R,
    alloc: Global,
    scene: Scene,
) -> Option<(u64, u64)> {
    let counts = played(rt, alloc, scene)?;
    Some(counts.all())
}

/// Each connection is served once, however many workers there are; without one nothing is.
pub(crate) fn each_connection_is_served_once<R: Threads + Wait + Sync + Clock>(
    rt: &R,
    alloc: Global,
) -> bool {
    over(rt, alloc, one_word(300, 3)) == Some((300, 45_150))
        && over(rt, alloc, one_word(50, 1)) == Some((50, 1275))
        && over(rt, alloc, one_word(0, 2)) == Some((0, 0))
        && over(rt, alloc, one_word(1, 0)) == None
}

/// Workers that have nothing to do are woken by the next connection, and by the end.
pub(crate) fn sleeping_workers_are_woken<R: Threads + Wait + Sync + Clock>(
    rt: &R,
    alloc: Global,
) -> bool {
    let mut scene = one_word(40, 3);
    scene.is_patient = true;
    over(rt, alloc, scene) == Some((40, 820))
}

/// All workers serve at once.
pub(crate) fn all_workers_serve_at_once<R: Threads + Wait + Sync + Clock>(
    rt: &R,
    alloc: Global,
) -> bool {
    let mut scene = one_word(5, 5);
    scene.client = Client::WaitsForTurns(5);
    over(rt, alloc, scene) == Some((5, 15))
}

/// While the only worker serves one, as many wait as the queue has room for, and one more before it. They go on once the worker is free.
pub(crate) fn full_queue_waits_for_a_worker<R: Threads + Wait + Sync + Clock>(
    rt: &R,
    alloc: Global,
) -> bool {
    let mut scene = one_word(30, 1);
    scene.queue = 4;
    scene.client = Client::WaitsForGiven(6);
    over(rt, alloc, scene) == Some((30, 465))
}

/// A client that speaks after the worker's last look at it and before its socket is armed is answered, each time.
pub(crate) fn word_that_comes_before_arming_is_answered<R: Threads + Wait + Sync + Clock>(
    rt: &R,
    alloc: Global,
) -> bool {
    let mut scene = one_word(40, 3);
    scene.client = Client::Says(25);
    match played(rt, alloc, scene) {
        Some(counts) => {
            counts.all() == (40, 820) && counts.answered.load(Ordering::SeqCst) == 1000
        }
        None => false,
    }
}

/// One of two workers is held by a statement until all other conversations are over, which the other worker serves.
pub(crate) fn busy_conversations_hold_up_no_other<R: Threads + Wait + Sync + Clock>(
    rt: &R,
    alloc: Global,
) -> bool {
    let mut scene = one_word(50, 2);
    scene.client = Client::WaitsForOthers(49);
    over(rt, alloc, scene) == Some((50, 1275))
}

/// Conversations whose clients say nothing are ended once their time is over, by however few workers.
pub(crate) fn conversation_that_is_late_is_ended<R: Threads + Wait + Sync + Clock>(
    rt: &R,
    alloc: Global,
) -> bool {
    let mut scene = one_word(20, 1);
    scene.client = Client::IsSilent;
    over(rt, alloc, scene) == Some((20, 210))
}

/// A connection whose socket has no place is ended, and the others are served.
pub(crate) fn connection_without_a_place_is_ended<R: Threads + Wait + Sync + Clock>(
    rt: &R,
    alloc: Global,
) -> bool {
    let last = u64::from(PLACES) + 5;
    over(rt, alloc, one_word(last, 2)) == Some((last, last * (last + 1) / 2))
}
