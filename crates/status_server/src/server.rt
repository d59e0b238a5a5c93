//! Clients of the status, on one thread.
ghost use Rattle.std.specs.Prelude.{◌<◌, length, IfOk, IfSome};
ghost use Rattle.status_server.specs.Replies.{Answers, AnswersPath, IsAnswered, IsOfMoment, IsTextAt};

use crate::client::{Client, Stage, Turned};
use crate::replies::{refusal, reply};
use crate::request::{Asked, Fault, Path};
use status_page::{Figures, metrics, page};
use std::alloc::{AllocError, Global};
use std::net::TcpListener;
use std::sync::Wait;
use std::thread;
use std::time::{Clock, Duration, Instant, SystemTime};

/// How many clients are served at a time. More are told that there are too many.
pub const MOST_CLIENTS: usize = 16;

/// How many connections there are at most, with those that are told so. They take descriptors of those that are kept for other files than clients, so that
/// nobody keeps operators from the admin port by them.
const MOST_CONNECTIONS: usize = 20;

/// How long it sleeps if nothing can be moved, with clients and without, in milliseconds.
const BETWEEN_MOVES: u64 = 1;

const BETWEEN_LOOKS: u64 = 10;

/// What is watched.
pub trait Watched<R> {
    /// What there is to show now. It only looks. Refuses for want of memory.
    fn figures(&self, rt: &R, alloc: Global) -> Result<Figures<'_>, AllocError>;

    /// Whether statements are served.
    fn is_serving(&self) -> bool;
}

// The milliseconds since a moment.
fn millis_since<R: Clock>(rt: &R, start: Option<Instant>) -> u64 {
    let Some(start) = start else {
        return 0;
    };
    match start.elapsed(rt) {
        Ok(time) => time
            .as_secs()
            .saturating_mul(1000)
            .saturating_add(u64::from(time.subsec_millis())),
        Err(_) => 0,
    }
}

// The seconds since 1970.
fn seconds_now<R: Clock>(rt: &R) -> u64 {
    let Ok(now) = SystemTime::now(rt) else {
        return 0;
    };
    match now.duration_since(SystemTime::UNIX_EPOCH) {
        Ok(time) => time.as_secs(),
        Err(_) => 0,
    }
}

// The text of what there is at a path, by figures of a moment at which the router had run for so many seconds.
fn text_of(
    alloc: Global,
    figures: &Figures<'_>,
    age: u64,
    path: Path,
) -> Result<Vec<u8>, AllocError>
    ensures text { IfOk result (λ text. IsTextAt path figures.now text.items) }
{
    match path {
        Path::Health => Vec::from_slice(alloc, b"ok\n"),
        Path::Metrics => metrics(alloc, figures),
        Path::Page => page(alloc, figures, age),
    }
}

// Promise: What is shown at a path are the figures of one moment: the metrics are exactly these, and the page has a row for each of their shards
/// The reply with what there is at a path, by figures of a moment at which the router had run for so many seconds. Refuses for want of memory.
pub fn shown(
    alloc: Global,
    figures: &Figures<'_>,
    age: u64,
    path: Path,
    has_body: bool,
) -> Result<Vec<u8>, AllocError>
    ensures answers { IfOk result (λ reply. AnswersPath path figures.now has_body reply.items) }
{
    let text = text_of(alloc, figures, age, path)?;
    reply(alloc, path, &text, has_body)
}

// The reply with what there is at a path now.
fn shown_now<R: Wait + Clock, S: Watched<R>>(
    rt: &R,
    alloc: Global,
    watched: &S,
    path: Path,
    has_body: bool,
) -> Result<Vec<u8>, AllocError>
    ensures moment { IfOk result (λ reply. IsOfMoment path has_body reply.items) }
{
    let figures = watched.figures(rt, alloc)?;
    let age = seconds_now(rt).saturating_sub(figures.started);
    shown(alloc, &figures, age, path, has_body)
}

// The reply that says whether statements are served.
fn health(alloc: Global, is_serving: bool, has_body: bool) -> Result<Vec<u8>, AllocError>
    ensures answered { IfOk result (λ reply. IsAnswered Path.Health has_body reply.items) }
{
    if is_serving {
        reply(alloc, Path::Health, b"ok\n", has_body)
    } else {
        refusal(alloc, Fault::Unavailable, has_body)
    }
}

// The reply to a request for a path.
fn reply_of<R: Wait + Clock, S: Watched<R>>(
    rt: &R,
    alloc: Global,
    watched: &S,
    path: Path,
    has_body: bool,
) -> Result<Vec<u8>, AllocError>
    ensures answered { IfOk result (λ reply. IsAnswered path has_body reply.items) }
{
    match path {
        Path::Health => health(alloc, watched.is_serving(), has_body),
        Path::Metrics => shown_now(rt, alloc, watched, Path::Metrics, has_body),
        Path::Page => shown_now(rt, alloc, watched, Path::Page, has_body),
    }
}

// Promise: A request is answered with what its path has, by the figures of one moment, and with nothing else
/// What answers a request. Refuses for want of memory.
pub fn answer_to<R: Wait + Clock, S: Watched<R>>(
    rt: &R,
    alloc: Global,
    watched: &S,
    asked: Asked,
) -> Result<Vec<u8>, AllocError>
    ensures answers { IfOk result (λ reply. Answers asked reply.items) }
{
    match asked {
        Asked::Shown(path) => reply_of(rt, alloc, watched, path, true),
        Asked::Headed(path) => reply_of(rt, alloc, watched, path, false),
        Asked::Refused(fault) => refusal(alloc, fault, true),
    }
}

// Takes a turn at a client, and returns whether anything was moved.
fn turn<R: Wait + Clock, S: Watched<R>>(
    rt: &R,
    alloc: Global,
    watched: &S,
    client: &mut Client,
    now: u64,
) -> bool {
    match client.turn(now) {
        Turned::Waits => false,
        Turned::Moved => true,
        Turned::Asks(asked) => {
            match answer_to(rt, alloc, watched, asked) {
                Ok(text) => client.answer(text),
                Err(_) => client.end(),
            }
            true
        }
    }
}

// How many clients are served, without those whose end is awaited.
fn served(clients: &[Client]) -> usize {
    let mut count = 0usize;
    for client in clients {
        if matches!(client.stage(), Stage::Reading | Stage::Writing) {
            count = count.saturating_add(1);
        }
    }
    count
}

// Accepts a client if one is there, and returns whether one was.
fn accept(alloc: Global, listener: &TcpListener, clients: &mut Vec<Client>, now: u64) -> bool {
    if clients.len() >= MOST_CONNECTIONS {
        return false;
    }
    let Ok((stream, _)) = listener.accept() else {
        return false;
    };
    let mut client = Client::new(alloc, stream, now);
    if served(clients) >= MOST_CLIENTS {
        match refusal(alloc, Fault::Unavailable, true) {
            Ok(text) => client.answer(text),
            Err(_) => client.end(),
        }
    }
    let _ = clients.push(client);
    true
}

// The place of a client that is over, if there is one.
fn place_over(clients: &[Client]) -> Option<usize>
    ensures { IfSome result (λ place. place < length clients.now) }
{
    for (place, client) in clients.iter().enumerate() {
        if client.stage() == Stage::Over {
            return Some(place);
        }
    }
    None
}

// Takes away the clients that are over.
fn forget(clients: &mut Vec<Client>) {
    for _ in 0..MOST_CONNECTIONS {
        match place_over(clients) {
            Some(place) => drop(clients.swap_remove(place)),
            None => return,
        }
    }
}

// Moves what can be moved now, and returns whether anything was.
fn move_all<R: Wait + Clock, S: Watched<R>>(
    rt: &R,
    alloc: Global,
    listener: &TcpListener,
    watched: &S,
    clients: &mut Vec<Client>,
    now: u64,
) -> bool {
    let mut is_moved = accept(alloc, listener, clients, now);
    for client in clients.iter_mut() {
        is_moved |= turn(rt, alloc, watched, client, now);
    }
    forget(clients);
    is_moved
}

/// Serves what is watched to clients of a listener, while statements are served. It changes nothing of what is watched.
pub fn serve_status<R: Wait + Clock, S: Watched<R>>(
    rt: &R,
    alloc: Global,
    listener: &TcpListener,
    watched: &S,
) {
    let _ = listener.set_nonblocking(true);
    let start = Instant::now(rt).ok();
    let mut clients = Vec::new(alloc);
    for _ in rt.forever() {
        if !watched.is_serving() {
            return;
        }
        let now = millis_since(rt, start);
        if !move_all(rt, alloc, listener, watched, &mut clients, now) {
            let pause = if clients.is_empty() {
                BETWEEN_LOOKS
            } else {
                BETWEEN_MOVES
            };
            let _ = thread::sleep(rt, Duration::from_millis(pause));
        }
    }
    unreachable!()
}
