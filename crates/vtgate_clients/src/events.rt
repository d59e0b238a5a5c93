//! What a server logs: each event is a record, with its fields.

use crate::cutover::Times;
use crate::setup::{RunFault, ServeArgs};
use connection_workers::NotRun;
use keyrange::KeyRange;
use log::kv::{Primitive, Source, Value, VisitSource};
use log::{Level, Log, Metadata, Record, error, info, kv, warn};
use program_log::places::Place;
use program_log::traffic::{Answered, Incoming, Outgoing};
use session::{End, SessionFault};
use shard::{MOST_ROWS, MOST_STORED};
use std::fmt::Display;
use std::net::SocketAddr;
use std::time::{Clock, Duration, Instant};
use std::{fmt, str};

/// The version of the program.
const VERSION: &str = "unreleased";

/// Shows a time in seconds, with milliseconds.
#[derive(Clone, Copy)]
pub struct Seconds {
    time: Duration,
}

impl Display for Seconds {
    fn fmt<W: fmt::Write>(&self, f: &mut fmt::Formatter<W>) -> fmt::Result {
        let seconds = self.time.as_secs();
        let millis = self.time.subsec_millis();
        write!(f, "{seconds}.{millis:03}")
    }
}

impl Seconds {
    /// Whether it is at least so many seconds.
    pub fn is_at_least(self, seconds: u64) -> bool {
        self.time.as_secs() >= seconds
    }
}

/// How long ago that was; no time if the clock can't be read.
pub fn time_since<R: Clock>(rt: &R, start: Option<Instant>) -> Duration {
    match start {
        Some(start) => start.elapsed(rt).unwrap_or(Duration::ZERO),
        None => Duration::ZERO,
    }
}

/// The same in seconds.
pub fn since<R: Clock>(rt: &R, start: Option<Instant>) -> Seconds {
    Seconds {
        time: time_since(rt, start),
    }
}

/// Shows a time in seconds, with microseconds; `none` if there is no time.
#[derive(Clone, Copy)]
struct Moment {
    time: Option<Duration>,
}

impl Display for Moment {
    fn fmt<W: fmt::Write>(&self, f: &mut fmt::Formatter<W>) -> fmt::Result {
        let Some(time) = self.time else {
            return f.write_str("none");
        };
        let seconds = time.as_secs();
        let micros = time.subsec_micros();
        write!(f, "{seconds}.{micros:06}")
    }
}

/// Shows a refusal by its number, as `F12`; `none` if there is none.
#[derive(Clone, Copy)]
struct RefusalName {
    number: u8,
}

impl Display for RefusalName {
    fn fmt<W: fmt::Write>(&self, f: &mut fmt::Formatter<W>) -> fmt::Result {
        if self.number == 0 {
            return f.write_str("none");
        }
        let number = self.number;
        write!(f, "F{number}")
    }
}

fn put_text<V: VisitSource>(visitor: &mut V, key: &str, text: &str) -> Result<(), kv::Error> {
    visitor.visit_pair::<Primitive>(key, Value::Str(text))
}

fn put_number<V: VisitSource>(visitor: &mut V, key: &str, number: u64) -> Result<(), kv::Error> {
    visitor.visit_pair::<Primitive>(key, Value::U64(number))
}

fn put_shown<V: VisitSource, D: Display>(
    visitor: &mut V,
    key: &str,
    shown: &D,
) -> Result<(), kv::Error> {
    visitor.visit_pair(key, Value::Display(shown))
}

// Logs an event that has these fields, if that is asked for.
fn tell<R: Log, K: Source>(rt: &R, level: Level, event: &str, fields: &K) {
    let metadata = Metadata::new(level, "");
    if rt.enabled(&metadata) {
        rt.log(&Record::new(metadata, event, fields, ()));
    }
}

/// What is logged once clients can connect: the words, the number of tables, and the limits of a shard.
#[derive(Clone, Copy)]
pub struct Start<'a> {
    pub asked: &'a ServeArgs<'a>,
    pub tables: u64,
    pub rows: u64,
    pub entries: u64,
}

impl Source for Start<'_> {
    fn visit<V: VisitSource>(&self, visitor: &mut V) -> Result<(), kv::Error> {
        let asked = self.asked;
        put_text(visitor, "version", VERSION)?;
        put_text(visitor, "address", asked.address)?;
        put_text(visitor, "admin", asked.admin)?;
        put_number(visitor, "workers", u64::from(asked.workers))?;
        put_number(visitor, "buffer", u64::from(asked.buffer))?;
        put_number(visitor, "connections", u64::from(asked.connections))?;
        put_text(visitor, "ranges", asked.shards)?;
        put_number(visitor, "tables", self.tables)?;
        put_number(visitor, "rows", self.rows)?;
        put_number(visitor, "entries", self.entries)
    }
}

/// Clients can connect.
pub fn started<R: Log>(rt: &R, start: Start<'_>) {
    tell(rt, Level::Info, "start", &start);
}

/// The last connection was served.
pub fn ended_all<R: Log>(rt: &R, connections: u32) {
    info!(rt; by = "connections", connections = connections; "end");
}

/// No connection can be served.
pub fn not_run<R: Log>(rt: &R, why: &NotRun) {
    let why = match why {
        NotRun::OutOfMemory => "memory",
        NotRun::NoThread => "thread",
    };
    error!(rt; by = why, connections = 0u32; "end");
}

/// Which fault a VSchema has, and where it lies.
#[derive(Clone, Copy)]
struct FaultPlace<'p> {
    number: u8,
    place: &'p Place,
}

impl Source for FaultPlace<'_> {
    fn visit<V: VisitSource>(&self, visitor: &mut V) -> Result<(), kv::Error> {
        let place = self.place;
        put_number(visitor, "number", u64::from(self.number))?;
        put_text(visitor, "keyspace", place.keyspace.as_str())?;
        put_text(visitor, "table", place.table.as_str())?;
        put_text(visitor, "member", place.member.as_str())?;
        put_number(visitor, "line", place.line)?;
        put_number(visitor, "column", place.column)
    }
}

/// A VSchema has a fault.
pub fn faulty<R: Log>(rt: &R, number: u8, place: &Place) {
    let fields = FaultPlace { number, place };
    tell(rt, Level::Error, "vschema", &fields);
}

/// It didn't start.
pub fn failed<R: Log>(rt: &R, fault: &RunFault) {
    match fault {
        // The fault was logged, with where it lies.
        RunFault::Schema(_) => {}
        RunFault::WrongWords => error!(rt; why = "words"; "failed"),
        RunFault::OutOfMemory => error!(rt; why = "memory"; "failed"),
        RunFault::CannotBind => {}
        _ => error!(rt; why = "device"; "failed"),
    }
}

/// A port can't be bound.
pub fn unbound<R: Log, E: Display>(rt: &R, port: &'static str, address: &str, reason: &E) {
    error!(rt; port = port, address = address, reason:% = reason; "bind");
}

/// The queue of connections is full, since no worker comes to taking them: the one that was accepted waits until it isn't.
pub fn queue_full<R: Log>(rt: &R, waiting: u64) {
    warn!(rt; waiting = waiting; "queue_full");
}

/// The queue of connections has room again.
pub fn queue_free<R: Log>(rt: &R, full: Seconds) {
    info!(rt; seconds:% = full; "queue_free");
}

/// There are as many connections as there may be: the next one is refused.
pub fn connections_full<R: Log>(rt: &R, connections: u64) {
    warn!(rt; connections = connections; "connections_full");
}

/// There is room for connections again.
pub fn connections_free<R: Log>(rt: &R, full: Seconds) {
    info!(rt; seconds:% = full; "connections_free");
}

/// As many statements may wait for a cutover as there are workers, which can hold up all others.
pub fn workers_may_wait<R: Log>(rt: &R, workers: u32, buffer: u32) {
    warn!(rt; workers = workers, buffer = buffer; "workers_may_wait");
}

/// An admin line was answered, while so many statements waited for a cutover.
pub fn administered<R: Log>(rt: &R, words: &[u8], answer: &[u8], waiting: u64, time: Seconds) {
    let line = str::from_utf8(words).unwrap_or("");
    let answer = str::from_utf8(answer).unwrap_or("").trim_end();
    info!(rt; line = line, answer = answer, waiting = waiting, seconds:% = time; "admin");
}

/// Sources froze before their targets are level: so many targets have rows left to copy, and so many entries are followed, while writes wait.
pub fn not_level<R: Log>(rt: &R, copying: u64, entries: u64) {
    warn!(rt; copying = copying, entries = entries; "not_level");
}

impl Source for Times {
    fn visit<V: VisitSource>(&self, visitor: &mut V) -> Result<(), kv::Error> {
        let longest = Some(self.longest());
        put_shown(visitor, "froze", &Moment { time: self.froze })?;
        put_shown(visitor, "retired", &Moment { time: self.retired })?;
        put_shown(
            visitor,
            "published",
            &Moment {
                time: self.published,
            },
        )?;
        put_shown(
            visitor,
            "released",
            &Moment {
                time: self.released,
            },
        )?;
        put_number(visitor, "waited", self.waited)?;
        put_shown(visitor, "longest", &Moment { time: longest })
    }
}

/// A cutover came.
pub fn cut_over<R: Log>(rt: &R, times: Times) {
    tell(rt, Level::Info, "cutover", &times);
}

/// What is logged of statements that came at once, and were answered.
#[derive(Clone, Copy)]
pub struct Statement<'p> {
    pub connection: u32,
    pub together: u64,
    pub plan: &'p str,
    pub answered: Answered,
    pub time: Duration,
}

impl Source for Statement<'_> {
    fn visit<V: VisitSource>(&self, visitor: &mut V) -> Result<(), kv::Error> {
        let (route, shards) = self.plan.split_once(':').unwrap_or((self.plan, ""));
        let refused = RefusalName {
            number: self.answered.refusal,
        };
        put_number(visitor, "connection", u64::from(self.connection))?;
        put_text(visitor, "route", route)?;
        put_text(visitor, "shards", shards.trim())?;
        put_number(visitor, "rows", self.answered.rows)?;
        put_shown(visitor, "refused", &refused)?;
        put_number(visitor, "together", self.together)?;
        put_number(visitor, "micros", micros_of(self.time))
    }
}

// How many whole microseconds a time has.
fn micros_of(time: Duration) -> u64 {
    let seconds = time.as_secs().saturating_mul(1_000_000);
    seconds.saturating_add(u64::from(time.subsec_micros()))
}

/// A statement was answered.
pub fn executed<R: Log>(rt: &R, executed: Statement<'_>) {
    tell(rt, Level::Debug, "statement", &executed);
}

/// By which end a connection has ended.
fn end_word(served: &Result<End, SessionFault>, is_silent: bool) -> &'static str {
    match served {
        Ok(End::Quit) => "quit",
        Ok(End::Closed) => "closed",
        Ok(End::Truncated) => "truncated",
        Ok(End::Broken) => "broken",
        Ok(End::Denied) => "denied",
        Err(SessionFault::Read) => { if is_silent { "silent" } else { "unread" } }
        Err(SessionFault::Write) => "unwritten",
        Err(SessionFault::Memory) => "memory",
    }
}

/// What is logged of a connection once it has ended.
#[derive(Clone, Copy)]
pub struct Passed<'p> {
    pub number: u32,
    pub peer: SocketAddr,
    pub served: &'p Result<End, SessionFault>,
    pub incoming: &'p Incoming,
    pub outgoing: &'p Outgoing,
    /// How long the client had said nothing if that ended it.
    pub silence: Option<Duration>,
    pub time: Seconds,
}

// Puts a client's bytes; `?` if they aren't UTF-8.
fn put_bytes<V: VisitSource>(visitor: &mut V, key: &str, bytes: &[u8]) -> Result<(), kv::Error> {
    put_text(visitor, key, str::from_utf8(bytes).unwrap_or("?"))
}

// Puts the user as whom a client logged in, and the database, as far as it gave them.
fn put_login<V: VisitSource>(visitor: &mut V, incoming: &Incoming) -> Result<(), kv::Error> {
    let Some(response) = incoming.response() else {
        put_text(visitor, "user", "")?;
        return put_text(visitor, "database", "");
    };
    put_bytes(visitor, "user", response.user)?;
    put_bytes(visitor, "database", response.database.unwrap_or(b""))
}

impl Source for Passed<'_> {
    fn visit<V: VisitSource>(&self, visitor: &mut V) -> Result<(), kv::Error> {
        let incoming = self.incoming;
        let outgoing = self.outgoing;
        put_number(visitor, "number", u64::from(self.number))?;
        put_shown(visitor, "peer", &self.peer)?;
        put_login(visitor, incoming)?;
        let is_silent = self.silence.is_some();
        put_text(visitor, "end", end_word(self.served, is_silent))?;
        put_number(visitor, "denied", outgoing.denied())?;
        put_number(visitor, "statements", incoming.statements())?;
        put_shown(visitor, "refused", outgoing.refused())?;
        put_number(visitor, "received", incoming.received())?;
        put_number(visitor, "sent", outgoing.sent())?;
        put_shown(
            visitor,
            "silent",
            &Seconds {
                time: self.silence.unwrap_or(Duration::ZERO),
            },
        )?;
        put_shown(visitor, "seconds", &self.time)
    }
}

/// A connection has ended.
pub fn ended<R: Log>(rt: &R, passed: Passed<'_>) {
    tell(rt, Level::Info, "connection", &passed);
}

/// What a shard holds that serves.
#[derive(Clone, Copy)]
pub struct Held<'a> {
    pub keyspace: &'a [u8],
    pub range: KeyRange,
    pub slot: usize,
    pub is_frozen: bool,
    pub rows: u64,
    pub entries: u64,
}

// What a shard does that serves.
fn mode_word(is_frozen: bool) -> &'static str {
    if is_frozen { "frozen" } else { "serving" }
}

impl Source for Held<'_> {
    fn visit<V: VisitSource>(&self, visitor: &mut V) -> Result<(), kv::Error> {
        put_bytes(visitor, "keyspace", self.keyspace)?;
        put_shown(visitor, "range", &self.range)?;
        put_number(visitor, "slot", self.slot as u64)?;
        put_text(visitor, "mode", mode_word(self.is_frozen))?;
        put_number(visitor, "rows", self.rows)?;
        put_number(visitor, "rows_left", MOST_ROWS.saturating_sub(self.rows))?;
        put_number(visitor, "entries", self.entries)?;
        put_number(
            visitor,
            "entries_left",
            MOST_STORED.saturating_sub(self.entries),
        )
    }
}

/// A shard holds this.
pub fn holds<R: Log>(rt: &R, held: &Held<'_>) {
    tell(rt, Level::Info, "shard", held);
}

/// A shard has little left of a limit.
pub fn nearly_full<R: Log>(rt: &R, held: &Held<'_>) {
    tell(rt, Level::Warn, "shard_filling", held);
}
