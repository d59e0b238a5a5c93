//! Two workers over loopback sockets, in one process.
ghost use denote.Param.Send.{IsSync};
ghost use Rattle.std.specs.Prelude.{◌≡◌, IsTrue, IfSome};
ghost use Rattle.std.specs.List.{AllByRecursion};
ghost use Rattle.keyrange.specs.Names.{IsNamed};
ghost use Rattle.vschema.specs.WellFormed.{is_vschema};
ghost use Rattle.vtgate_serve.specs.Entries.{most_limits};
ghost use Rattle.shard_run.specs.opening.Empty.{opening_of, FitRanges};

use crate::passwords::{ASKED_WITH_PASSWORD, try_passwords};
use journal::{Naming, Opened};
use keyrange::KeyRange;
use log::sink::Discard;
use log::{LevelFilter, Logged};
use shard_run::opening::ranges_fit;
use std::alloc::Global;
use std::io::{Read, Write};
use std::marker::Brand;
use std::net::{Net, SocketAddr, TcpListener, TcpStream};
use std::sync::Wait;
use std::sync::atomic::{AtomicU64, Ordering};
use std::thread::{Threads, join};
use std::time::Clock;
use std::{io, thread};
use test_fields::Unanswered;
use vschema::VSchema;
use vt_value::Refusal;
use vtgate_serve::setup::ServeArgs;
use vtgate_serve::{
    BoundPort, Gate, Ports, ServeConfig, ShardLaw, World, Writer, config_of, serve_opened,
};

/// The sharded keyspace `shop` with the table t.
const SHOP: &str =
    r#"{"keyspaces":{"shop":{"sharded":true,"vindexes":{"rev":{"type":"reverse_bits"}},"tables":{"t":{"columns":[{"name":"id","type":"BIGINT UNSIGNED"},{"name":"c","type":"BIGINT UNSIGNED","null":true}],"primary_key":["id"],"column_vindexes":[{"column":"id","name":"rev"}]}}}}}"#;

/// How often a gate looks whether it may let a read go.
const TURNS: u32 = 1_000_000;

/// What a gate and a test tell one another.
#[derive(Drop)]
struct Signals {
    /// A read of turn 0 is held.
    held: AtomicU64,
    /// It may go on.
    let_go: AtomicU64,
    /// It went on without that.
    in_vain: AtomicU64,
}

fn is_given(signal: &AtomicU64) -> bool {
    signal.load(Ordering::SeqCst) > 0
}

fn give(signal: &AtomicU64) {
    signal.store(1, Ordering::SeqCst);
}

// Waits for a signal, at most so many turns.
fn wait_for(signal: &AtomicU64) -> bool {
    for _ in 0..TURNS {
        if is_given(signal) {
            return true;
        }
        thread::yield_now();
    }
    false
}

/// Holds the first read of turn 0 until it is let go.
#[derive(Drop)]
struct HoldsFirst<'s> {
    signals: &'s Signals,
}

impl Gate for HoldsFirst<'_> {
    fn before(&self, turn: usize) {
        if turn == 0 && !is_given(&self.signals.held) {
            give(&self.signals.held);
            if !wait_for(&self.signals.let_go) {
                give(&self.signals.in_vain);
            }
        }
    }

    fn after(&self, _turn: usize) {}

    // Each read is made in a thread of its own, all at once.
    fn few_rows(&self) -> usize {
        0
    }

    fn most_at_once(&self, _processors: usize) -> usize {
        usize::MAX
    }
}

/// The response of the user u, without a password.
const RESPONSE: &[u8] =
    b"\x23\x00\x00\x01\x00\x82\x00\x00\x00\x00\x00\x00\x00\x00\x00\x00\x00\x00\x00\x00\x00\x00\x00\x00\x00\x00\x00\x00\x00\x00\x00\x00\x00\x00\x00\x00u\x00\x00";

const ONE_CHANGED: [u8; 11] = *b"\x07\x00\x00\x01\x00\x01\x00\x02\x00\x00\x00";

/// What comes before the rows of the column id.
const COLUMN: &[u8] = b"\x01\x00\x00\x01\x01\
    \x20\x00\x00\x02\x03def\x04shop\x01t\x01t\x02id\x02id\x0c\x3f\x00\x14\x00\x00\x00\x08\xa3\x00\x00\x00\x00\
    \x05\x00\x00\x03\xfe\x00\x00\x02\x00";

const ONE_ROW: &[u8] = b"\x02\x00\x00\x04\x011\x05\x00\x00\x05\xfe\x00\x00\x02\x00";

const TWO_ROWS: &[u8] =
    b"\x02\x00\x00\x04\x011\x02\x00\x00\x05\x012\x05\x00\x00\x06\xfe\x00\x00\x02\x00";

// Reads these bytes. `None` if others came.
pub(crate) fn expect(mut stream: &TcpStream, bytes: &[u8]) -> Option<()> {
    for byte in bytes {
        let mut read = [0u8; 1];
        stream.read_exact(&mut read).ok()?;
        let [found] = read;
        if found != *byte {
            return None;
        }
    }
    Some(())
}

fn query(mut stream: &TcpStream, text: &[u8]) -> Option<()> {
    let len = (text.len() % 255) as u8;
    stream.write_all(&[len.wrapping_add(1), 0, 0, 0, 3]).ok()?;
    stream.write_all(text).ok()?;
    Some(())
}

// Reads the greeting of the connection with the number, and gives what follows the number.
pub(crate) fn greeted(mut stream: &TcpStream, number: u8) -> Option<[u8; 62]> {
    expect(stream, b"\x50\x00\x00\x00\x0a8.0.0-router\x00")?;
    expect(stream, &[number, 0, 0, 0])?;
    let mut rest = [0u8; 62];
    stream.read_exact(&mut rest).ok()?;
    Some(rest)
}

/// The OK that lets a client in.
pub(crate) const LET_IN: &[u8] = b"\x07\x00\x00\x02\x00\x00\x00\x02\x00\x00\x00";

// Reads the greeting of the connection with the number, and logs in.
fn log_in(mut stream: &TcpStream, number: u8) -> Option<[u8; 62]> {
    let rest = greeted(stream, number)?;
    stream.write_all(RESPONSE).ok()?;
    expect(stream, LET_IN)?;
    Some(rest)
}

fn expect_rows(stream: &TcpStream, rows: &[u8]) -> Option<()> {
    expect(stream, COLUMN)?;
    expect(stream, rows)
}

fn insert(stream: &TcpStream, text: &[u8]) -> Option<()> {
    query(stream, text)?;
    expect(stream, &ONE_CHANGED)
}

fn put_two(stream: &TcpStream) -> Option<()> {
    insert(stream, b"INSERT INTO t (id) VALUES (1)")?;
    insert(stream, b"INSERT INTO t (id) VALUES (2)")
}

fn find_one(stream: &TcpStream) -> Option<()> {
    query(stream, b"SELECT id FROM t WHERE id = 1")?;
    expect_rows(stream, ONE_ROW)
}

fn converse(one: &TcpStream, other: &TcpStream, signals: &Signals) -> Option<()> {
    put_two(one)?;
    query(one, b"SELECT id FROM t ORDER BY id")?;
    if !wait_for(&signals.held) {
        return None;
    }
    find_one(other)?;
    give(&signals.let_go);
    expect_rows(one, TWO_ROWS)?;
    if is_given(&signals.in_vain) {
        return None;
    }
    Some(())
}

fn ask_admin(mut stream: &TcpStream) -> Option<()> {
    stream.write_all(b"status\nsteps\n").ok()?;
    expect(stream, b"serving -80 80- none\nunknown\n")
}

// What two clients and one of the admin port are answered, once all are connected.
fn talk(one: &TcpStream, other: &TcpStream, third: &TcpStream, signals: &Signals) -> Option<()> {
    let first_salt = log_in(one, 1)?;
    let second_salt = log_in(other, 2)?;
    if first_salt == second_salt {
        return None;
    }
    converse(one, other, signals)?;
    ask_admin(third)
}

/// Where the ports are.
#[derive(Clone, Copy)]
pub(crate) struct Addresses {
    pub(crate) clients: SocketAddr,
    admin: SocketAddr,
}

/// What the clients do.
#[derive(Clone, Copy)]
enum Scene {
    /// One scatters while its read is held, and another goes on.
    HeldScatter,
    /// They log in with right and wrong passwords.
    Passwords,
}

fn addresses_of(ports: &Ports<'_>) -> io::Result<Addresses> {
    let clients = ports.clients.listener().local_addr()?;
    let admin = ports.admin.listener().local_addr()?;
    Ok(Addresses { clients, admin })
}

// Two clients and one of the admin port. They connect first, so that the server sees as many as it awaits.
fn scatter<R: Net<Listener = TcpListener, Stream = TcpStream>>(
    rt: &R,
    addresses: Addresses,
    signals: &Signals,
) -> Option<()> {
    let one = TcpStream::connect(rt, addresses.clients).ok()?;
    let other = TcpStream::connect(rt, addresses.clients).ok()?;
    let third = TcpStream::connect(rt, addresses.admin).ok()?;
    talk(&one, &other, &third, signals)
}

fn be_clients<R: Net<Listener = TcpListener, Stream = TcpStream>>(
    rt: &R,
    addresses: Addresses,
    signals: &Signals,
    scene: Scene,
) -> Option<()> {
    match scene {
        Scene::HeldScatter => scatter(rt, addresses, signals),
        Scene::Passwords => try_passwords(rt, addresses),
    }
}

fn bind_ports<R: Net<Listener = TcpListener, Stream = TcpStream>>(
    rt: &R,
) -> io::Result<Ports<'static>> {
    let clients = BoundPort::bind(rt, "127.0.0.1:0")?;
    let admin = BoundPort::bind(rt, "127.0.0.1:0")?;
    Ok(Ports { clients, admin })
}

const ASKED: ServeArgs<'static> = ServeArgs {
    shards: "-80,80-",
    address: "",
    admin: "",
    workers: 2,
    buffer: 1,
    connections: 2,
    user: b"u",
    stage2: None,
    nonce: b"n",
};

// Serves two connections, and returns whether that went well, with what was answered.
fn is_served<W: World + Send + Sync, J: Naming + Send + Sync, R: Threads + Wait + Sync + Clock>(
    rt: &R,
    alloc: Global,
    schema: VSchema,
    ranges: &[KeyRange],
    opened: Opened<ShardLaw<W>>,
    gate: HoldsFirst<'_>,
    config: &ServeConfig<'_>,
) -> bool
    requires name { opened ≡ J.table }
    requires opening { W.opening ≡ opening_of schema ranges.now }
    requires limits { W.limits ≡ most_limits }
    requires schema { IsTrue (is_vschema schema) }
    requires ranges { FitRanges schema ranges.now }
{
    let mut output = Writer::new(Vec::new(alloc));
    let quiet = Logged::new(rt, LevelFilter::Off, Discard);
    let served = serve_opened::<W, J, HoldsFirst<'_>, Logged<&R, Discard>, Writer<Vec<u8>>>(
        &quiet,
        alloc,
        schema,
        ranges,
        opened,
        gate,
        config,
        &mut output,
    );
    served.is_ok() && output.writer.as_slice() == b"listening\n".as_slice()
}

fn serve_two<
    W: World + Send + Sync,
    J: Naming + Send + Sync,
    R: Threads + Wait + Sync + Clock + Net<Listener = TcpListener, Stream = TcpStream>,
>(
    rt: &R,
    alloc: Global,
    schema: VSchema,
    ranges: &[KeyRange],
    opened: Opened<ShardLaw<W>>,
    config: &ServeConfig<'_>,
    addresses: Addresses,
    scene: Scene,
) -> bool
    requires name { opened ≡ J.table }
    requires opening { W.opening ≡ opening_of schema ranges.now }
    requires limits { W.limits ≡ most_limits }
    requires schema { IsTrue (is_vschema schema) }
    requires ranges { FitRanges schema ranges.now }
{
    let signals = Signals {
        held: AtomicU64::new(0),
        let_go: AtomicU64::new(0),
        in_vain: AtomicU64::new(0),
    };
    let told = &signals;
    let (talked, is_served) = join(
        rt,
        move || be_clients(rt, addresses, told, scene).is_some(),
        move || -> bool
            requires { IsSync R.row × (opened ≡ J.table) × (W.opening ≡ opening_of schema ranges.now) × (W.limits ≡ most_limits) × IsTrue (is_vschema schema) × FitRanges schema ranges.now }
        {
            let gate = HoldsFirst { signals: told };
            is_served::<W, J, R>(rt, alloc, schema, ranges, opened, gate, config)
        },
    );
    talked && is_served
}

fn serve_in_world<
    W: World + Send + Sync,
    R: Threads + Wait + Sync + Clock + Net<Listener = TcpListener, Stream = TcpStream>,
>(
    rt: &R,
    alloc: Global,
    schema: VSchema,
    ranges: &[KeyRange],
    config: &ServeConfig<'_>,
    addresses: Addresses,
    scene: Scene,
) -> Result<bool, Refusal>
    requires opening { W.opening ≡ opening_of schema ranges.now }
    requires limits { W.limits ≡ most_limits }
    requires schema { IsTrue (is_vschema schema) }
    requires ranges { FitRanges schema ranges.now }
{
    let opened = Opened::<ShardLaw<W>>::new(alloc)?;
    Ok(serve_two::<W, Brand, R>(rt, alloc, schema, ranges, opened, config, addresses, scene))
}

fn halves() -> Option<[KeyRange; 2]>
    ensures { IfSome result (λ ranges. AllByRecursion IsNamed ranges) }
{
    let low = KeyRange::read("-80")?;
    let high = KeyRange::read("80-")?;
    Some([low, high])
}

// Whether the keyspace is served over the ranges.
fn serve_shop<R: Threads + Wait + Sync + Clock + Net<Listener = TcpListener, Stream = TcpStream>>(
    rt: &R,
    alloc: Global,
    ranges: &[KeyRange],
    config: &ServeConfig<'_>,
    scene: Scene,
) -> Result<bool, Unanswered>
    requires { AllByRecursion IsNamed ranges.now }
{
    let Ok(addresses) = addresses_of(&config.ports) else {
        return Ok(false);
    };
    let Ok(schema) = VSchema::read(alloc, SHOP) else {
        return Ok(false);
    };
    if !ranges_fit(alloc, &schema, ranges)? {
        return Ok(false);
    }
    Ok(serve_in_world::<Brand, R>(rt, alloc, schema, ranges, config, addresses, scene)?)
}

fn new_setting<'s, R: Net<Listener = TcpListener, Stream = TcpStream>>(
    rt: &R,
    alloc: Global,
    asked: &'s ServeArgs<'s>,
) -> Option<ServeConfig<'s>> {
    match config_of(alloc, asked, bind_ports(rt).ok()?) {
        Ok(config) => Some(config),
        Err(_) => None,
    }
}

// Whether a scene goes as it is to go, if the server is asked for this.
fn is_played<R: Threads + Wait + Sync + Clock + Net<Listener = TcpListener, Stream = TcpStream>>(
    rt: &R,
    alloc: Global,
    asked: &ServeArgs<'_>,
    scene: Scene,
) -> Result<bool, Unanswered> {
    let Some(ranges) = halves() else {
        return Ok(false);
    };
    let Some(config) = new_setting(rt, alloc, asked) else {
        return Ok(false);
    };
    serve_shop(rt, alloc, &ranges, &config, scene)
}

/// Whether a scatter of one connection that is held holds no other connection, while two workers serve both and the admin port.
pub(crate) fn serves_beside_a_held_scatter<
    R: Threads + Wait + Sync + Clock + Net<Listener = TcpListener, Stream = TcpStream>,
>(rt: &R, alloc: Global) -> Result<bool, Unanswered> {
    is_played(rt, alloc, &ASKED, Scene::HeldScatter)
}

/// Whether a server lets in a client with the right password and none with another, greets each by the salt of its number, and ends after the
/// third.
pub(crate) fn asks_for_the_password<
    R: Threads + Wait + Sync + Clock + Net<Listener = TcpListener, Stream = TcpStream>,
>(rt: &R, alloc: Global) -> Result<bool, Unanswered> {
    is_played(rt, alloc, &ASKED_WITH_PASSWORD, Scene::Passwords)
}
