//! The admin port.
ghost use Rattle.std.specs.Prelude.{◌≡◌};
ghost use Rattle.std.specs.Io.{ReadsAtMost, WritesAtMost};
ghost use Rattle.std.specs.Io.KnownBytes.{ReadConsumes, WriteAppends};
ghost use Rattle.shard_run.specs.opening.Empty.{sharded_keyspace};
ghost use Rattle.admin.specs.AdminAnswers.{keyspace_of};

use crate::admin_client::talk;
use admin::{Administrator, Gate};
use buffer::Buffer;
use journal::Naming;
use log::Log;
use std::io::{ErrorKind, Read, Write};
use std::net::{TcpListener, TcpStream};
use std::sync::{Mutex, Wait};
use std::time::{Clock, Duration};
use std::{io, thread};
use vtgate_clients::{Reader, ServeProgress, Server, ShardPass, World, Writer, is_passing};

/// How long it sleeps between two looks for a client, in milliseconds.
const BETWEEN_LOOKS: u64 = 20;

/// How long a read or a write waits between two looks whether all is served, in milliseconds.
const BETWEEN_TRIES: u64 = 20;

/// How many such reads in turn may give nothing: ten minutes.
const SILENT_READS: u32 = 30_000;

/// How many such writes of an answer may move nothing: a minute.
const STUCK_WRITES: u32 = 3000;

/// The word of the line that takes all steps of a cutover.
const SWITCH: &[u8] = b"switch";

/// What the clients of the admin port are served over, and who comes next.
#[derive(Drop)]
struct Port<'s, R> {
    rt: &'s R,
    buffer: &'s Buffer,
    progress: &'s ServeProgress,
    listener: &'s TcpListener,
    /// A client that was accepted while another one was served.
    next: Mutex<Option<TcpStream>>,
}

impl<R: Wait> Port<'_, R> {
    // Whether another client is there. It is accepted, and is served next.
    fn has_next(&self) -> bool {
        match self.listener.accept() {
            Ok((stream, _)) => {
                *self.next.lock(self.rt) = Some(stream);
                true
            }
            Err(_) => false,
        }
    }

    // Whether a client that moves nothing leaves: statements wait for a cutover, and another client is there, which may end it, and can't be
    // served before this one has left.
    fn gives_way(&self) -> bool {
        self.buffer.waiting(self.rt) > 0 && self.has_next()
    }

    // The next client, if one is there.
    fn next(&self) -> Option<TcpStream> {
        let waiting = self.next.lock(self.rt).take();
        if let Some(stream) = waiting {
            return Some(stream);
        }
        match self.listener.accept() {
            Ok((stream, _)) => Some(stream),
            Err(_) => None,
        }
    }
}

/// The stream of a client of the admin port, which is waited for until all is served.
#[derive(Drop)]
struct Waiting<'s, R, S> {
    port: &'s Port<'s, R>,
    stream: S,
}

// The client isn't waited for any longer.
fn given_up() -> io::Error {
    io::Error::from(ErrorKind::TimedOut)
}

// Reads, unless all is served, the client says nothing for too long, or it gives way.
#[tactic(auto, using(crate::proofs::Streaming::kept_on, crate::proofs::Streaming::kept_read))]
fn read_until<R: Wait, S: Read>(
    port: &Port<'_, R>,
    stream: &mut S,
    buffer: &mut [u8],
) -> io::Result<usize>
    ensures bound { ReadsAtMost result buffer.new }
    ensures bytes { ReadConsumes (S.remaining stream.old) (S.remaining stream.new) result buffer.new }
{
    for _ in 0..SILENT_READS {
        if !port.progress.is_under_way() {
            return Err(given_up());
        }
        match stream.read(buffer) {
            Ok(n) => return Ok(n),
            Err(error) => {
                if !is_passing(error.kind()) || port.gives_way() {
                    return Err(given_up());
                }
            }
        }
    }
    Err(given_up())
}

impl<R: Wait + Clock, S: Read> Read for Waiting<'_, R, S> {
    ghost remaining = { λ w. S.remaining w.stream };

    fn read(&mut self, buffer: &mut [u8]) -> io::Result<usize> {
        let progress = self.port.progress;
        progress.end_switch();
        let n = read_until(self.port, &mut self.stream, buffer)?;
        if buffer[..n].starts_with(SWITCH) {
            progress.begin_switch(self.port.rt);
        }
        Ok(n)
    }
}

// Writes some of the bytes, unless all is served, the client takes nothing for too long, or it gives way, and returns how many.
#[tactic(auto, using(crate::proofs::Streaming::kept_on, crate::proofs::Streaming::kept_write))]
fn write_some<R: Wait, S: Write>(
    port: &Port<'_, R>,
    stream: &mut S,
    bytes: &[u8],
) -> io::Result<usize>
    ensures bound { WritesAtMost result bytes.now }
    ensures bytes { WriteAppends (S.contents stream.old) (S.contents stream.new) result bytes.now }
{
    for _ in 0..STUCK_WRITES {
        match stream.write(bytes) {
            Ok(n) => return Ok(n),
            Err(error) => {
                if !is_passing(error.kind()) || port.gives_way() {
                    return Err(given_up());
                }
            }
        }
        if !port.progress.is_under_way() {
            return Err(given_up());
        }
    }
    Err(given_up())
}

impl<R: Wait, S: Write> Write for Waiting<'_, R, S> {
    ghost contents = { λ w. S.contents w.stream };

    fn write(&mut self, bytes: &[u8]) -> io::Result<usize> {
        self.port.progress.end_switch();
        write_some(self.port, &mut self.stream, bytes)
    }

    fn flush(&mut self) -> io::Result<()> {
        Ok(())
    }
}

// Answers the lines of one client, until it leaves or all is served.
fn serve_one<W: World + Send + Sync, J: Naming + Send + Sync, G: Gate, R: Wait + Clock + Log>(
    server: &Server<'_, W, J, G, R>,
    administrator: &mut Administrator<W, J>,
    pass: &mut ShardPass<W, J>,
    port: &Port<'_, R>,
    stream: &TcpStream,
)
    requires home { keyspace_of administrator.old ≡ sharded_keyspace server.now.engine.now }
    ensures keyspace { keyspace_of administrator.new ≡ keyspace_of administrator.old }
{
    let patience = Duration::from_millis(BETWEEN_TRIES);
    let _ = stream.set_nodelay(true);
    let _ = stream.set_read_timeout(Some(patience));
    let _ = stream.set_write_timeout(Some(patience));
    let mut source = Reader::new(Waiting { port, stream });
    let mut sink = Writer::new(Waiting { port, stream });
    let _ = talk(
        server.rt,
        server.alloc,
        server.engine,
        administrator,
        pass,
        &mut source,
        &mut sink,
    );
    server.progress.end_switch();
}

/// Serves the clients of the admin port, one after the other, until all connections are served. The administrator is that of the engine's
/// sharded keyspace.
pub fn serve_admin<
    'x,
    W: World + Send + Sync,
    J: Naming + Send + Sync,
    G: Gate,
    R: Wait + Clock + Log,
>(
    server: &Server<'x, W, J, G, R>,
    administrator: &mut Administrator<W, J>,
    pass: &mut ShardPass<W, J>,
    listener: &'x TcpListener,
)
    requires home { keyspace_of administrator.old ≡ sharded_keyspace server.now.engine.now }
{
    let _ = listener.set_nonblocking(true);
    let port = Port {
        rt: server.rt,
        buffer: server.engine.buffer(),
        progress: server.progress,
        listener,
        next: Mutex::new(None),
    };
    for _ in server.rt.forever() {
        if !server.progress.is_under_way() {
            return;
        }
        match port.next() {
            Some(stream) => serve_one(server, administrator, pass, &port, &stream),
            None => {
                let _ = thread::sleep(server.rt, Duration::from_millis(BETWEEN_LOOKS));
            }
        }
    }
    unreachable!()
}
