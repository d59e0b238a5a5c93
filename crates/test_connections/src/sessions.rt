//! Sessions over one unsharded table of six rows, of which another session deletes the first meanwhile.
ghost use Rattle.std.specs.Prelude.{◌≡◌, None, IsSome, IsTrue, IfOk};
ghost use Rattle.keyrange.specs.Names.{IsNamed};
ghost use Rattle.vschema.specs.WellFormed.{is_vschema};
ghost use Rattle.vtgate_serve.specs.Entries.{most_limits};
ghost use Rattle.vtgate_serve.specs.Pendings.{IsOf};
ghost use Rattle.shard_run.specs.opening.Empty.{opening_of, FitRanges};

use crate::devices::InterruptedReader;
use crate::failing::{FailingSink, FailingSource};
use crate::pausing::PausingDevice;
use journal::{Naming, Opened, Opener};
use keyrange::KeyRange;
use shard_run::opening::ranges_fit;
use std::alloc::Global;
use std::marker::Brand;
use std::sync::Wait;
use std::thread::Threads;
use vschema::VSchema;
use vt_value::{Items, Refusal};
use vtgate_serve::router::{empty_router, widest_limits};
use vtgate_serve::{
    Access, Conversation, Core, End, Engine, Open, Reader, SessionFault, ShardLaw, ShardPass, Sink,
    Source, World, Writer, serve_session,
};

/// One unsharded keyspace with the table t.
const SHOP: &str =
    r#"{"keyspaces":{"shop":{"sharded":false,"tables":{"t":{"columns":[{"name":"id","type":"BIGINT UNSIGNED"},{"name":"c","type":"BIGINT UNSIGNED","null":true}],"primary_key":["id"]}}}}}"#;

/// The command that puts its six rows into it.
const ROWS: &[u8] =
    b"\x52\0\0\0\x03INSERT INTO t (id, c) VALUES (1, NULL), (2, NULL), (3, 7), (4, 7), (5, 9), (6, 1)";

/// The command that deletes the first of them.
const DELETE_FIRST: &[u8] = b"\x1b\0\0\0\x03DELETE FROM t WHERE id = 1";

/// How many bytes a large piece has.
const LARGE: usize = 1 << 20;

/// How a session begins.
#[derive(Drop)]
pub(crate) enum Beginning {
    /// In its command phase.
    Commands,
    /// With a greeting by the salt, for whom is to be let in.
    Greeting(Access, [u8; 20]),
}

/// A session that is fed with what its client sends.
#[derive(Clone, Copy)]
pub(crate) struct Fed<'a> {
    pub(crate) beginning: &'a Beginning,
    pub(crate) input: &'a [u8],
    /// Whether it comes byte by byte, or else in large pieces.
    pub(crate) is_by_bytes: bool,
}

/// What a session's devices do that another's don't.
#[derive(Clone, Copy)]
pub(crate) enum Device {
    /// The source fails once its bytes are read.
    FailingSource,
    /// The sink fails after so many writes.
    FailingSink(u32),
    /// The source is interrupted before each byte.
    InterruptedSource,
    /// The session takes turns, and waits at each byte.
    Pausing,
}

/// What a session does.
#[derive(Clone, Copy)]
pub(crate) enum Talk<'a> {
    /// It is fed.
    Fed(Fed<'a>),
    /// It serves the user u, who has no password and is greeted by twenty A, and who sends this.
    Served(Device, &'a [u8]),
}

/// How a session ends.
pub(crate) type Ended = Result<End, SessionFault>;

// The session of connection 1 that begins so.
fn core_of<W: World, J: Naming>(alloc: Global, beginning: &Beginning) -> Result<Core<W, J>, Refusal>
    ensures { IfOk result (λ core. core.tx ≡ None) }
{
    match beginning {
        Beginning::Commands => Ok(Core::commands(alloc, 1, 0)?),
        Beginning::Greeting(access, salt) => Ok(Core::new(alloc, access, salt, 1)?),
    }
}

// Feeds a session an empty piece and its input.
fn feed<W: World + Send + Sync, J: Naming + Send + Sync, R: Threads + Wait + Sync>(
    rt: &R,
    alloc: Global,
    engine: &Engine<W, J, Open>,
    pass: &mut ShardPass<W, J>,
    core: &mut Core<W, J>,
    talk: &Fed<'_>,
    sink: &mut Writer<Vec<u8>>,
) -> Ended
    requires session { IsSome pass.old.session }
    requires tx { IsOf W.opening core.old.tx pass.old }
    ensures { IsSome pass.new.session }
{
    let piece_len = if talk.is_by_bytes { 1 } else { LARGE };
    core.feed(rt, alloc, engine, pass, &[], sink)?;
    for piece in talk.input.chunks(piece_len) {
        core.feed(rt, alloc, engine, pass, piece, sink)?;
    }
    Ok(core.end_of_input())
}

// Holds a conversation.
fn converse<W: World + Send + Sync, J: Naming + Send + Sync, R: Threads + Wait + Sync>(
    rt: &R,
    alloc: Global,
    engine: &Engine<W, J, Open>,
    pass: &mut ShardPass<W, J>,
    talk: &Fed<'_>,
    sink: &mut Writer<Vec<u8>>,
) -> Result<Ended, Refusal>
    requires { IsSome pass.old.session }
    ensures { IsSome pass.new.session }
{
    let mut core = core_of(alloc, talk.beginning)?;
    Ok(feed(rt, alloc, engine, pass, &mut core, talk, sink))
}

/// A session of a router.
#[derive(Drop)]
struct Client<'e, W: World, J: Naming, R> {
    rt: &'e R,
    alloc: Global,
    engine: &'e Engine<W, J, Open>,
    pass: ShardPass<W, J>,
    ghost known: { IsSome pass.session },
}

impl<W: World + Send + Sync, J: Naming + Send + Sync, R: Threads + Wait + Sync> Client<
    '_,
    W,
    J,
    R,
> {
    fn converse(&mut self, talk: &Fed<'_>, sink: &mut Writer<Vec<u8>>) -> Result<Ended, Refusal> {
        converse(self.rt, self.alloc, self.engine, &mut self.pass, talk, sink)
    }

    // Writes the replies to one command in the command phase.
    fn command(&mut self, packet: &[u8], reply: &mut Writer<Vec<u8>>) -> Result<(), Refusal> {
        let talk = Fed {
            beginning: &Beginning::Commands,
            input: packet,
            is_by_bytes: false,
        };
        match self.converse(&talk, reply)? {
            Ok(_) => Ok(()),
            Err(_) => Err(Refusal::OutOfMemory),
        }
    }

    // Serves the user u.
    fn serve<I: Source, O: Sink>(&mut self, source: &mut I, sink: &mut O) -> Ended {
        let Ok(user) = Items::from_slice(self.alloc, b"u") else {
            return Err(SessionFault::Memory);
        };
        let access = Access { user, stage2: None };
        serve_session(
            self.rt,
            self.alloc,
            self.engine,
            &mut self.pass,
            &access,
            &[0x41; 20],
            1,
            source,
            sink,
        )
    }

    fn serve_failing_source(&mut self, input: &[u8], sink: &mut Writer<Vec<u8>>) -> Ended {
        let mut source = FailingSource {
            unread: input,
            failures: 0,
        };
        self.serve(&mut source, sink)
    }

    // The failures of the sink are counted as those of the other.
    fn serve_failing_sink(
        &mut self,
        input: &[u8],
        writes_left: u32,
        sink: &mut Writer<Vec<u8>>,
    ) -> Ended {
        let mut failing = FailingSink {
            writes_left,
            failures: 0,
        };
        let ended = self.serve(&mut Reader::new(input), &mut failing);
        sink.failures = failing.failures;
        ended
    }

    fn serve_interrupted(&mut self, input: &[u8], sink: &mut Writer<Vec<u8>>) -> Ended {
        let mut source = Reader::new(InterruptedReader {
            unread: input,
            is_interrupted: false,
        });
        self.serve(&mut source, sink)
    }

    fn talk(&mut self, talk: Talk<'_>, sink: &mut Writer<Vec<u8>>) -> Result<Ended, Refusal> {
        match talk {
            Talk::Fed(fed) => self.converse(&fed, sink),
            Talk::Served(Device::FailingSource, input) => {
                Ok(self.serve_failing_source(input, sink))
            }
            Talk::Served(Device::FailingSink(writes_left), input) => {
                Ok(self.serve_failing_sink(input, writes_left, sink))
            }
            Talk::Served(Device::InterruptedSource | Device::Pausing, input) => {
                Ok(self.serve_interrupted(input, sink))
            }
        }
    }

    // Serves the user u by turns at a conversation.
    fn take_turns(self, input: &[u8], sink: &mut Writer<Vec<u8>>) -> Result<Ended, Refusal> {
        let Client {
            rt,
            alloc,
            engine,
            pass,
            ..
        } = self;
        let access = Access {
            user: Items::from_slice(alloc, b"u")?,
            stage2: None,
        };
        let device = PausingDevice {
            unread: input,
            taken: Vec::new(alloc),
            is_pausing: false,
        };
        let Ok(mut conversation) = Conversation::begin(alloc, &access, &[0x41; 20], 1, pass, device)
        else {
            return Err(Refusal::OutOfMemory);
        };
        let mut buffer = [0u8; 16];
        let ended = conversation.finish(rt, alloc, engine, &mut buffer);
        let (_pass, device) = conversation.into_parts();
        sink.writer.extend_from_slice(&device.taken)?;
        Ok(ended)
    }

    // Talks, once the rows are in the table.
    fn talk_over_rows(
        mut self,
        talk: Talk<'_>,
        sink: &mut Writer<Vec<u8>>,
    ) -> Result<Ended, Refusal> {
        self.command(ROWS, sink)?;
        sink.writer.clear();
        match talk {
            Talk::Served(Device::Pausing, input) => self.take_turns(input, sink),
            talk => self.talk(talk, sink),
        }
    }
}

// One session talks, and then another deletes the first row.
fn serve_two<W: World + Send + Sync, J: Naming + Send + Sync, R: Threads + Wait + Sync>(
    rt: &R,
    alloc: Global,
    engine: &Engine<W, J, Open>,
    opener: &mut Opener<ShardLaw<W>, J>,
    seen: &mut ShardPass<W, J>,
    talk: Talk<'_>,
    sink: &mut Writer<Vec<u8>>,
    reply: &mut Writer<Vec<u8>>,
) -> Result<Ended, Refusal> {
    let first = Client {
        rt,
        alloc,
        engine,
        pass: opener.open(seen)?,
    };
    let ended = first.talk_over_rows(talk, sink);
    let mut second = Client {
        rt,
        alloc,
        engine,
        pass: opener.open(seen)?,
    };
    let deleted = second.command(DELETE_FIRST, reply);
    drop(second);
    deleted?;
    ended
}

fn serve_opened<W: World + Send + Sync, J: Naming + Send + Sync, R: Threads + Wait + Sync>(
    rt: &R,
    alloc: Global,
    schema: VSchema,
    ranges: &[KeyRange],
    opened: Opened<ShardLaw<W>>,
    talk: Talk<'_>,
    sink: &mut Writer<Vec<u8>>,
    reply: &mut Writer<Vec<u8>>,
) -> Result<Ended, Refusal>
    requires name { opened ≡ J.table }
    requires opening { W.opening ≡ opening_of schema ranges.now }
    requires limits { W.limits ≡ most_limits }
    requires schema { IsTrue (is_vschema schema) }
    requires ranges { FitRanges schema ranges.now }
{
    let limits = widest_limits();
    let (engine, mut opener, mut first, free) = empty_router::<W, J, Open>(
        alloc, schema, ranges, limits, opened, 0, Open,
    )?;
    drop(free);
    serve_two(
        rt,
        alloc,
        &engine,
        &mut opener,
        &mut first,
        talk,
        sink,
        reply,
    )
}

// Plays over a router of this VSchema and these ranges.
fn serve_in_world<W: World + Send + Sync, R: Threads + Wait + Sync>(
    rt: &R,
    alloc: Global,
    schema: VSchema,
    ranges: &[KeyRange],
    talk: Talk<'_>,
    sink: &mut Writer<Vec<u8>>,
    reply: &mut Writer<Vec<u8>>,
) -> Result<Ended, Refusal>
    requires opening { W.opening ≡ opening_of schema ranges.now }
    requires limits { W.limits ≡ most_limits }
    requires schema { IsTrue (is_vschema schema) }
    requires ranges { FitRanges schema ranges.now }
{
    let opened = Opened::<ShardLaw<W>>::new(alloc)?;
    serve_opened::<W, Brand, R>(rt, alloc, schema, ranges, opened, talk, sink, reply)
}

/// How a session ends over a new router with the table; the sink has what is written, and the reply what is told to another that deletes
/// the first row then.
pub(crate) fn serve_in_shop<R: Threads + Wait + Sync>(
    rt: &R,
    alloc: Global,
    talk: Talk<'_>,
    sink: &mut Writer<Vec<u8>>,
    reply: &mut Writer<Vec<u8>>,
) -> Result<Ended, Refusal> {
    let Some(range) = KeyRange::read("-") else {
        return Err(Refusal::NotSupported);
    };
    let Ok(schema) = VSchema::read(alloc, SHOP) else {
        return Err(Refusal::OutOfMemory);
    };
    let ranges = [range];
    match ranges_fit(alloc, &schema, &ranges) {
        Ok(true) => serve_in_world::<Brand, R>(rt, alloc, schema, &ranges, talk, sink, reply),
        Ok(false) => Err(Refusal::NotSupported),
        Err(_) => Err(Refusal::OutOfMemory),
    }
}
