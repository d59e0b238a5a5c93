//! A client's lines, each answered.
ghost use Rattle.std.specs.Prelude.{◌≡◌, ◌++◌, ◌<◌, ◌≤◌, ℕ, List, [], codes, false, length, IfOk, OnOk, OnErr};
ghost use Rattle.std.specs.List.{list_all};
ghost use Rattle.std.specs.Io.KnownBytes.{Appends, Consumes, IsAtEnd};
ghost use Rattle.shard_run.specs.opening.Empty.{sharded_keyspace};
ghost use Rattle.vtgate_lines.specs.Lines.{HasNoEnd};
ghost use Rattle.vtgate_lines.specs.Printed.{line};
ghost use Rattle.vtgate_clients.specs.Devices.{AppendsFront};
ghost use Rattle.admin.specs.declared.reply.AdminReply.{AdminReply};
ghost use Rattle.admin.specs.AdminAnswers.{IsAdminReply, keyspace_of};
ghost use Rattle.admin.specs.Words.{reply_text};
ghost use Rattle.vtgate_serve.specs.Conversations.{AllAnswered, BreaksOff, HasEndedEarly, HasAnsweredAll, is_word_byte};

use crate::lines::ended_line;
use admin::{Administrator, Engine, Gate, administer, work_left};
use journal::Naming;
use log::Log;
use std::alloc::Global;
use std::sync::Wait;
use std::thread;
use std::time::{Clock, Duration, Instant};
use vtgate_clients::census::Marks;
use vtgate_clients::{ShardPass, Sink, Source, World, census, events};

/// The most bytes of a line, without the byte 0A that ends it.
pub const LONGEST_LINE: usize = 8192;

/// How many bytes are asked of a source at once.
const PIECE: usize = 4096;

/// What answers a line with a byte outside 20 to 7E.
const UNKNOWN: &[u8] = b"unknown\n";

/// The line by which the shards are asked for.
const STATUS: &[u8] = b"status";

/// The line by which sources give their rows up.
const COMPLETE: &[u8] = b"complete";

/// How often, and how many milliseconds apart, it is looked whether these rows are still read.
const LOOKS: u32 = 100;

const BETWEEN_LOOKS: u64 = 10;

/// What answers a step that froze a source.
const FROZE: &[u8] = b"ok freeze\n";

/// A conversation can't go on: a device failed, or a line is too long, has a byte outside 20 to 7E, or there is no memory for it.
#[derive(Clone, Copy, Debug, PartialEq, Eq)]
pub struct BrokenOff;

// Puts more of a line after what came before.
fn put(line: &mut Vec<u8>, more: &[u8]) -> Result<(), BrokenOff>
    ensures put { OnOk result (line.new.items ≡ line.old.items ++ more.now) }
    ensures few { OnOk result (length line.new.items ≤ LONGEST_LINE) }
{
    let Some(room) = LONGEST_LINE.checked_sub(line.len()) else {
        return Err(BrokenOff);
    };
    if more.len() > room {
        return Err(BrokenOff);
    }
    match line.extend_from_slice(more) {
        Ok(()) => Ok(()),
        Err(_) => Err(BrokenOff),
    }
}

// Whether a line has no byte outside 20 to 7E.
fn is_printable(words: &[u8]) -> bool
    ensures { result ≡ list_all is_word_byte words.now }
{
    words.iter().all(|byte| (0x20..=0x7e).contains(byte))
}

// Answers a line that has another byte.
fn reject<O: Sink>(sink: &mut O) -> BrokenOff
    ensures { AppendsFront (O.taken sink.old) (O.taken sink.new) (line (codes "unknown")) }
{
    let _ = sink.write(UNKNOWN);
    BrokenOff
}

// Logs that a line was answered, and for `status` what the shards hold.
fn tell_answer<W: World + Send + Sync, J: Naming + Send + Sync, G: Gate, R: Wait + Clock + Log>(
    rt: &R,
    engine: &Engine<W, J, G>,
    words: &[u8],
    answer: &[u8],
    start: Option<Instant>,
) {
    if words == STATUS && census::tells_each(rt) {
        census::tell_all(rt, engine, &mut Marks::all());
    }
    let waiting = engine.buffer().waiting(rt);
    events::administered(rt, words, answer, waiting, events::since(rt, start));
}

// Logs what is left to copy and to follow, if a source froze before that was done.
fn tell_left<W: World + Send + Sync, J: Naming + Send + Sync, G: Gate, R: Wait + Log>(
    rt: &R,
    engine: &Engine<W, J, G>,
    administrator: &Administrator<W, J>,
    answer: &[u8],
) {
    if answer != FROZE {
        return;
    }
    let left = work_left(rt, engine, administrator);
    if left.copying > 0 || left.entries > 0 {
        events::not_level(rt, left.copying, left.entries);
    }
}

// Waits before `complete` until the reads have ended that began before the cutover, a second at most. Who ends the last read of rows that
// were given up frees them: a client would wait for that, for as long as for the rows.
fn await_reads<W: World, J: Naming, R: Wait + Clock>(
    rt: &R,
    administrator: &Administrator<W, J>,
    words: &[u8],
) {
    if words != COMPLETE {
        return;
    }
    for _ in 0..LOOKS {
        if !administrator.is_read(rt) {
            return;
        }
        let _ = thread::sleep(rt, Duration::from_millis(BETWEEN_LOOKS));
    }
}

/// What each line is answered with, beside the administrator and its pass.
#[derive(Drop)]
struct LineContext<'c, W: World, J: Naming, G: Gate, R> {
    rt: &'c R,
    alloc: Global,
    engine: &'c Engine<W, J, G>,
}

// Answers a line.
fn answer<W: World + Send + Sync, J: Naming + Send + Sync, G: Gate, R: Wait + Clock + Log, O: Sink>(
    context: &LineContext<'_, W, J, G, R>,
    administrator: &mut Administrator<W, J>,
    pass: &mut ShardPass<W, J>,
    words: &[u8],
    sink: &mut O,
) -> Result<(), BrokenOff>
    requires home { keyspace_of administrator.old ≡ sharded_keyspace context.now.engine.now }
    ensures keyspace { keyspace_of administrator.new ≡ keyspace_of administrator.old }
    ensures told { OnOk result ((reply : AdminReply) × IsAdminReply W.opening W.limits words.now pass.old pass.new reply administrator.old administrator.new
        × Appends (O.taken sink.old) (O.taken sink.new) (reply_text reply)) }
    ensures untold { OnErr result ((reply : AdminReply) × IsAdminReply W.opening W.limits words.now pass.old pass.new reply administrator.old administrator.new
        × AppendsFront (O.taken sink.old) (O.taken sink.new) (reply_text reply)) }
{
    await_reads(context.rt, administrator, words);
    let start = Instant::now(context.rt).ok();
    let reply = administer(
        context.rt,
        context.alloc,
        context.engine,
        administrator,
        pass,
        words,
    );
    tell_answer(context.rt, context.engine, words, reply.line(), start);
    tell_left(context.rt, context.engine, administrator, reply.line());
    match sink.write(reply.line()) {
        Ok(()) => Ok(()),
        Err(_) => Err(BrokenOff),
    }
}

// Answers the lines that a piece ends after the front of a line. What comes after them waits for its end.
fn answer_piece<
    W: World + Send + Sync,
    J: Naming + Send + Sync,
    G: Gate,
    R: Wait + Clock + Log,
    O: Sink,
>(
    context: &LineContext<'_, W, J, G, R>,
    administrator: &mut Administrator<W, J>,
    pass: &mut ShardPass<W, J>,
    front: &mut Vec<u8>,
    piece: &[u8],
    sink: &mut O,
) -> Result<(), BrokenOff>
    requires home { keyspace_of administrator.old ≡ sharded_keyspace context.now.engine.now }
    requires unended { HasNoEnd front.old.items }
    ensures keyspace { keyspace_of administrator.new ≡ keyspace_of administrator.old }
    ensures told { OnOk result (AllAnswered W.opening W.limits (record { pass = pass.old; workflow = administrator.old }) (front.old.items ++ piece.now) front.new.items
        (O.taken sink.old) (O.taken sink.new) (record { pass = pass.new; workflow = administrator.new })) }
    ensures broke { OnErr result (BreaksOff W.opening W.limits (record { pass = pass.old; workflow = administrator.old }) (front.old.items ++ piece.now)
        (O.taken sink.old) (O.taken sink.new) (record { pass = pass.new; workflow = administrator.new })) }
{
    let mut rest = piece;
    while let Some((more, trailing)) = ended_line(rest) {
        put(front, more)?;
        let words = front.as_slice();
        if !is_printable(words) {
            return Err(reject(sink));
        }
        answer(context, administrator, pass, words, sink)?;
        front.clear();
        rest = trailing;
    }
    put(front, rest)
}

// Answers the lines that the next piece of the source ends, and returns whether there was one.
fn answer_next<
    W: World + Send + Sync,
    J: Naming + Send + Sync,
    G: Gate,
    R: Wait + Clock + Log,
    I: Source,
    O: Sink,
>(
    context: &LineContext<'_, W, J, G, R>,
    administrator: &mut Administrator<W, J>,
    pass: &mut ShardPass<W, J>,
    front: &mut Vec<u8>,
    source: &mut I,
    sink: &mut O,
) -> Result<bool, BrokenOff>
    requires home { keyspace_of administrator.old ≡ sharded_keyspace context.now.engine.now }
    requires unended { HasNoEnd front.old.items }
    ensures keyspace { keyspace_of administrator.new ≡ keyspace_of administrator.old }
    ensures told { IfOk result (λ more. (piece : List ℕ) × Consumes (I.unread source.old) (I.unread source.new) piece
        × AllAnswered W.opening W.limits (record { pass = pass.old; workflow = administrator.old }) (front.old.items ++ piece) front.new.items
        (O.taken sink.old) (O.taken sink.new) (record { pass = pass.new; workflow = administrator.new })) }
    ensures end { IfOk result (λ more. more ≡ false → IsAtEnd (I.unread source.new)) }
    ensures broke { OnErr result ((piece : List ℕ) × Consumes (I.unread source.old) (I.unread source.new) piece
        × BreaksOff W.opening W.limits (record { pass = pass.old; workflow = administrator.old }) (front.old.items ++ piece)
        (O.taken sink.old) (O.taken sink.new) (record { pass = pass.new; workflow = administrator.new })) }
{
    let mut buffer = [0u8; PIECE];
    let Ok(n) = source.read(&mut buffer) else {
        return Err(BrokenOff);
    };
    answer_piece(context, administrator, pass, front, &buffer[..n], sink)?;
    Ok(n > 0)
}

// Answers the lines that the source gives. What came of a line that has not ended is kept in front.
fn answer_all<
    W: World + Send + Sync,
    J: Naming + Send + Sync,
    G: Gate,
    R: Wait + Clock + Log,
    I: Source,
    O: Sink,
>(
    context: &LineContext<'_, W, J, G, R>,
    administrator: &mut Administrator<W, J>,
    pass: &mut ShardPass<W, J>,
    front: &mut Vec<u8>,
    source: &mut I,
    sink: &mut O,
) -> Result<(), BrokenOff>
    requires home { keyspace_of administrator.old ≡ sharded_keyspace context.now.engine.now }
    requires none { front.old.items ≡ [] }
    ensures keyspace { keyspace_of administrator.new ≡ keyspace_of administrator.old }
    ensures talked { OnOk result (HasAnsweredAll W.opening W.limits (record { pass = pass.old; workflow = administrator.old })
        (record { pass = pass.new; workflow = administrator.new }) (I.unread source.old) (I.unread source.new) (O.taken sink.old) (O.taken sink.new)) }
    ensures broke { OnErr result (HasEndedEarly W.opening W.limits (record { pass = pass.old; workflow = administrator.old })
        (record { pass = pass.new; workflow = administrator.new }) (I.unread source.old) (I.unread source.new) (O.taken sink.old) (O.taken sink.new)) }
{
    for _ in context.rt.forever() {
        if !answer_next(context, administrator, pass, front, source, sink)? {
            return Ok(());
        }
    }
    unreachable!()
}

// Promise: Of the bytes that a client of the admin port sends, each line that has ended is answered, over what the lines before it left,
// and that is written, in order; a rest that hasn't ended is no line. The conversation ends if its input does. If it breaks off (a
// device failed, a line is too long, or there is no memory for one) it does so after a line that was told, or one that was answered and of
// which a front was written, and nothing more is done. No line of more than 8192 bytes is done, nor one with a byte outside 20 to 7E: that is
// answered `unknown`, and the conversation breaks off
/// Answers the lines of a client, each over what the lines before it left, until its input ends. The administrator is that of the engine's
/// sharded keyspace. It breaks off if a device fails, if a line has more than `LONGEST_LINE` bytes, and if there is no memory for one;
/// nothing more is done then. What the line before that asked for is done, even if its reply couldn't be written. It also breaks off
/// at a line with a byte outside 20 to 7E, which it answers `unknown`: what a browser sends has such a byte in each line. The clauses tell what
/// became of the administrator, its pass and both devices, which are handed over one by one.
pub fn talk<W: World + Send + Sync, J: Naming + Send + Sync, G: Gate, I: Source, O: Sink>(
    rt: &(impl Wait + Clock + Log),
    alloc: Global,
    engine: &Engine<W, J, G>,
    administrator: &mut Administrator<W, J>,
    pass: &mut ShardPass<W, J>,
    source: &mut I,
    sink: &mut O,
) -> Result<(), BrokenOff>
    requires home { keyspace_of administrator.old ≡ sharded_keyspace engine.now }
    ensures keyspace { keyspace_of administrator.new ≡ keyspace_of administrator.old }
    ensures talked { OnOk result (HasAnsweredAll W.opening W.limits (record { pass = pass.old; workflow = administrator.old })
        (record { pass = pass.new; workflow = administrator.new }) (I.unread source.old) (I.unread source.new) (O.taken sink.old) (O.taken sink.new)) }
    ensures broke { OnErr result (HasEndedEarly W.opening W.limits (record { pass = pass.old; workflow = administrator.old })
        (record { pass = pass.new; workflow = administrator.new }) (I.unread source.old) (I.unread source.new) (O.taken sink.old) (O.taken sink.new)) }
{
    let context = LineContext { rt, alloc, engine };
    let mut front = Vec::new(alloc);
    answer_all(&context, administrator, pass, &mut front, source, sink)
}
