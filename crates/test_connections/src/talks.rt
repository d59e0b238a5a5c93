//! What a client's bytes, and devices that fail, make of a session.
use crate::sessions::{Beginning, Device, Ended, Fed, Talk, serve_in_shop};
use std::alloc::Global;
use std::sync::Wait;
use std::thread::Threads;
use test_fields::{CaseAnswer, Unanswered, fields, salt_of, stage2_of, text_of};
use vt_value::{Items, Refusal};
use vtgate_serve::{Access, End, SessionFault, Writer};

fn name_of(ended: Ended) -> &'static str {
    match ended {
        Ok(End::Quit) => "quit",
        Ok(End::Closed) => "closed",
        Ok(End::Truncated) => "truncated",
        Ok(End::Broken) => "broken",
        Ok(End::Denied) => "denied",
        Err(SessionFault::Read) => "read failed",
        Err(SessionFault::Write) => "write failed",
        Err(SessionFault::Memory) => "no memory",
    }
}

// Puts how a session ends, and what is written.
fn put_end(told: &mut CaseAnswer, ended: Ended, sink: &Writer<Vec<u8>>) {
    told.put(name_of(ended));
    told.put(if sink.writer.is_empty() { "" } else { " " });
    told.put_text(&sink.writer);
}

// Puts how often a sink failed, and what is answered to who deletes a row then.
fn put_rest(told: &mut CaseAnswer, sink: &Writer<Vec<u8>>, reply: &Writer<Vec<u8>>) {
    told.put("; ");
    told.put_number(sink.failures);
    told.put("; ");
    told.put_text(&reply.writer);
}

// Puts all of a session.
fn put_all(
    told: &mut CaseAnswer,
    ended: Result<Ended, Refusal>,
    sink: &Writer<Vec<u8>>,
    reply: &Writer<Vec<u8>>,
    is_served: bool,
) -> Result<(), Unanswered> {
    put_end(told, ended?, sink);
    if is_served {
        put_rest(told, sink, reply);
    }
    Ok(())
}

fn put_talk<R: Threads + Wait + Sync>(
    rt: &R,
    alloc: Global,
    talk: Talk<'_>,
    told: &mut CaseAnswer,
) -> Result<(), Unanswered> {
    let mut sink = Writer::new(Vec::new(alloc));
    let mut reply = Writer::new(Vec::new(alloc));
    let ended = serve_in_shop(rt, alloc, talk, &mut sink, &mut reply);
    let is_served = matches!(talk, Talk::Served(_, _));
    put_all(told, ended, &sink, &reply, is_served)
}

// Puts a conversation, and if another came byte by byte that one too.
fn put_both<R: Threads + Wait + Sync>(
    rt: &R,
    alloc: Global,
    beginning: &Beginning,
    input: &[u8],
    told: &mut CaseAnswer,
) -> Result<(), Unanswered> {
    let mut fed = Fed {
        beginning,
        input,
        is_by_bytes: false,
    };
    put_talk(rt, alloc, Talk::Fed(fed), told)?;
    fed.is_by_bytes = true;
    let mut again = CaseAnswer::new(alloc);
    let done = put_talk(rt, alloc, Talk::Fed(fed), &mut again);
    if again.text != told.text {
        told.put(", by bytes ");
        told.put(&again.text);
    }
    drop(again);
    done
}

// A word, or the stage 2 of a password and a salt.
fn beginning_of(alloc: Global, field: &str) -> Result<Beginning, Unanswered> {
    if field == "commands" {
        return Ok(Beginning::Commands);
    }
    let (digest, salt) = field.split_once(' ').ok_or(Unanswered::BadLine)?;
    let (stage2, salt) = (stage2_of(digest)?, salt_of(salt)?);
    let user = Items::from_slice(alloc, b"u")?;
    Ok(Beginning::Greeting(Access { user, stage2 }, salt))
}

/// A conversation of a session that begins so: how it ends, and what is written.
pub(crate) fn whole_talk<R: Threads + Wait + Sync>(
    rt: &R,
    alloc: Global,
    case: &str,
    told: &mut CaseAnswer,
) -> Result<(), Unanswered> {
    let (beginning, sent) = fields(case)?;
    let input = text_of(alloc, sent)?;
    match beginning_of(alloc, beginning) {
        Ok(beginning) => put_both(rt, alloc, &beginning, &input, told),
        Err(why) => Err(why),
    }
}

fn device_of(field: &str) -> Result<Device, Unanswered> {
    match field {
        "source" => Ok(Device::FailingSource),
        "sink 0" => Ok(Device::FailingSink(0)),
        "sink 1" => Ok(Device::FailingSink(1)),
        "sink 2" => Ok(Device::FailingSink(2)),
        "interrupted" => Ok(Device::InterruptedSource),
        "pausing" => Ok(Device::Pausing),
        _ => Err(Unanswered::BadLine),
    }
}

/// A session that is served by a device that fails or is interrupted: how it ends, what is written, how often its sink failed, and what is told
/// to another that deletes the first row then.
pub(crate) fn service<R: Threads + Wait + Sync>(
    rt: &R,
    alloc: Global,
    case: &str,
    told: &mut CaseAnswer,
) -> Result<(), Unanswered> {
    let (device, sent) = fields(case)?;
    let device = device_of(device)?;
    let input = text_of(alloc, sent)?;
    put_talk(rt, alloc, Talk::Served(device, &input), told)
}
