//! Runs of the program by its words.
use crate::failing::{FailingSink, FailingSource};
use log::sink::Discard;
use log::{LevelFilter, Logged};
use std::alloc::Global;
use std::net::{Net, TcpListener, TcpStream};
use std::sync::Wait;
use std::thread::Threads;
use std::time::Clock;
use test_fields::{CaseAnswer, Unanswered, fields, text_of};
use vschema::Hashing;
use vtgate_serve::script::{run_plan, run_script};
use vtgate_serve::setup::Word;
use vtgate_serve::{Reader, Sink, Source, Writer, run_serve};

fn push_words(alloc: Global, words: &mut Vec<Word>, field: &str) -> Result<(), Unanswered> {
    for word in field.split('\t') {
        words.push(Word::new(text_of(alloc, word)?))?;
    }
    Ok(())
}

// The words of a run, with tabs between them; none if there is no field.
fn words_of(alloc: Global, field: Option<&str>) -> Result<Vec<Word>, Unanswered> {
    let mut words = Vec::new(alloc);
    let done = match field {
        Some(field) => push_words(alloc, &mut words, field),
        None => Ok(()),
    };
    match done {
        Ok(()) => Ok(words),
        Err(why) => Err(why),
    }
}

// The input, and the field of the words after it.
fn parts(case: &str) -> (&str, Option<&str>) {
    match case.split_once('\t') {
        Some((input, words)) => (input, Some(words)),
        None => (case, None),
    }
}

// The word of the shards and the statement, if these are words of `plan`.
fn plan_words(words: &[Word]) -> Option<(&str, &[u8])> {
    match words {
        [word, shards, sql] if word.as_bytes() == b"plan".as_slice() => Some((
            shards.text()?,
            sql.as_bytes(),
        )),
        _ => None,
    }
}

// The word of the shards, if these are words of `script`.
fn script_words(words: &[Word]) -> Option<&str> {
    match words {
        [word, shards] if word.as_bytes() == b"script".as_slice() => shards.text(),
        _ => None,
    }
}

// The status of the run that the program chooses by these words.
fn status_of<
    R: Threads + Wait + Sync + Clock + Net<Listener = TcpListener, Stream = TcpStream>,
    I: Source,
    O: Sink,
    E: Sink,
>(rt: &R, alloc: Global, words: &[Word], input: &mut I, output: &mut O, errors: &mut E) -> u8 {
    let hashing = Hashing::known();
    if let Some((shards, sql)) = plan_words(words) {
        return run_plan(alloc, shards, sql, input, output, errors);
    }
    if let Some(shards) = script_words(words) {
        return run_script(rt, alloc, &hashing, shards, input, output, errors);
    }
    let quiet = Logged::new(rt, LevelFilter::Off, Discard);
    run_serve(&quiet, alloc, &hashing, words, input, output, errors)
}

fn put_bracketed(told: &mut CaseAnswer, text: &[u8]) {
    told.put(" [");
    told.put_text(text);
    told.put("]");
}

// Puts what a run leaves over buffers: its status, its output, and its standard error.
fn put_run<R: Threads + Wait + Sync + Clock + Net<Listener = TcpListener, Stream = TcpStream>>(
    rt: &R,
    alloc: Global,
    words: &[Word],
    input: &[u8],
    told: &mut CaseAnswer,
) {
    let mut input = Reader::new(input);
    let mut output = Writer::new(Vec::new(alloc));
    let mut errors = Writer::new(Vec::new(alloc));
    let status = status_of(rt, alloc, words, &mut input, &mut output, &mut errors);
    told.put_number(u64::from(status));
    put_bracketed(told, &output.writer);
    put_bracketed(told, &errors.writer);
}

/// What a run with these words leaves if it reads this input.
pub(crate) fn whole<
    R: Threads + Wait + Sync + Clock + Net<Listener = TcpListener, Stream = TcpStream>,
>(rt: &R, alloc: Global, case: &str, told: &mut CaseAnswer) -> Result<(), Unanswered> {
    let (input, words) = parts(case);
    let input = text_of(alloc, input)?;
    let words = words_of(alloc, words)?;
    put_run(rt, alloc, &words, &input, told);
    Ok(())
}

// Puts the status of a run whose output fails after so many writes, its standard error, and how many writes are left.
fn put_failing<
    R: Threads + Wait + Sync + Clock + Net<Listener = TcpListener, Stream = TcpStream>,
    I: Source,
>(rt: &R, alloc: Global, words: &[Word], input: &mut I, writes_left: u32, told: &mut CaseAnswer) {
    let mut output = FailingSink {
        writes_left,
        failures: 0,
    };
    let mut errors = Writer::new(Vec::new(alloc));
    let status = status_of(rt, alloc, words, input, &mut output, &mut errors);
    told.put_number(u64::from(status));
    put_bracketed(told, &errors.writer);
    told.put(" ");
    told.put_number(u64::from(output.writes_left));
}

fn put_failed<R: Threads + Wait + Sync + Clock + Net<Listener = TcpListener, Stream = TcpStream>>(
    rt: &R,
    alloc: Global,
    device: &str,
    words: &[Word],
    input: &[u8],
    told: &mut CaseAnswer,
) -> Result<(), Unanswered> {
    let mut failing = FailingSource {
        unread: input,
        failures: 0,
    };
    match device {
        "source" => put_failing(rt, alloc, words, &mut failing, 1, told),
        "sink" => put_failing(rt, alloc, words, &mut Reader::new(input), 2, told),
        _ => return Err(Unanswered::BadLine),
    }
    Ok(())
}

/// What a run with these words leaves of which a device fails: the source after this input, or the sink after two writes.
pub(crate) fn failing<
    R: Threads + Wait + Sync + Clock + Net<Listener = TcpListener, Stream = TcpStream>,
>(rt: &R, alloc: Global, case: &str, told: &mut CaseAnswer) -> Result<(), Unanswered> {
    let (device, rest) = fields(case)?;
    let (input, words) = parts(rest);
    let input = text_of(alloc, input)?;
    let words = words_of(alloc, words)?;
    put_failed(rt, alloc, device, &words, &input, told)
}
