//! The words of the command line, and what they run.
ghost use Rattle.std.specs.Prelude.{◌≡◌, ◌≢◌, ◌≤◌, ℕ, List, false, IfSome, IfNone, bytes_eq};
ghost use Rattle.vtgate_serve.specs.ServeArgs.{ServeArgsView, IsServeCommand};
ghost use Rattle.vtgate_serve.specs.Words.{word_bytes};
ghost use Rattle.vtgate_serve.specs.Statuses.{IsWrong, TellsNone};
ghost use Rattle.vtgate_main.specs.Words.{AsksPlan, AsksScript, is_plan, is_script};
ghost use Rattle.vtgate_serve.specs.script.Planned.{HasPlanned};
ghost use Rattle.vtgate_serve.specs.script.Scripted.{HasScripted};
ghost use Rattle.vtgate_serve.specs.script.Wrong.{IsWrongScript};
ghost use Rattle.vtgate_serve.specs.Served.{HasRunServer};

use log::Log;
use std::alloc::Global;
use std::net::{Net, TcpListener, TcpStream};
use std::sync::Wait;
use std::thread::Threads;
use std::time::Clock;
use vtgate_serve::script::{run_plan, run_script};
use vtgate_serve::setup::{Hashing, SUCCESS, WRONG_WORDS, Word};
use vtgate_serve::{Sink, Source, run_serve};

fn is_word(word: &Word, bytes: &[u8]) -> bool
    ensures { result ≡ bytes_eq (word_bytes word.now) bytes.now }
{
    word.as_bytes() == bytes
}

// The word of the shards and the statement.
fn plan_words(words: &[Word]) -> Option<(&str, &[u8])>
    ensures found { IfSome result (λ x. AsksPlan words.now x.0.now x.1.now) }
    ensures none { IfNone result (is_plan words.now ≡ false) }
{
    let [word, shards, sql] = words else {
        return None;
    };
    if !is_word(word, b"plan") {
        return None;
    }
    Some((shards.text()?, sql.as_bytes()))
}

// The word of the shards.
fn script_words(words: &[Word]) -> Option<&str>
    ensures found { IfSome result (λ shards. AsksScript words.now shards.now) }
    ensures none { IfNone result (is_script words.now ≡ false) }
{
    let [word, shards] = words else {
        return None;
    };
    if !is_word(word, b"script") {
        return None;
    }
    Some(shards.text()?)
}

// Promise: `vtgate plan` reads its whole input and writes exactly that line; wrong ranges are refused before anything is read
// Clauses: plan, untouched, wrong
// Promise: `vtgate script` reads its whole input; its first line is the VSchema, and for each line after it exactly what it gives is
// written, in order: for a statement what its text may give its session, after all that the lines before it have seen and in its open
// transaction; for an admin line what it did to the workflow of the sharded keyspace, by the controller's pass, which has seen what all
// lines before it have; `unknown` for any other line
// Clauses: script, unread, wrong
// Promise: A script's lines are over one database, from the opening rows on: what a statement prints is what its text gives over the
// database that the lines before it left, in its session's open transaction if one is; nobody but a line's session commits in it, and an
// admin line commits nothing
// Clauses: script
// Promise: The status is 0, 1 or 2; 2 has its cause: words that run nothing, a word that names no ranges, an input that declares no VSchema, or
// more than 63 ranges with an unsharded keyspace
// Clauses: wrong, plan_cause, script_cause, serve_cause, status
/// Runs the program with the words of its command line, and gives its exit status. `plan`, with the word of the shards and a statement,
/// prints the line of the statement's plan under the VSchema that the whole input declares: 0, or 1 if the statement is refused, whose
/// line is printed, if a device fails or there is no memory. `script`, with the word of the shards, runs the lines after the first,
/// which declares the VSchema: 0, or 1 if a device fails or there is no memory. `serve`, with the words that `read_words` reads, serves
/// connections under the VSchema that the whole input declares: 0 after the last one, or 1 if a port can't be bound, no thread can be
/// started, a device fails or there is no memory. Any other words are wrong: the usage is printed, and the status is 2. A word that isn't UTF-8
/// is wrong, but for the statement of `plan`. A VSchema's fault is printed too, and the status is 2. Groups are hashed by the key. The clauses tell what
/// became of each of the devices, which are handed over one by one.
pub fn run<
    R: Threads + Wait + Sync + Clock + Log + Net<Listener = TcpListener, Stream = TcpStream>,
    I: Source,
    O: Sink,
    E: Sink,
>(
    rt: &R,
    alloc: Global,
    hashing: &Hashing,
    words: &[Word],
    input: &mut I,
    output: &mut O,
    errors: &mut E,
) -> u8
    ensures plan { (shards sql : List ℕ) → AsksPlan words.now shards sql → result ≡ SUCCESS
        → HasPlanned shards sql (I.unread input.old) (I.unread input.new) (O.taken output.old) (O.taken output.new) }
    // The word of the shards is tested before the input is read.
    ensures untouched { (shards sql : List ℕ) → AsksPlan words.now shards sql
        → TellsNone shards → (result ≢ SUCCESS) × (input.new ≡ input.old) }
    ensures script { (shards : List ℕ) → AsksScript words.now shards → result ≡ SUCCESS
        → HasScripted shards (I.unread input.old) (I.unread input.new) (O.taken output.old) (O.taken output.new) }
    ensures unread { (shards : List ℕ) → AsksScript words.now shards
        → TellsNone shards → (result ≢ SUCCESS) × (input.new ≡ input.old) }
    ensures serve { (asking : ServeArgsView) → IsServeCommand words.now asking → result ≡ SUCCESS
        → HasRunServer asking.shards (I.unread input.old) (I.unread input.new) (O.taken output.old) (O.taken output.new) }
    ensures unserved { (asking : ServeArgsView) → IsServeCommand words.now asking
        → TellsNone asking.shards → (result ≢ SUCCESS) × (input.new ≡ input.old) }
    // The status 2 has its cause: the word of the shards, or the VSchema that the input declares.
    ensures plan_cause { (shards sql : List ℕ) → AsksPlan words.now shards sql → result ≡ WRONG_WORDS
        → IsWrong shards (I.unread input.old) (I.unread input.new) }
    ensures script_cause { (shards : List ℕ) → AsksScript words.now shards → result ≡ WRONG_WORDS
        → IsWrongScript shards (I.unread input.old) (I.unread input.new) }
    ensures serve_cause { (asking : ServeArgsView) → IsServeCommand words.now asking → result ≡ WRONG_WORDS
        → IsWrong asking.shards (I.unread input.old) (I.unread input.new) }
    ensures status { result ≤ 2 }
    ensures wrong { is_plan words.now ≡ false → is_script words.now ≡ false
        → ((asking : ServeArgsView) → IsServeCommand words.now asking → ⊥)
        → (result ≡ WRONG_WORDS) × (input.new ≡ input.old) × (output.new ≡ output.old) }
{
    if let Some((shards, sql)) = plan_words(words) {
        return run_plan(alloc, shards, sql, input, output, errors);
    }
    if let Some(shards) = script_words(words) {
        return run_script(rt, alloc, hashing, shards, input, output, errors);
    }
    run_serve(rt, alloc, hashing, words, input, output, errors)
}
