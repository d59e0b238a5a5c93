//! What `vtgate serve` reads, and what it serves over.
ghost use Rattle.std.specs.Prelude.{◌≡◌, ◌≢◌, ◌≤◌, ℕ, List, IsTrue, IfOk, IfErr, OnOk};
ghost use Rattle.std.specs.Io.KnownBytes.{Appends};
ghost use Rattle.keyrange.specs.declared.KeyRange.{KeyRange};
ghost use Rattle.vschema.specs.WellFormed.{is_vschema};
ghost use Rattle.shard_law.specs.Entries.{most_limits};
ghost use Rattle.shard_run.specs.opening.Empty.{opening_of, FitRanges};
ghost use Rattle.vtgate_clients.specs.setup.ServeArgs.{ServeArgsView, IsServeCommand};
ghost use Rattle.vtgate_clients.specs.setup.Inputs.{HasDeclared};
ghost use Rattle.vtgate_clients.specs.setup.Statuses.{IsWrong, TellsNone, status_of};
ghost use Rattle.vtgate_lines.specs.Partitions.{NamesPartition};
ghost use Rattle.vtgate_serve.specs.Served.{HasRunServer, listening_text};

use crate::ports::{Beginning, serve_router};
use admin::{Gate, Open, administered_router, widest_limits};
use journal::{Naming, Opened};
use keyrange::KeyRange;
use log::Log;
use std::alloc::Global;
use std::marker::Brand;
use std::net::{Net, TcpListener, TcpStream};
use std::sync::Wait;
use std::thread::Threads;
use std::time::Clock;
use vschema::{Hashing, VSchema};
use vtgate_clients::setup::{
    FAILURE, RunFault, SUCCESS, ServeArgs, USAGE, WRONG_WORDS, Word, ranges_of,
    read_schema_or_text, read_words, refuse_plainly,
};
use vtgate_clients::{
    ServeConfig, ShardLaw, Sink, Source, World, bind, config_of, events, schema_faults,
};

/// Serves over the VSchema and the ranges in the journal that was opened. The gate wraps each shard's read. The clauses tie the VSchema,
/// the ranges and the journal to the world, so that they are handed over one by one.
pub fn serve_opened<
    W: World + Send + Sync,
    J: Naming + Send + Sync,
    G: Gate,
    R: Threads + Wait + Sync + Clock + Log,
    O: Sink,
>(
    rt: &R,
    alloc: Global,
    schema: VSchema,
    ranges: &[KeyRange],
    opened: Opened<ShardLaw<W>>,
    gate: G,
    config: &ServeConfig<'_>,
    output: &mut O,
) -> Result<(), RunFault>
    requires name { opened ≡ J.table }
    requires opening { W.opening ≡ opening_of schema ranges.now }
    requires limits { W.limits ≡ most_limits }
    requires schema { IsTrue (is_vschema schema) }
    requires ranges { FitRanges schema ranges.now }
    ensures told { OnOk result (Appends (O.taken output.old) (O.taken output.new) listening_text) }
    ensures fault { IfErr result (λ f. status_of f ≡ FAILURE) }
{
    let asked = config.admission.asked();
    let waiting = u64::from(asked.buffer);
    let limits = widest_limits();
    match administered_router::<W, J, G>(alloc, schema, ranges, limits, opened, waiting, gate) {
        Ok((engine, administrator, opener, pass)) => {
            let beginning = Beginning {
                administrator,
                opener,
                pass,
            };
            serve_router(rt, alloc, &engine, beginning, config, output)
        }
        Err(_) => Err(RunFault::Failed),
    }
}

// Binds the ports, and serves over a router of this VSchema and these ranges, whose tables are empty.
fn serve_in_world<
    W: World + Send + Sync,
    R: Threads + Wait + Sync + Clock + Log + Net<Listener = TcpListener, Stream = TcpStream>,
    O: Sink,
>(
    rt: &R,
    alloc: Global,
    asked: &ServeArgs<'_>,
    schema: VSchema,
    ranges: &[KeyRange],
    output: &mut O,
) -> Result<(), RunFault>
    requires opening { W.opening ≡ opening_of schema ranges.now }
    requires limits { W.limits ≡ most_limits }
    requires schema { IsTrue (is_vschema schema) }
    requires ranges { FitRanges schema ranges.now }
    ensures told { OnOk result (Appends (O.taken output.old) (O.taken output.new) listening_text) }
    ensures fault { IfErr result (λ f. status_of f ≡ FAILURE) }
{
    let ports = bind(rt, asked)?;
    let Ok(opened) = Opened::<ShardLaw<W>>::new(alloc) else {
        return Err(RunFault::Failed);
    };
    match config_of(alloc, asked, ports) {
        Err(fault) => Err(fault),
        Ok(config) => serve_opened::<W, Brand, Open, R, O>(
            rt, alloc, schema, ranges, opened, Open, &config, output,
        ),
    }
}

// The VSchema that the whole input declares, and which fits the ranges. A fault of it is logged.
fn read_told<R: Log, I: Source>(
    rt: &R,
    alloc: Global,
    hashing: &Hashing,
    ranges: &[KeyRange],
    input: &mut I,
) -> Result<VSchema, RunFault>
    requires { (word : List ℕ) × NamesPartition word ranges.now }
    ensures read { IfOk result (λ schema. HasDeclared (I.unread input.old) (I.unread input.new) schema) }
    ensures formed { IfOk result (λ schema. IsTrue (is_vschema schema)) }
    ensures fit { IfOk result (λ schema. FitRanges schema ranges.now) }
    ensures fault { IfErr result (λ f. status_of f ≡ WRONG_WORDS → (word : List ℕ) → NamesPartition word ranges.now → IsWrong word (I.unread input.old) (I.unread input.new)) }
{
    let mut text = Vec::new(alloc);
    let read = read_schema_or_text(alloc, hashing, ranges, input, &mut text);
    if let Err(fault) = &read {
        schema_faults::tell(rt, alloc, fault, &text);
    }
    read
}

fn served<
    R: Threads + Wait + Sync + Clock + Log + Net<Listener = TcpListener, Stream = TcpStream>,
    I: Source,
    O: Sink,
>(
    rt: &R,
    alloc: Global,
    hashing: &Hashing,
    asked: &ServeArgs<'_>,
    input: &mut I,
    output: &mut O,
) -> Result<(), RunFault>
    ensures ok { OnOk result (HasRunServer asked.now.shards (I.unread input.old) (I.unread input.new) (O.taken output.old) (O.taken output.new)) }
    ensures untouched { TellsNone asked.now.shards → (input.new ≡ input.old) × (output.new ≡ output.old) }
    ensures fault { IfErr result (λ f. status_of f ≡ WRONG_WORDS → IsWrong asked.now.shards (I.unread input.old) (I.unread input.new)) }
{
    let ranges = ranges_of(alloc, asked.shards)?;
    let schema = read_told(rt, alloc, hashing, &ranges, input)?;
    serve_in_world::<Brand, R, O>(rt, alloc, asked, schema, &ranges, output)
}

// Promise: What `serve` reads and prints is what its words ask for; wrong words touch neither
// With: vtgate_main::run
// Clauses: serve, unserved, wrong
/// Serves connections as the words of the command line ask, under the VSchema that the whole input declares, and gives the status 0 after the
/// last one. The status is 1 if a port can't be bound, which is printed, if no thread could be started, if a device fails and if
/// there is no memory for what it runs over; and 2 if the word of the shards names no ranges, or more than 63 with an unsharded
/// keyspace, and if the input declares no VSchema. Words that aren't those of `serve` are wrong: the usage is printed, and the status is 2.
/// Groups are hashed by the key. The clauses tell what became of each of the devices, which are handed over one by one.
pub fn run_serve<
    R: Threads + Wait + Sync + Clock + Log + Net<Listener = TcpListener, Stream = TcpStream>,
    I: Source,
    O: Sink,
    E: Sink,
>(
    rt: &R,
    alloc: Global,
    hashing: &Hashing,
    words: &[Word],
    input: &mut I,
    output: &mut O,
    errors: &mut E,
) -> u8
    ensures serve { (asking : ServeArgsView) → IsServeCommand words.now asking → result ≡ SUCCESS
        → HasRunServer asking.shards (I.unread input.old) (I.unread input.new) (O.taken output.old) (O.taken output.new) }
    // A wrong word is refused before anything is read.
    ensures unserved { (asking : ServeArgsView) → IsServeCommand words.now asking → TellsNone asking.shards → (result ≢ SUCCESS) × (input.new ≡ input.old) }
    // The status 2 has its cause, if the words are those of `serve` too.
    ensures cause { (asking : ServeArgsView) → IsServeCommand words.now asking → result ≡ WRONG_WORDS
        → IsWrong asking.shards (I.unread input.old) (I.unread input.new) }
    ensures status { result ≤ 2 }
    ensures wrong { ((asking : ServeArgsView) → IsServeCommand words.now asking → ⊥)
        → (result ≡ WRONG_WORDS) × (input.new ≡ input.old) × (output.new ≡ output.old) }
{
    let Some(asked) = read_words(words) else {
        let _ = errors.write(USAGE);
        return WRONG_WORDS;
    };
    if let Err(fault) = served(rt, alloc, hashing, &asked, input, output) {
        events::failed(rt, &fault);
        return refuse_plainly(fault, output, errors);
    }
    SUCCESS
}
