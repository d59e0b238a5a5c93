//! `vtgate script`: lines that are run in order, on one thread.
ghost use Rattle.std.specs.Prelude.{◌≡◌, ◌≤◌, ℕ, List, IsTrue, IfOk, IfErr, OnOk, Ok};
ghost use Rattle.vschema.specs.Meant.{contents, schema_read};
ghost use Rattle.vschema.specs.WellFormed.{is_vschema};
ghost use Rattle.shard_law.specs.Entries.{most_limits};
ghost use Rattle.shard_run.specs.opening.Empty.{opening_of, FitRanges};
ghost use Rattle.admin.specs.Idle.{opening_workflow};
ghost use Rattle.vtgate_lines.specs.Lines.{IsNextLine};
ghost use Rattle.vtgate_lines.specs.Partitions.{NamesPartition};
ghost use Rattle.vtgate_clients.specs.setup.Statuses.{TellsNone, status_of};
ghost use Rattle.vtgate_serve.specs.script.Scripted.{HasPrinted, HasScripted};
ghost use Rattle.vtgate_serve.specs.script.Wrong.{DeclaresNone, IsWrongScript};

use crate::script::sessions::{ScriptContext, Sessions, run_lines};
use admin::{Open, administered_router, widest_limits};
use journal::{Naming, Opened};
use keyrange::KeyRange;
use std::alloc::Global;
use std::marker::Brand;
use std::sync::Wait;
use std::thread::Threads;
use vschema::{Hashing, SchemaFault, VSchema};
use vtgate_clients::setup::{
    FAILURE, RunFault, SUCCESS, WRONG_WORDS, has_too_many, ranges_of, read_all, refuse, schema_of,
};
use vtgate_clients::{ShardLaw, Sink, Source, World};
use vtgate_lines::next_line;

// The lines, run over the VSchema and the ranges in the journal that was opened. The clauses tie these three to the world, so they are handed
// down one by one.
fn run_opened<W: World + Send + Sync, J: Naming + Send + Sync, R: Threads + Wait + Sync, O: Sink>(
    rt: &R,
    alloc: Global,
    schema: VSchema,
    ranges: &[KeyRange],
    opened: Opened<ShardLaw<W>>,
    lines: &[u8],
    output: &mut O,
) -> Result<(), RunFault>
    requires name { opened ≡ J.table }
    requires opening { W.opening ≡ opening_of schema ranges.now }
    requires limits { W.limits ≡ most_limits }
    requires schema { IsTrue (is_vschema schema) }
    requires ranges { FitRanges schema ranges.now }
    ensures given { OnOk result (HasPrinted (opening_of schema ranges.now) (opening_workflow schema ranges.now) lines.now (O.taken output.old) (O.taken output.new)) }
    ensures fault { IfErr result (λ f. status_of f ≡ FAILURE) }
{
    let limits = widest_limits();
    match administered_router::<W, J, Open>(alloc, schema, ranges, limits, opened, 0, Open) {
        Err(_) => Err(RunFault::OutOfMemory),
        Ok((engine, mut administrator, opener, pass)) => {
            let mut sessions = Sessions::new(alloc, opener, pass);
            let context = ScriptContext {
                rt,
                alloc,
                engine: &engine,
            };
            run_lines(&context, &mut administrator, &mut sessions, lines, output)
        }
    }
}

// Runs the lines over a router of this VSchema and these ranges, whose tables are empty.
fn run_in_world<W: World + Send + Sync, R: Threads + Wait + Sync, O: Sink>(
    rt: &R,
    alloc: Global,
    schema: VSchema,
    ranges: &[KeyRange],
    lines: &[u8],
    output: &mut O,
) -> Result<(), RunFault>
    requires opening { W.opening ≡ opening_of schema ranges.now }
    requires limits { W.limits ≡ most_limits }
    requires schema { IsTrue (is_vschema schema) }
    requires ranges { FitRanges schema ranges.now }
    ensures given { OnOk result (HasPrinted (opening_of schema ranges.now) (opening_workflow schema ranges.now) lines.now (O.taken output.old) (O.taken output.new)) }
    ensures fault { IfErr result (λ f. status_of f ≡ FAILURE) }
{
    let Ok(opened) = Opened::<ShardLaw<W>>::new(alloc) else {
        return Err(RunFault::OutOfMemory);
    };
    run_opened::<W, Brand, R, O>(rt, alloc, schema, ranges, opened, lines, output)
}

// The VSchema of the first line, over the ranges, and the other lines.
fn begin<'l>(
    alloc: Global,
    hashing: &Hashing,
    ranges: &[KeyRange],
    text: &'l [u8],
) -> Result<(VSchema, &'l [u8]), RunFault>
    requires { (word : List ℕ) × NamesPartition word ranges.now }
    ensures first { IfOk result (λ x. (first : List ℕ) × IsNextLine text.now first x.1.now × (schema_read first ≡ Ok (contents x.0))) }
    ensures formed { IfOk result (λ x. IsTrue (is_vschema x.0)) }
    ensures fit { IfOk result (λ x. FitRanges x.0 ranges.now) }
    ensures fault { IfErr result (λ f. status_of f ≡ WRONG_WORDS → DeclaresNone text.now ranges.now) }
{
    let Some((first, lines)) = next_line(text) else {
        return Err(RunFault::Schema(SchemaFault::NotJson));
    };
    match schema_of(alloc, hashing, first) {
        Ok(schema) => {
            if has_too_many(&schema, ranges) {
                Err(RunFault::WrongWords)
            } else {
                Ok((schema, lines))
            }
        }
        Err(fault) => Err(fault),
    }
}

fn scripted<R: Threads + Wait + Sync, I: Source, O: Sink>(
    rt: &R,
    alloc: Global,
    hashing: &Hashing,
    shards: &str,
    input: &mut I,
    output: &mut O,
) -> Result<(), RunFault>
    ensures ok { OnOk result (HasScripted shards.now (I.unread input.old) (I.unread input.new) (O.taken output.old) (O.taken output.new)) }
    ensures untouched { TellsNone shards.now → (input.new ≡ input.old) × (output.new ≡ output.old) }
    ensures fault { IfErr result (λ f. status_of f ≡ WRONG_WORDS → IsWrongScript shards.now (I.unread input.old) (I.unread input.new)) }
{
    let ranges = ranges_of(alloc, shards)?;
    let text = read_all(alloc, input)?;
    let (schema, lines) = begin(alloc, hashing, &ranges, &text)?;
    run_in_world::<Brand, R, O>(rt, alloc, schema, &ranges, lines, output)
}

/// Runs the lines of an input, of which the first declares the VSchema, over the ranges that the word of the shards names, and gives the
/// status 0. What is printed for a line is written before the next is run. The status is 1 if a device fails or there is no memory for
/// the input, for what it runs over or for a session; and 2 if the word names no ranges, or more than 63 with an unsharded keyspace,
/// and if the first line declares no VSchema. The word is tested before the input is read. Groups
/// are hashed by the key. The clauses tell what became of each of the devices, which are handed over one by one.
pub fn run_script<R: Threads + Wait + Sync, I: Source, O: Sink, E: Sink>(
    rt: &R,
    alloc: Global,
    hashing: &Hashing,
    shards: &str,
    input: &mut I,
    output: &mut O,
    errors: &mut E,
) -> u8
    ensures scripted { result ≡ SUCCESS → HasScripted shards.now (I.unread input.old) (I.unread input.new) (O.taken output.old) (O.taken output.new) }
    // A wrong word is refused before anything is read.
    ensures untouched { TellsNone shards.now → input.new ≡ input.old }
    // The status 2 has its cause.
    ensures cause { result ≡ WRONG_WORDS → IsWrongScript shards.now (I.unread input.old) (I.unread input.new) }
    ensures status { result ≤ 2 }
{
    if let Err(fault) = scripted(rt, alloc, hashing, shards, input, output) {
        return refuse(fault, output, errors);
    }
    SUCCESS
}
