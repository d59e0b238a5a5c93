//! `vtgate plan`: the route of a statement, and its shards.
ghost use Rattle.std.specs.Prelude.{◌≡◌, ◌≤◌, IfOk, IfErr};
ghost use Rattle.vtgate_clients.specs.setup.Statuses.{IsWrong, TellsNone, status_of};
ghost use Rattle.vtgate_serve.specs.script.Planned.{IsPlanned, HasPlanned};

use std::alloc::Global;
use vschema::Hashing;
use vtgate_clients::setup::{
    RunFault, SUCCESS, WRONG_WORDS, ranges_of, read_schema, refuse, refuse_plainly,
};
use vtgate_clients::{Sink, Source};
use vtgate_lines::plan_line;

fn planned<I: Source>(
    alloc: Global,
    shards: &str,
    sql: &[u8],
    input: &mut I,
) -> Result<Vec<u8>, RunFault>
    ensures ok { IfOk result (λ line. IsPlanned shards.now sql.now (I.unread input.old) (I.unread input.new) line.items) }
    ensures untouched { TellsNone shards.now → input.new ≡ input.old }
    ensures fault { IfErr result (λ f. status_of f ≡ WRONG_WORDS → IsWrong shards.now (I.unread input.old) (I.unread input.new)) }
{
    let ranges = ranges_of(alloc, shards)?;
    // A plan makes no groups.
    let schema = read_schema(alloc, &Hashing::known(), &ranges, input)?;
    match plan_line(alloc, &schema, &ranges, sql) {
        Ok(line) => Ok(line),
        Err(refusal) => Err(RunFault::Refused(refusal)),
    }
}

/// Prints the line of a statement's plan, under the VSchema that the whole input declares and over the ranges that the word
/// of the shards names, and gives the status 0. Without a plan it is 1 if the statement is refused, whose line is printed, if a device
/// fails and if there is no memory; and 2 if the word names no ranges, or more than 63 with an unsharded keyspace, and
/// if the input declares no VSchema.
pub fn run_plan<I: Source, O: Sink, E: Sink>(
    alloc: Global,
    shards: &str,
    sql: &[u8],
    input: &mut I,
    output: &mut O,
    errors: &mut E,
) -> u8
    ensures planned { result ≡ SUCCESS → HasPlanned shards.now sql.now (I.unread input.old) (I.unread input.new) (O.taken output.old) (O.taken output.new) }
    // A wrong word is refused before anything is read.
    ensures untouched { TellsNone shards.now → input.new ≡ input.old }
    // The status 2 has its cause.
    ensures cause { result ≡ WRONG_WORDS → IsWrong shards.now (I.unread input.old) (I.unread input.new) }
    ensures status { result ≤ 2 }
{
    let line = match planned(alloc, shards, sql, input) {
        Ok(line) => line,
        Err(fault) => return refuse_plainly(fault, output, errors),
    };
    if output.write(&line).is_err() {
        return refuse(RunFault::Failed, output, errors);
    }
    SUCCESS
}
