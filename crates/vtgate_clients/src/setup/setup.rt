//! What a run needs: the ranges of its words, and the VSchema that its input declares.
ghost use Rattle.std.specs.Prelude.{◌≡◌, ◌≤◌, ◌⊎◌, ℕ, List, true, false, not, length, Ok, IsTrue, IfOk, IfErr};
ghost use Rattle.std.specs.List.{list_any};
ghost use Rattle.vschema.specs.Meant.{contents, schema_read};
ghost use Rattle.vschema.specs.WellFormed.{is_vschema};
ghost use Rattle.shard_run.specs.opening.Empty.{empty_shards, FitRanges};
ghost use Rattle.vtgate_lines.specs.Partitions.{NamesPartition};
ghost use Rattle.vtgate_clients.specs.setup.Inputs.{HasDeclared};
ghost use Rattle.vtgate_clients.specs.setup.Statuses.{AreTooMany, IsNoSchema, IsWrong, TellsNone, status_of};

use crate::setup::input::read_all;
use crate::setup::run_fault::{RunFault, WRONG_WORDS};
use keyrange::KeyRange;
use session::conversation::Source;
use std::alloc::Global;
use std::str;
use vschema::{Hashing, SchemaFault, VSchema};
use vtgate_lines::{MOST_RANGES, read_ranges};

/// The ranges that the word of the shards names.
pub fn ranges_of(alloc: Global, shards: &str) -> Result<Vec<KeyRange>, RunFault>
    ensures told { IfOk result (λ ranges. NamesPartition shards.now ranges.items) }
    ensures fault { IfErr result (λ f. status_of f ≡ WRONG_WORDS → TellsNone shards.now) }
    ensures wrong { IfErr result (λ f. (f ≡ RunFault.WrongWords) ⊎ (f ≡ RunFault.OutOfMemory)) }
{
    match read_ranges(alloc, shards) {
        Ok(Some(ranges)) => Ok(ranges),
        Ok(None) => Err(RunFault::WrongWords),
        Err(_) => Err(RunFault::OutOfMemory),
    }
}

/// The VSchema that a text declares, whose statements hash groups by the key. A text that isn't UTF-8 is no JSON.
pub fn schema_of(alloc: Global, hashing: &Hashing, bytes: &[u8]) -> Result<VSchema, RunFault>
    ensures declared { IfOk result (λ schema. schema_read bytes.now ≡ Ok (contents schema)) }
    ensures formed { IfOk result (λ schema. IsTrue (is_vschema schema)) }
    ensures fault { IfErr result (λ f. status_of f ≡ WRONG_WORDS → IsNoSchema bytes.now) }
{
    let Ok(text) = str::from_utf8(bytes) else {
        return Err(RunFault::Schema(SchemaFault::NotJson));
    };
    match VSchema::read(alloc, text) {
        Ok(schema) => Ok(schema.keyed(hashing)),
        Err(SchemaFault::OutOfMemory) => Err(RunFault::OutOfMemory),
        Err(fault) => Err(RunFault::Schema(fault)),
    }
}

fn has_unsharded(schema: &VSchema) -> bool
    ensures { result ≡ list_any (λ k. not k.sharded) schema.now.keyspaces }
{
    let keyspaces = schema.keyspaces.as_slice();
    keyspaces.iter().any(|keyspace| !keyspace.sharded)
}

/// Whether there are more than 63 ranges with an unsharded keyspace, whose shard is one of the shards.
pub fn has_too_many(schema: &VSchema, ranges: &[KeyRange]) -> bool
    ensures few { result ≡ false → length ranges.now ≤ MOST_RANGES → length (empty_shards schema.now ranges.now) ≤ MOST_RANGES }
    ensures many { result ≡ true → AreTooMany schema.now ranges.now }
{
    if ranges.len() < MOST_RANGES {
        return false;
    }
    has_unsharded(schema)
}

/// The VSchema that the whole input declares, whose statements hash groups by the key, and which fits the ranges. A text that declares none is
/// left in `text`.
pub fn read_schema_or_text<I: Source>(
    alloc: Global,
    hashing: &Hashing,
    ranges: &[KeyRange],
    input: &mut I,
    text: &mut Vec<u8>,
) -> Result<VSchema, RunFault>
    requires { (word : List ℕ) × NamesPartition word ranges.now }
    ensures read { IfOk result (λ schema. HasDeclared (I.unread input.old) (I.unread input.new) schema) }
    ensures formed { IfOk result (λ schema. IsTrue (is_vschema schema)) }
    ensures fit { IfOk result (λ schema. FitRanges schema ranges.now) }
    ensures fault { IfErr result (λ f. status_of f ≡ WRONG_WORDS → (word : List ℕ) → NamesPartition word ranges.now → IsWrong word (I.unread input.old) (I.unread input.new)) }
{
    let bytes = read_all(alloc, input)?;
    match schema_of(alloc, hashing, &bytes) {
        Ok(schema) => {
            if has_too_many(&schema, ranges) {
                Err(RunFault::WrongWords)
            } else {
                Ok(schema)
            }
        }
        Err(fault) => {
            *text = bytes;
            Err(fault)
        }
    }
}

// Promise: A VSchema is read from the whole input, and fits the ranges; the cause of a wrong call is the word of the shards or the input
/// The VSchema that the whole input declares, whose statements hash groups by the key, and which fits the ranges.
pub fn read_schema<I: Source>(
    alloc: Global,
    hashing: &Hashing,
    ranges: &[KeyRange],
    input: &mut I,
) -> Result<VSchema, RunFault>
    requires { (word : List ℕ) × NamesPartition word ranges.now }
    ensures read { IfOk result (λ schema. HasDeclared (I.unread input.old) (I.unread input.new) schema) }
    ensures formed { IfOk result (λ schema. IsTrue (is_vschema schema)) }
    ensures fit { IfOk result (λ schema. FitRanges schema ranges.now) }
    ensures fault { IfErr result (λ f. status_of f ≡ WRONG_WORDS → (word : List ℕ) → NamesPartition word ranges.now → IsWrong word (I.unread input.old) (I.unread input.new)) }
{
    let mut text = Vec::new(alloc);
    read_schema_or_text(alloc, hashing, ranges, input, &mut text)
}
