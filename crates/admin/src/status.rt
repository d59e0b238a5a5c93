//! The status: which ranges are served, and how far a workflow is.
ghost use Rattle.std.specs.Prelude.{◌≡◌, ◌++◌, true, false, List, IfOk, OnOk, IsPermutation, IsSorted, codes, map};
ghost use Rattle.keyrange.specs.declared.KeyRange.{KeyRange};
ghost use Rattle.keyrange.specs.Names.{range_text};
ghost use Rattle.vtgate_lines.specs.Partitions.{range_cmp};
ghost use Rattle.admin.specs.Words.{status_text};
ghost use Rattle.admin.specs.AdminAnswers.{AreStatusRanges, IsAnsweredWithout, IsStatus, TellsStatus};

use crate::reply::AdminReply;
use crate::words::stage_word;
use journal::Naming;
use keyrange::KeyRange;
use reshard::{ReshardFault, Stage, Workflow};
use route_engine::{Shard, World};
use serving::{Seated, Serving, ShardReference};
use std::alloc::{AllocError, Global};
use vt_value::{Items, Refusal};

fn put_range(alloc: Global, out: &mut Vec<u8>, range: &KeyRange) -> Result<(), AllocError>
    ensures ok { OnOk result (out.new.items ≡ out.old.items ++ codes " " ++ range_text range.now) }
{
    let name = format!(in alloc; " {range}")?;
    out.extend_from_slice(name.as_bytes())?;
    Ok(())
}

// The line that has the ranges and the stage.
fn status_line(alloc: Global, serving: &[KeyRange], stage: Stage) -> Result<Vec<u8>, AllocError>
    ensures ok { IfOk result (λ line. line.items ≡ status_text serving.now stage) }
{
    let mut out = Vec::from_slice(alloc, b"serving")?;
    for range in serving {
        put_range(alloc, &mut out, range)?;
    }
    out.extend_from_slice(b" ")?;
    out.extend_from_slice(stage_word(stage).as_bytes())?;
    out.extend_from_slice(b"\n")?;
    Ok(out)
}

// Whether shards are being replaced.
fn has_workflow(stage: Stage) -> bool
    ensures yes { result ≡ true → stage ≡ Stage.None → ⊥ }
    ensures no { result ≡ false → stage ≡ Stage.None }
{
    match stage {
        Stage::None => false,
        _ => true,
    }
}

fn ranges_of<S: Seated + Drop>(
    alloc: Global,
    parts: &[ShardReference<S>],
) -> Result<Vec<KeyRange>, AllocError>
    ensures ok { IfOk result (λ r. r.items ≡ map (λ seat. seat.1) parts.now) }
{
    let mut ranges = Vec::new(alloc);
    for part in parts {
        ranges.push(part.range())?;
    }
    Ok(ranges)
}

// The ranges that are served.
fn served_ranges<W: World, J: Naming>(
    alloc: Global,
    workflow: &Workflow<W, J>,
    serving: &Serving<Shard<W, J>>,
) -> Result<Vec<KeyRange>, AllocError>
    requires home { serving.now ≡ workflow.now.keyspace }
    ensures ok { IfOk result (λ r. AreStatusRanges workflow.now r.items) }
{
    if has_workflow(workflow.stage()) {
        return workflow.served_ranges(alloc);
    }
    ranges_of(alloc, serving.current().parts())
}

// The ranges that are served, in the order of their begins.
fn ordered_ranges<W: World, J: Naming>(
    alloc: Global,
    workflow: &Workflow<W, J>,
    serving: &Serving<Shard<W, J>>,
) -> Result<Vec<KeyRange>, AllocError>
    requires home { serving.now ≡ workflow.now.keyspace }
    ensures ok { IfOk result (λ r. (told : List KeyRange) × AreStatusRanges workflow.now told × IsPermutation told r.items × IsSorted range_cmp r.items) }
{
    let mut ranges = served_ranges(alloc, workflow, serving)?;
    ranges.sort_unstable_by(|a, b| a.begin.as_slice().cmp(b.begin.as_slice()));
    Ok(ranges)
}

// The line of a keyspace's status.
fn keyspace_line<W: World, J: Naming>(
    alloc: Global,
    workflow: &Workflow<W, J>,
    serving: &Serving<Shard<W, J>>,
) -> Result<Items<u8>, AllocError>
    requires home { serving.now ≡ workflow.now.keyspace }
    ensures ok { IfOk result (IsStatus workflow.now) }
{
    let ranges = ordered_ranges(alloc, workflow, serving)?;
    let line = status_line(alloc, ranges.as_slice(), workflow.stage())?;
    Ok(Items::from_vec(line))
}

/// Answers with the status of a keyspace. Takes memory for its line.
pub(crate) fn status<W: World, J: Naming>(
    alloc: Global,
    workflow: &Workflow<W, J>,
    serving: &Serving<Shard<W, J>>,
) -> AdminReply
    requires home { serving.now ≡ workflow.now.keyspace }
    ensures { TellsStatus workflow.now result }
{
    match keyspace_line(alloc, workflow, serving) {
        Ok(text) => AdminReply::Status(text),
        Err(_) => AdminReply::Refused(ReshardFault::Refused(Refusal::OutOfMemory)),
    }
}

/// Answers with the status if there is no sharded keyspace.
pub(crate) fn empty_status(alloc: Global) -> AdminReply
    ensures { IsAnsweredWithout (codes "status") result }
{
    match status_line(alloc, &[], Stage::None) {
        Ok(line) => AdminReply::Status(Items::from_vec(line)),
        Err(_) => AdminReply::Refused(ReshardFault::Refused(Refusal::OutOfMemory)),
    }
}
