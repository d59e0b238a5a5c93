//! The partition that was published last is the one that is read.
ghost use Rattle.std.specs.Prelude.{◌≡◌, [], ◌∷◌, IfOk};
ghost use Rattle.keyrange.specs.Names.{IsNamed};
ghost use Rattle.serving.specs.Partitions.{IsPartition, AreOf};

use keyrange::{KeyRange, covers_once};
use serving::{MOST_PUBLISHED, Partition, Seated, Serving, ShardReference};
use std::alloc::Global;
use std::sync::Arc;
use vt_value::Refusal;

// A slot and a range in the place of a shard.
#[derive(Drop)]
struct Chair {
    slot: usize,
    range: KeyRange,
}

impl Seated for Chair {
    ghost seat = { λ chair. (chair.slot, chair.range, 0) };

    fn slot(&self) -> usize {
        self.slot
    }

    fn range(&self) -> KeyRange {
        self.range
    }

    fn keyspace(&self) -> usize {
        0
    }
}

fn one_part(
    alloc: Global,
    slot: usize,
    range: KeyRange,
) -> Result<Vec<ShardReference<Chair>>, Refusal>
    ensures { IfOk result (λ parts. parts.items ≡ (slot, range, 0) ∷ []) }
{
    let chair = Arc::new(alloc, Chair { slot, range })?;
    let mut parts = Vec::new(alloc);
    parts.push(ShardReference::new(chair))?;
    Ok(parts)
}

// All keyspace ids on one slot.
fn whole(alloc: Global, slot: usize) -> Result<Partition<Chair>, Refusal>
    ensures { IfOk result (λ p. AreOf 0 p) }
{
    let range = KeyRange::read("-").ok_or(Refusal::SyntaxError)?;
    if !covers_once(&[range]) {
        return Err(Refusal::SyntaxError);
    }
    Ok(Partition::new(0, one_part(alloc, slot, range)?))
}

fn current_slot(serving: &Serving<Chair>) -> Option<usize> {
    let [part] = serving.current().parts() else {
        return None;
    };
    Some(part.slot())
}

// Whether the next partition, on the slot, is taken.
fn is_published(alloc: Global, serving: &Serving<Chair>, slot: usize) -> Result<bool, Refusal>
    requires { serving.now ≡ 0 }
{
    let next = Box::new(alloc, whole(alloc, slot)?)?;
    Ok(serving.publish(next).is_ok())
}

// The slots of the partitions that were present after each that was published, and the last after one more, which isn't taken; none if
// one is taken that isn't to be, or handed back.
fn present_slots(alloc: Global, serving: &Serving<Chair>) -> Result<Vec<Option<usize>>, Refusal>
    requires { serving.now ≡ 0 }
{
    let mut slots = Vec::new(alloc);
    let done = push_slots(alloc, serving, &mut slots);
    match done {
        Ok(()) => Ok(slots),
        Err(refusal) => Err(refusal),
    }
}

fn push_slots(
    alloc: Global,
    serving: &Serving<Chair>,
    slots: &mut Vec<Option<usize>>,
) -> Result<(), Refusal>
    requires { serving.now ≡ 0 }
{
    for slot in 1..=MOST_PUBLISHED.saturating_add(1) {
        let is_taken = is_published(alloc, serving, slot)?;
        let is_right = is_taken == (slot <= MOST_PUBLISHED);
        slots.push(if is_right {
            current_slot(serving)
        } else {
            None
        })?;
    }
    Ok(())
}

// Whether each is the slot of the partition published last: they begin after the first, and end after one that wasn't taken.
fn are_last(slots: &[Option<usize>]) -> bool {
    for (before, present) in slots.iter().enumerate() {
        if *present != Some(before.saturating_add(1).min(MOST_PUBLISHED)) {
            return false;
        }
    }
    slots.len() > MOST_PUBLISHED
}

/// The opening partition is present first, and then each that is published.
pub(crate) fn current_is_opening_partition(alloc: Global) -> Result<bool, Refusal> {
    let serving = Serving::new(alloc, 0, whole(alloc, 0)?)?;
    if current_slot(&serving) != Some(0) {
        return Ok(false);
    }
    let slots = present_slots(alloc, &serving)?;
    Ok(are_last(slots.as_slice()))
}
