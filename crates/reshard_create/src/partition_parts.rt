//! Which parts of a partition are named, and the ranges once targets replace them.
ghost use Rattle.std.specs.Prelude.{◌≡◌, ◌++◌, ◌∷◌, [], ◌↔◌, IsTrue, not, true, IfOk, OnOk, Contains, false};
ghost use Rattle.reshard_create.specs.split.Choices.{DoNotOverlap};
ghost use Rattle.reshard_create.specs.inner.Created.{AreNamed};
ghost use Rattle.keyrange.specs.Ranges.{Overlap};
ghost use Rattle.std.specs.List.{AllByRecursion};

use keyrange::KeyRange;
use serving::{Seated, ShardReference, copy_part};
use std::alloc::{AllocError, Global};

/// The parts of a partition whose ranges are named, and the others.
#[derive(Drop)]
pub struct ChosenParts<S: Seated + Drop> {
    pub taken: Vec<ShardReference<S>>,
    pub rest: Vec<ShardReference<S>>,
}

impl<S: Seated + Drop> ChosenParts<S> {
    // Adds a part to the ones or the others.
    fn add(&mut self, part: ShardReference<S>, named: bool) -> Result<(), AllocError>
        ensures named { OnOk result (named ≡ true → (self.new.taken.items ≡ self.old.taken.items ++ part ∷ []) × (self.new.rest.items ≡ self.old.rest.items)) }
        ensures other { OnOk result (named ≡ false → (self.new.taken.items ≡ self.old.taken.items) × (self.new.rest.items ≡ self.old.rest.items ++ part ∷ [])) }
    {
        if named {
            self.taken.push(part)?;
        } else {
            self.rest.push(part)?;
        }
        Ok(())
    }
}

// Whether the range is one of these.
fn is_among(range: &KeyRange, ranges: &[KeyRange]) -> bool
    ensures yes { result ≡ true → Contains ranges.now range.now }
    ensures no { result ≡ false → Contains ranges.now range.now → ⊥ }
{
    for other in ranges {
        if other == range {
            return true;
        }
    }
    false
}

/// Tells the parts whose ranges are named from the others.
pub fn choose<S: Seated + Drop>(
    alloc: Global,
    parts: &[ShardReference<S>],
    ranges: &[KeyRange],
) -> Result<ChosenParts<S>, AllocError>
    ensures ok { IfOk result (λ c. AreNamed ranges.now parts.now c.taken.items c.rest.items) }
    ensures taken { IfOk result (λ c. AllByRecursion (Contains parts.now) c.taken.items) }
    ensures rest { IfOk result (λ c. AllByRecursion (Contains parts.now) c.rest.items) }
{
    let mut chosen = ChosenParts {
        taken: Vec::new(alloc),
        rest: Vec::new(alloc),
    };
    for part in parts {
        let named = is_among(&part.range(), ranges);
        chosen.add(copy_part(part)?, named)?;
    }
    Ok(chosen)
}

fn overlaps_any(range: &KeyRange, others: &[KeyRange]) -> bool
    ensures no { result ≡ false → AllByRecursion (λ other. Overlap other range.now → ⊥) others.now }
    ensures yes { result ≡ true → AllByRecursion (λ other. Overlap other range.now → ⊥) others.now → ⊥ }
{
    others.iter().any(|other| other.overlaps(range))
}

/// Whether two of the ranges overlap.
pub fn any_overlap(ranges: &[KeyRange]) -> bool
    ensures { IsTrue (not result) ↔ DoNotOverlap ranges.now }
{
    for i in 0..ranges.len() {
        if overlaps_any(&ranges[i], &ranges[..i]) {
            return true;
        }
    }
    false
}
