//! The sources that a target takes from: those that overlap it.
ghost use Rattle.std.specs.Prelude.{◌≡◌, ◌++◌, ◌∷◌, [], IfOk, OnOk, map};
ghost use Rattle.reshard_cutover.specs.Overlapping.{AreThose};
ghost use Rattle.reshard_create.specs.split.Splits.{AreOverlapped};
ghost use Rattle.reshard_create.specs.split.inner.Grown.{HasGrown};

use journal::Naming;
use keyrange::KeyRange;
use reshard_cutover::{SourceShard, WorkflowShard};
use shard::{World, copy_shard};
use std::alloc::{AllocError, Global};
use std::sync::Arc;
use vt_value::Items;

/// Another handle of the member, whose shard is shared.
pub fn copy_member<W: World, J: Naming>(
    alloc: Global,
    member: &WorkflowShard<W, J>,
) -> Result<WorkflowShard<W, J>, AllocError>
    ensures ok { IfOk result (λ copy. copy.which ≡ member.now.which) }
    ensures shard { IfOk result (λ copy. copy.shard.value ≡ member.now.shard.value) }
{
    let shard = Arc::try_clone(&member.shard)?;
    let which = copy_shard(alloc, &member.which)?;
    Ok(WorkflowShard { which, shard })
}

/// Sources that a target takes from, and their slots.
#[derive(Drop)]
pub struct TargetSources<W: World, J: Naming> {
    pub slots: Items<usize>,
    pub members: Vec<WorkflowShard<W, J>>,
}

impl<W: World, J: Naming> TargetSources<W, J> {
    fn add(&mut self, alloc: Global, member: &WorkflowShard<W, J>) -> Result<(), AllocError>
        ensures slots { OnOk result (self.new.slots ≡ self.old.slots ++ member.now.which.slot ∷ []) }
        ensures members { OnOk result (map (λ m. m.which) self.new.members.items ≡ map (λ m. m.which) self.old.members.items ++ member.now.which ∷ []) }
    {
        self.slots.push(member.which.slot)?;
        self.members.push(copy_member(alloc, member)?)?;
        Ok(())
    }
}

impl<W: World, J: Naming> TargetSources<W, J> {
    // Adds the source if it overlaps the range.
    fn consider(
        &mut self,
        alloc: Global,
        range: &KeyRange,
        member: &WorkflowShard<W, J>,
    ) -> Result<(), AllocError>
        requires { self.old.slots ≡ map (λ s. s.slot) (map (λ m. m.which) self.old.members.items) }
        ensures slots { OnOk result (self.new.slots ≡ map (λ s. s.slot) (map (λ m. m.which) self.new.members.items)) }
        ensures grown { OnOk result (HasGrown range.now member.now.which (map (λ m. m.which) self.old.members.items) (map (λ m. m.which) self.new.members.items)) }
    {
        if !member.which.place.range.overlaps(range) {
            return Ok(());
        }
        self.add(alloc, member)?;
        Ok(())
    }
}

/// Those of the sources that overlap the range.
pub fn overlapping_sources<W: World, J: Naming>(
    alloc: Global,
    range: &KeyRange,
    sources: &[SourceShard<W, J>],
) -> Result<TargetSources<W, J>, AllocError>
    ensures slots { IfOk result (λ own. own.slots ≡ map (λ s. s.slot) (map (λ m. m.which) own.members.items)) }
    ensures own { IfOk result (λ own. AreOverlapped (map (λ s. s.member.which) sources.now) range.now (map (λ m. m.which) own.members.items)) }
    ensures those { IfOk result (λ own. AreThose range.now (map (λ s. s.member.which) sources.now) (map (λ m. m.which) own.members.items)) }
{
    let mut own = TargetSources {
        slots: Items::new(alloc),
        members: Vec::new(alloc),
    };
    for source in sources {
        own.consider(alloc, range, &source.member)?;
    }
    Ok(own)
}
