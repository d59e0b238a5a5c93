//! The ranges of the next partition.
ghost use Rattle.std.specs.Prelude.{◌≡◌, ◌++◌, IfOk, map};

use keyrange::KeyRange;
use serving::{Seated, ShardReference};
use std::alloc::{AllocError, Global};

/// A partition has at most so many parts.
pub const MOST_PARTS: usize = 64;

/// The ranges of the parts, and the targets after them.
pub fn next_ranges<S: Seated + Drop>(
    alloc: Global,
    parts: &[ShardReference<S>],
    targets: &[KeyRange],
) -> Result<Vec<KeyRange>, AllocError>
    ensures ok { IfOk result (λ r. r.items ≡ map (λ p. p.1) parts.now ++ targets.now) }
{
    let mut ranges = Vec::new(alloc);
    for part in parts {
        ranges.push(part.range())?;
    }
    for target in targets {
        ranges.push(*target)?;
    }
    Ok(ranges)
}
