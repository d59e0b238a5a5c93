//! The word that names the shards of a keyspace: the names of their ranges, with commas between them.
ghost use Rattle.std.specs.Prelude.{◌≡◌, ◌∷◌, [], ◌++◌, false, List, IsTrue, IfOk, IfSome, IfNone, IsSomeAnd};
ghost use Rattle.keyrange.specs.Names.{IsNameOf};
ghost use Rattle.keyrange.specs.declared.KeyRange.{KeyRange};
ghost use Rattle.vtgate_lines.specs.Partitions.{IsListOf, NamesPartition};

use keyrange::{KeyRange, covers_once};
use std::alloc::{AllocError, Global};

/// How many ranges a keyspace may have at most.
pub const MOST_RANGES: usize = 64;

/// Puts the range of this name after the others, and returns whether there is one.
fn push_named(ranges: &mut Vec<KeyRange>, name: &str) -> Result<bool, AllocError>
    ensures found { IfOk result (λ b. IsTrue b → (range : KeyRange) × IsNameOf name.now range × (ranges.new.items ≡ ranges.old.items ++ range ∷ [])) }
    ensures none { IfOk result (λ b. b ≡ false → (range : KeyRange) → IsNameOf name.now range → ⊥) }
{
    match KeyRange::read(name) {
        // by its edges: the check can't follow a whole range of another crate here
        Some(KeyRange { begin, end }) => {
            ranges.push(KeyRange { begin, end })?;
            Ok(true)
        }
        None => Ok(false),
    }
}

/// The ranges of which the text has the names, in the text's order. `None` if some part is no range's name.
pub(crate) fn named_ranges(alloc: Global, text: &str) -> Result<Option<Vec<KeyRange>>, AllocError>
    ensures found { IfOk result (λ o. IfSome o (λ v. IsListOf text.now v.items)) }
    ensures only { IfOk result (λ o. (ranges : List KeyRange) → IsListOf text.now ranges → IsSomeAnd o (λ v. v.items ≡ ranges)) }
{
    let mut ranges = Vec::new(alloc);
    let mut rest = text;
    while let Some((name, more)) = rest.split_once(',') {
        if !push_named(&mut ranges, name)? {
            return Ok(None);
        }
        rest = more;
    }
    if push_named(&mut ranges, rest)? {
        Ok(Some(ranges))
    } else {
        Ok(None)
    }
}

// Promise: A word names ranges exactly when it has the names of at most 64 that cover each id once; they come in range order
/// The ranges that a comma list of names has, as `-80,80-`, in the order of their begins. `None` if some part is no
/// range's name, if there are more than 64, or if some id lies in none of them or in several.
pub fn read_ranges(alloc: Global, text: &str) -> Result<Option<Vec<KeyRange>>, AllocError>
    ensures found { IfOk result (λ o. IfSome o (λ v. NamesPartition text.now v.items)) }
    ensures none { IfOk result (λ o. IfNone o ((ranges : List KeyRange) → NamesPartition text.now ranges → ⊥)) }
{
    let Some(mut ranges) = named_ranges(alloc, text)? else {
        return Ok(None);
    };
    ranges.sort_unstable_by(|a, b| a.begin.as_slice().cmp(b.begin.as_slice()));
    if ranges.len() <= MOST_RANGES && covers_once(&ranges) {
        Ok(Some(ranges))
    } else {
        Ok(None)
    }
}
