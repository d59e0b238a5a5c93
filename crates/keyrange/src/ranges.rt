//! What ranges are asked: whether an id lies in one, whether two overlap, and whether several hold each id once.
ghost use Rattle.std.specs.Prelude.{◌≡◌, ◌↔◌, IsTrue};
ghost use Rattle.keyrange.specs.Ranges.{is_before, has_id, Overlap, Cover};
ghost use Rattle.keyrange.specs.inner.Covers.{later, is_in_one, has_edges_in_one, HasByteEdges};

use crate::{Edge, KeyRange};

pub(crate) fn is_before(a: &[u8], b: &[u8]) -> bool
    ensures { result ≡ is_before a.now b.now }
{
    a.cmp(b).is_lt()
}

fn later<'e>(a: &'e [u8], b: &'e [u8]) -> &'e [u8]
    ensures { result.now ≡ later a.now b.now }
{
    if is_before(a, b) { b } else { a }
}

impl KeyRange {
    // Promise: A range holds the ids from its begin to before its end; two overlap exactly when some id lies in both
    // With: KeyRange::overlaps
    /// Whether a keyspace id lies in the range.
    pub fn contains(&self, id: &[u8]) -> bool
        ensures { result ≡ has_id self.now id.now }
    {
        if is_before(id, self.begin.as_slice()) {
            return false;
        }
        match &self.end {
            Some(end) => is_before(id, end.as_slice()),
            None => true,
        }
    }

    /// Whether some keyspace id lies in both ranges: if one does, the later begin does.
    pub fn overlaps(&self, other: &KeyRange) -> bool
        ensures { IsTrue result ↔ Overlap self.now other.now }
    {
        let start = later(self.begin.as_slice(), other.begin.as_slice());
        self.contains(start) && other.contains(start)
    }

    // Whether each of the range's edges lies in exactly one of the ranges. An id lies where the greatest edge up to it
    // lies, so the edges decide for all ids.
    fn has_edges_in_one(&self, ranges: &[KeyRange]) -> bool
        ensures edges { result ≡ has_edges_in_one ranges.now self.now }
        ensures bytes { HasByteEdges self.now }
    {
        let begin = is_in_one(ranges, self.begin.as_slice());
        let end = match &self.end {
            Some(end) => is_in_one(ranges, end.as_slice()),
            None => true,
        };
        begin && end
    }
}

// Whether the id lies in exactly one of the ranges.
fn is_in_one(ranges: &[KeyRange], id: &[u8]) -> bool
    ensures { result ≡ is_in_one ranges.now id.now }
{
    ranges.iter().filter(|range| range.contains(id)).count() == 1
}

// Promise: Ranges cover, in any order, exactly when each id lies in just one
/// Whether each keyspace id lies in exactly one of the ranges, in whatever order they are. It takes no memory, and
/// compares each edge with each range.
pub fn covers_once(ranges: &[KeyRange]) -> bool
    ensures { IsTrue result ↔ Cover ranges.now }
{
    is_in_one(ranges, &[]) && ranges.iter().all(|range| range.has_edges_in_one(ranges))
}
