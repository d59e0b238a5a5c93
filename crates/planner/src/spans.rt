//! Between which ids those of many values lie: a range that lies outside holds none of them.
ghost use Rattle.std.specs.Prelude.{◌≡◌, ℕ, List, [], ◌∷◌, ◌++◌, false, IsTrue, IfSome};
ghost use Rattle.vt_value.specs.declared.value.Value.{Value as V};
ghost use Rattle.keyrange.specs.Ranges.{is_before, has_id};
ghost use Rattle.planner.specs.KnownIds.{IsIdOf};
ghost use Rattle.planner.specs.inner.Spans.{IsBetween, AllIn};

use crate::members::KnownId;
use keyrange::KeyRange;
use vindex::AnyVindex;

/// The least and the greatest of ids of eight bytes by a vindex.
#[derive(Clone, Copy)]
pub struct Span {
    pub(crate) vindex: AnyVindex,
    pub(crate) least: [u8; 8],
    pub(crate) greatest: [u8; 8],
}

fn is_before(a: &[u8], b: &[u8]) -> bool
    ensures { result ≡ is_before a.now b.now }
{
    a.cmp(b).is_lt()
}

// The first of two ids.
#[tactic(auto, using(crate::proofs::Between::from_first, crate::proofs::Between::same))]
fn first(a: [u8; 8], b: [u8; 8]) -> [u8; 8]
    ensures left { (id : List ℕ) → is_before id a ≡ false → is_before id result ≡ false }
    ensures right { is_before b result ≡ false }
{
    if is_before(&b, &a) { b } else { a }
}

// The last of two ids.
#[tactic(auto, using(crate::proofs::Between::to_last, crate::proofs::Between::same))]
fn last(a: [u8; 8], b: [u8; 8]) -> [u8; 8]
    ensures left { (id : List ℕ) → is_before a id ≡ false → is_before result id ≡ false }
    ensures right { is_before result b ≡ false }
{
    if is_before(&a, &b) { b } else { a }
}

// The span with one more id in it.
fn widened(span: &Span, id: [u8; 8]) -> Span
    ensures vindex { result.vindex ≡ span.now.vindex }
    ensures both { (other : List ℕ) → IsBetween span.now other → IsBetween result other }
    ensures id { IsBetween result id }
{
    Span {
        vindex: span.vindex,
        least: first(span.least, id),
        greatest: last(span.greatest, id),
    }
}

/// The span of some values' ids, and of one more id by a vindex; none where one of them is no id of eight bytes by one vindex.
pub fn span_with(span: Option<Span>, is_first: bool, vindex: AnyVindex, id: KnownId) -> Option<Span>
    ensures { (values : List V) (v : V) → (IsTrue is_first → values ≡ []) → IfSome span (AllIn values) → IsIdOf vindex v id
        → IfSome result (AllIn (values ++ v ∷ [])) }
{
    let KnownId::Eight(bytes) = id else {
        return None;
    };
    if is_first {
        return Some(Span {
            vindex,
            least: bytes,
            greatest: bytes,
        });
    }
    match &span {
        Some(span) if span.vindex == vindex => Some(widened(span, bytes)),
        _ => None,
    }
}

#[tactic(auto, using(crate::proofs::Between::missed_below, crate::proofs::Between::missed_above))]
/// Whether a range holds no id of the span.
pub fn misses(span: &Span, range: &KeyRange) -> bool
    ensures { IsTrue result → (id : List ℕ) → IsBetween span.now id → has_id range.now id ≡ false }
{
    if is_before(&span.greatest, range.begin.as_slice()) {
        return true;
    }
    match &range.end {
        Some(end) => !is_before(&span.least, end.as_slice()),
        None => false,
    }
}
