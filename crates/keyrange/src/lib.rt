//! Ranges of keyspace ids.
#![tactic(auto)]

mod display;
mod edge;
mod names;
mod ranges;

pub use edge::Edge;
pub use names::one_range;
pub use ranges::covers_once;

/// A range of keyspace ids, from its begin to before its end. An empty begin comes before every id, and without an end
/// the range has no bound above.
#[derive(Clone, Copy, Debug, PartialEq, Eq)]
pub struct KeyRange {
    pub begin: Edge,
    pub end: Option<Edge>,
}

impl KeyRange {
    ghost use Rattle.std.specs.Prelude.{◌≡◌, [], None};

    // Promise: The range of all keyspace ids has an empty begin and no end; an edge's bytes
    // With: Edge::{empty, as_slice}
    /// The range of all ids.
    pub fn full() -> KeyRange
        ensures { result ≡ record { begin = []; end = None } }
    {
        KeyRange {
            begin: Edge::empty(),
            end: None,
        }
    }
}
