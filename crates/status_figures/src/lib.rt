//! What is counted of a served router, and what its status shows.
#![tactic(auto)]

mod counter;
mod counts;
mod ending;
mod figures;
mod kind;
mod latency;
mod tally;
mod totals;

pub use counter::{Counter, REFUSALS, WORDS, index_of};
pub use counts::{Counts, STRIPES, word_of};
pub use ending::{ENDINGS, Ending};
pub use figures::{
    ConnectionFigures, CutoverFigures, Figures, ShardFigures, ShardMode, WorkflowFigures,
    WorkflowState,
};
pub use keyrange::{Edge, KeyRange};
pub use kind::{KINDS, Kind, kind_of};
pub use latency::{BOUNDS, BUCKETS, bucket_of};
pub use tally::Tally;
pub use totals::Totals;
