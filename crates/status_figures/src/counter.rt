//! What is counted, and which word has it.
ghost use Rattle.std.specs.Prelude.{◌≡◌, ◌<◌};
ghost use Rattle.status_figures.specs.Layout.{index_of_counter};

use crate::ending::Ending;
use crate::kind::Kind;
use crate::latency::BUCKETS;

/// What is counted.
#[derive(Clone, Copy)]
pub enum Counter {
    /// Statements of a kind whose time is in a bucket.
    Bucket(Kind, usize),
    /// The microseconds that statements of a kind took.
    Micros(Kind),
    /// Refusals of a number.
    Refusal(u8),
    /// Connections that have ended so.
    Ended(Ending),
    /// Connections that a worker has taken.
    Begun,
    /// Rows that were sent, or changed.
    Rows,
    /// Bytes that came, and that were sent.
    Received,
    Sent,
}

/// One more than the greatest number of a refusal.
pub const REFUSALS: usize = 27;

/// How many words there are for a kind: its buckets, and its time.
const KIND_WORDS: usize = 20;

/// How many words the counters take, a multiple of a cache line.
pub const WORDS: usize = 280;

// Promise: What is counted of one thing is never counted as another: each counter is in the word that the layout gives it
/// Which word has a counter. A bucket past the last counts as the last, and likewise the number of a refusal.
pub fn index_of(counter: Counter) -> usize
    ensures index { result ≡ index_of_counter counter }
    ensures few { result < 280 }
{
    match counter {
        Counter::Bucket(kind, bucket) => kind.number() * KIND_WORDS + bucket.min(BUCKETS - 1),
        Counter::Micros(kind) => kind.number() * KIND_WORDS + BUCKETS,
        Counter::Refusal(number) => 240 + usize::from(number).min(REFUSALS - 1),
        Counter::Ended(ending) => 267 + ending.number(),
        Counter::Begun => 276,
        Counter::Rows => 277,
        Counter::Received => 278,
        Counter::Sent => 279,
    }
}
