//! The sums of all counters at one moment.
ghost use Rattle.std.specs.Prelude.{◌≡◌, ◌≤◌};
ghost use Rattle.status_figures.specs.Layout.{counted, in_buckets, statements_of};

use crate::counter::{Counter, WORDS, index_of};
use crate::kind::Kind;
use crate::latency::BUCKETS;

/// The sums of all counters.
#[derive(Drop)]
pub struct Totals {
    pub words: [u64; WORDS],
}

impl Totals {
    /// Nothing was counted.
    pub fn none() -> Totals {
        Totals { words: [0; WORDS] }
    }

    // Promise: What is shown of a counter is that counter's sum
    /// What a counter came to.
    pub fn of(&self, counter: Counter) -> u64
        ensures { result ≡ counted self.now counter }
    {
        self.words[index_of(counter)]
    }

    // Promise: What is shown of the statements of a kind is the sum of its buckets, and of no other kind's
    /// How many statements of a kind took no longer than the bounds of so many first buckets.
    pub fn within(&self, kind: Kind, buckets: usize) -> u64
        requires { buckets ≤ 18 }
        ensures { result ≡ in_buckets self.now kind buckets }
    {
        let mut count = 0u64;
        for bucket in 0..buckets {
            count = count.wrapping_add(self.of(Counter::Bucket(kind, bucket)));
        }
        count
    }

    /// How many statements of a kind there were.
    #[tactic(auto, unfolding(crate::specs::Layout::statements_of))]
    pub fn statements(&self, kind: Kind) -> u64
        ensures { result ≡ statements_of self.now kind }
    {
        self.within(kind, BUCKETS)
    }
}
