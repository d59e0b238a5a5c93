//! Counters that the threads of a server add to, and a scrape sums.

ghost use Rattle.std.specs.Prelude.{◌≡◌, ◌<◌, ◌+◌, ◌*◌, ◌%◌};
ghost use Rattle.status_figures.specs.Layout.{index_of_counter};

use crate::counter::{Counter, WORDS, index_of};
use crate::totals::Totals;
use std::alloc::{AllocError, Global};
use std::sync::atomic::{AtomicU64, Ordering};

/// How many words each counter has. Connections take turns at them, so that no word is written by all.
pub const STRIPES: usize = 64;

/// Which word a connection adds to for a counter: that of the counter in its turn of them.
pub fn word_of(connection: u32, counter: Counter) -> usize
    ensures word { result ≡ connection % 64 * 280 + index_of_counter counter }
    ensures few { result < 17920 }
{
    let stripe = connection as usize % STRIPES;
    stripe * WORDS + index_of(counter)
}

/// Counters. A connection adds to the stripe of its number, and a scrape sums the stripes.
#[derive(Drop)]
pub struct Counts {
    words: Vec<AtomicU64>,
}

impl Counts {
    /// Nothing was counted. Refuses for want of memory.
    pub fn new(alloc: Global) -> Result<Counts, AllocError> {
        let mut words = Vec::with_capacity(alloc, STRIPES * WORDS)?;
        for _ in 0..STRIPES * WORDS {
            words.push(AtomicU64::new(0))?;
        }
        Ok(Counts { words })
    }

    /// Adds to a counter, for the connection of this number.
    pub fn add(&self, connection: u32, counter: Counter, more: u64) {
        if let Some(word) = self.words.get(word_of(connection, counter)) {
            word.fetch_add(more, Ordering::SeqCst);
        }
    }

    // Adds what a stripe has.
    fn add_stripe(totals: &mut Totals, stripe: &[AtomicU64]) {
        for (total, word) in totals.words.iter_mut().zip(stripe) {
            *total = total.wrapping_add(word.load(Ordering::SeqCst));
        }
    }

    /// The sums of all stripes.
    pub fn totals(&self) -> Totals {
        let mut totals = Totals::none();
        for stripe in self.words.chunks(WORDS) {
            Counts::add_stripe(&mut totals, stripe);
        }
        totals
    }
}
