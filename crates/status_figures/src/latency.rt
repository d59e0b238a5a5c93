//! The buckets of a histogram of times.
ghost use Rattle.std.specs.Prelude.{◌≡◌, ◌≤◌, ◌<◌, ℕ, slice_index};

/// The most microseconds of each bucket but the last, which has no bound.
pub const BOUNDS: [u64; 17] = [
    50, 100, 250, 500, 1_000, 2_500, 5_000, 10_000, 25_000, 50_000, 100_000, 250_000, 500_000,
    1_000_000, 2_500_000, 5_000_000, 10_000_000,
];

/// How many buckets there are.
pub const BUCKETS: usize = 18;

// Promise: A time is in the first bucket whose bound it doesn't exceed
/// The bucket of a time in microseconds: the first one whose bound it doesn't exceed.
pub fn bucket_of(micros: u64) -> usize
    ensures few { result < 18 }
    ensures above { (k : ℕ) → k < result → slice_index BOUNDS k < micros }
    ensures within { result < 17 → micros ≤ slice_index BOUNDS result }
{
    for bucket in 0..17 {
        if micros <= BOUNDS[bucket] {
            return bucket;
        }
    }
    17
}
