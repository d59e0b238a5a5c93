//! A sorted map of chunks that one thread changes while another walks a snapshot of it.
use row_chunks::{ChunkMap, Same};
use std::alloc::{AllocError, Global};
use std::thread::{Threads, join};
use vt_value::Refusal;

// How many entries the map has at first: some twenty chunks.
const COUNT: u64 = 4000;

#[derive(PartialEq, Eq, PartialOrd, Ord, Drop)]
struct Number(u64);

impl Clone for Number {
    ghost use Rattle.std.specs.Prelude.{◌≡◌};

    ghost is_clone = { λ a b. b ≡ a };

    fn clone(&self) -> Result<Number, AllocError> {
        Ok(Number(self.0))
    }
}

impl Same for Number {
    ghost same = { λ a b is. is };
}

type Map = ChunkMap<Number, Number>;

// Puts an entry in, if the key has none.
fn put_in(alloc: Global, map: &mut Map, key: u64, value: u64) -> Result<(), AllocError> {
    if !map.contains_key(&Number(key)) {
        map.reserve(alloc, Number(key), Number(value))?;
        map.close(&Number(key));
    }
    Ok(())
}

// Changes the value of a key, if it has one; takes that of every third key out.
fn change(alloc: Global, map: &mut Map, key: u64) -> Result<(), AllocError> {
    let number = Number(key);
    if map.contains_key(&number) {
        map.reserve(alloc, Number(key), Number(0))?;
        if key % 3 == 0 {
            map.remove(&number);
        } else {
            let _former = map.exchange(&number, Number(7));
        }
        map.close(&number);
    }
    Ok(())
}

// The even numbers, each with itself.
fn evens(alloc: Global) -> Result<Map, AllocError> {
    let mut map = ChunkMap::new(alloc);
    for i in 0..COUNT {
        put_in(alloc, &mut map, 2 * i, 2 * i)?;
    }
    Ok(map)
}

// Changes them, and puts the odd numbers in.
fn changed(alloc: Global, map: Map) -> Result<Map, AllocError> {
    let mut map = map;
    for i in 0..COUNT {
        change(alloc, &mut map, 2 * i)?;
        put_in(alloc, &mut map, 2 * i + 1, 1)?;
    }
    Ok(map)
}

// Whether a map has so many entries, whose values have this sum.
fn has(map: &Map, count: usize, sum: u64) -> bool {
    let mut values = 0u64;
    for (_, value) in map.walk() {
        values = values.wrapping_add(value.0);
    }
    map.len() == count && values == sum
}

/// A thread walks a snapshot again and again, while another changes, removes and adds entries: each finds its own.
pub(crate) fn snapshot_keeps_its_entries<R: Threads + Sync>(
    rt: &R,
    alloc: Global,
) -> Result<bool, Refusal> {
    let mut map = evens(alloc)?;
    let snapshot = map.snapshot(alloc)?;
    let sum = COUNT * (COUNT - 1);
    let (walked, map) = join(
        rt,
        move || (0..20u64).all(|_| has(&snapshot, COUNT as usize, sum)),
        move || changed(alloc, map),
    );
    // every third even number is gone, and the others are 7; each odd number is 1
    let gone = COUNT.div_ceil(3);
    let left = COUNT - gone;
    Ok(walked && has(&map?, (left + COUNT) as usize, left * 7 + COUNT))
}
