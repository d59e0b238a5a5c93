ghost use Rattle.std.specs.Map.Iter.{TakesLast, deref_pair};

use crate::chunk::{Chunk, Same};
use std::collections::btree_map::Range;
use std::marker::Model;

/// The entries of a map that are still to come, in the order of their keys. Contracts see them.
#[derive(Drop)]
pub struct Walk<'a, K: Ord, V> {
    pub(crate) first: Option<Range<'a, K, V>>,
    pub(crate) rest: &'a [Chunk<K, V>],
}

impl<'a, K: Ord, V> Model for Walk<'a, K, V> {
    ghost use Rattle.std.specs.Prelude.{List};
    ghost use Rattle.row_chunks.specs.Chunks.{left_of};

    ghost Value = { List (K × V) };

    ghost view = { λ w. left_of w.first w.rest.now };
}

impl<'a, K: Ord + Same, V: Same> Iterator for Walk<'a, K, V> {
    ghost use Rattle.std.specs.Prelude.{length};
    ghost use Rattle.std.specs.Iterator.{at_most};
    ghost use Rattle.std.specs.Map.Iter.{TakesFirst, deref_pair};

    type Item = (&'a K, &'a V);

    ghost next_gives = { TakesFirst deref_pair };

    ghost remaining = { λ s. at_most (length s) };

    fn next(&mut self) -> Option<(&'a K, &'a V)> {
        if let Some(first) = &mut self.first {
            if let Some(entry) = first.next() {
                return Some(entry);
            }
        }
        self.first = None;
        while let Some((chunk, rest)) = self.rest.split_first() {
            self.rest = rest;
            let mut first = chunk.rows().range(..);
            if let Some(entry) = first.next() {
                self.first = Some(first);
                return Some(entry);
            }
        }
        None
    }
}

/// The entries of a map that are still to come, from the last one on. Contracts see them in the order of their keys.
#[derive(Drop)]
pub struct WalkBack<'a, K: Ord, V> {
    pub(crate) rest: &'a [Chunk<K, V>],
    pub(crate) last: Option<Range<'a, K, V>>,
}

impl<'a, K: Ord, V> Model for WalkBack<'a, K, V> {
    ghost use Rattle.std.specs.Prelude.{List};
    ghost use Rattle.row_chunks.specs.Chunks.{before_of};

    ghost Value = { List (K × V) };

    ghost view = { λ w. before_of w.rest.now w.last };
}

impl<'a, K: Ord + Same, V: Same> WalkBack<'a, K, V> {
    /// The last entry that is still to come.
    pub fn next(&mut self) -> Option<(&'a K, &'a V)>
        ensures { TakesLast deref_pair self.old result self.new }
    {
        if let Some(last) = &mut self.last {
            if let Some(entry) = last.next_back() {
                return Some(entry);
            }
        }
        self.last = None;
        while let Some((chunk, rest)) = self.rest.split_last() {
            self.rest = rest;
            let mut last = chunk.rows().range(..);
            if let Some(entry) = last.next_back() {
                self.last = Some(last);
                return Some(entry);
            }
        }
        None
    }
}
