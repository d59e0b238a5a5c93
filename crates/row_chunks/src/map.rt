ghost use Rattle.std.specs.Prelude.{◌≡◌, ◌<◌, ◌^◌, [], None, Some, if◌then◌else◌, IfOk, IfErr, IfSome, OnOk, OnErr, IsSome, option_copied, is_some, length};
ghost use Rattle.std.specs.Map.{keys_of, lookup, set_value, remove_entry};
ghost use Rattle.std.specs.BTreeMap.{insert_entry, is_at};
ghost use Rattle.std.specs.BTreeMap.Range.{entries_between};
ghost use Rattle.std.specs.declared.ops.Bound.TheVariants.{Included, Excluded, Unbounded};
ghost use Rattle.std.specs.List.Sorted.{IsStrictlySortedBy};
ghost use Rattle.std.specs.Arc.{arc_value};
ghost use Rattle.row_chunks.specs.Chunks.{all_of, content, changeable_in};

use crate::chunk::Same;
use crate::chunks::Chunks;
use crate::walk::{Walk, WalkBack};
use std::alloc::{AllocError, Global};
use std::marker::Model;
use std::mem;
use std::sync::Arc;

// A map has at most this many entries.
const MOST: usize = 1 << 62;

// Promise: Each call of the sorted map of chunks gives and leaves what the list of its entries would, in the order of their keys,
// whichever chunks they lie in. A snapshot has the entries of its moment, whatever is changed later. An entry that was made ready is
// changed without memory
/// A sorted map whose entries snapshots share. Contracts see a `MapView`.
pub struct ChunkMap<K: Ord, V> {
    // the chunks, unless others share them
    own: Chunks<K, V>,
    shared: Option<Arc<Chunks<K, V>>>,
    count: usize,
}

impl<K: Ord + Drop, V: Drop> Drop for ChunkMap<K, V> {
    // Who drops one calls this, and need not know what it owns.
    fn drop(self) {
        let ChunkMap {
            own,
            shared,
            count: _,
        } = self;
        drop(own);
        drop(shared);
    }
}

impl<K: Ord, V> Model for ChunkMap<K, V> {
    ghost use Rattle.std.specs.Prelude.{◌≡◌, ◌≤◌, ◌^◌, length};
    ghost use Rattle.row_chunks.specs.Chunks.{MapView, all_of, content, changeable_in};

    ghost Value = { MapView K V };

    ghost view = { λ m. record { entries = all_of (content m.own m.shared); ready = changeable_in m.own m.shared } };

    ghost invariant = { λ m. (m.count ≡ length (all_of (content m.own m.shared))) × (m.count ≤ 2 ^ 62) };
}

impl<K: Ord + Same, V: Same> ChunkMap<K, V> {
    /// No entries.
    pub fn new(alloc: Global) -> ChunkMap<K, V>
        ensures { result.entries ≡ [] }
    {
        ChunkMap {
            own: Chunks::new(alloc),
            shared: None,
            count: 0,
        }
    }

    fn chunks(&self) -> &Chunks<K, V>
        ensures { all_of result.now ≡ self.now.entries }
    {
        match &self.shared {
            Some(shared) => shared,
            None => &self.own,
        }
    }

    /// How many entries it has. The keys ascend.
    pub fn len(&self) -> usize
        ensures len { result ≡ length self.now.entries }
        ensures small { result < 2 ^ 63 }
        ensures ascend { IsStrictlySortedBy K.cmp (keys_of self.now.entries) }
    {
        let _chunks = self.chunks().as_slice();
        self.count
    }

    /// The value of a key.
    pub fn get(&self, key: &K) -> Option<&V>
        ensures { option_copied result ≡ lookup (is_at (K.cmp key.now)) self.now.entries }
    {
        self.chunks().get(key)
    }

    /// Whether a key has a value.
    pub fn contains_key(&self, key: &K) -> bool
        ensures { result ≡ is_some (lookup (is_at (K.cmp key.now)) self.now.entries) }
    {
        self.chunks().contains_key(key)
    }

    /// The value of a key, if it has one that can be changed without memory.
    pub fn ready(&self, key: &K) -> Option<&V>
        ensures ready { is_some result ≡ is_some (lookup (is_at (K.cmp key.now)) self.now.ready) }
        ensures value { IfSome result (λ v. lookup (is_at (K.cmp key.now)) self.now.entries ≡ Some v.now) }
    {
        match &self.shared {
            Some(_) => None,
            None => self.own.ready(key),
        }
    }

    /// All entries, in the order of their keys.
    pub fn walk(&self) -> Walk<'_, K, V>
        ensures { result ≡ self.now.entries }
    {
        self.chunks().walk()
    }

    /// The entries from a key on, in the order of their keys.
    pub fn walk_from(&self, key: &K) -> Walk<'_, K, V>
        ensures { result ≡ entries_between K.cmp (Included key.now) Unbounded self.now.entries }
    {
        self.chunks().walk_from(key)
    }

    /// All entries, from the last one on.
    pub fn walk_back(&self) -> WalkBack<'_, K, V>
        ensures { result ≡ self.now.entries }
    {
        self.chunks().walk_back()
    }

    /// The entries below a key, from the last one on.
    pub fn walk_back_below(&self, key: &K) -> WalkBack<'_, K, V>
        ensures { result ≡ entries_between K.cmp Unbounded (Excluded key.now) self.now.entries }
    {
        self.chunks().walk_back_below(key)
    }

    /// Makes the entry of a key changeable: the one that is there, or one with this value. Refuses for want of memory, or where there is no
    /// room; then the entries are as they were.
    pub fn reserve(&mut self, alloc: Global, key: K, value: V) -> Result<(), AllocError>
        ensures ok { OnOk result (self.new.entries ≡ (if is_some (lookup (is_at (K.cmp key)) self.old.entries) then self.old.entries else insert_entry K.cmp self.old.entries key value)) }
        ensures err { OnErr result (self.new.entries ≡ self.old.entries) }
        ensures open { OnOk result (IsSome (lookup (is_at (K.cmp key)) self.new.ready)) }
        ensures kept { (k : K) → IsSome (lookup (is_at (K.cmp k)) self.old.ready) → IsSome (lookup (is_at (K.cmp k)) self.new.ready) }
    {
        if self.count >= MOST {
            return Err(AllocError);
        }
        own_chunks(alloc, &mut self.own, &mut self.shared)?;
        if !self.own.reserve(alloc, key, value)? {
            self.count += 1;
        }
        Ok(())
    }

    /// Gives the entry of a key another value, and gives the former one; gives the value back, if the key has none that can be changed.
    /// Takes no memory.
    pub fn exchange(&mut self, key: &K, value: V) -> Result<V, V>
        ensures former { IfOk result (λ v. lookup (is_at (K.cmp key.now)) self.old.entries ≡ Some v) }
        ensures entries { OnOk result (self.new.entries ≡ set_value (is_at (K.cmp key.now)) self.old.entries value) }
        ensures err { IfErr result (λ v. v ≡ value) }
        ensures none { OnErr result (lookup (is_at (K.cmp key.now)) self.old.ready ≡ None) }
        ensures unchanged { OnErr result (self.new.entries ≡ self.old.entries) }
        ensures kept { (k : K) → IsSome (lookup (is_at (K.cmp k)) self.old.ready) → IsSome (lookup (is_at (K.cmp k)) self.new.ready) }
    {
        match &self.shared {
            Some(_) => Err(value),
            None => self.own.exchange(key, value),
        }
    }

    /// Takes the changeable entry of a key out. Takes no memory.
    pub fn remove(&mut self, key: &K)
        requires { IsSome (lookup (is_at (K.cmp key.now)) self.old.ready) }
        ensures { self.new.entries ≡ remove_entry (is_at (K.cmp key.now)) self.old.entries }
    {
        self.own.remove(key);
        self.count -= 1;
    }

    /// Makes the entries that stand with that of a key shareable, so that a snapshot needn't be followed by a copy of them. Takes no memory.
    pub fn close(&mut self, key: &K)
        ensures { self.new.entries ≡ self.old.entries }
    {
        if self.shared.is_none() {
            self.own.close(key);
        }
    }

    // Has its chunks where others can share them.
    fn share_chunks(&mut self, alloc: Global) -> Result<(), AllocError>
        ensures entries { self.new.entries ≡ self.old.entries }
    {
        if self.shared.is_some() {
            return Ok(());
        }
        let own = mem::replace(&mut self.own, Chunks::new(alloc));
        match Arc::new(alloc, own) {
            Ok(shared) => {
                self.shared = Some(shared);
                Ok(())
            }
            Err(failed) => {
                self.own = failed.value;
                Err(AllocError)
            }
        }
    }

    /// A map with the entries as they are now, whatever changes in either later. Takes the same time for a map of any size: the two share their
    /// chunks. The first change after it copies the list of chunks, if the other is still there, and the first in a chunk its entries.
    /// Refuses for want of memory.
    pub fn snapshot(&mut self, alloc: Global) -> Result<ChunkMap<K, V>, AllocError>
        ensures entries { self.new.entries ≡ self.old.entries }
        ensures snapshot { IfOk result (λ s. s.entries ≡ self.old.entries) }
    {
        self.share_chunks(alloc)?;
        let Some(shared) = &self.shared else {
            return Err(AllocError);
        };
        Ok(ChunkMap {
            own: Chunks::new(alloc),
            shared: Some(Arc::try_clone(shared)?),
            count: self.count,
        })
    }
}

// The chunks, or a copy of their list where others share it.
fn owned<K: Ord + Same, V: Same>(
    alloc: Global,
    shared: Arc<Chunks<K, V>>,
) -> Result<Chunks<K, V>, Arc<Chunks<K, V>>>
    ensures ok { IfOk result (λ own. all_of own ≡ all_of (arc_value shared)) }
    ensures err { IfErr result (λ s. s ≡ shared) }
{
    match Arc::try_unwrap(shared) {
        Ok(own) => Ok(own),
        Err(shared) => match shared.share(alloc) {
            Ok(own) => Ok(own),
            Err(_) => Err(shared),
        },
    }
}

// Has the chunks shared by nobody: copies the list of them where a snapshot has it.
fn own_chunks<K: Ord + Same, V: Same>(
    alloc: Global,
    own: &mut Chunks<K, V>,
    shared: &mut Option<Arc<Chunks<K, V>>>,
) -> Result<(), AllocError>
    ensures entries { all_of (content own.new shared.new) ≡ all_of (content own.old shared.old) }
    ensures own { OnOk result (shared.new ≡ None) }
    ensures kept { (k : K) → IsSome (lookup (is_at (K.cmp k)) (changeable_in own.old shared.old)) → IsSome (lookup (is_at (K.cmp k)) (changeable_in own.new shared.new)) }
{
    let Some(chunks) = shared.take() else {
        return Ok(());
    };
    match owned(alloc, chunks) {
        Ok(chunks) => {
            *own = chunks;
            Ok(())
        }
        Err(chunks) => {
            *shared = Some(chunks);
            Err(AllocError)
        }
    }
}
