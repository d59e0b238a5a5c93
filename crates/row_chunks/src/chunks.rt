ghost use Rattle.std.specs.Prelude.{true, ◌≡◌, ◌+◌, ◌<◌, ◌≤◌, [], None, Some, if◌then◌else◌, IfOk, IfErr, OnOk, OnErr, IfSome, MatchOption, IsTrue, IsSome, Some, is_some, option_copied, slice_index_or, length};
ghost use Rattle.std.specs.Map.{keys_of, lookup, set_value, remove_entry};
ghost use Rattle.std.specs.BTreeMap.{insert_entry, is_at};
ghost use Rattle.std.specs.BTreeMap.Range.{entries_between};
ghost use Rattle.std.specs.declared.ops.Bound.TheVariants.{Included, Excluded, Unbounded};
ghost use Rattle.std.specs.List.Sorted.{IsStrictlySortedBy};
ghost use Rattle.row_chunks.specs.Chunks.{ChunkView, AreParted, all_of, open_of, spans};
ghost use Rattle.row_chunks.specs.inner.Splits.{begun};

use crate::chunk::{Chunk, Same, copy_key};
use crate::walk::{Walk, WalkBack};
use std::alloc::{AllocError, Global};
use std::marker::Model;

// A chunk gets no more entries than this.
const MOST: usize = 256;

/// The chunks of a sorted map, in order. Contracts see a list of `ChunkView`s.
#[derive(Drop)]
pub(crate) struct Chunks<K: Ord, V> {
    list: Vec<Chunk<K, V>>,
}

impl<K: Ord, V> Model for Chunks<K, V> {
    ghost use Rattle.std.specs.Prelude.{List};
    ghost use Rattle.row_chunks.specs.Chunks.{ChunkView, IsShelf};

    ghost Value = { List (ChunkView K V) };

    ghost view = { λ s. s.list.items };

    ghost invariant = { λ s. IsShelf K.cmp s.list.items };
}

impl<K: Ord + Same, V: Same> Chunks<K, V> {
    /// No chunks.
    pub fn new(alloc: Global) -> Chunks<K, V>
        ensures { result ≡ [] }
    {
        Chunks {
            list: Vec::new(alloc),
        }
    }

    /// The chunks themselves. The keys ascend.
    pub fn as_slice(&self) -> &[Chunk<K, V>]
        ensures chunks { result.now ≡ self.now }
        ensures ascend { IsStrictlySortedBy K.cmp (keys_of (all_of self.now)) }
    {
        self.list.as_slice()
    }

    // How many chunks, from the first on, begin at a key or before it.
    fn begun(&self, key: &K) -> usize
        ensures begun { result ≡ begun K.cmp key.now self.now }
        ensures fits { result ≤ length self.now }
        ensures parted { AreParted K.cmp (spans self.now) }
    {
        self.list
            .as_slice()
            .partition_point(|c| !c.from().cmp(key).is_gt())
    }

    // The place of the chunk that a key belongs into: the last that begins at the key or before it.
    fn place_of(&self, key: &K) -> Option<usize>
        ensures place { MatchOption result (begun K.cmp key.now self.now ≡ 0) (λ n. begun K.cmp key.now self.now ≡ n + 1) }
        ensures fits { IfSome result (λ n. n < length self.now) }
        ensures parted { AreParted K.cmp (spans self.now) }
    {
        let begun = self.begun(key);
        if begun == 0 { None } else { Some(begun - 1) }
    }

    /// The value of a key.
    pub fn get(&self, key: &K) -> Option<&V>
        ensures { option_copied result ≡ lookup (is_at (K.cmp key.now)) (all_of self.now) }
    {
        match self.place_of(key) {
            Some(place) => self.list[place].rows().get(key),
            None => None,
        }
    }

    /// Whether a key has a value.
    pub fn contains_key(&self, key: &K) -> bool
        ensures { result ≡ is_some (lookup (is_at (K.cmp key.now)) (all_of self.now)) }
    {
        match self.place_of(key) {
            Some(place) => self.list[place].contains_key(key),
            None => false,
        }
    }

    // A first chunk, from a key on.
    fn begin(&mut self, alloc: Global, from: K) -> Result<(), AllocError>
        requires { self.old ≡ [] }
        ensures all { all_of self.new ≡ all_of self.old }
        ensures open { open_of self.new ≡ open_of self.old }
        ensures ok { OnOk result (0 < begun K.cmp from self.new) }
    {
        let first = Chunk::new(alloc, from)?;
        self.list.push(first)?;
        Ok(())
    }

    // Has the first chunk begin at a lower key.
    fn lower(&mut self, from: K)
        requires some { 0 < length self.old }
        requires below { begun K.cmp from self.old ≡ 0 }
        ensures all { all_of self.new ≡ all_of self.old }
        ensures open { open_of self.new ≡ open_of self.old }
        ensures begun { 0 < begun K.cmp from self.new }
    {
        self.list[0].begin_at(from);
    }

    // Has a chunk begin at a key or before it.
    fn reach(&mut self, alloc: Global, key: &K) -> Result<(), AllocError>
        ensures all { all_of self.new ≡ all_of self.old }
        ensures open { open_of self.new ≡ open_of self.old }
        ensures ok { OnOk result (0 < begun K.cmp key.now self.new) }
    {
        if self.place_of(key).is_some() {
            return Ok(());
        }
        let from = copy_key(key)?;
        if self.list.is_empty() {
            self.begin(alloc, from)
        } else {
            self.lower(from);
            Ok(())
        }
    }

    // Makes a chunk changeable.
    fn open_at(&mut self, alloc: Global, place: usize) -> Result<(), AllocError>
        requires { place < length self.old }
        ensures all { all_of self.new ≡ all_of self.old }
        ensures len { length self.new ≡ length self.old }
        ensures begun { (k : K) → begun K.cmp k self.new ≡ begun K.cmp k self.old }
        ensures ok { OnOk result ((c : ChunkView K V) → slice_index_or self.new place c ≡ c → c.is_open ≡ true) }
        ensures found { OnOk result ((k : K) → begun K.cmp k self.old ≡ place + 1 → IsSome (lookup (is_at (K.cmp k)) (all_of self.old)) → IsSome (lookup (is_at (K.cmp k)) (open_of self.new))) }
        ensures kept { (k : K) → IsSome (lookup (is_at (K.cmp k)) (open_of self.old)) → IsSome (lookup (is_at (K.cmp k)) (open_of self.new)) }
    {
        self.list[place].open(alloc)
    }

    // Makes two chunks of one that is long and changeable.
    fn part(&mut self, alloc: Global, place: usize) -> Result<(), AllocError>
        requires there { place < length self.old }
        requires open { (c : ChunkView K V) → slice_index_or self.old place c ≡ c → c.is_open ≡ true }
        ensures all { all_of self.new ≡ all_of self.old }
        ensures open { open_of self.new ≡ open_of self.old }
    {
        if self.list[place].len() < MOST {
            return Ok(());
        }
        self.list.reserve(1)?;
        let Some(upper) = self.list[place].split(alloc)? else {
            return Ok(());
        };
        self.list.insert(place + 1, upper)?;
        Ok(())
    }

    // Makes the chunk that a key belongs into changeable, and two of it where it is long. Refuses for want of memory.
    fn part_for(&mut self, alloc: Global, key: &K) -> Result<(), AllocError>
        ensures all { all_of self.new ≡ all_of self.old }
        ensures kept { (k : K) → IsSome (lookup (is_at (K.cmp k)) (open_of self.old)) → IsSome (lookup (is_at (K.cmp k)) (open_of self.new)) }
    {
        match self.place_of(key) {
            Some(place) => {
                self.open_at(alloc, place)?;
                self.part(alloc, place)
            }
            None => Ok(()),
        }
    }

    // Puts an entry into the chunk that its key belongs into, unless the key has one; tells whether it has.
    fn reserve_at(&mut self, place: usize, key: K, value: V) -> Result<bool, AllocError>
        requires there { begun K.cmp key self.old ≡ place + 1 }
        requires fits { place < length self.old }
        requires open { (c : ChunkView K V) → slice_index_or self.old place c ≡ c → c.is_open ≡ true }
        ensures there { IfOk result (λ there. there ≡ is_some (lookup (is_at (K.cmp key)) (all_of self.old))) }
        ensures ok { IfOk result (λ there. all_of self.new ≡ (if there then all_of self.old else insert_entry K.cmp (all_of self.old) key value)) }
        ensures err { OnErr result (all_of self.new ≡ all_of self.old) }
        ensures open { OnOk result (IsSome (lookup (is_at (K.cmp key)) (open_of self.new))) }
        ensures kept { (k : K) → IsSome (lookup (is_at (K.cmp k)) (open_of self.old)) → IsSome (lookup (is_at (K.cmp k)) (open_of self.new)) }
    {
        self.list[place].reserve(key, value)
    }

    // Makes a chunk changeable, and puts an entry into it, as `reserve_at`.
    fn reserve_in(
        &mut self,
        alloc: Global,
        place: usize,
        key: K,
        value: V,
    ) -> Result<bool, AllocError>
        requires there { begun K.cmp key self.old ≡ place + 1 }
        requires fits { place < length self.old }
        ensures there { IfOk result (λ there. there ≡ is_some (lookup (is_at (K.cmp key)) (all_of self.old))) }
        ensures ok { IfOk result (λ there. all_of self.new ≡ (if there then all_of self.old else insert_entry K.cmp (all_of self.old) key value)) }
        ensures err { OnErr result (all_of self.new ≡ all_of self.old) }
        ensures open { OnOk result (IsSome (lookup (is_at (K.cmp key)) (open_of self.new))) }
        ensures kept { (k : K) → IsSome (lookup (is_at (K.cmp k)) (open_of self.old)) → IsSome (lookup (is_at (K.cmp k)) (open_of self.new)) }
    {
        self.open_at(alloc, place)?;
        self.reserve_at(place, key, value)
    }

    // Whether a chunk has so many entries that it is to be made two before it gets one more.
    fn is_long(&self, place: usize) -> bool
        requires { place < length self.now }
    {
        self.list[place].len() >= MOST
    }

    // Has a chunk that isn't long begin at a key or before it, where the key's one is long or there is none, and puts an entry into it.
    fn reserve_apart(&mut self, alloc: Global, key: K, value: V) -> Result<bool, AllocError>
        ensures there { IfOk result (λ there. there ≡ is_some (lookup (is_at (K.cmp key)) (all_of self.old))) }
        ensures ok { IfOk result (λ there. all_of self.new ≡ (if there then all_of self.old else insert_entry K.cmp (all_of self.old) key value)) }
        ensures err { OnErr result (all_of self.new ≡ all_of self.old) }
        ensures open { OnOk result (IsSome (lookup (is_at (K.cmp key)) (open_of self.new))) }
        ensures kept { (k : K) → IsSome (lookup (is_at (K.cmp k)) (open_of self.old)) → IsSome (lookup (is_at (K.cmp k)) (open_of self.new)) }
    {
        self.part_for(alloc, &key)?;
        self.reach(alloc, &key)?;
        match self.place_of(&key) {
            Some(place) => self.reserve_in(alloc, place, key, value),
            None => Err(AllocError),
        }
    }

    /// Makes the entry of a key changeable: the one that is there, or one with this value; tells whether one was there. Refuses for want of
    /// memory; then the entries are as they were.
    pub fn reserve(&mut self, alloc: Global, key: K, value: V) -> Result<bool, AllocError>
        ensures there { IfOk result (λ there. there ≡ is_some (lookup (is_at (K.cmp key)) (all_of self.old))) }
        ensures ok { IfOk result (λ there. all_of self.new ≡ (if there then all_of self.old else insert_entry K.cmp (all_of self.old) key value)) }
        ensures err { OnErr result (all_of self.new ≡ all_of self.old) }
        ensures open { OnOk result (IsSome (lookup (is_at (K.cmp key)) (open_of self.new))) }
        ensures kept { (k : K) → IsSome (lookup (is_at (K.cmp k)) (open_of self.old)) → IsSome (lookup (is_at (K.cmp k)) (open_of self.new)) }
    {
        match self.place_of(&key) {
            Some(place) if !self.is_long(place) => self.reserve_in(alloc, place, key, value),
            _ => self.reserve_apart(alloc, key, value),
        }
    }

    /// The value of a key, if it has one that can be changed.
    pub fn ready(&self, key: &K) -> Option<&V>
        ensures ready { is_some result ≡ is_some (lookup (is_at (K.cmp key.now)) (open_of self.now)) }
        ensures value { IfSome result (λ v. lookup (is_at (K.cmp key.now)) (all_of self.now) ≡ Some v.now) }
    {
        match self.place_of(key) {
            Some(place) => self.list[place].ready(key),
            None => None,
        }
    }

    // The place of the chunk of a key whose entry can be changed.
    fn open_place(&self, key: &K) -> usize
        requires { IsSome (lookup (is_at (K.cmp key.now)) (open_of self.now)) }
        ensures place { begun K.cmp key.now self.now ≡ result + 1 }
        ensures fits { result < length self.now }
        ensures open { (c : ChunkView K V) → slice_index_or self.now result c ≡ c → c.is_open ≡ true }
        ensures there { (c : ChunkView K V) → slice_index_or self.now result c ≡ c → IsSome (lookup (is_at (K.cmp key.now)) c.entries) }
        ensures parted { AreParted K.cmp (spans self.now) }
    {
        self.begun(key) - 1
    }

    // `exchange` in the chunk that a key belongs into.
    fn exchange_at(&mut self, place: usize, key: &K, value: V) -> Result<V, V>
        requires there { begun K.cmp key.now self.old ≡ place + 1 }
        requires fits { place < length self.old }
        ensures former { IfOk result (λ v. lookup (is_at (K.cmp key.now)) (all_of self.old) ≡ Some v) }
        ensures all { OnOk result (all_of self.new ≡ set_value (is_at (K.cmp key.now)) (all_of self.old) value) }
        ensures err { IfErr result (λ v. v ≡ value) }
        ensures none { OnErr result (lookup (is_at (K.cmp key.now)) (open_of self.old) ≡ None) }
        ensures unchanged { OnErr result (all_of self.new ≡ all_of self.old) }
        ensures kept { (k : K) → IsSome (lookup (is_at (K.cmp k)) (open_of self.old)) → IsSome (lookup (is_at (K.cmp k)) (open_of self.new)) }
    {
        self.list[place].exchange(key, value)
    }

    /// Gives the entry of a key another value, and gives the former one; gives the value back, if the key has none that can be changed.
    /// Takes no memory.
    pub fn exchange(&mut self, key: &K, value: V) -> Result<V, V>
        ensures former { IfOk result (λ v. lookup (is_at (K.cmp key.now)) (all_of self.old) ≡ Some v) }
        ensures all { OnOk result (all_of self.new ≡ set_value (is_at (K.cmp key.now)) (all_of self.old) value) }
        ensures err { IfErr result (λ v. v ≡ value) }
        ensures none { OnErr result (lookup (is_at (K.cmp key.now)) (open_of self.old) ≡ None) }
        ensures unchanged { OnErr result (all_of self.new ≡ all_of self.old) }
        ensures kept { (k : K) → IsSome (lookup (is_at (K.cmp k)) (open_of self.old)) → IsSome (lookup (is_at (K.cmp k)) (open_of self.new)) }
    {
        match self.place_of(key) {
            Some(place) => self.exchange_at(place, key, value),
            None => Err(value),
        }
    }

    // Takes the changeable entry of a key out of its chunk, and tells which chunk that is.
    fn remove_from_chunk(&mut self, key: &K) -> usize
        requires { IsSome (lookup (is_at (K.cmp key.now)) (open_of self.old)) }
        ensures all { all_of self.new ≡ remove_entry (is_at (K.cmp key.now)) (all_of self.old) }
        ensures fits { result < length self.new }
    {
        let place = self.open_place(key);
        self.list[place].remove(key);
        place
    }

    // Gives a chunk up that has no entries.
    fn give_up_if_empty(&mut self, place: usize)
        requires { place < length self.old }
        ensures { all_of self.new ≡ all_of self.old }
    {
        if self.list[place].rows().is_empty() {
            self.list.remove(place);
        }
    }

    /// Takes the changeable entry of a key out, and gives its chunk up if that was the last one there. Takes no memory.
    pub fn remove(&mut self, key: &K)
        requires { IsSome (lookup (is_at (K.cmp key.now)) (open_of self.old)) }
        ensures { all_of self.new ≡ remove_entry (is_at (K.cmp key.now)) (all_of self.old) }
    {
        let place = self.remove_from_chunk(key);
        self.give_up_if_empty(place);
    }

    // Makes a chunk shareable.
    fn close_at(&mut self, place: usize)
        requires { place < length self.old }
        ensures { all_of self.new ≡ all_of self.old }
    {
        self.list[place].close();
    }

    /// Makes the chunk that a key belongs into shareable. Takes no memory.
    pub fn close(&mut self, key: &K)
        ensures { all_of self.new ≡ all_of self.old }
    {
        if let Some(place) = self.place_of(key) {
            self.close_at(place);
        }
    }

    /// All entries, in the order of their keys.
    pub fn walk(&self) -> Walk<'_, K, V>
        ensures { result ≡ all_of self.now }
    {
        Walk {
            first: None,
            rest: self.list.as_slice(),
        }
    }

    /// The entries from a key on, in the order of their keys.
    pub fn walk_from(&self, key: &K) -> Walk<'_, K, V>
        ensures { result ≡ entries_between K.cmp (Included key.now) Unbounded (all_of self.now) }
    {
        let chunks = self.list.as_slice();
        match self.place_of(key) {
            Some(place) => Walk {
                first: Some(chunks[place].rows().range(key..)),
                rest: &chunks[place + 1..],
            },
            None => Walk {
                first: None,
                rest: chunks,
            },
        }
    }

    /// All entries, from the last one on.
    pub fn walk_back(&self) -> WalkBack<'_, K, V>
        ensures { result ≡ all_of self.now }
    {
        WalkBack {
            rest: self.list.as_slice(),
            last: None,
        }
    }

    /// The entries below a key, from the last one on.
    pub fn walk_back_below(&self, key: &K) -> WalkBack<'_, K, V>
        ensures { result ≡ entries_between K.cmp Unbounded (Excluded key.now) (all_of self.now) }
    {
        let chunks = self.list.as_slice();
        match self.place_of(key) {
            Some(place) => WalkBack {
                rest: &chunks[..place],
                last: Some(chunks[place].rows().range(..key)),
            },
            None => WalkBack {
                rest: &chunks[..0],
                last: None,
            },
        }
    }

    /// Chunks with the same entries, which share those of each chunk that isn't changeable. Refuses for want of memory.
    pub fn share(&self, alloc: Global) -> Result<Chunks<K, V>, AllocError>
        ensures { IfOk result (λ chunks. all_of chunks ≡ all_of self.now) }
    {
        let list = shared(alloc, self.list.as_slice())?;
        Ok(Chunks { list })
    }
}

fn shared<K: Ord + Same, V: Same>(
    alloc: Global,
    chunks: &[Chunk<K, V>],
) -> Result<Vec<Chunk<K, V>>, AllocError>
    ensures { IfOk result (λ list. spans list.items ≡ spans chunks.now) }
{
    let mut list = Vec::with_capacity(alloc, chunks.len())?;
    for chunk in chunks {
        list.push(chunk.share(alloc)?)?;
    }
    Ok(list)
}
