ghost use Rattle.std.specs.Prelude.{◌≡◌, [], IfOk, IfErr, OnOk, OnErr, IfSome, IfNone, IsTrue, IsSome, Some, None, is_some, option_copied, true, false, if◌then◌else◌};
ghost use Rattle.std.specs.Map.{keys_of, lookup, set_value, remove_entry};
ghost use Rattle.std.specs.BTreeMap.{insert_entry, is_at};
ghost use Rattle.std.specs.List.Sorted.{IsStrictlySortedBy};
ghost use Rattle.std.specs.Arc.{arc_value};
ghost use Rattle.std.specs.declared.cmp.Ordering.TheVariants.{Less};
ghost use Rattle.row_chunks.specs.Chunks.{changeable};
ghost use Rattle.row_chunks.specs.inner.Splits.{IsSplit};

use std::alloc::{AllocError, Global};
use std::collections::BTreeMap;
use std::collections::btree_map::Entry;
use std::marker::Model;
use std::mem;
use std::sync::Arc;

/// Values whose clones are equal to them.
pub trait Same: Clone {
    ghost same: { (x y : Self) → Self.is_clone x y → y ≡ x };
}

/// Some entries of a map that stand next to each other. Contracts see a `ChunkView`.
#[derive(Drop)]
pub(crate) struct Chunk<K: Ord, V> {
    from: K,
    // the entries, while they can be changed: nobody shares them
    own: BTreeMap<K, V>,
    // the entries, while they cannot; otherwise memory for when they are to be shared again
    shared: Arc<BTreeMap<K, V>>,
    is_open: bool,
}

impl<K: Ord, V> Model for Chunk<K, V> {
    ghost use Rattle.std.specs.Prelude.{if◌then◌else◌};
    ghost use Rattle.std.specs.Arc.{arc_value};
    ghost use Rattle.row_chunks.specs.Chunks.{ChunkView};

    ghost Value = { ChunkView K V };

    ghost view = { λ c. record { from = c.from; entries = if c.is_open then c.own.entries else (arc_value c.shared).entries; is_open = c.is_open } };
}

/// An equal key. Refuses for want of memory.
pub(crate) fn copy_key<K: Same>(key: &K) -> Result<K, AllocError>
    ensures { IfOk result (λ k. k ≡ key.now) }
{
    key.clone()
}

fn copy_of<K: Ord + Same, V: Same>(rows: &BTreeMap<K, V>) -> Result<BTreeMap<K, V>, AllocError>
    ensures { IfOk result (λ copy. copy.entries ≡ rows.now.entries) }
{
    rows.clone()
}

impl<K: Ord + Same, V: Same> Chunk<K, V> {
    /// No entries, from a key on. Refuses for want of memory.
    pub fn new(alloc: Global, from: K) -> Result<Chunk<K, V>, AllocError>
        ensures from { IfOk result (λ c. c.from ≡ from) }
        ensures entries { IfOk result (λ c. c.entries ≡ []) }
        ensures open { IfOk result (λ c. c.is_open ≡ true) }
    {
        let shared = Arc::new(alloc, BTreeMap::new(alloc))?;
        Ok(Chunk {
            from,
            own: BTreeMap::new(alloc),
            shared,
            is_open: true,
        })
    }

    /// The key that none of its keys is below.
    pub fn from(&self) -> &K
        ensures { result.now ≡ self.now.from }
    {
        &self.from
    }

    /// Its entries.
    pub fn rows(&self) -> &BTreeMap<K, V>
        ensures { result.now.entries ≡ self.now.entries }
    {
        if self.is_open {
            &self.own
        } else {
            &self.shared
        }
    }

    // Whether its keys end before a key: where rows are added in the order of their keys, that is known without a search.
    fn ends_before(&self, key: &K) -> bool
        ensures { IsTrue result → lookup (is_at (K.cmp key.now)) self.now.entries ≡ None }
    {
        match self.rows().last_key_value() {
            Some((last, _)) => last.cmp(key).is_lt(),
            None => false,
        }
    }

    /// Whether a key has a value.
    pub fn contains_key(&self, key: &K) -> bool
        ensures { result ≡ is_some (lookup (is_at (K.cmp key.now)) self.now.entries) }
    {
        !self.ends_before(key) && self.rows().contains_key(key)
    }

    /// Has it begin at a lower key.
    pub fn begin_at(&mut self, from: K)
        ensures from { self.new.from ≡ from }
        ensures entries { self.new.entries ≡ self.old.entries }
        ensures open { self.new.is_open ≡ self.old.is_open }
    {
        self.from = from;
    }

    /// Makes the entries changeable: a copy of them, where others share them. Refuses for want of memory.
    pub fn open(&mut self, alloc: Global) -> Result<(), AllocError>
        ensures from { self.new.from ≡ self.old.from }
        ensures entries { self.new.entries ≡ self.old.entries }
        ensures open { OnOk result (self.new.is_open ≡ true) }
        ensures unchanged { OnErr result (self.new ≡ self.old) }
    {
        if self.is_open {
            return Ok(());
        }
        match Arc::get_mut(&mut self.shared) {
            Some(rows) => mem::swap(&mut self.own, rows),
            None => {
                let own = copy_of(&self.shared)?;
                self.shared = Arc::new(alloc, BTreeMap::new(alloc))?;
                self.own = own;
            }
        }
        self.is_open = true;
        Ok(())
    }

    /// Makes the entries shareable. Takes no memory.
    pub fn close(&mut self)
        ensures from { self.new.from ≡ self.old.from }
        ensures entries { self.new.entries ≡ self.old.entries }
    {
        if self.is_open {
            if let Some(rows) = Arc::get_mut(&mut self.shared) {
                mem::swap(&mut self.own, rows);
                self.is_open = false;
            }
        }
    }

    /// A chunk with the same entries, which shares them if this one isn't open. Refuses for want of memory.
    pub fn share(&self, alloc: Global) -> Result<Chunk<K, V>, AllocError>
        ensures from { IfOk result (λ c. c.from ≡ self.now.from) }
        ensures entries { IfOk result (λ c. c.entries ≡ self.now.entries) }
    {
        let from = copy_key(&self.from)?;
        let shared = if self.is_open {
            Arc::new(alloc, copy_of(&self.own)?)?
        } else {
            Arc::try_clone(&self.shared)?
        };
        Ok(Chunk {
            from,
            own: BTreeMap::new(alloc),
            shared,
            is_open: false,
        })
    }

    /// Puts an entry in. Refuses for want of memory.
    pub fn insert(&mut self, key: K, value: V) -> Result<(), AllocError>
        requires { self.old.is_open ≡ true }
        ensures from { self.new.from ≡ self.old.from }
        ensures open { self.new.is_open ≡ true }
        ensures ok { OnOk result (self.new.entries ≡ insert_entry K.cmp self.old.entries key value) }
        ensures unchanged { OnErr result (self.new ≡ self.old) }
    {
        self.own.insert(key, value)?;
        Ok(())
    }

    /// Puts an entry in, unless the key has one; tells whether it has. Refuses for want of memory.
    pub fn reserve(&mut self, key: K, value: V) -> Result<bool, AllocError>
        requires { self.old.is_open ≡ true }
        ensures from { self.new.from ≡ self.old.from }
        ensures open { self.new.is_open ≡ true }
        ensures there { IfOk result (λ there. there ≡ is_some (lookup (is_at (K.cmp key)) self.old.entries)) }
        ensures ok { IfOk result (λ there. self.new.entries ≡ (if there then self.old.entries else insert_entry K.cmp self.old.entries key value)) }
        ensures unchanged { OnErr result (self.new.entries ≡ self.old.entries) }
    {
        let Ok(entry) = self.own.entry(key) else {
            return Err(AllocError);
        };
        let vacant = match entry {
            Entry::Vacant(vacant) => vacant,
            Entry::Occupied(occupied) => {
                occupied.into_mut();
                return Ok(true);
            }
        };
        vacant.insert(value);
        Ok(false)
    }

    /// Gives a key that it has another value, and gives the former one; gives the value back, if the key has none that can be changed.
    /// Takes no memory.
    pub fn exchange(&mut self, key: &K, value: V) -> Result<V, V>
        ensures from { self.new.from ≡ self.old.from }
        ensures open { self.new.is_open ≡ self.old.is_open }
        ensures former { IfOk result (λ v. lookup (is_at (K.cmp key.now)) self.old.entries ≡ Some v) }
        ensures entries { OnOk result (self.new.entries ≡ set_value (is_at (K.cmp key.now)) self.old.entries value) }
        ensures err { IfErr result (λ v. v ≡ value) }
        ensures none { OnErr result (lookup (is_at (K.cmp key.now)) (changeable self.old) ≡ None) }
        ensures unchanged { OnErr result (self.new.entries ≡ self.old.entries) }
    {
        if !self.is_open {
            return Err(value);
        }
        match self.own.get_mut(key) {
            Some(place) => Ok(mem::replace(place, value)),
            None => Err(value),
        }
    }

    /// How many entries it has.
    pub fn len(&self) -> usize {
        self.rows().len()
    }

    /// The value of a key, if it has one that can be changed.
    pub fn ready(&self, key: &K) -> Option<&V>
        ensures { option_copied result ≡ lookup (is_at (K.cmp key.now)) (changeable self.now) }
    {
        if self.is_open {
            self.own.get(key)
        } else {
            None
        }
    }

    // A key of its own in the middle, with half of its keys below it, unless it has too few.
    fn middle(&self) -> Result<Option<K>, AllocError>
        requires { self.now.is_open ≡ true }
        ensures { IfOk result (λ found. IfSome found (λ k. IsSome (lookup (is_at (K.cmp k)) self.now.entries) × (K.cmp self.now.from k ≡ Less))) }
    {
        let half = self.own.len() / 2;
        let Some(key) = self.own.keys().nth(half) else {
            return Ok(None);
        };
        let key = key.clone()?;
        if self.from.cmp(&key).is_lt() && self.own.contains_key(&key) {
            Ok(Some(key))
        } else {
            Ok(None)
        }
    }

    /// Takes its upper half out, as a chunk of its own. Refuses for want of memory.
    pub fn split(&mut self, alloc: Global) -> Result<Option<Chunk<K, V>>, AllocError>
        requires { self.old.is_open ≡ true }
        ensures from { self.new.from ≡ self.old.from }
        ensures open { self.new.is_open ≡ true }
        ensures upper_open { IfOk result (λ upper. IfSome upper (λ u. u.is_open ≡ true)) }
        ensures split { IfOk result (λ upper. IfSome upper (λ u. IsSplit K.cmp self.old self.new u)) }
        ensures whole { IfOk result (λ upper. IfNone upper (self.new ≡ self.old)) }
        ensures unchanged { OnErr result (self.new ≡ self.old) }
    {
        let Some(from) = self.middle()? else {
            return Ok(None);
        };
        let mut upper = Chunk::new(alloc, from)?;
        upper.own = self.own.split_off(&upper.from)?;
        Ok(Some(upper))
    }

    /// Takes the entry of a key out. Takes no memory.
    pub fn remove(&mut self, key: &K)
        requires { self.old.is_open ≡ true }
        ensures from { self.new.from ≡ self.old.from }
        ensures open { self.new.is_open ≡ true }
        ensures entries { self.new.entries ≡ remove_entry (is_at (K.cmp key.now)) self.old.entries }
    {
        self.own.remove(key);
    }
}
