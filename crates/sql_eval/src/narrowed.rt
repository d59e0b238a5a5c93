//! A query that shows each of its items once, in place of one that may show some again and again: what it gives is as wide as there are
//! different items, and each row is shown whole once it is asked for.
ghost use Rattle.std.specs.Prelude.{◌≡◌, ℕ, ◌∷◌, ◌++◌, [], List, Some, None, IfOk, IfSome, IfNone, OnOk, IsTrue, map, slice_get};
ghost use Rattle.sql_tree.specs.declared.Item.{Item as I};
ghost use Rattle.sql_eval.specs.Narrowing.{item_code, distinct_items, narrowed, whole_items, whole_ordinals, ShowsAt};
ghost use Rattle.sql_eval.specs.inner.Narrowings.{has_item, are_apart, IsSeen};

use crate::groups::copy_item;
use sql_tree::Item;
use std::alloc::{AllocError, Global};
use std::collections::BTreeMap;
use std::marker::Model;
use std::mem::replace;
use vschema::Query;
use vt_value::Items;

/// A list of at most so many items is compared item by item.
const FEW: usize = 8;

/// A number for each item, which no other has.
fn item_code(item: &Item<usize>) -> u128
    ensures { result ≡ item_code item.now }
{
    match item {
        Item::Column(ordinal) => 6 * (*ordinal as u128),
        Item::CountRows => 1,
        Item::Count(ordinal) => 6 * (*ordinal as u128) + 2,
        Item::Sum(ordinal) => 6 * (*ordinal as u128) + 3,
        Item::Min(ordinal) => 6 * (*ordinal as u128) + 4,
        Item::Max(ordinal) => 6 * (*ordinal as u128) + 5,
    }
}

fn has_item(item: &Item<usize>, items: &[Item<usize>]) -> bool
    ensures { result ≡ has_item item.now items.now }
{
    let code = item_code(item);
    items.iter().any(|other| code == item_code(other))
}

/// Whether no item is there twice.
fn are_apart(items: &[Item<usize>]) -> bool
    ensures { result ≡ are_apart items.now }
{
    let mut rest = items;
    while let Some((item, trailing)) = rest.split_first() {
        if has_item(item, trailing) {
            return false;
        }
        rest = trailing;
    }
    true
}

/// The different items of a list so far, where each of the list is among them, and where each is found by its number.
#[derive(Drop)]
struct Seen {
    items: Items<Item<usize>>,
    ordinals: Items<usize>,
    by_code: BTreeMap<u128, usize>,
}

impl Seen {
    /// Puts an item after those so far. Refuses only for want of memory.
    fn add(&mut self, item: &Item<usize>) -> Result<(), AllocError>
        ensures ok { OnOk result ((before : List (I ℕ)) → IsSeen before self.old → IsSeen (before ++ item.now ∷ []) self.new) }
    {
        let code = item_code(item);
        match self.by_code.get(&code).copied() {
            Some(ordinal) => self.ordinals.push(ordinal)?,
            None => {
                let ordinal = self.items.len();
                self.by_code.insert(code, ordinal)?;
                self.items.push(copy_item(item))?;
                self.ordinals.push(ordinal)?;
            }
        }
        Ok(())
    }

    /// Those of a list. Refuses only for want of memory.
    fn of(alloc: Global, items: &[Item<usize>]) -> Result<Seen, AllocError>
        ensures ok { IfOk result (IsSeen items.now) }
    {
        let mut seen = Seen {
            items: Items::new(alloc),
            ordinals: Items::new(alloc),
            by_code: BTreeMap::new(alloc),
        };
        for item in items {
            seen.add(item)?;
        }
        Ok(seen)
    }
}

/// The items of a query that shows some of them again and again, and where each is among the different ones.
#[derive(Drop)]
pub struct Whole {
    pub items: Items<Item<usize>>,
    pub ordinals: Items<usize>,
}

/// Whether the items are few and no item is there twice.
#[tactic(auto, using(crate::proofs::NarrowLemmas::all_apart))]
fn are_few_apart(items: &[Item<usize>]) -> bool
    ensures { IsTrue result → distinct_items items.now ≡ items.now }
{
    items.len() <= FEW && are_apart(items)
}

/// The different items of a list, and where each of the list is among them; `None` if all are different. Refuses only for want of
/// memory.
fn different(
    alloc: Global,
    items: &[Item<usize>],
) -> Result<Option<(Items<Item<usize>>, Items<usize>)>, AllocError>
    ensures all { IfOk result (λ r. IfNone r (distinct_items items.now ≡ items.now)) }
    ensures items { IfOk result (λ r. IfSome r (λ s. s.0 ≡ distinct_items items.now)) }
    ensures ordinals { IfOk result (λ r. IfSome r (λ s. map (slice_get s.0) s.1 ≡ map Some items.now)) }
{
    let seen = Seen::of(alloc, items)?;
    if seen.items.len() == items.len() {
        return Ok(None);
    }
    let Seen {
        items,
        ordinals,
        ..
    } = seen;
    Ok(Some((items, ordinals)))
}

/// Has a query show each of its items once, and gives what it stands for, if it showed some again. Refuses only for want of memory.
pub fn narrow(alloc: Global, query: &mut Query) -> Result<Option<Whole>, AllocError>
    ensures query { OnOk result (query.new ≡ narrowed query.old) }
    ensures items { IfOk result (λ whole. whole_items whole query.new.items ≡ query.old.items) }
    ensures shows { IfOk result (λ whole. ShowsAt query.old (whole_ordinals whole)) }
{
    if are_few_apart(query.items.as_slice()) {
        return Ok(None);
    }
    match different(alloc, query.items.as_slice())? {
        None => Ok(None),
        Some((items, ordinals)) => {
            let items = replace(&mut query.items, items);
            Ok(Some(Whole { items, ordinals }))
        }
    }
}

/// A query that is run with each of its items once. Contracts see the query that it stands for.
#[derive(Drop)]
pub struct Narrowed {
    query: Query,
    whole: Option<Whole>,
}

impl Model for Narrowed {
    ghost use Rattle.vschema.specs.contracts.schema.Query as select;
    ghost use Rattle.vschema.specs.declared.schema.Query.{Query as Q};
    ghost use Rattle.sql_eval.specs.inner.Narrowings.{whole_query, IsNarrowing};

    ghost Value = { Q };

    ghost coded = { select.the_row.coded };

    ghost view = { λ n. whole_query n.query n.whole };

    ghost invariant = { λ n. IsNarrowing n.query n.whole };
}

impl Narrowed {
    // Promise: A query that shows items again and again is run with each of them once: of whatever that may answer over rows, the columns in the
    // ordinals that are given are what the whole query may answer
    // With: narrow, Narrowed::query, Narrowed::ordinals, Narrowed::split, Narrowed::shown
    /// The query that shows each item of this one once. Refuses only for want of memory.
    pub fn of(alloc: Global, query: Query) -> Result<Narrowed, AllocError>
        ensures ok { IfOk result (λ n. n ≡ query) }
    {
        let mut query = query;
        let whole = narrow(alloc, &mut query)?;
        Ok(Narrowed { query, whole })
    }

    /// The query that is run.
    pub fn query(&self) -> &Query
        ensures { result.now ≡ narrowed self.now }
    {
        &self.query
    }

    /// Where the items of the whole query are among those of the one that is run; `None` if they are the same. Refuses only for want of
    /// memory.
    pub fn ordinals(&self, alloc: Global) -> Result<Option<Items<usize>>, AllocError>
        ensures ok { IfOk result (ShowsAt self.now) }
    {
        match &self.whole {
            None => Ok(None),
            Some(whole) => Ok(Some(Items::from_slice(alloc, whole.ordinals.as_slice())?)),
        }
    }

    /// The query that is run, and what it stands for.
    pub fn split(self) -> (Query, Option<Whole>)
        ensures query { result.0 ≡ narrowed self }
        ensures items { whole_items result.1 result.0.items ≡ self.items }
        ensures shows { ShowsAt self (whole_ordinals result.1) }
    {
        let Narrowed { query, whole } = self;
        (query, whole)
    }

    /// What the whole query shows, and whether each item was written with its table's name.
    pub fn shown(self) -> (Items<Item<usize>>, Items<bool>)
        ensures items { result.0 ≡ self.items }
        ensures qualified { result.1 ≡ self.qualified }
    {
        let (query, whole) = self.split();
        let Query {
            items,
            qualified,
            ..
        } = query;
        match whole {
            None => (items, qualified),
            Some(whole) => (whole.items, qualified),
        }
    }
}
