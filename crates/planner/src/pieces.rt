//! The query that each shard answers: under IN the members are cut to the shard's own.
ghost use Rattle.std.specs.Prelude.{◌≡◌, ◌&&◌, IsTrue, IfSome, IfOk, List, map, filter, is_some, Some, if◌then◌else◌};
ghost use Rattle.std.specs.List.{list_any};
ghost use Rattle.vt_value.specs.declared.value.Value.{Value as V};
ghost use Rattle.keyrange.specs.Ranges.{has_id};
ghost use Rattle.keyrange.specs.declared.KeyRange.{KeyRange};
ghost use Rattle.vschema.specs.declared.schema.Table.{Table};
ghost use Rattle.planner.specs.Routes.{members_with, first_of, is_held, id_of};
ghost use Rattle.planner.specs.Plans.{has_among, first_cut, cut_members, cut_in, cut_by, cut_of, is_member_of, shard_filter, piece_of};

use crate::copies::{copy_condition, copy_items, copy_keys, copy_operand};
use crate::keys::{Keys, keys_on, kind_in};
use crate::members::InValue;
use crate::plans::Plan;
use crate::routes::{Route, is_held};
use crate::taking::{has_member, has_value};
use keyrange::KeyRange;
use sql_tree::{Condition, Operand};
use std::alloc::{AllocError, Global};
use vschema::{ColumnType, Join, Query, Table};
use vt_value::{Items, Value, copy, copy_row};

fn is_key(keys: Keys, operand: &Operand<usize>) -> bool
    ensures { (members : List V) → result ≡ is_some (first_of (members_with keys operand.now members)) }
{
    match operand {
        Operand::Column(ordinal) => kind_in(keys, *ordinal).is_some(),
        Operand::Literal(_) => false,
    }
}

// Whether an IN on one of the columns is one of the conjuncts.
#[cycle(has)]
fn has_among(keys: Keys, condition: &Condition<usize>) -> bool
    ensures { result ≡ has_among keys condition.now }
{
    match condition {
        Condition::In(operand, _) => is_key(keys, operand),
        Condition::And(members) => one_has_among(keys, members.as_slice()),
        _ => false,
    }
}

#[cycle(has)]
fn one_has_among(keys: Keys, members: &[Condition<usize>]) -> bool
    ensures { result ≡ list_any (has_among keys) members.now }
{
    for member in members {
        if has_among(keys, member) {
            return true;
        }
    }
    false
}

/// A shard of a table with a vindex, by its range, and the columns that decide the shard.
#[derive(Clone, Copy)]
struct Home<'h> {
    table: &'h Table,
    keys: Keys,
    range: &'h KeyRange,
    /// The values of the route, in the order in which the members come.
    known: &'h [InValue],
}

// Whether both are the same number or text.
fn is_same_value(a: &Value, b: &Value) -> bool
    ensures { IsTrue result → a.now ≡ b.now }
{
    match (a, b) {
        (Value::Int(a), Value::Int(b)) => *a == *b,
        (Value::Bytes(a), Value::Bytes(b)) => a.as_slice() == b.as_slice(),
        _ => false,
    }
}

// What is known of a value: the member at an ordinal, if it has this value.
fn known_at<'k>(known: &'k [InValue], at: usize, value: &Value) -> Option<&'k InValue>
    ensures { IfSome result (λ member. member.now.value ≡ value.now) }
{
    match known.get(at) {
        Some(member) if is_same_value(&member.value, value) => Some(member),
        _ => None,
    }
}

fn is_in_range(home: &Home, value: &Value, known: Option<&InValue>) -> bool
    requires { IfSome known (λ member. member.now.value ≡ value.now) }
    ensures { result ≡ has_id home.now.range.now (id_of home.now.table.now value.now) }
{
    match known {
        Some(member) => has_member(home.table, home.range, member),
        None => has_value(home.table, home.range, value),
    }
}

fn is_own(home: &Home, kind: ColumnType, value: &Value, known: Option<&InValue>) -> bool
    requires { IfSome known (λ member. member.now.value ≡ value.now) }
    ensures { result ≡ is_member_of home.now.table.now home.now.range.now kind value.now }
{
    is_held(kind, value) && is_in_range(home, value, known)
}

fn own_members(
    alloc: Global,
    home: &Home,
    kind: ColumnType,
    members: &[Value],
) -> Result<Items<Value>, AllocError>
    ensures ok { IfOk result (λ list. list ≡ filter (is_member_of home.now.table.now home.now.range.now kind) members.now) }
{
    let mut list = Items::new(alloc);
    let mut at = 0;
    for member in members {
        let known = known_at(home.known, at, member);
        if known.is_some() {
            at += 1;
        }
        if is_own(home, kind, member, known) {
            list.push(copy(alloc, member)?)?;
        }
    }
    Ok(list)
}

fn cut_members_of(
    alloc: Global,
    home: &Home,
    kind: Option<ColumnType>,
    members: &Items<Value>,
) -> Result<Items<Value>, AllocError>
    ensures ok { IfOk result (λ list. list ≡ cut_members kind (is_member_of home.now.table.now home.now.range.now) members.now) }
{
    match kind {
        Some(kind) => own_members(alloc, home, kind, members.as_slice()),
        None => copy_row(alloc, members),
    }
}

fn cut_in(
    alloc: Global,
    home: &Home,
    operand: &Operand<usize>,
    members: &Items<Value>,
) -> Result<Condition<usize>, AllocError>
    ensures ok { IfOk result (λ c. c ≡ cut_in home.now.keys (is_member_of home.now.table.now home.now.range.now) operand.now members.now) }
{
    let members = match operand {
        Operand::Column(ordinal) => {
            cut_members_of(alloc, home, kind_in(home.keys, *ordinal), members)?
        }
        Operand::Literal(_) => copy_row(alloc, members)?,
    };
    let operand = copy_operand(alloc, operand)?;
    Ok(Condition::In(operand, members))
}

#[cycle(cut)]
fn cut_condition(
    alloc: Global,
    home: &Home,
    condition: &Condition<usize>,
) -> Result<Condition<usize>, AllocError>
    ensures ok { IfOk result (λ c. c ≡ cut_of home.now.keys (is_member_of home.now.table.now home.now.range.now) condition.now) }
{
    match condition {
        Condition::In(operand, members) => cut_in(alloc, home, operand, members),
        Condition::And(members) => {
            let members = cut_members(alloc, home, members.as_slice())?;
            Ok(Condition::And(members))
        }
        _ => copy_condition(alloc, condition),
    }
}

#[cycle(cut)]
fn cut_member(
    alloc: Global,
    home: &Home,
    member: &Condition<usize>,
    is_next: bool,
) -> Result<Condition<usize>, AllocError>
    ensures ok { IfOk result (λ c. c ≡ if is_next
        then cut_of home.now.keys (is_member_of home.now.table.now home.now.range.now) member.now
        else member.now) }
{
    if is_next {
        cut_condition(alloc, home, member)
    } else {
        copy_condition(alloc, member)
    }
}

// Of the members that have an IN on one of the columns the leftmost alone is cut.
#[cycle(cut)]
fn cut_members(
    alloc: Global,
    home: &Home,
    members: &[Condition<usize>],
) -> Result<Items<Condition<usize>>, AllocError>
    ensures ok { IfOk result (λ list. list ≡ first_cut home.now.keys
        (map (cut_by home.now.keys (is_member_of home.now.table.now home.now.range.now)) members.now)) }
{
    let mut list = Items::new(alloc);
    let mut is_cut = false;
    for member in members {
        let has = has_among(home.keys, member);
        let member = cut_member(alloc, home, member, has & !is_cut)?;
        list.push(member)?;
        is_cut = is_cut | has;
    }
    Ok(list)
}

fn shard_condition(
    alloc: Global,
    table: &Table,
    join: Option<Join>,
    route: &Route,
    range: &KeyRange,
    condition: &Condition<usize>,
) -> Result<Condition<usize>, AllocError>
    ensures ok { IfOk result (λ c. Some c ≡ shard_filter table.now join route.now range.now (Some condition.now)) }
{
    match (route, table.vindex) {
        (Route::In(values), Some(vindex)) => {
            let home = Home {
                table,
                keys: keys_on(table, vindex, join),
                range,
                known: values.members(),
            };
            cut_condition(alloc, &home, condition)
        }
        _ => copy_condition(alloc, condition),
    }
}

impl Plan {
    /// The piece, if the shard of each range answers it as it is: under every route but IN. Nothing is copied.
    pub fn whole_piece(&self) -> Option<&Query>
        ensures { IfSome result (λ piece. (table : Table) (range : KeyRange) → piece.now ≡ piece_of table self.now range) }
    {
        match &self.route {
            Route::In(_) => None,
            Route::Unsharded | Route::None | Route::EqualUnique(_) | Route::Scatter => {
                Some(&self.piece)
            }
        }
    }

    // Promise: Each shard's piece, the finish of the pieces' answers, a write's route, the ordinals of a route among ranges, and whether a
    // route takes a range, also by an id that was made before, are as written
    // With: Finish::{answer, answer_in_order, answer_alone}, Plan::whole_piece, is_plain, point_route, is_answer, write_route, shards, takes,
    // single_id, takes_by, copy_items
    /// The query that the shard of a range answers: the piece, under IN with the members of that conjunct cut to the shard's own.
    /// `table` is the query's table. Refuses only for want of memory.
    pub fn piece_for(
        &self,
        alloc: Global,
        table: &Table,
        range: &KeyRange,
    ) -> Result<Query, AllocError>
        ensures ok { IfOk result (λ piece. piece ≡ piece_of table.now self.now range.now) }
    {
        let items = copy_items(alloc, self.piece.items.as_slice())?;
        let qualified = Items::from_slice(alloc, self.piece.qualified.as_slice())?;
        let group_by = self.piece.group_by.copy(alloc)?;
        let order_by = copy_keys(alloc, self.piece.order_by.as_slice())?;
        let filter = match &self.piece.filter {
            Some(condition) => {
                let join = self.piece.join;
                Some(shard_condition(alloc, table, join, &self.route, range, condition)?)
            }
            None => None,
        };
        Ok(Query {
            table: self.piece.table,
            join: self.piece.join,
            items,
            qualified,
            filter,
            group_by,
            order_by,
            limit: self.piece.limit,
        })
    }
}
