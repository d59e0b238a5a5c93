//! What is refused of a query: names that aren't there, numbers compared with texts, and columns outside GROUP BY.
ghost use Rattle.std.specs.Prelude.{◌≡◌, ◌||◌, map, is_none, option_map, IfOk};
ghost use Rattle.std.specs.List.{list_any};
ghost use Rattle.vschema.specs.Checks.{is_unknown, is_unnamed, join_names_unknown, operand_is_unknown, condition_names_unknown, filter_has, item_names_unknown, list_names_unknown, names_unknown_column};
ghost use Rattle.vschema.specs.Checks.{is_text_type, value_is_text, column_is_text, differ, condition_mixes, is_text_sum, sums_text, select_is_not_supported};
ghost use Rattle.vschema.specs.Checks.{has_number, is_aggregate};
ghost use Rattle.vschema.specs.Resolved.{resolved_condition};
ghost use Rattle.vschema.specs.inner.Mixes.{operand_is_text_at, condition_mixes_at, filter_mixes_at};
ghost use Rattle.vschema.specs.inner.LateChecks.{shows_others};
ghost use Rattle.vschema.specs.FirstOrdinals.{first_ordinal};
ghost use Rattle.vschema.specs.inner.FirstOrdinals.{shows_other};

use crate::first_ordinals::FirstOrdinals;
use crate::names::is_unknown;
use crate::schema::{Query, Table};
use crate::scope::{Scope, is_unnamed, kind_at, ordinal_in};
use sql_tree::{ColumnName, Condition, Item, JoinOn, Key, Name, Operand, Select, SelectList};
use std::alloc::{AllocError, Global};
use vschema_json::ColumnType;
use vt_value::Value;

/// Whether one of the names is no column of the table.
pub fn some_unknown(table: &Table, names: &[Name]) -> bool
    ensures { result ≡ list_any (is_unknown table.now) names.now }
{
    names.iter().any(|name| is_unknown(table, name))
}

fn operand_is_unknown(scope: &Scope, operand: &Operand<ColumnName>) -> bool
    ensures { result ≡ operand_is_unknown scope.now operand.now }
{
    match operand {
        Operand::Column(name) => is_unnamed(scope, name),
        Operand::Literal(_) => false,
    }
}

#[cycle(unknown)]
fn condition_names_unknown(scope: &Scope, condition: &Condition<ColumnName>) -> bool
    ensures { result ≡ condition_names_unknown scope.now condition.now }
{
    match condition {
        Condition::Compare(_, a, b) => operand_is_unknown(scope, a) || operand_is_unknown(scope, b),
        Condition::In(a, _) => operand_is_unknown(scope, a),
        Condition::IsNull(a) => operand_is_unknown(scope, a),
        Condition::Not(inner) => condition_names_unknown(scope, inner.get()),
        Condition::And(members) => any_names_unknown(scope, members.as_slice()),
        Condition::Or(members) => any_names_unknown(scope, members.as_slice()),
    }
}

#[cycle(unknown)]
fn any_names_unknown(scope: &Scope, members: &[Condition<ColumnName>]) -> bool
    ensures { result ≡ list_any (λ b. b) (map (condition_names_unknown scope.now) members.now) }
{
    for member in members {
        if condition_names_unknown(scope, member) {
            return true;
        }
    }
    false
}

fn some_unnamed(scope: &Scope, names: &[ColumnName]) -> bool
    ensures { result ≡ list_any (is_unnamed scope.now) names.now }
{
    names.iter().any(|name| is_unnamed(scope, name))
}

fn item_names_unknown(scope: &Scope, item: &Item<ColumnName>) -> bool
    ensures { result ≡ item_names_unknown scope.now item.now }
{
    match item {
        Item::CountRows => false,
        Item::Column(name)
        | Item::Count(name)
        | Item::Sum(name)
        | Item::Min(name)
        | Item::Max(name) => is_unnamed(scope, name),
    }
}

fn some_item_unknown(scope: &Scope, items: &[Item<ColumnName>]) -> bool
    ensures { result ≡ list_any (item_names_unknown scope.now) items.now }
{
    items.iter().any(|item| item_names_unknown(scope, item))
}

fn some_key_unknown(scope: &Scope, keys: &[Key<ColumnName>]) -> bool
    ensures { result ≡ list_any (λ k. is_unnamed scope.now k.column) keys.now }
{
    keys.iter().any(|key| is_unnamed(scope, &key.column))
}

fn list_names_unknown(scope: &Scope, list: &SelectList) -> bool
    ensures { result ≡ list_names_unknown scope.now list.now }
{
    match list {
        SelectList::All => false,
        SelectList::Items(items) => some_item_unknown(scope, items.as_slice()),
    }
}

pub fn filter_names_unknown(scope: &Scope, filter: &Option<Condition<ColumnName>>) -> bool
    ensures { result ≡ filter_has (condition_names_unknown scope.now) filter.now }
{
    match filter {
        None => false,
        Some(condition) => condition_names_unknown(scope, condition),
    }
}

fn join_names_unknown(scope: &Scope, join: &Option<JoinOn>) -> bool
    ensures { result ≡ join_names_unknown scope.now join.now }
{
    match join {
        None => false,
        Some(join) => is_unnamed(scope, &join.left) || is_unnamed(scope, &join.right),
    }
}

/// Whether the statement names a column that its tables don't have, or a bare one that both have.
pub fn names_unknown_column(scope: &Scope, select: &Select) -> bool
    ensures { result ≡ names_unknown_column scope.now select.now }
{
    list_names_unknown(scope, &select.list)
        || join_names_unknown(scope, &select.join)
        || filter_names_unknown(scope, &select.filter)
        || some_unnamed(scope, select.group_by.as_slice())
        || some_key_unknown(scope, select.order_by.as_slice())
}

pub fn is_text_type(kind: ColumnType) -> bool
    ensures { result ≡ is_text_type kind }
{
    matches!(kind, ColumnType::VarBinary(_))
}

pub fn value_is_text(value: &Value) -> Option<bool>
    ensures { result ≡ value_is_text value.now }
{
    match value {
        Value::Null => None,
        Value::Int(_) => Some(false),
        Value::Bytes(_) => Some(true),
    }
}

pub fn column_is_text(scope: &Scope, ordinal: usize) -> Option<bool>
    ensures { result ≡ column_is_text scope.now ordinal }
{
    match kind_at(scope, ordinal) {
        Some(kind) => Some(is_text_type(kind)),
        None => None,
    }
}

fn operand_is_text(scope: &Scope, operand: &Operand<usize>) -> Option<bool>
    ensures { result ≡ operand_is_text_at scope.now operand.now }
{
    match operand {
        Operand::Column(ordinal) => column_is_text(scope, *ordinal),
        Operand::Literal(value) => value_is_text(value),
    }
}

pub fn differ(a: Option<bool>, b: Option<bool>) -> bool
    ensures { result ≡ differ a b }
{
    match (a, b) {
        (Some(a), Some(b)) => a != b,
        _ => false,
    }
}

fn member_differs(kind: Option<bool>, member: &Value) -> bool
    ensures { result ≡ differ kind (value_is_text member.now) }
{
    differ(kind, value_is_text(member))
}

fn some_differs(kind: Option<bool>, members: &[Value]) -> bool
    ensures { result ≡ list_any (λ m. differ kind (value_is_text m)) members.now }
{
    members.iter().any(|member| member_differs(kind, member))
}

#[cycle(mixes)]
fn condition_mixes(scope: &Scope, condition: &Condition<usize>) -> bool
    ensures { result ≡ condition_mixes_at scope.now condition.now }
{
    match condition {
        Condition::Compare(_, a, b) => {
            differ(operand_is_text(scope, a), operand_is_text(scope, b))
        }
        Condition::In(a, members) => some_differs(operand_is_text(scope, a), members.as_slice()),
        Condition::IsNull(_) => false,
        Condition::Not(inner) => condition_mixes(scope, inner.get()),
        Condition::And(members) => any_mixes(scope, members.as_slice()),
        Condition::Or(members) => any_mixes(scope, members.as_slice()),
    }
}

#[cycle(mixes)]
fn any_mixes(scope: &Scope, members: &[Condition<usize>]) -> bool
    ensures { result ≡ list_any (λ b. b) (map (condition_mixes_at scope.now) members.now) }
{
    for member in members {
        if condition_mixes(scope, member) {
            return true;
        }
    }
    false
}

fn is_text_sum(scope: &Scope, item: &Item<ColumnName>) -> bool
    ensures { result ≡ is_text_sum scope.now item.now }
{
    match item {
        Item::Sum(name) => { differ(column_is_text(scope, ordinal_in(scope, name)), Some(false)) }
        _ => false,
    }
}

fn some_text_sum(scope: &Scope, items: &[Item<ColumnName>]) -> bool
    ensures { result ≡ list_any (is_text_sum scope.now) items.now }
{
    items.iter().any(|item| is_text_sum(scope, item))
}

fn sums_text(scope: &Scope, list: &SelectList) -> bool
    ensures { result ≡ sums_text scope.now list.now }
{
    match list {
        SelectList::All => false,
        SelectList::Items(items) => some_text_sum(scope, items.as_slice()),
    }
}

fn resolved_mixes(scope: &Scope, resolved: &Option<Condition<usize>>) -> bool
    ensures { result ≡ filter_mixes_at scope.now resolved.now }
{
    match resolved {
        None => false,
        Some(condition) => condition_mixes(scope, condition),
    }
}

/// Whether a comparison of a condition has a number on one side and a text on the other. It's asked of the condition with its columns by
/// their ordinals, so that no name is looked up again.
pub fn filter_mixes(
    scope: &Scope,
    filter: &Option<Condition<ColumnName>>,
    resolved: &Option<Condition<usize>>,
) -> bool
    requires resolved { resolved.now ≡ option_map (resolved_condition scope.now) filter.now }
    ensures { result ≡ filter_has (condition_mixes scope.now) filter.now }
{
    resolved_mixes(scope, resolved)
}

/// Whether a comparison of the query has a number on one side and a text on the other, or a text is summed; `filter` is its condition
/// with its columns by ordinals.
pub fn is_not_supported(scope: &Scope, select: &Select, filter: &Option<Condition<usize>>) -> bool
    requires resolved { filter.now ≡ option_map (resolved_condition scope.now) select.now.filter }
    ensures { result ≡ select_is_not_supported scope.now select.now }
{
    filter_mixes(scope, &select.filter, filter) || sums_text(scope, &select.list)
}

/// Whether the number is one of these.
pub fn has_number(numbers: &[usize], number: usize) -> bool
    ensures { result ≡ has_number numbers.now number }
{
    numbers.iter().any(|other| *other == number)
}

fn is_aggregate(item: &Item<usize>) -> bool
    ensures { result ≡ is_aggregate item.now }
{
    !matches!(item, Item::Column(_))
}

fn some_aggregate(items: &[Item<usize>]) -> bool
    ensures { result ≡ list_any is_aggregate items.now }
{
    items.iter().any(|item| is_aggregate(item))
}

impl Query {
    ghost use Rattle.std.specs.Prelude.{◌≡◌};
    ghost use Rattle.vschema.specs.Checks.{is_aggregated};

    // Promise: A query is aggregated if it shows an aggregate or has a GROUP BY
    /// Whether the query shows an aggregate or has a GROUP BY.
    pub fn is_aggregated(&self) -> bool
        ensures { result ≡ is_aggregated self.now }
    {
        some_aggregate(self.items.as_slice()) || !self.group_by.as_slice().is_empty()
    }
}

fn is_ungrouped(grouped: &FirstOrdinals, item: &Item<usize>) -> bool
    ensures { result ≡ shows_other grouped.now item.now }
{
    match item {
        Item::Column(ordinal) => grouped.get(*ordinal).is_none(),
        _ => false,
    }
}

fn some_item_ungrouped(grouped: &FirstOrdinals, items: &[Item<usize>]) -> bool
    ensures { result ≡ list_any (shows_other grouped.now) items.now }
{
    items.iter().any(|item| is_ungrouped(grouped, item))
}

fn some_key_ungrouped(grouped: &FirstOrdinals, keys: &[Key<usize>]) -> bool
    ensures { result ≡ list_any (λ k. is_none (first_ordinal grouped.now k.column)) keys.now }
{
    keys.iter().any(|key| grouped.get(key.column).is_none())
}

fn has_ungrouped(grouped: &FirstOrdinals, items: &[Item<usize>], order_by: &[Key<usize>]) -> bool
    ensures { result ≡ list_any (shows_other grouped.now) items.now || list_any (λ k. is_none (first_ordinal grouped.now k.column)) order_by.now }
{
    some_item_ungrouped(grouped, items) || some_key_ungrouped(grouped, order_by)
}

/// Whether a plain column is shown, or ordered by, that isn't in GROUP BY. Refuses only for want of memory.
pub fn shows_others(
    alloc: Global,
    items: &[Item<usize>],
    group_by: &[usize],
    order_by: &[Key<usize>],
) -> Result<bool, AllocError>
    ensures { IfOk result (λ shows. shows ≡ shows_others items.now group_by.now order_by.now) }
{
    let grouped = FirstOrdinals::of(alloc, group_by)?;
    Ok(has_ungrouped(&grouped, items, order_by))
}
