//! Statements with their names resolved: tables and columns become ordinals, or the first refusal that applies is returned.
ghost use Rattle.std.specs.Prelude.{◌≡◌, ◌⊎◌, IfOk, IfErr, IfSome, IfNone, map, slice_get, option_map, Ok, Err, Some, None, false};
ghost use Rattle.vschema.specs.Checks.{names_unknown_column, shows_ungrouped};
ghost use Rattle.vschema.specs.Scopes.{only, both_of, scope_columns, ordinal_in};
ghost use Rattle.vschema.specs.Joins.{left_ordinal, right_ordinal, resolved_join, join_is_refused};
ghost use Rattle.vschema.specs.Schema.{table_ordinal};
ghost use Rattle.vschema.specs.Resolved.{ordinal, ordinals_from, resolved_operand, resolved_condition, resolved_item, resolved_list, is_qualified, qualified_in, resolved_key};
ghost use Rattle.vschema.specs.TypedStatement.{as_query, join_over, over, checked, checked_pair, checked_second, checked_with, typed_select};

use crate::checks::{is_not_supported, names_unknown_column, shows_others};
use crate::group_by::GroupBy;
use crate::hashing::Hashing;
use crate::joins::join_is_refused;
use crate::names::{column_ordinal, table_ordinal};
use crate::schema::{Join, Query, Table, Typed, VSchema};
use crate::scope::{Scope, column_count, kind_at, ordinal_in, width};
use crate::writes::{resolve_delete, resolve_insert, resolve_update};
use sql_tree::{
    ColumnName, Condition, Item, JoinOn, Key, Name, Operand, Select, SelectList, Statement,
};
use std::alloc::{AllocError, Global};
use vschema_json::ColumnType;
use vt_value::{Boxed, Items, Refusal, Value, copy};

/// The ordinal of a column; that it is there is a check of its own.
pub fn ordinal(table: &Table, name: &Name) -> usize
    ensures { result ≡ ordinal table.now name.now }
{
    column_ordinal(table, name).unwrap_or(0)
}

fn copy_values(alloc: Global, values: &[Value]) -> Result<Items<Value>, AllocError>
    ensures ok { IfOk result (λ r. r ≡ values.now) }
{
    let mut copied = Items::new(alloc);
    for value in values {
        copied.push(copy(alloc, value)?)?;
    }
    Ok(copied)
}

fn resolve_operand(
    alloc: Global,
    scope: &Scope,
    operand: &Operand<ColumnName>,
) -> Result<Operand<usize>, AllocError>
    ensures ok { IfOk result (λ r. r ≡ resolved_operand scope.now operand.now) }
{
    match operand {
        Operand::Column(name) => Ok(Operand::Column(ordinal_in(scope, name))),
        Operand::Literal(value) => {
            let value = copy(alloc, value)?;
            Ok(Operand::Literal(value))
        }
    }
}

fn resolve_operands(
    alloc: Global,
    scope: &Scope,
    a: &Operand<ColumnName>,
    b: &Operand<ColumnName>,
) -> Result<(Operand<usize>, Operand<usize>), AllocError>
    ensures left { IfOk result (λ r. r.0 ≡ resolved_operand scope.now a.now) }
    ensures right { IfOk result (λ r. r.1 ≡ resolved_operand scope.now b.now) }
{
    let a = resolve_operand(alloc, scope, a)?;
    let b = resolve_operand(alloc, scope, b)?;
    Ok((a, b))
}

fn resolve_membership(
    alloc: Global,
    scope: &Scope,
    a: &Operand<ColumnName>,
    members: &[Value],
) -> Result<(Operand<usize>, Items<Value>), AllocError>
    ensures operand { IfOk result (λ r. r.0 ≡ resolved_operand scope.now a.now) }
    ensures members { IfOk result (λ r. r.1 ≡ members.now) }
{
    let members = copy_values(alloc, members)?;
    let a = resolve_operand(alloc, scope, a)?;
    Ok((a, members))
}

#[cycle(condition)]
fn resolve_condition(
    alloc: Global,
    scope: &Scope,
    condition: &Condition<ColumnName>,
) -> Result<Condition<usize>, AllocError>
    ensures ok { IfOk result (λ r. r ≡ resolved_condition scope.now condition.now) }
{
    match condition {
        Condition::Compare(op, a, b) => {
            let (a, b) = resolve_operands(alloc, scope, a, b)?;
            Ok(Condition::Compare(*op, a, b))
        }
        Condition::In(a, members) => {
            let (a, members) = resolve_membership(alloc, scope, a, members.as_slice())?;
            Ok(Condition::In(a, members))
        }
        Condition::IsNull(a) => {
            let a = resolve_operand(alloc, scope, a)?;
            Ok(Condition::IsNull(a))
        }
        Condition::Not(inner) => {
            let inner = Boxed::new(alloc, resolve_condition(alloc, scope, inner.get())?)?;
            Ok(Condition::Not(inner))
        }
        Condition::And(members) => {
            let members = resolve_members(alloc, scope, members.as_slice())?;
            Ok(Condition::And(members))
        }
        Condition::Or(members) => {
            let members = resolve_members(alloc, scope, members.as_slice())?;
            Ok(Condition::Or(members))
        }
    }
}

#[cycle(condition)]
fn resolve_members(
    alloc: Global,
    scope: &Scope,
    members: &[Condition<ColumnName>],
) -> Result<Items<Condition<usize>>, AllocError>
    ensures ok { IfOk result (λ r. r ≡ map (resolved_condition scope.now) members.now) }
{
    let mut resolved = Items::new(alloc);
    for member in members {
        let member = resolve_condition(alloc, scope, member)?;
        resolved.push(member)?;
    }
    Ok(resolved)
}

fn all_columns(alloc: Global, scope: &Scope) -> Result<Items<Item<usize>>, AllocError>
    ensures ok { IfOk result (λ r. r ≡ map Item.Column (ordinals_from 0 (scope_columns scope.now))) }
{
    let count = column_count(scope);
    let mut shown = Items::from_vec(Vec::with_capacity(alloc, count)?);
    for ordinal in 0..count {
        shown.push(Item::Column(ordinal))?;
    }
    Ok(shown)
}

fn resolve_item(scope: &Scope, item: &Item<ColumnName>) -> Item<usize>
    ensures { result ≡ resolved_item scope.now item.now }
{
    match item {
        Item::Column(name) => Item::Column(ordinal_in(scope, name)),
        Item::CountRows => Item::CountRows,
        Item::Count(name) => Item::Count(ordinal_in(scope, name)),
        Item::Sum(name) => Item::Sum(ordinal_in(scope, name)),
        Item::Min(name) => Item::Min(ordinal_in(scope, name)),
        Item::Max(name) => Item::Max(ordinal_in(scope, name)),
    }
}

fn resolve_items(
    alloc: Global,
    scope: &Scope,
    items: &[Item<ColumnName>],
) -> Result<Items<Item<usize>>, AllocError>
    ensures ok { IfOk result (λ r. r ≡ map (resolved_item scope.now) items.now) }
{
    let mut resolved = Items::new(alloc);
    for item in items {
        resolved.push(resolve_item(scope, item))?;
    }
    Ok(resolved)
}

fn resolve_list(
    alloc: Global,
    scope: &Scope,
    list: &SelectList,
) -> Result<Items<Item<usize>>, AllocError>
    ensures ok { IfOk result (λ r. r ≡ resolved_list scope.now list.now) }
{
    match list {
        SelectList::All => all_columns(alloc, scope),
        SelectList::Items(items) => resolve_items(alloc, scope, items.as_slice()),
    }
}

fn is_qualified(item: &Item<ColumnName>) -> bool
    ensures { result ≡ is_qualified item.now }
{
    match item {
        Item::CountRows => false,
        Item::Column(name)
        | Item::Count(name)
        | Item::Sum(name)
        | Item::Min(name)
        | Item::Max(name) => name.table.is_some(),
    }
}

fn qualified_items(alloc: Global, items: &[Item<ColumnName>]) -> Result<Items<bool>, AllocError>
    ensures ok { IfOk result (λ r. r ≡ map is_qualified items.now) }
{
    let mut qualified = Items::new(alloc);
    for item in items {
        qualified.push(is_qualified(item))?;
    }
    Ok(qualified)
}

fn qualified_in(alloc: Global, list: &SelectList) -> Result<Items<bool>, AllocError>
    ensures ok { IfOk result (λ r. r ≡ qualified_in list.now) }
{
    match list {
        SelectList::All => Ok(Items::new(alloc)),
        SelectList::Items(items) => qualified_items(alloc, items.as_slice()),
    }
}

/// The ordinals of these columns.
pub fn resolve_names(
    alloc: Global,
    table: &Table,
    names: &[Name],
) -> Result<Items<usize>, AllocError>
    ensures ok { IfOk result (λ r. r ≡ map (ordinal table.now) names.now) }
{
    let mut ordinals = Items::new(alloc);
    for name in names {
        ordinals.push(ordinal(table, name))?;
    }
    Ok(ordinals)
}

fn resolve_columns(
    alloc: Global,
    scope: &Scope,
    columns: &[ColumnName],
) -> Result<Items<usize>, AllocError>
    ensures ok { IfOk result (λ r. r ≡ map (ordinal_in scope.now) columns.now) }
{
    let mut ordinals = Items::new(alloc);
    for column in columns {
        ordinals.push(ordinal_in(scope, column))?;
    }
    Ok(ordinals)
}

fn resolve_key(scope: &Scope, key: &Key<ColumnName>) -> Key<usize>
    ensures { result ≡ resolved_key scope.now key.now }
{
    Key {
        column: ordinal_in(scope, &key.column),
        descending: key.descending,
    }
}

fn resolve_keys(
    alloc: Global,
    scope: &Scope,
    keys: &[Key<ColumnName>],
) -> Result<Items<Key<usize>>, AllocError>
    ensures ok { IfOk result (λ r. r ≡ map (resolved_key scope.now) keys.now) }
{
    let mut resolved = Items::new(alloc);
    for key in keys {
        resolved.push(resolve_key(scope, key))?;
    }
    Ok(resolved)
}

/// The condition with its columns by their ordinals, if there is one.
pub fn resolve_filter(
    alloc: Global,
    scope: &Scope,
    filter: &Option<Condition<ColumnName>>,
) -> Result<Option<Condition<usize>>, AllocError>
    ensures ok { IfOk result (λ r. r ≡ option_map (resolved_condition scope.now) filter.now) }
{
    let Some(condition) = filter else {
        return Ok(None);
    };
    let condition = match resolve_condition(alloc, scope, condition) {
        Ok(condition) => condition,
        Err(refusal) => return Err(refusal),
    };
    Ok(Some(condition))
}

fn left_ordinal(scope: &Scope, join: &JoinOn) -> usize
    ensures { result ≡ left_ordinal scope.now join.now }
{
    let left = ordinal_in(scope, &join.left);
    if left < width(scope) {
        left
    } else {
        ordinal_in(scope, &join.right)
    }
}

fn right_ordinal(scope: &Scope, join: &JoinOn) -> usize
    ensures { result ≡ right_ordinal scope.now join.now }
{
    let left = ordinal_in(scope, &join.left);
    if left < width(scope) {
        ordinal_in(scope, &join.right)
    } else {
        left
    }
}

fn resolve_join(scope: &Scope, table: usize, join: &JoinOn) -> Join
    ensures { result ≡ resolved_join scope.now table join.now }
{
    let second = right_ordinal(scope, join);
    Join {
        table,
        width: width(scope),
        first: left_ordinal(scope, join),
        second,
        kind: kind_at(scope, second).unwrap_or(ColumnType::BigInt),
    }
}

fn join_over(scope: &Scope, second: Option<usize>, join: &Option<JoinOn>) -> Option<Join>
    ensures { result ≡ join_over scope.now second join.now }
{
    match (second, join) {
        (Some(table), Some(join)) => Some(resolve_join(scope, table, join)),
        _ => None,
    }
}

// The items that a query shows, and whether each was written with its table's name.
fn resolve_shown(
    alloc: Global,
    scope: &Scope,
    list: &SelectList,
) -> Result<(Items<Item<usize>>, Items<bool>), AllocError>
    ensures items { IfOk result (λ r. r.0 ≡ resolved_list scope.now list.now) }
    ensures qualified { IfOk result (λ r. r.1 ≡ qualified_in list.now) }
{
    let items = resolve_list(alloc, scope, list)?;
    let qualified = qualified_in(alloc, list)?;
    Ok((items, qualified))
}

// The columns of GROUP BY, and those of ORDER BY.
fn resolve_orders(
    alloc: Global,
    scope: &Scope,
    select: &Select,
) -> Result<(Items<usize>, Items<Key<usize>>), AllocError>
    ensures group_by { IfOk result (λ r. r.0 ≡ map (ordinal_in scope.now) select.now.group_by) }
    ensures order_by { IfOk result (λ r. r.1 ≡ map (resolved_key scope.now) select.now.order_by) }
{
    let group_by = resolve_columns(alloc, scope, select.group_by.as_slice())?;
    let order_by = resolve_keys(alloc, scope, select.order_by.as_slice())?;
    Ok((group_by, order_by))
}

// A query over its tables, whether it's taken or not.
fn query_over(
    alloc: Global,
    hashing: &Hashing,
    sources: &Sources,
    select: &Select,
) -> Result<Query, AllocError>
    ensures ok { IfOk result (λ q. q ≡ over sources.now.ordinal sources.now.second sources.now.scope select.now) }
{
    let scope = &sources.scope;
    let filter = resolve_filter(alloc, scope, &select.filter)?;
    let (items, qualified) = resolve_shown(alloc, scope, &select.list)?;
    let (group_by, order_by) = resolve_orders(alloc, scope, select)?;
    Ok(Query {
        table: sources.ordinal,
        join: join_over(scope, sources.second, &select.join),
        items,
        qualified,
        filter,
        group_by: GroupBy::new(group_by, hashing.copy()),
        order_by,
        limit: select.limit,
    })
}

fn query_join_is_refused(scope: &Scope, query: &Query) -> bool
    ensures { result ≡ join_is_refused scope.now query.now }
{
    join_is_refused(scope, query.table, query.join, query.is_aggregated())
}

fn shows_ungrouped(alloc: Global, query: &Query) -> Result<bool, AllocError>
    ensures { IfOk result (λ shows. shows ≡ shows_ungrouped query.now) }
{
    if query.is_aggregated() {
        shows_others(
            alloc,
            query.items.as_slice(),
            query.group_by.as_slice(),
            query.order_by.as_slice(),
        )
    } else {
        Ok(false)
    }
}

// Why a query isn't taken, whose columns are all there.
fn query_refusal(
    alloc: Global,
    sources: &Sources,
    select: &Select,
    query: &Query,
) -> Option<Refusal>
    requires known { names_unknown_column sources.now.scope select.now ≡ false }
    requires query { query.now ≡ over sources.now.ordinal sources.now.second sources.now.scope select.now }
    ensures none { IfNone result (checked sources.now.ordinal sources.now.second sources.now.scope select.now ≡ Ok query.now) }
    ensures some { IfSome result (λ r. (r ≡ Refusal.OutOfMemory) ⊎ (checked sources.now.ordinal sources.now.second sources.now.scope select.now ≡ Err r)) }
{
    let scope = &sources.scope;
    if is_not_supported(scope, select, &query.filter) || query_join_is_refused(scope, query) {
        return Some(Refusal::NotSupported);
    }
    match shows_ungrouped(alloc, query) {
        Ok(false) => None,
        Ok(true) => Some(Refusal::NotGrouped),
        Err(failed) => Some(Refusal::from(failed)),
    }
}

// A query over its tables, whose ordinals are these.
fn resolve_over(
    alloc: Global,
    hashing: &Hashing,
    sources: &Sources,
    select: &Select,
) -> Result<Typed, Refusal>
    ensures ok { IfOk result (λ t. as_query (checked sources.now.ordinal sources.now.second sources.now.scope select.now) ≡ Ok t) }
    ensures err { IfErr result (λ e. (e ≡ Refusal.OutOfMemory) ⊎ (as_query (checked sources.now.ordinal sources.now.second sources.now.scope select.now) ≡ Err e)) }
{
    if names_unknown_column(&sources.scope, select) {
        return Err(Refusal::UnknownColumn);
    }
    let query = query_over(alloc, hashing, sources, select)?;
    match query_refusal(alloc, sources, select, &query) {
        Some(refusal) => Err(refusal),
        None => Ok(Typed::Select(query)),
    }
}

/// The tables of a query: the ordinal of the first, that of the second, if there is one, and their columns.
#[derive(Drop)]
struct Sources<'s> {
    ordinal: usize,
    second: Option<usize>,
    scope: Scope<'s>,
}

// The tables of a join whose second table is given by its ordinal, if it is there.
fn sources_alongside<'s>(
    schema: &'s VSchema,
    ordinal: usize,
    second: usize,
    table: &'s Table,
    select: &Select,
) -> Option<Sources<'s>>
    ensures some { IfSome result (λ f. checked_pair select.now ordinal second table.now (slice_get schema.now.tables second) ≡ checked f.ordinal f.second f.scope select.now) }
    ensures none { IfNone result (checked_pair select.now ordinal second table.now (slice_get schema.now.tables second) ≡ Err Refusal.UnknownTable) }
{
    match schema.tables.as_slice().get(second) {
        Some(other) => Some(Sources {
            ordinal,
            second: Some(second),
            scope: Scope::of_both(table, other),
        }),
        None => None,
    }
}

// The tables of a join whose second table is given by its name, if it is there.
fn sources_pair<'s>(
    schema: &'s VSchema,
    ordinal: usize,
    table: &'s Table,
    name: &Name,
    select: &Select,
) -> Option<Sources<'s>>
    ensures some { IfSome result (λ f. checked_second schema.now select.now ordinal table.now (table_ordinal schema.now name.now) ≡ checked f.ordinal f.second f.scope select.now) }
    ensures none { IfNone result (checked_second schema.now select.now ordinal table.now (table_ordinal schema.now name.now) ≡ Err Refusal.UnknownTable) }
{
    match table_ordinal(schema, name) {
        Some(second) => sources_alongside(schema, ordinal, second, table, select),
        None => None,
    }
}

// The tables of a query whose first table is this, if they are there.
fn sources_with<'s>(
    schema: &'s VSchema,
    ordinal: usize,
    table: &'s Table,
    select: &Select,
) -> Option<Sources<'s>>
    ensures some { IfSome result (λ f. checked_with schema.now select.now ordinal table.now select.now.join ≡ checked f.ordinal f.second f.scope select.now) }
    ensures none { IfNone result (checked_with schema.now select.now ordinal table.now select.now.join ≡ Err Refusal.UnknownTable) }
{
    match &select.join {
        Some(join) => sources_pair(schema, ordinal, table, &join.table, select),
        None => Some(Sources {
            ordinal,
            second: None,
            scope: Scope::of(table),
        }),
    }
}

// The tables of a query, if they are there.
fn sources_of<'s>(schema: &'s VSchema, select: &Select) -> Option<Sources<'s>>
    ensures some { IfSome result (λ f. typed_select schema.now select.now ≡ checked f.ordinal f.second f.scope select.now) }
    ensures none { IfNone result (typed_select schema.now select.now ≡ Err Refusal.UnknownTable) }
{
    let ordinal = table_ordinal(schema, &select.table)?;
    let table = schema.tables.as_slice().get(ordinal)?;
    sources_with(schema, ordinal, table, select)
}

fn resolve_select(alloc: Global, schema: &VSchema, select: &Select) -> Result<Typed, Refusal>
    ensures ok { IfOk result (λ t. as_query (typed_select schema.now select.now) ≡ Ok t) }
    ensures err { IfErr result (λ e. (e ≡ Refusal.OutOfMemory) ⊎ (as_query (typed_select schema.now select.now) ≡ Err e)) }
{
    let Some(sources) = sources_of(schema, select) else {
        return Err(Refusal::UnknownTable);
    };
    resolve_over(alloc, schema.tables.hashing(), &sources, select)
}

impl VSchema {
    ghost use Rattle.std.specs.Prelude.{◌≡◌, ◌⊎◌, IfOk, IfErr, Ok, Err};
    ghost use Rattle.vschema.specs.TypedStatement.{typed_statement};

    // Promise: A statement of the grammar is its typed statement, or the first refusal that applies: F4 (of a join the first table before the
    // second), F18, F17, F5 (also a bare name that both tables of a join have), F3 (also a join that shards can't make by themselves), F19,
    // F14, F13, F15, F16, in this order
    /// The statement with its names resolved, or the first refusal that applies, in this order: an unknown table; a column
    /// named twice in INSERT's list or in SET; a row with another number of values than columns; an unknown column; a number
    /// with a text, a SUM of texts, or SET of a key; a column of an aggregated query that isn't grouped; a column that INSERT
    /// leaves out and that needs a value; NULL, a number out of range or a text too long for its column. Besides these it
    /// refuses only for want of memory.
    pub fn resolve(&self, alloc: Global, statement: Statement) -> Result<Typed, Refusal>
        ensures ok { IfOk result (λ typed. typed_statement self.now statement ≡ Ok typed) }
        ensures err { IfErr result (λ e. (e ≡ Refusal.OutOfMemory) ⊎ (typed_statement self.now statement ≡ Err e)) }
    {
        match statement {
            Statement::Select(select) => return resolve_select(alloc, self, &select),
            Statement::Insert(insert) => return resolve_insert(alloc, self, insert),
            Statement::Update(update) => return resolve_update(alloc, self, &update),
            Statement::Delete(delete) => return resolve_delete(alloc, self, &delete),
            Statement::Begin => Ok(Typed::Begin),
            Statement::Commit => Ok(Typed::Commit),
            Statement::Rollback => Ok(Typed::Rollback),
            Statement::SetNames(_) => Ok(Typed::SetNames),
        }
    }
}
