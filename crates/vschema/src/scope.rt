//! The columns that a statement may name.
ghost use Rattle.std.specs.Prelude.{◌≡◌, ◌+◌, ◌<◌, length, option_map, slice_get, IfSome, Some};
ghost use Rattle.vschema.specs.Scopes.{only, both_of, scope_columns, second_ordinal, just_one, is_named, named_ordinal, scope_ordinal, ordinal_in};
ghost use Rattle.vschema.specs.Schema.{column_ordinal as ordinal_of};
ghost use Rattle.vschema.specs.Checks.{is_unnamed};
ghost use Rattle.vschema.specs.Scopes as scopes;

use crate::names::column_ordinal;
use crate::schema::Table;
use sql_tree::{ColumnName, Name};
use std::marker::Model;
use vschema_json::{ColumnType, is_name};

/// The tables after FROM: one, or the two of a join. Contracts see them as a `Scope` of definitions.
#[derive(Drop)]
pub struct Scope<'s> {
    one: &'s Table,
    other: Option<&'s Table>,
}

impl<'s> Model for Scope<'s> {
    ghost use Rattle.std.specs.Prelude.{option_map};
    ghost use Rattle.vschema.specs.Scopes as scopes;

    ghost Value = { scopes.Scope };

    ghost view = { λ s. record { first = s.one.now; second = option_map (λ t. t.now) s.other } };
}

// Just one of two ordinals.
fn just_one(first: Option<usize>, second: Option<usize>) -> Option<usize>
    ensures { result ≡ just_one first second }
{
    match (first, second) {
        (Some(_), Some(_)) => None,
        (Some(ordinal), None) => Some(ordinal),
        (None, ordinal) => ordinal,
    }
}

// The ordinal of a column, which the table has.
fn ordinal_below(table: &Table, name: &Name) -> Option<usize>
    ensures ordinal { result ≡ ordinal_of table.now name.now }
    ensures below { IfSome result (λ n. n < length table.now.columns) }
{
    column_ordinal(table, name)
}

// The ordinal of a column after those of a first table.
fn ordinal_after(first: &Table, table: &Table, name: &Name) -> Option<usize>
    ensures { result ≡ option_map (λ n. length first.now.columns + n) (ordinal_of table.now name.now) }
{
    let width = first.columns.as_slice().len();
    let table_width = table.columns.as_slice().len();
    match ordinal_below(table, name) {
        Some(ordinal) => {
            prove!(ordinal < table_width);
            Some(width + ordinal)
        }
        None => None,
    }
}

impl<'s> Scope<'s> {
    /// The columns of one table.
    pub fn of(table: &'s Table) -> Scope<'s>
        ensures { result ≡ only table.now }
    {
        Scope {
            one: table,
            other: None,
        }
    }

    /// The columns of a table, and after them those of another.
    pub fn of_both(first: &'s Table, second: &'s Table) -> Scope<'s>
        ensures { result ≡ both_of first.now second.now }
    {
        Scope {
            one: first,
            other: Some(second),
        }
    }
}

fn second_ordinal(scope: &Scope, name: &Name) -> Option<usize>
    ensures { result ≡ second_ordinal scope.now name.now }
{
    match scope.other {
        Some(table) => ordinal_after(scope.one, table, name),
        None => None,
    }
}

fn is_second(scope: &Scope, name: &Name) -> bool
    ensures { result ≡ is_named name.now scope.now.second }
{
    match scope.other {
        Some(table) => is_name(&table.name, name),
        None => false,
    }
}

fn named_ordinal(scope: &Scope, table: &Name, name: &Name) -> Option<usize>
    ensures { result ≡ named_ordinal scope.now (Some table.now) name.now }
{
    if is_name(&scope.one.name, table) {
        column_ordinal(scope.one, name)
    } else if is_second(scope, table) {
        second_ordinal(scope, name)
    } else {
        None
    }
}

/// The ordinal of a column, if just one is meant.
pub fn scope_ordinal(scope: &Scope, column: &ColumnName) -> Option<usize>
    ensures { result ≡ scope_ordinal scope.now column.now }
{
    match &column.table {
        Some(table) => named_ordinal(scope, table, &column.name),
        None => just_one(
            column_ordinal(scope.one, &column.name),
            second_ordinal(scope, &column.name),
        ),
    }
}

/// The ordinal of a column; that it is there is a check of its own.
pub fn ordinal_in(scope: &Scope, column: &ColumnName) -> usize
    ensures { result ≡ ordinal_in scope.now column.now }
{
    scope_ordinal(scope, column).unwrap_or(0)
}

/// Whether no column is meant, or not just one.
pub fn is_unnamed(scope: &Scope, column: &ColumnName) -> bool
    ensures { result ≡ is_unnamed scope.now column.now }
{
    scope_ordinal(scope, column).is_none()
}

fn kind_of(table: &Table, ordinal: usize) -> Option<ColumnType>
    ensures { result ≡ option_map (λ c. c.kind) (slice_get table.now.columns ordinal) }
{
    match table.columns.as_slice().get(ordinal) {
        Some(column) => Some(column.kind),
        None => None,
    }
}

/// How many columns the first table has.
pub fn width(scope: &Scope) -> usize
    ensures { result ≡ length scope.now.first.columns }
{
    scope.one.columns.as_slice().len()
}

/// How many columns there are.
pub fn column_count(scope: &Scope) -> usize
    ensures { result ≡ length (scope_columns scope.now) }
{
    let width = scope.one.columns.as_slice().len();
    match scope.other {
        Some(table) => width + table.columns.as_slice().len(),
        None => width,
    }
}

/// The type of the column at an ordinal.
pub fn kind_at(scope: &Scope, ordinal: usize) -> Option<ColumnType>
    ensures { result ≡ option_map (λ c. c.kind) (slice_get (scope_columns scope.now) ordinal) }
{
    let width = scope.one.columns.as_slice().len();
    if ordinal < width {
        return kind_of(scope.one, ordinal);
    }
    match scope.other {
        Some(table) => kind_of(table, ordinal - width),
        None => None,
    }
}

/// The first table.
pub fn table_of<'s>(scope: &Scope<'s>) -> &'s Table
    ensures { result.now ≡ scope.now.first }
{
    scope.one
}

/// The second table, if there is one.
pub fn second_of<'s>(scope: &Scope<'s>) -> Option<&'s Table>
    ensures { option_map (λ t. t.now) result ≡ scope.now.second }
{
    scope.other
}
