//! INSERT, UPDATE and DELETE with their names resolved, or the refusal of the first check that fails.
ghost use Rattle.std.specs.Prelude.{◌≡◌, ◌⊎◌, ◌==◌, ℕ, IsTrue, IfOk, IfErr, IfSome, map, option_map, false, Ok, Err};
ghost use Rattle.vschema.specs.declared.changes.Write.TheVariants as written;
ghost use Rattle.vschema.specs.Schema.{ordinal_from};
ghost use Rattle.vschema.specs.Resolved.{ordinals_from, resolved_condition};
ghost use Rattle.vschema.specs.Scopes.{only};
ghost use Rattle.vschema.specs.WriteChecks.{has_twice, sets_twice, listed_names, insert_ordinals, has_wrong_count, insert_names_unknown, inserted_values, has_other_kind, leaves_out_column, assigned_values, update_names_unknown, sets_key, update_is_not_supported};
ghost use Rattle.vschema.specs.TypedStatement.{as_write};
ghost use Rattle.vschema.specs.TypedWrites.{value_for, whole_row, resolved_assignment, insert_over, update_over, delete_over, unless_refused, stored_checks, insert_checks, update_checks, delete_checks, typed_insert, typed_update, typed_delete};
ghost use Rattle.vschema.specs.inner.StoredChecks.{fails, unless};
ghost use Rattle.std.specs.List.{list_any};

use crate::changes::Write;
use crate::checks::{filter_mixes, filter_names_unknown, some_unknown};
use crate::names::table_ordinal;
use crate::resolve::{ordinal, resolve_filter, resolve_names};
use crate::schema::{Table, Typed, VSchema};
use crate::scope::Scope;
use crate::twice::sets_twice;
use crate::write_checks::{
    StoredCheck, assignments_fail, has_wrong_count, leaves_out_column, rows_fail, sets_key,
    sets_unknown,
};
use sql_tree::{Assignment, Condition, Delete, Insert, Name, Update};
use std::alloc::{AllocError, Global};
use vschema_json::has_twice;
use vt_value::{Items, Refusal, Row, Value, copy};

/// The first ordinals.
static FIRST: [usize; 16] = [0, 1, 2, 3, 4, 5, 6, 7, 8, 9, 10, 11, 12, 13, 14, 15];

/// All ordinals of a table with few columns. Takes no memory.
fn few_ordinals(table: &Table) -> Option<&'static [usize]>
    ensures { IfSome result (λ ordinals. ordinals.now ≡ ordinals_from 0 table.now.columns) }
{
    let count = table.columns.as_slice().len();
    if count <= FIRST.len() {
        Some(&FIRST[..count])
    } else {
        None
    }
}

fn all_ordinals(alloc: Global, table: &Table) -> Result<Items<usize>, AllocError>
    ensures ok { IfOk result (λ r. r ≡ ordinals_from 0 table.now.columns) }
{
    let mut ordinals = Items::new(alloc);
    for (ordinal, _) in table.columns.as_slice().iter().enumerate() {
        ordinals.push(ordinal)?;
    }
    Ok(ordinals)
}

fn insert_ordinals(
    alloc: Global,
    table: &Table,
    columns: &Option<Items<Name>>,
) -> Result<Items<usize>, AllocError>
    ensures ok { IfOk result (λ r. r ≡ insert_ordinals table.now columns.now) }
{
    match columns {
        None => all_ordinals(alloc, table),
        Some(names) => resolve_names(alloc, table, names.as_slice()),
    }
}

fn names_of(columns: &Option<Items<Name>>) -> &[Name]
    ensures { result.now ≡ listed_names columns.now }
{
    match columns {
        None => &[],
        Some(names) => names.as_slice(),
    }
}

fn has_other_count(table: &Table, insert: &Insert, ordinals: &[usize]) -> bool
    requires ordinals { ordinals.now ≡ insert_ordinals table.now insert.now.columns }
    ensures { result ≡ has_wrong_count table.now insert.now }
{
    has_wrong_count(ordinals, insert.rows.as_slice())
}

fn names_unknown(table: &Table, insert: &Insert) -> bool
    ensures { result ≡ insert_names_unknown table.now insert.now }
{
    some_unknown(table, names_of(&insert.columns))
}

fn insert_fails(check: StoredCheck, table: &Table, insert: &Insert, ordinals: &[usize]) -> bool
    requires ordinals { ordinals.now ≡ insert_ordinals table.now insert.now.columns }
    ensures { result ≡ list_any (fails check) (inserted_values table.now insert.now) }
{
    rows_fail(check, table, ordinals, insert.rows.as_slice())
}

fn leaves_out(table: &Table, insert: &Insert, ordinals: &[usize]) -> bool
    requires ordinals { ordinals.now ≡ insert_ordinals table.now insert.now.columns }
    ensures { result ≡ leaves_out_column table.now insert.now }
{
    leaves_out_column(table, ordinals)
}

fn inserted_refusal(table: &Table, insert: &Insert, ordinals: &[usize]) -> Option<Refusal>
    requires ordinals { ordinals.now ≡ insert_ordinals table.now insert.now.columns }
    ensures { (w : Write) → unless_refused (stored_checks (inserted_values table.now insert.now)) w ≡ unless result w }
{
    if !insert_fails(StoredCheck::Unfit, table, insert, ordinals) {
        None
    } else if insert_fails(StoredCheck::WrongNull, table, insert, ordinals) {
        Some(Refusal::NullNotAllowed)
    } else if insert_fails(StoredCheck::OutOfRange, table, insert, ordinals) {
        Some(Refusal::OutOfRange)
    } else if insert_fails(StoredCheck::TooLong, table, insert, ordinals) {
        Some(Refusal::TooLong)
    } else {
        None
    }
}

/// The ordinals of INSERT's columns, if it names none and the table has few. Takes no memory.
fn ordinals_at_once(table: &Table, columns: &Option<Items<Name>>) -> Option<&'static [usize]>
    ensures { IfSome result (λ ordinals. ordinals.now ≡ insert_ordinals table.now columns.now) }
{
    match columns {
        None => few_ordinals(table),
        Some(_) => None,
    }
}

// The refusal of an INSERT that names no column twice.
fn insert_refusal(table: &Table, insert: &Insert, ordinals: &[usize]) -> Option<Refusal>
    requires ordinals { ordinals.now ≡ insert_ordinals table.now insert.now.columns }
    requires once { has_twice (listed_names insert.now.columns) ≡ false }
    ensures { (w : Write) → unless_refused (insert_checks table.now insert.now) w ≡ unless result w }
{
    if has_other_count(table, insert, ordinals) {
        Some(Refusal::WrongValueCount)
    } else if names_unknown(table, insert) {
        Some(Refusal::UnknownColumn)
    } else if insert_fails(StoredCheck::OtherKind, table, insert, ordinals) {
        Some(Refusal::NotSupported)
    } else if leaves_out(table, insert, ordinals) {
        Some(Refusal::NoDefaultValue)
    } else {
        inserted_refusal(table, insert, ordinals)
    }
}

fn position(ordinals: &[usize], ordinal: usize) -> Option<usize>
    ensures { result ≡ ordinal_from (λ m. m == ordinal) 0 ordinals.now }
{
    for (i, other) in ordinals.iter().enumerate() {
        if *other == ordinal {
            return Some(i);
        }
    }
    None
}

fn value_for(
    alloc: Global,
    ordinals: &[usize],
    values: &[Value],
    ordinal: usize,
) -> Result<Value, AllocError>
    ensures ok { IfOk result (λ v. v ≡ value_for ordinals.now values.now ordinal) }
{
    let Some(at) = position(ordinals, ordinal) else {
        return Ok(Value::Null);
    };
    match values.get(at) {
        Some(value) => copy(alloc, value),
        None => Ok(Value::Null),
    }
}

fn whole_row(
    alloc: Global,
    table: &Table,
    ordinals: &[usize],
    values: &[Value],
) -> Result<Row, AllocError>
    ensures ok { IfOk result (λ r. r ≡ whole_row table.now ordinals.now values.now) }
{
    let columns = table.columns.as_slice();
    let mut row = Items::from_vec(Vec::with_capacity(alloc, columns.len())?);
    for (ordinal, _) in columns.iter().enumerate() {
        let value = value_for(alloc, ordinals, values, ordinal)?;
        row.push(value)?;
    }
    Ok(row)
}

fn whole_rows(
    alloc: Global,
    table: &Table,
    ordinals: &[usize],
    rows: &[Items<Value>],
) -> Result<Items<Row>, AllocError>
    ensures ok { IfOk result (λ r. r ≡ map (whole_row table.now ordinals.now) rows.now) }
{
    let mut whole = Items::from_vec(Vec::with_capacity(alloc, rows.len())?);
    for row in rows {
        let row = whole_row(alloc, table, ordinals, row.as_slice())?;
        whole.push(row)?;
    }
    Ok(whole)
}

// Whether these are all ordinals of the table, in their order: then a row of INSERT is whole as it is.
fn are_all_in_order(table: &Table, ordinals: &[usize]) -> bool
    ensures { IsTrue result → ordinals.now ≡ ordinals_from 0 table.now.columns }
{
    match few_ordinals(table) {
        Some(all) => all == ordinals,
        None => false,
    }
}

// The rows of an INSERT that names no column twice, each whole, or its refusal.
fn rows_at(
    alloc: Global,
    table: &Table,
    insert: Insert,
    ordinals: &[usize],
) -> Result<Items<Row>, Refusal>
    requires ordinals { ordinals.now ≡ insert_ordinals table.now insert.columns }
    requires once { has_twice (listed_names insert.columns) ≡ false }
    ensures ok { IfOk result (λ rows. (n : ℕ) → unless_refused (insert_checks table.now insert) (insert_over n table.now insert) ≡ Ok (written.Insert n rows)) }
    ensures err { IfErr result (λ e. (e ≡ Refusal.OutOfMemory) ⊎ ((n : ℕ) → unless_refused (insert_checks table.now insert) (insert_over n table.now insert) ≡ Err e)) }
{
    if let Some(refusal) = insert_refusal(table, &insert, ordinals) {
        return Err(refusal);
    }
    if are_all_in_order(table, ordinals) {
        return Ok(insert.rows);
    }
    Ok(whole_rows(alloc, table, ordinals, insert.rows.as_slice())?)
}

// The rows of an INSERT, each whole, or its refusal.
fn inserted_rows(alloc: Global, table: &Table, insert: Insert) -> Result<Items<Row>, Refusal>
    ensures ok { IfOk result (λ rows. (n : ℕ) → unless_refused (insert_checks table.now insert) (insert_over n table.now insert) ≡ Ok (written.Insert n rows)) }
    ensures err { IfErr result (λ e. (e ≡ Refusal.OutOfMemory) ⊎ ((n : ℕ) → unless_refused (insert_checks table.now insert) (insert_over n table.now insert) ≡ Err e)) }
{
    if has_twice(alloc, names_of(&insert.columns))? {
        return Err(Refusal::ColumnNamedTwice);
    }
    match ordinals_at_once(table, &insert.columns) {
        Some(ordinals) => rows_at(alloc, table, insert, ordinals),
        None => {
            let ordinals = insert_ordinals(alloc, table, &insert.columns)?;
            rows_at(alloc, table, insert, ordinals.as_slice())
        }
    }
}

fn update_names_unknown(table: &Table, update: &Update) -> bool
    ensures { result ≡ update_names_unknown table.now update.now }
{
    sets_unknown(table, update.assignments.as_slice())
        || filter_names_unknown(&Scope::of(table), &update.filter)
}

// Whether a value that SET stores fails; `assignments` are SET's with their columns by ordinals.
fn update_fails(
    check: StoredCheck,
    table: &Table,
    update: &Update,
    assignments: &[Assignment<usize>],
) -> bool
    requires resolved { assignments.now ≡ map (resolved_assignment table.now) update.now.assignments }
    ensures { result ≡ list_any (fails check) (assigned_values table.now update.now) }
{
    assignments_fail(check, table, assignments)
}

// Whether SET sets a key; `assignments` are SET's with their columns by ordinals.
fn update_sets_key(table: &Table, update: &Update, assignments: &[Assignment<usize>]) -> bool
    requires resolved { assignments.now ≡ map (resolved_assignment table.now) update.now.assignments }
    ensures { result ≡ sets_key table.now update.now }
{
    sets_key(table, assignments)
}

fn update_is_not_supported(
    table: &Table,
    update: &Update,
    assignments: &[Assignment<usize>],
    filter: &Option<Condition<usize>>,
) -> bool
    requires resolved { assignments.now ≡ map (resolved_assignment table.now) update.now.assignments }
    requires filter { filter.now ≡ option_map (resolved_condition (only table.now)) update.now.filter }
    ensures { result ≡ update_is_not_supported table.now update.now }
{
    filter_mixes(&Scope::of(table), &update.filter, filter)
        || update_fails(StoredCheck::OtherKind, table, update, assignments)
        || update_sets_key(table, update, assignments)
}

fn assigned_refusal(
    table: &Table,
    update: &Update,
    assignments: &[Assignment<usize>],
) -> Option<Refusal>
    requires resolved { assignments.now ≡ map (resolved_assignment table.now) update.now.assignments }
    ensures { (w : Write) → unless_refused (stored_checks (assigned_values table.now update.now)) w ≡ unless result w }
{
    if !update_fails(StoredCheck::Unfit, table, update, assignments) {
        None
    } else if update_fails(StoredCheck::WrongNull, table, update, assignments) {
        Some(Refusal::NullNotAllowed)
    } else if update_fails(StoredCheck::OutOfRange, table, update, assignments) {
        Some(Refusal::OutOfRange)
    } else if update_fails(StoredCheck::TooLong, table, update, assignments) {
        Some(Refusal::TooLong)
    } else {
        None
    }
}

// The refusal of an UPDATE that sets no column twice; `assignments` are SET's with their columns by ordinals, and `filter` is its condition
// with them.
fn update_refusal(
    table: &Table,
    update: &Update,
    assignments: &[Assignment<usize>],
    filter: &Option<Condition<usize>>,
) -> Option<Refusal>
    requires resolved { assignments.now ≡ map (resolved_assignment table.now) update.now.assignments }
    requires filter { filter.now ≡ option_map (resolved_condition (only table.now)) update.now.filter }
    requires once { sets_twice update.now.assignments ≡ false }
    ensures { (w : Write) → unless_refused (update_checks table.now update.now) w ≡ unless result w }
{
    if update_names_unknown(table, update) {
        Some(Refusal::UnknownColumn)
    } else if update_is_not_supported(table, update, assignments, filter) {
        Some(Refusal::NotSupported)
    } else {
        assigned_refusal(table, update, assignments)
    }
}

fn resolve_assignment(
    alloc: Global,
    table: &Table,
    a: &Assignment<Name>,
) -> Result<Assignment<usize>, AllocError>
    ensures ok { IfOk result (λ r. r ≡ resolved_assignment table.now a.now) }
{
    let value = copy(alloc, &a.value)?;
    Ok(Assignment {
        column: ordinal(table, &a.column),
        value,
    })
}

fn resolve_assignments(
    alloc: Global,
    table: &Table,
    assignments: &[Assignment<Name>],
) -> Result<Items<Assignment<usize>>, AllocError>
    ensures ok { IfOk result (λ r. r ≡ map (resolved_assignment table.now) assignments.now) }
{
    let mut resolved = Items::from_vec(Vec::with_capacity(alloc, assignments.len())?);
    for a in assignments {
        let a = resolve_assignment(alloc, table, a)?;
        resolved.push(a)?;
    }
    Ok(resolved)
}

fn update_of(
    alloc: Global,
    ordinal: usize,
    table: &Table,
    update: &Update,
) -> Result<Typed, Refusal>
    ensures ok { IfOk result (λ t. as_write (unless_refused (update_checks table.now update.now) (update_over ordinal table.now update.now)) ≡ Ok t) }
    ensures err { IfErr result (λ e. (e ≡ Refusal.OutOfMemory)
        ⊎ (as_write (unless_refused (update_checks table.now update.now) (update_over ordinal table.now update.now)) ≡ Err e)) }
{
    if sets_twice(alloc, update.assignments.as_slice())? {
        return Err(Refusal::ColumnNamedTwice);
    }
    let assignments = resolve_assignments(alloc, table, update.assignments.as_slice())?;
    let filter = match resolve_filter(alloc, &Scope::of(table), &update.filter) {
        Ok(filter) => filter,
        Err(_) => return Err(Refusal::OutOfMemory),
    };
    if let Some(refusal) = update_refusal(table, update, assignments.as_slice(), &filter) {
        return Err(refusal);
    }
    Ok(Typed::Write(Write::Update(ordinal, assignments, filter)))
}

fn delete_from(
    alloc: Global,
    ordinal: usize,
    table: &Table,
    delete: &Delete,
) -> Result<Typed, Refusal>
    ensures ok { IfOk result (λ t. as_write (unless_refused (delete_checks table.now delete.now) (delete_over ordinal table.now delete.now)) ≡ Ok t) }
    ensures err { IfErr result (λ e. (e ≡ Refusal.OutOfMemory)
        ⊎ (as_write (unless_refused (delete_checks table.now delete.now) (delete_over ordinal table.now delete.now)) ≡ Err e)) }
{
    if filter_names_unknown(&Scope::of(table), &delete.filter) {
        return Err(Refusal::UnknownColumn);
    }
    let filter = resolve_filter(alloc, &Scope::of(table), &delete.filter)?;
    if filter_mixes(&Scope::of(table), &delete.filter, &filter) {
        return Err(Refusal::NotSupported);
    }
    Ok(Typed::Write(Write::Delete(ordinal, filter)))
}

/// What an INSERT means, or the refusal of the first check that fails. Its rows are moved if they are whole as they are.
pub fn resolve_insert(alloc: Global, schema: &VSchema, insert: Insert) -> Result<Typed, Refusal>
    ensures ok { IfOk result (λ t. as_write (typed_insert schema.now insert) ≡ Ok t) }
    ensures err { IfErr result (λ e. (e ≡ Refusal.OutOfMemory) ⊎ (as_write (typed_insert schema.now insert) ≡ Err e)) }
{
    let Some(ordinal) = table_ordinal(schema, &insert.table) else {
        return Err(Refusal::UnknownTable);
    };
    let Some(table) = schema.tables.as_slice().get(ordinal) else {
        return Err(Refusal::UnknownTable);
    };
    let rows = match inserted_rows(alloc, table, insert) {
        Ok(rows) => rows,
        Err(refusal) => return Err(refusal),
    };
    Ok(Typed::Write(Write::Insert(ordinal, rows)))
}

/// What an UPDATE means, or the refusal of the first check that fails.
pub fn resolve_update(alloc: Global, schema: &VSchema, update: &Update) -> Result<Typed, Refusal>
    ensures ok { IfOk result (λ t. as_write (typed_update schema.now update.now) ≡ Ok t) }
    ensures err { IfErr result (λ e. (e ≡ Refusal.OutOfMemory) ⊎ (as_write (typed_update schema.now update.now) ≡ Err e)) }
{
    let Some(ordinal) = table_ordinal(schema, &update.table) else {
        return Err(Refusal::UnknownTable);
    };
    let Some(table) = schema.tables.as_slice().get(ordinal) else {
        return Err(Refusal::UnknownTable);
    };
    update_of(alloc, ordinal, table, update)
}

/// What a DELETE means, or the refusal of the first check that fails.
pub fn resolve_delete(alloc: Global, schema: &VSchema, delete: &Delete) -> Result<Typed, Refusal>
    ensures ok { IfOk result (λ t. as_write (typed_delete schema.now delete.now) ≡ Ok t) }
    ensures err { IfErr result (λ e. (e ≡ Refusal.OutOfMemory) ⊎ (as_write (typed_delete schema.now delete.now) ≡ Err e)) }
{
    let Some(ordinal) = table_ordinal(schema, &delete.table) else {
        return Err(Refusal::UnknownTable);
    };
    let Some(table) = schema.tables.as_slice().get(ordinal) else {
        return Err(Refusal::UnknownTable);
    };
    delete_from(alloc, ordinal, table, delete)
}
