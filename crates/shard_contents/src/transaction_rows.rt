//! What a transaction sees: the rows that the shard holds, with the transaction's own changes. Of these only the changes of rows that a
//! statement looks at are done, over the rows as they are stored, so no table is copied. Those of rows with known keys are found by the keys.
ghost use Rattle.std.specs.Prelude.{◌≡◌, ◌⊎◌, ◌==◌, ◌<◌, ◌≤◌, ◌^◌, ◌++◌, ◌∷◌, [], List, true, filter, Ok, Err, OnOk, IfOk, IfErr, IfSome, IsSorted, Bool, false, if◌then◌else◌, length};
ghost use Rattle.std.specs.List.{list_any};
ghost use Rattle.std.specs.Ordering.{nat_cmp};
ghost use Rattle.vt_value.specs.declared.value.Value.{Value as V};
ghost use Rattle.vschema.specs.Checks.{is_aggregated};
ghost use Rattle.vschema.specs.Schema.{key_of};
ghost use Rattle.vschema.specs.Database.{rows_of, all_applied, changed_table, same_row, without};
ghost use Rattle.vschema.specs.Sources.{pairs_of, source_rows, source_tables, SourcesThere};
ghost use Rattle.shard_store.specs.Conditions.{is_kept};
ghost use Rattle.shard_store.specs.Groups.{CanBeSummed};
ghost use Rattle.shard_store.specs.Queries.{IsAnswer};
ghost use Rattle.shard_store.specs.Writes.{written_table, changes_of, changes_over};
ghost use Rattle.shard_contents.specs.inner.Stores.{row_after, is_selected};
ghost use Rattle.shard_contents.specs.inner.OwnChanges.{HasPositions, IsDoneAt};

use crate::contents::{Contents, written_table};
use crate::own_changes::OwnChanges;
use crate::store::changed_table;
use shard_store::{Overlay, StoredTables, change_local, keeps, same_key, select_joined};
use sql_tree::Condition;
use std::alloc::{AllocError, Global};
use vschema::{Join, Query, RowChange, Table, VSchema, Write};
use vt_value::{Items, Refusal, Row};

// More rows than memory can hold. The sums of a query are known to fit up to here.
const MOST_ROWS: usize = 1 << 60;

/// Which rows a statement looks at.
#[derive(Clone, Copy)]
pub enum RowSelection<'a> {
    /// All.
    All,
    /// Those whose condition is true.
    Kept(&'a Option<Condition<usize>>),
    /// Those that have the primary key of one of these.
    Keyed(&'a Table, &'a [Row]),
}

// Whether a row has the primary key of one of these.
fn has_key_of(table: &Table, row: &Row, new: &[Row]) -> bool
    ensures { result ≡ list_any (λ n. same_row (key_of table.now n) (key_of table.now row.now)) new.now }
{
    new.iter().any(|n| same_key(table, n, row))
}

impl<'a> RowSelection<'a> {
    fn wants(self, row: &Row) -> bool
        ensures { result ≡ is_selected self.entry row.now }
    {
        match self {
            RowSelection::All => true,
            RowSelection::Kept(condition) => keeps(condition, row),
            RowSelection::Keyed(table, new) => has_key_of(table, row, new),
        }
    }
}

// Whether a change may be of a table that the query is over.
fn changes_source(query: &Query, changes: &OwnChanges) -> bool
    ensures { result ≡ false → list_any (λ n. list_any (λ c. changed_table c == n) changes.now) (source_tables query.now) ≡ false }
{
    if changes.may_change(query.table) {
        return true;
    }
    match query.join {
        Some(join) => changes.may_change(join.table),
        None => false,
    }
}

// Adds a row, if it is wanted.
fn add_wanted<'a>(
    rows: &mut Overlay<'a>,
    wanted: RowSelection<'_>,
    row: &'a Row,
) -> Result<(), AllocError>
    ensures ok { OnOk result (filter (is_selected wanted.entry) rows.new.rows ≡ filter (is_selected wanted.entry) (rows.old.rows ++ row.now ∷ [])) }
{
    if wanted.wants(row) {
        return rows.add(row);
    }
    Ok(())
}

// Removes the first row that is this one, if it is wanted.
fn remove_wanted<'a>(
    alloc: Global,
    rows: &mut Overlay<'a>,
    wanted: RowSelection<'_>,
    row: &'a Row,
) -> Result<(), AllocError>
    ensures ok { OnOk result (filter (is_selected wanted.entry) rows.new.rows ≡ filter (is_selected wanted.entry) (without row.now rows.old.rows)) }
{
    if wanted.wants(row) {
        return rows.remove(alloc, row);
    }
    Ok(())
}

// Does what a change does to the wanted rows.
fn change_wanted<'a>(
    alloc: Global,
    rows: &mut Overlay<'a>,
    wanted: RowSelection<'_>,
    change: &'a RowChange,
) -> Result<(), AllocError>
    ensures ok { OnOk result (filter (is_selected wanted.entry) rows.new.rows ≡ filter (is_selected wanted.entry) (row_after change.now rows.old.rows)) }
{
    match change {
        RowChange::Added(_, row) => add_wanted(rows, wanted, row),
        RowChange::Replaced(_, old, new) => {
            remove_wanted(alloc, rows, wanted, old)?;
            add_wanted(rows, wanted, new)
        }
        RowChange::Removed(_, row) => remove_wanted(alloc, rows, wanted, row),
    }
}

// Does a change to rows.
fn change_row<'a>(
    alloc: Global,
    rows: &mut Overlay<'a>,
    change: &'a RowChange,
) -> Result<(), AllocError>
    ensures ok { OnOk result (rows.new.rows ≡ row_after change.now rows.old.rows) }
{
    match change {
        RowChange::Added(_, row) => rows.add(row),
        RowChange::Replaced(_, old, new) => {
            rows.remove(alloc, old)?;
            rows.add(new)
        }
        RowChange::Removed(_, row) => rows.remove(alloc, row),
    }
}

// Does a change to the rows of the table at an ordinal, if it is of that table.
fn change_table<'a>(
    alloc: Global,
    rows: &mut Overlay<'a>,
    ordinal: usize,
    change: &'a RowChange,
) -> Result<(), AllocError>
    ensures ok { OnOk result (rows.new.rows ≡ (if changed_table change.now == ordinal then row_after change.now rows.old.rows else rows.old.rows)) }
{
    if changed_table(change) == ordinal {
        return change_row(alloc, rows, change);
    }
    Ok(())
}

// Does the change at a position to the rows of the table at an ordinal, unless it is before the next one. Answers the position after it.
fn change_at<'a>(
    alloc: Global,
    rows: &mut Overlay<'a>,
    ordinal: usize,
    changes: &'a [RowChange],
    next: usize,
    position: usize,
) -> Result<usize, AllocError>
    ensures { IfOk result (IsDoneAt ordinal changes.now next position rows.old.rows rows.new.rows) }
{
    if position < next {
        return Ok(next);
    }
    match changes.get(position) {
        Some(change) => {
            change_table(alloc, rows, ordinal, change)?;
            Ok(position + 1)
        }
        None => Ok(next),
    }
}

// Rows of the table at an ordinal with the changes at these positions. Of rows that are wanted, they have those that all changes leave, if the positions of
// all changes of such rows are there.
fn changed_at<'a>(
    alloc: Global,
    store: &'a StoredTables,
    ordinal: usize,
    changes: &'a [RowChange],
    positions: &[usize],
) -> Result<Overlay<'a>, AllocError>
    requires there { ordinal < length store.now.rows }
    requires sorted { IsSorted nat_cmp positions.now }
    ensures ok { IfOk result (λ overlaid. (p : List V → Bool) → HasPositions p ordinal changes.now positions.now
        → filter p overlaid.rows ≡ filter p (rows_of (all_applied changes.now store.now.rows) ordinal)) }
{
    let mut overlaid = store.overlay(alloc, ordinal)?;
    let mut next = 0;
    for position in positions {
        next = change_at(alloc, &mut overlaid, ordinal, changes, next, *position)?;
    }
    Ok(overlaid)
}

// The same rows, by a walk over all changes.
fn replayed<'a>(
    alloc: Global,
    store: &'a StoredTables,
    ordinal: usize,
    changes: &'a [RowChange],
    wanted: RowSelection<'_>,
) -> Result<Overlay<'a>, AllocError>
    requires { ordinal < length store.now.rows }
    ensures ok { IfOk result (λ overlaid. filter (is_selected wanted.entry) overlaid.rows ≡ filter (is_selected wanted.entry) (rows_of (all_applied changes.now store.now.rows) ordinal)) }
{
    let mut overlaid = store.overlay(alloc, ordinal)?;
    for change in changes {
        if changed_table(change) == ordinal {
            change_wanted(alloc, &mut overlaid, wanted, change)?;
        }
    }
    Ok(overlaid)
}

// Positions, in order, among which are those of all changes of wanted rows of the table at an ordinal, if they are found by keys.
fn positions_of(
    alloc: Global,
    ordinal: usize,
    changes: &OwnChanges,
    wanted: RowSelection<'_>,
) -> Result<Option<Vec<usize>>, AllocError>
    ensures sorted { IfOk result (λ found. IfSome found (λ v. IsSorted nat_cmp v.items)) }
    ensures ok { IfOk result (λ found. IfSome found (λ v. HasPositions (is_selected wanted.entry) ordinal changes.now v.items)) }
{
    match wanted {
        RowSelection::All => Ok(None),
        RowSelection::Kept(condition) => changes.kept_positions(alloc, ordinal, condition),
        RowSelection::Keyed(table, new) => changes.keyed_positions(alloc, ordinal, table, new),
    }
}

// Rows of the table at an ordinal, of which the wanted ones are those that the changes leave.
fn overlaid_rows<'a>(
    alloc: Global,
    store: &'a StoredTables,
    ordinal: usize,
    changes: &'a OwnChanges,
    wanted: RowSelection<'_>,
) -> Result<Overlay<'a>, AllocError>
    requires { ordinal < length store.now.rows }
    ensures ok { IfOk result (λ overlaid. filter (is_selected wanted.entry) overlaid.rows ≡ filter (is_selected wanted.entry) (rows_of (all_applied changes.now store.now.rows) ordinal)) }
{
    match positions_of(alloc, ordinal, changes, wanted)? {
        Some(positions) => changed_at(
            alloc,
            store,
            ordinal,
            changes.as_slice(),
            positions.as_slice(),
        ),
        None => replayed(alloc, store, ordinal, changes.as_slice(), wanted),
    }
}

// Rows of the table at an ordinal, which have the primary key of a new one if the rows that the changes leave have it.
fn rows_for<'a>(
    alloc: Global,
    store: &'a StoredTables,
    ordinal: usize,
    changes: &'a OwnChanges,
    table: &Table,
    new: &[Row],
) -> Result<Overlay<'a>, AllocError>
    requires { ordinal < length store.now.rows }
    ensures ok { IfOk result (λ overlaid. list_any (λ n. list_any (λ r. same_row (key_of table.now n) (key_of table.now r)) overlaid.rows) new.now
        ≡ list_any (λ n. list_any (λ r. same_row (key_of table.now n) (key_of table.now r)) (rows_of (all_applied changes.now store.now.rows) ordinal)) new.now) }
{
    overlaid_rows(
        alloc,
        store,
        ordinal,
        changes,
        RowSelection::Keyed(table, new),
    )
}

// What a query over one table gives over its rows with these changes done.
fn select_one_in_transaction(
    alloc: Global,
    store: &StoredTables,
    query: &Query,
    changes: &OwnChanges,
) -> Result<Items<Row>, AllocError>
    requires there { query.now.table < length store.now.rows }
    requires few { length (rows_of store.now.rows query.now.table) ≤ 2 ^ 60 }
    requires summed { is_aggregated query.now ≡ true → length (rows_of (all_applied changes.now store.now.rows) query.now.table) ≤ 2 ^ 60
        → CanBeSummed (rows_of (all_applied changes.now store.now.rows) query.now.table) }
    ensures ok { IfOk result (IsAnswer query.now (rows_of (all_applied changes.now store.now.rows) query.now.table)) }
{
    let list = changes.as_slice();
    if store.row_count_of(query.table) + list.len() > MOST_ROWS {
        return Err(AllocError);
    }
    let wanted = RowSelection::Kept(&query.filter);
    let overlaid = overlaid_rows(alloc, store, query.table, changes, wanted)?;
    overlaid.select(alloc, query)
}

// What a query over two tables gives over their rows with these changes done.
fn select_pairs_in_transaction(
    alloc: Global,
    store: &StoredTables,
    query: &Query,
    join: Join,
    changes: &OwnChanges,
) -> Result<Items<Row>, AllocError>
    requires first { query.now.table < length store.now.rows }
    requires second { join.table < length store.now.rows }
    requires summed { is_aggregated query.now ≡ true
        → length (pairs_of join (rows_of (all_applied changes.now store.now.rows) query.now.table) (rows_of (all_applied changes.now store.now.rows) join.table)) ≤ 2 ^ 60
        → CanBeSummed (pairs_of join (rows_of (all_applied changes.now store.now.rows) query.now.table) (rows_of (all_applied changes.now store.now.rows) join.table)) }
    ensures ok { IfOk result (IsAnswer query.now (pairs_of join (rows_of (all_applied changes.now store.now.rows) query.now.table) (rows_of (all_applied changes.now store.now.rows) join.table))) }
{
    let firsts = overlaid_rows(alloc, store, query.table, changes, RowSelection::All)?;
    let seconds = overlaid_rows(alloc, store, join.table, changes, RowSelection::All)?;
    select_joined(alloc, query, join, firsts.all(), seconds.all())
}

/// What the query gives over the rows with these changes done. None of them is done if none is of a table that it is over.
pub fn select_in_transaction(
    alloc: Global,
    store: &StoredTables,
    query: &Query,
    changes: &OwnChanges,
) -> Result<Items<Row>, AllocError>
    requires there { SourcesThere (length store.now.rows) query.now }
    requires few { length (source_rows query.now store.now.rows) ≤ 2 ^ 60 }
    requires summed { is_aggregated query.now ≡ true → length (source_rows query.now (all_applied changes.now store.now.rows)) ≤ 2 ^ 60
        → CanBeSummed (source_rows query.now (all_applied changes.now store.now.rows)) }
    ensures ok { IfOk result (IsAnswer query.now (source_rows query.now (all_applied changes.now store.now.rows))) }
{
    if !changes_source(query, changes) {
        return store.select(alloc, query);
    }
    match query.join {
        Some(join) => select_pairs_in_transaction(alloc, store, query, join, changes),
        None => select_one_in_transaction(alloc, store, query, changes),
    }
}

impl Contents {
    // What a write without new rows does.
    // Of the write, ordinal and condition are handed over as its caller found them.
    fn changed_in_transaction(
        &self,
        alloc: Global,
        table: &Table,
        write: &Write,
        ordinal: usize,
        condition: &Option<Condition<usize>>,
        changes: &OwnChanges,
    ) -> Result<Items<RowChange>, Refusal>
        requires there { ordinal < length self.now.store.rows }
        requires kept { (rows : List (List V)) → changes_over table.now write.now (filter (is_kept condition.now) rows) ≡ changes_over table.now write.now rows }
        ensures ok { IfOk result (λ more. changes_over table.now write.now (rows_of (all_applied changes.now self.now.store.rows) ordinal) ≡ Ok more) }
        ensures err { IfErr result (λ e. (e ≡ Refusal.OutOfMemory)
            ⊎ (changes_over table.now write.now (rows_of (all_applied changes.now self.now.store.rows) ordinal) ≡ Err e)) }
    {
        let wanted = RowSelection::Kept(condition);
        let overlaid = overlaid_rows(alloc, &self.store, ordinal, changes, wanted)?;
        let kept = overlaid.kept(alloc, condition)?;
        change_local(alloc, table, write, kept.as_slice())
    }

    // What a write with new rows does.
    // Of the write, ordinal and rows are handed over as its caller found them.
    fn inserted_in_transaction(
        &self,
        alloc: Global,
        table: &Table,
        write: &Write,
        ordinal: usize,
        new: &[Row],
        changes: &OwnChanges,
    ) -> Result<Items<RowChange>, Refusal>
        requires there { ordinal < length self.now.store.rows }
        requires insert { write.now ≡ Write.Insert ordinal new.now }
        ensures ok { IfOk result (λ more. changes_over table.now write.now (rows_of (all_applied changes.now self.now.store.rows) ordinal) ≡ Ok more) }
        ensures err { IfErr result (λ e. (e ≡ Refusal.OutOfMemory)
            ⊎ (changes_over table.now write.now (rows_of (all_applied changes.now self.now.store.rows) ordinal) ≡ Err e)) }
    {
        let overlaid = rows_for(alloc, &self.store, ordinal, changes, table, new)?;
        match overlaid.has_any_key(alloc, table, new) {
            Ok(true) => Err(Refusal::DuplicateKey),
            Ok(false) => change_local(alloc, table, write, &[]),
            Err(_) => Err(Refusal::OutOfMemory),
        }
    }

    // What a write does to the rows of its table with these changes done.
    fn changes_over(
        &self,
        alloc: Global,
        table: &Table,
        write: &Write,
        changes: &OwnChanges,
    ) -> Result<Items<RowChange>, Refusal>
        requires there { written_table write.now < length self.now.store.rows }
        ensures ok { IfOk result (λ more. changes_over table.now write.now (rows_of (all_applied changes.now self.now.store.rows) (written_table write.now)) ≡ Ok more) }
        ensures err { IfErr result (λ e. (e ≡ Refusal.OutOfMemory)
            ⊎ (changes_over table.now write.now (rows_of (all_applied changes.now self.now.store.rows) (written_table write.now)) ≡ Err e)) }
    {
        match write {
            Write::Insert(ordinal, new) => {
                self.inserted_in_transaction(alloc, table, write, *ordinal, new.as_slice(), changes)
            }
            Write::Update(ordinal, _, condition) => {
                self.changed_in_transaction(alloc, table, write, *ordinal, condition, changes)
            }
            Write::Delete(ordinal, condition) => {
                self.changed_in_transaction(alloc, table, write, *ordinal, condition, changes)
            }
        }
    }

    /// The changes of the write over the rows with these changes done, unless it has a primary key that is there already. None of them is
    /// done if none is of the write's table.
    pub fn changes_in_transaction(
        &self,
        alloc: Global,
        schema: &VSchema,
        write: &Write,
        changes: &OwnChanges,
    ) -> Result<Items<RowChange>, Refusal>
        requires there { written_table write.now < length schema.now.tables }
        requires tables { length self.now.store.rows ≡ length schema.now.tables }
        ensures ok { IfOk result (λ more. changes_of schema.now write.now (all_applied changes.now self.now.store.rows) ≡ Ok more) }
        ensures err { IfErr result (λ e. (e ≡ Refusal.OutOfMemory)
            ⊎ ((e ≡ Refusal.DuplicateKey) × (changes_of schema.now write.now (all_applied changes.now self.now.store.rows) ≡ Err Refusal.DuplicateKey))) }
    {
        let ordinal = written_table(write);
        let table = &schema.tables.as_slice()[ordinal];
        if !changes.may_change(ordinal) {
            return self.store.changes(alloc, table, write);
        }
        self.changes_over(alloc, table, write, changes)
    }
}
