//! The definitions of a reply's columns: names, types and flags, of tables, joins and aggregates.
ghost use Rattle.std.specs.Prelude.{◌≡◌, ◌==◌, ◌<◌, [], ◌∷◌, ◌++◌, vec_len, vec_capacity, IfOk, OnOk, Some, None, false, slice_index_or, if◌then◌else◌};
ghost use Rattle.std.specs.List.{list_any};
ghost use Rattle.vschema.specs.Schema.{no_table};
ghost use Rattle.sql_tree.specs.Printing.{item_text};
ghost use Rattle.resultset.specs.declared.Column.{Column as Defined};
ghost use Rattle.session.specs.conversation.Columns.{shown_kind, base_flags, flags_of, no_keyspace, no_column, column_at, Defines, DefinesAt, name_at, named_item, item_kind, item_flags, DefinesAggregate, owner_of, DefinesItem, AreColumns};

use resultset::{Column as ResultColumn, ColumnText, Kind};
use sql_tree::{ColumnName, Item, Name, print_item};
use std::alloc::{AllocError, Global};
use vschema::{Column, ColumnType, Columns, Join, Table, VSchema};
use vt_value::Items;

fn kind_of(kind: ColumnType) -> Kind
    ensures { result ≡ shown_kind kind }
{
    match kind {
        ColumnType::BigInt => Kind::BigInt,
        ColumnType::BigIntUnsigned => Kind::BigIntUnsigned,
        ColumnType::VarBinary(most) => Kind::VarBinary(most),
    }
}

fn base_flags(kind: ColumnType) -> u16
    ensures { result ≡ base_flags kind }
{
    match kind {
        ColumnType::BigInt | ColumnType::VarBinary(_) => 128,
        ColumnType::BigIntUnsigned => 160,
    }
}

fn has_ordinal(ordinals: &[usize], ordinal: usize) -> bool
    ensures { result ≡ list_any (λ key. key == ordinal) ordinals.now }
{
    ordinals.iter().any(|key| *key == ordinal)
}

fn flags_of(table: &Table, ordinal: usize, column: &Column) -> u16
    ensures { result ≡ flags_of table.now ordinal column.now }
{
    let base = base_flags(column.kind);
    if has_ordinal(table.primary_key.as_slice(), ordinal) {
        base + 3
    } else if column.nullable {
        base
    } else {
        base + 1
    }
}

fn keyspace_name<'a>(schema: &'a VSchema, table: &Table) -> &'a [u8]
    ensures { result.now ≡ (slice_index_or schema.now.keyspaces table.now.keyspace no_keyspace).name }
{
    match schema.keyspaces.as_slice().get(table.keyspace) {
        Some(keyspace) => keyspace.name.as_slice(),
        None => &[],
    }
}

fn copy_name(alloc: Global, name: &[u8]) -> Result<Name, AllocError>
    ensures ok { IfOk result (λ n. n ≡ name.now) }
{
    let copied = Items::from_slice(alloc, name)?;
    Ok(copied)
}

fn define<'e>(
    schema: &'e VSchema,
    table: &'e Table,
    ordinal: usize,
    column: &'e Column,
) -> ResultColumn<'e>
    ensures { Defines schema.now table.now ordinal column.now result }
{
    ResultColumn {
        schema: ColumnText::lent(keyspace_name(schema, table)),
        table: ColumnText::lent(table.name.as_slice()),
        name: ColumnText::lent(column.name.as_slice()),
        org_name: ColumnText::lent(column.name.as_slice()),
        kind: kind_of(column.kind),
        flags: flags_of(table, ordinal, column),
    }
}

fn missing_column(alloc: Global) -> Column
    ensures { result ≡ no_column }
{
    Column {
        name: Items::new(alloc),
        kind: ColumnType::BigInt,
        nullable: true,
    }
}

fn missing_table(alloc: Global) -> Table
    ensures { result ≡ no_table }
{
    Table {
        name: Items::new(alloc),
        keyspace: 0,
        columns: Columns::new(alloc),
        primary_key: Items::new(alloc),
        vindex: None,
    }
}

// The definition of a column that isn't there.
fn define_missing<'e>(
    alloc: Global,
    schema: &'e VSchema,
    table: &Table,
    name: &'e [u8],
    ordinal: usize,
) -> ResultColumn<'e>
    requires { name.now ≡ table.now.name }
    ensures { Defines schema.now table.now ordinal no_column result }
{
    let column = missing_column(alloc);
    ResultColumn {
        schema: ColumnText::lent(keyspace_name(schema, table)),
        table: ColumnText::lent(name),
        name: ColumnText::lent(&[]),
        org_name: ColumnText::lent(&[]),
        kind: kind_of(column.kind),
        flags: flags_of(table, ordinal, &column),
    }
}

fn type_at(table: &Table, ordinal: usize) -> ColumnType
    ensures { result ≡ (column_at table.now ordinal).kind }
{
    match table.columns.as_slice().get(ordinal) {
        Some(column) => column.kind,
        None => ColumnType::BigInt,
    }
}

fn bare_name_at(alloc: Global, table: &Table, ordinal: usize) -> Result<Name, AllocError>
    ensures ok { IfOk result (λ n. n ≡ (column_at table.now ordinal).name) }
{
    match table.columns.as_slice().get(ordinal) {
        Some(column) => copy_name(alloc, column.name.as_slice()),
        None => Ok(Items::new(alloc)),
    }
}

fn qualifier(alloc: Global, table: &Table, qualified: bool) -> Result<Option<Name>, AllocError>
    ensures ok { IfOk result (λ n. n ≡ (if qualified then Some table.now.name else None)) }
{
    if !qualified {
        return Ok(None);
    }
    let name = copy_name(alloc, table.name.as_slice())?;
    Ok(Some(name))
}

fn name_at(
    alloc: Global,
    table: &Table,
    qualified: bool,
    ordinal: usize,
) -> Result<ColumnName, AllocError>
    ensures ok { IfOk result (λ n. n ≡ name_at table.now qualified ordinal) }
{
    let name = bare_name_at(alloc, table, ordinal)?;
    let table = qualifier(alloc, table, qualified)?;
    Ok(ColumnName { table, name })
}

fn named_item(
    alloc: Global,
    table: &Table,
    qualified: bool,
    item: &Item<usize>,
) -> Result<Item<ColumnName>, AllocError>
    ensures ok { IfOk result (λ i. i ≡ named_item table.now qualified item.now) }
{
    match item {
        Item::Column(ordinal) => {
            let name = name_at(alloc, table, qualified, *ordinal)?;
            Ok(Item::Column(name))
        }
        Item::CountRows => Ok(Item::CountRows),
        Item::Count(ordinal) => {
            let name = name_at(alloc, table, qualified, *ordinal)?;
            Ok(Item::Count(name))
        }
        Item::Sum(ordinal) => {
            let name = name_at(alloc, table, qualified, *ordinal)?;
            Ok(Item::Sum(name))
        }
        Item::Min(ordinal) => {
            let name = name_at(alloc, table, qualified, *ordinal)?;
            Ok(Item::Min(name))
        }
        Item::Max(ordinal) => {
            let name = name_at(alloc, table, qualified, *ordinal)?;
            Ok(Item::Max(name))
        }
    }
}

fn item_kind(table: &Table, item: &Item<usize>) -> Kind
    ensures { result ≡ item_kind table.now item.now }
{
    match item {
        Item::CountRows | Item::Count(_) => Kind::Count,
        Item::Sum(_) => Kind::Sum,
        Item::Column(ordinal) | Item::Min(ordinal) | Item::Max(ordinal) => kind_of(type_at(
            table, *ordinal,
        )),
    }
}

fn item_flags(table: &Table, item: &Item<usize>) -> u16
    ensures { result ≡ item_flags table.now item.now }
{
    match item {
        Item::CountRows | Item::Count(_) => 129,
        Item::Sum(_) => 128,
        Item::Column(ordinal) | Item::Min(ordinal) | Item::Max(ordinal) => {
            base_flags(type_at(table, *ordinal))
        }
    }
}

fn printed_item(
    alloc: Global,
    table: &Table,
    qualified: bool,
    item: &Item<usize>,
) -> Result<Vec<u8>, AllocError>
    ensures ok { IfOk result (λ text. text.items ≡ item_text (named_item table.now qualified item.now)) }
{
    let named = named_item(alloc, table, qualified, item)?;
    Ok(print_item(alloc, &named)?)
}

fn define_aggregate(
    alloc: Global,
    table: &Table,
    qualified: bool,
    item: &Item<usize>,
) -> Result<ResultColumn<'static>, AllocError>
    ensures ok { IfOk result (DefinesAggregate table.now qualified item.now) }
{
    let printed = printed_item(alloc, table, qualified, item)?;
    Ok(ResultColumn {
        schema: ColumnText::lent(&[]),
        table: ColumnText::lent(&[]),
        name: ColumnText::own(Items::from_vec(printed)),
        org_name: ColumnText::lent(&[]),
        kind: item_kind(table, item),
        flags: item_flags(table, item),
    })
}

// `define_aggregate` over the table with an ordinal in the VSchema.
fn define_aggregate_of(
    alloc: Global,
    schema: &VSchema,
    table: usize,
    qualified: bool,
    item: &Item<usize>,
) -> Result<ResultColumn<'static>, AllocError>
    ensures ok { IfOk result (DefinesAggregate (slice_index_or schema.now.tables table no_table) qualified item.now) }
{
    match schema.tables.as_slice().get(table) {
        Some(table) => define_aggregate(alloc, table, qualified, item),
        None => define_aggregate(alloc, &missing_table(alloc), qualified, item),
    }
}

// Appends the definition of the column at an ordinal of a table to a list that has room for it. It is made in its place there, and not moved.
fn push_at<'e>(
    alloc: Global,
    schema: &'e VSchema,
    table: &'e Table,
    ordinal: usize,
    columns: &mut Vec<ResultColumn<'e>>,
)
    requires { vec_len columns.old < vec_capacity columns.old }
    ensures pushed { (column : Defined) × DefinesAt schema.now table.now ordinal column × (columns.new.items ≡ columns.old.items ++ column ∷ []) }
    ensures capacity { vec_capacity columns.new ≡ vec_capacity columns.old }
{
    match table.columns.as_slice().get(ordinal) {
        Some(column) => columns.push_reserved(define(schema, table, ordinal, column)),
        None => push_missing(
            alloc,
            schema,
            table,
            table.name.as_slice(),
            ordinal,
            columns,
        ),
    }
}

// Appends the definition of a column that isn't there.
#[inline(never)]
fn push_missing<'e>(
    alloc: Global,
    schema: &'e VSchema,
    table: &Table,
    name: &'e [u8],
    ordinal: usize,
    columns: &mut Vec<ResultColumn<'e>>,
)
    requires name { name.now ≡ table.now.name }
    requires room { vec_len columns.old < vec_capacity columns.old }
    ensures pushed { (column : Defined) × Defines schema.now table.now ordinal no_column column × (columns.new.items ≡ columns.old.items ++ column ∷ []) }
    ensures capacity { vec_capacity columns.new ≡ vec_capacity columns.old }
{
    columns.push_reserved(define_missing(alloc, schema, table, name, ordinal));
}

// Appends the definition of the column at an ordinal of the table with an ordinal in the VSchema.
fn push_of<'e>(
    alloc: Global,
    schema: &'e VSchema,
    table: usize,
    ordinal: usize,
    columns: &mut Vec<ResultColumn<'e>>,
)
    requires { vec_len columns.old < vec_capacity columns.old }
    ensures pushed { (column : Defined) × DefinesAt schema.now (slice_index_or schema.now.tables table no_table) ordinal column
        × (columns.new.items ≡ columns.old.items ++ column ∷ []) }
    ensures capacity { vec_capacity columns.new ≡ vec_capacity columns.old }
{
    match schema.tables.as_slice().get(table) {
        Some(table) => push_at(alloc, schema, table, ordinal, columns),
        None => push_missing(alloc, schema, &missing_table(alloc), &[], ordinal, columns),
    }
}

// Appends the definition of the column at an ordinal of the rows of a table, or of its pairs with another's.
fn push_shown<'e>(
    alloc: Global,
    schema: &'e VSchema,
    table: usize,
    join: Option<Join>,
    ordinal: usize,
    columns: &mut Vec<ResultColumn<'e>>,
)
    requires { vec_len columns.old < vec_capacity columns.old }
    ensures pushed { (column : Defined) × DefinesAt schema.now (owner_of schema.now (slice_index_or schema.now.tables table no_table) join ordinal).0
        (owner_of schema.now (slice_index_or schema.now.tables table no_table) join ordinal).1 column
        × (columns.new.items ≡ columns.old.items ++ column ∷ []) }
    ensures capacity { vec_capacity columns.new ≡ vec_capacity columns.old }
{
    match join {
        None => push_of(alloc, schema, table, ordinal, columns),
        Some(join) => {
            if ordinal < join.width {
                push_of(alloc, schema, table, ordinal, columns)
            } else {
                push_of(alloc, schema, join.table, ordinal - join.width, columns)
            }
        }
    }
}

// Appends the definition of an aggregate over the table with an ordinal in the VSchema.
#[inline(never)]
fn push_aggregate<'e>(
    alloc: Global,
    schema: &VSchema,
    table: usize,
    qualified: bool,
    item: &Item<usize>,
    columns: &mut Vec<ResultColumn<'e>>,
) -> Result<(), AllocError>
    requires { vec_len columns.old < vec_capacity columns.old }
    ensures ok { OnOk result ((column : Defined) × DefinesAggregate (slice_index_or schema.now.tables table no_table) qualified item.now column
        × (columns.new.items ≡ columns.old.items ++ column ∷ [])) }
    ensures capacity { vec_capacity columns.new ≡ vec_capacity columns.old }
{
    columns.push_reserved(define_aggregate_of(alloc, schema, table, qualified, item)?);
    Ok(())
}

// Appends the definition of an item to a list that has room for it.
// Of the query it takes the parts that name and type a column.
fn push_item<'e>(
    alloc: Global,
    schema: &'e VSchema,
    table: usize,
    join: Option<Join>,
    qualified: bool,
    item: &Item<usize>,
    columns: &mut Vec<ResultColumn<'e>>,
) -> Result<(), AllocError>
    requires { vec_len columns.old < vec_capacity columns.old }
    ensures ok { OnOk result ((column : Defined)
        × DefinesItem schema.now (slice_index_or schema.now.tables table no_table) join qualified item.now column
        × (columns.new.items ≡ columns.old.items ++ column ∷ [])) }
    ensures capacity { vec_capacity columns.new ≡ vec_capacity columns.old }
{
    match item {
        Item::Column(ordinal) => {
            push_shown(alloc, schema, table, join, *ordinal, columns);
            Ok(())
        }
        _ => {
            push_aggregate(alloc, schema, table, qualified, item, columns)?;
            Ok(())
        }
    }
}

fn flag_at(flags: &[bool], ordinal: usize) -> bool
    ensures { result ≡ slice_index_or flags.now ordinal false }
{
    match flags.get(ordinal) {
        Some(flag) => *flag,
        None => false,
    }
}

/// The definitions of the columns that these items are, of the table with an ordinal in the VSchema or of its pairs with another. `qualified` tells
/// for each whether it was written with its table's name. Names of the VSchema are lent.
pub fn columns_of<'e>(
    alloc: Global,
    schema: &'e VSchema,
    table: usize,
    join: Option<Join>,
    items: &[Item<usize>],
    qualified: &[bool],
) -> Result<Items<ResultColumn<'e>>, AllocError>
    ensures ok { IfOk result (AreColumns schema.now table join items.now qualified.now) }
{
    let mut columns = Vec::with_capacity(alloc, items.len())?;
    for item in items {
        let named_whole = flag_at(qualified, columns.len());
        push_item(alloc, schema, table, join, named_whole, item, &mut columns)?;
    }
    Ok(Items::from_vec(columns))
}
