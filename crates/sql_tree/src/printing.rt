//! The one printed form of a statement.
ghost use Rattle.std.specs.Prelude.{◌≡◌, ◌++◌, List, codes, flat_map, map, IfOk, OnOk};
ghost use Rattle.sql_tree.specs.Printing.{list_text, join_text, filter_text, limit_text, columns_text, charset_text, printed, item_text};
ghost use Rattle.sql_tree.specs.Printing.{select_text, insert_text, update_text, delete_text};
ghost use Rattle.std.specs.Fmt.{decimal};

use crate::conditions::put_condition;
use crate::lists::{Print, put_bracketed, put_clause, put_commas};
use crate::literals::{put, put_column, put_name, put_quoted};
use crate::{
    CharacterSet, ColumnName, Condition, Delete, Insert, Item, JoinOn, LimitClause, Name, Select,
    SelectList, Statement, Update,
};
use itoa::Buffer;
use sql_lexer::Items;
use std::alloc::{AllocError, Global};

fn put_list(out: &mut Vec<u8>, list: &SelectList) -> Result<(), AllocError>
    ensures ok { OnOk result (out.new.items ≡ out.old.items ++ list_text list.now) }
{
    match list {
        SelectList::All => put(out, b"*"),
        SelectList::Items(items) => put_commas(out, items.as_slice()),
    }
}

fn put_filter(out: &mut Vec<u8>, filter: &Option<Condition<ColumnName>>) -> Result<(), AllocError>
    ensures ok { OnOk result (out.new.items ≡ out.old.items ++ filter_text filter.now) }
{
    match filter {
        None => Ok(()),
        Some(condition) => {
            put(out, b" WHERE ")?;
            put_condition(out, condition)
        }
    }
}

fn put_join(out: &mut Vec<u8>, join: &Option<JoinOn>) -> Result<(), AllocError>
    ensures ok { OnOk result (out.new.items ≡ out.old.items ++ join_text join.now) }
{
    let Some(join) = join else {
        return Ok(());
    };
    put(out, b" JOIN ")?;
    put_name(out, join.table.as_slice())?;
    put(out, b" ON ")?;
    put_column(out, &join.left)?;
    put(out, b" = ")?;
    put_column(out, &join.right)
}

fn put_number(out: &mut Vec<u8>, number: u64) -> Result<(), AllocError>
    ensures ok { OnOk result (out.new.items ≡ out.old.items ++ decimal number) }
{
    let mut buffer = Buffer::new();
    put(out, buffer.format(number).as_bytes())
}

fn put_limit(out: &mut Vec<u8>, limit: &Option<LimitClause>) -> Result<(), AllocError>
    ensures ok { OnOk result (out.new.items ≡ out.old.items ++ limit_text limit.now) }
{
    let Some(limit) = limit else {
        return Ok(());
    };
    put(out, b" LIMIT ")?;
    put_number(out, limit.count)?;
    if limit.offset == 0 {
        return Ok(());
    }
    put(out, b" OFFSET ")?;
    put_number(out, limit.offset)
}

fn put_select(out: &mut Vec<u8>, select: &Select) -> Result<(), AllocError>
    ensures ok { OnOk result (out.new.items ≡ out.old.items ++ select_text select.now) }
{
    put(out, b"SELECT ")?;
    put_list(out, &select.list)?;
    put(out, b" FROM ")?;
    put_name(out, select.table.as_slice())?;
    put_join(out, &select.join)?;
    put_filter(out, &select.filter)?;
    put_clause(out, b" GROUP BY ", select.group_by.as_slice())?;
    put_clause(out, b" ORDER BY ", select.order_by.as_slice())?;
    put_limit(out, &select.limit)
}

fn put_columns(out: &mut Vec<u8>, columns: &Option<Items<Name>>) -> Result<(), AllocError>
    ensures ok { OnOk result (out.new.items ≡ out.old.items ++ columns_text columns.now) }
{
    match columns {
        None => Ok(()),
        Some(names) => {
            put(out, b" ")?;
            put_bracketed(out, names.as_slice())
        }
    }
}

fn put_insert(out: &mut Vec<u8>, insert: &Insert) -> Result<(), AllocError>
    ensures ok { OnOk result (out.new.items ≡ out.old.items ++ insert_text insert.now) }
{
    put(out, b"INSERT INTO ")?;
    put_name(out, insert.table.as_slice())?;
    put_columns(out, &insert.columns)?;
    put(out, b" VALUES ")?;
    put_commas(out, insert.rows.as_slice())?;
    Ok(())
}

fn put_update(out: &mut Vec<u8>, update: &Update) -> Result<(), AllocError>
    ensures ok { OnOk result (out.new.items ≡ out.old.items ++ update_text update.now) }
{
    put(out, b"UPDATE ")?;
    put_name(out, update.table.as_slice())?;
    put(out, b" SET ")?;
    put_commas(out, update.assignments.as_slice())?;
    put_filter(out, &update.filter)
}

fn put_delete(out: &mut Vec<u8>, delete: &Delete) -> Result<(), AllocError>
    ensures ok { OnOk result (out.new.items ≡ out.old.items ++ delete_text delete.now) }
{
    put(out, b"DELETE FROM ")?;
    put_name(out, delete.table.as_slice())?;
    put_filter(out, &delete.filter)?;
    Ok(())
}

fn put_character_set(out: &mut Vec<u8>, set: &CharacterSet) -> Result<(), AllocError>
    ensures ok { OnOk result (out.new.items ≡ out.old.items ++ charset_text set.now) }
{
    match set {
        CharacterSet::Identifier(name) => put_name(out, name.as_slice()),
        CharacterSet::Text(bytes) => put_quoted(out, bytes.as_slice()),
    }
}

fn put_statement(out: &mut Vec<u8>, statement: &Statement) -> Result<(), AllocError>
    ensures ok { OnOk result (out.new.items ≡ out.old.items ++ printed statement.now) }
{
    match statement {
        Statement::Select(select) => put_select(out, select),
        Statement::Insert(insert) => put_insert(out, insert),
        Statement::Update(update) => put_update(out, update),
        Statement::Delete(delete) => put_delete(out, delete),
        Statement::Begin => put(out, b"BEGIN"),
        Statement::Commit => put(out, b"COMMIT"),
        Statement::Rollback => put(out, b"ROLLBACK"),
        Statement::SetNames(set) => {
            put(out, b"SET NAMES ")?;
            put_character_set(out, set)
        }
    }
}

// Promise: A statement is printed in its one form, and an item of a select list too; only memory refuses it
// With: print_item
/// The text of a statement in its one form: keywords in upper case, one blank between words, after commas and around
/// operators, an identifier bare, or in backquotes if it is a keyword, ASC and an OFFSET of 0 left out, and
/// parentheses only where an AND or an OR needs them.
pub fn print(alloc: Global, statement: &Statement) -> Result<Vec<u8>, AllocError>
    ensures ok { IfOk result (λ v. v.items ≡ printed statement.now) }
{
    let mut out = Vec::new(alloc);
    put_statement(&mut out, statement)?;
    Ok(out)
}

/// The printed form of an item of a select list, as `COUNT(*)` or `SUM(c)`: the name of its column in a result.
pub fn print_item(alloc: Global, item: &Item<ColumnName>) -> Result<Vec<u8>, AllocError>
    ensures ok { IfOk result (λ v. v.items ≡ item_text item.now) }
{
    let mut out = Vec::new(alloc);
    item.put(&mut out)?;
    Ok(out)
}
