//! What answers a client statement, by the VSchema and what its session knows.
ghost use Rattle.std.specs.Prelude.{◌≡◌, ◌∷◌, [], map, Some, option_map, is_some, IfOk, IfSome};
ghost use Rattle.std.specs.List.{list_all};
ghost use Rattle.vschema.specs.declared.schema.VSchema.{VSchema};
ghost use Rattle.client_statements.specs.declared.answers.Facts.{Facts};
ghost use Rattle.client_statements.specs.Answers.{name_in_use, is_known_name, value_named, has_client_answer, IsClientAnswer};

use crate::columns::described;
use crate::keyspaces::{databases, keyspace_name, tables};
use crate::listings::{cell, heads, push_text, texts};
use crate::statement::{ClientStatement, NamedValue, SelectItem};
use crate::variable::{Variable, variable_value};
use crate::variables::shown;
use itoa::Buffer;
use sql_tree::Name;
use std::alloc::{AllocError, Global};
use vschema::VSchema;
use vt_value::{Items, Refusal, Row, Value};

/// What a session knows of itself.
#[derive(Debug, Drop)]
pub struct Facts {
    /// The keyspace in use, by its ordinal in the VSchema.
    pub keyspace: Option<usize>,
    /// The number of the connection.
    pub connection: u32,
    /// The user, as USER() shows it: `name@host`.
    pub user: Name,
    /// Whether a statement outside a transaction commits by itself.
    pub autocommit: bool,
}

/// What a client statement is answered.
#[derive(Debug, Drop)]
pub enum ClientAnswer {
    /// Rows of texts, and the names of their columns.
    Rows {
        columns: Items<Name>,
        rows: Items<Row>,
    },
    /// Why there are none.
    Refused(Refusal),
}

fn is_known_name(asked: &NamedValue) -> bool
    ensures { result ≡ is_known_name asked.now }
{
    !matches!(asked, NamedValue::Unknown(_))
}

fn name_in_use(schema: &VSchema, ordinal: Option<usize>) -> Option<&[u8]>
    ensures { option_map (λ t. t.now) result ≡ name_in_use schema.now ordinal }
{
    match ordinal {
        Some(ordinal) => keyspace_name(schema, ordinal),
        None => None,
    }
}

/// The value that is asked for: NULL, if the server doesn't have it.
fn value_named(
    alloc: Global,
    schema: &VSchema,
    facts: &Facts,
    asked: &NamedValue,
) -> Result<Value, AllocError>
    ensures { IfOk result (λ v. v ≡ value_named schema.now facts.now asked.now) }
{
    match asked {
        NamedValue::Variable(variable) => {
            let value = variable_value(*variable, facts.autocommit);
            cell(alloc, Some(value.as_bytes()))
        }
        NamedValue::Unknown(_) => Ok(Value::Null),
        NamedValue::Version => {
            let value = variable_value(Variable::Version, facts.autocommit);
            cell(alloc, Some(value.as_bytes()))
        }
        NamedValue::Database => cell(alloc, name_in_use(schema, facts.keyspace)),
        NamedValue::ConnectionId => {
            let mut buffer = Buffer::new();
            cell(alloc, Some(buffer.format(facts.connection).as_bytes()))
        }
        NamedValue::User => cell(alloc, Some(facts.user.as_slice())),
    }
}

/// The row of the values that are asked for.
fn values_named(
    alloc: Global,
    schema: &VSchema,
    facts: &Facts,
    items: &[SelectItem],
) -> Result<Row, AllocError>
    ensures { IfOk result (λ row. row ≡ map (λ i. value_named schema.now facts.now i.asked) items.now) }
{
    let mut row = Items::new(alloc);
    for item in items {
        row.push(value_named(alloc, schema, facts, &item.asked)?)?;
    }
    Ok(row)
}

/// The names of the columns of the values that are asked for.
fn item_names(alloc: Global, items: &[SelectItem]) -> Result<Items<Name>, AllocError>
    ensures { IfOk result (λ names. names ≡ map (λ i. i.name) items.now) }
{
    let mut names = Items::new(alloc);
    for item in items {
        push_text(alloc, &mut names, item.name.as_slice())?;
    }
    Ok(names)
}

fn told_rows(
    alloc: Global,
    schema: &VSchema,
    facts: &Facts,
    items: &[SelectItem],
) -> Result<Items<Row>, AllocError>
    ensures { IfOk result (λ rows. rows ≡ map (λ i. value_named schema.now facts.now i.asked) items.now ∷ []) }
{
    let row = values_named(alloc, schema, facts, items)?;
    let mut rows = Items::new(alloc);
    rows.push(row)?;
    Ok(rows)
}

/// Whether the server has all that is asked for.
fn are_known_names(items: &[SelectItem]) -> bool
    ensures { result ≡ list_all (λ i. is_known_name i.asked) items.now }
{
    items.iter().all(|item| is_known_name(&item.asked))
}

/// SELECT of values by name.
fn selected(
    alloc: Global,
    schema: &VSchema,
    facts: &Facts,
    items: &[SelectItem],
) -> Result<ClientAnswer, AllocError>
    ensures { IfOk result (IsClientAnswer schema.now facts.now (ClientStatement.Select items.now)) }
{
    if !are_known_names(items) {
        return Ok(ClientAnswer::Refused(Refusal::UnknownVariable));
    }
    let columns = item_names(alloc, items)?;
    let rows = told_rows(alloc, schema, facts, items)?;
    Ok(ClientAnswer::Rows { columns, rows })
}

/// SHOW WARNINGS: a session keeps none.
fn no_warnings(alloc: Global) -> Result<ClientAnswer, AllocError>
    ensures { IfOk result (λ a. (schema : VSchema) (facts : Facts) → IsClientAnswer schema facts ClientStatement.ShowWarnings a) }
{
    let columns = heads(alloc, &["Level", "Code", "Message"])?;
    Ok(ClientAnswer::Rows {
        columns,
        rows: Items::new(alloc),
    })
}

// Promise: A client statement that has rows is answered by them, names in the order of their bytes, or by why there are none; only memory
// refuses it
// With: keyspace_ordinal, keyspace_name
/// What a client statement is answered, if it has rows: no settings, transactions or keyspaces to use. Takes memory for the rows.
pub fn answer(
    alloc: Global,
    schema: &VSchema,
    facts: &Facts,
    statement: &ClientStatement,
) -> Result<Option<ClientAnswer>, AllocError>
    ensures answered { IfOk result (λ o. IfSome o (IsClientAnswer schema.now facts.now statement.now)) }
    ensures rows { IfOk result (λ o. is_some o ≡ has_client_answer statement.now) }
{
    let found = match statement {
        ClientStatement::Select(items) => selected(alloc, schema, facts, items.as_slice())?,
        ClientStatement::ShowDatabases { like } => databases(alloc, schema, like)?,
        ClientStatement::ShowTables {
            full,
            keyspace,
            like,
        } => tables(alloc, schema, facts, *full, keyspace, like)?,
        ClientStatement::ShowColumns { full, table, like } => {
            described(alloc, schema, *full, table, like)?
        }
        ClientStatement::ShowVariables { like } => shown(alloc, facts, like)?,
        ClientStatement::ShowWarnings => no_warnings(alloc)?,
        ClientStatement::Set { .. }
        | ClientStatement::Begin
        | ClientStatement::NotSupported
        | ClientStatement::Use(_) => return Ok(None),
    };
    Ok(Some(found))
}
