//! What clients ask of a server.
use client_statements::tokens::{lex, said};
use client_statements::{
    ClientAnswer, ClientStatement, Facts, NamedValue, SelectItem, TableName, answer, is_like,
    keyspace_ordinal, read,
};
use sql_tree::Name;
use std::alloc::Global;
use test_fields::{CaseAnswer, Unanswered, fields, text_of};
use vschema::VSchema;
use vt_value::{Items, Row, Value};

// A word, and a name in brackets, if there is one.
fn put_name(told: &mut CaseAnswer, word: &str, name: &Option<Name>) {
    if let Some(name) = name {
        told.put(word);
        told.put("(");
        told.put_text(name.as_slice());
        told.put(")");
    }
}

fn put_table(told: &mut CaseAnswer, table: &TableName) {
    told.put(" (");
    told.put_text(table.table.as_slice());
    told.put(")");
    put_name(told, " of ", &table.keyspace);
}

fn put_asked(told: &mut CaseAnswer, asked: &NamedValue) {
    match asked {
        NamedValue::Variable(_) => told.put("variable"),
        NamedValue::Unknown(name) => {
            told.put("unknown ");
            told.put_text(name.as_slice());
        }
        NamedValue::Version => told.put("version"),
        NamedValue::Database => told.put("database"),
        NamedValue::ConnectionId => told.put("connection"),
        NamedValue::User => told.put("user"),
    }
}

fn put_items(told: &mut CaseAnswer, items: &[SelectItem]) {
    for item in items {
        told.put(" (");
        told.put_text(item.name.as_slice());
        told.put(") ");
        put_asked(told, &item.asked);
    }
}

fn put_set(told: &mut CaseAnswer, autocommit: Option<bool>) {
    told.put(match autocommit {
        None => "set",
        Some(true) => "set autocommit on",
        Some(false) => "set autocommit off",
    });
}

fn put_full(told: &mut CaseAnswer, full: bool) {
    if full {
        told.put(" full");
    }
}

fn put_statement(told: &mut CaseAnswer, statement: &ClientStatement) {
    match statement {
        ClientStatement::Set { autocommit } => put_set(told, *autocommit),
        ClientStatement::Begin => told.put("begin"),
        ClientStatement::NotSupported => told.put("not supported"),
        ClientStatement::Select(items) => {
            told.put("select");
            put_items(told, items.as_slice());
        }
        ClientStatement::Use(name) => {
            told.put("use ");
            told.put_text(name.as_slice());
        }
        ClientStatement::ShowDatabases { like } => {
            told.put("databases");
            put_name(told, " like ", like);
        }
        ClientStatement::ShowTables {
            full,
            keyspace,
            like,
        } => {
            told.put("tables");
            put_full(told, *full);
            put_name(told, " of ", keyspace);
            put_name(told, " like ", like);
        }
        ClientStatement::ShowColumns { full, table, like } => {
            told.put("columns");
            put_full(told, *full);
            put_table(told, table);
            put_name(told, " like ", like);
        }
        ClientStatement::ShowVariables { like } => {
            told.put("variables");
            put_name(told, " like ", like);
        }
        ClientStatement::ShowWarnings => told.put("warnings"),
    }
}

/// What a text asks of a server.
pub(crate) fn asked(alloc: Global, case: &str, told: &mut CaseAnswer) -> Result<(), Unanswered> {
    let text = text_of(alloc, case)?;
    let asked = read(alloc, &text);
    drop(text);
    match asked? {
        Some(statement) => put_statement(told, &statement),
        None => told.put("none"),
    }
    Ok(())
}

/// What the tokens of a client's text say, each in brackets.
pub(crate) fn said_by(alloc: Global, case: &str, told: &mut CaseAnswer) -> Result<(), Unanswered> {
    let text = text_of(alloc, case)?;
    let tokens = lex(alloc, &text)?;
    let Some(tokens) = tokens else {
        told.put("none");
        return Ok(());
    };
    for token in tokens.as_slice() {
        let words = said(alloc, &text, token)?;
        told.put("(");
        told.put_text(words.as_slice());
        told.put(")");
    }
    Ok(())
}

/// Whether a pattern fits a name; a tab is between them.
pub(crate) fn likes(alloc: Global, case: &str, told: &mut CaseAnswer) -> Result<(), Unanswered> {
    let mut fields = case.split('\t');
    let pattern = text_of(alloc, fields.next().unwrap_or(""))?;
    let name = text_of(alloc, fields.next().unwrap_or(""))?;
    told.put_truth(is_like(alloc, &pattern, &name)?);
    Ok(())
}

fn put_bracketed(told: &mut CaseAnswer, text: &[u8]) {
    told.put("(");
    told.put_text(text);
    told.put(")");
}

fn put_cell(told: &mut CaseAnswer, value: &Value) {
    match value {
        Value::Null => told.put("NULL"),
        Value::Int(number) => told.show(number),
        Value::Bytes(text) => put_bracketed(told, text.as_slice()),
    }
}

// The names of the columns in brackets, and each row in square ones.
fn put_listing(told: &mut CaseAnswer, columns: &[Name], rows: &[Row]) {
    for name in columns {
        put_bracketed(told, name.as_slice());
    }
    for row in rows {
        told.put("[");
        for value in row.as_slice() {
            put_cell(told, value);
        }
        told.put("]");
    }
}

fn put_answer(told: &mut CaseAnswer, answer: &ClientAnswer) {
    match answer {
        ClientAnswer::Rows { columns, rows } => {
            put_listing(told, columns.as_slice(), rows.as_slice());
        }
        ClientAnswer::Refused(refusal) => told.show(refusal),
    }
}

// The seventh connection, of the user `app`.
fn facts(alloc: Global, schema: &VSchema, keyspace: &str) -> Result<Facts, Unanswered> {
    Ok(Facts {
        keyspace: keyspace_ordinal(schema, keyspace.as_bytes()),
        connection: 7,
        user: Items::from_slice(alloc, b"app@%")?,
        autocommit: true,
    })
}

fn put_told(
    alloc: Global,
    schema: &VSchema,
    keyspace: &str,
    statement: &ClientStatement,
    told: &mut CaseAnswer,
) -> Result<(), Unanswered> {
    let facts = facts(alloc, schema, keyspace)?;
    match answer(alloc, schema, &facts, statement)? {
        Some(answer) => put_answer(told, &answer),
        None => told.put("none"),
    }
    Ok(())
}

fn put_text_told(
    alloc: Global,
    schema: &VSchema,
    keyspace: &str,
    text: &[u8],
    told: &mut CaseAnswer,
) -> Result<(), Unanswered> {
    match read(alloc, text)? {
        Some(statement) => put_told(alloc, schema, keyspace, &statement, told),
        None => {
            told.put("no client statement");
            Ok(())
        }
    }
}

/// What a text is answered that asks something of a server: by a VSchema, and the keyspace in use.
pub(crate) fn tells(alloc: Global, case: &str, told: &mut CaseAnswer) -> Result<(), Unanswered> {
    let (declared, rest) = fields(case)?;
    let (keyspace, text) = fields(rest)?;
    let text = text_of(alloc, text)?;
    match VSchema::read(alloc, declared) {
        Ok(schema) => put_text_told(alloc, &schema, keyspace, &text, told),
        Err(fault) => {
            told.show(&fault);
            Ok(())
        }
    }
}
