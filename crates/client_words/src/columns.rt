//! The columns that a text names, and whether they hold numbers.
ghost use Rattle.std.specs.Prelude.{◌≡◌, not, ℕ, List, Bool, Option, IfOk, map};
ghost use Rattle.std.specs.Option.{option_copied};
ghost use Rattle.std.specs.List.{list_any, find};
ghost use Rattle.vschema.specs.Checks.{is_text_type};
ghost use Rattle.client_statements.specs.tokens.Pieces.{lexeme_of, lexemes_of};
ghost use Rattle.client_words.specs.Forms.{name_of};
ghost use Rattle.client_words.specs.Numbers.{leads_table, table_on, is_named, table_named, first_name, is_kind, is_column, is_called, known_in, has_column, are_numbers, all_kinds, names_column, names_known};
ghost use Rattle.client_words.specs.inner.Known.{known_of};

use crate::kinds::{FROM, INTO, JOIN, UPDATE};
use crate::tables::name_of;
use client_statements::tokens::{Token, same_in_any_case};
use sql_tree::Name;
use std::alloc::{AllocError, Global};
use vschema::{Column, ColumnType, Table, VSchema};
use vt_value::Items;

/// The first two tables that a text names, if the VSchema has them.
#[derive(Clone, Copy)]
pub struct Known<'s> {
    pub first: Option<&'s Table>,
    pub second: Option<&'s Table>,
}

#[tactic(auto, unfolding(crate::specs::Numbers::leads_table))]
fn leads_table(token: &Token) -> bool
    ensures { (text : List ℕ) → result ≡ leads_table (lexeme_of text token.now) }
{
    match token.kind {
        FROM | JOIN | INTO | UPDATE => true,
        _ => false,
    }
}

/// The tokens from the first table on.
#[tactic(auto, unfolding(crate::specs::Numbers::table_on))]
fn table_on(tokens: &[Token]) -> &[Token]
    ensures { (text : List ℕ) → lexemes_of text result.now ≡ table_on (lexemes_of text tokens.now) }
{
    let mut rest = tokens;
    loop {
        let [first, after @ ..] = rest else {
            return rest;
        };
        if leads_table(first) {
            return after;
        }
        rest = after;
    }
}

fn first_name(alloc: Global, text: &[u8], tokens: &[Token]) -> Result<Option<Name>, AllocError>
    ensures { IfOk result (λ name. name ≡ first_name (lexemes_of text.now tokens.now)) }
{
    match tokens {
        [] => Ok(None),
        [first, ..] => name_of(alloc, text, first),
    }
}

fn is_named(name: &Name, table: &Table) -> bool
    ensures { result ≡ is_named name.now table.now }
{
    table.name.as_slice() == name.as_slice()
}

fn table_of_name<'s>(schema: &'s VSchema, name: &Name) -> Option<&'s Table>
    ensures { option_copied result ≡ find (is_named name.now) schema.now.tables }
{
    schema
        .tables
        .as_slice()
        .iter()
        .find(|table| is_named(name, table))
}

fn table_named<'s>(schema: &'s VSchema, name: &Option<Name>) -> Option<&'s Table>
    ensures { option_copied result ≡ table_named schema.now name.now }
{
    match name {
        Some(name) => table_of_name(schema, name),
        None => None,
    }
}

/// The first two tables that a text names.
#[tactic(auto, unfolding(crate::specs::Numbers::known_in))]
pub fn known_in<'s>(
    alloc: Global,
    schema: &'s VSchema,
    text: &[u8],
    tokens: &[Token],
) -> Result<Known<'s>, AllocError>
    ensures { IfOk result (λ known. known_of known ≡ known_in schema.now (lexemes_of text.now tokens.now)) }
{
    let from_first = table_on(tokens);
    let first = first_name(alloc, text, from_first)?;
    let second = first_name(alloc, text, table_on(from_first))?;
    Ok(Known {
        first: table_named(schema, &first),
        second: table_named(schema, &second),
    })
}

fn is_text_type(kind: ColumnType) -> bool
    ensures { result ≡ is_text_type kind }
{
    match kind {
        ColumnType::VarBinary(_) => true,
        _ => false,
    }
}

/// Whether a type is one of texts, or of numbers.
fn is_kind(texts: bool, kind: ColumnType) -> bool
    ensures { result ≡ is_kind texts kind }
{
    if texts {
        is_text_type(kind)
    } else {
        !is_text_type(kind)
    }
}

/// Whether a column has the name, and holds texts or numbers.
fn is_column(texts: bool, name: &Name, column: &Column) -> bool
    ensures { result ≡ is_column texts name.now column.now }
{
    column.name.as_slice() == name.as_slice() && is_kind(texts, column.kind)
}

fn any_column(texts: bool, name: &Name, columns: &[Column]) -> bool
    ensures { result ≡ list_any (is_column texts name.now) columns.now }
{
    columns.iter().any(|column| is_column(texts, name, column))
}

fn has_column(texts: bool, table: &Option<&Table>, name: &Name) -> bool
    ensures { result ≡ has_column texts (option_copied table.now) name.now }
{
    match table {
        Some(table) => any_column(texts, name, table.columns.as_slice()),
        None => false,
    }
}

/// Whether a column has the name, in any case.
fn is_called(name: &Name, column: &Column) -> bool
    ensures { result ≡ is_called name.now column.now }
{
    same_in_any_case(column.name.as_slice(), name.as_slice())
}

fn any_called(name: &Name, columns: &[Column]) -> bool
    ensures { result ≡ list_any (is_called name.now) columns.now }
{
    columns.iter().any(|column| is_called(name, column))
}

fn names_column(table: &Option<&Table>, name: &Name) -> bool
    ensures { result ≡ names_column (option_copied table.now) name.now }
{
    match table {
        Some(table) => any_called(name, table.columns.as_slice()),
        None => false,
    }
}

/// Which of the columns hold numbers.
fn kinds_of(alloc: Global, columns: &[Column]) -> Result<Items<bool>, AllocError>
    ensures { IfOk result (λ kinds. kinds ≡ map (λ c. not (is_text_type c.kind)) columns.now) }
{
    let mut kinds = Items::new(alloc);
    for column in columns {
        kinds.push(!is_text_type(column.kind))?;
    }
    Ok(kinds)
}

impl Known<'_> {
    /// Whether the columns of a name hold numbers.
    pub fn are_numbers(&self, name: &Option<Name>) -> bool
        ensures { result ≡ are_numbers (known_of self.now) name.now }
    {
        let Some(name) = name else {
            return false;
        };
        let numbers = has_column(false, &self.first, name) || has_column(false, &self.second, name);
        let texts = has_column(true, &self.first, name) || has_column(true, &self.second, name);
        numbers && !texts
    }

    /// Whether a column has the name, in any case.
    pub fn names_known(&self, name: &Option<Name>) -> bool
        ensures { result ≡ names_known (known_of self.now) name.now }
    {
        match name {
            Some(name) => names_column(&self.first, name) || names_column(&self.second, name),
            None => false,
        }
    }

    /// Which columns of the first table hold numbers.
    pub fn all_kinds(&self, alloc: Global) -> Result<Items<bool>, AllocError>
        ensures { IfOk result (λ kinds. kinds ≡ all_kinds (known_of self.now).first) }
    {
        match self.first {
            Some(table) => kinds_of(alloc, table.columns.as_slice()),
            None => Ok(Items::new(alloc)),
        }
    }
}
