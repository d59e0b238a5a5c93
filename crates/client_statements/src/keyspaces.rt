//! Names of keyspaces and of their tables.
ghost use Rattle.std.specs.Prelude.{◌≡◌, false, ◌∷◌, ◌++◌, [], ℕ, List, map, filter, bytes_eq, codes, option_map, unwrap_or, IfOk, OnOk, IsPermutation, IsSorted};
ghost use Rattle.std.specs.Ordering.{nat_cmp};
ghost use Rattle.std.specs.Cmp.Lexicographic.{slice_cmp};
ghost use Rattle.client_statements.specs.declared.answers.Facts.{Facts};
ghost use Rattle.client_statements.specs.declared.statement.ClientStatement.{ClientStatement};
ghost use Rattle.client_statements.specs.Answers.{keyspace_ordinal, keyspace_name, fits_pattern, headed, listed_row, AreListed, names_in, table_heads, listed_keyspace, without_keyspace, IsClientAnswer};

use crate::answers::{ClientAnswer, Facts};
use crate::likes::Pattern;
use crate::listings::{fits_pattern, headed, pattern, push_text, texts};
use sql_tree::Name;
use std::alloc::{AllocError, Global};
use vschema::{Keyspace, Table, VSchema};
use vt_value::{Items, Refusal, Row};

fn is_named(keyspace: &Keyspace, name: &[u8]) -> bool
    ensures { result ≡ bytes_eq keyspace.now.name name.now }
{
    keyspace.name.as_slice() == name
}

/// The ordinal of the keyspace of this name.
pub fn keyspace_ordinal(schema: &VSchema, name: &[u8]) -> Option<usize>
    ensures { result ≡ keyspace_ordinal schema.now name.now }
{
    schema
        .keyspaces
        .as_slice()
        .iter()
        .position(|keyspace| is_named(keyspace, name))
}

/// The name of the keyspace at an ordinal.
pub fn keyspace_name(schema: &VSchema, ordinal: usize) -> Option<&[u8]>
    ensures { option_map (λ t. t.now) result ≡ keyspace_name schema.now ordinal }
{
    match schema.keyspaces.as_slice().get(ordinal) {
        Some(keyspace) => Some(keyspace.name.as_slice()),
        None => None,
    }
}

/// Adds a name, if it fits the pattern.
fn push_fitting(
    alloc: Global,
    like: &Option<Pattern>,
    name: &[u8],
    names: &mut Vec<Name>,
) -> Result<(), AllocError>
    ensures { OnOk result (names.new.items ≡ names.old.items ++ filter (fits_pattern like.now) (name.now ∷ [])) }
{
    if fits_pattern(alloc, like, name)? {
        names.push(Items::from_slice(alloc, name)?)?;
    }
    Ok(())
}

/// The names of the keyspaces that fit.
#[tactic(auto, using(crate::proofs::InTurn::one_more_keyspace))]
fn keyspace_names(
    alloc: Global,
    keyspaces: &[Keyspace],
    like: &Option<Pattern>,
) -> Result<Vec<Name>, AllocError>
    ensures { IfOk result (λ v. v.items ≡ filter (fits_pattern like.now) (map (λ k. k.name) keyspaces.now)) }
{
    let mut names = Vec::new(alloc);
    for keyspace in keyspaces {
        push_fitting(alloc, like, keyspace.name.as_slice(), &mut names)?;
    }
    Ok(names)
}

/// Adds a table's name, if it lies in the keyspace and fits.
fn push_table(
    alloc: Global,
    table: &Table,
    ordinal: usize,
    like: &Option<Pattern>,
    names: &mut Vec<Name>,
) -> Result<(), AllocError>
    ensures { OnOk result (names.new.items ≡ names.old.items ++ filter (fits_pattern like.now) (names_in ordinal (table.now ∷ []))) }
{
    if table.keyspace == ordinal {
        push_fitting(alloc, like, table.name.as_slice(), names)?;
    }
    Ok(())
}

/// The names of a keyspace's tables that fit.
#[tactic(auto, using(crate::proofs::InTurn::one_more_table))]
fn table_names(
    alloc: Global,
    tables: &[Table],
    ordinal: usize,
    like: &Option<Pattern>,
) -> Result<Vec<Name>, AllocError>
    ensures { IfOk result (λ v. v.items ≡ filter (fits_pattern like.now) (names_in ordinal tables.now)) }
{
    let mut names = Vec::new(alloc);
    for table in tables {
        push_table(alloc, table, ordinal, like, &mut names)?;
    }
    Ok(names)
}

/// Puts names in the order of their bytes.
fn sort(names: &mut Vec<Name>)
    ensures permutation { IsPermutation names.old.items names.new.items }
    ensures sorted { IsSorted (slice_cmp nat_cmp) names.new.items }
{
    names.sort_unstable_by(|a, b| a.as_slice().cmp(b.as_slice()));
}

fn listed_row(alloc: Global, full: bool, name: &[u8]) -> Result<Row, AllocError>
    ensures { IfOk result (λ row. row ≡ listed_row full name.now) }
{
    if full {
        texts(alloc, &[Some(name), Some(b"BASE TABLE".as_slice())])
    } else {
        texts(alloc, &[Some(name)])
    }
}

fn listed_rows(alloc: Global, full: bool, names: &[Name]) -> Result<Items<Row>, AllocError>
    ensures { IfOk result (λ rows. rows ≡ map (listed_row full) names.now) }
{
    let mut rows = Items::new(alloc);
    for name in names {
        rows.push(listed_row(alloc, full, name.as_slice())?)?;
    }
    Ok(rows)
}

/// A row for each name, in the order of their bytes.
fn listed(alloc: Global, full: bool, names: Vec<Name>) -> Result<Items<Row>, AllocError>
    ensures { IfOk result (AreListed full names.items) }
{
    let mut names = names;
    sort(&mut names);
    listed_rows(alloc, full, names.as_slice())
}

fn database_rows(
    alloc: Global,
    schema: &VSchema,
    like: &Option<Pattern>,
) -> Result<Items<Row>, AllocError>
    ensures { IfOk result (AreListed false (filter (fits_pattern like.now) (map (λ k. k.name) schema.now.keyspaces))) }
{
    let names = keyspace_names(alloc, schema.keyspaces.as_slice(), like)?;
    listed(alloc, false, names)
}

fn one_head(alloc: Global, head: Name) -> Result<Items<Name>, AllocError>
    ensures { IfOk result (λ heads. heads ≡ head ∷ []) }
{
    let mut heads = Items::new(alloc);
    heads.push(head)?;
    Ok(heads)
}

fn database_heads(alloc: Global, like: &Option<Pattern>) -> Result<Items<Name>, AllocError>
    ensures { IfOk result (λ heads. heads ≡ headed (codes "Database") like.now ∷ []) }
{
    one_head(alloc, headed(alloc, b"Database", like)?)
}

/// SHOW DATABASES
pub fn databases(
    alloc: Global,
    schema: &VSchema,
    like: &Option<Name>,
) -> Result<ClientAnswer, AllocError>
    ensures { IfOk result (λ a. (facts : Facts) → IsClientAnswer schema.now facts (ClientStatement.ShowDatabases like.now) a) }
{
    let like = pattern(alloc, like)?;
    let columns = database_heads(alloc, &like)?;
    let rows = database_rows(alloc, schema, &like)?;
    Ok(ClientAnswer::Rows { columns, rows })
}

fn name_or_none(schema: &VSchema, ordinal: usize) -> &[u8]
    ensures { result.now ≡ unwrap_or (keyspace_name schema.now ordinal) [] }
{
    match keyspace_name(schema, ordinal) {
        Some(name) => name,
        None => &[],
    }
}

/// The name of the column of tables.
fn table_head(
    alloc: Global,
    schema: &VSchema,
    ordinal: usize,
    like: &Option<Pattern>,
) -> Result<Name, AllocError>
    ensures { IfOk result (λ n. n ≡ headed (codes "Tables_in_" ++ unwrap_or (keyspace_name schema.now ordinal) []) like.now) }
{
    let mut head = Vec::from_slice(alloc, b"Tables_in_")?;
    head.extend_from_slice(name_or_none(schema, ordinal))?;
    headed(alloc, head.as_slice(), like)
}

fn table_heads(
    alloc: Global,
    schema: &VSchema,
    ordinal: usize,
    full: bool,
    like: &Option<Pattern>,
) -> Result<Items<Name>, AllocError>
    ensures { IfOk result (λ heads. heads ≡ table_heads schema.now ordinal full like.now) }
{
    let mut heads = one_head(alloc, table_head(alloc, schema, ordinal, like)?)?;
    if full {
        push_text(alloc, &mut heads, b"Table_type")?;
    }
    Ok(heads)
}

/// The keyspace that is named, or else the one in use.
fn listed_keyspace(schema: &VSchema, facts: &Facts, named: &Option<Name>) -> Option<usize>
    ensures { result ≡ listed_keyspace schema.now facts.now named.now }
{
    match named {
        Some(name) => keyspace_ordinal(schema, name.as_slice()),
        None => facts.keyspace,
    }
}

fn without_keyspace(named: &Option<Name>) -> Refusal
    ensures { result ≡ without_keyspace named.now }
{
    match named {
        Some(_) => Refusal::UnknownKeyspace,
        None => Refusal::NoKeyspace,
    }
}

fn table_rows(
    alloc: Global,
    schema: &VSchema,
    ordinal: usize,
    full: bool,
    like: &Option<Pattern>,
) -> Result<Items<Row>, AllocError>
    ensures { IfOk result (AreListed full (filter (fits_pattern like.now) (names_in ordinal schema.now.tables))) }
{
    let names = table_names(alloc, schema.tables.as_slice(), ordinal, like)?;
    listed(alloc, full, names)
}

/// SHOW TABLES
pub fn tables(
    alloc: Global,
    schema: &VSchema,
    facts: &Facts,
    full: bool,
    named: &Option<Name>,
    like: &Option<Name>,
) -> Result<ClientAnswer, AllocError>
    ensures { IfOk result (IsClientAnswer schema.now facts.now (ClientStatement.ShowTables full named.now like.now)) }
{
    let Some(ordinal) = listed_keyspace(schema, facts, named) else {
        return Ok(ClientAnswer::Refused(without_keyspace(named)));
    };
    let like = pattern(alloc, like)?;
    let columns = table_heads(alloc, schema, ordinal, full, &like)?;
    let rows = table_rows(alloc, schema, ordinal, full, &like)?;
    Ok(ClientAnswer::Rows { columns, rows })
}
