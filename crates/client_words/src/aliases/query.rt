//! The whole query without aliases.
ghost use Rattle.std.specs.Prelude.{◌≡◌, ◌++◌, [], ◌∷◌, ℕ, List, Option, Some, None, IfOk};
ghost use Rattle.sql_lexer.specs.inner.Results.{AgreesWith};
ghost use Rattle.client_statements.specs.tokens.Pieces.{lexeme_of, lexemes_of};
ghost use Rattle.client_words.specs.Aliases.{list_of, names_from, from_on, tables_at, Names, is_sound, query, of_tables, aliased, unaliased};
ghost use Rattle.client_words.specs.Spelling.{Lexemes};
ghost use Rattle.client_words.specs.inner.Known.{known_of};
ghost use Rattle.client_words.specs.inner.Sources.{tables_of};

use crate::aliases::alias::{push, push_all};
use crate::aliases::groups::{Listed, grouped};
use crate::aliases::keys::push_ordered;
use crate::aliases::list::{from_on, list_of, names_of};
use crate::aliases::sources::{Tables, tables_at};
use crate::columns::{Known, known_in};
use crate::kinds::SELECT;
use client_statements::tokens::Token;
use sql_tree::Name;
use std::alloc::{AllocError, Global};
use vschema::VSchema;
use vt_value::{Items, Refusal};

/// A query without aliases, and the names that its client gives its columns.
#[derive(Drop)]
pub struct PlainQuery {
    pub tokens: Items<Token>,
    pub names: Items<Option<Name>>,
}

/// Whether each name before a dot is one under which a table stands.
fn is_sound(
    alloc: Global,
    text: &[u8],
    tables: &Tables<'_>,
    list: &[Token],
) -> Result<bool, AllocError>
    ensures { IfOk result (λ is. is ≡ is_sound (tables_of text.now tables.now) (lexemes_of text.now list.now)) }
{
    if !tables.all_exposed(alloc, text, list)? {
        return Ok(false);
    }
    tables.all_exposed(alloc, text, tables.rest)
}

/// The query of these tables, whose select list is this and has these names.
fn query(
    alloc: Global,
    text: &[u8],
    known: &Known<'_>,
    select: &Token,
    tables: &Tables<'_>,
    names: &[Option<Name>],
    list: &[Token],
) -> Result<Items<Token>, AllocError>
    ensures { IfOk result (λ out. lexemes_of text.now out
        ≡ query (known_of known.now) (lexeme_of text.now select.now) (tables_of text.now tables.now) names.now (lexemes_of text.now list.now)) }
{
    let list = tables.renamed(alloc, text, list)?;
    let rest = tables.renamed(alloc, text, tables.rest)?;
    let listed = Listed {
        known: *known,
        names,
        items: list.as_slice(),
    };
    let rest = grouped(alloc, text, &listed, rest.as_slice())?;
    let mut out = Items::new(alloc);
    push(&mut out, select)?;
    push_all(&mut out, list.as_slice())?;
    push_all(&mut out, tables.kept.as_slice())?;
    push_ordered(
        alloc,
        text,
        &mut out,
        names,
        list.as_slice(),
        rest.as_slice(),
    )?;
    Ok(out)
}

/// The query of these tables without aliases.
fn of_tables(
    alloc: Global,
    text: &[u8],
    known: &Known<'_>,
    select: &Token,
    tables: &Tables<'_>,
    tokens: &[Token],
) -> Result<PlainQuery, Refusal>
    ensures { AgreesWith (λ x. (lexemes_of text.now x.tokens, x.names)) result
        (of_tables (known_of known.now) (lexeme_of text.now select.now) (tables_of text.now tables.now) (lexemes_of text.now tokens.now)) }
{
    let list = list_of(alloc, text, tokens)?;
    if !is_sound(alloc, text, tables, list.as_slice())? {
        return Err(Refusal::SyntaxError);
    }
    let names = names_of(alloc, text, tokens)?;
    let tokens = query(
        alloc,
        text,
        known,
        select,
        tables,
        names.as_slice(),
        list.as_slice(),
    )?;
    Ok(PlainQuery { tokens, names })
}

/// The query without aliases, if it is one of one or two tables.
#[tactic(auto, unfolding(crate::specs::Aliases::aliased))]
fn aliased(
    alloc: Global,
    text: &[u8],
    known: &Known<'_>,
    tokens: &[Token],
) -> Result<PlainQuery, Refusal>
    ensures { AgreesWith (λ x. (lexemes_of text.now x.tokens, x.names)) result (aliased (known_of known.now) (lexemes_of text.now tokens.now)) }
{
    match tokens {
        [select @ Token { kind: SELECT, .. }, rest @ ..] => {
            let tables = tables_at(alloc, text, from_on(rest))?;
            of_tables(alloc, text, known, select, &tables, rest)
        }
        _ => Err(Refusal::SyntaxError),
    }
}

/// A query without aliases; anything else is left as it is.
#[tactic(auto, unfolding(crate::specs::Aliases::unaliased))]
pub fn unaliased(
    alloc: Global,
    schema: &VSchema,
    text: &[u8],
    tokens: Items<Token>,
) -> Result<PlainQuery, AllocError>
    ensures { IfOk result (λ x. ◌≡◌ {A = Lexemes × Names} (lexemes_of text.now x.tokens, x.names) (unaliased schema.now (lexemes_of text.now tokens))) }
{
    let known = known_in(alloc, schema, text, tokens.as_slice())?;
    match aliased(alloc, text, &known, tokens.as_slice()) {
        Ok(query) => Ok(query),
        Err(Refusal::SyntaxError) => Ok(PlainQuery {
            tokens,
            names: Items::new(alloc),
        }),
        Err(_) => Err(AllocError),
    }
}
