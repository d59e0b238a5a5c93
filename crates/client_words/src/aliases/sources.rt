//! The tables of a query, and the names that stand before their columns.
ghost use Rattle.std.specs.Prelude.{◌≡◌, ◌≤◌, ◌++◌, [], ◌∷◌, ℕ, List, Option, IfOk, OnOk, length};
ghost use Rattle.sql_lexer.specs.inner.Results.{AgreesWith};
ghost use Rattle.client_statements.specs.tokens.Pieces.{lexeme_of, lexemes_of};
ghost use Rattle.client_words.specs.Forms.{name_of, is_table};
ghost use Rattle.client_words.specs.Spelling.{Lexemes};
ghost use Rattle.client_words.specs.Aliases.{alias_at, source, joined, renamed_one, join_at, with_join, tables_at, is_source, source_table, is_exposed, stands, table_for, all_exposed, renamed};
ghost use Rattle.client_words.specs.inner.Sources.{source_of, sources_of, tables_of, joined_of};

use crate::aliases::alias::{alias_of, is_alias, is_as, leads_dot, push, push_all};
use crate::kinds::{FROM, INNER, JOIN};
use crate::tables::{is_table, name_of};
use client_statements::tokens::Token;
use sql_tree::Name;
use std::alloc::{AllocError, Global};
use vt_value::{Items, Refusal};

/// A table of a query, and the name that stands before its columns.
#[derive(Drop)]
pub struct Source {
    pub table: Token,
    pub name: Option<Name>,
}

/// The tables of a query: what is left of FROM and of its join, and the tokens after them.
#[derive(Drop)]
pub struct Tables<'s> {
    pub kept: Items<Token>,
    pub first: Source,
    pub second: Option<Source>,
    pub rest: &'s [Token],
}

/// An alias at the front, and the tokens after it.
#[tactic(auto, unfolding(crate::specs::Aliases::alias_at))]
fn alias_at<'s>(
    alloc: Global,
    text: &[u8],
    tokens: &'s [Token],
) -> Result<(Option<Name>, &'s [Token]), AllocError>
    ensures { IfOk result (λ x. ◌≡◌ {A = Option (List ℕ) × Lexemes} (x.0, lexemes_of text.now x.1.now) (alias_at (lexemes_of text.now tokens.now))) }
{
    let [first, after @ ..] = tokens else {
        return Ok((None, tokens));
    };
    let [second, rest @ ..] = after else {
        if is_alias(text, first) {
            return Ok((alias_of(alloc, text, first)?, after));
        }
        return Ok((None, tokens));
    };
    if is_as(first) && is_alias(text, second) {
        return Ok((alias_of(alloc, text, second)?, rest));
    }
    if is_alias(text, first) {
        return Ok((alias_of(alloc, text, first)?, after));
    }
    Ok((None, tokens))
}

/// A table with its alias, or with its own name.
#[tactic(auto, unfolding(crate::specs::Aliases::source))]
fn source_named(
    alloc: Global,
    text: &[u8],
    table: &Token,
    alias: Option<Name>,
) -> Result<Source, AllocError>
    ensures { IfOk result (λ s. source_of text.now s ≡ source (lexeme_of text.now table.now) alias) }
{
    match alias {
        Some(alias) => Ok(Source {
            table: *table,
            name: Some(alias),
        }),
        None => Ok(Source {
            table: *table,
            name: name_of(alloc, text, table)?,
        }),
    }
}

/// Two tokens.
fn two(alloc: Global, first: &Token, second: &Token) -> Result<Items<Token>, AllocError>
    ensures { (text : List ℕ) → IfOk result (λ both. lexemes_of text both ≡ lexeme_of text first.now ∷ lexeme_of text second.now ∷ []) }
{
    let mut both = Items::new(alloc);
    push(&mut both, first)?;
    push(&mut both, second)?;
    Ok(both)
}

/// JOIN and its table, with the table's alias.
fn joined<'s>(
    alloc: Global,
    text: &[u8],
    join: &Token,
    table: &Token,
    rest: &'s [Token],
) -> Result<(Items<Token>, (Source, &'s [Token])), AllocError>
    ensures { IfOk result (λ x. joined_of text.now x.0 x.1.0 x.1.1.now ≡ joined (lexeme_of text.now join.now) (lexeme_of text.now table.now) (lexemes_of text.now rest.now)) }
{
    let (alias, rest) = alias_at(alloc, text, rest)?;
    let source = source_named(alloc, text, table, alias)?;
    Ok((two(alloc, join, table)?, (source, rest)))
}

/// [INNER] JOIN table [AS] alias
#[tactic(auto, unfolding(crate::specs::Aliases::join_at))]
fn join_at<'s>(
    alloc: Global,
    text: &[u8],
    tokens: &'s [Token],
) -> Result<(Items<Token>, (Source, &'s [Token])), Refusal>
    ensures { AgreesWith (λ x. joined_of text.now x.0 x.1.0 x.1.1.now) result (join_at (lexemes_of text.now tokens.now)) }
{
    match tokens {
        [
            Token { kind: INNER, .. },
            join @ Token { kind: JOIN, .. },
            table,
            rest @ ..,
        ] => Ok(joined(alloc, text, join, table, rest)?),
        [join @ Token { kind: JOIN, .. }, table, rest @ ..] => {
            Ok(joined(alloc, text, join, table, rest)?)
        }
        _ => Err(Refusal::SyntaxError),
    }
}

/// The first table with the second, if a join follows.
#[tactic(auto, unfolding(crate::specs::Aliases::with_join))]
fn with_join<'s>(
    alloc: Global,
    text: &[u8],
    from: Items<Token>,
    first: Source,
    tokens: &'s [Token],
) -> Result<Tables<'s>, Refusal>
    ensures { AgreesWith (tables_of text.now) result (with_join (lexemes_of text.now from) (source_of text.now first) (lexemes_of text.now tokens.now)) }
{
    match join_at(alloc, text, tokens) {
        Ok((join, (second, rest))) => {
            if is_table(&first.name, &second.name) {
                return Err(Refusal::SyntaxError);
            }
            let mut kept = from;
            push_all(&mut kept, join.as_slice())?;
            Ok(Tables {
                kept,
                first,
                second: Some(second),
                rest,
            })
        }
        Err(Refusal::SyntaxError) => Ok(Tables {
            kept: from,
            first,
            second: None,
            rest: tokens,
        }),
        Err(_) => Err(Refusal::OutOfMemory),
    }
}

/// FROM table [AS] alias, and a join with a second one.
#[tactic(auto, unfolding(crate::specs::Aliases::tables_at))]
pub fn tables_at<'s>(alloc: Global, text: &[u8], tokens: &'s [Token]) -> Result<Tables<'s>, Refusal>
    ensures { AgreesWith (tables_of text.now) result (tables_at (lexemes_of text.now tokens.now)) }
{
    match tokens {
        [from @ Token { kind: FROM, .. }, table, rest @ ..] => {
            let (alias, rest) = alias_at(alloc, text, rest)?;
            let first = source_named(alloc, text, table, alias)?;
            with_join(alloc, text, two(alloc, from, table)?, first, rest)
        }
        _ => Err(Refusal::SyntaxError),
    }
}

fn is_source(source: &Option<Source>, name: &Option<Name>) -> bool
    ensures { (text : List ℕ) → result ≡ is_source (sources_of text source.now) name.now }
{
    match source {
        Some(source) => is_table(&source.name, name),
        None => false,
    }
}

impl Tables<'_> {
    /// Whether a table stands before columns under this name.
    #[tactic(auto, unfolding(crate::specs::Aliases::is_exposed))]
    fn is_exposed(&self, alloc: Global, text: &[u8], token: &Token) -> Result<bool, AllocError>
        ensures { IfOk result (λ is. is ≡ is_exposed (tables_of text.now self.now) (lexeme_of text.now token.now)) }
    {
        let name = name_of(alloc, text, token)?;
        Ok(is_table(&self.first.name, &name) || is_source(&self.second, &name))
    }

    /// The table that stands before columns under this name.
    #[tactic(auto, unfolding(crate::specs::Aliases::table_for))]
    fn table_for(&self, alloc: Global, text: &[u8], token: &Token) -> Result<Token, AllocError>
        ensures { IfOk result (λ table. lexeme_of text.now table ≡ table_for (tables_of text.now self.now) (lexeme_of text.now token.now)) }
    {
        let name = name_of(alloc, text, token)?;
        if is_table(&self.first.name, &name) {
            return Ok(self.first.table);
        }
        match &self.second {
            Some(second) => Ok(second.table),
            None => Ok(*token),
        }
    }

    /// Whether a token isn't before a dot, or a table stands there under this name.
    fn stands(
        &self,
        alloc: Global,
        text: &[u8],
        token: &Token,
        after: &[Token],
    ) -> Result<bool, AllocError>
        ensures { IfOk result (λ is. is ≡ stands (tables_of text.now self.now) (lexeme_of text.now token.now) (lexemes_of text.now after.now)) }
    {
        if !leads_dot(after) {
            return Ok(true);
        }
        self.is_exposed(alloc, text, token)
    }

    /// Whether each name before a dot is one under which a table stands.
    #[tactic(auto, unfolding(crate::specs::Aliases::all_exposed))]
    pub fn all_exposed(
        &self,
        alloc: Global,
        text: &[u8],
        tokens: &[Token],
    ) -> Result<bool, AllocError>
        ensures { IfOk result (λ all. all ≡ all_exposed (tables_of text.now self.now) (lexemes_of text.now tokens.now)) }
    {
        let mut rest = tokens;
        loop {
            let [first, after @ ..] = rest else {
                return Ok(true);
            };
            if !self.stands(alloc, text, first, after)? {
                return Ok(false);
            }
            rest = after;
        }
    }

    /// The token, or the table that it says before a dot.
    fn renamed_one(
        &self,
        alloc: Global,
        text: &[u8],
        token: &Token,
        after: &[Token],
    ) -> Result<Token, AllocError>
        ensures { IfOk result (λ x. lexeme_of text.now x ≡ renamed_one (tables_of text.now self.now) (lexeme_of text.now token.now) (lexemes_of text.now after.now)) }
    {
        if leads_dot(after) {
            self.table_for(alloc, text, token)
        } else {
            Ok(*token)
        }
    }

    /// The tokens with the table itself before each dot.
    #[tactic(auto, unfolding(crate::specs::Aliases::renamed))]
    pub fn renamed(
        &self,
        alloc: Global,
        text: &[u8],
        tokens: &[Token],
    ) -> Result<Items<Token>, AllocError>
        ensures { IfOk result (λ out. lexemes_of text.now out ≡ renamed (tables_of text.now self.now) (lexemes_of text.now tokens.now)) }
    {
        let mut out = Items::new(alloc);
        let mut rest = tokens;
        loop {
            let [first, after @ ..] = rest else {
                return Ok(out);
            };
            let token = self.renamed_one(alloc, text, first, after)?;
            push(&mut out, &token)?;
            rest = after;
        }
    }
}
