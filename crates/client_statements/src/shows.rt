//! SHOW, DESCRIBE, USE and START TRANSACTION, after their first words.
ghost use Rattle.std.specs.Prelude.{◌≡◌, ℕ, List};
ghost use Rattle.sql_lexer.specs.inner.Results.{AgreesWith};
ghost use Rattle.client_statements.specs.tokens.Pieces.{lexemes_of};
ghost use Rattle.client_statements.specs.Grammar.{mode_at, begin_at, second_mode_at, from_at, qualified_at, table_name_at, columns_of_at, columns_at};
ghost use Rattle.client_statements.specs.Grammar.{tables_at, listing_at, databases_at, variables_at, show_at, describe_at, use_at, begin_statement};

use crate::kinds::{
    COLUMNS, COMMA, CONSISTENT, DATABASES, DOT, FIELDS, FROM, FULL, GLOBAL, IN, LOCAL, ONLY, READ,
    SCHEMAS, SESSION, SNAPSHOT, TABLES, VARIABLES, WARNINGS, WITH, WRITE,
};
use crate::names::{identifier, like};
use crate::statement::{ClientStatement, TableName};
use crate::tokens::Token;
use sql_tree::Name;
use std::alloc::Global;
use vt_value::Refusal;

/// A mode of a transaction, and whether each one here is so.
#[tactic(auto, unfolding(crate::specs::Grammar::mode_at))]
fn mode(tokens: &[Token]) -> Result<(bool, &[Token]), Refusal>
    ensures { (text : List ℕ) → AgreesWith (λ x. (x.0, lexemes_of text x.1.now)) result (mode_at (lexemes_of text tokens.now)) }
{
    match tokens {
        [
            Token { kind: READ, .. },
            Token { kind: WRITE, .. },
            rest @ ..,
        ] => Ok((true, rest)),
        [
            Token { kind: READ, .. },
            Token { kind: ONLY, .. },
            rest @ ..,
        ] => Ok((false, rest)),
        [
            Token { kind: WITH, .. },
            Token {
                kind: CONSISTENT,
                ..
            },
            Token { kind: SNAPSHOT, .. },
            rest @ ..,
        ] => Ok((false, rest)),
        _ => Err(Refusal::SyntaxError),
    }
}

fn begin_statement(can: bool) -> ClientStatement
    ensures { result ≡ begin_statement can }
{
    if can {
        ClientStatement::Begin
    } else {
        ClientStatement::NotSupported
    }
}

/// [, mode]
#[tactic(auto, unfolding(crate::specs::Grammar::second_mode_at))]
fn second_mode(can: bool, tokens: &[Token]) -> Result<(ClientStatement, &[Token]), Refusal>
    ensures { (text : List ℕ) → AgreesWith (λ x. (x.0, lexemes_of text x.1.now)) result (second_mode_at can (lexemes_of text tokens.now)) }
{
    match tokens {
        [Token { kind: COMMA, .. }, rest @ ..] => {
            let (also, rest) = mode(rest)?;
            Ok((begin_statement(can && also), rest))
        }
        _ => Ok((begin_statement(can), tokens)),
    }
}

/// [mode [, mode]], after START TRANSACTION.
#[tactic(auto, unfolding(crate::specs::Grammar::begin_at))]
pub fn begin(tokens: &[Token]) -> Result<(ClientStatement, &[Token]), Refusal>
    ensures { (text : List ℕ) → AgreesWith (λ x. (x.0, lexemes_of text x.1.now)) result (begin_at (lexemes_of text tokens.now)) }
{
    match tokens {
        [] => Ok((ClientStatement::Begin, tokens)),
        _ => {
            let (can, rest) = mode(tokens)?;
            second_mode(can, rest)
        }
    }
}

/// [FROM name | IN name]
#[tactic(auto, unfolding(crate::specs::Grammar::from_at))]
fn from<'s>(
    alloc: Global,
    text: &[u8],
    tokens: &'s [Token],
) -> Result<(Option<Name>, &'s [Token]), Refusal>
    ensures { AgreesWith (λ x. (x.0, lexemes_of text.now x.1.now)) result (from_at (lexemes_of text.now tokens.now)) }
{
    match tokens {
        [
            Token {
                kind: FROM | IN,
                ..
            },
            rest @ ..,
        ] => {
            let (name, rest) = identifier(alloc, text, rest)?;
            Ok((Some(name), rest))
        }
        _ => Ok((None, tokens)),
    }
}

/// The table after its keyspace, if what comes before a dot is one.
#[tactic(auto, unfolding(crate::specs::Grammar::qualified_at))]
fn qualified<'s>(
    alloc: Global,
    text: &[u8],
    first: Name,
    tokens: &'s [Token],
) -> Result<(TableName, &'s [Token]), Refusal>
    ensures { AgreesWith (λ x. (x.0, lexemes_of text.now x.1.now)) result (qualified_at first (lexemes_of text.now tokens.now)) }
{
    match tokens {
        [Token { kind: DOT, .. }, rest @ ..] => {
            let (table, rest) = identifier(alloc, text, rest)?;
            let keyspace = Some(first);
            Ok((TableName { keyspace, table }, rest))
        }
        _ => {
            let table = TableName {
                keyspace: None,
                table: first,
            };
            Ok((table, tokens))
        }
    }
}

/// name | name . name
#[tactic(auto, unfolding(crate::specs::Grammar::table_name_at))]
fn table<'s>(
    alloc: Global,
    text: &[u8],
    tokens: &'s [Token],
) -> Result<(TableName, &'s [Token]), Refusal>
    ensures { AgreesWith (λ x. (x.0, lexemes_of text.now x.1.now)) result (table_name_at (lexemes_of text.now tokens.now)) }
{
    let (first, rest) = identifier(alloc, text, tokens)?;
    qualified(alloc, text, first, rest)
}

/// table [FROM name] [LIKE text]
#[tactic(auto, unfolding(crate::specs::Grammar::columns_of_at))]
fn columns_of<'s>(
    alloc: Global,
    text: &[u8],
    full: bool,
    tokens: &'s [Token],
) -> Result<(ClientStatement, &'s [Token]), Refusal>
    ensures { AgreesWith (λ x. (x.0, lexemes_of text.now x.1.now)) result (columns_of_at full (lexemes_of text.now tokens.now)) }
{
    let (table, rest) = table(alloc, text, tokens)?;
    let (keyspace, rest) = from(alloc, text, rest)?;
    let (like, rest) = like(alloc, text, rest)?;
    let table = TableName {
        keyspace: keyspace.or(table.keyspace),
        table: table.table,
    };
    Ok((ClientStatement::ShowColumns { full, table, like }, rest))
}

/// FROM table .. , after COLUMNS.
#[tactic(auto, unfolding(crate::specs::Grammar::columns_at))]
fn columns<'s>(
    alloc: Global,
    text: &[u8],
    full: bool,
    tokens: &'s [Token],
) -> Result<(ClientStatement, &'s [Token]), Refusal>
    ensures { AgreesWith (λ x. (x.0, lexemes_of text.now x.1.now)) result (columns_at full (lexemes_of text.now tokens.now)) }
{
    match tokens {
        [
            Token {
                kind: FROM | IN,
                ..
            },
            rest @ ..,
        ] => columns_of(alloc, text, full, rest),
        _ => Err(Refusal::SyntaxError),
    }
}

/// [FROM name] [LIKE text], after TABLES.
#[tactic(auto, unfolding(crate::specs::Grammar::tables_at))]
fn tables<'s>(
    alloc: Global,
    text: &[u8],
    full: bool,
    tokens: &'s [Token],
) -> Result<(ClientStatement, &'s [Token]), Refusal>
    ensures { AgreesWith (λ x. (x.0, lexemes_of text.now x.1.now)) result (tables_at full (lexemes_of text.now tokens.now)) }
{
    let (keyspace, rest) = from(alloc, text, tokens)?;
    let (like, rest) = like(alloc, text, rest)?;
    let tables = ClientStatement::ShowTables {
        full,
        keyspace,
        like,
    };
    Ok((tables, rest))
}

/// TABLES .. | COLUMNS ..
#[tactic(auto, unfolding(crate::specs::Grammar::listing_at))]
fn listing<'s>(
    alloc: Global,
    text: &[u8],
    full: bool,
    tokens: &'s [Token],
) -> Result<(ClientStatement, &'s [Token]), Refusal>
    ensures { AgreesWith (λ x. (x.0, lexemes_of text.now x.1.now)) result (listing_at full (lexemes_of text.now tokens.now)) }
{
    match tokens {
        [Token { kind: TABLES, .. }, rest @ ..] => tables(alloc, text, full, rest),
        [
            Token {
                kind: COLUMNS | FIELDS,
                ..
            },
            rest @ ..,
        ] => columns(alloc, text, full, rest),
        _ => Err(Refusal::SyntaxError),
    }
}

/// [LIKE text], after DATABASES.
#[tactic(auto, unfolding(crate::specs::Grammar::databases_at))]
fn databases<'s>(
    alloc: Global,
    text: &[u8],
    tokens: &'s [Token],
) -> Result<(ClientStatement, &'s [Token]), Refusal>
    ensures { AgreesWith (λ x. (x.0, lexemes_of text.now x.1.now)) result (databases_at (lexemes_of text.now tokens.now)) }
{
    let (like, rest) = like(alloc, text, tokens)?;
    Ok((ClientStatement::ShowDatabases { like }, rest))
}

/// VARIABLES [LIKE text]
#[tactic(auto, unfolding(crate::specs::Grammar::variables_at))]
fn variables<'s>(
    alloc: Global,
    text: &[u8],
    tokens: &'s [Token],
) -> Result<(ClientStatement, &'s [Token]), Refusal>
    ensures { AgreesWith (λ x. (x.0, lexemes_of text.now x.1.now)) result (variables_at (lexemes_of text.now tokens.now)) }
{
    match tokens {
        [
            Token {
                kind: VARIABLES,
                ..
            },
            rest @ ..,
        ] => {
            let (like, rest) = like(alloc, text, rest)?;
            Ok((ClientStatement::ShowVariables { like }, rest))
        }
        _ => Err(Refusal::SyntaxError),
    }
}

/// What comes after SHOW.
#[tactic(auto, unfolding(crate::specs::Grammar::show_at))]
pub fn show<'s>(
    alloc: Global,
    text: &[u8],
    tokens: &'s [Token],
) -> Result<(ClientStatement, &'s [Token]), Refusal>
    ensures { AgreesWith (λ x. (x.0, lexemes_of text.now x.1.now)) result (show_at (lexemes_of text.now tokens.now)) }
{
    match tokens {
        [
            Token {
                kind: DATABASES | SCHEMAS,
                ..
            },
            rest @ ..,
        ] => databases(alloc, text, rest),
        [Token { kind: WARNINGS, .. }, rest @ ..] => Ok((ClientStatement::ShowWarnings, rest)),
        [Token { kind: FULL, .. }, rest @ ..] => listing(alloc, text, true, rest),
        [
            Token {
                kind: SESSION | LOCAL | GLOBAL,
                ..
            },
            rest @ ..,
        ] => variables(alloc, text, rest),
        [
            Token {
                kind: VARIABLES,
                ..
            },
            ..
        ] => variables(alloc, text, tokens),
        _ => listing(alloc, text, false, tokens),
    }
}

/// The table after DESCRIBE.
#[tactic(auto, unfolding(crate::specs::Grammar::describe_at))]
pub fn describe<'s>(
    alloc: Global,
    text: &[u8],
    tokens: &'s [Token],
) -> Result<(ClientStatement, &'s [Token]), Refusal>
    ensures { AgreesWith (λ x. (x.0, lexemes_of text.now x.1.now)) result (describe_at (lexemes_of text.now tokens.now)) }
{
    let (table, rest) = table(alloc, text, tokens)?;
    let columns = ClientStatement::ShowColumns {
        full: false,
        table,
        like: None,
    };
    Ok((columns, rest))
}

/// The keyspace after USE.
#[tactic(auto, unfolding(crate::specs::Grammar::use_at))]
pub fn use_keyspace<'s>(
    alloc: Global,
    text: &[u8],
    tokens: &'s [Token],
) -> Result<(ClientStatement, &'s [Token]), Refusal>
    ensures { AgreesWith (λ x. (x.0, lexemes_of text.now x.1.now)) result (use_at (lexemes_of text.now tokens.now)) }
{
    let (name, rest) = identifier(alloc, text, tokens)?;
    Ok((ClientStatement::Use(name), rest))
}
