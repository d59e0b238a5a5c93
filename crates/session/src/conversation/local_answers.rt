//! What the session answers by itself, without its tables.
ghost use Rattle.std.specs.Prelude.{◌≡◌, ◌≢◌, ◌↔◌, ◌⊎◌, true, false, is_some, IsNone, IfOk, IfSome};
ghost use Rattle.vt_value.specs.declared.refusal.Refusal.{Refusal};
ghost use Rattle.vschema.specs.declared.schema.VSchema.{VSchema};
ghost use Rattle.resultset.specs.declared.Outcome.{Outcome};
ghost use Rattle.client_statements.specs.declared.statement.ClientStatement.{ClientStatement};
ghost use Rattle.client_statements.specs.Answers.{has_client_answer, IsClientAnswer};
ghost use Rattle.client_statements.specs.Asks.{Asks, IsSet};
ghost use Rattle.session.specs.declared.conversation.access.Handshake.{Handshake};
ghost use Rattle.session.specs.conversation.GivesText.{DefinesText, AllTexts, facts_of, TellsAnswer, TellsClient, is_not_run};
ghost use Rattle.session.specs.conversation.inner.Tellings.{turns_on, refusal_of, leads_set};

use crate::conversation::access::Handshake;
use crate::conversation::client_reply::{ClientReply, ClientReplyKind, ShownSet};
use crate::conversation::connection_state::Settings;
use crate::conversation::login::keyspace_named;
use client_statements::tokens::{Keyword, Token, TokenKind, lex};
use client_statements::{ClientAnswer, ClientStatement, Facts, answer, may_set, read};
use resultset::{Column, ColumnText, Kind};
use route_engine::ShownRows;
use sql_tree::Name;
use std::alloc::{AllocError, Global};
use vschema::VSchema;
use vt_value::{Items, Refusal, Row};

const SET: TokenKind = TokenKind::Word(Some(Keyword::Set));

/// The refusal of a text that isn't SQL over tables, or none that is run.
pub fn not_run(outcome: &ClientReply) -> Option<Refusal>
    ensures run { IsNone result ↔ (is_not_run outcome.now ≡ false) }
    ensures refused { IfSome result (λ why. outcome.now ≡ Outcome.Refused why) }
{
    match outcome.reply_kind {
        ClientReplyKind::Refused(Refusal::SyntaxError) => Some(Refusal::SyntaxError),
        ClientReplyKind::Refused(Refusal::NotSupported) => Some(Refusal::NotSupported),
        _ => None,
    }
}

/// The refusal of a statement that was read as one that the server can't do, or wasn't for want of memory.
fn refusal_of(asks: &Result<Option<ClientStatement>, AllocError>) -> Option<Refusal>
    ensures { result ≡ refusal_of asks.now }
{
    match asks {
        Ok(Some(ClientStatement::NotSupported)) => Some(Refusal::NotSupported),
        Ok(_) => None,
        Err(_) => Some(Refusal::OutOfMemory),
    }
}

/// Whether SET is the first token.
fn leads_set(tokens: &[Token]) -> bool
    ensures { result ≡ leads_set tokens.now }
{
    match tokens {
        [Token { kind: SET, .. }, ..] => true,
        _ => false,
    }
}

/// Whether SET is a text's first token.
fn is_set(alloc: Global, text: &[u8]) -> Result<bool, AllocError>
    ensures yes { IfOk result (λ is. is ≡ true → IsSet text.now) }
    ensures no { IfOk result (λ is. is ≡ false → IsSet text.now → ⊥) }
{
    let Some(tokens) = lex(alloc, text)? else {
        return Ok(false);
    };
    Ok(leads_set(tokens.as_slice()))
}

/// The refusal of what the server can't do.
fn asked_refusal(alloc: Global, text: &[u8]) -> Option<Refusal>
    ensures none { IsNone result → Asks text.now ClientStatement.NotSupported → ⊥ }
    ensures some { IfSome result (λ why. (why ≡ Refusal.OutOfMemory) ⊎ ((why ≡ Refusal.NotSupported) × Asks text.now ClientStatement.NotSupported)) }
{
    let asks = read(alloc, text);
    let refusal = refusal_of(&asks);
    drop(asks);
    refusal
}

/// The refusal of a SET of what the server can't be set to. SQL has a tree for some that name a character set, so that this is asked before.
#[inline(never)]
fn read_set_refusal(alloc: Global, text: &[u8]) -> Option<Refusal>
    ensures none { IsNone result → IsSet text.now → Asks text.now ClientStatement.NotSupported → ⊥ }
    ensures some { IfSome result (λ why. (why ≡ Refusal.OutOfMemory) ⊎ ((why ≡ Refusal.NotSupported) × IsSet text.now × Asks text.now ClientStatement.NotSupported)) }
{
    match is_set(alloc, text) {
        Ok(true) => asked_refusal(alloc, text),
        Ok(false) => None,
        Err(_) => Some(Refusal::OutOfMemory),
    }
}

/// The same, of a text that need not be a SET.
#[inline(always)]
pub fn set_refusal(alloc: Global, text: &[u8]) -> Option<Refusal>
    ensures none { IsNone result → IsSet text.now → Asks text.now ClientStatement.NotSupported → ⊥ }
    ensures some { IfSome result (λ why. (why ≡ Refusal.OutOfMemory) ⊎ ((why ≡ Refusal.NotSupported) × IsSet text.now × Asks text.now ClientStatement.NotSupported)) }
{
    if may_set(text) {
        read_set_refusal(alloc, text)
    } else {
        None
    }
}

/// Whether a statement turns autocommit on that is off.
pub fn turns_on(settings: Settings, statement: &ClientStatement) -> bool
    ensures { result ≡ turns_on settings statement.now }
{
    match statement {
        ClientStatement::Set {
            autocommit: Some(true),
        } => !settings.autocommit,
        _ => false,
    }
}

/// A refusal as a client's reply.
pub fn refused(refusal: Refusal) -> ClientReply<'static>
    ensures { result ≡ Outcome.Refused refusal }
{
    ClientReply {
        reply_kind: ClientReplyKind::Refused(refusal),
    }
}

/// That it is done.
pub fn done() -> ClientReply<'static>
    ensures { result ≡ Outcome.Count 0 }
{
    ClientReply {
        reply_kind: ClientReplyKind::Count(0),
    }
}

fn text_column(name: Name) -> Column<'static>
    ensures { DefinesText name result }
{
    Column {
        schema: ColumnText::lent(&[]),
        table: ColumnText::lent(&[]),
        name: ColumnText::own(name),
        org_name: ColumnText::lent(&[]),
        kind: Kind::VarBinary(255),
        flags: 128,
    }
}

/// The columns of texts that have these names.
fn text_columns(alloc: Global, names: &[Name]) -> Result<Items<Column<'static>>, AllocError>
    ensures { IfOk result (λ columns. AllTexts names.now columns) }
{
    let mut columns = Items::new(alloc);
    for name in names {
        let name = Items::from_slice(alloc, name.as_slice())?;
        columns.push(text_column(name))?;
    }
    Ok(columns)
}

/// Rows of texts as a client's reply.
fn rows_reply(alloc: Global, names: &[Name], rows: Items<Row>) -> ClientReply<'static>
    ensures { TellsAnswer (ClientAnswer.Rows names.now rows) result }
{
    match text_columns(alloc, names) {
        Ok(columns) => ClientReply {
            reply_kind: ClientReplyKind::Rows(ShownSet {
                columns,
                rows: ShownRows::new(rows, None),
            }),
        },
        Err(_) => refused(Refusal::OutOfMemory),
    }
}

fn reply_of_answer(alloc: Global, answer: ClientAnswer) -> ClientReply<'static>
    ensures { TellsAnswer answer result }
{
    match answer {
        ClientAnswer::Rows { columns, rows } => rows_reply(alloc, columns.as_slice(), rows),
        ClientAnswer::Refused(why) => refused(why),
    }
}

/// What a session knows of itself.
fn facts_of(alloc: Global, handshake: &Handshake, settings: Settings) -> Result<Facts, AllocError>
    ensures { IfOk result (λ facts. facts ≡ facts_of handshake.now settings) }
{
    let mut user = Vec::from_slice(alloc, handshake.access.user.as_slice())?;
    user.extend_from_slice(b"@%")?;
    Ok(Facts {
        keyspace: settings.keyspace,
        connection: handshake.id,
        user: Items::from_vec(user),
        autocommit: settings.autocommit,
    })
}

fn client_answer(
    alloc: Global,
    schema: &VSchema,
    handshake: &Handshake,
    settings: Settings,
    statement: &ClientStatement,
) -> Result<Option<ClientAnswer>, AllocError>
    ensures answered { IfOk result (λ o. IfSome o (IsClientAnswer schema.now (facts_of handshake.now settings) statement.now)) }
    ensures rows { IfOk result (λ o. is_some o ≡ has_client_answer statement.now) }
{
    let facts = facts_of(alloc, handshake, settings)?;
    answer(alloc, schema, &facts, statement)
}

/// What a statement with rows gives.
fn rows_answer(
    alloc: Global,
    schema: &VSchema,
    handshake: &Handshake,
    settings: Settings,
    statement: &ClientStatement,
) -> ClientReply<'static>
    requires rows { has_client_answer statement.now ≡ true }
    ensures { TellsClient schema.now handshake.now settings statement.now result settings }
{
    match client_answer(alloc, schema, handshake, settings, statement) {
        Ok(Some(answer)) => reply_of_answer(alloc, answer),
        Ok(None) => unreachable!(),
        Err(_) => refused(Refusal::OutOfMemory),
    }
}

/// What SET gives, and what then holds for commands.
fn set(settings: Settings, autocommit: Option<bool>) -> (ClientReply<'static>, Settings)
    requires { turns_on settings (ClientStatement.Set autocommit) ≡ false }
    ensures { (schema : VSchema) (handshake : Handshake) → TellsClient schema handshake settings (ClientStatement.Set autocommit) result.0 result.1 }
{
    match autocommit {
        None => (done(), settings),
        Some(on) => (done(), settings.with_autocommit(on)),
    }
}

/// What USE gives, and what then holds for commands.
fn used(schema: &VSchema, settings: Settings, name: &[u8]) -> (ClientReply<'static>, Settings)
    ensures { (handshake : Handshake) → TellsClient schema.now handshake settings (ClientStatement.Use name.now) result.0 result.1 }
{
    match keyspace_named(schema, name) {
        Some(ordinal) => (
            done(),
            Settings {
                capabilities: settings.capabilities,
                autocommit: settings.autocommit,
                keyspace: Some(ordinal),
            },
        ),
        None => (refused(Refusal::UnknownKeyspace), settings),
    }
}

/// What a statement gives that needs no table, and what then holds for commands.
pub fn local_answer(
    alloc: Global,
    schema: &VSchema,
    handshake: &Handshake,
    settings: Settings,
    statement: &ClientStatement,
) -> (ClientReply<'static>, Settings)
    requires begins { statement.now ≢ ClientStatement.Begin }
    requires turns_on { turns_on settings statement.now ≡ false }
    ensures { TellsClient schema.now handshake.now settings statement.now result.0 result.1 }
{
    match statement {
        ClientStatement::Begin => unreachable!(),
        ClientStatement::Set { autocommit } => set(settings, *autocommit),
        ClientStatement::NotSupported => (refused(Refusal::NotSupported), settings),
        ClientStatement::Use(name) => used(schema, settings, name.as_slice()),
        ClientStatement::Select(_)
        | ClientStatement::ShowDatabases { .. }
        | ClientStatement::ShowTables { .. }
        | ClientStatement::ShowColumns { .. }
        | ClientStatement::ShowVariables { .. }
        | ClientStatement::ShowWarnings => {
            let reply = rows_answer(alloc, schema, handshake, settings, statement);
            (reply, settings)
        }
    }
}
