//! Prepared statements: what answers their commands.
ghost use Rattle.std.specs.Prelude.{◌≡◌, ◌+◌, ◌-◌, ◌^◌, ◌<◌, ◌≤◌, ◌⊎◌, ◌||◌, ℕ, true, false, List, [], ◌++◌, length, Some, None, Ok, Err, IsSome, is_some, IfOk, IfErr, Option};
ghost use Rattle.route_engine.specs.Pendings.{IsOf};
ghost use Rattle.mysql_packet.specs.declared.framer.Payload.{Payload};
ghost use Rattle.mysql_packet.specs.Frames.{frame};
ghost use Rattle.mysql_packet.specs.Numbers.{little_endian};
ghost use Rattle.mysql_message.specs.Messages.{prepare, execute, reset_statement, command_of, err_payload, fault_payload};
ghost use Rattle.sql_tree.specs.declared.Statement.{Statement};
ghost use Rattle.vschema.specs.declared.schema.VSchema.{VSchema};
ghost use Rattle.vschema.specs.TypedStatement.{typed_statement};
ghost use Rattle.resultset.specs.declared.SetEnd.{SetEnd};
ghost use Rattle.resultset.specs.PreparedReplies.{prepare_encoded};
ghost use Rattle.prepared_statements.specs.declared.held.Prepared.{Prepared};
ghost use Rattle.client_words.specs.Aliases.{Names};
ghost use Rattle.prepared_statements.specs.Held.{HeldStatements, held_at, ClosesHeld, LongHeld, RunsHeld, UsesHeld, WasTooLarge};
ghost use Rattle.session.specs.conversation.Means.{Means, context_of};
ghost use Rattle.session.specs.conversation.Packets.{reply_number};
ghost use Rattle.session.specs.conversation.inner.Means.{LeadsKept};
ghost use Rattle.session.specs.conversation.inner.Replies.{reply_bytes};
ghost use Rattle.session.specs.conversation.Prepared.{names_unknown, is_select, ShowsTyped, ShowsColumns, ShowsNamed, MayBeHeld, AnswersStatement};
ghost use Rattle.session.specs.conversation.Talk.{AnswersPayload};

use crate::conversation::columns::columns_of;
use crate::conversation::connection_state::{ConnectionState, Phase, Settings};
use crate::conversation::held_texts::{HeldText, read_held};
use crate::conversation::named_columns::named_list;
use crate::conversation::reply::{REPLY_ROOM, RowForm, put_pong, put_refusal};
use crate::conversation::responder::{ReplyState, Responder};
use bytes::BytesMut;
use journal::Naming;
use mysql_message::{StatementFault, put_fault};
use prepared_statements::{Held, NotExecuted, NotHeld};
use resultset::{Chunks, Column as ResultColumn, SetEnd, encode_prepared_after};
use route_engine::{Gate, ShardPass, World};
use sql_tree::{Name, Statement};
use std::alloc::{AllocError, Global};
use std::sync::Wait;
use std::thread::Threads;
use vschema::{Typed, VSchema};
use vt_value::{Items, Refusal};

/// What is held once the statement is closed whose number these bytes are.
pub(crate) fn closed(held: Held, bytes: &[u8]) -> Held
    ensures { ClosesHeld held bytes.now result }
{
    let mut held = held;
    held.close(bytes);
    held
}

/// What is held after long data.
pub(crate) fn with_long(alloc: Global, held: Held, bytes: &[u8]) -> Held
    ensures { LongHeld held bytes.now result }
{
    let mut held = held;
    held.take_long(alloc, bytes);
    held
}

/// Puts the ERR packet of a fault.
fn put_one_fault(number: u8, fault: StatementFault, reply: &mut BytesMut)
    requires empty { reply.old.items ≡ [] }
    requires room { REPLY_ROOM ≤ reply.old.spare }
    ensures bytes { reply.new.items ≡ frame number (fault_payload fault) }
    ensures room { REPLY_ROOM ≤ length reply.new.items + reply.new.spare }
{
    let _ = put_fault(number, fault, reply).unwrap();
}

/// Whether a refusal says that a name isn't known, which no value changes.
fn names_unknown(why: Refusal) -> bool
    ensures { result ≡ names_unknown why }
{
    matches!(why, Refusal::UnknownTable | Refusal::UnknownColumn)
}

fn is_select(statement: &Statement) -> bool
    ensures { result ≡ is_select statement.now }
{
    matches!(statement, Statement::Select(_))
}

/// The columns of the rows of a typed statement.
fn columns_typed<'e>(
    alloc: Global,
    schema: &'e VSchema,
    typed: &Typed,
) -> Result<Items<ResultColumn<'e>>, AllocError>
    ensures shows { IfOk result (ShowsTyped schema.now typed.now) }
{
    match typed {
        Typed::Select(query) => columns_of(
            alloc,
            schema,
            query.table,
            query.join,
            query.items.as_slice(),
            query.qualified.as_slice(),
        ),
        Typed::Write(_) | Typed::Begin | Typed::Commit | Typed::Rollback | Typed::SetNames => {
            Ok(Items::new(alloc))
        }
    }
}

/// The columns of the rows of a typed statement, which isn't kept.
fn columns_owned<'e>(
    alloc: Global,
    schema: &'e VSchema,
    typed: Typed,
) -> Result<Items<ResultColumn<'e>>, Refusal>
    ensures shows { IfOk result (ShowsTyped schema.now typed) }
    ensures err { IfErr result (λ e. e ≡ Refusal.OutOfMemory) }
{
    match columns_typed(alloc, schema, &typed) {
        Ok(columns) => Ok(columns),
        Err(_) => Err(Refusal::OutOfMemory),
    }
}

/// No columns of a statement that is refused with NULL for its values, unless it is refused whatever they are.
fn no_columns<'e>(
    alloc: Global,
    selects: bool,
    why: Refusal,
) -> Result<Items<ResultColumn<'e>>, Refusal>
    ensures ok { IfOk result (λ columns. (columns ≡ []) × (why ≡ Refusal.OutOfMemory → ⊥) × ((selects || names_unknown why) ≡ false)) }
    ensures err { IfErr result (λ e. (e ≡ why) × ((why ≡ Refusal.OutOfMemory) ⊎ ((selects || names_unknown why) ≡ true))) }
{
    match why {
        Refusal::OutOfMemory => Err(Refusal::OutOfMemory),
        _ => {
            if selects || names_unknown(why) {
                return Err(why);
            }
            Ok(Items::new(alloc))
        }
    }
}

/// The columns of the rows that a statement gives, if it gives any.
fn columns_shown<'e>(
    alloc: Global,
    schema: &'e VSchema,
    statement: Statement,
) -> Result<Items<ResultColumn<'e>>, Refusal>
    ensures shows { IfOk result (ShowsColumns schema.now statement) }
    ensures err { IfErr result (λ e. (e ≡ Refusal.OutOfMemory)
        ⊎ ((typed_statement schema.now statement ≡ Err e) × ((is_select statement || names_unknown e) ≡ true))) }
{
    let selects = is_select(&statement);
    match schema.resolve(alloc, statement) {
        Ok(typed) => return columns_owned(alloc, schema, typed),
        Err(why) => return no_columns(alloc, selects, why),
    }
}

/// The columns of the rows that a statement gives, under the names that a client gives them.
fn named_shown<'e>(
    alloc: Global,
    schema: &'e VSchema,
    statement: Statement,
    names: &[Option<Name>],
) -> Result<Items<ResultColumn<'e>>, Refusal>
    ensures shows { IfOk result (ShowsNamed schema.now statement names.now) }
    ensures err { IfErr result (λ e. (e ≡ Refusal.OutOfMemory)
        ⊎ ((typed_statement schema.now statement ≡ Err e) × ((is_select statement || names_unknown e) ≡ true))) }
{
    match columns_shown(alloc, schema, statement) {
        Ok(columns) => Ok(named_list(alloc, names, columns)?),
        Err(why) => Err(why),
    }
}

/// How many holes a text of these pieces has.
fn holes_of(pieces: &[Items<u8>]) -> usize
    ensures { result ≡ length pieces.now - 1 }
{
    if pieces.is_empty() {
        return 0;
    }
    pieces.len() - 1
}

/// Tells of a statement that is held, or that there is no memory for that.
/// The statement's number, its columns and its holes are told one by one.
fn put_told(
    alloc: Global,
    statement: u32,
    columns: &[ResultColumn],
    holes: u16,
    end: SetEnd,
    number: u8,
    status: u16,
    reply: &mut BytesMut,
) -> Option<Chunks>
    requires empty { reply.old.items ≡ [] }
    requires room { REPLY_ROOM ≤ reply.old.spare }
    ensures bytes { (reply_bytes result reply.new.items ≡ prepare_encoded end statement columns.now holes number status)
        ⊎ (reply_bytes result reply.new.items ≡ frame number (err_payload Refusal.OutOfMemory)) }
    ensures room { REPLY_ROOM ≤ length reply.new.items + reply.new.spare }
{
    match encode_prepared_after(alloc, statement, columns, holes, number, status, end, reply) {
        Ok(chunks) => Some(chunks),
        Err(_) => {
            reply.clear();
            put_refusal(number, Refusal::OutOfMemory, reply);
            None
        }
    }
}

/// Holds a text that was cut and tells of it, and gives what is held then.
fn put_new(
    alloc: Global,
    end: SetEnd,
    held: Held,
    pieces: Items<Items<u8>>,
    holes: u16,
    columns: &[ResultColumn],
    number: u8,
    status: u16,
    reply: &mut BytesMut,
) -> (Held, Option<Chunks>)
    requires empty { reply.old.items ≡ [] }
    requires room { REPLY_ROOM ≤ reply.old.spare }
    requires holes { holes ≡ length pieces - 1 }
    ensures answers { (schema : VSchema) (text : List ℕ) (statement : Statement) (names : Names) → MayBeHeld schema text pieces statement names → ShowsNamed schema statement names columns.now
        → AnswersStatement schema end status number held (prepare text) (reply_bytes result.1 reply.new.items) result.0 }
    ensures room { REPLY_ROOM ≤ length reply.new.items + reply.new.spare }
{
    let mut held = held;
    match held.add(alloc, pieces) {
        Ok(statement) => {
            let chunks = put_told(alloc, statement, columns, holes, end, number, status, reply);
            (held, chunks)
        }
        Err(NotHeld::TooMany) => {
            put_one_fault(number, StatementFault::TooManyStatements, reply);
            (held, None)
        }
        Err(NotHeld::OutOfMemory) => {
            put_refusal(number, Refusal::OutOfMemory, reply);
            (held, None)
        }
    }
}

/// The answer to a text that is to be prepared, and what is held then.
pub(crate) fn put_prepare(
    alloc: Global,
    schema: &VSchema,
    end: SetEnd,
    held: Held,
    text: &[u8],
    number: u8,
    status: u16,
    reply: &mut BytesMut,
) -> (Held, Option<Chunks>)
    requires empty { reply.old.items ≡ [] }
    requires room { REPLY_ROOM ≤ reply.old.spare }
    ensures answers { AnswersStatement schema.now end status number held (prepare text.now) (reply_bytes result.1 reply.new.items) result.0 }
    ensures room { REPLY_ROOM ≤ length reply.new.items + reply.new.spare }
{
    match read_held(alloc, schema, text) {
        Ok(
            HeldText {
                pieces,
                statement,
                names,
            },
        ) => {
            let holes = holes_of(pieces.as_slice()) as u16;
            match named_shown(alloc, schema, statement, names.as_slice()) {
                Ok(columns) => put_new(
                    alloc,
                    end,
                    held,
                    pieces,
                    holes,
                    columns.as_slice(),
                    number,
                    status,
                    reply,
                ),
                Err(why) => {
                    put_refusal(number, why, reply);
                    (held, None)
                }
            }
        }
        Err(why) => {
            put_refusal(number, why, reply);
            (held, None)
        }
    }
}

/// The ERR packet that tells why no statement is executed.
fn put_not_executed(number: u8, why: NotExecuted, reply: &mut BytesMut)
    requires empty { reply.old.items ≡ [] }
    requires room { REPLY_ROOM ≤ reply.old.spare }
    ensures executes { (schema : VSchema) (end : SetEnd) (status : ℕ) (held then : HeldStatements) (bytes : List ℕ) → UsesHeld held bytes then
        → ((why ≡ NotExecuted.OutOfMemory → ⊥) → (text : List ℕ) (after : HeldStatements) → RunsHeld held bytes text after → ⊥)
        → (why ≡ NotExecuted.TooLarge → WasTooLarge held bytes)
        → (why ≡ NotExecuted.Unknown → (n : ℕ) (rest : List ℕ) (q : Prepared) → n < 2 ^ 32 → bytes ≡ little_endian 4 n ++ rest → held_at held n ≡ Some q → ⊥)
        → AnswersStatement schema end status number held (execute bytes) reply.new.items then }
    ensures room { REPLY_ROOM ≤ length reply.new.items + reply.new.spare }
{
    match why {
        NotExecuted::OutOfMemory => put_refusal(number, Refusal::OutOfMemory, reply),
        NotExecuted::NotSupported => put_refusal(number, Refusal::NotSupported, reply),
        NotExecuted::TooLarge => put_refusal(number, Refusal::PacketTooLarge, reply),
        NotExecuted::Unknown => put_one_fault(number, StatementFault::UnknownStatement, reply),
        NotExecuted::Wrong => put_one_fault(number, StatementFault::WrongArguments, reply),
    }
}

/// The reply to a statement's reset, and what is held then.
pub(crate) fn put_statement_reset(
    held: Held,
    bytes: &[u8],
    number: u8,
    status: u16,
    reply: &mut BytesMut,
) -> Held
    requires empty { reply.old.items ≡ [] }
    requires room { REPLY_ROOM ≤ reply.old.spare }
    ensures answers { (schema : VSchema) (end : SetEnd) → AnswersStatement schema end status number held (reset_statement bytes.now) reply.new.items result }
    ensures room { REPLY_ROOM ≤ length reply.new.items + reply.new.spare }
{
    let mut held = held;
    if held.reset(bytes) {
        put_pong(number, status, reply);
        held
    } else {
        put_one_fault(number, StatementFault::UnknownStatement, reply);
        held
    }
}

impl<W: World + Send + Sync, J: Naming + Send + Sync, G: Gate, R: Threads + Wait + Sync> Responder<
    '_,
    W,
    J,
    G,
    R,
> {
    /// The reply to an execution, and the session's state after it.
    pub(crate) fn put_execute(
        &self,
        pass: &mut ShardPass<W, J>,
        state: &mut ReplyState<W, J>,
        settings: Settings,
        held: Held,
        bytes: &[u8],
        number: u8,
    ) -> (ConnectionState, Option<Chunks>)
        requires empty { state.old.reply.items ≡ [] }
        requires room { REPLY_ROOM ≤ state.old.reply.spare }
        requires session { IsSome pass.old.session }
        requires tx { IsOf W.opening state.old.tx pass.old }
        ensures answers { (payload : Payload) → payload.first ≡ 0 → number ≡ reply_number payload → command_of payload.bytes ≡ Some (execute bytes.now)
            → LeadsKept W.opening pass.old state.old.tx pass.new state.new.tx
            (λ s now. AnswersPayload (context_of W.opening self.now.handshake.now) (Means W.opening W.limits) (Phase.Commands settings held) s payload (reply_bytes result.1 state.new.reply.items) result.0 now) }
        ensures tx { IsOf W.opening state.new.tx pass.new }
        ensures room { REPLY_ROOM ≤ length state.new.reply.items + state.new.reply.spare }
        ensures session { pass.new.session ≡ pass.old.session }
    {
        let mut held = held;
        match held.execute(self.alloc, bytes) {
            Ok(text) => {
                let (then, rows) = self.put_text(
                    pass,
                    state,
                    settings,
                    text.as_slice(),
                    number,
                    RowForm::Binary,
                );
                (ConnectionState::At(Phase::Commands(then, held)), rows)
            }
            Err(why) => {
                put_not_executed(number, why, &mut state.reply);
                (ConnectionState::At(Phase::Commands(settings, held)), None)
            }
        }
    }
}
