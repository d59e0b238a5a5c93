//! The reply to a command, and to what comes before commands.
ghost use Rattle.std.specs.Prelude.{◌≡◌, ℕ, ◌+◌, ◌≤◌, true, false, [], length, Some, None, IsSome, Option};
ghost use Rattle.route_engine.specs.Pendings.{IsOf};
ghost use Rattle.mysql_packet.specs.Frames.{frame};
ghost use Rattle.mysql_packet.specs.declared.framer.Payload.{Payload};
ghost use Rattle.mysql_message.specs.Messages.{ok_payload, err_payload, statistics_payload};
ghost use Rattle.resultset.specs.Encoding.{after_rows};
ghost use Rattle.session.specs.conversation.Means.{Means, context_of};
ghost use Rattle.session.specs.conversation.inner.Means.{LeadsKept};
ghost use Rattle.session.specs.conversation.Logins.{keyspace_named};
ghost use Rattle.session.specs.conversation.SessionContext.{status_flags};
ghost use Rattle.session.specs.conversation.Talk.{AnswersPayload, set_end_of};
ghost use Rattle.session.specs.conversation.inner.Replies.{reply_bytes};
ghost use Rattle.session.specs.conversation.inner.Sessions.{command_payload};

use crate::conversation::connection_state::{ConnectionState, Phase, Settings, first_number};
use crate::conversation::end::End;
use crate::conversation::login::{keyspace_named, put_answer, put_response};
use crate::conversation::prepared::{closed, put_prepare, put_statement_reset, with_long};
use crate::conversation::reply::{
    REPLY_ROOM, RowForm, put_pong, put_refusal, set_end_of, status_flags, status_of,
};
use crate::conversation::responder::{ReplyState, Responder};
use bytes::BytesMut;
use journal::Naming;
use mysql_message::{Command, put_eof, put_set_end, put_statistics, read_command};
use mysql_packet::Payload;
use prepared_statements::Held;
use resultset::{Chunks, SetEnd};
use route_engine::{Gate, ShardPass, Tx, World};
use std::sync::Wait;
use std::thread::Threads;
use vschema::VSchema;
use vt_value::Refusal;

/// The reply to the name of a keyspace, and the session's state after it: an OK, and it is in use; or that there is none of that name.
fn put_selected(
    schema: &VSchema,
    settings: Settings,
    held: Held,
    name: &[u8],
    number: u8,
    status: u16,
    reply: &mut BytesMut,
) -> ConnectionState
    requires empty { reply.old.items ≡ [] }
    requires room { REPLY_ROOM ≤ reply.old.spare }
    ensures known { (ordinal : ℕ) → keyspace_named schema.now.keyspaces name.now ≡ Some ordinal → (reply.new.items ≡ frame number (ok_payload 0 status))
        × (result ≡ ConnectionState.At (Phase.Commands (record settings { keyspace = Some ordinal }) held)) }
    ensures unknown { keyspace_named schema.now.keyspaces name.now ≡ None → (reply.new.items ≡ frame number (err_payload Refusal.UnknownKeyspace))
        × (result ≡ ConnectionState.At (Phase.Commands settings held)) }
    ensures room { REPLY_ROOM ≤ length reply.new.items + reply.new.spare }
{
    match keyspace_named(schema, name) {
        Some(ordinal) => {
            put_pong(number, status, reply);
            let chosen = Settings {
                capabilities: settings.capabilities,
                autocommit: settings.autocommit,
                keyspace: Some(ordinal),
            };
            ConnectionState::At(Phase::Commands(chosen, held))
        }
        None => {
            put_refusal(number, Refusal::UnknownKeyspace, reply);
            ConnectionState::At(Phase::Commands(settings, held))
        }
    }
}

/// The line that answers COM_STATISTICS.
fn put_line(number: u8, reply: &mut BytesMut)
    requires empty { reply.old.items ≡ [] }
    requires room { REPLY_ROOM ≤ reply.old.spare }
    ensures bytes { reply.new.items ≡ frame number statistics_payload }
    ensures room { REPLY_ROOM ≤ length reply.new.items + reply.new.spare }
{
    let _ = put_statistics(number, reply).unwrap();
}

/// The packet that ends a result set, alone.
fn put_end(end: SetEnd, number: u8, status: u16, reply: &mut BytesMut)
    requires empty { reply.old.items ≡ [] }
    requires room { REPLY_ROOM ≤ reply.old.spare }
    ensures bytes { reply.new.items ≡ frame number (after_rows end status) }
    ensures room { REPLY_ROOM ≤ length reply.new.items + reply.new.spare }
{
    match end {
        SetEnd::EofPackets => {
            let _ = put_eof(number, status, reply).unwrap();
        }
        SetEnd::OkPacket => {
            let _ = put_set_end(number, status, reply).unwrap();
        }
    }
}

/// The reply to COM_SET_OPTION: texts of several statements are never taken.
fn put_option(several: bool, end: SetEnd, number: u8, status: u16, reply: &mut BytesMut)
    requires empty { reply.old.items ≡ [] }
    requires room { REPLY_ROOM ≤ reply.old.spare }
    ensures several { several ≡ true → reply.new.items ≡ frame number (err_payload Refusal.NotSupported) }
    ensures one { several ≡ false → reply.new.items ≡ frame number (after_rows end status) }
    ensures room { REPLY_ROOM ≤ length reply.new.items + reply.new.spare }
{
    if several {
        put_refusal(number, Refusal::NotSupported, reply);
    } else {
        put_end(end, number, status, reply);
    }
}

impl<W: World + Send + Sync, J: Naming + Send + Sync, G: Gate, R: Threads + Wait + Sync> Responder<
    '_,
    W,
    J,
    G,
    R,
> {
    /// The reply to a command whose numbers are right, of which the last is given, and the session's state after it. A reply lies in the buffer, and
    /// what comes before that of a long one in chunks.
    pub(crate) fn put_command(
        &self,
        pass: &mut ShardPass<W, J>,
        state: &mut ReplyState<W, J>,
        settings: Settings,
        held: Held,
        last: u8,
        bytes: &[u8],
    ) -> (ConnectionState, Option<Chunks>)
        requires empty { state.old.reply.items ≡ [] }
        requires room { REPLY_ROOM ≤ state.old.reply.spare }
        requires session { IsSome pass.old.session }
        requires tx { IsOf W.opening state.old.tx pass.old }
        ensures answers { LeadsKept W.opening pass.old state.old.tx pass.new state.new.tx
            (λ s now. AnswersPayload (context_of W.opening self.now.handshake.now) (Means W.opening W.limits) (Phase.Commands settings held) s (command_payload last bytes.now) (reply_bytes result.1 state.new.reply.items) result.0 now) }
        ensures tx { IsOf W.opening state.new.tx pass.new }
        ensures room { REPLY_ROOM ≤ length state.new.reply.items + state.new.reply.spare }
        ensures session { pass.new.session ≡ pass.old.session }
    {
        let number = last.wrapping_add(1);
        match read_command(bytes) {
            Err(refusal) => {
                put_refusal(number, refusal, &mut state.reply);
                (ConnectionState::At(Phase::Commands(settings, held)), None)
            }
            Ok(Command::Quit) => {
                drop(held);
                (ConnectionState::Ended(End::Quit), None)
            }
            Ok(Command::Ping) => {
                put_pong(
                    number,
                    status_of(settings.autocommit, &state.tx),
                    &mut state.reply,
                );
                (ConnectionState::At(Phase::Commands(settings, held)), None)
            }
            Ok(Command::InitDb(name)) => {
                let status = status_of(settings.autocommit, &state.tx);
                let chosen = put_selected(
                    self.engine.schema(),
                    settings,
                    held,
                    name,
                    number,
                    status,
                    &mut state.reply,
                );
                (chosen, None)
            }
            Ok(Command::Query(text)) => {
                let (then, rows) = self.put_text(
                    pass,
                    state,
                    settings,
                    text,
                    number,
                    RowForm::Text,
                );
                (ConnectionState::At(Phase::Commands(then, held)), rows)
            }
            Ok(Command::Statistics) => {
                put_line(number, &mut state.reply);
                (ConnectionState::At(Phase::Commands(settings, held)), None)
            }
            Ok(Command::MultiStatements(several)) => {
                let end = set_end_of(settings.capabilities);
                let status = status_of(settings.autocommit, &state.tx);
                put_option(several, end, number, status, &mut state.reply);
                (ConnectionState::At(Phase::Commands(settings, held)), None)
            }
            Ok(Command::Reset) => {
                drop(held);
                state.tx = Tx::new();
                put_pong(number, status_flags(true, false), &mut state.reply);
                let first = Settings::at_first(settings.capabilities, settings.keyspace);
                (
                    ConnectionState::At(Phase::Commands(first, Held::new(self.alloc))),
                    None,
                )
            }
            Ok(Command::Prepare(text)) => {
                let end = set_end_of(settings.capabilities);
                let status = status_of(settings.autocommit, &state.tx);
                let (held, rows) = put_prepare(
                    self.alloc,
                    self.engine.schema(),
                    end,
                    held,
                    text,
                    number,
                    status,
                    &mut state.reply,
                );
                (ConnectionState::At(Phase::Commands(settings, held)), rows)
            }
            Ok(Command::Execute(execution)) => {
                self.put_execute(pass, state, settings, held, execution, number)
            }
            Ok(Command::LongData(data)) => {
                let held = with_long(self.alloc, held, data);
                (ConnectionState::At(Phase::Commands(settings, held)), None)
            }
            Ok(Command::Close(closing)) => {
                let held = closed(held, closing);
                (ConnectionState::At(Phase::Commands(settings, held)), None)
            }
            Ok(Command::ResetStatement(resetting)) => {
                let status = status_of(settings.autocommit, &state.tx);
                let held = put_statement_reset(held, resetting, number, status, &mut state.reply);
                (ConnectionState::At(Phase::Commands(settings, held)), None)
            }
            Ok(Command::Fetch) => {
                put_refusal(number, Refusal::NotSupported, &mut state.reply);
                (ConnectionState::At(Phase::Commands(settings, held)), None)
            }
        }
    }

    /// What is written for one payload in the phase, and the session's state after it. A reply lies in the buffer, and what comes before that of a
    /// long one in chunks.
    pub fn put_reply(
        &self,
        pass: &mut ShardPass<W, J>,
        state: &mut ReplyState<W, J>,
        phase: Phase,
        payload: &Payload,
    ) -> (ConnectionState, Option<Chunks>)
        requires empty { state.old.reply.items ≡ [] }
        requires room { REPLY_ROOM ≤ state.old.reply.spare }
        requires session { IsSome pass.old.session }
        requires tx { IsOf W.opening state.old.tx pass.old }
        ensures answers { LeadsKept W.opening pass.old state.old.tx pass.new state.new.tx
            (λ s now. AnswersPayload (context_of W.opening self.now.handshake.now) (Means W.opening W.limits) phase s payload.now (reply_bytes result.1 state.new.reply.items) result.0 now) }
        ensures tx { IsOf W.opening state.new.tx pass.new }
        ensures room { REPLY_ROOM ≤ length state.new.reply.items + state.new.reply.spare }
        ensures session { pass.new.session ≡ pass.old.session }
    {
        if payload.first != first_number(&phase) {
            put_refusal(
                payload.first.wrapping_add(1),
                Refusal::PacketsOutOfOrder,
                &mut state.reply,
            );
            return (ConnectionState::Ended(End::Broken), None);
        }
        match phase {
            Phase::Response => (
                put_response(
                    self.alloc,
                    self.handshake,
                    self.engine.schema(),
                    payload,
                    status_of(true, &state.tx),
                    &mut state.reply,
                ),
                None,
            ),
            Phase::Switch(login) => (
                put_answer(
                    self.alloc,
                    self.handshake,
                    login,
                    payload,
                    status_of(true, &state.tx),
                    &mut state.reply,
                ),
                None,
            ),
            Phase::Commands(settings, held) => {
                let bytes = payload.bytes.as_slice();
                self.put_command(pass, state, settings, held, payload.last, bytes)
            }
        }
    }
}
