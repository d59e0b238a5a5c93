//! The reply to a statement: what its text gives its client, and the packets that carry it.
ghost use Rattle.std.specs.Prelude.{◌≡◌, ◌+◌, ◌≤◌, ◌⊎◌, [], ◌++◌, length, Some, None, is_some, IsSome, IfOk, Option};
ghost use Rattle.std.specs.List.{concat};
ghost use Rattle.route_engine.specs.Pendings.{IsOf};
ghost use Rattle.mysql_packet.specs.Frames.{frame};
ghost use Rattle.mysql_message.specs.Messages.{ok_payload, err_payload};
ghost use Rattle.resultset.specs.declared.Outcome.{Outcome};
ghost use Rattle.resultset.specs.Encoding.{encoded};
ghost use Rattle.client_statements.specs.declared.statement.ClientStatement.{ClientStatement};
ghost use Rattle.client_statements.specs.Asks.{Asks, IsSet};
ghost use Rattle.session.specs.conversation.Means.{Means, context_of};
ghost use Rattle.session.specs.conversation.inner.Means.{LeadsKept, AnswersAsked};
ghost use Rattle.session.specs.conversation.GivesText.{GivesText};
ghost use Rattle.session.specs.conversation.SessionContext.{status_flags};
ghost use Rattle.session.specs.conversation.Talk.{set_end_of};
ghost use Rattle.session.specs.conversation.inner.Replies.{reply_bytes, encoded_in, TellsOutcome};

use crate::conversation::client_reply::{ClientReply, ClientReplyKind, ShownSet};
use crate::conversation::connection_state::{ConnectionState, Phase, Settings};
use crate::conversation::local_answers::{not_run, refused, set_refusal};
use crate::conversation::responder::{ReplyState, Responder};
use bytes::BytesMut;
use journal::Naming;
use mysql_handshake::{DEPRECATE_EOF, is_set};
use mysql_message::{put_err, put_ok};
use prepared_statements::Held;
use resultset::{Chunks, SetEnd, encode_binary_rows_after, encode_rows_after};
use route_engine::{Gate, ShardPass, Tx, World};
use std::alloc::{AllocError, Global};
use std::sync::Wait;
use std::thread::Threads;
use vt_value::Refusal;

/// SERVER_STATUS_AUTOCOMMIT.
const AUTOCOMMIT: u16 = 2;

/// SERVER_STATUS_IN_TRANS.
const IN_TRANSACTION: u16 = 1;

/// The room that a reply's buffer has at least: a greeting, an OK or an ERR packet fits in it.
pub const REPLY_ROOM: usize = 84;

pub fn put_refusal(number: u8, refusal: Refusal, reply: &mut BytesMut)
    requires empty { reply.old.items ≡ [] }
    requires room { REPLY_ROOM ≤ reply.old.spare }
    ensures bytes { reply.new.items ≡ frame number (err_payload refusal) }
    ensures room { REPLY_ROOM ≤ length reply.new.items + reply.new.spare }
{
    let _ = put_err(number, refusal, reply).unwrap();
}

/// The status flags of a reply: whether a statement outside a transaction commits by itself, and whether a transaction is open.
pub(crate) fn status_flags(commits: bool, is_open: bool) -> u16
    ensures { result ≡ status_flags commits is_open }
{
    let autocommit = if commits { AUTOCOMMIT } else { 0 };
    let in_transaction = if is_open { IN_TRANSACTION } else { 0 };
    autocommit + in_transaction
}

pub(crate) fn status_of<W: World, J: Naming>(commits: bool, tx: &Tx<W, J>) -> u16
    ensures { result ≡ status_flags commits (is_some tx.now) }
{
    status_flags(commits, tx.is_open())
}

/// An OK that counts no rows.
pub fn put_pong(number: u8, status: u16, reply: &mut BytesMut)
    requires empty { reply.old.items ≡ [] }
    requires room { REPLY_ROOM ≤ reply.old.spare }
    ensures bytes { reply.new.items ≡ frame number (ok_payload 0 status) }
    ensures room { REPLY_ROOM ≤ length reply.new.items + reply.new.spare }
{
    let _ = put_ok(number, 0, status, reply).unwrap();
}

fn put_count(number: u8, count: u64, status: u16, reply: &mut BytesMut)
    requires empty { reply.old.items ≡ [] }
    requires room { REPLY_ROOM ≤ reply.old.spare }
    ensures bytes { reply.new.items ≡ frame number (ok_payload count status) }
    ensures room { REPLY_ROOM ≤ length reply.new.items + reply.new.spare }
{
    let _ = put_ok(number, count, status, reply).unwrap();
}

pub(crate) fn set_end_of(capabilities: u32) -> SetEnd
    ensures { result ≡ set_end_of capabilities }
{
    if is_set(DEPRECATE_EOF, capabilities) {
        SetEnd::OkPacket
    } else {
        SetEnd::EofPackets
    }
}

/// Puts the packets of a result set into the buffer, and gives the full chunks before them. Its rows are shown as they are encoded, and dropped
/// then. Refuses only for want of memory.
fn put_set(
    alloc: Global,
    form: RowForm,
    set: ShownSet,
    end: SetEnd,
    number: u8,
    status: u16,
    reply: &mut BytesMut,
) -> Result<Chunks, AllocError>
    requires empty { reply.old.items ≡ [] }
    requires room { REPLY_ROOM ≤ reply.old.spare }
    ensures ok { IfOk result (λ chunks. concat chunks ++ reply.new.items ≡ encoded_in form end (Outcome.Rows set.entry) number status) }
    ensures room { REPLY_ROOM ≤ length reply.new.items + reply.new.spare }
{
    let ShownSet { columns, rows } = set;
    let rows = rows.pulled(alloc)?;
    match form {
        RowForm::Text => encode_rows_after(
            alloc,
            columns.as_slice(),
            rows,
            number,
            status,
            end,
            reply,
        ),
        RowForm::Binary => encode_binary_rows_after(
            alloc,
            columns.as_slice(),
            rows,
            number,
            status,
            end,
            reply,
        ),
    }
}

/// The reply of a result set, or, if there is no memory for it, the refusal that says so.
fn put_rows(
    alloc: Global,
    form: RowForm,
    set: ShownSet,
    end: SetEnd,
    number: u8,
    status: u16,
    reply: &mut BytesMut,
) -> Option<Chunks>
    requires empty { reply.old.items ≡ [] }
    requires room { REPLY_ROOM ≤ reply.old.spare }
    ensures bytes { (reply_bytes result reply.new.items ≡ encoded_in form end (Outcome.Rows set.entry) number status)
        ⊎ (reply_bytes result reply.new.items ≡ encoded_in form end (Outcome.Refused Refusal.OutOfMemory) number status) }
    ensures room { REPLY_ROOM ≤ length reply.new.items + reply.new.spare }
{
    match put_set(alloc, form, set, end, number, status, reply) {
        Ok(chunks) => Some(chunks),
        Err(_) => {
            reply.clear();
            put_refusal(number, Refusal::OutOfMemory, reply);
            None
        }
    }
}

/// The reply to a statement, after its full chunks if it has rows. If there is no memory for them, it is the refusal that says so; a count always
/// has room.
#[inline(always)]
fn put_outcome(
    alloc: Global,
    form: RowForm,
    outcome: ClientReply,
    end: SetEnd,
    number: u8,
    status: u16,
    reply: &mut BytesMut,
) -> Option<Chunks>
    requires empty { reply.old.items ≡ [] }
    requires room { REPLY_ROOM ≤ reply.old.spare }
    ensures bytes { TellsOutcome form end outcome.entry number status (reply_bytes result reply.new.items) }
    ensures room { REPLY_ROOM ≤ length reply.new.items + reply.new.spare }
{
    match outcome.reply_kind {
        ClientReplyKind::Rows(set) => put_rows(alloc, form, set, end, number, status, reply),
        ClientReplyKind::Count(count) => {
            put_count(number, count, status, reply);
            None
        }
        ClientReplyKind::Refused(refusal) => {
            put_refusal(number, refusal, reply);
            None
        }
    }
}

/// The session goes on with these.
pub(crate) fn still(settings: Settings, held: Held) -> ConnectionState
    ensures { result ≡ ConnectionState.At (Phase.Commands settings held) }
{
    ConnectionState::At(Phase::Commands(settings, held))
}

/// How rows are spelled: as texts, or as prepared statements give them.
#[derive(Clone, Copy, Debug, PartialEq, Eq)]
pub enum RowForm {
    Text,
    Binary,
}

impl<W: World + Send + Sync, J: Naming + Send + Sync, G: Gate, R: Threads + Wait + Sync> Responder<
    '_,
    W,
    J,
    G,
    R,
> {
    /// The reply to a text that isn't run, by what it asks of the server, and what then holds for commands.
    /// Its caller has found what the text is refused for, and which number and form the reply has.
    #[inline(never)]
    fn put_asked(
        &self,
        pass: &mut ShardPass<W, J>,
        state: &mut ReplyState<W, J>,
        settings: Settings,
        text: &[u8],
        why: Refusal,
        number: u8,
        form: RowForm,
    ) -> (Settings, Option<Chunks>)
        requires empty { state.old.reply.items ≡ [] }
        requires room { REPLY_ROOM ≤ state.old.reply.spare }
        requires session { IsSome pass.old.session }
        requires tx { IsOf W.opening state.old.tx pass.old }
        ensures answers { (outcome : Outcome)
            × LeadsKept W.opening pass.old state.old.tx pass.new state.new.tx
            (λ s now. AnswersAsked (context_of W.opening self.now.handshake.now) (Means W.opening W.limits) settings s text.now (Outcome.Refused why) outcome result.0 now)
            × TellsOutcome form (set_end_of settings.capabilities) outcome number (status_flags result.0.autocommit (is_some state.new.tx)) (reply_bytes result.1 state.new.reply.items) }
        ensures tx { IsOf W.opening state.new.tx pass.new }
        ensures room { REPLY_ROOM ≤ length state.new.reply.items + state.new.reply.spare }
        ensures session { pass.new.session ≡ pass.old.session }
    {
        let (answered, then) = self.asked(pass, &mut state.tx, settings, text, why);
        let end = set_end_of(settings.capabilities);
        let status = status_of(then.autocommit, &state.tx);
        let rows = put_outcome(
            self.alloc,
            form,
            answered,
            end,
            number,
            status,
            &mut state.reply,
        );
        (then, rows)
    }

    /// The reply to a text that isn't refused before it is run, whose rows have this form, and what then holds for commands.
    fn put_run(
        &self,
        pass: &mut ShardPass<W, J>,
        state: &mut ReplyState<W, J>,
        settings: Settings,
        text: &[u8],
        number: u8,
        form: RowForm,
    ) -> (Settings, Option<Chunks>)
        requires empty { state.old.reply.items ≡ [] }
        requires room { REPLY_ROOM ≤ state.old.reply.spare }
        requires session { IsSome pass.old.session }
        requires tx { IsOf W.opening state.old.tx pass.old }
        requires held { IsSet text.now → Asks text.now ClientStatement.NotSupported → ⊥ }
        ensures gives { (outcome : Outcome)
            × LeadsKept W.opening pass.old state.old.tx pass.new state.new.tx
            (λ s now. GivesText (context_of W.opening self.now.handshake.now) (Means W.opening W.limits) settings s text.now outcome result.0 now)
            × TellsOutcome form (set_end_of settings.capabilities) outcome number (status_flags result.0.autocommit (is_some state.new.tx)) (reply_bytes result.1 state.new.reply.items) }
        ensures tx { IsOf W.opening state.new.tx pass.new }
        ensures room { REPLY_ROOM ≤ length state.new.reply.items + state.new.reply.spare }
        ensures session { pass.new.session ≡ pass.old.session }
    {
        let outcome = self.run_text(pass, &mut state.tx, settings, text);
        match not_run(&outcome) {
            None => {
                let end = set_end_of(settings.capabilities);
                let status = status_of(settings.autocommit, &state.tx);
                let rows = put_outcome(
                    self.alloc,
                    form,
                    outcome,
                    end,
                    number,
                    status,
                    &mut state.reply,
                );
                (settings, rows)
            }
            Some(why) => self.put_asked(pass, state, settings, text, why, number, form),
        }
    }

    /// The reply to a text, whose rows have this form, and what then holds for commands.
    pub(crate) fn put_text(
        &self,
        pass: &mut ShardPass<W, J>,
        state: &mut ReplyState<W, J>,
        settings: Settings,
        text: &[u8],
        number: u8,
        form: RowForm,
    ) -> (Settings, Option<Chunks>)
        requires empty { state.old.reply.items ≡ [] }
        requires room { REPLY_ROOM ≤ state.old.reply.spare }
        requires session { IsSome pass.old.session }
        requires tx { IsOf W.opening state.old.tx pass.old }
        ensures gives { (outcome : Outcome)
            × LeadsKept W.opening pass.old state.old.tx pass.new state.new.tx
            (λ s now. GivesText (context_of W.opening self.now.handshake.now) (Means W.opening W.limits) settings s text.now outcome result.0 now)
            × TellsOutcome form (set_end_of settings.capabilities) outcome number (status_flags result.0.autocommit (is_some state.new.tx)) (reply_bytes result.1 state.new.reply.items) }
        ensures tx { IsOf W.opening state.new.tx pass.new }
        ensures room { REPLY_ROOM ≤ length state.new.reply.items + state.new.reply.spare }
        ensures session { pass.new.session ≡ pass.old.session }
    {
        match set_refusal(self.alloc, text) {
            None => self.put_run(pass, state, settings, text, number, form),
            Some(why) => {
                let end = set_end_of(settings.capabilities);
                let status = status_of(settings.autocommit, &state.tx);
                let outcome = refused(why);
                let rows = put_outcome(
                    self.alloc,
                    form,
                    outcome,
                    end,
                    number,
                    status,
                    &mut state.reply,
                );
                (settings, rows)
            }
        }
    }
}
