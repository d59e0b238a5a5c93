//! Writes what a piece of the input is answered: the greeting, a reply for each payload, and the refusal of a fault.
ghost use Rattle.std.specs.Prelude.{◌≡◌, ◌+◌, ◌≤◌, ℕ, List, [], ◌++◌, None, length, IsSome, IfOk, OnOk, OnErr};
ghost use Rattle.std.specs.Io.KnownBytes.{Appends};
ghost use Rattle.std.specs.List.{concat};
ghost use mathlib.Core.List.{IsPrefix};
ghost use Rattle.mysql_packet.specs.declared.framer.Payload.{Payload};
ghost use Rattle.mysql_packet.specs.Frames.{frame};
ghost use Rattle.mysql_handshake.specs.Handshakes.{greeting_payload};
ghost use Rattle.session.specs.declared.conversation.connection_state.Phase.{Phase};
ghost use Rattle.session.specs.declared.conversation.connection_state.ConnectionState.{ConnectionState};
ghost use Rattle.session.specs.conversation.Devices.{AppendsFront, failures_after};
ghost use Rattle.session.specs.conversation.Faults.{IsCutOff};
ghost use Rattle.route_engine.specs.Pendings.{IsOf};
ghost use Rattle.session.specs.conversation.Means.{Means, context_of};
ghost use Rattle.session.specs.conversation.inner.Means.{LeadsKept};
ghost use Rattle.session.specs.conversation.Packets.{refusal_bytes};
ghost use Rattle.session.specs.conversation.ConnectionStates.{end_of};
ghost use Rattle.session.specs.conversation.Talk.{AnswersPayload, Greets, Replies};
ghost use Rattle.session.specs.conversation.Sessions.{AnswersFed};
ghost use Rattle.session.specs.conversation.inner.Replies.{reply_bytes};
ghost use Rattle.session.specs.conversation.inner.Sessions.{one_command};

use crate::conversation::access::Handshake;
use crate::conversation::connection_state::{ConnectionState, Phase, Settings};
use crate::conversation::devices::{DeviceFailed, Sink};
use crate::conversation::end::End;
use crate::conversation::reply::{REPLY_ROOM, put_refusal};
use crate::conversation::responder::{ReplyState, Responder};
use bytes::BytesMut;
use journal::Naming;
use mysql_handshake::put_greeting;
use mysql_packet::{Fed, HeaderFault, Payload};
use prepared_statements::Held;
use resultset::Chunks;
use route_engine::{Gate, ShardPass, World};
use std::sync::Wait;
use std::thread::Threads;
use vt_value::Items;

/// Writes the chunks, one after another.
fn write_chunks<S: Sink>(chunks: &[Items<u8>], sink: &mut S) -> Result<(), DeviceFailed>
    ensures bytes { OnOk result (Appends (S.taken sink.old) (S.taken sink.new) (concat chunks.now)) }
    ensures front { OnErr result (AppendsFront (S.taken sink.old) (S.taken sink.new) (concat chunks.now)) }
    ensures count { S.failures sink.new ≡ failures_after result (S.failures sink.old) }
{
    for chunk in chunks {
        sink.write(chunk.as_slice())?;
    }
    Ok(())
}

/// Writes the chunks, and the bytes after them.
fn write_long<S: Sink>(chunks: &[Items<u8>], rest: &[u8], sink: &mut S) -> Result<(), DeviceFailed>
    ensures bytes { OnOk result (Appends (S.taken sink.old) (S.taken sink.new) (concat chunks.now ++ rest.now)) }
    ensures front { OnErr result (AppendsFront (S.taken sink.old) (S.taken sink.new) (concat chunks.now ++ rest.now)) }
    ensures count { S.failures sink.new ≡ failures_after result (S.failures sink.old) }
{
    write_chunks(chunks, sink)?;
    sink.write(rest)
}

/// Writes a reply: its full chunks, if it has rows, and what lies in the buffer.
fn write_reply<S: Sink>(
    rows: Option<Chunks>,
    reply: &[u8],
    sink: &mut S,
) -> Result<(), DeviceFailed>
    ensures bytes { OnOk result (Appends (S.taken sink.old) (S.taken sink.new) (reply_bytes rows reply.now)) }
    ensures front { OnErr result (AppendsFront (S.taken sink.old) (S.taken sink.new) (reply_bytes rows reply.now)) }
    ensures count { S.failures sink.new ≡ failures_after result (S.failures sink.old) }
{
    match rows {
        None => sink.write(reply),
        Some(chunks) => write_long(chunks.as_slice(), reply, sink),
    }
}

fn put_handshake(handshake: &Handshake, reply: &mut BytesMut)
    requires empty { reply.old.items ≡ [] }
    requires room { REPLY_ROOM ≤ reply.old.spare }
    ensures bytes { reply.new.items ≡ frame 0 (greeting_payload handshake.now.id handshake.now.salt) }
    ensures room { REPLY_ROOM ≤ length reply.new.items + reply.new.spare }
{
    let _ = put_greeting(handshake.id, &handshake.salt, reply).unwrap();
}

fn answer_fault<S: Sink>(
    fault: HeaderFault,
    reply: &mut BytesMut,
    sink: &mut S,
) -> Result<(), DeviceFailed>
    requires { REPLY_ROOM ≤ length reply.old.items + reply.old.spare }
    ensures refusal { OnOk result (Appends (S.taken sink.old) (S.taken sink.new) (refusal_bytes fault.number fault.refusal)) }
    ensures cut { OnErr result (AppendsFront (S.taken sink.old) (S.taken sink.new) (refusal_bytes fault.number fault.refusal)) }
    ensures count { S.failures sink.new ≡ failures_after result (S.failures sink.old) }
    ensures room { REPLY_ROOM ≤ length reply.new.items + reply.new.spare }
{
    reply.clear();
    put_refusal(fault.number.wrapping_add(1), fault.refusal, reply);
    sink.write(reply.as_slice())
}

/// Writes the greeting, if the session is new, and returns what the session awaits then.
fn greet<S: Sink>(
    handshake: &Handshake,
    begin: ConnectionState,
    reply: &mut BytesMut,
    sink: &mut S,
) -> Result<Phase, DeviceFailed>
    requires room { REPLY_ROOM ≤ length reply.old.items + reply.old.spare }
    requires open_session { end_of begin ≡ None }
    ensures greets { IfOk result (λ phase. (front : List ℕ) × Appends (S.taken sink.old) (S.taken sink.new) front × Greets handshake.now begin front phase) }
    ensures cut { OnErr result ((front : List ℕ) × (phase : Phase) × AppendsFront (S.taken sink.old) (S.taken sink.new) front
        × Greets handshake.now begin front phase) }
    ensures count { S.failures sink.new ≡ failures_after result (S.failures sink.old) }
    ensures room { REPLY_ROOM ≤ length reply.new.items + reply.new.spare }
{
    match begin {
        ConnectionState::Ended(_) => unreachable!(),
        ConnectionState::At(phase) => Ok(phase),
        ConnectionState::New => {
            reply.clear();
            put_handshake(handshake, reply);
            match sink.write(reply.as_slice()) {
                Ok(()) => Ok(Phase::Response),
                Err(failed) => Err(failed),
            }
        }
    }
}

impl<W: World + Send + Sync, J: Naming + Send + Sync, G: Gate, R: Threads + Wait + Sync> Responder<
    '_,
    W,
    J,
    G,
    R,
> {
    /// Writes what is written for one payload, once it is known whole, and returns the session's state after it.
    fn answer<S: Sink>(
        &self,
        pass: &mut ShardPass<W, J>,
        state: &mut ReplyState<W, J>,
        phase: Phase,
        payload: &Payload,
        sink: &mut S,
    ) -> Result<ConnectionState, DeviceFailed>
        requires room { REPLY_ROOM ≤ length state.old.reply.items + state.old.reply.spare }
        requires session { IsSome pass.old.session }
        requires tx { IsOf W.opening state.old.tx pass.old }
        ensures answers { IfOk result (λ connection_state. (out : List ℕ) × Appends (S.taken sink.old) (S.taken sink.new) out
            × LeadsKept W.opening pass.old state.old.tx pass.new state.new.tx
            (λ s now. AnswersPayload (context_of W.opening self.now.handshake.now) (Means W.opening W.limits) phase s payload.now out connection_state now)) }
        ensures cut { OnErr result ((out : List ℕ) × (connection_state : ConnectionState) × AppendsFront (S.taken sink.old) (S.taken sink.new) out
            × LeadsKept W.opening pass.old state.old.tx pass.new state.new.tx
            (λ s now. AnswersPayload (context_of W.opening self.now.handshake.now) (Means W.opening W.limits) phase s payload.now out connection_state now)) }
        ensures count { S.failures sink.new ≡ failures_after result (S.failures sink.old) }
        ensures room { REPLY_ROOM ≤ length state.new.reply.items + state.new.reply.spare }
        ensures tx { IsOf W.opening state.new.tx pass.new }
        ensures session { pass.new.session ≡ pass.old.session }
    {
        state.reply.clear();
        let (connection_state, rows) = self.put_reply(pass, state, phase, payload);
        match write_reply(rows, state.reply.as_slice(), sink) {
            Ok(()) => Ok(connection_state),
            Err(failed) => Err(failed),
        }
    }

    /// Writes what is written for a piece that is the one packet of a command, whose bytes are given, and returns the session's state after it.
    /// It is what `answer_fed` does of such a piece, without a copy of the bytes.
    pub fn answer_command<S: Sink>(
        &self,
        pass: &mut ShardPass<W, J>,
        state: &mut ReplyState<W, J>,
        settings: Settings,
        held: Held,
        command: &[u8],
        sink: &mut S,
    ) -> Result<ConnectionState, DeviceFailed>
        requires room { REPLY_ROOM ≤ length state.old.reply.items + state.old.reply.spare }
        requires session { IsSome pass.old.session }
        requires tx { IsOf W.opening state.old.tx pass.old }
        ensures answers { IfOk result (λ connection_state. (out : List ℕ) × Appends (S.taken sink.old) (S.taken sink.new) out
            × LeadsKept W.opening pass.old state.old.tx pass.new state.new.tx
            (λ s now. AnswersFed (context_of W.opening self.now.handshake.now) (Means W.opening W.limits) (ConnectionState.At (Phase.Commands settings held)) s (one_command command.now) out connection_state now)) }
        ensures cut { OnErr result ((written : List ℕ) × Appends (S.taken sink.old) (S.taken sink.new) written
            × LeadsKept W.opening pass.old state.old.tx pass.new state.new.tx
            (λ s now. IsCutOff (context_of W.opening self.now.handshake.now) (Means W.opening W.limits) (ConnectionState.At (Phase.Commands settings held)) s (one_command command.now) written now)) }
        ensures count { S.failures sink.new ≡ failures_after result (S.failures sink.old) }
        ensures room { REPLY_ROOM ≤ length state.new.reply.items + state.new.reply.spare }
        ensures tx { IsOf W.opening state.new.tx pass.new }
        ensures session { pass.new.session ≡ pass.old.session }
    {
        state.reply.clear();
        let (then, rows) = self.put_command(pass, state, settings, held, 0, command);
        match write_reply(rows, state.reply.as_slice(), sink) {
            Ok(()) => Ok(then),
            Err(failed) => Err(failed),
        }
    }

    /// Writes what is written for the payloads from the phase on, until the session ends.
    fn answer_all<S: Sink>(
        &self,
        pass: &mut ShardPass<W, J>,
        state: &mut ReplyState<W, J>,
        begin: Phase,
        payloads: &[Payload],
        sink: &mut S,
    ) -> Result<ConnectionState, DeviceFailed>
        requires room { REPLY_ROOM ≤ length state.old.reply.items + state.old.reply.spare }
        requires session { IsSome pass.old.session }
        requires tx { IsOf W.opening state.old.tx pass.old }
        ensures replies { IfOk result (λ connection_state. (out : List ℕ) × Appends (S.taken sink.old) (S.taken sink.new) out
            × LeadsKept W.opening pass.old state.old.tx pass.new state.new.tx
            (λ s now. Replies (context_of W.opening self.now.handshake.now) (Means W.opening W.limits) begin s payloads.now out connection_state now)) }
        ensures cut { OnErr result ((done : List Payload) × (out : List ℕ) × (connection_state : ConnectionState) × IsPrefix done payloads.now
            × AppendsFront (S.taken sink.old) (S.taken sink.new) out
            × LeadsKept W.opening pass.old state.old.tx pass.new state.new.tx
            (λ s now. Replies (context_of W.opening self.now.handshake.now) (Means W.opening W.limits) begin s done out connection_state now)) }
        ensures count { S.failures sink.new ≡ failures_after result (S.failures sink.old) }
        ensures room { REPLY_ROOM ≤ length state.new.reply.items + state.new.reply.spare }
        ensures tx { IsOf W.opening state.new.tx pass.new }
        ensures session { pass.new.session ≡ pass.old.session }
    {
        let mut phase = begin;
        for payload in payloads {
            match self.answer(pass, state, phase, payload, sink)? {
                ConnectionState::New => unreachable!(),
                ConnectionState::At(next) => phase = next,
                ConnectionState::Ended(end) => return Ok(ConnectionState::Ended(end)),
            }
        }
        Ok(ConnectionState::At(phase))
    }

    /// Writes what is written for the payloads that a piece gave, and the refusal of its fault after them; in a session that is new,
    /// after the greeting.
    pub fn answer_fed<S: Sink>(
        &self,
        pass: &mut ShardPass<W, J>,
        state: &mut ReplyState<W, J>,
        begin: ConnectionState,
        fed: &Fed,
        sink: &mut S,
    ) -> Result<ConnectionState, DeviceFailed>
        requires room { REPLY_ROOM ≤ length state.old.reply.items + state.old.reply.spare }
        requires session { IsSome pass.old.session }
        requires tx { IsOf W.opening state.old.tx pass.old }
        requires open_session { end_of begin ≡ None }
        ensures answers { IfOk result (λ connection_state. (out : List ℕ) × Appends (S.taken sink.old) (S.taken sink.new) out
            × LeadsKept W.opening pass.old state.old.tx pass.new state.new.tx
            (λ s now. AnswersFed (context_of W.opening self.now.handshake.now) (Means W.opening W.limits) begin s fed.now out connection_state now)) }
        ensures cut { OnErr result ((written : List ℕ) × Appends (S.taken sink.old) (S.taken sink.new) written
            × LeadsKept W.opening pass.old state.old.tx pass.new state.new.tx
            (λ s now. IsCutOff (context_of W.opening self.now.handshake.now) (Means W.opening W.limits) begin s fed.now written now)) }
        ensures count { S.failures sink.new ≡ failures_after result (S.failures sink.old) }
        ensures room { REPLY_ROOM ≤ length state.new.reply.items + state.new.reply.spare }
        ensures tx { IsOf W.opening state.new.tx pass.new }
        ensures session { pass.new.session ≡ pass.old.session }
    {
        let phase = greet(self.handshake, begin, &mut state.reply, sink)?;
        let payloads = fed.payloads.as_slice();
        match self.answer_all(pass, state, phase, payloads, sink)? {
            ConnectionState::New => unreachable!(),
            ConnectionState::Ended(end) => Ok(ConnectionState::Ended(end)),
            ConnectionState::At(next) => match fed.fault {
                None => Ok(ConnectionState::At(next)),
                Some(fault) => {
                    answer_fault(fault, &mut state.reply, sink)?;
                    Ok(ConnectionState::Ended(End::Broken))
                }
            },
        }
    }
}
