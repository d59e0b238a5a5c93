//! A session without its devices: what it knows, and what it writes for a piece of the input. The loop above it only moves bytes.
ghost use Rattle.std.specs.Prelude.{◌≡◌, ℕ, ◌+◌, ◌≤◌, true, false, List, [], None, length, Err, IsSome, IfSome, IfErr, OnOk, OnErr, ◌⊎◌};
ghost use Rattle.std.specs.Io.KnownBytes.{Appends};
ghost use Rattle.mysql_packet.specs.declared.framer.Fed.{Fed};
ghost use Rattle.mysql_packet.specs.Frames.{packet};
ghost use Rattle.vschema.specs.WellFormed.{is_vschema};
ghost use Rattle.journal.specs.Runs.{IsLegal};
ghost use Rattle.shard_run.specs.Openings.{IsOpening};
ghost use Rattle.route_engine.specs.Entries.{MayFollow};
ghost use Rattle.session.specs.conversation.Devices.{write_failures_after};
ghost use Rattle.session.specs.conversation.Faults.{IsCutOff};
ghost use Rattle.route_engine.specs.Pendings.{IsOf};
ghost use Rattle.session.specs.conversation.Means.{Means, context_of};
ghost use Rattle.session.specs.conversation.inner.Means.{LeadsKept};
ghost use Rattle.session.specs.conversation.ConnectionStates.{end_of};
ghost use Rattle.session.specs.conversation.Sessions.{AnswersFed};
ghost use Rattle.session.specs.conversation.inner.Sessions.{FedBy, one_command};

use crate::conversation::{
    Access, ConnectionState, End, Handshake, Phase, REPLY_ROOM, ReplyState, Responder,
    SessionFault, Settings, Sink, end_of, is_in_commands, still,
};
use bytes::BytesMut;
use journal::Naming;
use mysql_packet::Framer;
use prepared_statements::Held;
use route_engine::{Engine, Gate, ShardPass, Tx, World};
use std::alloc::{AllocError, Global};
use std::marker::Model;
use std::mem;
use std::sync::Wait;
use std::thread::Threads;
use vt_value::Items;

/// The most bytes of a command's payload.
pub const COMMAND_LIMIT: usize = 1 << 20;

/// What a piece or a conversation begins with: the engine's opening is a right one, and what the pass has seen is legal.
pub fn begins_with<W: World + Send + Sync, J: Naming + Send + Sync, G: Gate>(
    engine: &Engine<W, J, G>,
    pass: &ShardPass<W, J>,
)
    ensures opens { IsOpening W.opening }
    ensures formed { is_vschema W.opening.schema ≡ true }
    ensures legal { IsLegal (MayFollow W.opening) pass.now.seen }
{
    let _ = engine.schema();
    let _ = pass.session();
}

/// The bytes after the header, if a piece is one packet of the number 0 that a command may have.
fn one_packet(piece: &[u8]) -> Option<&[u8]>
    ensures packet { IfSome result (λ bytes. piece.now ≡ packet 0 bytes.now) }
    ensures short { IfSome result (λ bytes. length bytes.now ≤ COMMAND_LIMIT) }
{
    let [low, middle, high, 0, bytes @ ..] = piece else {
        return None;
    };
    let len = bytes.len();
    if len > COMMAND_LIMIT
        || *low as usize != len % 256
        || *middle as usize != len / 256 % 256
        || *high as usize != len / 256 / 256 % 256
    {
        return None;
    }
    Some(bytes)
}

/// The bytes after the header of such a piece, if nothing came in part before it.
fn packet_between<'p>(framer: &Framer, piece: &'p [u8]) -> Option<&'p [u8]>
    ensures between { IfSome result (λ _. framer.now.rest ≡ []) }
    ensures packet { IfSome result (λ bytes. piece.now ≡ packet 0 bytes.now) }
    ensures short { IfSome result (λ bytes. length bytes.now ≤ COMMAND_LIMIT) }
{
    if framer.is_between_payloads() {
        one_packet(piece)
    } else {
        None
    }
}

/// The bytes of a command, if a piece is its one packet and nothing came in part before it: most pieces are.
fn whole_command<'p>(framer: &Framer, piece: &'p [u8]) -> Option<&'p [u8]>
    requires limit { framer.now.limit ≡ COMMAND_LIMIT }
    ensures packet { IfSome result (λ bytes. piece.now ≡ packet 0 bytes.now) }
    ensures framed { IfSome result (λ bytes. FedBy framer.now framer.now piece.now (one_command bytes.now)) }
{
    match packet_between(framer, piece) {
        Some(bytes) => Some(bytes),
        None => None,
    }
}

/// What a session keeps from one piece of its input to the next, but for what its client was greeted with.
#[derive(Drop)]
struct CoreState<W: World, J: Naming> {
    framer: Framer,
    connection_state: ConnectionState,
    replies: ReplyState<W, J>,
}

impl<W: World + Send + Sync, J: Naming + Send + Sync> CoreState<W, J> {
    /// Writes the replies to a piece of the input as its framer cuts it. Few pieces come to it, and it has large values of its own.
    #[inline(never)]
    fn feed_framed<G: Gate, R: Threads + Wait + Sync, S: Sink>(
        &mut self,
        responder: &Responder<'_, W, J, G, R>,
        pass: &mut ShardPass<W, J>,
        begin: ConnectionState,
        piece: &[u8],
        sink: &mut S,
    ) -> Result<(), SessionFault>
        requires room { REPLY_ROOM ≤ length self.old.replies.reply.items + self.old.replies.reply.spare }
        requires session { IsSome pass.old.session }
        requires tx { IsOf W.opening self.old.replies.tx pass.old }
        requires open_session { end_of begin ≡ None }
        ensures answers { OnOk result ((fed : Fed) × FedBy self.old.framer self.new.framer piece.now fed × ((out : List ℕ)
            × Appends (S.taken sink.old) (S.taken sink.new) out × LeadsKept W.opening pass.old self.old.replies.tx pass.new self.new.replies.tx
            (λ s now. AnswersFed (context_of W.opening responder.now.handshake.now) (Means W.opening W.limits) begin s fed out self.new.connection_state now))) }
        ensures write { result ≡ Err SessionFault.Write → (fed : Fed) × FedBy self.old.framer self.new.framer piece.now fed × ((written : List ℕ)
            × Appends (S.taken sink.old) (S.taken sink.new) written × LeadsKept W.opening pass.old self.old.replies.tx pass.new self.new.replies.tx
            (λ s now. IsCutOff (context_of W.opening responder.now.handshake.now) (Means W.opening W.limits) begin s fed written now)) }
        ensures memory { result ≡ Err SessionFault.Memory → (pass.new ≡ pass.old) × (self.new.replies.tx ≡ self.old.replies.tx) × (sink.new ≡ sink.old) × (self.new.framer ≡ self.old.framer) }
        ensures count { S.failures sink.new ≡ write_failures_after result (S.failures sink.old) }
        ensures limit { self.new.framer.limit ≡ self.old.framer.limit }
        ensures room { REPLY_ROOM ≤ length self.new.replies.reply.items + self.new.replies.reply.spare }
        ensures cause { IfErr result (λ e. (e ≡ SessionFault.Memory) ⊎ (e ≡ SessionFault.Write)) }
        ensures tx { IsOf W.opening self.new.replies.tx pass.new }
        ensures session { pass.new.session ≡ pass.old.session }
    {
        let Ok(fed) = self.framer.feed(piece) else {
            return Err(SessionFault::Memory);
        };
        match responder.answer_fed(pass, &mut self.replies, begin, &fed, sink) {
            Ok(connection_state) => {
                self.connection_state = connection_state;
                Ok(())
            }
            Err(_) => Err(SessionFault::Write),
        }
    }

    /// Writes the reply to a command whose one packet is a piece: most pieces are.
    fn feed_command<G: Gate, R: Threads + Wait + Sync, S: Sink>(
        &mut self,
        responder: &Responder<'_, W, J, G, R>,
        pass: &mut ShardPass<W, J>,
        settings: Settings,
        held: Held,
        command: &[u8],
        sink: &mut S,
    ) -> Result<(), SessionFault>
        requires room { REPLY_ROOM ≤ length self.old.replies.reply.items + self.old.replies.reply.spare }
        requires session { IsSome pass.old.session }
        requires tx { IsOf W.opening self.old.replies.tx pass.old }
        ensures answers { OnOk result ((out : List ℕ) × Appends (S.taken sink.old) (S.taken sink.new) out
            × LeadsKept W.opening pass.old self.old.replies.tx pass.new self.new.replies.tx
            (λ s now. AnswersFed (context_of W.opening responder.now.handshake.now) (Means W.opening W.limits) (ConnectionState.At (Phase.Commands settings held)) s (one_command command.now) out self.new.connection_state now)) }
        ensures write { OnErr result ((written : List ℕ) × Appends (S.taken sink.old) (S.taken sink.new) written
            × LeadsKept W.opening pass.old self.old.replies.tx pass.new self.new.replies.tx
            (λ s now. IsCutOff (context_of W.opening responder.now.handshake.now) (Means W.opening W.limits) (ConnectionState.At (Phase.Commands settings held)) s (one_command command.now) written now)) }
        ensures count { S.failures sink.new ≡ write_failures_after result (S.failures sink.old) }
        ensures framer { self.new.framer ≡ self.old.framer }
        ensures room { REPLY_ROOM ≤ length self.new.replies.reply.items + self.new.replies.reply.spare }
        ensures cause { IfErr result (λ e. e ≡ SessionFault.Write) }
        ensures tx { IsOf W.opening self.new.replies.tx pass.new }
        ensures session { pass.new.session ≡ pass.old.session }
    {
        match responder.answer_command(pass, &mut self.replies, settings, held, command, sink) {
            Ok(then) => {
                self.connection_state = then;
                Ok(())
            }
            Err(_) => Err(SessionFault::Write),
        }
    }

    /// Writes the replies to a piece of the input.
    fn answer_piece<G: Gate, R: Threads + Wait + Sync, S: Sink>(
        &mut self,
        responder: &Responder<'_, W, J, G, R>,
        pass: &mut ShardPass<W, J>,
        piece: &[u8],
        sink: &mut S,
    ) -> Result<(), SessionFault>
        requires limit { self.old.framer.limit ≡ COMMAND_LIMIT }
        requires room { REPLY_ROOM ≤ length self.old.replies.reply.items + self.old.replies.reply.spare }
        requires session { IsSome pass.old.session }
        requires tx { IsOf W.opening self.old.replies.tx pass.old }
        requires open_session { end_of self.old.connection_state ≡ None }
        ensures answers { OnOk result ((fed : Fed) × FedBy self.old.framer self.new.framer piece.now fed × ((out : List ℕ)
            × Appends (S.taken sink.old) (S.taken sink.new) out × LeadsKept W.opening pass.old self.old.replies.tx pass.new self.new.replies.tx
            (λ s now. AnswersFed (context_of W.opening responder.now.handshake.now) (Means W.opening W.limits) self.old.connection_state s fed out self.new.connection_state now))) }
        ensures write { result ≡ Err SessionFault.Write → (fed : Fed) × FedBy self.old.framer self.new.framer piece.now fed × ((written : List ℕ)
            × Appends (S.taken sink.old) (S.taken sink.new) written × LeadsKept W.opening pass.old self.old.replies.tx pass.new self.new.replies.tx
            (λ s now. IsCutOff (context_of W.opening responder.now.handshake.now) (Means W.opening W.limits) self.old.connection_state s fed written now)) }
        ensures memory { result ≡ Err SessionFault.Memory → (pass.new ≡ pass.old) × (self.new.replies.tx ≡ self.old.replies.tx) × (sink.new ≡ sink.old) × (self.new.framer ≡ self.old.framer) }
        ensures count { S.failures sink.new ≡ write_failures_after result (S.failures sink.old) }
        ensures limit { self.new.framer.limit ≡ self.old.framer.limit }
        ensures room { REPLY_ROOM ≤ length self.new.replies.reply.items + self.new.replies.reply.spare }
        ensures cause { IfErr result (λ e. (e ≡ SessionFault.Memory) ⊎ (e ≡ SessionFault.Write)) }
        ensures tx { IsOf W.opening self.new.replies.tx pass.new }
        ensures session { pass.new.session ≡ pass.old.session }
    {
        let begin = mem::replace(&mut self.connection_state, ConnectionState::New);
        match begin {
            ConnectionState::At(Phase::Commands(settings, held)) => {
                match whole_command(&self.framer, piece) {
                    Some(command) => {
                        self.feed_command(responder, pass, settings, held, command, sink)
                    }
                    None => self.feed_framed(responder, pass, still(settings, held), piece, sink),
                }
            }
            other => self.feed_framed(responder, pass, other, piece, sink),
        }
    }
}

/// A session, without the devices that its bytes come from and go to. Its open transaction is dropped with it, and leaves no entry. Contracts
/// see what it knows of its input, its state, and what it keeps of its transaction.
pub struct Core<W: World, J: Naming> {
    state: CoreState<W, J>,
    handshake: Handshake,
}

impl<W: World, J: Naming> Drop for Core<W, J> {
    // Who drops one calls this, and need not know what it owns.
    fn drop(self) {
        let Core { state, handshake } = self;
        drop(state);
        drop(handshake);
    }
}

impl<W: World, J: Naming> Model for Core<W, J> {
    ghost use Rattle.std.specs.Prelude.{◌≡◌, ◌+◌, ◌≤◌, length};
    ghost use Rattle.session.specs.declared.conversation.reply.TheConstants.{REPLY_ROOM};
    ghost use Rattle.session.specs.declared.session_core.TheConstants.{COMMAND_LIMIT};
    ghost use Rattle.session.specs.conversation.Sessions.{SessionState};
    ghost use Rattle.std.specs.Coded.{codes};
    ghost use Rattle.vschema.specs.contracts.changes.Write as write;

    ghost Value = { SessionState };

    ghost coded = { Prim.hlevel (codes, write.the_row.coded) };

    ghost view = { λ c. record { handshake = c.handshake; framing = c.state.framer; connection_state = c.state.connection_state; tx = c.state.replies.tx } };

    // The refusal of a payload always has room, and no command is longer than the limit.
    ghost invariant = { λ c. (REPLY_ROOM ≤ length c.state.replies.reply.items + c.state.replies.reply.spare) × (c.state.framer.limit ≡ COMMAND_LIMIT) };
}

fn end_between(is_between_payloads: bool, is_let_in: bool) -> End
    ensures between { is_between_payloads ≡ true → is_let_in ≡ true → result ≡ End.Closed }
    ensures within { is_between_payloads ≡ false → result ≡ End.Truncated }
    ensures before { is_let_in ≡ false → result ≡ End.Truncated }
{
    if is_between_payloads && is_let_in {
        End::Closed
    } else {
        End::Truncated
    }
}

impl<W: World, J: Naming> Core<W, J> {
    ghost use Rattle.std.specs.Prelude.{◌≡◌, ℕ, List, [], None, IfOk, IfErr, IfSome};
    ghost use Rattle.shard_run.specs.Runs.{Opening};
    ghost use Rattle.route_engine.specs.Limits.{Limits};
    ghost use Rattle.session.specs.conversation.Means.{Means, PassAndTransaction, context_of};
    ghost use Rattle.session.specs.conversation.ConnectionStates.{HasGreeted, end_of, settings_at_first};
    ghost use Rattle.session.specs.conversation.Talk.{Talk};
    ghost use Rattle.session.specs.conversation.Sessions.{HasTalked};
    ghost use Rattle.prepared_statements.specs.Held.{none_held};

    /// A session that is new: of the connection with this id. It greets its client by the salt, and lets in whom `access` names.
    /// Makes room for the greeting and for a refusal, and refuses only if it can't.
    pub fn new(
        alloc: Global,
        access: &Access,
        salt: &[u8; 20],
        id: u32,
    ) -> Result<Core<W, J>, AllocError>
        // Nothing has been read or written.
        ensures begins { IfOk result (λ core. (o : Opening) (l : Limits) (s : PassAndTransaction)
            → HasTalked (context_of o core.handshake) (Means o l) ConnectionState.New core s [] [] s) }
        ensures handshake { IfOk result (λ core. core.handshake ≡ record { access = access.now; salt = salt.now; id = id }) }
        ensures connection_state { IfOk result (λ core. core.connection_state ≡ ConnectionState.New) }
        ensures limit { IfOk result (λ core. core.framing.limit ≡ COMMAND_LIMIT) }
        ensures none_open { IfOk result (λ core. core.tx ≡ None) }
    {
        let reply = BytesMut::with_capacity(alloc, REPLY_ROOM)?;
        let user = Items::from_slice(alloc, access.user.as_slice())?;
        let access = Access {
            user,
            stage2: access.stage2,
        };
        Ok(Core {
            state: CoreState {
                framer: Framer::new(alloc, COMMAND_LIMIT),
                connection_state: ConnectionState::New,
                replies: ReplyState {
                    tx: Tx::new(),
                    reply,
                },
            },
            handshake: Handshake {
                access,
                salt: *salt,
                id,
            },
        })
    }

    /// A session that begins in the command phase, without a handshake: of the connection with this id, and with the
    /// capabilities that both sides set. Makes room for the refusal of a command, and refuses only if it can't.
    pub fn commands(alloc: Global, id: u32, capabilities: u32) -> Result<Core<W, J>, AllocError>
        // Nothing has been read or written.
        ensures begins { IfOk result (λ core. (o : Opening) (l : Limits) (s : PassAndTransaction)
            → HasTalked (context_of o core.handshake) (Means o l) (ConnectionState.At (Phase.Commands (settings_at_first capabilities None) none_held)) core s [] [] s) }
        ensures connection_state { IfOk result (λ core. core.connection_state ≡ ConnectionState.At (Phase.Commands (settings_at_first capabilities None) none_held)) }
        ensures limit { IfOk result (λ core. core.framing.limit ≡ COMMAND_LIMIT) }
        ensures none_open { IfOk result (λ core. core.tx ≡ None) }
        ensures id { IfOk result (λ core. core.handshake.id ≡ id) }
    {
        let reply = BytesMut::with_capacity(alloc, REPLY_ROOM)?;
        let settings = Settings::at_first(capabilities, None);
        let held = Held::new(alloc);
        Ok(Core {
            state: CoreState {
                framer: Framer::new(alloc, COMMAND_LIMIT),
                connection_state: ConnectionState::At(Phase::Commands(settings, held)),
                replies: ReplyState {
                    tx: Tx::new(),
                    reply,
                },
            },
            handshake: Handshake {
                access: Access {
                    user: Items::new(alloc),
                    stage2: None,
                },
                salt: [0; 20],
                id,
            },
        })
    }

    /// The id of the connection.
    pub fn id(&self) -> u32
        ensures { result ≡ self.now.handshake.id }
    {
        self.handshake.id
    }

    /// The session's state.
    pub fn connection_state(&self) -> &ConnectionState
        ensures { result.now ≡ self.now.connection_state }
    {
        &self.state.connection_state
    }

    /// How the session ends if its input ends here, unless it has ended before: closed between two payloads, once the client was let in;
    /// else truncated.
    pub fn end_of_input(&self) -> End
        ensures ended { IfSome (end_of self.now.connection_state) (λ end. result ≡ end) }
        // The conversation is then whole, if the client has been greeted.
        ensures whole { HasGreeted self.now.connection_state → (o : Opening) (l : Limits) (begin : ConnectionState) (first now : PassAndTransaction) (bytes out : List ℕ)
            → HasTalked (context_of o self.now.handshake) (Means o l) begin self.now first bytes out now
            → Talk self.now.framing.limit (context_of o self.now.handshake) (Means o l) begin first bytes out result now }
    {
        match end_of(&self.state.connection_state) {
            Some(end) => end,
            None => {
                let is_let_in = is_in_commands(&self.state.connection_state);
                end_between(self.state.framer.is_between_payloads(), is_let_in)
            }
        }
    }
}

impl<W: World + Send + Sync, J: Naming + Send + Sync> Core<W, J> {
    ghost use Rattle.std.specs.Prelude.{◌≡◌, ℕ, List, ◌++◌, None, Some, Ok, Err, IsSome, IfOk, IfErr, IfSome, OnErr, ◌⊎◌};
    ghost use Rattle.std.specs.Io.KnownBytes.{Appends};
    ghost use Rattle.route_engine.specs.Alone.{NoOthers};
    ghost use Rattle.route_engine.specs.Pendings.{IsOf};
    ghost use Rattle.session.specs.Alone.{Alone, MeansAlone, alone_context};
    ghost use Rattle.session.specs.conversation.Devices.{write_failures_after};
    ghost use Rattle.session.specs.conversation.Faults.{HasBrokenOff};
    ghost use Rattle.session.specs.conversation.Means.{IsKept, Means, PassAndTransaction, context_of};
    ghost use Rattle.session.specs.conversation.ConnectionStates.{HasGreeted, end_of};
    ghost use Rattle.session.specs.conversation.Talk.{IsByCommand};
    ghost use Rattle.session.specs.conversation.Sessions.{HasTalked, HasTalkedOn, IsStateAfter};

    // Promise: However a client's bytes are cut, exactly the conversation over them is written, from the greeting on: a client is let in by
    // its user and its answer to the salt, and then by its database, or refused for the cause; each statement has an outcome that its text may have,
    // in the session's open transaction if one is, each from what the session had seen to what it then has seen; a reply's status says
    // whether autocommit is on and a transaction is open then; with autocommit off a statement over rows gives, if none is open, what it
    // gives after BEGIN, and turning it on commits an open one as COMMIT does, or is refused as that is and leaves it off; a text that isn't
    // run, and asks something of a server, is answered that by the VSchema and by what the session knows of itself; a client may name each
    // keyspace, and one that begins anew has no transaction and autocommit on, and keeps its keyspace; result sets end as the client's
    // capabilities ask; the reply to a write always has room
    // With: Core::{new, commands, connection_state, end_of_input}
    // Clauses: begins, handshake, connection_state, limit, none_open, talk, tx, begun, ended, by_command, fault, cause, again, next, session,
    // whole, id
    // Headline.
    // Promise: After a fault: without memory for a piece, it counts as not fed, and pass and sink are as before it; if the sink failed,
    // the first of the payloads are answered, each once, and the sink took a prefix of the replies; if the source failed, each payload that
    // was read whole is answered, and nothing else was written. A device's failure is returned exactly when it failed in the call
    // With: serve
    // Clauses: memory, write, count, fault, read, source_count, sink_count
    /// Takes the next piece of the input, and writes the replies to the payloads that it completes, each once it is known
    /// whole; the first piece, also an empty one, writes the greeting of a session that is new. `None` says that the session goes on. A session that has ended takes nothing and writes nothing, and tells
    /// again how it ended: after a fault as `End::Broken`.
    /// The clauses tell what became of the pass, the transaction and the bytes, which are lent one by one.
    pub fn feed<G: Gate, S: Sink>(
        &mut self,
        rt: &(impl Threads + Wait + Sync),
        alloc: Global,
        engine: &Engine<W, J, G>,
        pass: &mut ShardPass<W, J>,
        piece: &[u8],
        sink: &mut S,
    ) -> Result<Option<End>, SessionFault>
        requires session { IsSome pass.old.session }
        requires tx { IsOf W.opening self.old.tx pass.old }
        // However the input was cut before: of the bytes so far exactly the conversation over them has been written, if each
        // query has an outcome that its text may have over what the run leaves at a look of the pass, each after the one before,
        // and in the open transaction, if one is. That is kept from piece to piece.
        ensures talk { IfOk result (λ end. (begin : ConnectionState) (first s : PassAndTransaction) (bytes out : List ℕ) → IsKept W.opening pass.old self.old.tx s
            → HasTalked (context_of W.opening self.old.handshake) (Means W.opening W.limits) begin self.old first bytes out s →
            (written : List ℕ) × Appends (S.taken sink.old) (S.taken sink.new) written × ((now : PassAndTransaction) × IsKept W.opening pass.new self.new.tx now
            × HasTalkedOn (context_of W.opening self.old.handshake) (Means W.opening W.limits) begin self.new first (bytes ++ piece.now) (out ++ written) end now)) }
        // If no other session comes between, a conversation over one database goes on over it.
        ensures alone { IfOk result (λ end. (begin : ConnectionState) (first s : Alone W.opening) (bytes out : List ℕ) → IsKept W.opening pass.old self.old.tx s.kept
            → HasTalked (alone_context W.opening self.old.handshake) (MeansAlone W.opening W.limits) begin self.old first bytes out s →
            NoOthers pass.old pass.new → (written : List ℕ) × Appends (S.taken sink.old) (S.taken sink.new) written
            × ((now : Alone W.opening) × IsKept W.opening pass.new self.new.tx now.kept
            × HasTalkedOn (alone_context W.opening self.old.handshake) (MeansAlone W.opening W.limits) begin self.new first (bytes ++ piece.now) (out ++ written) end now)) }
        ensures tx { IsOf W.opening self.new.tx pass.new }
        ensures ended { IfOk result (λ end. end_of self.new.connection_state ≡ end) }
        // The client has been greeted, also by an empty piece.
        ensures begun { IfOk result (λ end. HasGreeted self.new.connection_state) }
        // A piece ends no session as the end of the input does.
        ensures by_command { end_of self.old.connection_state ≡ None → IfOk result (λ end. IfSome end IsByCommand) }
        ensures fault { OnErr result (self.new.connection_state ≡ ConnectionState.Ended End.Broken) }
        ensures cause { IfErr result (λ e. (e ≡ SessionFault.Memory) ⊎ (e ≡ SessionFault.Write)) }
        // A piece for which there is no memory counts as not fed.
        ensures memory { result ≡ Err SessionFault.Memory → (pass.new ≡ pass.old) × (self.new.tx ≡ self.old.tx) × (sink.new ≡ sink.old) × (self.new.framing ≡ self.old.framing) }
        // If the sink failed, a front of the payloads is answered, each once, and the sink took a front of the replies.
        ensures write { result ≡ Err SessionFault.Write → (begin : ConnectionState) (first s : PassAndTransaction) (bytes out : List ℕ) → IsKept W.opening pass.old self.old.tx s
            → HasTalked (context_of W.opening self.old.handshake) (Means W.opening W.limits) begin self.old first bytes out s →
            (written : List ℕ) × Appends (S.taken sink.old) (S.taken sink.new) written × ((now : PassAndTransaction) × IsKept W.opening pass.new self.new.tx now
            × HasBrokenOff self.old.framing.limit (context_of W.opening self.old.handshake) (Means W.opening W.limits) begin first (bytes ++ piece.now) (out ++ written) now) }
        // That the sink failed is returned exactly when it did, in this call.
        ensures count { S.failures sink.new ≡ write_failures_after result (S.failures sink.old) }
        ensures again { IfSome (end_of self.old.connection_state) (λ end. (result ≡ Ok (Some end)) × (self.new ≡ self.old) × (sink.new ≡ sink.old) × (pass.new ≡ pass.old)) }
        ensures next { IsStateAfter self.old self.new }
        ensures session { pass.new.session ≡ pass.old.session }
    {
        if let Some(end) = end_of(&self.state.connection_state) {
            return Ok(Some(end));
        }
        begins_with(engine, pass);
        let responder = Responder {
            rt,
            alloc,
            engine,
            handshake: &self.handshake,
        };
        match self.state.answer_piece(&responder, pass, piece, sink) {
            Ok(()) => Ok(end_of(&self.state.connection_state)),
            Err(fault) => {
                self.state.connection_state = ConnectionState::Ended(End::Broken);
                Err(fault)
            }
        }
    }
}
