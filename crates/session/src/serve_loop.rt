//! The loop of a connection: reads pieces from a source, feeds them to a core, and stops at its end.
ghost use Rattle.std.specs.Prelude.{◌≡◌, ℕ, ◌<◌, List, [], ◌++◌, None, Err, IsSome, IfOk, IfErr, IfSome, length, vec_len};
ghost use Rattle.std.specs.Io.{ReadsAtMost};
ghost use Rattle.std.specs.Io.KnownBytes.{Appends, Consumes, IsAtEnd, Keeps, ReadConsumes};
ghost use Rattle.shard_run.specs.Runs.{Opening};
ghost use Rattle.route_engine.specs.Limits.{Limits};
ghost use Rattle.route_engine.specs.Pendings.{IsOf};
ghost use Rattle.session.specs.Served.{HasTalkedWhole, HasTalkedAlone, HasStoppedReading, HasStoppedForMemory, HasStoppedWriting};
ghost use Rattle.session.specs.conversation.Devices.{read_failures_after, write_failures_after};
ghost use Rattle.session.specs.conversation.Faults.{HasBrokenOff};
ghost use Rattle.session.specs.conversation.Means.{IsKept, Means, PassAndTransaction, none_open, context_of};
ghost use Rattle.session.specs.conversation.Sessions.{HasTalked, HasTalkedOn, IsStateAfter};
ghost use Rattle.session.specs.conversation.ConnectionStates.{end_of};
ghost use Rattle.session.specs.conversation.Talk.{IsByInput};

use crate::conversation::{Access, ConnectionState, End, SessionFault, Sink, Source, is_new};
use crate::session_core::{COMMAND_LIMIT, Core, begins_with};
use journal::Naming;
use route_engine::{Engine, Gate, ShardPass, World};
use std::alloc::Global;
use std::sync::Wait;
use std::thread::Threads;

/// How many bytes are asked of a source at once.
const PIECE: usize = 1 << 16;

/// What runs a connection's statements: the runtime, the memory and the engine.
#[derive(Drop)]
struct Runner<'c, W: World, J: Naming, G: Gate, T> {
    rt: &'c T,
    alloc: Global,
    engine: &'c Engine<W, J, G>,
}

/// A buffer for the pieces of the input. Refuses only if there is no memory.
fn piece_buffer(alloc: Global) -> Result<Vec<u8>, SessionFault>
    ensures room { IfOk result (λ bytes. 0 < vec_len bytes) }
    ensures err { IfErr result (λ e. e ≡ SessionFault.Memory) }
{
    match vec![in alloc; 0u8; PIECE] {
        Ok(bytes) => Ok(bytes),
        Err(_) => Err(SessionFault::Memory),
    }
}

/// Reads the next piece of the input to the front of the buffer.
fn read_piece<R: Source>(source: &mut R, buffer: &mut [u8]) -> Result<usize, SessionFault>
    ensures bytes { ReadConsumes (R.unread source.old) (R.unread source.new) result buffer.new }
    ensures bound { ReadsAtMost result buffer.new }
    ensures count { R.failures source.new ≡ read_failures_after result (R.failures source.old) }
    ensures cause { IfErr result (λ e. e ≡ SessionFault.Read) }
{
    match source.read(buffer) {
        Ok(n) => Ok(n),
        Err(_) => Err(SessionFault::Read),
    }
}

impl<W: World + Send + Sync, J: Naming + Send + Sync, G: Gate, T: Threads + Wait + Sync> Runner<
    '_,
    W,
    J,
    G,
    T,
> {
    /// Reads one piece of the input, and answers the payloads that it completes, or ends the session with the input. A session that is new
    /// greets its client before.
    fn serve_piece<R: Source, S: Sink>(
        &self,
        pass: &mut ShardPass<W, J>,
        core: &mut Core<W, J>,
        buffer: &mut [u8],
        source: &mut R,
        sink: &mut S,
    ) -> Result<Option<End>, SessionFault>
        requires room { 0 < length buffer.old }
        requires open_session { end_of core.old.connection_state ≡ None }
        requires session { IsSome pass.old.session }
        requires tx { IsOf W.opening core.old.tx pass.old }
        ensures talk { IfOk result (λ end. (begin : ConnectionState) (first s : PassAndTransaction) (bytes out : List ℕ) → IsKept W.opening pass.old core.old.tx s
            → HasTalked (context_of W.opening core.old.handshake) (Means W.opening W.limits) begin core.old first bytes out s →
            (read : List ℕ) × (written : List ℕ)
            × Consumes (R.unread source.old) (R.unread source.new) read × Appends (S.taken sink.old) (S.taken sink.new) written
            × ((now : PassAndTransaction) × IsKept W.opening pass.new core.new.tx now
            × HasTalkedOn (context_of W.opening core.old.handshake) (Means W.opening W.limits) begin core.new first (bytes ++ read) (out ++ written) end now)) }
        ensures at_end { IfOk result (λ end. IfSome end (λ e. IsByInput e → IsAtEnd (R.unread source.new))) }
        ensures read { result ≡ Err SessionFault.Read → Keeps (R.unread source.old) (R.unread source.new) × (sink.new ≡ sink.old) × (pass.new ≡ pass.old)
            × (core.new.tx ≡ core.old.tx) }
        ensures memory { result ≡ Err SessionFault.Memory → ((piece : List ℕ) × Consumes (R.unread source.old) (R.unread source.new) piece)
            × (sink.new ≡ sink.old) × (pass.new ≡ pass.old) × (core.new.tx ≡ core.old.tx) }
        ensures write { result ≡ Err SessionFault.Write → (begin : ConnectionState) (first s : PassAndTransaction) (bytes out : List ℕ) → IsKept W.opening pass.old core.old.tx s
            → HasTalked (context_of W.opening core.old.handshake) (Means W.opening W.limits) begin core.old first bytes out s →
            (read : List ℕ) × (written : List ℕ)
            × Consumes (R.unread source.old) (R.unread source.new) read × Appends (S.taken sink.old) (S.taken sink.new) written
            × ((now : PassAndTransaction) × IsKept W.opening pass.new core.new.tx now
            × HasBrokenOff core.old.framing.limit (context_of W.opening core.old.handshake) (Means W.opening W.limits) begin first (bytes ++ read) (out ++ written) now) }
        ensures tx { IsOf W.opening core.new.tx pass.new }
        ensures source_count { R.failures source.new ≡ read_failures_after result (R.failures source.old) }
        ensures sink_count { S.failures sink.new ≡ write_failures_after result (S.failures sink.old) }
        ensures next { IsStateAfter core.old core.new }
        ensures session { pass.new.session ≡ pass.old.session }
    {
        if is_new(core.connection_state()) {
            return core.feed(self.rt, self.alloc, self.engine, pass, &[], sink);
        }
        let n = read_piece(source, buffer)?;
        if n == 0 {
            return Ok(Some(core.end_of_input()));
        }
        core.feed(self.rt, self.alloc, self.engine, pass, &buffer[..n], sink)
    }

    /// Serves the connection of a session that is new, until it ends.
    fn serve_on<R: Source, S: Sink>(
        &self,
        pass: &mut ShardPass<W, J>,
        core: &mut Core<W, J>,
        buffer: &mut [u8],
        source: &mut R,
        sink: &mut S,
    ) -> Result<End, SessionFault>
        requires session { IsSome pass.old.session }
        requires room { 0 < length buffer.old }
        requires limit { core.old.framing.limit ≡ COMMAND_LIMIT }
        requires open_session { end_of core.old.connection_state ≡ None }
        requires none_open { core.old.tx ≡ None }
        requires begins { (o : Opening) (l : Limits) (s : PassAndTransaction) → HasTalked (context_of o core.old.handshake) (Means o l) ConnectionState.New core.old s [] [] s }
        ensures talk { HasTalkedWhole W.opening W.limits core.old.handshake pass.old pass.new (R.unread source.old) (R.unread source.new) (S.taken sink.old) (S.taken sink.new) result }
        ensures alone { HasTalkedAlone W.opening W.limits core.old.handshake pass.old pass.new (R.unread source.old) (R.unread source.new) (S.taken sink.old) (S.taken sink.new) result }
        ensures at_end { IfOk result (λ end. IsByInput end → IsAtEnd (R.unread source.new)) }
        ensures read { HasStoppedReading W.opening W.limits core.old.handshake pass.old pass.new (R.unread source.old) (R.unread source.new) (S.taken sink.old) (S.taken sink.new) result }
        ensures memory { HasStoppedForMemory W.opening W.limits core.old.handshake pass.old pass.new (R.unread source.old) (R.unread source.new) (S.taken sink.old) (S.taken sink.new) result }
        ensures write { HasStoppedWriting W.opening W.limits core.old.handshake pass.old pass.new (R.unread source.old) (R.unread source.new) (S.taken sink.old) (S.taken sink.new) result }
        ensures source_count { R.failures source.new ≡ read_failures_after result (R.failures source.old) }
        ensures sink_count { S.failures sink.new ≡ write_failures_after result (S.failures sink.old) }
        ensures session { pass.new.session ≡ pass.old.session }
    {
        begins_with(self.engine, pass);
        for _ in self.rt.forever() {
            match self.serve_piece(pass, core, buffer, source, sink) {
                Ok(None) => {}
                Ok(Some(end)) => return Ok(end),
                Err(fault) => return Err(fault),
            }
        }
        unreachable!()
    }
}

/// A session that is new. Refuses only if there is no memory.
fn begin<W: World, J: Naming>(
    alloc: Global,
    access: &Access,
    salt: &[u8; 20],
    id: u32,
) -> Result<Core<W, J>, SessionFault>
    ensures begins { IfOk result (λ core. (o : Opening) (l : Limits) (s : PassAndTransaction)
        → HasTalked (context_of o core.handshake) (Means o l) ConnectionState.New core s [] [] s) }
    ensures handshake { IfOk result (λ core. core.handshake ≡ record { access = access.now; salt = salt.now; id = id }) }
    ensures connection_state { IfOk result (λ core. core.connection_state ≡ ConnectionState.New) }
    ensures limit { IfOk result (λ core. core.framing.limit ≡ COMMAND_LIMIT) }
    ensures none_open { IfOk result (λ core. core.tx ≡ None) }
    ensures err { IfErr result (λ e. e ≡ SessionFault.Memory) }
{
    match Core::new(alloc, access, salt, id) {
        Ok(core) => Ok(core),
        Err(_) => Err(SessionFault::Memory),
    }
}

// Promise: The bytes that a connection's sink takes are the conversation over the bytes that its source gave, and the session ends as it
// says
// Clauses: talk, at_end, session
// Headline.
// Promise: With no other session's commit between (shards may copy, follow and be replaced), the bytes are a conversation with one
// database that knows no shards: each query's rows are an answer over what the commands before it left, each write makes and counts its
// changes of that, and a refusal leaves it; in a transaction each statement gives what it means after those before it, which COMMIT does
// all at once, and nothing else does
// With: Conversation::{turn, finish}, Core::feed
// Clauses: alone
/// Serves one connection, the one with this id, until it ends: greets its client by the salt, lets in whom `access` names, reads commands
/// from the source, and writes their replies to the sink.
/// The clauses tell what became of the pass and of both devices, which are lent one by one.
pub fn serve<W: World + Send + Sync, J: Naming + Send + Sync, G: Gate, R: Source, S: Sink>(
    rt: &(impl Threads + Wait + Sync),
    alloc: Global,
    engine: &Engine<W, J, G>,
    pass: &mut ShardPass<W, J>,
    access: &Access,
    salt: &[u8; 20],
    id: u32,
    source: &mut R,
    sink: &mut S,
) -> Result<End, SessionFault>
    requires session { IsSome pass.old.session }
    ensures talk { HasTalkedWhole W.opening W.limits (record { access = access.now; salt = salt.now; id = id }) pass.old pass.new (R.unread source.old) (R.unread source.new) (S.taken sink.old) (S.taken sink.new) result }
    ensures alone { HasTalkedAlone W.opening W.limits (record { access = access.now; salt = salt.now; id = id }) pass.old pass.new (R.unread source.old) (R.unread source.new) (S.taken sink.old) (S.taken sink.new) result }
    // It ends before the end of the input only by a command or a fault.
    ensures at_end { IfOk result (λ end. IsByInput end → IsAtEnd (R.unread source.new)) }
    ensures read { HasStoppedReading W.opening W.limits (record { access = access.now; salt = salt.now; id = id }) pass.old pass.new (R.unread source.old) (R.unread source.new) (S.taken sink.old) (S.taken sink.new) result }
    ensures memory { HasStoppedForMemory W.opening W.limits (record { access = access.now; salt = salt.now; id = id }) pass.old pass.new (R.unread source.old) (R.unread source.new) (S.taken sink.old) (S.taken sink.new) result }
    ensures write { HasStoppedWriting W.opening W.limits (record { access = access.now; salt = salt.now; id = id }) pass.old pass.new (R.unread source.old) (R.unread source.new) (S.taken sink.old) (S.taken sink.new) result }
    // That a device failed is returned exactly when it did, in this call.
    ensures source_count { R.failures source.new ≡ read_failures_after result (R.failures source.old) }
    ensures sink_count { S.failures sink.new ≡ write_failures_after result (S.failures sink.old) }
    // Whatever happened, the pass is still its session's.
    ensures session { pass.new.session ≡ pass.old.session }
{
    let mut buffer = piece_buffer(alloc)?;
    let mut core = begin(alloc, access, salt, id)?;
    let runner = Runner { rt, alloc, engine };
    runner.serve_on(pass, &mut core, &mut buffer, source, sink)
}
