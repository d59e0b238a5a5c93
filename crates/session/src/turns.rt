//! A connection between two of its statements, as a value: it has no thread, and any worker takes its next turn.
ghost use Rattle.journal.specs.Runs.{IsLegal};
ghost use Rattle.route_engine.specs.Entries.{MayFollow};

use crate::conversation::{
    Access, ConnectionState, Device, End, Fetched, SessionFault, Turned, Unsent, drop_first, fetch,
    first_bytes, front_len, is_new, send,
};
use crate::session_core::{COMMAND_LIMIT, Core, begins_with};
use journal::Naming;
use route_engine::{Engine, Gate, ShardPass, World};
use std::alloc::Global;
use std::marker::Model;
use std::snapshot::Snapshot;
use std::sync::Wait;
use std::thread::Threads;

/// What a pass has seen is legal.
fn meet<W: World + Send + Sync, J: Naming + Send + Sync>(pass: &ShardPass<W, J>)
    ensures { IsLegal (MayFollow W.opening) pass.now.seen }
{
    let _ = pass.session();
}

/// A connection between two of its statements: its session with the pass, its device, what was read and isn't fed to the session, and what it
/// wrote and the device hasn't taken. Contracts see also what pass and device were when it began.
pub struct Conversation<W: World, J: Naming, D: Device> {
    core: Core<W, J>,
    pass: ShardPass<W, J>,
    device: D,
    unsent: Unsent,
    unfed: Vec<u8>,
    ended: Option<Result<End, SessionFault>>,
    pass_then: Snapshot<ShardPass<W, J>>,
    device_then: Snapshot<D>,
}

impl<W: World, J: Naming, D: Device + Drop> Drop for Conversation<W, J, D> {
    // Who drops one calls this, and need not know what it owns.
    fn drop(self) {
        let Conversation {
            core,
            pass,
            device,
            unsent,
            unfed,
            ended: _ended,
            pass_then,
            device_then,
        } = self;
        drop(core);
        drop(pass);
        drop(device);
        drop(unsent);
        drop(unfed);
        drop(pass_then);
        drop(device_then);
    }
}

impl<W: World, J: Naming, D: Device> Model for Conversation<W, J, D> {
    ghost use Rattle.std.specs.Io.KnownBytes.{append_known, prepend_known};
    ghost use Rattle.std.specs.Coded.{codes};
    ghost use Rattle.shard_run.specs.contracts.Entry as entry;
    ghost use Rattle.session.specs.Turns.{ConversationView, IsConversation};

    ghost Value = { ConversationView D };

    ghost coded = { Prim.hlevel (codes, entry.the_row.coded) };

    ghost view = { λ c. record {
      handshake = c.core.handshake;
      pass_then = c.pass_then.value;
      pass = c.pass;
      device_then = c.device_then.value;
      device = c.device;
      connection_state = c.core.connection_state;
      unfed = c.unfed.items;
      unsent = c.unsent.bytes.items;
      ended = c.ended;
    } };

    ghost invariant = { λ c. IsConversation W.opening W.limits c.core.handshake c.pass_then.value c.pass (D.unread c.device_then.value)
        (prepend_known c.unfed.items (D.unread c.device)) (D.taken c.device_then.value) (D.taken c.device) c.unsent.bytes.items c.core c.ended };
}

impl<W: World + Send + Sync, J: Naming + Send + Sync, D: Device> Conversation<W, J, D> {
    ghost use Rattle.std.specs.Prelude.{◌≡◌, [], None, IsSome, IfOk, IfErr};
    ghost use Rattle.shard_run.specs.Runs.{Opening};
    ghost use Rattle.route_engine.specs.Limits.{Limits};
    ghost use Rattle.session.specs.conversation.Means.{Means, PassAndTransaction, context_of};
    ghost use Rattle.session.specs.conversation.Sessions.{HasTalked};

    // Promise: A conversation begins with its pass, its device and its salt, and nothing is read or written; without memory for it, pass and
    // device are given back
    /// A conversation that is new: of the connection with this id. It greets its client by the salt, and lets in whom `access` names.
    /// If there is no memory for it, pass and device are given back.
    pub fn begin(
        alloc: Global,
        access: &Access,
        salt: &[u8; 20],
        id: u32,
        pass: ShardPass<W, J>,
        device: D,
    ) -> Result<Conversation<W, J, D>, (ShardPass<W, J>, D)>
        requires session { IsSome pass.session }
        ensures handshake { IfOk result (λ c. c.handshake ≡ record { access = access.now; salt = salt.now; id = id }) }
        ensures pass { IfOk result (λ c. (c.pass_then ≡ pass) × (c.pass ≡ pass)) }
        ensures device { IfOk result (λ c. (c.device_then ≡ device) × (c.device ≡ device)) }
        ensures nothing { IfOk result (λ c. (c.unfed ≡ []) × (c.unsent ≡ []) × (c.ended ≡ None)) }
        ensures back { IfErr result (λ parts. (parts.0 ≡ pass) × (parts.1 ≡ device)) }
    {
        match Core::new(alloc, access, salt, id) {
            Ok(core) => Ok(Conversation::of(alloc, core, pass, device)),
            Err(_) => Err((pass, device)),
        }
    }

    /// A conversation of a session that is new.
    fn of(
        alloc: Global,
        core: Core<W, J>,
        pass: ShardPass<W, J>,
        device: D,
    ) -> Conversation<W, J, D>
        requires session { IsSome pass.session }
        requires begins { (o : Opening) (l : Limits) (s : PassAndTransaction) → HasTalked (context_of o core.handshake) (Means o l) ConnectionState.New core s [] [] s }
        requires limit { core.framing.limit ≡ COMMAND_LIMIT }
        requires none_open { core.tx ≡ None }
        ensures handshake { result.handshake ≡ core.handshake }
        ensures pass { (result.pass_then ≡ pass) × (result.pass ≡ pass) }
        ensures device { (result.device_then ≡ device) × (result.device ≡ device) }
        ensures nothing { (result.unfed ≡ []) × (result.unsent ≡ []) × (result.ended ≡ None) }
    {
        meet(&pass);
        let pass_then = Snapshot::of(&pass);
        let device_then = Snapshot::of(&device);
        Conversation {
            core,
            pass,
            device,
            unsent: Unsent {
                bytes: Vec::new(alloc),
                failures: 0,
            },
            unfed: Vec::new(alloc),
            ended: None,
            pass_then,
            device_then,
        }
    }
}

impl<W: World, J: Naming, D: Device> Conversation<W, J, D> {
    ghost use Rattle.std.specs.Prelude.{◌≡◌, ◌↔◌, [], false};

    /// How it ended, if it did.
    pub fn ended(&self) -> Option<Result<End, SessionFault>>
        ensures { result ≡ self.now.ended }
    {
        self.ended
    }

    /// The session's state.
    pub fn connection_state(&self) -> &ConnectionState
        ensures { result.now ≡ self.now.connection_state }
    {
        self.core.connection_state()
    }

    /// Its device.
    pub fn device(&self) -> &D
        ensures { result.now ≡ self.now.device }
    {
        &self.device
    }

    /// Whether the device hasn't taken all that was written.
    pub fn has_unsent(&self) -> bool
        ensures { result ≡ false ↔ (self.now.unsent ≡ []) }
    {
        !self.unsent.bytes.is_empty()
    }

    /// Its pass and its device. What is unfed or unsent is dropped.
    pub fn into_parts(self) -> (ShardPass<W, J>, D)
        ensures pass { result.0 ≡ self.pass }
        ensures device { result.1 ≡ self.device }
    {
        let Conversation {
            core,
            pass,
            device,
            unsent,
            unfed,
            ended: _ended,
            pass_then,
            device_then,
        } = self;
        drop(core);
        drop(unfed);
        drop(unsent);
        drop(pass_then);
        drop(device_then);
        (pass, device)
    }
}

impl<W: World + Send + Sync, J: Naming + Send + Sync, D: Device> Conversation<W, J, D> {
    ghost use Rattle.std.specs.Prelude.{◌≡◌, ◌↔◌, ◌<◌, [], false, None, Some, Ok, Err, IsTrue, IsSome, IfOk, IfSome, length};
    ghost use Rattle.std.specs.Io.KnownBytes.{IsAtEnd, prepend_known};
    ghost use Rattle.session.specs.Served.{HasTalkedWhole, HasTalkedAlone, HasStoppedReading, HasStoppedForMemory, HasStoppedWriting};
    ghost use Rattle.session.specs.Turns.{IfOver, IsSameConversation};
    ghost use Rattle.session.specs.conversation.ConnectionStates.{HasGreeted};
    ghost use Rattle.session.specs.conversation.Talk.{IsByInput};

    /// How it ended, once all that it wrote is taken.
    fn over<G: Gate>(&self, engine: &Engine<W, J, G>) -> Option<Result<End, SessionFault>>
        ensures ended { IfSome result (λ r. (self.now.ended ≡ Some r) × (self.now.unsent ≡ [])) }
        ensures talk { IfSome result (HasTalkedWhole W.opening W.limits self.now.handshake self.now.pass_then self.now.pass
            (D.unread self.now.device_then) (prepend_known self.now.unfed (D.unread self.now.device)) (D.taken self.now.device_then) (D.taken self.now.device)) }
        ensures alone { IfSome result (HasTalkedAlone W.opening W.limits self.now.handshake self.now.pass_then self.now.pass
            (D.unread self.now.device_then) (prepend_known self.now.unfed (D.unread self.now.device)) (D.taken self.now.device_then) (D.taken self.now.device)) }
        ensures at_end { IfSome result (λ r. IfOk r (λ end. IsByInput end → IsAtEnd (D.unread self.now.device))) }
        ensures read { IfSome result (HasStoppedReading W.opening W.limits self.now.handshake self.now.pass_then self.now.pass
            (D.unread self.now.device_then) (prepend_known self.now.unfed (D.unread self.now.device)) (D.taken self.now.device_then) (D.taken self.now.device)) }
        ensures memory { IfSome result (HasStoppedForMemory W.opening W.limits self.now.handshake self.now.pass_then self.now.pass
            (D.unread self.now.device_then) (prepend_known self.now.unfed (D.unread self.now.device)) (D.taken self.now.device_then) (D.taken self.now.device)) }
        ensures write { IfSome result (HasStoppedWriting W.opening W.limits self.now.handshake self.now.pass_then self.now.pass
            (D.unread self.now.device_then) (prepend_known self.now.unfed (D.unread self.now.device)) (D.taken self.now.device_then) (D.taken self.now.device)) }
        ensures again { IfSome self.now.ended (λ r. self.now.unsent ≡ [] → result ≡ Some r) }
    {
        begins_with(engine, &self.pass);
        if self.has_unsent() {
            return None;
        }
        self.ended
    }

    /// Sends what is unsent, if something is. If the device fails, that ends the conversation.
    fn send(&mut self, alloc: Global)
        ensures same { IsSameConversation self.old self.new }
    {
        if self.unsent.bytes.is_empty() {
            return;
        }
        match send(alloc, &mut self.device, &mut self.unsent.bytes) {
            Ok(()) => {}
            Err(_) => self.ended = Some(Err(SessionFault::Write)),
        }
    }

    /// Feeds the front of what is unfed: one packet, or what there is of it. The first time that greets the client.
    fn answer<G: Gate>(
        &mut self,
        rt: &(impl Threads + Wait + Sync),
        alloc: Global,
        engine: &Engine<W, J, G>,
    )
        requires open { self.old.ended ≡ None }
        requires none_unsent { self.old.unsent ≡ [] }
        ensures same { IsSameConversation self.old self.new }
    {
        let n = front_len(&self.unfed);
        let piece = first_bytes(&self.unfed, n);
        match self
            .core
            .feed(rt, alloc, engine, &mut self.pass, piece, &mut self.unsent)
        {
            Ok(None) => {
                drop_first(alloc, &mut self.unfed, n);
            }
            Ok(Some(end)) => {
                drop_first(alloc, &mut self.unfed, n);
                self.ended = Some(Ok(end));
            }
            Err(SessionFault::Memory) => {
                drop_first(alloc, &mut self.unfed, n);
                self.unsent.bytes = Vec::new(alloc);
                self.ended = Some(Err(SessionFault::Memory));
            }
            Err(SessionFault::Write) => {
                drop_first(alloc, &mut self.unfed, n);
                self.unsent.bytes = Vec::new(alloc);
                self.ended = Some(Err(SessionFault::Write));
            }
            Err(SessionFault::Read) => unreachable!(),
        }
    }

    /// Reads what comes next, or ends the conversation with its input.
    fn listen(&mut self, buffer: &mut [u8]) -> bool
        requires room { 0 < length buffer.old }
        requires open { self.old.ended ≡ None }
        requires greeted { HasGreeted self.old.connection_state }
        requires none_unfed { self.old.unfed ≡ [] }
        requires none_unsent { self.old.unsent ≡ [] }
        ensures same { IsSameConversation self.old self.new }
        ensures open { IsTrue result → (self.new.ended ≡ None) × (self.new.unsent ≡ []) }
    {
        match fetch(&mut self.device, &mut self.unfed, buffer) {
            Ok(Fetched::Nothing) => false,
            Ok(Fetched::Bytes) => true,
            Ok(Fetched::End) => {
                self.ended = Some(Ok(self.core.end_of_input()));
                false
            }
            Err(SessionFault::Memory) => {
                self.ended = Some(Err(SessionFault::Memory));
                false
            }
            Err(_) => {
                self.ended = Some(Err(SessionFault::Read));
                false
            }
        }
    }

    /// Reads what comes next, if nothing is unfed, and answers the front of that.
    fn converse<G: Gate>(
        &mut self,
        rt: &(impl Threads + Wait + Sync),
        alloc: Global,
        engine: &Engine<W, J, G>,
        buffer: &mut [u8],
    )
        requires room { 0 < length buffer.old }
        requires open { self.old.ended ≡ None }
        requires none_unsent { self.old.unsent ≡ [] }
        ensures same { IsSameConversation self.old self.new }
    {
        if is_new(self.connection_state()) || self.has_unfed() || self.listen(buffer) {
            self.answer(rt, alloc, engine);
        }
    }

    /// Whether nothing is unsent, and the conversation goes on.
    fn is_open(&self) -> bool
        ensures { IsTrue result → (self.now.ended ≡ None) × (self.now.unsent ≡ []) }
    {
        self.unsent.bytes.is_empty() && self.ended.is_none()
    }

    /// Does what can be done now, of one statement at most.
    fn go_on<G: Gate>(
        &mut self,
        rt: &(impl Threads + Wait + Sync),
        alloc: Global,
        engine: &Engine<W, J, G>,
        buffer: &mut [u8],
    )
        requires room { 0 < length buffer.old }
        ensures same { IsSameConversation self.old self.new }
    {
        self.send(alloc);
        if self.is_open() {
            self.converse(rt, alloc, engine, buffer);
            self.send(alloc);
        }
    }

    /// Whether bytes were read and not fed.
    fn has_unfed(&self) -> bool
        ensures { result ≡ false ↔ (self.now.unfed ≡ []) }
    {
        !self.unfed.is_empty()
    }

    // Promise: However its device gives and takes bytes, and whatever is done between its turns, a conversation's turns write what `serve`
    // writes for what it was fed, to its own device, by its own pass; its end is told once the device has taken all, and again from then on
    // Clauses: same, over, talk, alone, at_end, read, memory, write, again
    /// Takes a turn: sends what is unsent, or else reads what came and answers one statement. What the device doesn't take is kept, and
    /// nothing is read before it has. The buffer is for what is read, and holds nothing from one turn to the next.
    pub fn turn<G: Gate>(
        &mut self,
        rt: &(impl Threads + Wait + Sync),
        alloc: Global,
        engine: &Engine<W, J, G>,
        buffer: &mut [u8],
    ) -> Turned
        requires room { 0 < length buffer.old }
        // It is the conversation that it was.
        ensures same { IsSameConversation self.old self.new }
        ensures over { IfOver result (λ r. (self.new.ended ≡ Some r) × (self.new.unsent ≡ [])) }
        ensures talk { IfOver result (HasTalkedWhole W.opening W.limits self.new.handshake self.new.pass_then self.new.pass
            (D.unread self.new.device_then) (prepend_known self.new.unfed (D.unread self.new.device)) (D.taken self.new.device_then) (D.taken self.new.device)) }
        ensures alone { IfOver result (HasTalkedAlone W.opening W.limits self.new.handshake self.new.pass_then self.new.pass
            (D.unread self.new.device_then) (prepend_known self.new.unfed (D.unread self.new.device)) (D.taken self.new.device_then) (D.taken self.new.device)) }
        ensures at_end { IfOver result (λ r. IfOk r (λ end. IsByInput end → IsAtEnd (D.unread self.new.device))) }
        ensures read { IfOver result (HasStoppedReading W.opening W.limits self.new.handshake self.new.pass_then self.new.pass
            (D.unread self.new.device_then) (prepend_known self.new.unfed (D.unread self.new.device)) (D.taken self.new.device_then) (D.taken self.new.device)) }
        ensures memory { IfOver result (HasStoppedForMemory W.opening W.limits self.new.handshake self.new.pass_then self.new.pass
            (D.unread self.new.device_then) (prepend_known self.new.unfed (D.unread self.new.device)) (D.taken self.new.device_then) (D.taken self.new.device)) }
        ensures write { IfOver result (HasStoppedWriting W.opening W.limits self.new.handshake self.new.pass_then self.new.pass
            (D.unread self.new.device_then) (prepend_known self.new.unfed (D.unread self.new.device)) (D.taken self.new.device_then) (D.taken self.new.device)) }
        // After that it does nothing, and tells that again.
        ensures again { IfSome self.old.ended (λ r. self.old.unsent ≡ [] → (result ≡ Turned.Over r) × (self.new ≡ self.old)) }
    {
        if let Some(result) = self.over(engine) {
            return Turned::Over(result);
        }
        self.go_on(rt, alloc, engine, buffer);
        match self.over(engine) {
            Some(result) => Turned::Over(result),
            None => {
                if self.has_unfed() && !self.has_unsent() {
                    Turned::HasMore
                } else {
                    Turned::Waits
                }
            }
        }
    }

    // Promise: A conversation whose turns one worker takes until it is over has written what `serve` writes for what it had read, and tells
    // how it has ended
    // Clauses: same, over, talk, alone, at_end, read, memory, write
    /// Takes turns until the conversation is over. So its device should wait: for bytes to come, and for those that it is given to be taken.
    pub fn finish<G: Gate>(
        &mut self,
        rt: &(impl Threads + Wait + Sync),
        alloc: Global,
        engine: &Engine<W, J, G>,
        buffer: &mut [u8],
    ) -> Result<End, SessionFault>
        requires room { 0 < length buffer.old }
        ensures same { IsSameConversation self.old self.new }
        ensures over { (self.new.ended ≡ Some result) × (self.new.unsent ≡ []) }
        ensures talk { HasTalkedWhole W.opening W.limits self.new.handshake self.new.pass_then self.new.pass
            (D.unread self.new.device_then) (prepend_known self.new.unfed (D.unread self.new.device)) (D.taken self.new.device_then) (D.taken self.new.device) result }
        ensures alone { HasTalkedAlone W.opening W.limits self.new.handshake self.new.pass_then self.new.pass
            (D.unread self.new.device_then) (prepend_known self.new.unfed (D.unread self.new.device)) (D.taken self.new.device_then) (D.taken self.new.device) result }
        ensures at_end { IfOk result (λ end. IsByInput end → IsAtEnd (D.unread self.new.device)) }
        ensures read { HasStoppedReading W.opening W.limits self.new.handshake self.new.pass_then self.new.pass
            (D.unread self.new.device_then) (prepend_known self.new.unfed (D.unread self.new.device)) (D.taken self.new.device_then) (D.taken self.new.device) result }
        ensures memory { HasStoppedForMemory W.opening W.limits self.new.handshake self.new.pass_then self.new.pass
            (D.unread self.new.device_then) (prepend_known self.new.unfed (D.unread self.new.device)) (D.taken self.new.device_then) (D.taken self.new.device) result }
        ensures write { HasStoppedWriting W.opening W.limits self.new.handshake self.new.pass_then self.new.pass
            (D.unread self.new.device_then) (prepend_known self.new.unfed (D.unread self.new.device)) (D.taken self.new.device_then) (D.taken self.new.device) result }
    {
        for _ in rt.forever() {
            if let Turned::Over(result) = self.turn(rt, alloc, engine, buffer) {
                return result;
            }
        }
        unreachable!()
    }
}
