//! One connection.
ghost use Rattle.std.specs.Prelude.{◌≡◌, IsSome, IfOk};
ghost use Rattle.std.specs.Io.KnownBytes.{IsAtEnd};
ghost use Rattle.session.specs.Served.{HasTalkedWhole, HasTalkedAlone, HasStoppedReading, HasStoppedForMemory, HasStoppedWriting};
ghost use Rattle.session.specs.conversation.Devices.{read_failures_after, write_failures_after};
ghost use Rattle.session.specs.conversation.Talk.{IsByInput};
ghost use Rattle.vtgate_clients.specs.Admitted.{handshake_of};

use crate::admission::Admission;
use journal::Naming;
use mysql_handshake::salt_of;
use session::{Conversation, Device, End, Engine, Gate, SessionFault, Sink, Source, serve};
use shard::{ShardPass, World};
use std::alloc::Global;
use std::net::{SocketAddr, TcpStream};
use std::sync::Wait;
use std::thread::Threads;

/// A connection that was accepted: its number, its socket, the client's address, and the pass of its session.
#[derive(Drop)]
pub struct Connection<W: World, J: Naming> {
    number: u32,
    stream: TcpStream,
    peer: SocketAddr,
    pass: ShardPass<W, J>,
    ghost session: { IsSome pass.session },
}

impl<W: World, J: Naming> Connection<W, J> {
    pub fn new(
        number: u32,
        stream: TcpStream,
        peer: SocketAddr,
        pass: ShardPass<W, J>,
    ) -> Connection<W, J>
        requires { IsSome pass.session }
        ensures { result.number ≡ number }
    {
        Connection {
            number,
            stream,
            peer,
            pass,
        }
    }

    /// Its number, its socket, the client's address and the pass.
    pub fn into_parts(self) -> (u32, TcpStream, SocketAddr, ShardPass<W, J>)
        ensures number { result.0 ≡ self.number }
        ensures session { IsSome result.3.session }
    {
        let Connection {
            number,
            stream,
            peer,
            pass,
            ..
        } = self;
        (number, stream, peer, pass)
    }
}

/// The salt of the connection with the number, of which and of the words' nonce it is made.
fn salt_for(admission: &Admission<'_>, number: u32) -> [u8; 20]
    ensures { (record { access = admission.now.access; salt = result; id = number }) ≡ handshake_of admission.now.asked.now number }
{
    salt_of(admission.nonce(), u64::from(number))
}

/// The conversation of the connection with the number, over a device: it greets its client by the salt that the nonce of the words and the number
/// make, and lets in whom the words name. If there is no memory for it, pass and device are given back.
pub fn begin_connection<W: World + Send + Sync, J: Naming + Send + Sync, D: Device>(
    alloc: Global,
    admission: &Admission<'_>,
    pass: ShardPass<W, J>,
    number: u32,
    device: D,
) -> Result<Conversation<W, J, D>, (ShardPass<W, J>, D)>
    requires session { IsSome pass.session }
    ensures handshake { IfOk result (λ c. c.handshake ≡ handshake_of admission.now.asked.now number) }
    ensures pass { IfOk result (λ c. (c.pass_then ≡ pass) × (c.pass ≡ pass)) }
    ensures device { IfOk result (λ c. (c.device_then ≡ device) × (c.device ≡ device)) }
{
    let salt = salt_for(admission, number);
    Conversation::begin(alloc, &admission.access, &salt, number, pass, device)
}

// Promise: A connection is greeted by the salt of its number and of the words' nonce, lets in the user and the password of the words and
// nobody else, and its bytes are then the conversation, over any device
// With: begin_connection
// Clauses: talk, alone, read, memory, write, handshake, pass, device
/// Serves the connection with the number over these devices until it ends: greets its client by the salt that the nonce of the words and the
/// number make, and lets in whom the words name. The clauses tell what became of the pass and of both devices, which are handed over one by one.
pub fn serve_connection<
    W: World + Send + Sync,
    J: Naming + Send + Sync,
    G: Gate,
    I: Source,
    O: Sink,
>(
    rt: &(impl Threads + Wait + Sync),
    alloc: Global,
    engine: &Engine<W, J, G>,
    admission: &Admission<'_>,
    pass: &mut ShardPass<W, J>,
    number: u32,
    source: &mut I,
    sink: &mut O,
) -> Result<End, SessionFault>
    requires session { IsSome pass.old.session }
    ensures talk { HasTalkedWhole W.opening W.limits (handshake_of admission.now.asked.now number) pass.old pass.new (I.unread source.old) (I.unread source.new) (O.taken sink.old) (O.taken sink.new) result }
    ensures alone { HasTalkedAlone W.opening W.limits (handshake_of admission.now.asked.now number) pass.old pass.new (I.unread source.old) (I.unread source.new) (O.taken sink.old) (O.taken sink.new) result }
    ensures at_end { IfOk result (λ end. IsByInput end → IsAtEnd (I.unread source.new)) }
    ensures read { HasStoppedReading W.opening W.limits (handshake_of admission.now.asked.now number) pass.old pass.new (I.unread source.old) (I.unread source.new) (O.taken sink.old) (O.taken sink.new) result }
    ensures memory { HasStoppedForMemory W.opening W.limits (handshake_of admission.now.asked.now number) pass.old pass.new (I.unread source.old) (I.unread source.new) (O.taken sink.old) (O.taken sink.new) result }
    ensures write { HasStoppedWriting W.opening W.limits (handshake_of admission.now.asked.now number) pass.old pass.new (I.unread source.old) (I.unread source.new) (O.taken sink.old) (O.taken sink.new) result }
    ensures source_count { I.failures source.new ≡ read_failures_after result (I.failures source.old) }
    ensures sink_count { O.failures sink.new ≡ write_failures_after result (O.failures sink.old) }
{
    let salt = salt_for(admission, number);
    let access = &admission.access;
    serve(rt, alloc, engine, pass, access, &salt, number, source, sink)
}
