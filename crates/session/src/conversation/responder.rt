//! What answers a connection, and what it changes.
use crate::conversation::access::Handshake;
use bytes::BytesMut;
use journal::Naming;
use route_engine::{Engine, Gate, Tx, World};
use std::alloc::Global;

/// Answers one connection: by the runtime, the memory, the engine that runs its statements, and what its client was greeted with.
#[derive(Drop)]
pub struct Responder<'c, W: World, J: Naming, G: Gate, R> {
    pub rt: &'c R,
    pub alloc: Global,
    pub engine: &'c Engine<W, J, G>,
    pub handshake: &'c Handshake,
}

/// What a connection's answers change: its session's transaction, and the buffer in which each reply is made.
#[derive(Drop)]
pub struct ReplyState<W: World, J: Naming> {
    pub tx: Tx<W, J>,
    pub reply: BytesMut,
}
