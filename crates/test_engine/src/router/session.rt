//! A session of the router, and what its statements are answered.
ghost use Rattle.std.specs.Prelude.{IsSome};
ghost use Rattle.shard_calls.specs.Pendings.{IsOf};

use crate::router::gate::HoldsFirst;
use admin::{Answer, Engine, Reply, Tx};
use journal::Naming;
use shard_calls::{ShardPass, World};
use std::alloc::Global;
use std::sync::Wait;
use std::thread::Threads;
use vt_value::Refusal;

/// A session of the router.
#[derive(Drop)]
pub(crate) struct Session<'e, W: World, J: Naming, R> {
    pub(crate) rt: &'e R,
    pub(crate) alloc: Global,
    pub(crate) engine: &'e Engine<W, J, HoldsFirst>,
    pub(crate) pass: ShardPass<W, J>,
    ghost known: { IsSome pass.session },
}

// No transaction of the pass's session is open.
fn none_open<W: World, J: Naming>(pass: &ShardPass<W, J>) -> Tx<W, J>
    ensures { IsOf W.opening result pass.now }
{
    let _ = pass;
    Tx::new()
}

// How many rows a statement gave or changed.
fn count(reply: Reply) -> u64 {
    match &reply.answer {
        Answer::Rows(selected) => selected.rows.len() as u64,
        Answer::Count(count) => *count,
    }
}

impl<'e, W: World + Send + Sync, J: Naming + Send + Sync, R: Threads + Wait + Sync> Session<
    'e,
    W,
    J,
    R,
> {
    /// How many rows a statement gives or changes, outside a transaction.
    pub(crate) fn tell(&mut self, text: &[u8]) -> Result<u64, Refusal> {
        let mut tx = none_open(&self.pass);
        let told = match self
            .engine
            .execute(self.rt, self.alloc, &mut self.pass, &mut tx, text)
        {
            Ok(reply) => Ok(count(reply)),
            Err(refusal) => Err(refusal),
        };
        drop(tx);
        told
    }
}
