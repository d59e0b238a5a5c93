//! A session's transaction, as the engine keeps it.
ghost use Rattle.std.specs.Prelude.{◌≡◌, ◌↔◌, IsTrue, IsSome, None, Some, IfOk};
ghost use Rattle.serving.specs.Partitions.{AreOf};

use journal::Naming;
use serving::{Partition, Seated, ShardReference, copy_part};
use shard::{Pending, Shard, World};
use std::alloc::{AllocError, Global};
use std::marker::Model;

/// The shard that a transaction is bound to, its keyspace, and the partition by which a statement needed it. Contracts see a `BoundView`.
#[derive(Drop)]
pub struct Bound<W: World, J: Naming> {
    keyspace: usize,
    part: ShardReference<Shard<W, J>>,
    partition: Partition<Shard<W, J>>,
}

impl<W: World, J: Naming> Model for Bound<W, J> {
    ghost use Rattle.std.specs.Prelude.{◌≡◌};
    ghost use Rattle.serving.specs.Partitions.{AreOf};
    ghost use Rattle.shard_calls.specs.Pendings.{BoundView};

    ghost Value = { BoundView };

    ghost view = { λ b. record { keyspace = b.keyspace; seat = b.part; seats = b.partition } };

    ghost invariant = { λ b. (b.part.2 ≡ b.keyspace) × AreOf b.keyspace b.partition };
}

fn copy_parts<S: Seated + Drop>(
    alloc: Global,
    parts: &[ShardReference<S>],
) -> Result<Vec<ShardReference<S>>, AllocError>
    ensures ok { IfOk result (λ copies. copies.items ≡ parts.now) }
{
    let mut copies = Vec::new(alloc);
    for part in parts {
        copies.push(copy_part(part)?)?;
    }
    Ok(copies)
}

impl<W: World, J: Naming> Bound<W, J> {
    /// Bound to the shard of this part of the keyspace's partition. Refuses for want of memory.
    pub fn to_part(
        alloc: Global,
        keyspace: usize,
        partition: &Partition<Shard<W, J>>,
        part: &ShardReference<Shard<W, J>>,
    ) -> Result<Bound<W, J>, AllocError>
        requires part { part.now.2 ≡ keyspace }
        requires keyspace { AreOf keyspace partition.now }
        ensures ok { IfOk result (λ bound. bound ≡ record { keyspace = keyspace; seat = part.now; seats = partition.now }) }
    {
        let part = copy_part(part)?;
        match copy_parts(alloc, partition.parts()) {
            Ok(parts) => Ok(Bound {
                keyspace,
                part,
                partition: Partition::new(keyspace, parts),
            }),
            Err(error) => {
                drop(part);
                Err(error)
            }
        }
    }

    /// The keyspace, by its ordinal in the VSchema.
    pub fn keyspace(&self) -> usize
        ensures { result ≡ self.now.keyspace }
    {
        self.keyspace
    }

    /// The slot that the shard is on.
    pub fn slot(&self) -> usize
        ensures { result ≡ self.now.seat.0 }
    {
        self.part.slot()
    }

    /// The shard.
    pub fn shard(&self) -> &Shard<W, J>
        ensures seat { result.now ≡ self.now.seat }
        ensures keyspace { self.now.seat.2 ≡ self.now.keyspace }
    {
        self.part.shard()
    }

    /// The partition by which it was needed.
    pub fn partition(&self) -> &Partition<Shard<W, J>>
        ensures seats { result.now ≡ self.now.seats }
        ensures home { AreOf self.now.keyspace self.now.seats }
    {
        &self.partition
    }

    /// Whether the part's shard is the one.
    pub fn is_at(&self, part: &ShardReference<Shard<W, J>>) -> bool
        ensures { IsTrue result ↔ ((self.now.keyspace ≡ part.now.2) × (self.now.seat ≡ part.now)) }
    {
        self.keyspace == part.keyspace()
            && self.part.slot() == part.slot()
            && self.part.range() == part.range()
    }
}

/// A session's open transaction: the shard that it is bound to, once it has used one, and what it has done there. Contracts see an
/// `OpenView`.
pub struct OpenTx<W: World, J: Naming> {
    pub bound: Option<Bound<W, J>>,
    pub pending: Pending,
}

impl<W: World, J: Naming> Drop for OpenTx<W, J> {
    // Who drops one calls this, and need not know what it owns.
    fn drop(self) {
        let OpenTx { bound, pending } = self;
        drop(bound);
        drop(pending);
    }
}

impl<W: World, J: Naming> Model for OpenTx<W, J> {
    ghost use Rattle.shard_calls.specs.Pendings.{OpenView};
    ghost use Rattle.std.specs.Coded.{codes};
    ghost use Rattle.vschema.specs.contracts.changes.Write as write;

    ghost Value = { OpenView };

    ghost coded = { Prim.hlevel (codes, write.the_row.coded) };

    ghost view = { λ x. record { bound = x.bound; pending = x.pending } };
}

/// The transaction of a session, which takes part in each of its pass's statements: none, or an open one. Contracts see what the open one
/// keeps.
pub struct Tx<W: World, J: Naming> {
    pub open: Option<OpenTx<W, J>>,
}

impl<W: World, J: Naming> Drop for Tx<W, J> {
    // Who drops one calls this, and need not know what it owns.
    fn drop(self) {
        let Tx { open } = self;
        drop(open);
    }
}

impl<W: World, J: Naming> Model for Tx<W, J> {
    ghost use Rattle.std.specs.Prelude.{Option};
    ghost use Rattle.shard_calls.specs.Pendings.{OpenView};
    ghost use Rattle.std.specs.Coded.{codes};
    ghost use Rattle.vschema.specs.contracts.changes.Write as write;

    ghost Value = { Option OpenView };

    ghost coded = { Prim.hlevel (codes, write.the_row.coded) };

    ghost view = { λ x. x.open };
}

impl<W: World, J: Naming> Tx<W, J> {
    /// No transaction is open.
    pub fn new() -> Tx<W, J>
        ensures { result ≡ None }
    {
        Tx { open: None }
    }

    /// Whether a transaction is open.
    pub fn is_open(&self) -> bool
        ensures { IsTrue result ↔ IsSome self.now }
    {
        self.open.is_some()
    }
}
