//! What a statement of an open transaction does on its one shard.
ghost use Rattle.std.specs.Prelude.{◌≡◌, ◌<◌, [], ◌∷◌, ℕ, Some, IsSome, IfOk, IfErr, OnErr, OnOk, Ok, length};
ghost use Rattle.vschema.specs.Sources.{SourcesThere};
ghost use Rattle.shard.specs.Queries.{IsAnswer};
ghost use Rattle.shard.specs.Narrowing.{ShowsAt};
ghost use Rattle.shard.specs.Writes.{written_table};
ghost use Rattle.journal.specs.Runs.{NumbersBelow};
ghost use Rattle.shard.specs.ShardRecord as which;
ghost use Rattle.shard.specs.Entries.{commit_of};
ghost use Rattle.shard.specs.Transactions.{IsPendingOf};
ghost use Rattle.shard_calls.specs.Pendings.{bound_of};
ghost use Rattle.shard_calls.specs.inner.InTransactions.{ends, closes, stays_open, HasReadAt, IsNotReadAt, HasWrittenAt, IsNotWrittenAt, HasCommittedAt, IsNotCommittedAt};

use crate::reply::{Reply, ShardRead};
use crate::tx::{Bound, OpenTx};
use journal::Naming;
use planner::ShownRows;
use shard::{Narrowed, Pending, Reading, ShardPass, World, select_local};
use std::alloc::{AllocError, Global};
use std::sync::Wait;
use vschema::{Typed, VSchema, Write};
use vt_value::{Items, Refusal};

/// Whether a refusal ends an open transaction.
pub fn ends(refusal: Refusal) -> bool
    ensures { result ≡ ends refusal }
{
    matches!(
        refusal,
        Refusal::Conflict | Refusal::ShardMoved | Refusal::ShardFull
    )
}

/// Whether a statement closes an open transaction once it is answered.
pub fn closes(statement: &Typed) -> bool
    ensures { result ≡ closes statement.now }
{
    matches!(statement, Typed::Commit | Typed::Rollback)
}

/// Whether a transaction stays open after what one of its statements gave, which closes it if it is answered, or doesn't.
pub fn stays_open(closes: bool, given: &Result<Reply, Refusal>) -> bool
    ensures { result ≡ stays_open closes given.now }
{
    match given {
        Ok(_) => !closes,
        Err(refusal) => !ends(*refusal),
    }
}

// Where the items of a query are in the rows that are read for it, and room for what the reply says of a shard.
fn prepared(
    alloc: Global,
    slot: usize,
    query: &Narrowed,
) -> Result<(Option<Items<usize>>, Items<ShardRead>), AllocError>
    ensures shows { IfOk result (λ r. ShowsAt query.now r.0) }
    ensures reads { IfOk result (λ r. r.1 ≡ record { slot = slot; entries = 0 } ∷ []) }
{
    let reads = Items::from_slice(alloc, &[ShardRead { slot, entries: 0 }])?;
    let ordinals = query.ordinals(alloc)?;
    Ok((ordinals, reads))
}

// What a query gives on a transaction's shard, and what the reply says of that.
pub fn read_at<W: World, J: Naming>(
    rt: &impl Wait,
    alloc: Global,
    pass: &mut ShardPass<W, J>,
    here: &Bound<W, J>,
    pending: &mut Pending,
    query: &Narrowed,
) -> Result<(ShownRows, Items<ShardRead>), Refusal>
    requires there { SourcesThere (length W.opening.schema.tables) query.now }
    requires tied { (s : which.ShardRecord) → bound_of s here.now.seats ≡ here.now → IsPendingOf W.opening s pending.old pass.old }
    requires session { IsSome pass.old.session }
    requires above { (n : ℕ) → pass.old.session ≡ Some n → NumbersBelow commit_of n pass.old.statements pass.old.seen }
    ensures ok { IfOk result (λ r. HasReadAt W.opening here.now pass.old pending.old query.now r.0 r.1 pass.new pending.new) }
    ensures err { IfErr result (λ e. IsNotReadAt W.opening here.now pass.old pending.old e pass.new) }
    ensures unchanged { OnErr result (pending.new ≡ pending.old) }
{
    let slot = here.slot();
    let (ordinals, mut reads) = prepared(alloc, slot, query)?;
    match here
        .shard()
        .read_in(rt, alloc, pass, pending, query.query())
    {
        Ok(reading) => {
            let Reading { rows, entries } = reading;
            reads.set(0, ShardRead { slot, entries });
            Ok((ShownRows::new(rows, ordinals), reads))
        }
        Err(refusal) => {
            drop(ordinals);
            drop(reads);
            Err(refusal)
        }
    }
}

// What a query gives on the shard of a transaction that is bound to it then.
pub fn read_first<W: World, J: Naming>(
    rt: &impl Wait,
    alloc: Global,
    pass: &mut ShardPass<W, J>,
    tx: &mut OpenTx<W, J>,
    new: Bound<W, J>,
    query: &Narrowed,
) -> Result<(ShownRows, Items<ShardRead>), Refusal>
    requires there { SourcesThere (length W.opening.schema.tables) query.now }
    requires tied { (s : which.ShardRecord) → bound_of s new.seats ≡ new → IsPendingOf W.opening s tx.old.pending pass.old }
    requires session { IsSome pass.old.session }
    requires above { (n : ℕ) → pass.old.session ≡ Some n → NumbersBelow commit_of n pass.old.statements pass.old.seen }
    ensures ok { IfOk result (λ r. HasReadAt W.opening new pass.old tx.old.pending query.now r.0 r.1 pass.new tx.new.pending) }
    ensures now_bound { OnOk result (tx.new.bound ≡ Some new) }
    ensures err { IfErr result (λ e. IsNotReadAt W.opening new pass.old tx.old.pending e pass.new) }
    ensures unchanged { OnErr result (tx.new ≡ tx.old) }
{
    match read_at(rt, alloc, pass, &new, &mut tx.pending, query) {
        Ok(given) => {
            tx.bound = Some(new);
            Ok(given)
        }
        Err(refusal) => {
            drop(new);
            Err(refusal)
        }
    }
}

// What a query gives over no rows, by no shard.
pub fn read_nothing(
    alloc: Global,
    query: &Narrowed,
) -> Result<(ShownRows, Items<ShardRead>), Refusal>
    ensures rows { IfOk result (λ r. IsAnswer query.now [] r.0) }
    ensures reads { IfOk result (λ r. r.1 ≡ []) }
    ensures err { IfErr result (λ e. e ≡ Refusal.OutOfMemory) }
{
    let rows = select_local(alloc, query.query(), &[])?;
    let ordinals = query.ordinals(alloc)?;
    Ok((ShownRows::new(rows, ordinals), Items::new(alloc)))
}

// How many rows a write changes on a transaction's shard, which keeps it.
// The clauses tell what became of the pass and the transaction's part, which are lent one by one.
pub fn write_at<W: World, J: Naming>(
    rt: &impl Wait,
    alloc: Global,
    pass: &mut ShardPass<W, J>,
    here: &Bound<W, J>,
    pending: &mut Pending,
    schema: &VSchema,
    write: Write,
) -> Result<u64, Refusal>
    requires schema { schema.now ≡ W.opening.schema }
    requires there { written_table write < length W.opening.schema.tables }
    ensures ok { IfOk result (λ count. HasWrittenAt W.opening here.now pass.old pending.old write count pass.new pending.new) }
    ensures err { IfErr result (λ e. IsNotWrittenAt W.opening here.now pass.old pending.old write e pass.new) }
    ensures unchanged { OnErr result (pending.new ≡ pending.old) }
{
    here.shard()
        .write_in(rt, alloc, pass, pending, schema, write)
}

// Runs a write on the shard of a transaction that is bound to it then.
// The clauses tell what became of the pass and the transaction, which are lent one by one.
pub fn write_first<W: World, J: Naming>(
    rt: &impl Wait,
    alloc: Global,
    pass: &mut ShardPass<W, J>,
    tx: &mut OpenTx<W, J>,
    new: Bound<W, J>,
    schema: &VSchema,
    write: Write,
) -> Result<u64, Refusal>
    requires schema { schema.now ≡ W.opening.schema }
    requires there { written_table write < length W.opening.schema.tables }
    ensures ok { IfOk result (λ count. HasWrittenAt W.opening new pass.old tx.old.pending write count pass.new tx.new.pending) }
    ensures now_bound { OnOk result (tx.new.bound ≡ Some new) }
    ensures err { IfErr result (λ e. IsNotWrittenAt W.opening new pass.old tx.old.pending write e pass.new) }
    ensures unchanged { OnErr result (tx.new ≡ tx.old) }
{
    match write_at(rt, alloc, pass, &new, &mut tx.pending, schema, write) {
        Ok(count) => {
            tx.bound = Some(new);
            Ok(count)
        }
        Err(refusal) => {
            drop(new);
            Err(refusal)
        }
    }
}

// Commits a transaction on its shard: one entry, if it has written, and else a look alone.
pub fn commit_at<W: World, J: Naming>(
    rt: &impl Wait,
    alloc: Global,
    pass: &mut ShardPass<W, J>,
    here: &Bound<W, J>,
    pending: &mut Pending,
) -> Result<(), Refusal>
    requires tied { (s : which.ShardRecord) → bound_of s here.now.seats ≡ here.now → IsPendingOf W.opening s pending.old pass.old }
    requires session { IsSome pass.old.session }
    requires above { (n : ℕ) → pass.old.session ≡ Some n → NumbersBelow commit_of n pass.old.statements pass.old.seen }
    ensures ok { OnOk result (HasCommittedAt W.opening W.limits here.now pass.old pending.old pass.new) }
    ensures err { IfErr result (λ e. IsNotCommittedAt W.opening W.limits here.now pass.old pending.old e pass.new) }
    ensures unchanged { OnErr result (pending.new ≡ pending.old) }
{
    let shard = here.shard();
    if pending.has_written() {
        return shard.commit_in(rt, alloc, pass, pending);
    }
    match shard.check(rt, pass, pending) {
        Ok(_) => Ok(()),
        Err(refusal) => Err(refusal),
    }
}
