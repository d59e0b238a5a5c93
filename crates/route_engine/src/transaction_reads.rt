//! The queries of an open transaction, and the choice between them and its writes.
ghost use Rattle.std.specs.Prelude.{◌≡◌, ◌⊎◌, ◌<◌, ◌≤◌, Some, None, IfOk, IfErr, IfSome, IfNone, OnErr, Ok, true, false, length};
ghost use Rattle.sql_tree.specs.declared.Statement.{Statement};
ghost use Rattle.vschema.specs.Sources.{SourcesThere, JoinsInPlace};
ghost use Rattle.vschema.specs.TypedStatement.{typed_statement};
ghost use Rattle.shard_calls.specs.Routes.{table_at, route_of};
ghost use Rattle.serving.specs.Partitions.{IsPartition, AreOf};
ghost use Rattle.shard_calls.specs.Answers.{needed};
ghost use Rattle.shard_calls.specs.Pendings.{IsOf};
ghost use Rattle.shard_calls.specs.inner.InTransactions.{kept_by, NeedsNoSeat, IsSeatOf, NeedsOther, GoesOnIn, IsRefusedStep};
ghost use Rattle.route_engine.specs.inner.Pendings.{IsReady};

use crate::engine::Engine;
use crate::routed::Routed;
use journal::Naming;
use operators::ShownRows;
use serving::Partition;
use shard_calls::{
    Answer, Bound, Gate, OpenTx, Reply, Selected, Shard, ShardPass, ShardRead, World, counted,
    look_at_each, only_needed, read_at, read_first, read_nothing, route_of, written_table,
};
use shard_contents::Narrowed;
use std::alloc::Global;
use std::sync::Wait;
use vschema::{Query, Table, Typed, VSchema};
use vt_value::{Items, Refusal};

impl<W: World + Send + Sync, J: Naming + Send + Sync, G: Gate> Engine<W, J, G> {
    // The partition that decides which shards a statement on the table needs: on one of the bound shard's keyspace that by which it was bound.
    fn partition_for<'e>(
        &'e self,
        here: &'e Bound<W, J>,
        table: &Table,
    ) -> &'e Partition<Shard<W, J>>
        requires { table.now.keyspace < length self.now.keyspaces }
        ensures home { AreOf table.now.keyspace result.now }
        ensures kept { here.now.keyspace ≡ table.now.keyspace → result.now ≡ here.now.seats }
    {
        if here.keyspace() == table.keyspace {
            here.partition()
        } else {
            self.current(table.keyspace)
        }
    }

    // Whether a statement on the table with this route needs the shard that its transaction is bound to, or none. Refuses if it needs another shard, or several.
    pub(crate) fn needs_bound(
        &self,
        here: &Bound<W, J>,
        routed: &Routed<'_>,
    ) -> Result<bool, Refusal>
        requires keyspace { routed.now.table.now.keyspace < length self.now.keyspaces }
        ensures bound { IfOk result (λ b. b ≡ true → IsSeatOf routed.now.table.now routed.now.route.now here.now) }
        ensures none { IfOk result (λ b. b ≡ false → NeedsNoSeat routed.now.table.now routed.now.route.now) }
        ensures err { IfErr result (λ e. (e ≡ Refusal.SeveralShards) × NeedsOther routed.now.table.now routed.now.route.now here.now) }
    {
        let partition = self.partition_for(here, routed.table);
        match only_needed(partition.parts(), routed.table, routed.route)? {
            Some(part) => {
                if here.is_at(part) {
                    Ok(true)
                } else {
                    Err(Refusal::SeveralShards)
                }
            }
            None => Ok(false),
        }
    }

    // What a transaction is bound to by its first statement that needs a shard: by this partition, if this one needs one. Refuses if it
    // needs several, and for want of memory.
    pub(crate) fn first_bound(
        alloc: Global,
        partition: &Partition<Shard<W, J>>,
        routed: &Routed<'_>,
    ) -> Result<Option<Bound<W, J>>, Refusal>
        requires home { AreOf routed.now.table.now.keyspace partition.now }
        ensures some { IfOk result (λ r. IfSome r (IsSeatOf routed.now.table.now routed.now.route.now)) }
        ensures none { IfOk result (λ r. IfNone r (NeedsNoSeat routed.now.table.now routed.now.route.now)) }
        ensures partition { IsPartition partition.now }
        ensures err { IfErr result (λ e. (e ≡ Refusal.OutOfMemory) ⊎ ((e ≡ Refusal.SeveralShards) × (2 ≤ length (needed routed.now.table.now routed.now.route.now partition.now)))) }
    {
        match only_needed(partition.parts(), routed.table, routed.route)? {
            Some(part) => Ok(Some(Bound::to_part(alloc, routed.table.keyspace, partition, part)?)),
            None => Ok(None),
        }
    }

    // The rows of a query on the table with this route.
    // Its caller has found table and route.
    fn rows_by(
        &self,
        rt: &impl Wait,
        alloc: Global,
        pass: &mut ShardPass<W, J>,
        tx: &mut OpenTx<W, J>,
        query: &Narrowed,
        routed: &Routed<'_>,
    ) -> Result<(ShownRows, Items<ShardRead>), Refusal>
        requires there { SourcesThere (length W.opening.schema.tables) query.now }
        requires joins { JoinsInPlace W.opening.schema query.now }
        requires keyspace { routed.now.table.now.keyspace < length self.now.keyspaces }
        requires table { routed.now.table.now ≡ table_at W.opening.schema query.now.table }
        requires route { routed.now.route.now ≡ route_of routed.now.table.now query.now.join query.now.filter }
        requires ready { IsReady W.opening pass.old }
        requires tx { IsOf W.opening (Some tx.old) pass.old }
        ensures ok { IfOk result (λ r. GoesOnIn W.opening W.limits pass.old tx.old (Typed.Select query.now)
            (record { answer = Answer.Rows (record { table = query.now.table; join = query.now.join; items = query.now.items; qualified = query.now.qualified; rows = r.0 }); reads = r.1 })
            pass.new (Some tx.new)) }
        ensures err { IfErr result (λ e. IsRefusedStep W.opening W.limits pass.old tx.old (Typed.Select query.now) e pass.new) }
        ensures unchanged { OnErr result (tx.new ≡ tx.old) }
    {
        match &tx.bound {
            Some(here) => {
                if self.needs_bound(here, routed)? {
                    read_at(rt, alloc, pass, here, &mut tx.pending, query)
                } else {
                    read_nothing(alloc, query)
                }
            }
            None => {
                let partition = self.current(routed.table.keyspace);
                match Self::first_bound(alloc, partition, routed) {
                    Ok(Some(new)) => read_first(rt, alloc, pass, tx, new, query),
                    Ok(None) => read_nothing(alloc, query),
                    Err(refusal) => {
                        look_at_each(rt, pass, partition.parts());
                        Err(refusal)
                    }
                }
            }
        }
    }

    // The rows of a query in a transaction, by its route.
    fn rows_in(
        &self,
        rt: &impl Wait,
        alloc: Global,
        pass: &mut ShardPass<W, J>,
        tx: &mut OpenTx<W, J>,
        query: &Narrowed,
    ) -> Result<(ShownRows, Items<ShardRead>), Refusal>
        requires there { SourcesThere (length W.opening.schema.tables) query.now }
        requires joins { JoinsInPlace W.opening.schema query.now }
        requires ready { IsReady W.opening pass.old }
        requires tx { IsOf W.opening (Some tx.old) pass.old }
        ensures ok { IfOk result (λ r. GoesOnIn W.opening W.limits pass.old tx.old (Typed.Select query.now)
            (record { answer = Answer.Rows (record { table = query.now.table; join = query.now.join; items = query.now.items; qualified = query.now.qualified; rows = r.0 }); reads = r.1 })
            pass.new (Some tx.new)) }
        ensures err { IfErr result (λ e. IsRefusedStep W.opening W.limits pass.old tx.old (Typed.Select query.now) e pass.new) }
        ensures unchanged { OnErr result (tx.new ≡ tx.old) }
    {
        let narrow = query.query();
        let table = &self.schema.tables.as_slice()[narrow.table];
        let route = route_of(alloc, table, narrow.join, &narrow.filter)?;
        let routed = Routed {
            table,
            route: &route,
        };
        let given = self.rows_by(rt, alloc, pass, tx, query, &routed);
        drop(route);
        given
    }

    /// What a query gives in an open transaction.
    fn select_in(
        &self,
        rt: &impl Wait,
        alloc: Global,
        pass: &mut ShardPass<W, J>,
        tx: &mut OpenTx<W, J>,
        query: Query,
    ) -> Result<Reply, Refusal>
        requires there { SourcesThere (length W.opening.schema.tables) query }
        requires joins { JoinsInPlace W.opening.schema query }
        requires ready { IsReady W.opening pass.old }
        requires tx { IsOf W.opening (Some tx.old) pass.old }
        ensures ok { IfOk result (λ reply. GoesOnIn W.opening W.limits pass.old tx.old (Typed.Select query)
            reply pass.new (Some tx.new)) }
        ensures err { IfErr result (λ e. IsRefusedStep W.opening W.limits pass.old tx.old (Typed.Select query) e pass.new) }
        ensures unchanged { OnErr result (tx.new ≡ tx.old) }
    {
        let table = query.table;
        let join = query.join;
        let narrowed = Narrowed::of(alloc, query)?;
        let given = self.rows_in(rt, alloc, pass, tx, &narrowed);
        let (items, qualified) = narrowed.shown();
        match given {
            Ok((rows, reads)) => Ok(Reply {
                answer: Answer::Rows(Selected {
                    table,
                    join,
                    items,
                    qualified,
                    rows,
                }),
                reads,
            }),
            Err(refusal) => {
                drop(items);
                drop(qualified);
                Err(refusal)
            }
        }
    }

    /// A statement of an open transaction. One that is refused leaves what the transaction keeps.
    pub(crate) fn step_in(
        &self,
        rt: &impl Wait,
        alloc: Global,
        pass: &mut ShardPass<W, J>,
        tx: &mut OpenTx<W, J>,
        statement: Typed,
    ) -> Result<Reply, Refusal>
        requires means { (tree : Statement) × (typed_statement W.opening.schema tree ≡ Ok statement) }
        requires ready { IsReady W.opening pass.old }
        requires tx { IsOf W.opening (Some tx.old) pass.old }
        ensures ok { IfOk result (λ reply. GoesOnIn W.opening W.limits pass.old tx.old statement
            reply pass.new (kept_by statement tx.new)) }
        ensures err { IfErr result (λ e. IsRefusedStep W.opening W.limits pass.old tx.old statement e pass.new) }
        ensures unchanged { OnErr result (tx.new ≡ tx.old) }
    {
        match statement {
            Typed::Select(query) => self.select_in(rt, alloc, pass, tx, query),
            Typed::Write(write) => self.write_in(rt, alloc, pass, tx, write),
            Typed::SetNames => Ok(counted(alloc, 0)),
            Typed::Begin => Err(Refusal::NotSupported),
            Typed::Commit => self.commit_in(rt, alloc, pass, tx),
            Typed::Rollback => Ok(counted(alloc, 0)),
        }
    }
}
