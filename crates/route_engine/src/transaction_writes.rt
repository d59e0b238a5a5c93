//! The writes of an open transaction, and its commit.
ghost use Rattle.std.specs.Prelude.{◌≡◌, ◌<◌, [], Some, None, IfOk, IfErr, OnErr, true, length};
ghost use Rattle.vschema.specs.TypedWrites.{IsTypedWrite};
ghost use Rattle.shard_contents.specs.Writes.{written_table};
ghost use Rattle.shard_calls.specs.Routes.{table_at, write_route};
ghost use Rattle.shard_calls.specs.Pendings.{IsOf};
ghost use Rattle.shard_calls.specs.inner.InTransactions.{GoesOnIn, IsRefusedStep};
ghost use Rattle.route_engine.specs.inner.Pendings.{IsReady};

use crate::engine::Engine;
use crate::routed::Routed;
use journal::Naming;
use shard_calls::{
    Answer, Gate, OpenTx, Reply, ShardPass, World, commit_at, counted, look_at_each, write_at,
    write_first, write_route, written_table,
};
use std::alloc::Global;
use std::sync::Wait;
use vschema::{Typed, Write};
use vt_value::Refusal;

impl<W: World + Send + Sync, J: Naming + Send + Sync, G: Gate> Engine<W, J, G> {
    // How many rows a write on the table with this route changes.
    // Its caller has found table and route.
    fn count_by(
        &self,
        rt: &impl Wait,
        alloc: Global,
        pass: &mut ShardPass<W, J>,
        tx: &mut OpenTx<W, J>,
        write: Write,
        routed: &Routed<'_>,
    ) -> Result<u64, Refusal>
        requires typed { IsTypedWrite W.opening.schema write }
        requires there { written_table write < length W.opening.schema.tables }
        requires keyspace { routed.now.table.now.keyspace < length self.now.keyspaces }
        requires table { routed.now.table.now ≡ table_at W.opening.schema (written_table write) }
        requires route { routed.now.route.now ≡ write_route W.opening.schema write }
        requires ready { IsReady W.opening pass.old }
        requires tx { IsOf W.opening (Some tx.old) pass.old }
        ensures ok { IfOk result (λ count. GoesOnIn W.opening W.limits pass.old tx.old (Typed.Write write)
            (record { answer = Answer.Count count; reads = [] }) pass.new (Some tx.new)) }
        ensures err { IfErr result (λ e. IsRefusedStep W.opening W.limits pass.old tx.old (Typed.Write write) e pass.new) }
        ensures unchanged { OnErr result (tx.new ≡ tx.old) }
    {
        match &tx.bound {
            Some(here) => match self.needs_bound(here, routed) {
                Ok(true) => write_at(rt, alloc, pass, here, &mut tx.pending, &self.schema, write),
                Ok(false) => {
                    drop(write);
                    Ok(0)
                }
                Err(refusal) => {
                    drop(write);
                    Err(refusal)
                }
            },
            None => {
                let partition = self.current(routed.table.keyspace);
                match Self::first_bound(alloc, partition, routed) {
                    Ok(Some(new)) => {
                        let schema = &self.schema;
                        write_first(rt, alloc, pass, tx, new, schema, write)
                    }
                    Ok(None) => {
                        drop(write);
                        Ok(0)
                    }
                    Err(refusal) => {
                        drop(write);
                        look_at_each(rt, pass, partition.parts());
                        Err(refusal)
                    }
                }
            }
        }
    }

    /// Makes a write in an open transaction.
    pub(crate) fn write_in(
        &self,
        rt: &impl Wait,
        alloc: Global,
        pass: &mut ShardPass<W, J>,
        tx: &mut OpenTx<W, J>,
        write: Write,
    ) -> Result<Reply, Refusal>
        requires typed { IsTypedWrite W.opening.schema write }
        requires there { written_table write < length W.opening.schema.tables }
        requires ready { IsReady W.opening pass.old }
        requires tx { IsOf W.opening (Some tx.old) pass.old }
        ensures ok { IfOk result (λ reply. GoesOnIn W.opening W.limits pass.old tx.old (Typed.Write write)
            reply pass.new (Some tx.new)) }
        ensures err { IfErr result (λ e. IsRefusedStep W.opening W.limits pass.old tx.old (Typed.Write write) e pass.new) }
        ensures unchanged { OnErr result (tx.new ≡ tx.old) }
    {
        let table = &self.schema.tables.as_slice()[written_table(&write)];
        match write_route(alloc, &self.schema, &write) {
            Ok(route) => {
                let routed = Routed {
                    table,
                    route: &route,
                };
                let count = self.count_by(rt, alloc, pass, tx, write, &routed);
                drop(route);
                Ok(counted(alloc, count?))
            }
            Err(_) => {
                drop(write);
                Err(Refusal::OutOfMemory)
            }
        }
    }

    /// Commits an open transaction.
    pub(crate) fn commit_in(
        &self,
        rt: &impl Wait,
        alloc: Global,
        pass: &mut ShardPass<W, J>,
        tx: &mut OpenTx<W, J>,
    ) -> Result<Reply, Refusal>
        requires ready { IsReady W.opening pass.old }
        requires tx { IsOf W.opening (Some tx.old) pass.old }
        ensures ok { IfOk result (λ reply. GoesOnIn W.opening W.limits pass.old tx.old Typed.Commit reply pass.new None) }
        ensures err { IfErr result (λ e. IsRefusedStep W.opening W.limits pass.old tx.old Typed.Commit e pass.new) }
        ensures unchanged { OnErr result (tx.new ≡ tx.old) }
    {
        match &tx.bound {
            Some(here) => {
                commit_at(rt, alloc, pass, here, &mut tx.pending)?;
                Ok(counted(alloc, 0))
            }
            None => Ok(counted(alloc, 0)),
        }
    }
}
