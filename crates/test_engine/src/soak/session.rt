//! A session, which runs what its model chooses.
ghost use Rattle.std.specs.Prelude.{IsSome};
ghost use Rattle.shard_calls.specs.Pendings.{IsOf};

use crate::soak::watch::Watch;
use crate::soak_model::{Ids, SessionModel, SoakFault, Statement, Verb, check_whole};
use admin::{Answer, Engine, Open, Tx};
use journal::Naming;
use shard_calls::{ShardPass, World};
use std::alloc::Global;
use std::sync::Wait;
use std::thread::Threads;
use vt_value::Refusal;

/// How many tables there are.
const TABLES: u64 = 4;

/// A session that has run nothing yet: what it has seen of the router, and its model.
#[derive(Drop)]
pub struct Client<W: World, J: Naming> {
    pub pass: ShardPass<W, J>,
    pub book: SessionModel,
    ghost known: { IsSome pass.session },
}

/// A session at work on a router.
#[derive(Drop)]
pub struct Session<'e, W: World, J: Naming, R> {
    rt: &'e R,
    alloc: Global,
    engine: &'e Engine<W, J, Open>,
    watch: Watch<'e>,
    pass: ShardPass<W, J>,
    book: SessionModel,
    ghost known: { IsSome pass.session },
}

// No transaction of the pass's session is open.
fn none_open<W: World, J: Naming>(pass: &ShardPass<W, J>) -> Tx<W, J>
    ensures { IsOf W.opening result pass.now }
{
    let _ = pass;
    Tx::new()
}

impl<'e, W: World + Send + Sync, J: Naming + Send + Sync, R: Threads + Wait + Sync> Session<
    'e,
    W,
    J,
    R,
> {
    /// The session of a client.
    pub fn new(
        rt: &'e R,
        alloc: Global,
        engine: &'e Engine<W, J, Open>,
        watch: Watch<'e>,
        client: Client<W, J>,
    ) -> Session<'e, W, J, R> {
        let Client { pass, book } = client;
        Session {
            rt,
            alloc,
            engine,
            watch,
            pass,
            book,
        }
    }

    // Runs a statement in the session's transaction, if one is open.
    fn ask(&mut self, tx: &mut Tx<W, J>, statement: &Statement) -> Result<Answer, Refusal>
        requires tx { IsOf W.opening tx.old self.old.pass }
        ensures tx { IsOf W.opening tx.new self.new.pass }
    {
        let text = format!(in self.alloc; "{statement}")?;
        self.book.tally.ran(statement.verb);
        let reply = self
            .engine
            .execute(self.rt, self.alloc, &mut self.pass, tx, text.as_bytes())?;
        Ok(reply.answer)
    }

    // Runs a statement outside of a transaction.
    fn ask_alone(&mut self, statement: &Statement) -> Result<Answer, Refusal> {
        let mut tx = none_open(&self.pass);
        let told = self.ask(&mut tx, statement);
        drop(tx);
        told
    }

    // Runs the next statement.
    fn step(&mut self, tx: &mut Tx<W, J>) -> Result<(), SoakFault>
        requires tx { IsOf W.opening tx.old self.old.pass }
        ensures tx { IsOf W.opening tx.new self.new.pass }
    {
        let within = tx.is_open();
        let statement = self.book.choose(within);
        let told = self.ask(tx, &statement);
        self.book.settle(&statement, told, within, tx.is_open())
    }

    // One after the other, until all are to stop.
    fn steps(&mut self, tx: &mut Tx<W, J>) -> Result<(), SoakFault>
        requires tx { IsOf W.opening tx.old self.old.pass }
        ensures tx { IsOf W.opening tx.new self.new.pass }
    {
        for _ in 0..u64::MAX {
            if self.watch.is_stopped() {
                break;
            }
            self.step(tx)?;
        }
        Ok(())
    }

    // All that it does, until it is told to stop, or finds a fault: then it tells the others to stop.
    fn run(&mut self) {
        let mut tx = none_open(&self.pass);
        let ended = self.steps(&mut tx);
        drop(tx);
        if ended.is_err() {
            self.watch.stop();
        }
        self.book
            .end(self.pass.session(), self.pass.statements(), ended);
    }

    // The rows of a table, or their number, are those of the models.
    fn check_table(
        &mut self,
        books: &[SessionModel],
        table: u64,
        verb: Verb,
    ) -> Result<(), SoakFault> {
        let statement = Statement {
            verb,
            table,
            ids: Ids::All,
            value: 0,
        };
        let answer = self.ask_alone(&statement)?;
        check_whole(books, &statement, &answer)
    }

    /// The rows that there are, by this session, are those of the models.
    pub fn check(&mut self, books: &[SessionModel]) -> Result<(), SoakFault> {
        for table in 0..TABLES {
            self.check_table(books, table, Verb::Scatter)?;
            self.check_table(books, table, Verb::Count)?;
        }
        Ok(())
    }
}

/// What a client leaves that has done all it does.
pub fn work<'e, W: World + Send + Sync, J: Naming + Send + Sync, R: Threads + Wait + Sync>(
    rt: &'e R,
    alloc: Global,
    engine: &'e Engine<W, J, Open>,
    watch: Watch<'e>,
    client: Client<W, J>,
) -> SessionModel {
    let mut session = Session::new(rt, alloc, engine, watch, client);
    session.run();
    session.book
}
