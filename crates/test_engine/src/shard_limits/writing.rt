//! Writes and reads of one small shard.
ghost use Rattle.std.specs.Prelude.{◌≡◌, ◌∷◌, [], IfOk, length};
ghost use Rattle.vschema.specs.Sources.{SourcesThere};
ghost use Rattle.vschema.specs.TypedWrites.{IsTypedWrite};
ghost use Rattle.journal.specs.Views.{fresh_seats};
ghost use Rattle.shard_contents.specs.Commits.{IsPlaced};
ghost use Rattle.test_engine.specs.shard_limits.SmallWorld.{small_columns, small_schema, small_shard};
ghost use Rattle.test_engine.specs.shard_limits.inner.SmallWorld.{insert_of, update_all, delete_all, IsNumbered};

use crate::shard_limits::playing::Session;
use journal::{Naming, ShardSeat};
use keyrange::KeyRange;
use shard_calls::{CommitOutcome, Limits, ReadOutcome, ShardLaw, ShardState, Store, World};
use shard_run::Mode;
use sql_tree::{Assignment, Item};
use std::alloc::Global;
use std::sync::Wait;
use vschema::{
    Column, ColumnType, Columns, GroupBy, Hashing, Keyspace, Place, Query, Table, Tables, VSchema,
    Write,
};
use vt_value::{Items, Refusal, Row, Value};

// At most two rows, and at most four stored entries.
pub(crate) struct Small;

impl World for Small {
    ghost use Rattle.test_engine.specs.shard_limits.SmallWorld.{small_opening, small_limits};

    ghost opening = { small_opening };

    ghost limits = { small_limits };
}

fn one<T: Drop>(alloc: Global, item: T) -> Result<Items<T>, Refusal>
    ensures { IfOk result (λ items. items ≡ item ∷ []) }
{
    let mut items = Items::new(alloc);
    items.push(item)?;
    Ok(items)
}

fn two<T: Drop>(alloc: Global, first: T, second: T) -> Result<Items<T>, Refusal>
    ensures { IfOk result (λ items. items ≡ first ∷ second ∷ []) }
{
    let mut items = Items::new(alloc);
    items.push(first)?;
    items.push(second)?;
    Ok(items)
}

fn column(alloc: Global, name: &[u8], nullable: bool) -> Result<Column, Refusal>
    ensures { IfOk result (λ c. c ≡ record { name = name.now; kind = ColumnType.BigIntUnsigned; nullable = nullable }) }
{
    Ok(Column {
        name: Items::from_slice(alloc, name)?,
        kind: ColumnType::BigIntUnsigned,
        nullable,
    })
}

fn columns(alloc: Global) -> Result<Columns, Refusal>
    ensures { IfOk result (λ columns. columns ≡ small_columns) }
{
    let mut columns = Columns::new(alloc);
    columns.insert(column(alloc, b"id", false)?)?;
    columns.insert(column(alloc, b"c", true)?)?;
    Ok(columns)
}

fn tables(alloc: Global) -> Result<Items<Table>, Refusal>
    ensures { IfOk result (λ tables. tables ≡ small_schema.tables) }
{
    let name = Items::from_slice(alloc, b"t")?;
    let columns = columns(alloc)?;
    let primary_key = one(alloc, 0)?;
    one(
        alloc,
        Table {
            name,
            keyspace: 0,
            columns,
            primary_key,
            vindex: None,
        },
    )
}

fn keyspaces(alloc: Global) -> Result<Items<Keyspace>, Refusal>
    ensures { IfOk result (λ keyspaces. keyspaces ≡ small_schema.keyspaces) }
{
    let name = Items::from_slice(alloc, b"shop")?;
    one(
        alloc,
        Keyspace {
            name,
            sharded: false,
        },
    )
}

pub(crate) fn schema(alloc: Global) -> Result<VSchema, Refusal>
    ensures { IfOk result (λ schema. schema ≡ small_schema) }
{
    let tables = Tables::new(tables(alloc)?);
    let keyspaces = keyspaces(alloc)?;
    Ok(VSchema { keyspaces, tables })
}

fn insert(alloc: Global, id: u64) -> Result<Write, Refusal>
    ensures { IfOk result (λ w. w ≡ insert_of id) }
{
    let row = two(alloc, Value::Int(id as i128), Value::Null)?;
    Ok(Write::Insert(0, one(alloc, row)?))
}

fn update(alloc: Global) -> Result<Write, Refusal>
    ensures { IfOk result (λ w. w ≡ update_all) }
{
    let seven = Assignment {
        column: 1,
        value: Value::Int(7),
    };
    Ok(Write::Update(0, one(alloc, seven)?, None))
}

fn delete() -> Write
    ensures { result ≡ delete_all }
{
    Write::Delete(0, None)
}

/// A statement.
#[derive(Clone, Copy)]
pub(crate) enum Act {
    // of a row with this id, which is less than 4
    Insert(u64),
    Update,
    Delete,
}

/// What a statement writes.
pub(crate) fn written(alloc: Global, act: Act) -> Result<Write, Refusal>
    ensures typed { IfOk result (λ w. IsTypedWrite small_schema w) }
    ensures placed { IfOk result (λ w. IsPlaced small_schema small_shard.place w) }
{
    match act {
        Act::Insert(id) if id < 4 => insert(alloc, id),
        Act::Insert(_) => Err(Refusal::NotSupported),
        Act::Update => update(alloc),
        Act::Delete => Ok(delete()),
    }
}

fn place() -> Place
    ensures { result ≡ small_shard.place }
{
    Place {
        keyspace: 0,
        range: KeyRange::full(),
    }
}

fn shard(alloc: Global) -> shard_run::ShardRecord
    ensures { result ≡ small_shard }
{
    shard_run::ShardRecord {
        slot: 0,
        place: place(),
        sources: Items::new(alloc),
    }
}

pub(crate) fn first_seat<J: Naming>(
    seats: Vec<ShardSeat<ShardLaw<Small>, J>>,
) -> ShardSeat<ShardLaw<Small>, J>
    requires { seats.items ≡ fresh_seats 64 }
    ensures { result ≡ record { seen = []; slot = 0 } }
{
    seats.into_iter().next().unwrap()
}

pub(crate) fn state<J: Naming>(
    alloc: Global,
    seat: ShardSeat<ShardLaw<Small>, J>,
) -> Result<ShardState<Small, J>, Refusal>
    requires { seat ≡ record { seen = []; slot = 0 } }
    ensures { IfOk result (λ state. state.shard ≡ small_shard) }
{
    let mut store = Store::new(alloc);
    let schema = schema(alloc)?;
    store.push_table(alloc, &schema.tables.as_slice()[0])?;
    let limits = Limits { rows: 2, stored: 4 };
    Ok(ShardState::new(alloc, seat, shard(alloc), store, Mode::Serving, limits))
}

// SELECT item FROM t
pub(crate) fn query(alloc: Global, item: Item<usize>) -> Result<Query, Refusal>
    ensures { IfOk result (SourcesThere (length small_schema.tables)) }
{
    Ok(Query {
        table: 0,
        join: None,
        items: one(alloc, item)?,
        qualified: Items::new(alloc),
        filter: None,
        group_by: GroupBy::new(Items::new(alloc), Hashing::known()),
        order_by: Items::new(alloc),
        limit: None,
    })
}

// The number of a row that has nothing else.
fn number_in(row: &Row) -> Option<i128> {
    match row.as_slice() {
        [Value::Int(number)] => Some(*number),
        _ => None,
    }
}

// The number of the one row that a shard gave.
fn number_of(read: &ReadOutcome) -> Option<i128> {
    match read {
        ReadOutcome::Rows(reading) => match reading.rows.as_slice() {
            [row] => number_in(row),
            _ => None,
        },
        ReadOutcome::NotServing => None,
    }
}

// How many rows a shard gave, and how many entries it had.
fn counts_of(read: &ReadOutcome) -> (usize, u64) {
    match read {
        ReadOutcome::Rows(reading) => (reading.rows.len(), reading.entries),
        ReadOutcome::NotServing => (0, 0),
    }
}

// A write that the shard, which always serves, gave back.
fn not_taken(write: Write) -> Result<u64, Refusal> {
    drop(write);
    Err(Refusal::NotSupported)
}

impl<J: Naming, R: Wait> Session<'_, J, R> {
    /// Numbers the session's next statement. What it has seen stays, so a transaction is where it was.
    pub(crate) fn next_statement(&mut self) -> Result<(), Refusal>
        ensures seen { self.new.pass.seen ≡ self.old.pass.seen }
        ensures above { IfOk result (λ _. IsNumbered self.new.pass) }
    {
        self.pass.next_statement()?;
        Ok(())
    }

    // A write of the session's statement.
    fn write(&mut self, write: Write) -> Result<u64, Refusal>
        requires typed { IsTypedWrite small_schema write }
        requires placed { IsPlaced small_schema small_shard.place write }
        requires above { IsNumbered self.old.pass }
    {
        match self
            .shard
            .commit(self.rt, self.alloc, &mut self.pass, self.schema, write)
        {
            Ok(CommitOutcome::Count(count)) => Ok(count),
            Ok(CommitOutcome::Frozen(write)) => not_taken(write),
            Ok(CommitOutcome::NotServing(write)) => not_taken(write),
            Err(refusal) => Err(refusal),
        }
    }

    /// What the session's next statement gives.
    pub(crate) fn run(&mut self, act: Act) -> Result<u64, Refusal> {
        self.next_statement()?;
        let write = written(self.alloc, act)?;
        self.write(write)
    }

    // Runs the next statement, and runs it again if it had no memory: a commit that was refused for memory has changed nothing.
    fn run_again(&mut self, act: Act) -> Result<u64, Refusal> {
        match self.run(act) {
            Err(Refusal::OutOfMemory) => self.run(act),
            done => done,
        }
    }

    // What the shard, which always serves, gives for SELECT item FROM t.
    fn read(&mut self, item: Item<usize>) -> Result<ReadOutcome, Refusal> {
        let query = query(self.alloc, item)?;
        let read = self.shard.read(self.rt, self.alloc, &mut self.pass, &query);
        drop(query);
        Ok(read?)
    }

    // What COUNT(*) gives.
    fn counted(&mut self) -> Result<Option<i128>, Refusal> {
        let read = self.read(Item::CountRows)?;
        Ok(number_of(&read))
    }

    /// How many rows the shard has, and how many entries.
    pub(crate) fn counts(&mut self) -> Result<(usize, u64), Refusal> {
        let read = self.read(Item::Column(0))?;
        Ok(counts_of(&read))
    }

    // Whether a statement gives this, and leaves so many rows and entries.
    fn step(
        &mut self,
        act: Act,
        given: Result<u64, Refusal>,
        after: (u8, u64),
    ) -> Result<bool, Refusal> {
        let (rows, entries) = after;
        let told = self.run_again(act);
        let counts = self.counts()?;
        let counted = self.counted()?;
        Ok(
            told == given
                && counts == (usize::from(rows), entries)
                && counted == Some(i128::from(rows)),
        )
    }

    /// A key that is there, the limit of rows and the limit of stored entries refuse, and then nothing has changed.
    pub(crate) fn writes(&mut self) -> Result<bool, Refusal> {
        let steps = [
            (Act::Insert(1), Ok(1), (1, 1)),
            (Act::Insert(1), Err(Refusal::DuplicateKey), (1, 1)),
            (Act::Insert(2), Ok(1), (2, 2)),
            (Act::Insert(3), Err(Refusal::ShardFull), (2, 2)),
            (Act::Update, Ok(2), (2, 3)),
            (Act::Delete, Ok(2), (0, 4)),
            (Act::Insert(1), Err(Refusal::ShardFull), (0, 4)),
        ];
        for (act, given, after) in steps {
            if !self.step(act, given, after)? {
                return Ok(false);
            }
        }
        Ok(true)
    }
}
