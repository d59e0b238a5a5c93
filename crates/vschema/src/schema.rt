//! The VSchema and the statements over it, as types. Ordinals replace names, so nothing is looked up once a statement is resolved.
ghost use Rattle.std.specs.Prelude.{◌≡◌, IsTrue, length};
ghost use Rattle.vschema.specs.Formed.{is_formed};

use crate::changes::Write;
use crate::columns::Columns;
use crate::group_by::GroupBy;
use crate::hashing::Hashing;
use keyrange::KeyRange;
use sql_tree::{Condition, Item, Key, LimitClause, Name};
use std::marker::Model;
use vschema_json::{AnyVindex, ColumnType};
use vt_value::Items;

/// The column that decides the shard of a row, by its ordinal, and how; and which of the vindexes of its keyspace that is.
#[derive(Clone, Copy, Debug, PartialEq, Eq)]
pub struct ColumnVindex {
    pub column: usize,
    pub vindex: AnyVindex,
    pub number: usize,
}

/// A table. Its keyspace and the columns of its primary key are given by their ordinals. It has a vindex if its
/// keyspace is sharded.
pub struct Table {
    pub name: Name,
    pub keyspace: usize,
    pub columns: Columns,
    pub primary_key: Items<usize>,
    pub vindex: Option<ColumnVindex>,
}

impl Drop for Table {
    // Who drops one calls this, and need not know what it owns.
    fn drop(self) {
        let Table {
            name,
            keyspace: _,
            columns,
            primary_key,
            vindex,
        } = self;
        drop(name);
        drop(columns);
        drop(primary_key);
        drop(vindex);
    }
}

/// The tables of a VSchema, with the key by which the values of groups are hashed. Contracts see the list of the tables.
#[derive(Drop)]
pub struct Tables {
    tables: Items<Table>,
    hashing: Hashing,
}

impl Model for Tables {
    ghost use Rattle.std.specs.Prelude.{List};
    ghost use Rattle.vschema.specs.declared.schema.Table.{Table};

    ghost Value = { List Table };

    ghost view = { λ t. t.tables };
}

impl Tables {
    /// These tables, with a key that everybody knows.
    pub fn new(tables: Items<Table>) -> Tables
        ensures { result ≡ tables }
    {
        Tables {
            tables,
            hashing: Hashing::known(),
        }
    }

    /// These tables with another key.
    pub fn keyed(self, hashing: Hashing) -> Tables
        ensures { result ≡ self }
    {
        Tables {
            tables: self.tables,
            hashing,
        }
    }

    /// The tables, in their order.
    pub fn as_slice(&self) -> &[Table]
        ensures { result.now ≡ self.now }
    {
        self.tables.as_slice()
    }

    /// How many tables there are.
    pub fn len(&self) -> usize
        ensures { result ≡ length self.now }
    {
        self.tables.len()
    }

    /// The key.
    pub fn hashing(&self) -> &Hashing {
        &self.hashing
    }
}

/// A keyspace, by its name. The rows of a sharded one lie on several shards.
#[derive(Drop)]
pub struct Keyspace {
    pub name: Name,
    pub sharded: bool,
}

/// What the router knows of its keyspaces and tables: at least one keyspace and at most one of each sort, names that differ, keys that may
/// decide a shard, and the limits.
pub struct VSchema {
    pub keyspaces: Items<Keyspace>,
    pub tables: Tables,
    pub ghost formed: { IsTrue (is_formed keyspaces tables) },
}

impl Drop for VSchema {
    // Who drops one calls this, and need not know what it owns.
    fn drop(self) {
        let VSchema { keyspaces, tables } = self;
        drop(keyspaces);
        drop(tables);
    }
}

impl VSchema {
    // Promise: A VSchema is the same whatever key it carries
    /// The VSchema, with the key by which the values of groups are hashed. One that was read has a key that everybody knows, so a program
    /// with clients gives it one of its own.
    pub fn keyed(self, hashing: &Hashing) -> VSchema
        ensures { result ≡ self }
    {
        let VSchema { keyspaces, tables } = self;
        VSchema {
            keyspaces,
            tables: tables.keyed(hashing.copy()),
        }
    }
}

/// A keyspace, by its ordinal, and a range of its ids.
#[derive(Drop)]
pub struct Place {
    pub keyspace: usize,
    pub range: KeyRange,
}

/// The second table of a join, and the two columns that are equal in each of its pairs. A pair has the columns of both tables, those of
/// the query's table first.
#[derive(Clone, Copy, Debug, PartialEq, Eq)]
pub struct Join {
    /// The second table, by its ordinal in the VSchema.
    pub table: usize,
    /// How many columns the query's table has.
    pub width: usize,
    /// The column of the query's table, by its ordinal in a pair.
    pub first: usize,
    /// The column of the second table, by its ordinal in a pair.
    pub second: usize,
    /// The type of the column of the second table.
    pub kind: ColumnType,
}

/// A query. Its table is given by its ordinal in the VSchema, its columns by their ordinals in the table, or in the pairs of a join.
/// `group_by` and `order_by` are empty if it has no such clause.
#[derive(Drop)]
pub struct Query {
    pub table: usize,
    pub join: Option<Join>,
    pub items: Items<Item<usize>>,
    /// Whether each item was written with its table's name, by which an aggregate is named; of `*` there are none.
    pub qualified: Items<bool>,
    pub filter: Option<Condition<usize>>,
    pub group_by: GroupBy,
    pub order_by: Items<Key<usize>>,
    pub limit: Option<LimitClause>,
}

/// A statement with its names resolved.
#[derive(Drop)]
pub enum Typed {
    Select(Query),
    Write(Write),
    Begin,
    Commit,
    Rollback,
    /// SET NAMES, which changes nothing.
    SetNames,
}
