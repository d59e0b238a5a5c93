//! Trees of SQL statements.
#![tactic(auto)]

mod conditions;
mod lists;
mod literals;
mod printing;

pub use printing::{print, print_item};
use sql_lexer::{Boxed, Comparison, Items, Value};

/// The name of a table or a column, byte by byte as it was written.
pub type Name = Items<u8>;

/// The name of a column, after that of its table if it is qualified.
#[derive(Drop)]
pub struct ColumnName {
    pub table: Option<Name>,
    pub name: Name,
}

/// What is compared: a column, as `C` says it, or a literal.
#[derive(Drop)]
pub enum Operand<C> {
    Column(C),
    Literal(Value),
}

/// A condition over columns, as `C` says them: by name in a parsed tree, by ordinal once it is resolved. `And` and
/// `Or` have two or more members.
#[derive(Drop)]
pub enum Condition<C> {
    Compare(Comparison, Operand<C>, Operand<C>),
    In(Operand<C>, Items<Value>),
    IsNull(Operand<C>),
    Not(Boxed<Condition<C>>),
    And(Items<Condition<C>>),
    Or(Items<Condition<C>>),
}

/// What a select list shows in one column.
#[derive(Drop)]
pub enum Item<C> {
    Column(C),
    CountRows,
    Count(C),
    Sum(C),
    Min(C),
    Max(C),
}

/// What a SELECT shows: `*`, or items, one or more.
#[derive(Drop)]
pub enum SelectList {
    All,
    Items(Items<Item<ColumnName>>),
}

/// A column to order by.
#[derive(Drop)]
pub struct Key<C> {
    pub column: C,
    pub descending: bool,
}

/// How many rows are wanted, and how many are passed over before them.
#[derive(Clone, Copy, Debug, PartialEq, Eq)]
pub struct LimitClause {
    pub count: u64,
    pub offset: u64,
}

/// The second table of a SELECT, and the two columns that are equal in each of its pairs.
#[derive(Drop)]
pub struct JoinOn {
    pub table: Name,
    pub left: ColumnName,
    pub right: ColumnName,
}

/// A SELECT. `group_by` and `order_by` are empty if it has no such clause.
pub struct Select {
    pub list: SelectList,
    pub table: Name,
    pub join: Option<JoinOn>,
    pub filter: Option<Condition<ColumnName>>,
    pub group_by: Items<ColumnName>,
    pub order_by: Items<Key<ColumnName>>,
    pub limit: Option<LimitClause>,
}

impl Drop for Select {
    // Who drops one calls this, and need not know what it owns.
    fn drop(self) {
        let Select {
            list,
            table,
            join,
            filter,
            group_by,
            order_by,
            limit,
        } = self;
        drop(list);
        drop(table);
        drop(join);
        drop(filter);
        drop(group_by);
        drop(order_by);
        drop(limit);
    }
}

/// An INSERT. Without a list of columns its rows have a value for each column of the table.
#[derive(Drop)]
pub struct Insert {
    pub table: Name,
    pub columns: Option<Items<Name>>,
    pub rows: Items<Items<Value>>,
}

/// What a SET stores in a column, as `C` says it.
#[derive(Drop)]
pub struct Assignment<C> {
    pub column: C,
    pub value: Value,
}

/// An UPDATE of the rows that the filter keeps, of all rows without one.
pub struct Update {
    pub table: Name,
    pub assignments: Items<Assignment<Name>>,
    pub filter: Option<Condition<ColumnName>>,
}

impl Drop for Update {
    // Who drops one calls this, and need not know what it owns.
    fn drop(self) {
        let Update {
            table,
            assignments,
            filter,
        } = self;
        drop(table);
        drop(assignments);
        drop(filter);
    }
}

/// A DELETE of the rows that the filter keeps, of all rows without one.
pub struct Delete {
    pub table: Name,
    pub filter: Option<Condition<ColumnName>>,
}

impl Drop for Delete {
    // Who drops one calls this, and need not know what it owns.
    fn drop(self) {
        let Delete { table, filter } = self;
        drop(table);
        drop(filter);
    }
}

/// A character set as it is named.
#[derive(Drop)]
pub enum CharacterSet {
    Identifier(Name),
    Text(Items<u8>),
}

/// A statement. START TRANSACTION is `Begin`.
#[derive(Drop)]
pub enum Statement {
    Select(Select),
    Insert(Insert),
    Update(Update),
    Delete(Delete),
    Begin,
    Commit,
    Rollback,
    SetNames(CharacterSet),
}
