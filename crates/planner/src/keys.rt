//! The columns of rows whose value decides the shard of a row.
ghost use Rattle.std.specs.Prelude.{◌≡◌, option_map};
ghost use Rattle.planner.specs.Routes.{kind_in, second_kind, second_key, keys_on};

use crate::routes::type_at;
use vschema::{ColumnType, ColumnVindex, Join, Table};

/// A column that decides the shard of a row, by its ordinal, and its type.
#[derive(Clone, Copy, Debug, PartialEq, Eq)]
pub struct KeyColumn {
    pub column: usize,
    pub kind: ColumnType,
}

/// The vindex column of a table, or the two of a join's tables, which have one value in each pair.
#[derive(Clone, Copy, Debug, PartialEq, Eq)]
pub struct Keys {
    pub first: KeyColumn,
    pub second: Option<KeyColumn>,
}

fn second_kind(second: Option<KeyColumn>, column: usize) -> Option<ColumnType>
    ensures { result ≡ second_kind second column }
{
    match second {
        Some(key) if key.column == column => Some(key.kind),
        _ => None,
    }
}

/// The type of a column, if it is one of these.
pub fn kind_in(keys: Keys, column: usize) -> Option<ColumnType>
    ensures { result ≡ kind_in keys column }
{
    if keys.first.column == column {
        Some(keys.first.kind)
    } else {
        second_kind(keys.second, column)
    }
}

fn second_key(join: Option<Join>) -> Option<KeyColumn>
    ensures { result ≡ option_map second_key join }
{
    match join {
        Some(join) => Some(KeyColumn {
            column: join.second,
            kind: join.kind,
        }),
        None => None,
    }
}

/// The columns that decide the shard of a table's rows on which this vindex is, or of the pairs of a join.
pub fn keys_on(table: &Table, vindex: ColumnVindex, join: Option<Join>) -> Keys
    ensures { result ≡ keys_on table.now vindex join }
{
    Keys {
        first: KeyColumn {
            column: vindex.column,
            kind: type_at(table, vindex.column),
        },
        second: second_key(join),
    }
}
