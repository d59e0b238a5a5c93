//! Which joins are taken.
ghost use Rattle.std.specs.Prelude.{◌≡◌, length};
ghost use Rattle.vschema.specs.Joins.{takes_keys, takes_columns};
ghost use Rattle.vschema.specs.inner.LateChecks.{refuses_any, refuses_join};

use crate::checks::{column_is_text, differ};
use crate::schema::{ColumnVindex, Join, Table};
use crate::scope::{Scope, second_of, table_of, width};
use vschema_json::is_one_vindex;

fn takes_keys(
    scope: &Scope,
    a: usize,
    b: usize,
    first: Option<ColumnVindex>,
    second: Option<ColumnVindex>,
) -> bool
    ensures { result ≡ takes_keys scope.now a b first second }
{
    match (first, second) {
        (None, None) => !differ(column_is_text(scope, a), column_is_text(scope, b)),
        (Some(v), Some(w)) => {
            is_one_vindex(v.number, v.vindex, w.number, w.vindex)
                && v.column == a
                && b >= width(scope)
                && b - width(scope) == w.column
        }
        _ => false,
    }
}

fn takes_columns(scope: &Scope, table: &Table, a: usize, b: usize) -> bool
    ensures { result ≡ takes_columns scope.now table.now a b }
{
    a < width(scope)
        && width(scope) <= b
        && table_of(scope).keyspace == table.keyspace
        && takes_keys(scope, a, b, table_of(scope).vindex, table.vindex)
}

/// Whether a query's join isn't taken: of a table with itself, of an aggregated query, or of columns by which its pairs may lie on two
/// shards, or that differ in kind.
pub fn join_is_refused(scope: &Scope, ordinal: usize, join: Option<Join>, aggregated: bool) -> bool
    ensures { result ≡ refuses_join scope.now ordinal aggregated join }
{
    let Some(join) = join else {
        return false;
    };
    match second_of(scope) {
        Some(table) => {
            ordinal == join.table
                || aggregated
                || !takes_columns(scope, table, join.first, join.second)
        }
        None => true,
    }
}
