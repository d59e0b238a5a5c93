//! Whether a query scans a table, or finds its rows by their keys.

use crate::stored::StoredTables;
use crate::table_rows::TableRows;
use sql_eval::{Join, Query, counts_all, extreme_key};

/// How many rows a query without a condition reads at most: no more than its LIMIT lets through, if any rows will do.
pub fn rows_by_limit(query: &Query) -> usize {
    match query.limit {
        Some(limit) if query.order_by.is_empty() && !query.is_aggregated() => {
            limit.offset.saturating_add(limit.count) as usize
        }
        _ => usize::MAX,
    }
}

impl TableRows {
    // Whether its rows are found by the values of a column, without looking at all.
    fn is_found_by(&self, column: usize) -> bool {
        match self.stored.key_columns().first() {
            Some(first) => *first == column,
            None => false,
        }
    }

    // How many rows a query without a condition reads at most: those that its LIMIT lets through, if a walk by keys meets them in its order, and one for MIN or
    // MAX of a key's column (a key has no NULL).
    fn rows_walked(&self, query: &Query) -> usize {
        if let Some(key) = extreme_key(query) {
            if self.stored.direction_to(&query.filter, &key).is_some() {
                return 1;
            }
        }
        match query.limit {
            Some(limit) if !query.is_aggregated() && self.stored.direction(query).is_some() => {
                limit.offset.saturating_add(limit.count) as usize
            }
            _ => usize::MAX,
        }
    }

    // Whether a query over these rows alone looks at more than so many.
    fn is_scanned(&self, query: &Query, most: usize) -> bool {
        if self.row_count() <= most || counts_all(query) {
            return false;
        }
        match &query.filter {
            Some(_) => self.stored.first_values(&query.filter).is_none(),
            None => self.rows_walked(query) > most,
        }
    }

    // Whether a join of these rows with those of another table looks at more than so many of either.
    fn is_scanned_with(&self, query: &Query, join: Join, second: &TableRows, most: usize) -> bool {
        if second.row_count() > most
            && !second.is_found_by(join.second.saturating_sub(join.width))
        {
            return true;
        }
        self.row_count() > most && self.stored.first_pair_values(query, join).is_none()
    }
}

impl StoredTables {
    /// Whether a query looks at more than so many rows of a table. Nothing is promised of it, since a query gives the same either way.
    pub fn scans(&self, query: &Query, most: usize) -> bool {
        let Some(table) = self.table(query.table) else {
            return false;
        };
        let Some(join) = query.join else {
            return table.is_scanned(query, most);
        };
        match self.table(join.table) {
            Some(second) => table.is_scanned_with(query, join, second, most),
            None => false,
        }
    }
}
