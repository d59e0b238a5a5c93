//! What conditions, queries and writes mean over rows.
#![tactic(auto)]

mod conditions;
mod duplicates;
mod extremes;
mod filters;
mod fronts;
mod groups;
mod joins;
mod narrowed;
mod ordered;
mod pair_fronts;
mod queries;
mod rows;
mod shown_rows;
mod source;
mod totals;
mod writes;

pub use conditions::{Seen, keeps, truth};
pub use duplicates::{has_key_among, in_key_order};
pub use extremes::{extreme_key, select_extreme};
pub use groups::{Grouping, copy_item, group_columns, group_order};
pub use joins::{PairSource, SlicePairs, copy_seen, is_pair, select_pairs};
pub use narrowed::{Narrowed, Whole, narrow};
pub use queries::{counts_all, select_count, select_from, select_in_order, select_local, show};
pub use rows::same_row;
pub use source::{RowSource, SliceRows, all_kept, next_kept};
pub use vschema::{ColumnVindex, Join, Query, RowChange, Table, Write};
pub use writes::{change_local, removals_from, updates_from};
