//! What a shard holds under its lock, and what its commits, its transactions and its copies make of that, in memory made before an entry is appended.
#![tactic(auto)]

mod changes_by_key;
mod contents;
mod copies;
mod copying;
mod kept_entry;
mod next_rows;
mod outcomes;
mod own_changes;
mod pending;
mod preparing;
mod rows_left;
mod sorted;
mod store;
mod stored_entries;
mod target_steps;
mod touched_table;
mod transaction_rows;

pub use contents::{Contents, Prepared, StatementId, written_table};
pub use copies::{copy_change, copy_changes, copy_shard, one, with_owned};
pub use copying::{
    NextTable, PreparedCopy, SourceProgress, changed_row, copied, first_named, restricted_changes,
};
pub use kept_entry::KeptEntry;
pub use next_rows::{COPY_STEP, is_key_before, is_reached, lies_in};
pub use outcomes::{CommitOutcome, ReadOutcome, Reading};
pub use own_changes::OwnChanges;
pub use pending::Pending;
pub use shard_law::{
    Limits, MOST_ENTRIES, MOST_ROWS, MOST_STORED, Narrowed, Whole, narrow, select_local,
    shards_hold_one_database,
};
pub use shard_store::{Fixed, StoredTables, fixed_values, rows_by_limit};
pub use sorted::{SortedTable, SortedTables};
pub use store::changed_table;
pub use stored_entries::StoredEntries;
pub use target_steps::TargetStep;
pub use touched_table::Touch;
pub use transaction_rows::select_in_transaction;
pub use vschema::VSchema;
