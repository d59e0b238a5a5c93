//! The VSchema: keyspaces and tables, and statements with their columns resolved.
#![tactic(auto)]

ghost use Rattle.std.specs.Prelude.{◌≡◌, Ok};
ghost use Rattle.sql_tree.specs.declared.Select.{Select};
ghost use Rattle.vschema.specs.declared.schema.Query.{Query};
ghost use Rattle.vschema.specs.declared.schema.VSchema.{VSchema};
ghost use Rattle.vschema.specs.TypedStatement.{typed_select};
ghost use Rattle.vschema.specs.Sources.{JoinsInPlace};

mod changes;
mod checks;
mod columns;
mod first_ordinals;
mod group_by;
mod hashing;
mod joins;
mod meaning;
mod names;
mod reading;
mod resolve;
mod schema;
mod scope;
mod twice;
mod write_checks;
mod writes;

pub use changes::{RowChange, Write};
pub use columns::Columns;
pub use first_ordinals::FirstOrdinals;
pub use group_by::GroupBy;
pub use hashing::Hashing;
pub use keyrange::{KeyRange, covers_once};
pub use schema::{ColumnVindex, Join, Keyspace, Place, Query, Table, Tables, Typed, VSchema};
pub use vschema_json::{Column, ColumnType, SchemaFault};
pub use vt_value::{Items, Row};
pub use write_checks::{is_out_of_range, is_too_long};

// Promise: Each join that a statement means is one that shards can make by themselves: both tables lie in one keyspace, and either neither has a
// vindex, or ON has the columns of the vindex that both have
/// The pairs of each join that a statement means lie on one shard each.
pub fn joins_lie_in_place()
    ensures { (schema : VSchema) (s : Select) (q : Query) → typed_select schema s ≡ Ok q → JoinsInPlace schema q }
{}
