//! Routes and plans: which shards a statement needs, what each of them answers, and what is made of their answers.
#![tactic(auto)]

mod conjuncts;
mod copies;
mod finishing;
mod keys;
mod members;
mod needed;
mod pieces;
mod planning;
mod plans;
mod points;
mod routes;
mod spans;
mod taking;

pub use keys::{KeyColumn, Keys};
pub use members::{InValue, InValues, KnownId};
pub use needed::NeededValues;
pub use operators::{Operator, Rows, ShownRows};
pub use planning::{plan, query_route};
pub use plans::{Finish, Plan};
pub use points::{is_answer, is_plain, point_route};
pub use routes::{Route, route_of, write_route};
pub use taking::{shards, single_id, takes, takes_by};
pub use vschema::{Query, Typed, VSchema, Write};
