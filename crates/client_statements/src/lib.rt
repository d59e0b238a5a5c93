//! What a client asks of a server besides SQL over tables: settings, variables, and which keyspaces and tables there are.
#![tactic(auto)]

mod answers;
mod columns;
mod keyspaces;
mod kinds;
mod likes;
mod listings;
mod names;
mod reading;
mod rule;
mod selects;
mod sets;
mod settings;
mod shows;
mod statement;
pub mod tokens;
mod variable;
mod variables;

pub use answers::{ClientAnswer, Facts, answer};
pub use keyspaces::{keyspace_name, keyspace_ordinal};
pub use likes::is_like;
pub use reading::{may_set, read};
pub use statement::{ClientStatement, NamedValue, SelectItem, TableName};
pub use variable::Variable;
