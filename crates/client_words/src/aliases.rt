//! A query that a client writes with aliases, without them.

mod alias;
mod groups;
mod keys;
mod list;
mod query;
mod sources;

pub use alias::{
    alias_of, is_alias, is_close, is_comma, is_equal, is_from, is_semicolon, leads_set, push,
    without_as, without_into,
};
pub use query::{PlainQuery, unaliased};
