//! `vtgate script`: lines that are run in order, over an opened router and the administrator of its sharded keyspace. And `vtgate plan`, which
//! opens none.

mod plan;
mod script;
mod sessions;

pub use plan::run_plan;
pub use script::run_script;
