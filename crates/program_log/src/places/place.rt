//! Where in a VSchema something lies: its keyspace, table and member, or a line and a column.

use std::alloc::Global;

/// Where a fault lies. What it doesn't lie in is empty, or 0.
#[derive(Drop)]
pub struct Place {
    pub keyspace: String,
    pub table: String,
    pub member: String,
    /// Where the text stops to be JSON, from 1 on.
    pub line: u64,
    pub column: u64,
}

impl Place {
    /// In the whole text.
    pub fn whole(alloc: Global) -> Place {
        Place {
            keyspace: String::new(alloc),
            table: String::new(alloc),
            member: String::new(alloc),
            line: 0,
            column: 0,
        }
    }
}
