//! The messages of the command phase of the MySQL client/server protocol: commands, and OK, EOF and ERR packets, the one that ends a result set without EOF packets, the line that answers COM_STATISTICS, and the values of text rows.
#![tactic(auto)]

mod command;
pub mod numbers;
mod reply;
mod text_value;

pub use command::{Command, StatementFault, read_command};
pub use reply::{
    eof_payload, prepared_payload, put_eof, put_err, put_fault, put_ok, put_set_end,
    put_statistics, set_end_payload,
};
pub use text_value::put_text_value;
