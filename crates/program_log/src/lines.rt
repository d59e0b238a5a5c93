//! The log of a server: records as lines of text, a queue that no statement waits for, and the loop that writes its lines.

mod draft;
mod forging;
mod level;
mod line;
mod queue;
mod sink;
mod text;
mod time;
mod writer;

pub use forging::no_line_is_forged;
pub use level::{VARIABLE, asked_level, environment_level, found_level};
pub use line::{LogLine, line_of};
pub use queue::{LineQueue, QUEUED_LINES};
pub use sink::LineSink;
pub use time::instant;
pub use writer::{LineWriter, NotStarted, report_of, start_writing, write_lines};
