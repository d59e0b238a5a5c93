//! The status of a served router over HTTP.
#![tactic(auto)]

mod client;
mod replies;
mod request;
mod server;

pub use replies::{refusal, reply};
pub use request::{Asked, Fault, MOST_HEAD, Path, asked_by, read_request};
pub use server::{MOST_CLIENTS, Watched, answer_to, serve_status, shown};
pub use status_page::{
    ConnectionFigures, Counter, Counts, CutoverFigures, Ending, Figures, KeyRange, Kind,
    ShardFigures, ShardMode, Totals, WorkflowFigures, WorkflowState, bucket_of,
};
