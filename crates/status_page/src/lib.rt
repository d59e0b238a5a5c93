//! The status of a served router as text: its metrics, and its page.
#![tactic(auto)]

mod families;
mod histogram;
mod metrics_text;
mod page_parts;
mod page_script;
mod page_style;
mod page_table;
mod page_text;
mod samples;
mod texts;

pub use metrics_text::metrics;
pub use page_script::SCRIPT_HASH;
pub use page_style::STYLE_HASH;
pub use page_text::page;
pub use status_figures::{
    BOUNDS, BUCKETS, ConnectionFigures, Counter, Counts, CutoverFigures, ENDINGS, Edge, Ending,
    Figures, KINDS, KeyRange, Kind, REFUSALS, ShardFigures, ShardMode, Totals, WorkflowFigures,
    WorkflowState, bucket_of,
};
pub use texts::{put, put_number};
