//! Scenes over a new router, each played once: an administrator and two sessions act in turn, each act with what it is to give, with a third
//! session's statement in a thread of its own. A gate holds reads, and one more thread a shard's lock, until the acts let them go.

mod acts;
mod answers;
mod common;
mod gate;
mod gates;
mod limits;
mod lines;
mod locks;
mod opened;
mod reads;
mod reopening;
mod scene_schema;
mod scenes;
mod session;
mod stage;
mod steps;
mod stops;
mod waiting;
mod writes;

pub use answers::answer;
