//! What is reported of the paths of a run while it goes on.
#![tactic(auto)]

mod receivers_json;
mod watch;
mod watched_path;

pub use watch::Watch;
pub use watched_path::PathChange;
