//! The job `run`: one station after another.
#![tactic(auto)]

mod first_stage;
mod kept;
pub mod laws;
pub mod limits;
mod next_station;
pub mod output;
mod run_job;
mod run_options;
mod stage;
mod stopping;
mod threads;

pub use output::{ClosedOutput, JobResult, drop_unwritten, unbuffered, without_output};
pub use run_job::run;
pub use run_options::RunOptions;
