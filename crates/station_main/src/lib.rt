//! The program `groundstation`, over any streams.
#![tactic(auto)]

pub mod laws;
mod obeying;
mod process;
mod replay_job;

pub use command_line::{ClockOrigin, Job, Pace, RunArguments, TableFormat, WordsFault, read_words};
pub use messages::{Alarms, StandardError};
pub use obeying::{obey, program};
pub use process::{ProcessEnd, exit_code, own_words};
pub use station_files::milliseconds_since_1970;
pub use station_paths::{Host, Opened, PathEvent, PathHost, PathSystem, System};
pub use station_reporter::{Act, Bell, Due, Duties, Kept, Tables, act_at};
pub use station_run::{JobResult, RunOptions, run};
