//! The command line of the program `groundstation`: the job that its arguments ask for.
#![tactic(auto)]

mod clock_origin;
mod commands;
mod help;
mod pace;
mod site;
mod table_format;
mod words;

pub use clock_origin::ClockOrigin;
pub use commands::VERSION;
pub use pace::Pace;
pub use table_format::TableFormat;
pub use words::{Job, RunArguments, WordsFault, read_words};
