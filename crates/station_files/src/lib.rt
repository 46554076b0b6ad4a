//! The files that a run writes beside its output: its record, and what displays read.
#![tactic(auto)]

pub mod displays;
mod last_error;
mod record_file;
pub mod recorder;
mod shown_file;
mod since_1970;

pub use displays::{DisplayOptions, Displays, put_table, table_for};
pub use last_error::LastError;
pub use record_file::{RecordFile, RecordOutput, record_to};
pub use recorder::{Recorder, record_look, record_rest};
pub use since_1970::{milliseconds, milliseconds_since_1970};
