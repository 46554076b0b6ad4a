//! What the program `groundstation` prints on standard error: faults, and what was counted.
#![tactic(auto)]

mod alarms;
mod faults;
mod reason;
mod standard_error;
mod tallies;

pub use alarms::Alarms;
pub use faults::{Fault, tell, tell_after, write_tally};
pub use reason::Reason;
pub use standard_error::StandardError;
pub use tallies::{Answer, added, tell_end};
