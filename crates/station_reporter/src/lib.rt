//! The reporter of a station: when it prints the table, what it writes beside that, and when it asks for a hand-over.
#![tactic(auto)]

mod bell;
mod beside;
mod duties;
mod kept;
mod limit_alarm;
mod noting;
mod reporter;
mod requests;
mod schedule;
mod stop;

pub use bell::{Bell, Bells};
pub use beside::Beside;
pub use duties::Duties;
pub use kept::Kept;
pub use limit_alarm::LimitAlarm;
pub use reporter::{Reporter, ReporterResult, ReportsFrom, print_and_record, report};
pub use requests::Requests;
pub use schedule::{Act, Due, RunClock, Tables, act_at, writing_interval};
pub use stop::{Stop, Stopped};
