//! The output of a run: tables wait for it in a queue, and a thread of its own writes them. Whoever makes the tables doesn't wait
//! for whoever reads them.
#![tactic(auto)]

mod open_output;
mod passing;
mod printer;
mod stall_alarm;
mod starting;
mod table;
mod table_queue;
mod writing;

pub use open_output::OpenOutput;
pub use printer::Printer;
pub use stall_alarm::StallAlarm;
pub use starting::{QueueFault, start};
pub use table::Table;
pub use table_queue::{OutputThread, TableQueue, WrittenOutput};
pub use writing::{WritesTables, Writing};
