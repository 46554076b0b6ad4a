//! Runs over paths that last, with records and displays.

mod failed_outputs;
mod outputs;
mod records;
mod sleeps;
mod through_time;
mod ticks;
mod watching;
