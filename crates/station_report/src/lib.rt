//! The table of aircraft as text or as JSON.
#![tactic(auto)]

mod columns;
mod decimals;
mod formats;
mod json;
pub mod laws;
mod lines;
mod motion;

pub use columns::{latitude_field, longitude_field};
pub use decimals::Field;
pub use formats::{Format, table_as};
pub use json::table_json;
pub use lines::table;
pub use motion::{speed_tenths, track};
pub use station_journal::PlacedRows;
pub use streams::{Failed, Sink, ToWrite, WriteFault, flush_after, write_all};
