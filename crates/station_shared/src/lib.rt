//! The station: a desk behind a lock, which many threads feed and look at.
#![tactic(auto)]

pub mod close;
mod counted_desk;
mod held_lines;
mod held_pump;
pub mod look;
mod receipt;
mod releases;
pub mod seat;
mod seat_account;
pub mod seat_feed;
mod shown_desk;
pub mod station;
pub mod station_name;
pub mod worker;

pub use close::{Closed, Missing};
pub use look::Look;
pub use receipt::Receipt;
pub use seat::Seat;
pub use seat_feed::{SeatFeed, pump_seat};
pub use station::Station;
pub use station_counts::{LimitsMet, SharedCounts};
pub use station_desk::Places;
pub use station_lines::{Command, CommandFault, Feed, PIECE, PumpFault, Tally, pump, read_command};
pub use station_name::StationName;
pub use station_replay::{Desk, DeskFeed, Format, ReplayFault, pump_desk, replay, replay_as};
pub use streams::{FromBuffer, FromRead, Source};
pub use worker::{Worker, run_receivers};
