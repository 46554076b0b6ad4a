//! The desk of one thread: a journal with the running table of its aircraft, and the replay of lines by it.
//!
//! [`replay`] and [`replay_forgetting`] take all lines, and [`pump_desk`] the frames among them.
#![tactic(auto)]

mod desk;
mod desk_feed;
mod desk_pump;
mod forgetting;
pub mod laws;
mod limit_observer;
mod replay_calls;
mod replaying;

pub use desk::Desk;
pub use desk_feed::DeskFeed;
pub use desk_pump::pump_desk;
pub use forgetting::replay_forgetting;
pub use limit_observer::{LimitObserver, Unobserved};
pub use replaying::{ReplayFault, replay, replay_as};
pub use station_report::Format;
