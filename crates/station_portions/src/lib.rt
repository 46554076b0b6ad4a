//! Sources that are taken in portions, one station after another, and the threads that read their paths.
//!
//! A [`PathReader`] reads a path in a thread of its own, and sends whole lines to [`Portions`], the source of one station
//! at a time. It may open the path again each time that it ends. A [`HandOver`] ends the portion of a station, and the
//! next station goes on where it ended.
#![tactic(auto)]

mod backlog;
mod connecting;
mod finished_path;
mod hand_over;
mod laws;
mod message;
mod path_reader;
mod portions;
mod reopen;
mod starting;

pub use connecting::connect;
pub use finished_path::{FinishedPath, WholePath};
pub use hand_over::{HandOver, PathState};
pub use laws::{a_path_given_to_its_end_has_its_lines, portions_have_the_lines_of_the_whole};
pub use message::PathEnd;
pub use path_reader::PathReader;
pub use portions::Portions;
pub use reopen::Reopen;
