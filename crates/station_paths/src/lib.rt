//! The paths of a run, each read by a thread of its own, and what they need of the system.
#![tactic(auto)]

pub mod opened;
pub mod path_ends;
pub mod path_host;
pub mod paths;
mod reopening;
pub mod system;

pub use opened::{Opened, OpenedPath};
pub use path_ends::tell_ends;
pub use path_host::{PathEvent, PathHost};
pub use paths::{
    Input, Opening, PathThread, Paths, ReaderHandle, Started, open, open_all, start_all,
};
pub use system::{Host, PathSystem, System};
