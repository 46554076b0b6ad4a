//! Sources and sinks of bytes, over any reader and writer. They say in contracts what was read and written, and what failed.
#![tactic(auto)]

mod from_read;
mod sinks;
mod source;
mod to_write;

pub use from_read::{FromBuffer, FromRead};
pub use sinks::{Failed, Sink, WriteFault, flush_after, write_all};
pub use source::Source;
pub use to_write::ToWrite;
