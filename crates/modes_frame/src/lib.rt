//! Mode S frames: lines of text, parity and claims.
#![tactic(auto)]

mod blanks;
mod checked_frame;
mod claims;
mod cutter;
mod digits;
mod frame;
mod line;
mod parity;
mod parity_by_place;
mod plain;
pub mod readers;

pub use blanks::trim_blanks;
pub use checked_frame::CheckedFrame;
pub use claims::{CheckFault, Claim};
pub use cutter::{Cut, Cutter, LineBuf, MAX_LINE};
pub use frame::Frame;
pub use line::{Line, LineFault, read_cut, read_line, read_trimmed};
pub use parity::remainder;
pub use plain::PlainLine;
