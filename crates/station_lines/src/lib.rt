//! The lines of a source: what each says, how they are counted, and the pump that feeds their frames.
#![tactic(auto)]

pub mod command;
mod counting;
pub mod feed;
pub mod lines;
pub mod parsed_line;
pub mod piece;
pub mod pumping;
pub mod tally;

pub use command::{Command, CommandFault, read_command, read_command_short};
pub use feed::Feed;
pub use lines::{Ended, LineTaker, take_lines};
pub use parsed_line::{ParsedLine, parse_heard, parse_said};
pub use piece::PIECE;
pub use pumping::{PumpFault, pump};
pub use tally::Tally;
