//! Lines that are parsed before they are taken.
ghost use Rattle.std.specs.Prelude.{◌≡◌};
ghost use Rattle.station_lines.specs.Calls.{pump_command, replay_command};
ghost use Rattle.station_lines.specs.ParsedLines.{parsed_of};
ghost use Rattle.station_lines.specs.declared.command.Command.TheVariants.{Line as Received};

use crate::command::{Command, read_command_short};
use modes_frame::{CheckedFrame, Cut, Line, read_cut};
use std::mem::size_of;

/// What a line says, with the claim of its frame. It takes at most 40 bytes.
#[derive(Clone, Copy, Debug)]
pub enum ParsedLine {
    /// A frame, with its claim.
    Frame(CheckedFrame),
    /// A tick at this time, in milliseconds.
    Tick(u64),
    /// A question for the table.
    Show,
    /// A Mode A/C reply or a heartbeat.
    ModeAc,
    /// Blanks alone.
    Blank,
    /// A line that can't be read.
    Fault,
}

const _: () = prove!(size_of::<ParsedLine>() <= 40);

/// Parses a line of a replay, as it was cut. One of more than 64 bytes is a fault.
pub fn parse_said(cut: &Cut) -> ParsedLine
    ensures { result ≡ parsed_of (replay_command cut.now) }
{
    match cut {
        Cut::Whole(line) => match read_command_short(line.bytes()) {
            Ok(Command::Tick(at)) => ParsedLine::Tick(at),
            Ok(Command::Show) => ParsedLine::Show,
            Ok(Command::Line(line)) => received(line),
            Err(_) => ParsedLine::Fault,
        },
        Cut::TooLong => ParsedLine::Fault,
    }
}

/// Parses a receiver's line, as it was cut. One of more than 64 bytes is a fault, and so is one that begins with `+` or
/// `?`.
#[tactic(auto, unfolding(crate::specs::Calls::heard_line))]
pub fn parse_heard(cut: &Cut) -> ParsedLine
    ensures { result ≡ parsed_of (pump_command cut.now) }
{
    match cut {
        Cut::Whole(line) => match read_cut(line) {
            Ok(line) => received(line),
            Err(_) => ParsedLine::Fault,
        },
        Cut::TooLong => ParsedLine::Fault,
    }
}

// A receiver's line, with the claim of its frame.
fn received(line: Line) -> ParsedLine
    ensures { result ≡ parsed_of (Ok (Received line)) }
{
    match line {
        Line::Frame(frame) => ParsedLine::Frame(CheckedFrame::of(frame)),
        Line::ModeAc => ParsedLine::ModeAc,
        Line::Blank => ParsedLine::Blank,
    }
}
