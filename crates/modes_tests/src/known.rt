//! Known frames and lines, and places.

use modes_fields::Place;
use modes_frame::{Frame, Line, read_line};
use std::test::Fail;

/// An identification of the flight KLM1023, from the address 4840D6.
pub const KLM1023: [u8; 14] = *b"\x8D\x48\x40\xD6\x20\x2C\xC3\x71\xC3\x2C\xE0\x57\x60\x98";

/// Its line, with the line feed.
pub const KLM1023_LINE: [u8; 31] = *b"*8D4840D6202CC371C32CE0576098;\n";

/// An all-call reply from the address 484FDE.
pub const ALL_CALL: [u8; 7] = [0x5D, 0x48, 0x4F, 0xDE, 0xA2, 0x48, 0xE3];

/// The frame that a line says.
pub fn frame(line: &str) -> Result<Frame, Fail> {
    Ok(frame_in(read_line(line.as_bytes()).ok()).ok_or("no frame")?)
}

/// The frame of a line that says one.
pub fn frame_in(line: Option<Line>) -> Option<Frame> {
    match line? {
        Line::Frame(frame) => Some(frame),
        Line::ModeAc | Line::Blank => None,
    }
}

/// The place in the even or the odd grid.
pub fn place(odd: bool, lat: u32, lon: u32) -> Place {
    Place { odd, lat, lon }
}
