//! Every single byte, and a known line with every byte in each place.
ghost use Rattle.std.specs.Prelude.{◌<◌, ◌≤◌};

use crate::known::{KLM1023, KLM1023_LINE, frame_in};
use modes_frame::{Cutter, Frame, Line, LineFault, PlainLine, read_line};

#[test]
fn a_line_of_one_byte_is_blank_or_faulty(rt: HostRuntime) {
    for byte in 0..=u8::MAX {
        let want = match byte {
            b' ' | b'\t' | b'\r' => Ok(Line::Blank),
            b'*' | b'@' => Err(LineFault::NoEnd),
            _ => Err(LineFault::NoStart),
        };
        assert_eq!(rt; read_line(&[byte]), want, "at byte {byte}");
    }
}

#[test]
fn all_readers_agree_on_a_line_with_a_byte_replaced(rt: HostRuntime) {
    for place in 0..30 {
        for byte in 0..=u8::MAX {
            let mut line = KLM1023_LINE;
            line[place] = byte;
            let want = with_byte(place, byte);
            assert_eq!(rt; read_line(&line[..30]), want, "byte {byte} at {place}");
            let seen = Cutter::new().plain_line(&line);
            assert_eq!(rt; seen, plain(want), "byte {byte} at {place}");
        }
    }
}

#[test]
fn a_plain_line_ends_with_a_line_feed(rt: HostRuntime) {
    for byte in 0..=u8::MAX {
        let mut line = KLM1023_LINE;
        line[30] = byte;
        let seen = Cutter::new().plain_line(&line);
        assert_eq!(rt; seen.is_some(), byte == b'\n', "byte {byte}");
    }
}

#[test]
fn the_first_byte_of_a_frame_says_its_length(rt: HostRuntime) {
    for byte in 0..=u8::MAX {
        let mut bytes = KLM1023;
        bytes[0] = byte;
        let short = Frame::from_bytes(&bytes[..7]);
        assert_eq!(rt; short.is_some(), byte < 128, "byte {byte}");
        let long = Frame::from_bytes(&bytes);
        assert_eq!(rt; long.is_some(), byte >= 128, "byte {byte}");
    }
}

// What the line of KLM1023, without its line feed, says with this byte at this place.
fn with_byte(place: usize, byte: u8) -> Result<Line, LineFault>
    requires { place < 30 }
{
    match (place, byte) {
        (0, b'*') | (29, b';') => said(&KLM1023),
        (0, b'@') => Err(LineFault::BadLength(28)),
        (0, _) => Err(LineFault::NoStart),
        (29, _) => Err(LineFault::NoEnd),
        _ => match char::from(byte).to_digit(16) {
            Some(value) => said(&with_digit(place, value as u8)),
            None => Err(LineFault::BadDigit(place as u8)),
        },
    }
}

// What 28 digits say that write these bytes.
fn said(bytes: &[u8; 14]) -> Result<Line, LineFault> {
    match Frame::from_bytes(bytes) {
        Some(frame) => Ok(Line::Frame(frame)),
        None => Err(LineFault::WrongLength(bytes[0] / 8)),
    }
}

// The bytes of KLM1023 with this value of the digit at this place of its line.
fn with_digit(place: usize, value: u8) -> [u8; 14]
    requires after_start { 1 ≤ place }
    requires before_end { place < 29 }
    requires digit { value < 16 }
{
    let mut bytes = KLM1023;
    let pair = bytes[(place - 1) / 2];
    bytes[(place - 1) / 2] = if place % 2 == 1 {
        value * 16 + pair % 16
    } else {
        pair / 16 * 16 + value
    };
    bytes
}

// A plain line of 31 bytes, where the line says a frame.
fn plain(line: Result<Line, LineFault>) -> Option<PlainLine> {
    let frame = frame_in(line.ok())?;
    Some(PlainLine { length: 31, frame })
}
