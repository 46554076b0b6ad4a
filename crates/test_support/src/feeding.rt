//! Paths that are fed part by part, each up to a hand-over.
use crate::ran::text;
use std::io::{self, ErrorKind, PipeWriter, Write};
use std::rt::Files;
use std::time::{Clock, Duration};
use std::{fs, thread};

/// How many frames the first path gets before each hand-over.
pub const FRAMES: u16 = 30;

/// How often it gets that many.
pub const TIMES: u16 = 4;

// The bytes of a frame that come after a hand-over.
const LATE: usize = 7;

// How many hand-overs a record has: each ticks without a table. There are none before the run makes the file.
fn hand_overs<R: Files + AllocGlobal>(rt: &R, record: &str) -> io::Result<usize> {
    let lines = match fs::read(rt, record) {
        Err(error) if error.kind() == ErrorKind::NotFound => return Ok(0),
        lines => lines?,
    };
    let lines = text(&lines);
    let (ticks, tables) = (lines.split('+').count(), lines.split('?').count());
    Ok(ticks.saturating_sub(tables))
}

// Waits for a number of hand-overs, for some 20 seconds at most, and answers whether they came.
fn await_hand_overs<R: Clock + Files + AllocGlobal>(
    rt: &R,
    record: &str,
    count: usize,
) -> io::Result<bool> {
    for _ in 0..2_000 {
        if hand_overs(rt, record)? >= count {
            return Ok(true);
        }
        thread::sleep(rt, Duration::from_millis(10));
    }
    Ok(false)
}

/// Feeds a path these bytes, and waits until a record has a number of hand-overs. Answers whether it has.
pub fn feed_part<R: Clock + Files + AllocGlobal>(
    rt: &R,
    lines: &mut PipeWriter,
    part: &[u8],
    record: &str,
    count: usize,
) -> io::Result<bool> {
    lines.write_all(part)?;
    await_hand_overs(rt, record, count)
}

/// Feeds a path part by part, each up to a hand-over. The last line of a part ends after it.
pub fn feed<R: Clock + Files + AllocGlobal>(
    rt: &R,
    mut lines: PipeWriter,
    text: &str,
    record: &str,
) -> io::Result<bool> {
    let mut rest = text.as_bytes();
    let part = rest.len() / usize::from(TIMES);
    let mut length = part.saturating_sub(LATE);
    for time in 1..=usize::from(TIMES) {
        let (next, later) = rest.split_at(length.min(rest.len()));
        (rest, length) = (later, part);
        if !feed_part(rt, &mut lines, next, record, time)? {
            return Ok(false);
        }
    }
    lines.write_all(rest)?;
    Ok(true)
}
