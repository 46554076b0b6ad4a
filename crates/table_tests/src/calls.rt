//! Calls of a journal, and the entries that they become.

use modes_frame::Frame;
use station_journal::{Entry, Journal, Refusal};
use std::test::Fail;

/// A call of seat 0, or a frame that seat 1 hears.
#[derive(Clone, Copy)]
pub enum Call {
    /// A tick at this time in milliseconds.
    Tick(u64),
    /// A frame of these bytes.
    Hear(&'static [u8]),
    /// The same, at seat 1.
    HearToo(&'static [u8]),
}

use Call::{Hear, HearToo, Tick};

/// The frame of these bytes.
pub fn frame(bytes: &[u8]) -> Result<Frame, Fail> {
    Ok(Frame::from_bytes(bytes).ok_or("no frame")?)
}

/// The entry of the call, once it is accepted.
pub fn entry(call: Call) -> Result<Entry, Fail> {
    let (seat, bytes) = match call {
        Tick(at) => return Ok(Entry::Tick { seat: 0, at }),
        Hear(bytes) => (0, bytes),
        HearToo(bytes) => (1, bytes),
    };
    let frame = frame(bytes)?;
    Ok(Entry::Heard { seat, frame })
}

/// Makes the call that becomes this entry.
pub fn once(journal: &mut Journal, entry: &Entry) -> Result<u64, Refusal> {
    match entry {
        Entry::Tick { seat, at } => journal.tick(*seat, *at),
        Entry::Heard { seat, frame } => journal.feed(*seat, *frame),
    }
}
