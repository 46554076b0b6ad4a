//! Sources, sinks and desks for tests, and what is counted of their lines.
ghost use Rattle.std.specs.Prelude.{◌≡◌, ◌≤◌, None, false};
ghost use Rattle.station_book.specs.JournalBook.{most_aircraft};

use arrayvec::ArrayVec;
use modes_cpr::Reference;
use modes_frame::Frame;
use station_journal::Limits;
use station_lines::Tally;
use station_replay::Desk;
use std::alloc::Global;
use std::process::Abort;
use streams::{Failed, Sink, Source};

/// Gives bytes, at most `most` in a read. It can give some of them many times over, and fail at one read.
#[derive(Clone, Copy)]
pub struct Pieces<'a> {
    pub most: usize,
    /// The number of the read that fails, counted from 1. At 0 none fails.
    pub fails_at: u64,
    rest: &'a [u8],
    // Follow the rest, this many times.
    repeated: &'a [u8],
    times: u64,
    // Follow those.
    last: &'a [u8],
    reads: u64,
    ends: u64,
    failures: u64,
}

impl<'a> Pieces<'a> {
    /// Gives the bytes, up to 512 in a read.
    pub fn new(bytes: &'a [u8]) -> Self {
        Pieces::repeated(&[], 0, bytes)
    }

    /// Gives some bytes this many times, and then the last ones. A read gives bytes of one of these alone, up to 512.
    pub fn repeated(bytes: &'a [u8], times: u64, last: &'a [u8]) -> Self {
        Pieces {
            most: 512,
            fails_at: 0,
            rest: &[],
            repeated: bytes,
            times,
            last,
            reads: 0,
            ends: 0,
            failures: 0,
        }
    }

    // What the next read draws from. It is empty at the end.
    fn next(&mut self) -> &'a [u8]
        ensures reads { self.new.reads ≡ self.old.reads }
        ensures ends { self.new.ends ≡ self.old.ends }
        ensures failures { self.new.failures ≡ self.old.failures }
    {
        if !self.rest.is_empty() {
            return self.rest;
        }
        if self.times > 0 {
            self.times -= 1;
            return self.repeated;
        }
        let last = self.last;
        self.last = &[];
        last
    }
}

impl<'a> Source for Pieces<'a> {
    ghost state = { λ s. record {
      left = None;
      given = None;
      reads = s.reads;
      ends = s.ends;
      failures = s.failures;
      at_hand = false;
      ring = None;
    } };

    fn read(&mut self, buffer: &mut [u8]) -> Result<usize, Failed> {
        self.reads = self.reads.saturating_add(1);
        if self.reads == self.fails_at {
            self.failures = self.failures.saturating_add(1);
            return Err(Failed);
        }
        let bytes = self.next();
        let count = self.most.min(bytes.len()).min(buffer.len());
        let (piece, rest) = bytes.split_at(count);
        buffer[..count].copy_from_slice(piece);
        self.rest = rest;
        if count == 0 && !buffer.is_empty() {
            self.ends = self.ends.saturating_add(1);
        }
        Ok(count)
    }
}

/// Takes up to 1,024 bytes. It can fail before: at the first write or flush after `room` bytes, and at each one after
/// that unless it goes on.
#[derive(Drop)]
pub struct Taker {
    pub bytes: ArrayVec<u8, 1024>,
    pub failures: u64,
    room: usize,
    most: usize,
    goes_on: bool,
}

impl Taker {
    /// Takes what a write gives.
    pub fn new() -> Self {
        Taker::failing(1024, 1024, false)
    }

    /// Fails after `room` bytes, once where it goes on, and takes at most `most` bytes a write.
    pub fn failing(room: usize, most: usize, goes_on: bool) -> Self {
        Taker {
            bytes: ArrayVec::new(),
            failures: 0,
            room,
            most,
            goes_on,
        }
    }

    // The most bytes that the next write takes. At 0 it fails, and so does a flush.
    fn space(&self) -> usize {
        let space = self.most.min(self.bytes.remaining_capacity());
        if self.goes_on && self.failures > 0 {
            space
        } else {
            space.min(self.room.saturating_sub(self.bytes.len()))
        }
    }
}

impl Sink for Taker {
    ghost state = { λ s. record { taken = None; failures = s.failures } };

    fn write(&mut self, piece: &[u8]) -> Result<usize, Failed> {
        let count = self.space().min(piece.len());
        if count == 0 && !piece.is_empty() {
            self.failures = self.failures.saturating_add(1);
            return Err(Failed);
        }
        let _fits = self.bytes.try_extend_from_slice(&piece[..count]);
        Ok(count)
    }

    fn flush(&mut self) -> Result<(), Failed> {
        if self.space() == 0 {
            self.failures = self.failures.saturating_add(1);
            return Err(Failed);
        }
        Ok(())
    }
}

/// A desk without entries, for at most `entries` of them.
pub fn new_desk<const N: usize>(rt: &impl Abort, alloc: Global, entries: u32) -> Desk<N>
    requires aircraft { N ≤ most_aircraft }
    requires entries { entries ≤ 16777216 }
{
    let limits = Limits {
        entries,
        aircraft: N as u32,
        site: None,
    };
    Desk::new(alloc, limits).expect(rt, "memory")
}

/// A desk without entries, for as many as there can be, which reads surface positions round the site.
pub fn desk_at<const N: usize>(rt: &impl Abort, alloc: Global, site: Option<Reference>) -> Desk<N>
    requires { N ≤ most_aircraft }
{
    let limits = Limits {
        entries: 16_777_216,
        aircraft: N as u32,
        site,
    };
    Desk::new(alloc, limits).expect(rt, "memory")
}

/// Makes such a desk where one allocation may be refused, by a second call.
pub fn new_desk_or_again<const N: usize>(rt: &impl Abort, alloc: Global, entries: u32) -> Desk<N>
    requires aircraft { N ≤ most_aircraft }
    requires entries { entries ≤ 16777216 }
{
    let limits = Limits {
        entries,
        aircraft: N as u32,
        site: None,
    };
    match Desk::new(alloc, limits) {
        Ok(desk) => desk,
        Err(_) => new_desk(rt, alloc, entries),
    }
}

/// The identification of 4840D6.
pub const IDENTIFICATION_BYTES: [u8; 14] = [
    0x8D, 0x48, 0x40, 0xD6, 0x20, 0x2C, 0xC3, 0x71, 0xC3, 0x2C, 0xE0, 0x57, 0x60, 0x98,
];

/// The frame of these bytes.
pub fn frame_of(rt: &impl Abort, bytes: &[u8]) -> Frame {
    Frame::from_bytes(bytes).expect(rt, "a frame")
}

/// The tally of frames and of ticks, each accepted and refused, and of questions, blank lines, Mode A/C replies and
/// faults.
pub fn counted(frames: [u32; 2], ticks: [u32; 2], others: [u32; 4]) -> Tally {
    let accepted = u64::from(frames[0]) + u64::from(ticks[0]);
    let refused = u64::from(frames[1]) + u64::from(ticks[1]);
    let (shows, blank) = (u64::from(others[0]), u64::from(others[1]));
    let (mode_ac, faults) = (u64::from(others[2]), u64::from(others[3]));
    Tally {
        lines: accepted + refused + shows + blank + mode_ac + faults,
        frames: u64::from(frames[0]) + u64::from(frames[1]),
        ticks: u64::from(ticks[0]) + u64::from(ticks[1]),
        shows,
        blank,
        mode_ac,
        faults,
        accepted,
        refused,
    }
}
