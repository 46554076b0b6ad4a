//! What a receiver has counted so far, for whoever watches it.

use station_journal::Refusal;
use station_lines::{PumpFault, Tally};
use std::sync::atomic::AtomicU64;
use std::sync::atomic::Ordering::SeqCst;

/// How many frames were refused, by the reason.
#[derive(Clone, Copy, Debug, PartialEq, Eq)]
pub struct Refusals {
    /// Of a downlink format that isn't read.
    pub unsupported: u64,
    /// Of wrong parity.
    pub bad_parity: u64,
    /// Of an address that no aircraft has.
    pub unassigned: u64,
    /// Of an address that no live aircraft has.
    pub unknown: u64,
    /// Heard before, since the newest tick.
    pub repeated: u64,
    /// The journal or the table was full.
    pub full: u64,
}

impl Refusals {
    // None so far.
    fn none() -> Self {
        Refusals {
            unsupported: 0,
            bad_parity: 0,
            unassigned: 0,
            unknown: 0,
            repeated: 0,
            full: 0,
        }
    }

    // Counts a refusal. None is counted for a tick, nor where memory runs out, which ends the receiver.
    fn note(&mut self, refusal: Refusal) {
        match refusal {
            Refusal::Unsupported(_) => self.unsupported = self.unsupported.saturating_add(1),
            Refusal::BadParity(_) => self.bad_parity = self.bad_parity.saturating_add(1),
            Refusal::Unassigned(_) => self.unassigned = self.unassigned.saturating_add(1),
            Refusal::Unknown(_) => self.unknown = self.unknown.saturating_add(1),
            Refusal::Repeated => self.repeated = self.repeated.saturating_add(1),
            Refusal::JournalFull | Refusal::BookFull => self.full = self.full.saturating_add(1),
            Refusal::NotLater(_) | Refusal::NoMemory => {}
        }
    }

    // These and others.
    fn and(self, others: Refusals) -> Refusals {
        Refusals {
            unsupported: self.unsupported.saturating_add(others.unsupported),
            bad_parity: self.bad_parity.saturating_add(others.bad_parity),
            unassigned: self.unassigned.saturating_add(others.unassigned),
            unknown: self.unknown.saturating_add(others.unknown),
            repeated: self.repeated.saturating_add(others.repeated),
            full: self.full.saturating_add(others.full),
        }
    }
}

/// Counts of a receiver's lines, and of its frames by answer.
#[derive(Clone, Copy, Debug, PartialEq, Eq)]
pub struct Counts {
    /// All lines.
    pub lines: u64,
    /// Lines with a frame of 56 or 112 bits.
    pub frames: u64,
    /// Frames that were accepted.
    pub accepted: u64,
    /// Frames that were refused, by the reason.
    pub refused: Refusals,
    /// Lines that can't be read.
    pub faults: u64,
}

impl Counts {
    /// Nothing counted.
    pub fn none() -> Self {
        Counts {
            lines: 0,
            frames: 0,
            accepted: 0,
            refused: Refusals::none(),
            faults: 0,
        }
    }
}

/// What a receiver has counted so far, over all its stations. Its own thread writes it where it frees the lock of its station.
/// Others read it without waiting.
#[derive(Drop)]
pub struct SharedCounts {
    lines: AtomicU64,
    frames: AtomicU64,
    accepted: AtomicU64,
    unsupported: AtomicU64,
    bad_parity: AtomicU64,
    unassigned: AtomicU64,
    unknown: AtomicU64,
    repeated: AtomicU64,
    full: AtomicU64,
    faults: AtomicU64,
}

impl SharedCounts {
    /// Nothing counted.
    pub fn new() -> Self {
        SharedCounts {
            lines: AtomicU64::new(0),
            frames: AtomicU64::new(0),
            accepted: AtomicU64::new(0),
            unsupported: AtomicU64::new(0),
            bad_parity: AtomicU64::new(0),
            unassigned: AtomicU64::new(0),
            unknown: AtomicU64::new(0),
            repeated: AtomicU64::new(0),
            full: AtomicU64::new(0),
            faults: AtomicU64::new(0),
        }
    }

    /// What was counted so far. While the receiver writes, some counts may be newer than others.
    pub fn read(&self) -> Counts {
        Counts {
            lines: self.lines.load(SeqCst),
            frames: self.frames.load(SeqCst),
            accepted: self.accepted.load(SeqCst),
            refused: Refusals {
                unsupported: self.unsupported.load(SeqCst),
                bad_parity: self.bad_parity.load(SeqCst),
                unassigned: self.unassigned.load(SeqCst),
                unknown: self.unknown.load(SeqCst),
                repeated: self.repeated.load(SeqCst),
                full: self.full.load(SeqCst),
            },
            faults: self.faults.load(SeqCst),
        }
    }

    fn write(&self, counts: Counts) {
        self.lines.store(counts.lines, SeqCst);
        self.frames.store(counts.frames, SeqCst);
        self.accepted.store(counts.accepted, SeqCst);
        self.unsupported.store(counts.refused.unsupported, SeqCst);
        self.bad_parity.store(counts.refused.bad_parity, SeqCst);
        self.unassigned.store(counts.refused.unassigned, SeqCst);
        self.unknown.store(counts.refused.unknown, SeqCst);
        self.repeated.store(counts.refused.repeated, SeqCst);
        self.full.store(counts.refused.full, SeqCst);
        self.faults.store(counts.faults, SeqCst);
    }
}

/// Why a pump's frames are refused, which it counts beside its tally.
#[derive(Clone, Copy)]
pub struct Reasons {
    // What was counted before this pump.
    before: Counts,
    // Why its frames are refused.
    refused: Refusals,
}

impl Reasons {
    /// Those of a pump that begins, beside what is shown of it so far.
    pub fn begin(shown: &SharedCounts) -> Self {
        Reasons {
            before: shown.read(),
            refused: Refusals::none(),
        }
    }

    /// Notes why a frame was refused.
    pub fn note(&mut self, refusal: Refusal) {
        self.refused.note(refusal);
    }

    /// Shows what is counted.
    pub fn show(&self, tally: &Tally, shown: &SharedCounts) {
        shown.write(Counts {
            lines: self.before.lines.saturating_add(tally.lines),
            frames: self.before.frames.saturating_add(tally.frames),
            accepted: self.before.accepted.saturating_add(tally.accepted),
            refused: self.before.refused.and(self.refused),
            faults: self.before.faults.saturating_add(tally.faults),
        });
    }

    /// Shows what a pump counted that shows nothing by itself.
    pub fn show_answer(&self, answer: &Result<Tally, PumpFault>, shown: &SharedCounts) {
        match answer {
            Ok(tally) => self.show(tally, shown),
            Err(
                PumpFault::Read(tally)
                | PumpFault::TooManyTurns(tally)
                | PumpFault::NoMemory(tally),
            ) => self.show(tally, shown),
        }
    }
}
