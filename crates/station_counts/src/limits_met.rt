//! Which limits of a station its calls have met.

use station_journal::{FullLimit, Refusal};
use std::sync::atomic::AtomicBool;
use std::sync::atomic::Ordering::SeqCst;

/// Which limits the calls of a station have met since it began.
#[derive(Clone, Copy, Debug, PartialEq, Eq)]
pub struct LimitsMet {
    /// A frame or a tick met a full journal.
    pub journal: bool,
    /// A frame of another aircraft met a full table.
    pub table: bool,
}

/// The limits that calls have met. Each thread notes and reads them without waiting. Nothing sets one back.
#[derive(Drop)]
pub struct LimitFlags {
    journal: AtomicBool,
    table: AtomicBool,
}

impl LimitFlags {
    /// No limit was met.
    pub fn new() -> Self {
        LimitFlags {
            journal: AtomicBool::new(false),
            table: AtomicBool::new(false),
        }
    }

    /// Notes the limit for which a call was refused so, if it was for one.
    pub fn note(&self, refusal: Refusal) {
        match FullLimit::of(refusal) {
            Some(FullLimit::Journal) => self.journal.store(true, SeqCst),
            Some(FullLimit::Table) => self.table.store(true, SeqCst),
            None => {}
        }
    }

    /// The limits that were met so far.
    pub fn met(&self) -> LimitsMet {
        LimitsMet {
            journal: self.journal.load(SeqCst),
            table: self.table.load(SeqCst),
        }
    }
}
