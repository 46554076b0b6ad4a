//! What the two ends of a queue share: how they wake each other, and what each shows the other.

use std::sync::Wait;
use std::sync::atomic::{AtomicBool, Ordering};
use std::thread::Parker;
use std::time::Duration;

// The longest rest of the thread that writes, in milliseconds. A queue that is dropped wakes nobody.
const LONGEST_REST: u64 = 50;

// The longest rest of the thread that sends.
const LONGEST_SENDER_REST: u64 = 10;

/// One thread at a time rests at each end.
#[derive(Drop)]
pub(crate) struct Passing {
    is_over: AtomicBool,
    has_failed: AtomicBool,
    table: Parker,
    room: Parker,
}

impl Passing {
    // No table is sent, and no write failed.
    pub(crate) fn new() -> Passing {
        Passing {
            is_over: AtomicBool::new(false),
            has_failed: AtomicBool::new(false),
            table: Parker::new(),
            room: Parker::new(),
        }
    }

    // Shows that no further table comes.
    pub(crate) fn end(&self) {
        self.is_over.store(true, Ordering::SeqCst);
        self.table.unpark();
    }

    // Whether no further table comes.
    pub(crate) fn is_over(&self) -> bool {
        self.is_over.load(Ordering::SeqCst)
    }

    // Shows that a write failed.
    pub(crate) fn fail(&self) {
        self.has_failed.store(true, Ordering::SeqCst);
    }

    // Whether a write failed.
    pub(crate) fn has_failed(&self) -> bool {
        self.has_failed.load(Ordering::SeqCst)
    }

    // Wakes the thread that writes: a table was sent.
    pub(crate) fn wake_writer(&self) {
        self.table.unpark();
    }

    // Rests until a table is sent, or the end is shown, but never for long.
    pub(crate) fn await_table<R: Wait>(&self, rt: &R) {
        self.table
            .park_timeout(rt, Duration::from_millis(LONGEST_REST));
    }

    // Wakes the thread that sends: a table was given back.
    pub(crate) fn wake_sender(&self) {
        self.room.unpark();
    }

    // Rests until a table is given back, but never for long.
    pub(crate) fn await_room<R: Wait>(&self, rt: &R) {
        self.room
            .park_timeout(rt, Duration::from_millis(LONGEST_SENDER_REST));
    }
}
