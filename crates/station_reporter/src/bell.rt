//! The bells of a station: one rings when its reporter has begun, and one when all receivers have ended.

use std::sync::Wait;
use std::sync::atomic::{AtomicBool, Ordering};
use std::thread::Parker;
use std::time::Duration;

// The longest rest while a bell is waited for, in milliseconds.
const LONGEST_REST: u64 = 50;

/// A bell that rings once and stays rung. One thread at a time rests beside it.
#[derive(Drop)]
pub struct Bell {
    has_rung: AtomicBool,
    parker: Parker,
}

impl Bell {
    /// A bell that hasn't rung.
    pub fn new() -> Bell {
        Bell {
            has_rung: AtomicBool::new(false),
            parker: Parker::new(),
        }
    }

    /// Rings the bell, and wakes a thread that rests.
    pub fn ring(&self) {
        self.has_rung.store(true, Ordering::SeqCst);
        self.parker.unpark();
    }

    /// Whether the bell has rung.
    pub fn has_rung(&self) -> bool {
        self.has_rung.load(Ordering::SeqCst)
    }

    /// Waits until the bell rings.
    pub fn wait<R: Wait>(&self, rt: &R) {
        for _ in rt.forever() {
            if self.has_rung() {
                return;
            }
            self.rest(rt, Duration::from_millis(LONGEST_REST));
        }
    }

    /// Rests until the bell rings, for `longest` at most. The rest may end earlier.
    pub fn rest<R: Wait>(&self, rt: &R, longest: Duration) {
        self.parker.park_timeout(rt, longest);
    }
}

/// The bells of a station.
#[derive(Drop)]
pub struct Bells {
    /// Rings when the reporter has done what was due at its start. The receivers wait for it.
    pub begun: Bell,
    /// Rings when all receivers have ended. The reporter rests beside it.
    pub ended: Bell,
}

impl Bells {
    /// Bells that haven't rung.
    pub fn new() -> Bells {
        Bells {
            begun: Bell::new(),
            ended: Bell::new(),
        }
    }
}
