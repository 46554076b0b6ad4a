//! The end of a run before that of its paths.

use std::sync::atomic::{AtomicBool, Ordering};

/// Whether the end of a run was asked for. Once it was, it stays so.
#[derive(Drop)]
pub struct Stop {
    is_asked: AtomicBool,
}

/// Shows that the end of the run was asked for. Only [`Stop::stopped`] makes one.
#[derive(Clone, Copy, Debug, PartialEq, Eq)]
pub struct Stopped {
    seen: (),
}

impl Stop {
    /// Nothing asked for.
    pub fn new() -> Stop {
        Stop {
            is_asked: AtomicBool::new(false),
        }
    }

    /// Asks for the end of the run.
    pub fn ask(&self) {
        self.is_asked.store(true, Ordering::SeqCst);
    }

    /// What shows that the end of the run was asked for, if it was.
    pub fn stopped(&self) -> Option<Stopped> {
        if !self.is_asked.load(Ordering::SeqCst) {
            return None;
        }
        Some(Stopped { seen: () })
    }
}
