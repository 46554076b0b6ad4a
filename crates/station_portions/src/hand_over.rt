//! What the two ends of a source share: the request for a hand-over, how they wake each other, and the state of the path.

use crate::message::PathEnd;
use std::sync::Wait;
use std::sync::atomic::{AtomicBool, AtomicU8, Ordering};
use std::thread::Parker;

/// Ends the portion that a source is giving, and shows the state of its path. One thread at a time may read the source.
#[derive(Drop)]
pub struct HandOver {
    is_requested: AtomicBool,
    state: AtomicU8,
    message: Parker,
    buffer: Parker,
}

/// The state of a path, as the thread that reads it last found it.
#[derive(Clone, Copy, Debug, PartialEq, Eq)]
pub enum PathState {
    /// It is read.
    Open,
    /// It isn't open, as a pipe that waits for its writer.
    Waiting,
    /// It has ended.
    Ended,
    /// A read of it failed.
    Failed,
}

impl PathState {
    // That of a path that was read to this end.
    pub(crate) fn after(end: PathEnd) -> PathState {
        match end {
            PathEnd::AtEnd => PathState::Ended,
            PathEnd::ReadFailed => PathState::Failed,
        }
    }
}

/// Shows that a hand-over was requested. Only [`HandOver::requested`] makes one.
#[derive(Clone, Copy, Debug, PartialEq, Eq)]
pub struct Requested {
    seen: (),
}

impl HandOver {
    // Nothing requested.
    pub(crate) fn new() -> HandOver {
        HandOver {
            is_requested: AtomicBool::new(false),
            state: AtomicU8::new(0),
            message: Parker::new(),
            buffer: Parker::new(),
        }
    }

    /// Requests the end of the portion: at the next end of a line, and at once while the path is silent.
    pub fn request(&self) {
        self.is_requested.store(true, Ordering::SeqCst);
        self.message.unpark();
    }

    /// Begins the next portion.
    pub fn resume(&self) {
        self.is_requested.store(false, Ordering::SeqCst);
    }

    /// Whether the end of the portion was requested.
    pub fn is_requested(&self) -> bool {
        self.is_requested.load(Ordering::SeqCst)
    }

    // What shows that the end of the portion was requested, if it was.
    pub(crate) fn requested(&self) -> Option<Requested> {
        if !self.is_requested() {
            return None;
        }
        Some(Requested { seen: () })
    }

    /// The state of the path.
    pub fn state(&self) -> PathState {
        match self.state.load(Ordering::SeqCst) {
            0 => PathState::Open,
            1 => PathState::Waiting,
            2 => PathState::Ended,
            _ => PathState::Failed,
        }
    }

    // Shows the state of the path.
    pub(crate) fn show(&self, state: PathState) {
        let number = match state {
            PathState::Open => 0,
            PathState::Waiting => 1,
            PathState::Ended => 2,
            PathState::Failed => 3,
        };
        self.state.store(number, Ordering::SeqCst);
    }

    // Wakes the source: a message was sent.
    pub(crate) fn wake_source(&self) {
        self.message.unpark();
    }

    // Waits until a message was sent or a hand-over requested. It may return earlier.
    pub(crate) fn await_message<R: Wait>(&self, rt: &R) {
        self.message.park(rt);
    }

    // Wakes the reader: a message was taken, or a buffer given back.
    pub(crate) fn wake_reader(&self) {
        self.buffer.unpark();
    }

    // Waits until a message was taken or a buffer given back. It may return earlier.
    pub(crate) fn await_buffer<R: Wait>(&self, rt: &R) {
        self.buffer.park(rt);
    }
}
