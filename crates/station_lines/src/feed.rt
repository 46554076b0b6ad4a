//! Feeds of frames.
use modes_frame::Frame;
use station_journal::Refusal;
use std::sync::Wait;

/// Takes frames, one after another.
pub trait Feed {
    ghost use Rattle.std.specs.Prelude.{ℕ, List, Result};
    ghost use Rattle.station_journal.specs.declared.refusal.Refusal.{Refusal};

    /// One call: the state before it, the frame, the answer, and the state after it.
    ghost gives: { Self → List ℕ → Result (Unit {0}) Refusal → Self → Type 0 };

    /// Takes a frame, or answers why it is refused.
    fn feed<R: Wait>(&mut self, rt: &R, frame: Frame) -> Result<(), Refusal>
        ensures { gives self.old frame result self.new };
}
