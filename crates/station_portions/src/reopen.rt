//! Paths that are opened again.

use crate::message::PathEnd;

/// What opens a path again.
pub trait Reopen<I> {
    ghost use Rattle.station_portions.specs.declared.message.PathEnd.{PathEnd};

    /// One call: the state before it, how the opening before it ended, the opening that it makes, and the state after it.
    ghost opens: { Self → PathEnd → I → Self → Type 0 };

    /// Opens the path once more, after an opening that ended so. It returns when the path is open, and may wait for that.
    fn reopen(&mut self, end: PathEnd) -> I
        ensures { opens self.old end result self.new };
}
