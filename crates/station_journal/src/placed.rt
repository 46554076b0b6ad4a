//! Rows with the times of their positions.

ghost use Rattle.std.specs.Prelude.{◌≡◌, ◌<◌, ℕ, List, Option, length, slice_get, Some};

use crate::Rows;

/// The rows of a table, each with the time of the frame that gave its position, in milliseconds.
pub trait PlacedRows: Rows {
    /// The times of the positions, a place for each row.
    ghost moments: { Self → List (Option ℕ) };

    /// The time of the position at place `i`, counted from 0. None where the row has no position.
    fn placed(&self, i: usize) -> Option<u64>
        requires { i < length (Self.rows self.now) }
        ensures { slice_get (moments self.now) i ≡ Some result };
}
