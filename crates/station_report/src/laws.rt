//! Laws over the definitions alone.

ghost use Rattle.std.specs.Prelude.{ℕ};
ghost use Rattle.station_report.specs.Motion.{IsRoot, root, AreTangents, tangents};

/// The root of a number is the greatest whose square is at most that number.
pub fn the_root_is_the_greatest()
    ensures { (n : ℕ) → IsRoot n (root n) }
{}

/// Entry k of the table that a track is read from, counted from 0, is 1,000,000,000 times the tangent of k + 1/2
/// degrees, rounded down: the angle passes k + 1/2 degrees between the entry and the next whole number.
pub fn the_table_is_that_of_the_tangents()
    ensures { AreTangents tangents }
{}
