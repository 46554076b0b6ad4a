//! How often a run prints its table, and how often its clock moves.

/// The pace of a reporter, in milliseconds.
#[derive(Clone, Copy, Debug, PartialEq, Eq)]
pub struct Pace {
    /// The interval from one table to the next, 1 to 3,600,000.
    pub every: u32,
    /// The interval from one tick to the next between two tables, 1 to 60,000. Without it there are no such ticks.
    pub tick: Option<u32>,
}
