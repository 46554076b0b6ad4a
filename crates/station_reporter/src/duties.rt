//! What the reporter of a station does.
ghost use Rattle.std.specs.Prelude.{◌≡◌, ◌≤◌, length, true};
ghost use Rattle.station_reporter.specs.Reporter.{asks_hand_over, due_from, not_before};

use crate::kept::Kept;
use crate::schedule::{Due, Tables, due_from};

// How long the next hand-over waits where one leaves more than half of the entries, in milliseconds.
const PAUSE: u64 = 10_000;

// How long before a table no hand-over is asked for, in milliseconds, so that the table comes in time.
const QUIET: u32 = 1_000;

/// When the reporter of a station prints, and when it asks for a hand-over.
#[derive(Clone, Copy, Debug, PartialEq, Eq)]
pub struct Duties {
    pub tables: Tables,
    /// What is due first.
    pub due: Due,
    /// How many entries of the journal ask for a hand-over.
    pub hand_over_at: u64,
    /// No hand-over is asked for before this time, in milliseconds.
    pub not_before: u64,
    /// Whether the paths are closed when the output can't be written any more.
    pub ends_with_output: bool,
}

impl Duties {
    /// Those of a round's first station. The clock of the run begins at `begins_at`.
    pub fn first(
        tables: Tables,
        begins_at: u64,
        last_tick: u64,
        hand_over_at: u64,
        ends_with_output: bool,
    ) -> Self
        ensures tables { result.tables ≡ tables }
        ensures due { result.due ≡ due_from tables.pace begins_at last_tick }
        ensures at { result.hand_over_at ≡ hand_over_at }
        ensures pause { result.not_before ≡ 0 }
        ensures ends { result.ends_with_output ≡ ends_with_output }
    {
        Duties {
            tables,
            due: due_from(tables.pace, begins_at, last_tick),
            hand_over_at,
            not_before: 0,
            ends_with_output,
        }
    }

    /// Those of the station after a hand-over.
    pub fn after_hand_over(self, kept: &Kept, due: Due) -> Self
        ensures tables { result.tables ≡ self.tables }
        ensures due { result.due ≡ due }
        ensures at { result.hand_over_at ≡ self.hand_over_at }
        ensures pause { result.not_before
            ≡ not_before self.hand_over_at (length kept.now.recent.entries.items) kept.now.last_tick }
        ensures ends { result.ends_with_output ≡ self.ends_with_output }
    {
        let is_crowded = kept.recent.entries.len() as u64 > self.hand_over_at / 2;
        Duties {
            tables: self.tables,
            due,
            hand_over_at: self.hand_over_at,
            not_before: if is_crowded {
                kept.last_tick.saturating_add(PAUSE)
            } else {
                0
            },
            ends_with_output: self.ends_with_output,
        }
    }

    /// Whether the reporter asks for a hand-over: with this many entries in the journal, at `now` in milliseconds, and with
    /// this due next.
    pub fn asks(self, entries: u64, now: u64, due: Due) -> bool
        ensures value { result ≡ asks_hand_over self entries now due }
        ensures full { result ≡ true → self.hand_over_at ≤ entries }
    {
        let quiet = u64::from(self.tables.pace.every.min(QUIET));
        self.hand_over_at <= entries
            && self.not_before <= now
            && quiet <= due.table.saturating_sub(now)
    }
}
