//! When the reporter acts, in milliseconds of the run's clock.
ghost use Rattle.std.specs.Prelude.{◌≡◌, ◌-◌, ◌^◌, ◌/◌, ℕ, List, [], ◌∷◌, Option, None, min};
ghost use Rattle.std.specs.Io.KnownBytes.{Appends};
ghost use Rattle.station_reporter.specs.Reporter.{IsActAt, after_table, after_tick, due_from, first_due, has_come, is_writing_due, next_moment, next_tick, writing_interval};

use command_line::Pace;
use station_files::milliseconds;
use station_report::Format;
use std::time::{Clock, Duration, Instant};

/// What a reporter's tables are.
#[derive(Clone, Copy, Debug, PartialEq, Eq)]
pub struct Tables {
    /// When they are due.
    pub pace: Pace,
    /// How they are written.
    pub format: Format,
}

/// When the reporter acts next, in milliseconds of the run's clock.
#[derive(Clone, Copy, Debug, PartialEq, Eq)]
pub struct Due {
    /// The next table, with its tick.
    pub table: u64,
    /// The next tick, if it comes before the table.
    pub tick: Option<u64>,
}

/// What is due after a table at this time, or after the last tick before the reporter's start.
pub fn after_table(pace: Pace, at: u64) -> Due
    ensures { result ≡ after_table pace at }
{
    Due {
        table: later(at, pace.every),
        tick: next_tick(pace, at),
    }
}

/// What is due at a clock that begins at this time, after the last tick before the reporter's start. Where no tick has come
/// since the beginning, one is due at once, so that what is heard is dated by it.
pub fn due_from(pace: Pace, begins_at: u64, last_tick: u64) -> Due
    ensures { result ≡ due_from pace begins_at last_tick }
{
    if last_tick < begins_at {
        return Due {
            table: later(begins_at, pace.every),
            tick: Some(begins_at),
        };
    }
    after_table(pace, last_tick)
}

/// What is due after a tick alone at this time: the table is due where it was.
pub fn after_tick(pace: Pace, due: Due, at: u64) -> Due
    ensures { result ≡ after_tick pace due at }
{
    Due {
        table: due.table,
        tick: next_tick(pace, at),
    }
}

// When a tick is due after one at this time.
fn next_tick(pace: Pace, at: u64) -> Option<u64>
    ensures { result ≡ next_tick pace.tick at }
{
    match pace.tick {
        Some(tick) => Some(later(at, tick)),
        None => None,
    }
}

impl Due {
    // Whether a tick is due by now.
    fn is_tick_due(self, now: u64) -> bool
        ensures { result ≡ has_come self.tick now }
    {
        match self.tick {
            Some(tick) => tick <= now,
            None => false,
        }
    }

    // The time of what is due first.
    fn first(self) -> u64
        ensures { result ≡ first_due self }
    {
        match self.tick {
            Some(tick) => self.table.min(tick),
            None => self.table,
        }
    }
}

// The time one interval later, up to 2^64 - 1.
fn later(at: u64, interval: u32) -> u64
    ensures { result ≡ next_moment interval at }
{
    at.saturating_add(u64::from(interval))
}

// The least time from one writing to the next that is without a table, in milliseconds.
const BETWEEN_WRITINGS: u32 = 1_000;

// Whether what is heard is written after a tick alone at `now`: it wasn't before, or a second has passed since.
pub(crate) fn is_writing_due(last: Option<u64>, now: u64) -> bool
    ensures { result ≡ is_writing_due last now }
{
    match last {
        Some(last) => now.saturating_sub(last) >= u64::from(BETWEEN_WRITINGS),
        None => true,
    }
}

/// How often what is heard is written at this pace, in milliseconds: with each table, and after ticks alone once a second.
pub fn writing_interval(pace: Pace) -> u32
    ensures { result ≡ writing_interval pace }
{
    match pace.tick {
        Some(tick) => pace.every.min(tick.max(BETWEEN_WRITINGS)),
        None => pace.every,
    }
}

// The longest sleep, in milliseconds.
pub(crate) const LONGEST_SLEEP: u64 = 50;

/// What the reporter does at one time.
#[derive(Clone, Copy, Debug, PartialEq, Eq)]
pub enum Act {
    /// Sleep, since nothing is due yet.
    Sleep(Duration),
    /// Tick, and print nothing.
    Tick {
        /// The time of the tick.
        at: u64,
        next_due: Due,
    },
    /// Tick and print the table.
    Print {
        /// The time of the tick.
        at: u64,
        next_due: Due,
    },
}

/// What the reporter does at `now`, in milliseconds, by what is due. Where a table is due it ticks and prints the table.
/// Else, where a tick is due, it ticks alone. Else it sleeps up to what is due first, but at most 50 ms.
pub fn act_at(now: u64, due: Due, pace: Pace) -> Act
    ensures { IsActAt pace due now result }
{
    if due.table <= now {
        return Act::Print {
            at: now,
            next_due: after_table(pace, now),
        };
    }
    if due.is_tick_due(now) {
        return Act::Tick {
            at: now,
            next_due: after_tick(pace, due, now),
        };
    }
    let pause = (due.first() - now).min(LONGEST_SLEEP);
    Act::Sleep(Duration::from_millis(pause))
}

/// A clock, in milliseconds.
pub trait Moments {
    /// The times given so far, if they are known.
    ghost given: { Self → Option (List ℕ) };

    /// The time now.
    fn now(&mut self) -> u64
        ensures { Appends (given self.old) (given self.new) (result ∷ []) };
}

/// The clock of a run.
#[derive(Clone, Copy)]
pub struct RunClock {
    // When it began, if the system has a clock that never goes back.
    start: Option<Instant>,
    // The time that it showed then, in milliseconds.
    begins_at: u64,
}

impl RunClock {
    /// A clock that begins now, with this time in milliseconds.
    pub fn begin<R: Clock>(rt: &R, begins_at: u64) -> RunClock {
        RunClock {
            start: Instant::now(rt).ok(),
            begins_at,
        }
    }

    /// The time that it shows. A clock that can't be read counts as one that still shows the beginning.
    pub fn now<R: Clock>(self, rt: &R) -> u64 {
        match self.start.map(|start| start.elapsed(rt)) {
            Some(Ok(passed)) => self.begins_at.saturating_add(milliseconds(passed)),
            _ => self.begins_at,
        }
    }
}

/// The time that the clock of a run shows. It stays where it began if the system's couldn't be read then.
#[derive(Drop)]
pub struct ElapsedClock<'a, R> {
    pub rt: &'a R,
    pub clock: RunClock,
}

impl<R: Clock> Moments for ElapsedClock<'_, R> {
    ghost given = { λ _. None };

    fn now(&mut self) -> u64 {
        self.clock.now(self.rt)
    }
}
