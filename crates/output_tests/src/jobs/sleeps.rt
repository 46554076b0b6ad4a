//! How long the reporter sleeps, and what it does at a time.
use crate::comparing::{holds, same};
use crate::trials::{Host, Trials};
use station_main::{Act, Bell, Due, Pace, act_at};
use std::io::{self, ErrorKind, Write};
use std::test::*;
use std::time::{Clock, Duration, Instant};
use test_support::{EVERY_HOUR, Feed, NO_LINES, Own, Staged};

fn sleep(milliseconds: u64) -> Act {
    Act::Sleep(Duration::from_millis(milliseconds))
}

// Notes when it was last written to.
#[derive(Drop)]
struct Timed<'a, R> {
    rt: &'a R,
    written: &'a mut Result<Instant, ErrorKind>,
}

impl<'a, R: Clock> Write for Timed<'a, R> {
    fn write(&mut self, piece: &[u8]) -> io::Result<usize> {
        *self.written = Instant::now(self.rt).map_err(|error| error.kind());
        Ok(piece.len())
    }

    fn flush(&mut self) -> io::Result<()> {
        Ok(())
    }
}

// A table each 500 ms.
const TABLES: Pace = Pace {
    every: 500,
    tick: None,
};

// A table each 500 ms, and a tick each 80 ms between two tables.
const TABLES_AND_TICKS: Pace = Pace {
    every: 500,
    tick: Some(80),
};

fn at(table: u64, tick: Option<u64>) -> Due {
    Due { table, tick }
}

fn print(at: u64, next_due: Due) -> Act {
    Act::Print { at, next_due }
}

fn tick(at: u64, next_due: Due) -> Act {
    Act::Tick { at, next_due }
}

#[test]
fn a_sleep_lasts_until_a_table_is_due_or_is_the_longest(rt: HostRuntime) {
    // The time now, and when a table is due, in milliseconds.
    for (now, table, act) in [
        (0, 1_000, sleep(50)),
        (0, u64::MAX, sleep(50)),
        (949, 1_000, sleep(50)),
        (950, 1_000, sleep(50)),
        (951, 1_000, sleep(49)),
        (999, 1_000, sleep(1)),
        (1_000, 1_000, print(1_000, at(1_500, None))),
        (1_007, 1_000, print(1_007, at(1_507, None))),
        (u64::MAX, 1_000, print(u64::MAX, at(u64::MAX, None))),
    ] {
        same(&rt, act_at(now, at(table, None), TABLES), act);
    }
}

#[test]
fn a_tick_comes_alone_where_no_table_is_due(rt: HostRuntime) {
    let latest = at(u64::MAX, Some(u64::MAX));
    // The time now, when a table and when a tick is due, in milliseconds.
    for (now, table, first_tick, act) in [
        (0, 1_000, 980, sleep(50)),
        (940, 1_000, 980, sleep(40)),
        (979, 1_000, 980, sleep(1)),
        (980, 1_000, 980, tick(980, at(1_000, Some(1_060)))),
        (999, 1_000, 980, tick(999, at(1_000, Some(1_079)))),
        (999, 1_000, 1_060, sleep(1)),
        (1_000, 1_000, 980, print(1_000, at(1_500, Some(1_080)))),
        (1_001, 1_000, 1_060, print(1_001, at(1_501, Some(1_081)))),
        (u64::MAX, 1_000, 980, print(u64::MAX, latest)),
    ] {
        let due = at(table, Some(first_tick));
        same(&rt, act_at(now, due, TABLES_AND_TICKS), act);
    }
}

#[test]
fn a_rest_beside_a_silent_bell_lasts(rt: HostRuntime) -> Result<(), Fail> {
    let bell = Bell::new();
    let began = Instant::now(&rt)?;
    for _ in 0..5 {
        bell.rest(&rt, Duration::from_millis(10));
    }
    let rested = began.elapsed(&rt)?.as_millis();
    holds(&rt, !bell.has_rung());
    holds(&rt, rested >= 40 && rested < 5_000);
    Ok(())
}

impl<R: Host, W: Own> Trials<'_, R, W> {
    // No table is due, so each sleep lasts 50 ms: twenty readings within the 20 seconds that a path waits. A reading each
    // 10 ms, and ten more, are allowed.
    fn the_reporter_sleeps_between_its_readings_of_the_clock(self) -> Result<(), Fail> {
        let rt = self.rt;
        let began = Instant::now(rt)?;
        let lasted = self
            .rig
            .run_through([0; 20].as_slice(), EVERY_HOUR, NO_LINES)?;
        let allowed = 10 + began.elapsed(rt)?.as_millis() / 10;
        same(rt, lasted.ran.status, 0);
        let readings = u64::try_from(lasted.readings)?;
        holds(rt, readings <= u64::try_from(allowed)?);
        Ok(())
    }

    // The reporter's second reading of the clock lets the path end, some 10 ms later at most, and its sleep of 50 ms begins
    // there: a run that waited for it would print its last table 40 ms after its path has ended. Processors may be busy, so one
    // run of fifty that prints it sooner is enough.
    fn a_run_ends_while_its_reporter_sleeps(self) -> Result<(), Fail> {
        let rt = self.rt;
        for _ in 0..50 {
            let staged = Staged::new(rt, [0].as_slice());
            let mut written = Err(ErrorKind::NotFound);
            let out = Timed {
                rt,
                written: &mut written,
            };
            let feed = Feed::at(&staged.has_ended, NO_LINES);
            let (ran, ended) = self.rig.run_lasting(&staged, EVERY_HOUR, out, feed)?;
            same(rt, ran.status, 0);
            let since_end = ended?.elapsed(rt)?;
            let Ok(written) = written else {
                return Err(Fail::new("no table was written"));
            };
            if since_end.saturating_sub(written.elapsed(rt)?) < Duration::from_millis(38) {
                return Ok(());
            }
        }
        Err(Fail::new("each run has waited for its reporter"))
    }
}

#[test]
fn the_reporter_sleeps_between_its_readings_of_the_clock(rt: HostRuntime) -> Result<(), Fail> {
    Trials::on(&rt).the_reporter_sleeps_between_its_readings_of_the_clock()
}

#[test]
fn a_run_ends_while_its_reporter_sleeps(rt: HostRuntime) -> Result<(), Fail> {
    Trials::on(&rt).a_run_ends_while_its_reporter_sleeps()
}
