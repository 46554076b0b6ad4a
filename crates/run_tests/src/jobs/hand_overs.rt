//! The job `run` over stations that hand over.
ghost use Rattle.std.specs.Prelude.{◌≡◌, ◌≤◌, length};

use crate::comparing::{holds, same};
use crate::trials::{Host, Trials};
use station_journal::{Entry, Recent};
use station_main::{Alarms, Due, Duties, Kept, Pace, RunOptions, StandardError, Tables, run};
use station_report::Format;
use std::alloc::{AllocError, Global};
use std::io::Write;
use std::test::*;
use std::thread::join;
use test_support::{
    FRAMES, IDENTIFICATION, Own, Ran, Rig, Staged, System, TIMES, all_call_replies, feed, text,
};

// How many entries make a station hand over.
const LIMIT: u64 = 20;

/// Tables each `every` milliseconds.
pub fn tables_each(every: u32) -> Tables {
    Tables {
        pace: Pace { every, tick: None },
        format: Format::Text,
    }
}

// A table is due at this time, and no tick.
fn table_at(table: u64) -> Due {
    Due { table, tick: None }
}

// A reporter with such tables.
fn duties(every: u32) -> Duties {
    Duties::first(tables_each(every), 0, 0, LIMIT, false)
}

// What a hand-over leaves: this number of entries, and the time of the last tick.
fn kept(alloc: Global, count: u8, last_tick: u64) -> Result<Kept, AllocError> {
    let mut entries = Vec::new(alloc);
    for i in 0..count {
        let at = 1 + u64::from(i);
        entries.push(Entry::Tick { seat: 0, at })?;
    }
    let recent = Recent { base: 0, entries };
    let site = None;
    Ok(Kept {
        recent,
        last_tick,
        site,
    })
}

#[test]
fn a_hand_over_is_asked_for_right_after_a_table(rt: HostRuntime) {
    // The interval between tables, the number of entries, the time now, when a table is due, and whether it is asked for.
    for (every, entries, now, table, is_asked) in [
        (200, 20, 1_000, 1_200, true),
        (200, 21, 1_000, 1_200, true),
        (200, 19, 1_000, 1_200, false),
        (200, 20, 1_001, 1_200, false),
        (200, 20, 1_300, 1_200, false),
        (1, 20, 1_000, 1_001, true),
        (1_000, 20, 1_000, 2_000, true),
        (1_000, 20, 1_001, 2_000, false),
        (5_000, 20, 1_000, 2_000, true),
        (5_000, 20, 1_001, 2_000, false),
        (3_600_000, 20, 0, 3_600_000, true),
        (3_600_000, 20, u64::MAX, u64::MAX, false),
    ] {
        let asks = duties(every).asks(entries, now, table_at(table));
        same(&rt, asks, is_asked);
    }
}

#[test]
fn a_hand_over_that_freed_little_is_followed_by_a_pause(rt: HostRuntime) -> Result<(), Fail> {
    let (due, never) = (table_at(20_000), table_at(u64::MAX));
    // How many entries were left, the time of the last tick, and when the next hand-over may be asked for.
    for (count, last_tick, not_before) in [
        (0, 5_000, 0),
        (10, 5_000, 0),
        (11, 5_000, 15_000),
        (20, 0, 10_000),
        (20, u64::MAX - 9_999, u64::MAX),
    ] {
        let left = kept(rt.alloc(), count, last_tick)?;
        let next = duties(200).after_hand_over(&left, due);
        same(&rt, next.not_before, not_before);
        same(&rt, next.due, due);
        if let Some(early) = not_before.checked_sub(1) {
            holds(&rt, !next.asks(LIMIT, early, never));
        }
        let asks = next.asks(LIMIT, not_before, never);
        holds(&rt, asks || not_before == u64::MAX);
    }
    Ok(())
}

/// Times that are 71 seconds apart: what was heard before a hand-over is not recent after it.
pub fn late_moments(alloc: Global) -> Result<Vec<u64>, AllocError> {
    let mut moments = Vec::new(alloc);
    for i in 0..10_000u64 {
        moments.push(1_000_000 + 71_000 * i)?;
    }
    Ok(moments)
}

/// Options of a run of one round over these paths, with nothing beside its output where `unset` is nothing. This many entries make a
/// station hand over.
pub fn options_of<'a>(
    tables: Tables,
    hand_over_at: u64,
    paths: &'a Vec<String>,
    unset: &'a Option<String>,
) -> RunOptions<'a>
    ensures rounds { result.rounds ≡ 1 }
    ensures paths { result.paths.now ≡ paths.entry.now }
{
    RunOptions {
        tables,
        rounds: 1,
        reopens: false,
        watch: None,
        stop: unset,
        begins_at: 0,
        origin: 0,
        record: unset,
        displays: unset,
        paths,
        hand_over_at,
        site: None,
    }
}

// Runs over paths without a table before the last, by stations that hand over, and records it.
fn run_by_hand_overs<R: System, W: Own>(
    rig: &Rig<'_, R, W>,
    record: String,
    first: String,
    second: String,
) -> Result<Ran, AllocError> {
    let mut out = Vec::new(rig.alloc);
    let ran = run_by_hand_overs_to(rig, 3_600_000, record, first, second, &mut out)?;
    Ok(Ran { out, ..ran })
}

/// The same to an output of its own, with a table each `every` milliseconds.
pub fn run_by_hand_overs_to<R: System, W: Own>(
    rig: &Rig<'_, R, W>,
    every: u32,
    record: String,
    first: String,
    second: String,
    out: impl Write + Send + Drop,
) -> Result<Ran, AllocError> {
    let record = Some(record);
    let paths = vec![in rig.alloc; first, second]?;
    let options = RunOptions {
        record: &record,
        ..options_of(tables_each(every), LIMIT, &paths, &None)
    };
    run_with(rig, options, out)
}

/// Runs with these options to an output of its own.
pub fn run_with<R: System, W: Own>(
    rig: &Rig<'_, R, W>,
    options: RunOptions<'_>,
    out: impl Write + Send + Drop,
) -> Result<Ran, AllocError>
    requires rounds { 1 ≤ options.rounds }
    requires paths { length options.paths.now.items ≤ 8 }
{
    let (rt, own, alloc) = (rig.rt, rig.own, rig.alloc);
    let host = station_main::Host { rt, own, alloc };
    let (mut ran, mut err) = (Ran::nothing(alloc), Vec::new(alloc));
    let alarms = Alarms {
        output: &mut ran.output_alarm,
        stalls: &mut ran.stall_alarm,
        record: &mut ran.record_alarm,
        displays: &mut ran.display_alarm,
        limits: &mut ran.limit_alarm,
        paths: &mut ran.path_alarm,
    };
    let mut told = StandardError::new(&mut err);
    let status = run(&host, options, out, alarms, &mut told).status;
    Ok(Ran { status, err, ..ran })
}

impl<R: Host, W: Own> Trials<'_, R, W> {
    // The second path is silent after its first line.
    fn hand_overs_lose_no_line_and_print_no_table(self) -> Result<(), Fail> {
        let (rt, alloc) = (self.rt, self.alloc);
        let folder = self.rig.new_folder()?;
        let record = format!(in alloc; "{}/record", folder.as_str())?;
        let moments = late_moments(alloc)?;
        let staged = Staged::new(rt, moments.as_slice());
        let (first, mut second) = (self.rig.lasting_path()?, self.rig.lasting_path()?);
        second.lines.write_all(IDENTIFICATION.as_bytes())?;
        let (first_lines, second_lines) = (first.lines, second.lines);
        let (first_path, second_path) = (first.path, second.path);
        let path = format!(in alloc; "{record}")?;
        let staged_rig = self.rig.over(&staged);
        let lines = all_call_replies(alloc, 1, FRAMES * TIMES)?;
        let (were_fed, ran) = join(
            rt,
            || {
                let were_fed = feed(rt, first_lines, lines.as_str(), path.as_str());
                drop(second_lines);
                were_fed
            },
            move || run_by_hand_overs(&staged_rig, record, first_path, second_path),
        );
        holds(rt, were_fed?);
        let ran = ran?;
        holds(
            rt,
            ran.record_alarm.is_empty() && ran.limit_alarm.is_empty(),
        );
        let tallies = concat!(
            "lines 120 frames 120 ticks 0 shows 0 blank 0 modeac 0 faults 0 accepted 120 refused 0\n",
            "lines 1 frames 1 ticks 0 shows 0 blank 0 modeac 0 faults 0 accepted 1 refused 0\n",
        );
        let (recorded, shown) = self.rig.shown_again(path.as_str())?;
        self.leaves(&ran, 0, text(&shown), tallies);
        same(rt, text(&recorded).split('*').count(), 122);
        self.rig.remove(&folder)
    }

    // The first path is a folder: its read fails before the first hand-over.
    fn a_failed_read_is_reported_once_over_hand_overs(self) -> Result<(), Fail> {
        let (rt, alloc) = (self.rt, self.alloc);
        let folder = self.rig.new_folder()?;
        let record = format!(in alloc; "{}/record", folder.as_str())?;
        let moments = late_moments(alloc)?;
        let staged = Staged::new(rt, moments.as_slice());
        let second = self.rig.lasting_path()?;
        let (second_lines, second_path) = (second.lines, second.path);
        let first_path = format!(in alloc; "{folder}")?;
        let path = format!(in alloc; "{record}")?;
        let staged_rig = self.rig.over(&staged);
        let lines = all_call_replies(alloc, 1, FRAMES * TIMES)?;
        let (were_fed, ran) = join(
            rt,
            || feed(rt, second_lines, lines.as_str(), path.as_str()),
            move || run_by_hand_overs(&staged_rig, record, first_path, second_path),
        );
        holds(rt, were_fed?);
        let ran = ran?;
        let tallies = concat!(
            "lines 0 frames 0 ticks 0 shows 0 blank 0 modeac 0 faults 0 accepted 0 refused 0\n",
            "groundstation: read failed\n",
            "lines 120 frames 120 ticks 0 shows 0 blank 0 modeac 0 faults 0 accepted 120 refused 0\n",
        );
        let (_, shown) = self.rig.shown_again(path.as_str())?;
        self.leaves(&ran, 1, text(&shown), tallies);
        self.rig.remove(&folder)
    }
}

#[test]
fn hand_overs_lose_no_line_and_print_no_table(rt: HostRuntime) -> Result<(), Fail> {
    Trials::on(&rt).hand_overs_lose_no_line_and_print_no_table()
}

#[test]
fn a_failed_read_is_reported_once_over_hand_overs(rt: HostRuntime) -> Result<(), Fail> {
    Trials::on(&rt).a_failed_read_is_reported_once_over_hand_overs()
}
