//! The job `run` with ticks between its tables.
use crate::comparing::{holds, holds_at, same};
use crate::trials::{Host, Trials};
use std::fs;
use std::io::{PipeWriter, Write};
use std::sync::atomic::AtomicBool;
use std::test::*;
use std::thread::join;
use test_support::{IDENTIFICATION, NO_LINES, Own, Ran, Staged, becomes_set, tables, text};

const TABLE: &str = tables!("now 70000 aircraft 1" => [
    "4840D6 KLM1023       -    -            -      -          -          -   0",
]);

// Tables of ticks alone. The system's clock is set back to the start all the time.
const TICKS: &str = "{\"now\":1700000000.000,\"messages\":1,\"aircraft\":[]}\n";

const MORE_TICKS: &str = "{\"now\":1700000000.000,\"messages\":3,\"aircraft\":[]}\n";

// The same by a clock that begins with the time since 1970, and never follows the system's.
const DATED_TICKS: &str = "{\"now\":1700000001.000,\"messages\":2,\"aircraft\":[]}\n";

// What a record and displays have while a run goes on, and what it leaves.
#[derive(Drop)]
struct Noted {
    lines: Vec<u8>,
    shown: Vec<u8>,
    ran: Ran,
}

// Once the flag is set, reads two files and gives the path a frame.
fn read_and_end<R: Host>(
    rt: &R,
    flag: &AtomicBool,
    mut lines: PipeWriter,
    first: &str,
    second: &str,
) -> Result<(Vec<u8>, Vec<u8>), Fail> {
    holds_at(rt, becomes_set(rt, flag), "the clock hasn't ended");
    let both = (fs::read(rt, first)?, fs::read(rt, second)?);
    lines.write_all(IDENTIFICATION.as_bytes())?;
    Ok(both)
}

impl<R: Host, W: Own> Trials<'_, R, W> {
    // Runs through the times of this clock with a tick each 400 ms, a record and displays, while no table is due.
    fn run_noted(&self, staged: &Staged<'_, R>, folder: &str, clock: &str) -> Result<Noted, Fail> {
        let (rt, alloc) = (self.rt, self.alloc);
        let record = format!(in alloc; "{folder}/record")?;
        let table = format!(in alloc; "{folder}/aircraft.json")?;
        let (record, table) = (record.as_str(), table.as_str());
        let line = format!(in alloc;
            "run --every=3600000 --tick=400 --clock={clock} --record={record} --json={folder}"
        )?;
        let lasting = self.rig.lasting_path()?;
        let (lines, path) = (lasting.lines, lasting.path.as_str());
        let (rig, flag) = (self.rig.over(staged), &staged.has_ended);
        let (line, mut out) = (line.as_str(), Vec::new(alloc));
        let (read, ran) = join(
            rt,
            || read_and_end(rt, flag, lines, record, table),
            || rig.run_to(line, [path].as_slice(), NO_LINES, &mut out),
        );
        let ((lines, shown), ran) = (read?, ran?);
        let ran = Ran { out, ..ran };
        Ok(Noted { lines, shown, ran })
    }

    // The system's clock shows the same time when a table is written as at the start.
    fn the_files_for_displays_follow_the_clock_of_the_system(self) -> Result<(), Fail> {
        let (rt, folder) = (self.rt, self.rig.new_folder()?);
        let path = format!(in self.alloc; "{}/aircraft.json", folder.as_str())?;
        let staged = Staged::new(rt, [1_000_000, 1_000_500, 1_001_000].as_slice());
        let noted = self.run_noted(&staged, folder.as_str(), "start")?;
        same(rt, text(&noted.shown), TICKS);
        let last = fs::read(rt, path.as_str())?;
        holds(rt, text(&last).starts_with("{\"now\":1700000000.000,"));
        self.rig.remove(&folder)
    }

    // A tick is due at once, and the next to be written comes a second later.
    fn a_clock_of_unix_time_follows_no_clock(self) -> Result<(), Fail> {
        let (rt, folder) = (self.rt, self.rig.new_folder()?);
        let staged = Staged::new(rt, [1_000_000, 1_000_000, 1_001_000].as_slice());
        let noted = self.run_noted(&staged, folder.as_str(), "unix")?;
        same(rt, text(&noted.lines), "+1700000000000\n+1700000001000\n");
        same(rt, text(&noted.shown), DATED_TICKS);
        same(rt, noted.ran.status, 0);
        self.rig.remove(&folder)
    }

    // The second tick comes too soon after the first to be written. All is written at the end, and shown again.
    fn what_is_heard_is_written_once_a_second_without_a_table(self) -> Result<(), Fail> {
        let (rt, folder) = (self.rt, self.rig.new_folder()?);
        let staged = Staged::new(rt, [1_000_000, 1_000_400, 1_000_800].as_slice());
        let noted = self.run_noted(&staged, folder.as_str(), "start")?;
        same(rt, text(&noted.lines), "+400\n");
        same(rt, text(&noted.shown), TICKS);
        let record = format!(in self.alloc; "{}/record", folder.as_str())?;
        let (lines, shown) = self.rig.shown_again(record.as_str())?;
        let last_lines = "+400\n+800\n*8D4840D6202CC371C32CE0576098;\n?\n";
        same(rt, text(&lines), last_lines);
        same(rt, text(&shown), text(&noted.ran.out));
        same(rt, noted.ran.status, 0);
        self.rig.remove(&folder)
    }

    fn a_second_later_it_is_written_again(self) -> Result<(), Fail> {
        let (rt, folder) = (self.rt, self.rig.new_folder()?);
        let staged = Staged::new(
            rt,
            [1_000_000, 1_000_400, 1_000_800, 1_001_199, 1_001_400].as_slice(),
        );
        let noted = self.run_noted(&staged, folder.as_str(), "start")?;
        same(rt, text(&noted.lines), "+400\n+800\n+1400\n");
        same(rt, text(&noted.shown), MORE_TICKS);
        same(rt, noted.ran.status, 0);
        self.rig.remove(&folder)
    }

    // No table is due for an hour, while a clock that starts at 1,000,000 ms shows 71 seconds. Ticks alone have moved the
    // clock of the table to the 70th second when the path gets its frame and ends.
    fn ticks_alone_move_the_clock(self) -> Result<(), Fail> {
        let mut moments = Vec::new(self.alloc);
        for second in 0..71u64 {
            moments.push(1_000_000 + 1_000 * second)?;
        }
        let line = "run --every 3600000 --tick 1000";
        let frame = IDENTIFICATION.as_bytes();
        let lasted = self.rig.run_through(moments.as_slice(), line, frame)?;
        same(self.rt, text(&lasted.ran.out), TABLE);
        same(self.rt, lasted.ran.status, 0);
        Ok(())
    }
}

#[test]
fn ticks_alone_move_the_clock(rt: HostRuntime) -> Result<(), Fail> {
    Trials::on(&rt).ticks_alone_move_the_clock()
}

#[test]
fn what_is_heard_is_written_once_a_second_without_a_table(rt: HostRuntime) -> Result<(), Fail> {
    Trials::on(&rt).what_is_heard_is_written_once_a_second_without_a_table()
}

#[test]
fn the_files_for_displays_follow_the_clock_of_the_system(rt: HostRuntime) -> Result<(), Fail> {
    Trials::on(&rt).the_files_for_displays_follow_the_clock_of_the_system()
}

#[test]
fn a_clock_of_unix_time_follows_no_clock(rt: HostRuntime) -> Result<(), Fail> {
    Trials::on(&rt).a_clock_of_unix_time_follows_no_clock()
}

#[test]
fn a_second_later_it_is_written_again(rt: HostRuntime) -> Result<(), Fail> {
    Trials::on(&rt).a_second_later_it_is_written_again()
}
