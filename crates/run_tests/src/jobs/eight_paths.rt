//! The job `run` over eight paths of all kinds, with two hand-overs.
ghost use Rattle.std.specs.Prelude.{◌≡◌, ◌≤◌, IfOk, length};

use super::hand_overs::{late_moments, options_of, run_with, tables_each};
use crate::comparing::{holds, same};
use crate::trials::{Host, Trials};
use station_main::RunOptions;
use std::alloc::{AllocError, Global};
use std::fs;
use std::io::{self, PipeWriter, Write};
use std::rt::Files;
use std::test::*;
use std::thread::join;
use std::time::Clock;
use test_support::{Lasting, Own, Ran, Rig, Staged, System, feed_part, replies_to, text};

// How many entries make a station hand over.
const LIMIT: u64 = 550;

const TABLE_FULL: &str = "groundstation: table full\n";

// What one path gets before a hand-over: a reply of each of so many aircraft, and one more of the first of them, to another
// interrogator.
#[derive(Clone, Copy)]
struct Part {
    aircraft: u16,
    again: u16,
}

// More aircraft than a table has room for.
const FULL: Part = Part {
    aircraft: 600,
    again: 40,
};

const NOT_FULL: Part = Part {
    aircraft: 500,
    again: 60,
};

impl Part {
    fn lines(self, alloc: Global, address: u16) -> Result<String, AllocError> {
        let first = replies_to(alloc, 0, address, self.aircraft)?;
        let again = replies_to(alloc, 5, address, self.again)?;
        format!(in alloc; "{first}{again}")
    }
}

// The lines of the path that is fed: two parts, each before a hand-over, and ten aircraft more.
#[derive(Drop)]
struct Story {
    first: String,
    second: String,
    last: String,
}

impl Story {
    fn of(alloc: Global, parts: [Part; 2]) -> Result<Story, AllocError> {
        let [first, second] = parts;
        Ok(Story {
            first: first.lines(alloc, 1_000)?,
            second: second.lines(alloc, 2_000)?,
            last: replies_to(alloc, 0, 3_000, 10)?,
        })
    }

    // Answers whether the hand-overs came.
    fn feed<R: Clock + Files + AllocGlobal>(
        &self,
        rt: &R,
        mut lines: PipeWriter,
        record: &str,
    ) -> io::Result<bool> {
        let comes = feed_part(rt, &mut lines, self.first.as_bytes(), record, 1)?
            && feed_part(rt, &mut lines, self.second.as_bytes(), record, 2)?;
        lines.write_all(self.last.as_bytes())?;
        Ok(comes)
    }
}

// Eight paths, as they are or from the last to the first.
fn in_order(alloc: Global, paths: [String; 8], is_turned: bool) -> Result<Vec<String>, AllocError>
    ensures { IfOk result (λ all. length all.items ≡ 8) }
{
    let [a, b, c, d, e, f, g, h] = paths;
    if is_turned {
        Ok(vec![in alloc; h, g, f, e, d, c, b, a]?)
    } else {
        Ok(vec![in alloc; a, b, c, d, e, f, g, h]?)
    }
}

// Runs over paths by stations that hand over, beside a record and a folder for displays.
fn run_beside<R: System, W: Own>(
    rig: &Rig<'_, R, W>,
    paths: Vec<String>,
    record: String,
    folder: String,
) -> Result<Ran, AllocError>
    requires { length paths.items ≤ 8 }
{
    let (record, displays) = (Some(record), Some(folder));
    let mut out = Vec::new(rig.alloc);
    let options = RunOptions {
        record: &record,
        displays: &displays,
        ..options_of(tables_each(u32::MAX), LIMIT, &paths, &None)
    };
    let ran = run_with(rig, options, &mut out)?;
    Ok(Ran { out, ..ran })
}

impl<R: Host, W: Own> Trials<'_, R, W> {
    // A path that lasts, with so many lines that can't be read.
    fn unreadable(&self, count: usize) -> Result<Lasting, Fail> {
        let mut lasting = self.rig.lasting_path()?;
        for _ in 0..count {
            lasting.lines.write_all(b"*zz;\n")?;
        }
        Ok(lasting)
    }

    // A path is fed, five are silent after some lines, one is a folder, whose read fails, and one a file.
    fn hands_over_twice(
        self,
        parts: [Part; 2],
        is_turned: bool,
        tallies: &str,
    ) -> Result<(), Fail> {
        let (rt, alloc) = (self.rt, self.alloc);
        let story = Story::of(alloc, parts)?;
        let folder = self.rig.new_folder()?;
        let file = self.rig.put(&folder, "file", "*7700;\n*7500;\n")?;
        let record = format!(in alloc; "{}/record", folder.as_str())?;
        let moments = late_moments(alloc)?;
        let staged = Staged::new(rt, moments.as_slice());
        let fed = self.rig.lasting_path()?;
        let (b, c, d) = (
            self.unreadable(2)?,
            self.unreadable(3)?,
            self.unreadable(4)?,
        );
        let (e, f) = (self.unreadable(5)?, self.unreadable(6)?);
        let failing = format!(in alloc; "{folder}")?;
        let all = [
            fed.path, b.path, c.path, d.path, e.path, f.path, failing, file,
        ];
        let paths = in_order(alloc, all, is_turned)?;
        let (path, shown_in) = (
            format!(in alloc; "{record}")?,
            format!(in alloc; "{folder}")?,
        );
        let rig = self.rig.over(&staged);
        let lines = fed.lines;
        let silent = (b.lines, c.lines, d.lines, e.lines, f.lines);
        let (were_fed, ran) = join(
            rt,
            || {
                let were_fed = story.feed(rt, lines, path.as_str());
                drop(silent);
                were_fed
            },
            move || -> Result<Ran, AllocError>
                requires { length paths.items ≤ 8 }
            { run_beside(&rig, paths, record, shown_in) },
        );
        holds(rt, were_fed?);
        self.has_all(&ran?, &folder, tallies)
    }

    // Ends the test unless the run left this, and removes the folder.
    fn has_all(&self, ran: &Ran, folder: &String, tallies: &str) -> Result<(), Fail> {
        let rt = self.rt;
        let record = format!(in self.alloc; "{folder}/record")?;
        let (_, shown) = self.rig.shown_again(record.as_str())?;
        self.leaves(ran, 1, text(&shown), tallies);
        same(rt, text(&ran.limit_alarm), TABLE_FULL);
        holds(
            rt,
            ran.record_alarm.is_empty() && ran.display_alarm.is_empty(),
        );
        let table = format!(in self.alloc; "{folder}/aircraft.json")?;
        let table = fs::read(rt, table.as_str())?;
        same(rt, text(&table).split("\"hex\"").count(), 11);
        self.rig.remove(folder)
    }
}

const FULL_TWICE: &str = concat!(
    "lines 1290 frames 1290 ticks 0 shows 0 blank 0 modeac 0 faults 0 accepted 1114 refused 176\n",
    "lines 2 frames 0 ticks 0 shows 0 blank 0 modeac 0 faults 2 accepted 0 refused 0\n",
    "lines 3 frames 0 ticks 0 shows 0 blank 0 modeac 0 faults 3 accepted 0 refused 0\n",
    "lines 4 frames 0 ticks 0 shows 0 blank 0 modeac 0 faults 4 accepted 0 refused 0\n",
    "lines 5 frames 0 ticks 0 shows 0 blank 0 modeac 0 faults 5 accepted 0 refused 0\n",
    "lines 6 frames 0 ticks 0 shows 0 blank 0 modeac 0 faults 6 accepted 0 refused 0\n",
    "lines 0 frames 0 ticks 0 shows 0 blank 0 modeac 0 faults 0 accepted 0 refused 0\n",
    "groundstation: read failed\n",
    "lines 2 frames 0 ticks 0 shows 0 blank 0 modeac 2 faults 0 accepted 0 refused 0\n",
);

const FULL_AFTER_A_HAND_OVER: &str = concat!(
    "lines 2 frames 0 ticks 0 shows 0 blank 0 modeac 2 faults 0 accepted 0 refused 0\n",
    "lines 0 frames 0 ticks 0 shows 0 blank 0 modeac 0 faults 0 accepted 0 refused 0\n",
    "groundstation: read failed\n",
    "lines 6 frames 0 ticks 0 shows 0 blank 0 modeac 0 faults 6 accepted 0 refused 0\n",
    "lines 5 frames 0 ticks 0 shows 0 blank 0 modeac 0 faults 5 accepted 0 refused 0\n",
    "lines 4 frames 0 ticks 0 shows 0 blank 0 modeac 0 faults 4 accepted 0 refused 0\n",
    "lines 3 frames 0 ticks 0 shows 0 blank 0 modeac 0 faults 3 accepted 0 refused 0\n",
    "lines 2 frames 0 ticks 0 shows 0 blank 0 modeac 0 faults 2 accepted 0 refused 0\n",
    "lines 1210 frames 1210 ticks 0 shows 0 blank 0 modeac 0 faults 0 accepted 1122 refused 88\n",
);

#[test]
fn eight_paths_are_handed_over_twice(rt: HostRuntime) -> Result<(), Fail> {
    Trials::on(&rt).hands_over_twice([FULL, FULL], false, FULL_TWICE)
}

#[test]
fn eight_paths_are_handed_over_twice_the_other_way_round(rt: HostRuntime) -> Result<(), Fail> {
    Trials::on(&rt).hands_over_twice([NOT_FULL, FULL], true, FULL_AFTER_A_HAND_OVER)
}
