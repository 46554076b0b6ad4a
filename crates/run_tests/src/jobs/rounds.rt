//! The job `run` in more rounds than one.
use crate::comparing::{holds, same};
use crate::trials::{Host, Trials};
use std::fs::{self, File, OpenOptions};
use std::io::{self, Write};
use std::rt::Files;
use std::test::*;
use std::time::Clock;
use test_support::{
    Closed, EVERY_HOUR, IDENTIFICATION, NO_LINES, ONE_FRAME_EACH, Own, Staged, TABLE_OF_BOTH,
    TABLE_OF_SECOND, VELOCITY, all_call_replies, tables, text,
};

const FAILED_READ_AND_FRAME: &str = concat!(
    "lines 0 frames 0 ticks 0 shows 0 blank 0 modeac 0 faults 0 accepted 0 refused 0\n",
    "groundstation: read failed\n",
    "lines 1 frames 1 ticks 0 shows 0 blank 0 modeac 0 faults 0 accepted 1 refused 0\n",
);

const ONE_FRAME_REFUSED_EACH: &str = concat!(
    "lines 1 frames 1 ticks 0 shows 0 blank 0 modeac 0 faults 0 accepted 0 refused 1\n",
    "lines 1 frames 1 ticks 0 shows 0 blank 0 modeac 0 faults 0 accepted 0 refused 1\n",
);

const ONE_ROUND: &str = "run --every=3600000 --rounds=1";

const TWO_ROUNDS: &str = "run --every=3600000 --rounds=2";

// Takes tables, and removes a path at the first.
#[derive(Drop)]
struct Removing<'a, R> {
    rt: &'a R,
    path: &'a str,
    taken: &'a mut Vec<u8>,
}

impl<'a, R: Files> Write for Removing<'a, R> {
    fn write(&mut self, piece: &[u8]) -> io::Result<usize> {
        if self.taken.is_empty() {
            fs::remove_file(self.rt, self.path)?;
        }
        self.taken.write(piece)
    }

    fn flush(&mut self) -> io::Result<()> {
        Ok(())
    }
}

// How many frames each of eight paths has.
const FRAMES: [u16; 8] = [3, 8, 1, 6, 2, 7, 5, 4];

// Takes tables. The last one of a round opens the path again for lines, and the next one ends it. Each lets the clock
// go on: up to the second round's tick, past it, and up to the third round's.
#[derive(Drop)]
struct Turning<'a, R> {
    staged: &'a Staged<'a, R>,
    path: &'a str,
    taken: &'a mut Vec<u8>,
    lines: Option<File>,
    tables: usize,
}

impl<'a, R: Clock + Files<File = File>> Write for Turning<'a, R> {
    fn write(&mut self, piece: &[u8]) -> io::Result<usize> {
        self.tables = self.tables.saturating_add(1);
        self.lines = None;
        match self.tables {
            1 => self.staged.hold_at(4),
            2 => self.staged.hold_at(5),
            3 => self.staged.hold_at(7),
            _ => (),
        }
        if self.tables == 1 || self.tables == 3 {
            let lines = OpenOptions::new().write(true).open(self.staged, self.path)?;
            self.lines = Some(lines);
        }
        self.taken.write(piece)
    }

    fn flush(&mut self) -> io::Result<()> {
        Ok(())
    }
}

// A frame comes in the first round, while the clock is stopped. The second round ticks at 5,000 ms and ends at 7,000 ms.
// The third doesn't tick at 9,999 ms, and does at 10,000 ms.
const MOMENTS: [u64; 7] = [
    1_000_000, 1_000_050, 1_004_999, 1_005_000, 1_007_000, 1_009_999, 1_010_000,
];

const TABLES_OF_THREE_ROUNDS: &str = tables!(
    "now 0 aircraft 1" => ["4840D6 KLM1023       -    -            -      -          -          -   0"],
    "now 5000 aircraft 1" => ["4840D6 KLM1023       -    -            -      -          -          -   5"],
    "now 5000 aircraft 1" => ["4840D6 KLM1023       -    -            -      -          -          -   5"],
    "now 10000 aircraft 1" => ["4840D6 KLM1023       -    -            -      -          -          -  10"],
    "now 10000 aircraft 1" => ["4840D6 KLM1023       -    -            -      -          -          -  10"],
);

const TALLIES_OF_THREE_ROUNDS: &str = concat!(
    "lines 1 frames 1 ticks 0 shows 0 blank 0 modeac 0 faults 0 accepted 1 refused 0\n",
    "lines 0 frames 0 ticks 0 shows 0 blank 0 modeac 0 faults 0 accepted 0 refused 0\n",
    "lines 0 frames 0 ticks 0 shows 0 blank 0 modeac 0 faults 0 accepted 0 refused 0\n",
);

impl<R: Host, W: Own> Trials<'_, R, W> {
    // No tick comes between the rounds, so the frames of the second are those of the first once more.
    fn a_second_round_goes_on_from_the_first(self) -> Result<(), Fail> {
        let files = self.rig.two_files(IDENTIFICATION, VELOCITY)?;
        let ran = self.rig.run(TWO_ROUNDS, files.paths().as_slice())?;
        let tables = format!(in self.alloc; "{TABLE_OF_BOTH}{TABLE_OF_BOTH}")?;
        let tallies = format!(in self.alloc; "{ONE_FRAME_EACH}{ONE_FRAME_REFUSED_EACH}")?;
        self.leaves(&ran, 0, tables.as_str(), tallies.as_str());
        self.rig.remove(&files.folder)
    }

    // The first path is a folder, which can't be read.
    fn a_failed_read_ends_the_run_after_its_round(self) -> Result<(), Fail> {
        let files = self.rig.two_files(IDENTIFICATION, VELOCITY)?;
        let paths = [files.folder.as_str(), files.second.as_str()];
        for line in [EVERY_HOUR, TWO_ROUNDS] {
            let ran = self.rig.run(line, paths.as_slice())?;
            self.leaves(&ran, 1, TABLE_OF_SECOND, FAILED_READ_AND_FRAME);
        }
        self.rig.remove(&files.folder)
    }

    fn a_failed_write_ends_the_run_after_its_round(self) -> Result<(), Fail> {
        let files = self.rig.two_files(IDENTIFICATION, VELOCITY)?;
        for line in [ONE_ROUND, TWO_ROUNDS] {
            let ran = self
                .rig
                .run_to(line, files.paths().as_slice(), NO_LINES, Closed)?;
            let fault = text(&ran.err).strip_prefix(ONE_FRAME_EACH);
            same(self.rt, fault, Some("groundstation: write failed\n"));
            same(self.rt, ran.status, 1);
        }
        self.rig.remove(&files.folder)
    }

    fn a_path_that_is_gone_is_told_after_the_round_before(self) -> Result<(), Fail> {
        let files = self.rig.two_files(IDENTIFICATION, VELOCITY)?;
        let path = files.second.as_str();
        let lines = format!(in self.alloc; "{ONE_FRAME_EACH}groundstation: cannot open {path}\n")?;
        let mut taken = Vec::new(self.alloc);
        let out = Removing {
            rt: self.rt,
            path,
            taken: &mut taken,
        };
        let ran = self
            .rig
            .run_to(TWO_ROUNDS, files.paths().as_slice(), NO_LINES, out)?;
        same(self.rt, text(&taken), TABLE_OF_BOTH);
        self.leaves(&ran, 1, "", lines.as_str());
        self.rig.remove(&files.folder)
    }

    // Each path has frames of aircraft of its own. All are accepted in the first round, and refused in the second.
    fn each_tally_of_eight_paths_is_its_own(self) -> Result<(), Fail> {
        let (alloc, folder) = (self.alloc, self.rig.new_folder()?);
        let mut owned = Vec::new(alloc);
        let (mut accepted, mut refused) = (String::new(alloc), String::new(alloc));
        for count in FRAMES {
            let name = format!(in alloc; "{count}")?;
            let lines = all_call_replies(alloc, 16 * count, count)?;
            owned.push(self.rig.put(&folder, name.as_str(), lines.as_str())?)?;
            let read = format!(in alloc;
                "lines {count} frames {count} ticks 0 shows 0 blank 0 modeac 0 faults 0"
            )?;
            accepted.push_str(format!(in alloc; "{read} accepted {count} refused 0\n")?.as_str())?;
            refused.push_str(format!(in alloc; "{read} accepted 0 refused {count}\n")?.as_str())?;
        }
        let mut paths = Vec::new(alloc);
        for path in &owned {
            paths.push(path.as_str())?;
        }
        let ran = self.rig.run(TWO_ROUNDS, paths.as_slice())?;
        holds(self.rt, text(&ran.out).starts_with("now 0 aircraft 36\n"));
        let second_round = text(&ran.err).strip_prefix(accepted.as_str());
        same(self.rt, second_round, Some(refused.as_str()));
        same(self.rt, ran.status, 0);
        self.rig.remove(&folder)
    }

    fn a_round_keeps_the_clock_and_the_ages(self) -> Result<(), Fail> {
        let (rt, alloc) = (self.rt, self.alloc);
        let staged = Staged::new(rt, MOMENTS.as_slice());
        staged.hold_at(1);
        let mut lasting = self.rig.lasting_path()?;
        lasting.lines.write_all(IDENTIFICATION.as_bytes())?;
        let path = lasting.path.as_str();
        drop(lasting.lines);
        let mut taken = Vec::new(alloc);
        let out = Turning {
            staged: &staged,
            path,
            taken: &mut taken,
            lines: None,
            tables: 0,
        };
        let (rig, line) = (self.rig.over(&staged), "run --every=5000 --rounds=3");
        let ran = rig.run_to(line, [lasting.path.as_str()].as_slice(), NO_LINES, out)?;
        same(rt, text(&taken), TABLES_OF_THREE_ROUNDS);
        self.leaves(&ran, 0, "", TALLIES_OF_THREE_ROUNDS);
        Ok(())
    }
}

#[test]
fn a_second_round_goes_on_from_the_first(rt: HostRuntime) -> Result<(), Fail> {
    Trials::on(&rt).a_second_round_goes_on_from_the_first()
}

#[test]
fn a_failed_read_ends_the_run_after_its_round(rt: HostRuntime) -> Result<(), Fail> {
    Trials::on(&rt).a_failed_read_ends_the_run_after_its_round()
}

#[test]
fn a_failed_write_ends_the_run_after_its_round(rt: HostRuntime) -> Result<(), Fail> {
    Trials::on(&rt).a_failed_write_ends_the_run_after_its_round()
}

#[test]
fn a_path_that_is_gone_is_told_after_the_round_before(rt: HostRuntime) -> Result<(), Fail> {
    Trials::on(&rt).a_path_that_is_gone_is_told_after_the_round_before()
}

#[test]
fn each_tally_of_eight_paths_is_its_own(rt: HostRuntime) -> Result<(), Fail> {
    Trials::on(&rt).each_tally_of_eight_paths_is_its_own()
}

#[test]
fn a_round_keeps_the_clock_and_the_ages(rt: HostRuntime) -> Result<(), Fail> {
    Trials::on(&rt).a_round_keeps_the_clock_and_the_ages()
}
