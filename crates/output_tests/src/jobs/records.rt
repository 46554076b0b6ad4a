//! The job `run` with a record.
use crate::comparing::{holds, same};
use crate::trials::{Host, Trials};
use std::fs;
use std::io::Write;
use std::test::*;
use test_support::{
    Closed, EVERY_HOUR, IDENTIFICATION, NO_LINES, ONE_FRAME_EACH, Own, Ran, TABLE_OF_BOTH,
    TwoFiles, VELOCITY, WRITE_FAILED, text,
};

const RECORD_FAILED: &str = "groundstation: record failed (no space left on device)\n";

impl<R: Host, W: Own> Trials<'_, R, W> {
    // Runs over the two files, with a record in this file.
    fn run_recorded_to(
        &self,
        files: &TwoFiles,
        options: &str,
        record: &str,
        out: impl Write + Send + Drop,
    ) -> Result<Ran, Fail> {
        let line = format!(in self.alloc; "{EVERY_HOUR} {options} --record={record}")?;
        Ok(
            self.rig
                .run_to(line.as_str(), files.paths().as_slice(), NO_LINES, out)?,
        )
    }

    fn run_recorded(&self, files: &TwoFiles, options: &str, record: &str) -> Result<Ran, Fail> {
        let mut out = Vec::new(self.alloc);
        let ran = self.run_recorded_to(files, options, record, &mut out)?;
        Ok(Ran { out, ..ran })
    }

    // The frames of the two files are accepted in either order.
    fn a_record_of_two_files_is_shown_again(self) -> Result<(), Fail> {
        let rt = self.rt;
        let files = self.rig.two_files(IDENTIFICATION, VELOCITY)?;
        let record = format!(in self.alloc; "{}/record", files.folder.as_str())?;
        let ran = self.run_recorded(&files, "", record.as_str())?;
        let (lines, shown) = self.rig.shown_again(record.as_str())?;
        let (first, second, lines) = (IDENTIFICATION, VELOCITY, text(&lines));
        let either = format!(in self.alloc; "{first}{second}?\n")?;
        let or = format!(in self.alloc; "{second}{first}?\n")?;
        holds(rt, lines == either.as_str() || lines == or.as_str());
        same(rt, text(&shown), TABLE_OF_BOTH);
        self.leaves(&ran, 0, TABLE_OF_BOTH, ONE_FRAME_EACH);
        holds(rt, ran.record_alarm.is_empty());
        self.rig.remove(&files.folder)
    }

    // Ten tables of a clock that starts at 1,000,000 ms, and the one at the end of the path.
    fn a_record_of_ten_tables_is_shown_again(self) -> Result<(), Fail> {
        let rt = self.rt;
        let folder = self.rig.new_folder()?;
        let record = format!(in self.alloc; "{}/record", folder.as_str())?;
        let path = record.as_str();
        let line = format!(in self.alloc; "run --every=7000 --record={path}")?;
        let mut moments = Vec::new(self.alloc);
        for table in 0..11u64 {
            moments.push(1_000_000 + 7_001 * table)?;
        }
        let frame = IDENTIFICATION.as_bytes();
        let lasted = self
            .rig
            .run_through(moments.as_slice(), line.as_str(), frame)?;
        let (lines, shown) = self.rig.shown_again(path)?;
        let (lines, tables) = (text(&lines), text(&lasted.ran.out));
        holds(rt, lines.starts_with("+7001\n?\n+14002\n?\n+21003\n?\n"));
        let last_lines = "+70010\n?\n*8D4840D6202CC371C32CE0576098;\n?\n";
        holds(rt, lines.ends_with(last_lines));
        same(rt, text(&shown), tables);
        let last_row =
            "\n4840D6 KLM1023       -    -            -      -          -          -   0\n";
        holds(rt, tables.ends_with(last_row));
        same(rt, lasted.ran.status, 0);
        self.rig.remove(&folder)
    }

    // No tick comes between the rounds, so the frames of the second are refused.
    fn a_record_goes_on_over_rounds(self) -> Result<(), Fail> {
        let rt = self.rt;
        let files = self.rig.two_files(IDENTIFICATION, VELOCITY)?;
        let record = format!(in self.alloc; "{}/record", files.folder.as_str())?;
        let ran = self.run_recorded(&files, "--rounds=3", record.as_str())?;
        let (lines, shown) = self.rig.shown_again(record.as_str())?;
        same(rt, lines.len(), IDENTIFICATION.len() + VELOCITY.len() + 6);
        holds(rt, text(&lines).ends_with(";\n?\n?\n?\n"));
        let table = TABLE_OF_BOTH;
        let tables = format!(in self.alloc; "{table}{table}{table}")?;
        same(rt, text(&shown), tables.as_str());
        same(rt, text(&ran.out), tables.as_str());
        same(rt, ran.status, 0);
        self.rig.remove(&files.folder)
    }

    fn a_record_that_fails_leaves_the_tables(self) -> Result<(), Fail> {
        let rt = self.rt;
        let files = self.rig.two_files(IDENTIFICATION, VELOCITY)?;
        let ran = self.run_recorded(&files, "--rounds=2", "/dev/full")?;
        let second_table = text(&ran.out).strip_prefix(TABLE_OF_BOTH);
        same(rt, second_table, Some(TABLE_OF_BOTH));
        same(rt, text(&ran.record_alarm), RECORD_FAILED);
        holds(rt, text(&ran.err).starts_with(ONE_FRAME_EACH));
        holds(rt, !text(&ran.err).contains("groundstation"));
        same(rt, ran.status, 1);
        self.rig.remove(&files.folder)
    }

    // A table that couldn't be written is recorded, and so is the one of the next round.
    fn a_record_goes_on_where_no_table_can_be_written(self) -> Result<(), Fail> {
        let rt = self.rt;
        let files = self.rig.two_files(IDENTIFICATION, VELOCITY)?;
        let record = format!(in self.alloc; "{}/record", files.folder.as_str())?;
        let ran = self.run_recorded_to(&files, "--rounds=2", record.as_str(), Closed)?;
        let (_, shown) = self.rig.shown_again(record.as_str())?;
        let second_table = text(&shown).strip_prefix(TABLE_OF_BOTH);
        same(rt, second_table, Some(TABLE_OF_BOTH));
        same(rt, text(&ran.output_alarm), WRITE_FAILED);
        holds(rt, text(&ran.err).starts_with(ONE_FRAME_EACH));
        holds(rt, !text(&ran.err).contains("groundstation"));
        holds(rt, ran.record_alarm.is_empty() && ran.status == 1);
        self.rig.remove(&files.folder)
    }

    // A file that has bytes, and one in a folder that isn't there.
    fn a_file_that_takes_no_record_is_refused(self) -> Result<(), Fail> {
        let files = self.rig.two_files(IDENTIFICATION, VELOCITY)?;
        for (name, reason) in [
            ("first", "it has bytes"),
            ("nowhere/record", "no such file or directory"),
            ("first/record", "not a directory"),
        ] {
            let path = format!(in self.alloc; "{}/{name}", files.folder.as_str())?;
            let path = path.as_str();
            let ran = self.run_recorded(&files, "", path)?;
            let refused = format!(in self.alloc;
                "groundstation: cannot record to {path} ({reason})\n"
            )?;
            self.leaves(&ran, 1, "", refused.as_str());
            holds(self.rt, ran.record_alarm.is_empty());
        }
        let kept = fs::read(self.rt, files.first.as_str())?;
        same(self.rt, text(&kept), IDENTIFICATION);
        self.rig.remove(&files.folder)
    }
}

#[test]
fn a_record_of_two_files_is_shown_again(rt: HostRuntime) -> Result<(), Fail> {
    Trials::on(&rt).a_record_of_two_files_is_shown_again()
}

#[test]
fn a_record_of_ten_tables_is_shown_again(rt: HostRuntime) -> Result<(), Fail> {
    Trials::on(&rt).a_record_of_ten_tables_is_shown_again()
}

#[test]
fn a_record_goes_on_over_rounds(rt: HostRuntime) -> Result<(), Fail> {
    Trials::on(&rt).a_record_goes_on_over_rounds()
}

#[test]
fn a_record_that_fails_leaves_the_tables(rt: HostRuntime) -> Result<(), Fail> {
    Trials::on(&rt).a_record_that_fails_leaves_the_tables()
}

#[test]
fn a_record_goes_on_where_no_table_can_be_written(rt: HostRuntime) -> Result<(), Fail> {
    Trials::on(&rt).a_record_goes_on_where_no_table_can_be_written()
}

#[test]
fn a_file_that_takes_no_record_is_refused(rt: HostRuntime) -> Result<(), Fail> {
    Trials::on(&rt).a_file_that_takes_no_record_is_refused()
}
