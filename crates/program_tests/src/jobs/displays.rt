//! The job `run` with a folder for displays.
use super::json::JSON_OF_BOTH;
use crate::comparing::{holds, same};
use crate::trials::{Host, Trials};
use std::fs::{self, File};
use std::io::{self, Write};
use std::rt::Files;
use std::test::*;
use test_support::{
    EVERY_HOUR, IDENTIFICATION, NO_LINES, ONE_FRAME_EACH, Own, Ran, Staged, TABLE_OF_BOTH,
    TwoFiles, VELOCITY, text,
};

const RECEIVER: &str = "{\"version\":\"groundstation 1.0.0\",\"refresh\":3600000,\"history\":0}";

// Makes a folder at its second write.
#[derive(Drop)]
struct MakesFolder<'a, R> {
    rt: &'a R,
    folder: &'a str,
    writes: usize,
}

impl<'a, R: Files<File = File>> Write for MakesFolder<'a, R> {
    fn write(&mut self, piece: &[u8]) -> io::Result<usize> {
        self.writes = self.writes.saturating_add(1);
        if self.writes == 2 {
            fs::create_dir(self.rt, self.folder)?;
        }
        Ok(piece.len())
    }

    fn flush(&mut self) -> io::Result<()> {
        Ok(())
    }
}

impl<R: Host, W: Own> Trials<'_, R, W> {
    // Runs with tables in this folder.
    fn run_shown(&self, files: &TwoFiles, folder: &str, options: &str) -> Result<Ran, Fail> {
        let options = format!(in self.alloc; "--json={folder} {options}")?;
        self.rig.run_still(files, options.as_str())
    }

    // Ends the test unless it was reported once that no table could be written to this folder, for this reason.
    fn reports_once(&self, ran: &Ran, folder: &str, reason: &str) -> Result<(), Fail> {
        let report = format!(in self.alloc;
            "groundstation: cannot write {folder}/aircraft.json ({reason})\n"
        )?;
        same(self.rt, text(&ran.display_alarm), report.as_str());
        same(self.rt, ran.status, 1);
        Ok(())
    }

    fn each_table_is_put_where_displays_find_it(self) -> Result<(), Fail> {
        let rt = self.rt;
        let files = self.rig.two_files(IDENTIFICATION, VELOCITY)?;
        let folder = files.folder.as_str();
        let ran = self.run_shown(&files, folder, "")?;
        self.leaves(&ran, 0, TABLE_OF_BOTH, ONE_FRAME_EACH);
        holds(rt, ran.display_alarm.is_empty());
        for (name, text_of_file) in [("aircraft", JSON_OF_BOTH), ("receiver", RECEIVER)] {
            let path = format!(in self.alloc; "{folder}/{name}.json")?;
            let file = fs::read(rt, path.as_str())?;
            same(rt, text(&file), text_of_file);
        }
        let beside = format!(in self.alloc; "{folder}/aircraft.json.new")?;
        holds(rt, File::open(rt, beside.as_str()).is_err());
        self.rig.remove(&files.folder)
    }

    // Two rounds, so two tables, but one report.
    fn a_failed_write_for_displays_leaves_the_tables(self) -> Result<(), Fail> {
        let rt = self.rt;
        let files = self.rig.two_files(IDENTIFICATION, VELOCITY)?;
        let folder = format!(in self.alloc; "{}/nowhere", files.folder.as_str())?;
        let ran = self.run_shown(&files, folder.as_str(), "--rounds=2")?;
        let second_table = text(&ran.out).strip_prefix(TABLE_OF_BOTH);
        same(rt, second_table, Some(TABLE_OF_BOTH));
        self.reports_once(&ran, folder.as_str(), "no such file or directory")?;
        holds(rt, text(&ran.err).starts_with(ONE_FRAME_EACH));
        holds(rt, ran.record_alarm.is_empty());
        self.rig.remove(&files.folder)
    }

    // The folder is made between the first table and its file for the second.
    fn tables_are_put_in_a_folder_that_is_there_again(self) -> Result<(), Fail> {
        let (rt, alloc) = (self.rt, self.alloc);
        let files = self.rig.two_files(IDENTIFICATION, VELOCITY)?;
        let folder = format!(in alloc; "{}/later", files.folder.as_str())?;
        let folder = folder.as_str();
        let options = format!(in alloc; "{EVERY_HOUR} --rounds=3 --json={folder}")?;
        let out = MakesFolder {
            rt,
            folder,
            writes: 0,
        };
        let staged = Staged::new(rt, [1_000_000].as_slice());
        let rig = self.rig.over(&staged);
        let ran = rig.run_to(options.as_str(), files.paths().as_slice(), NO_LINES, out)?;
        let reported = format!(in alloc;
            "groundstation: cannot write {folder}/aircraft.json (no such file or directory)\ngroundstation: writing {folder}/aircraft.json again\n"
        )?;
        same(rt, text(&ran.display_alarm), reported.as_str());
        same(rt, ran.status, 1);
        for (name, text_of_file) in [("aircraft", JSON_OF_BOTH), ("receiver", RECEIVER)] {
            let path = format!(in alloc; "{folder}/{name}.json")?;
            let file = fs::read(rt, path.as_str())?;
            same(rt, text(&file), text_of_file);
        }
        self.rig.remove(&files.folder)
    }

    // A folder is where the file would be renamed to.
    fn a_table_that_cannot_be_renamed_is_reported(self) -> Result<(), Fail> {
        let files = self.rig.two_files(IDENTIFICATION, VELOCITY)?;
        let folder = files.folder.as_str();
        let table = format!(in self.alloc; "{folder}/aircraft.json")?;
        fs::create_dir(self.rt, table.as_str())?;
        let ran = self.run_shown(&files, folder, "--format=json")?;
        same(self.rt, text(&ran.out), JSON_OF_BOTH);
        self.reports_once(&ran, folder, "is a directory")?;
        self.rig.remove(&files.folder)
    }
}

#[test]
fn each_table_is_put_where_displays_find_it(rt: HostRuntime) -> Result<(), Fail> {
    Trials::on(&rt).each_table_is_put_where_displays_find_it()
}

#[test]
fn a_failed_write_for_displays_leaves_the_tables(rt: HostRuntime) -> Result<(), Fail> {
    Trials::on(&rt).a_failed_write_for_displays_leaves_the_tables()
}

#[test]
fn tables_are_put_in_a_folder_that_is_there_again(rt: HostRuntime) -> Result<(), Fail> {
    Trials::on(&rt).tables_are_put_in_a_folder_that_is_there_again()
}

#[test]
fn a_table_that_cannot_be_renamed_is_reported(rt: HostRuntime) -> Result<(), Fail> {
    Trials::on(&rt).a_table_that_cannot_be_renamed_is_reported()
}
