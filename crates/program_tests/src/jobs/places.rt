//! Jobs that are given the place of the receivers.
use crate::comparing::{holds, holds_at, same, same_at};
use crate::trials::{Host, Trials};
use modes_cpr::Reference;
use station_main::{Job, WordsFault, read_words};
use std::alloc::AllocError;
use std::fs;
use std::test::*;
use test_support::{EVERY_HOUR, NO_LINES, Own, Ran, tables, text, words_of};

// Two surface positions of one aircraft at Schiphol, even and odd, from "The 1090 MHz Riddle", by J. Sun.
const TAXIING: &str = "*8C4841753AAB238733C8CD4020B1;\n*8C4841753A8A35323FAEBDAC702D;\n";

const WITH_PLACE: &str = tables!("now 0 aircraft 1" => [
    "484175 -        ground    -       G16/98      -   52.32060    4.73473   0",
]);

const WITHOUT_PLACE: &str = tables!("now 0 aircraft 1" => [
    "484175 -             -    -            -      -          -          -   0",
]);

const JSON_LINES: &[u8] =
    b"+1234\n*8C4841753AAB238733C8CD4020B1;\n+2000\n*8C4841753A8A35323FAEBDAC702D;\n?\n";

const JSON_WITH_PLACE: &str = concat!(
    "{\"now\":2.000,\"messages\":4,\"aircraft\":[",
    "{\"hex\":\"484175\",\"alt_baro\":\"ground\",\"altitude\":\"ground\",",
    "\"gs\":16.0,\"speed\":16,\"track\":98,",
    "\"lat\":52.32060,\"lon\":4.73473,\"seen_pos\":0.000,\"rssi\":-49.5,\"seen\":0.000}]}\n",
);

const RECEIVER: &str = concat!(
    "{\"version\":\"groundstation 1.0.0\",\"refresh\":3600000,\"history\":0,",
    "\"lat\":51.99000,\"lon\":4.37500}",
);

impl<R: Host, W: Own> Trials<'_, R, W> {
    fn places_are_in_ten_millionths_of_a_degree(self) -> Result<(), WordsFault> {
        for (line, lat, lon) in [
            ("replay --at=0,0", 0, 0),
            ("replay --at 90,-180", 900_000_000, -1_800_000_000),
            (
                "run --every 5 --at=52.3086,4.7639 x",
                523_086_000,
                47_639_000,
            ),
            (
                "run --every 5 x --at=-0.0000001,180.0000000",
                -1,
                1_800_000_000,
            ),
            ("replay --at=-090.00,007.1234567", -900_000_000, 71_234_567),
        ] {
            let words = words_of(self.alloc, line, [].as_slice())?;
            let found = match read_words(self.alloc, words.as_slice())? {
                Job::Run(options) => options.site,
                Job::Replay { site, .. } => site,
            };
            holds_at(self.rt, found == Some(Reference { lat, lon }), line);
        }
        Ok(())
    }

    // The texts are words of their own, as some have spaces.
    fn texts_that_name_no_place_are_refused(self) -> Result<(), Fail> {
        for place in [
            "90.0000001,0",
            "0,180.0000001",
            "-90.0000001,0",
            "0,-181",
            "1000,0",
            "1",
            "1,2,3",
            "1.,2",
            ".5,2",
            "+1,2",
            "--1,2",
            "1e1,2",
            "1.12345678,2",
            "1.2.3,4",
            " 1,2",
            "1, 2",
            ",",
            "",
        ] {
            let word = format!(in self.alloc; "--at={place}")?;
            let refusal = format!(in self.alloc;
                "error: invalid value '{place}' for '--at <LAT,LON>'\n\nFor more information, try '--help'.\n"
            )?;
            for line in ["replay", "run --every 5 --reopen x"] {
                let mut out = Vec::new(self.alloc);
                let words = [word.as_str()];
                let refused = self.rig.run_to(line, words.as_slice(), NO_LINES, &mut out)?;
                same_at(self.rt, text(&refused.err), refusal.as_str(), place);
                holds_at(self.rt, refused.status == 2 && out.is_empty(), place);
            }
        }
        Ok(())
    }

    // A surface position names one of eight points, and the place of the receivers says which.
    fn a_replay_with_a_place_shows_where_aircraft_taxi(self) -> Result<(), Fail> {
        let lines = format!(in self.alloc; "{TAXIING}?\n")?;
        for (line, table) in [
            ("replay --at=51.990,4.375", WITH_PLACE),
            ("replay", WITHOUT_PLACE),
        ] {
            let shown = self.rig.ask(line, lines.as_bytes())?;
            same_at(self.rt, text(&shown.out), table, line);
            same_at(self.rt, shown.status, 0, line);
        }
        let shown = self
            .rig
            .ask("replay --format json --at=51.990,4.375", JSON_LINES)?;
        same(self.rt, text(&shown.out), JSON_WITH_PLACE);
        Ok(())
    }

    // Runs over a file with two surface positions, with a record and tables for displays in the file's folder.
    fn run_taxiing(&self, folder: &String, options: &str) -> Result<Ran, Fail> {
        let path = self.rig.put(folder, "taxiing", TAXIING)?;
        let (to, hour) = (folder.as_str(), EVERY_HOUR);
        let line = format!(in self.alloc; "{hour} --record={to}/record --json={to} {options}")?;
        Ok(self.rig.run(line.as_str(), [path.as_str()].as_slice())?)
    }

    fn a_run_with_a_place_is_replayed_with_it(self) -> Result<(), Fail> {
        let rt = self.rt;
        let folder = self.rig.new_folder()?;
        let ran = self.run_taxiing(&folder, "--at=51.990,4.375")?;
        same(rt, text(&ran.out), WITH_PLACE);
        same(rt, ran.status, 0);
        let record = format!(in self.alloc; "{}/record", folder.as_str())?;
        let lines = fs::read(rt, record.as_str())?;
        for (line, table) in [
            ("replay --at=51.99,4.375", WITH_PLACE),
            ("replay", WITHOUT_PLACE),
        ] {
            let shown = self.rig.ask(line, lines.as_slice())?;
            same_at(rt, text(&shown.out), table, line);
        }
        let receiver = format!(in self.alloc; "{}/receiver.json", folder.as_str())?;
        let written = fs::read(rt, receiver.as_str())?;
        same(rt, text(&written), RECEIVER);
        self.rig.remove(&folder)
    }

    // The record has no place in it.
    fn a_place_changes_no_record(self) -> Result<(), Fail> {
        let rt = self.rt;
        let (first, second) = (self.rig.new_folder()?, self.rig.new_folder()?);
        let with = self.run_taxiing(&first, "--rounds=2 --at=51.990,4.375")?;
        let without = self.run_taxiing(&second, "--rounds=2")?;
        let (record, other) = (
            format!(in self.alloc; "{}/record", first.as_str())?,
            format!(in self.alloc; "{}/record", second.as_str())?,
        );
        let (lines, others) = (
            fs::read(rt, record.as_str())?,
            fs::read(rt, other.as_str())?,
        );
        same(rt, text(&lines), text(&others));
        holds(rt, text(&with.out).ends_with(WITH_PLACE));
        holds(rt, text(&without.out).ends_with(WITHOUT_PLACE));
        self.rig.remove(&first)?;
        self.rig.remove(&second)
    }
}

#[test]
fn places_are_in_ten_millionths_of_a_degree(rt: HostRuntime) -> Result<(), WordsFault> {
    Trials::on(&rt).places_are_in_ten_millionths_of_a_degree()
}

#[test]
fn texts_that_name_no_place_are_refused(rt: HostRuntime) -> Result<(), Fail> {
    Trials::on(&rt).texts_that_name_no_place_are_refused()
}

#[test]
fn a_replay_with_a_place_shows_where_aircraft_taxi(rt: HostRuntime) -> Result<(), Fail> {
    Trials::on(&rt).a_replay_with_a_place_shows_where_aircraft_taxi()
}

#[test]
fn a_run_with_a_place_is_replayed_with_it(rt: HostRuntime) -> Result<(), Fail> {
    Trials::on(&rt).a_run_with_a_place_is_replayed_with_it()
}

#[test]
fn a_place_changes_no_record(rt: HostRuntime) -> Result<(), Fail> {
    Trials::on(&rt).a_place_changes_no_record()
}
