//! The job `run` while its paths last.
use crate::comparing::{holds, same};
use crate::trials::{Host, Trials};
use std::io::{self, Write};
use std::sync::atomic::{AtomicBool, Ordering};
use std::test::*;
use std::thread::join;
use test_support::{IDENTIFICATION, NO_LINES, Own, VELOCITY, becomes_set, tables, text};

const HEADER: &str = "  ADDR CALLSIGN    ALT SQWK     VELOCITY   VERT        LAT        LON AGE\n";

const TABLES_OF_NOBODY: &str = tables!(
    "now 100 aircraft 0" => [],
    "now 200 aircraft 0" => [],
    "now 60205 aircraft 0" => [],
    "now 60305 aircraft 0" => [],
    "now 60305 aircraft 0" => [],
);

// Sets the flag at a table of both aircraft.
#[derive(Drop)]
struct Seen<'a> {
    are_shown: &'a AtomicBool,
}

impl<'a> Write for Seen<'a> {
    fn write(&mut self, piece: &[u8]) -> io::Result<usize> {
        if let Ok(table) = str::from_utf8(piece)
            && table.contains("\n4840D6 ")
            && table.contains("\n485020 ")
        {
            self.are_shown.store(true, Ordering::SeqCst);
        }
        Ok(piece.len())
    }

    fn flush(&mut self) -> io::Result<()> {
        Ok(())
    }
}

impl<R: Host, W: Own> Trials<'_, R, W> {
    // The clock starts at 1,000,000 ms. It shows the millisecond before each table is due and the one when it is, and skips
    // a minute at once. The last table comes at the end of the path.
    fn a_table_is_printed_when_it_is_due_and_at_the_end(self) -> Result<(), Fail> {
        let moments = [
            1_000_000, 1_000_050, 1_000_099, 1_000_100, 1_000_150, 1_000_199, 1_000_200, 1_060_205,
            1_060_304, 1_060_305,
        ];
        let lasted = self
            .rig
            .run_through(moments.as_slice(), "run --every 100", NO_LINES)?;
        same(self.rt, text(&lasted.ran.out), TABLES_OF_NOBODY);
        same(self.rt, lasted.ran.status, 0);
        Ok(())
    }

    // Three hours and 2,100 ms of a clock that starts at 1,000,000 ms: the millisecond before each table is due, and then a
    // time 7 ms after it was due. One more table comes at the end of the path.
    fn three_hundred_tables_are_printed_in_three_hours(self) -> Result<(), Fail> {
        let (mut moments, mut tables) = (Vec::new(self.alloc), String::new(self.alloc));
        moments.push(1_000_000)?;
        for table in 1..301u64 {
            moments.push(999_992 + 36_007 * table)?;
            moments.push(1_000_000 + 36_007 * table)?;
        }
        for table in 1..302u64 {
            let now = 36_007 * table.min(300);
            tables.push_str(format!(in self.alloc; "now {now} aircraft 0\n{HEADER}")?.as_str())?;
        }
        let lasted = self
            .rig
            .run_through(moments.as_slice(), "run --every 36000", NO_LINES)?;
        same(self.rt, text(&lasted.ran.out), tables.as_str());
        same(self.rt, lasted.ran.status, 0);
        Ok(())
    }

    fn paths_are_read_and_shown_side_by_side(self) -> Result<(), Fail> {
        let (rt, are_shown) = (self.rt, AtomicBool::new(false));
        let (mut first, mut second) = (self.rig.lasting_path()?, self.rig.lasting_path()?);
        first.lines.write_all(IDENTIFICATION.as_bytes())?;
        second.lines.write_all(VELOCITY.as_bytes())?;
        let paths = [first.path.as_str(), second.path.as_str()];
        let out = Seen {
            are_shown: &are_shown,
        };
        let (first_lines, second_lines) = (first.lines, second.lines);
        let (were_shown, ran) = join(
            rt,
            || {
                let were_shown = becomes_set(rt, &are_shown);
                drop(first_lines);
                drop(second_lines);
                were_shown
            },
            move || self
                .rig
                .run_to("run --every 10", paths.as_slice(), NO_LINES, out),
        );
        holds(rt, were_shown);
        same(rt, ran?.status, 0);
        Ok(())
    }
}

#[test]
fn a_table_is_printed_when_it_is_due_and_at_the_end(rt: HostRuntime) -> Result<(), Fail> {
    Trials::on(&rt).a_table_is_printed_when_it_is_due_and_at_the_end()
}

#[test]
fn three_hundred_tables_are_printed_in_three_hours(rt: HostRuntime) -> Result<(), Fail> {
    Trials::on(&rt).three_hundred_tables_are_printed_in_three_hours()
}

#[test]
fn paths_are_read_and_shown_side_by_side(rt: HostRuntime) -> Result<(), Fail> {
    Trials::on(&rt).paths_are_read_and_shown_side_by_side()
}
