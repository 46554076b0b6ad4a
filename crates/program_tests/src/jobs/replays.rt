//! The job `replay`.
use crate::comparing::{holds, same};
use crate::trials::{Host, Trials};
use std::io::{self, Read};
use std::test::*;
use test_support::{Closed, NO_MEMORY, Own, TABLE_OF_FIRST, TABLE_OF_NOBODY, text};

const IDENTIFICATION: &[u8] = b"*8D4840D6202CC371C32CE0576098;\n?\n";

const TALLY: &str =
    "lines 2 frames 1 ticks 0 shows 1 blank 0 modeac 0 faults 0 accepted 1 refused 0\n";

// Four frames are accepted and one isn't, three ticks and five aren't.
const LINES_OF_ALL_KINDS: &[u8] = b"\
    *8D4840D6202CC371C32CE0576098;\n\
    *8D485020994409940838175B284F;\n\
    *5D510AF9A8D8BC;\n\
    *2A00516D492B80;\n\
    *8D4840D6202CC371C32CE0576099;\n\
    +1\n+2\n+3\n+3\n+2\n+1\n+0\n+0\n\
    ?\n\
    \n   \n\
    *0000;\n*0000;\n@0123456789AB0000;\n\
    x\n*8D4840D6\n*;\n+\n";

// Whether an allocation was refused: before the program read anything, or at its first line, which is a frame.
fn wants_memory(told: &str) -> bool {
    let at_the_frame = concat!(
        "lines 1 frames 1 ticks 0 shows 0 blank 0 modeac 0 faults 0 accepted 0 refused 1\n",
        "groundstation: no memory\n",
    );
    told == NO_MEMORY || told == at_the_frame
}

// Gives a line, and then fails.
#[derive(Drop)]
struct Torn {
    is_torn: bool,
}

impl Read for Torn {
    fn read(&mut self, buffer: &mut [u8]) -> io::Result<usize> {
        if self.is_torn {
            return Err(io::Error::from(io::ErrorKind::Other));
        }
        self.is_torn = true;
        let mut line: &[u8] = IDENTIFICATION;
        line.read(buffer)
    }
}

impl<R: Host, W: Own> Trials<'_, R, W> {
    fn each_count_stands_by_its_word(self) -> Result<(), Fail> {
        let counted = self.rig.ask("replay", LINES_OF_ALL_KINDS)?;
        let tally =
            "lines 23 frames 5 ticks 8 shows 1 blank 2 modeac 3 faults 4 accepted 7 refused 6\n";
        same(self.rt, text(&counted.err), tally);
        same(self.rt, counted.status, 0);
        Ok(())
    }

    fn an_identification_is_shown(self) -> Result<(), Fail> {
        let mut shown = self.rig.ask("replay", IDENTIFICATION)?;
        if wants_memory(text(&shown.err)) {
            holds(self.rt, shown.status == 1 && shown.out.is_empty());
            shown = self.rig.ask("replay", IDENTIFICATION)?;
        }
        self.leaves(&shown, 0, TABLE_OF_FIRST, TALLY);
        Ok(())
    }

    fn nobody_is_shown_before_a_frame(self) -> Result<(), Fail> {
        for (lines, tables, tally) in [
            (
                "",
                "",
                "lines 0 frames 0 ticks 0 shows 0 blank 0 modeac 0 faults 0 accepted 0 refused 0\n",
            ),
            (
                "?",
                TABLE_OF_NOBODY,
                "lines 1 frames 0 ticks 0 shows 1 blank 0 modeac 0 faults 0 accepted 0 refused 0\n",
            ),
        ] {
            let ran = self.rig.ask("replay", lines.as_bytes())?;
            self.leaves(&ran, 0, tables, tally);
        }
        Ok(())
    }

    fn a_failed_read_or_write_is_told_after_the_tally(self) -> Result<(), Fail> {
        let torn = self.rig.ask("replay", Torn { is_torn: false })?;
        let fault = text(&torn.err).strip_prefix(TALLY);
        same(self.rt, fault, Some("groundstation: read failed\n"));
        same(self.rt, torn.status, 1);
        let closed = self
            .rig
            .run_to("replay", [].as_slice(), IDENTIFICATION, Closed)?;
        let fault = text(&closed.err).strip_prefix(TALLY);
        same(self.rt, fault, Some("groundstation: write failed\n"));
        same(self.rt, closed.status, 1);
        Ok(())
    }
}

#[test]
fn each_count_stands_by_its_word(rt: HostRuntime) -> Result<(), Fail> {
    Trials::on(&rt).each_count_stands_by_its_word()
}

#[test]
fn an_identification_is_shown(rt: HostRuntime) -> Result<(), Fail> {
    Trials::on(&rt).an_identification_is_shown()
}

#[test]
fn nobody_is_shown_before_a_frame(rt: HostRuntime) -> Result<(), Fail> {
    Trials::on(&rt).nobody_is_shown_before_a_frame()
}

#[test]
fn a_failed_read_or_write_is_told_after_the_tally(rt: HostRuntime) -> Result<(), Fail> {
    Trials::on(&rt).a_failed_read_or_write_is_told_after_the_tally()
}
