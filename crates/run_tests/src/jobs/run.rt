//! The job `run`, over files.
use crate::comparing::{holds_at, same};
use crate::trials::{Host, Trials};
use std::test::*;
use test_support::{
    EVERY_HOUR, IDENTIFICATION, NO_MEMORY, ONE_FRAME_EACH, Own, TABLE_OF_BOTH, TABLE_OF_FIRST,
    TABLE_OF_SECOND, VELOCITY, text,
};

const FIRST_ACCEPTED: &str = concat!(
    "lines 1 frames 1 ticks 0 shows 0 blank 0 modeac 0 faults 0 accepted 1 refused 0\n",
    "lines 1 frames 1 ticks 0 shows 0 blank 0 modeac 0 faults 0 accepted 0 refused 1\n",
);

const SECOND_ACCEPTED: &str = concat!(
    "lines 1 frames 1 ticks 0 shows 0 blank 0 modeac 0 faults 0 accepted 0 refused 1\n",
    "lines 1 frames 1 ticks 0 shows 0 blank 0 modeac 0 faults 0 accepted 1 refused 0\n",
);

const NO_THREAD: &str = "groundstation: thread not started\n";

const FIRST_WITHOUT_MEMORY: &str = concat!(
    "lines 1 frames 1 ticks 0 shows 0 blank 0 modeac 0 faults 0 accepted 0 refused 1\n",
    "groundstation: no memory\n",
    "lines 1 frames 1 ticks 0 shows 0 blank 0 modeac 0 faults 0 accepted 1 refused 0\n",
);

const SECOND_WITHOUT_MEMORY: &str = concat!(
    "lines 1 frames 1 ticks 0 shows 0 blank 0 modeac 0 faults 0 accepted 1 refused 0\n",
    "lines 1 frames 1 ticks 0 shows 0 blank 0 modeac 0 faults 0 accepted 0 refused 1\n",
    "groundstation: no memory\n",
);

// Whether a program that was refused memory or a thread may answer so: before a path is read nothing is shown, while the
// station is closed all is shown, and else the other path's aircraft.
fn is_refusal(shown: &str, told: &str) -> bool {
    match told {
        NO_MEMORY => shown.is_empty() || shown == TABLE_OF_BOTH,
        NO_THREAD => shown.is_empty(),
        FIRST_WITHOUT_MEMORY => shown == TABLE_OF_SECOND,
        SECOND_WITHOUT_MEMORY => shown == TABLE_OF_FIRST,
        _ => false,
    }
}

const FAULTS_AND_FRAME: &str = concat!(
    "lines 5 frames 0 ticks 0 shows 0 blank 1 modeac 1 faults 3 accepted 0 refused 0\n",
    "lines 1 frames 1 ticks 0 shows 0 blank 0 modeac 0 faults 0 accepted 1 refused 0\n",
);

const NO_FILE: &str = "groundstation: cannot open nofile\n";

impl<R: Host, W: Own> Trials<'_, R, W> {
    fn two_files_are_shown_in_one_table(self) -> Result<(), Fail> {
        let files = self.rig.two_files(IDENTIFICATION, VELOCITY)?;
        let mut ran = self.rig.run(EVERY_HOUR, files.paths().as_slice())?;
        if is_refusal(text(&ran.out), text(&ran.err)) {
            same(self.rt, ran.status, 1);
            ran = self.rig.run(EVERY_HOUR, files.paths().as_slice())?;
        }
        self.leaves(&ran, 0, TABLE_OF_BOTH, ONE_FRAME_EACH);
        self.rig.remove(&files.folder)
    }

    // A frame of both paths is accepted from either of them.
    fn tallies_stand_in_the_order_of_the_paths(self) -> Result<(), Fail> {
        for (first, told, or_told) in [
            (IDENTIFICATION, FIRST_ACCEPTED, SECOND_ACCEPTED),
            ("\nx\n?\n*0000;\n+5", FAULTS_AND_FRAME, FAULTS_AND_FRAME),
        ] {
            let files = self.rig.two_files(first, IDENTIFICATION)?;
            let ran = self.rig.run(EVERY_HOUR, files.paths().as_slice())?;
            let lines = text(&ran.err);
            holds_at(self.rt, lines == told || lines == or_told, lines);
            self.leaves(&ran, 0, TABLE_OF_FIRST, lines);
            self.rig.remove(&files.folder)?;
        }
        Ok(())
    }

    fn where_a_path_cannot_be_opened_nothing_is_read(self) -> Result<(), Fail> {
        let files = self.rig.two_files(IDENTIFICATION, VELOCITY)?;
        let one = self.rig.run(EVERY_HOUR, ["nofile"].as_slice())?;
        self.leaves(&one, 1, "", NO_FILE);
        let second = self
            .rig
            .run(EVERY_HOUR, [files.first.as_str(), "nofile"].as_slice())?;
        self.leaves(&second, 1, "", NO_FILE);
        let both = ["no first file", "no second file"];
        let neither = self.rig.run(EVERY_HOUR, both.as_slice())?;
        let no_first_file = "groundstation: cannot open no first file\n";
        self.leaves(&neither, 1, "", no_first_file);
        self.rig.remove(&files.folder)
    }
}

#[test]
fn two_files_are_shown_in_one_table(rt: HostRuntime) -> Result<(), Fail> {
    Trials::on(&rt).two_files_are_shown_in_one_table()
}

#[test]
fn tallies_stand_in_the_order_of_the_paths(rt: HostRuntime) -> Result<(), Fail> {
    Trials::on(&rt).tallies_stand_in_the_order_of_the_paths()
}

#[test]
fn where_a_path_cannot_be_opened_nothing_is_read(rt: HostRuntime) -> Result<(), Fail> {
    Trials::on(&rt).where_a_path_cannot_be_opened_nothing_is_read()
}
