//! Tables as JSON.
use crate::comparing::{holds, same};
use crate::trials::{Host, Trials};
use std::process::ExitCode;
use std::test::*;
use test_support::{IDENTIFICATION, Own, Staged, VELOCITY, text, words_of};

// An identification and its table, and 5,432 ms later the table once more.
const LINES: &[u8] = b"*8D4840D6202CC371C32CE0576098;\n?\n+5432\n?\n";

const TABLES_OF_LINES: &str = concat!(
    "{\"now\":0.000,\"messages\":1,\"aircraft\":[",
    "{\"hex\":\"4840d6\",\"flight\":\"KLM1023\",\"rssi\":-49.5,\"seen\":0.000}]}\n",
    "{\"now\":5.432,\"messages\":2,\"aircraft\":[",
    "{\"hex\":\"4840d6\",\"flight\":\"KLM1023\",\"rssi\":-49.5,\"seen\":5.432}]}\n",
);

// A velocity and the table.
const SPEEDS: &[u8] = b"*8D485020994409940838175B284F;\n?\n";

const TABLE_OF_SPEEDS: &str = concat!(
    "{\"now\":0.000,\"messages\":1,\"aircraft\":[",
    "{\"hex\":\"485020\",\"gs\":159.2,\"speed\":159,\"track\":183,",
    "\"geom_rate\":-832,\"vert_rate\":-832,\"rssi\":-49.5,\"seen\":0.000}]}\n",
);

/// The table of the two files at the start of a run.
pub const JSON_OF_BOTH: &str = concat!(
    "{\"now\":1700000000.000,\"messages\":2,\"aircraft\":[",
    "{\"hex\":\"4840d6\",\"flight\":\"KLM1023\",\"rssi\":-49.5,\"seen\":0.000},",
    "{\"hex\":\"485020\",\"gs\":159.2,\"speed\":159,\"track\":183,",
    "\"geom_rate\":-832,\"vert_rate\":-832,\"rssi\":-49.5,\"seen\":0.000}]}\n",
);

impl<R: Host, W: Own> Trials<'_, R, W> {
    fn replay_writes_json_where_it_is_asked(self) -> Result<(), Fail> {
        for (lines, tables, tally) in [
            (
                LINES,
                TABLES_OF_LINES,
                "lines 4 frames 1 ticks 1 shows 2 blank 0 modeac 0 faults 0 accepted 2 refused 0\n",
            ),
            (
                SPEEDS,
                TABLE_OF_SPEEDS,
                "lines 2 frames 1 ticks 0 shows 1 blank 0 modeac 0 faults 0 accepted 1 refused 0\n",
            ),
            (
                b"?".as_slice(),
                "{\"now\":0.000,\"messages\":0,\"aircraft\":[]}\n",
                "lines 1 frames 0 ticks 0 shows 1 blank 0 modeac 0 faults 0 accepted 0 refused 0\n",
            ),
        ] {
            let ran = self.rig.ask("replay --format json", lines)?;
            self.leaves(&ran, 0, tables, tally);
        }
        Ok(())
    }

    fn run_writes_json_where_it_is_asked(self) -> Result<(), Fail> {
        let files = self.rig.two_files(IDENTIFICATION, VELOCITY)?;
        let ran = self.rig.run_still(&files, "--format json")?;
        same(self.rt, text(&ran.out), JSON_OF_BOTH);
        same(self.rt, ran.status, 0);
        self.rig.remove(&files.folder)
    }

    fn json_of_a_run_counts_from_the_time_of_the_system(self) -> Result<(), Fail> {
        let files = self.rig.two_files(IDENTIFICATION, VELOCITY)?;
        let staged = Staged::new(self.rt, [1_000_000].as_slice());
        let line = "run --every 3600000 --format json";
        let mut words = Vec::new(self.alloc);
        for word in words_of(self.alloc, line, files.paths().as_slice())? {
            words.push(String::from_str(self.alloc, word)?)?;
        }
        let (ended, _) = self.rig.over(&staged).end_of(Ok(words));
        same(self.rt, ended.out.as_ref().map(text), Some(JSON_OF_BOTH));
        holds(self.rt, ended.code == ExitCode::SUCCESS);
        self.rig.remove(&files.folder)
    }
}

#[test]
fn replay_writes_json_where_it_is_asked(rt: HostRuntime) -> Result<(), Fail> {
    Trials::on(&rt).replay_writes_json_where_it_is_asked()
}

#[test]
fn run_writes_json_where_it_is_asked(rt: HostRuntime) -> Result<(), Fail> {
    Trials::on(&rt).run_writes_json_where_it_is_asked()
}

#[test]
fn json_of_a_run_counts_from_the_time_of_the_system(rt: HostRuntime) -> Result<(), Fail> {
    Trials::on(&rt).json_of_a_run_counts_from_the_time_of_the_system()
}
