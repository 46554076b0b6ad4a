//! What a job reports at once when its table is full.
use crate::comparing::{holds, same};
use crate::trials::{Host, Trials};
use std::test::*;
use test_support::{EVERY_HOUR, Own, all_call_replies, text};

// Two aircraft more than there is room for.
const AIRCRAFT: u16 = 514;

const TABLE_FULL: &str = "groundstation: table full\n";

const TALLY: &str =
    "lines 514 frames 514 ticks 0 shows 0 blank 0 modeac 0 faults 0 accepted 512 refused 2\n";

impl<R: Host, W: Own> Trials<'_, R, W> {
    fn a_full_table_of_a_replay_is_reported_once(self) -> Result<(), Fail> {
        let lines = all_call_replies(self.alloc, 1, AIRCRAFT)?;
        let ran = self.rig.ask("replay", lines.as_bytes())?;
        same(self.rt, text(&ran.limit_alarm), TABLE_FULL);
        same(self.rt, text(&ran.err), TALLY);
        same(self.rt, ran.status, 0);
        holds(
            self.rt,
            ran.record_alarm.is_empty() && ran.display_alarm.is_empty(),
        );
        Ok(())
    }

    fn a_full_table_of_a_run_is_reported_once(self) -> Result<(), Fail> {
        let folder = self.rig.new_folder()?;
        let lines = all_call_replies(self.alloc, 1, AIRCRAFT)?;
        let path = self.rig.put(&folder, "lines", lines.as_str())?;
        let ran = self.rig.run(EVERY_HOUR, [path.as_str()].as_slice())?;
        same(self.rt, text(&ran.limit_alarm), TABLE_FULL);
        same(self.rt, text(&ran.err), TALLY);
        same(self.rt, ran.status, 0);
        holds(self.rt, text(&ran.out).starts_with("now 0 aircraft 512\n"));
        self.rig.remove(&folder)
    }
}

#[test]
fn a_full_table_of_a_replay_is_reported_once(rt: HostRuntime) -> Result<(), Fail> {
    Trials::on(&rt).a_full_table_of_a_replay_is_reported_once()
}

#[test]
fn a_full_table_of_a_run_is_reported_once(rt: HostRuntime) -> Result<(), Fail> {
    Trials::on(&rt).a_full_table_of_a_run_is_reported_once()
}
