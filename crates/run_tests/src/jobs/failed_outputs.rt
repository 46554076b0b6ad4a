//! Stations that hand over for a record, whose output has failed.
use super::hand_overs::{late_moments, run_by_hand_overs_to};
use crate::comparing::{holds, same};
use crate::trials::{Host, Trials};
use std::test::*;
use std::thread::join;
use test_support::{
    Closed, FRAMES, Own, Staged, TIMES, WRITE_FAILED, all_call_replies, feed, text,
};

impl<R: Host, W: Own> Trials<'_, R, W> {
    // The first table fails, before the first hand-over. The record has the frames and the tables of all stations.
    fn hand_overs_go_on_for_a_record_after_a_failed_write(self) -> Result<(), Fail> {
        let (rt, alloc) = (self.rt, self.alloc);
        let folder = self.rig.new_folder()?;
        let record = format!(in alloc; "{}/record", folder.as_str())?;
        let moments = late_moments(alloc)?;
        let staged = Staged::new(rt, moments.as_slice());
        let (first, second) = (self.rig.lasting_path()?, self.rig.lasting_path()?);
        let (first_lines, second_lines) = (first.lines, second.lines);
        let (first_path, second_path) = (first.path, second.path);
        let path = format!(in alloc; "{record}")?;
        let staged_rig = self.rig.over(&staged);
        let lines = all_call_replies(alloc, 1, FRAMES * TIMES)?;
        let (were_fed, ran) = join(
            rt,
            || {
                let were_fed = feed(rt, first_lines, lines.as_str(), path.as_str());
                drop(second_lines);
                were_fed
            },
            move || {
                let (first, second) = (first_path, second_path);
                run_by_hand_overs_to(&staged_rig, 71_000, record, first, second, Closed)
            },
        );
        holds(rt, were_fed?);
        let ran = ran?;
        same(rt, text(&ran.output_alarm), WRITE_FAILED);
        let tallies = concat!(
            "lines 120 frames 120 ticks 0 shows 0 blank 0 modeac 0 faults 0 accepted 120 refused 0\n",
            "lines 0 frames 0 ticks 0 shows 0 blank 0 modeac 0 faults 0 accepted 0 refused 0\n",
        );
        self.leaves(&ran, 1, "", tallies);
        let (recorded, shown) = self.rig.shown_again(path.as_str())?;
        let (recorded, shown) = (text(&recorded), text(&shown));
        same(rt, recorded.split('*').count(), 121);
        let (asked, tables) = (recorded.split('?').count(), shown.split("now ").count());
        holds(rt, asked == tables && tables > usize::from(TIMES));
        self.rig.remove(&folder)
    }
}

#[test]
fn hand_overs_go_on_for_a_record_after_a_failed_write(rt: HostRuntime) -> Result<(), Fail> {
    Trials::on(&rt).hand_overs_go_on_for_a_record_after_a_failed_write()
}
