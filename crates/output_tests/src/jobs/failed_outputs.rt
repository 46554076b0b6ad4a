//! The job `run` with a record or displays, whose output fails: it goes on for them.
use super::outputs::FailsOnce;
use crate::comparing::{holds, same};
use crate::trials::{Host, Trials};
use std::fs;
use std::sync::atomic::AtomicBool;
use std::test::*;
use test_support::{Feed, Own, Staged, WRITE_FAILED, tables, text};

impl<R: Host, W: Own> Trials<'_, R, W> {
    // The second table is due at 200 ms. The frame comes after its write has failed. That isn't reported at the end again.
    fn record_and_displays_go_on_after_a_failed_write(self) -> Result<(), Fail> {
        let moments = [0, 50, 100, 150, 200, 250, 300, 350, 400];
        let has_failed = AtomicBool::new(false);
        let staged = Staged::new(self.rt, moments.as_slice());
        let mut taken = Vec::new(self.alloc);
        let out = FailsOnce::new(&mut taken, &has_failed);
        let feed = Feed::at(&has_failed, b"*8D4840D6202CC371C32CE0576098;\n");
        let folder = self.rig.new_folder()?;
        let path = folder.as_str();
        let line = format!(in self.alloc; "run --every 100 --json={path} --record={path}/record")?;
        let (ran, _) = self.rig.run_lasting(&staged, line.as_str(), out, feed)?;
        same(self.rt, text(&taken), tables!("now 100 aircraft 0" => []));
        same(self.rt, text(&ran.output_alarm), WRITE_FAILED);
        let told =
            "lines 1 frames 1 ticks 0 shows 0 blank 0 modeac 0 faults 0 accepted 1 refused 0\n";
        self.leaves(&ran, 1, "", told);
        let record = format!(in self.alloc; "{path}/record")?;
        let (lines, shown) = self.rig.shown_again(record.as_str())?;
        holds(self.rt, text(&lines).starts_with("+100\n?\n+200\n?\n"));
        holds(self.rt, text(&lines).ends_with("?\n"));
        holds(self.rt, text(&shown).contains("\n4840D6 "));
        let table = format!(in self.alloc; "{path}/aircraft.json")?;
        let table = fs::read(self.rt, table.as_str())?;
        holds(self.rt, text(&table).contains("\"hex\":\"4840d6\""));
        holds(
            self.rt,
            ran.display_alarm.is_empty() && ran.record_alarm.is_empty(),
        );
        self.rig.remove(&folder)
    }
}

#[test]
fn record_and_displays_go_on_after_a_failed_write(rt: HostRuntime) -> Result<(), Fail> {
    Trials::on(&rt).record_and_displays_go_on_after_a_failed_write()
}
