//! What is known of the paths of a run that are watched.
use crate::comparing::holds;
use crate::trials::{Host, Trials};
use std::fs;
use std::test::*;
use test_support::{Own, all_call_replies, text};

// Another aircraft than there is room for, and one frame twice.
const AIRCRAFT: u16 = 513;

const COUNTS: &str = concat!(
    "\"state\":\"ended\",\"lines\":1028,\"frames\":1026,\"accepted\":768,",
    "\"refused\":{\"unsupported\":0,\"bad_parity\":0,\"unassigned\":0,\"unknown\":0,",
    "\"repeated\":256,\"full\":2},\"faults\":2,\"since\":0}]}\n",
);

impl<R: Host, W: Own> Trials<'_, R, W> {
    // The lines are twice those of so many aircraft, and a fault behind each time.
    fn what_a_receiver_has_counted_is_there_for_all(self) -> Result<(), Fail> {
        let folder = self.rig.new_folder()?;
        let replies = all_call_replies(self.alloc, 1, AIRCRAFT)?;
        let lines = format!(in self.alloc; "{replies}*\n{replies}*\n")?;
        let path = self.rig.put(&folder, "lines", lines.as_str())?;
        let line = format!(in self.alloc; "run --every=3600000 --watch=60 --json={folder}")?;
        let ran = self.rig.run(line.as_str(), [path.as_str()].as_slice())?;
        holds(self.rt, ran.path_alarm.is_empty());
        let file = format!(in self.alloc; "{folder}/receivers.json")?;
        let told = fs::read(self.rt, file.as_str())?;
        let receivers = format!(in self.alloc; ",\"receivers\":[{{\"path\":\"{path}\",{COUNTS}")?;
        holds(self.rt, text(&told).starts_with("{\"now\":"));
        holds(self.rt, text(&told).ends_with(receivers.as_str()));
        self.rig.remove(&folder)
    }
}

#[test]
fn what_a_receiver_has_counted_is_there_for_all(rt: HostRuntime) -> Result<(), Fail> {
    Trials::on(&rt).what_a_receiver_has_counted_is_there_for_all()
}
