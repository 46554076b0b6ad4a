//! Outputs that fail once, that wait, and that report how they are written.
use crate::comparing::{holds, same};
use crate::trials::{Host, Trials};
use std::alloc::{AllocError, Global};
use std::io::{self, ErrorKind, Write};
use std::sync::atomic::{AtomicBool, Ordering};
use std::test::*;
use std::time::Clock;
use test_support::{
    Feed, Own, Staged, TABLE_OF_NOBODY, all_call_replies, becomes_set, tables, text,
};

/// Fails at its second write alone.
#[derive(Drop)]
pub struct FailsOnce<'a> {
    taken: &'a mut Vec<u8>,
    writes: usize,
    has_failed: &'a AtomicBool,
}

impl<'a> FailsOnce<'a> {
    /// It keeps what it takes, and sets a flag once it has failed.
    pub fn new(taken: &'a mut Vec<u8>, has_failed: &'a AtomicBool) -> FailsOnce<'a> {
        FailsOnce {
            taken,
            writes: 0,
            has_failed,
        }
    }
}

impl<'a> Write for FailsOnce<'a> {
    fn write(&mut self, piece: &[u8]) -> io::Result<usize> {
        self.writes = self.writes.saturating_add(1);
        if self.writes == 2 {
            self.has_failed.store(true, Ordering::SeqCst);
            return Err(io::Error::from(ErrorKind::StorageFull));
        }
        self.taken.write(piece)
    }

    fn flush(&mut self) -> io::Result<()> {
        Ok(())
    }
}

// Waits in each write until the path has ended. It fails if that takes too long.
#[derive(Drop)]
struct Waiting<'a, R> {
    rt: &'a R,
    is_waiting: &'a AtomicBool,
    is_fed: &'a AtomicBool,
}

impl<'a, R: Clock> Write for Waiting<'a, R> {
    fn write(&mut self, piece: &[u8]) -> io::Result<usize> {
        self.is_waiting.store(true, Ordering::SeqCst);
        if becomes_set(self.rt, self.is_fed) {
            Ok(piece.len())
        } else {
            Err(io::Error::from(ErrorKind::TimedOut))
        }
    }

    fn flush(&mut self) -> io::Result<()> {
        Ok(())
    }
}

// Keeps what it takes. It waits in its first write until a flag is set, and fails if that takes too long.
#[derive(Drop)]
struct Unread<'a, R> {
    rt: &'a R,
    taken: &'a mut Vec<u8>,
    is_read: &'a AtomicBool,
}

impl<'a, R: Clock> Write for Unread<'a, R> {
    fn write(&mut self, piece: &[u8]) -> io::Result<usize> {
        if becomes_set(self.rt, self.is_read) {
            self.taken.write(piece)
        } else {
            Err(io::Error::from(ErrorKind::TimedOut))
        }
    }

    fn flush(&mut self) -> io::Result<()> {
        Ok(())
    }
}

// Four frames of four aircraft, each before 40,000 blank lines: more than a pipe and a receiver's buffer have room for.
fn long_lines(alloc: Global) -> Result<Vec<u8>, AllocError> {
    let mut lines = Vec::new(alloc);
    for frame in [
        "*8D4840D6202CC371C32CE0576098;\n",
        "*8D485020994409940838175B284F;\n",
        "*8DA05F219B06B6AF189400CBC33F;\n",
        "*5D510AF9A8D8BC;\n",
    ] {
        lines.extend_from_slice(frame.as_bytes())?;
        for _ in 0..40_000 {
            lines.push(b'\n')?;
        }
    }
    Ok(lines)
}

// Keeps the length of each piece, and the last piece.
#[derive(Drop)]
struct Pieces<'a> {
    lengths: &'a mut Vec<usize>,
    last: &'a mut Vec<u8>,
    is_written: &'a AtomicBool,
}

impl<'a> Write for Pieces<'a> {
    fn write(&mut self, piece: &[u8]) -> io::Result<usize> {
        self.lengths.push(piece.len())?;
        self.last.clear();
        self.last.extend_from_slice(piece)?;
        self.is_written.store(true, Ordering::SeqCst);
        Ok(piece.len())
    }

    fn flush(&mut self) -> io::Result<()> {
        Ok(())
    }
}

impl<R: Host, W: Own> Trials<'_, R, W> {
    fn replay_writes_nothing_after_a_failed_write(self) -> Result<(), Fail> {
        let lines: &[u8] = b"?\n*8D4840D6202CC371C32CE0576098;\n?\n?\n*0000;\n?\n";
        let has_failed = AtomicBool::new(false);
        let mut taken = Vec::new(self.alloc);
        let out = FailsOnce::new(&mut taken, &has_failed);
        let ran = self.rig.run_to("replay", [].as_slice(), lines, out)?;
        same(self.rt, text(&taken), TABLE_OF_NOBODY);
        let told = concat!(
            "lines 3 frames 1 ticks 0 shows 2 blank 0 modeac 0 faults 0 accepted 1 refused 0\n",
            "groundstation: write failed\n",
        );
        self.leaves(&ran, 1, "", told);
        Ok(())
    }

    // The second table is due at 200 ms. The frame comes after its write has failed.
    fn run_writes_nothing_after_a_failed_write_and_reads_on(self) -> Result<(), Fail> {
        let moments = [0, 50, 100, 150, 200, 250, 300, 350, 400];
        let has_failed = AtomicBool::new(false);
        let staged = Staged::new(self.rt, moments.as_slice());
        let mut taken = Vec::new(self.alloc);
        let out = FailsOnce::new(&mut taken, &has_failed);
        let feed = Feed::at(&has_failed, b"*8D4840D6202CC371C32CE0576098;\n");
        let (ran, _) = self.rig.run_lasting(&staged, "run --every 100", out, feed)?;
        same(self.rt, text(&taken), tables!("now 100 aircraft 0" => []));
        let told = concat!(
            "lines 1 frames 1 ticks 0 shows 0 blank 0 modeac 0 faults 0 accepted 1 refused 0\n",
            "groundstation: write failed\n",
        );
        self.leaves(&ran, 1, "", told);
        Ok(())
    }

    fn output_that_waits_holds_no_receiver_up(self) -> Result<(), Fail> {
        let (is_waiting, is_fed) = (AtomicBool::new(false), AtomicBool::new(false));
        let out = Waiting {
            rt: self.rt,
            is_waiting: &is_waiting,
            is_fed: &is_fed,
        };
        let lines = long_lines(self.alloc)?;
        let feed = Feed {
            start: &is_waiting,
            text: lines.as_slice(),
            end: &is_fed,
        };
        let (ran, _) = self.rig.run_lasting(self.rt, "run --every 1", out, feed)?;
        let tally =
            "lines 160004 frames 4 ticks 0 shows 0 blank 160000 modeac 0 faults 0 accepted 4 refused 0\n";
        self.leaves(&ran, 0, "", tally);
        Ok(())
    }

    // Twenty tables are due before the path ends. The first is being written meanwhile, four wait, and fifteen are left out.
    fn tables_that_nobody_reads_are_left_out(self) -> Result<(), Fail> {
        let mut moments = Vec::new(self.alloc);
        for moment in 0..=40 {
            moments.push(50 * moment)?;
        }
        let is_read = AtomicBool::new(false);
        let staged = Staged::new(self.rt, moments.as_slice());
        let mut taken = Vec::new(self.alloc);
        let out = Unread {
            rt: self.rt,
            taken: &mut taken,
            is_read: &is_read,
        };
        let feed = Feed {
            start: &staged.has_ended,
            text: b"*8D4840D6202CC371C32CE0576098;\n",
            end: &is_read,
        };
        let folder = self.rig.new_folder()?;
        let record = format!(in self.alloc; "{folder}/record")?;
        let line = format!(in self.alloc; "run --every 100 --record={record}")?;
        let (ran, _) = self.rig.run_lasting(&staged, line.as_str(), out, feed)?;
        let stalls =
            "groundstation: output stalled\ngroundstation: output goes on, 15 tables left out\n";
        same(self.rt, text(&ran.stall_alarm), stalls);
        same(self.rt, ran.status, 0);
        let (lines, shown) = self.rig.shown_again(record.as_str())?;
        same(self.rt, text(&shown), text(&taken));
        same(self.rt, text(&lines).split('+').count(), 21);
        same(self.rt, text(&lines).split('?').count(), 7);
        self.rig.remove(&folder)
    }

    // The first line has 37 bytes before its LF if its time has 20 digits, the header and each row have 73.
    fn a_full_table_is_written_at_once(self) -> Result<(), Fail> {
        let moments = [0, 18_446_744_073_709_551_000];
        let is_written = AtomicBool::new(false);
        let staged = Staged::new(self.rt, moments.as_slice());
        let (mut lengths, mut last) = (Vec::new(self.alloc), Vec::new(self.alloc));
        let out = Pieces {
            lengths: &mut lengths,
            last: &mut last,
            is_written: &is_written,
        };
        let replies = all_call_replies(self.alloc, 1, 512)?;
        let feed = Feed::at(&is_written, replies.as_bytes());
        let (ran, _) = self.rig.run_lasting(&staged, "run --every 1", out, feed)?;
        let first_line = "now 18446744073709551000 aircraft 512\n";
        holds(self.rt, text(&last).starts_with(first_line));
        let wanted = [36 + 74, 38 + 74 + 512 * 74];
        same(self.rt, lengths.as_slice(), wanted.as_slice());
        same(self.rt, ran.status, 0);
        Ok(())
    }
}

#[test]
fn replay_writes_nothing_after_a_failed_write(rt: HostRuntime) -> Result<(), Fail> {
    Trials::on(&rt).replay_writes_nothing_after_a_failed_write()
}

#[test]
fn run_writes_nothing_after_a_failed_write_and_reads_on(rt: HostRuntime) -> Result<(), Fail> {
    Trials::on(&rt).run_writes_nothing_after_a_failed_write_and_reads_on()
}

#[test]
fn output_that_waits_holds_no_receiver_up(rt: HostRuntime) -> Result<(), Fail> {
    Trials::on(&rt).output_that_waits_holds_no_receiver_up()
}

#[test]
fn tables_that_nobody_reads_are_left_out(rt: HostRuntime) -> Result<(), Fail> {
    Trials::on(&rt).tables_that_nobody_reads_are_left_out()
}

#[test]
fn a_full_table_is_written_at_once(rt: HostRuntime) -> Result<(), Fail> {
    Trials::on(&rt).a_full_table_is_written_at_once()
}
