//! Replays whose observer gets the limits that their lines meet.
ghost use Rattle.std.specs.Prelude.{None};

use super::forgetting::{STREAM, replayed};
use crate::comparing::{same, same_at};
use crate::fakes::{counted, new_desk};
use arrayvec::ArrayVec;
use station_journal::{FullLimit, Refusal};
use station_lines::Tally;
use station_replay::{Desk, LimitObserver, ReplayFault};
use std::sync::Wait;
use std::sync::atomic::AtomicU64;
use std::sync::atomic::Ordering::SeqCst;
use streams::{Failed, Sink};

// How often each limit was met, and how often any, which others see too.
#[derive(Drop)]
struct Noted<'a> {
    journal: u64,
    table: u64,
    count: &'a AtomicU64,
}

impl<'a> LimitObserver for Noted<'a> {
    ghost met = { λ x limits y. Unit {0} };

    fn limit_met(&mut self, limit: FullLimit) {
        match limit {
            FullLimit::Journal => self.journal = self.journal.saturating_add(1),
            FullLimit::Table => self.table = self.table.saturating_add(1),
        }
        let _before = self.count.fetch_add(1, SeqCst);
    }

    ghost none = { λ x. tt };

    ghost then = { λ x y z cs ds p q. tt };
}

// Takes all bytes. At each flush it notes how many limits have been met.
#[derive(Drop)]
struct Watching<'a> {
    count: &'a AtomicU64,
    met: ArrayVec<u64, 8>,
}

impl<'a> Sink for Watching<'a> {
    ghost state = { λ _. record { taken = None; failures = 0 } };

    fn write(&mut self, piece: &[u8]) -> Result<usize, Failed> {
        Ok(piece.len())
    }

    fn flush(&mut self) -> Result<(), Failed> {
        let _fits = self.met.try_push(self.count.load(SeqCst));
        Ok(())
    }
}

// What a replay answers, how often it met a full journal and a full table, and how many limits it had met at each flush.
type Observed = (Result<Tally, ReplayFault>, (u64, u64), ArrayVec<u64, 8>);

// Replays lines by a desk that forgets once it has n entries.
fn observed<const N: usize, R: Wait>(rt: &R, desk: Desk<N>, most: u64, lines: &str) -> Observed {
    let count = AtomicU64::new(0);
    let mut noted = Noted {
        journal: 0,
        table: 0,
        count: &count,
    };
    let mut sink = Watching {
        count: &count,
        met: ArrayVec::new(),
    };
    let (answer, _) = replayed(rt, desk, most, lines, &mut sink, &mut noted);
    (answer, (noted.journal, noted.table), sink.met)
}

// A journal of three entries refuses a frame, and then each tick and frame. Where the desk forgets, none is refused.
#[test]
fn full_journal_is_observed_at_each_line_that_meets_it(rt: HostRuntime) {
    for (most, want, met) in [
        (4, counted([1, 3], [2, 2], [1, 0, 0, 0]), 5),
        (2, counted([4, 0], [4, 0], [1, 0, 0, 0]), 0),
    ] {
        let desk: Desk<512> = new_desk(&rt, rt.alloc(), 3);
        let (answer, found, _) = observed(&rt, desk, most, STREAM);
        same_at(&rt, answer, Ok(want), most);
        same_at(&rt, found, (met, 0), most);
    }
}

// A frame of another aircraft than the one that is live. Then lines that are refused for something else: an overlaid
// address that isn't live, a wrong parity, a format that isn't read, a repeated frame and a tick at the clock. Then lines
// without a call, and the other aircraft once more.
const OTHERS: &str = concat!(
    "*8D4840D6202CC371C32CE0576098;\n",
    "*8D485020994409940838175B284F;\n",
    "*2A00516D492B80;\n",
    "*8D4840D6202CC371C32CE0576099;\n",
    "*8000000000000000000000000000;\n",
    "*8D4840D6202CC371C32CE0576098;\n",
    "+0\n",
    "\nneither\n?\n",
    "*8D485020994409940838175B284F;\n",
);

// A table of one aircraft. Where the journal is full too, that is what a frame meets.
#[test]
fn full_table_is_observed_and_no_other_refusal(rt: HostRuntime) {
    let want = Ok(counted([1, 6], [0, 1], [1, 1, 0, 1]));
    for (entries, met) in [(16, (0, 2)), (1, (2, 0))] {
        let desk: Desk<1> = new_desk(&rt, rt.alloc(), entries);
        let (answer, found, _) = observed(&rt, desk, 99, OTHERS);
        same_at(&rt, answer, want, entries);
        same_at(&rt, found, met, entries);
    }
}

// The frames are in one piece with the questions between them.
#[test]
fn full_journal_is_observed_before_the_next_line(rt: HostRuntime) {
    let lines = concat!(
        "*8D4840D6202CC371C32CE0576098;\n?\n",
        "*8D485020994409940838175B284F;\n?\n",
        "+1\n?\n?\n",
        "*8D485020994409940838175B284F;\n",
    );
    let desk: Desk<512> = new_desk(&rt, rt.alloc(), 1);
    let (answer, found, met) = observed(&rt, desk, 99, lines);
    same(&rt, answer, Ok(counted([1, 2], [0, 1], [4, 0, 0, 0])));
    same(&rt, met.as_slice(), [0, 1, 2, 2].as_slice());
    same(&rt, found, (3, 0));
}

// A full journal and a full table are the only refusals that are limits.
#[test]
fn full_limits_are_two_refusals(rt: HostRuntime) {
    for (refusal, limit) in [
        (Refusal::JournalFull, Some(FullLimit::Journal)),
        (Refusal::BookFull, Some(FullLimit::Table)),
        (Refusal::Unsupported(16), None),
        (Refusal::BadParity(1), None),
        (Refusal::Unassigned(0), None),
        (Refusal::Unknown(0x510AF9), None),
        (Refusal::NoMemory, None),
        (Refusal::NotLater(0), None),
        (Refusal::Repeated, None),
    ] {
        same(&rt, FullLimit::of(refusal), limit);
    }
}
