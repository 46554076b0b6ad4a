//! Pumps over a desk.
use crate::comparing::{same, same_at};
use crate::fakes::{IDENTIFICATION_BYTES, Pieces, counted, frame_of, new_desk, new_desk_or_again};
use station_journal::{Entry, Journal, Rows};
use station_lines::{PumpFault, Tally, pump};
use station_replay::{Desk, DeskFeed, pump_desk};
use std::alloc::Global;
use std::process::Abort;
use std::sync::Wait;

// The answer of a pump by seat 3 through a desk without entries, and its journal.
fn pumped<R: Abort + Wait>(
    rt: &R,
    alloc: Global,
    mut from: Pieces<'_>,
    turns: u32,
) -> (Result<Tally, PumpFault>, Journal) {
    let mut desk: Desk<512> = new_desk(rt, alloc, 16_777_216);
    let answer = pump_desk(rt, &mut desk, 3, &mut from, turns);
    (answer, desk.end(rt))
}

#[test]
fn sources_are_pumped_to_their_end_or_fault(rt: HostRuntime) {
    let none = counted([0, 0], [0, 0], [0, 0, 0, 0]);
    let one_frame = counted([1, 0], [0, 0], [0, 0, 0, 0]);
    let too_long = counted([0, 0], [0, 0], [0, 0, 0, 1]);
    let three_faults = counted([0, 0], [0, 0], [0, 0, 0, 3]);
    let spaces = Pieces::repeated(&[b' '; 512], 2000, b"");
    let mut failing = Pieces::new(b"*8D4840D6202CC371C32CE0576098;\n*0000;\n");
    failing.most = 31;
    failing.fails_at = 2;
    let ticks_and_questions = Pieces::new(b"+1\n?\n+x\n");
    for (source, turns, want) in [
        (ticks_and_questions, 9, Ok(three_faults)),
        (failing, 9, Err(PumpFault::Read(one_frame))),
        (spaces, 2001, Ok(too_long)),
        (spaces, 2000, Err(PumpFault::TooManyTurns(none))),
    ] {
        same_at(&rt, pumped(&rt, rt.alloc(), source, turns).0, want, turns);
    }
}

#[test]
fn plain_lines_are_taken_however_they_are_read(rt: HostRuntime) {
    let lines =
        b"*8D4840D6202CC371C32CE0576098;\nx\n*5D484FDEA248E3;\n*8D4840D6202CC3;\n*2A00516D492B80;\n";
    let want = counted([2, 1], [0, 0], [0, 0, 0, 2]);
    for most in 1..=90 {
        let mut source = Pieces::new(lines);
        source.most = most;
        let (answer, _journal) = pumped(&rt, rt.alloc(), source, 200);
        assert_eq!(rt; answer, Ok(want), "reads of {most} bytes");
    }
}

#[test]
fn frames_of_a_lent_desk_are_heard_by_its_seat(rt: HostRuntime) {
    let source = Pieces::new(b"*8D4840D6202CC371C32CE0576098;\n*2A00516D492B80;\n");
    let (answer, journal) = pumped(&rt, rt.alloc(), source, 9);
    same(&rt, answer, Ok(counted([1, 1], [0, 0], [0, 0, 0, 0])));
    let frame = frame_of(&rt, &IDENTIFICATION_BYTES);
    same(&rt, journal.get(0), Some(Entry::Heard { seat: 3, frame }));
    same(&rt, journal.len(), 1);
}

// The answer of a pump that feeds the desk as seat 0. One that is out of memory, at its first line, leaves the desk
// without entries, and is made once more.
fn pumped_or_again<R: Abort + Wait>(
    rt: &R,
    desk: &mut Desk<512>,
    lines: &[u8],
    turns: u32,
) -> Result<Tally, PumpFault> {
    for _tried in 0..2 {
        let mut from = Pieces::new(lines);
        let answer = pump(rt, &mut DeskFeed { desk, seat: 0 }, &mut from, turns);
        let Err(PumpFault::NoMemory(tally)) = answer else {
            return answer;
        };
        same(rt, tally, counted([0, 1], [0, 0], [0, 0, 0, 0]));
        same(rt, (desk.journal().len(), Rows::len(desk)), (0, 0));
    }
    panic!(rt; "out of memory twice")
}

#[test]
fn lines_are_counted_by_kind(rt: HostRuntime) {
    let lines = b"*8D4840D6202CC371C32CE0576098;\n*0000;\n\nx\n*2A00516D492B80;";
    let want = counted([1, 1], [0, 0], [0, 1, 1, 1]);
    let none = counted([0, 0], [0, 0], [0, 0, 0, 0]);
    for (turns, want) in [(9, Ok(want)), (0, Err(PumpFault::TooManyTurns(none)))] {
        let mut desk = new_desk_or_again(&rt, rt.alloc(), 16_777_216);
        let answer = pumped_or_again(&rt, &mut desk, lines, turns);
        same_at(&rt, answer, want, turns);
        let _journal = desk.end(&rt);
    }
}
