//! Replays by a desk that forgets what is more than 70,000 ms old.

use super::aged::REPLAYS_WITH_TICKS;
use super::known::REPLAYS;
use crate::comparing::{holds_at, same, same_at};
use crate::fakes::{Pieces, Taker, counted, new_desk};
use station_journal::Journal;
use station_lines::Tally;
use station_replay::{
    Desk, Format, LimitObserver, ReplayFault, Unobserved, replay, replay_forgetting,
};
use std::sync::Wait;
use streams::Sink;

// Replays lines by a desk that forgets once it has n entries. Gives its journal too.
pub(super) fn replayed<const N: usize, S: Sink, O: LimitObserver, R: Wait>(
    rt: &R,
    mut desk: Desk<N>,
    most: u64,
    lines: &str,
    sink: &mut S,
    seen: &mut O,
) -> (Result<Tally, ReplayFault>, Journal) {
    let mut from = Pieces::new(lines.as_bytes());
    let text = Format::Text;
    let answer = replay_forgetting(rt, most, &mut desk, &mut from, sink, text, 999, seen);
    (answer, desk.end(rt))
}

// A desk that forgets at each tick, or once it has a few entries, gives the known tables.
#[test]
fn desk_that_forgets_gives_known_tables(rt: HostRuntime) {
    for replays in [REPLAYS, REPLAYS_WITH_TICKS] {
        for (name, lines, text) in replays {
            for most in [0, 2, 4] {
                let mut sink = Taker::new();
                let desk: Desk<512> = new_desk(&rt, rt.alloc(), 16_777_216);
                let (answer, _) = replayed(&rt, desk, most, lines, &mut sink, &mut Unobserved);
                holds_at(&rt, answer.is_ok(), name);
                same_at(&rt, sink.bytes.as_slice(), text.as_bytes(), name);
            }
        }
    }
}

/// Four frames, each 80,000 ms after the one before, and a question.
pub(super) const STREAM: &str = concat!(
    "+80000\n*8D4840D6202CC371C32CE0576098;\n",
    "+160000\n*8D485020994409940838175B284F;\n",
    "+240000\n*8D4840D6202CC371C32CE0576098;\n",
    "+320000\n*8D4840D6202CC371C32CE0576098;\n",
    "?",
);

const AT_THE_END: &str = tables!("now 320000 aircraft 1" => [
    "4840D6 KLM1023       -    -            -      -          -          -   0",
]);

// A desk of three entries takes them all where it forgets, and else three.
#[test]
fn desk_that_forgets_takes_any_number_of_entries(rt: HostRuntime) {
    let desk: Desk<512> = new_desk(&rt, rt.alloc(), 3);
    let mut sink = Taker::new();
    let (answer, journal) = replayed(&rt, desk, 2, STREAM, &mut sink, &mut Unobserved);
    same(&rt, answer, Ok(counted([4, 0], [4, 0], [1, 0, 0, 0])));
    same(&rt, sink.bytes.as_slice(), AT_THE_END.as_bytes());
    same(&rt, (journal.len(), journal.base()), (2, 240_000));
    let mut full: Desk<512> = new_desk(&rt, rt.alloc(), 3);
    let mut from = Pieces::new(STREAM.as_bytes());
    let answer = replay(&rt, &mut full, &mut from, &mut sink, 999);
    same(&rt, answer, Ok(counted([1, 3], [2, 2], [1, 0, 0, 0])));
    let _journal = full.end(&rt);
}
