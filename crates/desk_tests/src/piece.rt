//! Reads gathered to pieces while bytes are at hand.
use crate::comparing::same_at;
use arrayvec::ArrayVec;
use modes_frame::Cut;
use station_lines::{Ended, LineTaker, ParsedLine, parse_heard, take_lines};
use std::io::BufReader;
use std::process::Abort;
use std::test::*;
use streams::{FromBuffer, FromRead, Source};

const BYTES: [u8; 3000] = [b'\n'; 3000];

const MORE: [u8; 200_000] = [b'\n'; 200_000];

// Counts the lines before each time that it settles, of up to 8.
#[derive(Drop)]
struct Lengths {
    count: usize,
    lengths: ArrayVec<usize, 8>,
}

impl LineTaker for Lengths {
    ghost use Rattle.std.specs.Prelude.{false};

    type Stop = ();

    ghost is_replay = { false };

    ghost took = { λ _ _ _ _. Unit {0} };

    ghost is_settled = { λ _. Unit {0} };

    ghost counted = { λ _. 0 };

    fn parse(cut: &Cut) -> ParsedLine {
        parse_heard(cut)
    }

    fn take_line(&mut self, _line: &ParsedLine) -> Result<(), ()> {
        self.count = self.count.saturating_add(1);
        Ok(())
    }

    fn settle(&mut self) -> Result<(), ()> {
        let _fits = self.lengths.try_push(self.count);
        self.count = 0;
        Ok(())
    }

    ghost none = { λ _. tt };

    ghost then = { λ _ _ _ _ _ _ _ _. tt };
}

// The source ends so in this many turns, with n lines before each settling.
fn gathers<S: Source>(rt: &impl Abort, from: &mut S, turns: u32, end: Ended<()>, pieces: &[usize]) {
    let mut taker = Lengths {
        count: 0,
        lengths: ArrayVec::new(),
    };
    same_at(rt, take_lines(&mut taker, from, turns), end, turns);
    same_at(rt, taker.lengths.as_slice(), pieces, turns);
}

// They end with the turns.
#[test]
fn reads_go_on_while_bytes_are_at_hand(rt: HostRuntime) -> Result<(), Fail> {
    for (turns, end, pieces) in [
        (3, Ended::TurnsOver, [1536].as_slice()),
        (4, Ended::TurnsOver, &[2048]),
        (6, Ended::TurnsOver, &[2048, 952]),
        (7, Ended::AtEnd, &[2048, 952, 0, 0]),
        (9, Ended::AtEnd, &[2048, 952, 0, 0]),
    ] {
        let reader = BufReader::with_capacity(rt.alloc(), 2048, BYTES.as_slice())?;
        gathers(&rt, &mut FromBuffer::new(reader), turns, end, pieces);
    }
    Ok(())
}

// More than one piece is at hand. They end with the turns.
#[test]
fn lines_are_kept_while_bytes_are_at_hand(rt: HostRuntime) -> Result<(), Fail> {
    for (turns, end, lines) in [
        (256, Ended::TurnsOver, [131_072].as_slice()),
        (300, Ended::TurnsOver, &[153_600]),
        (391, Ended::TurnsOver, &[200_000]),
        (999, Ended::AtEnd, &[200_000, 0, 0]),
    ] {
        let reader = BufReader::with_capacity(rt.alloc(), 300_000, MORE.as_slice())?;
        gathers(&rt, &mut FromBuffer::new(reader), turns, end, lines);
    }
    Ok(())
}

#[test]
fn a_source_that_does_not_know_is_read_once(rt: HostRuntime) {
    for (turns, end, pieces) in [
        (1, Ended::TurnsOver, [512].as_slice()),
        (9, Ended::AtEnd, &[512, 512, 512, 512, 512, 440, 0, 0]),
    ] {
        let mut from = FromRead::new(BYTES.as_slice());
        gathers(&rt, &mut from, turns, end, pieces);
    }
}
