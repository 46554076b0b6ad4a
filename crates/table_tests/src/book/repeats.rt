//! Frames that are heard again.

use crate::book::give;
use crate::calls::Call::{Hear, Tick};
use crate::calls::{entry, frame};
use crate::comparing::{holds, same};
use crate::known::{IDENTIFICATION, SHORT_AIR};
use modes_frame::remainder;
use station_book::{Book, Call};
use station_journal::{Entry, Journal, Limits, Refusal};
use std::test::Fail;

const LIMITS: Limits = Limits {
    entries: 600,
    aircraft: 4,
    site: None,
};

// An identity reply of 4840D6: this byte, and then the parity with the address overlaid.
fn reply(last: u8) -> Result<Entry, Fail> {
    let unaddressed = frame(&[0x28, 0, 0, last, 0, 0, 0])?;
    let parity = remainder(&unaddressed) ^ 0x4840D6;
    let [_, high, middle, low] = parity.to_be_bytes();
    let frame = frame(&[0x28, 0, 0, last, high, middle, low])?;
    Ok(Entry::Heard { seat: 0, frame })
}

#[test]
fn the_first_256_frames_since_a_tick_are_looked_at(rt: HostRuntime) -> Result<(), Fail> {
    let mut journal = Journal::new(rt.alloc(), LIMITS);
    let mut book = Book::<4>::new();
    let first = entry(Hear(IDENTIFICATION))?;
    for new in [entry(Tick(1))?, first] {
        holds(&rt, give(&rt, &mut journal, &mut book, &new).is_ok());
    }
    for last in 0..=255 {
        let new = reply(last)?;
        holds(&rt, give(&rt, &mut journal, &mut book, &new).is_ok());
    }
    for again in [first, reply(0)?, reply(253)?, reply(254)?] {
        let answer = give(&rt, &mut journal, &mut book, &again);
        same(&rt, answer, Err(Refusal::Repeated));
    }
    for new in [reply(255)?, entry(Tick(2))?, first, reply(254)?] {
        holds(&rt, give(&rt, &mut journal, &mut book, &new).is_ok());
    }
    same(&rt, book.entries(), 262);
    Ok(())
}

// Identity replies of 4840D6 whose last thirteen bits are those of IDENTIFICATION.
const SAME_LAST_BITS: &[u8] = b"\x28\x00\x17\x00\xA2\xC0\x98";

const SAME_LAST_BITS_TOO: &[u8] = b"\x28\x00\x28\xFE\x23\xE0\x98";

#[test]
fn frames_with_the_same_last_bits_are_told_apart(rt: HostRuntime) -> Result<(), Fail> {
    let mut journal = Journal::new(rt.alloc(), LIMITS);
    let mut book = Book::<4>::new();
    let script = [
        (IDENTIFICATION, Ok(0)),
        (SHORT_AIR, Ok(1)),
        (SAME_LAST_BITS, Ok(2)),
        (IDENTIFICATION, Err(Refusal::Repeated)),
        (SAME_LAST_BITS, Err(Refusal::Repeated)),
        (SAME_LAST_BITS_TOO, Ok(3)),
        (SAME_LAST_BITS, Err(Refusal::Repeated)),
        (SHORT_AIR, Err(Refusal::Repeated)),
    ];
    for (bytes, wanted) in script {
        let heard = entry(Hear(bytes))?;
        same(&rt, give(&rt, &mut journal, &mut book, &heard), wanted);
    }
    Ok(())
}

// Gives the entry to the first, and what it changed to the second.
pub fn give_change<const N: usize>(shown: &mut Book<N>, spare: &mut Book<N>, entry: &Entry) {
    let before = shown.entries();
    shown.offer(entry);
    if let Some(change) = Call::of(entry).change() {
        if shown.entries() > before {
            spare.catch_up(shown, change);
        }
    }
}

// The 256 frames that are compared are IDENTIFICATION and the first 255 replies.
#[test]
fn a_second_copy_refuses_the_same(rt: HostRuntime) -> Result<(), Fail> {
    let mut shown = Book::<4>::new();
    let mut spare = Book::<4>::new();
    give_change(&mut shown, &mut spare, &entry(Hear(IDENTIFICATION))?);
    for last in 0..=255 {
        let heard = reply(last)?;
        let call = Call::of(&heard);
        assert_eq!(rt; shown.verdict_of(&call), Ok(()));
        give_change(&mut shown, &mut spare, &heard);
        let answer = match last {
            255 => Ok(()),
            _ => Err(Refusal::Repeated),
        };
        assert_eq!(rt; shown.verdict_of(&call), answer);
        assert_eq!(rt; spare.verdict_of(&call), answer);
    }
    give_change(&mut shown, &mut spare, &entry(Tick(1))?);
    assert_eq!(rt; (spare.entries(), spare.now()), (258, 1));
    assert_eq!(rt; spare.get(0x4840D6), shown.get(0x4840D6));
    for heard in [entry(Hear(IDENTIFICATION))?, reply(7)?] {
        assert_eq!(rt; spare.verdict_of(&Call::of(&heard)), Ok(()));
    }
    Ok(())
}
