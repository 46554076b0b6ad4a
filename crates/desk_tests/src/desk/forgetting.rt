//! A desk that forgets what is more than 70,000 ms old.

use super::{ALL_CALL, EVEN_PLACE, IDENTIFICATION, ODD_PLACE, STORIES, VELOCITY, call, shows};
use crate::comparing::{holds_at, same, same_at};
use crate::fakes::new_desk;
use station_replay::Desk;

// A desk that forgets after each call refuses and shows what one that never does.
#[test]
fn desk_that_forgets_answers_as_one_that_does_not(rt: HostRuntime) {
    for (calls, _) in STORIES {
        let mut whole: Desk<512> = new_desk(&rt, rt.alloc(), 16_777_216);
        let mut short: Desk<512> = new_desk(&rt, rt.alloc(), 16_777_216);
        for (line, _) in calls {
            let want = call(&rt, &mut whole, 0, line);
            let answer = call(&rt, &mut short, 0, line);
            same_at(&rt, answer.err(), want.err(), line);
            short.forget_old();
            shows(&rt, &whole, whole.journal(), line);
            shows(&rt, &short, whole.journal(), line);
            shows(&rt, &short, short.journal(), line);
        }
        let _journal = whole.end(&rt);
        let _journal = short.end(&rt);
    }
}

// Entries of 70,000 ms ago are kept. Those a millisecond older aren't, and the clock before the others is the last of
// theirs.
#[test]
fn entries_of_70_seconds_are_kept(rt: HostRuntime) {
    for (last, now, count, base) in [("+75000", 75_000, 3, 1), ("+75001", 75_001, 1, 5_000)] {
        let mut desk: Desk<512> = new_desk(&rt, rt.alloc(), 16_777_216);
        for line in ["+1", EVEN_PLACE, "+5000", ODD_PLACE, last] {
            holds_at(&rt, call(&rt, &mut desk, 0, line).is_ok(), line);
        }
        desk.forget_old();
        let journal = desk.end(&rt);
        same(&rt, journal.now(), now);
        same(&rt, (journal.len(), journal.base()), (count, base));
    }
}

// A desk of three entries takes any number of them. Their indices are counted from the oldest that it has.
#[test]
fn desk_that_forgets_never_fills_up(rt: HostRuntime) {
    let mut desk: Desk<1> = new_desk(&rt, rt.alloc(), 3);
    for (line, want) in [
        ("+80000", 0),
        (IDENTIFICATION, 1),
        ("+160000", 2),
        (ALL_CALL, 1),
        ("+240000", 2),
        (VELOCITY, 1),
        ("+320000", 2),
        (IDENTIFICATION, 1),
    ] {
        same_at(&rt, call(&rt, &mut desk, 0, line), Ok(want), line);
        desk.forget_old();
        shows(&rt, &desk, desk.journal(), line);
    }
    let _journal = desk.end(&rt);
}
