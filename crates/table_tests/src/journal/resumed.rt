//! Journals that go on from the recent entries of another.

use crate::book::played;
use crate::calls::Call::{self, Hear, HearToo, Tick};
use crate::calls::entry;
use crate::comparing::{holds, same};
use crate::journal::{MANY, ONE_AIRCRAFT, ONE_ENTRY, Script, go_on, row, shown};
use crate::known::{ALL_CALL, IDENTIFICATION, IDENTITY, NOBODY, SPEED};
use station_journal::ResumeFault::{self, TooManyEntries, Unsound};
use station_journal::{Journal, Limits, Recent, Refusal, Rows};
use std::alloc::Global;
use std::test::Fail;

// The entries of the calls over a base. Where they are out of memory, each is pushed once more.
fn recent(alloc: Global, base: u64, calls: &[Call]) -> Result<Recent, Fail> {
    let mut entries = Vec::new(alloc);
    for call in calls {
        if entries.push(entry(*call)?).is_err() {
            entries.push(entry(*call)?)?;
        }
    }
    Ok(Recent { base, entries })
}

fn resumed(recent: Recent) -> Result<Journal, Fail> {
    Ok(Journal::resume(MANY, recent).ok().ok_or("not resumed")?)
}

const OF_80_SECONDS: Script = &[
    (Tick(1000), Ok(0)),
    (Hear(IDENTIFICATION), Ok(1)),
    (Tick(20_000), Ok(2)),
    (Hear(SPEED), Ok(3)),
    (Tick(80_000), Ok(4)),
];

#[test]
fn entries_of_the_last_70_seconds_go_on(rt: HostRuntime) -> Result<(), Fail> {
    let mut old = Journal::new(rt.alloc(), MANY);
    go_on(&rt, &mut old, OF_80_SECONDS)?;
    // Where it is out of memory, it is asked once more.
    let kept = old.recent(rt.alloc()).or_else(|_| old.recent(rt.alloc()))?;
    let wanted = [Tick(20_000), Hear(SPEED), Tick(80_000)];
    let wanted = recent(rt.alloc(), 1000, &wanted)?;
    same(&rt, (old.base(), kept.base), (0, wanted.base));
    holds(&rt, kept.entries.as_slice() == wanted.entries.as_slice());
    let mut journal = resumed(kept)?;
    assert_eq!(rt; shown(&journal), (3, 80_000, 1, Some(entry(Tick(80_000))?)));
    assert_eq!(rt; journal.base(), 1000);
    assert_eq!(rt; row(&journal, 0x485020)?.heard, 20_000);
    let later = [
        (Tick(80_000), Err(Refusal::NotLater(80_000))),
        (Tick(80_001), Ok(3)),
    ];
    go_on(&rt, &mut journal, &later)?;
    assert_eq!(rt; Rows::len(&journal), 0);
    Ok(())
}

#[test]
fn entries_of_two_seats_go_on(rt: HostRuntime) -> Result<(), Fail> {
    let given = recent(rt.alloc(), 0, &[Hear(IDENTIFICATION), HearToo(SPEED)])?;
    let mut journal = resumed(given)?;
    same(&rt, (Rows::len(&journal), journal.len()), (2, 2));
    let later = [
        (Hear(IDENTIFICATION), Err(Refusal::Repeated)),
        (Tick(5), Ok(2)),
    ];
    go_on(&rt, &mut journal, &later)
}

#[test]
fn a_moment_more_than_70_seconds_is_left_behind(rt: HostRuntime) -> Result<(), Fail> {
    // The time of the last tick, and the base and the number of the recent entries.
    for (at, left) in [(70_001, (0, 3)), (70_002, (1, 1))] {
        let heard = (Hear(IDENTIFICATION), Ok(1));
        let script = [(Tick(1), Ok(0)), heard, (Tick(at), Ok(2))];
        let (journal, _) = played::<4>(&rt, rt.alloc(), &script)?;
        let kept = journal.recent(rt.alloc())?;
        same(&rt, (kept.base, kept.entries.len()), left);
    }
    Ok(())
}

// A tick at each millisecond.
#[test]
fn twenty_thousand_recent_entries_are_kept(rt: HostRuntime) -> Result<(), Fail> {
    let mut journal = Journal::new(rt.alloc(), MANY);
    for at in 1..=20_000 {
        holds(&rt, journal.tick(0, at).is_ok());
    }
    let kept = journal.recent(rt.alloc())?;
    same(&rt, (kept.base, kept.entries.len()), (0, 20_000));
    Ok(())
}

#[test]
fn an_overlaid_frame_goes_on_alone(rt: HostRuntime) -> Result<(), Fail> {
    let journal = resumed(recent(rt.alloc(), 0, &[Hear(IDENTITY)])?)?;
    let row = row(&journal, 0x510AF9)?;
    same(&rt, row.callsign, None);
    same(&rt, row.squawk.ok_or("no squawk")?.value(), 0o356);
    Ok(())
}

const TWO: &[Call] = &[Hear(IDENTIFICATION), Hear(SPEED)];

// Limits, a base and calls, and why a journal isn't resumed from their entries.
const LISTS: &[(Limits, u64, &[Call], Option<ResumeFault>)] = &[
    (MANY, 4, &[Tick(5)], None),
    (MANY, 5, &[Tick(5)], Some(Unsound(0))),
    (MANY, 0, &[Hear(NOBODY)], Some(Unsound(0))),
    (MANY, 0, TWO, None),
    (ONE_AIRCRAFT, 0, TWO, Some(Unsound(1))),
    (ONE_ENTRY, 0, TWO, Some(TooManyEntries(2))),
    (ONE_AIRCRAFT, 0, &[Hear(ALL_CALL), HearToo(ALL_CALL)], None),
];

// What was given comes back where it is refused.
#[test]
fn lists_that_are_not_resumed_from(rt: HostRuntime) -> Result<(), Fail> {
    for (limits, base, calls, wanted) in LISTS {
        holds(&rt, limits.entries <= 16_777_216);
        let given = recent(rt.alloc(), *base, *calls)?;
        let fault = match Journal::resume(*limits, recent(rt.alloc(), *base, *calls)?) {
            Ok(_) => None,
            Err(refused) => {
                let back = &refused.recent;
                same(&rt, back.base, *base);
                holds(&rt, back.entries.as_slice() == given.entries.as_slice());
                Some(refused.fault)
            }
        };
        same(&rt, fault, *wanted);
    }
    Ok(())
}
