//! Stories of calls, each made once, and what they leave.

use crate::book::played;
use crate::calls::Call::{Hear, HearToo, Tick};
use crate::calls::frame;
use crate::comparing::{holds, same, same_at};
use crate::journal::{MANY, Script, row};
use crate::known::{ALL_CALL, EVEN, IDENTIFICATION, IDENTITY, LOW, SPEED};
use modes_fields::Velocity;
use station_journal::Refusal::{NotLater, Repeated, Unknown};
use station_journal::{Journal, Rows};
use std::test::Fail;

const AT_60_SECONDS: Script = &[
    (Tick(0), Err(NotLater(0))),
    (Tick(1000), Ok(0)),
    (Hear(IDENTIFICATION), Ok(1)),
    (Tick(61_000), Ok(2)),
];

const REPLIES: Script = &[
    (Hear(ALL_CALL), Ok(0)),
    (Hear(IDENTITY), Ok(1)),
    (Hear(LOW), Ok(2)),
];

// What a story is, its calls, and how many entries it leaves, at which time in milliseconds, with how many aircraft.
const STORIES: &[(&str, Script, (u64, u64, usize))] = &[
    ("a life of 60,000 ms", AT_60_SECONDS, (3, 61_000, 1)),
    (
        "a life that is over",
        &[
            (Tick(1000), Ok(0)),
            (Hear(IDENTIFICATION), Ok(1)),
            (Tick(61_000), Ok(2)),
            (Tick(61_001), Ok(3)),
            (Tick(61_001), Err(NotLater(61_001))),
        ],
        (4, 61_001, 0),
    ),
    (
        "the last tick of all",
        &[
            (Tick(0), Err(NotLater(0))),
            (Hear(IDENTIFICATION), Ok(0)),
            (Tick(u64::MAX), Ok(1)),
            (Tick(u64::MAX), Err(NotLater(u64::MAX))),
            (Tick(7), Err(NotLater(u64::MAX))),
        ],
        (2, u64::MAX, 0),
    ),
    (
        "a life that an overlaid reply prolongs",
        &[
            (Hear(ALL_CALL), Ok(0)),
            (Tick(60_000), Ok(1)),
            (Hear(IDENTITY), Ok(2)),
            (Tick(120_001), Ok(3)),
            (Hear(IDENTITY), Err(Unknown(0x510AF9))),
        ],
        (4, 120_001, 0),
    ),
    ("replies of one aircraft", REPLIES, (3, 0, 1)),
    (
        "repeats before the first tick",
        &[
            (Hear(ALL_CALL), Ok(0)),
            (Hear(IDENTITY), Ok(1)),
            (Hear(ALL_CALL), Err(Repeated)),
            (Hear(IDENTITY), Err(Repeated)),
        ],
        (2, 0, 1),
    ),
    (
        "a frame that another seat heard, until a tick",
        &[
            (Tick(1), Ok(0)),
            (Hear(IDENTIFICATION), Ok(1)),
            (HearToo(IDENTIFICATION), Err(Repeated)),
            (Tick(2), Ok(2)),
            (HearToo(IDENTIFICATION), Ok(3)),
        ],
        (4, 2, 1),
    ),
];

#[test]
fn stories_end_as_known(rt: HostRuntime) -> Result<(), Fail> {
    for (name, script, left) in STORIES {
        let (journal, _) = played::<4>(&rt, rt.alloc(), *script)?;
        let found = (journal.len(), journal.now(), Rows::len(&journal));
        same_at(&rt, found, *left, name);
    }
    Ok(())
}

#[test]
fn ticks_and_ages(rt: HostRuntime) -> Result<(), Fail> {
    let (journal, book) = played::<4>(&rt, rt.alloc(), AT_60_SECONDS)?;
    for klm in [
        row(&journal, 0x4840D6)?,
        book.get(0x4840D6).ok_or("no aircraft")?,
    ] {
        same(&rt, klm.heard, 1000);
        let callsign = klm.callsign.ok_or("no callsign")?;
        same(&rt, callsign.bytes(), b"KLM1023".as_slice());
    }
    let (journal, _) = played::<4>(&rt, rt.alloc(), REPLIES)?;
    let low = row(&journal, 0x510AF9)?;
    let squawk = low.squawk.ok_or("no squawk")?;
    same(&rt, (low.altitude, squawk.value()), (Some(-1200), 0o356));
    Ok(())
}

const HEARD: [&[u8]; 4] = [SPEED, EVEN, ALL_CALL, IDENTIFICATION];

// The rows of these: address, time of the newest frame in milliseconds, altitude and velocity.
const ROWS: [(u32, u64, Option<i32>, Option<Velocity>); 4] = [
    (0x40621D, 970, Some(38_000), None),
    (0x4840D6, 990, None, None),
    (
        0x485020,
        1000,
        None,
        Some(Velocity::Ground {
            east: -8,
            north: -159,
        }),
    ),
    (0x510AF9, 980, None, None),
];

// A tick at each millisecond, and after every tenth a frame of the next of four aircraft.
#[test]
fn a_table_of_1100_entries(rt: HostRuntime) -> Result<(), Fail> {
    let mut journal = Journal::new(rt.alloc(), MANY);
    for at in 1..=1000 {
        holds(&rt, journal.tick(0, at).is_ok());
        if at % 10 == 0 {
            let frame = frame(HEARD[at as usize / 10 % 4])?;
            holds(&rt, journal.feed(0, frame).is_ok());
        }
    }
    let rows = journal.all(rt.alloc())?;
    same(&rt, (journal.len(), rows.len()), (1100, 4));
    for (i, (address, heard, altitude, velocity)) in ROWS.iter().enumerate() {
        let row = rows.as_slice().get(i).ok_or("no row")?;
        same(&rt, (row.address, row.heard), (*address, *heard));
        same(&rt, (row.altitude, row.velocity), (*altitude, *velocity));
    }
    Ok(())
}
