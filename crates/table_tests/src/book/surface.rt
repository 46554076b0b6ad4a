//! Aircraft on the ground, given to a journal and to a book. With a site both show them there, and without one as before.

use crate::book::{compare_at, position};
use crate::calls::Call::{self, Hear, Tick};
use crate::calls::entry;
use crate::comparing::{same, same_at};
use modes_cpr::Reference;
use modes_fields::Velocity;
use station_book::Book;
use station_journal::PlacedRows;
use std::test::Fail;

const SITE: Option<Reference> = Some(Reference {
    lat: 519_900_000,
    lon: 43_750_000,
});

// Surface places of 484175, an even one at 18 knots and an odd one at 16 knots.
const EVEN: &[u8] = b"\x8C\x48\x41\x75\x3A\xAB\x23\x87\x33\xC8\xCD\x40\x20\xB1";

const ODD: &[u8] = b"\x8C\x48\x41\x75\x3A\x8A\x35\x32\x3F\xAE\xBD\xAC\x70\x2D";

// Its airborne places at 1,000 feet, its velocity in the air, and a reply at 0 feet.
const EVEN_IN_AIR: &[u8] = b"\x8D\x48\x41\x75\x58\x0B\x02\xE1\x48\xF2\xB0\x3A\x62\xBC";

const ODD_IN_AIR: &[u8] = b"\x8D\x48\x41\x75\x58\x0B\x06\x4C\x76\xEB\xF2\xD4\xF9\x7E";

const IN_AIR: &[u8] = b"\x8D\x48\x41\x75\x99\x00\x65\x8C\x28\x2C\x00\x86\x73\xF4";

const REPLY: &[u8] = b"\x24\x00\x00\x98\x60\x44\x12";

// In 1/100,000 degree.
const ON_GROUND: (i128, i128) = (5_232_061, 473_473);

const ABOVE_GROUND: (i128, i128) = (5_232_001, 473_997);

// Calls, and what 484175 then shows: whether it is on the ground, its altitude in feet, its speed on the ground in eighths of
// a knot, and its position with the time of that.
type Story<'a> = (
    &'a [Call],
    (Option<bool>, Option<i32>, Option<u16>),
    Option<((i128, i128), u64)>,
);

const WITH_A_SITE: &[Story] = &[
    (
        &[Hear(EVEN), Hear(ODD)],
        (Some(true), None, Some(128)),
        Some((ON_GROUND, 0)),
    ),
    (
        &[Tick(1), Hear(EVEN), Tick(10_001), Hear(ODD)],
        (Some(true), None, Some(128)),
        Some((ON_GROUND, 10_001)),
    ),
    (
        &[Tick(1), Hear(EVEN), Tick(10_002), Hear(ODD)],
        (Some(true), None, Some(128)),
        None,
    ),
    // An aircraft that lands keeps its position in the air until two surface places give one.
    (
        &[
            Hear(EVEN_IN_AIR),
            Hear(ODD_IN_AIR),
            Hear(IN_AIR),
            Tick(1000),
            Hear(EVEN),
        ],
        (Some(true), Some(1000), Some(144)),
        Some((ABOVE_GROUND, 0)),
    ),
    (
        &[
            Hear(EVEN_IN_AIR),
            Hear(ODD_IN_AIR),
            Tick(1000),
            Hear(EVEN),
            Tick(2000),
            Hear(ODD),
        ],
        (Some(true), Some(1000), Some(128)),
        Some((ON_GROUND, 2000)),
    ),
    // One that takes off keeps its position and speed on the ground until it sends others.
    (
        &[Hear(EVEN), Hear(ODD), Tick(1000), Hear(EVEN_IN_AIR)],
        (Some(false), Some(1000), Some(128)),
        Some((ON_GROUND, 0)),
    ),
    (
        &[
            Hear(EVEN),
            Hear(ODD),
            Tick(1000),
            Hear(EVEN_IN_AIR),
            Tick(1500),
            Hear(IN_AIR),
            Hear(ODD_IN_AIR),
        ],
        (Some(false), Some(1000), None),
        Some((ABOVE_GROUND, 1500)),
    ),
    // A surface place and an airborne one give no position. The surface place is paired with a later one of its kind.
    (
        &[Hear(EVEN), Hear(ODD_IN_AIR)],
        (Some(false), Some(1000), Some(144)),
        None,
    ),
    (
        &[Hear(EVEN), Hear(ODD_IN_AIR), Hear(ODD)],
        (Some(true), Some(1000), Some(128)),
        Some((ON_GROUND, 0)),
    ),
    // It is on the ground for 60,000 ms, whatever altitude replies carry.
    (
        &[Hear(EVEN), Hear(ODD), Tick(60_000), Hear(REPLY)],
        (Some(true), Some(0), Some(128)),
        Some((ON_GROUND, 0)),
    ),
    (
        &[
            Hear(EVEN),
            Hear(ODD),
            Hear(REPLY),
            Tick(60_000),
            Hear(REPLY),
            Tick(60_001),
        ],
        (None, Some(0), None),
        None,
    ),
];

const WITHOUT_A_SITE: &[Story] = &[
    (&[Hear(EVEN), Hear(ODD)], (None, None, None), None),
    (
        &[Hear(EVEN), Hear(ODD_IN_AIR)],
        (None, Some(1000), None),
        None,
    ),
    (
        &[Hear(EVEN_IN_AIR), Hear(EVEN), Hear(ODD_IN_AIR), Hear(ODD)],
        (None, Some(1000), None),
        Some((ABOVE_GROUND, 0)),
    ),
];

fn ground_speed(velocity: Option<Velocity>) -> Option<u16> {
    match velocity {
        Some(Velocity::Surface { speed, track: _ }) => Some(speed),
        _ => None,
    }
}

#[test]
fn aircraft_on_the_ground(rt: HostRuntime) -> Result<(), Fail> {
    for (site, stories) in [(SITE, WITH_A_SITE), (None, WITHOUT_A_SITE)] {
        for (place, (calls, (on_ground, altitude, speed), placed)) in stories.iter().enumerate() {
            let book: Book<4> = compare_at(&rt, rt.alloc(), site, *calls)?;
            let row = book.get(0x484175).ok_or("no aircraft")?;
            same_at(&rt, row.on_ground, *on_ground, place);
            same_at(&rt, row.altitude, *altitude, place);
            same_at(&rt, ground_speed(row.velocity), *speed, place);
            same_at(&rt, position(&row), placed.map(|p| p.0), place);
            same_at(&rt, book.placed(0), placed.map(|p| p.1), place);
        }
    }
    Ok(())
}

#[test]
fn a_copied_book_has_its_site(rt: HostRuntime) -> Result<(), Fail> {
    let mut shown = Book::<4>::starting(SITE, 0);
    shown.offer(&entry(Hear(EVEN))?);
    let mut copy = Book::<4>::new();
    copy.copy_from(&shown);
    copy.offer(&entry(Hear(ODD))?);
    let row = copy.get(0x484175).ok_or("no aircraft")?;
    same(&rt, row.on_ground, Some(true));
    same(&rt, position(&row), Some(ON_GROUND));
    Ok(())
}
