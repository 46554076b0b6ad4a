//! Positions of pairs of places, and their times: that of the newest place that gave one.

use crate::book::{compare, position};
use crate::calls::Call::{self, Hear, Tick};
use crate::comparing::same;
use crate::known::{EVEN, FAR, IDENTIFICATION, ODD};
use station_book::Book;
use station_journal::{PlacedRows, Rows};
use std::alloc::Global;
use std::process::Abort;
use std::test::Fail;

const NEWEST_ODD: (i128, i128) = (5_226_578, 393_891);

const NEWEST_EVEN: (i128, i128) = (5_225_720, 391_937);

// An all-call reply of 40621D, which carries no place.
const REPLY: &[u8] = b"\x5D\x40\x62\x1D\x4F\x94\xD0";

// Calls, and of 40621D then the time of its newest place in milliseconds and its position, which has that time. Each place
// is at 38,000 feet.
const STORIES: &[(&[Call], u64, Option<(i128, i128)>)] = &[
    (&[Hear(EVEN), Hear(ODD)], 0, Some(NEWEST_ODD)),
    (&[Hear(ODD), Hear(EVEN)], 0, Some(NEWEST_EVEN)),
    (&[Hear(EVEN)], 0, None),
    // A later pair gives a later time.
    (
        &[
            Tick(1),
            Hear(EVEN),
            Tick(5000),
            Hear(ODD),
            Tick(9000),
            Hear(EVEN),
        ],
        9000,
        Some(NEWEST_EVEN),
    ),
    (
        &[Tick(1), Hear(EVEN), Tick(5000), Hear(ODD), Tick(65_000)],
        5000,
        Some(NEWEST_ODD),
    ),
];

// A place and its time, another and its time, and the position that they give.
const PAIRS: &[(&[u8], u64, &[u8], u64, Option<(i128, i128)>)] = &[
    (EVEN, 1000, ODD, 3000, Some(NEWEST_ODD)),
    (ODD, 1000, EVEN, 3000, Some(NEWEST_EVEN)),
    // The places of a pair are at most 10,000 ms apart.
    (EVEN, 1, ODD, 10_001, Some(NEWEST_ODD)),
    (EVEN, 1, ODD, 10_002, None),
    // An aircraft that was swept begins anew.
    (EVEN, 1, ODD, 60_001, None),
    (EVEN, 1, ODD, 60_002, None),
];

const PLACED_AT_3000: [Call; 4] = [Tick(1000), Hear(EVEN), Tick(3000), Hear(ODD)];

// How a position ages: the calls after a pair, and then the times of the newest frame and of the position.
const AGES: &[(&[Call], u64, Option<u64>)] = &[
    // Frames without a place keep the time.
    (&[Tick(20_000), Hear(REPLY)], 20_000, Some(3000)),
    (
        &[Tick(20_000), Hear(REPLY), Tick(63_000)],
        20_000,
        Some(3000),
    ),
    (&[Tick(20_000), Hear(REPLY), Tick(63_001)], 20_000, None),
    // So does a pair that gives no position.
    (&[Tick(4000), Hear(FAR)], 4000, Some(3000)),
    (&[Tick(4000), Hear(FAR), Tick(63_000)], 4000, Some(3000)),
    (&[Tick(4000), Hear(FAR), Tick(63_001)], 4000, None),
];

// After the calls 40621D was heard at this time, and has this position with its time. Answers its altitude in feet.
fn altitude_after(
    rt: &impl Abort,
    alloc: Global,
    calls: &[Call],
    heard: u64,
    wanted: Option<((i128, i128), u64)>,
) -> Result<Option<i32>, Fail> {
    let book: Book<4> = compare(rt, alloc, calls)?;
    let row = book.get(0x40621D).ok_or("no aircraft")?;
    same(rt, row.heard, heard);
    same(rt, position(&row), wanted.map(|w| w.0));
    same(rt, book.placed(0), wanted.map(|w| w.1));
    Ok(row.altitude)
}

#[test]
fn pairs_of_places(rt: HostRuntime) -> Result<(), Fail> {
    for (calls, at, wanted) in STORIES {
        let wanted = wanted.map(|w| (w, *at));
        let altitude = altitude_after(&rt, rt.alloc(), *calls, *at, wanted)?;
        same(&rt, altitude, Some(38_000));
    }
    for (first, from, second, at, wanted) in PAIRS {
        let calls = [Tick(*from), Hear(*first), Tick(*at), Hear(*second)];
        let wanted = wanted.map(|w| (w, *at));
        let altitude = altitude_after(&rt, rt.alloc(), &calls, *at, wanted)?;
        same(&rt, altitude, Some(38_000));
    }
    let calls = [Tick(1), Hear(EVEN), Tick(5000), Hear(ODD), Tick(65_001)];
    let book: Book<4> = compare(&rt, rt.alloc(), &calls)?;
    same(&rt, book.len(), 0);
    Ok(())
}

#[test]
fn positions_age(rt: HostRuntime) -> Result<(), Fail> {
    for (later, heard, placed) in AGES {
        let mut calls = Vec::new(rt.alloc());
        calls.extend_from_slice(&PLACED_AT_3000)?;
        calls.extend_from_slice(*later)?;
        let wanted = placed.map(|at| (NEWEST_ODD, at));
        let _altitude = altitude_after(&rt, rt.alloc(), calls.as_slice(), *heard, wanted)?;
    }
    Ok(())
}

#[test]
fn each_row_has_its_own_time(rt: HostRuntime) -> Result<(), Fail> {
    let calls = [
        Hear(IDENTIFICATION),
        Hear(EVEN),
        Tick(4000),
        Hear(ODD),
        Hear(IDENTIFICATION),
    ];
    let book: Book<4> = compare(&rt, rt.alloc(), &calls)?;
    assert_eq!(rt; book.len(), 2);
    assert_eq!(rt;
        (book.row(0).address, book.placed(0)),
        (0x40621D, Some(4000))
    );
    assert_eq!(rt; (book.row(1).address, book.placed(1)), (0x4840D6, None));
    Ok(())
}
