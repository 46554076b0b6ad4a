//! Which limits the calls of a station have met.
ghost use Rattle.std.specs.Prelude.{◌≡◌};

use super::Call::{self, Hear, Tick};
use super::{IDENTIFICATION, SQUAWK, VELOCITY, answer};
use crate::comparing::same;
use crate::fakes::{Site, limits_met};
use station_journal::Refusal;
use station_shared::StationName;
use std::marker::Brand;
use std::process::Abort;
use std::sync::Wait;

// A call with its answer, and whether the journal's limit and the table's have been met then.
type Known = (Call, Result<u64, Refusal>, bool, bool);

const CALLS: [Known; 9] = [
    (Hear(IDENTIFICATION), Ok(0), false, false),
    (Hear(SQUAWK), Err(Refusal::Unknown(0x510AF9)), false, false),
    (Hear(IDENTIFICATION), Err(Refusal::Repeated), false, false),
    (Tick(0), Err(Refusal::NotLater(0)), false, false),
    (Hear(VELOCITY), Err(Refusal::BookFull), false, true),
    (Tick(5), Ok(1), false, true),
    (Tick(6), Err(Refusal::JournalFull), true, true),
    (Hear(VELOCITY), Err(Refusal::JournalFull), true, true),
    (Tick(5), Err(Refusal::NotLater(5)), true, true),
];

// Makes the calls one after another at a station of one seat and for one aircraft.
fn meet<L: StationName, R: Wait + Abort>(rt: &R, site: Site<1>, calls: &[Known])
    requires ledger { (L.name ≡ site.blank.name) × (L.parts ≡ site.seats) × (L.seats ≡ site.seats) }
    requires start { L.start ≡ record { history = site.places.history; limits = site.limits; resumed = 0 } }
{
    let (station, mut seats) = site.open::<L, R>(rt).expect(rt, "a station");
    let mut seat = seats.pop().expect(rt, "the seat");
    same(rt, station.limits_met(), limits_met(false, false));
    for (call, want, journal, table) in calls {
        same(rt, answer(rt, &station, &mut seat, *call), *want);
        same(rt, station.limits_met(), limits_met(*journal, *table));
    }
    station.end(rt);
}

#[test]
fn a_station_notes_the_limits_that_calls_meet(rt: HostRuntime) {
    meet::<Brand, _>(&rt, Site::new(&rt, rt.alloc(), 2, 1, 1), &CALLS);
}

// Where both limits are reached, a frame of another aircraft meets the journal's.
#[test]
fn a_frame_meets_one_limit(rt: HostRuntime) {
    let calls = [
        (Hear(IDENTIFICATION), Ok(0), false, false),
        (Hear(VELOCITY), Err(Refusal::JournalFull), true, false),
    ];
    meet::<Brand, _>(&rt, Site::new(&rt, rt.alloc(), 1, 1, 1), &calls);
}
