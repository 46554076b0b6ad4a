//! The record of a long journal, written portion by portion.
ghost use Rattle.std.specs.Prelude.{◌≡◌, length};
ghost use Rattle.station_history.specs.History.{base_of};

use super::look_of;
use crate::comparing::{holds, same};
use crate::fakes::new_places;
use station_desk::Places;
use station_journal::Limits;
use station_record::{RecordRoom, write_seen};
use station_shared::{Seat, Station, StationName};
use std::alloc::Global;
use std::marker::Brand;
use std::process::Abort;
use std::sync::Wait;
use std::sync::ledger::Blank;
use streams::ToWrite;

const MANY: Limits = Limits {
    entries: 131_072,
    aircraft: 2,
    site: None,
};

// The lines of the ticks after the first `recorded`, and the one that asks for the table where that is shown.
fn lines_after(
    rt: &impl Abort,
    alloc: Global,
    recorded: u64,
    count: u64,
    is_shown: bool,
) -> String {
    let mut text = String::new(alloc);
    for at in recorded..count {
        let line = format!(in alloc; "+{}\n", at.saturating_add(1)).expect(rt, "a line");
        text.push_str(line.as_str()).expect(rt, "room for a line");
    }
    let asks = if is_shown { "?\n" } else { "" };
    text.push_str(asks).expect(rt, "room for a line");
    text
}

// Writes what the seat has seen beyond the first `recorded` entries. There is room for fewer of them at once.
fn writes_the_rest<L: StationName, R: Wait + Abort>(
    rt: &R,
    alloc: Global,
    station: &Station<2, L>,
    seat: &Seat<2, L>,
    recorded: u64,
    count: u64,
    is_shown: bool,
    room: &mut RecordRoom,
)
    requires { count ≡ length seat.now.seen }
{
    let mut sink = ToWrite::new(Vec::<u8>::new(alloc));
    let written = write_seen(
        rt, station, seat, recorded, count, is_shown, room, &mut sink,
    );
    same(rt, written, Ok(()));
    let lines = lines_after(rt, alloc, recorded, count, is_shown);
    holds(rt, sink.into_inner().as_slice() == lines.as_bytes());
}

// The first of two seats ticks 70,000 times.
fn tick_and_write<L: StationName, R: Wait + Abort>(
    rt: &R,
    alloc: Global,
    blank: Blank,
    places: Places<2>,
)
    requires ledger { (blank.name ≡ L.name) × (blank.parts ≡ L.parts) }
    requires seats { (L.parts ≡ 2) × (L.seats ≡ 2) × (places.places ≡ 2) }
    requires start { (L.start.history ≡ places.history) × (L.start.resumed ≡ 0) }
    requires base { base_of places.history ≡ 0 }
    requires limits { L.start.limits ≡ record { entries = 131072; aircraft = 2; site = None } }
{
    let Ok((station, mut seats)) = Station::<2, L>::new(rt, alloc, MANY, 2, blank, places) else {
        panic!(rt; "no station");
    };
    let _other = seats.pop().expect(rt, "the second seat");
    let mut seat = seats.pop().expect(rt, "the first seat");
    for at in 1..=70_000 {
        let answer = station.tick(rt, &mut seat, at);
        holds(rt, answer.is_ok());
    }
    let look = look_of(rt, seat);
    let count = look.entries();
    same(rt, count, 70_000);
    let seat = look.done();
    let mut room = RecordRoom::new(alloc, 16_384).expect(rt, "room for a portion");
    for (recorded, is_shown) in [(0, true), (20_000, true), (69_998, false), (69_999, true)] {
        writes_the_rest(
            rt, alloc, &station, &seat, recorded, count, is_shown, &mut room,
        );
    }
    station.end(rt);
}

#[test]
fn a_record_has_all_that_a_seat_has_seen(rt: HostRuntime) {
    let places = new_places(&rt, rt.alloc(), 2);
    tick_and_write::<Brand, _>(&rt, rt.alloc(), Blank::new(2), places);
}
