//! What a seat has seen, copied part by part.
ghost use Rattle.std.specs.Prelude.{◌≡◌};

use crate::comparing::{holds, same};
use crate::fakes::Site;
use station_journal::Entry;
use station_shared::StationName;
use std::marker::Brand;
use std::process::Abort;
use std::sync::Wait;

// The first of two seats ticks 5,000 times. The list has room for 300 entries.
fn tick_and_recall<L: StationName, R: Wait + Abort>(rt: &R, site: Site<2>)
    requires ledger { (L.name ≡ site.blank.name) × (L.parts ≡ site.seats) × (L.seats ≡ site.seats) }
    requires start { L.start ≡ record { history = site.places.history; limits = site.limits; resumed = 0 } }
{
    let alloc = site.alloc;
    let (station, mut seats) = site.open::<L, R>(rt).expect(rt, "a station");
    let other = seats.pop().expect(rt, "the second seat");
    let mut seat = seats.pop().expect(rt, "the first seat");
    for at in 1..=5_000 {
        let answer = station.tick(rt, &mut seat, at);
        holds(rt, answer.is_ok());
    }
    let mut part = Vec::with_capacity(alloc, 300).expect(rt, "room for a part");
    let mut from = 0u64;
    for _ in 0..17 {
        station.recall(rt, &seat, from, &mut part);
        for entry in &part {
            from = from.saturating_add(1);
            same(rt, *entry, Entry::Tick { seat: 0, at: from });
        }
    }
    same(rt, (from, part.len()), (5_000, 200));
    station.recall(rt, &seat, 5_000, &mut part);
    holds(rt, part.is_empty());
    station.recall(rt, &other, 0, &mut part);
    holds(rt, part.is_empty());
    station.end(rt);
}

#[test]
fn a_seat_recalls_all_that_it_has_seen(rt: HostRuntime) {
    tick_and_recall::<Brand, _>(&rt, Site::new(&rt, rt.alloc(), 8_192, 2, 2));
}
