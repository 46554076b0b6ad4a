//! The times of the positions that a look shows.
ghost use Rattle.std.specs.Prelude.{◌≡◌};

use super::Call::Hear;
use super::{IDENTIFICATION, look_of, once};
use crate::comparing::{holds, holds_at, same};
use crate::fakes::Site;
use station_journal::{PlacedRows, Rows};
use station_shared::{Seat, Station, StationName};
use std::marker::Brand;
use std::process::Abort;
use std::sync::Wait;

const EVEN_PLACE: &str = "*8D40621D58C382D690C8AC2863A7;";

const ODD_PLACE: &str = "*8D40621D58C386435CC412692AD6;";

// An all-call reply of 40621D, which carries no place.
const REPLY: &str = "*5D40621D4F94D0;";

// The seat ticks and hears the lines. Then it looks at 40621D with the time of its position, and at 4840D6 without.
fn sees_times<L: StationName, R: Wait + Abort>(
    rt: &R,
    station: &Station<2, L>,
    mut seat: Seat<2, L>,
    now: u64,
    lines: &[&'static str],
    placed: Option<u64>,
) -> Seat<2, L> {
    let ticked = station.tick(rt, &mut seat, now).is_ok();
    holds(rt, ticked);
    for line in lines {
        let heard = once(rt, station, &mut seat, Hear(*line)).is_ok();
        holds_at(rt, heard, line);
    }
    let look = look_of(rt, seat);
    same(rt, look.now(), now);
    assert_eq!(rt; Rows::len(&look), 2);
    let first = (Rows::row(&look, 0).address, look.placed(0));
    same(rt, first, (0x40621D, placed));
    let second = (Rows::row(&look, 1).address, look.placed(1));
    same(rt, second, (0x4840D6, None));
    look.done()
}

// Looks at a position while it ages.
fn looks_at_a_position<L: StationName, R: Wait + Abort>(rt: &R, site: Site<2>)
    requires ledger { (L.name ≡ site.blank.name) × (L.parts ≡ site.seats) × (L.seats ≡ site.seats) }
    requires start { L.start ≡ record { history = site.places.history; limits = site.limits; resumed = 0 } }
{
    let (station, mut seats) = site.open::<L, R>(rt).expect(rt, "a station");
    let mut seat = seats.pop().expect(rt, "a seat");
    let steps: [(u64, &[&str], Option<u64>); 5] = [
        (1000, &[EVEN_PLACE, IDENTIFICATION], None),
        (4000, &[ODD_PLACE], Some(4000)),
        (9000, &[REPLY, IDENTIFICATION], Some(4000)),
        (64_000, &[], Some(4000)),
        (64_001, &[], None),
    ];
    for (now, lines, placed) in steps {
        seat = sees_times(rt, &station, seat, now, lines, placed);
    }
    station.end(rt);
}

#[test]
fn a_look_has_the_time_of_a_position(rt: HostRuntime) {
    looks_at_a_position::<Brand, _>(&rt, Site::new(&rt, rt.alloc(), 16, 2, 2));
}
