//! Positions round a reference, and surface places, with values from outside.

use crate::comparing::{same, same_at};
use crate::known::place;
use modes_cpr::{Degrees, Position, Reference, surface_encode, surface_pair};
use modes_fields::Place;

// An even and an odd surface place.
#[derive(Clone, Copy)]
struct Pair {
    even: Place,
    odd: Place,
}

// The pair with these bins of latitude and longitude.
fn pair_of(even: (u32, u32), odd: (u32, u32)) -> Pair {
    Pair {
        even: place(false, even.0, even.1),
        odd: place(true, odd.0, odd.1),
    }
}

// A numerator, and the number of zones: the denominator is 2^17 times this.
type Angle = (i64, u8);

fn degrees(angle: Angle) -> Degrees {
    let (num, zones) = angle;
    let den = u32::from(zones) * 131_072;
    Degrees { num, den }
}

// Where the pair is round a reference in 1/10,000,000 degree.
fn located(pair: Pair, newest_odd: bool, reference: (i32, i32)) -> Option<Position> {
    let (lat, lon) = reference;
    surface_pair(pair.even, pair.odd, newest_odd, Reference { lat, lon })
}

fn at(lat: Angle, lon: Angle) -> Option<Position> {
    Some(Position {
        lat: degrees(lat),
        lon: degrees(lon),
    })
}

#[test]
fn the_reference_decides_between_points(rt: HostRuntime) {
    // "The 1090 MHz Riddle": 52.320607, 4.734735 with the odd place as the newest.
    let riddle = pair_of((115609, 116941), (39199, 110269));
    for (odd, reference, lat, lon) in [
        (
            true,
            (519_900_000, 43_750_000),
            (404_608_230, 59),
            (21_720_690, 35),
        ),
        // 52.323040, 4.730473
        (
            false,
            (519_900_000, 43_750_000),
            (411_485_130, 60),
            (22_321_170, 36),
        ),
        // -37.679393, 5.559037
        (
            true,
            (-380_000_000, 43_750_000),
            (-291_384_090, 59),
            (33_517_170, 46),
        ),
        // 52.320607, 94.734735
        (
            true,
            (520_000_000, 1_000_000_000),
            (404_608_230, 59),
            (434_597_490, 35),
        ),
    ] {
        same_at(&rt, located(riddle, odd, reference), at(lat, lon), lat.0);
    }
}

#[test]
fn positions_in_the_south_and_beyond_the_antimeridian(rt: HostRuntime) {
    // At Guarulhos: -23.430323, -46.467374.
    let guarulhos = pair_of((49756, 79079), (83902, 15673));
    let found = located(guarulhos, true, (-234_265_000, -464_816_000));
    same(&rt, found, at((-181_192_500, 59), (-328_890_870, 54)));
    // -17.499999, -179.989995, from a reference west of the antimeridian.
    let fiji = pair_of((43691, 830), (69177, 816));
    let found = located(fiji, true, (-177_000_000, 1_799_000_000));
    same(&rt, found, at((-135_331_830, 59), (-1_321_132_320, 56)));
    let found = located(fiji, false, (-177_000_000, 1_799_000_000));
    same(&rt, found, at((-137_625_570, 60), (-1_344_724_020, 57)));
}

#[test]
fn a_latitude_beyond_a_pole_is_no_position(rt: HostRuntime) {
    // The places of 10 degrees north, 0 east. From 80 degrees north the nearest latitude is 100.
    let north = pair_of((87381, 0), (72818, 0));
    for odd in [false, true] {
        same_at(&rt, located(north, odd, (800_000_000, 0)), None, odd);
    }
}

#[test]
fn of_two_latitudes_as_near_the_greater_is_taken(rt: HostRuntime) {
    let zero = pair_of((0, 0), (0, 0));
    for (reference, latitude, zones) in [
        (449_999_999, 0, 59),
        (450_000_000, 90, 1),
        (-450_000_000, 0, 59),
        (-450_000_001, -90, 1),
    ] {
        let want = at((latitude * 7_864_320, 60), (0, zones));
        same_at(&rt, located(zero, false, (reference, 0)), want, reference);
    }
}

#[test]
fn of_two_longitudes_as_near_the_greater_is_taken(rt: HostRuntime) {
    let zero = pair_of((0, 0), (0, 0));
    for (reference, longitude) in [
        (-1_800_000_000, -180),
        (-450_000_001, -90),
        (-450_000_000, 0),
        (449_999_999, 0),
        (450_000_000, 90),
        (1_349_999_999, 90),
        // 180 degrees are -180
        (1_350_000_000, -180),
        (1_800_000_000, -180),
    ] {
        let want = at((0, 60), (longitude * 7_733_248, 59));
        same_at(&rt, located(zero, false, (0, reference)), want, reference);
    }
}

#[test]
fn a_point_on_the_ground_is_sent_as_the_nearest_bins(rt: HostRuntime) {
    for (lat, lon, odd, bins) in [
        // What decodes to "The 1090 MHz Riddle"'s position is sent as its newest place.
        (
            (52_320_607, 1_000_000),
            (4_734_735, 1_000_000),
            true,
            (39199, 110269),
        ),
        // 17.5 degrees south, 179.99 west
        ((-35, 2), (-17_999, 100), false, (43691, 830)),
        ((-35, 2), (-17_999, 100), true, (69177, 816)),
        // The poles: whole zones aren't sent.
        ((90, 1), (0, 1), false, (0, 0)),
        ((-90, 1), (0, 1), true, (0, 0)),
    ] {
        let degrees = |(num, den)| Degrees { num, den };
        let (lat, lon) = (degrees(lat), degrees(lon));
        assert!(rt; lat.den > 0 && lat.num.unsigned_abs() <= 90 * u64::from(lat.den));
        assert!(rt; lon.den > 0 && lon.num.unsigned_abs() <= 360 * u64::from(lon.den));
        let want = place(odd, bins.0, bins.1);
        same_at(&rt, surface_encode(lat, lon, odd), want, want.lat);
    }
}
