//! Positions, zones and places with values from outside.

use crate::comparing::same_at;
use crate::known::place;
use modes_cpr::{Degrees, Position, encode, pair, zones};

// An angle whose denominator is this number of zones of 2^17 bins.
fn angle(num: i64, zones: u8) -> Degrees {
    let den = u32::from(zones) * 131_072;
    Degrees { num, den }
}

#[test]
fn positions_of_pairs(rt: HostRuntime) {
    // The bins of the even place and of the odd one, whether the odd place is the newest, and the latitude and the
    // longitude of the position.
    for (even, odd, newest_odd, lat, lon) in [
        ((65536, 0), (33860, 0), false, (87 * 7864320, 60), (0, 2)),
        ((0, 0), (2185, 0), false, (-47185920, 60), (0, 59)),
        ((0, 65536), (0, 0), false, (0, 60), (-1391984640, 59)),
        ((0, 0), (32768, 0), false, (-90 * 7864320, 60), (0, 1)),
        (
            (93000, 51372),
            (74158, 50194),
            true,
            (404184240, 59),
            (18069840, 35),
        ),
        // Half a zone is rounded up: (59 * 1124 - 60 * 13)/2^17 = 1/2, so the index is 1, and the even latitude
        // 6 (1 + 1124/2^17), which is 360 (131072 + 1124)/(60 * 2^17).
        ((1124, 0), (13, 0), false, (360 * 132_196, 60), (0, 59)),
        ((1124, 0), (13, 0), true, (360 * 131_085, 59), (0, 58)),
    ] {
        let (even, odd) = (place(false, even.0, even.1), place(true, odd.0, odd.1));
        let (lat, lon) = (angle(lat.0, lat.1), angle(lon.0, lon.1));
        let want = Some(Position { lat, lon });
        assert_eq!(rt; pair(even, odd, newest_odd), want, "{even:?}, {odd:?}");
    }
}

#[test]
fn pairs_without_a_position(rt: HostRuntime) {
    // The bins of the even latitude and of the odd one, and whether the odd place is the newest.
    for (even, odd, newest_odd) in [
        // A latitude beyond a pole.
        (0, 43691, false),
        // The even latitude has more longitude zones than the odd one.
        (97658, 93847, false),
        // The odd latitude has more: the even one, 6 (1 + 97659/2^17) = 10.470474, has 58, and the odd one,
        // 360/59 (1 + 93846/2^17) = 10.470436, has 59. The number falls at 10.4704713.
        (97659, 93846, false),
        (97659, 93846, true),
    ] {
        let position = pair(place(false, even, 0), place(true, odd, 0), newest_odd);
        same_at(&rt, position, None, odd);
    }
}

#[test]
fn a_point_is_sent_as_the_nearest_bins(rt: HostRuntime) {
    // The fractions of the latitude and the longitude, whether the grid is the odd one, and the bins.
    for (lat, lon, odd, want) in [
        ((87, 1), (0, 1), false, (65536, 0)),
        ((87, 1), (0, 1), true, (33860, 0)),
        ((-6, 1), (0, 1), true, (2185, 0)),
        ((0, 1), (-180, 1), false, (0, 65536)),
        ((0, 1), (-180, 1), true, (0, 0)),
        ((5999999, 1000000), (0, 1), false, (0, 0)),
        (
            (404184240, 7733248),
            (18069840, 4587520),
            true,
            (74158, 50194),
        ),
        // Half a bin is rounded up. 3/131072 degrees are half of the first bin of 6/131072 degrees, and
        // 180/(59 * 131072) half of the first bin where there are 59 zones.
        ((3, 131072), (180, 7733248), false, (1, 1)),
        // The rounded latitude decides the zones. 10.47046 degrees have 59; the nearest bin, 97659, is 10.470474
        // degrees, which have 58. At 90 degrees east 58 zones give bin 1/2 * 2^17, and 59 would give 3/4 * 2^17.
        ((1047046, 100000), (90, 1), false, (97659, 65536)),
    ] {
        let degrees = |(num, den)| Degrees { num, den };
        let (lat, lon) = (degrees(lat), degrees(lon));
        assert!(rt; lat.den > 0 && lat.num.unsigned_abs() <= 90 * u64::from(lat.den));
        assert!(rt; lon.den > 0 && lon.num.unsigned_abs() <= 360 * u64::from(lon.den));
        let want = place(odd, want.0, want.1);
        assert_eq!(rt; encode(lat, lon, odd), want, "{lat:?}, {lon:?}");
    }
}

#[test]
fn zones_of_latitudes(rt: HostRuntime) {
    for (degrees, want) in [(0_i64, 59), (87, 2), (-87, 2), (90, 1)] {
        assert!(rt; degrees.unsigned_abs() <= 90);
        same_at(&rt, zones(degrees, 1), want, degrees);
    }
}

// The latitudes at which the number of longitude zones falls by one, in 1/100,000,000 degree.
const LATITUDES: [u64; 58] = [
    1047047130, 1482817437, 1818626357, 2102939493, 2354504487, 2582924707, 2793898710, 2991135686,
    3177209708, 3353993436, 3522899598, 3685025108, 3841241892, 3992256684, 4138651832, 4280914012,
    4419454951, 4554626723, 4686733252, 4816039128, 4942776439, 5067150166, 5189342469, 5309516153,
    5427817472, 5544378444, 5659318756, 5772747354, 5884763776, 5995459277, 6104917774, 6213216659,
    6320427479, 6426616523, 6531845310, 6636171008, 6739646774, 6842322022, 6944242631, 7045451075,
    7145986473, 7245884545, 7345177442, 7443893416, 7542056257, 7639684391, 7736789461, 7833374083,
    7929428225, 8024923213, 8119801349, 8213956981, 8307199445, 8399173563, 8489166191, 8575541621,
    8653536998, 8700000000,
];

#[test]
fn the_greater_number_of_zones_holds_at_each_transition(rt: HostRuntime) {
    for (k, latitude) in LATITUDES.iter().enumerate() {
        assert!(rt; *latitude <= 8_700_000_000);
        let num = *latitude as i64;
        assert_eq!(rt; zones(num, 100_000_000) as usize + k, 59);
        assert_eq!(rt; zones(-num, 100_000_000) as usize + k, 59);
        assert_eq!(rt; zones(num + 1, 100_000_000) as usize + k, 58);
    }
}
