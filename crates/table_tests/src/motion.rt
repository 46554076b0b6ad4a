//! Speed and track over ground.

use station_report::{speed_tenths, track};

#[test]
fn tracks_are_degrees_from_north_by_east(rt: HostRuntime) {
    // Knots to the east and to the north, and the track: the nearest whole degree.
    for (east, north, degrees) in [
        (0, 5, Some(0)),
        (1, 1, Some(45)),
        (5, 0, Some(90)),
        (1, -1, Some(135)),
        (0, -5, Some(180)),
        (-8, -159, Some(183)),
        (-1, -1, Some(225)),
        (-5, 0, Some(270)),
        (-1, 1, Some(315)),
        (0, 0, None),
        // The angle whose tangent is 1/114 is above half a degree, and that of 1/115 below.
        (1, 114, Some(1)),
        (1, 115, Some(0)),
        (-1, 115, Some(0)),
        (-1, 114, Some(359)),
        (114, 1, Some(89)),
        (115, 1, Some(90)),
        (-115, -1, Some(270)),
        (1, -115, Some(180)),
        (4088, 4087, Some(45)),
        (-32768, -32768, Some(225)),
    ] {
        assert_eq!(rt; track(east, north), degrees, "{east}/{north}");
    }
}

#[test]
fn speeds_are_tenths_of_a_knot_rounded_down(rt: HostRuntime) {
    for (east, north, tenths) in [
        (0, 0, 0),
        (3, -4, 50),
        (-8, -159, 1592),
        (1, 1, 14),
        (-4088, 4088, 57813),
        (-32768, -32768, 463409),
    ] {
        assert_eq!(rt; speed_tenths(east, north), tenths, "{east}/{north}");
    }
}
