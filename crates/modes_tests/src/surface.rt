//! Surface positions of known frames, and the speeds of movement codes.

use crate::comparing::{same, same_at};
use crate::known::{frame, place};
use modes_fields::readers::{carried, fields, velocity};
use modes_fields::{Carried, Fields, Surface, Velocity, movement_speed};
use std::test::Fail;

// The first and the last movement code of each range of steps, and for both the least speed of its step, in eighths of a
// knot (ICAO Doc 9871, register 06).
const RANGES: [(u16, u16, u16, u16); 8] = [
    (1, 1, 0, 0),
    (2, 8, 1, 7),
    (9, 12, 8, 14),
    (13, 38, 16, 116),
    (39, 93, 120, 552),
    (94, 108, 560, 784),
    (109, 123, 800, 1360),
    (124, 124, 1400, 1400),
];

#[test]
fn movement_codes_say_a_speed(rt: HostRuntime) {
    for (first, last, slowest, fastest) in RANGES {
        same_at(&rt, movement_speed(first), Some(slowest), first);
        same_at(&rt, movement_speed(last), Some(fastest), last);
    }
    for (code, speed) in [(3, 2), (10, 10), (14, 20), (40, 128), (95, 576), (110, 840)] {
        same_at(&rt, movement_speed(code), Some(speed), code);
    }
}

#[test]
fn other_movement_codes_say_no_speed(rt: HostRuntime) {
    for code in [0, 125, 126, 127, 128, 0xFFFF] {
        same_at(&rt, movement_speed(code), None, code);
    }
}

// A surface position in the even or the odd grid.
fn taxiing(speed: u16, track: Option<u8>, odd: bool, lat: u32, lon: u32) -> Surface {
    Surface {
        velocity: Some(Velocity::Surface { speed, track }),
        place: place(odd, lat, lon),
    }
}

// A surface position whose movement code says no speed.
fn placed(odd: bool, lat: u32, lon: u32) -> Surface {
    Surface {
        velocity: None,
        place: place(odd, lat, lon),
    }
}

// "The 1090 MHz Riddle": 18, 16 and 17 knots, and tracks of 140.6, 98.4 and 92.8 degrees.
const EVEN: &str = "*8C4841753AAB238733C8CD4020B1;";

const ODD: &str = "*8C4841753A8A35323FAEBDAC702D;";

const LATER: &str = "*8C4841753A9A153237AEF0F275BE;";

// A test of pyModeS: 19 knots, 42.2 degrees.
const NORTH_EAST: &str = "*8FC8200A3AB8F5F893096B000000;";

#[test]
fn frames_on_the_ground_say_velocity_and_place(rt: HostRuntime) -> Result<(), Fail> {
    for (line, want) in [
        (EVEN, taxiing(144, Some(50), false, 115609, 116941)),
        (ODD, taxiing(128, Some(35), true, 39199, 110269)),
        (LATER, taxiing(136, Some(33), true, 39195, 110320)),
        (NORTH_EAST, taxiing(152, Some(15), true, 64585, 67947)),
    ] {
        let frame = frame(line)?;
        let all = Fields {
            surface: Some(want),
            ..Fields::default()
        };
        same_at(&rt, fields(&frame), all, line);
        same_at(&rt, carried(&frame), Carried::SurfacePosition(want), line);
        same_at(&rt, velocity(&frame), None, line);
    }
    Ok(())
}

#[test]
fn speed_and_track_may_be_absent(rt: HostRuntime) -> Result<(), Fail> {
    for (line, want) in [
        // a movement code of 0, and no track
        ("*8D4840D6280000000000003EFA54;", placed(false, 0, 0)),
        // bit 13 is 0: no track
        (
            "*903C0003391003851FCAC1D515C5;",
            taxiing(32, None, false, 115343, 117441),
        ),
        // a track of 5/128 of a turn without a speed
        (
            "*903C000338085531D7AFC9E16975;",
            placed(true, 39147, 110537),
        ),
    ] {
        same_at(&rt, fields(&frame(line)?).surface, Some(want), line);
    }
    Ok(())
}

#[test]
fn frames_say_the_least_speed_of_a_step(rt: HostRuntime) -> Result<(), Fail> {
    // Movement codes 0, 1, 2, 12, 124 and 125, with a track of half a turn.
    for (line, speed) in [
        ("*8C3C0003380C03851FCAC1000000;", None),
        ("*8C3C0003381C03851FCAC1000000;", Some(0)),
        ("*8C3C0003382C03851FCAC1000000;", Some(1)),
        ("*8C3C000338CC03851FCAC1000000;", Some(14)),
        ("*8C3C00033FCC03851FCAC1000000;", Some(1400)),
        ("*8C3C00033FDC03851FCAC1000000;", None),
    ] {
        let want = match speed {
            Some(speed) => taxiing(speed, Some(64), false, 115343, 117441),
            None => placed(false, 115343, 117441),
        };
        same_at(&rt, fields(&frame(line)?).surface, Some(want), line);
    }
    Ok(())
}

#[test]
fn type_codes_5_to_8_are_surface_positions(rt: HostRuntime) -> Result<(), Fail> {
    let want = Some(taxiing(144, Some(50), false, 115609, 116941));
    for line in [
        "*8C4841752AAB238733C8CD000000;",
        "*8C48417532AB238733C8CD000000;",
        "*8C4841753AAB238733C8CD000000;",
        "*8C48417542AB238733C8CD000000;",
        // DF 18 with control field 0
        "*904841753AAB238733C8CD000000;",
    ] {
        same_at(&rt, fields(&frame(line)?).surface, want, line);
    }
    // DF 18 with control field 1
    let other = frame("*914841753AAB238733C8CD000000;")?;
    same(&rt, fields(&other).surface, None);
    Ok(())
}
