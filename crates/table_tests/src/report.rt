//! Tables with known texts.

ghost use Rattle.std.specs.Prelude.{All, IsTrue};
ghost use Rattle.station_report.specs.Text.{IsPrintableRow};

mod json;
mod sinks;

use crate::comparing::{holds, same};
use modes_cpr::{Degrees, Position};
use modes_fields::Velocity;
use modes_fields::readers::{callsign, squawk};
use station_journal::Aircraft;
use station_report::table;
use std::alloc::Global;
use std::process::Abort;
use std::test::Fail;
use streams::ToWrite;

const HEADER: &str = "  ADDR CALLSIGN    ALT SQWK     VELOCITY   VERT        LAT        LON AGE\n";

// An aircraft that shows no more than its address.
const BARE: Aircraft = Aircraft {
    address: 0x4840D6,
    callsign: None,
    category: None,
    altitude: None,
    squawk: None,
    emergency: None,
    velocity: None,
    vertical: None,
    rate_source: None,
    on_ground: None,
    position: None,
    heard: 0,
};

fn identified(heard: u64) -> Aircraft {
    Aircraft {
        callsign: callsign(0x2CC371C32CE0),
        heard,
        ..BARE
    }
}

fn squawking() -> Aircraft {
    Aircraft {
        address: 0x510AF9,
        squawk: Some(squawk(0x116D)),
        ..BARE
    }
}

fn moving(address: u32, velocity: Velocity, vertical: i32) -> Aircraft {
    Aircraft {
        address,
        velocity: Some(velocity),
        vertical: Some(vertical),
        ..BARE
    }
}

fn over_ground(east: i16, north: i16) -> Aircraft {
    moving(0x485020, Velocity::Ground { east, north }, -832)
}

fn through_air(is_true: bool) -> Aircraft {
    let (heading, speed) = (694, 375);
    let air = Velocity::Air {
        heading,
        is_true,
        speed,
    };
    moving(0xA05F21, air, -2304)
}

// An aircraft on the ground, whose last altitude isn't shown.
fn taxiing(speed: u16, track: Option<u8>) -> Aircraft {
    Aircraft {
        address: 0x484175,
        altitude: Some(1000),
        velocity: Some(Velocity::Surface { speed, track }),
        on_ground: Some(true),
        ..BARE
    }
}

// An aircraft at a latitude and a longitude, each as a numerator and a denominator.
fn placed(lat: (i64, u32), lon: (i64, u32)) -> Aircraft {
    let degrees = |(num, den)| Degrees { num, den };
    Aircraft {
        position: Some(Position {
            lat: degrees(lat),
            lon: degrees(lon),
        }),
        ..BARE
    }
}

fn climbing(heard: u64) -> Aircraft {
    Aircraft {
        address: 0x40621D,
        altitude: Some(38000),
        heard,
        ..placed((404184240, 7733248), (18069840, 4587520))
    }
}

// Whether a table takes these rows: each is heard by then, and no denominator is 0.
fn are_printable(now: u64, rows: &[Aircraft]) -> bool
    ensures { IsTrue result → All (IsPrintableRow now) rows.now }
{
    rows.iter().all(|row| is_printable(now, *row))
}

fn is_printable(now: u64, row: Aircraft) -> bool
    ensures { IsTrue result → IsPrintableRow now row }
{
    let is_whole = match row.position {
        Some(position) => position.lat.den > 0 && position.lon.den > 0,
        None => true,
    };
    row.heard <= now && is_whole
}

// At this time in milliseconds, the rows are the lines of a table.
fn are_lines<const N: usize>(
    rt: &impl Abort,
    alloc: Global,
    rows: [Aircraft; N],
    now: u64,
    lines: &str,
) -> Result<(), Fail> {
    holds(rt, are_printable(now, &rows));
    let mut sink = ToWrite::new(Vec::new(alloc));
    same(
        rt,
        table(&Vec::from_array(alloc, rows)?, now, &mut sink),
        Ok(()),
    );
    let text = format!(in alloc; "now {now} aircraft {N}\n{HEADER}{lines}")?;
    same(rt, sink.into_inner().as_slice(), text.as_bytes());
    Ok(())
}

#[test]
fn each_field_has_its_column(rt: HostRuntime) -> Result<(), Fail> {
    let line = "4840D6 KLM1023       -    -            -      -          -          -  60\n";
    are_lines(&rt, rt.alloc(), [identified(1000)], 61_000, line)?;
    let rows = [
        identified(0),
        squawking(),
        over_ground(-8, -159),
        through_air(true),
        through_air(false),
        taxiing(136, Some(33)),
        taxiing(1400, Some(127)),
        taxiing(7, None),
    ];
    let lines = concat!(
        "4840D6 KLM1023       -    -            -      -          -          -   0\n",
        "510AF9 -             - 0356            -      -          -          -   0\n",
        "485020 -             -    -      -8/-159   -832          -          -   0\n",
        "A05F21 -             -    -    H694/T375  -2304          -          -   0\n",
        "A05F21 -             -    -    H694/I375  -2304          -          -   0\n",
        "484175 -        ground    -       G17/93      -          -          -   0\n",
        "484175 -        ground    -     G175/357      -          -          -   0\n",
        "484175 -        ground    -         G0/-      -          -          -   0\n",
    );
    are_lines(&rt, rt.alloc(), rows, 0, lines)
}

// Degrees are cut off, and zero has no sign. A text that is wider than its column is printed whole.
#[test]
fn altitudes_and_positions_have_their_columns(rt: HostRuntime) -> Result<(), Fail> {
    let too_wide = Aircraft {
        altitude: Some(-1000000),
        ..BARE
    };
    let rows = [
        climbing(0),
        placed((-78, 7864320), (0, 1)),
        placed((-79, 7864320), (0, 1)),
        placed((-47185920, 7864320), (0, 1)),
        placed((0, 7864320), (-1391984640, 7733248)),
        too_wide,
    ];
    let lines = concat!(
        "40621D -         38000    -            -      -   52.26578    3.93891   0\n",
        "4840D6 -             -    -            -      -    0.00000    0.00000   0\n",
        "4840D6 -             -    -            -      -   -0.00001    0.00000   0\n",
        "4840D6 -             -    -            -      -   -6.00000    0.00000   0\n",
        "4840D6 -             -    -            -      -    0.00000 -180.00000   0\n",
        "4840D6 -        -1000000    -            -      -          -          -   0\n",
    );
    are_lines(&rt, rt.alloc(), rows, 0, lines)
}

#[test]
fn a_table_without_rows_is_two_lines(rt: HostRuntime) -> Result<(), Fail> {
    are_lines(&rt, rt.alloc(), [], 0, "")
}

#[test]
fn rows_are_in_the_order_given(rt: HostRuntime) -> Result<(), Fail> {
    let other = Aircraft {
        address: 0x485020,
        ..BARE
    };
    let lines = concat!(
        "4840D6 -             -    -            -      -          -          -   0\n",
        "485020 -             -    -            -      -          -          -   0\n",
    );
    are_lines(&rt, rt.alloc(), [BARE, other], 0, lines)
}
