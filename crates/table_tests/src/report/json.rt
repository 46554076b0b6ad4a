//! Tables as JSON, with known texts.

ghost use Rattle.std.specs.Prelude.{All};
ghost use Rattle.station_report.specs.Text.{IsPrintableRow};

use super::{
    BARE, climbing, identified, is_printable, over_ground, placed, squawking, taxiing, through_air,
};
use crate::comparing::{holds, holds_at, same_at};
use modes_fields::{Category, CategorySet, Emergency, RateSource};
use station_journal::{Aircraft, Rows};
use station_report::{PlacedRows, table_json};
use std::alloc::Global;
use std::process::Abort;
use std::test::Fail;
use streams::ToWrite;

// A table of one row, and the time of its position.
#[derive(Drop)]
struct One(Aircraft, Option<u64>);

impl Rows for One {
    ghost use Rattle.std.specs.Prelude.{[], ◌∷◌};

    ghost rows = { λ r. r.0 ∷ [] };

    fn len(&self) -> usize {
        1
    }

    fn row(&self, _i: usize) -> Aircraft {
        self.0
    }
}

impl PlacedRows for One {
    ghost use Rattle.std.specs.Prelude.{[], ◌∷◌};

    ghost moments = { λ r. r.1 ∷ [] };

    fn placed(&self, _i: usize) -> Option<u64> {
        self.1
    }
}

// A table of two rows without positions.
#[derive(Drop)]
struct Two(Aircraft, Aircraft);

impl Rows for Two {
    ghost use Rattle.std.specs.Prelude.{[], ◌∷◌};

    ghost rows = { λ r. r.0 ∷ r.1 ∷ [] };

    fn len(&self) -> usize {
        2
    }

    fn row(&self, i: usize) -> Aircraft {
        if i == 0 { self.0 } else { self.1 }
    }
}

impl PlacedRows for Two {
    ghost use Rattle.std.specs.Prelude.{[], ◌∷◌, None};

    ghost moments = { λ r. None ∷ None ∷ [] };

    fn placed(&self, _i: usize) -> Option<u64> {
        None
    }
}

// At a time in milliseconds, over an origin and with a number of entries, the table is this line.
fn is_line<R: PlacedRows>(
    rt: &impl Abort,
    alloc: Global,
    rows: &R,
    now: u64,
    origin: u64,
    entries: u64,
    line: &str,
)
    requires { All (IsPrintableRow now) (R.rows rows.now) }
{
    let mut sink = ToWrite::new(Vec::new(alloc));
    let written = table_json(rows, now, origin, entries, &mut sink);
    same_at(rt, written, Ok(()), line);
    same_at(rt, sink.into_inner().as_slice(), line.as_bytes(), line);
}

// An aircraft, the time of its position, and the time at which its table is written in milliseconds and in seconds. Then
// its object there.
type Row<'a> = ((Aircraft, Option<u64>, u64, &'a str), &'a str);

fn have_their_objects(rt: &impl Abort, alloc: Global, rows: &[Row<'_>]) -> Result<(), Fail> {
    for ((aircraft, at, now, seconds), object) in rows {
        let line = format!(in alloc;
            "{{\"now\":{seconds},\"messages\":7,\"aircraft\":[{object}]}}\n"
        )?;
        holds_at(rt, is_printable(*now, *aircraft), object);
        let table = One(*aircraft, *at);
        is_line(rt, alloc, &table, *now, 0, 7, line.as_str());
    }
    Ok(())
}

#[test]
fn callsigns_and_squawks_have_their_members(rt: HostRuntime) -> Result<(), Fail> {
    let rows = [
        (
            (identified(1000), None, 61_000, "61.000"),
            r#"{"hex":"4840d6","flight":"KLM1023","rssi":-49.5,"seen":60.000}"#,
        ),
        (
            (squawking(), None, 1, "0.001"),
            r#"{"hex":"510af9","squawk":"0356","rssi":-49.5,"seen":0.001}"#,
        ),
    ];
    have_their_objects(&rt, rt.alloc(), &rows)
}

#[test]
fn velocities_have_their_members(rt: HostRuntime) -> Result<(), Fail> {
    let rows = [
        (
            (over_ground(-8, -159), None, 0, "0.000"),
            r#"{"hex":"485020","gs":159.2,"speed":159,"track":183,"baro_rate":-832,"vert_rate":-832,"rssi":-49.5,"seen":0.000}"#,
        ),
        (
            (over_ground(0, 0), None, 0, "0.000"),
            r#"{"hex":"485020","gs":0.0,"speed":0,"baro_rate":-832,"vert_rate":-832,"rssi":-49.5,"seen":0.000}"#,
        ),
        (
            (through_air(true), None, 0, "0.000"),
            r#"{"hex":"a05f21","mag_heading":243.9,"tas":375,"baro_rate":-2304,"vert_rate":-2304,"rssi":-49.5,"seen":0.000}"#,
        ),
        (
            (through_air(false), None, 0, "0.000"),
            r#"{"hex":"a05f21","mag_heading":243.9,"ias":375,"baro_rate":-2304,"vert_rate":-2304,"rssi":-49.5,"seen":0.000}"#,
        ),
    ];
    have_their_objects(&rt, rt.alloc(), &rows)
}

#[test]
fn aircraft_on_the_ground_have_their_members(rt: HostRuntime) -> Result<(), Fail> {
    let rows = [
        (
            (taxiing(14, Some(64)), None, 0, "0.000"),
            r#"{"hex":"484175","alt_baro":"ground","altitude":"ground","gs":1.7,"speed":1,"track":180,"rssi":-49.5,"seen":0.000}"#,
        ),
        (
            (taxiing(1, None), None, 0, "0.000"),
            r#"{"hex":"484175","alt_baro":"ground","altitude":"ground","gs":0.1,"speed":0,"rssi":-49.5,"seen":0.000}"#,
        ),
    ];
    have_their_objects(&rt, rt.alloc(), &rows)
}

// A rate, and what measured it.
fn sinking(source: RateSource) -> Aircraft {
    Aircraft {
        vertical: Some(-832),
        rate_source: Some(source),
        ..BARE
    }
}

#[test]
fn rates_have_the_key_of_their_source(rt: HostRuntime) -> Result<(), Fail> {
    let rows = [
        (
            (sinking(RateSource::Gnss), None, 0, "0.000"),
            r#"{"hex":"4840d6","geom_rate":-832,"vert_rate":-832,"rssi":-49.5,"seen":0.000}"#,
        ),
        (
            (sinking(RateSource::Barometric), None, 0, "0.000"),
            r#"{"hex":"4840d6","baro_rate":-832,"vert_rate":-832,"rssi":-49.5,"seen":0.000}"#,
        ),
    ];
    have_their_objects(&rt, rt.alloc(), &rows)
}

// Both are after the time of the position, and before that of the newest frame. A report of none has no member.
#[test]
fn categories_and_emergencies_have_their_members(rt: HostRuntime) -> Result<(), Fail> {
    let set = CategorySet::A;
    let category = Some(Category { set, number: 3 });
    let aircraft = Aircraft { category, ..west() };
    let distressed = Aircraft {
        emergency: Some(Emergency::General),
        ..aircraft
    };
    let relieved = Aircraft {
        emergency: Some(Emergency::NoEmergency),
        ..aircraft
    };
    let rows = [
        (
            (distressed, Some(50), 50, "0.050"),
            r#"{"hex":"4840d6","lat":-0.00001,"lon":-180.00000,"seen_pos":0.000,"category":"A3","emergency":"general","rssi":-49.5,"seen":0.050}"#,
        ),
        (
            (relieved, None, 0, "0.000"),
            r#"{"hex":"4840d6","lat":-0.00001,"lon":-180.00000,"category":"A3","rssi":-49.5,"seen":0.000}"#,
        ),
    ];
    have_their_objects(&rt, rt.alloc(), &rows)
}

// An aircraft just south of the equator, at 180 degrees.
fn west() -> Aircraft {
    placed((-79, 7864320), (-1391984640, 7733248))
}

// A time that is to come is 0 seconds ago, and one that isn't known has no member.
#[test]
fn positions_have_their_times(rt: HostRuntime) -> Result<(), Fail> {
    let rows = [
        (
            (climbing(1000), Some(0), 1234, "1.234"),
            r#"{"hex":"40621d","alt_baro":38000,"altitude":38000,"lat":52.26578,"lon":3.93891,"seen_pos":1.234,"rssi":-49.5,"seen":0.234}"#,
        ),
        (
            (west(), Some(60), 50, "0.050"),
            r#"{"hex":"4840d6","lat":-0.00001,"lon":-180.00000,"seen_pos":0.000,"rssi":-49.5,"seen":0.050}"#,
        ),
        (
            (west(), None, 0, "0.000"),
            r#"{"hex":"4840d6","lat":-0.00001,"lon":-180.00000,"rssi":-49.5,"seen":0.000}"#,
        ),
        (
            (BARE, Some(0), 0, "0.000"),
            r#"{"hex":"4840d6","rssi":-49.5,"seen":0.000}"#,
        ),
    ];
    have_their_objects(&rt, rt.alloc(), &rows)
}

#[test]
fn two_aircraft_have_a_comma_between_them(rt: HostRuntime) {
    let table = Two(BARE, squawking());
    let are_printable = is_printable(1234, table.0) && is_printable(1234, table.1);
    holds(&rt, are_printable);
    let line = concat!(
        r#"{"now":1700000001.234,"messages":3,"aircraft":["#,
        r#"{"hex":"4840d6","rssi":-49.5,"seen":1.234},"#,
        "{\"hex\":\"510af9\",\"squawk\":\"0356\",\"rssi\":-49.5,\"seen\":1.234}]}\n",
    );
    is_line(&rt, rt.alloc(), &table, 1234, 1_700_000_000_000, 3, line);
}

#[test]
fn the_sum_of_the_largest_times_does_not_wrap(rt: HostRuntime) {
    let heard_last = Aircraft {
        heard: u64::MAX,
        ..BARE
    };
    let line = concat!(
        r#"{"now":36893488147419103.230,"messages":18446744073709551615,"aircraft":["#,
        "{\"hex\":\"4840d6\",\"rssi\":-49.5,\"seen\":0.000}]}\n",
    );
    let (table, largest) = (One(heard_last, None), u64::MAX);
    holds(&rt, is_printable(largest, table.0));
    is_line(&rt, rt.alloc(), &table, largest, largest, largest, line);
}
