//! The table as JSON.

ghost use Rattle.std.specs.Prelude.{◌≡◌, ◌++◌, All, if◌then◌else◌, codes, []};
ghost use Rattle.streams.specs.Sink.{TakesAll};
ghost use Rattle.station_report.specs.Text.{IsPrintableRow};
ghost use Rattle.station_report.specs.Json.{object, head, json};

mod members;
mod numbers;
mod status;

use crate::decimals::{push_number, push_text};
use members::{
    Object, push_altitude, push_flight, push_place, push_rate, push_squawk, push_velocity,
};
use numbers::{push_low_address, push_seconds, push_sum};
use station_journal::{Aircraft, PlacedRows};
use status::{push_category, push_emergency, push_level};
use streams::{Sink, WriteFault, write_all};

/// Writes the table of `rows` as a line of JSON, with the keys of aircraft.json of readsb and dump1090.
///
/// `now` is the time of the table in milliseconds after `origin`, which the line counts from 0: its `now` is their sum.
/// `entries` is its `messages`. Each row must be heard by `now`, and its position must have denominators of at least 1.
///
/// [`WriteFault`] where the sink failed: it has taken a prefix of the line, and is given no more.
pub fn table_json<R: PlacedRows, S: Sink>(
    rows: &R,
    now: u64,
    origin: u64,
    entries: u64,
    out: &mut S,
) -> Result<(), WriteFault>
    requires rows { All (IsPrintableRow now) (R.rows rows.now) }
    ensures { TakesAll (S.state out.old) (S.state out.new)
        (json (R.rows rows.now) (R.moments rows.now) now origin entries) result }
{
    write_all(out, head(origin, now, entries).as_slice())?;
    for i in 0..rows.len() {
        let text = item(i == 0, now, rows.row(i), rows.placed(i));
        write_all(out, text.as_slice())?;
    }
    write_all(out, b"]}\n")?;
    Ok(())
}

#[tactic(auto, unfolding(crate::specs::Json::head))]
fn head(origin: u64, now: u64, entries: u64) -> Object
    ensures { result.items ≡ head origin now entries }
{
    let mut text = Object::new();
    push_text(&mut text, b"{\"now\":");
    push_sum(&mut text, origin, now);
    push_text(&mut text, b",\"messages\":");
    push_number(&mut text, entries);
    push_text(&mut text, b",\"aircraft\":[");
    text
}

// An aircraft, behind a comma if it isn't the first.
#[tactic(auto, unfolding(crate::specs::Json::object))]
fn item(is_first: bool, now: u64, aircraft: Aircraft, placed: Option<u64>) -> Object
    requires { IsPrintableRow now aircraft }
    ensures { result.items ≡ (if is_first then [] else codes ",") ++ object now (aircraft, placed) }
{
    let mut item = Object::new();
    push_text(&mut item, if is_first { b"" } else { b"," });
    push_text(&mut item, b"{\"hex\":\"");
    push_low_address(&mut item, aircraft.address);
    push_text(&mut item, b"\"");
    push_flight(&mut item, aircraft.callsign);
    push_altitude(&mut item, aircraft.on_ground, aircraft.altitude);
    push_velocity(&mut item, aircraft.velocity);
    push_rate(&mut item, aircraft.rate_source, aircraft.vertical);
    push_squawk(&mut item, aircraft.squawk);
    push_place(&mut item, now, placed, aircraft.position);
    push_category(&mut item, aircraft.category);
    push_emergency(&mut item, aircraft.emergency);
    push_level(&mut item);
    push_text(&mut item, b",\"seen\":");
    push_seconds(&mut item, now - aircraft.heard);
    push_text(&mut item, b"}");
    item
}
