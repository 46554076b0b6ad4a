//! The lines of the table.

ghost use Rattle.std.specs.Prelude.{◌≡◌, ◌+◌, ◌≤◌, ◌++◌, ◌∷◌, [], All};
ghost use Rattle.arrayvec.specs.ArrayVec.{array_vec_len};
ghost use Rattle.streams.specs.Sink.{TakesAll};
ghost use Rattle.station_report.specs.Text.{IsPrintableRow, right, header, first_line, row_text, text};

use crate::columns::{
    address_field, altitude_field, callsign_field, decimal_field, latitude_field, longitude_field,
    or_dash, signed_field, squawk_field, velocity_field,
};
use crate::decimals::{Field, push_number, push_spaces, push_text};
use arrayvec::ArrayVec;
use station_journal::{Aircraft, Rows};
use streams::{Sink, WriteFault, write_all};

// The text of one line: at most nine fields, each with a byte after it.
type Line = ArrayVec<u8, 320>;

const HEADER: &[u8] =
    b"  ADDR CALLSIGN    ALT SQWK     VELOCITY   VERT        LAT        LON AGE\n";

/// Writes the table of `rows` at the time `now`, in milliseconds.
/// Each row must be heard by then, and its position must have denominators of at least 1.
///
/// [`WriteFault`] where the sink failed: it has taken a prefix of the table, and is given no more.
pub fn table<R: Rows, S: Sink>(rows: &R, now: u64, out: &mut S) -> Result<(), WriteFault>
    requires rows { All (IsPrintableRow now) (R.rows rows.now) }
    ensures { TakesAll (S.state out.old) (S.state out.new) (text (R.rows rows.now) now) result }
{
    write_all(out, count_line(now, rows.len() as u64).as_slice())?;
    write_all(out, HEADER)?;
    for i in 0..rows.len() {
        write_all(out, row_line(now, rows.row(i)).as_slice())?;
    }
    Ok(())
}

#[tactic(auto, unfolding(crate::specs::Text::first_line))]
fn count_line(now: u64, count: u64) -> Line
    ensures { result.items ≡ first_line now count }
{
    let mut line = Line::new();
    push_text(&mut line, b"now ");
    push_number(&mut line, now);
    push_text(&mut line, b" aircraft ");
    push_number(&mut line, count);
    line.push(b'\n');
    line
}

fn row_line(now: u64, aircraft: Aircraft) -> Line
    requires { IsPrintableRow now aircraft }
    ensures { result.items ≡ row_text now aircraft }
{
    let mut line = Line::new();
    push_column(&mut line, 6, &address_field(aircraft.address), b' ');
    push_column(&mut line, 8, &callsign_field(aircraft.callsign), b' ');
    push_column(
        &mut line,
        6,
        &altitude_field(aircraft.on_ground, aircraft.altitude),
        b' ',
    );
    push_column(&mut line, 4, &or_dash(aircraft.squawk, squawk_field), b' ');
    push_column(
        &mut line,
        12,
        &or_dash(aircraft.velocity, velocity_field),
        b' ',
    );
    push_column(
        &mut line,
        6,
        &or_dash(aircraft.vertical, signed_field),
        b' ',
    );
    push_column(
        &mut line,
        10,
        &or_dash(aircraft.position, latitude_field),
        b' ',
    );
    push_column(
        &mut line,
        10,
        &or_dash(aircraft.position, longitude_field),
        b' ',
    );
    let age = (now - aircraft.heard) / 1000;
    push_column(&mut line, 3, &decimal_field(age), b'\n');
    line
}

// Appends a field with spaces before it up to the width, and the byte that ends its column.
fn push_column(line: &mut Line, width: usize, field: &Field, end: u8)
    requires width { width ≤ 32 }
    requires room { array_vec_len line.old + 33 ≤ 320 }
    ensures items { line.new.items ≡ line.old.items ++ (right width field.now.items ++ end ∷ []) }
    ensures len { array_vec_len line.new ≤ array_vec_len line.old + 33 }
{
    push_spaces(line, width.saturating_sub(field.len()));
    push_text(line, field.as_slice());
    line.push(end);
}
