//! The columns of a row, each as the text of a field.

ghost use Rattle.std.specs.Prelude.{◌≡◌, ◌+◌, ◌-◌, ◌*◌, ◌/◌, ◌%◌, ◌<◌, ◌≤◌, [], ◌∷◌, ◌++◌, codes, MatchOption};
ghost use Rattle.std.specs.Option.{ForSome};
ghost use Rattle.std.specs.Fmt.{decimal, signed_decimal};
ghost use Rattle.arrayvec.specs.ArrayVec.{array_vec_len};
ghost use Rattle.modes_cpr.specs.Pair.{IsWhole};
ghost use Rattle.station_report.specs.Text.{altitude_text, ground_track, ground_track_text, or_dash, left, hex_digit, address_text, callsign_text, squawk_text, velocity_text, latitude_text, longitude_text, degrees_text, degrees_sign, parts_text};

use crate::decimals::{
    Field, push_five_digits, push_number, push_short, push_signed, push_spaces, push_text,
};
use arrayvec::ArrayVec;
use modes_cpr::{Degrees, Position};
use modes_fields::{Callsign, Squawk, Velocity};

fn hex_digit(d: u32) -> u8
    requires { d < 16 }
    ensures { result ≡ hex_digit d }
{
    if d < 10 {
        b'0' + d as u8
    } else {
        b'A' + (d - 10) as u8
    }
}

/// Six hexadecimal digits in upper case.
#[tactic(auto, unfolding(crate::specs::Text::address_text))]
pub(crate) fn address_field(address: u32) -> Field
    ensures { result.items ≡ address_text address }
{
    let mut field = Field::new();
    field.push(hex_digit(address / 1048576 % 16));
    field.push(hex_digit(address / 65536 % 16));
    field.push(hex_digit(address / 4096 % 16));
    field.push(hex_digit(address / 256 % 16));
    field.push(hex_digit(address / 16 % 16));
    field.push(hex_digit(address % 16));
    field
}

/// The field of a value, or a dash.
pub(crate) fn or_dash<T, F: FnOnce(T) -> Field>(value: Option<T>, field: F) -> Field
    requires { ForSome value (F.pre field) }
    ensures { MatchOption value (result.items ≡ codes "-") (λ x. F.post field x result) }
{
    let mut dash = Field::new();
    dash.push(b'-');
    value.map_or(dash, field)
}

/// A callsign, or a dash, with spaces after it up to eight bytes.
pub(crate) fn callsign_field(callsign: Option<Callsign>) -> Field
    ensures { result.items ≡ left 8 (or_dash callsign_text callsign) }
{
    let mut field = or_dash(callsign, characters_field);
    let count = 8usize.saturating_sub(field.len());
    push_spaces(&mut field, count);
    field
}

fn characters_field(callsign: Callsign) -> Field
    ensures { result.items ≡ callsign_text callsign }
{
    let mut field = Field::new();
    push_text(&mut field, callsign.bytes());
    field
}

/// A whole number: an altitude in feet, or a vertical rate in feet per minute.
pub(crate) fn signed_field(n: i32) -> Field
    ensures { result.items ≡ signed_decimal n }
{
    let mut field = Field::new();
    push_signed(&mut field, n);
    field
}

/// A whole number without a sign.
pub(crate) fn decimal_field(n: u64) -> Field
    ensures { result.items ≡ decimal n }
{
    let mut field = Field::new();
    push_number(&mut field, n);
    field
}

/// Four octal digits.
pub(crate) fn squawk_field(squawk: Squawk) -> Field
    ensures { result.items ≡ squawk_text squawk }
{
    let mut field = Field::new();
    push_octal(&mut field, squawk);
    field
}

/// Appends four octal digits.
#[tactic(auto, unfolding(crate::specs::Text::squawk_text))]
pub(crate) fn push_octal<const CAP: usize>(to: &mut ArrayVec<u8, CAP>, squawk: Squawk)
    requires { array_vec_len to.old + 4 ≤ CAP }
    ensures items { to.new.items ≡ to.old.items ++ squawk_text squawk }
    ensures len { array_vec_len to.new ≡ array_vec_len to.old + 4 }
{
    let value = squawk.value();
    to.push(b'0' + (value / 512 % 8) as u8);
    to.push(b'0' + (value / 64 % 8) as u8);
    to.push(b'0' + (value / 8 % 8) as u8);
    to.push(b'0' + (value % 8) as u8);
}

/// An altitude in feet, or `ground` for an aircraft on the ground.
pub(crate) fn altitude_field(on_ground: Option<bool>, altitude: Option<i32>) -> Field
    ensures { result.items ≡ altitude_text on_ground altitude }
{
    match on_ground {
        Some(true) => {
            let mut field = Field::new();
            push_text(&mut field, b"ground");
            field
        }
        Some(false) => or_dash(altitude, signed_field),
        None => or_dash(altitude, signed_field),
    }
}

/// The nearest whole degree of a track in 1/128 of a turn: 0 to 357.
pub(crate) fn ground_track(track: u8) -> u16
    ensures { result ≡ ground_track track }
{
    (45 * u16::from(track) + 8) / 16
}

// Appends a track in whole degrees, or a dash.
fn push_ground_track(to: &mut Field, track: Option<u8>)
    requires { array_vec_len to.old + 12 ≤ 32 }
    ensures { to.new.items ≡ to.old.items ++ or_dash ground_track_text track }
{
    match track {
        Some(track) => push_short(to, ground_track(track)),
        None => to.push(b'-'),
    }
}

/// A velocity in knots: `east/north`, `Hheading/Tspeed`, `Hheading/Ispeed` or `Gspeed/track`.
#[tactic(auto, unfolding(crate::specs::Text::velocity_text))]
pub(crate) fn velocity_field(velocity: Velocity) -> Field
    ensures { result.items ≡ velocity_text velocity }
{
    let mut field = Field::new();
    match velocity {
        Velocity::Ground { east, north } => {
            push_signed(&mut field, i32::from(east));
            field.push(b'/');
            push_signed(&mut field, i32::from(north));
        }
        Velocity::Air {
            heading,
            is_true,
            speed,
        } => {
            field.push(b'H');
            push_short(&mut field, heading);
            field.push(b'/');
            field.push(if is_true { b'T' } else { b'I' });
            push_short(&mut field, speed);
        }
        Velocity::Surface { speed, track } => {
            field.push(b'G');
            push_short(&mut field, speed / 8);
            field.push(b'/');
            push_ground_track(&mut field, track);
        }
    }
    field
}

/// A latitude in degrees, cut off after five decimals.
pub fn latitude_field(position: Position) -> Field
    requires { IsWhole position }
    ensures { result.items ≡ latitude_text position }
{
    let mut field = Field::new();
    push_degrees(&mut field, position.lat);
    field
}

/// A longitude in degrees, cut off after five decimals.
pub fn longitude_field(position: Position) -> Field
    requires { IsWhole position }
    ensures { result.items ≡ longitude_text position }
{
    let mut field = Field::new();
    push_degrees(&mut field, position.lon);
    field
}

/// Appends degrees, cut off after five decimals: at most 27 bytes.
#[tactic(auto, unfolding(crate::specs::Text::degrees_text))]
pub(crate) fn push_degrees<const CAP: usize>(to: &mut ArrayVec<u8, CAP>, degrees: Degrees)
    requires room { array_vec_len to.old + 27 ≤ CAP }
    requires whole { 0 < degrees.den }
    ensures items { to.new.items ≡ to.old.items ++ degrees_text degrees }
    ensures len { array_vec_len to.new ≤ array_vec_len to.old + 27 }
{
    let magnitude = degrees.num.unsigned_abs();
    let den = u64::from(degrees.den);
    let part = magnitude % den * 100_000 / den;
    push_parts(to, degrees.num.is_negative(), magnitude / den, part);
}

// The sign, the whole degrees and the digits after the point.
fn push_parts<const CAP: usize>(
    to: &mut ArrayVec<u8, CAP>,
    is_negative: bool,
    whole: u64,
    part: u64,
)
    requires { array_vec_len to.old + 27 ≤ CAP }
    ensures items { to.new.items ≡ to.old.items ++ parts_text is_negative whole part }
    ensures len { array_vec_len to.new ≤ array_vec_len to.old + 27 }
{
    push_sign(to, is_negative, whole == 0 && part == 0);
    push_number(to, whole);
    to.push(b'.');
    push_five_digits(to, part);
}

fn push_sign<const CAP: usize>(to: &mut ArrayVec<u8, CAP>, is_negative: bool, is_zero: bool)
    requires { array_vec_len to.old < CAP }
    ensures items { to.new.items ≡ to.old.items ++ degrees_sign is_negative is_zero }
    ensures len { array_vec_len to.new ≤ array_vec_len to.old + 1 }
{
    if is_negative && !is_zero {
        to.push(b'-');
    }
}
