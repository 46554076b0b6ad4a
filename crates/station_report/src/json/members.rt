//! The members of an aircraft, each behind a comma. An absent field has none.

ghost use Rattle.std.specs.Prelude.{◌≡◌, ◌+◌, ◌≤◌, ◌++◌, length, IfSome};
ghost use Rattle.std.specs.Fmt.{signed_decimal};
ghost use Rattle.std.specs.Option.{option_map};
ghost use Rattle.station_report.specs.Text.{ground_track};
ghost use Rattle.arrayvec.specs.ArrayVec.{array_vec_len};
ghost use Rattle.modes_cpr.specs.Pair.{IsWhole};
ghost use Rattle.station_report.specs.Json.{shown_altitude, surface, if_known, flight, altitude_members, track_member, ground, airspeed_key, air, moving, rate_key, rate, squawk, seen_pos, place};

use crate::columns::{ground_track, push_degrees, push_octal};
use crate::decimals::{push_number, push_text};
use crate::json::numbers::{push_seconds, push_tenths};
use crate::motion::{speed_tenths, track};
use arrayvec::ArrayVec;
use itoa::Buffer;
use modes_cpr::Position;
use modes_fields::{Callsign, RateSource, Squawk, Velocity};

/// The text of an aircraft.
pub(crate) type Object = ArrayVec<u8, 640>;

/// Appends `flight`.
#[tactic(auto, unfolding(crate::specs::Json::flight))]
pub(crate) fn push_flight(object: &mut Object, callsign: Option<Callsign>)
    requires { array_vec_len object.old + 24 ≤ 640 }
    ensures items { object.new.items ≡ object.old.items ++ if_known flight callsign }
    ensures len { array_vec_len object.new ≤ array_vec_len object.old + 24 }
{
    if let Some(callsign) = callsign {
        push_text(object, b",\"flight\":\"");
        push_text(object, callsign.bytes());
        push_text(object, b"\"");
    }
}

// Appends `alt_baro` and `altitude`, in feet.
#[tactic(auto, unfolding(crate::specs::Json::altitude_members))]
fn push_feet(object: &mut Object, feet: Option<i32>)
    requires { array_vec_len object.old + 96 ≤ 640 }
    ensures items { object.new.items ≡ object.old.items ++ if_known altitude_members feet }
    ensures len { array_vec_len object.new ≤ array_vec_len object.old + 96 }
{
    if let Some(feet) = feet {
        push_twice(object, b",\"alt_baro\":", b",\"altitude\":", feet);
    }
}

/// Appends `alt_baro` and `altitude`: feet, or `ground` for an aircraft on the ground.
#[tactic(auto, unfolding(crate::specs::Json::ground_members))]
pub(crate) fn push_altitude(object: &mut Object, on_ground: Option<bool>, feet: Option<i32>)
    requires { array_vec_len object.old + 96 ≤ 640 }
    ensures items { object.new.items ≡ object.old.items ++ shown_altitude on_ground feet }
    ensures len { array_vec_len object.new ≤ array_vec_len object.old + 96 }
{
    match on_ground {
        Some(true) => push_text(object, b",\"alt_baro\":\"ground\",\"altitude\":\"ground\""),
        Some(false) => push_feet(object, feet),
        None => push_feet(object, feet),
    }
}

// Appends a number under two keys.
fn push_twice(object: &mut Object, key: &[u8], other: &[u8], n: i32)
    requires { array_vec_len object.old + length key.now + length other.now + 64 ≤ 640 }
    ensures items { object.new.items ≡ object.old.items ++ (key.now ++ signed_decimal n ++ other.now ++ signed_decimal n) }
    ensures len { array_vec_len object.new ≤ array_vec_len object.old + length key.now + length other.now + 64 }
{
    let mut buffer = Buffer::new();
    let number = buffer.format(n).as_bytes();
    push_text(object, key);
    push_text(object, number);
    push_text(object, other);
    push_text(object, number);
}

/// Appends `gs`, `speed` and `track`, or `mag_heading` and an airspeed.
pub(crate) fn push_velocity(object: &mut Object, velocity: Option<Velocity>)
    requires { array_vec_len object.old + 128 ≤ 640 }
    ensures items { object.new.items ≡ object.old.items ++ if_known moving velocity }
    ensures len { array_vec_len object.new ≤ array_vec_len object.old + 128 }
{
    match velocity {
        None => {}
        Some(Velocity::Ground { east, north }) => push_ground(object, east, north),
        Some(
            Velocity::Air {
                heading,
                is_true,
                speed,
            },
        ) => push_air(object, heading, is_true, speed),
        Some(Velocity::Surface { speed, track }) => push_surface(object, speed, track),
    }
}

#[tactic(auto, unfolding(crate::specs::Json::ground))]
fn push_ground(object: &mut Object, east: i16, north: i16)
    requires { array_vec_len object.old + 128 ≤ 640 }
    ensures items { object.new.items ≡ object.old.items ++ ground east north }
    ensures len { array_vec_len object.new ≤ array_vec_len object.old + 128 }
{
    let speed = speed_tenths(east, north);
    push_text(object, b",\"gs\":");
    push_tenths(object, speed);
    push_text(object, b",\"speed\":");
    push_number(object, u64::from(speed / 10));
    push_track(object, track(east, north));
}

#[tactic(auto, unfolding(crate::specs::Json::surface))]
fn push_surface(object: &mut Object, speed: u16, track: Option<u8>)
    requires { array_vec_len object.old + 128 ≤ 640 }
    ensures items { object.new.items ≡ object.old.items ++ surface speed track }
    ensures len { array_vec_len object.new ≤ array_vec_len object.old + 128 }
{
    push_text(object, b",\"gs\":");
    push_tenths(object, u32::from(speed) * 10 / 8);
    push_text(object, b",\"speed\":");
    push_number(object, u64::from(speed / 8));
    push_track(object, degrees(track));
}

// The track in whole degrees, if it is given.
fn degrees(track: Option<u8>) -> Option<u16>
    ensures { result ≡ option_map ground_track track }
{
    Some(ground_track(track?))
}

#[tactic(auto, unfolding(crate::specs::Json::track_member))]
fn push_track(object: &mut Object, degrees: Option<u16>)
    requires { array_vec_len object.old + 48 ≤ 640 }
    ensures items { object.new.items ≡ object.old.items ++ if_known track_member degrees }
    ensures len { array_vec_len object.new ≤ array_vec_len object.old + 48 }
{
    if let Some(degrees) = degrees {
        push_text(object, b",\"track\":");
        push_number(object, u64::from(degrees));
    }
}

// The heading in 1/1024 of a turn, as tenths of a degree, rounded down.
#[tactic(auto, unfolding(crate::specs::Json::air))]
fn push_air(object: &mut Object, heading: u16, is_true: bool, speed: u16)
    requires { array_vec_len object.old + 128 ≤ 640 }
    ensures items { object.new.items ≡ object.old.items ++ air heading is_true speed }
    ensures len { array_vec_len object.new ≤ array_vec_len object.old + 128 }
{
    let tenths = u32::from(heading) * 3600 / 1024;
    push_text(object, b",\"mag_heading\":");
    push_tenths(object, tenths);
    push_text(object, airspeed_key(is_true));
    push_number(object, u64::from(speed));
}

fn airspeed_key(is_true: bool) -> &'static [u8]
    ensures key { result.now ≡ airspeed_key is_true }
    ensures len { length result.now ≤ 8 }
{
    if is_true { b",\"tas\":" } else { b",\"ias\":" }
}

/// Appends `geom_rate` for a rate from GNSS and `baro_rate` for any other, and `vert_rate`, in feet per minute.
#[tactic(auto, unfolding(crate::specs::Json::rate))]
pub(crate) fn push_rate(object: &mut Object, source: Option<RateSource>, feet: Option<i32>)
    requires { array_vec_len object.old + 96 ≤ 640 }
    ensures items { object.new.items ≡ object.old.items ++ if_known (rate source) feet }
    ensures len { array_vec_len object.new ≤ array_vec_len object.old + 96 }
{
    if let Some(feet) = feet {
        push_twice(object, rate_key(source), b",\"vert_rate\":", feet);
    }
}

fn rate_key(source: Option<RateSource>) -> &'static [u8]
    ensures key { result.now ≡ rate_key source }
    ensures len { length result.now ≤ 13 }
{
    match source {
        Some(RateSource::Gnss) => b",\"geom_rate\":",
        Some(RateSource::Barometric) => b",\"baro_rate\":",
        None => b",\"baro_rate\":",
    }
}

/// Appends `squawk`.
#[tactic(auto, unfolding(crate::specs::Json::squawk))]
pub(crate) fn push_squawk(object: &mut Object, code: Option<Squawk>)
    requires { array_vec_len object.old + 24 ≤ 640 }
    ensures items { object.new.items ≡ object.old.items ++ if_known squawk code }
    ensures len { array_vec_len object.new ≤ array_vec_len object.old + 24 }
{
    if let Some(code) = code {
        push_text(object, b",\"squawk\":\"");
        push_octal(object, code);
        push_text(object, b"\"");
    }
}

/// Appends `lat` and `lon`, and `seen_pos` where the time of the position is known.
#[tactic(auto, unfolding(crate::specs::Json::place))]
pub(crate) fn push_place(
    object: &mut Object,
    now: u64,
    placed: Option<u64>,
    position: Option<Position>,
)
    requires whole { IfSome position IsWhole }
    requires room { array_vec_len object.old + 128 ≤ 640 }
    ensures items { object.new.items ≡ object.old.items ++ if_known (place now placed) position }
    ensures len { array_vec_len object.new ≤ array_vec_len object.old + 128 }
{
    if let Some(position) = position {
        push_text(object, b",\"lat\":");
        push_degrees(object, position.lat);
        push_text(object, b",\"lon\":");
        push_degrees(object, position.lon);
        push_seen_pos(object, now, placed);
    }
}

#[tactic(auto, unfolding(crate::specs::Json::seen_pos))]
fn push_seen_pos(object: &mut Object, now: u64, placed: Option<u64>)
    requires { array_vec_len object.old + 48 ≤ 640 }
    ensures items { object.new.items ≡ object.old.items ++ if_known (seen_pos now) placed }
    ensures len { array_vec_len object.new ≤ array_vec_len object.old + 48 }
{
    if let Some(at) = placed {
        push_text(object, b",\"seen_pos\":");
        push_seconds(object, now.saturating_sub(at));
    }
}
