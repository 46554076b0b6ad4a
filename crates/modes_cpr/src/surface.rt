//! The position of an even and an odd surface place, and the surface place of a point.

ghost use Rattle.std.specs.Prelude.{◌≡◌, ◌<◌, ◌≤◌, ◌^◌, ◌*◌, ◌*ℤ◌, pos, unsigned_abs, IfSome};
ghost use Rattle.modes_fields.specs.Places.{IsPlace};
ghost use Rattle.modes_cpr.specs.Pair.{IsWhole};
ghost use Rattle.modes_cpr.specs.Surface.{surface_angle as surface_angle_of, nearest_to as nearest_to_of, quarters_to as quarters_to_of, decoded_near as decoded_near_of, without_turns as without_turns_of, reference_angle, surface_position_of, fine_bin_of as fine_bin_of_angle, surface_place_at};

use crate::decoding::{is_latitude, zone_index};
use crate::encoding::zone_of;
use crate::grids::{BINS, latitude_zones, longitude_zones};
use crate::points::{Degrees, Position, Reference};
use crate::rounding::{floor, modulo};
use crate::transitions::{has_zones, zones};
use modes_fields::Place;

// A reference is in these parts of a degree.
const PARTS: i64 = 10_000_000;

/// The position of an even and an odd surface place together, in the zone and at the bin of the newest of them (Doc 9871
/// C.2.6).
///
/// The points of a pair are 90 degrees apart, in latitude and in longitude. In each the position is the nearest to the
/// reference, and of two as near the greater. So it is at most 45 degrees above the reference, or less than 45 below.
///
/// There is none where a latitude is then beyond a pole, or where the two latitudes have different numbers of longitude
/// zones. Each denominator is a number of zones times 2^17; the fractions aren't reduced. Bins of 2^17 and above give no
/// error, nor does a reference that is out of its ranges.
pub fn surface_pair(
    even: Place,
    odd: Place,
    newest_odd: bool,
    reference: Reference,
) -> Option<Position>
    ensures value { result ≡ surface_position_of reference even odd newest_odd }
    ensures whole { IfSome result IsWhole }
{
    let index = zone_index(60, even.lat, odd.lat);
    let even_lat = decoded_near(reference.lat, 60, index, even.lat);
    let odd_lat = decoded_near(reference.lat, 59, index, odd.lat);
    if !is_latitude(even_lat) || !is_latitude(odd_lat) {
        return None;
    }
    let count = zones(even_lat.num, even_lat.den);
    if !has_zones(odd_lat.num, odd_lat.den, count) {
        return None;
    }
    let (lat, bin) = if newest_odd {
        (odd_lat, odd.lon)
    } else {
        (even_lat, even.lon)
    };
    let index = zone_index(count, even.lon, odd.lon);
    let lon = decoded_near(
        reference.lon,
        longitude_zones(count, newest_odd),
        index,
        bin,
    );
    Some(Position {
        lat,
        lon: without_turns(lon),
    })
}

// The angle of a bin in the zone of an index, or quarters of a turn from it: the nearest to a coordinate of a reference.
fn decoded_near(reference: i32, zones: u8, index: i64, bin: u32) -> Degrees
    requires zones { 0 < zones }
    ensures value { result ≡ decoded_near_of (reference_angle reference) zones index bin }
    ensures whole { 0 < result.den }
    ensures fits { unsigned_abs result.num < 2 ^ 60 }
{
    let zone = modulo(index, zones as u64);
    nearest_to(reference, surface_angle(zones, zone as i64, bin))
}

// The angle of a bin, in a grid of `zones` zones.
fn surface_angle(zones: u8, zone: i64, bin: u32) -> Degrees
    requires some { 0 < zones }
    requires zone { unsigned_abs zone ≤ 256 }
    ensures value { result ≡ surface_angle_of zones zone (pos bin) }
    ensures whole { 0 < result.den }
    ensures most { result.den < 2 ^ 25 }
    ensures fits { unsigned_abs result.num < 2 ^ 39 }
{
    Degrees {
        num: 90 * (zone * BINS as i64 + bin as i64),
        den: zones as u32 * BINS,
    }
}

// A coordinate of a reference, times a denominator.
fn scaled(coordinate: i32, den: u32) -> i64
    requires most { den < 2 ^ 25 }
    ensures value { result ≡ coordinate *ℤ pos den }
    ensures fits { unsigned_abs result ≤ 2 ^ 56 }
{
    coordinate as i64 * den as i64
}

// The quarters of a turn that bring an angle nearest to a coordinate of a reference.
fn quarters_to(reference: i32, angle: Degrees) -> i64
    requires most { angle.den < 2 ^ 25 }
    requires whole { 0 < angle.den }
    requires fits { unsigned_abs angle.num < 2 ^ 39 }
    ensures value { result ≡ quarters_to_of (reference_angle reference) angle }
    ensures fits { angle.den * unsigned_abs result < 2 ^ 40 }
{
    let apart = scaled(reference, angle.den) - angle.num * PARTS + 45 * PARTS * angle.den as i64;
    floor(apart, 90 * PARTS as u64 * angle.den as u64)
}

// An angle with the quarters of a turn that bring it nearest to a coordinate of a reference.
fn nearest_to(reference: i32, angle: Degrees) -> Degrees
    requires most { angle.den < 2 ^ 25 }
    requires whole { 0 < angle.den }
    requires fits { unsigned_abs angle.num < 2 ^ 39 }
    ensures value { result ≡ nearest_to_of (reference_angle reference) angle }
    ensures whole { result.den ≡ angle.den }
    ensures fits { unsigned_abs result.num < 2 ^ 60 }
{
    let turned = angle.den as i64 * quarters_to(reference, angle);
    Degrees {
        num: angle.num + 90 * turned,
        den: angle.den,
    }
}

// An angle less whole turns: from -180 to below 180 degrees.
fn without_turns(angle: Degrees) -> Degrees
    requires whole { 0 < angle.den }
    requires fits { unsigned_abs angle.num < 2 ^ 60 }
    ensures value { result ≡ without_turns_of angle }
    ensures whole { result.den ≡ angle.den }
{
    let half = 180 * angle.den as u64;
    let rest = modulo(angle.num + half as i64, 2 * half);
    Degrees {
        num: rest as i64 - half as i64,
        den: angle.den,
    }
}

/// The surface place that is sent for a point in the even or the odd grid (Doc 9871 C.2.6): 17 bits of a bin of 2^19 in
/// an airborne zone.
///
/// The latitude is from -90 to 90 degrees, the longitude from -360 to 360.
pub fn surface_encode(lat: Degrees, lon: Degrees, odd: bool) -> Place
    requires lat_whole { 0 < lat.den }
    requires lon_whole { 0 < lon.den }
    requires lat { unsigned_abs lat.num ≤ 90 * lat.den }
    requires lon { unsigned_abs lon.num ≤ 360 * lon.den }
    ensures value { result ≡ surface_place_at lat lon odd }
    ensures place { IsPlace odd result }
{
    let bands = latitude_zones(odd);
    let y = fine_bin_of(bands, lat);
    let rounded = surface_angle(bands, 4 * zone_of(bands, lat), y);
    let x = fine_bin_of(longitude_zones(zones(rounded.num, rounded.den), odd), lon);
    Place {
        odd,
        lat: y % BINS,
        lon: x % BINS,
    }
}

// The nearest bin to an angle in its zone of 360/zones degrees, or the zone's end.
fn fine_bin_of(zones: u8, a: Degrees) -> u32
    requires some { 0 < zones }
    requires zones { zones ≤ 60 }
    requires whole { 0 < a.den }
    requires turn { unsigned_abs a.num ≤ 360 * a.den }
    ensures value { pos result ≡ fine_bin_of_angle zones a }
    ensures bound { result ≤ 2 ^ 19 }
{
    let whole = 360 * a.den as u64;
    let rest = modulo(a.num * zones as i64, whole);
    ((8 * BINS as u64 * rest + whole) / (2 * whole)) as u32
}
