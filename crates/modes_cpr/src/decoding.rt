//! The position of an even and an odd place.

ghost use Rattle.std.specs.Prelude.{◌≡◌, ◌<◌, ◌≤◌, ◌^◌, ◌*◌, ℕ, pos, unsigned_abs, IfSome, false, true};
ghost use Rattle.modes_cpr.specs.Pair.{zone_index as zone_index_of, wrapped_angle, IsWhole, decoded_angle, is_latitude as is_latitude_of, position_of};

use crate::grids::{BINS, angle, longitude_zones};
use crate::points::{Degrees, Position};
use crate::rounding::{floor, modulo};
use crate::transitions::{has_zones, zones};
use modes_fields::Place;

/// The position of an even and an odd place together, in the zone and at the bin of the newest of them (Doc 9871
/// C.2.6).
///
/// There is none where a latitude is beyond a pole, or where the two latitudes have different numbers of longitude
/// zones. Each denominator is a number of zones times 2^17; the fractions aren't reduced. Bins of 2^17 and above give
/// no error: the longitude may then be out of its range.
pub fn pair(even: Place, odd: Place, newest_odd: bool) -> Option<Position>
    ensures value { result ≡ position_of even odd newest_odd }
    ensures whole { IfSome result IsWhole }
{
    let index = zone_index(60, even.lat, odd.lat);
    let even_lat = decoded(270, 60, index, even.lat);
    let odd_lat = decoded(270, 59, index, odd.lat);
    if !is_latitude(even_lat) || !is_latitude(odd_lat) {
        return None;
    }
    let count = zones(even_lat.num, even_lat.den);
    if !has_zones(odd_lat.num, odd_lat.den, count) {
        return None;
    }
    let (lat, bin) = if newest_odd {
        (odd_lat, odd.lon)
    } else {
        (even_lat, even.lon)
    };
    let index = zone_index(count, even.lon, odd.lon);
    let lon = decoded(180, longitude_zones(count, newest_odd), index, bin);
    Some(Position { lat, lon })
}

// The index of a point's zone, from its bins in a grid of `zones` zones and in a grid of one zone less.
pub(crate) fn zone_index(zones: u8, even: u32, odd: u32) -> i64
    requires zones { 0 < zones }
    ensures { result ≡ zone_index_of zones even odd }
{
    let apart = even as i64 * (zones - 1) as i64 - odd as i64 * zones as i64;
    floor(apart + BINS as i64 / 2, BINS as u64)
}

// The angle of a bin in the zone of an index, less a turn where it is `limit` degrees or more.
fn decoded(limit: u16, zones: u8, index: i64, bin: u32) -> Degrees
    requires zones { 0 < zones }
    requires limit { limit ≤ 360 }
    ensures value { result ≡ decoded_angle limit zones index bin }
    ensures whole { 0 < result.den }
{
    let zone = modulo(index, zones as u64);
    wrapped(limit, angle(zones, zone as i64, bin))
}

// An angle below a turn, less a turn where it is `limit` degrees or more.
fn wrapped(limit: u16, angle: Degrees) -> Degrees
    requires limit { limit ≤ 360 }
    requires fits { unsigned_abs angle.num < 2 ^ 62 }
    ensures value { result ≡ wrapped_angle limit angle }
    ensures whole { result.den ≡ angle.den }
{
    if angle.num >= limit as i64 * angle.den as i64 {
        Degrees {
            num: angle.num - 360 * angle.den as i64,
            den: angle.den,
        }
    } else {
        angle
    }
}

// Whether an angle is neither below -90 nor above 90 degrees.
pub(crate) fn is_latitude(angle: Degrees) -> bool
    ensures { result ≡ is_latitude_of angle }
{
    angle.num.unsigned_abs() <= 90 * angle.den as u64
}
