//! The place that is sent for a point.

ghost use Rattle.std.specs.Prelude.{◌≡◌, ◌<◌, ◌≤◌, ◌^◌, ◌*◌, ℕ, pos, ◌*ℤ◌, unsigned_abs};
ghost use Rattle.modes_fields.specs.Places.{IsPlace};
ghost use Rattle.modes_cpr.specs.Encoding.{zone_of as zone_of_angle, bin_of as bin_of_angle, sent_bin, place_at};

use crate::grids::{BINS, angle, latitude_zones, longitude_zones};
use crate::points::Degrees;
use crate::rounding::{floor, modulo};
use crate::transitions::zones;
use modes_fields::Place;

/// The place that is sent for a point in the even or the odd grid (Doc 9871 C.2.6).
///
/// The latitude is from -90 to 90 degrees, the longitude from -360 to 360.
pub fn encode(lat: Degrees, lon: Degrees, odd: bool) -> Place
    requires lat_whole { 0 < lat.den }
    requires lon_whole { 0 < lon.den }
    requires lat { unsigned_abs lat.num ≤ 90 * lat.den }
    requires lon { unsigned_abs lon.num ≤ 360 * lon.den }
    ensures value { result ≡ place_at lat lon odd }
    ensures place { IsPlace odd result }
{
    let bands = latitude_zones(odd);
    let y = bin_of(bands, lat);
    let rounded = angle(bands, zone_of(bands, lat), y);
    let x = bin_of(longitude_zones(zones(rounded.num, rounded.den), odd), lon);
    Place {
        odd,
        lat: y % BINS,
        lon: x % BINS,
    }
}

// The zone of an angle.
pub(crate) fn zone_of(zones: u8, a: Degrees) -> i64
    requires some { 0 < zones }
    requires zones { zones ≤ 60 }
    requires whole { 0 < a.den }
    requires turn { unsigned_abs a.num ≤ 360 * a.den }
    ensures value { result ≡ zone_of_angle zones a }
    ensures bound { unsigned_abs result ≤ 60 }
{
    floor(a.num * zones as i64, 360 * a.den as u64)
}

// The nearest bin to an angle in its zone, or the zone's end.
fn bin_of(zones: u8, a: Degrees) -> u32
    requires some { 0 < zones }
    requires zones { zones ≤ 60 }
    requires whole { 0 < a.den }
    requires turn { unsigned_abs a.num ≤ 360 * a.den }
    ensures value { pos result ≡ bin_of_angle zones a }
    ensures bound { result ≤ 2 ^ 17 }
{
    let whole = 360 * a.den as u64;
    let rest = modulo(a.num * zones as i64, whole);
    ((2 * BINS as u64 * rest + whole) / (2 * whole)) as u32
}
