//! The zones and bins of the even and the odd grid.

ghost use Rattle.std.specs.Prelude.{◌≡◌, ◌≤◌, ◌<◌, ◌^◌, ◌*◌, unsigned_abs, pos};
ghost use Rattle.modes_cpr.specs.Pair.{latitude_zones as latitude_zones_of, longitude_zones as longitude_zones_of, angle as angle_of};

use crate::points::Degrees;

/// The number of bins of a zone.
pub const BINS: u32 = 131_072;

/// The number of latitude zones of a grid.
pub fn latitude_zones(odd: bool) -> u8
    ensures { result ≡ latitude_zones_of odd }
{
    if odd { 59 } else { 60 }
}

/// The number of longitude zones of a grid, at a latitude that has `zones` of them.
pub fn longitude_zones(zones: u8, odd: bool) -> u8
    ensures { result ≡ longitude_zones_of zones odd }
{
    if odd {
        zones.saturating_sub(1).max(1)
    } else {
        zones.max(1)
    }
}

/// The angle of a bin, in a grid of `zones` zones.
pub fn angle(zones: u8, zone: i64, bin: u32) -> Degrees
    requires some { 0 < zones }
    requires zone { unsigned_abs zone ≤ 256 }
    ensures value { result ≡ angle_of zones zone (pos bin) }
    ensures whole { 0 < result.den }
    ensures fits { unsigned_abs result.num < 2 ^ 62 }
{
    Degrees {
        num: 360 * (zone * BINS as i64 + bin as i64),
        den: zones as u32 * BINS,
    }
}
