//! Values with their times in milliseconds, and how they age.

ghost use Rattle.std.specs.Prelude.{◌≡◌};
ghost use Rattle.station_journal.specs.Past.{fresh, fresh_moment, with_parity, pair_with, fix_of};
ghost use Rattle.station_journal.specs.Track.{fix_from};

use crate::{PAIR_MS, Spot, Stamped};
use modes_cpr::{Position, Reference, pair, surface_pair};

/// The value, unless it is more than `limit` older than `now`.
pub fn fresh<T: Copy>(limit: u64, now: u64, kept: Option<Stamped<T>>) -> Option<T>
    ensures { result ≡ fresh limit now kept }
{
    match kept {
        Some(kept) if now.saturating_sub(kept.at) <= limit => Some(kept.value),
        _ => None,
    }
}

/// The time of the value, unless it is more than `limit` older than `now`.
pub fn fresh_moment<T: Copy>(limit: u64, now: u64, kept: Option<Stamped<T>>) -> Option<u64>
    ensures { result ≡ fresh_moment limit now kept }
{
    match kept {
        Some(Stamped { value: _, at }) if now.saturating_sub(at) <= limit => Some(at),
        _ => None,
    }
}

/// The place, if it has this parity.
pub fn with_parity(odd: bool, spot: Option<Spot>) -> Option<Spot>
    ensures { result ≡ with_parity odd spot }
{
    match spot {
        Some(spot) => { if spot.odd == odd { Some(spot) } else { None } }
        None => None,
    }
}

// The position of an even and an odd place. There is none of an airborne and a surface place.
fn fix_of(site: Option<Reference>, even: Spot, odd: Spot, newest_odd: bool) -> Option<Position>
    ensures { result ≡ fix_of site even odd newest_odd }
{
    match (even.surface, odd.surface) {
        (true, true) => surface_pair(even.place(), odd.place(), newest_odd, site?),
        (false, false) => pair(even.place(), odd.place(), newest_odd),
        _ => None,
    }
}

/// The position that a place gives with an earlier one of the other parity, if it gives any.
pub fn pair_with(site: Option<Reference>, spot: Spot, other: Option<Spot>) -> Option<Position>
    ensures { result ≡ pair_with site spot other }
{
    let other = other?;
    if spot.odd {
        fix_of(site, other, spot, true)
    } else {
        fix_of(site, spot, other, false)
    }
}

/// The position that a place gives with the newest one of the other parity, if that is at most 10,000 ms older than `now`.
#[inline(always)]
pub fn fix_from(
    site: Option<Reference>,
    now: u64,
    even: Option<Stamped<Spot>>,
    odd: Option<Stamped<Spot>>,
    spot: Option<Spot>,
) -> Option<Position>
    ensures { result ≡ fix_from site now even odd spot }
{
    let spot = spot?;
    if spot.odd {
        pair_with(site, spot, fresh(PAIR_MS, now, even))
    } else {
        pair_with(site, spot, fresh(PAIR_MS, now, odd))
    }
}
