//! Speed and track of a velocity over ground, as whole numbers.

ghost use Rattle.std.specs.Prelude.{◌≡◌, ◌+◌, ◌*◌, ◌^◌, ◌≤◌, unsigned_abs, nat_lt};
ghost use Rattle.station_report.specs.Motion.{root, square, speed_tenths, nearest_degree, degrees_off, degrees_turned, track};

// The tangents of 1/2, 3/2, .., 89/2 degrees, in 1/1,000,000,000 and rounded down.
const TANGENTS: [u32; 45] = [
    8726867, 26185921, 43660942, 61162620, 78701706, 96289048, 113935608, 131652497, 149451001,
    167342609, 185339044, 203452299, 221694662, 240078759, 258617584, 277324544, 296213494,
    315298788, 334595319, 354118572, 373884679, 393910475, 414213562, 434812374, 455726255,
    476975532, 498581608, 520567050, 542955699, 565772778, 589045016, 612800788, 637070260,
    661885561, 687280958, 713293067, 739961075, 767326987, 795435916, 824336385, 854080685,
    884725264, 916331174, 948964566, 982697263,
];

/// The speed in tenths of a knot, rounded down, of knots to the east and to the north.
pub fn speed_tenths(east: i16, north: i16) -> u32
    ensures { result ≡ speed_tenths east north }
{
    root(100 * (square(east) + square(north)))
}

// The whole part of the square root. The root of 32 bits takes half as many steps as that of 64.
fn root(n: u64) -> u32
    ensures { result ≡ root n }
{
    match u32::try_from(n) {
        Ok(n) => n.isqrt(),
        Err(_) => n.isqrt() as u32,
    }
}

fn square(knots: i16) -> u64
    ensures value { result ≡ square knots }
    ensures bound { result ≤ 2 ^ 30 }
{
    let size = u64::from(knots.unsigned_abs());
    size * size
}

/// The track in whole degrees from north by east, 0 to 359, of knots to the east and to the north: the nearest.
/// None where nothing moves.
pub fn track(east: i16, north: i16) -> Option<u16>
    ensures { result ≡ track east north }
{
    if east == 0 && north == 0 {
        return None;
    }
    let degrees = degrees_off(east.unsigned_abs(), north.unsigned_abs());
    Some(turned(east.is_negative(), north.is_negative(), degrees))
}

// From degrees off the line from north to south to degrees from north by east.
fn turned(is_west: bool, is_south: bool, degrees: u16) -> u16
    requires { degrees ≤ 90 }
    ensures { result ≡ degrees_turned is_west is_south degrees }
{
    match (is_west, is_south) {
        (false, false) => degrees,
        (false, true) => 180 - degrees,
        (true, true) => 180 + degrees,
        (true, false) => (360 - degrees) % 360,
    }
}

// Whole degrees between a track and the line from north to south, by the sizes of east and north.
fn degrees_off(east: u16, north: u16) -> u16
    ensures value { result ≡ degrees_off east north }
    ensures bound { result ≤ 90 }
{
    if east <= north {
        nearest_degree(east, north)
    } else {
        90 - nearest_degree(north, east)
    }
}

// The nearest whole degree of the angle whose tangent is `a / b`, with `a` at most `b`: the number of tangents below it.
#[tactic(auto, unfolding(crate::specs::Motion::tangents))]
fn nearest_degree(a: u16, b: u16) -> u16
    ensures value { result ≡ nearest_degree a b }
    ensures bound { result ≤ 45 }
{
    let below = TANGENTS.iter().filter(|tangent| is_below(**tangent, a, b));
    below.count() as u16
}

// Whether a tangent, in 1/1,000,000,000 and rounded down, is below `a / b`.
fn is_below(tangent: u32, a: u16, b: u16) -> bool
    ensures { result ≡ nat_lt (tangent * b) (1000000000 * a) }
{
    u64::from(tangent) * u64::from(b) < 1_000_000_000 * u64::from(a)
}
