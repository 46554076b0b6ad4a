//! The place of the receivers, as `--at` gives it.
ghost use Rattle.std.specs.Prelude.{◌≡◌, ◌≤◌, ◌<◌, ◌^◌, IfSome, length};
ghost use Rattle.command_line.specs.Places as spec;

use modes_cpr::Reference;

// A degree, in the unit of a reference.
const DEGREE: u64 = 10_000_000;

/// The place that a text names, as `LAT,LON` in degrees. Each is a minus sign at most, 1 to 3 digits, and after a point 1 to 7
/// more. There is none in any other text, nor beyond 90 degrees of latitude or 180 of longitude.
pub fn place_named(text: &str) -> Option<Reference>
    ensures { result ≡ spec.place_named text.now }
{
    let (lat, lon) = text.split_once(',')?;
    Some(Reference {
        lat: angle(lat, 90)?,
        lon: angle(lon, 180)?,
    })
}

// At most `most` degrees with a sign, in 1/10,000,000.
fn angle(text: &str, most: u64) -> Option<i32>
    requires { most ≤ 180 }
    ensures { result ≡ spec.angle most text.now }
{
    match text.strip_prefix('-') {
        Some(unsigned) => Some(-(size(unsigned, most)? as i32)),
        None => Some(size(text, most)? as i32),
    }
}

// The same without a sign.
fn size(text: &str, most: u64) -> Option<u64>
    requires { most ≤ 180 }
    ensures value { result ≡ spec.size most text.now }
    ensures most { IfSome result (λ n. n ≤ 1800000000) }
{
    let n = match text.split_once('.') {
        Some((whole, part)) => number(whole, 3)? * DEGREE + decimals(part)?,
        None => number(text, 3)? * DEGREE,
    };
    (n <= most * DEGREE).then_some(n)
}

// What 1 to 7 digits after a point write, in 1/10,000,000.
fn decimals(text: &str) -> Option<u64>
    ensures value { result ≡ spec.decimals text.now }
    ensures most { IfSome result (λ n. n < 10 ^ 14) }
{
    let n = number(text, 7)?;
    Some(n * 10_u64.pow(7 - text.len() as u32))
}

// The number of 1 to `most` digits.
fn number(text: &str, most: usize) -> Option<u64>
    requires { most ≤ 7 }
    ensures value { result ≡ spec.number most text.now }
    ensures most { IfSome result (λ n. n < 10 ^ 7) }
    ensures short { IfSome result (λ n. length text.now ≤ most) }
{
    if text.is_empty() || text.len() > most {
        return None;
    }
    let mut n = 0;
    for digit in text.as_bytes() {
        if !digit.is_ascii_digit() {
            return None;
        }
        n = n * 10 + u64::from(digit - b'0');
    }
    Some(n)
}
