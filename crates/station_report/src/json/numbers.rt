//! Numbers of JSON, and lower-case hexadecimal digits.

ghost use Rattle.std.specs.Prelude.{◌≡◌, ◌+◌, ◌<◌, ◌≤◌, ◌++◌, codes};
ghost use Rattle.std.specs.Fmt.{decimal};
ghost use Rattle.arrayvec.specs.ArrayVec.{array_vec_len};
ghost use Rattle.station_report.specs.Json.{three_digits, seconds, tenths, low_hex_digit, low_address};

use crate::decimals::push_number;
use arrayvec::ArrayVec;

// Appends the last three decimal digits of a number, zeros too.
#[tactic(auto, unfolding(crate::specs::Json::three_digits))]
fn push_three_digits<const CAP: usize>(to: &mut ArrayVec<u8, CAP>, n: u16)
    requires { array_vec_len to.old + 3 ≤ CAP }
    ensures items { to.new.items ≡ to.old.items ++ three_digits n }
    ensures len { array_vec_len to.new ≡ array_vec_len to.old + 3 }
{
    to.push(b'0' + (n / 100 % 10) as u8);
    to.push(b'0' + (n / 10 % 10) as u8);
    to.push(b'0' + (n % 10) as u8);
}

// Appends whole seconds, and thousandths of a second as three decimals.
fn push_thousandths<const CAP: usize>(to: &mut ArrayVec<u8, CAP>, seconds: u64, thousandths: u16)
    requires { array_vec_len to.old + 24 ≤ CAP }
    ensures items { to.new.items ≡ to.old.items ++ (decimal seconds ++ codes "." ++ three_digits thousandths) }
    ensures len { array_vec_len to.new ≤ array_vec_len to.old + 24 }
{
    push_number(to, seconds);
    to.push(b'.');
    push_three_digits(to, thousandths);
}

/// Appends milliseconds as seconds with three decimals.
#[tactic(auto, unfolding(crate::specs::Json::seconds, crate::specs::Json::three_digits))]
pub(crate) fn push_seconds<const CAP: usize>(to: &mut ArrayVec<u8, CAP>, milliseconds: u64)
    requires { array_vec_len to.old + 24 ≤ CAP }
    ensures items { to.new.items ≡ to.old.items ++ seconds milliseconds }
    ensures len { array_vec_len to.new ≤ array_vec_len to.old + 24 }
{
    push_thousandths(to, milliseconds / 1000, (milliseconds % 1000) as u16);
}

/// Appends the sum of two times in milliseconds as seconds with three decimals.
#[tactic(auto, unfolding(crate::specs::Json::seconds, crate::specs::Json::three_digits))]
pub(crate) fn push_sum<const CAP: usize>(to: &mut ArrayVec<u8, CAP>, origin: u64, now: u64)
    requires { array_vec_len to.old + 24 ≤ CAP }
    ensures items { to.new.items ≡ to.old.items ++ seconds (origin + now) }
    ensures len { array_vec_len to.new ≤ array_vec_len to.old + 24 }
{
    let milliseconds = u128::from(origin) + u128::from(now);
    push_thousandths(
        to,
        (milliseconds / 1000) as u64,
        (milliseconds % 1000) as u16,
    );
}

/// Appends tenths as a number with one decimal.
#[tactic(auto, unfolding(crate::specs::Json::tenths))]
pub(crate) fn push_tenths<const CAP: usize>(to: &mut ArrayVec<u8, CAP>, n: u32)
    requires { array_vec_len to.old + 22 ≤ CAP }
    ensures items { to.new.items ≡ to.old.items ++ tenths n }
    ensures len { array_vec_len to.new ≤ array_vec_len to.old + 22 }
{
    push_number(to, u64::from(n / 10));
    to.push(b'.');
    to.push(b'0' + (n % 10) as u8);
}

fn low_hex_digit(d: u32) -> u8
    requires { d < 16 }
    ensures { result ≡ low_hex_digit d }
{
    if d < 10 {
        b'0' + d as u8
    } else {
        b'a' + (d - 10) as u8
    }
}

/// Appends six hexadecimal digits in lower case.
#[tactic(auto, unfolding(crate::specs::Json::low_address))]
pub(crate) fn push_low_address<const CAP: usize>(to: &mut ArrayVec<u8, CAP>, address: u32)
    requires { array_vec_len to.old + 6 ≤ CAP }
    ensures items { to.new.items ≡ to.old.items ++ low_address address }
    ensures len { array_vec_len to.new ≡ array_vec_len to.old + 6 }
{
    to.push(low_hex_digit(address / 1048576 % 16));
    to.push(low_hex_digit(address / 65536 % 16));
    to.push(low_hex_digit(address / 4096 % 16));
    to.push(low_hex_digit(address / 256 % 16));
    to.push(low_hex_digit(address / 16 % 16));
    to.push(low_hex_digit(address % 16));
}
