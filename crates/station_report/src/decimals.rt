//! Numbers as text, appended to a text of fixed size.

ghost use Rattle.std.specs.Prelude.{◌≡◌, ◌+◌, ◌≤◌, ◌++◌, length, replicate};
ghost use Rattle.std.specs.Fmt.{decimal, signed_decimal};
ghost use Rattle.arrayvec.specs.ArrayVec.{array_vec_len};
ghost use Rattle.station_report.specs.Text.{five_digits};

use arrayvec::ArrayVec;
use itoa::Buffer;

/// The text of one field. The widest has 27 bytes.
pub type Field = ArrayVec<u8, 32>;

/// Appends a text that there is room for.
pub(crate) fn push_text<const CAP: usize>(to: &mut ArrayVec<u8, CAP>, text: &[u8])
    requires { array_vec_len to.old + length text.now ≤ CAP }
    ensures items { to.new.items ≡ to.old.items ++ text.now }
    ensures len { array_vec_len to.new ≡ array_vec_len to.old + length text.now }
{
    let _fits = to.try_extend_from_slice(text);
}

/// Appends spaces that there is room for.
pub(crate) fn push_spaces<const CAP: usize>(to: &mut ArrayVec<u8, CAP>, count: usize)
    requires { array_vec_len to.old + count ≤ CAP }
    ensures { to.new.items ≡ to.old.items ++ replicate count 32 }
{
    for _ in 0..count {
        to.push(b' ');
    }
}

/// Appends a number in decimal: at most 20 digits.
pub(crate) fn push_number<const CAP: usize>(to: &mut ArrayVec<u8, CAP>, n: u64)
    requires { array_vec_len to.old + 20 ≤ CAP }
    ensures items { to.new.items ≡ to.old.items ++ decimal n }
    ensures len { array_vec_len to.new ≤ array_vec_len to.old + 20 }
{
    let mut buffer = Buffer::new();
    push_text(to, buffer.format(n).as_bytes());
}

/// Appends a number in decimal, with `-` before a negative one.
pub(crate) fn push_signed(field: &mut Field, n: i32)
    requires { array_vec_len field.old + 11 ≤ 32 }
    ensures items { field.new.items ≡ field.old.items ++ signed_decimal n }
    ensures len { array_vec_len field.new ≤ array_vec_len field.old + 11 }
{
    let mut buffer = Buffer::new();
    push_text(field, buffer.format(n).as_bytes());
}

/// Appends a number in decimal: at most 5 digits.
pub(crate) fn push_short(field: &mut Field, n: u16)
    requires { array_vec_len field.old + 5 ≤ 32 }
    ensures items { field.new.items ≡ field.old.items ++ decimal n }
    ensures len { array_vec_len field.new ≤ array_vec_len field.old + 5 }
{
    let mut buffer = Buffer::new();
    push_text(field, buffer.format(n).as_bytes());
}

/// Appends the last five decimal digits of a number, zeros too.
#[tactic(auto, unfolding(crate::specs::Text::five_digits))]
pub(crate) fn push_five_digits<const CAP: usize>(to: &mut ArrayVec<u8, CAP>, n: u64)
    requires { array_vec_len to.old + 5 ≤ CAP }
    ensures items { to.new.items ≡ to.old.items ++ five_digits n }
    ensures len { array_vec_len to.new ≡ array_vec_len to.old + 5 }
{
    to.push(b'0' + (n / 10000 % 10) as u8);
    to.push(b'0' + (n / 1000 % 10) as u8);
    to.push(b'0' + (n / 100 % 10) as u8);
    to.push(b'0' + (n / 10 % 10) as u8);
    to.push(b'0' + (n % 10) as u8);
}
