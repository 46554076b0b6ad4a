//! Hexadecimal digits.
ghost use Rattle.std.specs.Prelude.{◌≡◌, ◌≤◌, ◌<◌, ◌+◌, ◌-◌, ◌*◌, ◌/◌, ◌++◌, ◌⊎◌, IfSome, IsTrue, Ok, length, slice_index, map, take, drop};
ghost use Rattle.std.specs.Simd.Lanes.{Each1};
ghost use Rattle.hex.specs.Hex.{decode_pairs};
ghost use Rattle.modes_frame.specs.Frames.{IsFrame};
ghost use Rattle.modes_frame.specs.Kept.{bytes_of, value_of, with_zeros};
ghost use Rattle.modes_frame.specs.Reading.{Decodes};

use crate::frame::Frame;
use hex::FromHexError;
use std::simd::prelude::*;

// Decodes digits into bytes, or answers the place of the first byte that is no digit, counted from 1.
pub(crate) fn decode_digits(digits: &[u8], bytes: &mut [u8]) -> Result<(), u8>
    requires even { length digits.now ≡ 2 * length bytes.old }
    requires few { length digits.now ≤ 40 }
    ensures { Decodes digits.now bytes.new result }
{
    match hex::decode_to_slice(digits, bytes) {
        Ok(()) => Ok(()),
        Err(FromHexError::InvalidHexCharacter { c: _, index }) => Err(index as u8 + 1),
        Err(FromHexError::OddLength) => unreachable!(),
        Err(FromHexError::InvalidStringLength) => unreachable!(),
        Err(FromHexError::OutOfMemory) => unreachable!(),
    }
}

// The value of each of 16 bytes as a digit, or 16 where it is none.
#[inline(always)]
fn digit_values(bytes: u8x16) -> u8x16
    ensures { result ≡ map value_of bytes }
{
    // `0` to `9` become the ten highest numbers, then 0xF0 to 0xF9 and others less, then 0 to 9 and others more.
    let highest = bytes + u8x16::splat(0xFF - b'9');
    let decimal = highest.saturating_sub(u8x16::splat(6)) - u8x16::splat(0xF0);
    let letter = (bytes & u8x16::splat(0xDF)) - u8x16::splat(b'A');
    decimal.simd_min(letter.simd_min(u8x16::splat(6)) + u8x16::splat(10))
}

// Whether the first 14 numbers of both are values of digits.
#[inline(always)]
fn are_digits(front: u8x16, back: u8x16) -> bool
    ensures front { IsTrue result → Each1 (λ value. value < 16) (take 14 front) }
    ensures back { IsTrue result → Each1 (λ value. value < 16) (take 14 back) }
{
    (front | back).simd_gt(u8x16::splat(15)).to_bitmask() & 0x3FFF == 0
}

// The places of a frame's bytes in its two halves of 8, and 128 for the zeros before them.
static PLACES: [u8; 32] = [
    128, 128, 128, 128, 128, 128, 128, 128, 128, 8, 9, 10, 11, 12, 13, 14, // a short frame is the last half alone
    128, 128, 0, 1, 2, 3, 4, 5, 6, 8, 9, 10, 11, 12, 13, 14,
];

// The bytes of pairs of values, with zeros before them: of the last 14 values, or of all 28 where `longer` is 1.
#[inline(always)]
fn paired(front: u8x16, back: u8x16, longer: usize) -> [u8; 16]
    requires one { longer ≤ 1 }
    requires front { Each1 (λ value. value < 16) (take 14 front) }
    requires back { Each1 (λ value. value < 16) (take 14 back) }
    ensures { result ≡ with_zeros (bytes_of (drop (14 - 14 * longer) (take 14 front ++ take 14 back))) }
{
    let (high, low) = front.deinterleave(back);
    let bytes = high << u8x16::splat(4) | low;
    bytes
        .swizzle_dyn(u8x16::from_slice(&PLACES[16 * longer..]))
        .to_array()
}

// 1 where a frame that begins with this digit is a long one, else 0. By numbers: the processor would often foresee a
// branch wrongly.
#[inline(always)]
pub(crate) fn longer(first: u8) -> usize
    ensures one { result ≤ 1 }
    ensures digit { value_of first < 16 → result ≡ value_of first / 8 }
{
    usize::from(first.wrapping_add(8) / 64 % 2)
}

// The frame that 14 digits write, or 28 where `longer` is 1, which the first of them says. The digits are all of the
// line but its first byte and its last two. None where one of them is no digit.
#[inline(always)]
pub(crate) fn enclosed_frame(line: &[u8], longer: usize) -> Option<Frame>
    requires one { longer ≤ 1 }
    requires size { length line.now ≡ 17 + 14 * longer }
    requires first { value_of (slice_index line.now 1) < 16 → longer ≡ value_of (slice_index line.now 1) / 8 }
    ensures value { IfSome result (λ frame. decode_pairs 0 (take (14 + 14 * longer) (drop 1 line.now)) ≡ Ok frame) }
    ensures frame { IfSome result (λ frame. IsFrame frame) }
{
    let front = digit_values(u8x16::from_slice(&line[1..]));
    let back = digit_values(u8x16::from_slice(&line[line.len() - 16..]));
    if !are_digits(front, back) {
        return None;
    }
    Some(Frame::from_padded(7 + 7 * longer as u32, paired(front, back, longer)))
}

// The frame that these digits write, if all are digits, and as many as the first says.
#[inline(always)]
pub(crate) fn digits_frame(digits: &[u8]) -> Option<Frame>
    ensures value { IfSome result (λ frame. decode_pairs 0 digits.now ≡ Ok frame) }
    ensures frame { IfSome result (λ frame. IsFrame frame) }
    ensures few { IfSome result (λ frame. (length digits.now ≡ 14) ⊎ (length digits.now ≡ 28)) }
{
    if digits.is_empty() {
        return None;
    }
    let longer = longer(digits[0]);
    let count = 14 + 14 * longer;
    if digits.len() != count {
        return None;
    }
    let mut line = [0; 31];
    line[1..count + 1].copy_from_slice(digits);
    enclosed_frame(&line[..count + 3], longer)
}
