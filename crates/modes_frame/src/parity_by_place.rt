//! Parity with a table for each place of a byte: no look-up waits for another.
ghost use Rattle.std.specs.Prelude.{◌≡◌, ◌≤◌, ◌<◌, ◌+◌, ◌^◌, ◌∷◌, length, replicate};
ghost use Rattle.modes_frame.specs.Frames.{remainder_of, parity_of};

use crate::frame::Frame;
use crate::parity::{parity_of_byte, sent};

// The same as `remainder`, by look-ups that the processor can overlap. A short frame is read as a long one that begins
// with zeros, which change no remainder: a branch on its length would often be foreseen wrongly.
pub(crate) fn remainder_by_place(frame: &Frame) -> u32
    ensures value { result ≡ remainder_of frame.now }
    ensures small { result < 2 ^ 24 }
{
    let bytes = frame.last_fourteen();
    parity_by_place(&bytes[..11]) ^ sent(&bytes[11..])
}

// The remainder of some bytes with 24 zero bits after them.
#[inline(always)]
fn parity_by_place(bytes: &[u8]) -> u32
    requires { length bytes.now ≤ 11 }
    ensures { result ≡ parity_of bytes.now }
{
    let mut parity = 0;
    for (place, byte) in bytes.iter().enumerate() {
        parity ^= parity_before(bytes.len() - 1 - place, *byte);
    }
    parity
}

// The parity of a byte with `after` zero bytes after it.
#[inline(always)]
pub(crate) fn parity_before(after: usize, byte: u8) -> u32
    requires { after < 11 }
    ensures { result ≡ parity_of (byte ∷ replicate after 0) }
{
    let index = usize::from(byte);
    match after {
        0 => parity_of_byte(byte),
        1 => FROM_1[0][index],
        2 => FROM_1[1][index],
        3 => FROM_1[2][index],
        4 => FROM_4[0][index],
        5 => FROM_4[1][index],
        6 => FROM_4[2][index],
        7 => FROM_7[0][index],
        8 => FROM_7[1][index],
        9 => FROM_7[2][index],
        _ => FROM_7[3][index],
    }
}

// Tables side by side, so that the processor is given one address for several.
static FROM_1: [[u32; 256]; 3] = [BEFORE_1, BEFORE_2, BEFORE_3];

static FROM_4: [[u32; 256]; 3] = [BEFORE_4, BEFORE_5, BEFORE_6];

static FROM_7: [[u32; 256]; 4] = [BEFORE_7, BEFORE_8, BEFORE_9, BEFORE_10];

// Entry k is the XOR of the numbers whose bit is set in k. The first number is bit 0.
macro_rules! sums {
    ([$($sum:expr),*]) => {
        [$($sum),*]
    };
    ([$($sum:expr),*] $number:literal $($numbers:literal)*) => {
        sums!([$($sum,)* $($sum ^ $number),*] $($numbers)*)
    };
}

// Entry k of BEFORE_n is the parity of the byte k with n zero bytes after it. Only the entries 0, 1, 2, 4 and so on are
// written out.
const BEFORE_1: [u32; 256] =
    sums!([0] 0x0E_0D80 0x1C_1B00 0x38_3600 0x70_6C00 0xE0_D800 0x3E_4409 0x7C_8812 0xF9_1024);

const BEFORE_2: [u32; 256] =
    sums!([0] 0x0D_D441 0x1B_A882 0x37_5104 0x6E_A208 0xDD_4410 0x45_7C29 0x8A_F852 0xEA_04AD);

const BEFORE_3: [u32; 256] =
    sums!([0] 0x2B_FD53 0x57_FAA6 0xAF_F54C 0xA0_1E91 0xBF_C92B 0x80_665F 0xFF_38B7 0x01_8567);

const BEFORE_4: [u32; 256] =
    sums!([0] 0x03_0ACE 0x06_159C 0x0C_2B38 0x18_5670 0x30_ACE0 0x61_59C0 0xC2_B380 0x7A_9309);

const BEFORE_5: [u32; 256] =
    sums!([0] 0xF5_2612 0x15_B82D 0x2B_705A 0x56_E0B4 0xAD_C168 0xA4_76D9 0xB7_19BB 0x91_C77F);

const BEFORE_6: [u32; 256] =
    sums!([0] 0xDC_7AF7 0x47_01E7 0x8E_03CE 0xE3_F395 0x38_1323 0x70_2646 0xE0_4C8C 0x3F_6D11);

const BEFORE_7: [u32; 256] =
    sums!([0] 0x7E_DA22 0xFD_B444 0x04_9C81 0x09_3902 0x12_7204 0x24_E408 0x49_C810 0x93_9020);

const BEFORE_8: [u32; 256] =
    sums!([0] 0xD8_D449 0x4E_5C9B 0x9C_B936 0xC6_8665 0x72_F8C3 0xE5_F186 0x34_1705 0x68_2E0A);

const BEFORE_9: [u32; 256] =
    sums!([0] 0xD0_5C14 0x5F_4C21 0xBE_9842 0x82_C48D 0xFA_7D13 0x0B_0E2F 0x16_1C5E 0x2C_38BC);

const BEFORE_10: [u32; 256] =
    sums!([0] 0x58_7178 0xB0_E2F0 0x9E_31E9 0xC3_97DB 0x78_DBBF 0xF1_B77E 0x1C_9AF5 0x39_35EA);
