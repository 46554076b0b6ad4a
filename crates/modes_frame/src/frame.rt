//! Frames (ICAO Annex 10 Volume IV, 3.1.2.3).
ghost use Rattle.std.specs.Prelude.{◌≡◌, ◌≤◌, ◌<◌, ◌↔◌, ◌⊎◌, ◌*◌, ◌-◌, ◌++◌, ℕ, List, IsSome, IfSome, length, drop, replicate};
ghost use Rattle.modes_frame.specs.Frames.{df_of};
ghost use Rattle.modes_frame.specs.Kept.{count_of};

use std::marker::Model;

/// A frame as it was sent: 56 bits with a downlink format below 16, or 112 bits with 16 or more. Contracts see it as
/// its bytes.
#[derive(Clone, Copy, Debug, PartialEq, Eq)]
pub struct Frame {
    // The bytes, and zeros before them: 16 bytes are copied in one move, and the last is always at one place.
    padded: [u8; 16],
    // Four bytes, so that an entry has its frame in whole words.
    count: u32,
}

impl Model for Frame {
    ghost use Rattle.std.specs.Prelude.{ℕ, List, length};
    ghost use Rattle.std.proofs.Common.{ap, ◌∙◌};
    ghost use Rattle.modes_frame.specs.Kept.{bytes_in, with_zeros, IsPaddedFrame};

    ghost Value = { List ℕ };

    ghost view = { λ f. bytes_in f.count f.padded };

    ghost invariant = { λ f. IsPaddedFrame f.count f.padded };

    ghost inverse = { λ xs. record { count = length xs; padded = with_zeros xs } };

    ghost inverse_ok = { λ a h. ap (λ c. record { count = c; padded = with_zeros (bytes_in a.count a.padded) }) h.same
        ∙ ap (λ d. record { count = a.count; padded = d }) h.rest };
}

impl Frame {
    ghost use Rattle.modes_frame.specs.Frames.{IsFrame, bits_of, bit_of};
    ghost use Rattle.modes_frame.specs.Kept.{bytes_in, with_zeros};

    /// The frame of these bytes. None where their number doesn't fit their downlink format.
    pub fn from_bytes(bytes: &[u8]) -> Option<Frame>
        ensures some { IsSome result ↔ IsFrame bytes.now }
        ensures value { IfSome result (λ f. f ≡ bytes.now) }
    {
        if bytes.is_empty() || bytes.len() != byte_count(bytes) {
            return None;
        }
        let mut padded = [0; 16];
        padded[16 - bytes.len()..].copy_from_slice(bytes);
        Some(Frame::from_padded(bytes.len() as u32, padded))
    }

    // The frame of the last `count` of 16 bytes, with zeros before them.
    #[inline(always)]
    pub(crate) fn from_padded(count: u32, padded: [u8; 16]) -> Frame
        requires few { count ≤ 14 }
        requires zeros { padded ≡ with_zeros (bytes_in count padded) }
        requires frame { IsFrame (bytes_in count padded) }
        ensures { result ≡ bytes_in count padded }
    {
        Frame { count, padded }
    }

    /// The 7 or 14 bytes of the frame.
    pub fn bytes(&self) -> &[u8]
        ensures bytes { result.now ≡ self.now }
        ensures frame { IsFrame self.now }
    {
        &self.padded[16 - self.count as usize..]
    }

    /// The bytes with zeros before them, 16 in all.
    pub fn padded(&self) -> &[u8]
        ensures { result.now ≡ replicate (16 - length self.now) 0 ++ self.now }
    {
        &self.padded
    }

    // The last 14 of the bytes and the zeros before them: those of a short frame have zeros in the place of seven.
    pub(crate) fn last_fourteen(&self) -> &[u8]
        ensures size { length result.now ≡ 14 }
        ensures bytes { result.now ≡ replicate (14 - length self.now) 0 ++ self.now }
    {
        &self.padded[2..]
    }

    /// The downlink format, 0 to 31: bits 1 to 5 (3.1.2.3.2.1.2).
    pub fn df(&self) -> u8
        ensures value { result ≡ df_of self.now }
        ensures below { result < 32 }
        ensures frame { IsFrame self.now }
    {
        format_of(self.bytes())
    }

    /// The number of bits, 56 or 112.
    pub fn bits(&self) -> usize
        ensures count { result ≡ 8 * length self.now }
        ensures frame { IsFrame self.now }
    {
        8 * self.bytes().len()
    }

    /// Bit `n`, from 1 to 56 or 112: bit 1 was sent first.
    pub fn bit(&self, n: usize) -> bool
        requires first { 1 ≤ n }
        requires last { n ≤ 8 * length self.now }
        ensures { result ≡ bit_of n (bits_of self.now) }
    {
        self.bytes()[(n - 1) / 8] >> (7 - (n - 1) % 8) & 1 == 1
    }
}

// The number of bytes of a frame that begins with these.
fn byte_count(bytes: &[u8]) -> usize
    requires { 0 < length bytes.now }
    ensures { result ≡ count_of bytes.now }
{
    if format_of(bytes) < 16 { 7 } else { 14 }
}

// The downlink format of a frame that begins with these bytes.
pub(crate) fn format_of(bytes: &[u8]) -> u8
    requires { 0 < length bytes.now }
    ensures value { result ≡ df_of bytes.now }
    ensures below { result < 32 }
{
    bytes[0] / 8
}
