//! Frames and messages as words.
ghost use Rattle.std.specs.Prelude.{◌≡◌, ◌+◌, ◌-◌, ◌^◌, ◌<◌, ◌≤◌, length};
ghost use Rattle.modes_frame.specs.Frames.{bits_of};
ghost use Rattle.modes_fields.specs.Bits.{number, field as field_of};

use modes_frame::Frame;
use std::marker::Model;

// Up to eight bytes as one word, the first byte highest.
fn word(bytes: &[u8]) -> u64
    requires { length bytes.now ≤ 8 }
    ensures { result ≡ number (bits_of bytes.now) }
{
    let mut word = 0;
    for byte in bytes {
        word = word << 8 | u64::from(*byte);
    }
    word
}

// The code in bits 20 to 32 of a frame: the fields AC and ID.
pub(crate) fn code13(frame: &Frame) -> u16
    ensures value { result ≡ field_of 20 32 (bits_of frame.now) }
    ensures below { result < 2 ^ 13 }
{
    (word(&frame.bytes()[..4]) & 0x1FFF) as u16
}

// The message ME of a long frame: 56 bits, numbered from 1.
#[derive(Drop)]
pub(crate) struct Message {
    word: u64,
}

impl Model for Message {
    ghost use Rattle.std.specs.Prelude.{Bool, List, ◌<◌, ◌^◌};
    ghost use Rattle.modes_fields.specs.Bits.{code_bits};

    ghost Value = { List Bool };

    ghost view = { λ m. code_bits 56 m.word };

    ghost invariant = { λ m. m.word < 2 ^ 56 };
}

impl Message {
    ghost use Rattle.modes_frame.specs.Frames.{bit_of};
    ghost use Rattle.modes_fields.specs.Bits.{me_of};

    pub(crate) fn of(frame: &Frame) -> Message
        requires { length frame.now ≡ 14 }
        ensures { result ≡ me_of frame.now }
    {
        Message {
            word: word(&frame.bytes()[4..11]),
        }
    }

    // The number in bits `first` to `last`.
    pub(crate) fn field(&self, first: usize, last: usize) -> u64
        requires first { 1 ≤ first }
        requires order { first ≤ last }
        requires last { last ≤ 56 }
        ensures value { result ≡ field_of first last self.now }
        ensures below { result < 2 ^ (last + 1 - first) }
    {
        self.word >> (56 - last) & ((1 << (last + 1 - first)) - 1)
    }

    pub(crate) fn bit(&self, n: usize) -> bool
        requires first { 1 ≤ n }
        requires last { n ≤ 56 }
        ensures { result ≡ bit_of n self.now }
    {
        self.word >> (56 - n) & 1 == 1
    }
}
