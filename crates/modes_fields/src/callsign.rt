//! Callsigns.
ghost use Rattle.std.specs.Prelude.{◌≡◌, ◌-◌, ◌≤◌, length, take, drop, replicate};

use std::marker::Model;

/// A flight's callsign: 1 to 8 letters A to Z, digits and spaces in ASCII, the last no space.
#[derive(Clone, Copy, Debug, PartialEq, Eq)]
pub struct Callsign {
    bytes: [u8; 8],
    len: u8,
}

impl Model for Callsign {
    ghost use Rattle.std.specs.Prelude.{ℕ, List};

    ghost Value = { List ℕ };

    ghost use Rattle.modes_fields.specs.Kept.{callsign_in, IsPaddedCallsign, padded_callsign, padded_callsign-callsign_in};

    ghost view = { callsign_in };

    ghost invariant = { IsPaddedCallsign };

    ghost inverse = { padded_callsign };

    ghost inverse_ok = { padded_callsign-callsign_in };
}

impl Callsign {
    // The callsign of the first `len` bytes. The other bytes are spaces.
    pub(crate) fn new(bytes: [u8; 8], len: u8) -> Callsign
        requires some { 1 ≤ len }
        requires most { len ≤ 8 }
        requires spaces { drop len bytes ≡ replicate (8 - len) 32 }
        ensures { result ≡ take len bytes }
    {
        Callsign { bytes, len }
    }

    /// The 1 to 8 bytes of the text.
    pub fn bytes(&self) -> &[u8]
        ensures bytes { result.now ≡ self.now }
        ensures some { 1 ≤ length self.now }
        ensures most { length self.now ≤ 8 }
    {
        &self.bytes[..usize::from(self.len)]
    }
}
