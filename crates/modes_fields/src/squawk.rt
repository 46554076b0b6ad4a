//! Transponder codes.
ghost use Rattle.std.specs.Prelude.{◌≡◌, ◌<◌};

use std::marker::Model;

/// A squawk: a number below 4,096, written as four octal digits.
#[derive(Clone, Copy, Debug, PartialEq, Eq)]
pub struct Squawk {
    value: u16,
}

impl Model for Squawk {
    ghost use Rattle.std.specs.Prelude.{ℕ, ◌<◌};

    ghost Value = { ℕ };

    ghost view = { λ s. s.value };

    ghost invariant = { λ s. s.value < 4096 };

    ghost inverse = { λ n. record { value = n } };
}

impl Squawk {
    pub(crate) fn new(value: u16) -> Squawk
        requires { value < 4096 }
        ensures { result ≡ value }
    {
        Squawk { value }
    }

    /// The number, below 4,096: written in octal, it is the squawk.
    pub fn value(self) -> u16
        ensures value { result ≡ self }
        ensures below { result < 4096 }
    {
        self.value
    }
}
