//! Frames with their claims.
ghost use Rattle.std.specs.Prelude.{◌≡◌};
ghost use Rattle.modes_frame.specs.Claims.{claim_of};

use crate::claims::{CheckFault, Claim};
use crate::frame::Frame;
use crate::readers::claim;
use std::marker::Model;

/// A frame, and its claim. Contracts see the frame alone, as its bytes.
#[derive(Clone, Copy, Debug)]
pub struct CheckedFrame {
    // First, so that the frame is in one piece where a call has a tick's time in its place.
    claim: Result<Claim, CheckFault>,
    frame: Frame,
}

impl Model for CheckedFrame {
    ghost use Rattle.std.specs.Prelude.{◌≡◌, ℕ, List};
    ghost use Rattle.std.proofs.Common.{ap, sym};
    ghost use Rattle.modes_frame.specs.Claims.{claim_of};

    ghost Value = { List ℕ };

    ghost view = { λ c. c.frame };

    ghost invariant = { λ c. c.claim ≡ claim_of c.frame };

    ghost inverse = { λ bytes. record { frame = bytes; claim = claim_of bytes } };

    ghost inverse_ok = { λ c is. ap (λ claim. record { frame = c.frame; claim = claim }) (sym is) };
}

impl CheckedFrame {
    /// The frame with its claim.
    // Inlined, as a call would write its answer in parts, and then wait for them to be copied.
    #[inline(always)]
    pub fn of(frame: Frame) -> CheckedFrame
        ensures { result ≡ frame }
    {
        CheckedFrame {
            claim: claim(&frame),
            frame,
        }
    }

    /// The frame alone.
    pub fn frame(&self) -> &Frame
        ensures { result.now ≡ self.now }
    {
        &self.frame
    }

    /// Whom the frame speaks for, or why it speaks for nobody.
    pub fn claim(&self) -> Result<Claim, CheckFault>
        ensures { result ≡ claim_of self.now }
    {
        self.claim
    }
}
