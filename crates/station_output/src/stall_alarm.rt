//! Reports that nobody reads an output, and that it is read again.
ghost use Rattle.std.specs.Prelude.{◌≡◌};

use messages::{Fault, StandardError, tell};
use std::io::Write;

/// Counts the tables that are left out, and reports at once the first of them, and the first table after them.
#[derive(Drop)]
pub struct StallAlarm<A> {
    err: StandardError<A>,
    left_out: u64,
}

impl<A: Write> StallAlarm<A> {
    ghost use Rattle.messages.specs.Telling.{told_of};
    ghost use Rattle.station_output.specs.Stalls.{TellsGoingOn, TellsStall, is_stalled, one_more, stalling_of};

    /// An alarm on this standard error. No table was left out.
    pub fn new(err: A) -> Self
        ensures { result.left_out ≡ 0 }
    {
        StallAlarm {
            err: StandardError::new(err),
            left_out: 0,
        }
    }

    /// Whether tables were left out since the last that was printed.
    pub fn is_stalled(&self) -> bool
        ensures { result ≡ is_stalled (stalling_of A.contents self.now) }
    {
        self.left_out > 0
    }

    /// Counts a table that is left out, and reports the first.
    pub fn leave_out(&mut self)
        ensures count { self.new.left_out ≡ one_more self.old.left_out }
        ensures told { TellsStall (is_stalled (stalling_of A.contents self.old)) (told_of A.contents self.old.err) (told_of A.contents self.new.err) }
    {
        if !self.is_stalled() {
            tell(&mut self.err, Fault::OutputStalled);
        }
        self.left_out = self.left_out.saturating_add(1);
    }

    /// Reports how many tables were left out, if some were. None are from now on.
    pub fn go_on(&mut self)
        ensures count { self.new.left_out ≡ 0 }
        ensures told { TellsGoingOn (is_stalled (stalling_of A.contents self.old)) self.old.left_out (told_of A.contents self.old.err) (told_of A.contents self.new.err) }
    {
        if self.is_stalled() {
            tell(&mut self.err, Fault::OutputGoesOn(self.left_out));
        }
        self.left_out = 0;
    }
}
