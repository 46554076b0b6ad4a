//! Reports that a job is full.
ghost use Rattle.std.specs.Prelude.{◌≡◌};
ghost use Rattle.station_reporter.specs.LimitAlarms.{TellsLimit, TellsLimits, has_limit, limit_if, limits_told, met_limits, no_limits_told, with_limit};
ghost use Rattle.messages.specs.Telling.{told_of};

use messages::{Fault, StandardError, tell};
use station_counts::LimitsMet;
use station_journal::FullLimit;
use station_replay::LimitObserver;
use std::io::Write;
use std::mem::replace;

/// Reports at once that the journal or the table of a job is full, each the first time that a call met it.
#[derive(Drop)]
pub struct LimitAlarm<A> {
    err: StandardError<A>,
    reported: LimitsMet,
}

impl<A: Write> LimitAlarm<A> {
    /// An alarm on this standard error, which has reported nothing.
    pub fn new(err: A) -> Self
        ensures { limits_told A.contents result ≡ no_limits_told (A.contents err) }
    {
        LimitAlarm {
            err: StandardError::new(err),
            reported: LimitsMet {
                journal: false,
                table: false,
            },
        }
    }

    /// Reports the limits that the calls of a station have met, unless it has before.
    pub fn report(&mut self, met: LimitsMet)
        ensures { TellsLimits (limits_told A.contents self.old) (met_limits met) (limits_told A.contents self.new) }
    {
        self.report_if(met.journal, FullLimit::Journal);
        self.report_if(met.table, FullLimit::Table);
    }

    // Reports a limit if it was met, unless it has before.
    fn report_if(&mut self, is_met: bool, limit: FullLimit)
        ensures { TellsLimits (limits_told A.contents self.old) (limit_if is_met limit) (limits_told A.contents self.new) }
    {
        if is_met {
            self.limit_met(limit);
        }
    }

    // Notes that a limit is reported. Answers whether it was before.
    fn note(&mut self, limit: FullLimit) -> bool
        ensures was { result ≡ has_limit self.old.reported limit }
        ensures reported { self.new.reported ≡ with_limit self.old.reported limit }
        ensures told { told_of A.contents self.new.err ≡ told_of A.contents self.old.err }
    {
        match limit {
            FullLimit::Journal => replace(&mut self.reported.journal, true),
            FullLimit::Table => replace(&mut self.reported.table, true),
        }
    }
}

impl<A: Write> LimitObserver for LimitAlarm<A> {
    ghost use Rattle.std.proofs.Common.{refl};
    ghost use Rattle.station_reporter.specs.LimitAlarms.{TellsLimits, limits_told};
    ghost use Rattle.station_reporter.specs.LimitAlarmLaws.{TellsLimits-then};

    ghost met = { λ x limits y. TellsLimits (limits_told A.contents x) limits (limits_told A.contents y) };

    fn limit_met(&mut self, limit: FullLimit) {
        let was_reported = self.note(limit);
        tell_limit(&mut self.err, was_reported, limit);
    }

    ghost none = { λ x. refl };

    ghost then = { λ x y z cs ds p q. TellsLimits-then _ _ _ cs ds p q };
}

// Tells that a limit is full, unless that was reported.
fn tell_limit<A: Write>(err: &mut StandardError<A>, was_reported: bool, limit: FullLimit)
    ensures { TellsLimit was_reported limit (told_of A.contents err.old) (told_of A.contents err.new) }
{
    if was_reported {
        return;
    }
    let fault = match limit {
        FullLimit::Journal => Fault::JournalFull,
        FullLimit::Table => Fault::TableFull,
    };
    tell(err, fault);
}
