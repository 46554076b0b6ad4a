//! What a run writes beside its output.
ghost use Rattle.std.specs.Prelude.{◌≡◌};
ghost use Rattle.station_reporter.specs.LimitAlarms.{TellsLimits, limits_told, met_limits};

use crate::limit_alarm::LimitAlarm;
use crate::requests::Requests;
use crate::schedule::RunClock;
use station_counts::LimitsMet;
use station_files::{Displays, Recorder};
use station_watch::Watch;
use std::io::Write;
use std::time::Clock;
use streams::Sink;

/// A record, a folder for displays and a watch of the paths, each only where it was asked for, and what reports full limits.
#[derive(Drop)]
pub struct Beside<T: Sink, A: Write> {
    pub record: Option<Recorder<T, A>>,
    pub displays: Option<Displays<A>>,
    pub limits: LimitAlarm<A>,
    pub watch: Option<Watch<A>>,
}

impl<T: Sink, A: Write> Beside<T, A> {
    /// Reports the limits that the calls of a station have met, each once.
    pub fn report_limits(&mut self, met: LimitsMet)
        ensures record { self.new.record ≡ self.old.record }
        ensures told { TellsLimits (limits_told A.contents self.old.limits) (met_limits met) (limits_told A.contents self.new.limits) }
    {
        self.limits.report(met);
    }

    /// Reports the changes of the paths at `now`, in milliseconds of the run's clock, if they are watched.
    pub fn look_at_paths(&mut self, requests: &Requests, now: u64)
        ensures { self.new.record ≡ self.old.record }
    {
        if let Some(watch) = &mut self.watch {
            watch.look(&requests.hand_overs, now);
        }
    }

    /// The same at the time of the last look.
    pub fn look_again(&mut self, requests: &Requests)
        ensures { self.new.record ≡ self.old.record }
    {
        if let Some(watch) = &mut self.watch {
            watch.look_again(&requests.hand_overs);
        }
    }

    /// Reads anew when the clock of the tables for displays began, if that follows the system's clock. Now it shows `at`.
    pub fn date<R: Clock>(&mut self, rt: &R, at: u64)
        ensures { self.new.record ≡ self.old.record }
    {
        if let Some(displays) = &mut self.displays {
            displays.date(rt, at);
        }
    }

    /// The same by the clock of the run.
    pub fn date_by<R: Clock>(&mut self, rt: &R, clock: RunClock)
        ensures { self.new.record ≡ self.old.record }
    {
        if self.displays.is_some() {
            let at = clock.now(rt);
            self.date(rt, at);
        }
    }
}
