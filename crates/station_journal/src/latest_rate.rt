//! What is known of the vertical rate.

ghost use Rattle.std.specs.Prelude.{◌≡◌, None};
ghost use Rattle.station_journal.specs.Past.{stamp, or_older};

use crate::{Rate, Stamped};
use modes_fields::RateSource;
use std::marker::Model;

/// The newest vertical rate with its time, if there is one. Contracts see it as an `Option<Stamped<Rate>>`. It takes 16
/// bytes, and a `Latest<Rate>` would take 24.
#[derive(Clone, Copy)]
pub struct LatestRate {
    value: DatedRate,
}

// The source has its place beside the tag.
#[derive(Clone, Copy)]
enum DatedRate {
    Never,
    Last {
        source: Option<RateSource>,
        feet: i32,
        at: u64,
    },
}

impl Model for LatestRate {
    ghost use Rattle.std.specs.Prelude.{Option};
    ghost use Rattle.station_journal.specs.declared.aircraft.Stamped.{Stamped};
    ghost use Rattle.station_journal.specs.declared.rate.Rate.{Rate};

    ghost Value = { Option (Stamped Rate) };

    ghost use Rattle.station_journal.specs.LatestRate.{stamped_in, latest_as, latest_as-stamped_in};

    ghost view = { stamped_in };

    ghost inverse = { latest_as };

    ghost inverse_ok = { latest_as-stamped_in };
}

impl LatestRate {
    /// Nothing is known yet.
    pub fn nothing() -> Self
        ensures { result ≡ None }
    {
        LatestRate {
            value: DatedRate::Never,
        }
    }

    /// The rate with its time.
    pub fn stamped(&self) -> Option<Stamped<Rate>>
        ensures { result ≡ self.now }
    {
        match self.value {
            DatedRate::Never => None,
            DatedRate::Last { source, feet, at } => Some(Stamped {
                value: Rate { feet, source },
                at,
            }),
        }
    }

    /// Keeps a newer rate with its time, if there is one.
    pub fn keep(&mut self, at: u64, rate: Option<Rate>)
        ensures { self.new ≡ or_older (stamp at rate) self.old }
    {
        if let Some(Rate { feet, source }) = rate {
            self.value = DatedRate::Last { source, feet, at };
        }
    }
}

impl Default for LatestRate {
    fn default() -> Self {
        LatestRate::nothing()
    }
}
