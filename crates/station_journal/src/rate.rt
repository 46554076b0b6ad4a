//! Vertical rates with what measured them.

ghost use Rattle.std.specs.Prelude.{◌≡◌};
ghost use Rattle.station_journal.specs.Rates.{rate_with, feet_in, source_in};

use modes_fields::RateSource;

/// A vertical rate, and what measured it.
#[derive(Clone, Copy, Debug, PartialEq, Eq)]
pub struct Rate {
    /// In feet per minute, negative downwards: -32,640 to 32,640.
    pub feet: i32,
    pub source: Option<RateSource>,
}

impl Rate {
    /// The rate with its source, if there is a rate.
    pub fn of(feet: Option<i32>, source: Option<RateSource>) -> Option<Self>
        ensures { result ≡ rate_with source feet }
    {
        let feet = feet?;
        Some(Rate { feet, source })
    }
}

/// The feet per minute of a rate, if there is one.
pub fn feet_in(rate: Option<Rate>) -> Option<i32>
    ensures { result ≡ feet_in rate }
{
    Some(rate?.feet)
}

/// What measured a rate, if there is one.
pub fn source_in(rate: Option<Rate>) -> Option<RateSource>
    ensures { result ≡ source_in rate }
{
    rate?.source
}
