//! The rows of the table.
ghost use Rattle.std.specs.Prelude.{◌≡◌, ◌<◌, List, length, slice_get, Some, vec_len};
ghost use Rattle.station_journal.specs.declared.aircraft.Aircraft.{Aircraft};

use modes_cpr::Position;
use modes_fields::{Callsign, Category, Emergency, RateSource, Squawk, Velocity};

/// A value, and the time of the frame that gave it, in milliseconds.
#[derive(Clone, Copy, Debug, PartialEq, Eq)]
pub struct Stamped<T> {
    pub value: T,
    pub at: u64,
}

/// A row of the table: a live aircraft, with the newest value of each field that is at most 60,000 ms old.
#[derive(Clone, Copy, Debug, PartialEq, Eq)]
pub struct Aircraft {
    /// The ICAO address, below 2^24.
    pub address: u32,
    pub callsign: Option<Callsign>,
    pub category: Option<Category>,
    /// In feet.
    pub altitude: Option<i32>,
    pub squawk: Option<Squawk>,
    /// What it reports of emergencies. That it has none is a report too.
    pub emergency: Option<Emergency>,
    /// Over ground, in the air or, where the site is given, on the ground.
    pub velocity: Option<Velocity>,
    /// In feet per minute.
    pub vertical: Option<i32>,
    /// What measured the vertical rate, where that is known.
    pub rate_source: Option<RateSource>,
    /// Where the site is given: whether its newest place is that of a surface position.
    pub on_ground: Option<bool>,
    /// In degrees.
    pub position: Option<Position>,
    /// The time of its newest frame, in milliseconds.
    pub heard: u64,
}

/// The rows of a table.
pub trait Rows {
    ghost rows: { Self → List Aircraft };

    /// The number of rows.
    fn len(&self) -> usize
        ensures { result ≡ length (rows self.now) };

    /// The row at place `i`, counted from 0.
    fn row(&self, i: usize) -> Aircraft
        requires { i < length (rows self.now) }
        ensures { slice_get (rows self.now) i ≡ Some result };
}

impl Rows for Vec<Aircraft> {
    ghost rows = { λ aircraft. aircraft.items };

    fn len(&self) -> usize {
        self.as_slice().len()
    }

    fn row(&self, i: usize) -> Aircraft {
        self[i]
    }
}
