//! The name of one station: its ledger, and how it began.
use std::marker::Brand;
use std::sync::ledger::Ledger;

/// Names one station in clauses. No value of it is made.
pub trait StationName: Ledger {
    ghost use Rattle.std.specs.Prelude.{ℕ};
    ghost use Rattle.station_history.specs.Start.{Start};

    /// The number of seats, each with one part of the ledger.
    ghost seats: { ℕ };

    /// What the station began with: its history, its limits, and the number of entries that it was resumed from.
    ghost start: { Start };
}

impl StationName for Brand {
    ghost use Rattle.std.specs.Prelude.{[], None};

    ghost seats = { 0 };

    ghost start = { record {
      history = record { book = record { number = 0; log_name = 0; cells_name = 0 }; names = [] };
      limits = record { entries = 0; aircraft = 0; site = None };
      resumed = 0;
    } };
}
