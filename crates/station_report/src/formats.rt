//! The formats of the table.

ghost use Rattle.std.specs.Prelude.{All};
ghost use Rattle.station_report.specs.Format.{table_text};
ghost use Rattle.streams.specs.Sink.{TakesAll};
ghost use Rattle.station_report.specs.Text.{IsPrintableRow};

use crate::json::table_json;
use crate::lines::table;
use station_journal::PlacedRows;
use streams::{Sink, WriteFault};

/// How a table is written.
#[derive(Clone, Copy, Debug, PartialEq, Eq)]
pub enum Format {
    /// Columns, a line for each aircraft: see [`table`].
    Text,
    /// A line of JSON: see [`table_json`].
    Json {
        /// The time in milliseconds at which the clock of the table begins.
        origin: u64,
    },
}

/// Writes the table of `rows` in this format, at the time `now` in milliseconds.
///
/// `entries` is the `messages` of JSON, and text doesn't have it. Each row must be heard by `now`, and its position must
/// have denominators of at least 1.
///
/// [`WriteFault`] where the sink failed: it has taken a prefix of the table, and is given no more.
pub fn table_as<R: PlacedRows, S: Sink>(
    format: Format,
    rows: &R,
    now: u64,
    entries: u64,
    out: &mut S,
) -> Result<(), WriteFault>
    requires rows { All (IsPrintableRow now) (R.rows rows.now) }
    ensures { TakesAll (S.state out.old) (S.state out.new)
        (table_text format (R.rows rows.now) (R.moments rows.now) now entries) result }
{
    match format {
        Format::Text => table(rows, now, out),
        Format::Json { origin } => table_json(rows, now, origin, entries, out),
    }
}
