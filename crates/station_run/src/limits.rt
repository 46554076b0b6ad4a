//! The limits of the program.
ghost use Rattle.std.specs.Prelude.{◌≡◌};
ghost use Rattle.station_run.specs.Limits.{program_limits};

use modes_cpr::Reference;
use station_journal::{Limits, MOST_ENTRIES};

/// The most aircraft that may be live at once.
pub const AIRCRAFT: usize = 512;

/// The most entries of a journal, 16,777,216, the most live aircraft, and the place of the receivers, if it is given.
pub fn limits(site: Option<Reference>) -> Limits
    ensures { result ≡ program_limits site }
{
    Limits {
        entries: MOST_ENTRIES,
        aircraft: AIRCRAFT as u32,
        site,
    }
}

/// A replay forgets the entries that aren't recent once it has this many, and a station of `run` hands over. A quarter of the
/// journal is left for those that come before the next tick.
pub const FORGET_AT: u64 = 12_582_912;

/// The most reads of one input.
pub const TURNS: u32 = u32::MAX;

/// The room of the text of a table on its way to the output, in bytes: a full table as JSON. As text a row has 74 bytes.
pub const TABLE_ROOM: usize = 147_456;

// The most bytes of a row as JSON, with its comma: 112 of the address, callsign, altitude `ground` and velocity over ground, 54 of
// the vertical rate and squawk, 51 of the position, 40 of the category and emergency, 13 of the level, and 16 of the time that it
// was heard.
const LONGEST_ROW: usize = 286;

// The most bytes of a table as JSON before and after its rows.
const AROUND_ROWS: usize = 112;

const _: () = prove!(AIRCRAFT * LONGEST_ROW + AROUND_ROWS <= TABLE_ROOM);
