//! Laws over the definitions alone: the lines of a table have their columns, and its values are read back from its bytes.

ghost use Rattle.std.specs.Prelude.{◌≡◌, ℕ, ◌<◌, ◌^◌, ℤ, pos, unsigned_abs, map, All};
ghost use Rattle.std.specs.Fmt.{decimal, signed_decimal};
ghost use Rattle.std.specs.List.{Contains};
ghost use Rattle.station_journal.specs.Log.{Log, IsLegal, clock_of, table_of, placed_of};
ghost use Rattle.station_journal.specs.declared.aircraft.Aircraft.{Aircraft};
ghost use Rattle.modes_cpr.specs.declared.points.Position.{Position};
ghost use Rattle.station_report.specs.Json.{json, low_address, seconds, tenths};
ghost use Rattle.station_report.specs.Text.{latitude_text, longitude_text, row_text, squawk_text, text};
ghost use Rattle.table_laws.specs.Ranges.{IsInRange, IsOnEarth};
ghost use Rattle.table_laws.specs.Columns.{IsLaidOut};
ghost use Rattle.table_laws.specs.Reading.{read_hex, read_octal, read_row, read_table, shown_latitude, shown_longitude, shown_row};
ghost use Rattle.table_laws.specs.JsonLine.{IsJsonLine, Spells};
ghost use Rattle.table_laws.specs.JsonValue.{table_value};

/// In the table of a legal journal each field is in the range that frames can carry.
pub fn rows_are_in_range()
    ensures { (log : Log) → IsLegal log → All (IsInRange (clock_of log)) (table_of log) }
{}

/// The line of each row of the table of a legal journal has 73 bytes and a line feed, each field in its columns.
pub fn rows_have_columns()
    ensures { (log : Log) → IsLegal log →
        All (λ (row : Aircraft). IsLaidOut (clock_of log) row (row_text (clock_of log) row)) (table_of log) }
{}

/// All that a row of the table of a legal journal shows is read back from the bytes of its line. So two rows with the same
/// line, of any two tables, show the same.
pub fn rows_read_back()
    ensures reading { (log : Log) → IsLegal log →
        All (λ (row : Aircraft). read_row (row_text (clock_of log) row) ≡ shown_row (clock_of log) row) (table_of log) }
    ensures same { (log other : Log) → IsLegal log → IsLegal other → (row found : Aircraft) →
        Contains (table_of log) row → Contains (table_of other) found →
        row_text (clock_of log) row ≡ row_text (clock_of other) found →
        shown_row (clock_of log) row ≡ shown_row (clock_of other) found }
{}

/// The rows that the table of a legal journal shows are read back, in their order, from its text. So two tables with the
/// same text show the same rows. The clock is below 2^64 ms.
pub fn tables_are_read()
    ensures { (log : Log) → IsLegal log → clock_of log < 2 ^ 64 →
        read_table (text (table_of log) (clock_of log)) ≡ map (shown_row (clock_of log)) (table_of log) }
{}

/// The JSON of the table of a legal journal is one value and a line feed. The grammar of the crate `json` (RFC 8259) reads
/// the table's value from it, member by member, and no object has a key twice. The times in milliseconds and the number of
/// entries are below 2^64.
pub fn json_reads_back()
    ensures { (log : Log) (origin entries : ℕ) → IsLegal log → clock_of log < 2 ^ 64 → origin < 2 ^ 64 → entries < 2 ^ 64 →
        IsJsonLine (json (table_of log) (placed_of log) (clock_of log) origin entries)
        (table_value (table_of log) (placed_of log) (clock_of log) origin entries) }
{}

/// What the texts in that value say: each number is read back, with its decimals, and so are an address and a squawk.
pub fn values_read_back()
    ensures whole { (z : ℤ) → unsigned_abs z < 2 ^ 63 → Spells (signed_decimal z) z 0 }
    ensures natural { (n : ℕ) → n < 2 ^ 64 → Spells (decimal n) (pos n) 0 }
    ensures tenths { (n : ℕ) → n < 2 ^ 64 → Spells (tenths n) (pos n) 1 }
    ensures thousandths { (n : ℕ) → n < 2 ^ 65 → Spells (seconds n) (pos n) 3 }
    ensures latitude { (p : Position) → IsOnEarth p → Spells (latitude_text p) (shown_latitude p) 5 }
    ensures longitude { (p : Position) → IsOnEarth p → Spells (longitude_text p) (shown_longitude p) 5 }
    ensures address { (a : ℕ) → a < 2 ^ 24 → read_hex (low_address a) ≡ a }
    ensures squawk { (code : ℕ) → code < 4096 → read_octal (squawk_text code) ≡ code }
{}
