//! Laws over the definitions alone: what they mean, in terms of places in the list of entries.

ghost use Rattle.std.specs.Prelude.{◌≡◌, ◌↔◌, is_some, ℕ, List, ◌++◌, All, map, Some, None, if◌then◌else◌, ◌<◌, [], length};
ghost use Rattle.station_journal.specs.declared.limits.Limits.{Limits};
ghost use Rattle.station_journal.specs.Resume.{IsSound, LegalFrom, StandsFor, recent_base, recent_of};
ghost use Rattle.std.specs.List.Sorted.{IsStrictlyIncreasing};
ghost use Rattle.station_journal.specs.declared.entry.Entry.{Entry};
ghost use Rattle.station_journal.specs.declared.aircraft.Aircraft.{Aircraft};
ghost use Rattle.modes_fields.specs.Carried.{fields_of};
ghost use Rattle.station_journal.specs.Past.{Frame, Site, IsTimed, clock, live, fresh, life_ms, newest, newest_fix, sighting_of, callsign_of, even_spot_of, odd_spot_of};
ghost use Rattle.station_journal.specs.Table.{altitude_of, category_of, emergency_of, squawk_of, velocity_of, ground_of, vertical_of, rate_of, IsTableRow, row, find_row, placed};
ghost use Rattle.station_journal.specs.Airborne.{newest_airborne_fix};
ghost use Rattle.station_journal.specs.Newest.{FindsNewest, FindsNewestPosition, IsPlacedAt};
ghost use Rattle.station_journal.specs.Log.{Log, IsLegal, past_of, clock_of, table_of, refusal_of};
ghost use Rattle.station_journal.specs.Unlimited.{unlimited_past, unlimited_refusal, GoesOnAs};

/// The search finds a field in the newest frame of the aircraft that carries it.
pub fn newest_reading()
    ensures sighting { FindsNewest sighting_of }
    ensures callsign { FindsNewest callsign_of }
    ensures category { FindsNewest category_of }
    ensures altitude { FindsNewest altitude_of }
    ensures squawk { FindsNewest squawk_of }
    ensures emergency { FindsNewest emergency_of }
    ensures velocity { (site : Site) → FindsNewest (velocity_of site) }
    ensures vertical { FindsNewest vertical_of }
    ensures rate { FindsNewest rate_of }
    ensures on_ground { (site : Site) → FindsNewest (ground_of site) }
    ensures even_place { (site : Site) → FindsNewest (even_spot_of site) }
    ensures odd_place { (site : Site) → FindsNewest (odd_spot_of site) }
{}

/// The vertical rate of a row is the newest of its aircraft. Its source is read from the same frame.
pub fn rate_of_a_row()
    ensures { (site : Site) (base a : ℕ) (past : List Entry) →
        (row site base past a).vertical ≡ fresh life_ms (clock base past) (newest vertical_of base a past) }
{}

/// The position comes from the newest place of the aircraft that gives one with an earlier place of the other parity.
/// That earlier place is the newest of its parity, and at most 10,000 ms older. Both are airborne places, or both are
/// surface places.
pub fn newest_position()
    ensures { FindsNewestPosition }
{}

/// Without a site a row has what airborne positions and velocities give, and nothing is on the ground.
pub fn rows_without_a_site()
    ensures velocity { (frame : Frame) → velocity_of None frame ≡ (fields_of frame).velocity }
    ensures position { (base a : ℕ) (past : List Entry) → newest_fix None base a past ≡ newest_airborne_fix base a past }
    ensures on_ground { (base a : ℕ) (past : List Entry) → (row None base past a).on_ground ≡ None }
{}

/// No refusal depends on the site.
pub fn refusals_at_any_site()
    ensures { (log : Log) (site : Site) (call : Entry) →
        refusal_of (record log { limits = record log.limits { site = site } }) call ≡ refusal_of log call }
{}

/// The time of a position is that of the newest frame that gives one. There is a time exactly where the row has a
/// position.
pub fn time_of_a_position()
    ensures frame { (site : Site) (base a at : ℕ) (past : List Entry) → (placed site base past a ≡ Some at) ↔ IsPlacedAt site base a past at }
    ensures row { (site : Site) (base a : ℕ) (past : List Entry) → is_some (placed site base past a) ≡ is_some (row site base past a).position }
{}

/// In the table of a legal journal:
///
/// - the addresses rise;
/// - each aircraft was heard at most 60,000 ms before the clock;
/// - the denominators of a position are at least 1.
pub fn rows_of_a_table()
    ensures addresses { (log : Log) → IsStrictlyIncreasing (map (λ (r : Aircraft). r.address) (table_of log)) }
    ensures rows { (log : Log) → IsLegal log → All (IsTableRow (clock_of log)) (table_of log) }
{}

/// The table has the row of each live aircraft, and none of any other.
pub fn rows_of_the_live()
    ensures { (log : Log) (a : ℕ) → find_row a (table_of log) ≡
        (if live log.base (past_of log) a then Some (row log.limits.site log.base (past_of log) a) else None) }
{}

/// Each beginning of a legal journal is legal.
pub fn legal_beginning()
    ensures { (log : Log) (front rest : List Entry) → log.entries ≡ front ++ rest → IsLegal log → IsLegal (record log { entries = front }) }
{}

/// The recent entries of a sound list can take its place: they give the same clock, the same table with the times of
/// its positions, and the same replies as long as none is `JournalFull`. A legal journal is sound.
pub fn recent_entries_stand()
    ensures stand { (limits : Limits) (base : ℕ) (past : List Entry) → IsSound limits base past →
        StandsFor limits base past (recent_base base past) (recent_of base past) }
    ensures legal { (limits : Limits) (base resumed : ℕ) (past : List Entry) →
        LegalFrom limits base resumed past → IsSound limits base past }
{}

/// Without a limit of entries, the recent entries can take the place of a past for ever. Any later calls get the same
/// replies, and leave the same clock and table.
pub fn recent_entries_go_on()
    ensures { (aircraft base : ℕ) (past : List Entry) → IsTimed base past →
        GoesOnAs aircraft base past (recent_base base past) (recent_of base past) }
{}

/// What is forgotten stays forgotten. After further entries, the recent ones are found in what was kept before them, with
/// their base.
pub fn forgotten_entries_stay_old()
    ensures entries { (base : ℕ) (newer past : List Entry) → IsTimed base (newer ++ past) →
        recent_of (recent_base base past) (newer ++ recent_of base past) ≡ recent_of base (newer ++ past) }
    ensures base { (base : ℕ) (newer past : List Entry) → IsTimed base (newer ++ past) →
        recent_base (recent_base base past) (newer ++ recent_of base past) ≡ recent_base base (newer ++ past) }
{}

/// As long as a journal has room, it refuses what one without a limit of entries does. In what calls leave of the latter,
/// each tick is later than the clock before it.
pub fn unlimited_journals()
    ensures room { (log : Log) (call : Entry) → length log.entries < log.limits.entries →
        refusal_of log call ≡ unlimited_refusal log.limits.aircraft log.base (past_of log) call }
    ensures timed { (aircraft base : ℕ) (calls : List Entry) → IsTimed base (unlimited_past aircraft base [] calls) }
{}
