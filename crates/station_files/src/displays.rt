//! The folder in which displays find the tables.
ghost use Rattle.std.specs.Prelude.{◌≡◌, ◌≤◌, IfOk, IfSome, codes, false, is_some};
ghost use Rattle.std.specs.String.{string_bytes};
ghost use Rattle.station_replay.specs.Replay.{table_in};
ghost use Rattle.station_history.specs.Start.{log_of};
ghost use Rattle.station_report.specs.declared.formats.Format.TheVariants as Formats;
ghost use Rattle.station_files.specs.Displays.{HasReportedWrite, IsReported, ReportsWrite, have_failed, in_folder};
ghost use Rattle.messages.specs.Status.{fault_status};
ghost use Rattle.messages.specs.Telling.{told_of};

use crate::shown_file::{ShownFile, file_in, write_readable};
use crate::since_1970::milliseconds;
use command_line::VERSION;
use messages::{Fault, Reason, StandardError, tell};
use modes_cpr::{Degrees, Position, Reference};
use station_report::{Format, latitude_field, longitude_field, table_as};
use station_shared::{Look, StationName};
use station_watch::Watch;
use std::alloc::{AllocError, Global};
use std::fs::{self, File};
use std::io::Write;
use std::marker::Model;
use std::mem::replace;
use std::rt::Files;
use std::time::Clock;
use streams::{ToWrite, WriteFault};

/// The folder in which displays find the tables, as JSON.
#[derive(Drop)]
pub struct Displays<A: Write> {
    alloc: Global,
    table: ShownFile,
    // What is known of the receivers, where they are watched.
    receivers: ShownFile,
    // The file that displays read first, and its text.
    first: String,
    about: Vec<u8>,
    // The time at which the clock of the tables begins, in milliseconds since 1970.
    origin: u64,
    // Whether that follows the system's clock.
    follows: bool,
    // Whether a write failed.
    has_failed: bool,
    // Whether the last write failed.
    is_failing: bool,
    // Where a failed write is reported at once, and the next that doesn't fail.
    alarm: StandardError<A>,
}

impl<A: Write> Model for Displays<A> {
    ghost use Rattle.std.specs.Prelude.{◌≡◌};
    ghost use Rattle.std.specs.String.{string_bytes};
    ghost use Rattle.station_files.specs.Displays.{Folder, IsReported};
    ghost use Rattle.messages.specs.Telling.{told_of};

    ghost Value = { Folder };

    ghost view = { λ d. record {
      table = string_bytes d.table.path;
      origin = d.origin;
      follows = d.follows;
      shown = record { has_failed = d.has_failed; is_failing = d.is_failing; alarm = told_of A.contents d.alarm };
    } };

    ghost invariant = { λ d. IsReported (string_bytes d.table.path)
        (record { has_failed = d.has_failed; is_failing = d.is_failing; alarm = told_of A.contents d.alarm }) };
}

/// What a folder for displays is begun with.
#[derive(Clone, Copy)]
pub struct DisplayOptions<'a> {
    pub folder: &'a str,
    /// The milliseconds between two writings.
    pub every: u32,
    /// When the clock of the tables began, in milliseconds since 1970.
    pub origin: u64,
    /// Whether the origin is read anew at each table.
    pub follows: bool,
    /// The place of the receivers, if it is given.
    pub site: Option<Reference>,
}

impl<A: Write + Drop> Displays<A> {
    /// Begins to show tables in a folder: writes what displays read first. A failed write is reported to `alarm`. Refused if out of
    /// memory.
    pub fn begin<R: Files<File = File>>(
        rt: &R,
        alloc: Global,
        options: DisplayOptions<'_>,
        alarm: StandardError<A>,
    ) -> Result<Self, AllocError>
        ensures table { IfOk result (λ d. d.table ≡ in_folder options.entry.folder.now (codes "aircraft.json")) }
        ensures origin { IfOk result (λ d. d.origin ≡ options.entry.origin) }
        ensures follows { IfOk result (λ d. d.follows ≡ options.entry.follows) }
    {
        let folder = options.folder;
        let mut displays = Displays {
            alloc,
            table: ShownFile::at(alloc, folder, "aircraft.json")?,
            receivers: ShownFile::at(alloc, folder, "receivers.json")?,
            first: file_in(alloc, folder, "receiver.json")?,
            about: receiver_text(alloc, VERSION, options.every, options.site)?,
            origin: options.origin,
            follows: options.follows,
            has_failed: false,
            is_failing: false,
            alarm,
        };
        let written = displays.write_first(rt);
        displays.report_write(written);
        Ok(displays)
    }
}

impl<A: Write> Displays<A> {
    /// Reads anew when the clock of the tables began, if that follows the system's clock. Now it shows `at`. Where the system's
    /// can't be read nothing changes.
    pub fn date<R: Clock>(&mut self, rt: &R, at: u64)
        ensures table { self.new.table ≡ self.old.table }
        ensures fixed { self.old.follows ≡ false → self.new.origin ≡ self.old.origin }
        ensures follows { self.new.follows ≡ self.old.follows }
        ensures shown { self.new.shown ≡ self.old.shown }
    {
        if !self.follows {
            return;
        }
        if let Ok(passed) = rt.since_1970() {
            self.origin = milliseconds(passed).saturating_sub(at);
        }
    }

    // Writes what displays read first.
    fn write_first<R: Files<File = File>>(&self, rt: &R) -> Result<(), Reason> {
        write_readable(rt, self.first.as_str(), self.about.as_slice())
    }

    // Writes a table, and what is known of the receivers, if they are watched. What displays read first is written again where
    // it may be missing.
    fn replace<R: Files<File = File>>(
        &self,
        rt: &R,
        text: &[u8],
        watch: &Option<Watch<A>>,
    ) -> Result<(), Reason> {
        if self.is_failing || !fs::exists(rt, self.first.as_str()).unwrap_or(false) {
            self.write_first(rt)?;
        }
        self.table.replace(rt, text)?;
        let Some(watch) = watch else {
            return Ok(());
        };
        match watch.text(self.alloc, self.origin) {
            Ok(text) => self.receivers.replace(rt, text.as_slice()),
            Err(_) => Err(Reason::NoMemory),
        }
    }

    // Reports a write that failed, unless the one before did, and one that went well after one that failed.
    fn report_write(&mut self, written: Result<(), Reason>)
        ensures table { self.new.table ≡ self.old.table }
        ensures origin { self.new.origin ≡ self.old.origin }
        ensures follows { self.new.follows ≡ self.old.follows }
        ensures reported { HasReportedWrite self.old.table written self.old.shown self.new.shown }
    {
        let was_failing = replace(&mut self.is_failing, written.is_err());
        self.has_failed |= written.is_err();
        tell_change(
            &mut self.alarm,
            self.table.path.as_str(),
            was_failing,
            written,
        );
    }
}

// Tells that a write of this table failed, unless the one before did, or that it went well after one that failed.
fn tell_change<A: Write>(
    alarm: &mut StandardError<A>,
    table: &str,
    was_failing: bool,
    written: Result<(), Reason>,
)
    ensures { ReportsWrite table.now was_failing written (told_of A.contents alarm.old) (told_of A.contents alarm.new) }
{
    match written {
        Ok(()) if was_failing => {
            tell(alarm, Fault::WritesAgain(table));
        }
        Err(reason) if !was_failing => {
            tell(alarm, Fault::CannotWrite(table, reason));
        }
        _ => {}
    }
}

// What displays read first: the version of the program, the milliseconds from one table to the next, and the place of the
// receivers if it is given.
fn receiver_text(
    alloc: Global,
    version: &str,
    every: u32,
    site: Option<Reference>,
) -> Result<Vec<u8>, AllocError> {
    let start = format!(in alloc;
        "{{\"version\":\"groundstation {version}\",\"refresh\":{every},\"history\":0"
    )?;
    let mut text = start.into_bytes();
    if let Some(site) = site {
        let place = Position {
            lat: degrees(site.lat),
            lon: degrees(site.lon),
        };
        text.extend_from_slice(b",\"lat\":")?;
        text.extend_from_slice(latitude_field(place).as_slice())?;
        text.extend_from_slice(b",\"lon\":")?;
        text.extend_from_slice(longitude_field(place).as_slice())?;
    }
    text.push(b'}')?;
    Ok(text)
}

// An angle in 1/10,000,000 degree.
fn degrees(angle: i32) -> Degrees
    ensures num { result.num ≡ angle }
    ensures den { result.den ≡ 10000000 }
{
    Degrees {
        num: i64::from(angle),
        den: 10_000_000,
    }
}

// The table of a look as JSON.
fn json_of<const N: usize, L: StationName>(
    alloc: Global,
    look: &Look<N, L>,
    origin: u64,
) -> Result<Vec<u8>, WriteFault>
    ensures { IfOk result (λ text. text.items ≡ table_in (Formats.Json origin) (log_of L.start look.now.seen)) }
{
    let mut out = ToWrite::new(Vec::new(alloc));
    table_as(
        Format::Json { origin },
        look,
        look.now(),
        look.entries(),
        &mut out,
    )?;
    Ok(out.into_inner())
}

/// The table of a look for displays, if there are any.
pub fn table_for<const N: usize, L: StationName, A: Write>(
    displays: &Option<Displays<A>>,
    look: &Look<N, L>,
) -> Option<Result<Vec<u8>, WriteFault>>
    ensures made { is_some result ≡ is_some displays.now }
    ensures text { IfSome displays.now (λ d. IfSome result (λ r. IfOk r (λ text.
        text.items ≡ table_in (Formats.Json d.origin) (log_of L.start look.now.seen)))) }
{
    match displays {
        Some(displays) => Some(json_of(displays.alloc, look, displays.origin)),
        None => None,
    }
}

/// Puts a table where displays find it, if there are any, with what is known of the receivers, if they are watched. A failed write is reported once, and so is the next one that doesn't
/// fail.
pub fn put_table<R: Files<File = File>, A: Write>(
    displays: &mut Option<Displays<A>>,
    watch: &Option<Watch<A>>,
    rt: &R,
    table: Option<Result<Vec<u8>, WriteFault>>,
) {
    if let (Some(displays), Some(table)) = (displays, table) {
        let written = match table {
            Ok(text) => displays.replace(rt, text.as_slice(), watch),
            Err(_) => Err(Reason::NoMemory),
        };
        displays.report_write(written);
    }
}

/// The status of the tables for displays: 1 if a write of them failed, else 0.
pub fn status_of<A: Write>(displays: &Option<Displays<A>>) -> u8
    ensures value { result ≡ fault_status (have_failed displays.now) }
    ensures reported { IfSome displays.now (λ d. IsReported d.table d.shown) }
    ensures most { result ≤ 1 }
{
    match displays {
        Some(displays) if displays.has_failed => 1,
        _ => 0,
    }
}
