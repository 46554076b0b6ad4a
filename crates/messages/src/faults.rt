//! What the program prints on standard error.
ghost use Rattle.std.specs.Prelude.{◌≡◌, ◌++◌};
ghost use Rattle.messages.specs.Telling.{Tells, fault_line, tally_line, told_of};

use crate::reason::Reason;
use crate::standard_error::StandardError;
use station_lines::Tally;
use std::fmt::{self, Display, Formatter};
use std::io::Write;

/// What is reported on standard error. Most end a job with status 1.
#[derive(Clone, Copy, Debug, PartialEq, Eq)]
pub enum Fault<'a> {
    /// An input couldn't be read.
    Read,
    /// The output couldn't be written.
    Write,
    /// The output is read too slowly: tables are left out. It ends no job.
    OutputStalled,
    /// The output takes tables again, after as many were left out. It ends no job.
    OutputGoesOn(u64),
    /// An input hasn't ended after 2^32 - 1 reads.
    TooManyReads,
    /// An allocation was refused.
    NoMemory,
    /// This path, as it was given, couldn't be opened.
    CannotOpen(&'a str),
    /// The thread of a path or of the reporter couldn't be started.
    ThreadNotStarted,
    /// This file, as it was given, can't take a record.
    CannotRecord(&'a str, Reason),
    /// The record couldn't be written.
    Record(Reason),
    /// This file for displays couldn't be written.
    CannotWrite(&'a str, Reason),
    /// This file for displays is written again, after it couldn't be. It ends no job.
    WritesAgain(&'a str),
    /// A frame or a tick met a full journal. It ends no job.
    JournalFull,
    /// A frame of another aircraft met a full table. It ends no job.
    TableFull,
    /// This path, as it was given, wasn't read to its end: it goes on, or a read of it failed. No other fault was printed.
    Unfinished(&'a str),
}

impl Display for Fault<'_> {
    ghost use Rattle.std.specs.Prelude.{Some};
    ghost use Rattle.messages.specs.Telling.{fault_words};

    ghost output = { λ fault. Some (fault_words fault) };

    fn fmt<W: fmt::Write>(&self, f: &mut Formatter<W>) -> fmt::Result {
        match self {
            Fault::Read => f.write_str("read failed"),
            Fault::Write => f.write_str("write failed"),
            Fault::OutputStalled => f.write_str("output stalled"),
            Fault::OutputGoesOn(count) => { write!(f, "output goes on, {count} tables left out") }
            Fault::TooManyReads => f.write_str("too many reads"),
            Fault::NoMemory => f.write_str("no memory"),
            Fault::CannotOpen(path) => write!(f, "cannot open {path}"),
            Fault::ThreadNotStarted => f.write_str("thread not started"),
            Fault::CannotRecord(path, reason) => write!(f, "cannot record to {path}{reason}"),
            Fault::Record(reason) => write!(f, "record failed{reason}"),
            Fault::CannotWrite(path, reason) => write!(f, "cannot write {path}{reason}"),
            Fault::WritesAgain(path) => write!(f, "writing {path} again"),
            Fault::JournalFull => f.write_str("journal full"),
            Fault::TableFull => f.write_str("table full"),
            Fault::Unfinished(path) => write!(f, "{path} not read to its end"),
        }
    }
}

/// Prints the line of a fault, and answers the status 1.
pub fn tell<E: Write>(err: &mut StandardError<E>, fault: Fault<'_>) -> u8
    ensures status { result ≡ 1 }
    ensures told { Tells (told_of E.contents err.old) (told_of E.contents err.new) (fault_line fault.entry) }
{
    err.line(format_args!("groundstation: {fault}"));
    1
}

/// Prints what was counted, and a fault directly after it. Answers the status 1.
pub fn tell_after<E: Write>(err: &mut StandardError<E>, tally: &Tally, fault: Fault<'_>) -> u8
    ensures status { result ≡ 1 }
    ensures told { Tells (told_of E.contents err.old) (told_of E.contents err.new)
        (tally_line tally.now ++ fault_line fault.entry) }
{
    write_tally(err, tally);
    tell(err, fault)
}

/// Prints what was counted, as one line.
pub fn write_tally<E: Write>(err: &mut StandardError<E>, tally: &Tally)
    ensures { Tells (told_of E.contents err.old) (told_of E.contents err.new) (tally_line tally.now) }
{
    let Tally {
        lines,
        frames,
        ticks,
        shows,
        blank,
        mode_ac,
        faults,
        accepted,
        refused,
    } = *tally;
    err.line(format_args!(
        "lines {lines} frames {frames} ticks {ticks} shows {shows} blank {blank} modeac {mode_ac} faults {faults} accepted {accepted} refused {refused}"
    ));
}
