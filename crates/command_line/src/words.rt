//! The command line.
ghost use Rattle.clap.specs.Words.{App, fault_of, found_of, rows_of, takes};
ghost use Rattle.command_line.specs.Command.{AreInRange, AreWordNames, GivesPlace, GivesRun, IsGiven, IsInRange, IsStation, IsOwnFault, IsPlaceFault, IsWordsFault, NamesJob, gives_both, station};
ghost use Rattle.std.specs.Prelude.{◌≡◌, [], IfErr, IfOk, false, map, option_map, true};
ghost use Rattle.std.specs.String.{string_bytes};

use crate::clock_origin::ClockOrigin;
use crate::commands::{WordNames, station_command};
use crate::pace::Pace;
use crate::site::place_named;
use crate::table_format::TableFormat;
use clap::ArgMatches;
use clap::error::ErrorKind;
use modes_cpr::Reference;
use std::alloc::{AllocError, Global};

/// What the arguments ask for.
#[derive(Debug, Drop)]
pub enum Job {
    /// Read standard input, and write the tables that its lines ask for.
    Replay {
        format: TableFormat,
        /// The place of the receivers, if it is given.
        site: Option<Reference>,
    },
    /// Read the paths, each by a receiver of its own, and write a table at an interval.
    Run(RunArguments),
}

/// What the arguments of `run` ask for.
#[derive(Debug, Drop)]
pub struct RunArguments {
    /// A table every 1 to 3,600,000 ms, and where it is asked a tick every 1 to 60,000 ms between two tables.
    pub pace: Pace,
    /// Where its clock begins.
    pub clock: ClockOrigin,
    /// After how many seconds without a frame a path is reported to be silent, 1 to 86,400, where paths are watched.
    pub watch: Option<u32>,
    /// How often the paths are read, 1 to 1,000.
    pub rounds: u16,
    /// Whether a path that has ended, or whose read failed, is opened again. Never where rounds are asked for.
    pub reopens: bool,
    /// The named pipe that ends the run once it is written to, if one is given.
    pub stop: Option<String>,
    /// 1 to 8.
    pub paths: Vec<String>,
    /// The file that the run is recorded to, if one is given.
    pub record: Option<String>,
    pub format: TableFormat,
    /// The folder in which displays find the tables, if one is given.
    pub displays: Option<String>,
    /// The place of the receivers, if it is given.
    pub site: Option<Reference>,
}

/// Why there is no job.
#[derive(Debug, Drop)]
pub enum WordsFault {
    /// An allocation was refused.
    NoMemory,
    /// The answer of `clap`: the arguments are refused, or they ask for help.
    Clap(clap::Error),
    /// `clap` accepts the arguments, but both `--reopen` and `--rounds` are given.
    ReopensRounds,
    /// `clap` accepts the arguments, but this text of `--at` names no place.
    NotAPlace(String),
}

impl From<AllocError> for WordsFault {
    ghost use Rattle.std.specs.Prelude.{◌≡◌};
    ghost use Rattle.command_line.specs.declared.words.WordsFault.TheVariants.{NoMemory};

    ghost from_gives = { λ _ fault. fault ≡ NoMemory };

    fn from(_error: AllocError) -> WordsFault {
        WordsFault::NoMemory
    }
}

impl From<clap::Error> for WordsFault {
    ghost use Rattle.clap.specs.Words.{kind_of};
    ghost use Rattle.clap.specs.declared.error.kind.ErrorKind.TheVariants.{OutOfMemory};
    ghost use Rattle.std.specs.Prelude.{◌≡◌, ◌≢◌, ◌⊎◌};
    ghost use Rattle.command_line.specs.declared.words.WordsFault.TheVariants.{Clap, NoMemory};

    ghost from_gives = { λ error fault. ((kind_of error ≡ OutOfMemory) × (fault ≡ NoMemory))
        ⊎ ((kind_of error ≢ OutOfMemory) × (fault ≡ Clap error)) };

    fn from(error: clap::Error) -> WordsFault {
        if error.kind() == ErrorKind::OutOfMemory {
            return WordsFault::NoMemory;
        }
        WordsFault::Clap(error)
    }
}

/// Reads a command line, which begins with the program's name, by `clap`: the subcommand, the format, and for `run` the
/// values of its options and PATH. Arguments that `clap` accepts are refused only if out of memory, if both `--reopen` and
/// `--rounds` are given, or if a text of `--at` names no place.
pub fn read_words<'a>(alloc: Global, words: &'a [&'a str]) -> Result<Job, WordsFault>
    ensures job { (app : App) × IsStation app
        × IfOk result (λ job. (fault_of app (map (λ w. w.now) words.entry.now) ≡ [])
        × NamesJob app (map (λ w. w.now) words.entry.now) job)
        × IfErr result (λ fault. IsWordsFault app (map (λ w. w.now) words.entry.now) fault
        × (takes app (map (λ w. w.now) words.entry.now) ≡ true
        → IsOwnFault app (map (λ w. w.now) words.entry.now) fault)) }
    ensures range { IfOk result IsInRange }
{
    read_named(alloc, word_names(), words)
}

// The words of `--format` and of `--clock`.
fn word_names<'a>() -> WordNames<'a>
    ensures { AreWordNames result }
{
    WordNames {
        formats: &["text", "json"],
        clocks: &["start", "unix"],
    }
}

// The same beside the words of its options.
fn read_named<'a>(
    alloc: Global,
    names: WordNames<'a>,
    words: &'a [&'a str],
) -> Result<Job, WordsFault>
    ensures job { IfOk result (λ job. (fault_of (station names.entry) (map (λ w. w.now) words.entry.now) ≡ [])
        × NamesJob (station names.entry) (map (λ w. w.now) words.entry.now) job) }
    ensures range { IfOk result IsInRange }
    ensures refused { IfErr result (λ fault.
        IsWordsFault (station names.entry) (map (λ w. w.now) words.entry.now) fault
        × (takes (station names.entry) (map (λ w. w.now) words.entry.now) ≡ true
        → IsOwnFault (station names.entry) (map (λ w. w.now) words.entry.now) fault)) }
{
    let matches = station_command(alloc, names)?.try_get_matches_from(words)?;
    let Some((name, given)) = matches.subcommand() else {
        unreachable!()
    };
    let site = read_place(alloc, given)?;
    if name == "run" {
        if has_both(given) {
            return Err(WordsFault::ReopensRounds);
        }
        return Ok(Job::Run(read_run(alloc, given, site)?));
    }
    Ok(Job::Replay {
        format: TableFormat::named(given.get_str("format")),
        site,
    })
}

// The place that `--at` names, if it is given.
fn read_place(alloc: Global, given: &ArgMatches<'_>) -> Result<Option<Reference>, WordsFault>
    ensures place { IfOk result (GivesPlace (rows_of (found_of given.now))) }
    ensures refused { IfErr result (IsPlaceFault (rows_of (found_of given.now))) }
{
    let Some(text) = given.get_str("at") else {
        return Ok(None);
    };
    match place_named(text) {
        Some(site) => Ok(Some(site)),
        None => Err(WordsFault::NotAPlace(String::from_str(alloc, text)?)),
    }
}

// Whether both `--reopen` and `--rounds` are given.
fn has_both(given: &ArgMatches<'_>) -> bool
    requires { IsGiven (rows_of (found_of given.now)) }
    ensures { result ≡ gives_both (rows_of (found_of given.now)) }
{
    let reopen = given.get_flag("reopen");
    let rounds = given.get_one::<u16>("rounds");
    reopen && rounds.is_some()
}

fn read_run(
    alloc: Global,
    given: &ArgMatches<'_>,
    site: Option<Reference>,
) -> Result<RunArguments, AllocError>
    requires given { IsGiven (rows_of (found_of given.now)) }
    requires place { GivesPlace (rows_of (found_of given.now)) site }
    requires not_both { gives_both (rows_of (found_of given.now)) ≡ false }
    ensures options { IfOk result (GivesRun (rows_of (found_of given.now))) }
    ensures range { IfOk result AreInRange }
{
    let Some(every) = given.get_one::<u32>("every") else {
        unreachable!()
    };
    let tick = given.get_one::<u32>("tick");
    let watch = given.get_one::<u32>("watch");
    let rounds = given.get_one::<u16>("rounds");
    let reopens = given.get_flag("reopen");
    let Some(texts) = given.get_strs("path") else {
        unreachable!()
    };
    let paths = owned(alloc, texts)?;
    let format = TableFormat::named(given.get_str("format"));
    let stop = owned_if_given(alloc, given.get_str("stop"))?;
    let record = owned_if_given(alloc, given.get_str("record"))?;
    let displays = owned_if_given(alloc, given.get_str("json"))?;
    let clock = ClockOrigin::named(given.get_str("clock"));
    Ok(RunArguments {
        pace: Pace { every, tick },
        clock,
        watch,
        rounds: rounds.unwrap_or(1),
        reopens,
        stop,
        paths,
        record,
        format,
        displays,
        site,
    })
}

fn owned(alloc: Global, texts: &[&str]) -> Result<Vec<String>, AllocError>
    ensures { IfOk result (λ paths. map string_bytes paths.items ≡ map (λ t. t.now) texts.now) }
{
    let mut paths = Vec::new(alloc);
    for text in texts {
        paths.push(String::from_str(alloc, text)?)?;
    }
    Ok(paths)
}

fn owned_if_given(alloc: Global, text: Option<&str>) -> Result<Option<String>, AllocError>
    ensures { IfOk result (λ own. option_map string_bytes own ≡ option_map (λ t. t.now) text.entry) }
{
    match text {
        Some(text) => Ok(Some(String::from_str(alloc, text)?)),
        None => Ok(None),
    }
}
