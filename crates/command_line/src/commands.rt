//! The commands that `clap` reads: their options, and what help says of each.
ghost use Rattle.command_line.specs.Command.{IsArg, IsMade, at_place, clock, every, format, json_folder, path, record_file, reopen, replay, rounds, run, run_ends, run_formats, run_options, run_times, station, stop_pipe, tick, watch};
ghost use Rattle.std.specs.Prelude.{◌≡◌, IfOk};

use crate::help::{AFTER_HELP, AFTER_REPLAY_HELP, AFTER_RUN_HELP};
use clap::builder::ValueParser;
use clap::{Arg, ArgAction, Command, value_parser};
use std::alloc::{AllocError, Global};

/// The version of the program.
pub const VERSION: &str = "1.0.0";

const MOST_PATHS: usize = 8;

/// The words of the options that take one of some words.
#[derive(Clone, Copy)]
pub struct WordNames<'a> {
    /// Those of `--format`.
    pub formats: &'a [&'a str],
    /// Those of `--clock`.
    pub clocks: &'a [&'a str],
}

/// The whole command line: one of the two jobs, help, or the version. `names` are the words of its options. Refused if out of
/// memory.
pub fn station_command<'a>(alloc: Global, names: WordNames<'a>) -> Result<Command<'a>, AllocError>
    ensures { IfOk result (IsMade (station names.entry)) }
{
    let top = Command::new(alloc, "groundstation")
        .about("Decodes Mode S frames and keeps a table of aircraft")
        .version(VERSION)
        .after_help(AFTER_HELP)
        .subcommand_required(true);
    let replay = replay_command(alloc, names)?;
    let run = run_command(alloc, names)?;
    let with_replay = top.subcommand(replay)?;
    with_replay.subcommand(run)
}

fn replay_command<'a>(alloc: Global, names: WordNames<'a>) -> Result<Command<'a>, AllocError>
    ensures { IfOk result (IsMade (replay names.entry)) }
{
    let format = format_arg(alloc, names);
    let place = at_arg(alloc);
    let bare = Command::new(alloc, "replay")
        .about("Reads standard input, and writes the table at each line that is ?")
        .after_help(AFTER_REPLAY_HELP);
    let with_format = bare.arg(format)?;
    with_format.arg(place)
}

fn run_command<'a>(alloc: Global, names: WordNames<'a>) -> Result<Command<'a>, AllocError>
    ensures { IfOk result (IsMade (run names.entry)) }
{
    let path = path_arg(alloc);
    let with_options = run_with_options(alloc, names)?;
    with_options.arg(path)
}

fn run_with_options<'a>(alloc: Global, names: WordNames<'a>) -> Result<Command<'a>, AllocError>
    ensures { IfOk result (IsMade (run_options names.entry)) }
{
    let file = record_arg(alloc);
    let place = at_arg(alloc);
    let with_ends = run_with_ends(alloc, names)?;
    let with_record = with_ends.arg(file)?;
    with_record.arg(place)
}

fn run_with_ends<'a>(alloc: Global, names: WordNames<'a>) -> Result<Command<'a>, AllocError>
    ensures { IfOk result (IsMade (run_ends names.entry)) }
{
    let rounds = rounds_arg(alloc);
    let reopen = reopen_arg(alloc);
    let stop = stop_arg(alloc);
    let with_formats = run_with_formats(alloc, names)?;
    let with_rounds = with_formats.arg(rounds)?;
    let with_reopen = with_rounds.arg(reopen)?;
    with_reopen.arg(stop)
}

fn run_with_formats<'a>(alloc: Global, names: WordNames<'a>) -> Result<Command<'a>, AllocError>
    ensures { IfOk result (IsMade (run_formats names.entry)) }
{
    let clock = clock_arg(alloc, names);
    let format = format_arg(alloc, names);
    let folder = json_arg(alloc);
    let with_times = run_with_times(alloc)?;
    let with_clock = with_times.arg(clock)?;
    let with_format = with_clock.arg(format)?;
    with_format.arg(folder)
}

fn run_with_times<'a>(alloc: Global) -> Result<Command<'a>, AllocError>
    ensures { IfOk result (IsMade run_times) }
{
    let every = every_arg(alloc);
    let tick = tick_arg(alloc);
    let watch = watch_arg(alloc);
    let bare = Command::new(alloc, "run")
        .about("Reads 1 to 8 paths side by side, and writes one table every MS")
        .after_help(AFTER_RUN_HELP);
    let with_every = bare.arg(every)?;
    let with_tick = with_every.arg(tick)?;
    with_tick.arg(watch)
}

// `--every MS`
fn every_arg<'a>(alloc: Global) -> Arg<'a>
    ensures { IsArg every result }
{
    let milliseconds = value_parser!(u32).range(1..=3_600_000);
    Arg::new(alloc, "every")
        .long("every")
        .value_name("MS")
        .help("Milliseconds from one table to the next, 1 to 3600000")
        .required(true)
        .value_parser(milliseconds)
}

// `--tick MS`
fn tick_arg<'a>(alloc: Global) -> Arg<'a>
    ensures { IsArg tick result }
{
    let milliseconds = value_parser!(u32).range(1..=60_000);
    Arg::new(alloc, "tick")
        .long("tick")
        .value_name("MS")
        .help("Milliseconds between ticks without a table, 1 to 60000")
        .value_parser(milliseconds)
}

// `--watch S`
fn watch_arg<'a>(alloc: Global) -> Arg<'a>
    ensures { IsArg watch result }
{
    let seconds = value_parser!(u32).range(1..=86_400);
    Arg::new(alloc, "watch")
        .long("watch")
        .value_name("S")
        .help("Report paths without frames for S seconds, 1 to 86400")
        .value_parser(seconds)
}

// `--format FORMAT`
fn format_arg<'a>(alloc: Global, names: WordNames<'a>) -> Arg<'a>
    ensures { IsArg (format names.entry) result }
{
    Arg::new(alloc, "format")
        .long("format")
        .value_name("FORMAT")
        .help("How tables are written")
        .value_parser(ValueParser::Names(names.formats))
}

// `--clock CLOCK`
fn clock_arg<'a>(alloc: Global, names: WordNames<'a>) -> Arg<'a>
    ensures { IsArg (clock names.entry) result }
{
    Arg::new(alloc, "clock")
        .long("clock")
        .value_name("CLOCK")
        .help("Beginning of the clock")
        .value_parser(ValueParser::Names(names.clocks))
}

// `--json DIR`
fn json_arg<'a>(alloc: Global) -> Arg<'a>
    ensures { IsArg json_folder result }
{
    let folder = ValueParser::NonEmptyString;
    Arg::new(alloc, "json")
        .long("json")
        .value_name("DIR")
        .help("Folder for each table as aircraft.json, for displays")
        .value_parser(folder)
}

// `--rounds R`. Without a default of `clap`, so that its matches say whether it is given.
fn rounds_arg<'a>(alloc: Global) -> Arg<'a>
    ensures { IsArg rounds result }
{
    let times = value_parser!(u16).range(1..=1000);
    Arg::new(alloc, "rounds")
        .long("rounds")
        .value_name("R")
        .help("How often to read the paths, 1 to 1000 [default: 1]")
        .value_parser(times)
}

// `--reopen`
fn reopen_arg<'a>(alloc: Global) -> Arg<'a>
    ensures { IsArg reopen result }
{
    Arg::new(alloc, "reopen")
        .long("reopen")
        .help("Open each path again 1 s after it ended or failed")
        .action(ArgAction::SetTrue)
}

// `--stop PIPE`
fn stop_arg<'a>(alloc: Global) -> Arg<'a>
    ensures { IsArg stop_pipe result }
{
    let pipe = ValueParser::NonEmptyString;
    Arg::new(alloc, "stop")
        .long("stop")
        .value_name("PIPE")
        .help("Named pipe that ends the run once it is written to")
        .value_parser(pipe)
}

// `--record FILE`
fn record_arg<'a>(alloc: Global) -> Arg<'a>
    ensures { IsArg record_file result }
{
    let file = ValueParser::NonEmptyString;
    Arg::new(alloc, "record")
        .long("record")
        .value_name("FILE")
        .help("File to record the run to, for replay")
        .value_parser(file)
}

// `--at LAT,LON`
fn at_arg<'a>(alloc: Global) -> Arg<'a>
    ensures { IsArg at_place result }
{
    Arg::new(alloc, "at")
        .long("at")
        .value_name("LAT,LON")
        .help("Place of the receivers, for aircraft on the ground")
}

// `PATH..`
fn path_arg<'a>(alloc: Global) -> Arg<'a>
    ensures { IsArg path result }
{
    Arg::new(alloc, "path")
        .value_name("PATH")
        .help("1 to 8 files or named pipes, each read by a receiver of its own")
        .required(true)
        .action(ArgAction::Set)
        .num_args(1..=MOST_PATHS)
}
