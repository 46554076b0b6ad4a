//! The whole program, over any streams.
ghost use Rattle.clap.specs.Words.{kind_of};
ghost use Rattle.command_line.specs.Command.{IsInRange};
ghost use Rattle.station_main.specs.Jobs.{GivesStatus, HasNoMemory, IsDone, Obeys, WritesText, is_shown};
ghost use Rattle.messages.specs.Telling.{Tells, alarmed_by, all_alarmed, not_a_place_text, reopens_rounds_text, told_of};
ghost use Rattle.std.specs.Prelude.{◌≡◌, ◌≤◌, ◌⊎◌, ℕ, List, None, Some, false, map, option_map, true};

use crate::replay_job::{ReplayOptions, replay_input};
use command_line::{Job, WordsFault, read_words};
use messages::{Alarms, Fault, StandardError};
use station_files::milliseconds_since_1970;
use station_paths::{Host, PathSystem, System};
use station_reporter::LimitAlarm;
use station_run::{JobResult, RunOptions, run, without_output};
use std::alloc::Global;
use std::io::{Read, Write};
use streams::{ToWrite, write_all};

// Why `--reopen` with `--rounds` is refused, in the form of `clap`.
const REOPENS_ROUNDS: &str = concat!(
    "error: the argument '--reopen' cannot be used with '--rounds <R>'\n",
    "\n",
    "For more information, try '--help'.\n",
);

/// What a job reads, what it writes, and the standard errors for what is reported at once.
#[derive(Drop)]
pub struct JobStreams<I, O, A> {
    pub input: I,
    pub out: O,
    pub alarms: Alarms<A>,
}

/// Runs a command line, which begins with the program's name, over these streams. Answers the exit status, as [`obey`]
/// does. `err` is a handle that can be copied, as that of a process is: two threads may write to it. `own` is what the
/// threads that read the paths of a run have of the system.
pub fn program<
    R: System,
    W: PathSystem,
    I: Read + Drop,
    O: Write + Send + Drop,
    E: Write + Copy + Send + Drop,
>(rt: &R, own: W, alloc: Global, words: &[&str], input: I, out: O, err: E) -> u8
    ensures most { result ≤ 2 }
    ensures given { GivesStatus (map (λ w. w.now) words.now) (I.remaining input) (O.Write.contents out)
        (all_alarmed (E.Write.contents err)) (E.Write.contents err) result }
{
    let origin = milliseconds_since_1970(rt);
    let mut last = StandardError::new(err);
    let alarms = Alarms {
        output: err,
        stalls: err,
        record: err,
        displays: err,
        limits: err,
        paths: err,
    };
    obey(rt, own, alloc, words, origin, input, out, alarms, &mut last).status
}

/// Runs a command line, which begins with the program's name. Answers the output, unless the job, or one of its stations,
/// couldn't begin or be closed, and the exit status:
///
/// - 0 after the job, even if lines were refused, and after help or the version;
/// - 1 after a fault;
/// - 2 if the arguments are refused.
///
/// Arguments that are accepted name the job that is done. For others only a text is written: help and the version to the
/// output, and why they are refused to standard error. It is the text of `clap`, but where both `--reopen` and `--rounds` are
/// given, or `--at` names no place. If there is no memory for that, only that is printed.
///
/// `origin` is the time of the system at the start of the program, in milliseconds since 1970. JSON of `run` counts from it.
/// `alarms` are further standard errors, for what is reported at once while a job goes on. `own` is what the threads that read
/// the paths of a run have of the system.
pub fn obey<
    R: System,
    W: PathSystem,
    I: Read + Drop,
    O: Write + Send + Drop,
    A: Write + Send + Drop,
    E: Write + Drop,
>(
    rt: &R,
    own: W,
    alloc: Global,
    words: &[&str],
    origin: u64,
    input: I,
    out: O,
    alarms: Alarms<A>,
    err: &mut StandardError<E>,
) -> JobResult<O>
    ensures status { result.status ≤ 2 }
    ensures obeyed { Obeys (map (λ w. w.now) words.now) origin (I.remaining input) (O.Write.contents out)
        (option_map (λ left. O.Write.contents left) result.out) (alarmed_by A.Write.contents alarms)
        (told_of E.contents err.old) (told_of E.contents err.new) result.status }
{
    match read_words(alloc, words) {
        Ok(job) => {
            let streams = JobStreams { input, out, alarms };
            do_job(&Host { rt, own, alloc }, job, origin, streams, err)
        }
        Err(WordsFault::NoMemory) => without_output(err, Fault::NoMemory),
        Err(WordsFault::ReopensRounds) => refuse_both(out, err),
        Err(WordsFault::NotAPlace(text)) => refuse_place(text.as_str(), out, err),
        Err(WordsFault::Clap(error)) => write_answer(alloc, &error, out, err),
    }
}

// Does the job that the arguments name.
fn do_job<
    R: System,
    W: PathSystem,
    I: Read + Drop,
    O: Write + Send + Drop,
    A: Write + Send + Drop,
    E: Write + Drop,
>(
    host: &Host<'_, R, W>,
    job: Job,
    origin: u64,
    streams: JobStreams<I, O, A>,
    err: &mut StandardError<E>,
) -> JobResult<O>
    requires { IsInRange job }
    ensures most { result.status ≤ 1 }
    ensures done { IsDone job origin (I.remaining streams.input) (O.Write.contents streams.out)
        (option_map (λ left. O.Write.contents left) result.out) (alarmed_by A.Write.contents streams.alarms)
        (told_of E.contents err.old) (told_of E.contents err.new) result.status }
{
    let JobStreams { input, out, alarms } = streams;
    match job {
        Job::Replay { format, site } => {
            let format = format.since(0);
            let mut alarm = LimitAlarm::new(alarms.limits);
            let options = ReplayOptions { format, site };
            replay_input(host, options, input, out, &mut alarm, err)
        }
        Job::Run(arguments) => {
            let options = RunOptions::new(&arguments, origin);
            run(host, options, out, alarms, err)
        }
    }
}

// Refuses `--reopen` with `--rounds`, with status 2.
fn refuse_both<O, E: Write>(out: O, err: &mut StandardError<E>) -> JobResult<O>
    ensures status { result.status ≡ 2 }
    ensures out { result.out ≡ Some out }
    ensures told { Tells (told_of E.contents err.old) (told_of E.contents err.new) reopens_rounds_text }
{
    err.text(REOPENS_ROUNDS);
    JobResult {
        status: 2,
        out: Some(out),
    }
}

// Refuses a text of `--at` that names no place, with status 2.
fn refuse_place<O, E: Write>(text: &str, out: O, err: &mut StandardError<E>) -> JobResult<O>
    ensures status { result.status ≡ 2 }
    ensures out { result.out ≡ Some out }
    ensures told { Tells (told_of E.contents err.old) (told_of E.contents err.new) (not_a_place_text text.now) }
{
    err.text(format_args!(
        "error: invalid value '{text}' for '--at <LAT,LON>'\n\nFor more information, try '--help'.\n"
    ));
    JobResult {
        status: 2,
        out: Some(out),
    }
}

// Writes help or the version to standard output with status 0, and any other answer of `clap` to standard error with status 2.
// If there is no memory for its text, only that is printed.
fn write_answer<O: Write + Drop, E: Write>(
    alloc: Global,
    error: &clap::Error,
    out: O,
    err: &mut StandardError<E>,
) -> JobResult<O>
    ensures most { result.status ≤ 2 }
    ensures says { HasNoMemory (option_map (λ left. O.contents left) result.out)
        (told_of E.contents err.old) (told_of E.contents err.new) result.status
        ⊎ ((text : List ℕ) × WritesText (is_shown (kind_of error.now)) text (O.contents out)
        (option_map (λ left. O.contents left) result.out)
        (told_of E.contents err.old) (told_of E.contents err.new) result.status) }
{
    let Ok(text) = error.to_string(alloc) else {
        return without_output(err, Fault::NoMemory);
    };
    if error.use_stderr() {
        err.text(text);
        return JobResult {
            status: 2,
            out: Some(out),
        };
    }
    let mut sink = ToWrite::new(out);
    let _ = write_all(&mut sink, text.as_bytes());
    JobResult {
        status: 0,
        out: Some(sink.into_inner()),
    }
}
