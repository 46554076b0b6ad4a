//! The job `run`: one station after another.
ghost use Rattle.std.specs.Prelude.{◌≡◌, ◌≤◌, List, is_some, length, map, option_map, reverse};
ghost use Rattle.std.specs.String.{string_bytes};
ghost use Rattle.station_journal.specs.Resume.{IsSound};
ghost use Rattle.station_portions.specs.Giving.{state_of};
ghost use Rattle.station_run.specs.Limits.{program_limits};
ghost use Rattle.station_run.specs.Stations.{AreRead, Leaves, RunsAsked, RunsFrom, Station, begun_of, plan_of, streams_of};
ghost use Rattle.messages.specs.Telling.{alarmed_by, told_of};

use crate::first_stage::first_stage;
use crate::next_station::{Next, next_stage};
use crate::output::{JobResult, without_output};
use crate::run_options::RunOptions;
use crate::stage::{Stage, run_station};
use core::mem::replace_with;
use messages::{Alarms, StandardError};
use station_paths::{Host, Opened, PathSystem, System};
use std::io::Write;
use std::thread::{self, Scope};

/// Runs one station after another. A station hands over to the next while its paths go on. Else its round is over, and the
/// next round opens the paths anew. Each round
///
/// - reads each path by a receiver of its own;
/// - prints the table of them all at the pace that is asked for, and once when all have ended;
/// - prints what each receiver counted, with its fault directly after it, and at last a failed write.
///
/// Each station goes on from the last 70,000 ms of the one before. A fault ends the run after its round. What is printed is
/// recorded, and each table is put where displays find it, if that is asked. A failed write of either is reported at once,
/// ends the record or the displays alone, and the status is 1. Where a record or displays are asked for the same holds of a
/// failed write of the output. Else that ends the run. Where a pipe is given for it, the run is ended by that, as if all paths had
/// ended between two lines. Answers the output, unless a station couldn't begin or be closed.
pub fn run<
    R: System,
    W: PathSystem,
    O: Write + Send + Drop,
    A: Write + Send + Drop,
    E: Write + Drop,
>(
    host: &Host<'_, R, W>,
    asked: RunOptions<'_>,
    out: O,
    alarms: Alarms<A>,
    err: &mut StandardError<E>,
) -> JobResult<O>
    requires rounds { 1 ≤ asked.rounds }
    requires paths { length asked.paths.now.items ≤ 8 }
    ensures most { result.status ≤ 1 }
    ensures runs { RunsAsked (plan_of asked.entry) (O.contents out) (option_map (λ left. O.contents left) result.out) (alarmed_by A.contents alarms)
        (told_of E.contents err.old) (told_of E.contents err.new) result.status }
{
    replace_with(
        err,
        (host, asked, out, alarms),
        |err, parts: (&Host<'_, R, W>, RunOptions<'_>, O, Alarms<A>)| -> (_, JobResult<O>)
            requires rounds { 1 ≤ parts.1.rounds }
            requires paths { length parts.1.paths.now.items ≤ 8 }
            ensures most { result.1.status ≤ 1 }
            ensures runs { RunsAsked (plan_of parts.entry.1) (O.contents parts.entry.2) (option_map (λ left. O.contents left) result.1.out) (alarmed_by A.contents parts.entry.3)
                (told_of E.contents err) (told_of E.contents result.0) result.1.status }
        { run_beside(parts.0, parts.1, parts.2, parts.3, err) },
    )
}

// Runs one station after another, beside the thread that writes to the output.
fn run_beside<
    R: System,
    W: PathSystem,
    O: Write + Send + Drop,
    A: Write + Send + Drop,
    E: Write + Drop,
>(
    host: &Host<'_, R, W>,
    asked: RunOptions<'_>,
    out: O,
    alarms: Alarms<A>,
    err: StandardError<E>,
) -> (StandardError<E>, JobResult<O>)
    requires rounds { 1 ≤ asked.rounds }
    requires paths { length asked.paths.now.items ≤ 8 }
    ensures most { result.1.status ≤ 1 }
    ensures runs { RunsAsked (plan_of asked.entry) (O.contents out) (option_map (λ left. O.contents left) result.1.out) (alarmed_by A.contents alarms)
        (told_of E.contents err) (told_of E.contents result.0) result.1.status }
{
    let lent = &asked;
    thread::scope(
        thread::scope_env(),
        host.rt,
        move |scope| -> (StandardError<E>, JobResult<O>)
            requires rounds { 1 ≤ lent.now.rounds }
            requires paths { length lent.now.paths.now.items ≤ 8 }
            ensures most { result.1.status ≤ 1 }
            ensures runs { RunsAsked (plan_of lent.entry.now) (O.contents out) (option_map (λ left. O.contents left) result.1.out) (alarmed_by A.contents alarms)
                (told_of E.contents err) (told_of E.contents result.0) result.1.status }
        { run_in(scope, host, *lent, out, alarms, err) },
    )
}

// Runs one station after another, in a scope of the thread that writes to the output.
fn run_in<
    's,
    'e: 's,
    R: System,
    W: PathSystem,
    O: Write + Send + Drop + 'e,
    A: Write + Send + Drop,
    E: Write + Drop,
>(
    scope: &Scope<'s, &'e ()>,
    host: &Host<'e, R, W>,
    asked: RunOptions<'_>,
    out: O,
    alarms: Alarms<A>,
    err: StandardError<E>,
) -> (StandardError<E>, JobResult<O>)
    requires rounds { 1 ≤ asked.rounds }
    requires paths { length asked.paths.now.items ≤ 8 }
    ensures most { result.1.status ≤ 1 }
    ensures runs { RunsAsked (plan_of asked.entry) (O.contents out) (option_map (λ left. O.contents left) result.1.out) (alarmed_by A.contents alarms)
        (told_of E.contents err) (told_of E.contents result.0) result.1.status }
{
    let mut err = err;
    let stage = match first_stage(scope, host, asked, out, alarms) {
        Ok(stage) => stage,
        Err(fault) => {
            let ran = without_output(&mut err, fault);
            return (err, ran);
        }
    };
    let ran = run_stations(host, asked, stage, &mut err);
    (err, ran)
}

// Runs one station after another.
fn run_stations<
    'a,
    'p,
    R: System,
    W: PathSystem,
    O: Write + Send + Drop,
    A: Write + Send + Drop,
    E: Write + Drop,
>(
    host: &Host<'a, R, W>,
    asked: RunOptions<'p>,
    stage: Stage<'a, 'p, R, Opened, O, A>,
    err: &mut StandardError<E>,
) -> JobResult<O>
    requires few { length asked.paths.now.items ≤ 8 }
    requires sound { IsSound (program_limits stage.kept.site) stage.kept.recent.base (reverse stage.kept.recent.entries.items) }
    requires read { AreRead (map string_bytes asked.paths.now.items) stage.paths.threads.items (map state_of stage.inputs.items) stage.answers.items }
    ensures most { result.status ≤ 1 }
    ensures runs { (stations : List Station) × Leaves (is_some asked.entry.displays.now)
        (RunsFrom (plan_of asked.entry) (begun_of stage.entry) (streams_of stage.entry.out stage.entry.beside.record (told_of E.contents err.old)) stations)
        (option_map (λ left. O.contents left) result.out) (told_of E.contents err.new) result.status }
{
    let mut stage = stage;
    for _ in host.rt.forever() {
        let closed = match run_station(host.rt, host.alloc, stage) {
            Ok(closed) => closed,
            Err(fault) => return without_output(err, fault),
        };
        stage = match next_stage(host, asked, closed, err) {
            Next::Station(stage) => stage,
            Next::Over(ran) => return ran,
        };
    }
    unreachable!()
}
