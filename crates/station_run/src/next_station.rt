//! What comes after a station: one that it hands over to, the first station of the next round, or the end of the run.
ghost use Rattle.std.specs.Prelude.{◌≡◌, ◌≤◌, ◌||◌, Bool, List, Result, IfErr, IfOk, false, is_some, length, map, option_map, true};
ghost use Rattle.std.specs.String.{string_bytes};
ghost use Rattle.station_history.specs.Start.{Start, log_of};
ghost use Rattle.station_portions.specs.Giving.{state_of};
ghost use Rattle.station_lines.specs.declared.pumping.PumpFault.{PumpFault};
ghost use Rattle.station_lines.specs.declared.tally.Tally.{Tally};
ghost use Rattle.station_paths.specs.Inputs.{AllTakeFrom};
ghost use Rattle.station_paths.specs.Faults.{IsEarly, IsUnstarted};
ghost use Rattle.station_files.specs.Displays.{AreReported};
ghost use Rattle.station_run.specs.Stations.{AreRead, ClosesOutput, HandsOver, IsFirst, IsNext, IsRoundEnd, KeepsRecent, RunPlan, begun_of, left_of, plan_of, start_of, streams_of};
ghost use Rattle.messages.specs.Status.{fault_status};
ghost use Rattle.station_shared.specs.Seats.{Seated};
ghost use Rattle.messages.specs.Telling.{Told, told_of};

use crate::kept::keep;
use crate::output::{JobResult, give_back, without_output};
use crate::run_options::RunOptions;
use crate::stage::{Stage, StationEnd};
use crate::stopping::stopped;
use messages::{Fault, StandardError, tell, tell_end};
use station_files::{Displays, RecordOutput, displays, recorder};
use station_output::OpenOutput;
use station_paths::{Host, Opened, PathSystem, Paths, System, open_all, start_all, tell_ends};
use station_reporter::{Beside, Duties, Kept, RunClock, Stop};
use std::alloc::Global;
use std::fs::File;
use std::io::{Read, Write};
use std::rt::Files;
use std::sync::{Arc, Wait};
use std::thread::Threads;
use streams::ToWrite;

/// What comes after a station.
#[derive(Drop)]
pub enum Next<'a, 'p, R, O: Write + Drop, A: Write + Drop> {
    /// A further station.
    Station(Stage<'a, 'p, R, Opened, O, A>),
    /// The end of the run.
    Over(JobResult<O>),
}

/// What a round goes on from.
#[derive(Drop)]
pub struct Carried<O: Write + Drop, A: Write + Drop> {
    /// The clock of the tables.
    pub clock: RunClock,
    /// How many rounds come after this one.
    pub rounds_left: u16,
    pub kept: Kept,
    /// The end of the run, where somebody may ask for it.
    pub stop: Option<Arc<Stop, Global>>,
    pub out: OpenOutput<ToWrite<O>, A>,
    pub beside: Beside<RecordOutput, A>,
}

/// What comes after a station that was closed. Where its round is over, what was counted is printed. The next round begins
/// unless it was the last, a fault was printed, or the run is ended by a pipe.
pub fn next_stage<'a, 'p, R: System, W: PathSystem, O: Write + Drop, A: Write + Drop, E: Write>(
    host: &Host<'a, R, W>,
    asked: RunOptions<'p>,
    closed: StationEnd<'a, 'p, R, Opened, O, A>,
    err: &mut StandardError<E>,
) -> Next<'a, 'p, R, O, A>
    requires few { length asked.paths.now.items ≤ 8 }
    requires read { AreRead (map string_bytes asked.paths.now.items) closed.paths.threads.items (map state_of closed.inputs.items) closed.answers.items }
    ensures { (start : Start) (reporter : Seated) (receivers : List Seated) (counted : List (Result Tally PumpFault)) →
        closed.entry.journal.log ≡ log_of start closed.entry.journal.log.entries →
        IsNext O.contents (plan_of asked.entry) (left_of closed.entry start reporter receivers counted)
        (streams_of closed.entry.out closed.entry.beside.record (told_of E.contents err.old))
        (told_of E.contents err.new) result }
{
    if closed.hands_over {
        return match hand_over(host.alloc, closed) {
            Ok(stage) => Next::Station(stage),
            Err(fault) => Next::Over(without_output(err, fault)),
        };
    }
    let carried = match end_round(host, asked, closed, err) {
        Ok(carried) => carried,
        Err(ran) => return Next::Over(ran),
    };
    match begin_round(host, asked, carried) {
        Ok(stage) => Next::Station(stage),
        Err(fault) => Next::Over(without_output(err, fault)),
    }
}

// The station after one that hands over: its paths go on, and its table is due where it was.
fn hand_over<'a, 'p, R, I: Read + Drop, O: Write + Drop, A: Write + Drop>(
    alloc: Global,
    closed: StationEnd<'a, 'p, R, I, O, A>,
) -> Result<Stage<'a, 'p, R, I, O, A>, Fault<'static>>
    ensures unstarted { IfErr result IsUnstarted }
    ensures next { (start : Start) (reporter : Seated) (receivers : List Seated) (counted : List (Result Tally PumpFault)) (err : Told) →
        closed.entry.hands_over ≡ true →
        IfOk result (λ stage. HandsOver (left_of closed.entry start reporter receivers counted) (begun_of stage) err err) }
    ensures kept { (start : Start) → closed.entry.journal.log ≡ log_of start closed.entry.journal.log.entries →
        IfOk result (λ stage. KeepsRecent start closed.entry.journal.log.entries (start_of stage.kept) closed.entry.beside.record stage.beside.record) }
    ensures paths { IfOk result (λ stage. stage.paths ≡ closed.entry.paths) }
    ensures inputs { IfOk result (λ stage. stage.inputs ≡ closed.entry.inputs) }
    ensures answers { IfOk result (λ stage. stage.answers ≡ closed.entry.answers) }
    ensures out { IfOk result (λ stage. stage.out ≡ closed.entry.out) }
{
    let mut beside = closed.beside;
    let kept = keep(alloc, &closed.journal, &mut beside)?;
    Ok(Stage {
        clock: closed.clock,
        rounds_left: closed.rounds_left,
        duties: closed.duties.after_hand_over(&kept, closed.due),
        kept,
        paths: closed.paths,
        inputs: closed.inputs,
        answers: closed.answers,
        out: closed.out,
        beside,
    })
}

// Ends a round: prints what was counted, and keeps what the next one goes on from. `Err` at the end of the run: it was the
// last round, a fault was printed, or the run is ended by a pipe. Where it is known what reading a path gives, that was given of each path that ended.
fn end_round<
    'a,
    R: System,
    W: PathSystem,
    I: Read + Drop,
    O: Write + Drop,
    A: Write + Drop,
    E: Write,
>(
    host: &Host<'a, R, W>,
    asked: RunOptions<'_>,
    closed: StationEnd<'a, '_, R, I, O, A>,
    err: &mut StandardError<E>,
) -> Result<Carried<O, A>, JobResult<O>>
    requires take { AllTakeFrom (map (λ t. t.handle.promise) closed.paths.threads.items) (map state_of closed.inputs.items) }
    requires over { closed.hands_over ≡ false }
    ensures most { IfErr result (λ ran. ran.status ≤ 1) }
    ensures end { (plan : RunPlan) (start : Start) (reporter : Seated) (receivers : List Seated) (counted : List (Result Tally PumpFault)) →
        plan.paths ≡ map (λ t. string_bytes t.path.now) closed.entry.paths.threads.items →
        plan.known ≡ map (λ t. I.remaining t.handle.promise.from.value) closed.entry.paths.threads.items →
        plan.has_displays ≡ is_some asked.entry.displays.now →
        plan.stop ≡ (plan_of asked.entry).stop →
        closed.entry.journal.log ≡ log_of start closed.entry.journal.log.entries →
        IsRoundEnd O.contents plan (left_of closed.entry start reporter receivers counted)
        (streams_of closed.entry.out closed.entry.beside.record (told_of E.contents err.old))
        (told_of E.contents err.new) result }
{
    let StationEnd {
        clock,
        rounds_left,
        journal,
        paths,
        inputs,
        answers,
        out,
        mut beside,
        ..
    } = closed;
    let Paths { threads, requests } = paths;
    let stopped = stopped(asked, &requests);
    let told = tell_end(err, &answers, out.is_broken());
    let status = tell_ends(host.rt, inputs, threads, stopped, told, err);
    if rounds_left == 0 {
        return Err(end_run(host.rt, asked, status, out, beside, err));
    }
    if status > 0 {
        return Err(end_run(host.rt, asked, status, out, beside, err));
    }
    if stopped.is_some() {
        return Err(end_run(host.rt, asked, status, out, beside, err));
    }
    let kept = match keep(host.alloc, &journal, &mut beside) {
        Ok(kept) => kept,
        Err(fault) => {
            let status = tell(err, fault);
            return Err(end_run(host.rt, asked, status, out, beside, err));
        }
    };
    Ok(Carried {
        clock,
        rounds_left: rounds_left - 1,
        kept,
        stop: requests.stop,
        out,
        beside,
    })
}

// Ends a run: waits for its output. The status is the worst of that so far, the output's, the record's and the displays'.
fn end_run<R: Threads + Wait, O: Write + Drop, A: Write + Drop, E: Write>(
    rt: &R,
    asked: RunOptions<'_>,
    status: u8,
    out: OpenOutput<ToWrite<O>, A>,
    beside: Beside<RecordOutput, A>,
    err: &mut StandardError<E>,
) -> JobResult<O>
    requires { status ≤ 1 }
    ensures most { result.status ≤ 1 }
    ensures closes { ClosesOutput (is_some asked.entry.displays.now) out.taken out.has_failed beside.record
        (told_of E.contents err.old) (told_of E.contents err.new) status (option_map (λ left. O.contents left) result.out) result.status }
{
    let failed_before = out.has_failed();
    let closed = give_back(rt, out, err);
    let written = write_status(failed_before, closed.has_failed);
    let recorded = recorder::status_of(&beside.record);
    let shown = display_status(asked, &beside.displays);
    let with_output = status.max(written);
    let with_record = with_output.max(recorded);
    JobResult {
        status: with_record.max(shown),
        out: Some(closed.out.into_inner()),
    }
}

// The status of an output: 1 if a table failed, or the last write.
fn write_status(failed_before: bool, has_failed: bool) -> u8
    ensures value { result ≡ fault_status (failed_before || has_failed) }
    ensures most { result ≤ 1 }
{
    if failed_before || has_failed { 1 } else { 0 }
}

// The status of the tables for displays: 1 if a write of them failed. It is 0 where none are asked for.
fn display_status<A: Write>(asked: RunOptions<'_>, displays: &Option<Displays<A>>) -> u8
    ensures most { result ≤ 1 }
    ensures value { (failed : Bool) × (result ≡ fault_status failed) × AreReported (is_some asked.entry.displays.now) failed }
{
    if asked.displays.is_none() {
        return 0;
    }
    displays::status_of(displays)
}

/// Begins a round: opens its paths, starts their threads, and makes what its first station is begun with.
pub fn begin_round<
    'a,
    'p,
    R: Threads + Files<File = File>,
    W: PathSystem,
    O: Write + Drop,
    A: Write + Drop,
>(
    host: &Host<'a, R, W>,
    asked: RunOptions<'p>,
    carried: Carried<O, A>,
) -> Result<Stage<'a, 'p, R, Opened, O, A>, Fault<'p>>
    requires few { length asked.paths.now.items ≤ 8 }
    ensures early { IfErr result (IsEarly (map string_bytes asked.entry.paths.now.items)) }
    ensures first { IfOk result (λ stage. IsFirst (plan_of asked.entry) (begun_of stage)) }
    ensures read { IfOk result (λ stage. AreRead (map string_bytes asked.entry.paths.now.items) stage.paths.threads.items (map state_of stage.inputs.items) stage.answers.items) }
    ensures rounds_left { IfOk result (λ stage. stage.rounds_left ≡ carried.rounds_left) }
    ensures kept { IfOk result (λ stage. stage.kept ≡ carried.kept) }
    ensures out { IfOk result (λ stage. stage.out ≡ carried.out) }
    ensures beside { IfOk result (λ stage. stage.beside ≡ carried.beside) }
{
    let files = open_all(host.rt, host.alloc, asked.paths, asked.opening())?;
    let started = start_all(host, files, carried.stop)?;
    let duties = Duties::first(
        asked.tables,
        asked.begins_at,
        carried.kept.last_tick,
        asked.hand_over_at,
        asked.reopens,
    );
    Ok(Stage {
        clock: carried.clock,
        rounds_left: carried.rounds_left,
        kept: carried.kept,
        duties,
        paths: started.paths,
        inputs: started.inputs,
        answers: started.answers,
        out: carried.out,
        beside: carried.beside,
    })
}
