//! How the job `run` begins.
ghost use Rattle.std.specs.Prelude.{◌≡◌, ◌⊎◌, ◌≤◌, ◌-◌, [], IfErr, IfOk, length, map, option_map};
ghost use Rattle.std.specs.String.{string_bytes};
ghost use Rattle.station_portions.specs.Giving.{state_of};
ghost use Rattle.station_output.specs.Queued.{queue_ring, sent_texts, taken_before, thread_ring};
ghost use Rattle.station_paths.specs.Faults.{IsEarly, IsUnstarted};
ghost use Rattle.station_run.specs.Output.{sink_of};
ghost use Rattle.station_run.specs.Stations.{AreRead, CannotStart, IsBlank, IsFirst, begun_of, new_output, no_start, plan_of};

use crate::limits::TABLE_ROOM;
use crate::next_station::{Carried, begin_round};
use crate::run_options::RunOptions;
use crate::stage::Stage;
use crate::stopping::begin_stop;
use messages::{Alarms, Fault, StandardError};
use station_files::{DisplayOptions, Displays, RecordOutput, Recorder, record_to};
use station_output::{OpenOutput, OutputThread, Printer, QueueFault, StallAlarm, TableQueue};
use station_paths::{Host, Opened, PathSystem, System};
use station_reporter::{Beside, Kept, LimitAlarm, RunClock, writing_interval};
use station_watch::Watch;
use std::alloc::Global;
use std::fs::File;
use std::io::Write;
use std::rt::Files;
use std::thread::Scope;
use streams::ToWrite;

/// What a run is begun with: its first station, the thread that writes to the output, and what is written beside that.
pub(crate) fn first_stage<
    's,
    'e: 's,
    'p,
    R: System,
    W: PathSystem,
    O: Write + Send + Drop + 'e,
    A: Write + Drop,
>(
    scope: &Scope<'s, &'e ()>,
    host: &Host<'e, R, W>,
    asked: RunOptions<'p>,
    out: O,
    alarms: Alarms<A>,
) -> Result<Stage<'e, 'p, R, Opened, O, A>, Fault<'p>>
    requires rounds { 1 ≤ asked.rounds }
    requires few { length asked.paths.now.items ≤ 8 }
    ensures early { IfErr result (λ fault. IsEarly (map string_bytes asked.entry.paths.now.items) fault ⊎ CannotStart (plan_of asked.entry) fault) }
    ensures first { IfOk result (λ stage. IsFirst (plan_of asked.entry) (begun_of stage)) }
    ensures given { IfOk result (λ stage. (begun_of stage).given ≡ no_start asked.entry.site) }
    ensures rounds_left { IfOk result (λ stage. stage.rounds_left ≡ asked.entry.rounds - 1) }
    ensures read { IfOk result (λ stage. AreRead (map string_bytes asked.entry.paths.now.items) stage.paths.threads.items (map state_of stage.inputs.items) stage.answers.items) }
    ensures out { IfOk result (λ stage. stage.out ≡ new_output (plan_of asked.entry) stage.out.ring (O.contents out) (A.contents alarms.output)) }
    ensures record { IfOk result (λ stage. IsBlank (option_map string_bytes asked.entry.record.now) (A.contents alarms.record) stage.beside.record) }
{
    let stop = begin_stop(host, asked)?;
    let Alarms {
        output,
        stalls,
        record,
        displays,
        limits,
        paths,
    } = alarms;
    let watch = begin_watch(host.alloc, asked, paths)?;
    let displays = begin_displays(host.rt, host.alloc, asked, displays)?;
    let record = begin_record(host.rt, host.alloc, asked, record)?;
    let limits = LimitAlarm::new(limits);
    let beside = Beside {
        record,
        displays,
        limits,
        watch,
    };
    let goes_on = asked.record.is_some() || asked.displays.is_some();
    let (queue, thread) = begin_queue(scope, host, out)?;
    let (alarm, stalls) = (StandardError::new(output), StallAlarm::new(stalls));
    let printer = Printer::new(queue, goes_on, alarm, stalls);
    let carried = Carried {
        clock: RunClock::begin(host.rt, asked.begins_at),
        rounds_left: asked.rounds - 1,
        kept: Kept::nothing(host.alloc, asked.site),
        stop,
        out: OpenOutput::new(printer, thread),
        beside,
    };
    begin_round(host, asked, carried)
}

// The queue of tables before an output, and the thread that writes them.
fn begin_queue<'s, 'e: 's, R: System, W: PathSystem, O: Write + Send + Drop + 'e>(
    scope: &Scope<'s, &'e ()>,
    host: &Host<'e, R, W>,
    out: O,
) -> Result<(TableQueue, OutputThread<ToWrite<O>>), Fault<'static>>
    ensures unstarted { IfErr result IsUnstarted }
    ensures sent { IfOk result (λ begun. sent_texts begun.0 ≡ []) }
    ensures ring { IfOk result (λ begun. queue_ring begun.0 ≡ thread_ring begun.1) }
    ensures before { IfOk result (λ begun. taken_before (sink_of O.contents) begun.1 ≡ O.contents out) }
{
    match station_output::start(scope, host.rt, host.alloc, TABLE_ROOM, ToWrite::new(out)) {
        Ok(begun) => Ok(begun),
        Err(QueueFault::NoMemory) => Err(Fault::NoMemory),
        Err(QueueFault::ThreadNotStarted) => Err(Fault::ThreadNotStarted),
    }
}

// What watches the paths, if that is asked for.
fn begin_watch<'p, A: Write + Drop>(
    alloc: Global,
    asked: RunOptions<'p>,
    alarm: A,
) -> Result<Option<Watch<A>>, Fault<'p>>
    ensures { IfErr result (IsEarly (map string_bytes asked.entry.paths.now.items)) }
{
    let Some(seconds) = asked.watch else {
        return Ok(None);
    };
    let (begins_at, alarm) = (asked.begins_at, StandardError::new(alarm));
    match Watch::begin(alloc, asked.paths, seconds, begins_at, alarm) {
        Ok(watch) => Ok(Some(watch)),
        Err(_) => Err(Fault::NoMemory),
    }
}

// The folder for displays, if it is asked for.
fn begin_displays<'p, R: Files<File = File>, A: Write + Drop>(
    rt: &R,
    alloc: Global,
    asked: RunOptions<'p>,
    alarm: A,
) -> Result<Option<Displays<A>>, Fault<'p>>
    ensures { IfErr result (CannotStart (plan_of asked.entry)) }
{
    let Some(folder) = asked.displays else {
        return Ok(None);
    };
    let options = DisplayOptions {
        folder: folder.as_str(),
        every: writing_interval(asked.tables.pace),
        origin: asked.origin,
        follows: asked.begins_at == 0,
        site: asked.site,
    };
    match Displays::begin(rt, alloc, options, StandardError::new(alarm)) {
        Ok(displays) => Ok(Some(displays)),
        Err(_) => Err(Fault::NoMemory),
    }
}

// The record, if it is asked for.
fn begin_record<'p, R: Files<File = File>, A: Write + Drop>(
    rt: &R,
    alloc: Global,
    asked: RunOptions<'p>,
    alarm: A,
) -> Result<Option<Recorder<RecordOutput, A>>, Fault<'p>>
    ensures refused { IfErr result (CannotStart (plan_of asked.entry)) }
    ensures record { IfOk result (IsBlank (option_map string_bytes asked.entry.record.now) (A.contents alarm)) }
{
    let Some(path) = asked.record else {
        return Ok(None);
    };
    let recorder = record_to(rt, alloc, path.as_str(), StandardError::new(alarm))?;
    Ok(Some(recorder))
}
