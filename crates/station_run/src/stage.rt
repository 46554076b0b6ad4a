//! One station of a run: it is begun, its threads run to their ends, and it is closed with all its seats.
ghost use Rattle.std.specs.Prelude.{◌≡◌, ◌≤◌, ◌&&◌, IfErr, IfOk, is_some, length, map, not, reverse, true};
ghost use Rattle.std.specs.List.{list_any};
ghost use Rattle.std.specs.Option.{option_map_or};
ghost use Rattle.station_journal.specs.Resume.{IsSound};
ghost use Rattle.station_portions.specs.Giving.{left_of, state_of};
ghost use Rattle.station_run.specs.Limits.{program_limits};
ghost use Rattle.station_paths.specs.Faults.{IsUnstarted};
ghost use Rattle.station_run.specs.Run.{LearnsFrom, ends_run, is_open, may_work_on};
ghost use Rattle.station_run.specs.Stations.{MayBegin, RanTo, start_of};

mod ending;
mod opening;

use crate::limits::AIRCRAFT;
use crate::stage::ending::{Leaving, close, print_last};
use crate::stage::opening::{Crew, Foundation, begin};
use crate::threads::{Receiver, run_threads};
use messages::{Answer, Fault};
use station_files::RecordOutput;
use station_journal::Journal;
use station_output::OpenOutput;
use station_paths::{Input, Paths, System};
use station_portions::PathEnd;
use station_reporter::{Beside, Due, Duties, Kept, Reporter, RunClock};
use station_shared::{Places, PumpFault, Seat, StationName};
use std::alloc::Global;
use std::io::{Read, Write};
use std::marker::Brand;
use std::sync::Wait;
use std::sync::ledger::Blank;
use streams::ToWrite;

/// What a station is begun with.
#[derive(Drop)]
pub struct Stage<'a, 'p, R, I: Read + Drop, O: Write + Drop, A: Write + Drop> {
    /// The clock of the tables.
    pub clock: RunClock,
    /// How many rounds come after this one.
    pub rounds_left: u16,
    /// What the station goes on from.
    pub kept: Kept,
    /// What its reporter does.
    pub duties: Duties,
    pub paths: Paths<'p, I>,
    /// At most 8, one for each path.
    pub inputs: Vec<Input<'a, R>>,
    /// What the stations before it in its round counted, by input.
    pub answers: Vec<Answer>,
    pub out: OpenOutput<ToWrite<O>, A>,
    pub beside: Beside<RecordOutput, A>,
}

/// What a closed station leaves.
#[derive(Drop)]
pub struct StationEnd<'a, 'p, R, I: Read + Drop, O: Write + Drop, A: Write + Drop> {
    pub clock: RunClock,
    pub rounds_left: u16,
    pub journal: Journal,
    /// Whether the station hands over to the next. Else the last table was printed.
    pub hands_over: bool,
    pub duties: Duties,
    /// What is due next.
    pub due: Due,
    pub paths: Paths<'p, I>,
    pub inputs: Vec<Input<'a, R>>,
    /// What all stations of the round so far counted, by input.
    pub answers: Vec<Answer>,
    pub out: OpenOutput<ToWrite<O>, A>,
    pub beside: Beside<RecordOutput, A>,
}

/// Begins a station, runs its threads to their ends, and closes it with all its seats. It hands over just where its reporter
/// asked for it, a path goes on and no answer ends the run. Else the last table is printed.
pub fn run_station<
    'a,
    'p,
    R: System,
    I: Read + Drop,
    O: Write + Send + Drop,
    A: Write + Send + Drop,
>(
    rt: &'a R,
    alloc: Global,
    stage: Stage<'a, 'p, R, I, O, A>,
) -> Result<StationEnd<'a, 'p, R, I, O, A>, Fault<'static>>
    requires few { length stage.inputs.items ≤ 8 }
    requires many { length stage.answers.items ≡ length stage.inputs.items }
    requires sound { IsSound (program_limits stage.kept.site) stage.kept.recent.base (reverse stage.kept.recent.entries.items) }
    ensures unstarted { IfErr result IsUnstarted }
    ensures ran { IfOk result (λ closed. RanTo stage.entry closed) }
{
    let Ok(places) = Places::new(rt, alloc, stage.kept.recent.base, 1) else {
        return Err(Fault::NoMemory);
    };
    stage.paths.requests.resume_all();
    let blank = Blank::new(stage.inputs.len() as u64 + 1);
    run_named::<Brand, _, _, _, _>(rt, alloc, stage, Foundation { blank, places })
}

// Runs a station that has a name.
fn run_named<
    'a,
    'p,
    L: StationName + Send + Sync,
    R: System,
    I: Read + Drop,
    O: Write + Send + Drop,
    A: Write + Send + Drop,
>(
    rt: &R,
    alloc: Global,
    stage: Stage<'a, 'p, R, I, O, A>,
    foundation: Foundation,
) -> Result<StationEnd<'a, 'p, R, I, O, A>, Fault<'static>>
    requires many { length stage.answers.items ≡ length stage.inputs.items }
    requires ledger { (foundation.blank.name ≡ L.name) × (foundation.blank.parts ≡ L.parts) }
    requires may { MayBegin L.start L.parts L.seats foundation.places (start_of stage.kept) (length stage.inputs.items) }
    ensures unstarted { IfErr result IsUnstarted }
    ensures ran { IfOk result (λ closed. RanTo stage.entry closed) }
{
    let (paths, duties, clock) = (stage.paths, stage.duties, stage.clock);
    let (kept, inputs) = (stage.kept, stage.inputs);
    let (watch, format) = (&stage.beside.watch, duties.tables.format);
    let Crew {
        station,
        receivers,
        seat,
    } = begin::<L, _, _>(rt, alloc, kept, inputs, watch, foundation)?;
    let (printer, output_thread) = stage.out.apart();
    let reporter = Reporter {
        duties,
        seat,
        out: printer,
        beside: stage.beside,
    };
    let Some(left) = run_threads(rt, &station, &paths.requests, clock, receivers, reporter) else {
        station.end(rt);
        return Err(Fault::ThreadNotStarted);
    };
    let (receivers, mut reported) = (left.receivers, left.report);
    reported.beside.report_limits(station.limits_met());
    reported.beside.look_again(&paths.requests);
    let hands_over = hands_over(reported.asked_at, &receivers);
    learn_from_all(&mut reported.seat, &receivers);
    let report = print_last(rt, &station, clock, format, hands_over, reported);
    let leaving = close(rt, alloc, station, receivers, report.seat, stage.answers)?;
    Ok(StationEnd {
        clock,
        rounds_left: stage.rounds_left,
        journal: leaving.journal,
        hands_over,
        duties,
        due: report.due,
        paths,
        inputs: leaving.inputs,
        answers: leaving.answers,
        out: OpenOutput::new(report.out, output_thread),
        beside: report.beside,
    })
}

// The seat learns from each receiver's: from now on it has seen each accepted call.
fn learn_from_all<L: StationName, R: Wait>(
    seat: &mut Seat<AIRCRAFT, L>,
    receivers: &Vec<Receiver<'_, R, L>>,
)
    ensures { LearnsFrom seat.old (map (λ r. r.seat) receivers.now.items) seat.new }
{
    for receiver in receivers {
        seat.learn_from(&receiver.seat);
    }
}

// Whether a hand-over was asked for, and a further station has something to do.
fn hands_over<L: StationName, R: Wait>(
    asked_at: Option<u64>,
    receivers: &Vec<Receiver<'_, R, L>>,
) -> bool
    ensures { result ≡ (is_some asked_at && may_work_on (λ r. state_of r.source) (λ r. r.answer) receivers.now.items) }
{
    asked_at.is_some() && goes_on(receivers)
}

// Whether a path goes on, and no receiver ended by a fault that ends the run.
fn goes_on<L: StationName, R: Wait>(receivers: &Vec<Receiver<'_, R, L>>) -> bool
    ensures { result ≡ may_work_on (λ r. state_of r.source) (λ r. r.answer) receivers.now.items }
{
    !has_stopped(receivers) && is_any_open(receivers)
}

// Whether a receiver ended by a fault that ends the run.
fn has_stopped<L: StationName, R: Wait>(receivers: &Vec<Receiver<'_, R, L>>) -> bool
    ensures { result ≡ list_any (λ r. option_map_or ends_run r.answer true) receivers.now.items }
{
    for receiver in receivers {
        if stops_run(&receiver.answer) {
            return true;
        }
    }
    false
}

// Whether a path goes on.
fn is_any_open<L: StationName, R: Wait>(receivers: &Vec<Receiver<'_, R, L>>) -> bool
    ensures { result ≡ list_any (λ r. is_open (state_of r.source)) receivers.now.items }
{
    for receiver in receivers {
        if goes_on_at(receiver.source.end()) {
            return true;
        }
    }
    false
}

// Whether a receiver that answers so ended by a fault that ends the run, or has no answer.
fn stops_run(answer: &Option<Answer>) -> bool
    ensures { result ≡ option_map_or ends_run answer.now true }
{
    match answer {
        Some(Err(PumpFault::TooManyTurns(_) | PumpFault::NoMemory(_))) | None => true,
        Some(Ok(_) | Err(PumpFault::Read(_))) => false,
    }
}

// Whether a path with this end goes on: it has none.
fn goes_on_at(end: Option<PathEnd>) -> bool
    ensures { result ≡ not (is_some (left_of end)) }
{
    match end {
        Some(_) => false,
        None => true,
    }
}
