//! How a station ends: the last table, unless it hands over, and its close with all its seats.
ghost use Rattle.std.specs.Prelude.{◌≡◌, ◌∷◌, ◌||◌, All, IfErr, IfOk, is_some, map, true, length};
ghost use Rattle.station_portions.specs.Giving.{state_of};
ghost use Rattle.station_history.specs.Start.{log_of};
ghost use Rattle.station_run.specs.Run.{CanClose, IsClosed, PrintsLast};
ghost use Rattle.station_paths.specs.Faults.{IsUnstarted};
ghost use Rattle.messages.specs.Sums.{AddsAll};
ghost use Rattle.station_output.specs.Tables.{is_broken};

use crate::limits::AIRCRAFT;
use crate::threads::Receiver;
use messages::{Answer, Fault, added};
use station_journal::{Journal, NoMemory};
use station_output::Printer;
use station_paths::Input;
use station_report::Format;
use station_reporter::{Beside, ReporterResult, RunClock, print_and_record};
use station_shared::{Missing, Seat, Station, StationName, Worker};
use std::alloc::Global;
use std::fs::File;
use std::io::Write;
use std::rt::Files;
use std::sync::Wait;
use std::time::Clock;
use streams::Sink;

/// What is left of a closed station.
#[derive(Drop)]
pub(super) struct Leaving<'a, R> {
    pub journal: Journal,
    pub inputs: Vec<Input<'a, R>>,
    /// What all stations of the round so far counted, by input.
    pub answers: Vec<Answer>,
}

/// Prints the last table, records it and puts it where displays find it, unless the station hands over or the output was
/// broken before. Waits until the table is written.
pub(super) fn print_last<L: StationName, R: Wait + Clock + Files<File = File>, T: Sink, A: Write>(
    rt: &R,
    station: &Station<AIRCRAFT, L>,
    clock: RunClock,
    format: Format,
    hands_over: bool,
    report: ReporterResult<Seat<AIRCRAFT, L>, Printer<A>, Beside<T, A>>,
) -> ReporterResult<Seat<AIRCRAFT, L>, Printer<A>, Beside<T, A>>
    ensures { PrintsLast (λ b. b.record) format L.start (hands_over || is_broken report.out) report result }
{
    if hands_over || report.out.is_broken() {
        return report;
    }
    let ReporterResult {
        seat,
        mut out,
        mut beside,
        due,
        asked_at,
        written_at,
    } = report;
    beside.date_by(rt, clock);
    let seat = print_and_record(rt, station, seat, format, &mut out, &mut beside);
    out.settle(rt);
    ReporterResult {
        seat,
        out,
        beside,
        due,
        asked_at,
        written_at,
    }
}

/// Closes the station with all its seats. `before` is what the stations before it counted.
pub(super) fn close<'a, L: StationName, R: Wait>(
    rt: &R,
    alloc: Global,
    station: Station<AIRCRAFT, L>,
    receivers: Vec<Receiver<'a, R, L>>,
    reporter: Seat<AIRCRAFT, L>,
    before: Vec<Answer>,
) -> Result<Leaving<'a, R>, Fault<'static>>
    requires { CanClose L.seats (λ r. r.seat) (λ r. r.answer) reporter receivers.items before.items }
    ensures unstarted { IfErr result IsUnstarted }
    ensures log { IfOk result (λ left. left.journal.log ≡ log_of L.start left.journal.log.entries) }
    ensures closed { IfOk result (λ left. IsClosed L.start (record {
      reporter = reporter;
      receivers = map (λ r. r.seat) receivers.entry.items;
      journal = left.journal.log.entries;
    })) }
    ensures inputs { IfOk result (λ left. map state_of left.inputs.items
        ≡ map state_of (map (λ r. r.source) receivers.entry.items)) }
    ensures sums { IfOk result (λ left.
        AddsAll before.items (map (λ r. r.answer) receivers.entry.items) left.answers.items) }
{
    let Ok(parts) = part(alloc, receivers, reporter, before) else {
        station.end(rt);
        return Err(Fault::NoMemory);
    };
    match station.close(rt, parts.seats) {
        Ok(closed) => Ok(Leaving {
            journal: closed.journal,
            inputs: parts.inputs,
            answers: parts.answers,
        }),
        Err(Missing { .. }) => unreachable!(),
    }
}

// What receivers are taken apart into, with the reporter's seat.
#[derive(Drop)]
struct Parts<'a, L: StationName, R: Wait> {
    seats: Vec<Seat<AIRCRAFT, L>>,
    inputs: Vec<Input<'a, R>>,
    answers: Vec<Answer>,
}

// All seats of a station, the reporter's first, the inputs, and what was counted so far.
fn part<'a, L: StationName, R: Wait>(
    alloc: Global,
    receivers: Vec<Receiver<'a, R, L>>,
    reporter: Seat<AIRCRAFT, L>,
    before: Vec<Answer>,
) -> Result<Parts<'a, L, R>, NoMemory>
    requires answered { All (λ r. is_some r.answer ≡ true) receivers.items }
    requires many { length before.items ≡ length receivers.items }
    ensures seats { IfOk result (λ parts. parts.seats.items ≡ reporter ∷ map (λ r. r.seat) receivers.entry.items) }
    ensures inputs { IfOk result (λ parts. map state_of parts.inputs.items
        ≡ map state_of (map (λ r. r.source) receivers.entry.items)) }
    ensures sums { IfOk result (λ parts.
        AddsAll before.items (map (λ r. r.answer) receivers.entry.items) parts.answers.items) }
{
    let (mut seats, mut inputs, mut answers) = (Vec::new(alloc), Vec::new(alloc), Vec::new(alloc));
    seats.push(reporter)?;
    for (receiver, before) in receivers.into_iter().zip(before) {
        let Worker {
            seat,
            source,
            answer,
            ..
        } = receiver;
        let Some(answer) = answer else { unreachable!() };
        seats.push(seat)?;
        inputs.push(source)?;
        answers.push(added(&before, &answer))?;
    }
    Ok(Parts {
        seats,
        inputs,
        answers,
    })
}
