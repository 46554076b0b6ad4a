//! What a tick alone leaves beside the tables: what was heard so far, for the record and displays.
ghost use Rattle.std.specs.Prelude.{◌≡◌, ◌⊎◌};
ghost use Rattle.station_reporter.specs.Reporter.{MayNote, TicksAlone};

use crate::bell::Bells;
use crate::beside::Beside;
use crate::reporter::ReporterResult;
use crate::schedule::is_writing_due;
use station_files::{put_table, record_look, table_for};
use station_output::Printer;
use station_shared::{Seat, Station, StationName};
use std::fs::File;
use std::io::Write;
use std::rt::Files;
use std::sync::Wait;
use std::time::Clock;
use streams::Sink;

/// Ticks alone. Where that is accepted, and a second has passed since what was heard was last written, records what the seat
/// sees, without a `?`, and puts its table where displays find it.
pub(crate) fn tick_alone<
    const N: usize,
    L: StationName,
    R: Wait + Clock + Files<File = File>,
    T: Sink,
    A: Write,
>(
    rt: &R,
    station: &Station<N, L>,
    bells: &Bells,
    at: u64,
    mut reported: ReporterResult<Seat<N, L>, Printer<A>, Beside<T, A>>,
) -> ReporterResult<Seat<N, L>, Printer<A>, Beside<T, A>>
    ensures ticks { TicksAlone L.start at reported.seat result.seat reported.beside.record result.beside.record
        reported.written_at result.written_at }
    ensures out { result.out ≡ reported.out }
    ensures asked { result.asked_at ≡ reported.asked_at }
{
    let ticked = station.tick(rt, &mut reported.seat, at);
    bells.begun.ring();
    match ticked {
        Ok(_) if is_writing_due(reported.written_at, at) => {
            let seat = reported.seat;
            reported.beside.date(rt, at);
            let (seat, is_noted) = note(rt, station, seat, &mut reported.beside);
            reported.seat = seat;
            if is_noted {
                reported.written_at = Some(at);
            }
            reported
        }
        _ => reported,
    }
}

/// Records what the seat sees, without a `?`, if there is a record, and puts its table where displays find it, if that is asked.
/// Does nothing where the look is refused. Answers whether it wasn't.
pub(crate) fn note<const N: usize, L: StationName, R: Wait + Files<File = File>, T: Sink, A: Write>(
    rt: &R,
    station: &Station<N, L>,
    seat: Seat<N, L>,
    beside: &mut Beside<T, A>,
) -> (Seat<N, L>, bool)
    ensures { MayNote L.start seat result.0 beside.old.record beside.new.record result.1 }
{
    match seat.look() {
        Ok(look) => {
            let count = look.entries();
            let for_displays = table_for(&beside.displays, &look);
            let seat = look.done();
            record_look(&mut beside.record, rt, station, &seat, count, false);
            put_table(&mut beside.displays, &beside.watch, rt, for_displays);
            (seat, true)
        }
        Err(seat) => (seat, false),
    }
}
