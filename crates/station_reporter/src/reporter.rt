//! The reporter, which prints the table as its own seat sees it.
ghost use Rattle.std.specs.Prelude.{◌≡◌, ◌≤◌, ℕ, List, None, false, length, true};
ghost use Rattle.std.specs.Io.KnownBytes.{Appends};
ghost use Rattle.station_reporter.specs.Reporter.{DoesAct, IsLater, PrintsAndRecords, Reports, ReportsByAClock, ShowsTable};
ghost use Rattle.station_output.specs.Tables.{is_broken};

use crate::bell::{Bell, Bells};
use crate::beside::Beside;
use crate::duties::Duties;
use crate::noting::{note, tick_alone};
use crate::requests::Requests;
use crate::schedule::{
    Act, Due, ElapsedClock, LONGEST_SLEEP, Moments, RunClock, act_at, after_tick,
};
use station_files::{put_table, record_look, table_for};
use station_output::Printer;
use station_report::Format;
use station_shared::{Seat, Station, StationName};
use std::fs::File;
use std::io::Write;
use std::rt::Files;
use std::snapshot::Snapshot;
use std::sync::Wait;
use std::thread::Promise;
use std::time::{Clock, Duration};
use streams::Sink;

/// What a reporter leaves.
#[derive(Drop)]
pub struct ReporterResult<S, O, K> {
    pub seat: S,
    pub out: O,
    pub beside: K,
    /// What is due next.
    pub due: Due,
    /// The time of the tick with which a hand-over was asked for, if one was.
    pub asked_at: Option<u64>,
    /// When what was heard was last written for the record and displays, if it was.
    pub written_at: Option<u64>,
}

/// What a reporter starts with.
#[derive(Drop)]
pub struct Reporter<S, O, K> {
    pub duties: Duties,
    pub seat: S,
    pub out: O,
    pub beside: K,
}

/// The promise of a reporter that starts with this: that it reports from there.
#[derive(Drop)]
pub struct ReportsFrom<S, O, K>(pub Snapshot<Reporter<S, O, K>>);

impl<const N: usize, L: StationName, T: Sink, A: Write> Promise<
    ReporterResult<Seat<N, L>, Printer<A>, Beside<T, A>>,
> for ReportsFrom<Seat<N, L>, Printer<A>, Beside<T, A>> {
    ghost use Rattle.station_reporter.specs.Reporter.{HasReported};

    ghost kept_by = { λ given reported. HasReported (λ b. b.record) L.start given.0.value reported };
}

/// Ticks, prints the table and records it each time that it is due, by the run's clock.
/// Between tables it ticks alone, if ticks are asked for, and then records what it sees without a table, once a second at most.
/// Ends when all receivers have ended, a table failed without which
/// the run doesn't go on, or the journal has enough entries for the station to hand over: then it ticks alone once more, and
/// asks for the end of all portions. Where the end of the run was asked for, it asks for that end too, and the station doesn't
/// hand over. Answers the seat, the output, which has taken the tables of its looks and nothing else, and what is written
/// beside: the record has gone on with what these looks saw. Limits that calls have met are reported at once.
/// `bells.begun` rings once it has ticked where a tick is due at its start.
pub fn report<
    const N: usize,
    L: StationName,
    R: Wait + Clock + Files<File = File>,
    T: Sink,
    A: Write,
>(
    rt: &R,
    station: &Station<N, L>,
    bells: &Bells,
    requests: &Requests,
    clock: RunClock,
    reporter: Reporter<Seat<N, L>, Printer<A>, Beside<T, A>>,
) -> ReporterResult<Seat<N, L>, Printer<A>, Beside<T, A>>
    ensures { ReportsByAClock L.start reporter.duties result.due result.asked_at reporter.seat result.seat
        reporter.out result.out reporter.beside.record result.beside.record }
{
    let duties = reporter.duties;
    let mut moments = ElapsedClock { rt, clock };
    let (mut reported, is_full) = report_at(rt, station, bells, requests, reporter, &mut moments);
    bells.begun.ring();
    if !is_full {
        end_if(
            requests,
            duties.ends_with_output && reported.out.is_broken(),
        );
        await_end(rt, &bells.ended, requests);
        return reported;
    }
    let at = moments.now();
    let _ = station.tick(rt, &mut reported.seat, at);
    reported.due = after_tick(duties.tables.pace, reported.due, at);
    reported.asked_at = Some(at);
    requests.end_all();
    reported
}

// Asks for the end of all portions, under a condition.
fn end_if(requests: &Requests, condition: bool) {
    if condition {
        requests.end_all();
    }
}

// Waits until all receivers have ended, where the end of the run may still be asked for. After a failed write they go on.
fn await_end<R: Wait>(rt: &R, ended: &Bell, requests: &Requests) {
    if requests.stop.is_none() {
        return;
    }
    for _ in rt.forever() {
        if ended.has_rung() {
            return;
        }
        let _ = requests.end_if_stopped();
        ended.rest(rt, Duration::from_millis(LONGEST_SLEEP));
    }
}

// `report` by any clock up to a hand-over: a table at each of its times at which one is due, and a tick alone where only
// that is due. Answers whether the station is to hand over. Where the end of the run was asked for, that of all portions is,
// again at each wake.
fn report_at<
    const N: usize,
    L: StationName,
    R: Wait + Clock + Files<File = File>,
    T: Sink,
    A: Write,
    M: Moments,
>(
    rt: &R,
    station: &Station<N, L>,
    bells: &Bells,
    requests: &Requests,
    reporter: Reporter<Seat<N, L>, Printer<A>, Beside<T, A>>,
    moments: &mut M,
) -> (ReporterResult<Seat<N, L>, Printer<A>, Beside<T, A>>, bool)
    ensures reports { (given : List ℕ) × Appends (M.given moments.old) (M.given moments.new) given
        × Reports L.start reporter.duties.tables reporter.duties.due result.0.due given reporter.seat result.0.seat
        reporter.out result.0.out reporter.beside.record result.0.beside.record }
    ensures full { result.1 ≡ true → reporter.duties.hand_over_at ≤ length result.0.seat.seen }
    ensures well { result.1 ≡ true → is_broken result.0.out ≡ false }
    ensures asked { result.0.asked_at ≡ None }
{
    let duties = reporter.duties;
    let (mut reported, mut now) = (begin(reporter), 0);
    for _ in rt.forever() {
        reported.out.learn();
        if reported.out.is_broken() || bells.ended.has_rung() {
            break;
        }
        reported.beside.report_limits(station.limits_met());
        let (seat, entries) = count(reported.seat);
        reported.seat = seat;
        let is_ending = requests.end_if_stopped();
        if duties.asks(entries, now, reported.due) && !is_ending {
            return (reported, true);
        }
        now = moments.now();
        reported.beside.look_at_paths(requests, now);
        let act = act_at(now, reported.due, duties.tables.pace);
        reported = do_act(rt, station, bells, duties.tables.format, act, reported);
    }
    (reported, false)
}

// What a reporter has done that has only started.
fn begin<S, O, K>(reporter: Reporter<S, O, K>) -> ReporterResult<S, O, K>
    ensures seat { result.seat ≡ reporter.seat }
    ensures out { result.out ≡ reporter.out }
    ensures beside { result.beside ≡ reporter.beside }
    ensures due { result.due ≡ reporter.duties.due }
    ensures asked { result.asked_at ≡ None }
    ensures written { result.written_at ≡ None }
{
    ReporterResult {
        seat: reporter.seat,
        out: reporter.out,
        beside: reporter.beside,
        due: reporter.duties.due,
        asked_at: None,
        written_at: None,
    }
}

// Sleeps, ticks alone, or ticks and prints the table.
fn do_act<const N: usize, L: StationName, R: Wait + Clock + Files<File = File>, T: Sink, A: Write>(
    rt: &R,
    station: &Station<N, L>,
    bells: &Bells,
    format: Format,
    act: Act,
    mut reported: ReporterResult<Seat<N, L>, Printer<A>, Beside<T, A>>,
) -> ReporterResult<Seat<N, L>, Printer<A>, Beside<T, A>>
    ensures { DoesAct (λ b. b.record) format L.start act reported result }
{
    match act {
        Act::Sleep(pause) => {
            bells.begun.ring();
            bells.ended.rest(rt, pause);
        }
        Act::Tick { at, next_due } => {
            reported = tick_alone(rt, station, bells, at, reported);
            reported.due = next_due;
        }
        Act::Print { at, next_due } => {
            let _ = station.tick(rt, &mut reported.seat, at);
            bells.begun.ring();
            let seat = reported.seat;
            let (out, beside) = (&mut reported.out, &mut reported.beside);
            beside.date(rt, at);
            reported.seat = show(rt, station, seat, format, out, beside);
            reported.due = next_due;
            reported.written_at = Some(at);
        }
    }
    reported
}

// Prints the table as the seat sees it, or leaves it out where the output has no room for it. Either is recorded, and the table is
// put where displays find it, if that is asked.
fn show<const N: usize, L: StationName, R: Wait + Clock + Files<File = File>, T: Sink, A: Write>(
    rt: &R,
    station: &Station<N, L>,
    seat: Seat<N, L>,
    format: Format,
    out: &mut Printer<A>,
    beside: &mut Beside<T, A>,
) -> Seat<N, L>
    ensures { ShowsTable format L.start seat result out.old out.new beside.old.record beside.new.record }
{
    if out.has_room(rt) {
        return print_and_record(rt, station, seat, format, out, beside);
    }
    out.leave_out();
    note(rt, station, seat, beside).0
}

// How many entries the journal has by a look, which prints nothing. 0 if the look is refused.
fn count<const N: usize, L: StationName>(seat: Seat<N, L>) -> (Seat<N, L>, u64)
    ensures later { IsLater L.start seat result.0 }
    ensures many { result.1 ≤ length result.0.seen }
{
    match seat.look() {
        Ok(look) => {
            let count = look.entries();
            (look.done(), count)
        }
        Err(seat) => (seat, 0),
    }
}

/// Prints the table as the seat sees it, in this format, unless one failed before, and hands the seat back. Then it records
/// what was seen, if there is a record, and puts the table where displays find it, if that is asked. Does nothing of this
/// where the look is refused, or a table failed without which the run doesn't go on.
pub fn print_and_record<
    const N: usize,
    L: StationName,
    R: Wait + Files<File = File>,
    T: Sink,
    A: Write,
>(
    rt: &R,
    station: &Station<N, L>,
    seat: Seat<N, L>,
    format: Format,
    out: &mut Printer<A>,
    beside: &mut Beside<T, A>,
) -> Seat<N, L>
    ensures { PrintsAndRecords format L.start seat result out.old out.new beside.old.record beside.new.record }
{
    if out.is_broken() {
        return seat;
    }
    match seat.look() {
        Ok(look) => {
            let count = look.entries();
            let for_displays = table_for(&beside.displays, &look);
            let seat = out.print(rt, look, format);
            record_look(&mut beside.record, rt, station, &seat, count, true);
            put_table(&mut beside.displays, &beside.watch, rt, for_displays);
            seat
        }
        Err(seat) => seat,
    }
}
