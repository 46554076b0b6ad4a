//! The threads of a station of the job `run`.
ghost use Rattle.std.specs.Prelude.{IfSome};
ghost use Rattle.station_reporter.specs.Reporter.{HasReported};
ghost use Rattle.station_run.specs.Run.{HaveWorked};

use crate::limits::{AIRCRAFT, TURNS};
use station_output::Printer;
use station_paths::{Input, System};
use station_portions::Portions;
use station_reporter::{
    Bells, Beside, Reporter, ReporterResult, ReportsFrom, Requests, RunClock, report,
};
use station_shared::{Seat, Station, StationName, Worker, run_receivers};
use std::io::Write;
use std::snapshot::Snapshot;
use std::sync::Wait;
use std::thread;
use std::thread::Threads;
use streams::Sink;

/// A receiver: its seat, its input and, once it has ended, its answer.
pub type Receiver<'a, R, L> = Worker<AIRCRAFT, Input<'a, R>, L>;

/// What the threads of a station leave.
#[derive(Drop)]
pub struct Outcome<W, P> {
    /// The receivers, each with its answer.
    pub receivers: Vec<W>,
    /// What the reporter leaves.
    pub report: P,
}

/// The same of the program's threads, by the output and what is written beside it.
pub type Left<'a, L, R, S, K> = Outcome<
    Receiver<'a, R, L>,
    ReporterResult<Seat<AIRCRAFT, L>, S, K>,
>;

/// Runs the receivers and the reporter to their ends, each in a thread of its own. The receivers begin once the reporter has
/// ticked, where a tick is due at its start: so what they hear is dated by it. Answers `None` if the reporter's
/// thread can't be started, and then nothing is read.
pub fn run_threads<
    'a,
    L: StationName + Send + Sync,
    R: System,
    T: Sink + Send + Drop,
    A: Write + Send + Drop,
>(
    rt: &R,
    station: &Station<AIRCRAFT, L>,
    requests: &Requests,
    clock: RunClock,
    receivers: Vec<Receiver<'a, R, L>>,
    reporter: Reporter<Seat<AIRCRAFT, L>, Printer<A>, Beside<T, A>>,
) -> Option<Left<'a, L, R, Printer<A>, Beside<T, A>>>
    ensures receivers { IfSome result (λ left. HaveWorked L.start (λ r. r.seat) (λ r. r.source) (λ r. r.answer)
        receivers.entry.items left.receivers.items) }
    ensures reporter { IfSome result (λ left. HasReported (λ b. b.record) L.start reporter left.report) }
{
    let bells = &Bells::new();
    thread::scope(
        thread::scope_env(),
        rt,
        move |scope| -> Option<Left<'_, L, R, Printer<A>, Beside<T, A>>>
            ensures receivers { IfSome result (λ left. HaveWorked L.start (λ r. r.seat) (λ r. r.source) (λ r. r.answer)
                receivers.entry.items left.receivers.items) }
            ensures reporter { IfSome result (λ left. HasReported (λ b. b.record) L.start reporter left.report) }
        {
            let given = ReportsFrom(Snapshot::of(&reporter));
            let job = move || report(rt, station, bells, requests, clock, reporter);
            let Ok(reporting) = scope.spawn_with(given, job) else {
                return None;
            };
            bells.begun.wait(rt);
            let receivers = run_all(rt, station, receivers);
            bells.ended.ring();
            let report = reporting.join(rt);
            Some(Outcome { receivers, report })
        },
    )
}

// Runs the receivers to their ends, each in a thread of its own.
fn run_all<'a, L: StationName + Send + Sync, R: Threads + Wait + Sync>(
    rt: &R,
    station: &Station<AIRCRAFT, L>,
    receivers: Vec<Receiver<'a, R, L>>,
) -> Vec<Receiver<'a, R, L>>
    ensures { HaveWorked L.start (λ r. r.seat) (λ r. r.source) (λ r. r.answer)
        receivers.entry.items result.items }
{
    let mut running = receivers;
    run_receivers(rt, station, running.as_mut_slice(), TURNS);
    running
}
