//! Receivers that feed their lines at the same time.
ghost use Rattle.std.specs.Prelude.{◌≡◌};

mod eight;
mod long;
mod refused;
mod torn;

use crate::comparing::{holds, same};
use crate::fakes::{Site, becomes_set, push};
use crate::station::look_of;
use station_lines::{PumpFault, Tally};
use station_shared::{LimitsMet, Seat, Station, StationName, Worker, run_receivers};
use std::io;
use std::io::{ErrorKind, Read};
use std::marker::Brand;
use std::process::Abort;
use std::sync::Wait;
use std::sync::atomic::AtomicU64;
use std::sync::atomic::Ordering::SeqCst;
use std::thread::{Threads, yield_now};
use streams::{FromRead, Source};

const IDENTIFICATION: &'static [u8] = b"*8D4840D6202CC371C32CE0576098;\n";

const VELOCITY: &'static [u8] = b"*8D485020994409940838175B284F;\n";

// The tally of blank lines, and of lines with frames by their answers.
fn tally(blank: u16, accepted: u16, refused: u8) -> Tally {
    let (accepted, refused) = (u64::from(accepted), u64::from(refused));
    Tally {
        lines: u64::from(blank) + accepted + refused,
        frames: accepted + refused,
        ticks: 0,
        shows: 0,
        blank: u64::from(blank),
        mode_ac: 0,
        faults: 0,
        accepted,
        refused,
    }
}

// Waits until another receiver's aircraft is live, and says whether it is.
trait Watch: Sized {
    fn watch(self) -> (Self, bool);
}

// Looks by a seat that learns nothing, until 485020 is live, at most 10,000,000 times.
impl<L: StationName> Watch for Seat<8, L> {
    fn watch(self) -> (Self, bool) {
        let mut seat = self;
        for _ in 0..10_000_000 {
            let (back, is_live) = look_for(seat, 0x485020);
            seat = back;
            if is_live {
                return (seat, true);
            }
            yield_now();
        }
        (seat, false)
    }
}

fn look_for<L: StationName>(seat: Seat<8, L>, address: u32) -> (Seat<8, L>, bool) {
    match seat.look() {
        Ok(look) => {
            let is_live = look.get(address).is_some();
            (look.done(), is_live)
        }
        Err(seat) => (seat, false),
    }
}

// Gives its bytes. It ends once its watcher has seen the other's aircraft or, without a watcher, once the word is set.
#[derive(Drop)]
struct Meeting<'a, W> {
    rest: &'static [u8],
    watcher: &'a mut Option<W>,
    word: &'a AtomicU64,
}

impl<'a, W: Watch + Drop> Read for Meeting<'a, W> {
    fn read(&mut self, buffer: &mut [u8]) -> io::Result<usize> {
        if self.rest.is_empty() && !have_met(self.watcher, self.word) {
            return Err(io::Error::from(ErrorKind::BrokenPipe));
        }
        self.rest.read(buffer)
    }
}

fn have_met<W: Watch + Drop>(watcher: &mut Option<W>, word: &AtomicU64) -> bool {
    match watcher.take() {
        Some(watching) => {
            let (back, is_live) = watching.watch();
            *watcher = Some(back);
            if is_live {
                word.store(1, SeqCst);
            }
            is_live
        }
        None => becomes_set(word),
    }
}

fn worker<const N: usize, S: Source, L: StationName>(
    seat: Seat<N, L>,
    source: S,
) -> Worker<N, S, L> {
    Worker {
        seat,
        source,
        counts: None,
        answer: None,
    }
}

// A receiver whose source ends once its watcher, or another's, has seen the other aircraft.
fn meeting_worker<'a, W: Watch + Drop, L: StationName>(
    rt: &impl Abort,
    seat: Option<Seat<8, L>>,
    rest: &'static [u8],
    watcher: &'a mut Option<W>,
    word: &'a AtomicU64,
) -> Worker<8, FromRead<Meeting<'a, W>>, L> {
    let source = Meeting {
        rest,
        watcher,
        word,
    };
    worker(seat.expect(rt, "a receiver's seat"), FromRead::new(source))
}

fn run_both<W: Watch + Send + Drop, L: StationName + Send + Sync, R: Threads + Wait + Sync>(
    rt: &R,
    station: &Station<8, L>,
    workers: &mut [Worker<8, FromRead<Meeting<'_, W>>, L>],
) {
    run_receivers(rt, station, workers, 9);
}

// Whether the worker ended its source. Otherwise it was out of memory at its frame, or it met nobody: the other was out
// of memory, or had to wait for a thread. Its seat was accepted as often as the tally counts.
fn has_ended<S: Source, L: StationName>(rt: &impl Abort, worker: &Worker<8, S, L>) -> bool {
    let (counted, has_ended) = match worker.answer {
        Some(Ok(counted)) => (counted, true),
        Some(Err(PumpFault::Read(counted))) => (counted, false),
        Some(Err(PumpFault::NoMemory(counted))) => {
            same(rt, (counted, worker.seat.accepted()), (tally(0, 0, 1), 0));
            return false;
        }
        _ => panic!(rt; "another answer"),
    };
    same(rt, (counted, worker.seat.accepted()), (tally(0, 1, 0), 1));
    has_ended
}

// Closes the station with all its seats, and counts the entries. The published table and the journal have all that were
// accepted.
fn close_all<const N: usize, L: StationName, R: Wait + Abort>(
    rt: &R,
    station: Station<N, L>,
    mut seats: Vec<Seat<N, L>>,
) -> u64 {
    let look = look_of(rt, seats.pop().expect(rt, "a seat"));
    let entries = look.entries();
    push(rt, &mut seats, look.done());
    let closed = match station.close(rt, seats) {
        Ok(closed) => closed,
        Err(_) => panic!(rt; "not closed with all seats"),
    };
    let mut accepted = 0u64;
    for count in closed.accepted.as_slice() {
        accepted = accepted.saturating_add(*count);
    }
    same(rt, (closed.journal.len(), accepted), (entries, entries));
    entries
}

// What two receivers leave: the answers of their pumps, how many entries there are, and which limits their calls met.
#[derive(Drop)]
struct Ran {
    answers: [Option<Result<Tally, PumpFault>>; 2],
    entries: u64,
    limits: LimitsMet,
}

// Runs the workers, of which there are none yet, and then those of two sources, each with at most this many reads. The first
// source is that of the last seat. Then it closes the station.
fn run_pair<
    const N: usize,
    S: Source + Send + Drop,
    L: StationName + Send + Sync,
    R: Threads + Wait + Abort + Sync,
>(
    rt: &R,
    station: Station<N, L>,
    mut seats: Vec<Seat<N, L>>,
    mut workers: Vec<Worker<N, S, L>>,
    sources: [S; 2],
    turns: u32,
) -> Ran {
    run_receivers(rt, &station, workers.as_mut_slice(), turns);
    same(rt, workers.len(), 0);
    let [first, second] = sources;
    let last_seat = seats.pop().expect(rt, "the last seat");
    push(rt, &mut workers, worker(last_seat, first));
    let seat_before = seats.pop().expect(rt, "the seat before");
    push(rt, &mut workers, worker(seat_before, second));
    run_receivers(rt, &station, workers.as_mut_slice(), turns);
    let second = workers.pop().expect(rt, "the second worker");
    let first = workers.pop().expect(rt, "the first worker");
    let answers = [first.answer, second.answer];
    push(rt, &mut seats, first.seat);
    push(rt, &mut seats, second.seat);
    let limits = station.limits_met();
    let entries = close_all(rt, station, seats);
    Ran {
        answers,
        entries,
        limits,
    }
}

// Two receivers, each with a source that ends once the other's aircraft is live. The first one's source looks, by the
// third seat. False where something was refused.
fn is_meeting<L: StationName + Send + Sync, R: Threads + Wait + Abort + Sync>(
    rt: &R,
    site: Site<8>,
) -> bool
    requires ledger { (L.name ≡ site.blank.name) × (L.parts ≡ site.seats) × (L.seats ≡ site.seats) }
    requires start { L.start ≡ record { history = site.places.history; limits = site.limits; resumed = 0 } }
{
    let alloc = site.alloc;
    let Ok((station, mut seats)) = site.open::<L, R>(rt) else {
        return false;
    };
    let word = AtomicU64::new(0);
    let (mut looking, mut waiting) = (seats.pop(), None);
    let Ok(mut workers) = Vec::with_capacity(alloc, 2) else {
        station.end(rt);
        return false;
    };
    let first = meeting_worker(rt, seats.pop(), IDENTIFICATION, &mut looking, &word);
    push(rt, &mut workers, first);
    let second = meeting_worker(rt, seats.pop(), VELOCITY, &mut waiting, &word);
    push(rt, &mut workers, second);
    run_both(rt, &station, workers.as_mut_slice());
    let mut have_ended = true;
    for worker in workers {
        have_ended &= has_ended(rt, &worker);
        push(rt, &mut seats, worker.seat);
    }
    push(rt, &mut seats, looking.expect(rt, "the seat that looks"));
    same(rt, seats.len(), 3);
    let entries = close_all(rt, station, seats);
    holds(rt, entries == 2 || !have_ended);
    have_ended
}

#[test]
fn receivers_are_seen_while_both_still_read(rt: HostRuntime) {
    let have_met = is_meeting::<Brand, _>(&rt, Site::new(&rt, rt.alloc(), 16, 3, 3))
        || is_meeting::<Brand, _>(&rt, Site::new(&rt, rt.alloc(), 16, 3, 3));
    holds(&rt, have_met);
}
