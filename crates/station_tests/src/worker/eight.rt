//! Eight receivers that fill several pages of a journal.
ghost use Rattle.std.specs.Prelude.{◌≡◌};

use super::{tally, worker};
use crate::comparing::{same, same_at};
use crate::fakes::{Site, push};
use crate::station::read_frame;
use modes_frame::{Frame, remainder};
use station_journal::{Entry, Journal};
use station_shared::{Seat, Station, StationName, Worker, run_receivers};
use std::alloc::Global;
use std::io;
use std::io::{BufReader, Read};
use std::marker::Brand;
use std::process::Abort;
use std::sync::Wait;
use std::thread::Threads;
use streams::FromBuffer;

// How many lines each receiver reads: more than are kept at once.
const LINES: u16 = 10_000;

// As many frames are compared for repeats after a tick.
const COMPARED: u16 = 256;

// The bytes of a line with a long frame, with its line feed.
const WIDTH: usize = 31;

// The bytes that a receiver has at hand at once: more than all its lines, and so more than a piece.
const AT_HAND: usize = 393_216;

// The lines of the receivers, by the numbers of their seats.
const LINES_OF: [&'static str; 8] = [
    "*8D4840D6202CC371C32CE0576098;",
    "*8D485020994409940838175B284F;",
    "*8D40621D58C382D690C8AC2863A7;",
    "*8D40621D58C386435CC412692AD6;",
    "*8DA05F219B06B6AF189400CBC33F;",
    "*8D40621D58C3800000000053368B;",
    "*8D4840D6280000000000003EFA54;",
    "*8D4840D620000000000000DD09C1;",
];

// Gives one line again and again.
#[derive(Drop)]
struct Repeated {
    line: &'static [u8],
    left: usize,
}

impl Read for Repeated {
    fn read(&mut self, buffer: &mut [u8]) -> io::Result<usize> {
        let lines = self.left.min(buffer.len() / WIDTH);
        for (place, byte) in buffer.iter_mut().enumerate().take(lines * WIDTH) {
            *byte = self.line.get(place % WIDTH).copied().unwrap_or(b'\n');
        }
        self.left -= lines;
        Ok(lines * WIDTH)
    }
}

// A source of the lines of a seat.
fn source(rt: &impl Abort, alloc: Global, line: &'static str) -> FromBuffer<Repeated> {
    let repeated = Repeated {
        line: line.as_bytes(),
        left: usize::from(LINES),
    };
    let buffered = BufReader::with_capacity(alloc, AT_HAND, repeated);
    FromBuffer::new(buffered.expect(rt, "memory"))
}

// An all-call reply of 4840D6, by its capability and the code of the interrogator.
fn reply(rt: &impl Abort, capability: u8, code: u8) -> Frame {
    let mut bytes = [0x58 | capability, 0x48, 0x40, 0xD6, 0, 0, 0];
    let unsent = Frame::from_bytes(&bytes).expect(rt, "a short frame");
    let [_, first, second, third] = remainder(&unsent).to_be_bytes();
    bytes[4] = first;
    bytes[5] = second;
    bytes[6] = third ^ code;
    Frame::from_bytes(&bytes).expect(rt, "a short frame")
}

// Feeds as many frames as are compared for repeats, so that those after them are accepted again and again.
fn feed_replies<L: StationName, R: Wait + Abort>(
    rt: &R,
    station: &Station<8, L>,
    seat: &mut Seat<8, L>,
) {
    for capability in 0..8 {
        for code in 0..32 {
            let is_accepted = station.feed(rt, seat, reply(rt, capability, code)).is_ok();
            same_at(rt, is_accepted, true, code);
        }
    }
}

// Runs a receiver for each of the seats, and gives the seats back.
fn run_all<L: StationName + Send + Sync, R: Threads + Wait + Abort + Sync>(
    rt: &R,
    alloc: Global,
    station: &Station<8, L>,
    seats: Vec<Seat<8, L>>,
) -> Vec<Seat<8, L>> {
    let mut workers: Vec<Worker<8, FromBuffer<Repeated>, L>> = Vec::new(alloc);
    for (seat, line) in seats.into_iter().zip(LINES_OF) {
        push(rt, &mut workers, worker(seat, source(rt, alloc, line)));
    }
    run_receivers(rt, station, workers.as_mut_slice(), 999);
    let mut seats = Vec::new(alloc);
    for worker in workers {
        same(rt, worker.answer, Some(Ok(tally(0, LINES, 0))));
        push(rt, &mut seats, worker.seat);
    }
    seats
}

// Whether an entry is the frame of its seat's line.
fn is_of_its_seat(frames: &[Frame], entry: &Entry) -> bool {
    match entry {
        Entry::Heard { seat, frame } => frames.get(usize::from(*seat)) == Some(frame),
        Entry::Tick { .. } => false,
    }
}

// The entries after the replies are those of the receivers, each as its seat read it.
fn has_all<R: Abort>(rt: &R, alloc: Global, journal: &Journal) {
    let mut frames = Vec::new(alloc);
    for line in LINES_OF {
        push(rt, &mut frames, read_frame(rt, line));
    }
    let entries = journal.entries();
    same(rt, entries.len(), 80_256);
    for place in usize::from(COMPARED)..entries.len() {
        same_at(
            rt,
            is_of_its_seat(frames.as_slice(), entries.at(place)),
            true,
            place,
        );
    }
}

fn fill_pages<L: StationName + Send + Sync, R: Threads + Wait + Abort + Sync>(rt: &R, site: Site<8>)
    requires ledger { (L.name ≡ site.blank.name) × (L.parts ≡ site.seats) × (L.seats ≡ site.seats) }
    requires start { L.start ≡ record { history = site.places.history; limits = site.limits; resumed = 0 } }
{
    let alloc = site.alloc;
    let (station, mut seats) = site.open::<L, R>(rt).expect(rt, "a station");
    let mut last = seats.pop().expect(rt, "the last seat");
    feed_replies(rt, &station, &mut last);
    let mut seats = run_all(rt, alloc, &station, seats);
    push(rt, &mut seats, last);
    match station.close(rt, seats) {
        Ok(closed) => {
            let counts = [
                10_000, 10_000, 10_000, 10_000, 10_000, 10_000, 10_000, 10_000, 256,
            ];
            same(rt, closed.accepted.as_slice(), counts.as_slice());
            has_all(rt, alloc, &closed.journal);
        }
        Err(_) => panic!(rt; "not closed with all seats"),
    }
}

#[test]
fn eight_receivers_fill_several_pages(rt: HostRuntime) {
    fill_pages::<Brand, _>(&rt, Site::new(&rt, rt.alloc(), 90_000, 9, 1));
}
