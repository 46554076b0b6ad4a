//! The end of a station.
ghost use Rattle.std.specs.Prelude.{◌≡◌, ◌≤◌, ◌↔◌, IsTrue, eqb, count_by, IfOk, IfErr};
ghost use Rattle.station_shared.specs.Closing.{EachOnce, Closes, accepted_at, accepted_by};
ghost use Rattle.station_history.specs.Start.{log_of};

use crate::counted_desk::CountedDesk;
use crate::seat::Seat;
use crate::shown_desk::ShownDesk;
use crate::station::Station;
use crate::station_name::StationName;
use arrayvec::ArrayVec;
use crossbeam_utils::rule::Protocol;
use station_desk::{Mark, PublishRule, PublishedTable};
use station_journal::Journal;
use std::sync::Wait;

/// What a closed station leaves.
#[derive(Drop)]
pub struct Closed {
    /// The entries that the station was resumed from, and then one for each accepted call.
    pub journal: Journal,
    /// How many calls of each seat were accepted, by the number of the seat.
    pub accepted: ArrayVec<u64, 9>,
}

/// A refused close: the seats that were given aren't all the seats of the station, each once.
pub struct Missing<const N: usize, L: StationName>
where
    PublishRule: Protocol<PublishedTable<N>, Option<Mark>>,
{
    /// The station, as it was.
    pub station: Station<N, L>,
    /// The seats that were given, as they were.
    pub seats: Vec<Seat<N, L>>,
}

impl<const N: usize, L: StationName> Station<N, L> {
    /// Drops a station that isn't closed, with its journal.
    pub fn end<R: Wait>(self, rt: &R) {
        let Station {
            alloc: _,
            locked,
            releases: _,
            seats: _count,
            flags: _,
        } = self;
        let ShownDesk { counted } = locked.into_inner();
        let CountedDesk {
            desk,
            total: _,
            rest: _,
        } = counted;
        desk.end(rt);
    }

    /// Closes the station, to which all its seats are given back, in any order. Returns the journal, and how many calls
    /// of each seat were accepted.
    ///
    /// Refused where a seat is missing, or one of another number is among them. The station and the seats come back as
    /// they were then.
    pub fn close<R: Wait>(self, rt: &R, seats: Vec<Seat<N, L>>) -> Result<Closed, Missing<N, L>>
        ensures seats { IfOk result (λ c. EachOnce L.seats seats.items) }
        ensures journal { IfOk result (λ c. (c.journal.log ≡ log_of L.start c.journal.log.entries)
            × Closes L.start L.seats c.journal.log.entries seats.items) }
        ensures accepted { IfOk result (λ c. c.accepted.items ≡ accepted_by L.seats seats.items) }
        ensures missing { IfErr result (λ missing. ¬ EachOnce L.seats seats.items
            × (missing.station ≡ self)
            × (missing.seats.items ≡ seats.items)) }
    {
        if !each_once(seats.as_slice(), self.seats) {
            return Err(Missing {
                station: self,
                seats,
            });
        }
        let accepted = by_number(seats.as_slice(), self.seats);
        let Station {
            alloc: _,
            locked,
            releases: _,
            seats: _count,
            flags: _,
        } = self;
        let ShownDesk { counted } = locked.into_inner();
        Ok(Closed {
            journal: counted.close(rt, seats),
            accepted,
        })
    }
}

impl<const N: usize, L: StationName> CountedDesk<N, L> {
    // Takes the seats back, and returns the journal.
    fn close<R: Wait>(self, rt: &R, mut seats: Vec<Seat<N, L>>) -> Journal
        requires { EachOnce L.seats seats.items }
        ensures log { result.log ≡ log_of L.start result.log.entries }
        ensures closes { Closes L.start L.seats result.log.entries seats.items }
    {
        let CountedDesk {
            mut desk,
            mut total,
            mut rest,
        } = self;
        // What the desk promises of its journal, for the proof.
        let _known = desk.front();
        while let Some(seat) = seats.pop() {
            let account = seat.into_account();
            let (share, front) = account.into_parts();
            desk.covers(&front);
            rest.merge(share);
        }
        total.audit(&mut rest);
        desk.end(rt)
    }
}

// The accepted calls of the seat with this number.
fn accepted_of<const N: usize, L: StationName>(seats: &[Seat<N, L>], number: u8) -> u64
    ensures { result ≡ accepted_at number seats.now }
{
    let mut found = 0;
    for seat in seats {
        if number == seat.number() {
            found = seat.accepted();
        }
    }
    found
}

// The accepted calls of the seats with the numbers below `count`.
fn by_number<const N: usize, L: StationName>(seats: &[Seat<N, L>], count: u8) -> ArrayVec<u64, 9>
    requires { count ≤ 9 }
    ensures { result.items ≡ accepted_by count seats.now }
{
    let mut accepted = ArrayVec::new();
    for number in 0..count {
        accepted.push(accepted_of(seats, number));
    }
    accepted
}

// How many seats have this number.
fn times<const N: usize, L: StationName>(seats: &[Seat<N, L>], number: u8) -> usize
    ensures { result ≡ count_by (λ s. eqb number s.number) seats.now }
{
    let mut found = 0;
    for seat in seats {
        if number == seat.number() {
            found += 1;
        }
    }
    found
}

// Whether the numbers of the seats are those below `count`, each once.
fn each_once<const N: usize, L: StationName>(seats: &[Seat<N, L>], count: u8) -> bool
    ensures { IsTrue result ↔ EachOnce count seats.now }
{
    if seats.len() != usize::from(count) {
        return false;
    }
    for seat in seats {
        if seat.number() >= count {
            return false;
        }
    }
    for number in 0..count {
        if times(seats, number) != 1 {
            return false;
        }
    }
    true
}
