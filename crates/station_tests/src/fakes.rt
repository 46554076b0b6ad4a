//! Sites of stations, places, pushes and waits for tests.
ghost use Rattle.std.specs.Prelude.{◌≡◌, ◌<◌, ◌≤◌};
ghost use Rattle.station_history.specs.History.{base_of};
ghost use Rattle.station_book.specs.JournalBook.{most_aircraft};
ghost use Rattle.station_journal.specs.Log.{most_entries};

use crate::comparing::holds;
use station_desk::Places;
use station_journal::{Limits, NoMemory};
use station_shared::{LimitsMet, Seat, Station, StationName};
use std::alloc::Global;
use std::process::Abort;
use std::sync::Wait;
use std::sync::atomic::AtomicU64;
use std::sync::atomic::Ordering::SeqCst;
use std::sync::ledger::Blank;
use std::thread::yield_now;

/// What a new station for `N` aircraft is made of.
pub struct Site<const N: usize> {
    pub alloc: Global,
    limits: Limits,
    seats: u8,
    blank: Blank,
    places: Places<N>,
    ghost seated: { (seats ≤ 9) × (blank.parts ≡ seats) × (places.places ≤ seats) },
    ghost limited: { (limits.aircraft ≡ N) × (limits.entries ≤ most_entries) × (N ≤ most_aircraft) },
    ghost base: { base_of places.history ≡ 0 },
}

impl<const N: usize> Site<N> {
    /// A site for at most `entries` entries and this many seats, of which the last `places` can look.
    pub fn new<R: Wait + Abort>(rt: &R, alloc: Global, entries: u32, seats: u8, places: u8) -> Self
        requires seats { (0 < places) × (places ≤ seats) × (seats ≤ 9) }
        requires entries { entries ≤ most_entries }
        requires small { N ≤ most_aircraft }
    {
        Site {
            alloc,
            limits: Limits {
                entries,
                aircraft: N as u32,
                site: None,
            },
            seats,
            blank: Blank::new(u64::from(seats)),
            places: new_places(rt, alloc, places),
        }
    }

    /// The station that `L` names, and its seats. Out of memory the site is gone.
    pub fn open<L: StationName, R: Wait>(
        self,
        rt: &R,
    ) -> Result<(Station<N, L>, Vec<Seat<N, L>>), NoMemory>
        requires ledger { (L.name ≡ self.blank.name) × (L.parts ≡ self.seats) × (L.seats ≡ self.seats) }
        requires start { L.start ≡ record { history = self.places.history; limits = self.limits; resumed = 0 } }
    {
        let Site {
            alloc,
            limits,
            seats,
            blank,
            places,
        } = self;
        Station::new(rt, alloc, limits, seats, blank, places)
    }
}

/// Places for this many seats, with the clock at 0. Out of memory they are made once more.
pub fn new_places<const N: usize, R: Wait + Abort>(rt: &R, alloc: Global, seats: u8) -> Places<N>
    requires seats { 0 < seats }
    requires small { N ≤ most_aircraft }
    ensures places { result.places ≡ seats }
    ensures base { base_of result.history ≡ 0 }
{
    places_at(rt, alloc, 0, seats)
}

/// Places as [`new_places`] makes them, with the clock at `base` milliseconds.
pub fn places_at<const N: usize, R: Wait + Abort>(
    rt: &R,
    alloc: Global,
    base: u64,
    seats: u8,
) -> Places<N>
    requires seats { 0 < seats }
    requires small { N ≤ most_aircraft }
    ensures places { result.places ≡ seats }
    ensures base { base_of result.history ≡ base }
{
    match Places::new(rt, alloc, base, seats) {
        Ok(places) => places,
        Err(_) => Places::new(rt, alloc, base, seats).expect(rt, "the second call has memory"),
    }
}

/// Whether the journal's limit and the table's have been met.
pub fn limits_met(journal: bool, table: bool) -> LimitsMet {
    LimitsMet { journal, table }
}

/// Pushes an item, for which there is memory.
pub fn push<T: Drop>(rt: &impl Abort, items: &mut Vec<T>, item: T) {
    let pushed = items.push(item).is_ok();
    holds(rt, pushed);
}

/// Waits until another thread sets the word, and says whether it did. It looks at most 10,000,000 times.
pub fn becomes_set(word: &AtomicU64) -> bool {
    for _ in 0..10_000_000 {
        if word.load(SeqCst) != 0 {
            return true;
        }
        yield_now();
    }
    false
}
