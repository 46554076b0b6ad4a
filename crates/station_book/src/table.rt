//! The tracks of the live aircraft, by rising address.

ghost use Rattle.std.specs.Prelude.{◌≡◌, min, IsTrue, Err, Ok, ◌<◌, ◌≤◌, ◌==◌, List, [], length, map, slice_get, None, Some};
ghost use Rattle.station_journal.specs.Rising.{IsRising};
ghost use Rattle.modes_fields.specs.Carried.{fields_of};
ghost use Rattle.station_journal.specs.Track.{blank, updated_track};
ghost use Rattle.station_book.specs.Tracks.{find_track, put_track, with_track, tracks_left, track_or_blank};
ghost use Rattle.station_book.specs.Tracks.{address_of, IsRank, StandsAt, HeardFrom};

use crate::copying::copy_list;
use arrayvec::ArrayVec;
use modes_cpr::Reference;
use modes_frame::Frame;
use station_journal::LIFE_MS;
use station_journal::tracks::{Track, blank, update};
use std::marker::Model;

// The number of hints: one for each value of an address's low bits.
const HINTS: usize = 4096;

/// At most `N` tracks by rising address.
#[derive(Drop)]
pub struct Table<const N: usize> {
    // The addresses of the tracks, apart from them, so that a search reads little memory.
    addresses: ArrayVec<u32, N>,
    tracks: ArrayVec<Track, N>,
    // No track was heard before this time. By it most ticks find nothing to sweep.
    oldest: u64,
    // The place that an address with these low bits had when it was last heard. A search is made only where it has
    // moved since.
    hints: [u16; HINTS],
}

impl<const N: usize> Model for Table<N> {
    ghost use Rattle.std.specs.Prelude.{◌≡◌, List, map};
    ghost use Rattle.station_journal.specs.declared.tracks.Track.{Track};
    ghost use Rattle.station_book.specs.Tracks.{Rising, HeardFrom, address_of};

    ghost Value = { List Track };

    ghost view = { λ t. t.tracks.items };

    ghost invariant = { λ t. record {
      rising : Rising t.tracks.items;
      addresses : t.addresses.items ≡ map address_of t.tracks.items;
      oldest : HeardFrom t.oldest t.tracks.items;
    } };
}

impl<const N: usize> Table<N> {
    /// A table without tracks.
    pub fn new() -> Self
        ensures { result ≡ [] }
    {
        Table {
            addresses: ArrayVec::new(),
            tracks: ArrayVec::new(),
            oldest: u64::MAX,
            hints: [0; HINTS],
        }
    }

    /// The number of tracks.
    pub fn len(&self) -> usize
        ensures { result ≡ length self.now }
    {
        self.tracks.len()
    }

    /// Whether there are `N` tracks.
    pub fn is_full(&self) -> bool
        ensures value { result ≡ (length self.now == N) }
        ensures fits { length self.now ≤ N }
    {
        self.tracks.is_full()
    }

    /// The track at the place.
    pub fn track(&self, place: usize) -> &Track
        requires { place < length self.now }
        ensures { slice_get self.now place ≡ Some result.now }
    {
        &self.tracks[place]
    }

    /// The place of the address's track, or as `Err` the place where it would be.
    pub fn locate(&self, address: u32) -> Result<usize, usize>
        ensures { StandsAt self.now address result }
    {
        let hint = usize::from(self.hints[address as usize % HINTS]);
        if self.is_at(hint, address) {
            Ok(hint)
        } else {
            self.search(address)
        }
    }

    // Whether the track of the address is at the place.
    fn is_at(&self, place: usize, address: u32) -> bool
        ensures { IsTrue result → StandsAt self.now address (Ok place) }
    {
        if place < self.addresses.len() {
            let there = self.addresses[place];
            if there == address {
                return true;
            }
        }
        false
    }

    // As `locate`, by binary search.
    fn search(&self, address: u32) -> Result<usize, usize>
        ensures { StandsAt self.now address result }
    {
        let rank = rank_of(self.addresses.as_slice(), address);
        if rank < self.addresses.len() {
            let there = self.addresses[rank];
            if there == address {
                return Ok(rank);
            }
        }
        Err(rank)
    }

    /// Updates the track of the address, which has this place, by a frame heard at the time `now`. Where there is none,
    /// inserts one.
    pub fn hear(
        &mut self,
        place: Result<usize, usize>,
        site: Option<Reference>,
        now: u64,
        address: u32,
        frame: &Frame,
    )
        requires place { StandsAt self.old address place }
        requires room { find_track address self.old ≡ None → length self.old < N }
        ensures { self.new ≡ put_track (updated_track site now (fields_of frame.now) (track_or_blank address self.old)) self.old }
    {
        match place {
            Ok(rank) => {
                lower(&mut self.oldest, now);
                note_place(&mut self.hints, address, rank);
                update(&mut self.tracks[rank], site, now, frame);
            }
            Err(rank) => self.hear_first(rank, site, now, address, frame),
        }
    }

    // Inserts a track of the address, which has none and would have this place, with what a frame carries.
    #[inline(never)]
    fn hear_first(
        &mut self,
        rank: usize,
        site: Option<Reference>,
        now: u64,
        address: u32,
        frame: &Frame,
    )
        requires place { StandsAt self.old address (Err rank) }
        requires room { length self.old < N }
        ensures { self.new ≡ put_track (updated_track site now (fields_of frame.now) (blank address)) self.old }
    {
        let mut track = blank(address);
        update(&mut track, site, now, frame);
        self.insert(rank, &track);
    }

    // Inserts a track, whose address has none yet and would have this place.
    #[inline(never)]
    fn insert(&mut self, rank: usize, track: &Track)
        requires place { StandsAt self.old track.now.address (Err rank) }
        requires room { length self.old < N }
        ensures { self.new ≡ put_track track.now self.old }
    {
        lower(&mut self.oldest, track.heard());
        self.addresses.insert(rank, track.address());
        self.tracks.insert(rank, *track);
    }

    /// Copies the track of the address from another table, if it has one and there is a place for it here.
    pub fn copy_track(&mut self, others: &Table<N>, address: u32)
        ensures { self.new ≡ with_track N (find_track address others.now) self.old }
    {
        if let Ok(rank) = others.locate(address) {
            self.put(others.track(rank));
        }
    }

    /// Becomes a copy of another table.
    pub fn copy_from(&mut self, other: &Table<N>)
        ensures { self.new ≡ other.now }
    {
        copy_list(&mut self.addresses, &other.addresses);
        copy_list(&mut self.tracks, &other.tracks);
        self.oldest = other.oldest;
        self.hints = other.hints;
    }

    // Puts the track in its place, if there is one for it.
    fn put(&mut self, track: &Track)
        ensures { self.new ≡ with_track N (Some track.now) self.old }
    {
        let place = self.locate(track.address());
        if place.is_err() && self.is_full() {
            return;
        }
        match place {
            Ok(rank) => {
                lower(&mut self.oldest, track.heard());
                let kept = &mut self.tracks[rank];
                kept.copy_from(track);
            }
            Err(rank) => self.insert(rank, track),
        }
    }

    /// Drops the tracks heard more than 60,000 ms before `now`.
    pub fn sweep(&mut self, now: u64)
        ensures { self.new ≡ tracks_left now self.old }
    {
        if now.saturating_sub(self.oldest) > LIFE_MS {
            retain_recent(&mut self.tracks, now);
            set_addresses(&mut self.addresses, self.tracks.as_slice());
            self.oldest = oldest_of(self.tracks.as_slice());
        }
    }
}

// Lowers the time to an earlier one. Most times are later, and then nothing is written.
fn lower(time: &mut u64, other: u64)
    ensures { time.new ≡ min time.old other }
{
    if other < *time {
        *time = other;
    }
}

// Notes the place of an address. What stays the same isn't written, so other processors keep it near.
fn note_place(hints: &mut [u16; HINTS], address: u32, rank: usize) {
    let place = (rank % 0x1_0000) as u16;
    let hint = &mut hints[address as usize % HINTS];
    if *hint != place {
        *hint = place;
    }
}

// The number of the rising addresses below this one.
fn rank_of(addresses: &[u32], address: u32) -> usize
    requires { IsRising addresses.now }
    ensures { IsRank addresses.now address result }
{
    addresses.partition_point(|other| *other < address)
}

// Drops the tracks heard more than 60,000 ms before `now`.
fn retain_recent<const N: usize>(tracks: &mut ArrayVec<Track, N>, now: u64)
    ensures { tracks.new.items ≡ tracks_left now tracks.old.items }
{
    tracks.retain(|track| now.saturating_sub(track.heard()) <= LIFE_MS);
}

// Sets the addresses to those of the tracks.
fn set_addresses<const N: usize>(addresses: &mut ArrayVec<u32, N>, tracks: &[Track])
    requires { length tracks.now ≤ N }
    ensures { addresses.new.items ≡ map address_of tracks.now }
{
    addresses.clear();
    for track in tracks {
        addresses.push(track.address());
    }
}

// A time before which none of the tracks was heard.
fn oldest_of(tracks: &[Track]) -> u64
    ensures { HeardFrom result tracks.now }
{
    let mut oldest = u64::MAX;
    for track in tracks {
        oldest = oldest.min(track.heard());
    }
    oldest
}
