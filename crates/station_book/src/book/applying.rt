//! How a running book takes entries.

ghost use Rattle.std.specs.Prelude.{◌≡◌, ◌⊎◌, ◌&&◌, not, ℕ, ◌<◌, ◌≤◌, true, List, [], ◌∷◌, ◌++◌};
ghost use Rattle.std.specs.Prelude.{length, take, OnOk, IfErr, Ok};
ghost use Rattle.station_book.specs.declared.call.Call.TheVariants as call;
ghost use Rattle.modes_frame.specs.Claims.{claim_of, is_unassigned};
ghost use Rattle.station_journal.specs.declared.entry.Entry.{Entry};
ghost use Rattle.station_journal.specs.Follow.{IsFirstUnsound};
ghost use Rattle.station_journal.specs.Log.{most_entries};
ghost use Rattle.station_book.specs.Call.{call_of};
ghost use Rattle.station_book.specs.State.{starting, fits, applied_book, book_offered, caught_up};
ghost use Rattle.station_book.specs.Tracks.{StandsAt, has_place, tracks_left};
ghost use Rattle.station_book.specs.Matching.{Matches, book_after};

use crate::Book;
use crate::call::{Call, Change};
use modes_frame::readers::claim;
use modes_frame::{CheckedFrame, Claim, Frame};
use station_journal::{Entry, MOST_ENTRIES};

impl<const N: usize> Book<N> {
    /// Applies an entry that fits.
    pub fn apply(&mut self, entry: &Entry)
        requires fits { fits N self.old (call_of entry.now) ≡ true }
        requires few { self.old.entries < most_entries }
        ensures value { self.new ≡ applied_book self.old (call_of entry.now) }
        ensures kept { (base : ℕ) (journal : List Entry) → Matches N base self.old journal →
            Matches N base self.new (journal ++ entry.now ∷ []) }
    {
        self.offer(entry);
    }

    /// Whether the entry may be applied. It is a later tick, or a frame of an assigned address that is live or finds a
    /// place.
    pub fn fits(&self, entry: &Entry) -> bool
        ensures { result ≡ fits N self.now (call_of entry.now) }
    {
        match entry {
            Entry::Tick { seat: _, at } => *at > self.clock,
            Entry::Heard { seat: _, frame } => match claim(frame) {
                Ok(claim) => self.may_take(self.table.locate(claim.address), claim.address),
                Err(_) => false,
            },
        }
    }

    // Whether the address, which has this place, is assigned, and is live or finds a place.
    fn may_take(&self, place: Result<usize, usize>, address: u32) -> bool
        requires { StandsAt self.now.tracks address place }
        ensures { result ≡ (not (is_unassigned address) && has_place N address self.now.tracks) }
    {
        address != 0 && address != 0xFF_FFFF && (place.is_ok() || !self.table.is_full())
    }

    /// Applies the entries in their order, as long as they fit. `Err` has the place of the first that doesn't. The book has
    /// then applied those before it.
    pub fn take_all(&mut self, base: u64, entries: &[Entry]) -> Result<(), u64>
        requires starts { self.old ≡ starting self.old.site base }
        requires few { length entries.now ≤ most_entries }
        ensures ok { OnOk result (self.new ≡ book_after self.old.site base entries.now) }
        ensures matches { OnOk result (Matches N base self.new entries.now) }
        ensures err { IfErr result (λ place. IsFirstUnsound N base entries.now place) }
        ensures kept { IfErr result (λ place. (self.new ≡ book_after self.old.site base (take place entries.now))
            × Matches N base self.new (take place entries.now)) }
    {
        for entry in entries {
            if !self.fits(entry) {
                return Err(self.count);
            }
            self.apply(entry);
        }
        Ok(())
    }

    /// Applies the entry, if it fits and the book has taken fewer than 16,777,216. Else nothing changes.
    pub fn offer(&mut self, entry: &Entry)
        ensures value { self.new ≡ book_offered N self.old (call_of entry.now) }
        ensures kept { (base : ℕ) (journal : List Entry) → Matches N base self.old journal →
            (self.new ≡ self.old) ⊎ Matches N base self.new (journal ++ entry.now ∷ []) }
    {
        self.offer_call(&Call::of(entry));
    }

    /// As `offer`, of a call.
    #[inline(always)]
    pub fn offer_call(&mut self, call: &Call)
        ensures { self.new ≡ book_offered N self.old call.now }
    {
        if self.count >= u64::from(MOST_ENTRIES) {
            return;
        }
        match call {
            Call::Tick(at) => self.offer_tick(*at),
            Call::Heard(heard) => self.offer_frame(heard),
        }
    }

    /// Copies what one entry changed from a book that is ahead by that entry.
    pub fn catch_up(&mut self, ahead: &Book<N>, change: Change)
        ensures { self.new ≡ caught_up N ahead.now change self.old }
    {
        self.clock = ahead.clock;
        self.count = ahead.count;
        match change {
            Change::Clock => self.sweep(ahead.clock),
            Change::Track(address) => {
                self.table.copy_track(&ahead.table, address);
                self.first_frames.catch_up(&ahead.first_frames);
            }
        }
    }

    /// Becomes a copy of another book.
    pub fn copy_from(&mut self, other: &Book<N>)
        ensures { self.new ≡ other.now }
    {
        self.site = other.site;
        self.clock = other.clock;
        self.count = other.count;
        self.table.copy_from(&other.table);
        self.first_frames.copy_from(&other.first_frames);
    }

    // Applies the tick, if it is later than the clock.
    fn offer_tick(&mut self, at: u64)
        requires few { self.old.entries < most_entries }
        ensures { self.new ≡ book_offered N self.old (call.Tick at) }
    {
        if at > self.clock {
            self.count += 1;
            self.clock = at;
            self.sweep(at);
        }
    }

    // Applies the frame, if it fits.
    #[inline(always)]
    fn offer_frame(&mut self, heard: &CheckedFrame)
        requires few { self.old.entries < most_entries }
        ensures { self.new ≡ book_offered N self.old (call.Heard heard.now) }
    {
        if let Ok(claim) = heard.claim() {
            let place = self.table.locate(claim.address);
            if self.may_take(place, claim.address) {
                self.apply_at(place, claim, heard.frame());
            }
        }
    }

    // Drops the aircraft that aren't live at a tick, and the frames heard before it.
    fn sweep(&mut self, at: u64)
        ensures { self.new ≡
            record self.old { tracks = tracks_left at self.old.tracks; first_frames = [] } }
    {
        self.table.sweep(at);
        self.first_frames.clear();
    }

    // Applies a frame with this claim, whose address has this place.
    fn apply_at(&mut self, place: Result<usize, usize>, claim: Claim, frame: &Frame)
        requires claim { claim_of frame.now ≡ Ok claim }
        requires place { StandsAt self.old.tracks claim.address place }
        requires fits { fits N self.old (call.Heard frame.now) ≡ true }
        requires few { self.old.entries < most_entries }
        ensures { self.new ≡ applied_book self.old (call.Heard frame.now) }
    {
        self.count += 1;
        self.table
            .hear(place, self.site, self.clock, claim.address, frame);
        self.first_frames.hear(frame);
    }
}
