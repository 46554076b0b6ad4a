//! Calls as a book takes them: entries without their seats, with the claim of each frame.

ghost use Rattle.std.specs.Prelude.{◌≡◌};
ghost use Rattle.station_book.specs.Call.{call_of, entry_of, change_of};

use modes_frame::CheckedFrame;
use station_journal::Entry;

/// An entry without its seat.
#[derive(Clone, Copy, Debug)]
pub enum Call {
    /// A tick at this time, in milliseconds.
    Tick(u64),
    /// A frame, with its claim.
    Heard(CheckedFrame),
}

/// What an accepted call changed in a book, beside its count.
#[derive(Clone, Copy, Debug, PartialEq, Eq)]
pub enum Change {
    /// The clock, and which aircraft are live.
    Clock,
    /// The track of this address.
    Track(u32),
}

impl Call {
    /// The entry without its seat.
    pub fn of(entry: &Entry) -> Call
        ensures { result ≡ call_of entry.now }
    {
        match entry {
            Entry::Tick { seat: _, at } => Call::Tick(*at),
            Entry::Heard { seat: _, frame } => Call::Heard(CheckedFrame::of(*frame)),
        }
    }

    /// The entry of this call by the seat.
    #[inline(always)]
    pub fn entry(&self, seat: u8) -> Entry
        ensures { result ≡ entry_of seat self.now }
    {
        match self {
            Call::Tick(at) => Entry::Tick { seat, at: *at },
            Call::Heard(heard) => Entry::Heard {
                seat,
                frame: *heard.frame(),
            },
        }
    }

    /// What the call changes in a book that takes it. A frame without a claim changes nothing.
    pub fn change(&self) -> Option<Change>
        ensures { result ≡ change_of self.now }
    {
        match self {
            Call::Tick(_) => Some(Change::Clock),
            Call::Heard(heard) => match heard.claim() {
                Ok(claim) => Some(Change::Track(claim.address)),
                Err(_) => None,
            },
        }
    }
}
