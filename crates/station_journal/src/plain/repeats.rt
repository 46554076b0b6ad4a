//! Whether a frame repeats one that was heard since the newest tick.

ghost use Rattle.std.specs.Prelude.{◌≡◌, reverse};
ghost use Rattle.station_journal.specs.Repeats.{is_repeated};
ghost use Rattle.station_journal.specs.Looked.{looked_next};

use crate::Entry;
use modes_frame::Frame;
use paged_list::Front;

// How many frames since a tick are compared.
const MOST_LOOKED_AT: u32 = 256;

/// How many frames since the newest tick were compared, and whether one was the same.
#[derive(Clone, Copy)]
pub struct Looked {
    pub count: u32,
    pub same: bool,
}

fn looked_next(frame: &Frame, looked: Looked, entry: &Entry) -> Looked
    ensures { result ≡ looked_next frame.now looked entry.now }
{
    match entry {
        Entry::Tick { seat: _, at: _ } => Looked {
            count: 0,
            same: false,
        },
        Entry::Heard {
            seat: _,
            frame: other,
        } if looked.count < MOST_LOOKED_AT => Looked {
            count: looked.count + 1,
            same: looked.same || frame.bytes() == other.bytes(),
        },
        Entry::Heard { seat: _, frame: _ } => looked,
    }
}

/// Whether the frame equals one of the first 256 since the newest tick, of any seat.
pub fn is_repeated(entries: &Front<'_, Entry>, frame: &Frame) -> bool
    ensures { result ≡ is_repeated (reverse entries.now) frame.now }
{
    let mut looked = Looked {
        count: 0,
        same: false,
    };
    for place in 0..entries.len() {
        looked = looked_next(frame, looked, entries.at(place));
    }
    looked.same
}
