//! A feed to a lent desk, as one seat.
ghost use Rattle.std.specs.Prelude.{◌≡◌, ◌≤◌};
ghost use Rattle.station_book.specs.JournalBook.{most_aircraft};

use crate::desk::Desk;
use modes_frame::Frame;
use station_journal::Refusal;
use station_lines::Feed;
use std::sync::Wait;

/// A lent desk of at most 4,096 aircraft, and the seat that feeds it.
#[derive(Drop)]
pub struct DeskFeed<'a, const N: usize> {
    pub desk: &'a mut Desk<N>,
    pub seat: u8,
    pub ghost small: { N ≤ most_aircraft },
}

impl<'a, const N: usize> Feed for DeskFeed<'a, N> {
    ghost use Rattle.std.specs.Prelude.{◌≡◌};
    ghost use Rattle.station_replay.specs.DeskFeed.{FeedSteps};

    ghost gives = { λ x frame answer y. FeedSteps x.desk.now.log x.seat frame answer y.desk.now.log
        × (y.seat ≡ x.seat)
        × (y.desk.ghost_name ≡ x.desk.ghost_name) };

    fn feed<R: Wait>(&mut self, rt: &R, frame: Frame) -> Result<(), Refusal> {
        match self.desk.feed(rt, self.seat, frame) {
            Ok(_) => Ok(()),
            Err(refusal) => Err(refusal),
        }
    }
}
