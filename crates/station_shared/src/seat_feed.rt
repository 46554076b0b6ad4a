//! A station that takes frames through one seat.
ghost use Rattle.std.specs.Prelude.{◌≡◌};
ghost use Rattle.station_shared.specs.Workers.{Works};

use crate::seat::Seat;
use crate::station::Station;
use crate::station_name::StationName;
use crossbeam_utils::rule::Protocol;
use modes_frame::Frame;
use station_desk::{Mark, PublishRule, PublishedTable};
use station_journal::Refusal;
use station_lines::{Feed, PumpFault, Tally, pump};
use std::sync::Wait;
use streams::Source;

/// A station, and the borrowed seat that feeds it.
#[derive(Drop)]
pub struct SeatFeed<'a, const N: usize, L: StationName>
where
    PublishRule: Protocol<PublishedTable<N>, Option<Mark>>,
{
    pub station: &'a Station<N, L>,
    pub seat: &'a mut Seat<N, L>,
}

impl<'a, const N: usize, L: StationName> Feed for SeatFeed<'a, N, L> {
    ghost use Rattle.std.specs.Prelude.{◌≡◌};
    ghost use Rattle.station_shared.specs.Workers.{SeatSteps};

    ghost gives = { λ x frame answer y. SeatSteps L.start x.seat.now frame answer y.seat.now
        × (y.seat.ghost_name ≡ x.seat.ghost_name) };

    fn feed<R: Wait>(&mut self, rt: &R, frame: Frame) -> Result<(), Refusal> {
        match self.station.feed(rt, self.seat, frame) {
            Ok(_) => Ok(()),
            Err(refusal) => Err(refusal),
        }
    }
}

// The pump over the seat that this feed borrows.
fn pump_lent<const N: usize, L: StationName, S: Source, R: Wait>(
    rt: &R,
    feed: &mut SeatFeed<'_, N, L>,
    from: &mut S,
    turns: u32,
) -> Result<Tally, PumpFault>
    ensures same_seat { feed.new.seat.ghost_name ≡ feed.old.seat.ghost_name }
    ensures works { Works L.start feed.old.seat.now feed.new.seat.now (S.state from.old)
        (S.state from.new) turns result }
{
    pump(rt, feed, from, turns)
}

/// Feeds the frames of a source's lines to a station through a seat: [`pump`] over a [`SeatFeed`].
pub fn pump_seat<const N: usize, L: StationName, S: Source, R: Wait>(
    rt: &R,
    station: &Station<N, L>,
    seat: &mut Seat<N, L>,
    from: &mut S,
    turns: u32,
) -> Result<Tally, PumpFault>
    ensures { Works L.start seat.old seat.new (S.state from.old) (S.state from.new) turns result }
{
    let mut feed = SeatFeed { station, seat };
    pump_lent(rt, &mut feed, from, turns)
}
