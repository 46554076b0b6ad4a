//! The pump over a desk that is lent.
ghost use Rattle.std.specs.Prelude.{◌≡◌, ◌≤◌};
ghost use Rattle.station_replay.specs.DeskPump.{PumpsDesk};
ghost use Rattle.station_book.specs.JournalBook.{most_aircraft};

use crate::desk::Desk;
use crate::desk_feed::DeskFeed;
use station_lines::{PumpFault, Tally, pump};
use std::sync::Wait;
use streams::Source;

// Pumps a source's lines through the desk that the feed lends.
fn pump_lent<const N: usize, S: Source, R: Wait>(
    rt: &R,
    feed: &mut DeskFeed<'_, N>,
    from: &mut S,
    turns: u32,
) -> Result<Tally, PumpFault>
    ensures same_desk { feed.new.desk.ghost_name ≡ feed.old.desk.ghost_name }
    ensures pumps { PumpsDesk feed.old.seat feed.old.desk.now.log feed.new.desk.now.log (S.state from.old)
        (S.state from.new) turns result }
{
    pump(rt, feed, from, turns)
}

/// Feeds the frames of a source's lines to a desk of at most 4,096 aircraft, as one seat.
///
/// It is [`pump`] over a [`DeskFeed`], with at most `turns` reads.
pub fn pump_desk<const N: usize, S: Source, R: Wait>(
    rt: &R,
    desk: &mut Desk<N>,
    seat: u8,
    from: &mut S,
    turns: u32,
) -> Result<Tally, PumpFault>
    requires small { N ≤ most_aircraft }
    ensures { PumpsDesk seat desk.old.log desk.new.log (S.state from.old) (S.state from.new) turns result }
{
    let mut feed = DeskFeed { desk, seat };
    pump_lent(rt, &mut feed, from, turns)
}
