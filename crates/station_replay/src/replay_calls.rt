//! The calls that the lines of a replay make.
ghost use Rattle.std.specs.Prelude.{◌≡◌, ◌+◌, ◌^◌, ◌<◌, Some};
ghost use Rattle.station_journal.specs.declared.entry.Entry.TheVariants.{Tick, Heard};
ghost use Rattle.station_replay.specs.FullLimits.{limits_at};
ghost use Rattle.station_replay.specs.Replay.{TakesCall, replay_stop};

use crate::desk::Desk;
use crate::limit_observer::{LimitObserver, report_limit};
use crate::replaying::Stop;
use modes_frame::CheckedFrame;
use station_book::Call;
use station_journal::Refusal;
use station_lines::Tally;
use std::sync::Wait;

// Feeds a frame as seat 0, and counts its line.
#[inline(always)]
pub(crate) fn feed_frame<const N: usize, O: LimitObserver>(
    desk: &mut Desk<N>,
    observer: &mut O,
    tally: &mut Tally,
    heard: &CheckedFrame,
) -> Result<(), Stop>
    requires room { tally.old.lines + 1 < 2 ^ 64 }
    ensures takes { TakesCall desk.old.log desk.new.log (Heard 0 heard.now) 1 0 tally.old tally.new result }
    ensures met { O.met observer.old (limits_at desk.old.log (Some (Heard 0 heard.now))) observer.new }
{
    match desk.take(0, &Call::Heard(*heard)) {
        Ok(_) => {
            tally.frame(true);
            Ok(())
        }
        Err(refusal) => {
            tally.frame(false);
            report_limit(observer, refusal);
            stop_after(refusal)
        }
    }
}

// Ticks as seat 0, and counts the line.
pub(crate) fn take_tick<const N: usize, O: LimitObserver, R: Wait>(
    rt: &R,
    desk: &mut Desk<N>,
    observer: &mut O,
    tally: &mut Tally,
    at: u64,
) -> Result<(), Stop>
    requires room { tally.old.lines + 1 < 2 ^ 64 }
    ensures takes { TakesCall desk.old.log desk.new.log (Tick 0 at) 0 1 tally.old tally.new result }
    ensures met { O.met observer.old (limits_at desk.old.log (Some (Tick 0 at))) observer.new }
{
    match desk.tick(rt, 0, at) {
        Ok(_) => {
            tally.tick(true);
            Ok(())
        }
        Err(refusal) => {
            tally.tick(false);
            report_limit(observer, refusal);
            stop_after(refusal)
        }
    }
}

// Out of memory stops a replay, and no other refusal does.
fn stop_after(refusal: Refusal) -> Result<(), Stop>
    ensures { result ≡ replay_stop refusal }
{
    match refusal {
        Refusal::NoMemory => Err(Stop::NoMemory),
        _ => Ok(()),
    }
}
