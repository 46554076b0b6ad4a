//! Lines that are parsed, taken one after another while the lock of a station is kept.
ghost use Rattle.std.specs.Prelude.{◌≡◌, ℕ, ◌+◌, ◌^◌, ◌<◌, ◌≤◌, List, [], ◌∷◌, Ok, length};
ghost use Rattle.modes_frame.specs.declared.cutter.Cut.{Cut};
ghost use Rattle.station_shared.specs.KeptLines.{TakesFirst, parsed_all};
ghost use Rattle.station_lines.specs.Calls.{pump_command};
ghost use Rattle.station_lines.specs.ParsedLines.{parsed_of};
ghost use Rattle.station_lines.specs.Pump.{Pumps, PumpsFrame};
ghost use Rattle.station_shared.specs.Workers.{SeatSteps};
ghost use mathlib.Core.List.{IsPrefix};

use crate::counted_desk::CountedDesk;
use crate::seat::Seat;
use crate::shown_desk::ShownDesk;
use crate::station::Station;
use crate::station_name::StationName;
use modes_frame::CheckedFrame;
use station_book::Call;
use station_counts::{LimitFlags, Reasons};
use station_journal::{Entry, NoMemory, Refusal};
use station_lines::pumping::stop_after;
use station_lines::{ParsedLine, Tally};
use std::sync::Wait;

// Feeds a frame, and notes the limit that it meets, and why it is refused.
fn feed<const N: usize, L: StationName, R: Wait>(
    rt: &R,
    flags: &LimitFlags,
    reasons: &mut Reasons,
    desk: &mut CountedDesk<N, L>,
    seat: &mut Seat<N, L>,
    heard: &CheckedFrame,
) -> Result<(), Refusal>
    requires met { IsPrefix seat.old.seen desk.old.log.entries }
    ensures met { IsPrefix seat.new.seen desk.new.log.entries }
    ensures steps { SeatSteps L.start seat.old heard.now result seat.new }
{
    match desk.take(rt, seat, &Call::Heard(*heard)) {
        Ok(_) => Ok(()),
        Err(refusal) => {
            flags.note(refusal);
            reasons.note(refusal);
            Err(refusal)
        }
    }
}

// Feeds a frame, and counts its line.
fn take_frame<const N: usize, L: StationName, R: Wait>(
    rt: &R,
    flags: &LimitFlags,
    reasons: &mut Reasons,
    desk: &mut CountedDesk<N, L>,
    seat: &mut Seat<N, L>,
    tally: &mut Tally,
    heard: &CheckedFrame,
) -> Result<(), NoMemory>
    requires room { tally.old.lines + 1 < 2 ^ 64 }
    requires met { IsPrefix seat.old.seen desk.old.log.entries }
    ensures met { IsPrefix seat.new.seen desk.new.log.entries }
    ensures pumps { PumpsFrame (SeatSteps L.start) seat.old seat.new heard.now tally.old tally.new result }
{
    let answer = feed(rt, flags, reasons, desk, seat, heard);
    tally.frame(answer.is_ok());
    stop_after(answer)
}

// Takes one line.
fn take_line<const N: usize, L: StationName, R: Wait>(
    rt: &R,
    flags: &LimitFlags,
    reasons: &mut Reasons,
    desk: &mut CountedDesk<N, L>,
    seat: &mut Seat<N, L>,
    tally: &mut Tally,
    parsed: &ParsedLine,
) -> Result<(), NoMemory>
    requires room { tally.old.lines + 1 < 2 ^ 64 }
    requires met { IsPrefix seat.old.seen desk.old.log.entries }
    ensures met { IsPrefix seat.new.seen desk.new.log.entries }
    ensures lines { tally.new.lines ≤ tally.old.lines + 1 }
    ensures taken { (line : Cut) → parsed.now ≡ parsed_of (pump_command line) → Pumps (SeatSteps L.start)
        (record { feed = seat.old; tally = tally.old }) (line ∷ []) result
        (record { feed = seat.new; tally = tally.new }) }
{
    match parsed {
        ParsedLine::Frame(heard) => return take_frame(rt, flags, reasons, desk, seat, tally, heard),
        ParsedLine::ModeAc => tally.mode_ac(),
        ParsedLine::Blank => tally.blank(),
        ParsedLine::Tick(_) | ParsedLine::Show | ParsedLine::Fault => tally.fault(),
    }
    Ok(())
}

// Takes lines one after another.
fn take_parsed<const N: usize, L: StationName, R: Wait>(
    rt: &R,
    flags: &LimitFlags,
    reasons: &mut Reasons,
    desk: &mut CountedDesk<N, L>,
    seat: &mut Seat<N, L>,
    tally: &mut Tally,
    ahead: &[ParsedLine],
) -> Result<(), NoMemory>
    requires room { tally.old.lines + length ahead.now < 2 ^ 64 }
    requires met { IsPrefix seat.old.seen desk.old.log.entries }
    ensures lines { tally.new.lines ≤ tally.old.lines + length ahead.now }
    ensures taken { (lines : List Cut) → ahead.now ≡ parsed_all lines →
        TakesFirst (Pumps (SeatSteps L.start)) lines
        (record { feed = seat.old; tally = tally.old }) result
        (record { feed = seat.new; tally = tally.new }) [] }
{
    for parsed in ahead {
        take_line(rt, flags, reasons, desk, seat, tally, parsed)?;
    }
    Ok(())
}

// Takes lines one after another, and keeps the lock meanwhile. Without lines it doesn't take the lock. The page is used
// where the journal has no room for an entry of each line.
pub(crate) fn take_held<const N: usize, L: StationName, R: Wait>(
    rt: &R,
    station: &Station<N, L>,
    reasons: &mut Reasons,
    seat: &mut Seat<N, L>,
    tally: &mut Tally,
    ahead: &[ParsedLine],
    page: &mut Option<Vec<Entry>>,
) -> Result<(), NoMemory>
    requires room { tally.old.lines + length ahead.now < 2 ^ 64 }
    ensures lines { tally.new.lines ≤ tally.old.lines + length ahead.now }
    ensures taken { (lines : List Cut) → ahead.now ≡ parsed_all lines →
        TakesFirst (Pumps (SeatSteps L.start)) lines
        (record { feed = seat.old; tally = tally.old }) result
        (record { feed = seat.new; tally = tally.new }) [] }
{
    if ahead.is_empty() {
        return Ok(());
    }
    let mut guard = station.releases.lock(rt, &station.locked);
    let ShownDesk { counted: desk } = &mut *guard;
    desk.take_page(page, ahead.len());
    desk.confirm_prefix(seat);
    let taken = take_parsed(rt, &station.flags, reasons, desk, seat, tally, ahead);
    desk.show(rt);
    station.releases.free(guard);
    taken
}
