//! What a round of the job `run` counts and prints at its end.
ghost use Rattle.std.specs.Prelude.{◌≡◌, ◌≤◌, ◌++◌, fold, max};
ghost use Rattle.std.specs.List.{flat_map};
ghost use Rattle.messages.specs.Status.{fault_status, status_of};
ghost use Rattle.station_lines.specs.Pump.{tally_of_pump};
ghost use Rattle.messages.specs.Sums.{AddsAnswer, AddsTally, HasSameFault};
ghost use Rattle.messages.specs.Telling.{Tells, output_lines, pump_lines, told_of};

use crate::faults::{Fault, tell, tell_after, write_tally};
use crate::standard_error::StandardError;
use station_lines::{PumpFault, Tally};
use std::io::Write;

/// What was counted of a path, and its fault if it had one.
pub type Answer = Result<Tally, PumpFault>;

/// Prints what was counted of each path, with its fault directly after it, and at last a failed write. Answers the status,
/// 0 or 1.
pub fn tell_end<E: Write>(err: &mut StandardError<E>, answers: &Vec<Answer>, has_failed: bool) -> u8
    ensures value { result ≡ max (fold (λ status answer. max status (status_of answer)) 0 answers.now.items)
        (fault_status has_failed) }
    ensures most { result ≤ 1 }
    ensures told { Tells (told_of E.contents err.old) (told_of E.contents err.new)
        (flat_map pump_lines answers.now.items ++ output_lines has_failed) }
{
    let status = tell_answers(err, answers);
    if has_failed {
        return tell(err, Fault::Write);
    }
    status
}

// Prints what was counted of each path, with its fault directly after it. Answers the status.
fn tell_answers<E: Write>(err: &mut StandardError<E>, answers: &Vec<Answer>) -> u8
    ensures value { result ≡ fold (λ status answer. max status (status_of answer)) 0 answers.now.items }
    ensures most { result ≤ 1 }
    ensures told { Tells (told_of E.contents err.old) (told_of E.contents err.new)
        (flat_map pump_lines answers.now.items) }
{
    let mut status = 0;
    for answer in answers {
        status = status.max(tell_answer(err, answer));
    }
    status
}

fn tell_answer<E: Write>(err: &mut StandardError<E>, answer: &Answer) -> u8
    ensures value { result ≡ status_of answer.now }
    ensures most { result ≤ 1 }
    ensures told { Tells (told_of E.contents err.old) (told_of E.contents err.new) (pump_lines answer.now) }
{
    match answer {
        Ok(tally) => {
            write_tally(err, tally);
            0
        }
        Err(PumpFault::Read(tally)) => tell_after(err, tally, Fault::Read),
        Err(PumpFault::TooManyTurns(tally)) => tell_after(err, tally, Fault::TooManyReads),
        Err(PumpFault::NoMemory(tally)) => tell_after(err, tally, Fault::NoMemory),
    }
}

/// What was counted of a path before and since, and the first fault.
pub fn added(before: &Answer, since: &Answer) -> Answer
    ensures { AddsAnswer before.now since.now result }
{
    let tally = sum(counted(before), counted(since));
    match before {
        Ok(_) => with_tally(since, tally),
        Err(_) => with_tally(before, tally),
    }
}

// The same fault, or none, with this count.
fn with_tally(answer: &Answer, tally: Tally) -> Answer
    ensures fault { HasSameFault answer.now result }
    ensures tally { tally_of_pump result ≡ tally }
{
    match answer {
        Ok(_) => Ok(tally),
        Err(PumpFault::Read(_)) => Err(PumpFault::Read(tally)),
        Err(PumpFault::TooManyTurns(_)) => Err(PumpFault::TooManyTurns(tally)),
        Err(PumpFault::NoMemory(_)) => Err(PumpFault::NoMemory(tally)),
    }
}

// What was counted, whatever the fault.
fn counted(answer: &Answer) -> Tally
    ensures { result ≡ tally_of_pump answer.now }
{
    match answer {
        Ok(tally) => *tally,
        Err(PumpFault::Read(tally)) => *tally,
        Err(PumpFault::TooManyTurns(tally)) => *tally,
        Err(PumpFault::NoMemory(tally)) => *tally,
    }
}

// The sum of each number, or what was counted before if that would pass 2^64 - 1 lines.
fn sum(before: Tally, since: Tally) -> Tally
    ensures { AddsTally before since result }
{
    if since.lines > u64::MAX - before.lines {
        return before;
    }
    Tally {
        lines: before.lines + since.lines,
        frames: before.frames + since.frames,
        ticks: before.ticks + since.ticks,
        shows: before.shows + since.shows,
        blank: before.blank + since.blank,
        mode_ac: before.mode_ac + since.mode_ac,
        faults: before.faults + since.faults,
        accepted: before.accepted + since.accepted,
        refused: before.refused + since.refused,
    }
}
