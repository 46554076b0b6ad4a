//! The job `replay`.
ghost use Rattle.std.specs.Prelude.{◌≡◌, ◌≤◌, IfSome, None, max};
ghost use Rattle.std.specs.Io.Buffered.{writer_contents};
ghost use Rattle.station_reporter.specs.LimitAlarms.{limits_told};
ghost use Rattle.station_run.specs.Limits.{program_limits};
ghost use Rattle.station_run.specs.Output.{GivesBack};
ghost use Rattle.station_main.specs.Replay.{EndsReplay};
ghost use Rattle.messages.specs.Status.{fault_status, status_of};
ghost use Rattle.messages.specs.Telling.{OutOfMemory, Tells, replay_lines, told_of};

use messages::{Fault, StandardError, tell_after, write_tally};
use modes_cpr::Reference;
use station_paths::Host;
use station_replay::replay_forgetting;
use station_report::Format;
use station_reporter::LimitAlarm;
use station_run::limits::{AIRCRAFT, FORGET_AT, TURNS, limits};
use station_run::{ClosedOutput, JobResult, drop_unwritten, unbuffered, without_output};
use station_shared::{Desk, FromBuffer, ReplayFault, Tally};
use std::io::{BufReader, BufWriter, Read, Write};
use std::sync::Wait;
use streams::ToWrite;

/// The options of a replay.
#[derive(Clone, Copy)]
pub struct ReplayOptions {
    /// How tables are written.
    pub format: Format,
    /// The place of the receivers, if it is given.
    pub site: Option<Reference>,
}

/// Reads the lines of the input, and writes the tables that they ask for. Then prints what was counted, and a fault if there is
/// one. The first frame or tick that meets a full journal or a full table is reported to `alarm` at once. Answers the output,
/// unless nothing was read.
#[inline(never)]
pub fn replay_input<R: Wait, W, I: Read + Drop, O: Write + Drop, A: Write, E: Write>(
    host: &Host<'_, R, W>,
    options: ReplayOptions,
    input: I,
    out: O,
    alarm: &mut LimitAlarm<A>,
    err: &mut StandardError<E>,
) -> JobResult<O>
    ensures most { result.status ≤ 1 }
    ensures gone { result.out ≡ None →
        OutOfMemory (told_of E.contents err.old) (told_of E.contents err.new) result.status }
    ensures ended { IfSome result.out (λ left. EndsReplay options.format (program_limits options.site)
        (I.remaining input) (O.Write.contents out) (O.Write.contents left)
        (limits_told A.contents alarm.old) (limits_told A.contents alarm.new)
        (told_of E.contents err.old) (told_of E.contents err.new) result.status) }
{
    let (rt, alloc) = (host.rt, host.alloc);
    let (Ok(input), Ok(output)) = (BufReader::new(alloc, input), BufWriter::new(alloc, out)) else {
        return without_output(err, Fault::NoMemory);
    };
    let Ok(mut desk) = Desk::<AIRCRAFT>::new(alloc, limits(options.site)) else {
        return without_output(err, Fault::NoMemory);
    };
    let mut to = ToWrite::new(output);
    let answer = replay_forgetting(
        rt,
        FORGET_AT,
        &mut desk,
        &mut FromBuffer::new(input),
        &mut to,
        options.format,
        TURNS,
        alarm,
    );
    desk.end(rt);
    let ClosedOutput { out, has_failed } = take_out(to.into_inner(), &answer);
    JobResult {
        status: tell_replay_end(err, &answer, has_failed),
        out: Some(out),
    }
}

// Takes the output out of its buffer, and drops what is left there after a failed write.
fn take_out<O: Write + Drop>(
    out: BufWriter<O>,
    answer: &Result<Tally, ReplayFault>,
) -> ClosedOutput<O>
    ensures { GivesBack (writer_contents O.contents out) (O.contents result.out) result.has_failed }
{
    match answer {
        Err(ReplayFault::Write(_)) => drop_unwritten(out),
        _ => unbuffered(out),
    }
}

// Prints what was counted, and a fault if there is one: that of the answer, or else that of the output. Answers the
// status.
fn tell_replay_end<E: Write>(
    err: &mut StandardError<E>,
    answer: &Result<Tally, ReplayFault>,
    has_failed: bool,
) -> u8
    ensures value { result ≡ max (status_of answer.now) (fault_status has_failed) }
    ensures most { result ≤ 1 }
    ensures told { Tells (told_of E.contents err.old) (told_of E.contents err.new)
        (replay_lines answer.now has_failed) }
{
    match answer {
        Ok(tally) if has_failed => tell_after(err, tally, Fault::Write),
        Ok(tally) => {
            write_tally(err, tally);
            0
        }
        Err(ReplayFault::Read(tally)) => tell_after(err, tally, Fault::Read),
        Err(ReplayFault::Write(tally)) => tell_after(err, tally, Fault::Write),
        Err(ReplayFault::TooManyTurns(tally)) => tell_after(err, tally, Fault::TooManyReads),
        Err(ReplayFault::NoMemory(tally)) => tell_after(err, tally, Fault::NoMemory),
    }
}
