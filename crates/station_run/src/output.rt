//! The output of a job, out of its buffer.
ghost use Rattle.std.specs.Prelude.{◌≡◌, ◌||◌, None, false, true};
ghost use Rattle.std.specs.Io.Buffered.{writer_contents};
ghost use Rattle.station_run.specs.Output.{GivesBack};
ghost use Rattle.messages.specs.Telling.{Tells, fault_line, output_lines, told_of};

use messages::{Fault, StandardError, tell};
use station_output::{OpenOutput, WrittenOutput};
use std::io::{BufWriter, Write};
use std::sync::Wait;
use std::thread::Threads;
use streams::Sink;

/// What a job leaves.
#[derive(Drop)]
pub struct JobResult<O> {
    /// The exit status, 0 to 2.
    pub status: u8,
    /// The output. It is gone where the job, or one of its stations, couldn't begin or be closed.
    pub out: Option<O>,
}

/// An output after its last write.
#[derive(Drop)]
pub struct ClosedOutput<O> {
    pub out: O,
    /// Whether a write failed.
    pub has_failed: bool,
}

/// Prints the fault by which a job, or one of its stations, couldn't begin or be closed.
pub fn without_output<O, E: Write>(err: &mut StandardError<E>, fault: Fault<'_>) -> JobResult<O>
    ensures status { result.status ≡ 1 }
    ensures out { result.out ≡ None }
    ensures told { Tells (told_of E.contents err.old) (told_of E.contents err.new) (fault_line fault.entry) }
{
    JobResult {
        status: tell(err, fault),
        out: None,
    }
}

/// Waits until the output of a run has all its tables, and takes it back. A failed write is reported, unless it was before.
/// Answers whether one is reported.
pub fn give_back<R: Threads + Wait, S: Sink + Drop, A: Write + Drop, E: Write>(
    rt: &R,
    output: OpenOutput<S, A>,
    err: &mut StandardError<E>,
) -> ClosedOutput<S>
    ensures once { output.has_failed ≡ true → result.has_failed ≡ false }
    ensures bytes { GivesBack output.taken (S.state result.out).taken (output.has_failed || result.has_failed) }
    ensures told { Tells (told_of E.contents err.old) (told_of E.contents err.new) (output_lines result.has_failed) }
{
    let failed_before = output.has_failed();
    let WrittenOutput { out, has_failed } = output.close(rt);
    if failed_before || !has_failed {
        return ClosedOutput {
            out,
            has_failed: false,
        };
    }
    tell(err, Fault::Write);
    ClosedOutput {
        out,
        has_failed: true,
    }
}

/// Writes what is left in the buffer, and takes the output out of it.
pub fn unbuffered<O: Write + Drop>(out: BufWriter<O>) -> ClosedOutput<O>
    ensures { GivesBack (writer_contents O.contents out) (O.contents result.out) result.has_failed }
{
    match out.into_inner() {
        Ok(out) => ClosedOutput {
            out,
            has_failed: false,
        },
        Err(error) => drop_unwritten(error.into_inner()),
    }
}

/// Takes the output out of its buffer after a failed write, and drops what is left there. A buffer that is dropped
/// whole would write that after the fault was printed.
pub fn drop_unwritten<O: Write + Drop>(out: BufWriter<O>) -> ClosedOutput<O>
    ensures bytes { GivesBack (writer_contents O.contents out) (O.contents result.out) result.has_failed }
    ensures failed { result.has_failed ≡ true }
{
    let (out, _unwritten) = out.into_parts();
    ClosedOutput {
        out,
        has_failed: true,
    }
}
