//! The program over the arguments of its process.
ghost use Rattle.std.specs.Prelude.{◌≡◌, ◌⊎◌, IfErr, IfOk, Some, false, map, option_map};
ghost use Rattle.std.specs.Process.{exit_status};
ghost use Rattle.std.specs.String.{string_bytes};
ghost use Rattle.messages.specs.Telling.{alarmed_by, told_of};
ghost use Rattle.station_main.specs.Jobs.{EndsProcess, HasNoMemory, HasNoWords, WritesText, not_utf8_text};

use crate::obeying::{JobStreams, obey};
use messages::{Alarms, Fault, StandardError};
use station_paths::{Host, PathSystem, System};
use station_run::{JobResult, without_output};
use std::alloc::{AllocError, Global};
use std::env;
use std::io::{ErrorKind, Read, Write};
use std::process::ExitCode;
use std::rt::Env;

// Why an argument that isn't UTF-8 is refused.
const NOT_UTF8: &str = "error: an argument is not UTF-8\n";

/// What the program leaves of its process.
#[derive(Drop)]
pub struct ProcessEnd<O> {
    pub code: ExitCode,
    /// The output. It is gone where [`obey`](crate::obey) leaves none, and where there was no memory for the arguments.
    pub out: Option<O>,
}

/// Runs the program on its arguments. Answers the output, and the exit code that its process ends with: 1 if there was no memory
/// for the arguments, 2 if one isn't UTF-8, and else that of [`obey`](crate::obey), to which all else goes. Where the arguments
/// can't be had only why is printed.
pub fn exit_code<
    R: System,
    W: PathSystem,
    I: Read + Drop,
    O: Write + Send + Drop,
    A: Write + Send + Drop,
    E: Write + Drop,
>(
    rt: &R,
    own: W,
    alloc: Global,
    owned: Result<Vec<String>, ErrorKind>,
    origin: u64,
    input: I,
    out: O,
    alarms: Alarms<A>,
    err: &mut StandardError<E>,
) -> ProcessEnd<O>
    ensures obeyed { IfOk owned (λ words. EndsProcess (map string_bytes words.items) origin (I.remaining input) (O.Write.contents out)
        (option_map (λ left. O.Write.contents left) result.out) (alarmed_by A.Write.contents alarms)
        (told_of E.contents err.old) (told_of E.contents err.new) (exit_status result.code)) }
    ensures refused { IfErr owned (λ kind. HasNoWords kind (O.Write.contents out)
        (option_map (λ left. O.Write.contents left) result.out)
        (told_of E.contents err.old) (told_of E.contents err.new) (exit_status result.code)) }
{
    match owned {
        Ok(owned) => {
            let streams = JobStreams { input, out, alarms };
            let ran = obey_owned(&Host { rt, own, alloc }, &owned, origin, streams, err);
            process_end(ran)
        }
        Err(ErrorKind::OutOfMemory) => process_end(without_output(err, Fault::NoMemory)),
        Err(_) => process_end(refuse_bytes(out, err)),
    }
}

// What a process leaves whose job leaves this.
fn process_end<O>(ran: JobResult<O>) -> ProcessEnd<O>
    ensures code { exit_status result.code ≡ ran.status }
    ensures out { result.out ≡ ran.out }
{
    ProcessEnd {
        code: ExitCode::from(ran.status),
        out: ran.out,
    }
}

// Runs the program on these arguments, unless there is no memory to lend them.
fn obey_owned<
    R: System,
    W: PathSystem,
    I: Read + Drop,
    O: Write + Send + Drop,
    A: Write + Send + Drop,
    E: Write + Drop,
>(
    host: &Host<'_, R, W>,
    owned: &Vec<String>,
    origin: u64,
    streams: JobStreams<I, O, A>,
    err: &mut StandardError<E>,
) -> JobResult<O>
    ensures { EndsProcess (map string_bytes owned.now.items) origin (I.remaining streams.input) (O.Write.contents streams.out)
        (option_map (λ left. O.Write.contents left) result.out) (alarmed_by A.Write.contents streams.alarms)
        (told_of E.contents err.old) (told_of E.contents err.new) result.status }
{
    let (rt, own, alloc) = (host.rt, host.own, host.alloc);
    let JobStreams { input, out, alarms } = streams;
    match borrowed(alloc, owned) {
        Ok(words) => {
            let words = words.as_slice();
            obey(rt, own, alloc, words, origin, input, out, alarms, err)
        }
        Err(_) => without_output(err, Fault::NoMemory),
    }
}

// Refuses an argument that isn't UTF-8, with status 2.
fn refuse_bytes<O: Write, E: Write>(out: O, err: &mut StandardError<E>) -> JobResult<O>
    ensures { WritesText false not_utf8_text (O.contents out) (option_map (λ left. O.contents left) result.out)
        (told_of E.contents err.old) (told_of E.contents err.new) result.status }
{
    err.text(NOT_UTF8);
    JobResult {
        status: 2,
        out: Some(out),
    }
}

/// The arguments of the process, the program's name first, or why they can't be had: out of memory, or one isn't UTF-8.
pub fn own_words(rt: &(impl Env + AllocGlobal)) -> Result<Vec<String>, ErrorKind> {
    let words = match env::args(rt) {
        Ok(words) => words,
        Err(error) => return Err(error.kind()),
    };
    let mut owned = Vec::new(rt.alloc());
    for word in words {
        if owned.push(word).is_err() {
            return Err(ErrorKind::OutOfMemory);
        }
    }
    Ok(owned)
}

fn borrowed(alloc: Global, owned: &Vec<String>) -> Result<Vec<&str>, AllocError>
    ensures { IfOk result (λ words. map (λ w. w.now) words.items ≡ map string_bytes owned.now.items) }
{
    let mut words = Vec::new(alloc);
    for word in owned {
        words.push(word.as_str())?;
    }
    Ok(words)
}
