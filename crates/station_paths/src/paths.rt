//! The paths of a round, each read by a thread of its own.
ghost use Rattle.std.specs.Prelude.{◌≡◌, List, All, Contains, IfErr, IfOk, length, map};
ghost use Rattle.std.specs.String.{string_bytes};
ghost use Rattle.station_portions.specs.Giving.{state_of};
ghost use Rattle.clap.specs.Words.{Text};
ghost use Rattle.station_paths.specs.Inputs.{AreFed, IsFedBy, path_of};
ghost use Rattle.station_paths.specs.Inputs.{HasNoLines};
ghost use Rattle.station_paths.specs.Faults.{IsUnopened, IsUnstarted};

use crate::opened::{Opened, OpenedPath};
use crate::reopening::{OpeningLater, Reopening};
use crate::system::{Host, PathSystem};
use messages::{Answer, Fault};
use station_lines::Tally;
use station_portions::{FinishedPath, HandOver, PathReader, Portions, WholePath, connect};
use station_reporter::{Requests, Stop};
use std::alloc::Global;
use std::fs::{self, File};
use std::io::{self, ErrorKind, Read};
use std::os::unix::fs::FileTypeExt;
use std::rt::Files;
use std::sync::Arc;
use std::thread::{PromisedHandle, Threads};

/// A path that a receiver reads.
pub type Input<'a, R> = Portions<'a, R>;

/// What joins the thread that reads a path.
pub type ReaderHandle<I> = PromisedHandle<FinishedPath<I>, WholePath<I>>;

/// A path, as it was given, and the thread that reads it.
#[derive(Drop)]
pub struct PathThread<'p, I: Read + Drop> {
    pub path: &'p String,
    pub handle: ReaderHandle<I>,
}

/// What a round needs besides its stations.
#[derive(Drop)]
pub struct Paths<'p, I: Read + Drop> {
    /// The paths with their threads, in their order.
    pub threads: Vec<PathThread<'p, I>>,
    /// How their portions are ended.
    pub requests: Requests,
}

/// How paths are opened.
#[derive(Clone, Copy, Debug, PartialEq, Eq)]
pub enum Opening {
    /// Once, before the round begins, which waits for the writers of pipes.
    Once,
    /// Once, but a pipe by the thread that reads it, as that waits for a writer.
    Later,
    /// The same, and again each time that it ends.
    Again,
}

/// Opens the paths in order, up to the first that can't be opened.
pub fn open_all<'p, R: Files<File = File>>(
    rt: &R,
    alloc: Global,
    paths: &'p Vec<String>,
    opening: Opening,
) -> Result<Vec<OpenedPath<'p>>, Fault<'p>>
    ensures opened { IfOk result (λ files. map (λ f. path_of f.opened) files.items ≡ map string_bytes paths.now.items) }
    ensures named { IfOk result (λ files. map (λ f. string_bytes f.path.now) files.items ≡ map string_bytes paths.now.items) }
    ensures many { IfOk result (λ files. length files.items ≡ length paths.now.items) }
    ensures unopened { IfErr result (IsUnopened (map string_bytes paths.now.items)) }
{
    let mut files = Vec::new(alloc);
    for path in paths {
        let file = open(rt, alloc, path, opening)?;
        if files.push(file).is_err() {
            return Err(Fault::NoMemory);
        }
    }
    Ok(files)
}

/// Opens a path. A pipe that its thread opens isn't opened yet.
pub fn open<'p, R: Files<File = File>>(
    rt: &R,
    alloc: Global,
    path: &'p String,
    opening: Opening,
) -> Result<OpenedPath<'p>, Fault<'p>>
    ensures path { IfOk result (λ file. path_of file.opened ≡ string_bytes path.entry.now) }
    ensures named { IfOk result (λ file. file.path.now ≡ path.entry.now) }
    ensures unopened { IfErr result (λ fault.
        (paths : List Text) → Contains paths (string_bytes path.entry.now) → IsUnopened paths fault) }
{
    match open_or_wait(rt, path, opening != Opening::Once) {
        Ok(opened) if opening != Opening::Again => Ok(OpenedPath { path, opened }),
        Ok(opened) => match opened.opened_again(alloc, path) {
            Ok(opened) => Ok(OpenedPath { path, opened }),
            Err(_) => Err(Fault::NoMemory),
        },
        Err(error) if error.kind() == ErrorKind::OutOfMemory => Err(Fault::NoMemory),
        Err(_) => Err(Fault::CannotOpen(path.as_str())),
    }
}

// Opens a path, or leaves that to the thread that reads it, where it is a pipe and the thread may wait.
fn open_or_wait<R: Files<File = File>>(rt: &R, path: &String, may_wait: bool) -> io::Result<Opened>
    ensures { IfOk result (λ opened. opened.path.value ≡ path.now) }
{
    if may_wait && fs::metadata(rt, path.as_str())?.file_type().is_fifo() {
        return Ok(Opened::later(path));
    }
    Opened::open(rt, path)
}

/// Paths whose threads read them.
#[derive(Drop)]
pub struct Started<'a, 'p, R> {
    pub paths: Paths<'p, Opened>,
    /// What the threads send to, by path.
    pub inputs: Vec<Input<'a, R>>,
    /// Nothing is counted so far, by path.
    pub answers: Vec<Answer>,
}

/// Starts a thread for each file, in their order, which reads it to its end. `stop` is the end of the run, where somebody may
/// ask for it.
pub fn start_all<'a, 'p, R: Threads, W: PathSystem>(
    host: &Host<'a, R, W>,
    files: Vec<OpenedPath<'p>>,
    stop: Option<Arc<Stop, Global>>,
) -> Result<Started<'a, 'p, R>, Fault<'static>>
    ensures inputs { IfOk result (λ started. length started.inputs.items ≡ length files.entry.items) }
    ensures fed { IfOk result (λ started.
        AreFed (map (λ f. path_of f.opened) files.entry.items) (map (λ t. t.handle.promise) started.paths.threads.items)
        (map state_of started.inputs.items)) }
    ensures named { IfOk result (λ started. map (λ t. string_bytes t.path.now) started.paths.threads.items
        ≡ map (λ f. string_bytes f.path.now) files.entry.items) }
    ensures answers { IfOk result (λ started. length started.answers.items ≡ length files.entry.items) }
    ensures none { IfOk result (λ started. All HasNoLines started.answers.items) }
    ensures unstarted { IfErr result IsUnstarted }
{
    let alloc = host.alloc;
    let (mut threads, mut hand_overs) = (Vec::new(alloc), Vec::new(alloc));
    let (mut inputs, mut answers) = (Vec::new(alloc), Vec::new(alloc));
    for file in files {
        let (thread, input, hand_over) = start(host, file)?;
        if threads.push(thread).is_err()
            || hand_overs.push(hand_over).is_err()
            || inputs.push(input).is_err()
            || answers.push(Ok(Tally::new())).is_err()
        {
            return Err(Fault::NoMemory);
        }
    }
    let paths = Paths {
        threads,
        requests: Requests { hand_overs, stop },
    };
    Ok(Started {
        paths,
        inputs,
        answers,
    })
}

// Starts the thread of one path.
fn start<'a, 'p, R: Threads, W: PathSystem>(
    host: &Host<'a, R, W>,
    file: OpenedPath<'p>,
) -> Result<(PathThread<'p, Opened>, Input<'a, R>, Arc<HandOver, Global>), Fault<'static>>
    ensures fed { IfOk result (λ started. IsFedBy (path_of file.entry.opened) started.0.handle.promise (state_of started.1)) }
    ensures named { IfOk result (λ started. started.0.path.now ≡ file.entry.path.now) }
    ensures unstarted { IfErr result IsUnstarted }
{
    let Ok((reader, input, hand_over)) = connect(host.rt, host.alloc) else {
        return Err(Fault::NoMemory);
    };
    let OpenedPath { path, opened } = file;
    match start_reader(host, reader, path, opened) {
        Ok(handle) => Ok((PathThread { path, handle }, input, hand_over)),
        Err(error) if error.kind() == ErrorKind::OutOfMemory => Err(Fault::NoMemory),
        Err(_) => Err(Fault::ThreadNotStarted),
    }
}

// Starts the thread that reads a file. It opens the path first where that isn't open, and again each time that it ends, if that
// is asked for.
fn start_reader<R: Threads, W: PathSystem>(
    host: &Host<'_, R, W>,
    reader: PathReader,
    path: &String,
    file: Opened,
) -> io::Result<ReaderHandle<Opened>>
    ensures path { IfOk result (λ handle. path_of handle.promise.from.value ≡ path_of file) }
    ensures reader { IfOk result (λ handle. handle.promise.reader.value ≡ reader) }
{
    let mut file = file;
    if let Some(path) = file.again.take() {
        let again = Reopening {
            own: host.own,
            path,
            is_first: !file.is_open(),
        };
        return reader.start_again(host.rt, host.own, file, again);
    }
    if file.is_open() {
        return reader.start(host.rt, host.own, file);
    }
    let Ok(path) = String::from_str(host.alloc, path.as_str()) else {
        return Err(ErrorKind::OutOfMemory.into());
    };
    let later = OpeningLater {
        own: host.own,
        path,
    };
    reader.start_later(host.rt, host.own, file, later)
}
