//! The end of a run by a named pipe.
ghost use Rattle.std.specs.Prelude.{◌≡◌, IfErr, is_some, true};
ghost use Rattle.station_run.specs.Stations.{CannotStart, plan_of};

use crate::run_options::RunOptions;
use messages::Fault;
use station_paths::{Host, Opened, Opening, PathEvent, PathHost, PathSystem, open};
use station_reporter::{Requests, Stop, Stopped};
use std::alloc::{AllocError, Global};
use std::fs::File;
use std::io::{self, ErrorKind, Read};
use std::rt::Files;
use std::sync::Arc;
use std::thread;
use std::thread::Threads;

/// The end of the run, if a pipe is given for it. A thread waits until somebody has written to the pipe, or opened and closed
/// it, and then asks for the end. It needn't be joined: it ends with the program.
pub fn begin_stop<'p, R: Threads + Files<File = File>, W: PathSystem>(
    host: &Host<'_, R, W>,
    asked: RunOptions<'p>,
) -> Result<Option<Arc<Stop, Global>>, Fault<'p>>
    ensures { IfErr result (CannotStart (plan_of asked.entry)) }
{
    let Some(pipe) = asked.stop else {
        return Ok(None);
    };
    let opened = match open(host.rt, host.alloc, pipe, Opening::Later) {
        Ok(file) => file.opened,
        Err(fault) => return Err(fault),
    };
    let Ok((stop, waiter)) = make_stop(host.alloc, pipe, opened) else {
        return Err(Fault::NoMemory);
    };
    match start_waiting(host, waiter) {
        Ok(()) => Ok(Some(stop)),
        Err(error) if error.kind() == ErrorKind::OutOfMemory => Err(Fault::NoMemory),
        Err(_) => Err(Fault::ThreadNotStarted),
    }
}

/// What shows that the run is ended by a pipe, if it is. Where no pipe is given it never is.
pub fn stopped(asked: RunOptions<'_>, requests: &Requests) -> Option<Stopped>
    ensures { is_some result ≡ true → is_some (plan_of asked.entry).stop ≡ true }
{
    if asked.stop.is_none() {
        return None;
    }
    requests.stopped()
}

// What the thread has that waits for what comes out of the pipe.
#[derive(Drop)]
struct Waiter {
    path: String,
    pipe: Opened,
    stop: Arc<Stop, Global>,
}

// An end that nobody has asked for, and what waits to ask for it.
fn make_stop(
    alloc: Global,
    path: &String,
    pipe: Opened,
) -> Result<(Arc<Stop, Global>, Waiter), AllocError> {
    let stop = Arc::new(alloc, Stop::new())?;
    let waiter = Waiter {
        path: String::from_str(alloc, path.as_str())?,
        pipe,
        stop: Arc::try_clone(&stop)?,
    };
    Ok((stop, waiter))
}

// Starts the thread that waits for what comes out of the pipe.
fn start_waiting<R: Threads, W: PathSystem>(
    host: &Host<'_, R, W>,
    waiter: Waiter,
) -> io::Result<()> {
    let own = host.own;
    thread::spawn(host.rt, move || await_end(&own, waiter))?;
    Ok(())
}

// Waits until the pipe has given something or has ended, and then asks for the end of the run. A pipe that can't be opened,
// or whose read fails, is reported, and doesn't end the run.
fn await_end<W: PathHost>(own: &W, waiter: Waiter) {
    let Waiter {
        path,
        mut pipe,
        stop,
    } = waiter;
    if !pipe.is_open() {
        pipe = match own.open(&path) {
            Some(opened) => opened,
            None => {
                own.report(PathEvent::CannotOpen(path.as_str()));
                return;
            }
        };
    }
    let mut first = [0u8];
    match pipe.read(first.as_mut_slice()) {
        Ok(_) => stop.ask(),
        Err(_) => own.report(PathEvent::Failed(path.as_str())),
    }
}
