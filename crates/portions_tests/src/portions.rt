//! Sources that are taken in portions.

use crate::comparing::{holds, same};
use station_portions::{PathEnd, Reopen, connect};
use std::alloc::Global;
use std::io::{self, ErrorKind, Read};
use std::sync::atomic::{AtomicBool, Ordering};
use std::sync::{Arc, Wait};
use std::test::Fail;
use std::thread;
use std::time::{Clock, Duration};
use streams::{Failed, Source};

// A path that gives one part a read. Before the last part it is silent until it is released.
#[derive(Drop)]
struct Script<W> {
    rt: W,
    parts: &'static [&'static [u8]],
    next: usize,
    is_released: Arc<AtomicBool, Global>,
}

impl<W: Wait> Read for Script<W> {
    fn read(&mut self, buffer: &mut [u8]) -> io::Result<usize> {
        if self.next >= self.parts.len() {
            return Ok(0);
        }
        let mut part = self.parts[self.next];
        self.next += 1;
        if self.next == self.parts.len() {
            for _ in self.rt.forever() {
                if self.is_released.load(Ordering::SeqCst) {
                    break;
                }
                thread::yield_now();
            }
        }
        part.read(buffer)
    }
}

// Reads a portion to its end, or until it has given this many bytes.
fn read_portion<S: Source>(alloc: Global, from: &mut S, most: usize) -> Result<Vec<u8>, Fail> {
    let mut bytes = Vec::new(alloc);
    let mut buffer = [0u8; 7];
    for _ in 0..u64::MAX {
        let count = from.read(&mut buffer)?;
        bytes.extend_from_slice(&buffer[..count])?;
        if count == 0 || bytes.len() >= most {
            break;
        }
    }
    Ok(bytes)
}

#[test]
fn a_line_begun_before_a_hand_over_is_given_after_it(rt: HostRuntime) -> Result<(), Fail> {
    let alloc = rt.alloc();
    let is_released = Arc::new(alloc, AtomicBool::new(false))?;
    let (reader, mut portions, hand_over) = connect(&rt, alloc)?;
    let script = Script {
        rt,
        parts: &[b"*one;\n*tw", b"o;\n*three;"],
        next: 0,
        is_released: Arc::try_clone(&is_released)?,
    };
    let handle = reader.start(&rt, rt, script)?;
    let mut first = [0u8; 6];
    holds(&rt, portions.read(&mut first) == Ok(6));
    same(&rt, &first, b"*one;\n");
    hand_over.request();
    holds(&rt, portions.read(&mut first) == Ok(0));
    holds(&rt, portions.is_between_lines() && portions.end().is_none());
    hand_over.resume();
    is_released.store(true, Ordering::SeqCst);
    let rest = read_portion(alloc, &mut portions, 99)?;
    same(&rt, rest.as_slice(), b"*two;\n*three;\n".as_slice());
    holds(&rt, portions.end() == Some(PathEnd::AtEnd));
    handle.join(&rt);
    Ok(())
}

#[test]
fn lines_that_were_sent_meanwhile_are_at_hand(rt: HostRuntime) -> Result<(), Fail> {
    let alloc = rt.alloc();
    let (reader, mut portions, _) = connect(&rt, alloc)?;
    let script = Script {
        rt,
        parts: &[b"*one;\n", b"*two;\n"],
        next: 0,
        is_released: Arc::new(alloc, AtomicBool::new(true))?,
    };
    reader.start(&rt, rt, script)?.join(&rt);
    let mut line = [0u8; 6];
    holds(&rt, !portions.is_at_hand());
    holds(&rt, portions.read(&mut line) == Ok(6));
    same(&rt, &line, b"*one;\n");
    holds(&rt, portions.is_at_hand());
    holds(&rt, portions.read(&mut line) == Ok(6));
    same(&rt, &line, b"*two;\n");
    holds(&rt, !portions.is_at_hand());
    holds(&rt, portions.end() == Some(PathEnd::AtEnd));
    Ok(())
}

#[test]
fn a_hand_over_doesn_t_wait_for_a_silent_path(rt: HostRuntime) -> Result<(), Fail> {
    let alloc = rt.alloc();
    let is_released = Arc::new(alloc, AtomicBool::new(false))?;
    let (reader, mut portions, hand_over) = connect(&rt, alloc)?;
    let script = Script {
        rt,
        parts: &[b""],
        next: 0,
        is_released: Arc::try_clone(&is_released)?,
    };
    let handle = reader.start(&rt, rt, script)?;
    let request = Arc::try_clone(&hand_over)?;
    let other = thread::spawn(&rt, move || {
        thread::sleep(&rt, Duration::from_millis(20));
        request.request();
    })?;
    let before = read_portion(alloc, &mut portions, 99)?;
    holds(&rt, before.is_empty() && portions.end().is_none());
    other.join(&rt);
    hand_over.resume();
    is_released.store(true, Ordering::SeqCst);
    holds(&rt, read_portion(alloc, &mut portions, 99)?.is_empty());
    holds(&rt, portions.end() == Some(PathEnd::AtEnd));
    handle.join(&rt);
    Ok(())
}

// A path that gives this many `a`, up to 60,000 a read, then these bytes, and then ends or fails.
#[derive(Drop)]
struct Opening {
    letters: usize,
    bytes: &'static [u8],
    fails: bool,
}

impl Read for Opening {
    fn read(&mut self, buffer: &mut [u8]) -> io::Result<usize> {
        if self.letters > 0 {
            let count = self.letters.min(buffer.len()).min(60_000);
            buffer[..count].fill(b'a');
            self.letters -= count;
            return Ok(count);
        }
        if self.bytes.is_empty() && self.fails {
            return Err(io::Error::from(ErrorKind::Other));
        }
        self.bytes.read(buffer)
    }
}

#[test]
fn a_long_line_is_cut_short_and_a_begun_one_dropped_at_a_failed_read(
    rt: HostRuntime,
) -> Result<(), Fail> {
    let alloc = rt.alloc();
    let (reader, mut portions, _) = connect(&rt, alloc)?;
    let path = Opening {
        letters: 200_000,
        bytes: b"\n*one;\n*t",
        fails: true,
    };
    let handle = reader.start(&rt, rt, path)?;
    let mut bytes = [0u8; 1024];
    holds(&rt, portions.read(&mut bytes) == Ok(512 + 7));
    holds(&rt, bytes.as_slice().starts_with([b'a'; 512].as_slice()));
    same(&rt, &bytes[512..512 + 7], b"\n*one;\n".as_slice());
    holds(&rt, portions.read(&mut bytes) == Err(Failed));
    holds(&rt, portions.read(&mut bytes) == Err(Failed));
    holds(&rt, portions.end() == Some(PathEnd::ReadFailed));
    let mut path = handle.join(&rt);
    holds(&rt, path.end == PathEnd::ReadFailed);
    holds(&rt, path.from.bytes.is_empty());
    holds(&rt, portions.gave_all(&mut path));
    Ok(())
}

// Further openings of a path, and how those before them have to end. After the last it stays closed.
#[derive(Drop)]
struct Openings<W> {
    rt: W,
    ends: &'static [PathEnd],
    next: usize,
}

impl<W: Wait + Clock> Reopen<Opening> for Openings<W> {
    ghost use Rattle.std.specs.Prelude.{◌≡◌};

    ghost opens = { λ old end opening new. opening.letters ≡ 0 };

    fn reopen(&mut self, end: PathEnd) -> Opening {
        let ends = self.ends;
        for _ in self.rt.forever() {
            if self.next < ends.len() && ends[self.next] == end {
                break;
            }
            thread::sleep(&self.rt, Duration::from_secs(1));
        }
        self.next = self.next.saturating_add(1);
        Opening {
            letters: 0,
            bytes: b"*four;\n",
            fails: true,
        }
    }
}

#[test]
fn a_path_is_read_again_each_time_that_it_ends(rt: HostRuntime) -> Result<(), Fail> {
    let alloc = rt.alloc();
    let (reader, mut portions, hand_over) = connect(&rt, alloc)?;
    let first = Opening {
        letters: 0,
        bytes: b"*one;\n*two;",
        fails: false,
    };
    let openings = Openings {
        rt,
        ends: &[PathEnd::AtEnd, PathEnd::ReadFailed],
        next: 0,
    };
    let _thread = reader.start_again(&rt, rt, first, openings)?;
    let bytes = read_portion(alloc, &mut portions, 26)?;
    same(&rt, bytes.as_slice(), b"*one;\n*two;\n*four;\n*four;\n");
    holds(&rt, portions.end().is_none());
    hand_over.request();
    holds(&rt, read_portion(alloc, &mut portions, 99)?.is_empty());
    Ok(())
}

// A path that gives its line this many times, one a read.
#[derive(Drop)]
struct Repeated {
    times: u32,
}

impl Read for Repeated {
    fn read(&mut self, buffer: &mut [u8]) -> io::Result<usize> {
        if self.times == 0 {
            return Ok(0);
        }
        self.times -= 1;
        let mut line: &[u8] = b"*line;\n";
        line.read(buffer)
    }
}

// The source is read once for each line, and once more.
#[test]
fn a_path_of_many_lines_is_given_to_its_end(rt: HostRuntime) -> Result<(), Fail> {
    let alloc = rt.alloc();
    let (reader, mut portions, _) = connect(&rt, alloc)?;
    let handle = reader.start(&rt, rt, Repeated { times: 10_000 })?;
    let bytes = read_portion(alloc, &mut portions, 99_999)?;
    same(&rt, bytes.len(), 70_000);
    holds(&rt, portions.end() == Some(PathEnd::AtEnd));
    handle.join(&rt);
    Ok(())
}

#[test]
fn a_path_is_given_whole_once_its_last_line_is(rt: HostRuntime) -> Result<(), Fail> {
    let alloc = rt.alloc();
    let (reader, mut portions, _) = connect(&rt, alloc)?;
    let handle = reader.start(&rt, rt, Repeated { times: 1 })?;
    let mut line = [0u8; 7];
    holds(&rt, portions.read(&mut line) == Ok(7));
    holds(&rt, portions.read(&mut line) == Ok(0));
    holds(&rt, portions.gave_path(&rt, handle));
    Ok(())
}

#[test]
fn a_path_is_given_up_to_a_failed_read(rt: HostRuntime) -> Result<(), Fail> {
    let alloc = rt.alloc();
    let (reader, mut portions, _) = connect(&rt, alloc)?;
    let path = Opening {
        letters: 0,
        bytes: b"*one;\n*t",
        fails: true,
    };
    let handle = reader.start(&rt, rt, path)?;
    let mut line = [0u8; 6];
    holds(&rt, portions.read(&mut line) == Ok(6));
    holds(&rt, portions.read(&mut line) == Err(Failed));
    holds(&rt, portions.gave_path(&rt, handle));
    Ok(())
}

#[test]
fn a_path_that_goes_on_isn_t_given_whole(rt: HostRuntime) -> Result<(), Fail> {
    let alloc = rt.alloc();
    let (reader, mut portions, hand_over) = connect(&rt, alloc)?;
    let handle = reader.start(&rt, rt, Repeated { times: 1 })?;
    hand_over.request();
    let mut line = [0u8; 7];
    holds(&rt, portions.read(&mut line) == Ok(0));
    holds(&rt, !portions.gave_path(&rt, handle));
    Ok(())
}
