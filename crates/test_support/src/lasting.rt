//! Paths that last, runs over them, and a bounded wait.
use crate::bounds::{FileHost, Own, System};
use crate::ran::Ran;
use crate::rig::Rig;
use crate::staged::Staged;
use crate::texts::NO_LINES;
use std::io::{self, PipeReader, PipeWriter, Write};
use std::os::fd::AsRawFd;
use std::sync::atomic::{AtomicBool, Ordering};
use std::test::*;
use std::thread::{self, join};
use std::time::{Clock, Duration, Instant};

/// A path that lasts: a pipe, which ends when `lines` is dropped.
#[derive(Drop)]
pub struct Lasting {
    /// By which the program opens it.
    pub path: String,
    /// Takes its lines.
    pub lines: PipeWriter,
    // Keeps the path open.
    end: PipeReader,
}

/// Waits until the flag is set, for some 20 seconds at most, and answers whether it is.
pub fn becomes_set<R: Clock>(rt: &R, flag: &AtomicBool) -> bool {
    for _ in 0..2_000 {
        if flag.load(Ordering::SeqCst) {
            return true;
        }
        thread::sleep(rt, Duration::from_millis(10));
    }
    false
}

/// What a lasting path gets before it ends, and when.
#[derive(Clone, Copy)]
pub struct Feed<'a> {
    /// Awaited before the path gets its text.
    pub start: &'a AtomicBool,
    /// What it gets.
    pub text: &'a [u8],
    /// Set once the path has ended.
    pub end: &'a AtomicBool,
}

impl<'a> Feed<'a> {
    /// The text at a flag that nobody awaits afterwards.
    pub fn at(flag: &'a AtomicBool, text: &'a [u8]) -> Feed<'a> {
        Feed {
            start: flag,
            text,
            end: flag,
        }
    }
}

// Answers whether the path got its text.
fn end_path<R: Clock>(rt: &R, mut lines: PipeWriter, feed: Feed<'_>) -> bool {
    let is_fed = becomes_set(rt, feed.start) && lines.write_all(feed.text).is_ok();
    drop(lines);
    feed.end.store(is_fed, Ordering::SeqCst);
    is_fed
}

/// What a run over a lasting path leaves, when the path ended, and how often the clock was read.
#[derive(Drop)]
pub struct Lasted {
    pub ran: Ran,
    pub ended: io::Result<Instant>,
    pub readings: usize,
}

impl<R: FileHost, W: Own> Rig<'_, R, W> {
    /// A path without lines so far.
    pub fn lasting_path(&self) -> io::Result<Lasting> {
        let (end, lines) = io::pipe(self.rt)?;
        let path = format!(in self.alloc; "/dev/fd/{}", end.as_raw_fd())?;
        Ok(Lasting { path, lines, end })
    }

    /// Runs by a clock, over one path that lasts until it is fed. Answers what the run leaves, and when the path ended.
    pub fn run_lasting(
        &self,
        clock: &impl System,
        line: &str,
        out: impl Write + Send + Drop,
        feed: Feed<'_>,
    ) -> Result<(Ran, io::Result<Instant>), Fail> {
        let (rt, lasting) = (self.rt, self.lasting_path()?);
        let (lines, path) = (lasting.lines, lasting.path.as_str());
        let rig = self.over(clock);
        let ((is_fed, ended), ran) = join(
            rt,
            || (end_path(rt, lines, feed), Instant::now(rt)),
            move || rig.run_to(line, [path].as_slice(), NO_LINES, out),
        );
        if !is_fed {
            return Err(Fail::new("the path got no text"));
        }
        Ok((ran?, ended))
    }

    /// Runs by a clock that shows these times, over one path that gets this text and ends once all are shown.
    pub fn run_through(&self, moments: &[u64], line: &str, text: &[u8]) -> Result<Lasted, Fail> {
        let staged = Staged::new(self.rt, moments);
        let mut out = Vec::new(self.alloc);
        let feed = Feed::at(&staged.has_ended, text);
        let (ran, ended) = self.run_lasting(&staged, line, &mut out, feed)?;
        Ok(Lasted {
            ran: Ran { out, ..ran },
            ended,
            readings: staged.readings(),
        })
    }
}
