//! The program over a runtime, and over the words and streams of a test.
use crate::bounds::{Own, System};
use crate::ran::{Ran, stream, words_of};
use crate::texts::{NO_LINES, ORIGIN};
use station_main::{Alarms, ProcessEnd, StandardError, exit_code, milliseconds_since_1970, obey};
use std::alloc::{AllocError, Global};
use std::io::{self, ErrorKind, Read, Write};

/// What a test runs the program with.
#[derive(Clone, Copy)]
pub struct Rig<'a, R, W> {
    /// Threads, waiting, the clock and files.
    pub rt: &'a R,
    /// What the threads that read paths have of the system.
    pub own: W,
    /// The memory.
    pub alloc: Global,
}

impl<R: System, W: Own> Rig<'_, R, W> {
    /// The same over another runtime.
    pub fn over<'b, S>(&self, rt: &'b S) -> Rig<'b, S, W> {
        let (own, alloc) = (self.own, self.alloc);
        Rig { rt, own, alloc }
    }

    /// Runs the program on the words of a line and these paths. What it answers has no output, since that goes to `out`. Where
    /// an allocation for the words is refused, they are made once more.
    pub fn run_to(
        &self,
        line: &str,
        paths: &[&str],
        input: impl Read + Drop,
        out: impl Write + Send + Drop,
    ) -> Result<Ran, AllocError> {
        let (rt, own, alloc) = (self.rt, self.own, self.alloc);
        let words = words_of(alloc, line, paths).or_else(|_| words_of(alloc, line, paths))?;
        let words = words.as_slice();
        let (mut ran, mut err) = (Ran::nothing(alloc), stream(alloc)?);
        let alarms = Alarms {
            output: &mut ran.output_alarm,
            stalls: &mut ran.stall_alarm,
            record: &mut ran.record_alarm,
            displays: &mut ran.display_alarm,
            limits: &mut ran.limit_alarm,
            paths: &mut ran.path_alarm,
        };
        let mut told = StandardError::new(&mut err);
        let status = obey(rt, own, alloc, words, ORIGIN, input, out, alarms, &mut told).status;
        Ok(Ran { status, err, ..ran })
    }

    /// Runs the program on the words of a line and these paths, without input.
    pub fn run(&self, line: &str, paths: &[&str]) -> Result<Ran, AllocError> {
        let mut out = stream(self.alloc)?;
        let ran = self.run_to(line, paths, NO_LINES, &mut out)?;
        Ok(Ran { out, ..ran })
    }

    /// Runs the program on the words of a line, with this input.
    pub fn ask(&self, line: &str, input: impl Read + Drop) -> Result<Ran, AllocError> {
        let mut out = stream(self.alloc)?;
        let ran = self.run_to(line, [].as_slice(), input, &mut out)?;
        Ok(Ran { out, ..ran })
    }

    /// What a process with these words leaves, and its standard error.
    pub fn end_of(&self, words: Result<Vec<String>, ErrorKind>) -> (ProcessEnd<Vec<u8>>, Vec<u8>) {
        let (rt, own, alloc) = (self.rt, self.own, self.alloc);
        let (out, mut err) = (Vec::new(alloc), Vec::new(alloc));
        let alarms = Alarms {
            output: io::sink(),
            stalls: io::sink(),
            record: io::sink(),
            displays: io::sink(),
            limits: io::sink(),
            paths: io::sink(),
        };
        let mut told = StandardError::new(&mut err);
        let (origin, told) = (milliseconds_since_1970(rt), &mut told);
        let ended = exit_code(rt, own, alloc, words, origin, NO_LINES, out, alarms, told);
        (ended, err)
    }
}
