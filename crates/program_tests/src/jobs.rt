//! The program over words and streams of these tests.

mod displays;
mod help;
mod json;
mod limits;
mod places;
mod refused_words;
mod replays;
mod words;

use crate::comparing::{holds, same};
use crate::trials::{Host, Trials};
use station_main::own_words;
use std::env::{Env, FillError};
use std::io::{ErrorKind, Write};
use std::process::ExitCode;
use test_support::{NO_MEMORY, Own, text};

// A process whose second word isn't UTF-8.
#[derive(Drop)]
struct NotText;

impl Env for NotText {
    fn arg(&self, i: usize, mut buffer: &mut [u8]) -> Result<usize, FillError> {
        let word: &[u8] = match i {
            0 => b"groundstation",
            1 => b"\xFF",
            _ => return Err(FillError::NotPresent),
        };
        buffer.write(word).map_err(|_| FillError::TooLong)
    }

    fn var(&self, _name: &str, _buffer: &mut [u8]) -> Result<usize, FillError> {
        Err(FillError::NotPresent)
    }

    fn var_at(&self, _i: usize, _buffer: &mut [u8]) -> Result<usize, FillError> {
        Err(FillError::NotPresent)
    }
}

impl<R: Host, W: Own> Trials<'_, R, W> {
    fn an_argument_that_is_not_utf8_is_refused(self) {
        let (ended, err) = self.rig.end_of(own_words(&(NotText, self.alloc)));
        let is_empty = ended.out.is_some_and(|out| out.is_empty());
        holds(self.rt, ended.code == ExitCode::from(2) && is_empty);
        let refused = "error: an argument is not UTF-8\n";
        same(self.rt, text(&err), refused);
    }

    fn arguments_without_memory_end_with_1(self) {
        let (ended, err) = self.rig.end_of(Err(ErrorKind::OutOfMemory));
        holds(
            self.rt,
            ended.code == ExitCode::from(1) && ended.out.is_none(),
        );
        same(self.rt, text(&err), NO_MEMORY);
    }
}

#[test]
fn an_argument_that_is_not_utf8_is_refused(rt: HostRuntime) {
    Trials::on(&rt).an_argument_that_is_not_utf8_is_refused()
}

#[test]
fn arguments_without_memory_end_with_1(rt: HostRuntime) {
    Trials::on(&rt).arguments_without_memory_end_with_1()
}
