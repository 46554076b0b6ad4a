//! Paths that are opened by the threads that read them.

use crate::opened::Opened;
use crate::path_host::{PathEvent, PathHost};
use station_portions::{PathEnd, Reopen};
use std::sync::Wait;
use std::thread;
use std::time::{Clock, Duration};

// How many seconds a path stays closed before it is opened again.
const PAUSE: u64 = 1;

/// Opens a path once, which may wait for that. One that can't be opened is reported, and then each read of it fails.
#[derive(Drop)]
pub struct OpeningLater<W> {
    pub own: W,
    pub path: String,
}

impl<W: PathHost> Reopen<Opened> for OpeningLater<W> {
    ghost use Rattle.std.specs.Prelude.{◌≡◌};

    ghost opens = { λ old end opened new. (opened.path.value ≡ old.path) × (new.path ≡ old.path) };

    fn reopen(&mut self, _end: PathEnd) -> Opened {
        match self.own.open(&self.path) {
            Some(opened) => opened,
            None => {
                self.own.report(PathEvent::CannotOpen(self.path.as_str()));
                Opened::lost(&self.path)
            }
        }
    }
}

// Why a path gives no bytes.
#[derive(Clone, Copy, Debug, PartialEq, Eq)]
enum Trouble {
    CannotOpen,
    Failed,
}

/// Opens a path again one second after it ended, until it gives a byte, and reports both its end and that byte. Meanwhile what is
/// wrong with it is reported once, and the path is tried each second. An opening that ends without a byte isn't reported.
#[derive(Drop)]
pub struct Reopening<W> {
    pub own: W,
    pub path: String,
    /// Whether nothing was open yet. Then the first byte is reported only if something was wrong before.
    pub is_first: bool,
}

impl<W: Wait + Clock + PathHost> Reopening<W> {
    ghost use Rattle.std.specs.Prelude.{◌≡◌, IfOk, IfSome};

    // Reports how an opening ended, and waits before the next. Answers what was reported to be wrong.
    fn pause_after(&self, end: PathEnd) -> Option<Trouble> {
        let path = self.path.as_str();
        let (event, trouble) = match end {
            PathEnd::AtEnd => (PathEvent::Ended(path), None),
            PathEnd::ReadFailed => (PathEvent::Failed(path), Some(Trouble::Failed)),
        };
        self.own.report(event);
        self.pause();
        trouble
    }

    // Waits for as long as a path stays closed.
    fn pause(&self) {
        thread::sleep(&self.own, Duration::from_secs(PAUSE));
    }

    // Opens the path, and reads its first byte. `None` where it ended before that.
    fn begin(&self) -> Result<Option<Opened>, Trouble>
        ensures { IfOk result (λ begun. IfSome begun (λ opened. opened.path.value ≡ self.now.path)) }
    {
        let Some(opened) = self.own.open(&self.path) else {
            return Err(Trouble::CannotOpen);
        };
        match opened.begun() {
            Ok(begun) => Ok(begun),
            Err(_) => Err(Trouble::Failed),
        }
    }

    // Opens the path until it gives a byte. Answers also what was last reported to be wrong before that.
    fn await_byte(&self, before: Option<Trouble>) -> (Opened, Option<Trouble>)
        ensures { result.0.path.value ≡ self.now.path }
    {
        let mut reported = before;
        for _ in self.own.forever() {
            match self.begin() {
                Ok(Some(opened)) => return (opened, reported),
                Ok(None) => {}
                Err(trouble) => {
                    self.report_once(trouble, &mut reported);
                }
            }
            self.pause();
        }
        unreachable!()
    }

    // Reports what is wrong, unless that is what was reported last.
    fn report_once(&self, trouble: Trouble, reported: &mut Option<Trouble>) {
        if *reported == Some(trouble) {
            return;
        }
        *reported = Some(trouble);
        let path = self.path.as_str();
        self.own.report(match trouble {
            Trouble::CannotOpen => PathEvent::CannotOpen(path),
            Trouble::Failed => PathEvent::Failed(path),
        });
    }
}

impl<W: Wait + Clock + PathHost> Reopen<Opened> for Reopening<W> {
    ghost use Rattle.std.specs.Prelude.{◌≡◌};

    // each opening is of the same path
    ghost opens = { λ old end opened new. (opened.path.value ≡ old.path) × (new.path ≡ old.path) };

    fn reopen(&mut self, end: PathEnd) -> Opened {
        let is_first = self.is_first;
        self.is_first = false;
        let before = if is_first {
            None
        } else {
            self.pause_after(end)
        };
        let (opened, trouble) = self.await_byte(before);
        if trouble.is_some() || !is_first {
            self.own.report(PathEvent::Opened(self.path.as_str()));
        }
        opened
    }
}
