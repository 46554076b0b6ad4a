//! What the threads that read paths have of the system.

use crate::opened::Opened;
use messages::Fault;
use std::fmt::{self, Display, Formatter};
use std::io::Write;

/// What happens to a path that is opened again each time that it ends.
#[derive(Clone, Copy, Debug, PartialEq, Eq)]
pub enum PathEvent<'a> {
    /// This path, as it was given, ended.
    Ended(&'a str),
    /// A read of this path failed.
    Failed(&'a str),
    /// This path can't be opened for now.
    CannotOpen(&'a str),
    /// This path is open: again, or for the first time.
    Opened(&'a str),
}

impl Display for PathEvent<'_> {
    fn fmt<W: fmt::Write>(&self, f: &mut Formatter<W>) -> fmt::Result {
        match self {
            PathEvent::Ended(path) => write!(f, "{path} ended"),
            PathEvent::Failed(path) => write!(f, "{path} failed"),
            PathEvent::CannotOpen(path) => Fault::CannotOpen(path).fmt(f),
            PathEvent::Opened(path) => write!(f, "{path} opened"),
        }
    }
}

/// A runtime by which a thread opens its path again, and reports that on standard error.
pub trait PathHost {
    ghost use Rattle.std.specs.Prelude.{◌≡◌, IfSome};

    /// Opens the file or pipe at this path, and may wait for that. `None` where it can't be opened.
    fn open(&self, path: &String) -> Option<Opened>
        ensures { IfSome result (λ opened. opened.path.value ≡ path.now) };

    /// Reports an event of a path, as one line.
    fn report(&self, event: PathEvent<'_>);
}

impl PathHost for HostRuntime {
    fn open(&self, path: &String) -> Option<Opened> {
        Opened::open(self, path).ok()
    }

    fn report(&self, event: PathEvent<'_>) {
        let mut err = self.stderr();
        if let Ok(line) = format!(in self.alloc(); "groundstation: {event}\n") {
            let _ = err.write_all(line.as_bytes());
        }
    }
}
