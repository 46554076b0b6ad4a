//! The watch over the paths of a run.

use crate::receivers_json::receivers_text;
use crate::watched_path::WatchedPath;
use messages::StandardError;
use station_counts::SharedCounts;
use station_portions::{HandOver, PathState};
use std::alloc::{AllocError, Global};
use std::io::Write;
use std::sync::Arc;

/// Watches the paths of a run, and reports each change of theirs at once.
#[derive(Drop)]
pub struct Watch<A> {
    paths: Vec<WatchedPath>,
    // Milliseconds without a frame after which a path is silent.
    silence: u64,
    // The time of the last look, in milliseconds of the run's clock.
    now: u64,
    alarm: StandardError<A>,
}

impl<A: Write + Drop> Watch<A> {
    /// Watches these paths from the time at which the run's clock begins, in milliseconds. One that gives no frame for `seconds`
    /// is silent. Refused if out of memory.
    pub fn begin(
        alloc: Global,
        paths: &Vec<String>,
        seconds: u32,
        begins_at: u64,
        alarm: StandardError<A>,
    ) -> Result<Self, AllocError> {
        let mut watched = Vec::new(alloc);
        for path in paths {
            watched.push(WatchedPath::new(alloc, path.as_str(), begins_at)?)?;
        }
        Ok(Watch {
            paths: watched,
            silence: u64::from(seconds) * 1000,
            now: begins_at,
            alarm,
        })
    }
}

impl<A: Write> Watch<A> {
    /// Where the receiver of the path at this place shows what it counts. Refused if out of memory.
    pub fn counts_at(&self, place: usize) -> Result<Option<Arc<SharedCounts, Global>>, AllocError> {
        match self.paths.get(place) {
            Some(path) => Ok(Some(Arc::try_clone(&path.shared)?)),
            None => Ok(None),
        }
    }

    /// Looks at all paths at `now`, in milliseconds of the run's clock, and reports each one that has changed. `ends` has the
    /// source of each path, in their order.
    pub fn look(&mut self, ends: &Vec<Arc<HandOver, Global>>, now: u64) {
        self.now = now;
        let going_on = count_open(ends);
        for (path, end) in self.paths.iter_mut().zip(ends) {
            let state = end.state();
            let others = going_on.saturating_sub(usize::from(goes_on(state)));
            if let Some(change) = path.look(state, 0 < others, now, self.silence) {
                let (path, words) = (path.path.as_str(), change.words());
                self.alarm
                    .text(format_args!("groundstation: {path} {words}\n"));
            }
        }
    }

    /// The same at the time of the last look.
    pub fn look_again(&mut self, ends: &Vec<Arc<HandOver, Global>>) {
        self.look(ends, self.now);
    }

    /// What was found at the last look, as a line of JSON. `origin` is the time at which the run's clock shows 0, in milliseconds
    /// since 1970. Refused if out of memory.
    pub fn text(&self, alloc: Global, origin: u64) -> Result<Vec<u8>, AllocError> {
        receivers_text(alloc, &self.paths, origin, self.now)
    }
}

// How many paths go on.
fn count_open(ends: &Vec<Arc<HandOver, Global>>) -> usize {
    let mut count = 0usize;
    for end in ends {
        count = count.saturating_add(usize::from(goes_on(end.state())));
    }
    count
}

// Whether a path in this state goes on.
fn goes_on(state: PathState) -> bool {
    match state {
        PathState::Open | PathState::Waiting => true,
        PathState::Ended | PathState::Failed => false,
    }
}
