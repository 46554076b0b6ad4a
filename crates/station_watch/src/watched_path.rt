//! A path that is watched, from look to look.
ghost use Rattle.std.specs.Prelude.{◌≡◌};
ghost use Rattle.station_watch.specs.Changes.{MoreRefused, NeverFall};

use station_counts::{Counts, Refusals, SharedCounts};
use station_portions::PathState;
use std::alloc::{AllocError, Global};
use std::sync::Arc;

// All lines of a path are faults, and there are this many: then it gives no frames.
const FIRST_LINES: u64 = 1_000;

/// A change of a path that is reported.
#[derive(Clone, Copy, Debug, PartialEq, Eq)]
pub enum PathChange {
    /// No frame came for as long as is asked for.
    Silent,
    /// It has waited for its writer for as long.
    NotOpen,
    /// A frame came again.
    Heard,
    /// All its lines so far are faults, and they are at least 1,000.
    NoFrames,
    /// It ended, and others go on.
    Ended,
    /// A read of it failed, and others go on.
    Failed,
}

impl PathChange {
    /// What is printed behind the path.
    pub fn words(self) -> &'static str {
        match self {
            PathChange::Silent => "silent",
            PathChange::NotOpen => "not open",
            PathChange::Heard => "heard",
            PathChange::NoFrames => "gives no frames",
            PathChange::Ended => "ended",
            PathChange::Failed => "failed",
        }
    }
}

/// A path that is watched, and what was found of it at the last look.
#[derive(Drop)]
pub(crate) struct WatchedPath {
    pub path: String,
    // Where its receiver shows what it counts.
    pub shared: Arc<SharedCounts, Global>,
    pub counts: Counts,
    pub state: PathState,
    // The time of its last frame, or of the beginning.
    pub heard_at: u64,
    // Whether it was last reported to be silent or not open.
    is_quiet: bool,
    // Whether it was found to be over.
    is_over: bool,
    // Whether it was reported that it gives no frames.
    has_no_frames: bool,
}

impl WatchedPath {
    // A path at the beginning.
    pub(crate) fn new(alloc: Global, path: &str, begins_at: u64) -> Result<Self, AllocError> {
        Ok(WatchedPath {
            path: String::from_str(alloc, path)?,
            shared: Arc::new(alloc, SharedCounts::new())?,
            counts: Counts::none(),
            state: PathState::Open,
            heard_at: begins_at,
            is_quiet: false,
            is_over: false,
            has_no_frames: false,
        })
    }

    // Looks at what the receiver has counted by now, at this state of the path. Answers what has changed. Where more has, the
    // next look answers it.
    pub(crate) fn look(
        &mut self,
        state: PathState,
        others_go_on: bool,
        now: u64,
        silence: u64,
    ) -> Option<PathChange>
        ensures counts { NeverFall self.old.counts self.new.counts }
        ensures path { self.new.path ≡ self.old.path }
    {
        let before = self.counts.frames;
        self.counts = raised(self.counts, self.shared.read());
        self.state = state;
        let has_heard = before < self.counts.frames;
        if has_heard {
            self.heard_at = now;
        }
        if has_heard && self.is_quiet {
            self.is_quiet = false;
            return Some(PathChange::Heard);
        }
        match state {
            PathState::Ended => self.end(PathChange::Ended, others_go_on),
            PathState::Failed => self.end(PathChange::Failed, others_go_on),
            PathState::Open => self.be_quiet(PathChange::Silent, now, silence),
            PathState::Waiting => self.be_quiet(PathChange::NotOpen, now, silence),
        }
    }

    // What is new of a path that is over.
    fn end(&mut self, change: PathChange, others_go_on: bool) -> Option<PathChange>
        ensures counts { self.new.counts ≡ self.old.counts }
        ensures path { self.new.path ≡ self.old.path }
    {
        let is_new = !self.is_over;
        self.is_over = true;
        if is_new && others_go_on {
            Some(change)
        } else {
            None
        }
    }

    // What is new of a path that goes on: it is quiet, or all its lines are faults.
    fn be_quiet(&mut self, change: PathChange, now: u64, silence: u64) -> Option<PathChange>
        ensures counts { self.new.counts ≡ self.old.counts }
        ensures path { self.new.path ≡ self.old.path }
    {
        self.is_over = false;
        if !self.is_quiet && silence <= now.saturating_sub(self.heard_at) {
            self.is_quiet = true;
            return Some(change);
        }
        let faults = self.counts.faults;
        if !self.has_no_frames && FIRST_LINES <= faults && faults == self.counts.lines {
            self.has_no_frames = true;
            return Some(PathChange::NoFrames);
        }
        None
    }
}

// These counts, or newer ones. They never fall, since their receiver alone writes them: so the greater are the newer.
fn raised(old: Counts, newer: Counts) -> Counts
    ensures { NeverFall old result }
{
    Counts {
        lines: old.lines.max(newer.lines),
        frames: old.frames.max(newer.frames),
        accepted: old.accepted.max(newer.accepted),
        refused: more_refused(old.refused, newer.refused),
        faults: old.faults.max(newer.faults),
    }
}

fn more_refused(old: Refusals, newer: Refusals) -> Refusals
    ensures { MoreRefused old result }
{
    Refusals {
        unsupported: old.unsupported.max(newer.unsupported),
        bad_parity: old.bad_parity.max(newer.bad_parity),
        unassigned: old.unassigned.max(newer.unassigned),
        unknown: old.unknown.max(newer.unknown),
        repeated: old.repeated.max(newer.repeated),
        full: old.full.max(newer.full),
    }
}
