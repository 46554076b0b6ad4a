//! What is known of the receivers, as JSON.

use crate::watched_path::WatchedPath;
use json::Writer;
use station_counts::Refusals;
use station_portions::PathState;
use std::alloc::{AllocError, Global};

// What is known of the receivers at `now`, in milliseconds of the run's clock, as a line of JSON. `origin` is the time at which
// that clock shows 0, in milliseconds since 1970.
pub(crate) fn receivers_text(
    alloc: Global,
    paths: &Vec<WatchedPath>,
    origin: u64,
    now: u64,
) -> Result<Vec<u8>, AllocError> {
    let mut out = Writer::new(Vec::new(alloc));
    out.begin_object()?;
    write_count(&mut out, "now", origin.saturating_add(now) / 1000)?;
    out.key("receivers")?;
    out.begin_array()?;
    for path in paths {
        write_path(&mut out, path, now)?;
    }
    out.end_array()?;
    out.end_object()?;
    let mut text = out.into_inner();
    text.push(b'\n')?;
    Ok(text)
}

// Writes what is known of a path as an object.
fn write_path(out: &mut Writer, path: &WatchedPath, now: u64) -> Result<(), AllocError> {
    let counts = path.counts;
    out.begin_object()?;
    write_text(out, "path", path.path.as_str())?;
    write_text(out, "state", word_of(path.state))?;
    write_count(out, "lines", counts.lines)?;
    write_count(out, "frames", counts.frames)?;
    write_count(out, "accepted", counts.accepted)?;
    write_refused(out, counts.refused)?;
    write_count(out, "faults", counts.faults)?;
    write_count(out, "since", now.saturating_sub(path.heard_at) / 1000)?;
    out.end_object()
}

// Writes how many frames were refused, by the reason.
fn write_refused(out: &mut Writer, refused: Refusals) -> Result<(), AllocError> {
    out.key("refused")?;
    out.begin_object()?;
    write_count(out, "unsupported", refused.unsupported)?;
    write_count(out, "bad_parity", refused.bad_parity)?;
    write_count(out, "unassigned", refused.unassigned)?;
    write_count(out, "unknown", refused.unknown)?;
    write_count(out, "repeated", refused.repeated)?;
    write_count(out, "full", refused.full)?;
    out.end_object()
}

// The word of a path's state.
fn word_of(state: PathState) -> &'static str {
    match state {
        PathState::Open => "open",
        PathState::Waiting => "waiting",
        PathState::Ended => "ended",
        PathState::Failed => "failed",
    }
}

// Writes a member of an object that is a number.
fn write_count(out: &mut Writer, name: &str, count: u64) -> Result<(), AllocError> {
    out.key(name)?;
    out.u64(count)
}

// Writes a member of an object that is a text.
fn write_text(out: &mut Writer, name: &str, text: &str) -> Result<(), AllocError> {
    out.key(name)?;
    out.string(text)
}
