//! Receivers that feed their lines at the same time.
ghost use Rattle.std.specs.Prelude.{◌≡◌, ◌<◌, ℕ, length, slice_index_or};
ghost use Rattle.station_shared.specs.Workers.{Worked};

use crate::held_pump::pump_held;
use crate::seat::Seat;
use crate::station::Station;
use crate::station_name::StationName;
use crossbeam_utils::rule::Protocol;
use station_counts::SharedCounts;
use station_desk::{Mark, PublishRule, PublishedTable};
use station_lines::{PumpFault, Tally};
use std::alloc::Global;
use std::sync::{Arc, Wait};
use std::thread;
use std::thread::Threads;
use streams::Source;

/// A seat, the source of its lines, what it counts if that is watched, and what its pump answered, once it ran.
#[derive(Drop)]
pub struct Worker<const N: usize, S: Source, L: StationName>
where
    PublishRule: Protocol<PublishedTable<N>, Option<Mark>>,
{
    pub seat: Seat<N, L>,
    pub source: S,
    pub counts: Option<Arc<SharedCounts, Global>>,
    pub answer: Option<Result<Tally, PumpFault>>,
}

// Where a worker shows what it counts: where nobody sees it, if it isn't watched.
fn shown_of<'a>(
    counts: &'a Option<Arc<SharedCounts, Global>>,
    unseen: &'a SharedCounts,
) -> &'a SharedCounts {
    match counts {
        Some(counts) => counts,
        None => unseen,
    }
}

// Pumps the one worker of a chunk.
fn run_part<const N: usize, S: Source, L: StationName, R: Wait>(
    rt: &R,
    station: &Station<N, L>,
    part: &mut [Worker<N, S, L>],
    turns: u32,
)
    requires { length part.old ≡ 1 }
    ensures { (d : _) →
        let old = slice_index_or part.old 0 d in
        let new = slice_index_or part.new 0 d in
        Worked L.start old.seat new.seat (S.state old.source) (S.state new.source) turns new.answer }
{
    let worker = &mut part[0];
    let unseen = SharedCounts::new();
    let shown = shown_of(&worker.counts, &unseen);
    let (seat, source) = (&mut worker.seat, &mut worker.source);
    let answer = pump_held(rt, station, seat, shown, source, turns);
    worker.answer = Some(answer);
}

/// Pumps each worker's source through its seat, in a thread of its own, and puts the answer into the worker.
///
/// Each pump makes at most `turns` reads. Where the system starts no thread, the caller's thread does that work.
/// Without workers it does nothing.
pub fn run_receivers<
    const N: usize,
    S: Source + Send,
    L: StationName + Send + Sync,
    R: Threads + Wait + Sync,
>(rt: &R, station: &Station<N, L>, workers: &mut [Worker<N, S, L>], turns: u32)
    ensures { (i : ℕ) (d : _) → i < length workers.old →
        let old = slice_index_or workers.old i d in
        let new = slice_index_or workers.new i d in
        Worked L.start old.seat new.seat (S.state old.source) (S.state new.source) turns new.answer }
{
    thread::for_each_chunk_mut(
        rt,
        workers,
        1,
        &|_, part: &mut [Worker<N, S, L>]|
            requires { length part.old ≡ 1 }
            ensures { (d : _) →
                let old = slice_index_or part.old 0 d in
                let new = slice_index_or part.new 0 d in
                Worked L.start old.seat new.seat (S.state old.source) (S.state new.source) turns new.answer }
        { run_part(rt, station, part, turns) },
    );
}
