//! How the paths of a round ended.
ghost use Rattle.std.specs.Prelude.{◌≡◌, ◌∷◌, ◌≤◌, ◌⊎◌, [], List, None, Some, false, is_some, map, max, true};
ghost use Rattle.std.specs.String.{string_bytes};
ghost use Rattle.clap.specs.Words.{Text};
ghost use Rattle.station_portions.specs.Giving.{state_of};
ghost use Rattle.station_portions.specs.declared.message.PathEnd.TheVariants.{AtEnd, ReadFailed};
ghost use Rattle.station_paths.specs.Inputs.{AllTakeFrom, GaveAll, GaveAllBut, IsFinished, IsUnfinished, TakesFrom, unfinished_status};
ghost use Rattle.messages.specs.Telling.{Tells, told_of, unfinished_lines};

use crate::paths::{Input, PathThread, ReaderHandle};
use messages::{Fault, StandardError, tell};
use station_portions::PathEnd;
use station_reporter::Stopped;
use std::io::{Read, Write};
use std::sync::Wait;
use std::thread::Threads;

/// Joins the threads of the paths that have ended. The thread of another path goes on until its path or the program ends.
///
/// Reports each path that goes on, and each whose read failed, unless the status says that a fault was printed before. Of each
/// other one all was given that its thread sent. Where the run is ended by a pipe, no path that goes on is reported. Answers the
/// status, 0 or 1.
pub fn tell_ends<R: Threads + Wait, I: Read + Drop, E: Write>(
    rt: &R,
    inputs: Vec<Input<'_, R>>,
    threads: Vec<PathThread<'_, I>>,
    stopped: Option<Stopped>,
    before: u8,
    err: &mut StandardError<E>,
) -> u8
    requires take { AllTakeFrom (map (λ t. t.handle.promise) threads.items) (map state_of inputs.items) }
    requires before { before ≤ 1 }
    ensures ends { (unfinished : List Text) ×
        GaveAllBut (is_some stopped) (map (λ t. string_bytes t.path.now) threads.entry.items) (map (λ t. I.remaining t.handle.promise.from.value) threads.entry.items)
        (map state_of inputs.entry.items) unfinished ×
        Tells (told_of E.contents err.old) (told_of E.contents err.new) (unfinished_lines before unfinished) ×
        (result ≡ max before (unfinished_status unfinished)) }
    ensures most { result ≤ 1 }
{
    let mut status = before;
    for (input, thread) in inputs.into_iter().zip(threads) {
        status = status.max(tell_end_of(rt, input, thread, stopped, before, err));
    }
    status
}

// Joins the thread of one path, if that has ended, and reports if it wasn't read to its end. Answers 1 then, and else 0. A path
// that goes on is passed over where the run is ended by a pipe.
fn tell_end_of<R: Threads + Wait, I: Read + Drop, E: Write>(
    rt: &R,
    input: Input<'_, R>,
    thread: PathThread<'_, I>,
    stopped: Option<Stopped>,
    before: u8,
    err: &mut StandardError<E>,
) -> u8
    requires take { TakesFrom thread.handle.promise (state_of input) }
    ensures most { result ≤ 1 }
    ensures whole { result ≡ 0 → IsFinished (is_some stopped) (I.remaining thread.entry.handle.promise.from.value) (state_of input.entry)
        × (told_of E.contents err.new ≡ told_of E.contents err.old) }
    ensures unfinished { result ≡ 1 → IsUnfinished (I.remaining thread.entry.handle.promise.from.value) (state_of input.entry) }
    ensures told { result ≡ 1 → Tells (told_of E.contents err.old) (told_of E.contents err.new)
        (unfinished_lines before (string_bytes thread.entry.path.now ∷ [])) }
{
    let PathThread { path, handle } = thread;
    if is_left(stopped, input.end()) {
        return 0;
    }
    if gave_all(rt, input, handle) {
        return 0;
    }
    tell_unfinished(path, before, err);
    1
}

// Whether a path with this end goes on, where the run is ended by a pipe.
fn is_left(stopped: Option<Stopped>, end: Option<PathEnd>) -> bool
    ensures { result ≡ true → (is_some stopped ≡ true) × (end ≡ None) }
{
    match end {
        Some(_) => false,
        None => stopped.is_some(),
    }
}

// Reports that a path wasn't read to its end, unless a fault was printed before.
fn tell_unfinished<E: Write>(path: &String, before: u8, err: &mut StandardError<E>)
    ensures { Tells (told_of E.contents err.old) (told_of E.contents err.new)
        (unfinished_lines before (string_bytes path.now ∷ [])) }
{
    if before > 0 {
        return;
    }
    tell(err, Fault::Unfinished(path.as_str()));
}

// Joins the thread of a path that is over, and answers whether it has ended. Then, and also where a read of it failed, its
// source gave all that the thread sent.
fn gave_all<R: Threads + Wait, I: Read + Drop>(
    rt: &R,
    input: Input<'_, R>,
    handle: ReaderHandle<I>,
) -> bool
    requires take { TakesFrom handle.promise (state_of input) }
    ensures whole { result ≡ true → GaveAll AtEnd (I.remaining handle.promise.from.value) (state_of input.entry) }
    ensures unfinished { result ≡ false → IsUnfinished (I.remaining handle.promise.from.value) (state_of input.entry) }
{
    let mut input = input;
    let is_over = input.gave_path(rt, handle);
    both(is_over, is_at_end(input.end()))
}

// Whether a path ended, and no read of it failed.
fn is_at_end(end: Option<PathEnd>) -> bool
    ensures yes { result ≡ true → end ≡ Some AtEnd }
    ensures no { result ≡ false → (end ≡ None) ⊎ (end ≡ Some ReadFailed) }
{
    match end {
        Some(PathEnd::AtEnd) => true,
        Some(PathEnd::ReadFailed) => false,
        None => false,
    }
}

// Whether both are so.
fn both(one: bool, other: bool) -> bool
    ensures yes { result ≡ true → (one ≡ true) × (other ≡ true) }
    ensures no { result ≡ false → (one ≡ false) ⊎ (other ≡ false) }
{
    one && other
}
