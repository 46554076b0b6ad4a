//! Receivers whose lines a station takes in part.
ghost use Rattle.std.specs.Prelude.{◌≡◌};

use super::{IDENTIFICATION, Ran, VELOCITY, run_pair};
use crate::comparing::same;
use crate::fakes::{Site, limits_met};
use station_shared::{LimitsMet, StationName};
use std::alloc::Global;
use std::marker::Brand;
use std::process::Abort;
use std::sync::Wait;
use std::thread::Threads;
use streams::FromRead;

// What two receivers leave whose sources end: how many of their calls were accepted and refused, how many entries there
// are, and which limits the calls met.
type Left = (u64, u64, u64, LimitsMet);

fn left(rt: &impl Abort, ran: &Ran) -> Left {
    let (mut accepted, mut refused) = (0u64, 0u64);
    for answer in ran.answers {
        let ended = answer.expect(rt, "an answer");
        let counted = ended.expect(rt, "a source without a fault");
        accepted = accepted.saturating_add(counted.accepted);
        refused = refused.saturating_add(counted.refused);
    }
    (accepted, refused, ran.entries, ran.limits)
}

fn sources(lines: [&'static [u8]; 2]) -> [FromRead<&'static [u8]>; 2] {
    let [first, second] = lines;
    [FromRead::new(first), FromRead::new(second)]
}

fn run_at_eight<L: StationName + Send + Sync, R: Threads + Wait + Abort + Sync>(
    rt: &R,
    site: Site<8>,
    lines: [&'static [u8]; 2],
) -> Ran
    requires ledger { (L.name ≡ site.blank.name) × (L.parts ≡ site.seats) × (L.seats ≡ site.seats) }
    requires start { L.start ≡ record { history = site.places.history; limits = site.limits; resumed = 0 } }
{
    let workers = Vec::new(site.alloc);
    let (station, seats) = site.open::<L, R>(rt).expect(rt, "a station");
    run_pair(rt, station, seats, workers, sources(lines), 9)
}

// Runs two receivers at a station for eight aircraft and this many entries.
fn run<R: Threads + Wait + Abort + Sync>(
    rt: &R,
    alloc: Global,
    entries: u8,
    lines: [&'static [u8]; 2],
) -> Left {
    let site = Site::new(rt, alloc, u32::from(entries), 2, 2);
    left(rt, &run_at_eight::<Brand, _>(rt, site, lines))
}

const THREE_LINES: &'static [u8] =
    b"*8D4840D6202CC371C32CE0576098;\n*8D40621D58C382D690C8AC2863A7;\n*8D485020994409940838175B284F;\n";

const THREE_OTHER_LINES: &'static [u8] =
    b"*8D40621D58C386435CC412692AD6;\n*8DA05F219B06B6AF189400CBC33F;\n*5D510AF9A8D8BC;\n";

#[test]
fn a_full_journal_takes_no_more_of_two_receivers(rt: HostRuntime) {
    let filled = run(&rt, rt.alloc(), 3, [THREE_LINES, THREE_OTHER_LINES]);
    same(&rt, filled, (3, 3, 3, limits_met(true, false)));
}

fn run_at_one<L: StationName + Send + Sync, R: Threads + Wait + Abort + Sync>(
    rt: &R,
    site: Site<1>,
    lines: [&'static [u8]; 2],
) -> Ran
    requires ledger { (L.name ≡ site.blank.name) × (L.parts ≡ site.seats) × (L.seats ≡ site.seats) }
    requires start { L.start ≡ record { history = site.places.history; limits = site.limits; resumed = 0 } }
{
    let workers = Vec::new(site.alloc);
    let (station, seats) = site.open::<L, R>(rt).expect(rt, "a station");
    run_pair(rt, station, seats, workers, sources(lines), 9)
}

#[test]
fn a_full_table_takes_no_more_of_two_receivers(rt: HostRuntime) {
    let site = Site::new(&rt, rt.alloc(), 16, 2, 2);
    let ran = run_at_one::<Brand, _>(&rt, site, [IDENTIFICATION, VELOCITY]);
    same(&rt, left(&rt, &ran), (1, 1, 1, limits_met(false, true)));
}

// Two frames of different aircraft. The last line lacks its line feed.
const TWO_LINES: &'static [u8] = b"*8D4840D6202CC371C32CE0576098;\n*8D485020994409940838175B284F;";

#[test]
fn a_last_line_without_its_line_feed_meets_a_full_journal(rt: HostRuntime) {
    let filled = run(&rt, rt.alloc(), 1, [b"", TWO_LINES]);
    same(&rt, filled, (1, 1, 1, limits_met(true, false)));
}

#[test]
fn a_frame_of_two_receivers_is_taken_once(rt: HostRuntime) {
    let heard = run(&rt, rt.alloc(), 16, [IDENTIFICATION, IDENTIFICATION]);
    same(&rt, heard, (1, 1, 1, limits_met(false, false)));
}
