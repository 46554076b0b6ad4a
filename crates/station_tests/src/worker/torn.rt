//! A receiver whose source fails, beside one whose source ends.
ghost use Rattle.std.specs.Prelude.{◌≡◌};

use super::{IDENTIFICATION, Ran, VELOCITY, run_pair, tally};
use crate::comparing::same;
use crate::fakes::Site;
use station_lines::PumpFault;
use station_shared::StationName;
use std::alloc::Global;
use std::io;
use std::io::{BufReader, ErrorKind, Read};
use std::marker::Brand;
use std::process::Abort;
use std::sync::Wait;
use std::test::*;
use std::thread::Threads;
use streams::FromBuffer;

// Gives its bytes, and then fails or ends.
#[derive(Drop)]
pub(super) struct Torn {
    pub rest: &'static [u8],
    pub fails: bool,
}

impl Read for Torn {
    fn read(&mut self, buffer: &mut [u8]) -> io::Result<usize> {
        if self.rest.is_empty() && self.fails {
            return Err(io::Error::from(ErrorKind::BrokenPipe));
        }
        self.rest.read(buffer)
    }
}

// Runs two receivers over buffers.
pub(super) fn run_two<L: StationName + Send + Sync, R: Threads + Wait + Abort + Sync>(
    rt: &R,
    site: Site<8>,
    sources: [FromBuffer<Torn>; 2],
    turns: u32,
) -> Ran
    requires ledger { (L.name ≡ site.blank.name) × (L.parts ≡ site.seats) × (L.seats ≡ site.seats) }
    requires start { L.start ≡ record { history = site.places.history; limits = site.limits; resumed = 0 } }
{
    let workers = Vec::new(site.alloc);
    let (station, seats) = site.open::<L, R>(rt).expect(rt, "a station");
    run_pair(rt, station, seats, workers, sources, turns)
}

fn buffered(alloc: Global, rest: &'static [u8], fails: bool) -> io::Result<FromBuffer<Torn>> {
    Ok(FromBuffer::new(BufReader::new(alloc, Torn { rest, fails })?))
}

#[test]
fn failed_receiver_leaves_the_others(rt: HostRuntime) -> Result<(), Fail> {
    let torn = buffered(rt.alloc(), IDENTIFICATION, true)?;
    let whole = buffered(rt.alloc(), VELOCITY, false)?;
    let site = Site::new(&rt, rt.alloc(), 16, 2, 2);
    let ran = run_two::<Brand, _>(&rt, site, [torn, whole], 9);
    let (torn, whole) = (Err(PumpFault::Read(tally(0, 1, 0))), Ok(tally(0, 1, 0)));
    same(&rt, ran.answers, [Some(torn), Some(whole)]);
    Ok(())
}
