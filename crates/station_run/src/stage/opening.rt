//! How a station begins: a receiver for each path, and the reporter's seat.
ghost use Rattle.std.specs.Prelude.{◌≡◌, IfErr, IfOk, length, map};
ghost use Rattle.station_shared.specs.Seats.{newcomer, newcomers};
ghost use Rattle.station_run.specs.Stations.{MayBegin, start_of};
ghost use Rattle.station_paths.specs.Faults.{IsUnstarted};

use crate::limits::{AIRCRAFT, limits};
use crate::threads::Receiver;
use messages::Fault;
use station_journal::{NoMemory, ResumeFault};
use station_paths::Input;
use station_reporter::Kept;
use station_shared::{Places, Seat, SharedCounts, Station, StationName, Worker};
use station_watch::Watch;
use std::alloc::Global;
use std::io::Write;
use std::sync::ledger::Blank;
use std::sync::{Arc, Wait};

/// What a station is made of: its ledger, which is blank, and the places of its tables.
pub(super) struct Foundation {
    pub blank: Blank,
    pub places: Places<AIRCRAFT>,
}

/// A station that is begun, with those who have its seats.
pub(super) struct Crew<'a, L: StationName, R: Wait> {
    pub station: Station<AIRCRAFT, L>,
    /// One for each input.
    pub receivers: Vec<Receiver<'a, R, L>>,
    /// The reporter's.
    pub seat: Seat<AIRCRAFT, L>,
}

/// Makes the station that goes on from the kept entries. Its receivers show what they count, if they are watched. Refused if
/// out of memory.
pub(super) fn begin<'a, L: StationName, R: Wait, A: Write>(
    rt: &R,
    alloc: Global,
    kept: Kept,
    inputs: Vec<Input<'a, R>>,
    watch: &Option<Watch<A>>,
    foundation: Foundation,
) -> Result<Crew<'a, L, R>, Fault<'static>>
    requires ledger { (foundation.blank.name ≡ L.name) × (foundation.blank.parts ≡ L.parts) }
    requires may { MayBegin L.start L.parts L.seats foundation.places (start_of kept) (length inputs.items) }
    ensures unstarted { IfErr result IsUnstarted }
    ensures many { IfOk result (λ made. length made.receivers.items ≡ length inputs.entry.items) }
    ensures sources { IfOk result (λ made. map (λ r. r.source) made.receivers.items ≡ inputs.entry.items) }
    ensures seats { IfOk result (λ made. map (λ r. r.seat) made.receivers.items
        ≡ newcomers kept.recent.entries.items (length inputs.entry.items)) }
    ensures reporter { IfOk result (λ made.
        made.seat ≡ newcomer kept.recent.entries.items (length inputs.entry.items)) }
{
    let Foundation { blank, places } = foundation;
    let count = inputs.len() as u8 + 1;
    let site = kept.site;
    let made = Station::<AIRCRAFT, L>::resume(
        rt,
        alloc,
        limits(site),
        count,
        kept.recent,
        blank,
        places,
    );
    let (station, mut seats) = match made {
        Ok(made) => made,
        Err(refused) => match refused.fault {
            ResumeFault::NoMemory => return Err(Fault::NoMemory),
            _ => unreachable!(),
        },
    };
    let Some(seat) = seats.pop() else {
        unreachable!()
    };
    match receivers(alloc, seats, inputs, watch) {
        Ok(receivers) => Ok(Crew {
            station,
            receivers,
            seat,
        }),
        Err(_) => {
            station.end(rt);
            Err(Fault::NoMemory)
        }
    }
}

// Makes a receiver for each input, with a seat of its own.
fn receivers<'a, L: StationName, R: Wait, A: Write>(
    alloc: Global,
    seats: Vec<Seat<AIRCRAFT, L>>,
    inputs: Vec<Input<'a, R>>,
    watch: &Option<Watch<A>>,
) -> Result<Vec<Receiver<'a, R, L>>, NoMemory>
    requires { length seats.items ≡ length inputs.items }
    ensures seats { IfOk result (λ made. map (λ r. r.seat) made.items ≡ seats.items) }
    ensures sources { IfOk result (λ made. map (λ r. r.source) made.items ≡ inputs.entry.items) }
{
    let mut receivers = Vec::new(alloc);
    for (seat, source) in seats.into_iter().zip(inputs) {
        let counts = counts_at(watch, receivers.len())?;
        receivers.push(Worker {
            seat,
            source,
            counts,
            answer: None,
        })?;
    }
    Ok(receivers)
}

// Where the receiver at this place shows what it counts, if it is watched.
fn counts_at<A: Write>(
    watch: &Option<Watch<A>>,
    place: usize,
) -> Result<Option<Arc<SharedCounts, Global>>, NoMemory> {
    match watch {
        Some(watch) => watch.counts_at(place),
        None => Ok(None),
    }
}
