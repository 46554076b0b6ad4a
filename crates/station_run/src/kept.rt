//! What is kept of a closed station.
ghost use Rattle.std.specs.Prelude.{◌≡◌, IfErr, IfOk};
ghost use Rattle.station_history.specs.Start.{Start, log_of};
ghost use Rattle.station_run.specs.Stations.{KeepsRecent, start_of};
ghost use Rattle.station_paths.specs.Faults.{IsUnstarted};
ghost use Rattle.messages.specs.declared.faults.Fault.TheVariants as fault;

use messages::Fault;
use station_files::record_rest;
use station_journal::Journal;
use station_reporter::{Beside, Kept};
use std::alloc::Global;
use std::io::Write;
use streams::Sink;

/// Keeps what is recent in a closed station's journal. The record gets what no look has seen.
pub fn keep<T: Sink, A: Write>(
    alloc: Global,
    journal: &Journal,
    beside: &mut Beside<T, A>,
) -> Result<Kept, Fault<'static>>
    ensures kept { (start : Start) → journal.now.log ≡ log_of start journal.now.log.entries →
        IfOk result (λ kept.
        KeepsRecent start journal.now.log.entries (start_of kept) beside.old.record beside.new.record) }
    ensures no_memory { IfErr result (λ f. f ≡ fault.NoMemory) }
    ensures unstarted { IfErr result IsUnstarted }
    ensures same { IfErr result (λ _. beside.new.record ≡ beside.old.record) }
{
    let Ok(kept) = Kept::of(alloc, journal) else {
        return Err(Fault::NoMemory);
    };
    record_rest(
        &mut beside.record,
        &journal.entries(),
        kept.recent.entries.len() as u64,
    );
    Ok(kept)
}
