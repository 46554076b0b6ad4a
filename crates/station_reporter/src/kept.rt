//! What one station hands on to the next, and one round of the job `run` to the next.
ghost use Rattle.std.specs.Prelude.{◌≡◌, IfOk, [], reverse};
ghost use Rattle.station_journal.specs.Log.{clock_of, past_of};
ghost use Rattle.station_journal.specs.Resume.{recent_base, recent_of};

use modes_cpr::Reference;
use station_journal::{Journal, NoMemory, Recent};
use std::alloc::Global;

/// What a station of the program may go on from.
#[derive(Drop)]
pub struct Kept {
    /// Entries that are at most 70,000 ms old, with the time before them.
    pub recent: Recent,
    /// The time of the last tick, in milliseconds.
    pub last_tick: u64,
    /// The place of the receivers, if it is given.
    pub site: Option<Reference>,
}

impl Kept {
    /// What the first round begins with: no entries, the time 0, and the place of the receivers.
    pub fn nothing(alloc: Global, site: Option<Reference>) -> Self
        ensures base { result.recent.base ≡ 0 }
        ensures entries { result.recent.entries.items ≡ [] }
        ensures last_tick { result.last_tick ≡ 0 }
        ensures site { result.site ≡ site }
    {
        Kept {
            recent: Recent {
                base: 0,
                entries: Vec::new(alloc),
            },
            last_tick: 0,
            site,
        }
    }

    /// Keeps the entries of the journal that are at most 70,000 ms old, its clock, and the place of its receivers. Refused if out of memory.
    pub fn of(alloc: Global, journal: &Journal) -> Result<Self, NoMemory>
        ensures base { IfOk result (λ kept.
            kept.recent.base ≡ recent_base journal.now.log.base (past_of journal.now.log)) }
        ensures entries { IfOk result (λ kept.
            reverse kept.recent.entries.items ≡ recent_of journal.now.log.base (past_of journal.now.log)) }
        ensures last_tick { IfOk result (λ kept. kept.last_tick ≡ clock_of journal.now.log) }
        ensures site { IfOk result (λ kept. kept.site ≡ journal.now.log.limits.site) }
    {
        Ok(Kept {
            recent: journal.recent(alloc)?,
            last_tick: journal.now(),
            site: journal.limits().site,
        })
    }
}
