//! Receipts of accepted calls.
ghost use Rattle.std.specs.Prelude.{◌≡◌, ◌+◌, ◌<◌, length};
ghost use Rattle.station_journal.specs.Log.{IsLegal};
ghost use Rattle.station_history.specs.Start.{log_of};

use crate::station_name::StationName;
use station_history::Beginning;
use std::marker::{Model, PhantomData};

/// A promise that an accepted entry is in the journal of its station. Contracts see the journal up to that entry, which
/// is legal.
pub struct Receipt<L: StationName> {
    pub(crate) front: Beginning,
    // The station that gave it.
    pub(crate) station: PhantomData<L>,
}

impl<L: StationName> Model for Receipt<L> {
    ghost use Rattle.std.specs.Prelude.{◌≡◌, ◌<◌, length};
    ghost use Rattle.station_journal.specs.Log.{IsLegal};
    ghost use Rattle.station_history.specs.History.{Known};
    ghost use Rattle.station_history.specs.Start.{log_of};

    ghost Value = { Known };

    ghost view = { λ r. r.front };

    ghost invariant = { λ r. (0 < length r.front.entries)
        × (r.front.name ≡ L.start.history)
        × IsLegal (log_of L.start r.front.entries) };
}

impl<L: StationName> Receipt<L> {
    pub(crate) fn new(front: Beginning) -> Receipt<L>
        requires some { 0 < length front.entries }
        requires history { front.name ≡ L.start.history }
        requires legal { IsLegal (log_of L.start front.entries) }
        ensures { result ≡ front }
    {
        Receipt {
            front,
            station: PhantomData,
        }
    }

    /// The index of the entry in the journal, from 0. Entries that the station was resumed from come first.
    pub fn index(&self) -> u64
        ensures { result + 1 ≡ length self.now.entries }
    {
        self.front.count() - 1
    }
}

impl<L: StationName> Drop for Receipt<L> {
    fn drop(self) {
        let Receipt {
            front: _,
            station: _,
        } = self;
    }
}
