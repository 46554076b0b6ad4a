//! What a seat keeps whether it looks or not: its number, its share of the accepted calls, and what it has seen.
ghost use Rattle.std.specs.Prelude.{◌≡◌, ◌+◌, ◌^◌, ◌<◌, ◌≤◌};
ghost use mathlib.Core.List.{IsPrefix};
ghost use Rattle.station_journal.specs.Log.{IsLegal};
ghost use Rattle.station_history.specs.Start.{log_of};
ghost use Rattle.station_shared.specs.Seats.{count_of_seat, own_entries};

use crate::station_name::StationName;
use station_history::Beginning;
use std::marker::Model;
use std::sync::ledger::{Book as LedgerBook, Share as LedgerShare};

/// A seat's number, its accepted calls, its share of all accepted calls, and what it has seen of the journal.
///
/// The share is as large as its accepted calls are many. What it has seen is legal.
pub(crate) struct SeatAccount<L: StationName> {
    pub(crate) number: u8,
    pub(crate) accepted: u64,
    pub(crate) share: LedgerShare<L>,
    pub(crate) front: Beginning,
}

impl<L: StationName> Model for SeatAccount<L> {
    ghost use Rattle.std.specs.Prelude.{◌≡◌, ◌≤◌};
    ghost use Rattle.station_journal.specs.Log.{IsLegal};
    ghost use Rattle.station_history.specs.Start.{log_of};
    ghost use Rattle.station_shared.specs.Seats.{Account, count_of_seat, own_entries};

    ghost Value = { Account };

    ghost view = { λ s. record {
      number = s.number;
      accepted = s.accepted;
      seen = s.front.entries;
    } };

    ghost invariant = { λ s. (s.share.parts ≡ 1)
        × (s.share.amount ≡ s.accepted)
        × (s.front.name ≡ L.start.history)
        × (s.accepted ≤ count_of_seat s.number (own_entries L.start s.front.entries))
        × IsLegal (log_of L.start s.front.entries) };
}

impl<L: StationName> SeatAccount<L> {
    /// Sets what was seen of the journal.
    pub(crate) fn set_seen(&mut self, front: Beginning)
        requires history { front.name ≡ L.start.history }
        requires later { IsPrefix self.old.seen front.entries }
        requires legal { IsLegal (log_of L.start front.entries) }
        ensures { self.new ≡ record {
          number = self.old.number;
          accepted = self.old.accepted;
          seen = front.entries;
        } }
    {
        self.front = front;
    }

    /// Counts an accepted call, in the seat's share and in the total, and sets what was seen of the journal.
    pub(crate) fn count(&mut self, total: &mut LedgerBook<L>, front: Beginning)
        requires room { self.old.accepted + 1 < 2 ^ 64 }
        requires history { front.name ≡ L.start.history }
        requires counted { self.old.accepted + 1 ≤ count_of_seat self.old.number (own_entries L.start front.entries) }
        requires legal { IsLegal (log_of L.start front.entries) }
        ensures account { self.new ≡ record {
          number = self.old.number;
          accepted = self.old.accepted + 1;
          seen = front.entries;
        } }
        ensures total { total.new.total ≡ total.old.total + 1 }
    {
        let SeatAccount {
            accepted,
            share,
            front: known,
            ..
        } = self;
        total.add(share, 1);
        *accepted += 1;
        *known = front;
    }

    /// Takes it apart: the share, and what was seen.
    pub(crate) fn into_parts(self) -> (LedgerShare<L>, Beginning)
        ensures share { (result.0.parts ≡ 1) × (result.0.amount ≡ self.accepted) }
        ensures front { (result.1.name ≡ L.start.history) × (result.1.entries ≡ self.seen) }
        ensures counted { self.accepted ≤ count_of_seat self.number (own_entries L.start self.seen) }
    {
        let SeatAccount {
            number: _,
            accepted: _,
            share,
            front,
        } = self;
        (share, front)
    }
}

impl<L: StationName> Drop for SeatAccount<L> {
    fn drop(self) {
        let SeatAccount {
            number: _,
            accepted: _,
            share: _,
            front: _,
        } = self;
    }
}
