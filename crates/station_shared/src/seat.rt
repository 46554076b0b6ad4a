//! A seat at a station.
ghost use Rattle.std.specs.Prelude.{◌≡◌, ◌≤◌, IfSome, is_some};
ghost use Rattle.station_journal.specs.Log.{IsLegal};
ghost use Rattle.station_history.specs.Start.{log_of};
ghost use Rattle.left_right.specs.Sides.{view as view_of};
ghost use Rattle.station_shared.specs.Seats.{HasLearned, count_of_seat, own_entries, seat_over, account_of};
ghost use Rattle.station_desk.specs.Published.{IsOf};
ghost use Rattle.station_book.specs.JournalBook.{most_aircraft};

pub use crate::receipt::Receipt;
use crate::seat_account::SeatAccount;
use crate::station_name::StationName;
use crossbeam_utils::rule::Protocol;
use station_desk::{Mark, PublishRule, PublishedTable, ReaderPlace};
use std::marker::Model;

/// The right to call a station, as one of its seats. A seat that has a place among the readers can also look.
///
/// Contracts see its number, how many of its calls were accepted, whether it has a place, and what it has seen of the
/// journal.
pub struct Seat<const N: usize, L: StationName>
where
    PublishRule: Protocol<PublishedTable<N>, Option<Mark>>,
{
    pub(crate) account: SeatAccount<L>,
    pub(crate) place: Option<ReaderPlace<N>>,
    pub(crate) ghost small: { N ≤ most_aircraft },
}

impl<const N: usize, L: StationName> Model for Seat<N, L>
where
    PublishRule: Protocol<PublishedTable<N>, Option<Mark>>,
{
    ghost use Rattle.std.specs.Prelude.{IfSome, is_some};
    ghost use Rattle.left_right.specs.Sides.{view as view_of};
    ghost use Rattle.station_shared.specs.Seats.{Seated, seat_over};
    ghost use Rattle.station_desk.specs.Published.{IsOf};

    ghost Value = { Seated };

    ghost view = { λ s. seat_over s.account (is_some s.place) };

    ghost invariant = { λ s. IfSome s.place (λ p. IsOf L.start (view_of p.place)) };
}

impl<const N: usize, L: StationName> Seat<N, L> {
    /// The number of the seat, from 0. It is below the number of seats, and no other seat of the station has it.
    pub fn number(&self) -> u8
        ensures { result ≡ self.now.number }
    {
        self.account.number
    }

    /// How many of its calls were accepted since the station began. What it has seen is legal, and contains at least as
    /// many entries of its number.
    pub fn accepted(&self) -> u64
        ensures value { result ≡ self.now.accepted }
        ensures seen { result ≤ count_of_seat self.now.number (own_entries L.start self.now.seen) }
        ensures legal { IsLegal (log_of L.start self.now.seen) }
    {
        self.account.accepted
    }

    /// Learns from a receipt of the same station: from now on the seat has seen the receipt's entry, and all before it.
    pub fn learn(&mut self, receipt: &Receipt<L>)
        ensures told { HasLearned self.old self.new receipt.now.entries }
        ensures legal { IsLegal (log_of L.start self.new.seen) }
    {
        let longer = self.account.front.longer(&receipt.front);
        self.account.set_seen(longer);
    }

    /// Learns from another seat of the same station: from now on it has seen all that the other has.
    pub fn learn_from(&mut self, other: &Seat<N, L>)
        ensures told { HasLearned self.old self.new other.now.seen }
        ensures legal { IsLegal (log_of L.start self.new.seen) }
    {
        let longer = self.account.front.longer(&other.account.front);
        self.account.set_seen(longer);
    }

    /// Takes the seat apart: what it keeps whether it looks or not, and its place among the readers, if it has one.
    pub(crate) fn apart(self) -> (SeatAccount<L>, Option<ReaderPlace<N>>)
        ensures account { seat_over result.0 (is_some result.1) ≡ self }
        ensures place { IfSome result.1 (λ p. IsOf L.start (view_of p.place)) }
    {
        let Seat { account, place } = self;
        (account, place)
    }

    /// What the seat keeps whether it looks or not. Its place among the readers is dropped.
    pub(crate) fn into_account(self) -> SeatAccount<L>
        ensures { result ≡ account_of self }
    {
        let Seat { account, place: _ } = self;
        account
    }
}

impl<const N: usize, L: StationName> Drop for Seat<N, L>
where
    PublishRule: Protocol<PublishedTable<N>, Option<Mark>>,
{
    fn drop(self) {
        let Seat {
            account: _,
            place: _,
        } = self;
    }
}
