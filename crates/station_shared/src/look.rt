//! A look at the published table.
ghost use Rattle.std.specs.Prelude.{◌≡◌, ◌<◌, ◌≤◌, ◌↔◌, IsTrue, false, length, MatchResult};
ghost use mathlib.Core.List.{IsPrefix};
ghost use Rattle.station_journal.specs.Table.{find_row};
ghost use Rattle.station_journal.specs.Log.{IsLegal, clock_of, table_of};
ghost use Rattle.station_history.specs.Start.{log_of};
ghost use Rattle.left_right.specs.Sides.{view as view_of};
ghost use Rattle.station_desk.specs.Published.{IsOfSheet, SawPublished, sheet_of};
ghost use Rattle.station_book.specs.JournalBook.{most_aircraft};
ghost use Rattle.station_shared.specs.Seats.{Looks};

use crate::seat::Seat;
use crate::seat_account::SeatAccount;
use crate::station_name::StationName;
use crossbeam_utils::rule::Protocol;
use station_desk::{LookingPlace, Mark, PublishRule, PublishedTable, ReaderPlace, SeesPublished};
use station_history::Beginning;
use station_journal::{Aircraft, PlacedRows, Rows};
use std::marker::Model;

/// A seat that looks. The table stays as it is until [`Look::done`] ends the look.
///
/// A look that is dropped drops its seat, without which the station can't be closed.
pub struct Look<const N: usize, L: StationName>
where
    PublishRule: Protocol<PublishedTable<N>, Option<Mark>>,
{
    pub(crate) account: SeatAccount<L>,
    pub(crate) looking: LookingPlace<N>,
    pub(crate) ghost small: { N ≤ most_aircraft },
}

impl<const N: usize, L: StationName> Model for Look<N, L>
where
    PublishRule: Protocol<PublishedTable<N>, Option<Mark>>,
{
    ghost use Rattle.std.specs.Prelude.{true, ◌≡◌};
    ghost use Rattle.left_right.specs.Sides.{view as view_of};
    ghost use Rattle.station_journal.specs.Log.{IsLegal};
    ghost use Rattle.station_book.specs.Matching.{Matches};
    ghost use Rattle.station_history.specs.History.{base_of};
    ghost use Rattle.station_history.specs.Start.{log_of};
    ghost use Rattle.station_shared.specs.Seats.{Seated, seat_over};
    ghost use Rattle.station_desk.specs.Published.{IsOf};

    ghost Value = { Seated };

    ghost view = { λ l. seat_over l.account true };

    ghost invariant = { λ l. IsOf L.start (view_of l.looking.place)
        × Matches N (base_of L.start.history) l.looking.part.value.book l.account.seen
        × IsLegal (log_of L.start l.account.seen)
        × (l.looking.part.value.book.site ≡ L.start.limits.site) };
}

// Lets a reader in at its place, to look at what is published.
fn enter<const N: usize>(place: ReaderPlace<N>) -> Result<LookingPlace<N>, ReaderPlace<N>>
    ensures { MatchResult result
        (λ looking. SawPublished N (view_of place.entry.place) (sheet_of looking.part.value) (view_of looking.place))
        (λ back. view_of back.place ≡ view_of place.entry.place) }
{
    place.enter_as::<SeesPublished>()
}

// Whether the published table has fewer entries than `known`. It has no fewer where it was published with all of them.
fn lacks<const N: usize>(looking: &LookingPlace<N>, known: &Beginning) -> bool
    ensures fewer { IsTrue result
        ↔ (length looking.now.part.value.front.entries < length known.now.entries) }
    ensures seen { (before : Mark) → IsOfSheet (sheet_of looking.now.part.value) before →
        IsPrefix known.now.entries before.front.entries → result ≡ false }
{
    looking.get().front.count() < known.count()
}

impl<const N: usize, L: StationName> Seat<N, L> {
    /// Looks at the published table, which contains all that the seat has seen. It neither waits nor allocates.
    ///
    /// Refused where:
    /// - the seat has no place among the readers;
    /// - no reader is let in;
    /// - the published table lacks an entry that the seat has seen.
    ///
    /// The seat comes back as it was then, with its place if it has one.
    pub fn look(self) -> Result<Look<N, L>, Seat<N, L>>
        ensures { MatchResult result (λ look. Looks L.start self look) (λ seat. seat ≡ self) }
    {
        let (mut account, place) = self.apart();
        let Some(place) = place else {
            return Err(Seat {
                account,
                place: None,
            });
        };
        match enter(place) {
            Ok(looking) => {
                if lacks(&looking, &account.front) {
                    let place = Some(looking.leave());
                    return Err(Seat { account, place });
                }
                account.front.begins(&looking.get().front);
                account.set_seen(looking.get().front.again());
                Ok(Look { account, looking })
            }
            Err(place) => Err(Seat {
                account,
                place: Some(place),
            }),
        }
    }
}

impl<const N: usize, L: StationName> Look<N, L> {
    /// The row of the aircraft with this 24-bit address, if it is live.
    pub fn get(&self, address: u32) -> Option<Aircraft>
        ensures { result ≡ find_row address (table_of (log_of L.start self.now.seen)) }
    {
        self.looking.get().book.get(address)
    }

    /// The time of the newest tick that is seen, in milliseconds. Without a tick it is the base of the journal: 0, or
    /// after a resume that of its entries.
    pub fn now(&self) -> u64
        ensures value { result ≡ clock_of (log_of L.start self.now.seen) }
        ensures legal { IsLegal (log_of L.start self.now.seen) }
    {
        self.looking.get().book.now()
    }

    /// How many entries are seen. Those that the station was resumed from count.
    pub fn entries(&self) -> u64
        ensures { result ≡ length self.now.seen }
    {
        self.looking.get().book.entries()
    }

    /// Ends the look. The seat has seen what the look showed, and keeps its place.
    pub fn done(self) -> Seat<N, L>
        ensures { result ≡ self }
    {
        let Look { account, looking } = self;
        let place = Some(looking.leave());
        Seat { account, place }
    }
}

impl<const N: usize, L: StationName> Rows for Look<N, L> {
    ghost use Rattle.station_journal.specs.Log.{table_of};
    ghost use Rattle.station_history.specs.Start.{log_of};

    ghost rows = { λ look. table_of (log_of L.start look.seen) };

    fn len(&self) -> usize {
        Rows::len(&self.looking.get().book)
    }

    fn row(&self, i: usize) -> Aircraft {
        Rows::row(&self.looking.get().book, i)
    }
}

impl<const N: usize, L: StationName> PlacedRows for Look<N, L> {
    ghost use Rattle.station_journal.specs.Log.{placed_of};
    ghost use Rattle.station_history.specs.Start.{log_of};

    ghost moments = { λ look. placed_of (log_of L.start look.seen) };

    fn placed(&self, i: usize) -> Option<u64> {
        PlacedRows::placed(&self.looking.get().book, i)
    }
}

impl<const N: usize, L: StationName> Drop for Look<N, L>
where
    PublishRule: Protocol<PublishedTable<N>, Option<Mark>>,
{
    fn drop(self) {
        let Look {
            account: _,
            looking,
        } = self;
        looking.leave();
    }
}
