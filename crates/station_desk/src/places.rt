//! A publishing end and its reader places, for a station that isn't made yet.
ghost use Rattle.std.specs.Prelude.{◌≡◌, ◌<◌, ◌≤◌, [], false, drop, length, Some, IfOk, IfErr, vec_len, vec_capacity};
ghost use Rattle.std.specs.List.{AllByRecursion};
ghost use Rattle.left_right.specs.Sides.{view};
ghost use Rattle.station_journal.specs.Log.{most_entries};
ghost use Rattle.station_journal.specs.Resume.{Refuses};
ghost use Rattle.station_book.specs.Matching.{Matches};
ghost use Rattle.station_history.specs.History.{base_of};
ghost use Rattle.station_desk.specs.Published.{IsOf};
ghost use Rattle.station_book.specs.JournalBook.{most_aircraft};
ghost use Rattle.station_desk.specs.declared.behind.Behind.TheVariants.{Nothing};

use crate::copies::Copies;
use crate::publish_rule::{PublishRule, ReaderPlace};
use crate::published::{Mark, NoOperation, Origin, PublishedTable};
use crate::publisher::{Publisher, begin, blank, blank_box, new_place, take_apart};
use crossbeam_utils::rule::Protocol;
use left_right::Absorb;
use station_history::History;
use station_journal::{Entry, Limits, NoMemory, ResumeFault};
use std::alloc::{AllocError, Global};
use std::marker::Model;
use std::sync::Wait;

/// A publishing end over a book without entries, and its reader places.
///
/// Places can't be dropped: [`Places::ready`] makes those of a station of them, and [`Places::end`] takes them apart.
pub struct Places<const N: usize>
where
    PublishedTable<N>: Absorb<NoOperation, State = ()>,
    PublishRule: Protocol<PublishedTable<N>, Option<Mark>>,
{
    base: u64,
    history: History,
    publisher: Publisher<N>,
    // In the place of the copy that takes calls.
    stand_in: Box<PublishedTable<N>>,
    places: Vec<ReaderPlace<N>>,
    ghost small: { N ≤ most_aircraft },
}

/// The history and the publishing end of a station that isn't made yet. Both copies are of one book, and nothing is pending.
///
/// It can't be dropped: [`PublishedDesk::over`](crate::PublishedDesk::over) makes a desk of it, and [`Opening::end`] takes
/// it apart.
pub struct Opening<const N: usize>
where
    PublishedTable<N>: Absorb<NoOperation, State = ()>,
    PublishRule: Protocol<PublishedTable<N>, Option<Mark>>,
{
    pub history: History,
    pub copies: Copies<N>,
    ghost small: { N ≤ most_aircraft },
    ghost front: { copies.shown.front ≡ history },
    ghost next: { copies.next.book ≡ copies.shown.book },
    ghost origin: { copies.next.origin ≡ copies.shown.origin },
    ghost closed: { (copies.behind ≡ Nothing) × (copies.is_open ≡ false) },
}

impl<const N: usize> Opening<N> {
    /// Takes it apart.
    pub fn end<R: Wait>(self, rt: &R) {
        let Opening { history: _, copies } = self;
        copies.end(rt);
    }
}

impl<const N: usize> Model for Places<N>
where
    PublishedTable<N>: Absorb<NoOperation, State = ()>,
    PublishRule: Protocol<PublishedTable<N>, Option<Mark>>,
{
    ghost use Rattle.std.specs.Prelude.{◌≡◌, [], None, drop, vec_len};
    ghost use Rattle.station_book.specs.State.{starting};
    ghost use Rattle.station_history.specs.History.{base_of};
    ghost use Rattle.station_desk.specs.Published.{Prepared};

    ghost Value = { Prepared };

    ghost view = { λ p. record {
      history = p.history.name;
      places = vec_len p.places;
      shown = p.publisher.desk.shown.value.book;
    } };

    ghost invariant = { λ p. (p.history.entries ≡ [])
        × (p.publisher.desk.shown.value.front ≡ p.history)
        × (p.publisher.desk.shown.value.book ≡ starting None p.base)
        × (p.publisher.desk.shown.value.origin ≡ None)
        × (base_of p.history.name ≡ p.base)
        × (drop p.publisher.behind p.publisher.log.items ≡ []) };
}

// Makes `count` reader places, each with the view of the publishing end. Refused when out of memory, and then the
// publishing end is gone.
fn with_places<const N: usize, R: Wait>(
    rt: &R,
    publisher: Publisher<N>,
    places: Vec<ReaderPlace<N>>,
    count: usize,
) -> Result<(Publisher<N>, Vec<ReaderPlace<N>>), AllocError>
    requires none { (places.items ≡ []) × (vec_len places ≡ 0) }
    requires room { count ≤ vec_capacity places }
    ensures same { IfOk result (λ t. (t.0.desk.shown ≡ publisher.entry.desk.shown)
        × (t.0.desk.spare ≡ publisher.entry.desk.spare)) }
    ensures pending { IfOk result (λ t. drop t.0.behind t.0.log.items ≡ drop publisher.entry.behind publisher.entry.log.items) }
    ensures places { IfOk result (λ t. (vec_len t.1 ≡ count)
        × AllByRecursion (λ p. view p.place ≡ view publisher.entry.desk.place) t.1.items) }
{
    let (mut publisher, mut places) = (publisher, places);
    for _made in 0..count {
        let Ok(place) = new_place(&mut publisher) else {
            take_apart(rt, publisher);
            return Err(AllocError);
        };
        places.push_reserved(place);
    }
    Ok((publisher, places))
}

impl<const N: usize> Places<N> {
    /// Makes a publishing end over a book without entries, with `seats` reader places, at least 1. The clock is at the
    /// base, in milliseconds. Refused when out of memory.
    pub fn new<R: Wait>(rt: &R, alloc: Global, base: u64, seats: u8) -> Result<Places<N>, NoMemory>
        requires seats { 0 < seats }
        requires small { N ≤ most_aircraft }
        ensures places { IfOk result (λ p. p.places ≡ seats) }
        ensures base { IfOk result (λ p. base_of p.history ≡ base) }
        ensures shown { IfOk result (λ p. Matches N base p.shown []) }
    {
        let places = Vec::with_capacity(alloc, usize::from(seats))?;
        let history = History::new(base);
        let stand_in = blank_box(alloc, &history, base)?;
        let first = blank(&history, base);
        let second = blank(&history, base);
        let publisher = Publisher::new(alloc, first, second, usize::from(seats))?;
        let (publisher, places) = with_places(rt, publisher, places, usize::from(seats))?;
        Ok(Places {
            base,
            history,
            publisher,
            stand_in,
            places,
        })
    }

    /// Shows a book that was given the entries, and makes each place anew for the station that begins with them.
    ///
    /// A refusal takes all of it apart:
    ///
    /// 1. `Unsound`: the entry at this place is the first that isn't sound under the limits.
    /// 2. `NoMemory`: it is out of memory.
    pub fn ready<R: Wait>(
        self,
        rt: &R,
        limits: Limits,
        entries: &[Entry],
    ) -> Result<(Opening<N>, Vec<ReaderPlace<N>>), ResumeFault>
        requires aircraft { limits.aircraft ≡ N }
        requires few { (length entries.now ≤ limits.entries) × (limits.entries ≤ most_entries) }
        ensures history { IfOk result (λ t. (t.0.history.name ≡ self.entry.history) × (t.0.history.entries ≡ entries.now)) }
        ensures origin { IfOk result (λ t. t.0.copies.shown.origin
            ≡ Some (record { limits = limits; resumed = length entries.now })) }
        ensures matched { IfOk result (λ t.
            Matches N (base_of self.entry.history) t.0.copies.shown.book entries.now) }
        ensures site { IfOk result (λ t. t.0.copies.shown.book.site ≡ limits.site) }
        ensures places { IfOk result (λ t. (vec_len t.1 ≡ self.entry.places)
            × AllByRecursion (λ p. IsOf (record { history = self.entry.history; limits = limits; resumed = length entries.now }) (view p.place)) t.1.items) }
        ensures err { IfErr result (λ fault. Refuses limits (base_of self.entry.history) entries.now fault) }
    {
        let Places {
            base,
            mut history,
            publisher,
            stand_in,
            mut places,
        } = self;
        let count = places.len();
        places.clear();
        history.add_all(entries);
        let origin = Origin {
            limits,
            resumed: entries.len() as u64,
        };
        let publisher = match begin(rt, publisher, base, history.front(), origin, entries) {
            Ok(publisher) => publisher,
            Err(place) => return Err(ResumeFault::Unsound(place)),
        };
        match with_places(rt, publisher, places, count) {
            Ok((publisher, places)) => {
                let copies = Copies::over(publisher, stand_in);
                Ok((Opening { history, copies }, places))
            }
            Err(_) => Err(ResumeFault::NoMemory),
        }
    }

    /// Takes them apart.
    pub fn end<R: Wait>(self, rt: &R) {
        let Places {
            base: _,
            history: _,
            publisher,
            stand_in: _,
            places: _,
        } = self;
        take_apart(rt, publisher);
    }
}
