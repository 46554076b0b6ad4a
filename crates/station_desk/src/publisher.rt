//! The publishing end, and how a station begins. Readers have one of two copies.
ghost use Rattle.std.specs.Prelude.{◌≡◌, ◌≤◌, drop, length, None, Some, OnOk, IfOk, IfErr};
ghost use Rattle.left_right.specs.Sides.{view};
ghost use Rattle.station_book.specs.State.{starting};
ghost use Rattle.station_book.specs.Matching.{Matches, book_after};
ghost use Rattle.station_journal.specs.Follow.{IsFirstUnsound};
ghost use Rattle.station_journal.specs.Log.{most_entries};
ghost use Rattle.station_history.specs.History.{base_of};
ghost use Rattle.station_desk.specs.Published.{Follows, sheet, sheet_of, mark_of, BeginsWith};

use crate::publish_rule::{PassesView, PublishRule, ReaderPlace, SeesPublished};
use crate::published::{Mark, NoOperation, Origin, PublishedTable};
use left_right::writer::Writer;
use station_book::Book;
use station_history::{Beginning, History};
use station_journal::Entry;
use std::alloc::{AllocError, Global};
use std::sync::Wait;

/// The publishing end.
pub(crate) type Publisher<const N: usize> = Writer<
    PublishedTable<N>,
    NoOperation,
    Option<Mark>,
    PublishRule,
>;

/// Takes the publishing end apart, once nobody reads.
pub(crate) fn take_apart<const N: usize, R: Wait>(rt: &R, publisher: Publisher<N>) {
    publisher.take(rt);
}

// Makes the copy that of a book given the entries in their order. Refused at the place of the first that doesn't fit.
fn fill<const N: usize>(
    copy: &mut PublishedTable<N>,
    base: u64,
    front: Beginning,
    origin: Origin,
    entries: &[Entry],
) -> Result<(), u64>
    requires few { length entries.now ≤ most_entries }
    ensures sheet { OnOk result (sheet_of copy.new ≡ sheet (book_after origin.limits.site base entries.now) front (Some origin)) }
    ensures matched { OnOk result (Matches N base copy.new.book entries.now) }
    ensures err { IfErr result (λ place. IsFirstUnsound N base entries.now place) }
{
    copy.book = Book::starting(origin.limits.site, base);
    copy.book.take_all(base, entries)?;
    copy.front = front;
    copy.origin = Some(origin);
    Ok(())
}

// Fills the spare copy as `fill` does, once nobody reads it. What is shown stays. A refusal takes the publishing end
// apart.
fn fill_spare<const N: usize, R: Wait>(
    rt: &R,
    publisher: Publisher<N>,
    base: u64,
    front: Beginning,
    origin: Origin,
    entries: &[Entry],
) -> Result<Publisher<N>, u64>
    requires few { length entries.now ≤ most_entries }
    ensures shown { IfOk result (λ p. p.desk.shown ≡ publisher.entry.desk.shown) }
    ensures view { IfOk result (λ p. view p.desk.place ≡ view publisher.entry.desk.place) }
    ensures sheet { IfOk result (λ p. sheet_of p.desk.spare.value
        ≡ sheet (book_after origin.limits.site base entries.now) front (Some origin)) }
    ensures matched { IfOk result (λ p. Matches N base p.desk.spare.value.book entries.now) }
    ensures pending { IfOk result (λ p. drop p.behind p.log.items ≡ drop publisher.entry.behind publisher.entry.log.items) }
    ensures err { IfErr result (λ place. IsFirstUnsound N base entries.now place) }
{
    let mut publisher = publisher;
    let (open, mut spare) = publisher.desk.open(rt);
    let filled = fill(&mut spare, base, front, origin, entries);
    publisher.desk = open.shelve(spare);
    match filled {
        Ok(()) => Ok(publisher),
        Err(place) => {
            take_apart(rt, publisher);
            Err(place)
        }
    }
}

// Shows the spare copy in the place of the other, once nobody reads it.
fn show_spare<const N: usize, R: Wait>(rt: &R, publisher: Publisher<N>) -> Publisher<N>
    requires { Follows N (sheet_of publisher.desk.shown.value) (sheet_of publisher.desk.spare.value) }
    ensures shown { result.desk.shown.value ≡ publisher.entry.desk.spare.value }
    ensures spare { result.desk.spare.value ≡ publisher.entry.desk.shown.value }
    ensures view { view result.desk.place
        ≡ mark_of publisher.entry.desk.spare.value.front publisher.entry.desk.spare.value.origin }
    ensures pending { drop result.behind result.log.items ≡ drop publisher.entry.behind publisher.entry.log.items }
{
    let mut publisher = publisher;
    let (open, spare) = publisher.desk.open(rt);
    publisher.desk = open.show_as::<SeesPublished>(spare);
    publisher
}

// Makes the spare copy's book and origin those of the shown one, once nobody reads it.
fn copy_shown<const N: usize, R: Wait>(rt: &R, publisher: Publisher<N>) -> Publisher<N>
    ensures shown { result.desk.shown ≡ publisher.entry.desk.shown }
    ensures view { view result.desk.place ≡ view publisher.entry.desk.place }
    ensures spare { (result.desk.spare.value.book ≡ publisher.entry.desk.shown.value.book)
        × (result.desk.spare.value.origin ≡ publisher.entry.desk.shown.value.origin) }
    ensures pending { drop result.behind result.log.items ≡ drop publisher.entry.behind publisher.entry.log.items }
{
    let mut publisher = publisher;
    let (open, mut spare) = publisher.desk.open(rt);
    let shown = open.shown.get();
    spare.book.copy_from(&shown.book);
    spare.origin = shown.origin;
    publisher.desk = open.shelve(spare);
    publisher
}

/// Begins a station: makes both copies those of a book that was given the entries, and shows them. Refused at the place
/// of the first entry that doesn't fit, and then the publishing end is gone.
pub(crate) fn begin<const N: usize, R: Wait>(
    rt: &R,
    publisher: Publisher<N>,
    base: u64,
    front: Beginning,
    origin: Origin,
    entries: &[Entry],
) -> Result<Publisher<N>, u64>
    requires new { publisher.desk.shown.value.origin ≡ None }
    requires few { length entries.now ≤ most_entries }
    requires front { (front.entries ≡ entries.now) × (base_of front.name ≡ base) }
    requires origin { BeginsWith N origin entries.now }
    ensures shown { IfOk result (λ p. sheet_of p.desk.shown.value
        ≡ sheet (book_after origin.limits.site base entries.now) front (Some origin)) }
    ensures matched { IfOk result (λ p. Matches N base p.desk.shown.value.book entries.now) }
    ensures site { IfOk result (λ p. p.desk.shown.value.book.site ≡ origin.limits.site) }
    ensures spare { IfOk result (λ p. (p.desk.spare.value.book ≡ p.desk.shown.value.book)
        × (p.desk.spare.value.origin ≡ p.desk.shown.value.origin)) }
    ensures view { IfOk result (λ p. view p.desk.place
        ≡ Some (record { front = front; origin = origin })) }
    ensures pending { IfOk result (λ p. drop p.behind p.log.items ≡ drop publisher.entry.behind publisher.entry.log.items) }
    ensures err { IfErr result (λ place. IsFirstUnsound N base entries.now place) }
{
    let publisher = fill_spare(rt, publisher, base, front, origin, entries)?;
    let publisher = show_spare(rt, publisher);
    Ok(copy_shown(rt, publisher))
}

/// A copy with a book without entries, of no station yet.
pub(crate) fn blank<const N: usize>(history: &History, base: u64) -> PublishedTable<N>
    ensures book { result.book ≡ starting None base }
    ensures front { result.front ≡ history.now }
    ensures origin { result.origin ≡ None }
{
    PublishedTable {
        book: Book::starting(None, base),
        front: history.front(),
        origin: None,
    }
}

/// Such a copy on the heap. Refused when out of memory.
#[inline(never)]
pub(crate) fn blank_box<const N: usize>(
    alloc: Global,
    history: &History,
    base: u64,
) -> Result<Box<PublishedTable<N>>, AllocError> {
    Ok(Box::new(alloc, blank(history, base))?)
}

// One more reader place, which knows nothing yet.
fn blank_place<const N: usize>(publisher: &Publisher<N>) -> Result<ReaderPlace<N>, AllocError>
    ensures table { IfOk result (λ place. place.place.table_id ≡ publisher.now.desk.place.table_id) }
{
    publisher.factory().reader()
}

// Gives a reader place what the publishing end knows.
fn pass_view<const N: usize>(publisher: &mut Publisher<N>, place: &mut ReaderPlace<N>)
    requires table { place.old.place.table_id ≡ publisher.old.desk.place.table_id }
    ensures same { (publisher.new.desk.shown ≡ publisher.old.desk.shown)
        × (publisher.new.desk.spare ≡ publisher.old.desk.spare)
        × (view publisher.new.desk.place ≡ view publisher.old.desk.place) }
    ensures pending { drop publisher.new.behind publisher.new.log.items ≡ drop publisher.old.behind publisher.old.log.items }
    ensures known { view place.new.place ≡ view publisher.old.desk.place }
{
    place.learn::<PassesView>(publisher.desk.tell::<PassesView>());
}

/// One more reader place, which knows what the publishing end knows. Refused when out of memory.
pub(crate) fn new_place<const N: usize>(
    publisher: &mut Publisher<N>,
) -> Result<ReaderPlace<N>, AllocError>
    ensures same { (publisher.new.desk.shown ≡ publisher.old.desk.shown)
        × (publisher.new.desk.spare ≡ publisher.old.desk.spare)
        × (view publisher.new.desk.place ≡ view publisher.old.desk.place) }
    ensures pending { drop publisher.new.behind publisher.new.log.items ≡ drop publisher.old.behind publisher.old.log.items }
    ensures known { IfOk result (λ place. view place.place ≡ view publisher.old.desk.place) }
{
    let mut place = blank_place(publisher)?;
    pass_view(publisher, &mut place);
    Ok(place)
}
