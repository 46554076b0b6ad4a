//! The copies of a running book: the one that readers are shown, and the next one, which takes calls meanwhile.
ghost use Rattle.std.specs.Prelude.{◌≡◌, ◌<◌, [], true, false, drop};
ghost use Rattle.station_desk.specs.declared.behind.Behind.TheVariants.{Nothing};
ghost use Rattle.station_desk.specs.Published.{Follows, sheet_of};
ghost use Rattle.station_desk.specs.Copies.{next_shown, opened, turned, with_call};

use crate::behind::{Behind, bring_up};
use crate::publish_rule::{PublishRule, SeesPublished};
use crate::published::{Mark, NoOperation, PublishedTable};
use crate::publisher::{Publisher, take_apart};
use core::mem::replace_with;
use crossbeam_utils::rule::Protocol;
use left_right::Absorb;
use station_book::{Book, Call};
use station_history::Beginning;
use std::marker::Model;
use std::sync::Wait;

/// The publishing end with its two copies, and a third one in the place of the copy that takes calls.
///
/// They can't be dropped: [`Copies::end`] takes them apart.
pub struct Copies<const N: usize>
where
    PublishedTable<N>: Absorb<NoOperation, State = ()>,
    PublishRule: Protocol<PublishedTable<N>, Option<Mark>>,
{
    publisher: Publisher<N>,
    // While calls are taken it is the next copy, and the publishing end has the stand-in. Else it is the stand-in.
    third: Box<PublishedTable<N>>,
    behind: Behind,
    is_open: bool,
}

impl<const N: usize> Model for Copies<N>
where
    PublishedTable<N>: Absorb<NoOperation, State = ()>,
    PublishRule: Protocol<PublishedTable<N>, Option<Mark>>,
{
    ghost use Rattle.std.specs.Prelude.{◌≡◌, ◌<◌, [], drop, if◌then◌else◌};
    ghost use Rattle.station_desk.specs.Copies.{CopiesState};
    ghost use Rattle.station_desk.specs.Published.{sheet_of};

    ghost Value = { CopiesState };

    ghost view = { λ c. record {
      shown = sheet_of c.publisher.desk.shown.value;
      next = if c.is_open then sheet_of c.third.value else sheet_of c.publisher.desk.spare.value;
      behind = c.behind;
      is_open = c.is_open;
    } };

    ghost invariant = { λ c. (N < 4294967296) × (drop c.publisher.behind c.publisher.log.items ≡ []) };
}

// The copies, where the next one takes calls.
fn open<const N: usize, R: Wait>(copies: Copies<N>, rt: &R) -> (Copies<N>, ())
    requires { copies.is_open ≡ false }
    ensures { result.0 ≡ opened N copies.entry }
{
    let Copies {
        mut publisher,
        third,
        behind,
        is_open: _,
    } = copies;
    let (open, mut next) = publisher.desk.open(rt);
    bring_up(&mut next.book, &open.shown.get().book, behind);
    publisher.desk = open.shelve(third);
    let copies = Copies {
        publisher,
        third: next,
        behind: Behind::Nothing,
        is_open: true,
    };
    (copies, ())
}

// The copies, where the next one is shown, with this beginning of the history.
fn show<const N: usize, R: Wait>(copies: Copies<N>, given: (&R, Beginning)) -> (Copies<N>, ())
    requires open { copies.is_open ≡ true }
    requires follows { Follows N copies.shown (next_shown given.1 copies) }
    ensures { result.0 ≡ turned given.entry.1 copies.entry }
{
    let (rt, front) = given;
    let Copies {
        mut publisher,
        third: mut next,
        behind,
        is_open: _,
    } = copies;
    next.front = front;
    let (open, stand_in) = publisher.desk.open(rt);
    publisher.desk = open.show_as::<SeesPublished>(next);
    let copies = Copies {
        publisher,
        third: stand_in,
        behind,
        is_open: false,
    };
    (copies, ())
}

impl<const N: usize> Copies<N> {
    /// The copies of a publishing end, of which neither lacks anything, with a stand-in.
    pub(crate) fn over(publisher: Publisher<N>, stand_in: Box<PublishedTable<N>>) -> Copies<N>
        requires small { N < 4294967296 }
        requires pending { drop publisher.behind publisher.log.items ≡ [] }
        ensures shown { result.shown ≡ sheet_of publisher.entry.desk.shown.value }
        ensures next { result.next ≡ sheet_of publisher.entry.desk.spare.value }
        ensures behind { result.behind ≡ Nothing }
        ensures closed { result.is_open ≡ false }
    {
        Copies {
            publisher,
            third: stand_in,
            behind: Behind::Nothing,
            is_open: false,
        }
    }

    /// Whether the next copy takes calls.
    #[inline(always)]
    pub(crate) fn is_open(&self) -> bool
        ensures { result ≡ self.now.is_open }
    {
        self.is_open
    }

    /// Brings the next copy up to date, for calls. It waits for readers of that copy, and allocates nothing.
    #[inline(never)]
    pub(crate) fn open<R: Wait>(&mut self, rt: &R)
        requires { self.old.is_open ≡ false }
        ensures { self.new ≡ opened N self.old }
    {
        replace_with(self, rt, open)
    }

    /// The book that takes calls.
    #[inline(always)]
    pub(crate) fn running(&self) -> &Book<N>
        requires { self.now.is_open ≡ true }
        ensures { result.now ≡ self.now.next.book }
    {
        &self.third.book
    }

    /// Offers a call to the book that takes calls.
    #[inline(always)]
    pub(crate) fn take(&mut self, call: &Call)
        requires { self.old.is_open ≡ true }
        ensures { self.new ≡ with_call N call.now self.old }
    {
        self.third.book.offer_call(call);
        self.behind = self.behind.further(call.change());
    }

    /// Shows the copy that took calls, with this beginning of the history. It allocates nothing.
    #[inline(never)]
    pub(crate) fn show<R: Wait>(&mut self, rt: &R, front: Beginning)
        requires open { self.old.is_open ≡ true }
        requires follows { Follows N self.old.shown (next_shown front self.old) }
        ensures { self.new ≡ turned front self.old }
    {
        replace_with(self, (rt, front), show)
    }

    /// Takes them apart, once nobody reads.
    pub(crate) fn end<R: Wait>(self, rt: &R) {
        let Copies {
            publisher,
            third: _,
            behind: _,
            is_open: _,
        } = self;
        take_apart(rt, publisher);
    }
}
