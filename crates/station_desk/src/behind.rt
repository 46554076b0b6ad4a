//! How far one copy of a running book is behind another.
ghost use Rattle.std.specs.Prelude.{◌≡◌};
ghost use Rattle.station_desk.specs.Copies.{brought_up, further_behind};

use station_book::{Book, Change};

/// What a copy of a book lacks of the copy that is ahead of it.
#[derive(Clone, Copy, Debug)]
pub enum Behind {
    /// Nothing: they are the same.
    Nothing,
    /// One change.
    Change(Change),
    /// More than one change, so that it is copied whole.
    Many,
}

impl Behind {
    /// What the copy lacks once the other has one change more. A call without a change counts as many.
    #[inline(always)]
    pub(crate) fn further(self, change: Option<Change>) -> Behind
        ensures { result ≡ further_behind self change }
    {
        match self {
            Behind::Nothing => match change {
                Some(change) => Behind::Change(change),
                None => Behind::Many,
            },
            Behind::Change(_) | Behind::Many => Behind::Many,
        }
    }
}

/// Copies to the book what it lacks of the one that is ahead.
pub(crate) fn bring_up<const N: usize>(book: &mut Book<N>, ahead: &Book<N>, behind: Behind)
    ensures { book.new ≡ brought_up N ahead.now behind book.old }
{
    match behind {
        Behind::Nothing => {}
        Behind::Change(change) => book.catch_up(ahead, change),
        Behind::Many => book.copy_from(ahead),
    }
}
