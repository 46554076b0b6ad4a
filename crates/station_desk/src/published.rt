//! What is published to readers. There are two copies of it, and the desk changes the one that nobody reads.
use left_right::Absorb;
use station_book::Book;
use station_history::Beginning;
use station_journal::Limits;
use std::alloc::AllocError;

/// How a station began, beside its history: its limits, and the number of entries that it was resumed from.
#[derive(Clone, Copy)]
pub struct Origin {
    pub limits: Limits,
    pub resumed: u64,
}

/// A book, the beginning of the history that it matches, and the origin of the station, once there is one.
#[derive(Drop)]
pub struct PublishedTable<const N: usize> {
    pub book: Book<N>,
    pub front: Beginning,
    pub origin: Option<Origin>,
}

/// What a reader knows of a station. No value of it is made.
#[derive(Drop)]
pub struct Mark {
    pub front: Beginning,
    pub origin: Origin,
}

/// An operation that is never logged, since the desk brings the copies up to date itself.
#[derive(Drop)]
pub struct NoOperation;

impl<const N: usize> Absorb<NoOperation> for PublishedTable<N> {
    type State = ();

    ghost state = { λ s. tt };

    ghost applied = { λ s op. s };

    ghost never_fails = { Unit {0} };

    fn absorb_first(
        &mut self,
        _operation: &NoOperation,
        _other: &PublishedTable<N>,
    ) -> Result<(), AllocError> {
        Ok(())
    }
}
