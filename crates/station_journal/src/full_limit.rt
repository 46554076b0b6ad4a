//! The limits for which calls are refused.
ghost use Rattle.std.specs.Prelude.{◌≡◌};
ghost use Rattle.station_journal.specs.FullLimit.{full_limit_of};

use crate::refusal::Refusal;

/// A limit for which calls are refused.
#[derive(Clone, Copy, Debug, PartialEq, Eq)]
pub enum FullLimit {
    /// The journal contains as many entries as its limit.
    Journal,
    /// As many aircraft are live as the table's limit, and a frame is of another one.
    Table,
}

impl FullLimit {
    /// The limit for which a call is refused so. `None` where it is refused for something else.
    pub fn of(refusal: Refusal) -> Option<FullLimit>
        ensures { result ≡ full_limit_of refusal }
    {
        match refusal {
            Refusal::JournalFull => Some(FullLimit::Journal),
            Refusal::BookFull => Some(FullLimit::Table),
            _ => None,
        }
    }
}
