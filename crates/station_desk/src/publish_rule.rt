//! The rule over what is published. A view is the mark of a station, or nothing yet.
use crate::published::{Mark, PublishedTable};
use atomic_table::{Join, Split};
use crossbeam_utils::rule::{Outcome, Protocol};
use left_right::reader::{Reader, Reading};

/// The rule: what is published is right, and all views are of one station.
pub struct PublishRule;

impl<const N: usize> Protocol<PublishedTable<N>, Option<Mark>> for PublishRule {
    ghost use Rattle.std.specs.Prelude.{None};
    ghost use Rattle.station_desk.specs.Published.{IsPublished, sheet_of};

    ghost holds = { λ x views. IsPublished N (sheet_of x) views };

    ghost first = { None };
}

/// A step of entering or publishing shows what is published afterwards.
pub struct SeesPublished;

impl<const N: usize> Outcome<PublishedTable<N>, Option<Mark>> for SeesPublished {
    ghost use Rattle.station_desk.specs.Published.{SawPublished, sheet_of};

    ghost then = { λ v x y w. SawPublished N v (sheet_of y) w };
}

/// A note gives a reader the writer's view.
pub(crate) struct PassesView;

impl Split<Option<Mark>> for PassesView {
    ghost left = { λ v. v };

    ghost right = { λ v. v };
}

impl Join<Option<Mark>> for PassesView {
    ghost use Rattle.std.specs.Prelude.{None};

    ghost both = { λ v w. w };

    ghost spent = { None };
}

/// A reader's place while it doesn't look.
pub type ReaderPlace<const N: usize> = Reader<PublishedTable<N>, Option<Mark>, PublishRule>;

/// A reader's place while it looks at what is published.
pub type LookingPlace<const N: usize> = Reading<PublishedTable<N>, Option<Mark>, PublishRule>;
